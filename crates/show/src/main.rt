// The program `show`: what a script or a trace comes to, on a screen or as an object for other programs. The front door
// runs it for the commands show and check.
#![tactic(auto)]

mod block;
mod check_screen;
mod facts;
mod found;
mod numbers;
mod object_all;
mod reading;
mod refused;
mod selected_again;
mod show_screen;
mod source;
mod stop;
mod survey;
mod walk;

use crate::facts::Facts;
use crate::reading::Reading;
use crate::source::HubStart;
use crate::stop::Stop;
use crate::survey::Survey;
use checklist::typed::File;
use console::say::Command;
use console::status::NotDone;
use console::{address, again, arguments, input, say, status};
use ordering::inside;
use page::Pen;
use registers::power_up::PowerUp;
use std::fs;
use std::io::{Stdin, Stdout};
use std::process::ExitCode;
use std::random::RandomSource;
use std::rt::{Env, Files};
use words::Source;

// What is asked for: show or check, as a screen or as the object for other programs.
#[derive(Clone, Copy)]
struct Asked {
    command: Command,
    object: bool,
}

// Standard input and standard output.
#[derive(Clone, Copy)]
struct Streams {
    stdin: Stdin,
    stdout: Stdout,
}

// A script on a hub, or a trace, which says itself what hub it is for; and which argument names the file.
#[derive(Clone, Copy)]
struct Given {
    source: Source,
    hub: HubStart,
    argument: usize,
}

impl Asked {
    fn is_check(self) -> bool {
        self.command == Command::Check
    }

    // A file that was not taken: for check the call failed.
    fn not_taken(self, refused: NotDone) -> NotDone {
        if self.is_check() && refused == NotDone::Refused {
            return NotDone::Failed;
        }
        refused
    }

    fn print(self, pen: &mut Pen, reading: &Reading<'_>, facts: &Facts) -> Result<(), Stop> {
        if self.object {
            return object_all::print(pen, reading, facts);
        }
        if self.is_check() {
            return check_screen::print(pen, reading, facts);
        }
        show_screen::print(pen, reading, facts)
    }
}

// Answers what the open file comes to; for check something that looks wrong counts as a refusal.
fn answer_open(out: Stdout, asked: Asked, reading: Reading<'_>) -> Result<(), NotDone> {
    let command = asked.command;
    let mut buffer = io::large_buffer();
    let mut survey = Survey::new();
    let run = walk::through(&reading, &mut survey, &mut buffer).map_err(|stop| stop.say(command))?;
    let taken = refused::test(&out, &reading, run.position, &mut buffer);
    taken.map_err(|refused| asked.not_taken(refused))?;
    let reading = Reading {
        hub: run.hub,
        whole: run.known.extent,
        ..reading
    };
    let facts = Facts::new(&run, &survey);
    let mut pen = Pen::new(out);
    asked
        .print(&mut pen, &reading, &facts)
        .map_err(|stop| stop.say(command))?;
    if asked.is_check() && facts.wrong != 0 {
        return Err(NotDone::Refused);
    }
    Ok(())
}

// Answers for the file that an argument names; one that cannot be read again is copied first.
fn answer(
    rt: &(impl Files<File = fs::File> + RandomSource + Env),
    streams: Streams,
    asked: Asked,
    given: Given,
) -> Result<(), NotDone> {
    let command = asked.command;
    let mut buffer = io::buffer();
    let word = arguments::word(rt, given.argument, &mut buffer);
    let path = word.map_err(|error| say::failed(command, b"cannot open the file", error))?;
    let opened = input::open(rt, streams.stdin, command, path)?;
    let again = again::make(rt, command, opened, path)?;
    let file = File {
        opened: &again.file,
        start: again.start,
        source: given.source,
    };
    let reading = Reading {
        command,
        path,
        file,
        hub: given.hub,
        whole: inside::start(),
    };
    answer_open(streams.stdout, asked, reading)
}

// The hub that a script is run on: a word for how it starts, and its address.
fn typed_hub(rt: &impl Env, out: &Stdout, asked: Asked) -> Result<HubStart, NotDone> {
    let command = asked.command;
    let mut buffer = io::buffer();
    let start = match arguments::word_or_empty(rt, 2, &mut buffer) {
        b"board" => PowerUp::Boot,
        b"sheet" => PowerUp::Reset,
        _ => return Err(say_use()),
    };
    let Some(address) = address::of_word(arguments::word_or_empty(rt, 3, &mut buffer)) else {
        return Err(address::say_form(command));
    };
    match scriptlines::check_address(address) {
        Ok(()) => Ok(HubStart { address, start }),
        Err(refusal) => { Err(asked.not_taken(address::refused(out, command, address, refusal))) }
    }
}

// A script on a hub, or a trace, by how many words there are.
fn typed(rt: &impl Env, out: &Stdout, asked: Asked, words: usize) -> Result<Given, NotDone> {
    match words {
        3 => Ok(Given {
            source: Source::Trace,
            hub: HubStart {
                address: 0x08,
                start: PowerUp::Boot,
            },
            argument: 2,
        }),
        5 => Ok(Given {
            source: Source::Script,
            hub: typed_hub(rt, out, asked)?,
            argument: 4,
        }),
        _ => Err(say_use()),
    }
}

// Says how the program is run.
fn say_use() -> NotDone {
    say::usage(
        "show: ./loopcinder runs this program, as: show show board|sheet ADDRESS SCRIPT, or: show show TRACE\n",
    )
}

// The program's work, by the words that it was given.
fn run(
    rt: &(impl Files<File = fs::File> + RandomSource + Env),
    streams: Streams,
) -> Result<(), NotDone> {
    let mut buffer = io::buffer();
    let (command, object) = match arguments::word_or_empty(rt, 1, &mut buffer) {
        b"show" => (Command::Show, false),
        b"check" => (Command::Check, false),
        b"json" => (Command::Show, true),
        b"check-json" => (Command::Check, true),
        _ => return Err(say_use()),
    };
    let asked = Asked { command, object };
    let given = typed(rt, &streams.stdout, asked, arguments::count(rt))?;
    answer(rt, streams, asked, given)
}

fn main(rt: HostRuntime) -> ExitCode {
    let streams = Streams {
        stdin: rt.stdin(),
        stdout: rt.stdout(),
    };
    status::tell(run(&rt, streams))
}
