// A script to a trace: convert trace START ADDRESS SCRIPT OUT PART.
ghost use Rattle.std.specs.Prelude.{◌≤◌, ◌<◌, length};
ghost use Rattle.script.specs.Grammar.{longest_script_line};
ghost use Rattle.scriptlines.specs.TakenLines.{record_room};

use crate::part::Target;
use console::input::Input;
use console::say::Command;
use console::status::NotDone;
use console::{address, arguments, input, say};
use registers::power_up::PowerUp;
use script::records::LONGEST_HUB_RECORD;
use script::{LineRefusal, records};
use scriptlines::ScriptFile;
use std::fs::File;
use std::io::Stdin;
use std::rt::{Env, Files};

// Why no trace comes of a script: something failed, which was said, or a line is refused, at which the file stands.
#[derive(Clone, Copy)]
enum Stop {
    Said(NotDone),
    Refused(ScriptFile, LineRefusal),
}

impl From<NotDone> for Stop {
    fn from(said: NotDone) -> Stop {
        Stop::Said(said)
    }
}

// Writes the hub record.
fn write_hub(target: Target<'_>, part: &File, address: u8, start: PowerUp) -> Result<(), NotDone> {
    let mut record = [0u8; LONGEST_HUB_RECORD];
    records::put_hub(&mut record, 0, address, start);
    target.write(part, &record[..records::hub_length(start)])
}

// Converts the script, and answers whether it has a call. A proved loop has to end, and nothing says that a file does:
// no file has as many turns as this one (`ScriptHoweverCut` in `scriptlines` says how many a script takes; the rest of
// what it asks is required here).
fn take_all(
    from: Input<'_>,
    target: Target<'_>,
    part: &File,
    buffer: &mut [u8],
    lent: &mut [u8],
) -> Result<bool, Stop>
    requires longest_script_line_in_bounds { longest_script_line < length buffer.old }
    requires record_room_in_bounds { record_room ≤ length lent.old }
{
    let mut file = scriptlines::new_file();
    let mut has_call = false;
    for _ in 0..u64::MAX {
        let got = input::read_on(from, file.window, buffer)?;
        let turn = scriptlines::turn(file, got, buffer, lent);
        target.write(part, &lent[..turn.end])?;
        file = turn.file;
        has_call = has_call || turn.end != 0;
        if let Some(refusal) = file.run.refusal {
            return Err(Stop::Refused(file, refusal));
        }
        if turn.done {
            return Ok(has_call);
        }
    }
    Err(Stop::Said(NotDone::Failed))
}

// The script is refused: says so by its first refused line, and names all of them.
fn refuse(
    rt: &impl Print,
    from: Input<'_>,
    file: ScriptFile,
    refusal: LineRefusal,
    buffer: &mut [u8],
    lent: &mut [u8],
) -> Result<(), NotDone> {
    let line = scriptlines::refused_line(file.run);
    say::refused_at(rt, from.command, line, refusal)?;
    refusedlines::name_all(from, file, buffer, lent);
    Err(NotDone::Refused)
}

// The trace is kept; says so where the script has no call.
fn keep(
    rt: &impl Files<File = File>,
    target: Target<'_>,
    part: File,
    has_call: bool,
) -> Result<(), NotDone> {
    let kept = target.keep(rt, part);
    if !has_call {
        say::words(target.command, b"note: the script has no register write\n");
    }
    kept
}

// Converts the open script into the part; keeps it where the script was taken.
fn convert(
    rt: &(impl Files<File = File> + Print),
    from: Input<'_>,
    target: Target<'_>,
    address: u8,
    start: PowerUp,
) -> Result<(), NotDone> {
    let part = target.begin(rt)?;
    let mut buffer = io::large_buffer();
    let mut lent = io::large_buffer();
    if let Err(unwritten) = write_hub(target, &part, address, start) {
        target.discard(rt, part);
        return Err(unwritten);
    }
    match take_all(from, target, &part, &mut buffer, &mut lent) {
        Ok(has_call) => keep(rt, target, part, has_call),
        Err(stop) => {
            target.discard(rt, part);
            match stop {
                Stop::Said(said) => Err(said),
                Stop::Refused(file, refusal) => {
                    refuse(rt, from, file, refusal, &mut buffer, &mut lent)
                }
            }
        }
    }
}

// The hub's address, given as a word, where it is one that a hub may have.
fn address_of(rt: &impl Print, command: Command, word: &[u8]) -> Result<u8, NotDone> {
    let Some(address) = address::of_word(word) else {
        return Err(address::say_form(command));
    };
    scriptlines::check_address(address).map_err(|refusal| address::refused(
        rt, command, address, refusal,
    ))?;
    Ok(address)
}

pub(crate) fn run(
    rt: &(impl Files<File = File> + Env + Print),
    stdin: Stdin,
    command: Command,
    start: PowerUp,
) -> Result<(), NotDone> {
    let mut word = io::buffer();
    let mut script = io::buffer();
    let mut out = io::buffer();
    let mut part = io::buffer();
    let word = arguments::word_or_empty(rt, 3, &mut word);
    let path = arguments::word(rt, 4, &mut script).map_err(|error| say::failed(
        command,
        b"cannot open the script",
        error,
    ))?;
    let out = arguments::word(rt, 5, &mut out).map_err(|error| say::failed(
        command,
        b"cannot write the trace",
        error,
    ))?;
    let part = arguments::word(rt, 6, &mut part).map_err(|error| say::failed(
        command,
        b"cannot write the trace",
        error,
    ))?;
    let address = address_of(rt, command, word)?;
    let opened = input::open(rt, stdin, command, path)?;
    let from = Input {
        command,
        opened: &opened,
        path,
    };
    convert(rt, from, Target { command, out, part }, address, start)
}
