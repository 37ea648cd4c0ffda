// The program `convert`: turns an installer's script into a trace, and a trace into the text of a script. The front
// door runs it for the commands trace, run, text and start.
#![tactic(auto)]

mod part;
mod to_start;
mod to_text;
mod to_trace;

use console::say::Command;
use console::status::NotDone;
use console::{arguments, say, status};
use registers::power_up::PowerUp;
use std::fs::File;
use std::io::Stdin;
use std::process::ExitCode;
use std::random::RandomSource;
use std::rt::{Env, Files};

// How the hub starts, by a word for it.
fn start_of(word: &[u8]) -> Option<PowerUp> {
    match word {
        b"board" => Some(PowerUp::Boot),
        b"sheet" => Some(PowerUp::Reset),
        _ => None,
    }
}

// Says how the program is run.
fn say_use() -> NotDone {
    say::usage(
        "convert: ./loopcinder runs this program, as: convert trace board|sheet ADDRESS SCRIPT OUT PART, or: convert text TRACE, or: convert start TRACE\n",
    )
}

// A script to a trace, with the start that is named after the command.
fn trace(
    rt: &(impl Files<File = File> + Env + Print),
    stdin: Stdin,
    command: Command,
) -> Result<(), NotDone> {
    let mut buffer = io::buffer();
    match start_of(arguments::word_or_empty(rt, 2, &mut buffer)) {
        Some(start) => to_trace::run(rt, stdin, command, start),
        None => Err(say_use()),
    }
}

// The program's work, by the command that was typed.
fn convert(
    rt: &(impl Files<File = File> + Env + Print + RandomSource),
    stdin: Stdin,
    word: &[u8],
) -> Result<(), NotDone> {
    match (arguments::count(rt), word) {
        (7, b"trace") => trace(rt, stdin, Command::Trace),
        (7, b"run") => trace(rt, stdin, Command::Run),
        (3, b"text") => to_text::run(rt, stdin, Command::Text),
        (3, b"start") => to_start::run(rt, stdin, Command::Start),
        _ => Err(say_use()),
    }
}

fn main(rt: HostRuntime) -> ExitCode {
    let mut buffer = io::buffer();
    let word = arguments::word_or_empty(&rt, 1, &mut buffer);
    status::tell(convert(&rt, rt.stdin(), word))
}
