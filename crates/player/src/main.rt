// The program `player`: plays a trace file, and prints a line for each record and the counts. The front door runs it
// for the commands play and run.
#![tactic(auto)]

mod run;

use console::input::Input;
use console::say::Command;
use console::status::NotDone;
use console::{arguments, input, say, status};
use std::fs::File;
use std::io::Stdin;
use std::process::ExitCode;
use std::rt::{Env, Files};

// Plays the file that the second argument names.
fn play(
    rt: &(impl Files<File = File> + Env + Print),
    stdin: Stdin,
    command: Command,
) -> Result<(), NotDone> {
    let mut buffer = io::buffer();
    let path = arguments::word(rt, 2, &mut buffer).map_err(|error| say::failed(
        command,
        b"cannot open the trace",
        error,
    ))?;
    let opened = input::open(rt, stdin, command, path)?;
    let from = Input {
        command,
        opened: &opened,
        path,
    };
    run::play_file(rt, from)
}

// The program's work, by the command that was typed.
fn play_as(
    rt: &(impl Files<File = File> + Env + Print),
    stdin: Stdin,
    word: &[u8],
) -> Result<(), NotDone> {
    match (arguments::count(rt), word) {
        (3, b"play") => play(rt, stdin, Command::Play),
        (3, b"run") => play(rt, stdin, Command::Run),
        _ => Err(say::usage("player: ./loopcinder runs this program, as: player play FILE\n")),
    }
}

fn main(rt: HostRuntime) -> ExitCode {
    let mut buffer = io::buffer();
    let word = arguments::word_or_empty(&rt, 1, &mut buffer);
    status::tell(play_as(&rt, rt.stdin(), word))
}
