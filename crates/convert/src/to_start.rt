// The hub's address and start that a trace asks for: convert start TRACE. Only its first record is looked at.
use console::input::Input;
use console::say::Command;
use console::status::NotDone;
use console::{arguments, input, say};
use registers::power_up::PowerUp;
use std::fs::File;
use std::io::Stdin;
use std::rt::{Env, Files};
use tracewrites::{NextRecord, TraceRefusal};

// The one line.
fn line(rt: &impl Print, address: u8, start: PowerUp) -> std::io::Result<()> {
    print!(rt; "{address:02X}")?;
    rt.write_all(match start {
        PowerUp::Boot => b" board\n",
        PowerUp::Reset => b" sheet\n",
    })
}

// Prints it; says so where it cannot.
fn print(rt: &impl Print, command: Command, address: u8, start: PowerUp) -> Result<(), NotDone> {
    line(rt, address, start).map_err(|error| say::unwritten(
        command,
        b"cannot write the output",
        error,
    ))
}

// The trace has no start: says so, and why.
fn refuse(rt: &impl Print, command: Command, refusal: TraceRefusal) -> Result<(), NotDone> {
    say::refused(rt, command, refusal)?;
    say::words(
        command,
        match refusal {
            TraceRefusal::AddressOutOfRange => {
                b"the hub's address in record 1 has to lie in 08 to 77\n".as_slice()
            }
            TraceRefusal::MalformedRecord | TraceRefusal::EmptyTrace => {
                b"record 1 is missing, cut short, or not one that a trace has there; is this file a trace?\n"
            }
        },
    );
    Err(NotDone::Refused)
}

// Reads until the first record is there, or the trace is refused. No file has as many turns as the loop.
fn tell(rt: &impl Print, from: Input<'_>) -> Result<(), NotDone> {
    let mut buffer = io::large_buffer();
    let mut values = io::buffer();
    let mut file = tracewrites::new_file();
    for _ in 0..u64::MAX {
        let got = input::read_on(from, file.window, &mut buffer)?;
        let turn = tracewrites::turn(file, got, &mut buffer, &mut values);
        file = turn.file;
        if let Some(NextRecord::Hub { address, start }) = turn.next {
            return print(rt, from.command, address, start);
        }
        if turn.done {
            break;
        }
    }
    match file.refusal {
        Some(refusal) => refuse(rt, from.command, refusal),
        None => Err(NotDone::Failed),
    }
}

pub(crate) fn run(
    rt: &(impl Files<File = File> + Env + Print),
    stdin: Stdin,
    command: Command,
) -> Result<(), NotDone> {
    let mut buffer = io::buffer();
    let path = arguments::word(rt, 2, &mut buffer).map_err(|error| say::failed(
        command,
        b"cannot open the trace",
        error,
    ))?;
    let opened = input::open(rt, stdin, command, path)?;
    tell(
        rt,
        Input {
            command,
            opened: &opened,
            path,
        },
    )
}
