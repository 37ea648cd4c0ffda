// A trace to text: convert text TRACE. The trace is read twice: once to see whether it has a text, once to print it.
ghost use Rattle.std.specs.Prelude.{◌≤◌, length};
ghost use Rattle.trace.specs.Framing.{longest_record};
ghost use Rattle.listing.specs.Listing.{longest_text};

use console::input::Input;
use console::say::Command;
use console::status::NotDone;
use console::{again, arguments, input, say};
use listing::TextRefusal;
use std::fs::File;
use std::io::Stdin;
use std::random::RandomSource;
use std::rt::{Env, Files};
use tracetext::TextRun;

// Goes through the trace; what is to be done with its text is done turn by turn. No file has as many turns as the loop
// (`TextHoweverCut` in `tracetext` says how many a trace takes; the rest of what it asks is required here).
fn take_all<F: FnMut(&[u8]) -> Result<(), NotDone>>(
    from: Input<'_>,
    buffer: &mut [u8],
    text: &mut [u8],
    mut take: F,
) -> Result<TextRun, NotDone>
    requires longest_record_in_bounds { longest_record ≤ length buffer.old }
    requires longest_text_in_bounds { longest_text ≤ length text.old }
    requires take_callable { F.IsAlwaysCallable take }
{
    let mut file = tracetext::new_file();
    for _ in 0..u64::MAX {
        let got = input::read_on(from, file.window, buffer)?;
        let turn = tracetext::turn(file, got, buffer, text);
        take(&text[..turn.end])?;
        file = turn.file;
        if turn.done {
            return Ok(file.run);
        }
    }
    Err(NotDone::Failed)
}

// Says in words why the trace has no text.
fn say_why(command: Command, refusal: TextRefusal, record: u64) {
    match refusal {
        TextRefusal::NoRecord => say::formatted(
            command,
            format_args!(
                "record {record} is missing, cut short, or not one that a trace has there; is this file a trace?\n"
            ),
        ),
        TextRefusal::AddressOutOfRange => say::words(
            command,
            b"the hub's address in record 1 has to lie in 08 to 77\n",
        ),
        TextRefusal::NoTextForm => say::formatted(
            command,
            format_args!(
                "record {record} is no register write: only the hub's address and register writes have a text\n"
            ),
        ),
    }
}

// Whether the trace, read to its end, has a text; says why it has none.
fn check(rt: &impl Print, command: Command, run: TextRun) -> Result<(), NotDone> {
    let Some(refusal) = tracetext::end_refusal(run) else {
        return Ok(());
    };
    say::refused(rt, command, refusal)?;
    say_why(command, refusal, tracetext::refused_record(run));
    Err(NotDone::Refused)
}

// Prints the text of the trace, from a place in the open file on, or says why there is none.
fn convert(rt: &impl Print, from: Input<'_>, start: u64) -> Result<(), NotDone> {
    let command = from.command;
    let mut buffer = io::large_buffer();
    let mut text = io::large_buffer();
    let seen = take_all(from, &mut buffer, &mut text, |_| Ok(()))?;
    check(rt, command, seen)?;
    from.opened
        .go_to(start)
        .map_err(|error| input::say_unread(command, from.path, error))?;
    let printed = take_all(from, &mut buffer, &mut text, |piece| {
        rt.write_all(piece).map_err(|error| say::unwritten(
            command,
            b"cannot write the text",
            error,
        ))
    })?;
    check(rt, command, printed)
}

// A file that cannot be read twice is copied first.
pub(crate) fn run(
    rt: &(impl Files<File = File> + Env + Print + RandomSource),
    stdin: Stdin,
    command: Command,
) -> Result<(), NotDone> {
    let mut buffer = io::buffer();
    let path = arguments::word(rt, 2, &mut buffer).map_err(|error| say::failed(
        command,
        b"cannot open the trace",
        error,
    ))?;
    let file = input::open(rt, stdin, command, path)?;
    let again = again::make(rt, command, file, path)?;
    let from = Input {
        command,
        opened: &again.file,
        path,
    };
    convert(rt, from, again.start)
}
