// A script or a trace that is not taken, in words.
use crate::reading::Reading;
use crate::source::Position;
use console::say;
use console::say::Command;
use console::status::NotDone;
use scriptlines::ScriptFile;
use std::io::Print;
use tracewrites::{TraceFile, TraceRefusal};

// Why the trace is not taken, with the number of the record. A file that does not begin as a trace may be a script.
fn say_why(command: Command, refusal: TraceRefusal, record: Option<u64>, first: u8) {
    match (refusal, record) {
        (TraceRefusal::EmptyTrace, _) => say::words(command, b"the trace is empty\n"),
        (TraceRefusal::AddressOutOfRange, _) => say::words(
            command,
            b"the hub's address in record 1 has to lie in 08 to 77\n",
        ),
        (TraceRefusal::MalformedRecord, Some(1)) if first != 0x9A => say::words(
            command,
            b"this file is no trace; a script needs the hub's address before it, as in 3D\n",
        ),
        (TraceRefusal::MalformedRecord, Some(record)) => say::formatted(
            command,
            format_args!("record {record} is cut short, or not one that a trace has there\n"),
        ),
        // tracewrites gives that refusal a record always.
        (TraceRefusal::MalformedRecord, None) => {}
    }
}

// Whether the trace is taken; a refused record stands at the buffer's start.
fn trace(rt: &impl Print, command: Command, file: TraceFile, buffer: &[u8]) -> Result<(), NotDone> {
    let Some(refusal) = file.refusal else {
        return Ok(());
    };
    let record = tracewrites::refused_record(file);
    match record {
        None => say::refused(rt, command, refusal)?,
        Some(record) => say::refused_at(rt, command, record, refusal)?,
    }
    say_why(command, refusal, record, buffers::byte_at(buffer, 0));
    Err(NotDone::Refused)
}

// Whether the script is taken; a refused line stands at the buffer's start, and all refused lines are named.
fn script(
    rt: &impl Print,
    reading: &Reading<'_>,
    file: ScriptFile,
    buffer: &mut [u8],
) -> Result<(), NotDone> {
    let Some(refusal) = file.run.refusal else {
        return Ok(());
    };
    let line = scriptlines::refused_line(file.run);
    say::refused_at(rt, reading.command, line, refusal)?;
    let mut records = io::buffer();
    refusedlines::name_all(reading.input(), file, buffer, &mut records);
    Err(NotDone::Refused)
}

// Whether the file is taken, of which the buffer holds what was read last; says why where it is not.
pub(crate) fn test(
    rt: &impl Print,
    reading: &Reading<'_>,
    position: Position,
    buffer: &mut [u8],
) -> Result<(), NotDone> {
    match position {
        Position::Script(file) => script(rt, reading, file, buffer),
        Position::Trace(file) => trace(rt, reading.command, file, buffer),
    }
}
