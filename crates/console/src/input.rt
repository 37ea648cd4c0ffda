// A file that is read piece by piece into a buffer.
ghost use Rattle.std.specs.Prelude.{◌≤◌, length, IfOk};

use crate::opened::Opened;
use crate::say;
use crate::say::Command;
use crate::status::NotDone;
use std::fs::{File, OpenOptions};
use std::io;
use std::io::{Error, Stdin};
use std::rt::Files;
use streams::Window;

// The system's number for an error: bytes that are no text.
pub(crate) const EILSEQ: i32 = 84;

// The open file that a command reads, and its name.
#[derive(Clone, Copy)]
pub struct Input<'a> {
    pub command: Command,
    pub opened: &'a Opened,
    pub path: &'a [u8],
}

// Opens the file with that name for reading. (The system's names are bytes, those of std text.)
fn open_named(rt: &impl Files<File = File>, path: &[u8]) -> io::Result<File> {
    match std::str::from_utf8(path) {
        Ok(name) => OpenOptions::new().read(true).open(rt, name),
        Err(_) => Err(Error::from_raw_os_error(EILSEQ)),
    }
}

// Opens the file, or standard input where the path is -; says so where it cannot.
pub fn open(
    rt: &impl Files<File = File>,
    stdin: Stdin,
    command: Command,
    path: &[u8],
) -> Result<Opened, NotDone> {
    if path == b"-".as_slice() {
        return Ok(Opened::Stdin(stdin));
    }
    match open_named(rt, path) {
        Ok(file) => Ok(Opened::File(file)),
        Err(error) => Err(say::file_failed(command, b"cannot open: ", path, error)),
    }
}

// Says that the file cannot be read.
pub fn say_unread(command: Command, path: &[u8], error: Error) -> NotDone {
    if path == b"-".as_slice() {
        return say::failed(command, b"cannot read standard input", error);
    }
    say::file_failed(command, b"cannot read: ", path, error)
}

// Reads bytes of the file into the buffer; says so where it cannot.
pub(crate) fn read(input: Input<'_>, buffer: &mut [u8]) -> Result<usize, NotDone>
    ensures { IfOk result (λ count. count ≤ length buffer.new) }
{
    input
        .opened
        .read(buffer)
        .map_err(|error| say_unread(input.command, input.path, error))
}

// Reads the bytes of the file that the next turn wants, after those that the window holds.
pub fn read_on(input: Input<'_>, window: Window, buffer: &mut [u8]) -> Result<usize, NotDone> {
    if streams::wants_bytes(window, buffer.len()) {
        return read(input, &mut buffer[window.held..]);
    }
    Ok(0)
}
