// A file that is read more than once: as it is, where it has a place to go back to; standard input opened again, where
// it is a file; or a copy.
use crate::input::Input;
use crate::opened::{ESPIPE, Opened};
use crate::say::Command;
use crate::status::NotDone;
use crate::{input, spool};
use std::fs::{File, OpenOptions};
use std::io::{Error, ErrorKind};
use std::random::RandomSource;
use std::rt::Files;
use std::{fs, io};

// Where the system has standard input as a file with a name, and where it tells its place.
const STDIN_NAME: &str = "/proc/self/fd/0";

const STDIN_PLACE: &str = "/proc/self/fdinfo/0";

// The open file, and the place of its first byte that counts.
#[derive(Drop)]
pub struct Again {
    pub file: Opened,
    pub start: u64,
}

// The place in a text whose first line is such as pos: 12. One that is no such number is taken as 0: in the memory of a
// process it can be negative.
fn place_in(text: &[u8]) -> Option<u64> {
    let text = std::str::from_utf8(text).ok()?;
    let line = text.lines().next()?;
    Some(line.strip_prefix("pos:")?.trim().parse().unwrap_or(0))
}

// The place of standard input's next byte.
fn stdin_place(rt: &impl Files<File = File>) -> io::Result<u64> {
    let told = Opened::File(OpenOptions::new().read(true).open(rt, STDIN_PLACE)?);
    let mut buffer = [0u8; 64];
    let count = told.read(&mut buffer)?;
    place_in(&buffer[..count]).ok_or(Error::from_raw_os_error(ESPIPE))
}

// Standard input opened a second time, at its place; an error where it is no file.
fn open_stdin(rt: &impl Files<File = File>) -> io::Result<Again> {
    if !fs::metadata(rt, STDIN_NAME)?.is_file() {
        return Err(Error::from_raw_os_error(ESPIPE));
    }
    let place = stdin_place(rt)?;
    let file = Opened::File(OpenOptions::new().read(true).open(rt, STDIN_NAME)?);
    let start = file.go_to(place)?;
    Ok(Again { file, start })
}

// What can be read only as it comes: standard input opened again where it can be, else a copy.
fn of_stream(
    rt: &(impl Files<File = File> + RandomSource),
    from: Input<'_>,
) -> Result<Again, NotDone> {
    if let Opened::Stdin(_) = from.opened {
        let mut nothing = [0u8; 0];
        input::read(from, &mut nothing)?;
        if let Ok(again) = open_stdin(rt) {
            return Ok(again);
        }
    }
    let file = spool::copy(rt, from)?;
    Ok(Again { file, start: 0 })
}

// The open file, to be read again from its place on; says so where it cannot be.
pub fn make(
    rt: &(impl Files<File = File> + RandomSource),
    command: Command,
    file: Opened,
    path: &[u8],
) -> Result<Again, NotDone> {
    match file.place() {
        Ok(start) => Ok(Again { file, start }),
        Err(error) if error.kind() == ErrorKind::NotSeekable => {
            let opened = &file;
            of_stream(
                rt,
                Input {
                    command,
                    opened,
                    path,
                },
            )
        }
        Err(error) => Err(input::say_unread(command, path, error)),
    }
}
