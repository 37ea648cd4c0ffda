// A file that is open for reading, or standard input.
ghost use Rattle.std.specs.Prelude.{◌≤◌, length, IfOk};

use std::fs::File;
use std::io::{Error, Read, Result, Seek, SeekFrom, Stdin};

// The system's number for an error: a file has no place to go to, as a pipe.
pub(crate) const ESPIPE: i32 = 29;

#[derive(Drop)]
pub enum Opened {
    Stdin(Stdin),
    File(File),
}

impl Opened {
    // Reads bytes into the buffer, at most as many as it has.
    pub fn read(&self, buffer: &mut [u8]) -> Result<usize>
        ensures { IfOk result (λ count. count ≤ length buffer.new) }
    {
        match self {
            Opened::Stdin(stdin) => {
                let mut from = *stdin;
                from.read(buffer)
            }
            Opened::File(file) => {
                let mut from = file;
                from.read(buffer)
            }
        }
    }

    // The place of the byte that is read next. Standard input is taken as it comes, and has none.
    pub fn place(&self) -> Result<u64> {
        match self {
            Opened::Stdin(_) => Err(Error::from_raw_os_error(ESPIPE)),
            Opened::File(file) => {
                let mut from = file;
                from.seek(SeekFrom::Current(0))
            }
        }
    }

    // Goes to that place.
    pub fn go_to(&self, place: u64) -> Result<u64> {
        match self {
            Opened::Stdin(_) => Err(Error::from_raw_os_error(ESPIPE)),
            Opened::File(file) => {
                let mut from = file;
                from.seek(SeekFrom::Start(place))
            }
        }
    }
}
