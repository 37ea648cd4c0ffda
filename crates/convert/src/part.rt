// The file that a trace is written to: PART, beside OUT, which becomes OUT when the whole script was taken.
use console::say;
use console::say::Command;
use console::status::NotDone;
use std::fs::{File, OpenOptions};
use std::io::{Error, Write};
use std::rt::Files;
use std::{fs, io};

// The system's number for an error: bytes that are no text.
const EILSEQ: i32 = 84;

// The command that writes the trace, the trace's name, OUT, and that of its part.
#[derive(Clone, Copy)]
pub(crate) struct Target<'a> {
    pub command: Command,
    pub out: &'a [u8],
    pub part: &'a [u8],
}

// A file's name as std takes it: as text. (The system's names are bytes.)
fn text_of(name: &[u8]) -> io::Result<&str> {
    std::str::from_utf8(name).map_err(|_| Error::from_raw_os_error(EILSEQ))
}

fn create(rt: &impl Files<File = File>, name: &[u8]) -> io::Result<File> {
    OpenOptions::new()
        .write(true)
        .create_new(true)
        .open(rt, text_of(name)?)
}

fn remove(rt: &impl Files<File = File>, name: &[u8]) {
    if let Ok(text) = text_of(name) {
        let _ = fs::remove_file(rt, text);
    }
}

// Closes the part, when all of it is on the disk: what a close would tell, this tells too.
fn close(part: File) -> io::Result<()> {
    part.sync_all()
}

impl Target<'_> {
    // Says that the trace cannot be written; where only its lines were asked for, it is a temporary file.
    fn say_unwritten(self, error: Error) -> NotDone {
        let what = match self.command {
            Command::Run => {
                "cannot write a temporary file (make room, or set TMPDIR to another folder): "
            }
            _ => "cannot write the trace: ",
        };
        say::file_failed(self.command, what.as_bytes(), self.out, error)
    }

    // Makes the part; says so where it cannot. A file that has the part's name already is not touched.
    pub(crate) fn begin(self, rt: &impl Files<File = File>) -> Result<File, NotDone> {
        create(rt, self.part).map_err(|error| self.say_unwritten(error))
    }

    // Writes records, or says that they cannot be written.
    pub(crate) fn write(self, part: &File, records: &[u8]) -> Result<(), NotDone> {
        let mut to = part;
        to.write_all(records)
            .map_err(|error| self.say_unwritten(error))
    }

    // The trace is not whole: OUT stays as it is.
    pub(crate) fn discard(self, rt: &impl Files<File = File>, part: File) {
        drop(part);
        remove(rt, self.part);
    }

    // The part becomes OUT.
    fn rename(self, rt: &impl Files<File = File>, part: File) -> io::Result<()> {
        close(part)?;
        fs::rename(rt, text_of(self.part)?, text_of(self.out)?)
    }

    // The trace is whole: it becomes OUT.
    pub(crate) fn keep(self, rt: &impl Files<File = File>, part: File) -> Result<(), NotDone> {
        match self.rename(rt, part) {
            Ok(()) => Ok(()),
            Err(error) => {
                let unwritten = self.say_unwritten(error);
                remove(rt, self.part);
                Err(unwritten)
            }
        }
    }
}
