// A file that can be read once only, such as a pipe, copied into a temporary one that nobody else sees.
ghost use Rattle.std.specs.Prelude.{◌≡◌, length};

use crate::input::{EILSEQ, Input};
use crate::opened::Opened;
use crate::say::Command;
use crate::status::NotDone;
use crate::{input, say};
use buffers::text::lowercase_digit;
use std::fs::{File, OpenOptions};
use std::io::{Error, ErrorKind, Write};
use std::os::unix::fs::OpenOptionsExt;
use std::random::RandomSource;
use std::rt::Files;
use std::{fs, io};

// The system's number for an error: the name is taken.
const EEXIST: i32 = 17;

// So many names are tried.
const MOST_NAMES: u64 = 1000;

// Who may read and write the temporary file: its owner alone.
const OWNER_ONLY: u32 = 0o600;

// So many bytes are copied at once.
const PIECE: usize = 65536;

fn say_unspooled(command: Command, error: Error) -> NotDone {
    say::failed(command, b"cannot write a temporary file in /tmp", error)
}

// A name for the temporary file. (What is promised is its length, for it to be lent.)
fn name_of(random: [u8; 6]) -> [u8; 22]
    ensures { 22 ≡ length result }
{
    let mut name = *b"/tmp/loopcinder.XXXXXX";
    for (sign, byte) in name[16..].iter_mut().zip(random) {
        *sign = lowercase_digit(byte / 16);
    }
    name
}

// Makes a file that nobody else can open by its name for long, since the name goes at once.
fn make_named(rt: &impl Files<File = File>, name: &str) -> io::Result<File> {
    let mut options = OpenOptions::new();
    options
        .read(true)
        .write(true)
        .create_new(true)
        .mode(OWNER_ONLY);
    let file = options.open(rt, name)?;
    let _ = fs::remove_file(rt, name);
    Ok(file)
}

// Makes the file under a name of chance.
fn try_name(rt: &(impl Files<File = File> + RandomSource)) -> io::Result<File> {
    let mut random = [0u8; 6];
    rt.fill_bytes(&mut random)?;
    let name = name_of(random);
    match std::str::from_utf8(&name) {
        Ok(name) => make_named(rt, name),
        Err(_) => Err(Error::from_raw_os_error(EILSEQ)),
    }
}

// Makes the temporary file; it goes when it is closed.
fn make(rt: &(impl Files<File = File> + RandomSource), command: Command) -> Result<File, NotDone> {
    for _ in 0..MOST_NAMES {
        match try_name(rt) {
            Ok(file) => return Ok(file),
            Err(error) if error.kind() == ErrorKind::AlreadyExists => {}
            Err(error) => return Err(say_unspooled(command, error)),
        }
    }
    Err(say_unspooled(command, Error::from_raw_os_error(EEXIST)))
}

// Copies to the end; no file has as many pieces as there are turns.
fn copy_all(from: Input<'_>, to: &File, buffer: &mut [u8]) -> Result<(), NotDone> {
    let mut to = to;
    for _ in 0..u64::MAX {
        let count = input::read(from, buffer)?;
        if count == 0 {
            break;
        }
        to.write_all(&buffer[..count])
            .map_err(|error| say_unspooled(from.command, error))?;
    }
    Ok(())
}

// The copy, at its start; says so where it cannot be made.
pub fn copy(
    rt: &(impl Files<File = File> + RandomSource),
    from: Input<'_>,
) -> Result<Opened, NotDone> {
    let to = make(rt, from.command)?;
    let mut buffer = [0u8; PIECE];
    copy_all(from, &to, &mut buffer)?;
    let copy = Opened::File(to);
    copy.go_to(0)
        .map_err(|error| say_unspooled(from.command, error))?;
    Ok(copy)
}
