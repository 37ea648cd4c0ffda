// Why a call failed, as the system says it.
ghost use Rattle.std.specs.Prelude.{◌≤◌, length};

use std::fmt;
use std::fmt::Display;
use std::io::{Error, Write};

// Room for every text of the system and a number after it.
const ROOM: usize = 320;

// The error in the system's words, without the number that std adds to them, as in (os error 2).
#[derive(Clone, Copy)]
pub struct Reason(pub Error);

// Puts std's text at the start of the buffer, and answers where it ends.
fn put_whole(error: Error, buffer: &mut [u8]) -> usize
    ensures { result ≤ length buffer.new }
{
    let size = buffer.len();
    let mut rest = &mut buffer[..];
    let _ = write!(rest, "{error}");
    size.saturating_sub(rest.len())
}

impl Display for Reason {
    fn fmt<W: fmt::Write>(&self, f: &mut fmt::Formatter<W>) -> fmt::Result {
        let mut buffer = [0u8; ROOM];
        let end = put_whole(self.0, &mut buffer);
        let whole = std::str::from_utf8(&buffer[..end]).unwrap_or("");
        match whole.split_once(" (os error ") {
            Some((words, _)) => f.write_str(words),
            None => f.write_str(whole),
        }
    }
}
