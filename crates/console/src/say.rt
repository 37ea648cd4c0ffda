// What a program says: words on standard error, after the command that was typed; refusals on standard output.
ghost use Rattle.std.specs.Prelude.{◌≡◌};

use crate::reason::Reason;
use crate::shown;
use crate::status::NotDone;
use refusals::Refusal;
use std::fmt;
use std::fmt::Display;
use std::io::{Error, ErrorKind, Print, Write};

// The descriptor of standard error.
pub const STDERR_FILENO: i32 = 2;

// Standard error, by its number: std's handle for it would travel through every function that may fail. What cannot be
// said there is let go.
#[derive(Clone, Copy)]
pub(crate) struct Stderr;

impl Write for Stderr {
    fn write(&mut self, bytes: &[u8]) -> std::io::Result<usize> {
        io::write_all(STDERR_FILENO, bytes);
        Ok(bytes.len())
    }

    fn flush(&mut self) -> std::io::Result<()> {
        Ok(())
    }
}

// The command that was typed.
#[derive(Clone, Copy, PartialEq, Eq)]
pub enum Command {
    Run,
    Trace,
    Text,
    Play,
    Show,
    Check,
    Start,
}

impl Display for Command {
    fn fmt<W: fmt::Write>(&self, f: &mut fmt::Formatter<W>) -> fmt::Result {
        f.write_str(match self {
            Command::Run => "run",
            Command::Trace => "trace",
            Command::Text => "text",
            Command::Play => "play",
            Command::Show => "show",
            Command::Check => "check",
            Command::Start => "start",
        })
    }
}

// Words after the command; a line is not ended.
pub fn words(command: Command, text: &[u8]) {
    let _ = write!(Stderr, "loopcinder {command}: ");
    let _ = Stderr.write_all(text);
}

// The same of words that are put together.
pub fn formatted<D: Display + Drop>(command: Command, words: D) {
    let _ = write!(Stderr, "loopcinder {command}: {words}");
}

// A line that says how the program is run, with its end.
pub fn usage(line: &str) -> NotDone
    ensures { result ≡ NotDone.Failed }
{
    let _ = Stderr.write_all(line.as_bytes());
    NotDone::Failed
}

// What failed, and why, as the system says it.
pub fn failed(command: Command, what: &[u8], error: Error) -> NotDone
    ensures { result ≡ NotDone.Failed }
{
    words(command, what);
    let _ = writeln!(Stderr, ": {}", Reason(error));
    NotDone::Failed
}

// What failed with a file, and why, as the system says it.
pub fn file_failed(command: Command, what: &[u8], path: &[u8], error: Error) -> NotDone
    ensures { result ≡ NotDone.Failed }
{
    words(command, what);
    shown::name(path);
    let _ = writeln!(Stderr, ": {}", Reason(error));
    NotDone::Failed
}

// Standard output cannot be written: says what failed, and why; nothing where nobody reads it any more.
pub fn unwritten(command: Command, what: &[u8], error: Error) -> NotDone {
    if error.kind() == ErrorKind::BrokenPipe {
        return NotDone::Unread;
    }
    failed(command, what, error)
}

// Prints a refusal's number.
pub fn refusal(rt: &impl Print, number: u64) -> std::io::Result<()> {
    rt.write_all(b"! ")?;
    rt.print(number)?;
    rt.write_all(b"\n")
}

// Prints a refusal's number after that of its line.
pub fn refusal_at(rt: &impl Print, line: u64, number: u64) -> std::io::Result<()> {
    rt.print(line)?;
    rt.write_all(b" ")?;
    refusal(rt, number)
}

// Standard output takes no more of an answer: says so.
pub(crate) fn output_unwritten(command: Command, error: Error) -> NotDone {
    unwritten(command, b"cannot write the output", error)
}

// Prints the number of the reason; says so where it cannot.
pub fn refused<E: Refusal>(rt: &impl Print, command: Command, reason: E) -> Result<(), NotDone> {
    refusal(rt, reason.number().into()).map_err(|error| output_unwritten(command, error))
}

// Prints the number of the reason after that of its line; says so where it cannot.
pub fn refused_at<E: Refusal>(
    rt: &impl Print,
    command: Command,
    line: u64,
    reason: E,
) -> Result<(), NotDone> {
    refusal_at(rt, line, reason.number().into()).map_err(|error| output_unwritten(command, error))
}
