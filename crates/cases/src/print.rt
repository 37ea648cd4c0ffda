// How bytes, counts and refusals are printed.
use refusals::Refusal;
use std::fmt::Display;
use std::io::{Print, Stdout, Write};
use std::{fmt, io};

// Standard output, piece by piece. One that cannot be written is not told, and the next one is tried: whoever runs the
// cases compares what they printed.
#[derive(Clone, Copy)]
pub(crate) struct Output(pub Stdout);

impl Write for Output {
    fn write(&mut self, bytes: &[u8]) -> io::Result<usize> {
        let _ = Print::write_all(&self.0, bytes);
        Ok(bytes.len())
    }

    fn flush(&mut self) -> io::Result<()> {
        Ok(())
    }
}

impl Print for Output {
    fn print<D: Display + Drop>(&self, value: D) -> io::Result<()> {
        let mut pieces = *self;
        write!(pieces, "{value}")
    }

    fn println<D: Display + Drop>(&self, value: D) -> io::Result<()> {
        let mut pieces = *self;
        writeln!(pieces, "{value}")
    }

    fn write_all(&self, bytes: &[u8]) -> io::Result<()> {
        let mut pieces = *self;
        Write::write_all(&mut pieces, bytes)
    }
}

// A byte as two digits of hexadecimal, each a piece.
#[derive(Clone, Copy)]
pub(crate) struct Byte(pub u8);

impl fmt::Display for Byte {
    fn fmt<W: fmt::Write>(&self, f: &mut fmt::Formatter<W>) -> fmt::Result {
        write!(f, "{:X}{:X}", self.0 / 16, self.0 % 16)
    }
}

// Bytes as hexadecimal, run together.
#[derive(Clone, Copy)]
pub(crate) struct Bytes<'a>(pub &'a [u8]);

impl<'a> fmt::Display for Bytes<'a> {
    fn fmt<W: fmt::Write>(&self, f: &mut fmt::Formatter<W>) -> fmt::Result {
        for byte in self.0 {
            write!(f, "{}", Byte(*byte))?;
        }
        Ok(())
    }
}

// A refusal: its number after an exclamation mark.
pub(crate) fn refusal<E: Refusal>(rt: &impl Print, refusal: E) -> io::Result<()> {
    print!(rt; " ")?;
    print!(rt; "!")?;
    print!(rt; " {}", refusal.number())
}

// How many bytes or pixels there are, or why there are none.
pub(crate) fn count<E: Refusal>(
    rt: &impl Print,
    answer: Result<usize, E>,
    unit: &str,
) -> io::Result<()> {
    match answer {
        Ok(count) => print!(rt; " {count}{unit}"),
        Err(refusal) => self::refusal(rt, refusal),
    }
}
