// Standard output with columns. What comes of a write is the system's to say, so contracts promise nothing of it.
#![tactic(auto)]

ghost use Rattle.std.specs.Prelude.{◌≡◌, ◌≤◌, length};

use std::io;
use std::io::{Stdout, Write};

pub mod number;
pub mod shown;

// The most spaces that are written at once.
const LINE: usize = 80;

// Where the page is written: standard output; and how many bytes stand on its line.
#[derive(Clone, Copy)]
pub struct Pen {
    pub out: Stdout,
    pub column: u64,
}

impl Pen {
    // At the start of the page.
    pub fn new(out: Stdout) -> Pen
        ensures { result ≡ record { out = out; column = 0 } }
    {
        Pen { out, column: 0 }
    }

    // Spaces, in pieces of at most a line of them.
    fn spaces(&mut self, count: u64) -> io::Result<()> {
        let line = [b' '; LINE];
        for _ in 0..count / LINE as u64 {
            self.write_all(&line)?;
        }
        self.write_all(&line[..(count % LINE as u64) as usize])
    }

    // Goes on in a column, after a space at least.
    pub fn to_column(&mut self, column: u64) -> io::Result<()> {
        self.spaces(column.saturating_sub(self.column).max(1))
    }
}

// How much of the bytes is written at once: all up to the end of a line, which is a piece of its own.
fn piece(bytes: &[u8]) -> &[u8]
    ensures { length result.now ≤ length bytes.now }
{
    match bytes.iter().position(|byte| *byte == b'\n') {
        None => bytes,
        Some(end) => &bytes[..end.max(1)],
    }
}

impl Write for Pen {
    fn write(&mut self, bytes: &[u8]) -> io::Result<usize> {
        let count = self.out.write(piece(bytes))?;
        for byte in &bytes[..count] {
            self.column = if *byte == b'\n' {
                0
            } else {
                self.column.wrapping_add(1)
            };
        }
        Ok(count)
    }

    fn flush(&mut self) -> io::Result<()> {
        self.out.flush()
    }
}

#[cfg(test)]
mod tests {
    use super::*;

    // From column 2 on, columns behind, near and far: a space at least, one piece of spaces, and more.
    #[test]
    fn goes_to_columns(rt: HostRuntime) -> io::Result<()> {
        for (column, reached) in [(0, 3), (2, 3), (6, 6), (82, 82), (83, 83), (200, 200)] {
            let mut pen = Pen::new(rt.stdout());
            write!(pen, "ab")?;
            pen.to_column(column)?;
            assert_eq!(rt; pen.column, reached, "for column {column}");
            writeln!(pen)?;
        }
        Ok(())
    }
}
