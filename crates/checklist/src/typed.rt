// A line of the script as it is typed, found again in the file; the file's place stays.
use console::opened::Opened;
use page::{Pen, shown};
use std::io;
use std::io::Write;
use words::{Place, Source};

// The column that a line's number ends before.
const NUMBER_END: u64 = 6;

// The file that is told about, open; where in it to begin, and whether it is a trace.
#[derive(Clone, Copy)]
pub struct File<'a> {
    pub opened: &'a Opened,
    pub start: u64,
    pub source: Source,
}

impl File<'_> {
    // The line with that number, or the record.
    pub(crate) fn place(self, number: u64) -> Place {
        Place {
            source: self.source,
            number,
        }
    }
}

// Writes a byte of the line, after the one before it, if any; blanks at its start are left out.
fn write_byte(pen: &mut Pen, before: Option<u8>, byte: u8) -> io::Result<Option<u8>> {
    if before.is_none() && (byte == b' ' || byte == b'\t') {
        return Ok(None);
    }
    shown::byte(pen, before, byte)?;
    Ok(Some(byte))
}

// How far the file is looked through: the number of the line that the next byte is of, and the byte of the wanted line
// that was written last.
#[derive(Clone, Copy)]
struct Search {
    line: u64,
    before: Option<u8>,
}

// Looks for a line's bytes in a piece of the file, and writes them; answers how far it came, none where the line ends.
fn take_bytes(
    pen: &mut Pen,
    search: Search,
    piece: &[u8],
    number: u64,
) -> io::Result<Option<Search>> {
    let Search {
        mut line,
        mut before,
    } = search;
    for byte in piece {
        if *byte != b'\n' {
            if line == number {
                before = write_byte(pen, before, *byte)?;
            }
        } else if line == number {
            return Ok(None);
        } else {
            line = line.wrapping_add(1);
        }
    }
    Ok(Some(Search { line, before }))
}

// Looks for the line, and writes it.
fn find_and_write(pen: &mut Pen, from: &Opened, number: u64) -> io::Result<()> {
    let mut piece = [0u8; 4096];
    let mut search = Search {
        line: 1,
        before: None,
    };
    for _ in 0..u64::MAX {
        let count = match from.read(&mut piece) {
            Ok(0) => return Ok(()),
            Ok(count) => count,
            Err(_) => return write!(pen, "(the line cannot be read again)"),
        };
        match take_bytes(pen, search, &piece[..count], number)? {
            Some(next) => search = next,
            None => return Ok(()),
        }
    }
    Ok(())
}

// A line of the script with its number, as it is typed; of a trace the number of the record. 0 is none. (The place of
// the file stays where a line cannot be written, too: whoever goes through the file goes on.)
pub(crate) fn line(pen: &mut Pen, file: File<'_>, number: u64) -> io::Result<()> {
    if number == 0 {
        return Ok(());
    }
    if file.source == Source::Trace {
        return writeln!(pen, "    record {number}");
    }
    pen.number_before(number, NUMBER_END)?;
    write!(pen, "  ")?;
    let place = file.opened.place();
    let _ = file.opened.go_to(file.start);
    let written = find_and_write(pen, file.opened, number);
    if let Ok(place) = place {
        let _ = file.opened.go_to(place);
    }
    written?;
    writeln!(pen)
}
