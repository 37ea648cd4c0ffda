// A finding: its kind, its grade, its lines and its ports, and what it is about.
use crate::fields::{LineList, PortList, QuotedHex};
use crate::grades;
use crate::grades::FindingGrade;
use endstate::lines;
use endstate::lines::Lines;
use origins::NumberedWrite;
use page::Pen;
use std::io;
use std::io::Write;
use words::kinds::Kind;

// What every finding has.
#[derive(Clone, Copy)]
pub(crate) struct Finding {
    pub kind: Kind,
    pub grade: FindingGrade,
    pub lines: Lines,
    pub ports: u8,
}

// A finding, after a comma but for the first; the brace is not closed.
pub(crate) fn begin(pen: &mut Pen, count: &mut u64, finding: Finding) -> io::Result<()> {
    if *count != 0 {
        write!(pen, ",")?;
    }
    *count = count.wrapping_add(1);
    let Finding {
        kind,
        grade,
        lines,
        ports,
    } = finding;
    write!(
        pen,
        "{{\"kind\":\"{kind}\",\"grade\":\"{grade}\",\"lines\":{},\"ports\":{}",
        LineList(lines),
        PortList(ports)
    )
}

// A finding at a write, with the number of an earlier write, if there is one, and the ports that it concerns.
pub fn at_write(
    pen: &mut Pen,
    count: &mut u64,
    kind: Kind,
    earlier: Option<u64>,
    write: NumberedWrite,
    ports: u8,
) -> io::Result<()> {
    let finding = Finding {
        kind,
        grade: grades::grade_at_write(kind),
        lines: lines::with_line(
            lines::with_line(lines::no_lines(), earlier.unwrap_or(0)),
            write.number,
        ),
        ports,
    };
    begin(pen, count, finding)?;
    write!(pen, ",\"register\":{}}}", QuotedHex(write.offset))
}
