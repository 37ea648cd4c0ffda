// The notes on the screen of check: what is odd and need not be wrong, counted, with the numbers of its writes.
use clashes::addresses as reached;
use endstate::EndState;
use origins::NumberedWrite;
use page::Pen;
use page::number::Hex;
use std::io;
use std::io::Write;
use words::kinds::Kind;
use words::{NamedPorts, Place, PlaceWord, Source};

// So many odd values are explained.
const MOST_VALUES: u64 = 10;

// The heading, before the first note.
pub fn heading(pen: &mut Pen) -> io::Result<()> {
    writeln!(pen, "\nNotes")
}

// What the notes of a kind say: of one, and of several.
fn about(kind: Kind) -> Option<(&'static str, &'static str)> {
    match kind {
        Kind::PortTwice => Some((
            " selection of a port that was selected before",
            " selections of ports that were selected before",
        )),
        Kind::SharedInBlock => Some((
            " write to a shared register between the blocks",
            " writes to shared registers between the blocks",
        )),
        Kind::NotFollowed => Some((
            " write to a register that this model does not follow",
            " writes to registers that this model does not follow",
        )),
        Kind::BitsIgnored => Some((
            " write with bits that cannot be written",
            " writes with bits that cannot be written",
        )),
        Kind::NoChange => Some((" write that changes nothing", " writes that change nothing")),
        Kind::OddAlias => Some((" alias with an odd value", " aliases with an odd value")),
        _ => None,
    }
}

// The notes of a kind: how many there are.
pub fn named(pen: &mut Pen, kind: Kind, count: u64) -> io::Result<()> {
    write!(pen, "  ")?;
    if let Some((one, several)) = about(kind) {
        words::counted(pen, count, one.as_bytes(), several.as_bytes())?;
    }
    words::named(pen, kind)
}

// Their numbers follow.
pub fn begin(pen: &mut Pen, source: Source, kind: Kind, count: u64) -> io::Result<()> {
    named(pen, kind, count)?;
    let several = count != 1;
    write!(pen, "    {}", PlaceWord { source, several })
}

fn odd_value(pen: &mut Pen, source: Source, number: u64, value: u8) -> io::Result<()> {
    write!(pen, "    {}: 0x{}", Place { source, number }, Hex(value))?;
    if value < 2 {
        write!(pen, " means off")?;
    } else {
        write!(pen, " means address {}", Hex(value / 2))?;
    }
    if value <= 0x7F {
        let alias = 2 * value;
        write!(pen, "; for address {} write 0x{}", Hex(value), Hex(alias))?;
    }
    writeln!(pen)
}

// An odd value of an alias: the address that it means, and what to write for the one that was typed.
pub fn odd_alias(
    pen: &mut Pen,
    count: &mut u64,
    source: Source,
    write: NumberedWrite,
) -> io::Result<()> {
    if *count < MOST_VALUES {
        odd_value(pen, source, write.number, write.value)?;
    }
    *count = count.wrapping_add(1);
    Ok(())
}

// The end of the odd values.
pub fn end_values(pen: &mut Pen, count: u64) -> io::Result<()> {
    if MOST_VALUES < count {
        writeln!(pen, "    and {} more", count - MOST_VALUES)?;
    }
    Ok(())
}

// The forwarded ports that no address reaches.
pub fn no_address(pen: &mut Pen, end: &EndState) -> io::Result<()> {
    let ports = reached::ports_without_address(end.hub);
    if ports != 0 {
        write!(
            pen,
            "  forwarded, but no address reaches {}",
            NamedPorts(ports)
        )?;
        words::named(pen, Kind::NoAddress)?;
    }
    Ok(())
}
