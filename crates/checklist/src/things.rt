// The things that look wrong, on the screen of check, each with the script's lines as they are typed. Only blocks and
// writes may be many: of each of the two the first are printed.
use crate::meaning::Change;
use crate::typed::File;
use crate::{meaning, typed};
use endstate::{EndState, unset};
use ordering::ticks;
use ordering::ticks::Ticks;
use origins::NumberedWrite;
use page::Pen;
use page::number::Hex;
use registers::map;
use std::io;
use std::io::Write;
use words::kinds::Kind;
use words::{Capital, Source};

// So many blocks and so many writes are printed; those behind them are counted.
const MOST_PRINTED: u64 = 20;

// The number of the next thing, after so many.
pub(crate) fn number(pen: &mut Pen, count: u64) -> io::Result<()> {
    write!(pen, "\n{} ", count.wrapping_add(1))
}

// A block selects a port again, and replaces something of it. Blocks are the first things.
pub fn selected_again(
    pen: &mut Pen,
    count: &mut u64,
    file: File<'_>,
    port: u8,
    first: u64,
    again: u64,
) -> io::Result<()> {
    let before = *count;
    *count = before.wrapping_add(1);
    if MOST_PRINTED <= before {
        return Ok(());
    }
    number(pen, before)?;
    let earlier = file.place(first);
    let place = Capital(file.place(again));
    write!(pen, "{place} selects port {port} again, as {earlier} did")?;
    words::named(pen, Kind::PortTwice)?;
    typed::line(pen, file, first)?;
    typed::line(pen, file, again)
}

// It does so with a port more, if it was printed: the last of so many.
pub fn selected_too(
    pen: &mut Pen,
    count: u64,
    file: File<'_>,
    port: u8,
    first: u64,
) -> io::Result<()> {
    if MOST_PRINTED < count {
        return Ok(());
    }
    let earlier = file.place(first);
    write!(pen, "  It selects port {port} again too, as {earlier} did")?;
    words::named(pen, Kind::PortTwice)?;
    typed::line(pen, file, first)
}

// A write that replaces what another one, the origin, set on a port.
#[derive(Clone, Copy)]
pub struct Replacement {
    pub port: u8,
    pub change: Change,
    pub origin: u64,
    pub write: u64,
}

// What the block replaces on a port, if it was printed: the last of so many.
pub fn replaced(
    pen: &mut Pen,
    count: u64,
    file: File<'_>,
    replacement: Replacement,
) -> io::Result<()> {
    if MOST_PRINTED < count {
        return Ok(());
    }
    write!(pen, "  On port {} it replaces ", replacement.port)?;
    meaning::replaced_by(pen, replacement.change)?;
    words::named(pen, Kind::Replaced)?;
    typed::line(pen, file, replacement.origin)?;
    typed::line(pen, file, replacement.write)
}

// A per-port register is written while no port is selected; `first` is how many things stand before the first such.
pub fn no_port(
    pen: &mut Pen,
    count: &mut u64,
    first: u64,
    file: File<'_>,
    write: NumberedWrite,
) -> io::Result<()> {
    let before = *count;
    *count = before.wrapping_add(1);
    if first.wrapping_add(MOST_PRINTED) <= before {
        return Ok(());
    }
    number(pen, before)?;
    let NumberedWrite { number, offset, .. } = write;
    let place = Capital(file.place(number));
    write!(
        pen,
        "{place} writes register {} while no port is selected",
        Hex(offset)
    )?;
    words::named(pen, Kind::NoPort)?;
    typed::line(pen, file, number)
}

// What selects the port: nothing, or a line that sets none of its registers.
fn selection(pen: &mut Pen, file: File<'_>, port: u8, tick: Option<u64>) -> io::Result<()> {
    match tick {
        None => {
            let nothing = match file.source {
                Source::Script => "  No line",
                Source::Trace => "  No record",
            };
            let value = Hex(16 * (port % 4) + ports::mask_of_port(port) % 16);
            writeln!(
                pen,
                "{nothing} selects port {port}; WriteI2C(0x4C,0x{value}) would."
            )
        }
        Some(line) => {
            let place = Capital(file.place(line));
            writeln!(
                pen,
                "  {place} selects port {port}, but none of its registers is set."
            )
        }
    }
}

// A port that is forwarded and was not set up, with the last selection of it, and which bit of FWD_CTL1 keeps it from
// being forwarded.
fn unset_port(
    pen: &mut Pen,
    count: &mut u64,
    file: File<'_>,
    end: &EndState,
    port: u8,
    tick: Option<u64>,
) -> io::Result<()> {
    number(pen, *count)?;
    *count = count.wrapping_add(1);
    write!(pen, "Port {port} is forwarded, but nothing sets it up")?;
    words::named(pen, Kind::NotSetUp)?;
    let register = map::FWD_CTL1 as u8;
    typed::line(pen, file, origins::shared_origin(end.state, register))?;
    selection(pen, file, port, tick)?;
    let bit = 4 + port % 4;
    writeln!(
        pen,
        "  If no camera is there, it need not be forwarded: bit {bit} of register {}.",
        Hex(register)
    )
}

// The ports that are forwarded and were not set up.
pub fn not_set_up(
    pen: &mut Pen,
    count: &mut u64,
    file: File<'_>,
    end: &EndState,
    ticks: Ticks,
) -> io::Result<()> {
    for port in 0..4u8 {
        if unset::not_set_up(end, port) {
            unset_port(pen, count, file, end, port, ticks::last_tick(ticks, port))?;
        }
    }
    Ok(())
}

// How many of the things from `before` on, of so many, were only counted.
pub fn more(pen: &mut Pen, count: u64, before: u64) -> io::Result<()> {
    let printed = before.wrapping_add(MOST_PRINTED);
    if printed < count {
        writeln!(pen, "\nand {} more like these", count - printed)?;
    }
    Ok(())
}
