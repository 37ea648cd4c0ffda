// Outputs and channels, and addresses, that several ports share, each with the script's lines as they are typed: those
// that look wrong are things of the list, and those that are meant stand under a heading of their own.
use crate::typed::File;
use crate::{things, typed};
use endstate::findings::Grade;
use endstate::lines::Lines;
use endstate::{EndState, addresses, channels};
use formats::Format;
use page::Pen;
use page::number::Hex;
use registers::bits;
use std::io;
use std::io::Write;
use words::kinds::Kind;
use words::{NamedPorts, OutputChannel, Ports};

// How a clash begins: with its number, or below the heading, which stands before the first clash that is meant.
fn begin(pen: &mut Pen, count: &mut u64, wanted: Grade) -> io::Result<()> {
    match wanted {
        Grade::Wrong => things::number(pen, *count)?,
        Grade::Meant => {
            if *count == 0 {
                writeln!(pen, "\nShared, perhaps as meant")?;
            }
            write!(pen, "  ")?;
        }
    }
    *count = count.wrapping_add(1);
    Ok(())
}

// The lines as they are typed.
fn typed_lines(pen: &mut Pen, file: File<'_>, lines: Lines) -> io::Result<()> {
    for number in lines.numbers {
        typed::line(pen, file, number)?;
    }
    Ok(())
}

// The ports that have their channel as the chip starts, and so no line to show.
fn started(pen: &mut Pen, end: &EndState, ports: u8, format: Format) -> io::Result<()> {
    for port in 0..4u8 {
        let lines = channels::port_lines(end.state, port);
        let line = match format {
            Format::Raw10 => lines.raw10,
            Format::Raw12 => lines.raw12,
        };
        if line == 0 && bits::is_set(ports, port) {
            writeln!(
                pen,
                "        port {port} has that channel as the chip starts"
            )?;
        }
    }
    Ok(())
}

// The clash on an output and channel, if it is wanted.
fn channel(
    pen: &mut Pen,
    count: &mut u64,
    wanted: Grade,
    file: File<'_>,
    end: &EndState,
    shared: OutputChannel,
) -> io::Result<()> {
    match channels::same_channel(end, shared.format, shared.output, shared.channel) {
        Some(clash) if clash.grade == wanted => {
            begin(pen, count, wanted)?;
            write!(pen, "Ports {} share {shared}", Ports(clash.ports))?;
            words::named(pen, Kind::SameChannel)?;
            typed_lines(pen, file, clash.lines)?;
            started(pen, end, clash.ports, shared.format)
        }
        _ => Ok(()),
    }
}

fn all_channels(
    pen: &mut Pen,
    count: &mut u64,
    wanted: Grade,
    file: File<'_>,
    end: &EndState,
) -> io::Result<()> {
    for format in [Format::Raw10, Format::Raw12] {
        for output in 0..2u8 {
            for number in 0..4u8 {
                let shared = OutputChannel {
                    format,
                    output,
                    channel: number,
                };
                channel(pen, count, wanted, file, end, shared)?;
            }
        }
    }
    Ok(())
}

fn all_addresses(
    pen: &mut Pen,
    count: &mut u64,
    wanted: Grade,
    file: File<'_>,
    end: &EndState,
) -> io::Result<()> {
    for address in 0..128u8 {
        match addresses::same_address(end, address) {
            Some(clash) if clash.grade == wanted => {
                begin(pen, count, wanted)?;
                write!(
                    pen,
                    "Address {} reaches {}",
                    Hex(address),
                    NamedPorts(clash.ports)
                )?;
                words::named(pen, Kind::SameAddress)?;
                typed_lines(pen, file, clash.lines)?;
            }
            _ => {}
        }
    }
    Ok(())
}

// All that are wanted.
pub fn clash_list(
    pen: &mut Pen,
    count: &mut u64,
    wanted: Grade,
    file: File<'_>,
    end: &EndState,
) -> io::Result<()> {
    all_channels(pen, count, wanted, file, end)?;
    all_addresses(pen, count, wanted, file, end)
}
