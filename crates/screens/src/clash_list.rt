// Outputs and channels, and addresses, that several ports share.
use crate::marks;
use endstate::findings::{Clash, Grade};
use endstate::{EndState, addresses, channels};
use formats::Format;
use page::Pen;
use page::number::Hex;
use std::io;
use std::io::Write;
use words::{NamedPorts, OutputChannel, Ports};

// The start of a clash; the first one has the heading above it.
fn begin(pen: &mut Pen, count: &mut u64, clash: Clash) -> io::Result<()> {
    if *count == 0 {
        writeln!(pen, "\nClashes")?;
    }
    *count = count.wrapping_add(1);
    write!(pen, "{}", marks::mark(clash.grade == Grade::Wrong))
}

// The end of a line: whether the clash is graded as meant.
fn line_end(pen: &mut Pen, clash: Clash) -> io::Result<()> {
    match clash.grade {
        Grade::Meant => writeln!(pen, ", perhaps meant"),
        Grade::Wrong => writeln!(pen),
    }
}

fn channel(
    pen: &mut Pen,
    count: &mut u64,
    end: &EndState,
    shared: OutputChannel,
) -> io::Result<()> {
    if let Some(clash) = channels::same_channel(end, shared.format, shared.output, shared.channel) {
        begin(pen, count, clash)?;
        write!(pen, "ports {} share {shared}", Ports(clash.ports))?;
        line_end(pen, clash)?;
    }
    Ok(())
}

fn all_channels(pen: &mut Pen, count: &mut u64, end: &EndState) -> io::Result<()> {
    for format in [Format::Raw10, Format::Raw12] {
        for output in 0..2u8 {
            for number in 0..4u8 {
                let shared = OutputChannel {
                    format,
                    output,
                    channel: number,
                };
                channel(pen, count, end, shared)?;
            }
        }
    }
    Ok(())
}

fn all_addresses(pen: &mut Pen, count: &mut u64, end: &EndState) -> io::Result<()> {
    for address in 0..128u8 {
        if let Some(clash) = addresses::same_address(end, address) {
            begin(pen, count, clash)?;
            write!(
                pen,
                "address {} reaches {}",
                Hex(address),
                NamedPorts(clash.ports)
            )?;
            line_end(pen, clash)?;
        }
    }
    Ok(())
}

// The list, or that there is no clash.
pub fn clash_list(pen: &mut Pen, end: &EndState) -> io::Result<()> {
    let mut count = 0;
    all_channels(pen, &mut count, end)?;
    all_addresses(pen, &mut count, end)?;
    if count == 0 {
        writeln!(pen, "\nClashes: none")?;
    }
    Ok(())
}
