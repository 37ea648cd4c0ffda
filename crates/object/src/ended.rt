// The findings in the state at the end.
use crate::fields::QuotedHex;
use crate::findings;
use crate::findings::Finding;
use crate::grades::FindingGrade;
use endstate::{EndState, addresses, channels, lines, unset};
use formats::Format;
use page::Pen;
use registers::map;
use std::io;
use std::io::Write;
use words::OutputChannel;
use words::kinds::Kind;

// An output and channel that ports share, in a format.
fn channel(
    pen: &mut Pen,
    count: &mut u64,
    end: &EndState,
    shared: OutputChannel,
) -> io::Result<()> {
    let OutputChannel {
        format,
        output,
        channel,
    } = shared;
    let Some(clash) = channels::same_channel(end, format, output, channel) else {
        return Ok(());
    };
    let finding = Finding {
        kind: Kind::SameChannel,
        grade: clash.grade.into(),
        lines: clash.lines,
        ports: clash.ports,
    };
    findings::begin(pen, count, finding)?;
    let name = match format {
        Format::Raw10 => ",\"format\":\"raw10\"}",
        Format::Raw12 => ",\"format\":\"raw12\"}",
    };
    write!(pen, ",\"output\":{output},\"channel\":{channel}{name}")
}

pub fn same_channel(pen: &mut Pen, count: &mut u64, end: &EndState) -> io::Result<()> {
    for format in [Format::Raw10, Format::Raw12] {
        for output in 0..2u8 {
            for number in 0..4u8 {
                let shared = OutputChannel {
                    format,
                    output,
                    channel: number,
                };
                channel(pen, count, end, shared)?;
            }
        }
    }
    Ok(())
}

// The addresses that reach several ports.
pub fn same_address(pen: &mut Pen, count: &mut u64, end: &EndState) -> io::Result<()> {
    for address in 0..128u8 {
        if let Some(clash) = addresses::same_address(end, address) {
            let finding = Finding {
                kind: Kind::SameAddress,
                grade: clash.grade.into(),
                lines: clash.lines,
                ports: clash.ports,
            };
            findings::begin(pen, count, finding)?;
            write!(pen, ",\"address\":{}}}", QuotedHex(address))?;
        }
    }
    Ok(())
}

// A port, with the line that forwards it.
fn port(
    pen: &mut Pen,
    count: &mut u64,
    end: &EndState,
    kind: Kind,
    grade: FindingGrade,
    port: u8,
) -> io::Result<()> {
    let forwarding = origins::shared_origin(end.state, map::FWD_CTL1 as u8);
    let finding = Finding {
        kind,
        grade,
        lines: lines::with_line(lines::no_lines(), forwarding),
        ports: ports::mask_of_port(port),
    };
    findings::begin(pen, count, finding)?;
    write!(pen, "}}")
}

pub fn not_set_up(pen: &mut Pen, count: &mut u64, end: &EndState) -> io::Result<()> {
    for number in 0..4u8 {
        if unset::not_set_up(end, number) {
            port(pen, count, end, Kind::NotSetUp, FindingGrade::Wrong, number)?;
        }
    }
    Ok(())
}

pub fn no_address(pen: &mut Pen, count: &mut u64, end: &EndState) -> io::Result<()> {
    for number in 0..4u8 {
        if clashes::addresses::has_no_address(end.hub, number) {
            port(pen, count, end, Kind::NoAddress, FindingGrade::Note, number)?;
        }
    }
    Ok(())
}
