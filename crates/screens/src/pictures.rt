// The table of the ports: the output and the channels that their pictures leave on, each with the line that set it.
use crate::marks;
use clashes::channels as forwarded;
use endstate::channels::PortLines;
use endstate::{EndState, channels};
use hub::forwarding;
use page::Pen;
use std::io;
use std::io::Write;
use words::{Place, Source};

const RAW10_COLUMN: u64 = 33;

const RAW12_COLUMN: u64 = 57;

// The line that set something, or a star where it is as the chip starts.
fn set_by(pen: &mut Pen, source: Source, line: u64) -> io::Result<()> {
    if line == 0 {
        write!(pen, " *")
    } else {
        let number = line;
        write!(pen, " ({})", Place { source, number })
    }
}

fn channel(pen: &mut Pen, source: Source, channel: u8, line: u64) -> io::Result<()> {
    write!(pen, "channel {channel}")?;
    set_by(pen, source, line)
}

// The output and the channels of a port, or that it is not forwarded.
fn route(
    pen: &mut Pen,
    source: Source,
    end: &EndState,
    port: u8,
    lines: PortLines,
) -> io::Result<()> {
    let Ok(route) = forwarding::route_of(end.hub, port) else {
        return Ok(());
    };
    let Some(output) = route else {
        write!(pen, "not forwarded")?;
        return set_by(pen, source, lines.forwarding);
    };
    write!(pen, "output {}", output.csi)?;
    set_by(pen, source, lines.forwarding)?;
    pen.to_column(RAW10_COLUMN)?;
    channel(pen, source, output.raw10_vc, lines.raw10)?;
    pen.to_column(RAW12_COLUMN)?;
    channel(pen, source, output.raw12_vc, lines.raw12)
}

fn row(pen: &mut Pen, source: Source, end: &EndState, port: u8) -> io::Result<()> {
    let mark = marks::mark(marks::is_port_wrong(end, port));
    write!(pen, "{mark}port {port}  ")?;
    route(
        pen,
        source,
        end,
        port,
        channels::port_lines(end.state, port),
    )?;
    writeln!(pen)
}

// Whether a port's row has a star.
fn has_star(end: &EndState, port: u8) -> bool {
    let lines = channels::port_lines(end.state, port);
    if lines.forwarding == 0 {
        return true;
    }
    forwarded::is_forwarded(end.hub, port) && (lines.raw10 == 0 || lines.raw12 == 0)
}

pub fn table(pen: &mut Pen, source: Source, end: &EndState) -> io::Result<()> {
    write!(pen, "\nPictures leave on")?;
    pen.to_column(RAW10_COLUMN)?;
    write!(pen, "RAW10")?;
    pen.to_column(RAW12_COLUMN)?;
    writeln!(pen, "RAW12")?;
    let mut is_starred = false;
    for port in 0..4u8 {
        row(pen, source, end, port)?;
        is_starred = is_starred || has_star(end, port);
    }
    if is_starred {
        let star = match source {
            Source::Script => "  * as the chip starts: no line sets it",
            Source::Trace => "  * as the chip starts: no record sets it",
        };
        writeln!(pen, "{star}")?;
    }
    Ok(())
}
