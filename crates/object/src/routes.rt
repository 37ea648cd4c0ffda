// The four ports: the output and the channels that their pictures leave on, with the lines that set them.
use crate::fields;
use crate::fields::OrNull;
use endstate::{EndState, channels};
use formats::Format;
use hub::forwarding;
use page::Pen;
use std::io;
use std::io::Write;

// The output of a port, none where it is not forwarded.
fn output(end: &EndState, port: u8) -> Option<u64> {
    match forwarding::route_of(end.hub, port) {
        Ok(Some(output)) => Some(output.csi as u64),
        _ => None,
    }
}

// The virtual channel of a port, in a format.
fn channel(end: &EndState, port: u8, format: Format) -> u8 {
    forwarding::data_identifier(end.hub, port, format) / 64
}

// The lines that set a port's route, its last field.
fn route_lines(pen: &mut Pen, end: &EndState, port: u8) -> io::Result<()> {
    let lines = channels::port_lines(end.state, port);
    let forwarding = fields::line(lines.forwarding);
    let raw10 = fields::line(lines.raw10);
    let raw12 = fields::line(lines.raw12);
    write!(
        pen,
        ",\"lines\":{{\"forwarding\":{forwarding},\"raw10\":{raw10},\"raw12\":{raw12}}}}}"
    )
}

fn port(pen: &mut Pen, end: &EndState, port: u8) -> io::Result<()> {
    let output = OrNull(output(end, port));
    let raw10 = channel(end, port, Format::Raw10);
    let raw12 = channel(end, port, Format::Raw12);
    write!(
        pen,
        "{{\"port\":{port},\"output\":{output},\"raw10\":{raw10},\"raw12\":{raw12}"
    )?;
    route_lines(pen, end, port)
}

pub fn all(pen: &mut Pen, end: &EndState) -> io::Result<()> {
    write!(pen, ",\"ports\":[")?;
    for number in 0..4u8 {
        if number != 0 {
            write!(pen, ",")?;
        }
        port(pen, end, number)?;
    }
    write!(pen, "]")
}
