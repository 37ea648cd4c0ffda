// The table of the addresses on the bus: who hears a write, and who answers a read where that is not the same.
use crate::marks;
use clashes::addresses as reached;
use endstate::{EndState, addresses, wrong};
use origins::RegistersWithOrigins;
use page::Pen;
use page::number::Hex;
use registers::map;
use std::io::Write;
use std::{fmt, io};
use translation::{Addressed, Devices, PortDevice, ReadRefusal, Remote};
use words::{NamedPorts, Place, Source, ThreeLines};

const LINES_COLUMN: u64 = 33;

// An address that a device heard until a write gave its alias another: the write that had set the alias and that other
// one, and whether that one replaced it, which looks wrong.
#[derive(Clone, Copy)]
pub struct LostAlias {
    pub set: u64,
    pub changed: u64,
    pub is_wrong: bool,
}

// A device with its port.
#[derive(Clone, Copy)]
struct Named(PortDevice);

impl fmt::Display for Named {
    fn fmt<W: fmt::Write>(&self, f: &mut fmt::Formatter<W>) -> fmt::Result {
        let port = self.0.port;
        match self.0.remote {
            Remote::Serializer { address } => {
                write!(f, "port {port}, serializer {}", Hex(address))
            }
            Remote::Target { address, .. } => write!(f, "port {port}, camera {}", Hex(address)),
        }
    }
}

// The line that set the device's own address, 0 for none.
fn own_line(state: RegistersWithOrigins, device: PortDevice) -> u64 {
    let offset = match device.remote {
        Remote::Serializer { .. } => map::SER_ID as u8,
        Remote::Target { number, .. } => (map::TARGET_ID_0 as u8).wrapping_add(number),
    };
    origins::port_origin(state, device.port, offset)
}

// A device, with the lines that make it hear the address, and whether its own address was set.
fn device_row(
    pen: &mut Pen,
    source: Source,
    state: RegistersWithOrigins,
    device: PortDevice,
) -> io::Result<()> {
    write!(pen, "{}", Named(device))?;
    if own_line(state, device) == 0 {
        write!(pen, " (not set)")?;
    }
    pen.to_column(LINES_COLUMN)?;
    let lines = addresses::device_lines(state, device);
    writeln!(pen, "{}", ThreeLines { source, lines })
}

// Who answers a read of an address whose writes reach several ports.
fn read_row(pen: &mut Pen, end: &EndState, address: u8) -> io::Result<()> {
    match translation::who_answers_read(end.hub, address) {
        Err(ReadRefusal::Unclear) => writeln!(pen, "      a read has no clear answer (refusal 9)"),
        Ok(Addressed::Found(device)) => writeln!(
            pen,
            "      a read is answered by {}",
            Named(device)
        ),
        _ => Ok(()),
    }
}

// The devices of an address, the first in the address's own row.
fn device_rows(
    pen: &mut Pen,
    source: Source,
    end: &EndState,
    address: u8,
    devices: Devices,
) -> io::Result<()> {
    for k in 0..4 {
        if let Some(device) = devices.get(k) {
            if k != 0 {
                write!(pen, "      ")?;
            }
            device_row(pen, source, end.state, device)?;
        }
    }
    match devices {
        Devices::One(_) => Ok(()),
        _ => read_row(pen, end, address),
    }
}

// The address at the start of its row, marked where it reaches several ports and that looks wrong.
fn address_named(pen: &mut Pen, end: &EndState, address: u8) -> io::Result<()> {
    let is_marked = wrong::is_wrong(addresses::same_address(end, address));
    write!(pen, "{}{}  ", marks::mark(is_marked), Hex(address))
}

// An address that nobody hears, and that a device heard until its alias got another.
fn lost_row(pen: &mut Pen, source: Source, address: u8, lost: LostAlias) -> io::Result<()> {
    write!(
        pen,
        "{}{}  nobody any more",
        marks::mark(lost.is_wrong),
        Hex(address)
    )?;
    pen.to_column(LINES_COLUMN)?;
    let set = Place {
        source,
        number: lost.set,
    };
    let changed = Place {
        source,
        number: lost.changed,
    };
    writeln!(pen, "{set}, replaced by {changed}")
}

fn row(
    pen: &mut Pen,
    source: Source,
    end: &EndState,
    address: u8,
    lost: Option<LostAlias>,
) -> io::Result<()> {
    match translation::who_hears_write(end.hub, address) {
        Ok(Addressed::Hub) => {
            address_named(pen, end, address)?;
            writeln!(pen, "the hub itself")
        }
        Ok(Addressed::NoDevice) => match lost {
            Some(alias) => lost_row(pen, source, address, alias),
            None => Ok(()),
        },
        Ok(Addressed::Found(devices)) => {
            address_named(pen, end, address)?;
            device_rows(pen, source, end, address, devices)
        }
        Err(_) => Ok(()),
    }
}

pub fn table(
    pen: &mut Pen,
    source: Source,
    end: &EndState,
    lost: &[Option<LostAlias>; 128],
) -> io::Result<()> {
    writeln!(pen, "\nAddresses on the bus")?;
    for address in 0..128u8 {
        row(pen, source, end, address, lost[address as usize])?;
    }
    writeln!(pen, "  All other addresses reach nobody.")?;
    let ports = reached::ports_without_address(end.hub);
    if ports != 0 {
        writeln!(
            pen,
            "  No address reaches {}, whose pictures are forwarded.",
            NamedPorts(ports)
        )?;
    }
    Ok(())
}
