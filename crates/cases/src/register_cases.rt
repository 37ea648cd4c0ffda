// The cases on registers, SCL times and addresses.
use crate::print;
use crate::print::Byte;
use hub::Hub;
use registers::power_up::PowerUp;
use registers::{PageAccess, RegisterFile, power_up, scl};
use std::{fmt, io};
use translation::{Addressed, Devices, PortDevice, ReadRefusal, Remote, WriteRefusal};

// The hub 0x3D at reset.
pub(crate) fn start() -> Hub {
    hub::hub_with(0x3D, power_up::registers_at(PowerUp::Reset))
}

pub(crate) fn write(hub: Hub, offset: u8, value: u8) -> Hub {
    hub::burst(hub, offset, &[value])
}

// The broadcast script of the data sheet, under a selection.
fn broadcast(selection: u8) -> Hub {
    let mut hub = write(start(), 0x4C, selection);
    hub = write(hub, 0x58, 0x58);
    hub = write(hub, 0x5C, 0x18);
    hub = write(hub, 0x5D, 0x60);
    write(hub, 0x65, 0x60)
}

// A device as it is printed: port:address, an s before the address of a serializer.
#[derive(Clone, Copy)]
struct Shown(PortDevice);

impl fmt::Display for Shown {
    fn fmt<W: fmt::Write>(&self, f: &mut fmt::Formatter<W>) -> fmt::Result {
        let port = self.0.port;
        let (sign, address) = match self.0.remote {
            Remote::Serializer { address } => ("s", address),
            Remote::Target { address, .. } => ("", address),
        };
        write!(f, "{port}:{sign}{}", Byte(address))
    }
}

fn print_write(
    rt: &impl Print,
    answer: Result<Addressed<Devices>, WriteRefusal>,
) -> io::Result<()> {
    match answer {
        Ok(Addressed::Hub) => print!(rt; " hub"),
        Ok(Addressed::NoDevice) => print!(rt; " none"),
        Ok(Addressed::Found(devices)) => {
            for k in 0..4 {
                if let Some(device) = devices.get(k) {
                    print!(rt; " {}", Shown(device))?;
                }
            }
            Ok(())
        }
        Err(refusal) => print::refusal(rt, refusal),
    }
}

fn print_read(
    rt: &impl Print,
    answer: Result<Addressed<PortDevice>, ReadRefusal>,
) -> io::Result<()> {
    match answer {
        Ok(Addressed::Hub) => print!(rt; " hub"),
        Ok(Addressed::NoDevice) => print!(rt; " none"),
        Ok(Addressed::Found(device)) => print!(rt; " {}", Shown(device)),
        Err(refusal) => print::refusal(rt, refusal),
    }
}

// What the register at `offset` reads after FF was written to it.
fn print_after_ff(rt: &impl Print, offset: u8) -> io::Result<()> {
    let read = hub::read(write(start(), offset, 0xFF), offset);
    println!(rt; "register {} after FF: {}", Byte(offset), Byte(read))
}

fn print_scl_times(rt: &impl Print, file: RegisterFile) -> io::Result<()> {
    println!(rt; " {} {}", scl::high_time(file), scl::low_time(file))
}

// The SCL times after `high` was written to SCL_HIGH_TIME and `low` to SCL_LOW_TIME.
fn print_scl_setting(rt: &impl Print, high: u8, low: u8) -> io::Result<()> {
    print!(rt;
        "SCL high and low time of {} and {}:",
        Byte(high),
        Byte(low)
    )?;
    let written = registers::write(registers::reset(), PageAccess::Selection, 0x0A, high);
    print_scl_times(
        rt,
        registers::write(written, PageAccess::Selection, 0x0B, low),
    )
}

// After reset, then the three settings of the data sheet's table 5-14.
fn print_scl_cases(rt: &impl Print) -> io::Result<()> {
    print!(rt; "SCL high and low time after reset:")?;
    print_scl_times(rt, registers::reset())?;
    print_scl_setting(rt, 0x7A, 0x7A)?;
    print_scl_setting(rt, 0x13, 0x25)?;
    print_scl_setting(rt, 0x06, 0x0C)
}

// Who hears a write to 30 after the broadcast script, and who answers a read of it.
fn print_broadcast(rt: &impl Print, name: &str, selection: u8) -> io::Result<()> {
    let hub = broadcast(selection);
    print!(rt; "{name}, write to 30:")?;
    print_write(rt, translation::who_hears_write(hub, 0x30))?;
    print!(rt; "\n{name}, read of 30:")?;
    print_read(rt, translation::who_answers_read(hub, 0x30))?;
    println!(rt; "")
}

pub(crate) fn run(rt: &impl Print) -> io::Result<()> {
    for offset in [0x1F, 0xB6, 0x4C] {
        print_after_ff(rt, offset)?;
    }
    print_scl_cases(rt)?;
    print_broadcast(rt, "broadcast", 0x0F)?;
    print_broadcast(rt, "ports 0 and 1, read port 2", 0x23)
}
