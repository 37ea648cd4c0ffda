// The case on frame numbers: with the largest number 4 the starts carry 1, 2, 3, 4, 1.
use crate::register_cases;
use frames::{end, start};
use hub::Hub;
use std::io;

// One frame of port 0; prints the number that its start carries.
fn frame(rt: &impl Print, hub: Hub) -> io::Result<Hub> {
    let mut packet = [0u8; 4];
    let opened = start::start(hub, 0, 10, &mut packet, 0);
    print!(rt; " {}", buffers::two_bytes(packet[1], packet[2]))?;
    let closed = end::end(opened.hub, 0, &mut packet, 0);
    Ok(closed.hub)
}

pub(crate) fn run(rt: &impl Print) -> io::Result<()> {
    print!(rt; "frame numbers after reset:")?;
    let mut hub = register_cases::write(register_cases::start(), 0x20, 0x00);
    for _ in 0..5 {
        hub = frame(rt, hub)?;
    }
    println!(rt; "")
}
