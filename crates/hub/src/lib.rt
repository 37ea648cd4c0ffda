// The hub: its own address on the bus, its register file, and what each port keeps of frames.
#![tactic(auto)]

ghost use Rattle.std.specs.Prelude.{◌≡◌};
ghost use Rattle.hub.specs.Hubs.{ArrayLengths, is_hub_address, hub_with, hub_at, creation_reply, creation_of};
ghost use Rattle.hub.specs.Hubs.{hub_asked};
ghost use Rattle.hub.specs.Refusals.{address_out_of_range_number};
ghost use Rattle.hub.specs.Hubs.{hub_burst, hub_read, port_frames, with_port_frames};

use formats::Format;
use refusals::Refusal;
use registers::power_up::PowerUp;
use registers::{PageAccess, RegisterFile, power_up};

pub mod forwarding;

// A port's last frame: none so far, or its format and number, and whether it is closed or open. (One enum of three
// cases: docs/DECISIONS.md, 2.)
#[derive(Clone, Copy)]
pub enum LastFrame {
    NoFrame,
    Closed(Format, u16),
    Open(Format, u16),
}

// What a port keeps of frames: a struct of one field, so that what it keeps beside the last frame has one place.
#[derive(Clone, Copy)]
pub struct PortFrames {
    pub last: LastFrame,
}

#[derive(Clone, Copy)]
pub struct Hub {
    pub address: u8,
    pub registers: RegisterFile,
    pub frames: [PortFrames; 4],
}

// The address may not be a hub's own.
#[derive(Clone, Copy)]
pub struct AddressOutOfRange;

impl Refusal for AddressOutOfRange {
    ghost number = { address_out_of_range_number };

    fn number(self) -> u8 {
        2
    }
}

// A hub is refused: why, and the hub that was asked for, which is none to use on a bus.
#[derive(Clone, Copy)]
pub struct NotCreated {
    pub refusal: AddressOutOfRange,
    pub hub: Hub,
}

// Whether the address may be a hub's own.
#[tactic(auto, unfolding(crate::specs::Hubs::is_hub_address))]
pub fn is_hub_address(address: u8) -> bool
    ensures { result ≡ is_hub_address address }
{
    (0x08..=0x77).contains(&address)
}

// A hub with an own address, the registers that it starts with and four ports that have had no frame. (Any address:
// `new` refuses those that may not be a hub's own.)
#[tactic(auto, unfolding(crate::specs::Hubs::hub_with))]
pub fn hub_with(address: u8, registers: RegisterFile) -> Hub
    ensures { result ≡ hub_with registers address }
{
    let port = PortFrames {
        last: LastFrame::NoFrame,
    };
    Hub {
        address,
        registers,
        frames: [port; 4],
    }
}

// A hub with an own address, as it starts.
#[tactic(auto, unfolding(crate::specs::Hubs::creation_with))]
pub fn new(address: u8, start: PowerUp) -> Result<Hub, NotCreated>
    ensures { (creation_reply result ≡ creation_of start address) × (hub_asked result ≡ hub_at start address) }
{
    let hub = hub_with(address, power_up::registers_at(start));
    if !is_hub_address(address) {
        return Err(NotCreated {
            refusal: AddressOutOfRange,
            hub,
        });
    }
    Ok(hub)
}

// The hub as it is. What is promised beside it holds of every value of the type: the arrays have their lengths.
pub fn array_lengths(hub: Hub) -> Hub
    ensures { (result ≡ hub) × ArrayLengths hub }
{
    hub
}

// A burst of register writes to the hub, under the page selection.
#[tactic(auto, unfolding(crate::specs::Hubs::hub_burst))]
pub fn burst(hub: Hub, offset: u8, values: &[u8]) -> Hub
    ensures { result ≡ hub_burst hub offset values.now }
{
    let before = hub.registers;
    let after = registers::burst(before, PageAccess::Selection, offset, values);
    let mut next = hub;
    next.registers = after;
    next
}

// The register at `offset` as the bus reads it, under the page selection.
#[tactic(auto, unfolding(crate::specs::Hubs::hub_read))]
pub fn read(hub: Hub, offset: u8) -> u8
    ensures { result ≡ hub_read hub offset }
{
    let file = hub.registers;
    registers::read(file, PageAccess::Selection, offset)
}

// What a port keeps of frames; of a port above 3, which there is none, what a port keeps at first.
pub fn port_frames(hub: Hub, port: u8) -> PortFrames
    ensures { result ≡ port_frames hub port }
{
    if 3 < port {
        return PortFrames {
            last: LastFrame::NoFrame,
        };
    }
    hub.frames[port as usize]
}

// The hub with all that a port keeps of frames replaced; there is no port above 3.
pub fn with_port_frames(hub: Hub, port: u8, frames: PortFrames) -> Hub
    ensures { result ≡ with_port_frames hub port frames }
{
    let mut next = hub;
    if port <= 3 {
        next.frames[port as usize] = frames;
    }
    next
}
