// Which ports a write to an address reaches, and which ports no address reaches.
ghost use Rattle.std.specs.Prelude.{◌≡◌};
ghost use Rattle.translation.specs.Translation.{devices_of};
ghost use Rattle.ports.specs.PortMasks.{port_mask};
ghost use Rattle.clashes.specs.Addresses.{any_behind, address_reaches, is_reached, has_no_address};

use crate::channels;
use hub::Hub;
use translation::{Addressed, Devices};

// Whether one of the devices is behind a port.
fn any_behind(devices: Devices, port: u8) -> bool
    ensures { result ≡ any_behind port (devices_of devices) }
{
    for k in 0..4 {
        if let Some(device) = devices.get(k) {
            if device.port == port {
                return true;
            }
        }
    }
    false
}

// Whether a write to an address reaches a port.
#[tactic(auto, unfolding(crate::specs::Addresses::address_reaches))]
pub fn address_reaches(hub: Hub, address: u8, port: u8) -> bool
    ensures { result ≡ address_reaches hub address port }
{
    match translation::who_hears_write(hub, address) {
        Ok(Addressed::Found(devices)) => any_behind(devices, port),
        _ => false,
    }
}

// The ports that a write to an address reaches, as a mask.
#[tactic(auto, unfolding(ports::specs::PortMasks::port_mask))]
pub fn ports_of_address(hub: Hub, address: u8) -> u8
    ensures { result ≡ port_mask (address_reaches hub address) }
{
    ports::mask_of([0, 1, 2, 3].map(|port| address_reaches(hub, address, port)))
}

// Whether a write to some address reaches a port.
pub fn is_reached(hub: Hub, port: u8) -> bool
    ensures { result ≡ is_reached hub port }
{
    for address in 0..128u8 {
        if address_reaches(hub, address, port) {
            return true;
        }
    }
    false
}

// Whether a port is forwarded, and no address reaches it.
#[tactic(auto, unfolding(crate::specs::Addresses::has_no_address))]
pub fn has_no_address(hub: Hub, port: u8) -> bool
    ensures { result ≡ has_no_address hub port }
{
    channels::is_forwarded(hub, port) && !is_reached(hub, port)
}

// The forwarded ports that no address reaches, as a mask.
#[tactic(auto, unfolding(ports::specs::PortMasks::port_mask))]
pub fn ports_without_address(hub: Hub) -> u8
    ensures { result ≡ port_mask (has_no_address hub) }
{
    ports::mask_of([0, 1, 2, 3].map(|port| has_no_address(hub, port)))
}
