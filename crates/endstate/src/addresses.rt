// The lines that make devices hear an address, and the ports that one address reaches, with the lines of the aliases.
ghost use Rattle.std.specs.Prelude.{◌≡◌, List, ◌∷◌, ◌++◌, ℕ, ◌+◌};
ghost use Rattle.origins.specs.Origins.{port_register};
ghost use Rattle.origins.specs.KeptOrigins.{kept_number};
ghost use Rattle.translation.specs.Translation.{devices_of, who_hears_write};
ghost use Rattle.endstate.specs.RisingLines.{rising_lines};
ghost use Rattle.endstate.specs.LineRows.{lines_row};
ghost use Rattle.endstate.specs.Gathering.{gathered_of};
ghost use Rattle.endstate.specs.Findings.{clash_of};
ghost use Rattle.endstate.specs.Addresses.{register_origin, alias_origin, remote_origin, device_origins};
ghost use Rattle.endstate.specs.Addresses.{devices_origins, alias_origins, hearers, address_lines, same_address};

use crate::findings::Clash;
use crate::gathering::Gathered;
use crate::lines::Lines;
use crate::{EndState, gathering, grading, lines};
use clashes::addresses;
use origins::RegistersWithOrigins;
use registers::map;
use translation::{Addressed, Devices, PortDevice, Remote};

// The origin of the register of a port that stands `number` places behind the first of a row; there is none past 0xFF.
fn origin_in_row(state: RegistersWithOrigins, port: u8, first: u8, number: u8) -> u64
    ensures { result ≡ kept_number state (port_register port (first + number)) }
{
    if 255 - first < number {
        return 0;
    }
    origins::port_origin(state, port, first + number)
}

// The origin of a register of a device: the serializer's, or that of the target with its number, in the row from
// `targets` on.
fn register_origin(
    state: RegistersWithOrigins,
    device: PortDevice,
    serializer: u8,
    targets: u8,
) -> u64
    ensures { result ≡ register_origin state device serializer targets }
{
    match device.remote {
        Remote::Serializer { .. } => origins::port_origin(state, device.port, serializer),
        Remote::Target { number, .. } => origin_in_row(state, device.port, targets, number),
    }
}

// The origin of a device's alias.
fn alias_origin(state: RegistersWithOrigins, device: PortDevice) -> u64
    ensures { result ≡ alias_origin state device }
{
    register_origin(
        state,
        device,
        map::SER_ALIAS_ID as u8,
        map::TARGET_ALIAS_0 as u8,
    )
}

// The origin of a device's remote address.
fn remote_origin(state: RegistersWithOrigins, device: PortDevice) -> u64
    ensures { result ≡ remote_origin state device }
{
    register_origin(state, device, map::SER_ID as u8, map::TARGET_ID_0 as u8)
}

// The lines, and those of a device: pass-through, alias and remote address.
fn with_device(lines: Lines, state: RegistersWithOrigins, device: PortDevice) -> Lines
    ensures { (numbers : List ℕ) → lines ≡ lines_row (rising_lines numbers)
        → result ≡ lines_row (rising_lines (device_origins state device ++ numbers)) }
{
    let with_remote = lines::with_line(lines, remote_origin(state, device));
    let with_alias = lines::with_line(with_remote, alias_origin(state, device));
    lines::with_line(
        with_alias,
        origins::port_origin(state, device.port, map::BCC_CONFIG as u8),
    )
}

// The lines of a device: those that set its pass-through, its alias and its remote address.
pub fn device_lines(state: RegistersWithOrigins, device: PortDevice) -> Lines
    ensures { result ≡ lines_row (rising_lines (device_origins state device)) }
{
    with_device(lines::no_lines(), state, device)
}

// The lines of some devices.
fn lines_of_devices(state: RegistersWithOrigins, devices: Devices) -> Lines
    ensures { result ≡ lines_row (rising_lines (devices_origins state (devices_of devices))) }
{
    let mut lines = lines::no_lines();
    // From the last device down, counted up: the invariant is over how many were gone through.
    for k in 0..4usize {
        if let Some(device) = devices.get(3 - k) {
            lines = with_device(lines, state, device);
        }
    }
    lines
}

// The lines of an address: those of each device that hears a write to it.
#[tactic(auto, unfolding(crate::specs::Addresses::address_lines, crate::specs::Addresses::devices_origins, crate::specs::RisingLines::rising_lines))]
pub fn address_lines(end: &EndState, address: u8) -> Lines
    ensures { result ≡ lines_row (address_lines end.now.hub end.now.state address) }
{
    match translation::who_hears_write(end.hub, address) {
        Ok(Addressed::Found(devices)) => lines_of_devices(end.state, devices),
        _ => lines::no_lines(),
    }
}

// The origins, and that of a device's alias before them.
fn with_alias(gathered: Gathered, state: RegistersWithOrigins, device: PortDevice) -> Gathered
    ensures { (numbers : List ℕ) → gathered ≡ gathered_of numbers
        → result ≡ gathered_of (alias_origin state device ∷ numbers) }
{
    gathering::with_origin(gathered, alias_origin(state, device))
}

// The origins of the aliases of some devices.
fn aliases_of_devices(state: RegistersWithOrigins, devices: Devices) -> Gathered
    ensures { result ≡ gathered_of (alias_origins state (devices_of devices)) }
{
    let mut gathered = gathering::nothing();
    // From the last device down, counted up: the invariant is over how many were gone through.
    for k in 0..4usize {
        if let Some(device) = devices.get(3 - k) {
            gathered = with_alias(gathered, state, device);
        }
    }
    gathered
}

// The origins of the aliases of the devices that hear a write to an address.
#[tactic(auto, unfolding(crate::specs::Addresses::alias_origins))]
fn aliases_that_match(end: &EndState, address: u8) -> Gathered
    ensures { result ≡ gathered_of (alias_origins end.now.state (hearers (who_hears_write end.now.hub address))) }
{
    match translation::who_hears_write(end.hub, address) {
        Ok(Addressed::Found(devices)) => aliases_of_devices(end.state, devices),
        _ => gathering::nothing(),
    }
}

// What is found of an address: the ports that a write to it reaches.
pub fn same_address(end: &EndState, address: u8) -> Option<Clash>
    ensures { result ≡ clash_of (same_address end.now.hub end.now.state address) }
{
    let ports = addresses::ports_of_address(end.hub, address);
    grading::shared_by(ports, aliases_that_match(end, address), false)
}
