// The lines of a port's route, and the ports that share a CSI output and virtual channel, with the lines that set it.
ghost use Rattle.std.specs.Prelude.{◌≡◌, List, ℕ};
ghost use Rattle.laws.specs.Bits.{bit};
ghost use Rattle.origins.specs.Origins.{port_register};
ghost use Rattle.origins.specs.KeptOrigins.{kept_number};
ghost use Rattle.endstate.specs.Gathering.{gathered_of};
ghost use Rattle.endstate.specs.Findings.{clash_of};
ghost use Rattle.endstate.specs.Channels.{port_lines, identifier_register, if_in, port_numbers};
ghost use Rattle.endstate.specs.Channels.{sync_forwarding, asks_for_lines, same_channel};

use crate::findings::Clash;
use crate::gathering::Gathered;
use crate::{EndState, gathering, grading};
use clashes::channels;
use formats::Format;
use hub::Hub;
use origins::RegistersWithOrigins;
use registers::{bits, map};

// The lines that set a port's route, 0 for none (the numbers of origins).
#[derive(Clone, Copy)]
pub struct PortLines {
    pub forwarding: u64,
    pub raw10: u64,
    pub raw12: u64,
}

// The lines that set FWD_CTL1, and RAW10_ID and RAW12_ID of a port.
pub fn port_lines(state: RegistersWithOrigins, port: u8) -> PortLines
    ensures { result ≡ port_lines state port }
{
    PortLines {
        forwarding: origins::shared_origin(state, map::FWD_CTL1 as u8),
        raw10: origins::port_origin(state, port, map::RAW10_ID as u8),
        raw12: origins::port_origin(state, port, map::RAW12_ID as u8),
    }
}

// The register of a format's data identifier.
fn identifier_register(format: Format) -> u8
    ensures { result ≡ identifier_register format }
{
    match format {
        Format::Raw10 => map::RAW10_ID as u8,
        Format::Raw12 => map::RAW12_ID as u8,
    }
}

// The origins, and that of a port's register before them where the port is in the mask.
fn with_port(
    gathered: Gathered,
    state: RegistersWithOrigins,
    mask: u8,
    port: u8,
    offset: u8,
) -> Gathered
    ensures { (numbers : List ℕ) → gathered ≡ gathered_of numbers
        → result ≡ gathered_of (if_in (bit port mask) (kept_number state (port_register port offset)) numbers) }
{
    if !bits::is_set(mask, port) {
        return gathered;
    }
    let number = origins::port_origin(state, port, offset);
    gathering::with_origin(gathered, number)
}

// The origins of the register at an offset, of the ports in a mask.
fn origins_of_ports(state: RegistersWithOrigins, mask: u8, offset: u8) -> Gathered
    ensures { result ≡ gathered_of
        (port_numbers (λ port. bit port mask) (λ port. kept_number state (port_register port offset))) }
{
    let mut gathered = gathering::nothing();
    // From the last port down, counted up: the invariant is over how many were gone through.
    for k in 0..4u8 {
        gathered = with_port(gathered, state, mask, 3 - k, offset);
    }
    gathered
}

// How an output forwards its ports' frames, two bits of FWD_CTL2.
fn sync_forwarding(hub: Hub, output: u8) -> u8
    ensures { result ≡ sync_forwarding hub.registers output }
{
    let file = hub.registers;
    let control = file.shared[map::FWD_CTL2];
    match output {
        0 => control / 4 % 4,
        1 => control / 16 % 4,
        _ => 0,
    }
}

// Whether line interleaving or line concatenation is asked for on an output.
fn asks_for_lines(hub: Hub, output: u8) -> bool
    ensures { result ≡ asks_for_lines hub.registers output }
{
    2 <= sync_forwarding(hub, output)
}

// What is found of an output and channel, in a format: the forwarded ports that share it.
pub fn same_channel(end: &EndState, format: Format, output: u8, channel: u8) -> Option<Clash>
    ensures { result ≡ clash_of (same_channel end.now.hub end.now.state format output channel) }
{
    let ports = channels::ports_on(end.hub, format, output, channel);
    let gathered = origins_of_ports(end.state, ports, identifier_register(format));
    grading::shared_by(ports, gathered, asks_for_lines(end.hub, output))
}
