// Which ports are forwarded, and whose frames leave on a CSI output and virtual channel.
ghost use Rattle.std.specs.Prelude.{◌≡◌};
ghost use Rattle.ports.specs.PortMasks.{port_mask};
ghost use Rattle.clashes.specs.Channels.{is_forwarded, leaves_on};

use formats::Format;
use hub::{Hub, forwarding};

// Whether a port is forwarded to an output.
#[tactic(auto, unfolding(crate::specs::Channels::is_forwarded))]
pub fn is_forwarded(hub: Hub, port: u8) -> bool
    ensures { result ≡ is_forwarded hub port }
{
    matches!(forwarding::route_of(hub, port), Ok(Some(_)))
}

// Whether the frames of a port, in a format, leave on an output and channel.
#[tactic(auto, unfolding(crate::specs::Channels::leaves_on))]
pub fn leaves_on(hub: Hub, format: Format, output: u8, channel: u8, port: u8) -> bool
    ensures { result ≡ leaves_on hub format output channel port }
{
    match forwarding::route_of(hub, port) {
        Ok(Some(route)) => {
            let vc = match format {
                Format::Raw10 => route.raw10_vc,
                Format::Raw12 => route.raw12_vc,
            };
            route.csi == output && vc == channel
        }
        _ => false,
    }
}

// The ports whose frames, in a format, leave on an output and channel, as a mask.
#[tactic(auto, unfolding(ports::specs::PortMasks::port_mask))]
pub fn ports_on(hub: Hub, format: Format, output: u8, channel: u8) -> u8
    ensures { result ≡ port_mask (leaves_on hub format output channel) }
{
    ports::mask_of([0, 1, 2, 3].map(|port| leaves_on(hub, format, output, channel, port)))
}
