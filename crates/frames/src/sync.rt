// The packet of a frame start or end, forwarded or dropped.
ghost use Rattle.std.specs.Prelude.{◌≤◌, length};
ghost use Rattle.hub.specs.Routes.{data_identifier, port_route};
ghost use Rattle.csi2.specs.Writers.{short_reply};
ghost use Rattle.frames.specs.Events.{forward_on, event_answer_reply, Answered};

use crate::{EventRefusal, Sent};
use csi2::short;
use csi2::short::FrameSync;
use formats::Format;
use hub::{Hub, forwarding};

// A frame start or end, with its number, of a frame of that format on a port.
#[derive(Clone, Copy)]
pub(crate) struct SyncPacket {
    pub port: u8,
    pub format: Format,
    pub sync: FrameSync,
    pub number: u16,
}

// Writes the packet from the place, unless it is dropped or refused.
#[tactic(auto, using(crate::proofs::EventLaws::sending))]
pub(crate) fn put_sync(
    hub: Hub,
    packet: SyncPacket,
    buf: &mut [u8],
    place: usize,
) -> Result<Option<Sent>, EventRefusal>
    requires { packet.port ≤ 3 }
    ensures { Answered hub hub buf.old place
        (forward_on (port_route hub.registers packet.port)
        (short_reply (data_identifier hub.registers packet.port packet.format)
        packet.sync packet.number (length buf.old) place))
        (event_answer_reply result) hub buf.new }
{
    let Some(output) = forwarding::route_of(hub, packet.port)? else {
        return Ok(None);
    };
    let identifier = forwarding::data_identifier(hub, packet.port, packet.format);
    let bytes = short::write_short(identifier, packet.sync, packet.number, buf, place)?;
    Ok(Some(Sent {
        csi: output.csi,
        bytes,
    }))
}
