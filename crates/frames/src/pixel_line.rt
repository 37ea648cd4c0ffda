// A pixel line of a frame.
ghost use Rattle.frames.specs.Events.{pixel_line_event, event_answer_reply, EventAnswered};

use crate::{EventRefusal, Sent};
use csi2::long;
use hub::{Hub, LastFrame, forwarding};
use packing::check;

// A pixel line on a port; the packet is written from the place. The hub stays as it is.
#[tactic(auto, unfolding(crate::specs::Events::event_reply, crate::specs::Events::if_open))]
pub fn pixel_line(
    hub: Hub,
    port: u8,
    pixels: &[u16],
    buf: &mut [u8],
    place: usize,
) -> Result<Option<Sent>, EventRefusal>
    ensures { EventAnswered hub (pixel_line_event port pixels.now) buf.old place
        (event_answer_reply result) hub buf.new }
{
    if 3 < port {
        return Err(EventRefusal::NoSuchPort);
    }
    let frames = hub::port_frames(hub, port);
    let LastFrame::Open(format, _) = frames.last else {
        return Err(EventRefusal::OutOfSequence);
    };
    check::check_pixels(format, pixels)?;
    let Some(output) = forwarding::route_of(hub, port)? else {
        return Ok(None);
    };
    let identifier = forwarding::data_identifier(hub, port, format);
    let bytes = long::write_long_packet(format, pixels, identifier, buf, place)?;
    Ok(Some(Sent {
        csi: output.csi,
        bytes,
    }))
}
