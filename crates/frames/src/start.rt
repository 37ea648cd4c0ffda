// A frame start.
ghost use Rattle.std.specs.Prelude.{◌≡◌};
ghost use Rattle.hub.specs.Hubs.{is_open};
ghost use Rattle.frames.specs.Events.{start_event, event_answer_reply, EventAnswered};
ghost use Rattle.frames.specs.PrivateContracts.{taken_reply, hub_with_taken};

use crate::sync::SyncPacket;
use crate::{AfterEvent, EventRefusal, Taken, numbering, sync};
use csi2::short::FrameSync;
use hub::{Hub, LastFrame, PortFrames};

fn is_open(last: LastFrame) -> bool
    ensures { result ≡ is_open last }
{
    matches!(last, LastFrame::Open(..))
}

// A frame start that opens the port's frame, or is refused.
#[tactic(auto, unfolding(crate::specs::Events::event_reply, crate::specs::Events::if_open))]
fn open(hub: Hub, port: u8, bits: u8, buf: &mut [u8], place: usize) -> Result<Taken, EventRefusal>
    ensures { EventAnswered hub (start_event port bits) buf.old place
        (taken_reply result) (hub_with_taken hub port result) buf.new }
{
    if 3 < port {
        return Err(EventRefusal::NoSuchPort);
    }
    let Some(format) = formats::from_bits(bits) else {
        return Err(EventRefusal::UnknownFormat);
    };
    let frames = hub::port_frames(hub, port);
    if is_open(frames.last) {
        return Err(EventRefusal::OutOfSequence);
    }
    let number = numbering::start_number(hub, port);
    let packet = SyncPacket {
        port,
        format,
        sync: FrameSync::FrameStart,
        number,
    };
    let sent = sync::put_sync(hub, packet, buf, place)?;
    let opened = PortFrames {
        last: LastFrame::Open(format, number),
    };
    Ok(Taken {
        sent,
        frames: opened,
    })
}

// A frame start on a port, its format given as a number of bits; the packet is written from the place. (What comes of
// it is no function of its own, for start and end: that would copy the hub once more, a tenth of the event's time.)
pub fn start(hub: Hub, port: u8, bits: u8, buf: &mut [u8], place: usize) -> AfterEvent
    ensures { EventAnswered hub (start_event port bits) buf.old place
        (event_answer_reply result.answer) result.hub buf.new }
{
    let taken = match open(hub, port, bits, buf, place) {
        Ok(taken) => taken,
        Err(refusal) => {
            return AfterEvent {
                answer: Err(refusal),
                hub,
            };
        }
    };
    AfterEvent {
        answer: Ok(taken.sent),
        hub: hub::with_port_frames(hub, port, taken.frames),
    }
}
