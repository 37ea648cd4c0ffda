// A frame end.
ghost use Rattle.frames.specs.Events.{end_event, event_answer_reply, EventAnswered};
ghost use Rattle.frames.specs.PrivateContracts.{taken_reply, hub_with_taken};

use crate::sync::SyncPacket;
use crate::{AfterEvent, EventRefusal, Taken, sync};
use csi2::short::FrameSync;
use hub::{Hub, LastFrame, PortFrames};

// A frame end that closes the port's frame, or is refused.
#[tactic(auto, unfolding(crate::specs::Events::event_reply, crate::specs::Events::if_open))]
fn close(hub: Hub, port: u8, buf: &mut [u8], place: usize) -> Result<Taken, EventRefusal>
    ensures { EventAnswered hub (end_event port) buf.old place
        (taken_reply result) (hub_with_taken hub port result) buf.new }
{
    if 3 < port {
        return Err(EventRefusal::NoSuchPort);
    }
    let frames = hub::port_frames(hub, port);
    let LastFrame::Open(format, number) = frames.last else {
        return Err(EventRefusal::OutOfSequence);
    };
    let packet = SyncPacket {
        port,
        format,
        sync: FrameSync::FrameEnd,
        number,
    };
    let sent = sync::put_sync(hub, packet, buf, place)?;
    let closed = PortFrames {
        last: LastFrame::Closed(format, number),
    };
    Ok(Taken {
        sent,
        frames: closed,
    })
}

// A frame end on a port; the packet is written from the place.
pub fn end(hub: Hub, port: u8, buf: &mut [u8], place: usize) -> AfterEvent
    ensures { EventAnswered hub (end_event port) buf.old place
        (event_answer_reply result.answer) result.hub buf.new }
{
    let taken = match close(hub, port, buf, place) {
        Ok(taken) => taken,
        Err(refusal) => {
            return AfterEvent {
                answer: Err(refusal),
                hub,
            };
        }
    };
    AfterEvent {
        answer: Ok(taken.sent),
        hub: hub::with_port_frames(hub, port, taken.frames),
    }
}
