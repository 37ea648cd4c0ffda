// Frame events on the hub: a frame start, a pixel line or a frame end comes in at a port and leaves as a packet, is
// dropped or is refused.
#![tactic(auto)]

ghost use Rattle.std.specs.Prelude.{◌≡◌};
ghost use Rattle.frames.specs.declared.EventRefusal.TheVariants.{NoSuchPort, Pixels, NoRoom};
ghost use Rattle.csi2.specs.Writers.{long_refusal_number};
ghost use Rattle.frames.specs.Events.{event_refusal_number};

use csi2::long::LongRefusal;
use csi2::short;
use hub::{Hub, PortFrames, forwarding};
use packing::check::PixelRefusal;
use refusals::Refusal;

pub mod end;
mod numbering;
pub mod pixel_line;
pub mod start;
mod sync;

// Why an event is refused.
#[derive(Clone, Copy)]
pub enum EventRefusal {
    NoSuchPort,
    UnknownFormat,
    // "start on an open port; line or end on a closed one"
    OutOfSequence,
    Pixels(PixelRefusal),
    ShortType,
    NoRoom,
}

impl Refusal for EventRefusal {
    ghost number = { event_refusal_number };

    fn number(self) -> u8 {
        match self {
            EventRefusal::NoSuchPort => 1,
            EventRefusal::UnknownFormat => 3,
            EventRefusal::OutOfSequence => 4,
            EventRefusal::Pixels(refusal) => refusal.number(),
            EventRefusal::ShortType => 7,
            EventRefusal::NoRoom => 8,
        }
    }
}

impl From<forwarding::NoSuchPort> for EventRefusal {
    ghost from_gives = { λ _ refusal. refusal ≡ NoSuchPort };

    fn from(_refusal: forwarding::NoSuchPort) -> EventRefusal {
        EventRefusal::NoSuchPort
    }
}

impl From<PixelRefusal> for EventRefusal {
    ghost from_gives = { λ pixels refusal. refusal ≡ Pixels pixels };

    fn from(refusal: PixelRefusal) -> EventRefusal {
        EventRefusal::Pixels(refusal)
    }
}

impl From<short::NoRoom> for EventRefusal {
    ghost from_gives = { λ _ refusal. refusal ≡ NoRoom };

    fn from(_refusal: short::NoRoom) -> EventRefusal {
        EventRefusal::NoRoom
    }
}

impl From<LongRefusal> for EventRefusal {
    ghost from_gives = { λ long refusal. event_refusal_number refusal ≡ long_refusal_number long };

    fn from(refusal: LongRefusal) -> EventRefusal {
        match refusal {
            LongRefusal::Pixels(refusal) => EventRefusal::Pixels(refusal),
            LongRefusal::ShortType => EventRefusal::ShortType,
            LongRefusal::NoRoom => EventRefusal::NoRoom,
        }
    }
}

// A packet that left: on which CSI output, and how many bytes it has.
#[derive(Clone, Copy)]
pub struct Sent {
    pub csi: u8,
    pub bytes: usize,
}

// The answer, where None is an event that was dropped, and the hub after the event. (A refused event has a hub too.)
#[derive(Clone, Copy)]
pub struct AfterEvent {
    pub answer: Result<Option<Sent>, EventRefusal>,
    pub hub: Hub,
}

// An event that was not refused: its packet, unless it was dropped, and what its port keeps of frames from now on.
#[derive(Clone, Copy)]
pub(crate) struct Taken {
    pub sent: Option<Sent>,
    pub frames: PortFrames,
}
