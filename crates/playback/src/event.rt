// The records of frame events: each is played on the hub, with the lent packet buffer, and its line has the header of
// its packet.
ghost use Rattle.std.specs.Prelude.{◌≡◌, length, replicate};
ghost use Rattle.laws.specs.Reply.{on_reply};
ghost use Rattle.frames.specs.Events.{event_answer_reply};
ghost use Rattle.trace.specs.Records.{start_record, end_record, pixel_line_record};
ghost use Rattle.answers.specs.Answers.{header_list, event_with, answer_reply};
ghost use Rattle.playback.specs.Playing.{play_asked};
ghost use Rattle.playback.specs.PrivateContracts.{played_of, first_four};

use crate::record::RecordPlayed;
use answers::{EventKind, Header, RecordAnswer};
use frames::{EventRefusal, Sent, end, pixel_line, start};
use hub::Hub;

// The pixels of the widest line, and one more.
const TOO_WIDE: usize = 4097;

// The header of the packet at the start of the buffer.
fn header_of(packets: &[u8]) -> Header
    ensures { header_list result ≡ first_four packets.now }
{
    Header {
        data_identifier: buffers::byte_at(packets, 0),
        word_count_low: buffers::byte_at(packets, 1),
        word_count_high: buffers::byte_at(packets, 2),
        check_byte: buffers::byte_at(packets, 3),
    }
}

// What the record of an event is answered, where the packet of the event is at the start of the buffer.
fn event_answer(
    event: EventKind,
    port: u8,
    answer: Result<Option<Sent>, EventRefusal>,
    packets: &[u8],
) -> RecordAnswer
    ensures { answer_reply result
        ≡ on_reply (event_with event port (first_four packets.now)) (event_answer_reply answer) }
{
    RecordAnswer::FrameEvent {
        event,
        port,
        answer,
        header: header_of(packets),
    }
}

pub(crate) fn play_start(hub: Hub, port: u8, bits: u8, packets: &mut [u8]) -> RecordPlayed
    ensures { played_of result packets.new ≡ play_asked hub packets.old (start_record port bits) }
{
    let started = start::start(hub, port, bits, packets, 0);
    RecordPlayed {
        hub: started.hub,
        answer: event_answer(EventKind::Start, port, started.answer, packets),
        ends: false,
    }
}

pub(crate) fn play_end(hub: Hub, port: u8, packets: &mut [u8]) -> RecordPlayed
    ensures { played_of result packets.new ≡ play_asked hub packets.old (end_record port) }
{
    let ended = end::end(hub, port, packets, 0);
    RecordPlayed {
        hub: ended.hub,
        answer: event_answer(EventKind::End, port, ended.answer, packets),
        ends: false,
    }
}

// As many pixels as the widest line may have, and one more, all alike.
fn equal_pixels(pixel: u16) -> [u16; TOO_WIDE]
    ensures { (result ≡ replicate 4097 pixel) × (4097 ≡ length result) }
{
    [pixel; TOO_WIDE]
}

pub(crate) fn play_pixel_line(
    hub: Hub,
    port: u8,
    width: u16,
    pixel: u16,
    packets: &mut [u8],
) -> RecordPlayed
    ensures { played_of result packets.new
        ≡ play_asked hub packets.old (pixel_line_record port width pixel) }
{
    let pixels = equal_pixels(pixel);
    // (A line that is too wide is as well refused with one pixel too many.)
    let lent = (width as usize).min(TOO_WIDE);
    let answer = pixel_line::pixel_line(hub, port, &pixels[0..lent], packets, 0);
    RecordPlayed {
        hub,
        answer: event_answer(EventKind::PixelLine, port, answer, packets),
        ends: false,
    }
}
