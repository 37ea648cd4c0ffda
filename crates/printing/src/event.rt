// The fields of a frame event.
ghost use Rattle.std.specs.Prelude.{◌≡◌};
ghost use Rattle.laws.specs.Reply.{on_reply};
ghost use Rattle.buffers.specs.Numerals.{hex_bytes};
ghost use Rattle.buffers.specs.Putting.{Puts};
ghost use Rattle.frames.specs.Events.{sent, event_answer_reply};
ghost use Rattle.answers.specs.Answers.{header_list, event_with};
ghost use Rattle.printing.specs.PrintedLines.{event_letter, port_text, outcome_text, reply_text};

use crate::refusal;
use answers::{EventKind, Header};
use buffers::text;
use frames::{EventRefusal, Sent};

fn event_letter(event: EventKind) -> u8
    ensures { result ≡ event_letter event }
{
    match event {
        EventKind::Start => b'S',
        EventKind::PixelLine => b'L',
        EventKind::End => b'E',
    }
}

// The letter and the port, each with a space after it.
fn put_port(out: &mut [u8], at: usize, event: EventKind, port: u8) -> usize
    ensures { Puts out.old at (port_text event port) out.new result }
{
    let space = buffers::put_byte(out, at, event_letter(event));
    let digits = buffers::put_byte(out, space, b' ');
    let next = text::put_decimal(out, digits, port as u64);
    buffers::put_byte(out, next, b' ')
}

fn put_header(out: &mut [u8], at: usize, header: Header) -> usize
    ensures { Puts out.old at (hex_bytes (header_list header)) out.new result }
{
    let second = text::put_hex(out, at, header.data_identifier);
    let third = text::put_hex(out, second, header.word_count_low);
    let fourth = text::put_hex(out, third, header.word_count_high);
    text::put_hex(out, fourth, header.check_byte)
}

// The output that a packet leaves on, and its header.
fn put_output(out: &mut [u8], at: usize, csi: u8, header: Header) -> usize
    ensures { Puts out.old at (outcome_text (sent csi (header_list header))) out.new result }
{
    let space = text::put_decimal(out, at, csi as u64);
    let next = buffers::put_byte(out, space, b' ');
    put_header(out, next, header)
}

// The fields of a frame event, or the refusal in their place.
pub(crate) fn put_event(
    out: &mut [u8],
    at: usize,
    event: EventKind,
    port: u8,
    answer: Result<Option<Sent>, EventRefusal>,
    header: Header,
) -> usize
    ensures { Puts out.old at
        (reply_text (on_reply (event_with event port (header_list header)) (event_answer_reply answer)))
        out.new result }
{
    match answer {
        Err(refusal) => refusal::put_refusal(out, at, refusal),
        Ok(None) => {
            let next = put_port(out, at, event, port);
            buffers::put_bytes(out, next, b"drop")
        }
        Ok(Some(sent)) => {
            let next = put_port(out, at, event, port);
            put_output(out, next, sent.csi, header)
        }
    }
}
