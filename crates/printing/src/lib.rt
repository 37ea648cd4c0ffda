// The lines that the player prints, put into a buffer from a place on as far as they have room; the answer is the
// next free place. (Places in a buffer, and no writer: the player was measured slower by a text by value; decision 8.)
#![tactic(auto)]

ghost use Rattle.buffers.specs.Putting.{Puts};
ghost use Rattle.answers.specs.Answers.{answer_reply};
ghost use Rattle.printing.specs.PrintedLines.{reply_text, printed_line, printed_counts};

use answers::{NoRecord, RecordAnswer};
use buffers::text;

mod event;
mod question;
mod refusal;
mod register;

// What follows the number in the line of a record.
fn put_answer(out: &mut [u8], at: usize, answer: RecordAnswer) -> usize
    ensures { Puts out.old at (reply_text (answer_reply answer)) out.new result }
{
    match answer {
        RecordAnswer::NoRecord => refusal::put_refusal(out, at, NoRecord),
        RecordAnswer::Hub { address, answer } => register::put_hub(out, at, address, answer),
        RecordAnswer::Write { offset, count } => register::put_write(out, at, offset, count),
        RecordAnswer::Read { offset, value } => register::put_read(out, at, offset, value),
        RecordAnswer::WriteQuestion { address, answer } => {
            question::put_write_question(out, at, address, answer)
        }
        RecordAnswer::ReadQuestion { address, answer } => {
            question::put_read_question(out, at, address, answer)
        }
        RecordAnswer::FrameEvent {
            event,
            port,
            answer,
            header,
        } => event::put_event(out, at, event, port, answer, header),
    }
}

// Puts the line of the record with that number.
pub fn put_printed_line(number: u64, answer: RecordAnswer, out: &mut [u8], at: usize) -> usize
    ensures { Puts out.old at (printed_line number (answer_reply answer)) out.new result }
{
    let space = text::put_decimal(out, at, number);
    let fields = buffers::put_byte(out, space, b' ');
    let end = put_answer(out, fields, answer);
    buffers::put_byte(out, end, b'\n')
}

// Puts the last line of a run, with its counts.
pub fn put_printed_counts(records: u64, refused: u64, out: &mut [u8], at: usize) -> usize
    ensures { Puts out.old at (printed_counts records refused) out.new result }
{
    let first = buffers::put_bytes(out, at, b"records ");
    let word = text::put_decimal(out, first, records);
    let second = buffers::put_bytes(out, word, b" refused ");
    let end = text::put_decimal(out, second, refused);
    buffers::put_byte(out, end, b'\n')
}
