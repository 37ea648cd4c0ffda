// The fields of a hub record, a register write and a register read.
ghost use Rattle.buffers.specs.Putting.{Puts};
ghost use Rattle.answers.specs.Answers.{hub_reply};
ghost use Rattle.printing.specs.PrintedLines.{write_text, read_text, reply_text};

use crate::refusal;
use buffers::text;
use hub::AddressOutOfRange;

pub(crate) fn put_hub(
    out: &mut [u8],
    at: usize,
    address: u8,
    answer: Result<(), AddressOutOfRange>,
) -> usize
    ensures { Puts out.old at (reply_text (hub_reply address answer)) out.new result }
{
    match answer {
        Err(refusal) => refusal::put_refusal(out, at, refusal),
        Ok(()) => {
            let next = buffers::put_bytes(out, at, b"H ");
            text::put_hex(out, next, address)
        }
    }
}

pub(crate) fn put_write(out: &mut [u8], at: usize, offset: u8, count: u64) -> usize
    ensures { Puts out.old at (write_text offset count) out.new result }
{
    let hex = buffers::put_bytes(out, at, b"W ");
    let space = text::put_hex(out, hex, offset);
    let next = buffers::put_byte(out, space, b' ');
    text::put_decimal(out, next, count)
}

pub(crate) fn put_read(out: &mut [u8], at: usize, offset: u8, value: u8) -> usize
    ensures { Puts out.old at (read_text offset value) out.new result }
{
    let hex = buffers::put_bytes(out, at, b"R ");
    let space = text::put_hex(out, hex, offset);
    let next = buffers::put_byte(out, space, b' ');
    text::put_hex(out, next, value)
}
