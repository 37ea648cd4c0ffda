// Calls as text, put into a buffer from a place on as far as they have room; the answer is the next free place.
ghost use Rattle.std.specs.Prelude.{◌≡◌};
ghost use Rattle.buffers.specs.Putting.{Puts};
ghost use Rattle.registers.specs.Bursts.{burst_writes};
ghost use Rattle.listing.specs.Listing.{call_text, calls_text};
ghost use Rattle.listing.specs.PrivateContracts.{PutsRecord, PutsText};

use buffers::text;
use trace::Record;

// The bytes of a call's line, with its line feed.
pub(crate) const CALL_LENGTH: usize = 20;

// The line of a call.
fn call_line(offset: u8, value: u8) -> [u8; CALL_LENGTH]
    ensures { result ≡ call_text (record { offset = offset; value = value }) }
{
    let mut line = *b"WriteI2C(0x00,0x00)\n";
    line[11] = text::lowercase_digit(offset / 16);
    line[12] = text::lowercase_digit(offset);
    line[16] = text::lowercase_digit(value / 16);
    line[17] = text::lowercase_digit(value);
    line
}

fn put_call(out: &mut [u8], at: usize, offset: u8, value: u8) -> usize
    ensures { Puts out.old at
        (call_text (record { offset = offset; value = value })) out.new result }
{
    buffers::put_bytes(out, at, &call_line(offset, value))
}

// One line for each value; the offset goes round after 0xFF.
fn put_burst(out: &mut [u8], at: usize, offset: u8, values: &[u8]) -> usize
    ensures { Puts out.old at
        (calls_text (burst_writes offset values.now)) out.new result }
{
    let mut place = at;
    let mut next = offset;
    for value in values {
        place = put_call(out, place, next, *value);
        next = next.wrapping_add(1);
    }
    place
}

// Puts the text of a record that has one; `first` says that it is the trace's first.
pub(crate) fn put_record(bytes: &[u8], first: bool, out: &mut [u8], at: usize) -> usize
    ensures { PutsRecord first bytes.now out.old at out.new result }
{
    let Some(asked) = trace::record_at(bytes, first) else {
        return at;
    };
    let Record::Write { offset } = asked else {
        return at;
    };
    put_burst(out, at, offset, trace::values(bytes))
}

// Puts the text of a trace that has one at the start of the buffer. (The step of the loop is a record, whose length its
// head tells.)
pub(crate) fn put_records(trace: &[u8], out: &mut [u8]) -> usize
    ensures { PutsText trace.now out.old out.new result }
{
    let mut from = 0;
    let mut at = 0;
    while from < trace.len() {
        let left = buffers::bytes_from(trace, from);
        at = put_record(left, from == 0, out, at);
        from += trace::record_length(left);
    }
    at
}
