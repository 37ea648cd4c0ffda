// The records of a script's trace, put into a buffer as far as they have room; the answer is the next free place.
ghost use Rattle.std.specs.Prelude.{◌≡◌, [], ◌∷◌, ◌≤◌};
ghost use Rattle.buffers.specs.Putting.{Puts};
ghost use Rattle.calls.specs.ScriptLines.{write_of, calls_in_read};
ghost use Rattle.trace.specs.Framing.{record_bytes};
ghost use Rattle.trace.specs.Records.{hub_data};
ghost use Rattle.script.specs.Traces.{write_records, hub_length};
ghost use Rattle.script.specs.PrivateContracts.{PutsCalls, PutsTrace};

use crate::text;
use calls::{Call, OtherShape};
use registers::power_up::PowerUp;

// The most bytes of a hub record, and the bytes of a write record of one value.
pub const LONGEST_HUB_RECORD: usize = 6;

pub const WRITE_RECORD: usize = 6;

// How many bytes the hub record has.
pub fn hub_length(start: PowerUp) -> usize
    ensures { (result ≡ hub_length start) × (result ≤ 6) }
{
    match start {
        PowerUp::Boot => 5,
        PowerUp::Reset => 6,
    }
}

// The hub record: for the data sheet's reset it has a second byte.
pub fn put_hub(out: &mut [u8], at: usize, address: u8, start: PowerUp) -> usize
    ensures { Puts out.old at (record_bytes 0x00 (hub_data address start)) out.new result }
{
    match start {
        PowerUp::Boot => buffers::put_bytes(out, at, &[0x9A, 0x64, 0x00, 1, address]),
        PowerUp::Reset => buffers::put_bytes(out, at, &[0x9A, 0x64, 0x00, 2, address, 0]),
    }
}

// The write record of a call.
fn put_write(out: &mut [u8], at: usize, call: Call) -> usize
    ensures { Puts out.old at (write_records (write_of call ∷ [])) out.new result }
{
    buffers::put_bytes(out, at, &[0x9A, 0x64, 0x01, 2, call.offset, call.value])
}

// The record of a line's call, where it has one.
#[tactic(auto, using(buffers::proofs::PutLaws::put_nothing), unfolding(crate::specs::Traces::write_records))]
pub fn put_line(out: &mut [u8], at: usize, read: Result<Option<Call>, OtherShape>) -> usize
    ensures { Puts out.old at (write_records (calls_in_read read)) out.new result }
{
    match read {
        Ok(Some(call)) => put_write(out, at, call),
        Ok(None) => at,
        Err(_) => at,
    }
}

// The records of the calls of a text that is taken, line by line. (The step of the loop is a line, whose length is
// known when it was read.)
fn put_calls(out: &mut [u8], at: usize, text: &[u8]) -> usize
    ensures { PutsCalls text.now out.old at out.new result }
{
    let mut from = 0;
    let mut next = at;
    while from < text.len() {
        let Ok(line) = text::next_script_line(text, from) else {
            return next;
        };
        from += line.length + 1;
        next = put_line(out, next, Ok(line.call));
    }
    next
}

// The trace of a text that is taken, from the start of the buffer on.
pub(crate) fn put_trace(out: &mut [u8], address: u8, start: PowerUp, text: &[u8]) -> usize
    ensures { PutsTrace address start text.now out.old out.new result }
{
    let next = put_hub(out, 0, address, start);
    put_calls(out, next, text)
}
