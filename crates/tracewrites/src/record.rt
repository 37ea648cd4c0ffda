// The next record of a window: whether there is one to take, and what it is.
ghost use Rattle.std.specs.Prelude.{◌≡◌, ◌≤◌, length};
ghost use Rattle.tracewrites.specs.RecordTurns.{most_values, may_take_record, taken_with, not_passed, passed_as};
ghost use Rattle.tracewrites.specs.RecordTurns.{taken_hub, take_record, refusal_then, take_next};

use crate::{NextRecord, RecordTaken, TraceRefusal};
use registers::power_up::PowerUp;
use trace::Record;

// The values that have to have room for a record to be taken: no record has more.
const MOST_VALUES: usize = 254;

// Whether there is a next record to take: one test after the other, as its definition has them.
fn may_take_record(refusal: Option<TraceRefusal>, left: &[u8], last: bool, size: usize) -> bool
    ensures { result ≡ may_take_record refusal left.now last size }
{
    if refusal.is_some() {
        return false;
    }
    if size < MOST_VALUES {
        return false;
    }
    if last {
        return left.len() != 0;
    }
    trace::holds_record(left)
}

// No record is passed.
fn not_passed(records: u64, refusal: Option<TraceRefusal>) -> RecordTaken
    ensures { result ≡ not_passed records refusal }
{
    RecordTaken {
        records,
        refusal,
        next: None,
        used: 0,
    }
}

// The record at the start of the bytes is passed.
fn passed_as(records: u64, left: &[u8], next: NextRecord) -> RecordTaken
    ensures { result ≡ passed_as records left.now next }
{
    RecordTaken {
        records: crate::next_record_number(records),
        refusal: None,
        next: Some(next),
        used: trace::record_length(left),
    }
}

fn taken_hub(records: u64, left: &[u8], address: u8, start: PowerUp) -> RecordTaken
    ensures { result ≡ taken_hub records left.now address start }
{
    if hub::is_hub_address(address) {
        return passed_as(records, left, NextRecord::Hub { address, start });
    }
    not_passed(records, Some(TraceRefusal::AddressOutOfRange))
}

// Takes the record at the start of what is left of a window; one that is refused stays.
fn take_record(records: u64, left: &[u8], values: &mut [u8]) -> RecordTaken
    requires { most_values ≤ length values.old }
    ensures { taken_with result values.new
        ≡ take_record records left.now values.old }
{
    let Some(asked) = trace::record_at(left, records == 0) else {
        return not_passed(records, Some(TraceRefusal::MalformedRecord));
    };
    if let Record::Hub { address, start } = asked {
        return taken_hub(records, left, address, start);
    }
    if let Record::Write { offset } = asked {
        let number = crate::next_record_number(records);
        let count = buffers::put_bytes(values, 0, trace::values(left));
        return passed_as(
            records,
            left,
            NextRecord::Write {
                number,
                offset,
                count,
            },
        );
    }
    passed_as(records, left, NextRecord::Other)
}

// The refusal where no record is to be taken: a trace that ends before its first record is empty.
fn refusal_then(
    records: u64,
    refusal: Option<TraceRefusal>,
    count: usize,
    last: bool,
) -> Option<TraceRefusal>
    ensures { result ≡ refusal_then records refusal count last }
{
    if refusal.is_some() {
        return refusal;
    }
    if records != 0 {
        return refusal;
    }
    if streams::nothing_left(false, last, count) {
        return Some(TraceRefusal::EmptyTrace);
    }
    refusal
}

// Takes the next record of a window, if there is one to take.
pub(crate) fn take_next(
    records: u64,
    refusal: Option<TraceRefusal>,
    left: &[u8],
    last: bool,
    values: &mut [u8],
) -> RecordTaken
    ensures { taken_with result values.new
        ≡ take_next last records refusal left.now values.old }
{
    if may_take_record(refusal, left, last, values.len()) {
        return take_record(records, left, values);
    }
    not_passed(records, refusal_then(records, refusal, left.len(), last))
}
