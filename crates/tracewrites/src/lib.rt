// The register writes of a trace of any size, with the numbers of their records, with no input and no output: a program
// reads bytes of the trace into a buffer, and a turn takes the next record that is there.
#![tactic(auto)]

ghost use Rattle.std.specs.Prelude.{◌≡◌};
ghost use Rattle.tracewrites.specs.RecordTurns.{trace_refusal_number, next_record_number};
ghost use Rattle.tracewrites.specs.RecordTurns.{refused_record, new_trace_file, MakesRecordTurn};

use refusals::Refusal;
use registers::power_up::PowerUp;
use streams::Window;

mod record;

// Why a trace is refused.
#[derive(Clone, Copy)]
pub enum TraceRefusal {
    MalformedRecord,
    AddressOutOfRange,
    EmptyTrace,
}

impl Refusal for TraceRefusal {
    ghost number = { trace_refusal_number };

    fn number(self) -> u8 {
        match self {
            TraceRefusal::MalformedRecord => 13,
            TraceRefusal::AddressOutOfRange => 2,
            TraceRefusal::EmptyTrace => 13,
        }
    }
}

// What a record is: the hub's own address and how it starts; a write with the number of its record, the offset of its
// first value and how many values it has; or a record that writes nothing.
#[derive(Clone, Copy)]
pub enum NextRecord {
    Hub {
        address: u8,
        start: PowerUp,
    },
    Write {
        number: u64,
        offset: u8,
        count: usize,
    },
    Other,
}

// Between two turns: how many records were passed, why the trace is refused, if it is, and what the buffer holds at its
// start of the trace.
#[derive(Clone, Copy)]
pub struct TraceFile {
    pub records: u64,
    pub refusal: Option<TraceRefusal>,
    pub window: Window,
}

// What a turn gives: where the trace stands after it, the record that it took, if it took one, and whether nothing is
// left to do.
#[derive(Clone, Copy)]
pub struct RecordTurn {
    pub file: TraceFile,
    pub next: Option<NextRecord>,
    pub done: bool,
}

// What came of the bytes of a window: the records passed and the refusal after it, the record that was taken, if one
// was, and how many bytes it has.
#[derive(Clone, Copy)]
pub(crate) struct RecordTaken {
    pub records: u64,
    pub refusal: Option<TraceRefusal>,
    pub next: Option<NextRecord>,
    pub used: usize,
}

// The number of the record after so many others: records are counted from 1.
pub(crate) fn next_record_number(records: u64) -> u64
    ensures { result ≡ next_record_number records }
{
    records.saturating_add(1)
}

// The number of the record that is refused; an empty trace has none.
pub fn refused_record(file: TraceFile) -> Option<u64>
    ensures { result ≡ refused_record file.refusal file.records }
{
    match file.refusal {
        None | Some(TraceRefusal::EmptyTrace) => None,
        Some(_) => Some(next_record_number(file.records)),
    }
}

// Before a byte of the trace is read.
pub fn new_file() -> TraceFile
    ensures { result ≡ new_trace_file }
{
    let window = streams::new_window();
    TraceFile {
        records: 0,
        refusal: None,
        window,
    }
}

// One turn: `got` bytes of the trace were read into the buffer after those that it held. The next record is taken, if
// it is there and 254 values have room; those of a write are put at the start of the lent buffer. What is left of the
// bytes moves to their buffer's start.
pub fn turn(file: TraceFile, got: usize, buffer: &mut [u8], values: &mut [u8]) -> RecordTurn
    ensures { MakesRecordTurn file got buffer.old values.old
        result buffer.new values.new }
{
    let window = streams::after_read(file.window, got, buffer.len());
    let last = window.last;
    let taken = record::take_next(
        file.records,
        file.refusal,
        &buffer[..window.held],
        last,
        values,
    );
    let refusal = taken.refusal;
    let held = streams::slide(buffer, taken.used, window.held);
    RecordTurn {
        file: TraceFile {
            records: taken.records,
            refusal,
            window: Window { held, last },
        },
        next: taken.next,
        done: streams::nothing_left(refusal.is_some(), last, held),
    }
}
