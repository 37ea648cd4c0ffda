// The records of a trace file: the one at the start of some bytes, its data, and how many bytes it takes.
#![tactic(auto)]

ghost use Rattle.std.specs.Prelude.{◌≡◌, ◌+◌, ◌*◌, get_or, drop};
ghost use Rattle.trace.specs.Framing.{data_of};
ghost use Rattle.trace.specs.Records.{hub_asked, question_record, kind_row, length_allowed, may_stand, kind_record};
ghost use Rattle.trace.specs.Records.{record_of, found_reply};
ghost use Rattle.trace.specs.PrivateContracts.{LengthsOf};

pub use framing::{data_of, holds_record, record_length};
use registers::power_up::PowerUp;

mod framing;

// What a record asks of the hub. The values of a write are by a question of their own.
#[derive(Clone, Copy)]
pub enum Record {
    Hub { address: u8, start: PowerUp },
    Write { offset: u8 },
    Read { offset: u8 },
    WriteQuestion { address: u8 },
    ReadQuestion { address: u8 },
    Start { port: u8, bits: u8 },
    End { port: u8 },
    PixelLine { port: u8, width: u16, pixel: u16 },
}

// How many bytes of data a kind has: the least and the most.
#[derive(Clone, Copy)]
pub(crate) struct DataLengths {
    pub least: usize,
    pub most: usize,
}

// The table of the kinds; a kind that is not in it has no length.
fn data_lengths(kind: u8) -> DataLengths
    ensures { LengthsOf (kind_row kind) result }
{
    match kind {
        0x00 => DataLengths { least: 1, most: 2 },
        0x01 => DataLengths {
            least: 2,
            most: 255,
        },
        0x02 => DataLengths { least: 1, most: 1 },
        0x03 => DataLengths { least: 2, most: 2 },
        0x10 => DataLengths { least: 2, most: 2 },
        0x11 => DataLengths { least: 1, most: 1 },
        0x12 => DataLengths { least: 5, most: 5 },
        _ => DataLengths { least: 1, most: 0 },
    }
}

// Whether a record of the kind may have so many bytes of data.
fn length_allowed(kind: u8, count: usize) -> bool
    ensures { result ≡ length_allowed kind count }
{
    let lengths = data_lengths(kind);
    lengths.least <= count && count <= lengths.most
}

// Whether a record of the kind may stand there: the hub record first and only there.
fn may_stand(first: bool, kind: u8) -> bool
    ensures { result ≡ may_stand first kind }
{
    if first {
        return kind == 0x00;
    }
    kind != 0x00
}

fn hub(bytes: &[u8]) -> Option<Record>
    ensures { found_reply bytes.now result ≡ hub_asked bytes.now }
{
    let address = buffers::byte_at(bytes, 0);
    if bytes.len() == 1 {
        return Some(Record::Hub {
            address,
            start: PowerUp::Boot,
        });
    }
    if buffers::byte_at(bytes, 1) == 0 {
        return Some(Record::Hub {
            address,
            start: PowerUp::Reset,
        });
    }
    None
}

fn question(bytes: &[u8]) -> Option<Record>
    ensures { found_reply bytes.now result ≡ question_record bytes.now }
{
    let address = buffers::byte_at(bytes, 0);
    match buffers::byte_at(bytes, 1) {
        0 => Some(Record::WriteQuestion { address }),
        1 => Some(Record::ReadQuestion { address }),
        _ => None,
    }
}

// Two bytes of the data as one number, the first lowest.
fn number(bytes: &[u8], low: usize, high: usize) -> u16
    ensures { result ≡ get_or bytes.now low 0 + 256 * get_or bytes.now high 0 }
{
    buffers::two_bytes(buffers::byte_at(bytes, low), buffers::byte_at(bytes, high))
}

// What a record of the kind asks by its data.
fn data_record(kind: u8, bytes: &[u8]) -> Option<Record>
    ensures { found_reply bytes.now result ≡ (kind_row kind).asked bytes.now }
{
    let first = buffers::byte_at(bytes, 0);
    let second = buffers::byte_at(bytes, 1);
    match kind {
        0x00 => hub(bytes),
        0x01 => Some(Record::Write { offset: first }),
        0x02 => Some(Record::Read { offset: first }),
        0x03 => question(bytes),
        0x10 => Some(Record::Start {
            port: first,
            bits: second,
        }),
        0x11 => Some(Record::End { port: first }),
        0x12 => Some(Record::PixelLine {
            port: first,
            width: number(bytes, 1, 2),
            pixel: number(bytes, 3, 4),
        }),
        _ => None,
    }
}

// A record by its kind and its data; `first` says that it is the trace's first.
fn kind_record(first: bool, kind: u8, bytes: &[u8]) -> Option<Record>
    ensures { found_reply bytes.now result ≡ kind_record first kind bytes.now }
{
    if may_stand(first, kind) && length_allowed(kind, bytes.len()) {
        return data_record(kind, bytes);
    }
    None
}

// The record at the start of the bytes, or none that the format has; `first` says that it is the trace's first.
pub fn record_at(bytes: &[u8], first: bool) -> Option<Record>
    ensures { found_reply (data_of bytes.now) result ≡ record_of first bytes.now }
{
    if holds_record(bytes) && framing::has_mark(bytes) {
        return kind_record(first, framing::kind_byte(bytes), data_of(bytes));
    }
    None
}

// The values of the write record at the start: its data after the offset.
pub fn values(bytes: &[u8]) -> &[u8]
    ensures { result.now ≡ drop 1 (data_of bytes.now) }
{
    buffers::bytes_from(data_of(bytes), 1)
}
