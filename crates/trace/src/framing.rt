// How a record is framed: the mark 9A 64, a kind byte, a length byte n, then n bytes of data.
ghost use Rattle.std.specs.Prelude.{◌≡◌};
ghost use Rattle.trace.specs.Framing.{has_mark, kind_byte, record_length, holds_record, data_of};
ghost use Rattle.trace.specs.PrivateContracts.{FramedAs};

// Where the data of a record starts, and how many bytes it has.
#[derive(Clone, Copy)]
pub(crate) struct Framing {
    pub start: usize,
    pub count: usize,
}

// The framing of the record at the start of the bytes; a byte that is missing counts as 0.
fn framing_of(bytes: &[u8]) -> Framing
    ensures { FramedAs bytes.now result }
{
    Framing {
        start: 4,
        count: buffers::byte_at(bytes, 3) as usize,
    }
}

pub(crate) fn has_mark(bytes: &[u8]) -> bool
    ensures { result ≡ has_mark bytes.now }
{
    buffers::byte_at(bytes, 0) == 0x9A && buffers::byte_at(bytes, 1) == 0x64
}

pub(crate) fn kind_byte(bytes: &[u8]) -> u8
    ensures { result ≡ kind_byte bytes.now }
{
    buffers::byte_at(bytes, 2)
}

// How many bytes the record at the start has, by its length byte; a length byte that is missing counts as 0.
pub fn record_length(bytes: &[u8]) -> usize
    ensures { result ≡ record_length bytes.now }
{
    let frame = framing_of(bytes);
    frame.start + frame.count
}

// Whether the bytes hold a whole record.
pub fn holds_record(bytes: &[u8]) -> bool
    ensures { result ≡ holds_record bytes.now }
{
    record_length(bytes) <= bytes.len()
}

// The data of the record at the start, as a part of the bytes; where it is cut short, what is there of it.
pub fn data_of(bytes: &[u8]) -> &[u8]
    ensures { result.now ≡ data_of bytes.now }
{
    let frame = framing_of(bytes);
    let count = frame.count;
    let rest = buffers::bytes_from(bytes, frame.start);
    if count <= rest.len() {
        return &rest[..count];
    }
    rest
}
