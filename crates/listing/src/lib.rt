// The text of a trace: its register writes, as an installer would type them; and the hub that it asks for, which the
// text does not name.
#![tactic(auto)]

ghost use Rattle.std.specs.Prelude.{◌≡◌, length};
ghost use Rattle.laws.specs.Reply.{on_reply, reply_by};
ghost use Rattle.laws.specs.Buffers.{Writes};
ghost use Rattle.listing.specs.declared.ListingRefusal.{ListingRefusal};
ghost use Rattle.listing.specs.Refusals.{text_refusal_number, listing_refusal_number, hub_refusal_number};
ghost use Rattle.listing.specs.Listing.{trace_calls, trace_text, record_text, listing_reply};
ghost use Rattle.listing.specs.TraceHubs.{trace_hub};
ghost use Rattle.listing.specs.PrivateContracts.{count_reply, bytes_if_room};

use refusals::Refusal;
use registers::power_up::PowerUp;
use text::CALL_LENGTH;
use trace::Record;

mod record;
mod text;

// Why a record, or a trace, has no text.
#[derive(Clone, Copy)]
pub enum TextRefusal {
    NoRecord,
    AddressOutOfRange,
    NoTextForm,
}

impl Refusal for TextRefusal {
    ghost number = { text_refusal_number };

    fn number(self) -> u8 {
        match self {
            TextRefusal::NoRecord => 13,
            TextRefusal::AddressOutOfRange => 2,
            TextRefusal::NoTextForm => 16,
        }
    }
}

// Why no text was put: there is none, or it has no room.
#[derive(Clone, Copy)]
pub enum ListingRefusal {
    Text(TextRefusal),
    NoRoom,
}

impl Refusal for ListingRefusal {
    ghost number = { listing_refusal_number };

    fn number(self) -> u8 {
        match self {
            ListingRefusal::Text(refusal) => refusal.number(),
            ListingRefusal::NoRoom => 8,
        }
    }
}

impl From<TextRefusal> for ListingRefusal {
    ghost from_gives = { λ text refusal. refusal ≡ ListingRefusal.Text text };

    fn from(refusal: TextRefusal) -> ListingRefusal {
        ListingRefusal::Text(refusal)
    }
}

// Why a trace asks for no hub.
#[derive(Clone, Copy)]
pub enum HubRefusal {
    NoRecord,
    AddressOutOfRange,
}

impl Refusal for HubRefusal {
    ghost number = { hub_refusal_number };

    fn number(self) -> u8 {
        match self {
            HubRefusal::NoRecord => 13,
            HubRefusal::AddressOutOfRange => 2,
        }
    }
}

// The hub that a trace asks for: its own address, and how it starts.
#[derive(Clone, Copy)]
pub struct HubAsked {
    pub address: u8,
    pub start: PowerUp,
}

// How many calls the text of a trace has. (The step of the loop is a record, whose length its head tells.)
fn count_calls(trace: &[u8]) -> Result<usize, TextRefusal>
    ensures { count_reply result ≡ on_reply length (trace_calls trace.now) }
{
    // There is no first record.
    if trace.len() == 0 {
        return Err(TextRefusal::NoRecord);
    }
    let mut from = 0;
    let mut total = 0;
    while from < trace.len() {
        let left = buffers::bytes_from(trace, from);
        match record::record_calls(left, from == 0) {
            Err(refusal) => return Err(refusal),
            Ok(n) => {
                total += n;
                from += trace::record_length(left);
            }
        }
    }
    Ok(total)
}

// How many bytes the text of so many calls has, if they have room from the place on in a buffer of that size.
fn text_length(
    counted: Result<usize, TextRefusal>,
    size: usize,
    place: usize,
) -> Result<usize, ListingRefusal>
    ensures { listing_reply result ≡ bytes_if_room size place (count_reply counted) }
{
    let calls = counted?;
    if !buffers::has_room_for(size, place, calls, CALL_LENGTH) {
        return Err(ListingRefusal::NoRoom);
    }
    Ok(CALL_LENGTH * calls)
}

// Puts the text of the record at the start of the bytes into the buffer from the place on, and answers how many bytes
// it has; `first` says that it is the trace's first.
pub fn record_text(
    bytes: &[u8],
    first: bool,
    out: &mut [u8],
    place: usize,
) -> Result<usize, ListingRefusal>
    ensures { Writes out.old place
        (record_text first bytes.now (length out.old) place)
        (listing_reply result) out.new }
{
    let length = text_length(record::record_calls(bytes, first), out.len(), place)?;
    text::put_record(bytes, first, out, place);
    Ok(length)
}

// Puts the text of a whole trace at the start of the buffer, and answers how many bytes it has.
pub fn to_text(trace: &[u8], out: &mut [u8]) -> Result<usize, ListingRefusal>
    ensures { Writes out.old 0
        (trace_text trace.now (length out.old))
        (listing_reply result) out.new }
{
    let length = text_length(count_calls(trace), out.len(), 0)?;
    text::put_records(trace, out);
    Ok(length)
}

// The own address of the hub that a trace asks for, and how it starts: a text made from the trace names neither.
pub fn hub_of(trace: &[u8]) -> Result<HubAsked, HubRefusal>
    ensures { reply_by hub_refusal_number result ≡ trace_hub trace.now }
{
    let Some(asked) = trace::record_at(trace, true) else {
        return Err(HubRefusal::NoRecord);
    };
    let Record::Hub { address, start } = asked else {
        return Err(HubRefusal::NoRecord);
    };
    if hub::is_hub_address(address) {
        return Ok(HubAsked { address, start });
    }
    Err(HubRefusal::AddressOutOfRange)
}
