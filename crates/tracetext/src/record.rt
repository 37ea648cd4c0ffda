// The next record of a window: whether there is one, and its text.
ghost use Rattle.std.specs.Prelude.{◌≡◌, ◌+◌, ◌≤◌, length};
ghost use Rattle.listing.specs.Refusals.{listing_refusal_number};
ghost use Rattle.listing.specs.Listing.{longest_text};
ghost use Rattle.tracetext.specs.TextWindows.{refusal_of, may_list_next, list_state_at, ListsOne};

use crate::{TextListed, TextRun};
use listing::{ListingRefusal, TextRefusal};

// The bytes that have to be free for the text of a record: no record has more.
const LONGEST_TEXT: usize = 5080;

// Whether there is a next record to take: one test after the other, as its definition has them.
pub(crate) fn may_list(run: TextRun, left: &[u8], last: bool, size: usize, at: usize) -> bool
    ensures { result ≡ may_list_next run left.now last size at }
{
    if run.refusal.is_some() {
        return false;
    }
    if !buffers::has_room(size, at, LONGEST_TEXT) {
        return false;
    }
    if last {
        return left.len() != 0;
    }
    trace::holds_record(left)
}

// Why a record has no text. (That it has no room does not come: the longest text has room.)
fn refusal_in(refusal: ListingRefusal) -> TextRefusal
    ensures { result ≡ refusal_of (listing_refusal_number refusal) }
{
    match refusal {
        ListingRefusal::Text(text) => text,
        ListingRefusal::NoRoom => TextRefusal::NoTextForm,
    }
}

// Puts the text of the record at the start of what is left of a window; a record that is refused stays.
pub(crate) fn list_one(run: TextRun, left: &[u8], out: &mut [u8], at: usize) -> TextListed
    requires { at + longest_text ≤ length out.old }
    ensures { ListsOne
        (list_state_at run left.now out.old at) result out.new }
{
    match listing::record_text(left, run.records == 0, out, at) {
        Err(refusal) => TextListed {
            run: TextRun {
                records: run.records,
                refusal: Some(refusal_in(refusal)),
            },
            used: 0,
            next: at,
        },
        Ok(bytes) => TextListed {
            run: TextRun {
                records: run.records.wrapping_add(1),
                refusal: None,
            },
            used: trace::record_length(left),
            next: at + bytes,
        },
    }
}
