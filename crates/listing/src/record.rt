// The calls of one record of a trace.
ghost use Rattle.std.specs.Prelude.{◌≡◌, length};
ghost use Rattle.laws.specs.Reply.{on_reply};
ghost use Rattle.registers.specs.declared.power_up.PowerUp.{PowerUp};
ghost use Rattle.trace.specs.Records.{hub_record, record_of};
ghost use Rattle.listing.specs.Listing.{calls_asked, record_calls};
ghost use Rattle.listing.specs.PrivateContracts.{count_reply};

use crate::TextRefusal;
use trace::Record;

// A hub record has no calls, however the hub starts.
fn hub_calls(address: u8) -> Result<usize, TextRefusal>
    ensures { (start : PowerUp) →
        count_reply result ≡ on_reply length (calls_asked (hub_record address start)) }
{
    if hub::is_hub_address(address) {
        return Ok(0);
    }
    Err(TextRefusal::AddressOutOfRange)
}

// How many calls the record at the start of the bytes has; `first` says that it is the trace's first.
pub(crate) fn record_calls(bytes: &[u8], first: bool) -> Result<usize, TextRefusal>
    ensures { count_reply result ≡ on_reply length (record_calls (record_of first bytes.now)) }
{
    let Some(asked) = trace::record_at(bytes, first) else {
        return Err(TextRefusal::NoRecord);
    };
    if let Record::Hub { address, .. } = asked {
        return hub_calls(address);
    }
    if let Record::Write { .. } = asked {
        return Ok(trace::values(bytes).len());
    }
    Err(TextRefusal::NoTextForm)
}
