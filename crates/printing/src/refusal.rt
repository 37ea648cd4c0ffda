// A refusal in place of the fields of a line.
ghost use Rattle.laws.specs.Reply.{refused};
ghost use Rattle.buffers.specs.Putting.{Puts};
ghost use Rattle.printing.specs.PrintedLines.{reply_text};

use buffers::text;
use refusals::Refusal;

// "! " and the number of a refusal.
#[tactic(auto, unfolding(crate::specs::PrintedLines::reply_text))]
pub(crate) fn put_refusal<E: Refusal>(out: &mut [u8], at: usize, refusal: E) -> usize
    ensures { Puts out.old at (reply_text (refused (E.number refusal))) out.new result }
{
    let next = buffers::put_bytes(out, at, b"! ");
    text::put_decimal(out, next, refusal.number() as u64)
}
