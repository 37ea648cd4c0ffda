// The next record of a window: whether there is one, its line, and the session after it.
ghost use Rattle.std.specs.Prelude.{◌≡◌, ℕ, ◌+◌, ◌≤◌, min, List, length};
ghost use Rattle.trace.specs.Framing.{record_length};
ghost use Rattle.playback.specs.Windows.{state_at, text_room, may_play_next, session_after};
ghost use Rattle.playback.specs.PrivateContracts.{played_of, PlaysOne};

use crate::record::RecordPlayed;
use crate::{Session, WindowPlayed, record};

// The bytes that have to be free for the line of a record: more than any line has.
const TEXT_ROOM: usize = 128;

// Whether there is a next record to take: one test after the other, as its definition has them.
pub(crate) fn may_play(session: Session, left: &[u8], last: bool, size: usize, at: usize) -> bool
    ensures { result ≡ may_play_next session left.now last size at }
{
    if session.ended {
        return false;
    }
    if !buffers::has_room(size, at, TEXT_ROOM) {
        return false;
    }
    if last {
        return left.len() != 0;
    }
    trace::holds_record(left)
}

// How many bytes the record at the start takes: of one that is cut short, what is there of it.
fn used_by(left: &[u8]) -> usize
    ensures { result ≡ min (record_length left.now) (length left.now) }
{
    trace::record_length(left).min(left.len())
}

fn session_after(session: Session, played: RecordPlayed) -> Session
    ensures { (packets : List ℕ) → result ≡ session_after session (played_of played packets) }
{
    let refusal = answers::is_refused(played.answer) as u64;
    Session {
        hub: played.hub,
        records: session.records.wrapping_add(1),
        refusals: session.refusals.wrapping_add(refusal),
        ended: played.ends,
    }
}

// Plays the record at the start of what is left of a window.
pub(crate) fn play_one(
    session: Session,
    left: &[u8],
    packets: &mut [u8],
    out: &mut [u8],
    at: usize,
) -> WindowPlayed
    requires { at + text_room ≤ length out.old }
    ensures { PlaysOne
        (state_at session left.now packets.old out.old at)
        result packets.new out.new }
{
    let found = trace::record_at(left, session.records == 0);
    let played = record::play_found(session.hub, left, found, packets);
    let after = session_after(session, played);
    WindowPlayed {
        session: after,
        used: used_by(left),
        next: printing::put_printed_line(after.records, played.answer, out, at),
    }
}
