// The player: plays the records in a window of a trace file on a hub, and puts a line for each into a buffer.
#![tactic(auto)]

ghost use Rattle.std.specs.Prelude.{◌≡◌};
ghost use Rattle.playback.specs.Windows.{new_session, state_at, PlaysWindow};

use hub::Hub;
use registers::power_up;
use registers::power_up::PowerUp;

mod event;
mod record;
mod window;

// The player between two records: the hub, how many records there were, how many were refused, and whether the run has
// ended.
#[derive(Clone, Copy)]
pub struct Session {
    pub hub: Hub,
    pub records: u64,
    pub refusals: u64,
    pub ended: bool,
}

// What came of a window: the session, how many bytes of the window were played, and the next free place for text.
#[derive(Clone, Copy)]
pub struct WindowPlayed {
    pub session: Session,
    pub used: usize,
    pub next: usize,
}

// The player before record 1.
pub fn new() -> Session
    ensures { result ≡ new_session }
{
    Session {
        hub: hub::hub_with(0x08, power_up::registers_at(PowerUp::Boot)),
        records: 0,
        refusals: 0,
        ended: false,
    }
}

// Plays the records of a window of the file, as far as they are whole and there is room for their lines from the place
// on; `last` where the file ends with the window.
pub fn play_window(
    session: Session,
    window: &[u8],
    last: bool,
    packets: &mut [u8],
    out: &mut [u8],
    at: usize,
) -> WindowPlayed
    ensures { PlaysWindow last
        (state_at session window.now packets.old out.old at)
        result packets.new out.new }
{
    let mut session = session;
    let mut used = 0;
    let mut next = at;
    // (A `while`: how far a record goes is known when it was played, and no iterator of slices takes such steps.)
    while window::may_play(
        session,
        buffers::bytes_from(window, used),
        last,
        out.len(),
        next,
    ) {
        let left = buffers::bytes_from(window, used);
        let played = window::play_one(session, left, packets, out, next);
        session = played.session;
        used += played.used;
        next = played.next;
    }
    WindowPlayed {
        session,
        used,
        next,
    }
}
