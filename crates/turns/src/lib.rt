// A run through a trace file, turn by turn, with no input and no output: a program reads bytes into a buffer, a turn
// plays the records there, and the program does with their text and with the session what it likes.
#![tactic(auto)]

ghost use Rattle.std.specs.Prelude.{◌≡◌};
ghost use Rattle.turns.specs.Turns.{new_file_run, MakesTurn};

use playback::Session;
use streams::Window;

// The run between two turns: the session, and what the buffer holds at its start of the file.
#[derive(Clone, Copy)]
pub struct FileRun {
    pub session: Session,
    pub window: Window,
}

// What a turn gives: the run after it, the end of the text in the lent buffer, and whether nothing is left to play.
#[derive(Clone, Copy)]
pub struct TurnEnd {
    pub run: FileRun,
    pub end: usize,
    pub done: bool,
}

// The run before a byte of the file is read.
pub fn new_run() -> FileRun
    ensures { result ≡ new_file_run }
{
    let session = playback::new();
    let window = streams::new_window();
    FileRun { session, window }
}

// One turn: `got` bytes of the file were read into the buffer after those that it held. They are played, and what is
// left of them moves to the buffer's start.
pub fn turn(
    run: FileRun,
    got: usize,
    buffer: &mut [u8],
    packets: &mut [u8],
    out: &mut [u8],
) -> TurnEnd
    ensures { MakesTurn run got buffer.old packets.old out.old
        result buffer.new packets.new out.new }
{
    let session = run.session;
    let before = run.window;
    let window = streams::after_read(before, got, buffer.len());
    let held = window.held;
    let last = window.last;
    let played = playback::play_window(session, &buffer[..held], last, packets, out, 0);
    let after = played.session;
    let left = streams::slide(buffer, played.used, held);
    TurnEnd {
        run: FileRun {
            session: after,
            window: Window { held: left, last },
        },
        end: played.next,
        done: streams::nothing_left(after.ended, last, left),
    }
}
