// The next line of a window: whether there is one to take, and its record.
ghost use Rattle.std.specs.Prelude.{◌≡◌, ◌+◌, ◌≤◌, length};
ghost use Rattle.scriptlines.specs.TakenLines.{done_of, lines_state_at, record_room, may_take_next};
ghost use Rattle.scriptlines.specs.PrivateContracts.{TakesLine};

use crate::{LinesTaken, ScriptRun};
use script::records::WRITE_RECORD;

// Whether there is a next line to take: one test after the other, as its definition has them.
pub(crate) fn may_take_line(run: ScriptRun, left: &[u8], last: bool, size: usize, at: usize) -> bool
    ensures { result ≡ may_take_next (done_of run) left.now last size at }
{
    if run.refusal.is_some() || !buffers::has_room(size, at, WRITE_RECORD) {
        return false;
    }
    if last {
        return left.len() != 0;
    }
    script::text::holds_script_line(left)
}

// Takes the line at the start of what is left of a window; one that is refused stays.
pub(crate) fn take_line(run: ScriptRun, left: &[u8], out: &mut [u8], at: usize) -> LinesTaken
    requires { at + record_room ≤ length out.old }
    ensures { TakesLine (lines_state_at (done_of run) left.now out.old at)
        result out.new }
{
    match script::text::first_script_line(left) {
        Err(refusal) => LinesTaken {
            run: ScriptRun {
                lines: run.lines,
                refusal: Some(refusal),
            },
            used: 0,
            next: at,
        },
        Ok(line) => {
            let used = line.length + 1;
            let next = script::records::put_line(out, at, Ok(line.call));
            LinesTaken {
                run: ScriptRun {
                    lines: run.lines.wrapping_add(1),
                    refusal: None,
                },
                used,
                next,
            }
        }
    }
}
