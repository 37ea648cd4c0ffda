// An installer's script of any size, turned into the records of its trace turn by turn, with no input and no output: a
// program reads bytes into a buffer, a turn takes the lines there, and the program does with their records what it
// likes.
#![tactic(auto)]

ghost use Rattle.std.specs.Prelude.{◌≡◌, is_ok};
ghost use Rattle.hub.specs.Hubs.{is_hub_address};
ghost use Rattle.scriptlines.specs.TakenLines.{refused_line};
ghost use Rattle.scriptlines.specs.TakenLines.{done_of, lines_state_at, TakesLines};
ghost use Rattle.scriptlines.specs.ScriptFiles.{new_script_file, MakesScriptTurn};

use hub::AddressOutOfRange;
use script::LineRefusal;
use streams::Window;

mod line;

// How far a script is read: how many lines were taken, and why the next one was refused, if it was.
#[derive(Clone, Copy)]
pub struct ScriptRun {
    pub lines: u64,
    pub refusal: Option<LineRefusal>,
}

// What came of a window: how far the script is read, how many bytes of the window were used, and the next free place
// for records.
#[derive(Clone, Copy)]
pub struct LinesTaken {
    pub run: ScriptRun,
    pub used: usize,
    pub next: usize,
}

// A script between two turns: how far it is read, and what the buffer holds at its start of the file.
#[derive(Clone, Copy)]
pub struct ScriptFile {
    pub run: ScriptRun,
    pub window: Window,
}

// What a turn gives: the script after it, the end of the records in the lent buffer, and whether nothing is left to
// take.
#[derive(Clone, Copy)]
pub struct ScriptTurn {
    pub file: ScriptFile,
    pub end: usize,
    pub done: bool,
}

// The number of the line that is refused; lines are counted from 1.
pub fn refused_line(run: ScriptRun) -> u64
    ensures { result ≡ refused_line run }
{
    run.lines.wrapping_add(1)
}

// Whether the address may be a hub's own.
pub fn check_address(address: u8) -> Result<(), AddressOutOfRange>
    ensures { is_ok result ≡ is_hub_address address }
{
    if !hub::is_hub_address(address) {
        return Err(AddressOutOfRange);
    }
    Ok(())
}

// The script before a byte of it is read.
pub fn new_file() -> ScriptFile
    ensures { result ≡ new_script_file }
{
    let window = streams::new_window();
    ScriptFile {
        run: ScriptRun {
            lines: 0,
            refusal: None,
        },
        window,
    }
}

// Takes the lines of a window of the file, as far as they are whole and there is room for their records from the place
// on; `last` where the file ends with the window. (The step of the loop is a line, whose length its reading tells.)
pub fn take_lines(
    run: ScriptRun,
    window: &[u8],
    last: bool,
    out: &mut [u8],
    at: usize,
) -> LinesTaken
    ensures { TakesLines last
        (lines_state_at (done_of run) window.now out.old at)
        result out.new }
{
    let mut run = run;
    let mut used = 0;
    let mut next = at;
    while line::may_take_line(
        run,
        buffers::bytes_from(window, used),
        last,
        out.len(),
        next,
    ) {
        let left = buffers::bytes_from(window, used);
        let taken = line::take_line(run, left, out, next);
        run = taken.run;
        used += taken.used;
        next = taken.next;
    }
    LinesTaken { run, used, next }
}

// One turn: `got` bytes of the file were read into the buffer after those that it held. Their lines are taken, and what
// is left of them moves to the buffer's start. (The turns of the crates that read files share these three calls of
// `streams`: a closure in their place would hide the lent buffers from the contract.)
pub fn turn(file: ScriptFile, got: usize, buffer: &mut [u8], out: &mut [u8]) -> ScriptTurn
    ensures { MakesScriptTurn file got buffer.old out.old
        result buffer.new out.new }
{
    let window = streams::after_read(file.window, got, buffer.len());
    let last = window.last;
    let taken = take_lines(file.run, &buffer[..window.held], last, out, 0);
    let run = taken.run;
    let held = streams::slide(buffer, taken.used, window.held);
    ScriptTurn {
        file: ScriptFile {
            run,
            window: Window { held, last },
        },
        end: taken.next,
        done: streams::nothing_left(run.refusal.is_some(), last, held),
    }
}
