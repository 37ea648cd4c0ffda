// A trace of any size as its text, window by window, with no input and no output: a program reads bytes of the trace
// into a buffer, and a turn puts the text of the records there into another.
#![tactic(auto)]

ghost use Rattle.std.specs.Prelude.{◌≡◌};
ghost use Rattle.tracetext.specs.TextWindows.{refused_record, new_text_run, list_state_at, ListsWindow};
ghost use Rattle.tracetext.specs.TextFiles.{new_text_file, end_refusal, MakesTextTurn};

use listing::TextRefusal;
use streams::Window;

mod record;

// Between two records: how many were passed, and why the next one has no text, if it is refused.
#[derive(Clone, Copy)]
pub struct TextRun {
    pub records: u64,
    pub refusal: Option<TextRefusal>,
}

// What came of a window: the run after it, how many bytes of the window were passed, and the next free place for text.
#[derive(Clone, Copy)]
pub struct TextListed {
    pub run: TextRun,
    pub used: usize,
    pub next: usize,
}

// Between two turns: the run, and what the buffer holds at its start of the trace.
#[derive(Clone, Copy)]
pub struct TextFile {
    pub run: TextRun,
    pub window: Window,
}

// What a turn gives: where the trace stands after it, the end of the text in the lent buffer, and whether nothing is
// left to do.
#[derive(Clone, Copy)]
pub struct TextTurn {
    pub file: TextFile,
    pub end: usize,
    pub done: bool,
}

// The number of the record that is refused; records are counted from 1.
pub fn refused_record(run: TextRun) -> u64
    ensures { result ≡ refused_record run }
{
    run.records.wrapping_add(1)
}

// The run before the first record.
pub fn new_run() -> TextRun
    ensures { result ≡ new_text_run }
{
    TextRun {
        records: 0,
        refusal: None,
    }
}

// Why a trace that ends after this run has no text, if it has none: a trace with no record is refused too.
pub fn end_refusal(run: TextRun) -> Option<TextRefusal>
    ensures { result ≡ end_refusal run }
{
    if run.refusal.is_some() {
        return run.refusal;
    }
    if run.records == 0 {
        return Some(TextRefusal::NoRecord);
    }
    None
}

// Puts the texts of the records of a window one after the other from the place on, as far as the records are whole and
// there is room for the longest text; a record that is refused ends it. `last` where the trace ends with the window.
// (The step of the loop is a record, whose length its head tells.)
pub fn text_window(run: TextRun, window: &[u8], last: bool, out: &mut [u8], at: usize) -> TextListed
    ensures { ListsWindow last
        (list_state_at run window.now out.old at) result out.new }
{
    let mut run = run;
    let mut used = 0;
    let mut next = at;
    while record::may_list(
        run,
        buffers::bytes_from(window, used),
        last,
        out.len(),
        next,
    ) {
        let left = buffers::bytes_from(window, used);
        let taken = record::list_one(run, left, out, next);
        run = taken.run;
        used += taken.used;
        next = taken.next;
    }
    TextListed { run, used, next }
}

// Before a byte of the trace is read.
pub fn new_file() -> TextFile
    ensures { result ≡ new_text_file }
{
    let run = new_run();
    let window = streams::new_window();
    TextFile { run, window }
}

// One turn: `got` bytes of the trace were read into the buffer after those that it held. The text of their records is
// put from the start of the other buffer on, and what is left of the bytes moves to their buffer's start.
pub fn turn(file: TextFile, got: usize, buffer: &mut [u8], out: &mut [u8]) -> TextTurn
    ensures { MakesTextTurn file got buffer.old out.old
        result buffer.new out.new }
{
    let window = streams::after_read(file.window, got, buffer.len());
    let last = window.last;
    let taken = text_window(file.run, &buffer[..window.held], last, out, 0);
    let run = taken.run;
    let held = streams::slide(buffer, taken.used, window.held);
    TextTurn {
        file: TextFile {
            run,
            window: Window { held, last },
        },
        end: taken.next,
        done: streams::nothing_left(run.refusal.is_some(), last, held),
    }
}
