// The lines of a script that are refused, in words. The refusal is the first one's; the others are named so that all
// can be mended at once.
#![tactic(auto)]

ghost use Rattle.std.specs.Prelude.{◌≤◌, ◌<◌, length, IfSome};

use console::input::Input;
use console::say::Command;
use console::shown::Text;
use console::{input, say};
use scriptlines::{ScriptFile, ScriptRun};
use streams::Window;

mod cause;

// The most bytes of a line; of a longer one only so many are shown.
const LONGEST_LINE: usize = 200;

// So many refused lines are named; those behind them are counted.
const MOST_NAMED: u64 = 20;

// Where the first line of the text ends, if a line feed ends it.
fn line_end(text: &[u8]) -> Option<usize>
    ensures { IfSome result (λ end. end < length text.now) }
{
    text.iter().position(|byte| *byte == b'\n')
}

// A line that is too long, of which the first bytes are given, in words.
fn name_long(command: Command, first: &[u8], number: u64) {
    let shown = Text(first);
    say::formatted(
        command,
        format_args!("line {number} has more than 200 bytes: {shown}...\n"),
    );
}

// A line of another shape, in words; `ended` where a line feed follows it.
fn name_shape(command: Command, line: &[u8], ended: bool, number: u64) {
    let cause = cause::cause_of(line, ended);
    let shown = Text(line);
    say::formatted(command, format_args!("line {number}{cause}{shown}\n"));
}

fn name_line(command: Command, line: &[u8], ended: bool, number: u64) {
    if LONGEST_LINE < line.len() {
        // 0 is written: with `[..LONGEST_LINE]` the proof of the length did not close.
        name_long(command, &line[0..LONGEST_LINE], number);
    } else {
        name_shape(command, line, ended, number);
    }
}

// The line at the start of the text, in words.
fn name_first(command: Command, text: &[u8], number: u64) {
    let end = line_end(text);
    let line = &text[..end.unwrap_or(text.len())];
    name_line(command, line, end.is_some(), number);
}

// What a window holds, never more than the buffer has.
fn held_in(window: Window, size: usize) -> usize
    ensures { result ≤ size }
{
    streams::after_read(window, 0, size).held
}

// Leaves out the refused line at the buffer's start, however long it is; none where nothing is behind it.
fn skip_line(from: Input<'_>, file: ScriptFile, buffer: &mut [u8]) -> Option<ScriptFile> {
    let run = ScriptRun {
        lines: scriptlines::refused_line(file.run),
        refusal: None,
    };
    let mut window = file.window;
    for _ in 0..u64::MAX {
        let held = held_in(window, buffer.len());
        let end = line_end(&buffer[..held]);
        let used = match end {
            Some(place) => place + 1,
            None => held,
        };
        window.held = streams::slide(buffer, used, held);
        if window.last && window.held == 0 {
            return None;
        }
        if end.is_some() {
            return Some(ScriptFile { run, window });
        }
        let got = input::read_on(from, window, buffer).ok()?;
        window = streams::after_read(window, got, buffer.len());
    }
    None
}

// Leaves out the refused line at the buffer's start, and reads on to the next one, if there is one. No script has as
// many turns as the loop.
fn next_refused(
    from: Input<'_>,
    file: ScriptFile,
    buffer: &mut [u8],
    records: &mut [u8],
) -> Option<ScriptFile> {
    let mut file = skip_line(from, file, buffer)?;
    for _ in 0..u64::MAX {
        let got = input::read_on(from, file.window, buffer).ok()?;
        let turn = scriptlines::turn(file, got, buffer, records);
        file = turn.file;
        if file.run.refusal.is_some() {
            return Some(file);
        }
        if turn.done {
            return None;
        }
    }
    None
}

fn say_more(command: Command, count: u64) {
    if MOST_NAMED < count {
        let more = count - MOST_NAMED;
        say::formatted(
            command,
            format_args!("refused lines besides these: {more}\n"),
        );
    }
}

// Names the refused line that stands at the buffer's start, and reads on to name those behind it.
pub fn name_all(from: Input<'_>, file: ScriptFile, buffer: &mut [u8], records: &mut [u8]) {
    let mut file = file;
    for count in 1..u64::MAX {
        if count <= MOST_NAMED {
            let held = held_in(file.window, buffer.len());
            let number = scriptlines::refused_line(file.run);
            name_first(from.command, &buffer[..held], number);
        }
        match next_refused(from, file, buffer, records) {
            Some(next) => file = next,
            None => {
                say_more(from.command, count);
                break;
            }
        }
    }
}
