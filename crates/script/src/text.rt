// The lines of a script, one after the other.
ghost use Rattle.std.specs.Prelude.{◌≡◌, ◌<◌, length, drop};
ghost use Rattle.laws.specs.Reply.{on_reply};
ghost use Rattle.script.specs.Reading.{script_calls};
ghost use Rattle.script.specs.FirstLines.{holds_script_line, first_line_reply, taken_line_reply};
ghost use Rattle.script.specs.PrivateContracts.{FirstScriptLine, NextScriptLineOf, call_count_reply};

use crate::{LineRefusal, RefusedLine};
use calls::Call;

// The most bytes of a line, without its line feed.
const LONGEST_LINE: usize = 200;

// A line that is taken: how many bytes it has, without its line feed, and its call.
#[derive(Clone, Copy)]
pub struct TakenLine {
    pub length: usize,
    pub call: Option<Call>,
}

// How many bytes stand before the first line feed, or in all.
fn line_length(text: &[u8]) -> usize
    ensures { FirstScriptLine text.now result }
{
    for (place, byte) in text.iter().enumerate() {
        if *byte == b'\n' {
            return place;
        }
    }
    text.len()
}

// Whether what the first line comes to is known, whatever follows the bytes.
pub fn holds_script_line(bytes: &[u8]) -> bool
    ensures { result ≡ holds_script_line bytes.now }
{
    LONGEST_LINE < bytes.len() || line_length(bytes) < bytes.len()
}

// What the first line of the bytes that are left comes to.
pub fn first_script_line(left: &[u8]) -> Result<TakenLine, LineRefusal>
    ensures { taken_line_reply result ≡ first_line_reply left.now }
{
    let length = line_length(left);
    if LONGEST_LINE < length {
        return Err(LineRefusal::TooLong);
    }
    if left.len() <= length {
        return Err(LineRefusal::OtherShape);
    }
    let call = calls::read_script_line(&left[..length])?;
    Ok(TakenLine { length, call })
}

// The next line of a text, from a place on.
pub(crate) fn next_script_line(text: &[u8], at: usize) -> Result<TakenLine, LineRefusal>
    requires { at < length text.now }
    ensures { NextScriptLineOf (drop at text.now) result }
{
    first_script_line(buffers::bytes_from(text, at))
}

// Counts the calls of a text. (The step of the loop is a line, whose length is known when it was read.)
pub(crate) fn count_calls(text: &[u8]) -> Result<usize, RefusedLine>
    ensures { call_count_reply result ≡ on_reply length (script_calls text.now) }
{
    let mut at = 0;
    let mut passed = 0;
    let mut calls = 0;
    while at < text.len() {
        match next_script_line(text, at) {
            Err(refusal) => {
                return Err(RefusedLine {
                    line: passed + 1,
                    refusal,
                });
            }
            Ok(line) => {
                at += line.length + 1;
                passed += 1;
                if line.call.is_some() {
                    calls += 1;
                }
            }
        }
    }
    Ok(calls)
}
