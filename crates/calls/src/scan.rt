// The tokens of a line, each after spaces and tabs: a word, a value, and the line's end. Each is read from a place on,
// and answers the place after it, where it stands there.
ghost use Rattle.std.specs.Prelude.{◌≡◌, SomeIff, ◌<◌, get_or, drop};
ghost use Rattle.std.proofs.Math.Option.{some};
ghost use Rattle.calls.specs.Grammar.{is_blank, digit_value};
ghost use Rattle.calls.specs.ScriptLines.{after_blanks, after_prefix, after_token, digits_read, value_read};
ghost use Rattle.calls.specs.ScriptLines.{script_line_ends};
ghost use Rattle.calls.specs.PrivateContracts.{rest_at, value_and_rest_at};

use crate::digit;

// A value, and the place after it.
#[derive(Clone, Copy)]
pub(crate) struct ScannedValue {
    pub value: u8,
    pub next: usize,
}

fn is_blank(byte: u8) -> bool
    ensures { result ≡ is_blank byte }
{
    byte == b' ' || byte == b'\t'
}

// The place after spaces and tabs. (A `for` from the place on is no plainer: the place may lie past the end.)
pub(crate) fn after_blanks(line: &[u8], at: usize) -> usize
    ensures { drop result line.now ≡ after_blanks (drop at line.now) }
{
    let mut place = at;
    while place < line.len() && is_blank(line[place]) {
        place += 1;
    }
    place
}

// The place after a word.
fn after_prefix(line: &[u8], at: usize, word: &[u8]) -> Option<usize>
    ensures { rest_at line.now result ≡ after_prefix word.now (drop at line.now) }
{
    let mut place = at;
    for letter in word {
        if line.len() <= place || line[place] != *letter {
            return None;
        }
        place += 1;
    }
    Some(place)
}

// A word after spaces and tabs.
pub(crate) fn expect(line: &[u8], at: usize, word: &[u8]) -> Option<usize>
    ensures { rest_at line.now result ≡ after_token word.now (some (drop at line.now)) }
{
    after_prefix(line, after_blanks(line, at), word)
}

// The value of the hex digit at a place.
fn digit_at(line: &[u8], at: usize) -> Option<u8>
    ensures { SomeIff result (digit_value (get_or line.now at 0) < 16) (digit_value (get_or line.now at 0)) }
{
    digit::value(buffers::byte_at(line, at))
}

// One or two hex digits.
fn read_digits(line: &[u8], at: usize) -> Option<ScannedValue>
    ensures { value_and_rest_at line.now result ≡ digits_read (some (drop at line.now)) }
{
    let high = digit_at(line, at)?;
    let digits = match digit_at(line, at + 1) {
        None => ScannedValue {
            value: high,
            next: at + 1,
        },
        Some(low) => ScannedValue {
            value: 16 * high + low,
            next: at + 2,
        },
    };
    Some(digits)
}

// A value after spaces and tabs: 0x, and one or two hex digits.
pub(crate) fn read_value(line: &[u8], at: usize) -> Option<ScannedValue>
    ensures { value_and_rest_at line.now result ≡ value_read (some (drop at line.now)) }
{
    read_digits(line, expect(line, at, b"0x")?)
}

// Whether the line ends at the place, but for spaces, tabs and a comment.
pub(crate) fn ends(line: &[u8], at: usize) -> bool
    ensures { result ≡ script_line_ends (drop at line.now) }
{
    let place = after_blanks(line, at);
    line.len() <= place || line[place] == b'#'
}
