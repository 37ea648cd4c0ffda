// Why a line of a script is likely to have another shape than a call's, told by the bytes that people type or that
// programs leave there.
ghost use Rattle.std.specs.Prelude.{◌<◌, length};

use calls::digit;
use std::fmt;
use std::fmt::Display;

#[derive(Clone, Copy)]
pub(crate) enum Cause {
    NotTold,
    NoText,
    Trace,
    NoLineFeed,
    ByteOrderMark,
    CarriageReturn,
    MailQuotation,
    NoBreakSpace,
    Slashes,
    WebPage,
    Semicolon,
    CapitalX,
    OtherCase,
    ManyCalls,
    ManyValues,
    BareValue,
}

// Whether the part stands somewhere in the text.
fn holds(text: &[u8], part: &[u8]) -> bool
    requires { 0 < length part.now }
{
    text.windows(part.len()).any(|window| window == part)
}

// The same, in any capitals.
fn holds_in_any_case(text: &[u8], part: &[u8]) -> bool
    requires { 0 < length part.now }
{
    text.windows(part.len())
        .any(|window| window.eq_ignore_ascii_case(part))
}

// Whether the byte stands more than once in the text.
fn has_two(text: &[u8], byte: u8) -> bool {
    text.iter().filter(|other| **other == byte).count() > 1
}

fn after_blanks(text: &[u8]) -> &[u8] {
    let start = text.iter().position(|byte| *byte != b' ' && *byte != b'\t');
    &text[start.unwrap_or(text.len())..]
}

// Whether a value without 0x stands at the start of the text.
fn is_bare(text: &[u8]) -> bool {
    match text {
        [] | [b'0', b'x', ..] => false,
        [first, ..] => digit::value(*first).is_some(),
    }
}

// Whether a value after a bracket or a comma is without 0x.
fn has_bare_value(text: &[u8]) -> bool {
    text.split(|byte| *byte == b'(' || *byte == b',')
        .skip(1)
        .any(|value| is_bare(after_blanks(value)))
}

// What the call itself tells, its comment left out.
fn cause_in_call(text: &[u8]) -> Cause {
    if holds(text, b"//") {
        return Cause::Slashes;
    }
    if text.contains(&b'&') || text.contains(&b'<') {
        return Cause::WebPage;
    }
    if text.contains(&b';') {
        return Cause::Semicolon;
    }
    if holds(text, b"0X") {
        return Cause::CapitalX;
    }
    if holds_in_any_case(text, b"WriteI2C") && !holds(text, b"WriteI2C") {
        return Cause::OtherCase;
    }
    if has_two(text, b'(') {
        return Cause::ManyCalls;
    }
    if has_two(text, b',') {
        return Cause::ManyValues;
    }
    if has_bare_value(text) {
        return Cause::BareValue;
    }
    Cause::NotTold
}

// Whether a space that does not break stands in the text, wide or narrow, as UTF-8 has them.
fn has_no_break_space(text: &[u8]) -> bool {
    holds(text, b"\xC2\xA0") || holds(text, b"\xE2\x80\xAF")
}

// The likely cause of a line's shape; `ended` where a line feed follows it.
pub(crate) fn cause_of(line: &[u8], ended: bool) -> Cause {
    if line.starts_with(b"\x9A\x64") {
        return Cause::Trace;
    }
    if line.contains(&0) {
        return Cause::NoText;
    }
    if !ended {
        return Cause::NoLineFeed;
    }
    if line.starts_with(b"\xEF\xBB\xBF") {
        return Cause::ByteOrderMark;
    }
    if line.contains(&b'\r') {
        return Cause::CarriageReturn;
    }
    let comment = line.iter().position(|byte| *byte == b'#');
    let call = &line[..comment.unwrap_or(line.len())];
    if call.contains(&b'>') && !call.contains(&b'<') {
        return Cause::MailQuotation;
    }
    if has_no_break_space(call) {
        return Cause::NoBreakSpace;
    }
    cause_in_call(call)
}

// Words for a cause, between the line's number and the line, with what parts them.
impl Display for Cause {
    fn fmt<W: fmt::Write>(&self, f: &mut fmt::Formatter<W>) -> fmt::Result {
        f.write_str(match self {
            Cause::NotTold => " is neither blank nor one call such as WriteI2C(0x4c,0x0f): ",
            Cause::NoText => " is no text; save the script as plain text, in UTF-8 or ASCII: ",
            Cause::Trace =>
                " begins as a trace does; show and play take a trace, without an address: ",
            Cause::NoLineFeed => " has no line feed at its end; press Enter after it: ",
            Cause::ByteOrderMark => " begins with a byte order mark; save the script without one: ",
            Cause::CarriageReturn =>
                " has a carriage return; save the script with Unix line ends: ",
            Cause::MailQuotation => " has > as a mail quotes it; take that away: ",
            Cause::NoBreakSpace => " has a space that does not break; type a plain one: ",
            Cause::Slashes => " has //; a comment begins with #: ",
            Cause::WebPage =>
                " has & or < of a web page; type a call such as WriteI2C(0x4c,0x0f): ",
            Cause::Semicolon => " has a semicolon; type a call such as WriteI2C(0x4c,0x0f): ",
            Cause::CapitalX => " has 0X; type 0x: ",
            Cause::OtherCase => " has the word in other capitals; type WriteI2C: ",
            Cause::ManyCalls => " has more than one call; give each a line of its own: ",
            Cause::ManyValues =>
                " has more than an offset and one value; type a call for each value: ",
            Cause::BareValue => " has a value without 0x; values are hex, as in 0x4c: ",
        })
    }
}
