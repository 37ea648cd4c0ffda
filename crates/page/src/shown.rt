// Text of a file or of its name on the page: control characters by their numbers, so that none of them acts.
use crate::Pen;
use buffers::text::lowercase_digit;
use std::io;
use std::io::Write;

// Whether a byte is part of a control character, of ASCII or, after C2, of UTF-8.
fn is_control(before: Option<u8>, byte: u8) -> bool {
    byte < 32 || byte == 127 || before == Some(0xC2) && (128..160).contains(&byte)
}

// A byte, after another one of the same text; a tab as a space.
pub fn byte(pen: &mut Pen, before: Option<u8>, byte: u8) -> io::Result<()> {
    if byte == b'\t' {
        write!(pen, " ")
    } else if is_control(before, byte) {
        let number = [
            b'\\',
            b'x',
            lowercase_digit(byte / 16),
            lowercase_digit(byte),
        ];
        pen.write_all(&number)
    } else {
        pen.write_all(&[byte])
    }
}

// All bytes.
pub fn bytes(pen: &mut Pen, text: &[u8]) -> io::Result<()> {
    let mut before = None;
    for now in text {
        byte(pen, before, *now)?;
        before = Some(*now);
    }
    Ok(())
}
