// Bytes of files and their names as they are shown on standard error: what would not be seen, by its number.
use crate::say::Stderr;
use buffers::text::lowercase_digit;
use std::fmt;
use std::fmt::Display;
use std::io::Write;

// Whether a byte is a letter, a digit or another sign of ASCII.
fn is_sign(byte: u8) -> bool {
    matches!(byte, b' '..=b'~')
}

// A byte by its number, in one piece.
fn number(byte: u8) -> [u8; 4] {
    [
        b'\\',
        b'x',
        lowercase_digit(byte / 16),
        lowercase_digit(byte),
    ]
}

// Text of which every byte matters: all but ASCII by its number.
#[derive(Clone, Copy)]
pub struct Text<'a>(pub &'a [u8]);

impl Display for Text<'_> {
    fn fmt<W: fmt::Write>(&self, f: &mut fmt::Formatter<W>) -> fmt::Result {
        for &byte in self.0 {
            if is_sign(byte) {
                write!(f, "{}", byte as char)?;
            } else {
                f.write_str(std::str::from_utf8(&number(byte)).unwrap_or(""))?;
            }
        }
        Ok(())
    }
}

// Whether a byte of a file's name is part of a control character, of ASCII or, after C2, of UTF-8.
fn is_control(before: u8, byte: u8) -> bool {
    if byte < 128 {
        return !is_sign(byte);
    }
    before == 0xC2 && byte < 160
}

// A file's name on standard error, control characters by their numbers; its other bytes need not be text.
pub fn name(bytes: &[u8]) {
    let mut before = 0;
    for &byte in bytes {
        if is_control(before, byte) {
            let _ = Stderr.write_all(&number(byte));
        } else {
            let _ = Stderr.write_all(&[byte]);
        }
        before = byte;
    }
}
