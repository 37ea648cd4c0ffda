// Numbers on the page: a byte as hex digits, in one piece, and a number in a column.
use crate::Pen;
use buffers::text::hex_digit;
use std::fmt;
use std::io::{Result, Write};

// A byte as two hex digits.
#[derive(Clone, Copy)]
pub struct Hex(pub u8);

impl fmt::Display for Hex {
    fn fmt<W: fmt::Write>(&self, f: &mut fmt::Formatter<W>) -> fmt::Result {
        let digits = [hex_digit(self.0 / 16), hex_digit(self.0)];
        f.write_str(std::str::from_utf8(&digits).unwrap_or(""))
    }
}

impl Pen {
    // A number that ends before a column, where it has room.
    pub fn number_before(&mut self, number: u64, column: u64) -> Result<()> {
        let mut digits = [0u8; 20];
        let count = io::decimal(number, &mut digits);
        let end = self.column.saturating_add(count as u64);
        if end < column {
            self.spaces(column - end)?;
        }
        self.write_all(&digits[..count])
    }
}
