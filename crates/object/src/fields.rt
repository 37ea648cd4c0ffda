// Values as JSON has them: what may be null, bytes, and lists of lines and of ports.
use endstate::lines::Lines;
use page::number::Hex;
use registers::bits;
use std::fmt;

// A number, null for none.
#[derive(Clone, Copy)]
pub(crate) struct OrNull(pub Option<u64>);

impl fmt::Display for OrNull {
    fn fmt<W: fmt::Write>(&self, f: &mut fmt::Formatter<W>) -> fmt::Result {
        match self.0 {
            Some(number) => write!(f, "{number}"),
            None => write!(f, "null"),
        }
    }
}

// A byte as two hex digits in quotes.
#[derive(Clone, Copy)]
pub(crate) struct QuotedHex(pub u8);

impl fmt::Display for QuotedHex {
    fn fmt<W: fmt::Write>(&self, f: &mut fmt::Formatter<W>) -> fmt::Result {
        write!(f, "\"{}\"", Hex(self.0))
    }
}

// The number of a line; 0 is none.
pub(crate) fn line(number: u64) -> OrNull {
    if number == 0 {
        OrNull(None)
    } else {
        OrNull(Some(number))
    }
}

// A list of lines.
#[derive(Clone, Copy)]
pub(crate) struct LineList(pub Lines);

impl fmt::Display for LineList {
    fn fmt<W: fmt::Write>(&self, f: &mut fmt::Formatter<W>) -> fmt::Result {
        write!(f, "[")?;
        let mut before = "";
        for number in self.0.numbers {
            if number != 0 {
                write!(f, "{before}{number}")?;
                before = ",";
            }
        }
        write!(f, "]")
    }
}

// The ports of a set, rising.
#[derive(Clone, Copy)]
pub(crate) struct PortList(pub u8);

impl fmt::Display for PortList {
    fn fmt<W: fmt::Write>(&self, f: &mut fmt::Formatter<W>) -> fmt::Result {
        write!(f, "[")?;
        let mut before = "";
        for port in 0..4u8 {
            if bits::is_set(self.0, port) {
                write!(f, "{before}{port}")?;
                before = ",";
            }
        }
        write!(f, "]")
    }
}
