// Words that the screens of show and check share: lines and records, ports, outputs with their channels, and the names
// of findings. What comes of a write is the system's to say, so contracts have nothing to promise here.
#![tactic(auto)]

use crate::kinds::Kind;
use endstate::lines::Lines;
use formats::Format;
use page::Pen;
use registers::bits;
use std::io::Write;
use std::{fmt, io};

pub mod kinds;
pub mod numbers;

// The column of a finding's name.
const NAME_COLUMN: u64 = 61;

// What the writes are read from. What has their numbers is a line, or a record where it is a trace.
#[derive(Clone, Copy, PartialEq, Eq)]
pub enum Source {
    Script,
    Trace,
}

// The word before the number of one of them, or before those of several, with its space.
#[derive(Clone, Copy)]
pub struct PlaceWord {
    pub source: Source,
    pub several: bool,
}

impl fmt::Display for PlaceWord {
    fn fmt<W: fmt::Write>(&self, f: &mut fmt::Formatter<W>) -> fmt::Result {
        f.write_str(match (self.source, self.several) {
            (Source::Script, false) => "line ",
            (Source::Script, true) => "lines ",
            (Source::Trace, false) => "record ",
            (Source::Trace, true) => "records ",
        })
    }
}

// One of them, with its number.
#[derive(Clone, Copy)]
pub struct Place {
    pub source: Source,
    pub number: u64,
}

impl fmt::Display for Place {
    fn fmt<W: fmt::Write>(&self, f: &mut fmt::Formatter<W>) -> fmt::Result {
        let number = self.number;
        match self.source {
            Source::Script => write!(f, "line {number}"),
            Source::Trace => write!(f, "record {number}"),
        }
    }
}

// The same at the start of a sentence.
#[derive(Clone, Copy)]
pub struct Capital(pub Place);

impl fmt::Display for Capital {
    fn fmt<W: fmt::Write>(&self, f: &mut fmt::Formatter<W>) -> fmt::Result {
        let number = self.0.number;
        match self.0.source {
            Source::Script => write!(f, "Line {number}"),
            Source::Trace => write!(f, "Record {number}"),
        }
    }
}

// Lines, at most three: those that make a device hear an address. 0 is none.
#[derive(Clone, Copy)]
pub struct ThreeLines {
    pub source: Source,
    pub lines: Lines,
}

impl fmt::Display for ThreeLines {
    fn fmt<W: fmt::Write>(&self, f: &mut fmt::Formatter<W>) -> fmt::Result {
        let source = self.source;
        let several = PlaceWord {
            source,
            several: true,
        };
        match self.lines.numbers {
            [0, ..] => Ok(()),
            [number, 0, ..] => write!(f, "{}", Place { source, number }),
            [first, second, 0, ..] => write!(f, "{several}{first}, {second}"),
            [first, second, third, ..] => write!(f, "{several}{first}, {second}, {third}"),
        }
    }
}

// The numbers of the ports of a set: 1, or 0 and 1, or 0, 1 and 2.
#[derive(Clone, Copy)]
pub struct Ports(pub u8);

impl fmt::Display for Ports {
    fn fmt<W: fmt::Write>(&self, f: &mut fmt::Formatter<W>) -> fmt::Result {
        let mut left = self.0 & 0x0F;
        for port in 0..4u8 {
            if bits::is_set(left, port) {
                left &= !ports::mask_of_port(port);
                let after = match left {
                    0 => "",
                    _ if ports::are_several(left) => ", ",
                    _ => " and ",
                };
                write!(f, "{port}{after}")?;
            }
        }
        Ok(())
    }
}

// The ports of a set: port 1, or ports 0 and 1.
#[derive(Clone, Copy)]
pub struct NamedPorts(pub u8);

impl fmt::Display for NamedPorts {
    fn fmt<W: fmt::Write>(&self, f: &mut fmt::Formatter<W>) -> fmt::Result {
        let word = if ports::are_several(self.0) {
            "ports "
        } else {
            "port "
        };
        write!(f, "{word}{}", Ports(self.0))
    }
}

// An output and a channel, for a format.
#[derive(Clone, Copy)]
pub struct OutputChannel {
    pub format: Format,
    pub output: u8,
    pub channel: u8,
}

impl fmt::Display for OutputChannel {
    fn fmt<W: fmt::Write>(&self, f: &mut fmt::Formatter<W>) -> fmt::Result {
        let format = match self.format {
            Format::Raw10 => " (RAW10)",
            Format::Raw12 => " (RAW12)",
        };
        write!(
            f,
            "output {}, channel {}{format}",
            self.output, self.channel
        )
    }
}

// The name of a finding's kind, and the end of the line.
pub fn named(pen: &mut Pen, kind: Kind) -> io::Result<()> {
    pen.to_column(NAME_COLUMN)?;
    writeln!(pen, "[{kind}]")
}

// A count with the words for one thing, or those for several.
pub fn counted(pen: &mut Pen, count: u64, one: &[u8], several: &[u8]) -> io::Result<()> {
    write!(pen, "{count}")?;
    pen.write_all(if count == 1 { one } else { several })
}
