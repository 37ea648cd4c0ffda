// What a register of a port holds, in words, for a value that was replaced: 32 by 33.
use page::Pen;
use page::number::Hex;
use registers::bits;
use std::io::Write;
use std::{fmt, io};

// The register at an offset of a port, what it held and what a write puts there.
#[derive(Clone, Copy)]
pub struct Change {
    pub offset: u8,
    pub old: u8,
    pub new: u8,
}

// The register itself, where its new value means nothing else.
fn register_by(pen: &mut Pen, change: Change) -> io::Result<()> {
    let Change { offset, old, new } = change;
    write!(
        pen,
        "register {}: {} by {}",
        Hex(offset),
        Hex(old),
        Hex(new)
    )
}

// An address, in bits 7 to 1.
fn address_by(pen: &mut Pen, words: &str, change: Change) -> io::Result<()> {
    let old = change.old / 2;
    let new = change.new / 2;
    if old == new {
        return register_by(pen, change);
    }
    write!(pen, "{words}{} by {}", Hex(old), Hex(new))
}

// The address of an alias; one of 0 is off.
#[derive(Clone, Copy, PartialEq, Eq)]
struct Alias(u8);

impl fmt::Display for Alias {
    fn fmt<W: fmt::Write>(&self, f: &mut fmt::Formatter<W>) -> fmt::Result {
        match self.0 {
            0 => write!(f, "off"),
            address => write!(f, "{}", Hex(address)),
        }
    }
}

fn alias_by(pen: &mut Pen, words: &str, change: Change) -> io::Result<()> {
    let old = Alias(change.old / 2);
    let new = Alias(change.new / 2);
    if old == new {
        return register_by(pen, change);
    }
    write!(pen, "{words}{old} by {new}")
}

// A virtual channel, in bits 7 and 6, or the data type, in the others.
fn channel_by(pen: &mut Pen, format: &str, change: Change) -> io::Result<()> {
    let Change { old, new, .. } = change;
    if old / 64 == new / 64 {
        return write!(
            pen,
            "{format} data type {} by {}",
            Hex(old % 64),
            Hex(new % 64)
        );
    }
    write!(pen, "{format} channel {} by {}", old / 64, new / 64)
}

fn pass_through_by(pen: &mut Pen, change: Change) -> io::Result<()> {
    match (bits::is_set(change.old, 6), bits::is_set(change.new, 6)) {
        (false, true) => write!(pen, "pass-through off by on"),
        (true, false) => write!(pen, "pass-through on by off"),
        _ => register_by(pen, change),
    }
}

// What a write replaces in the register of a port.
pub(crate) fn replaced_by(pen: &mut Pen, change: Change) -> io::Result<()> {
    match change.offset {
        0x58 => pass_through_by(pen, change),
        0x5B => address_by(pen, "the serializer's own address ", change),
        0x5C => alias_by(pen, "the serializer's address ", change),
        0x5D..=0x64 => address_by(pen, "a camera's own address ", change),
        0x65..=0x6C => alias_by(pen, "address ", change),
        0x70 => channel_by(pen, "RAW10", change),
        0x71 => channel_by(pen, "RAW12", change),
        _ => register_by(pen, change),
    }
}
