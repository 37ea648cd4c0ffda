// The addresses that somebody hears: who hears a write, who answers a read, and the lines that make it so.
use crate::fields::{LineList, QuotedHex};
use answers::RecordAnswer;
use endstate::{EndState, addresses};
use page::Pen;
use std::io;
use std::io::Write;
use translation::Addressed;

// What the player prints of an address question after w or r, taken from its line: 1 A 31 w 0:30, or 1 ! 9.
fn question_answer(pen: &mut Pen, answered: RecordAnswer) -> io::Result<()> {
    let mut line = [0u8; 128];
    let end = printing::put_printed_line(1, answered, &mut line, 0);
    let from = if line[2] == b'!' { 2 } else { 9 };
    let text = line.get(from..end.saturating_sub(1)).unwrap_or(b"");
    write!(pen, "\"")?;
    pen.write_all(text)?;
    write!(pen, "\"")
}

fn one(pen: &mut Pen, end: &EndState, address: u8) -> io::Result<()> {
    write!(pen, "{{\"address\":{},\"write\":", QuotedHex(address))?;
    let answer = translation::who_hears_write(end.hub, address);
    question_answer(pen, RecordAnswer::WriteQuestion { address, answer })?;
    write!(pen, ",\"read\":")?;
    let answer = translation::who_answers_read(end.hub, address);
    question_answer(pen, RecordAnswer::ReadQuestion { address, answer })?;
    write!(
        pen,
        ",\"lines\":{}}}",
        LineList(addresses::address_lines(end, address))
    )
}

// Whether a write to the address is not answered none.
fn is_heard(end: &EndState, address: u8) -> bool {
    matches!(
        translation::who_hears_write(end.hub, address),
        Ok(Addressed::Hub | Addressed::Found(_))
    )
}

pub fn all(pen: &mut Pen, end: &EndState) -> io::Result<()> {
    write!(pen, ",\"addresses\":[")?;
    let mut before = "";
    for address in 0..128u8 {
        if is_heard(end, address) {
            write!(pen, "{before}")?;
            one(pen, end, address)?;
            before = ",";
        }
    }
    write!(pen, "]")
}
