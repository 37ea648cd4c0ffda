// The numbers of lines or records, one after another, in lines of at most 80 columns.
use page::Pen;
use std::io;
use std::io::Write;

// So many numbers are printed; those behind them are counted.
const MOST_NUMBERS: u64 = 40;

// A number that would stand behind this column begins a line.
const LAST_COLUMN: u64 = 70;

// One number more, after so many.
pub fn one_more(pen: &mut Pen, count: &mut u64, number: u64) -> io::Result<()> {
    if *count < MOST_NUMBERS {
        if *count != 0 {
            write!(pen, ",")?;
            let gap = if LAST_COLUMN < pen.column {
                "\n    "
            } else {
                " "
            };
            write!(pen, "{gap}")?;
        }
        write!(pen, "{number}")?;
    }
    *count = count.wrapping_add(1);
    Ok(())
}

// The end of so many numbers.
pub fn end(pen: &mut Pen, count: u64) -> io::Result<()> {
    if MOST_NUMBERS < count {
        write!(pen, " and {} more", count - MOST_NUMBERS)?;
    }
    writeln!(pen)
}
