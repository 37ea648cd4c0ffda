// The end of a screen: the order, what the model cannot say, and whether something looks wrong.
use crate::title::WriteCounts;
use page::Pen;
use std::io;
use std::io::Write;
use words::{PlaceWord, Source};

// Whether the blocks may be run in any order, where there are several.
pub fn order(
    pen: &mut Pen,
    source: Source,
    any_order: bool,
    counts: WriteCounts,
) -> io::Result<()> {
    if !any_order {
        let places = PlaceWord {
            source,
            several: true,
        };
        return writeln!(
            pen,
            "\nThe order of the {places}may matter; check tells why."
        );
    }
    if counts.selections < 2 {
        return Ok(());
    }
    if counts.not_followed == 0 {
        writeln!(
            pen,
            "\nThe setup blocks may be run in any order: they end alike."
        )
    } else {
        writeln!(
            pen,
            "\nThe setup blocks may be run in any order, in what this model follows."
        )
    }
}

// What the model cannot say; the numbers of the writes that are not followed come after it, if there are some.
pub fn limits(pen: &mut Pen, source: Source, not_followed: u64) -> io::Result<()> {
    writeln!(pen, "\nWhat this model cannot say")?;
    writeln!(pen, "  whether an output is switched on (register 33)")?;
    writeln!(pen, "  which pictures a camera sends, RAW10 or RAW12")?;
    writeln!(pen, "  which camera is plugged into which port")?;
    if not_followed == 0 {
        return Ok(());
    }
    let places = PlaceWord {
        source,
        several: not_followed != 1,
    };
    write!(pen, "  what it does not follow: {places}")
}

// Nothing looks wrong. A script that sets nothing does not look right either.
fn nothing_wrong(pen: &mut Pen, counts: WriteCounts) -> io::Result<()> {
    if counts.writes == 0 {
        writeln!(pen, "There is no register write: is this the right file?")
    } else if counts.sets_nothing() {
        writeln!(
            pen,
            "Nothing that this model follows was set up: there is nothing to judge."
        )
    } else if counts.not_followed == 0 {
        writeln!(pen, "Nothing looks wrong.")
    } else {
        writeln!(pen, "Nothing looks wrong in what this model follows.")
    }
}

// How many things look wrong.
fn things(pen: &mut Pen, wrong: u64) -> io::Result<()> {
    words::counted(pen, wrong, b" thing looks wrong.", b" things look wrong.")
}

// Whether something looks wrong, at the end of show's screen.
pub fn verdict(pen: &mut Pen, counts: WriteCounts, wrong: u64) -> io::Result<()> {
    writeln!(pen)?;
    if wrong == 0 {
        return nothing_wrong(pen, counts);
    }
    things(pen, wrong)?;
    writeln!(pen, " To see which, run check in place of show.")
}

// The same below the file's name on check's screen.
pub fn count_of_things(pen: &mut Pen, counts: WriteCounts, wrong: u64) -> io::Result<()> {
    if wrong == 0 {
        return nothing_wrong(pen, counts);
    }
    things(pen, wrong)?;
    writeln!(pen)
}
