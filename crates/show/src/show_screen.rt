// The screen of show: what was run, where pictures leave, whom addresses reach, clashes, and what the model cannot say.
use crate::facts::Facts;
use crate::numbers;
use crate::reading::Reading;
use crate::stop::Stop;
use page::Pen;
use screens::{bus, clash_list, closing, pictures, title};
use words::kinds::Kind;

// What the model cannot say, with the numbers of the writes that it does not follow.
fn limits(pen: &mut Pen, reading: &Reading<'_>, not_followed: u64) -> Result<(), Stop> {
    closing::limits(pen, reading.file.source, not_followed)?;
    if not_followed == 0 {
        return Ok(());
    }
    numbers::of_kind(pen, reading, Kind::NotFollowed)
}

pub(crate) fn print(pen: &mut Pen, reading: &Reading<'_>, facts: &Facts) -> Result<(), Stop> {
    let source = reading.file.source;
    let counts = facts.write_counts();
    title::file_on_hub(pen, reading.path, reading.hub.address, reading.hub.start)?;
    title::writes(pen, counts)?;
    pictures::table(pen, source, &facts.end)?;
    bus::table(pen, source, &facts.end, &facts.lost)?;
    clash_list::clash_list(pen, &facts.end)?;
    closing::order(pen, source, facts.any_order, counts)?;
    limits(pen, reading, counts.not_followed)?;
    Ok(closing::verdict(pen, counts, facts.wrong)?)
}
