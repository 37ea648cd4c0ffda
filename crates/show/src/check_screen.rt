// The screen of check: what looks wrong, each thing with the script's lines as they are typed; what is shared as meant;
// then the notes, counted.
use crate::facts::Facts;
use crate::found::Found;
use crate::numbers;
use crate::reading::Reading;
use crate::selected_again::SelectedAgain;
use crate::stop::Stop;
use crate::walk::Task;
use checklist::typed::File;
use checklist::{clash_list, notes, things};
use clashes::addresses;
use endstate::findings::Grade;
use page::Pen;
use screens::{closing, title};
use std::io::Result as Written;
use words::Source;
use words::kinds::Kind;

// The writes while no port is selected are told; so many things stand before the first of them.
#[derive(Drop)]
struct NoPort<'a> {
    pen: &'a mut Pen,
    count: &'a mut u64,
    before: u64,
    file: File<'a>,
}

impl Task for NoPort<'_> {
    fn at_write(&mut self, found: &Found) -> Written<()> {
        if found.no_port {
            things::no_port(self.pen, self.count, self.before, self.file, found.write)?;
        }
        Ok(())
    }
}

// The odd values of aliases are told, each explained.
#[derive(Drop)]
struct OddAliases<'a> {
    pen: &'a mut Pen,
    count: u64,
    source: Source,
}

impl Task for OddAliases<'_> {
    fn at_write(&mut self, found: &Found) -> Written<()> {
        if found.odd_alias {
            notes::odd_alias(self.pen, &mut self.count, self.source, found.write)?;
        }
        Ok(())
    }
}

// The writes to a shared register between the blocks are counted.
#[derive(Clone, Copy)]
struct SharedInBlocks {
    count: u64,
}

impl Task for SharedInBlocks {
    fn at_write(&mut self, found: &Found) -> Written<()> {
        self.count = self.count.wrapping_add(u64::from(found.shared_in_block));
        Ok(())
    }
}

// Everything that looks wrong.
fn wrong(pen: &mut Pen, reading: &Reading<'_>, facts: &Facts) -> Result<(), Stop> {
    let file = reading.file;
    let mut count = 0;
    if facts.counts.again != 0 {
        reading.go_through(&mut SelectedAgain::new(pen, &mut count, file))?;
    }
    things::more(pen, count, 0)?;
    clash_list::clash_list(pen, &mut count, Grade::Wrong, file, &facts.end)?;
    let before = count;
    if facts.counts.no_port != 0 {
        reading.go_through(&mut NoPort {
            pen,
            count: &mut count,
            before,
            file,
        })?;
    }
    things::more(pen, count, before)?;
    Ok(things::not_set_up(pen, &mut count, file, &facts.end, facts.ticks)?)
}

// The notes of a kind, with the numbers of their writes.
fn note(pen: &mut Pen, reading: &Reading<'_>, kind: Kind, count: u64) -> Result<(), Stop> {
    if count == 0 {
        return Ok(());
    }
    notes::begin(pen, reading.file.source, kind, count)?;
    if kind == Kind::PortTwice {
        return numbers::of_blocks(pen, reading);
    }
    numbers::of_kind(pen, reading, kind)
}

// The odd values of aliases.
fn odd_aliases(pen: &mut Pen, reading: &Reading<'_>, count: u64) -> Result<(), Stop> {
    if count == 0 {
        return Ok(());
    }
    notes::named(pen, Kind::OddAlias, count)?;
    let mut told = OddAliases {
        pen,
        count: 0,
        source: reading.file.source,
    };
    reading.go_through(&mut told)?;
    let told = told.count;
    Ok(notes::end_values(pen, told)?)
}

// How many writes go to a shared register between the blocks: where the blocks may be run in any order there is none.
fn count_shared(reading: &Reading<'_>, any_order: bool) -> Result<u64, Stop> {
    let mut shared = SharedInBlocks { count: 0 };
    if !any_order {
        reading.go_through(&mut shared)?;
    }
    Ok(shared.count)
}

// The notes, `shared` of them on writes to a shared register between the blocks.
fn notes_with(
    pen: &mut Pen,
    reading: &Reading<'_>,
    facts: &Facts,
    shared: u64,
) -> Result<(), Stop> {
    let counts = facts.counts;
    notes::heading(pen)?;
    note(pen, reading, Kind::PortTwice, counts.twice)?;
    note(pen, reading, Kind::SharedInBlock, shared)?;
    note(pen, reading, Kind::NotFollowed, counts.not_followed)?;
    note(pen, reading, Kind::BitsIgnored, counts.bits_ignored)?;
    note(pen, reading, Kind::NoChange, counts.no_change)?;
    odd_aliases(pen, reading, counts.odd_alias)?;
    Ok(notes::no_address(pen, &facts.end)?)
}

// The notes, if there are some.
fn all_notes(pen: &mut Pen, reading: &Reading<'_>, facts: &Facts, shared: u64) -> Result<(), Stop> {
    let counts = facts.counts;
    let at_writes = [
        counts.twice,
        shared,
        counts.not_followed,
        counts.bits_ignored,
        counts.no_change,
        counts.odd_alias,
    ];
    if at_writes == [0; 6] && addresses::ports_without_address(facts.end.hub) == 0 {
        return Ok(());
    }
    notes_with(pen, reading, facts, shared)
}

// What looks wrong, counted first, and what is shared as meant.
fn all_things(pen: &mut Pen, reading: &Reading<'_>, facts: &Facts) -> Result<(), Stop> {
    title::file_on_hub(pen, reading.path, reading.hub.address, reading.hub.start)?;
    closing::count_of_things(pen, facts.write_counts(), facts.wrong)?;
    wrong(pen, reading, facts)?;
    let mut count = 0;
    Ok(clash_list::clash_list(pen, &mut count, Grade::Meant, reading.file, &facts.end)?)
}

// (The notes are counted whether or not what stands before them could be written.)
pub(crate) fn print(pen: &mut Pen, reading: &Reading<'_>, facts: &Facts) -> Result<(), Stop> {
    let told = all_things(pen, reading, facts);
    let shared = count_shared(reading, facts.any_order)?;
    told?;
    all_notes(pen, reading, facts, shared)
}
