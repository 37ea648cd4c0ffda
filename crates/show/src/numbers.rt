// The numbers of the writes of a kind, told on a screen; of selections that are told again only where their block
// replaces nothing.
use crate::block::Block;
use crate::found::Found;
use crate::reading::Reading;
use crate::stop::Stop;
use crate::walk::Task;
use page::Pen;
use std::io::Result as Written;
use words::kinds::Kind;
use words::numbers;

// The number that was told last, and how many were told.
#[derive(Drop)]
struct Numbers<'a> {
    pen: &'a mut Pen,
    last: Option<u64>,
    count: u64,
}

#[derive(Drop)]
struct OfKind<'a> {
    numbers: Numbers<'a>,
    kind: Kind,
}

#[derive(Drop)]
struct OfBlocks<'a> {
    numbers: Numbers<'a>,
    block: Block,
}

impl<'a> Numbers<'a> {
    fn new(pen: &'a mut Pen) -> Numbers<'a> {
        Numbers {
            pen,
            last: None,
            count: 0,
        }
    }

    // One number more, unless it was the last one: a burst of a trace is many writes with one number.
    fn tell(&mut self, number: u64) -> Written<()> {
        if self.last == Some(number) {
            return Ok(());
        }
        self.last = Some(number);
        numbers::one_more(self.pen, &mut self.count, number)
    }

    fn end(self) -> Written<()> {
        let count = self.count;
        numbers::end(self.pen, count)
    }
}

impl Task for OfKind<'_> {
    fn at_write(&mut self, found: &Found) -> Written<()> {
        if found.is_found(self.kind) {
            self.numbers.tell(found.write.number)?;
        }
        Ok(())
    }
}

impl OfBlocks<'_> {
    // A block is over: told where it selects a port again and replaces nothing.
    fn end_block(&mut self) -> Written<()> {
        if self.block.is_harmless() {
            self.numbers.tell(self.block.selection)?;
        }
        Ok(())
    }
}

impl Task for OfBlocks<'_> {
    fn at_write(&mut self, found: &Found) -> Written<()> {
        if found.is_selection() {
            self.end_block()?;
            self.block = Block::begin(found);
        } else {
            self.block.replace(found);
        }
        Ok(())
    }

    fn at_end(&mut self) -> Written<()> {
        self.end_block()
    }
}

// Tells the numbers of the writes of a kind.
pub(crate) fn of_kind(pen: &mut Pen, reading: &Reading<'_>, kind: Kind) -> Result<(), Stop> {
    let mut told = OfKind {
        numbers: Numbers::new(pen),
        kind,
    };
    reading.go_through(&mut told)?;
    Ok(told.numbers.end()?)
}

// Tells the numbers of the selections whose block selects a port again and replaces nothing.
pub(crate) fn of_blocks(pen: &mut Pen, reading: &Reading<'_>) -> Result<(), Stop> {
    let mut told = OfBlocks {
        numbers: Numbers::new(pen),
        block: Block::none(),
    };
    reading.go_through(&mut told)?;
    Ok(told.numbers.end()?)
}
