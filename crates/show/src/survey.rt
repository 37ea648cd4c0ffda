// The first way through the writes: everything that is found at them is counted, and nothing is told.
use crate::block::Block;
use crate::found::Found;
use crate::walk::Task;
use findings::by_effect;
use screens::bus::LostAlias;
use std::io::Result as Written;

// How many blocks select a port again and replace something, how many do so and replace nothing, and how many writes
// there are of the other kinds.
#[derive(Clone, Copy)]
pub(crate) struct Counts {
    pub again: u64,
    pub twice: u64,
    pub no_port: u64,
    pub not_followed: u64,
    pub bits_ignored: u64,
    pub no_change: u64,
    pub odd_alias: u64,
}

// The counts, the block that is gone through, and for each address the alias that lost it, if one did.
#[derive(Clone, Copy)]
pub(crate) struct Survey {
    pub counts: Counts,
    block: Block,
    pub lost: [Option<LostAlias>; 128],
}

fn one_more_if(count: u64, is_found: bool) -> u64 {
    count.wrapping_add(u64::from(is_found))
}

impl Counts {
    fn none() -> Counts {
        Counts {
            again: 0,
            twice: 0,
            no_port: 0,
            not_followed: 0,
            bits_ignored: 0,
            no_change: 0,
            odd_alias: 0,
        }
    }

    // One write more of each kind that is found at it.
    fn add(&mut self, found: &Found) {
        self.no_port = one_more_if(self.no_port, found.no_port);
        self.not_followed = one_more_if(self.not_followed, found.not_followed);
        self.bits_ignored = one_more_if(self.bits_ignored, found.bits_ignored);
        self.no_change = one_more_if(self.no_change, found.no_change);
        self.odd_alias = one_more_if(self.odd_alias, found.odd_alias);
    }
}

impl Survey {
    // Nothing was found yet.
    pub(crate) fn new() -> Survey {
        Survey {
            counts: Counts::none(),
            block: Block::none(),
            lost: [None; 128],
        }
    }

    // A block is over: counted where it selects a port again and replaces nothing.
    fn end_block(&mut self) {
        self.counts.twice = one_more_if(self.counts.twice, self.block.is_harmless());
    }

    // The write replaces registers of ports: the first such of a block is counted.
    fn replace(&mut self, found: &Found) {
        let before = self.block.replaced;
        self.block.replace(found);
        let is_first = before == 0 && self.block.replaced != 0;
        self.counts.again = one_more_if(self.counts.again, is_first);
    }

    // The address of an alias that a port does not hear any more.
    fn lose(&mut self, found: &Found, port: u8) {
        let on = found.port(port);
        if let Some(set) = on.lost {
            self.lost[(on.old / 2) as usize] = Some(LostAlias {
                set,
                changed: found.write.number,
                is_wrong: on.replaced.is_some(),
            });
        }
    }

    // An address that an alias gets is not lost any more.
    fn regain(&mut self, found: &Found) {
        if found.reached != 0 && by_effect::is_alias_register(found.write.offset) {
            self.lost[(found.write.value / 2) as usize] = None;
        }
    }
}

impl Task for Survey {
    fn at_write(&mut self, found: &Found) -> Written<()> {
        if found.is_selection() {
            self.end_block();
            self.block = Block::begin(found);
        }
        self.counts.add(found);
        self.replace(found);
        for port in 0..4 {
            self.lose(found, port);
        }
        self.regain(found);
        Ok(())
    }

    fn at_end(&mut self) -> Written<()> {
        self.end_block();
        Ok(())
    }
}
