// What the writes come to: the hub at the end with its origins, and what was counted on the way.
use crate::survey::{Counts, Survey};
use crate::walk::Run;
use endstate::{EndState, wrong};
use ordering::ticks::Ticks;
use screens::bus::LostAlias;
use screens::title::WriteCounts;

// The writes, whether the blocks may be run in any order and how many there are; the hub at the end, its registers with
// their origins; which selection ticked each port last; what was counted; the addresses that aliases had; and how many
// things look wrong: blocks that replace something, writes while no port is selected, and what looks wrong at the end.
#[derive(Clone, Copy)]
pub(crate) struct Facts {
    pub writes: u64,
    pub any_order: bool,
    pub blocks: u64,
    pub end: EndState,
    pub ticks: Ticks,
    pub counts: Counts,
    pub lost: [Option<LostAlias>; 128],
    pub wrong: u64,
}

impl Facts {
    // What the first way through the writes found.
    pub(crate) fn new(run: &Run, survey: &Survey) -> Facts {
        let known = &run.known;
        let counts = survey.counts;
        let end = EndState {
            hub: hub::hub_with(run.hub.address, known.numbers.registers),
            state: known.numbers,
        };
        let at_writes = counts.again.wrapping_add(counts.no_port);
        Facts {
            writes: run.writes,
            any_order: known.order.any_order,
            blocks: known.block,
            end,
            ticks: known.order.ticks,
            counts,
            lost: survey.lost,
            wrong: at_writes.wrapping_add(wrong::count(&end)),
        }
    }

    pub(crate) fn write_counts(&self) -> WriteCounts {
        WriteCounts {
            writes: self.writes,
            not_followed: self.counts.not_followed,
            no_port: self.counts.no_port,
            selections: self.blocks,
        }
    }
}
