// The findings at a write of a script, while its writes are gone through: what is known between two writes, and for
// each kind whether it is found at the write that comes next. (Of all writes only their extent has to be known before.)
#![tactic(auto)]

ghost use Rattle.std.specs.Prelude.{◌≡◌};
ghost use Rattle.origins.specs.Origins.{FileOfBytes};
ghost use Rattle.findings.specs.WritesSoFar.{next_block, start_so_far, step_so_far};

use ordering::inside::Extent;
use ordering::{Order, inside};
use origins::{NumberedWrite, RegistersWithOrigins};
use registers::{RegisterFile, map};

pub mod by_effect;
pub mod on_order;
pub mod replaced;

// After some writes: the registers with the numbers of their origins; the same with the blocks of their origins, which
// are counted from 1; the block that the last write stands in, 0 before the first one; the order; and the extent.
#[derive(Clone, Copy)]
pub struct WritesSoFar {
    pub numbers: RegistersWithOrigins,
    pub blocks: RegistersWithOrigins,
    pub block: u64,
    pub order: Order,
    pub extent: Extent,
}

// Before the first write. What is promised of the registers beside it holds of every value of their type.
#[tactic(auto, unfolding(crate::specs::WritesSoFar::start_so_far))]
pub fn start(registers: RegisterFile) -> WritesSoFar
    ensures { (result ≡ start_so_far registers) × FileOfBytes registers }
{
    let untouched = origins::start(registers);
    let order = ordering::start();
    let extent = inside::start();
    WritesSoFar {
        numbers: untouched,
        blocks: untouched,
        block: 0,
        order,
        extent,
    }
}

// The block that a write stands in: a write to FPD3_PORT_SEL begins the next one. The count has 64 bits.
fn next_block(block: u64, offset: u8) -> u64
    ensures { result ≡ next_block block offset }
{
    if offset as usize == map::FPD3_PORT_SEL {
        return block.wrapping_add(1);
    }
    block
}

// One write more.
#[tactic(auto, unfolding(crate::specs::WritesSoFar::step_so_far))]
pub fn step(before: WritesSoFar, write: NumberedWrite) -> WritesSoFar
    ensures { result ≡ step_so_far before write }
{
    let offset = write.offset;
    let block = next_block(before.block, offset);
    let in_block = NumberedWrite {
        number: block,
        ..write
    };
    WritesSoFar {
        numbers: origins::write(before.numbers, write),
        blocks: origins::write(before.blocks, in_block),
        block,
        order: ordering::step(before.order, write),
        extent: inside::step(before.extent, offset),
    }
}
