// The finding `replaced`: a write gives a register of a port another value than it had, and the register's origin is a
// line of an earlier block.
ghost use Rattle.std.specs.Prelude.{◌≡◌};
ghost use Rattle.findings.specs.Blocks.{is_earlier};
ghost use Rattle.findings.specs.Replaced.{replaced_now};

use crate::{WritesSoFar, by_effect};
use origins::NumberedWrite;

// Whether a block is earlier than the present one; 0 is no block.
fn is_earlier(block: u64, present: u64) -> bool
    ensures { result ≡ is_earlier block present }
{
    0 < block && block < present
}

// Of a write that comes next: where it replaces the register of a port, the number of the register's origin.
#[tactic(auto, unfolding(crate::specs::Replaced::replaced_now))]
pub fn replaced(before: WritesSoFar, write: NumberedWrite, port: u8) -> Option<u64>
    ensures { result ≡ replaced_now before write port }
{
    if !by_effect::changes_port(by_effect::effect_now(before, write), port) {
        return None;
    }
    if !is_earlier(
        origins::port_origin(before.blocks, port, write.offset),
        before.block,
    ) {
        return None;
    }
    Some(origins::port_origin(before.numbers, port, write.offset))
}
