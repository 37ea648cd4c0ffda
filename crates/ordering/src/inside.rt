// Shared writes inside the blocks, found by going through the writes twice: once for where the last selection or
// per-port write is, and once more to test each write.
ghost use Rattle.std.specs.Prelude.{◌≡◌};
ghost use Rattle.ordering.specs.Inside.{first_extent, extent_step, shared_inside_now};

use crate::kinds;
use crate::kinds::WriteKind;

// The writes so far: how many, whether there was a selection, and how many up to the last selection or per-port write.
// (No Option of `end`: a per-port write before the first selection moves `end` alone.)
#[derive(Clone, Copy)]
pub struct Extent {
    pub count: u64,
    pub started: bool,
    pub end: u64,
}

// Before the first write.
#[tactic(auto, unfolding(crate::specs::Inside::first_extent))]
pub fn start() -> Extent
    ensures { result ≡ first_extent }
{
    Extent {
        count: 0,
        started: false,
        end: 0,
    }
}

// One write more. The counts have 64 bits.
#[tactic(auto, unfolding(crate::specs::Inside::extent_step))]
pub fn step(extent: Extent, offset: u8) -> Extent
    ensures { result ≡ extent_step extent offset }
{
    let count = extent.count.wrapping_add(1);
    match kinds::kind_of(offset) {
        WriteKind::NotFollowed | WriteKind::SharedRegister => Extent { count, ..extent },
        WriteKind::Selection => Extent {
            count,
            started: true,
            end: count,
        },
        WriteKind::PortRegister => Extent {
            count,
            end: count,
            ..extent
        },
    }
}

// Of a write that comes next after `before`: whether it goes to a shared register inside the blocks. `whole` is the
// extent of all writes.
#[tactic(auto, unfolding(crate::specs::Inside::shared_inside_now))]
pub fn is_shared_inside(before: Extent, whole: Extent, offset: u8) -> bool
    ensures { result ≡ shared_inside_now before whole offset }
{
    matches!(kinds::kind_of(offset), WriteKind::SharedRegister)
        && before.started
        && before.count < whole.end
}
