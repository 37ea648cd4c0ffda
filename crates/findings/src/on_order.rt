// The findings on the order of the blocks: `port-twice` and `shared-in-block`.
ghost use Rattle.std.specs.Prelude.{◌≡◌};
ghost use Rattle.ordering.specs.Orders.{port_twice_now};
ghost use Rattle.ordering.specs.Inside.{shared_inside_now};

use crate::WritesSoFar;
use ordering::inside;
use ordering::inside::Extent;
use origins::NumberedWrite;

// `port-twice`: where the write ticks a port that an earlier selection ticked, the latest such one.
pub fn port_twice(before: WritesSoFar, write: NumberedWrite, port: u8) -> Option<u64>
    ensures { result ≡ port_twice_now before.order write port }
{
    ordering::port_twice(before.order, write, port)
}

// `shared-in-block`: whether the write goes to a shared register other than FPD3_PORT_SEL, after a selection, and a
// selection or a per-port write follows. `whole` is the extent of all writes.
pub fn shared_in_block(before: WritesSoFar, whole: Extent, offset: u8) -> bool
    ensures { result ≡ shared_inside_now before.extent whole offset }
{
    inside::is_shared_inside(before.extent, whole, offset)
}
