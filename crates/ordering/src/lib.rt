// May the blocks of a script be run in any order? Its register writes one after another: whether they are setup blocks
// with no port ticked twice, after shared writes and before shared writes, so that demand 3 holds of them; and of each
// write whether it breaks this, and why.
#![tactic(auto)]

ghost use Rattle.std.specs.Prelude.{◌≡◌};
ghost use Rattle.ordering.specs.Orders.{phase_after, fits, ticks_after, order_step, first_order};
ghost use Rattle.ordering.specs.Orders.{port_twice_now, before_selection_now};

use crate::kinds::WriteKind;
use crate::ticks::Ticks;
use origins::NumberedWrite;
use registers::bits;

pub mod inside;
pub mod kinds;
pub mod ticks;

// Where in the script: before the first selection; in a block; or after a shared write that follows a block, which is
// inside if a selection or a per-port write comes yet.
#[derive(Clone, Copy)]
pub enum Phase {
    BeforeBlocks,
    InBlock,
    AfterShared,
}

// The script so far: whether its blocks may be run in any order, and which selection ticked each port last.
#[derive(Clone, Copy)]
pub struct Order {
    pub any_order: bool,
    pub phase: Phase,
    pub ticks: Ticks,
}

// Before the first write.
#[tactic(auto, unfolding(crate::specs::Orders::first_order))]
pub fn start() -> Order
    ensures { result ≡ first_order }
{
    let ticks = ticks::none();
    Order {
        any_order: true,
        phase: Phase::BeforeBlocks,
        ticks,
    }
}

// Where the script is after a write.
fn phase_after(kind: WriteKind, phase: Phase) -> Phase
    ensures { result ≡ phase_after kind phase }
{
    match kind {
        WriteKind::NotFollowed => phase,
        WriteKind::Selection => Phase::InBlock,
        WriteKind::PortRegister => match phase {
            Phase::BeforeBlocks => Phase::BeforeBlocks,
            _ => Phase::InBlock,
        },
        WriteKind::SharedRegister => match phase {
            Phase::InBlock => Phase::AfterShared,
            _ => phase,
        },
    }
}

// Whether a write may stand where it does, in blocks that may be run in any order.
fn fits(kind: WriteKind, phase: Phase, ticks: Ticks, value: u8) -> bool
    ensures { result ≡ fits kind phase ticks value }
{
    match kind {
        WriteKind::NotFollowed | WriteKind::SharedRegister => true,
        WriteKind::Selection => match phase {
            Phase::AfterShared => false,
            _ => !ticks::any_again(ticks, value),
        },
        WriteKind::PortRegister => matches!(phase, Phase::InBlock),
    }
}

// Which selection ticked each port last, after a write.
fn ticks_after(kind: WriteKind, ticks: Ticks, write: NumberedWrite) -> Ticks
    ensures { result ≡ ticks_after kind ticks write.number write.value }
{
    match kind {
        WriteKind::Selection => ticks::tick_ports(ticks, write),
        _ => ticks,
    }
}

// One write more.
#[tactic(auto, unfolding(crate::specs::Orders::order_step))]
pub fn step(order: Order, write: NumberedWrite) -> Order
    ensures { result ≡ order_step order write }
{
    let kind = kinds::kind_of(write.offset);
    let fit = fits(kind, order.phase, order.ticks, write.value);
    Order {
        any_order: order.any_order & fit,
        phase: phase_after(kind, order.phase),
        ticks: ticks_after(kind, order.ticks, write),
    }
}

// Of a write that comes next: where it ticks a port that an earlier selection ticked, the latest such one.
#[tactic(auto, unfolding(crate::specs::Orders::port_twice_now))]
pub fn port_twice(order: Order, write: NumberedWrite, port: u8) -> Option<u64>
    ensures { result ≡ port_twice_now order write port }
{
    match kinds::kind_of(write.offset) {
        WriteKind::Selection if bits::is_set(write.value, port) => {
            ticks::last_tick(order.ticks, port)
        }
        _ => None,
    }
}

// Of a write that comes next: whether it goes to a per-port register, and there was no selection yet.
#[tactic(auto, unfolding(crate::specs::Orders::before_selection_now))]
pub fn before_selection(order: Order, offset: u8) -> bool
    ensures { result ≡ before_selection_now order offset }
{
    matches!(kinds::kind_of(offset), WriteKind::PortRegister)
        && matches!(order.phase, Phase::BeforeBlocks)
}
