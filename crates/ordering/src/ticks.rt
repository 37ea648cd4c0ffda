// Which selection ticked each port last: RX_WRITE_PORT_3 to 0 of the values that were written to FPD3_PORT_SEL.
ghost use Rattle.std.specs.Prelude.{◌≡◌};
ghost use Rattle.ordering.specs.Ticks.{no_ticks, last_tick, with_ticks, ticks_again, any_again};

use origins::NumberedWrite;
use registers::bits;

// Of each port the number of the last selection that ticked it, if there was one.
#[derive(Clone, Copy)]
pub struct Ticks {
    pub ports: [Option<u64>; 4],
}

// No port was ticked.
#[tactic(auto, unfolding(crate::specs::Ticks::no_ticks))]
pub(crate) fn none() -> Ticks
    ensures { result ≡ no_ticks }
{
    Ticks { ports: [None; 4] }
}

// The last selection that ticked a port; there is no port above 3.
pub fn last_tick(ticks: Ticks, port: u8) -> Option<u64>
    ensures { result ≡ last_tick ticks port }
{
    if 3 < port {
        return None;
    }
    ticks.ports[port as usize]
}

// A selection: it ticks ports.
pub(crate) fn tick_ports(ticks: Ticks, selection: NumberedWrite) -> Ticks
    ensures { result ≡ with_ticks ticks selection.number selection.value }
{
    let mut next = ticks;
    for port in 0..4u8 {
        if bits::is_set(selection.value, port) {
            next.ports[port as usize] = Some(selection.number);
        }
    }
    next
}

// Whether a selection ticks a port that an earlier one ticked.
#[tactic(auto, unfolding(crate::specs::Ticks::ticks_again))]
fn ticks_again(ticks: Ticks, value: u8, port: u8) -> bool
    ensures { result ≡ ticks_again ticks value port }
{
    bits::is_set(value, port) && last_tick(ticks, port).is_some()
}

// Whether a selection ticks some port that an earlier one ticked.
pub(crate) fn any_again(ticks: Ticks, value: u8) -> bool
    ensures { result ≡ any_again ticks value }
{
    for port in 0..4u8 {
        if ticks_again(ticks, value, port) {
            return true;
        }
    }
    false
}
