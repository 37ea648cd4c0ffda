// Forwarded ports that were not set up: none of their registers was reached, while another port's was.
ghost use Rattle.std.specs.Prelude.{◌≡◌};
ghost use Rattle.endstate.specs.Unset.{was_reached, other_reached, another_reached, not_set_up};

use crate::EndState;
use clashes::channels;
use origins::RegistersWithOrigins;

// Whether some register of a port was reached.
pub fn was_reached(state: RegistersWithOrigins, port: u8) -> bool
    ensures { result ≡ was_reached state port }
{
    for offset in 0..256usize {
        if origins::port_origin(state, port, offset as u8) != 0 {
            return true;
        }
    }
    false
}

// Whether a port is another one, of which some register was reached.
fn other_reached(state: RegistersWithOrigins, port: u8, other: u8) -> bool
    ensures { result ≡ other_reached state port other }
{
    other != port && was_reached(state, other)
}

// Whether some register of another port was reached.
fn another_reached(state: RegistersWithOrigins, port: u8) -> bool
    ensures { result ≡ another_reached state port }
{
    for other in 0..4u8 {
        if other_reached(state, port, other) {
            return true;
        }
    }
    false
}

// Whether a port is forwarded, and was not set up.
#[tactic(auto, unfolding(crate::specs::Unset::not_set_up))]
pub fn not_set_up(end: &EndState, port: u8) -> bool
    ensures { result ≡ not_set_up end.now.hub end.now.state port }
{
    channels::is_forwarded(end.hub, port)
        && !was_reached(end.state, port)
        && another_reached(end.state, port)
}
