// The facts of the state at the end of a script, with the lines that explain them: those of each port and address, and
// what is found.
#![tactic(auto)]

use hub::Hub;
use origins::RegistersWithOrigins;

pub mod addresses;
pub mod channels;
pub mod findings;
mod gathering;
mod grading;
pub mod lines;
pub mod unset;
pub mod wrong;

// The state at the end: the hub has the registers of the end, and `state` has them with their origins.
#[derive(Clone, Copy)]
pub struct EndState {
    pub hub: Hub,
    pub state: RegistersWithOrigins,
}
