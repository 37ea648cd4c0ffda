// How a program speaks and reads: words on standard error under the command that was typed, refusals on standard
// output, a status for the front door, the words that it was called with, and files read piece by piece. What comes of
// a call is the system's to say, so contracts here say only what a caller needs.
#![tactic(auto)]

pub mod address;
pub mod again;
pub mod arguments;
pub mod input;
pub mod opened;
pub mod reason;
pub mod say;
pub mod shown;
pub mod spool;
pub mod status;
