// The screen of check, for people, piece by piece: what looks wrong, each thing with the script's lines as they are
// typed, and the notes. What comes of a write is the system's to say, so contracts have nothing to promise here.
#![tactic(auto)]

pub mod clash_list;
pub mod meaning;
pub mod notes;
pub mod things;
pub mod typed;
