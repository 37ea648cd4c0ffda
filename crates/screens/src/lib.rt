// The screen of show, for people, piece by piece: plain words in 80 columns. A mark ! stands before what looks wrong.
// What comes of a write is the system's to say, so contracts have nothing to promise here.
#![tactic(auto)]

pub mod bus;
pub mod clash_list;
pub mod closing;
mod marks;
pub mod pictures;
pub mod title;
