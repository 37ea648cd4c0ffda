// CSI-2 packets, written into a lent buffer from a given place.
#![tactic(auto)]

mod header;
pub mod long;
pub mod short;
