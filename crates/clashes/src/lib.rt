// Clashes in a hub's registers: which ports share a CSI output and virtual channel, which ports a write to an address
// reaches, and which ports no address reaches.
#![tactic(auto)]

pub mod addresses;
pub mod channels;
