// A finding of ports that share something: how it is graded, the ports, and the lines that explain it.
use crate::lines::Lines;

#[derive(Clone, Copy, PartialEq, Eq)]
pub enum Grade {
    Meant,
    Wrong,
}

// Ports that share something: a mask, bit p is port p.
#[derive(Clone, Copy)]
pub struct Clash {
    pub grade: Grade,
    pub ports: u8,
    pub lines: Lines,
}
