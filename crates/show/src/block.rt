// The block that is gone through: which of its ports were selected before, and of which something was replaced.
use crate::found::Found;

// Its selection, the earlier one that ticked each of its ports, and the ports of which something was replaced.
#[derive(Clone, Copy)]
pub(crate) struct Block {
    pub selection: u64,
    pub earlier: [Option<u64>; 4],
    pub replaced: u8,
}

impl Block {
    // No selection was yet.
    pub(crate) fn none() -> Block {
        Block {
            selection: 0,
            earlier: [None; 4],
            replaced: 0,
        }
    }

    // The block that a selection begins.
    pub(crate) fn begin(found: &Found) -> Block {
        Block {
            selection: found.write.number,
            earlier: found.ports.map(|port| port.earlier),
            replaced: 0,
        }
    }

    // The earlier selection of a port of the block.
    pub(crate) fn earlier_of(&self, port: u8) -> Option<u64> {
        self.earlier[(port % 4) as usize]
    }

    // Something of a port was replaced.
    pub(crate) fn replace_on(&mut self, port: u8) {
        self.replaced |= ports::mask_of_port(port);
    }

    // What a write replaces on the four ports.
    pub(crate) fn replace(&mut self, found: &Found) {
        for port in 0..4 {
            if found.port(port).replaced.is_some() {
                self.replace_on(port);
            }
        }
    }

    // Whether the block selects a port again, and replaces nothing.
    pub(crate) fn is_harmless(&self) -> bool {
        self.replaced == 0 && self.earlier.iter().any(|earlier| earlier.is_some())
    }
}
