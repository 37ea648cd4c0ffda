// What was run: the file and the hub, and how many writes there were.
use page::number::Hex;
use page::{Pen, shown};
use registers::power_up::PowerUp;
use std::io;
use std::io::Write;

// How many register writes there were; of how many the register is not followed; how many went to a per-port register
// while no port was selected; and how many selected ports.
#[derive(Clone, Copy)]
pub struct WriteCounts {
    pub writes: u64,
    pub not_followed: u64,
    pub no_port: u64,
    pub selections: u64,
}

impl WriteCounts {
    // Whether no write reached a register but that of the selection.
    pub(crate) fn sets_nothing(self) -> bool {
        let idle = self.not_followed.wrapping_add(self.no_port);
        self.writes == idle.wrapping_add(self.selections)
    }
}

// The file, the hub's own address, and how it starts; standard input for -.
pub fn file_on_hub(pen: &mut Pen, path: &[u8], address: u8, start: PowerUp) -> io::Result<()> {
    if path == b"-".as_slice() {
        write!(pen, "standard input")?;
    } else {
        shown::bytes(pen, path)?;
    }
    let started = match start {
        PowerUp::Boot => ", as the board starts",
        PowerUp::Reset => ", as the data sheet starts",
    };
    writeln!(pen, " on hub {}{started}", Hex(address))
}

// How many writes there were, and how many of them did nothing.
pub fn writes(pen: &mut Pen, counts: WriteCounts) -> io::Result<()> {
    if counts.writes == 0 {
        return writeln!(pen, "no register write: the hub is as it starts");
    }
    words::counted(pen, counts.writes, b" register write", b" register writes")?;
    if counts.sets_nothing() {
        return writeln!(pen, ", and none sets up anything that this model follows");
    }
    if counts.not_followed == 0 && counts.no_port == 0 {
        return writeln!(pen, ", all followed");
    }
    if counts.not_followed != 0 {
        write!(pen, ", {} not followed by this model", counts.not_followed)?;
    }
    if counts.no_port != 0 {
        write!(pen, ", {} with no port selected", counts.no_port)?;
    }
    writeln!(pen)
}
