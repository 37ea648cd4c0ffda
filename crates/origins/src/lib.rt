// Where each register has its value from: the number of the last write that reached it. A script's register writes are
// numbered by their line, a trace's by their record.
#![tactic(auto)]

ghost use Rattle.std.specs.Prelude.{◌≡◌};
ghost use Rattle.origins.specs.NumberedWrites.{numbered_burst};
ghost use Rattle.origins.specs.Origins.{shared_register, port_register, FileOfBytes};
ghost use Rattle.origins.specs.KeptOrigins.{kept_number, origins_after, start_with};
ghost use Rattle.origins.specs.KeptOrigins.{write_numbered, write_numbered_each};

use registers::{PageAccess, RegisterFile, bits, map};

pub mod effects;

// A register write with its number.
#[derive(Clone, Copy)]
pub struct NumberedWrite {
    pub number: u64,
    pub offset: u8,
    pub value: u8,
}

// The origins of the registers at an offset: the shared one's and each port's. 0 is none, the start value stands: lines
// and records are counted from 1. (Numbers and no options: EveryOriginKept and EveryNumberMeans speak of them.)
#[derive(Clone, Copy)]
pub struct OffsetOrigins {
    pub shared: u64,
    pub ports: [u64; 4],
}

// The registers, and for each offset where they have their values from.
#[derive(Clone, Copy)]
pub struct RegistersWithOrigins {
    pub registers: RegisterFile,
    pub origins: [OffsetOrigins; 256],
}

// The origins at the offset of a write, after it.
fn origins_after(file: RegisterFile, before: OffsetOrigins, write: NumberedWrite) -> OffsetOrigins
    ensures { result ≡ origins_after file write.number write.offset before }
{
    if map::write_mask(write.offset) == 0 {
        return before;
    }
    let mut after = before;
    if !map::is_per_port(write.offset) {
        after.shared = write.number;
        return after;
    }
    let selection = file.shared[map::FPD3_PORT_SEL];
    for port in 0..4u8 {
        if bits::is_set(selection, port) {
            after.ports[port as usize] = write.number;
        }
    }
    after
}

// Registers that no write has reached yet. What is promised of the registers beside it holds of every value of their
// type.
pub fn start(registers: RegisterFile) -> RegistersWithOrigins
    ensures { (result ≡ start_with registers) × FileOfBytes registers }
{
    let none = OffsetOrigins {
        shared: 0,
        ports: [0; 4],
    };
    RegistersWithOrigins {
        registers,
        origins: [none; 256],
    }
}

// A numbered write, under the page selection.
pub fn write(state: RegistersWithOrigins, write: NumberedWrite) -> RegistersWithOrigins
    ensures { result ≡ write_numbered state write }
{
    let at = write.offset as usize;
    let file = state.registers;
    let before = state.origins[at];
    let mut next = state;
    next.origins[at] = origins_after(file, before, write);
    next.registers = registers::write(file, PageAccess::Selection, write.offset, write.value);
    next
}

// A burst of register writes that have one number.
pub fn burst(
    state: RegistersWithOrigins,
    number: u64,
    offset: u8,
    values: &[u8],
) -> RegistersWithOrigins
    ensures { result ≡ write_numbered_each state (numbered_burst number offset values.now) }
{
    let mut next = state;
    let mut at = offset;
    for value in values {
        let numbered = NumberedWrite {
            number,
            offset: at,
            value: *value,
        };
        next = write(next, numbered);
        at = at.wrapping_add(1);
    }
    next
}

// The number of the write that a shared register has its value from.
pub fn shared_origin(state: RegistersWithOrigins, offset: u8) -> u64
    ensures { result ≡ kept_number state (shared_register offset) }
{
    let origins = state.origins[offset as usize];
    origins.shared
}

// The number of the write that a port's register has its value from; of a port above 3 there is none.
pub fn port_origin(state: RegistersWithOrigins, port: u8, offset: u8) -> u64
    ensures { result ≡ kept_number state (port_register port offset) }
{
    if 3 < port {
        return 0;
    }
    let origins = state.origins[offset as usize];
    origins.ports[port as usize]
}
