// The register map: the offsets that the code mentions, by their names in the data sheet, and each offset's reset
// value, writable bits and paging.
ghost use Rattle.std.specs.Prelude.{◌≡◌};
ghost use Rattle.registers.specs.RegisterMap.{mask_of, per_port};

pub mod per_port;
pub mod reset_values;
pub mod write_masks;

pub const SCL_HIGH_TIME: usize = 0x0A;

pub const SCL_LOW_TIME: usize = 0x0B;

pub const MAX_FRM_HI: usize = 0x1D;

pub const MAX_FRM_LO: usize = 0x1E;

pub const FWD_CTL1: usize = 0x20;

pub const FWD_CTL2: usize = 0x21;

pub const FPD3_PORT_SEL: usize = 0x4C;

pub const BCC_CONFIG: usize = 0x58;

pub const SER_ID: usize = 0x5B;

pub const SER_ALIAS_ID: usize = 0x5C;

// Of the eight in a row the first.
pub const TARGET_ID_0: usize = 0x5D;

pub const TARGET_ALIAS_0: usize = 0x65;

pub const RAW10_ID: usize = 0x70;

pub const RAW12_ID: usize = 0x71;

// The writable bits of an offset.
pub fn write_mask(offset: u8) -> u8
    ensures { result ≡ mask_of offset }
{
    let masks = write_masks::write_masks();
    masks[offset as usize]
}

// Whether an offset is per-port.
pub fn is_per_port(offset: u8) -> bool
    ensures { result ≡ per_port offset }
{
    let flags = per_port::per_port_flags();
    flags[offset as usize]
}
