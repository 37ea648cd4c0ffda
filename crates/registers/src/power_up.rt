// How the hub's registers start.
ghost use Rattle.std.specs.Prelude.{◌≡◌};
ghost use Rattle.registers.specs.PowerUps.{boot_file, power_up_file};

use crate::{RegisterFile, map};

// As the board's boot code leaves the chip, or at the data sheet's reset.
#[derive(Clone, Copy)]
pub enum PowerUp {
    Boot,
    Reset,
}

// The boot code clears the largest frame number.
fn boot() -> RegisterFile
    ensures { result ≡ boot_file }
{
    let high = crate::write_shared(crate::reset(), map::MAX_FRM_HI as u8, 0);
    crate::write_shared(high, map::MAX_FRM_LO as u8, 0)
}

// Every register as it starts.
pub fn registers_at(start: PowerUp) -> RegisterFile
    ensures { result ≡ power_up_file start }
{
    match start {
        PowerUp::Boot => boot(),
        PowerUp::Reset => crate::reset(),
    }
}
