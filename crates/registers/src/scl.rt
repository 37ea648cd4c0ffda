// The SCL times of a register file, in nanoseconds.
ghost use Rattle.std.specs.Prelude.{◌≡◌};
ghost use Rattle.registers.specs.RegisterMap.{SCL_HIGH_TIME, SCL_LOW_TIME};
ghost use Rattle.registers.specs.RegisterFiles.{shared_at};
ghost use Rattle.registers.specs.SclTimes.{scl_time};

use crate::{RegisterFile, map};

// The SCL time in nanoseconds for a register that holds `n`.
fn time(n: u8) -> u32
    ensures { result ≡ scl_time n }
{
    40 * ((n as u32) + 4)
}

// The SCL high time in nanoseconds.
pub fn high_time(file: RegisterFile) -> u32
    ensures { result ≡ scl_time (shared_at file SCL_HIGH_TIME) }
{
    time(file.shared[map::SCL_HIGH_TIME])
}

// The SCL low time in nanoseconds.
pub fn low_time(file: RegisterFile) -> u32
    ensures { result ≡ scl_time (shared_at file SCL_LOW_TIME) }
{
    time(file.shared[map::SCL_LOW_TIME])
}
