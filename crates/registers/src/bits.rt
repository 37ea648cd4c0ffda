// Bits of a register: whether one is set, and a write under a mask.
ghost use Rattle.std.specs.Prelude.{◌≡◌};
ghost use Rattle.laws.specs.Bits.{bit};
ghost use Rattle.laws.specs.MaskedWrites.{masked};

// Whether bit `k` of `x` is set.
pub fn is_set(x: u8, k: u8) -> bool
    ensures { result ≡ bit k x }
{
    if 7 < k {
        return false;
    }
    (x >> k) % 2 == 1
}

// A write to a register of eight bits: the bits of `mask` from `value`, the others from `old`.
pub fn masked_write(mask: u8, old: u8, value: u8) -> u8
    ensures { result ≡ masked mask old value }
{
    (value & mask) | (old & (255 - mask))
}
