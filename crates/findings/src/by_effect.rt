// The findings by what a write does: `not-followed`, `no-port`, `bits-ignored`, `no-change` and `odd-alias`, the ports
// whose register it reaches, and those whose register it changes.
ghost use Rattle.std.specs.Prelude.{◌≡◌};
ghost use Rattle.findings.specs.WritesSoFar.{effect_now};
ghost use Rattle.findings.specs.AtWrites.{is_alias_register, odd_alias_by};
ghost use Rattle.findings.specs.ByEffect.{is_not_followed, is_no_port, reached_by, ignores_by, keeps_all_by};
ghost use Rattle.findings.specs.ByEffect.{changes_port};

use crate::WritesSoFar;
use origins::effects::Effect;
use origins::{NumberedWrite, effects};
use registers::{bits, map};

// What the write that comes next does.
pub fn effect_now(before: WritesSoFar, write: NumberedWrite) -> Effect
    ensures { result ≡ effect_now before write }
{
    effects::effect_of(before.numbers.registers, write.offset, write.value)
}

// `not-followed`: whether no bit of the register is writable.
pub fn is_not_followed(effect: Effect) -> bool
    ensures { result ≡ is_not_followed effect }
{
    matches!(effect, Effect::NotFollowed)
}

// `no-port`: whether the register is per-port, and no port is ticked.
pub fn is_no_port(effect: Effect) -> bool
    ensures { result ≡ is_no_port effect }
{
    matches!(effect, Effect::NoPort)
}

// The ports whose register is reached.
pub fn reached_by(effect: Effect) -> u8
    ensures { result ≡ reached_by effect }
{
    match effect {
        Effect::Ports { reached, .. } => reached,
        _ => 0,
    }
}

// `bits-ignored`: whether a register is reached, and bits of the value are not writable in it.
pub fn ignores_by(effect: Effect) -> bool
    ensures { result ≡ ignores_by effect }
{
    match effect {
        Effect::NotFollowed | Effect::NoPort => false,
        Effect::Selected { bits_ignored, .. }
        | Effect::Shared { bits_ignored, .. }
        | Effect::Ports { bits_ignored, .. } => bits_ignored,
    }
}

// `no-change`: whether registers are reached, and all keep their values.
pub fn keeps_all_by(effect: Effect) -> bool
    ensures { result ≡ keeps_all_by effect }
{
    match effect {
        Effect::NotFollowed | Effect::NoPort => false,
        Effect::Selected { changed, .. } | Effect::Shared { changed, .. } => !changed,
        Effect::Ports { changed, .. } => changed == 0,
    }
}

// Whether the register of a port changes.
pub fn changes_port(effect: Effect, port: u8) -> bool
    ensures { result ≡ changes_port effect port }
{
    match effect {
        Effect::Ports { changed, .. } => bits::is_set(changed, port),
        _ => false,
    }
}

// Whether the register is SER_ALIAS_ID or one of the eight TARGET_ALIAS.
pub fn is_alias_register(offset: u8) -> bool
    ensures { result ≡ is_alias_register offset }
{
    let at = offset as usize;
    at == map::SER_ALIAS_ID || map::TARGET_ALIAS_0 <= at && at < map::TARGET_ALIAS_0 + 8
}

// `odd-alias`: whether an alias register of some port gets an odd value.
#[tactic(auto, unfolding(crate::specs::AtWrites::odd_alias_by))]
pub fn odd_alias_by(effect: Effect, write: NumberedWrite) -> bool
    ensures { result ≡ odd_alias_by effect write }
{
    is_alias_register(write.offset) && reached_by(effect) != 0 && write.value % 2 == 1
}
