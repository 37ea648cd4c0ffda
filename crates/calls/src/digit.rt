// Hex digits in either case.
ghost use Rattle.std.specs.Prelude.{SomeIff, ◌<◌};
ghost use Rattle.calls.specs.Grammar.{digit_value};

// The value of a hex digit.
pub fn value(byte: u8) -> Option<u8>
    ensures { SomeIff result (digit_value byte < 16) (digit_value byte) }
{
    match byte {
        48..=57 => Some(byte - 48),
        65..=70 => Some(byte - 55),
        97..=102 => Some(byte - 87),
        _ => None,
    }
}
