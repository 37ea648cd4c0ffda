// The two formats of a frame's pixels.
#![tactic(auto)]

ghost use Rattle.std.specs.Prelude.{◌≡◌};
ghost use Rattle.formats.specs.Formats.{format_reply, format_of};

#[derive(Clone, Copy)]
pub enum Format {
    Raw10,
    Raw12,
}

// The format whose pixels have `bits` bits.
pub fn from_bits(bits: u8) -> Option<Format>
    ensures { format_reply result ≡ format_of bits }
{
    match bits {
        10 => Some(Format::Raw10),
        12 => Some(Format::Raw12),
        _ => None,
    }
}
