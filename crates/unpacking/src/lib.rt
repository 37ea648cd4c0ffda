// RAW10 and RAW12 read back: the pixels of a line unpacked from the bytes of a payload.
#![tactic(auto)]

ghost use Rattle.std.specs.Prelude.{◌≡◌, ◌*◌, ◌/◌, length};
ghost use Rattle.laws.specs.Buffers.{Writes};
ghost use Rattle.laws.specs.Reply.{reply_by};
ghost use Rattle.packing.specs.Raw.{group_pixels, group_bytes};
ghost use Rattle.unpacking.specs.Unpacking.{payload_allowed, unpack_reply, unpack_refusal_number};

use formats::Format;
use refusals::Refusal;

mod groups;

// Why a payload is not unpacked.
#[derive(Clone, Copy)]
pub enum UnpackRefusal {
    UnknownFormat,
    PayloadNotAllowed,
    NoRoom,
}

impl Refusal for UnpackRefusal {
    ghost number = { unpack_refusal_number };

    fn number(self) -> u8 {
        match self {
            UnpackRefusal::UnknownFormat => 3,
            UnpackRefusal::PayloadNotAllowed => 17,
            UnpackRefusal::NoRoom => 8,
        }
    }
}

// How many pixels the whole groups of so many bytes have.
fn width_of(format: Format, count: usize) -> usize
    ensures { result ≡ count / group_bytes format * group_pixels format }
{
    match format {
        Format::Raw10 => count / 5 * 4,
        Format::Raw12 => count / 3 * 2,
    }
}

// Whether a payload may have so many bytes.
fn payload_allowed(format: Format, count: usize) -> bool
    ensures { result ≡ payload_allowed format count }
{
    if count < 1 {
        return false;
    }
    if 4096 < width_of(format, count) {
        return false;
    }
    match format {
        Format::Raw10 => count % 5 == 0,
        Format::Raw12 => count % 3 == 0,
    }
}

// Unpacks a payload whose pixels have `bits` bits, to the start of `pixels`; or refuses it and writes nothing. How many
// pixels were unpacked.
pub fn unpack_pixels(bits: u8, payload: &[u8], pixels: &mut [u16]) -> Result<usize, UnpackRefusal>
    ensures { Writes pixels.old 0
        (unpack_reply bits payload.now (length pixels.old))
        (reply_by unpack_refusal_number result) pixels.new }
{
    let format = formats::from_bits(bits).ok_or(UnpackRefusal::UnknownFormat)?;
    let count = payload.len();
    if !payload_allowed(format, count) {
        return Err(UnpackRefusal::PayloadNotAllowed);
    }
    let width = width_of(format, count);
    if pixels.len() < width {
        return Err(UnpackRefusal::NoRoom);
    }
    groups::unpack(format, payload, pixels);
    Ok(width)
}
