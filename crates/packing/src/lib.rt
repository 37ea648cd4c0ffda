// RAW10 and RAW12: the pixels of a line packed into the bytes of a payload.
#![tactic(auto)]

ghost use Rattle.std.specs.Prelude.{◌≡◌, length};
ghost use Rattle.laws.specs.Buffers.{Writes};
ghost use Rattle.laws.specs.Reply.{reply_by};
ghost use Rattle.packing.specs.declared.PackRefusal.TheVariants.{Pixels};
ghost use Rattle.packing.specs.Packing.{pack_refusal_number, pack_reply};
ghost use Rattle.packing.specs.Lengths.{payload_length};

use check::PixelRefusal;
use formats::Format;
use refusals::Refusal;

pub mod check;
pub mod groups;

// Why a pixel line is not packed.
#[derive(Clone, Copy)]
pub enum PackRefusal {
    Pixels(PixelRefusal),
    NoRoom,
}

impl Refusal for PackRefusal {
    ghost number = { pack_refusal_number };

    fn number(self) -> u8 {
        match self {
            PackRefusal::Pixels(refusal) => refusal.number(),
            PackRefusal::NoRoom => 8,
        }
    }
}

impl From<PixelRefusal> for PackRefusal {
    ghost from_gives = { λ refusal r. r ≡ Pixels refusal };

    fn from(refusal: PixelRefusal) -> PackRefusal {
        PackRefusal::Pixels(refusal)
    }
}

// How many bytes the whole groups of a pixel line of that width are packed into.
pub fn payload_length(format: Format, width: u16) -> usize
    ensures { result ≡ payload_length format width }
{
    let pixels = width as usize;
    match format {
        Format::Raw10 => pixels / 4 * 5,
        Format::Raw12 => pixels / 2 * 3,
    }
}

// Packs a pixel line from the place; or refuses it and writes nothing. How many bytes were packed.
pub fn pack_pixels(
    format: Format,
    pixels: &[u16],
    buf: &mut [u8],
    place: usize,
) -> Result<usize, PackRefusal>
    ensures { Writes buf.old place
        (pack_reply format pixels.now (length buf.old) place)
        (reply_by pack_refusal_number result) buf.new }
{
    check::check_pixels(format, pixels)?;
    let needed = payload_length(format, pixels.len() as u16);
    if !buffers::has_room(buf.len(), place, needed) {
        return Err(PackRefusal::NoRoom);
    }
    groups::pack_groups(format, pixels, buf, place);
    Ok(needed)
}
