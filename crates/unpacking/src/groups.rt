// A payload unpacked group by group: five bytes to four pixels as RAW10, three to two as RAW12.
ghost use Rattle.std.specs.Prelude.{◌≡◌, [], ◌∷◌, ◌+◌, ◌*◌, ◌/◌, ◌^◌, ◌≤◌, ◌<◌, length, take, drop};
ghost use Rattle.laws.specs.Buffers.{written};
ghost use Rattle.formats.specs.declared.Format.TheVariants.{Raw10, Raw12};
ghost use Rattle.packing.specs.Raw.{group_pixels, group_bytes};
ghost use Rattle.unpacking.specs.Pixels.{unpack_group, unpack_groups, pixels_of};
ghost use Rattle.unpacking.specs.Words.{spread_pairs};

use formats::Format;

// The four pairs of low bits in a byte, each at its pixel's place in a word of four pixels: the product has the byte at
// the bits 0, 14, 28 and 42, so that one pair stands at each of the bits 0, 16, 32 and 48, and the mask keeps these.
fn spread_pairs(low: u8) -> u64
    ensures { (result ≡ spread_pairs low) × (result < 2 ^ 50) }
{
    ((low as u64) * 0x40010004001) & 0x3000300030003
}

// Four pixels from five bytes, gathered in a word and stored from `o` on.
fn put_four(pixels: &mut [u16], o: usize, a: u8, b: u8, c: u8, d: u8, low: u8)
    requires { o + 4 ≤ length pixels.old }
    ensures { pixels.new
        ≡ written pixels.old o (unpack_group Raw10 (a ∷ b ∷ c ∷ d ∷ low ∷ [])) }
{
    let upper = (a as u64)
        + 0x10000 * (b as u64)
        + 0x100000000 * (c as u64)
        + 0x1000000000000 * (d as u64);
    let word = 4 * upper + spread_pairs(low);
    pixels[o] = (word % 0x10000) as u16;
    pixels[o + 1] = (word / 0x10000 % 0x10000) as u16;
    pixels[o + 2] = (word / 0x100000000 % 0x10000) as u16;
    pixels[o + 3] = (word / 0x1000000000000 % 0x10000) as u16;
}

// Two pixels from three bytes, stored from `o` on.
fn put_two(pixels: &mut [u16], o: usize, a: u8, b: u8, low: u8)
    requires { o + 2 ≤ length pixels.old }
    ensures { pixels.new ≡ written pixels.old o (unpack_group Raw12 (a ∷ b ∷ low ∷ [])) }
{
    pixels[o] = 16 * (a as u16) + ((low % 16) as u16);
    pixels[o + 1] = 16 * (b as u16) + ((low / 16) as u16);
}

// The pixels of the group of bytes from `i` on, stored from `o` on.
fn put_group(format: Format, payload: &[u8], i: usize, pixels: &mut [u16], o: usize)
    requires { (i + group_bytes format ≤ length payload.now) × (o + group_pixels format ≤ length pixels.old) }
    ensures { pixels.new ≡ written pixels.old o
        (unpack_group format (take (group_bytes format) (drop i payload.now))) }
{
    match format {
        Format::Raw10 => put_four(
            pixels,
            o,
            payload[i],
            payload[i + 1],
            payload[i + 2],
            payload[i + 3],
            payload[i + 4],
        ),
        Format::Raw12 => put_two(pixels, o, payload[i], payload[i + 1], payload[i + 2]),
    }
}

// Unpacks so many groups of a payload to the start of `pixels`, each of BYTES bytes to PIXELS pixels.
fn unpack_count<const BYTES: usize, const PIXELS: usize>(
    format: Format,
    payload: &[u8],
    pixels: &mut [u16],
    count: usize,
)
    requires sizes { (BYTES ≡ group_bytes format) × (PIXELS ≡ group_pixels format) }
    requires room { (count * BYTES ≤ length payload.now) × (count * PIXELS ≤ length pixels.old) }
    ensures { pixels.new ≡ written pixels.old 0 (unpack_groups format count payload.now) }
{
    for g in 0..count {
        put_group(format, payload, BYTES * g, pixels, PIXELS * g);
    }
}

// Unpacks the whole groups of a payload to the start of `pixels`.
pub(crate) fn unpack(format: Format, payload: &[u8], pixels: &mut [u16])
    requires { length payload.now / group_bytes format * group_pixels format ≤ length pixels.old }
    ensures { pixels.new ≡ written pixels.old 0 (pixels_of format payload.now) }
{
    match format {
        Format::Raw10 => unpack_count::<5, 4>(format, payload, pixels, payload.len() / 5),
        Format::Raw12 => unpack_count::<3, 2>(format, payload, pixels, payload.len() / 3),
    }
}
