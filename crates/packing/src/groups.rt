// Pixels packed group by group: four in five bytes as RAW10, two in three as RAW12.
ghost use Rattle.std.specs.Prelude.{◌≡◌, [], ◌∷◌, ◌+◌, ◌*◌, ◌-◌, ◌≤◌, length, take, drop};
ghost use Rattle.laws.specs.Buffers.{written};
ghost use Rattle.formats.specs.declared.Format.TheVariants.{Raw10, Raw12};
ghost use Rattle.packing.specs.Raw.{group_pixels, group_bytes, pack_group, pack_groups};
ghost use Rattle.packing.specs.Lengths.{groups_in_room};

use formats::Format;

// Four pixels in five bytes, from `o` on.
fn put_four(part: &mut [u8], o: usize, a: u16, b: u16, c: u16, d: u16)
    requires { o + 5 ≤ length part.old }
    ensures { part.new ≡ written part.old o (pack_group Raw10 (a ∷ b ∷ c ∷ d ∷ [])) }
{
    part[o] = (a / 4 % 256) as u8;
    part[o + 1] = (b / 4 % 256) as u8;
    part[o + 2] = (c / 4 % 256) as u8;
    part[o + 3] = (d / 4 % 256) as u8;
    part[o + 4] = (a % 4 + 4 * (b % 4) + 16 * (c % 4) + 64 * (d % 4)) as u8;
}

// Two pixels in three bytes, from `o` on.
fn put_two(part: &mut [u8], o: usize, a: u16, b: u16)
    requires { o + 3 ≤ length part.old }
    ensures { part.new ≡ written part.old o (pack_group Raw12 (a ∷ b ∷ [])) }
{
    part[o] = (a / 16 % 256) as u8;
    part[o + 1] = (b / 16 % 256) as u8;
    part[o + 2] = (a % 16 + 16 * (b % 16)) as u8;
}

// The group of pixels from `i` on in its bytes, from `o` on.
fn put_group(format: Format, pixels: &[u16], i: usize, part: &mut [u8], o: usize)
    requires { (i + group_pixels format ≤ length pixels.now) × (o + group_bytes format ≤ length part.old) }
    ensures { part.new ≡ written part.old o
        (pack_group format (take (group_pixels format) (drop i pixels.now))) }
{
    match format {
        Format::Raw10 => put_four(
            part,
            o,
            pixels[i],
            pixels[i + 1],
            pixels[i + 2],
            pixels[i + 3],
        ),
        Format::Raw12 => put_two(part, o, pixels[i], pixels[i + 1]),
    }
}

// Packs so many groups of a pixel line at the start of `part`, each of PIXELS pixels in BYTES bytes.
fn pack_count<const PIXELS: usize, const BYTES: usize>(
    format: Format,
    pixels: &[u16],
    part: &mut [u8],
    count: usize,
)
    requires sizes { (PIXELS ≡ group_pixels format) × (BYTES ≡ group_bytes format) }
    requires room { (count * PIXELS ≤ length pixels.now) × (count * BYTES ≤ length part.old) }
    ensures { part.new ≡ written part.old 0 (pack_groups format count pixels.now) }
{
    for g in 0..count {
        put_group(format, pixels, PIXELS * g, part, BYTES * g);
    }
}

// Packs at the start of `part` the whole groups that the pixels have and the part has room for.
fn pack(format: Format, pixels: &[u16], part: &mut [u8])
    ensures { part.new ≡ written part.old 0
        (pack_groups format
        (groups_in_room format (length pixels.now) (length part.old))
        pixels.now) }
{
    match format {
        Format::Raw10 => {
            pack_count::<4, 5>(format, pixels, part, (pixels.len() / 4).min(part.len() / 5))
        }
        Format::Raw12 => {
            pack_count::<2, 3>(format, pixels, part, (pixels.len() / 2).min(part.len() / 3))
        }
    }
}

// Packs from the place the whole groups that the pixels have and the buffer has room for, and tests nothing else.
pub fn pack_groups(format: Format, pixels: &[u16], buf: &mut [u8], place: usize)
    ensures { buf.new ≡ written buf.old place
        (pack_groups format
        (groups_in_room format (length pixels.now) (length buf.old - place))
        pixels.now) }
{
    if place <= buf.len() {
        pack(format, pixels, &mut buf[place..]);
    }
}
