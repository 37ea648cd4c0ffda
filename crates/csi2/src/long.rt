// Long packets: the pixel lines of a frame.
ghost use Rattle.std.specs.Prelude.{◌≡◌, ◌+◌, ◌≤◌, length, take, drop};
ghost use Rattle.laws.specs.Reply.{reply_by};
ghost use Rattle.laws.specs.Buffers.{written, Writes};
ghost use Rattle.crc.specs.Checksum.{crc_of};
ghost use Rattle.packing.specs.Raw.{payload_of};
ghost use Rattle.packing.specs.Lengths.{payload_length};
ghost use Rattle.csi2.specs.Packets.{little_endian, long_packet};
ghost use Rattle.csi2.specs.declared.long.LongRefusal.TheVariants.{Pixels};
ghost use Rattle.csi2.specs.Writers.{long_packet_reply, long_refusal_number, pixel_line_reply};

use crate::{header, short};
use formats::Format;
use packing::check::PixelRefusal;
use packing::{check, groups};
use refusals::Refusal;

// Why a long packet or a pixel line is not written.
#[derive(Clone, Copy)]
pub enum LongRefusal {
    Pixels(PixelRefusal),
    ShortType,
    NoRoom,
}

impl Refusal for LongRefusal {
    ghost number = { long_refusal_number };

    fn number(self) -> u8 {
        match self {
            LongRefusal::Pixels(refusal) => refusal.number(),
            LongRefusal::ShortType => 7,
            LongRefusal::NoRoom => 8,
        }
    }
}

impl From<PixelRefusal> for LongRefusal {
    ghost from_gives = { λ refusal r. r ≡ Pixels refusal };

    fn from(refusal: PixelRefusal) -> LongRefusal {
        LongRefusal::Pixels(refusal)
    }
}

// Writes the checksum of the `count` bytes after the header's place in `part`.
fn put_checksum(part: &mut [u8], count: usize)
    requires { 6 + count ≤ length part.old }
    ensures { part.new
        ≡ written part.old (4 + count) (little_endian (crc_of (take count (drop 4 part.old)))) }
{
    let end = 4 + count;
    let sum = crc::checksum(&part[4..end]);
    header::put_little_endian(&mut part[end..], sum);
}

// Writes a pixel line as a long packet at the start of `part`.
fn put_packet(part: &mut [u8], format: Format, pixels: &[u16], identifier: u8)
    requires { (length pixels.now ≤ 4096) × (6 + payload_length format (length pixels.now) ≤ length part.old) }
    ensures { part.new
        ≡ written part.old 0 (long_packet identifier (payload_of format pixels.now)) }
{
    let count = packing::payload_length(format, pixels.len() as u16);
    header::put_header(part, identifier, count as u16);
    groups::pack_groups(format, pixels, part, 4);
    put_checksum(part, count);
}

// Writes a pixel line as a long packet from the place.
fn put_packet_at(buf: &mut [u8], place: usize, format: Format, pixels: &[u16], identifier: u8)
    requires { (length pixels.now ≤ 4096)
        × (place + (6 + payload_length format (length pixels.now)) ≤ length buf.old) }
    ensures { buf.new
        ≡ written buf.old place (long_packet identifier (payload_of format pixels.now)) }
{
    put_packet(&mut buf[place..], format, pixels, identifier);
}

// Writes a long packet from the place, whether or not its pixels fit the format; or refuses it and writes nothing. How
// many bytes were written.
pub fn write_long_packet(
    format: Format,
    pixels: &[u16],
    identifier: u8,
    buf: &mut [u8],
    place: usize,
) -> Result<usize, LongRefusal>
    ensures { Writes buf.old place
        (long_packet_reply format pixels.now identifier (length buf.old) place)
        (reply_by long_refusal_number result) buf.new }
{
    if !check::width_allowed(format, pixels.len()) {
        return Err(LongRefusal::Pixels(PixelRefusal::WidthNotAllowed));
    }
    if short::is_short(identifier) {
        return Err(LongRefusal::ShortType);
    }
    let needed = 6 + packing::payload_length(format, pixels.len() as u16);
    if !buffers::has_room(buf.len(), place, needed) {
        return Err(LongRefusal::NoRoom);
    }
    put_packet_at(buf, place, format, pixels, identifier);
    Ok(needed)
}

// Writes a pixel line as a long packet from the place; or refuses it and writes nothing. How many bytes were written.
pub fn write_pixel_line(
    format: Format,
    pixels: &[u16],
    identifier: u8,
    buf: &mut [u8],
    place: usize,
) -> Result<usize, LongRefusal>
    ensures { Writes buf.old place
        (pixel_line_reply format pixels.now identifier (length buf.old) place)
        (reply_by long_refusal_number result) buf.new }
{
    check::check_pixels(format, pixels)?;
    write_long_packet(format, pixels, identifier, buf, place)
}
