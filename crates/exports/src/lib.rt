// Functions of `ecc`, `crc`, `packing`, `unpacking`, `csi2` and `reader` for programs in C and Rust. An answer that may
// be a refusal is one number (specs/Numbers.antt). A slice is passed as its address and its length: the caller answers
// for both, and that no other slice overlaps a `&mut` one.
#![tactic(auto)]

ghost use Rattle.std.specs.Prelude.{◌≡◌, length};
ghost use Rattle.laws.specs.Reply.{on_reply};
ghost use Rattle.formats.specs.declared.Format.TheVariants.{Raw10, Raw12};
ghost use Rattle.ecc.specs.CheckBytes.{check_byte};
ghost use Rattle.ecc.specs.HeaderCorrection.{correction_of};
ghost use Rattle.crc.specs.Checksum.{crc_from, crc_of};
ghost use Rattle.packing.specs.Packing.{pack_reply};
ghost use Rattle.unpacking.specs.Unpacking.{unpack_reply};
ghost use Rattle.csi2.specs.Writers.{pixel_line_reply};
ghost use Rattle.reader.specs.Reader.{read_packet, payload_read};
ghost use Rattle.exports.specs.Numbers.{reply_number, WritesNumber, correction_number, packet_number};

use csi2::long;
use formats::Format;

mod numbers;

// The check byte of a header whose three first bytes are `word`, the identifier lowest.
#[unsafe(no_mangle)]
pub extern "C" fn loopcinder_check_byte(word: u32) -> u8
    ensures { result ≡ check_byte word }
{
    ecc::check_byte(word)
}

// What a header is read as, its four bytes as one number, the identifier lowest; and which bit was wrong.
#[unsafe(no_mangle)]
pub extern "C" fn loopcinder_correct_header(header: u32) -> u64
    ensures { result ≡ reply_number (on_reply correction_number (correction_of header)) }
{
    numbers::of_correction(ecc::correct_header(header))
}

// The checksum of a payload.
#[unsafe(no_mangle)]
pub extern "C" fn loopcinder_checksum(payload: &[u8]) -> u16
    ensures { result ≡ crc_of payload.now }
{
    crc::checksum(payload)
}

// The running checksum `crc` after the next bytes.
#[unsafe(no_mangle)]
pub extern "C" fn loopcinder_feed(crc: u16, bytes: &[u8]) -> u16
    ensures { result ≡ crc_from crc bytes.now }
{
    crc::feed(crc, bytes)
}

// Packs a pixel line from the place; or refuses it and writes nothing.
fn pack_as(format: Format, pixels: &[u16], buf: &mut [u8], place: usize) -> u64
    ensures { WritesNumber buf.old place
        (pack_reply format pixels.now (length buf.old) place) result buf.new }
{
    numbers::of_count(packing::pack_pixels(format, pixels, buf, place))
}

// Packs a pixel line of RAW10 from the place; or refuses it and writes nothing. How many bytes were packed.
#[unsafe(no_mangle)]
pub extern "C" fn loopcinder_pack_raw10(pixels: &[u16], buf: &mut [u8], place: usize) -> u64
    ensures { WritesNumber buf.old place
        (pack_reply Raw10 pixels.now (length buf.old) place) result buf.new }
{
    pack_as(Format::Raw10, pixels, buf, place)
}

// The same for a pixel line of RAW12. (Two functions, since C has these names.)
#[unsafe(no_mangle)]
pub extern "C" fn loopcinder_pack_raw12(pixels: &[u16], buf: &mut [u8], place: usize) -> u64
    ensures { WritesNumber buf.old place
        (pack_reply Raw12 pixels.now (length buf.old) place) result buf.new }
{
    pack_as(Format::Raw12, pixels, buf, place)
}

// Unpacks a payload whose pixels have `bits` bits, to the start of `pixels`; or refuses it and writes nothing. How many
// pixels were unpacked.
#[unsafe(no_mangle)]
pub extern "C" fn loopcinder_unpack(bits: u8, payload: &[u8], pixels: &mut [u16]) -> u64
    ensures { WritesNumber pixels.old 0
        (unpack_reply bits payload.now (length pixels.old)) result pixels.new }
{
    numbers::of_count(unpacking::unpack_pixels(bits, payload, pixels))
}

// Writes a pixel line as a long packet from the place; or refuses it and writes nothing.
fn write_as(format: Format, pixels: &[u16], identifier: u8, buf: &mut [u8], place: usize) -> u64
    ensures { WritesNumber buf.old place
        (pixel_line_reply format pixels.now identifier (length buf.old) place)
        result buf.new }
{
    numbers::of_count(long::write_pixel_line(format, pixels, identifier, buf, place))
}

// Writes a pixel line of RAW10 as a long packet from the place; or refuses it and writes nothing. How many bytes were
// written.
#[unsafe(no_mangle)]
pub extern "C" fn loopcinder_write_raw10_line(
    pixels: &[u16],
    identifier: u8,
    buf: &mut [u8],
    place: usize,
) -> u64
    ensures { WritesNumber buf.old place
        (pixel_line_reply Raw10 pixels.now identifier (length buf.old) place)
        result buf.new }
{
    write_as(Format::Raw10, pixels, identifier, buf, place)
}

// The same for a pixel line of RAW12. (Two functions, since C has these names.)
#[unsafe(no_mangle)]
pub extern "C" fn loopcinder_write_raw12_line(
    pixels: &[u16],
    identifier: u8,
    buf: &mut [u8],
    place: usize,
) -> u64
    ensures { WritesNumber buf.old place
        (pixel_line_reply Raw12 pixels.now identifier (length buf.old) place)
        result buf.new }
{
    write_as(Format::Raw12, pixels, identifier, buf, place)
}

// Reads the packet at the start of the bytes.
#[unsafe(no_mangle)]
pub extern "C" fn loopcinder_read_packet(bytes: &[u8]) -> u64
    ensures { result ≡ reply_number (on_reply packet_number (read_packet bytes.now)) }
{
    numbers::of_packet(reader::read_packet(bytes))
}

// How many bytes the payload of the packet at the start of the bytes has: they stand after its header's four; 0 on
// refusal.
#[unsafe(no_mangle)]
pub extern "C" fn loopcinder_payload_length(bytes: &[u8]) -> usize
    ensures { result ≡ length (payload_read bytes.now) }
{
    reader::payload(bytes).len()
}
