// The cases on packets: check byte, header correction, RAW10 and RAW12, checksum, and the borders of a line.
ghost use Rattle.std.specs.Prelude.{◌≤◌};

use crate::print;
use crate::print::{Byte, Bytes};
use csi2::long;
use formats::Format;
use reader::{Packet, PacketRefusal};
use std::io;

// The standard's two checksum vectors.
const FIRST_VECTOR: [u8; 24] = [
    0xFF, 0x00, 0x00, 0x02, 0xB9, 0xDC, 0xF3, 0x72, 0xBB, 0xD4, 0xB8, 0x5A, 0xC8, 0x75, 0xC2, 0x7C,
    0x81, 0xF8, 0x05, 0xDF, 0xFF, 0x00, 0x00, 0x01,
];

const SECOND_VECTOR: [u8; 24] = [
    0xFF, 0x00, 0x00, 0x00, 0x1E, 0xF0, 0x1E, 0xC7, 0x4F, 0x82, 0x78, 0xC5, 0x82, 0xE0, 0x8C, 0x70,
    0xD2, 0x3C, 0x78, 0xE9, 0xFF, 0x00, 0x00, 0x01,
];

fn print_check_byte(rt: &impl Print, word: u32) -> io::Result<()> {
    print!(rt; "check byte of the header word")?;
    println!(rt; " {word}: {}", Byte(ecc::check_byte(word)))
}

fn print_packet(rt: &impl Print, answer: Result<Packet, PacketRefusal>) -> io::Result<()> {
    match answer {
        Ok(packet) => {
            print!(rt; " {} {}", Byte(packet.data_identifier), packet.word_count)?;
            match packet.corrected {
                None => print!(rt; " nothing corrected"),
                Some(bit) => {
                    print!(rt; " corrected bit")?;
                    print!(rt; " {bit}")
                }
            }
        }
        Err(refusal) => print::refusal(rt, refusal),
    }
}

// Reads the packet with these bytes.
fn print_read(rt: &impl Print, bytes: [u8; 4]) -> io::Result<()> {
    print!(rt; "read {}:", Bytes(&bytes))?;
    print_packet(rt, reader::read_packet(&bytes))?;
    println!(rt; "")
}

fn print_packed(rt: &impl Print, name: &str, format: Format, pixels: &[u16]) -> io::Result<()> {
    print!(rt; "{name}")?;
    let mut buf = [0u8; 8];
    let answer = packing::pack_pixels(format, pixels, &mut buf, 0);
    print::count(rt, answer, " bytes")?;
    if answer.is_ok() {
        print!(rt; ", with the rest of 8: {}", Bytes(&buf))?;
    }
    println!(rt; "")
}

fn print_checksum(rt: &impl Print, bytes: &[u8]) -> io::Result<()> {
    let sum = crc::checksum(bytes).to_be_bytes();
    println!(rt; "checksum of the standard's vector: {}", Bytes(&sum))
}

fn print_line(
    rt: &impl Print,
    name: &str,
    format: Format,
    pixels: &[u16],
    identifier: u8,
) -> io::Result<()> {
    print!(rt; "{name}")?;
    let mut buf = [0u8; 6150];
    let answer = long::write_pixel_line(format, pixels, identifier, &mut buf, 0);
    print::count(rt, answer, " bytes")?;
    println!(rt; "")
}

// A line of so many pixels, all of them 0.
fn print_width(
    rt: &impl Print,
    name: &str,
    format: Format,
    width: usize,
    identifier: u8,
) -> io::Result<()>
    requires { width ≤ 4097 }
{
    let zeros = [0u16; 4097];
    print_line(rt, name, format, &zeros[0..width], identifier)
}

// A line of four times the pixel, as RAW10.
fn print_pixel(rt: &impl Print, name: &str, pixel: u16, identifier: u8) -> io::Result<()> {
    print_line(rt, name, Format::Raw10, &[pixel; 4], identifier)
}

// The widths and pixels at the borders, as RAW10 and as RAW12.
fn print_borders(rt: &impl Print) -> io::Result<()> {
    print_width(rt, "RAW10, width 4096:", Format::Raw10, 4096, 0x2B)?;
    print_width(rt, "RAW12, width 4096:", Format::Raw12, 4096, 0x2C)?;
    print_width(rt, "RAW10, width 4097:", Format::Raw10, 4097, 0x2B)?;
    print_width(rt, "RAW12, width 0:", Format::Raw12, 0, 0x2C)?;
    print_pixel(rt, "RAW10, pixel 3FF:", 0x3FF, 0x2B)?;
    print_pixel(rt, "RAW10, pixel 400:", 0x400, 0x2B)?;
    print_pixel(rt, "type 10:", 0x3FF, 0x10)?;
    print_pixel(rt, "type 0F:", 0x3FF, 0x0F)
}

pub(crate) fn run(rt: &impl Print) -> io::Result<()> {
    print_check_byte(rt, 0x000000)?;
    print_check_byte(rt, 0x000140)?;
    print_read(rt, [0x41, 0x01, 0x00, 0x0C])?;
    print_read(rt, [0x40, 0x01, 0x00, 0x4C])?;
    print_read(rt, [0x40, 0x01, 0x00, 0x0F])?;
    print_packed(
        rt,
        "RAW10 of 3FF, 0, 0, 1:",
        Format::Raw10,
        &[0x3FF, 0, 0, 1],
    )?;
    print_packed(rt, "RAW12 of ABC, 123:", Format::Raw12, &[0xABC, 0x123])?;
    print_checksum(rt, &FIRST_VECTOR)?;
    print_checksum(rt, &SECOND_VECTOR)?;
    print_borders(rt)
}
