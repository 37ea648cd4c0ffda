// The cases on unpacking (L3): document 01's packed groups read back, and the borders of a payload and of the lent
// slice.
ghost use Rattle.std.specs.Prelude.{◌≤◌};

use crate::print;
use crate::print::Bytes;
use std::io;

fn print_bits(rt: &impl Print, bits: u8) -> io::Result<()> {
    print!(rt; " as")?;
    print!(rt; " {bits} bits")
}

// Unpacks a few bytes into a slice of six pixels, and prints all six.
fn print_unpacked(rt: &impl Print, bits: u8, payload: &[u8]) -> io::Result<()> {
    print!(rt; "unpacking {}", Bytes(payload))?;
    print_bits(rt, bits)?;
    print!(rt; ":")?;
    let mut pixels = [0xFFFFu16; 6];
    let answer = unpacking::unpack_pixels(bits, payload, &mut pixels);
    print::count(rt, answer, " pixels")?;
    if answer.is_ok() {
        print!(rt; ", with the rest of 6:")?;
        for pixel in &pixels {
            print!(rt; " {}", Bytes(&pixel.to_be_bytes()))?;
        }
    }
    println!(rt; "")
}

// Unpacks so many zeros into a slice of so many pixels, and prints how many pixels they are.
fn print_count(rt: &impl Print, bits: u8, length: usize, room: usize) -> io::Result<()>
    requires { (length ≤ 6147) × (room ≤ 4096) }
{
    print!(rt; "unpacking")?;
    print!(rt; " {length} bytes")?;
    print_bits(rt, bits)?;
    if room < 4096 {
        print!(rt; " into")?;
        print!(rt; " {room}")?;
    }
    print!(rt; ":")?;
    let zeros = [0u8; 6147];
    let mut pixels = [0u16; 4096];
    let answer = unpacking::unpack_pixels(bits, &zeros[0..length], &mut pixels[0..room]);
    print::count(rt, answer, " pixels")?;
    println!(rt; "")
}

fn print_borders(rt: &impl Print) -> io::Result<()> {
    print_count(rt, 12, 0, 4096)?;
    print_count(rt, 10, 5120, 4096)?;
    print_count(rt, 10, 5125, 4096)?;
    print_count(rt, 12, 6144, 4096)?;
    print_count(rt, 12, 6147, 4096)?;
    print_count(rt, 12, 6144, 4095)
}

pub(crate) fn run(rt: &impl Print) -> io::Result<()> {
    print_unpacked(rt, 10, &[0xFF, 0x00, 0x00, 0x00, 0x43])?;
    print_unpacked(rt, 12, &[0xAB, 0x12, 0x3C])?;
    print_unpacked(rt, 11, &[0xAB, 0x12, 0x3C])?;
    print_unpacked(rt, 10, &[0xAB, 0x12, 0x3C])?;
    print_borders(rt)
}
