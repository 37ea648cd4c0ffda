// The four bytes of a packet header, and a number of 16 bits in two bytes.
ghost use Rattle.std.specs.Prelude.{◌≡◌, ◌≤◌, length};
ghost use Rattle.laws.specs.Buffers.{written};
ghost use Rattle.csi2.specs.Packets.{little_endian, header_bytes};

// Writes a header at the start of `part`.
pub(crate) fn put_header(part: &mut [u8], identifier: u8, n: u16)
    requires { 4 ≤ length part.old }
    ensures { part.new ≡ written part.old 0 (header_bytes identifier n) }
{
    let word = (identifier as u32) + 256 * (n as u32);
    part[0] = identifier;
    part[1] = (n % 256) as u8;
    part[2] = (n / 256) as u8;
    part[3] = ecc::check_byte(word);
}

// Writes a number of 16 bits at the start of `part`, low byte first.
pub(crate) fn put_little_endian(part: &mut [u8], n: u16)
    requires { 2 ≤ length part.old }
    ensures { part.new ≡ written part.old 0 (little_endian n) }
{
    part[0] = (n % 256) as u8;
    part[1] = (n / 256) as u8;
}
