// The packet at the start of some bytes: what its header says, and its payload as a part of those bytes.
#![tactic(auto)]

ghost use Rattle.std.specs.Prelude.{◌≡◌, ◌+◌, ◌*◌, ◌^◌, ◌≤◌, length};
ghost use Rattle.laws.specs.Reply.{reply_by};
ghost use Rattle.reader.specs.declared.PacketRefusal.TheVariants.{HeaderUncorrectable};
ghost use Rattle.reader.specs.Reader.{header_packet, checksum_matches, read_body, read_packet};
ghost use Rattle.reader.specs.Reader.{payload_count, payload_read, packet_refusal_number};

use csi2::short;
use ecc::{ReadHeader, Uncorrectable};
use refusals::Refusal;

// The header of a packet that is accepted, and which of the 32 bits was wrong, if one was. The word count of a short
// packet is its frame number.
#[derive(Clone, Copy)]
pub struct Packet {
    pub data_identifier: u8,
    pub word_count: u16,
    pub corrected: Option<u8>,
}

// Why no packet is accepted.
#[derive(Clone, Copy)]
pub enum PacketRefusal {
    Truncated,
    HeaderUncorrectable,
    ChecksumWrong,
}

impl Refusal for PacketRefusal {
    ghost number = { packet_refusal_number };

    fn number(self) -> u8 {
        match self {
            PacketRefusal::Truncated => 12,
            PacketRefusal::HeaderUncorrectable => 10,
            PacketRefusal::ChecksumWrong => 11,
        }
    }
}

impl From<Uncorrectable> for PacketRefusal {
    ghost from_gives = { λ refusal r. r ≡ HeaderUncorrectable };

    fn from(_refusal: Uncorrectable) -> PacketRefusal {
        PacketRefusal::HeaderUncorrectable
    }
}

// Four bytes as one number, the first lowest.
fn four_bytes(a: u8, b: u8, c: u8, d: u8) -> u32
    ensures { result ≡ a + 2 ^ 8 * b + 2 ^ 16 * c + 2 ^ 24 * d }
{
    u32::from_le_bytes([a, b, c, d])
}

// Whether the two bytes after the payload are its checksum.
fn checksum_matches(body: &[u8], count: usize) -> bool
    requires { count + 2 ≤ length body.now }
    ensures { result ≡ checksum_matches body.now count }
{
    buffers::two_bytes(body[count], body[count + 1]) == crc::checksum(&body[..count])
}

// Reads what stands after a header.
fn read_body(body: &[u8], read: ReadHeader) -> Result<Packet, PacketRefusal>
    ensures { reply_by packet_refusal_number result ≡ read_body body.now (header_packet read) }
{
    let packet = Packet {
        data_identifier: (read.header % 0x100) as u8,
        word_count: (read.header / 0x100 % 0x10000) as u16,
        corrected: read.corrected,
    };
    if short::is_short(packet.data_identifier) {
        return Ok(packet);
    }
    let end = packet.word_count as usize;
    if body.len() < end + 2 {
        return Err(PacketRefusal::Truncated);
    }
    if !checksum_matches(body, end) {
        return Err(PacketRefusal::ChecksumWrong);
    }
    Ok(packet)
}

// Reads the packet at the start of the bytes.
pub fn read_packet(bytes: &[u8]) -> Result<Packet, PacketRefusal>
    ensures { reply_by packet_refusal_number result ≡ read_packet bytes.now }
{
    if bytes.len() < 4 {
        return Err(PacketRefusal::Truncated);
    }
    let header = four_bytes(bytes[0], bytes[1], bytes[2], bytes[3]);
    let read = ecc::correct_header(header)?;
    read_body(buffers::bytes_from(bytes, 4), read)
}

// How many bytes the payload has, by the answer of the reader: none on refusal.
fn payload_count(read: Result<Packet, PacketRefusal>) -> usize
    ensures { result ≡ payload_count (reply_by packet_refusal_number read) }
{
    match read {
        Err(_) => 0,
        Ok(packet) => {
            if short::is_short(packet.data_identifier) {
                return 0;
            }
            packet.word_count as usize
        }
    }
}

// The payload of the packet at the start of the bytes, as a part of them; empty on refusal.
pub fn payload(bytes: &[u8]) -> &[u8]
    ensures { result.now ≡ payload_read bytes.now }
{
    let count = payload_count(read_packet(bytes));
    let body = buffers::bytes_from(bytes, 4);
    &body[..count]
}
