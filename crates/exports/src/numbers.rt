// The answers of `ecc`, `packing`, `unpacking`, `csi2` and `reader` as numbers of 64 bits.
ghost use Rattle.std.specs.Prelude.{◌≡◌, ◌+◌, ◌*◌, ◌^◌};
ghost use Rattle.laws.specs.Reply.{on_reply, reply_by};
ghost use Rattle.ecc.specs.HeaderCorrection.{uncorrectable_number};
ghost use Rattle.reader.specs.Reader.{packet_refusal_number};
ghost use Rattle.exports.specs.Numbers.{reply_number, corrected_number, correction_number, packet_number};

use ecc::{ReadHeader, Uncorrectable};
use reader::{Packet, PacketRefusal};
use refusals::Refusal;

// A refusal: its number in the top byte.
fn of_refusal<E: Refusal>(refusal: E) -> u64
    ensures { result ≡ E.number refusal * 2 ^ 56 }
{
    (refusal.number() as u64) * 0x100000000000000
}

// The bit that was wrong, counted from 1, or 0 for none.
fn of_corrected(corrected: Option<u8>) -> u16
    ensures { result ≡ corrected_number corrected }
{
    match corrected {
        None => 0,
        Some(bit) => 1 + (bit as u16),
    }
}

// A header's four bytes, and the bit above them.
fn with_bit(header: u32, bit: u16) -> u64
    ensures { result ≡ header + 2 ^ 32 * bit }
{
    (header as u64) + 0x100000000 * (bit as u64)
}

// An identifier, the word count above it, and the bit above that.
fn with_count(identifier: u8, count: u16, bit: u16) -> u64
    ensures { result ≡ identifier + 2 ^ 8 * count + 2 ^ 24 * bit }
{
    (identifier as u64) + 0x100 * (count as u64) + 0x1000000 * (bit as u64)
}

// What a header is read as.
pub(crate) fn of_correction(answer: Result<ReadHeader, Uncorrectable>) -> u64
    ensures { result ≡ reply_number (on_reply correction_number (reply_by uncorrectable_number answer)) }
{
    match answer {
        Ok(read) => with_bit(read.header, of_corrected(read.corrected)),
        Err(refusal) => of_refusal(refusal),
    }
}

// How many bytes were packed or written, or pixels unpacked.
pub(crate) fn of_count<E: Refusal>(answer: Result<usize, E>) -> u64
    ensures { result ≡ reply_number (reply_by E.number answer) }
{
    match answer {
        Ok(count) => count as u64,
        Err(refusal) => of_refusal(refusal),
    }
}

// What a packet's header says.
pub(crate) fn of_packet(answer: Result<Packet, PacketRefusal>) -> u64
    ensures { result ≡ reply_number (on_reply packet_number (reply_by packet_refusal_number answer)) }
{
    match answer {
        Ok(packet) => with_count(
            packet.data_identifier,
            packet.word_count,
            of_corrected(packet.corrected),
        ),
        Err(refusal) => of_refusal(refusal),
    }
}
