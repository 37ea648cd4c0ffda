// Short packets: a frame start or a frame end.
ghost use Rattle.std.specs.Prelude.{◌≡◌, ◌+◌, ◌≤◌, length};
ghost use Rattle.laws.specs.Reply.{reply_by};
ghost use Rattle.laws.specs.Buffers.{written, Writes};
ghost use Rattle.csi2.specs.Packets.{is_short, sync_identifier, header_bytes};
ghost use Rattle.csi2.specs.Writers.{no_room_number, short_reply};

use crate::header;
use refusals::Refusal;

// The frame synchronization packets.
#[derive(Clone, Copy)]
pub enum FrameSync {
    FrameStart,
    FrameEnd,
}

// A frame start or end that has no room.
#[derive(Clone, Copy)]
pub struct NoRoom;

impl Refusal for NoRoom {
    ghost number = { no_room_number };

    fn number(self) -> u8 {
        8
    }
}

// Whether a packet with that data identifier is short.
pub fn is_short(identifier: u8) -> bool
    ensures { result ≡ is_short identifier }
{
    identifier % 64 <= 0x0F
}

// The data identifier of a synchronization packet: the virtual channel of `identifier`, and the packet's type.
fn sync_identifier(identifier: u8, sync: FrameSync) -> u8
    ensures { result ≡ sync_identifier identifier sync }
{
    match sync {
        FrameSync::FrameStart => identifier / 64 * 64,
        FrameSync::FrameEnd => identifier / 64 * 64 + 1,
    }
}

// Writes a header from the place.
fn put_header_at(buf: &mut [u8], place: usize, identifier: u8, n: u16)
    requires { place + 4 ≤ length buf.old }
    ensures { buf.new ≡ written buf.old place (header_bytes identifier n) }
{
    header::put_header(&mut buf[place..], identifier, n);
}

// Writes a frame start or end with its number from the place, on the virtual channel of `identifier`; or refuses it
// and writes nothing. How many bytes were written.
pub fn write_short(
    identifier: u8,
    sync: FrameSync,
    number: u16,
    buf: &mut [u8],
    place: usize,
) -> Result<usize, NoRoom>
    ensures { Writes buf.old place
        (short_reply identifier sync number (length buf.old) place)
        (reply_by no_room_number result) buf.new }
{
    if !buffers::has_room(buf.len(), place, 4) {
        return Err(NoRoom);
    }
    put_header_at(buf, place, sync_identifier(identifier, sync), number);
    Ok(4)
}
