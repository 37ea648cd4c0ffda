// Lent buffers: whether bytes have room from a place on, bytes put there, and bytes read.
#![tactic(auto)]

ghost use Rattle.std.specs.Prelude.{◌≡◌, [], ◌∷◌, ◌+◌, ◌*◌, get_or, drop};
ghost use Rattle.laws.specs.Buffers.{has_room};
ghost use Rattle.buffers.specs.Putting.{Puts};

pub mod text;

// Whether `needed` bytes from the place on are inside a buffer of that size.
pub fn has_room(size: usize, place: usize, needed: usize) -> bool
    ensures { result ≡ has_room size place needed }
{
    needed <= size && place <= size - needed
}

// The same for `count` pieces of `each` bytes: their product may be too large for the machine.
pub fn has_room_for(size: usize, place: usize, count: usize, each: usize) -> bool
    ensures { result ≡ has_room size place (each * count) }
{
    if size < place {
        return false;
    }
    if each == 0 {
        return true;
    }
    count <= (size - place) / each
}

// The byte at a place, and 0 past the end.
pub fn byte_at(bytes: &[u8], place: usize) -> u8
    ensures { result ≡ get_or bytes.now place 0 }
{
    bytes.get(place).copied().unwrap_or(0)
}

// The bytes from a place on, as a part of them; past the end there are none.
pub fn bytes_from(bytes: &[u8], place: usize) -> &[u8]
    ensures { result.now ≡ drop place bytes.now }
{
    if place <= bytes.len() {
        return &bytes[place..];
    }
    &bytes[..0]
}

// Two bytes as one number, the first lowest.
pub fn two_bytes(low: u8, high: u8) -> u16
    ensures { result ≡ low + 256 * high }
{
    u16::from_le_bytes([low, high])
}

// Puts a byte at the place, if it has room, and answers the next free place. (A buffer and a place, no cursor with
// both: docs/DECISIONS.md, 8.)
pub fn put_byte(out: &mut [u8], at: usize, byte: u8) -> usize
    ensures { Puts out.old at (byte ∷ []) out.new result }
{
    if at < out.len() {
        out[at] = byte;
        return at + 1;
    }
    at
}

// Puts bytes from the place on, as many as have room, and answers the next free place.
pub fn put_bytes(out: &mut [u8], at: usize, bytes: &[u8]) -> usize
    ensures { Puts out.old at bytes.now out.new result }
{
    let mut next = at;
    for byte in bytes {
        next = put_byte(out, next, *byte);
    }
    next
}
