// A file of any size, read window by window: what the window holds, and how its bytes make way for the next ones. No
// input and no output.
#![tactic(auto)]

ghost use Rattle.std.specs.Prelude.{◌≡◌, ◌≤◌, ◌-◌, length, take, drop};
ghost use Rattle.laws.specs.Buffers.{written};
ghost use Rattle.streams.specs.Streams.{new_window, wants_bytes, file_ended, after_read, nothing_left};

// So many bytes at the start of a buffer were read and not used; `last` where the file ends with them.
#[derive(Clone, Copy)]
pub struct Window {
    pub held: usize,
    pub last: bool,
}

// The window before a byte of the file is read.
pub fn new_window() -> Window
    ensures { result ≡ new_window }
{
    Window {
        held: 0,
        last: false,
    }
}

// Whether bytes of the file are to be read into the buffer, whose size is given, after those that the window holds.
pub fn wants_bytes(window: Window, size: usize) -> bool
    ensures { result ≡ wants_bytes window size }
{
    !window.last && window.held < size
}

// Whether the file has ended: it had, or bytes were wanted and none were got.
fn file_ended(last: bool, held: usize, size: usize, got: usize) -> bool
    ensures { result ≡ file_ended last held size got }
{
    last || (held < size && got == 0)
}

// The window after `got` bytes were read into the buffer after those that it held.
pub fn after_read(window: Window, got: usize, size: usize) -> Window
    ensures { (result ≡ after_read window got size) × (result.held ≤ size) }
{
    let held = window.held.min(size);
    let new = got.min(size - held);
    Window {
        held: held + new,
        last: file_ended(window.last, held, size, new),
    }
}

// Whether nothing is left to do: the work is over, or the file has ended and no byte of it is left.
pub fn nothing_left(over: bool, last: bool, left: usize) -> bool
    ensures { result ≡ nothing_left over last left }
{
    over || (last && left == 0)
}

// Moves the bytes between two places to the start, and answers how many they are.
#[tactic(auto, using(crate::proofs::Moves::moved_between))]
fn move_down(buffer: &mut [u8], from: usize, to: usize) -> usize
    requires from_le_to { from ≤ to }
    requires to_in_bounds { to ≤ length buffer.old }
    ensures { (result ≡ to - from)
        × (buffer.new ≡ written buffer.old 0 (drop from (take to buffer.old))) }
{
    buffer.copy_within(from..to, 0);
    to - from
}

// Moves what is left of the first `held` bytes, after the first `used` of them, to the start, and answers how many
// they are.
pub fn slide(buffer: &mut [u8], used: usize, held: usize) -> usize
    ensures { (result ≡ length (drop used (take held buffer.old)))
        × (buffer.new ≡ written buffer.old 0 (drop used (take held buffer.old))) }
{
    let to = held.min(buffer.len());
    let from = used.min(to);
    move_down(buffer, from, to)
}
