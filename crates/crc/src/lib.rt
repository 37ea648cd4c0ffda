// The checksum (CRC) of a CSI-2 payload, sixteen bytes a step, and 256 where it is long. It needs no table: the
// polynomial has four terms, so many shifts of the register at once are a few shifts and sums of whole words. (A
// constant array that is read at places which the compiler cannot tell is stored anew by each call.)
#![tactic(auto)]

ghost use Rattle.std.specs.Prelude.{◌≡◌, ℕ, ◌+◌, ◌≤◌, ◌<◌, length, take, drop};
ghost use Rattle.crc.specs.Checksum.{crc_from, crc_of};
ghost use Rattle.crc.specs.WideRegister.{shifts, Holds, after_word, after_window, after_words, StandFor, SumOfFirst};

// Four words that stand for the bytes so far: the register after those bytes is the one after these words, from 0.
#[derive(Clone, Copy)]
struct Window {
    first: u64,
    second: u64,
    third: u64,
    fourth: u64,
}

// A window that stands for the bytes before `at`.
#[derive(Clone, Copy)]
struct Opened {
    window: Window,
    at: usize,
}

// The running checksum of the bytes before `at`.
#[derive(Clone, Copy)]
struct Progress {
    sum: u16,
    at: usize,
}

// What 64 shifts make of a register of 64 bits. The polynomial, low bit first, is 1 + s, with bits 4, 11 and 16 in s.
// The first four lines divide by it: times 1 + s, 1 + s^2, 1 + s^4 and 1 + s^8. The last is what the quotient times s
// has above 64 bits.
fn shifted(register: u64) -> u16
    ensures { result ≡ shifts 64 register }
{
    let a = register ^ (register << 4) ^ (register << 11) ^ (register << 16);
    let b = a ^ (a << 8) ^ (a << 22) ^ (a << 32);
    let c = b ^ (b << 16) ^ (b << 44);
    let quotient = c ^ (c << 32);
    (((quotient >> 60) ^ (quotient >> 53) ^ (quotient >> 48)) % 65536) as u16
}

// The register after a word.
fn after_word(register: u16, x: u64) -> u16
    ensures { result ≡ after_word register x }
{
    shifted((register as u64) ^ x)
}

// The n bytes from `at` on as a number, low byte first.
fn word(bytes: &[u8], at: usize, n: usize) -> u64
    requires { (at + n ≤ length bytes.now) × (n ≤ 8) }
    ensures { Holds bytes.now at n result }
{
    let mut x: u64 = 0;
    for i in (0..n).rev() {
        x = (x << 8) ^ (bytes[at + i] as u64);
    }
    x
}

// The eight bytes from `at` on as a number, low byte first: so written, LLVM reads many such words at once.
fn wide_word(bytes: &[u8], at: usize) -> u64
    requires { at + 8 ≤ length bytes.now }
    ensures { Holds bytes.now at 8 result }
{
    let mut x: u64 = 0;
    for i in 0..8 {
        x ^= (bytes[at + i] as u64) << (8 * i);
    }
    x
}

// The window after one word more: the polynomial to the power 16 has bits 0, 64, 176 and 256, so the first word leaves
// the window where it is added again 64, 176 and 256 bits later.
fn slide(window: Window, next: u64) -> Window
    ensures { after_window result ≡ after_word (after_window window) next }
{
    Window {
        first: window.second ^ window.first,
        second: window.third ^ (window.first << 48),
        third: window.fourth ^ (window.first >> 16),
        fourth: next ^ window.first,
    }
}

// The register that a window stands for.
fn settle(window: Window) -> u16
    ensures { result ≡ after_window window }
{
    let one = shifted(window.first);
    let two = after_word(one, window.second);
    let three = after_word(two, window.third);
    after_word(three, window.fourth)
}

// A wide window of the first 256 bytes: 32 words that stand for the bytes so far, and room for 32 more.
fn wide_window(crc: u16, bytes: &[u8]) -> [u64; 64]
    requires { 256 ≤ length bytes.now }
    ensures { StandFor crc bytes.now 256 result }
{
    let mut window = [0u64; 64];
    for i in 0..32 {
        window[i] = wide_word(bytes, 8 * i);
    }
    window[0] ^= crc as u64;
    window
}

// The 256 bytes from `at` on are put after a wide window, whose words leave it one by one: the polynomial to the power
// 128 has bits 0, 512, 1408 and 2048, so a word may leave where it is added again 8, 22 and 32 words later. Sums alone:
// LLVM makes vectors of them.
fn slide_wide(window: &mut [u64], bytes: &[u8], at: usize)
    requires { (length window.old ≡ 64) × (at + 256 ≤ length bytes.now) }
    ensures { (crc : ℕ) → StandFor crc bytes.now at window.old
        → StandFor crc bytes.now (at + 256) (drop 32 window.new) }
{
    for i in 0..32 {
        window[i + 32] = wide_word(bytes, at + 8 * i);
        let leaving = window[i];
        window[i + 8] ^= leaving;
        window[i + 22] ^= leaving;
        window[i + 32] ^= leaving;
    }
}

// The upper half becomes the lower half, where a wide window starts.
fn move_down(window: &mut [u64])
    requires { length window.old ≡ 64 }
    ensures { take 32 window.new ≡ take 32 (drop 32 window.old) }
{
    window.copy_within(32..64, 0);
}

// Four words that stand for what a wide window does.
fn narrow(window: &[u64]) -> Window
    requires { length window.now ≡ 64 }
    ensures { after_window result ≡ after_words 0 (take 32 window.now) }
{
    let mut short = Window {
        first: window[0],
        second: window[1],
        third: window[2],
        fourth: window[3],
    };
    for i in 4..32 {
        short = slide(short, window[i]);
    }
    short
}

// A window of the first bytes of a long payload: as many times 256 as there are.
fn open_wide(crc: u16, bytes: &[u8]) -> Opened
    requires { 256 ≤ length bytes.now }
    ensures { SumOfFirst crc bytes.now result.at (after_window result.window) }
{
    let mut window = wide_window(crc, bytes);
    // A `while`, since the place where it ends is answered; a `for` would work it out once more.
    let mut i = 256;
    while 256 <= bytes.len() - i {
        slide_wide(&mut window, bytes, i);
        move_down(&mut window);
        i += 256;
    }
    Opened {
        window: narrow(&window),
        at: i,
    }
}

// A window of the first bytes: below 1,024 of them a wide window would cost more than it saves.
fn open(crc: u16, bytes: &[u8]) -> Opened
    requires { 32 ≤ length bytes.now }
    ensures { SumOfFirst crc bytes.now result.at (after_window result.window) }
{
    if 1024 <= bytes.len() {
        return open_wide(crc, bytes);
    }
    let window = Window {
        first: (crc as u64) ^ word(bytes, 0, 8),
        second: word(bytes, 8, 8),
        third: word(bytes, 16, 8),
        fourth: word(bytes, 24, 8),
    };
    Opened { window, at: 32 }
}

// The running checksum `crc` after as many of the next bytes as a window and sixteens hold; after none where there are
// fewer than 32.
fn feed_blocks(crc: u16, bytes: &[u8]) -> Progress
    ensures { SumOfFirst crc bytes.now result.at result.sum }
{
    if bytes.len() < 32 {
        return Progress { sum: crc, at: 0 };
    }
    let opened = open(crc, bytes);
    let mut window = opened.window;
    // A `while`, since the place where it ends is answered; a `for` would work it out once more.
    let mut i = opened.at;
    while 16 <= bytes.len() - i {
        let low = word(bytes, i, 8);
        let high = word(bytes, i + 8, 8);
        window = slide(slide(window, low), high);
        i += 16;
    }
    Progress {
        sum: settle(window),
        at: i,
    }
}

// The running checksum `crc` after the next bytes, fewer than eight, which are moved by the top bits of a word.
fn feed_rest(crc: u16, bytes: &[u8]) -> u16
    requires { length bytes.now < 8 }
    ensures { result ≡ crc_from crc bytes.now }
{
    let n = bytes.len();
    if n == 0 {
        return crc;
    }
    let x = (crc as u64) ^ word(bytes, 0, n);
    shifted(x << (64 - 8 * n)) ^ (((crc as u64) >> (8 * n)) as u16)
}

// The running checksum `crc` after the next bytes, eight a step.
fn feed_words(crc: u16, bytes: &[u8]) -> u16
    ensures { result ≡ crc_from crc bytes.now }
{
    let mut sum = crc;
    // A `while`, since the rest begins where it ends; a `for` would work that place out once more.
    let mut i = 0;
    while 8 <= bytes.len() - i {
        sum = after_word(sum, word(bytes, i, 8));
        i += 8;
    }
    feed_rest(sum, &bytes[i..])
}

// The running checksum `crc` after the next bytes.
pub fn feed(crc: u16, bytes: &[u8]) -> u16
    ensures { result ≡ crc_from crc bytes.now }
{
    let done = feed_blocks(crc, bytes);
    let at = done.at;
    feed_words(done.sum, &bytes[at..])
}

// The checksum of a payload.
pub fn checksum(payload: &[u8]) -> u16
    ensures { result ≡ crc_of payload.now }
{
    feed(0xFFFF, payload)
}
