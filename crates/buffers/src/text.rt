// Numbers as text, put into a buffer from a place on as far as they have room; the answer is the next free place.
ghost use Rattle.std.specs.Prelude.{◌≡◌, cond, ◌+◌, ◌-◌, ◌%◌, ◌<◌, ◌≤◌, ltb};
ghost use Rattle.buffers.specs.Numerals.{hex_digit, hex_byte, lowercase_digit, decimal_from, decimal};
ghost use Rattle.buffers.specs.Putting.{Puts};

use crate::put_byte;

// A digit of hexadecimal, whose first letter is given; of a larger number the last one.
fn digit_with(first_letter: u8, digit: u8) -> u8
    requires low { 10 ≤ first_letter }
    requires high { first_letter < 128 }
    ensures { result ≡ cond (ltb (digit % 16) 10) (48 + digit % 16) (first_letter - 10 + digit % 16) }
{
    let last = digit % 16;
    if last < 10 {
        return b'0' + last;
    }
    first_letter - 10 + last
}

// A digit of hexadecimal, in capitals; of a larger number the last one.
#[tactic(auto, unfolding(crate::specs::Numerals::hex_digit))]
pub fn hex_digit(digit: u8) -> u8
    ensures { result ≡ hex_digit (digit % 16) }
{
    digit_with(b'A', digit)
}

// The same in small letters.
#[tactic(auto, unfolding(crate::specs::Numerals::lowercase_digit))]
pub fn lowercase_digit(digit: u8) -> u8
    ensures { result ≡ lowercase_digit (digit % 16) }
{
    digit_with(b'a', digit)
}

// A byte as two digits of hexadecimal, in capitals.
pub fn put_hex(out: &mut [u8], at: usize, byte: u8) -> usize
    ensures { Puts out.old at (hex_byte byte) out.new result }
{
    let second = put_byte(out, at, hex_digit(byte / 16));
    put_byte(out, second, hex_digit(byte))
}

// The decimal digits of `n`, its last `most` at most.
fn put_digits(out: &mut [u8], at: usize, n: u64, most: usize) -> usize
    ensures { Puts out.old at (decimal_from most n) out.new result }
{
    if most == 0 {
        return at;
    }
    let last = b'0' + ((n % 10) as u8);
    if n < 10 {
        return put_byte(out, at, last);
    }
    let next = put_digits(out, at, n / 10, most - 1);
    put_byte(out, next, last)
}

// A number in decimal.
pub fn put_decimal(out: &mut [u8], at: usize, n: u64) -> usize
    ensures { Puts out.old at (decimal n) out.new result }
{
    put_digits(out, at, n, 20)
}
