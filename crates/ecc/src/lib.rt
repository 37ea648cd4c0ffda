// The check byte (ECC) of a CSI-2 packet header, and the correction of one wrong bit.
#![tactic(auto)]

ghost use Rattle.std.specs.Prelude.{◌≡◌, ◌<◌, Some};
ghost use Rattle.laws.specs.Reply.{reply_by};
ghost use Rattle.laws.specs.Tables.{tabulate};
ghost use Rattle.ecc.specs.CheckBytes.{check_byte};
ghost use Rattle.ecc.specs.Columns.{data_column};
ghost use Rattle.ecc.specs.HeaderCorrection.{flipped, uncorrectable_number, correct_from, correction_of};
ghost use Rattle.ecc.specs.Syndrome.{syndrome_of};

use refusals::Refusal;

// The constant of each data bit, to be held beside the standard's table. Bit k of a constant is 1 where check bit Pk
// counts the data bit. docs/CHECK-BYTES.md has the table as a page.
const COLUMNS: [u8; 24] = [
    // D0 to D5: data type
    0x07, // D0
    0x0B, // D1
    0x0D, // D2
    0x0E, // D3
    0x13, // D4
    0x15, // D5
    // D6 and D7: virtual channel
    0x16, // D6
    0x19, // D7
    // D8 to D23: word count or frame number
    0x1A, // D8
    0x1C, // D9
    0x23, // D10
    0x25, // D11
    0x26, // D12
    0x29, // D13
    0x2A, // D14
    0x2C, // D15
    0x31, // D16
    0x32, // D17
    0x34, // D18
    0x38, // D19
    0x1F, // D20
    0x2F, // D21
    0x37, // D22
    0x3B, // D23
];

// The constants, with their rule.
fn column_table() -> [u8; 24]
    ensures { result ≡ tabulate data_column 24 }
{
    COLUMNS
}

// The check byte of a header whose three first bytes are `word`, the identifier lowest: the exclusive-or of the
// constants of the data bits that are 1. (A mask of the bit, and no `if`: with one the 24 steps would wait for each
// other.)
pub fn check_byte(word: u32) -> u8
    ensures { result ≡ check_byte word }
{
    let table = column_table();
    let mut check: u8 = 0;
    for i in 0..24 {
        let bit = ((word >> i) % 2) as u8;
        check ^= table[i] & (0xFF * bit);
    }
    check
}

// What a header is read as, its four bytes as one number, the identifier lowest; and which of its 32 bits was wrong, if
// one was: 0 is the lowest of the identifier, 31 the highest of the check byte.
#[derive(Clone, Copy)]
pub struct ReadHeader {
    pub header: u32,
    pub corrected: Option<u8>,
}

// A header from which every right one differs in more than one bit.
#[derive(Clone, Copy)]
pub struct Uncorrectable;

impl Refusal for Uncorrectable {
    ghost number = { uncorrectable_number };

    fn number(self) -> u8 {
        10
    }
}

// What a header is read as whose bit `bit` was wrong: the header with it flipped.
fn flip_bit(header: u32, bit: u8) -> ReadHeader
    requires { bit < 32 }
    ensures { result ≡ record { header = flipped header bit; corrected = Some bit } }
{
    ReadHeader {
        header: header ^ (1 << bit),
        corrected: Some(bit),
    }
}

// Corrects the check bit that makes the difference `syndrome`: the one that is the difference itself, if there is one.
fn correct_check_bit(header: u32, syndrome: u8) -> Result<ReadHeader, Uncorrectable>
    requires { syndrome ≡ syndrome_of header }
    ensures { reply_by uncorrectable_number result ≡ correct_from header 24 8 }
{
    for i in 24..32u8 {
        if 1 << (i - 24) == syndrome {
            return Ok(flip_bit(header, i));
        }
    }
    Err(Uncorrectable)
}

// Corrects the one bit that makes the difference `syndrome`: the data bit whose constant it is, or a check bit, if
// there is one.
fn correct_bit(header: u32, syndrome: u8) -> Result<ReadHeader, Uncorrectable>
    requires { syndrome ≡ syndrome_of header }
    ensures { reply_by uncorrectable_number result ≡ correct_from header 0 32 }
{
    let table = column_table();
    for i in 0..24 {
        if table[i] == syndrome {
            return Ok(flip_bit(header, i as u8));
        }
    }
    correct_check_bit(header, syndrome)
}

// Reads a header: as it stands if it is right, else as the right one that differs in one bit.
pub fn correct_header(header: u32) -> Result<ReadHeader, Uncorrectable>
    ensures { reply_by uncorrectable_number result ≡ correction_of header }
{
    let syndrome = check_byte(header % 0x1000000) ^ ((header / 0x1000000) as u8);
    if syndrome == 0 {
        return Ok(ReadHeader {
            header,
            corrected: None,
        });
    }
    correct_bit(header, syndrome)
}
