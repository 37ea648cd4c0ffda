// The register writes of an installer's script of any size, one a turn, each with the number of its line; with no input
// and no output: a program reads bytes into a buffer, a turn takes the lines there up to and with the next call, and
// the program does with its write what it likes.
#![tactic(auto)]

ghost use Rattle.std.specs.Prelude.{◌≡◌};
ghost use Rattle.scriptwrites.specs.ScriptWrites.{write_in, MakesWriteTurn};

use origins::NumberedWrite;
use script::records::WRITE_RECORD;
use scriptlines::ScriptFile;

// What a turn gives: the script after it, the write with the number of its line (from 1), if a call was found, and
// whether nothing is left to take (the last turn may give a write too).
#[derive(Clone, Copy)]
pub struct WriteTurn {
    pub file: ScriptFile,
    pub write: Option<NumberedWrite>,
    pub done: bool,
}

// The write in a record that ends at a place, none where the place is the start.
fn write_in(end: usize, number: u64, bytes: &[u8; WRITE_RECORD]) -> Option<NumberedWrite>
    ensures { result ≡ write_in end number bytes.now }
{
    if end == 0 {
        return None;
    }
    Some(NumberedWrite {
        number,
        offset: bytes[4],
        value: bytes[5],
    })
}

// One turn: `got` bytes of the file were read into the buffer after those that it held. Lines are taken up to and with
// the next call, and what is left of the bytes moves to the buffer's start.
pub fn turn(file: ScriptFile, got: usize, buffer: &mut [u8]) -> WriteTurn
    ensures { MakesWriteTurn file got buffer.old result buffer.new }
{
    let mut record = [0u8; WRITE_RECORD];
    let made = scriptlines::turn(file, got, buffer, &mut record);
    let after = made.file;
    let run = after.run;
    WriteTurn {
        file: after,
        write: write_in(made.end, run.lines, &record),
        done: made.done,
    }
}
