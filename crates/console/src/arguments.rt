// The words that the program was called with. A word is taken as its bytes, since names of files need not be text.
ghost use Rattle.std.specs.Prelude.{◌≤◌, length, IfOk};

use std::env::FillError;
use std::io::{Error, Result};
use std::rt::Env;

// The system's numbers for errors: there is no such word, and it is too long.
const EINVAL: i32 = 22;

const ENAMETOOLONG: i32 = 36;

// So many words are counted; no program takes as many.
const MOST_WORDS: usize = 8;

// A word, put at the start of the buffer.
pub fn word<'a>(rt: &impl Env, number: usize, buffer: &'a mut [u8]) -> Result<&'a [u8]>
    ensures { IfOk result (λ word. length word.now ≤ length buffer.old) }
{
    match rt.arg(number, buffer) {
        Ok(length) => Ok(&buffer[..length]),
        Err(FillError::NotPresent) => Err(Error::from_raw_os_error(EINVAL)),
        Err(FillError::TooLong) => Err(Error::from_raw_os_error(ENAMETOOLONG)),
    }
}

// The same; a word that is missing or too long is taken as an empty one.
pub fn word_or_empty<'a>(rt: &impl Env, number: usize, buffer: &'a mut [u8]) -> &'a [u8]
    ensures { length result.now ≤ length buffer.old }
{
    word(rt, number, buffer).unwrap_or(b"")
}

fn is_there(rt: &impl Env, number: usize) -> bool {
    let mut first = [0u8; 1];
    !matches!(rt.arg(number, &mut first), Err(FillError::NotPresent))
}

// How many words there are, the program's own name among them.
pub fn count(rt: &impl Env) -> usize {
    (0..MOST_WORDS)
        .take_while(|number| is_there(rt, *number))
        .count()
}
