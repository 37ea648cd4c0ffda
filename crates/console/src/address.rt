// The hub's own address as it is typed, and words where it is not one.
use crate::say;
use crate::say::Command;
use crate::status::NotDone;
use calls::digit;
use refusals::Refusal;
use std::io::Print;

// The address as 3D or 0x3D.
pub fn of_word(word: &[u8]) -> Option<u8> {
    match word {
        [high, low] | [b'0', b'x', high, low] => {
            let high = digit::value(*high)?;
            let low = digit::value(*low)?;
            Some(high << 4 | low)
        }
        _ => None,
    }
}

// Says how an address is typed.
pub fn say_form(command: Command) -> NotDone {
    say::words(
        command,
        b"give the hub's address as two hex digits, as in 3D or 0x3D\n",
    );
    NotDone::Failed
}

// Says what range an address has; of one with 8 bits, as data sheets print them, what its 7 bits are.
fn say_range(command: Command, address: u8) {
    let range = "the hub's address has 7 bits and lies in 08 to 77";
    if 0x77 < address {
        let seven = address / 2;
        say::formatted(
            command,
            format_args!("{range}; of {address:02X} in 8 bits they are {seven:02X}\n"),
        );
    } else {
        say::formatted(command, format_args!("{range}\n"));
    }
}

// Says that no hub has the address, under the refusal's number.
pub fn refuse(rt: &impl Print, command: Command, address: u8, number: u8) -> NotDone {
    match say::refusal(rt, number.into()) {
        Ok(()) => {
            say_range(command, address);
            NotDone::Refused
        }
        Err(error) => say::output_unwritten(command, error),
    }
}

// The same, for a reason that has a number.
pub fn refused<E: Refusal>(rt: &impl Print, command: Command, address: u8, reason: E) -> NotDone {
    refuse(rt, command, address, reason.number())
}
