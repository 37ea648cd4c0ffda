// Why no more is told.
use console::say;
use console::say::Command;
use console::status::NotDone;
use std::io::Error;

// The system's number for an error of which no more is known, as where a write takes no byte.
const EIO: i32 = 5;

// Standard output cannot be written, which is still to be said; or something else stopped the program, which was said.
#[derive(Drop)]
pub(crate) enum Stop {
    Unwritten(Error),
    Said(NotDone),
}

impl From<Error> for Stop {
    fn from(error: Error) -> Stop {
        Stop::Unwritten(Error::from_raw_os_error(error.raw_os_error().unwrap_or(EIO)))
    }
}

impl From<NotDone> for Stop {
    fn from(not_done: NotDone) -> Stop {
        Stop::Said(not_done)
    }
}

impl Stop {
    // Says what was not said yet.
    pub(crate) fn say(self, command: Command) -> NotDone {
        match self {
            Stop::Unwritten(error) => say::unwritten(command, b"cannot write the output", error),
            Stop::Said(not_done) => not_done,
        }
    }
}
