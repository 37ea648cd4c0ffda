// How a program ended. It writes this to descriptor 3, where the front door reads it. A program that was killed or is
// damaged writes none, so nothing but this passes for success.
use std::process::ExitCode;

const STATUS_FILENO: i32 = 3;

// What a program ends with that writes where nobody reads: that of one which the system's signal for it ended.
const NOBODY_READS: u8 = 141;

// Why a program did not do its work, which it has said: the input was refused; the call was wrong or the surroundings
// failed; or nobody reads the output any more.
#[derive(Clone, Copy, PartialEq, Eq)]
pub enum NotDone {
    Refused,
    Failed,
    Unread,
}

// The program's last act, when every file that it opened is closed; what it ends with.
pub fn tell(ended: Result<(), NotDone>) -> ExitCode {
    let sign = match ended {
        Ok(()) => b"0",
        Err(NotDone::Refused) => b"1",
        Err(NotDone::Failed) => b"2",
        Err(NotDone::Unread) => return ExitCode::from(NOBODY_READS),
    };
    io::write_all(STATUS_FILENO, sign);
    ExitCode::SUCCESS
}
