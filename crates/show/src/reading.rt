// The file that is told about, and what every way through its writes needs.
use crate::source::HubStart;
use crate::stop::Stop;
use crate::walk;
use crate::walk::Task;
use checklist::typed::File;
use console::input;
use console::input::Input;
use console::say::Command;
use console::status::NotDone;
use ordering::inside::Extent;

// The command, the file with its name, the hub, and the extent of all writes.
#[derive(Clone, Copy)]
pub(crate) struct Reading<'a> {
    pub command: Command,
    pub path: &'a [u8],
    pub file: File<'a>,
    pub hub: HubStart,
    pub whole: Extent,
}

impl<'a> Reading<'a> {
    // The file, as it is read piece by piece.
    pub(crate) fn input(&self) -> Input<'a> {
        Input {
            command: self.command,
            opened: self.file.opened,
            path: self.path,
        }
    }

    // Goes to the file's start.
    pub(crate) fn rewind(&self) -> Result<(), NotDone> {
        match self.file.opened.go_to(self.file.start) {
            Ok(_) => Ok(()),
            Err(error) => Err(input::say_unread(self.command, self.path, error)),
        }
    }

    // One more way through the writes, for a task.
    pub(crate) fn go_through<T: Task>(&self, task: &mut T) -> Result<(), Stop> {
        let mut buffer = io::large_buffer();
        walk::through(self, task, &mut buffer)?;
        Ok(())
    }
}
