// A way through the writes of the file, from its start to its end.
use crate::found::Found;
use crate::reading::Reading;
use crate::source::{HubStart, Next, Position};
use crate::stop::Stop;
use crate::{found, source};
use console::say;
use console::say::Command;
use console::status::NotDone;
use findings::WritesSoFar;
use origins::NumberedWrite;
use registers::power_up;
use std::io::{Error, Result as Written};

// So many writes pass between two signs of life.
const WRITES_OF_A_SIGN: u64 = 1048576;

// What is done on a way through the writes: at each one, with what is found at it, and after the last one.
pub(crate) trait Task {
    fn at_write(&mut self, found: &Found) -> Written<()>;

    fn at_end(&mut self) -> Written<()> {
        Ok(())
    }
}

// After some writes: where the file is read to, the hub, how many writes there were, and what is known after them; and
// why no more is told, once standard output could not be written. The file is gone through to its end all the same.
#[derive(Clone, Copy)]
pub(crate) struct Run {
    pub position: Position,
    pub hub: HubStart,
    pub writes: u64,
    pub known: WritesSoFar,
    unwritten: Option<Error>,
}

// A sign of life for each million of writes.
fn say_alive(command: Command, writes: u64) {
    if writes % WRITES_OF_A_SIGN == WRITES_OF_A_SIGN - 1 {
        say::words(command, b"still at work\n");
    }
}

impl Run {
    // Before the first write.
    fn new(reading: &Reading<'_>) -> Run {
        let hub = reading.hub;
        Run {
            position: source::begin(reading.file.source),
            hub,
            writes: 0,
            known: findings::start(power_up::registers_at(hub.start)),
            unwritten: None,
        }
    }

    // The hub is another one, as it starts.
    fn start_hub(&mut self, hub: HubStart) {
        self.hub = hub;
        self.known = findings::start(power_up::registers_at(hub.start));
    }

    // One write more.
    fn take_write<T: Task>(&mut self, reading: &Reading<'_>, task: &mut T, write: NumberedWrite) {
        say_alive(reading.command, self.writes);
        if self.unwritten.is_none() {
            let found = found::at(&self.known, self.hub.address, reading.whole, write);
            self.unwritten = task.at_write(&found).err();
        }
        self.known = findings::step(self.known, write);
        self.writes = self.writes.wrapping_add(1);
    }

    // The writes of one number, at successive offsets.
    fn take_burst<T: Task>(
        &mut self,
        reading: &Reading<'_>,
        task: &mut T,
        number: u64,
        first: u8,
        values: &[u8],
    ) {
        let mut offset = first;
        for value in values {
            let write = NumberedWrite {
                number,
                offset,
                value: *value,
            };
            self.take_write(reading, task, write);
            offset = offset.wrapping_add(1);
        }
    }

    // Reads on, and takes what came; whether nothing is left.
    fn take_turn<T: Task>(
        &mut self,
        reading: &Reading<'_>,
        task: &mut T,
        buffer: &mut [u8],
        values: &mut [u8],
    ) -> Result<bool, NotDone> {
        let turn = source::turn(reading.input(), self.position, buffer, values)?;
        self.position = turn.position;
        match turn.next {
            None => {}
            Some(Next::Hub(hub)) => self.start_hub(hub),
            Some(Next::Write(write)) => self.take_write(reading, task, write),
            Some(
                Next::Burst {
                    number,
                    offset,
                    count,
                },
            ) => {
                let end = count.min(values.len());
                self.take_burst(reading, task, number, offset, &values[..end]);
            }
        }
        Ok(turn.done)
    }

    // After the last write.
    fn end<T: Task>(self, task: &mut T) -> Result<Run, Stop> {
        if let Some(error) = self.unwritten {
            return Err(error.into());
        }
        task.at_end()?;
        Ok(self)
    }
}

// Goes through the file from its start. The turns are counted, to a number that no file uses up.
pub(crate) fn through<T: Task>(
    reading: &Reading<'_>,
    task: &mut T,
    buffer: &mut [u8],
) -> Result<Run, Stop> {
    reading.rewind()?;
    let mut values = io::buffer();
    let mut run = Run::new(reading);
    for _ in 0..u64::MAX {
        if run.take_turn(reading, task, buffer, &mut values)? {
            return run.end(task);
        }
    }
    Err(Stop::Said(NotDone::Failed))
}
