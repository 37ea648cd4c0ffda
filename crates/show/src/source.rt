// The register writes of a script or a trace, one after another, from an open file.
use console::input;
use console::input::Input;
use console::status::NotDone;
use origins::NumberedWrite;
use registers::power_up::PowerUp;
use scriptlines::ScriptFile;
use tracewrites::{NextRecord, TraceFile};
use words::Source;

// How far the script or the trace is read.
#[derive(Clone, Copy)]
pub(crate) enum Position {
    Script(ScriptFile),
    Trace(TraceFile),
}

// A hub's own address, and how it starts.
#[derive(Clone, Copy)]
pub(crate) struct HubStart {
    pub address: u8,
    pub start: PowerUp,
}

// What comes next: the hub; a write; or so many writes with one number, at successive offsets. Their values are lent;
// the count stands beside them, as a turn of tracewrites promises it.
#[derive(Clone, Copy)]
pub(crate) enum Next {
    Hub(HubStart),
    Write(NumberedWrite),
    Burst {
        number: u64,
        offset: u8,
        count: usize,
    },
}

// Where the file is read to after a turn, what came, and whether nothing is left.
#[derive(Clone, Copy)]
pub(crate) struct SourceTurn {
    pub position: Position,
    pub next: Option<Next>,
    pub done: bool,
}

// Before a byte of the file is read.
pub(crate) fn begin(source: Source) -> Position {
    match source {
        Source::Script => Position::Script(scriptlines::new_file()),
        Source::Trace => Position::Trace(tracewrites::new_file()),
    }
}

fn script_turn(file: ScriptFile, got: usize, buffer: &mut [u8]) -> SourceTurn {
    let turn = scriptwrites::turn(file, got, buffer);
    SourceTurn {
        position: Position::Script(turn.file),
        next: turn.write.map(Next::Write),
        done: turn.done,
    }
}

// What a record comes to, if it is the hub's or writes registers.
fn from_record(record: NextRecord) -> Option<Next> {
    match record {
        NextRecord::Hub { address, start } => Some(Next::Hub(HubStart { address, start })),
        NextRecord::Write {
            number,
            offset,
            count,
        } => Some(Next::Burst {
            number,
            offset,
            count,
        }),
        NextRecord::Other => None,
    }
}

// The next record of a trace; the values of a write are lent.
fn trace_turn(file: TraceFile, got: usize, buffer: &mut [u8], values: &mut [u8]) -> SourceTurn {
    let turn = tracewrites::turn(file, got, buffer, values);
    SourceTurn {
        position: Position::Trace(turn.file),
        next: turn.next.and_then(from_record),
        done: turn.done,
    }
}

// Reads on.
pub(crate) fn turn(
    input: Input<'_>,
    position: Position,
    buffer: &mut [u8],
    values: &mut [u8],
) -> Result<SourceTurn, NotDone> {
    match position {
        Position::Script(file) => {
            let got = input::read_on(input, file.window, buffer)?;
            Ok(script_turn(file, got, buffer))
        }
        Position::Trace(file) => {
            let got = input::read_on(input, file.window, buffer)?;
            Ok(trace_turn(file, got, buffer, values))
        }
    }
}
