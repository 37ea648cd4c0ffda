// The run through a file: bytes are read into a buffer, a turn plays them, and its text is written.
ghost use Rattle.std.specs.Prelude.{◌≡◌, ◌≤◌, length, take, replicate};
ghost use Rattle.printing.specs.PrintedLines.{printed_counts};
ghost use Rattle.trace.specs.Framing.{longest_record};
ghost use Rattle.playback.specs.Playing.{packet_room};
ghost use Rattle.playback.specs.Windows.{text_room};

use console::input::Input;
use console::say::Command;
use console::status::NotDone;
use console::{input, say};
use playback::Session;

// More bytes than the last line has.
const COUNTS_ROOM: usize = 64;

// The first byte of every record.
const RECORD_MARK: u8 = 0x9A;

// Writes the text, or says that it cannot be written.
fn write_out(rt: &impl Print, command: Command, text: &[u8]) -> Result<(), NotDone> {
    rt.write_all(text).map_err(|error| say::unwritten(command, b"cannot write the output", error))
}

// Puts the last line at the start of the text, whole, and answers its end.
fn put_counts(session: Session, text: &mut [u8]) -> usize
    requires { 64 ≤ length text.old }
    ensures upper_bound { result ≤ length text.new }
    ensures text_after { take result text.new ≡ printed_counts session.records session.refusals }
{
    printing::put_printed_counts(session.records, session.refusals, text, 0)
}

// Writes the last line.
fn write_counts(rt: &impl Print, command: Command, session: Session) -> Result<(), NotDone> {
    let mut text = [0u8; COUNTS_ROOM];
    let end = put_counts(session, &mut text);
    write_out(rt, command, &text[..end])
}

// Reads, plays a turn and writes its text until nothing is left to play, then the last line. A proved loop has to end,
// and nothing says that a file does: no file has as many turns as this one (`HoweverCut` in `turns` says how many a
// file takes; the rest of what it asks is required here).
fn play_all(
    rt: &impl Print,
    from: Input<'_>,
    buffer: &mut [u8],
    packets: &mut [u8],
    out: &mut [u8],
) -> Result<Session, NotDone>
    requires longest_record_in_bounds { longest_record ≤ length buffer.old }
    requires packets_value { packets.old ≡ replicate packet_room 0 }
    requires text_room_in_bounds { text_room ≤ length out.old }
{
    let mut run = turns::new_run();
    for _ in 0..u64::MAX {
        let got = input::read_on(from, run.window, buffer)?;
        let turn = turns::turn(run, got, buffer, packets, out);
        write_out(rt, from.command, &out[..turn.end])?;
        run = turn.run;
        if turn.done {
            write_counts(rt, from.command, run.session)?;
            return Ok(run.session);
        }
    }
    Err(NotDone::Failed)
}

// The buffer that is lent for packets.
fn packet_buffer() -> [u8; 6150]
    ensures value { result ≡ replicate packet_room 0 }
    ensures value_2 { 6150 ≡ length result }
{
    [0; 6150]
}

// Says why the run ended at its last record, and what to do with a file that is no trace.
fn say_ended(command: Command, session: Session, first: u8) {
    if session.records == 1 && first != RECORD_MARK {
        say::words(
            command,
            b"this file is no trace; a script is run with: ./loopcinder run ADDRESS SCRIPT\n",
        );
        return;
    }
    let record = session.records;
    say::formatted(
        command,
        format_args!(
            "the run ended at record {record}: it is cut short, not one that a trace has there, or gives an address that no hub has\n"
        ),
    );
}

// How the run ended: done only where the file was played to its end.
fn ending(command: Command, session: Session, first: u8) -> Result<(), NotDone> {
    if session.ended {
        say_ended(command, session, first);
        return Err(NotDone::Refused);
    }
    if session.records == 0 {
        say::words(command, b"note: the trace is empty\n");
    }
    Ok(())
}

// Plays the open file.
pub(crate) fn play_file(rt: &impl Print, from: Input<'_>) -> Result<(), NotDone> {
    let mut buffer = io::large_buffer();
    let mut out = io::large_buffer();
    let mut packets = packet_buffer();
    let session = play_all(rt, from, &mut buffer, &mut packets, &mut out)?;
    ending(from.command, session, buffer[0])
}
