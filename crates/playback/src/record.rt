// One record of a trace, played on the hub.
ghost use Rattle.std.specs.Prelude.{◌≡◌, ℕ, List};
ghost use Rattle.trace.specs.Framing.{data_of};
ghost use Rattle.trace.specs.Records.{hub_record, write_record, read_record, write_question, read_question};
ghost use Rattle.trace.specs.Records.{found_reply};
ghost use Rattle.playback.specs.Playing.{play_asked, play_record};
ghost use Rattle.playback.specs.PrivateContracts.{played_of};

use crate::event;
use answers::RecordAnswer;
use hub::Hub;
use registers::power_up::PowerUp;
use trace::Record;

// The hub after a record, what the record was answered, and whether it ends the run.
#[derive(Clone, Copy)]
pub(crate) struct RecordPlayed {
    pub hub: Hub,
    pub answer: RecordAnswer,
    pub ends: bool,
}

// The next five touch no packet: whatever the lent packet buffer holds, they play as the definition says.
fn play_hub(hub: Hub, address: u8, start: PowerUp) -> RecordPlayed
    ensures { (packets : List ℕ) → played_of result packets ≡ play_asked hub packets (hub_record address start) }
{
    match hub::new(address, start) {
        Ok(made) => RecordPlayed {
            hub: made,
            answer: RecordAnswer::Hub {
                address,
                answer: Ok(()),
            },
            ends: false,
        },
        Err(not_created) => RecordPlayed {
            hub,
            answer: RecordAnswer::Hub {
                address,
                answer: Err(not_created.refusal),
            },
            ends: true,
        },
    }
}

fn play_write(hub: Hub, offset: u8, values: &[u8]) -> RecordPlayed
    ensures { (packets : List ℕ) →
        played_of result packets ≡ play_asked hub packets (write_record offset values.now) }
{
    RecordPlayed {
        hub: hub::burst(hub, offset, values),
        answer: RecordAnswer::Write {
            offset,
            count: values.len() as u64,
        },
        ends: false,
    }
}

fn play_read(hub: Hub, offset: u8) -> RecordPlayed
    ensures { (packets : List ℕ) → played_of result packets ≡ play_asked hub packets (read_record offset) }
{
    let value = hub::read(hub, offset);
    RecordPlayed {
        hub,
        answer: RecordAnswer::Read { offset, value },
        ends: false,
    }
}

fn play_write_question(hub: Hub, address: u8) -> RecordPlayed
    ensures { (packets : List ℕ) → played_of result packets ≡ play_asked hub packets (write_question address) }
{
    let answer = translation::who_hears_write(hub, address);
    RecordPlayed {
        hub,
        answer: RecordAnswer::WriteQuestion { address, answer },
        ends: false,
    }
}

fn play_read_question(hub: Hub, address: u8) -> RecordPlayed
    ensures { (packets : List ℕ) → played_of result packets ≡ play_asked hub packets (read_question address) }
{
    let answer = translation::who_answers_read(hub, address);
    RecordPlayed {
        hub,
        answer: RecordAnswer::ReadQuestion { address, answer },
        ends: false,
    }
}

// Plays what was found at the start of the bytes.
pub(crate) fn play_found(
    hub: Hub,
    bytes: &[u8],
    found: Option<Record>,
    packets: &mut [u8],
) -> RecordPlayed
    ensures { played_of result packets.new
        ≡ play_record hub packets.old (found_reply (data_of bytes.now) found) }
{
    let Some(record) = found else {
        return RecordPlayed {
            hub,
            answer: RecordAnswer::NoRecord,
            ends: true,
        };
    };
    match record {
        Record::Hub { address, start } => play_hub(hub, address, start),
        Record::Write { offset } => play_write(hub, offset, trace::values(bytes)),
        Record::Read { offset } => play_read(hub, offset),
        Record::WriteQuestion { address } => play_write_question(hub, address),
        Record::ReadQuestion { address } => play_read_question(hub, address),
        Record::Start { port, bits } => event::play_start(hub, port, bits, packets),
        Record::End { port } => event::play_end(hub, port, packets),
        Record::PixelLine { port, width, pixel } => {
            event::play_pixel_line(hub, port, width, pixel, packets)
        }
    }
}
