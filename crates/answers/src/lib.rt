// What the records of a trace are answered, and whether that is a refusal.
#![tactic(auto)]

ghost use Rattle.std.specs.Prelude.{◌≡◌};
ghost use Rattle.laws.specs.Reply.{is_refused};
ghost use Rattle.answers.specs.Answers.{no_record_number, answer_reply};

use frames::{EventRefusal, Sent};
use hub::AddressOutOfRange;
use refusals::Refusal;
use translation::{Addressed, Devices, PortDevice, ReadRefusal, WriteRefusal};

// The bytes are no whole record of a trace.
#[derive(Clone, Copy)]
pub struct NoRecord;

impl Refusal for NoRecord {
    ghost number = { no_record_number };

    fn number(self) -> u8 {
        13
    }
}

// The four bytes of a packet header.
#[derive(Clone, Copy)]
pub struct Header {
    pub data_identifier: u8,
    pub word_count_low: u8,
    pub word_count_high: u8,
    pub check_byte: u8,
}

// The frame events.
#[derive(Clone, Copy)]
pub enum EventKind {
    Start,
    PixelLine,
    End,
}

// What a record was answered; a frame event with the header of its packet, where one was sent.
#[derive(Clone, Copy)]
pub enum RecordAnswer {
    NoRecord,
    Hub {
        address: u8,
        answer: Result<(), AddressOutOfRange>,
    },
    Write {
        offset: u8,
        count: u64,
    },
    Read {
        offset: u8,
        value: u8,
    },
    WriteQuestion {
        address: u8,
        answer: Result<Addressed<Devices>, WriteRefusal>,
    },
    ReadQuestion {
        address: u8,
        answer: Result<Addressed<PortDevice>, ReadRefusal>,
    },
    FrameEvent {
        event: EventKind,
        port: u8,
        answer: Result<Option<Sent>, EventRefusal>,
        header: Header,
    },
}

// Whether the record was refused.
pub fn is_refused(reply: RecordAnswer) -> bool
    ensures { result ≡ is_refused (answer_reply reply) }
{
    match reply {
        RecordAnswer::NoRecord => true,
        RecordAnswer::Hub { answer, .. } => answer.is_err(),
        RecordAnswer::Write { .. } | RecordAnswer::Read { .. } => false,
        RecordAnswer::WriteQuestion { answer, .. } => answer.is_err(),
        RecordAnswer::ReadQuestion { answer, .. } => answer.is_err(),
        RecordAnswer::FrameEvent { answer, .. } => answer.is_err(),
    }
}
