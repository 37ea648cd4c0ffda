// Installers' scripts: the text that they type, turned into a trace.
#![tactic(auto)]

ghost use Rattle.std.specs.Prelude.{◌≡◌, length};
ghost use Rattle.laws.specs.Buffers.{Writes};
ghost use Rattle.script.specs.declared.LineRefusal.{LineRefusal};
ghost use Rattle.script.specs.declared.ScriptRefusal.{ScriptRefusal};
ghost use Rattle.script.specs.Refusals.{line_refusal_number, script_refusal_number};
ghost use Rattle.script.specs.Reading.{script_calls, trace_if_room, script_trace, trace_answer_reply};

use calls::OtherShape;
use records::WRITE_RECORD;
use refusals::Refusal;
use registers::power_up::PowerUp;

pub mod records;
pub mod text;

// Why a line is refused.
#[derive(Clone, Copy)]
pub enum LineRefusal {
    TooLong,
    OtherShape,
}

impl Refusal for LineRefusal {
    ghost number = { line_refusal_number };

    fn number(self) -> u8 {
        match self {
            LineRefusal::TooLong => 15,
            LineRefusal::OtherShape => 14,
        }
    }
}

impl From<OtherShape> for LineRefusal {
    ghost from_gives = { λ shape refusal. refusal ≡ LineRefusal.OtherShape };

    fn from(_: OtherShape) -> LineRefusal {
        LineRefusal::OtherShape
    }
}

// The number of the first line of a text that is refused, and why it is.
#[derive(Clone, Copy)]
pub struct RefusedLine {
    pub line: usize,
    pub refusal: LineRefusal,
}

// Why there is no trace.
#[derive(Clone, Copy)]
pub enum ScriptRefusal {
    AddressOutOfRange,
    Line(RefusedLine),
    NoRoom,
}

impl Refusal for ScriptRefusal {
    ghost number = { script_refusal_number };

    fn number(self) -> u8 {
        match self {
            ScriptRefusal::AddressOutOfRange => 2,
            ScriptRefusal::Line(refused) => refused.refusal.number(),
            ScriptRefusal::NoRoom => 8,
        }
    }
}

impl From<RefusedLine> for ScriptRefusal {
    ghost from_gives = { λ line refusal. refusal ≡ ScriptRefusal.Line line };

    fn from(line: RefusedLine) -> ScriptRefusal {
        ScriptRefusal::Line(line)
    }
}

// Puts the trace of a text at the start of the buffer; the address was tested before.
fn read_text(
    address: u8,
    start: PowerUp,
    text: &[u8],
    out: &mut [u8],
) -> Result<usize, ScriptRefusal>
    ensures { Writes out.old 0
        (trace_if_room address start (length out.old) (script_calls text.now))
        (trace_answer_reply result) out.new }
{
    let count = text::count_calls(text)?;
    if !buffers::has_room_for(out.len(), records::hub_length(start), count, WRITE_RECORD) {
        return Err(ScriptRefusal::NoRoom);
    }
    Ok(records::put_trace(out, address, start, text))
}

// Puts the trace of a text at the start of the buffer, the hub's address and start given, and answers its length; or
// refuses it and writes nothing.
pub fn to_trace(
    address: u8,
    start: PowerUp,
    text: &[u8],
    out: &mut [u8],
) -> Result<usize, ScriptRefusal>
    ensures { Writes out.old 0
        (script_trace address start text.now (length out.old))
        (trace_answer_reply result) out.new }
{
    if !hub::is_hub_address(address) {
        return Err(ScriptRefusal::AddressOutOfRange);
    }
    read_text(address, start, text, out)
}
