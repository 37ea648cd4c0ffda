// A line of an installer's script: blank, one call, or of another shape.
#![tactic(auto)]

ghost use Rattle.std.specs.Prelude.{◌≡◌};
ghost use Rattle.calls.specs.ScriptLines.{call_read, script_line_read, calls_of};
ghost use Rattle.calls.specs.PrivateContracts.{call_found};

pub mod digit;
mod scan;

// A call: the offset that it writes to, and the value.
#[derive(Clone, Copy)]
pub struct Call {
    pub offset: u8,
    pub value: u8,
}

// A line that is neither blank nor a call.
#[derive(Clone, Copy)]
pub struct OtherShape;

// One call.
fn read_call(line: &[u8]) -> Option<Call>
    ensures { call_found result ≡ call_read line.now }
{
    let word = scan::expect(line, 0, b"WriteI2C")?;
    let opening = scan::expect(line, word, b"(")?;
    let offset = scan::read_value(line, opening)?;
    let comma = scan::expect(line, offset.next, b",")?;
    let value = scan::read_value(line, comma)?;
    let closing = scan::expect(line, value.next, b")")?;
    if !scan::ends(line, closing) {
        return None;
    }
    Some(Call {
        offset: offset.value,
        value: value.value,
    })
}

// The call of a line; a blank line has none.
pub fn read_script_line(line: &[u8]) -> Result<Option<Call>, OtherShape>
    ensures { calls_of result ≡ script_line_read line.now }
{
    if scan::ends(line, 0) {
        return Ok(None);
    }
    let call = read_call(line).ok_or(OtherShape)?;
    Ok(Some(call))
}
