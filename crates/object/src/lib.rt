// The object that show and check print for other programs, one line of JSON, piece by piece; docs/SHOW.md describes it.
#![tactic(auto)]

use crate::fields::QuotedHex;
use page::Pen;
use registers::power_up::PowerUp;
use std::io;
use std::io::Write;

pub mod addresses;
pub mod ended;
mod fields;
pub mod findings;
mod grades;
pub mod routes;

// The object's first fields.
pub fn begin(
    pen: &mut Pen,
    hub: u8,
    start: PowerUp,
    writes: u64,
    any_order: bool,
) -> io::Result<()> {
    let started = match start {
        PowerUp::Boot => ",\"start\":\"board\"",
        PowerUp::Reset => ",\"start\":\"sheet\"",
    };
    write!(pen, "{{\"hub\":{}{started}", QuotedHex(hub))?;
    write!(pen, ",\"writes\":{writes},\"any_order\":{any_order}")
}

// Its last field begins: the findings.
pub fn begin_findings(pen: &mut Pen) -> io::Result<()> {
    write!(pen, ",\"findings\":[")
}

// The end of the findings and of the object.
pub fn end(pen: &mut Pen) -> io::Result<()> {
    writeln!(pen, "]}}")
}
