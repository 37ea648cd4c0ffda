// The whole object, with every finding: those at a write of one kind after the other, by one way through the file each.
use crate::facts::Facts;
use crate::found::Found;
use crate::reading::Reading;
use crate::stop::Stop;
use crate::walk::Task;
use object::{ended, findings};
use page::Pen;
use std::io::Result as Written;
use words::kinds::Kind;

// The findings of a kind at the writes are told; how many of the object's findings were.
#[derive(Drop)]
struct OfKind<'a> {
    pen: &'a mut Pen,
    count: &'a mut u64,
    kind: Kind,
}

impl OfKind<'_> {
    // One finding more, with the number of an earlier write, if there is one, and the ports that it concerns.
    fn tell(&mut self, found: &Found, earlier: Option<u64>, ports: u8) -> Written<()> {
        findings::at_write(self.pen, self.count, self.kind, earlier, found.write, ports)
    }

    // The number of the earlier write that a finding of the port has, if there is one.
    fn earlier(&self, found: &Found, port: u8) -> Option<u64> {
        match self.kind {
            Kind::Replaced => found.port(port).replaced,
            Kind::PortTwice => found.port(port).earlier,
            _ => None,
        }
    }
}

impl Task for OfKind<'_> {
    fn at_write(&mut self, found: &Found) -> Written<()> {
        for port in 0..4 {
            let earlier = self.earlier(found, port);
            if earlier.is_some() {
                self.tell(found, earlier, ports::mask_of_port(port))?;
            }
        }
        if found.is_found(self.kind) {
            self.tell(found, None, found.reached)?;
        }
        Ok(())
    }
}

pub(crate) fn print(pen: &mut Pen, reading: &Reading<'_>, facts: &Facts) -> Result<(), Stop> {
    let hub = reading.hub;
    let end = &facts.end;
    object::begin(pen, hub.address, hub.start, facts.writes, facts.any_order)?;
    object::routes::all(pen, end)?;
    object::addresses::all(pen, end)?;
    object::begin_findings(pen)?;
    let mut count = 0;
    of_kind(pen, &mut count, reading, Kind::Replaced)?;
    ended::same_channel(pen, &mut count, end)?;
    ended::same_address(pen, &mut count, end)?;
    of_kind(pen, &mut count, reading, Kind::NoPort)?;
    ended::not_set_up(pen, &mut count, end)?;
    for kind in [
        Kind::PortTwice,
        Kind::SharedInBlock,
        Kind::NotFollowed,
        Kind::BitsIgnored,
        Kind::NoChange,
        Kind::OddAlias,
    ] {
        of_kind(pen, &mut count, reading, kind)?;
    }
    ended::no_address(pen, &mut count, end)?;
    Ok(object::end(pen)?)
}

fn of_kind(pen: &mut Pen, count: &mut u64, reading: &Reading<'_>, kind: Kind) -> Result<(), Stop> {
    reading.go_through(&mut OfKind { pen, count, kind })
}
