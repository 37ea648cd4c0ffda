// What is found at a write, of every kind.
use checklist::meaning::Change;
use clashes::addresses;
use findings::{WritesSoFar, by_effect, on_order, replaced};
use ordering::inside::Extent;
use origins::NumberedWrite;
use origins::effects::Effect;
use registers::{PageAccess, RegisterFile, bits, map};
use words::kinds::Kind;

// Of a port: the origin of its register where that is replaced; the earlier selection where the port is ticked again;
// what its register held before; and where that is an alias whose address no device of the port hears any more, the
// origin of the alias.
#[derive(Clone, Copy)]
pub(crate) struct PortFound {
    pub replaced: Option<u64>,
    pub earlier: Option<u64>,
    pub old: u8,
    pub lost: Option<u64>,
}

// The write; the ports whose register it reaches; what is found of each port; and whether there is a finding of each
// other kind.
#[derive(Clone, Copy)]
pub(crate) struct Found {
    pub write: NumberedWrite,
    pub reached: u8,
    pub ports: [PortFound; 4],
    pub no_port: bool,
    pub shared_in_block: bool,
    pub not_followed: bool,
    pub bits_ignored: bool,
    pub no_change: bool,
    pub odd_alias: bool,
}

// A write that comes next: what is known before it, the hub's own address, and what the write does.
#[derive(Clone, Copy)]
struct Coming<'a> {
    known: &'a WritesSoFar,
    address: u8,
    write: NumberedWrite,
    effect: Effect,
}

impl Coming<'_> {
    // The origin of a port's register where it is replaced.
    fn replaced(&self, port: u8) -> Option<u64> {
        if !by_effect::changes_port(self.effect, port) {
            return None;
        }
        replaced::replaced(*self.known, self.write, port)
    }

    // What the register of a port holds before the write.
    fn old(&self, port: u8) -> u8 {
        registers::read(
            self.known.numbers.registers,
            PageAccess::Port(port),
            self.write.offset,
        )
    }

    // Whether a device of the port hears the address, on the hub with those registers.
    fn is_heard(&self, registers: RegisterFile, heard: u8, port: u8) -> bool {
        addresses::address_reaches(hub::hub_with(self.address, registers), heard, port)
    }

    // Whether the port hears an address before the write, and not after it.
    fn loses(&self, heard: u8, port: u8) -> bool {
        let before = self.known.numbers.registers;
        if !self.is_heard(before, heard, port) {
            return false;
        }
        let write = self.write;
        let after = registers::write(before, PageAccess::Selection, write.offset, write.value);
        !self.is_heard(after, heard, port)
    }

    // The origin of a port's alias, where the port heard its address and does not hear it after the write.
    fn lost(&self, port: u8) -> Option<u64> {
        let offset = self.write.offset;
        if !by_effect::is_alias_register(offset) || !by_effect::changes_port(self.effect, port) {
            return None;
        }
        if !self.loses(self.old(port) / 2, port) {
            return None;
        }
        match origins::port_origin(self.known.numbers, port, offset) {
            0 => None,
            origin => Some(origin),
        }
    }

    fn on_port(&self, port: u8) -> PortFound {
        PortFound {
            replaced: self.replaced(port),
            earlier: on_order::port_twice(*self.known, self.write, port),
            old: self.old(port),
            lost: self.lost(port),
        }
    }
}

// What is found at the write that comes next, on a hub with that address.
pub(crate) fn at(known: &WritesSoFar, address: u8, whole: Extent, write: NumberedWrite) -> Found {
    let effect = by_effect::effect_now(*known, write);
    let coming = Coming {
        known,
        address,
        write,
        effect,
    };
    Found {
        write,
        reached: by_effect::reached_by(effect),
        ports: [0, 1, 2, 3].map(|port| coming.on_port(port)),
        no_port: by_effect::is_no_port(effect),
        shared_in_block: on_order::shared_in_block(*known, whole, write.offset),
        not_followed: by_effect::is_not_followed(effect),
        bits_ignored: by_effect::ignores_by(effect),
        no_change: by_effect::keeps_all_by(effect),
        odd_alias: by_effect::odd_alias_by(effect, write),
    }
}

impl Found {
    // Whether there is a finding of the kind, of the kinds that need no other number than the write's own.
    pub(crate) fn is_found(&self, kind: Kind) -> bool {
        match kind {
            Kind::NoPort => self.no_port,
            Kind::SharedInBlock => self.shared_in_block,
            Kind::NotFollowed => self.not_followed,
            Kind::BitsIgnored => self.bits_ignored,
            Kind::NoChange => self.no_change,
            Kind::OddAlias => self.odd_alias,
            _ => false,
        }
    }

    pub(crate) fn is_selection(&self) -> bool {
        self.write.offset as usize == map::FPD3_PORT_SEL
    }

    pub(crate) fn port(&self, port: u8) -> PortFound {
        self.ports[(port % 4) as usize]
    }

    // What the register of a port holds before the write and after it.
    pub(crate) fn change(&self, port: u8) -> Change {
        let NumberedWrite { offset, value, .. } = self.write;
        let old = self.port(port).old;
        let new = bits::masked_write(map::write_mask(offset), old, value);
        Change { offset, old, new }
    }
}
