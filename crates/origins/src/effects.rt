// What a register write does, under the page selection: which registers it reaches, and which of them it changes.
ghost use Rattle.std.specs.Prelude.{◌≡◌, ◌<◌, true, ◌≢◌};
ghost use Rattle.laws.specs.Bits.{bit};
ghost use Rattle.registers.specs.RegisterMap.{mask_of, per_port};
ghost use Rattle.ports.specs.PortMasks.{port_mask};
ghost use Rattle.origins.specs.Origins.{port_register};
ghost use Rattle.origins.specs.Effects.{differs, ignores_bits, ports_effect, shared_effect, effect_of};

use registers::{PageAccess, RegisterFile, bits, map};

// What a write did. Sets of ports are masks: bit p is port p. `bits_ignored`: the value has bits that are not writable.
#[derive(Clone, Copy)]
pub enum Effect {
    // Nothing: no bit of the register is writable, the model does not follow it.
    NotFollowed,
    // Nothing: the register is per-port and no port is selected.
    NoPort,
    // It reached FPD3_PORT_SEL: later writes go to these ports.
    Selected {
        ports: u8,
        changed: bool,
        bits_ignored: bool,
    },
    // It reached another shared register.
    Shared {
        changed: bool,
        bits_ignored: bool,
    },
    // It reached the register of these ports, and changed that of those.
    Ports {
        reached: u8,
        changed: u8,
        bits_ignored: bool,
    },
}

// Whether a value has bits that are not writable at an offset. This is asked of every write, also of one that reaches
// nothing, whose effect does not say it.
pub fn ignores_bits(offset: u8, value: u8) -> bool
    ensures { result ≡ ignores_bits offset value }
{
    let mask = map::write_mask(offset);
    value & (255 - mask) != 0
}

// The ports that a value of FPD3_PORT_SEL selects to be written.
#[tactic(auto, unfolding(ports::specs::PortMasks::port_mask))]
fn selected_ports(selection: u8) -> u8
    ensures { result ≡ port_mask (λ port. bit port selection) }
{
    ports::mask_of([0, 1, 2, 3].map(|port| bits::is_set(selection, port)))
}

// Whether the register of a port differs; there is none above port 3.
fn port_differs(before: RegisterFile, after: RegisterFile, port: u8, offset: u8) -> bool
    ensures { port < 4 → result ≡ differs before after (port_register port offset) }
{
    let at = 256 * (port as usize) + offset as usize;
    at < 1024 && after.pages[at] != before.pages[at]
}

// The ports whose register differs.
#[tactic(auto, unfolding(ports::specs::PortMasks::port_mask))]
fn differing_ports(before: RegisterFile, after: RegisterFile, offset: u8) -> u8
    ensures { result ≡ port_mask (λ port. differs before after (port_register port offset)) }
{
    ports::mask_of([0, 1, 2, 3].map(|port| port_differs(before, after, port, offset)))
}

// What a write to a per-port register does, of which some bit is writable.
fn ports_effect(file: RegisterFile, offset: u8, value: u8) -> Effect
    requires { (mask_of offset ≢ 0) × (per_port offset ≡ true) }
    ensures { result ≡ ports_effect file offset value }
{
    let reached = selected_ports(file.shared[map::FPD3_PORT_SEL]);
    if reached == 0 {
        return Effect::NoPort;
    }
    let after = registers::write(file, PageAccess::Selection, offset, value);
    let changed = differing_ports(file, after, offset);
    let bits_ignored = ignores_bits(offset, value);
    Effect::Ports {
        reached,
        changed,
        bits_ignored,
    }
}

// What a write to a shared register does, of which some bit is writable.
fn shared_effect(file: RegisterFile, offset: u8, value: u8) -> Effect
    ensures { result ≡ shared_effect file offset value }
{
    let at = offset as usize;
    let after = registers::write(file, PageAccess::Selection, offset, value);
    let changed = after.shared[at] != file.shared[at];
    let bits_ignored = ignores_bits(offset, value);
    if at == map::FPD3_PORT_SEL {
        let ports = selected_ports(value);
        return Effect::Selected {
            ports,
            changed,
            bits_ignored,
        };
    }
    Effect::Shared {
        changed,
        bits_ignored,
    }
}

// What a write does.
pub fn effect_of(file: RegisterFile, offset: u8, value: u8) -> Effect
    ensures { result ≡ effect_of file offset value }
{
    if map::write_mask(offset) == 0 {
        return Effect::NotFollowed;
    }
    if map::is_per_port(offset) {
        return ports_effect(file, offset, value);
    }
    shared_effect(file, offset, value)
}
