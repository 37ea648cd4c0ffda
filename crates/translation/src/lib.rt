// I2C address translation: which devices hear a write to an address on the bus, and which device answers a read of it.
#![tactic(auto)]

ghost use Rattle.std.specs.Prelude.{◌≡◌, [], ◌∷◌, ◌++◌, ◌<◌, take, slice_get, None};
ghost use Rattle.translation.specs.Translation.{alias_matches, target_from, on_port, on_ports, receivers};
ghost use Rattle.translation.specs.Translation.{addressee_of, devices_of, write_reply, who_hears_write};
ghost use Rattle.translation.specs.Translation.{answered, read_reply, who_answers_read};
ghost use Rattle.translation.specs.Refusals.{write_refusal_number, read_refusal_number};
ghost use Rattle.translation.specs.Collecting.{collected, addressee_reply};

use hub::Hub;
use refusals::Refusal;
use registers::{bits, map};

// A device behind a port, with its address on the remote bus: whether it is a serializer or a target, with its number.
#[derive(Clone, Copy)]
pub enum Remote {
    Serializer { address: u8 },
    Target { number: u8, address: u8 },
}

// A device and its port.
#[derive(Clone, Copy)]
pub struct PortDevice {
    pub port: u8,
    pub remote: Remote,
}

// The devices that a write reaches, ports rising: at most one a port. (By count, and no list, so that no answer is one
// that cannot occur: docs/DECISIONS.md, 3.)
#[derive(Clone, Copy)]
pub enum Devices {
    One(PortDevice),
    Two(PortDevice, PortDevice),
    Three(PortDevice, PortDevice, PortDevice),
    Four(PortDevice, PortDevice, PortDevice, PortDevice),
}

// Whom an address is for: the hub, no device, or what was found behind the ports.
#[derive(Clone, Copy)]
pub enum Addressed<D> {
    Hub,
    NoDevice,
    Found(D),
}

// Why nobody is asked for a write.
#[derive(Clone, Copy)]
pub enum WriteRefusal {
    AddressAbove7F,
}

impl Refusal for WriteRefusal {
    ghost number = { write_refusal_number };

    fn number(self) -> u8 {
        match self {
            WriteRefusal::AddressAbove7F => 2,
        }
    }
}

// Why nobody answers a read.
#[derive(Clone, Copy)]
pub enum ReadRefusal {
    AddressAbove7F,
    Unclear,
}

impl Refusal for ReadRefusal {
    ghost number = { read_refusal_number };

    fn number(self) -> u8 {
        match self {
            ReadRefusal::AddressAbove7F => 2,
            ReadRefusal::Unclear => 9,
        }
    }
}

impl From<WriteRefusal> for ReadRefusal {
    ghost from_gives = { λ e r. read_refusal_number r ≡ write_refusal_number e };

    fn from(refusal: WriteRefusal) -> ReadRefusal {
        match refusal {
            WriteRefusal::AddressAbove7F => ReadRefusal::AddressAbove7F,
        }
    }
}

impl Devices {
    // The device at place `k`, from 0 on.
    pub fn get(self, k: usize) -> Option<PortDevice>
        ensures { result ≡ slice_get (devices_of self) k }
    {
        match (k, self) {
            (
                0,
                Devices::One(a)
                | Devices::Two(a, ..)
                | Devices::Three(a, ..)
                | Devices::Four(a, ..),
            ) => Some(a),
            (1, Devices::Two(_, b) | Devices::Three(_, b, _) | Devices::Four(_, b, ..)) => Some(b),
            (2, Devices::Three(.., c) | Devices::Four(_, _, c, _)) => Some(c),
            (3, Devices::Four(.., d)) => Some(d),
            _ => None,
        }
    }
}

// Whether the address is the hub's own, before the ports are asked; above 0x7F it is refused.
#[tactic(auto, unfolding(crate::specs::Translation::addressee_of))]
fn is_own(hub: Hub, address: u8) -> Result<bool, WriteRefusal>
    ensures { addressee_reply result ≡ addressee_of hub address }
{
    if 0x7F < address {
        return Err(WriteRefusal::AddressAbove7F);
    }
    Ok(address == hub.address)
}

// Whether an alias register is on and has the address in its bits 7 to 1.
#[tactic(auto, unfolding(crate::specs::Translation::alias_matches))]
fn alias_matches(register: u8, address: u8) -> bool
    ensures { result ≡ alias_matches register address }
{
    let alias = register / 2;
    alias != 0 && alias == address
}

// The lowest-numbered target of `port` whose alias has the address.
fn target_on(pages: &[u8; 1024], port: u8, address: u8) -> Option<PortDevice>
    requires { port < 4 }
    ensures { result ≡ target_from pages.now port address 0 8 }
{
    let page = 256 * (port as usize);
    for k in 0..8u8 {
        if alias_matches(pages[page + (map::TARGET_ALIAS_0 + k as usize)], address) {
            return Some(PortDevice {
                port,
                remote: Remote::Target {
                    number: k,
                    address: pages[page + (map::TARGET_ID_0 + k as usize)] / 2,
                },
            });
        }
    }
    None
}

// The device of `port` for the address: none unless bit 6 of BCC_CONFIG, I2C_PASS_THROUGH, is set.
#[tactic(auto, unfolding(crate::specs::Translation::on_port))]
fn on_port(pages: &[u8; 1024], port: u8, address: u8) -> Option<PortDevice>
    requires { port < 4 }
    ensures { result ≡ on_port pages.now port address }
{
    let page = 256 * (port as usize);
    if !bits::is_set(pages[page + map::BCC_CONFIG], 6) {
        return None;
    }
    if alias_matches(pages[page + map::SER_ALIAS_ID], address) {
        return Some(PortDevice {
            port,
            remote: Remote::Serializer {
                address: pages[page + map::SER_ID] / 2,
            },
        });
    }
    target_on(pages, port, address)
}

// The devices so far, and one device more; there is no place for a fifth.
fn with_device(so_far: Option<Devices>, d: PortDevice) -> Devices
    ensures { devices_of result ≡ take 4 (collected so_far ++ (d ∷ [])) }
{
    match so_far {
        None => Devices::One(d),
        Some(Devices::One(a)) => Devices::Two(a, d),
        Some(Devices::Two(a, b)) => Devices::Three(a, b, d),
        Some(Devices::Three(a, b, c)) => Devices::Four(a, b, c, d),
        Some(four) => four,
    }
}

// The devices of the ports that match, ports rising.
fn receivers_of(pages: &[u8; 1024], address: u8) -> Option<Devices>
    ensures { collected result ≡ receivers (on_ports pages.now address) }
{
    let mut so_far = None;
    for port in 0..4u8 {
        if let Some(device) = on_port(pages, port, address) {
            so_far = Some(with_device(so_far, device));
        }
    }
    so_far
}

// Who hears a write to the address.
#[tactic(auto, unfolding(crate::specs::Translation::who_hears_write))]
pub fn who_hears_write(hub: Hub, address: u8) -> Result<Addressed<Devices>, WriteRefusal>
    ensures { write_reply result ≡ who_hears_write hub address }
{
    let own = is_own(hub, address)?;
    if own {
        return Ok(Addressed::Hub);
    }
    let file = hub.registers;
    match receivers_of(&file.pages, address) {
        None => Ok(Addressed::NoDevice),
        Some(devices) => Ok(Addressed::Found(devices)),
    }
}

// Who answers a read where the read port does not match: the one device of the ports that do.
fn only_receiver(pages: &[u8; 1024], address: u8) -> Result<Addressed<PortDevice>, ReadRefusal>
    ensures { read_reply result ≡ answered None (receivers (on_ports pages.now address)) }
{
    match receivers_of(pages, address) {
        None => Ok(Addressed::NoDevice),
        Some(Devices::One(device)) => Ok(Addressed::Found(device)),
        Some(_) => Err(ReadRefusal::Unclear),
    }
}

// Who answers a read of the address.
#[tactic(auto, unfolding(crate::specs::Translation::who_answers_read))]
pub fn who_answers_read(hub: Hub, address: u8) -> Result<Addressed<PortDevice>, ReadRefusal>
    ensures { read_reply result ≡ who_answers_read hub address }
{
    if is_own(hub, address)? {
        return Ok(Addressed::Hub);
    }
    let file = hub.registers;
    let read_port = registers::read_port(file);
    match on_port(&file.pages, read_port, address) {
        Some(device) => Ok(Addressed::Found(device)),
        None => only_receiver(&file.pages, address),
    }
}
