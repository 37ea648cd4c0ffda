// The route of a port: the CSI output that its frames leave on, and the virtual channel of each format.
ghost use Rattle.std.specs.Prelude.{◌≡◌};
ghost use Rattle.hub.specs.Refusals.{no_such_port_number};
ghost use Rattle.hub.specs.Routes.{data_identifier, route_reply, route_of};

use crate::Hub;
use formats::Format;
use refusals::Refusal;
use registers::{bits, map};

// There is no port above 3.
#[derive(Clone, Copy)]
pub struct NoSuchPort;

impl Refusal for NoSuchPort {
    ghost number = { no_such_port_number };

    fn number(self) -> u8 {
        1
    }
}

// The CSI output that a port's frames leave on, and the virtual channel of each format.
#[derive(Clone, Copy)]
pub struct Output {
    pub csi: u8,
    pub raw10_vc: u8,
    pub raw12_vc: u8,
}

// The data identifier of a port's frames of a format; there is none of a port above 3.
pub fn data_identifier(hub: Hub, port: u8, format: Format) -> u8
    ensures { result ≡ data_identifier hub.registers port format }
{
    if 3 < port {
        return 0;
    }
    let file = hub.registers;
    let page = 256 * (port as usize);
    match format {
        Format::Raw10 => file.pages[page + map::RAW10_ID],
        Format::Raw12 => file.pages[page + map::RAW12_ID],
    }
}

// The route of `port`: none where forwarding is off.
#[tactic(auto, unfolding(crate::specs::Routes::route_of, crate::specs::Routes::port_route))]
pub fn route_of(hub: Hub, port: u8) -> Result<Option<Output>, NoSuchPort>
    ensures { route_reply result ≡ route_of hub.registers port }
{
    if 3 < port {
        return Err(NoSuchPort);
    }
    let file = hub.registers;
    let forwarding = file.shared[map::FWD_CTL1];
    if bits::is_set(forwarding, 4 + port) {
        return Ok(None);
    }
    Ok(Some(Output {
        csi: (forwarding >> port) % 2,
        raw10_vc: data_identifier(hub, port, Format::Raw10) / 64,
        raw12_vc: data_identifier(hub, port, Format::Raw12) / 64,
    }))
}
