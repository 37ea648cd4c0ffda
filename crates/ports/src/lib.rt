// A set of ports as a mask of four bits: bit p is set where port p is in the set.
#![tactic(auto)]

ghost use Rattle.std.specs.Prelude.{◌≡◌, cond, false, get_or, ◌≤◌};
ghost use Rattle.ports.specs.PortMasks.{mask_of_four, mask_of_port, port_mask, several_ports};

// What a port adds to the mask.
fn weight_if(is_in: bool, weight: u8) -> u8
    ensures { (result ≡ cond is_in weight 0) × (result ≤ weight) }
{
    if is_in { weight } else { 0 }
}

// The mask of a set, by whether each port is in it.
pub fn mask_of_four(port_0: bool, port_1: bool, port_2: bool, port_3: bool) -> u8
    ensures { result ≡ mask_of_four port_0 port_1 port_2 port_3 }
{
    weight_if(port_0, 1) + weight_if(port_1, 2) + weight_if(port_2, 4) + weight_if(port_3, 8)
}

// The same by an array, which a test of each port fills: `[0, 1, 2, 3].map(test)`.
#[tactic(auto, unfolding(crate::specs::PortMasks::port_mask))]
pub fn mask_of(is_in: [bool; 4]) -> u8
    ensures { result ≡ port_mask (λ port. get_or is_in port false) }
{
    mask_of_four(is_in[0], is_in[1], is_in[2], is_in[3])
}

// The mask of one port; there is no port above 3.
#[tactic(auto, unfolding(crate::specs::PortMasks::port_mask))]
pub fn mask_of_port(port: u8) -> u8
    ensures { result ≡ mask_of_port port }
{
    mask_of([0, 1, 2, 3].map(|own| port == own))
}

// Whether two or more ports are in a mask.
pub fn are_several(mask: u8) -> bool
    ensures { result ≡ several_ports mask }
{
    let count = (mask & 0x0F).count_ones();
    2 <= count
}
