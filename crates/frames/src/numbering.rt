// Frame numbers.
ghost use Rattle.std.specs.Prelude.{◌≡◌, ◌+◌, ◌*◌};
ghost use Rattle.hub.specs.Hubs.{frame_number};
ghost use Rattle.frames.specs.Events.{next_frame_number, start_number};

use hub::{Hub, LastFrame};
use registers::map;

fn high_low(high: u8, low: u8) -> u16
    ensures { result ≡ 256 * high + low }
{
    256 * (high as u16) + (low as u16)
}

// The number of a port's last frame.
fn number_of(last: LastFrame) -> u16
    ensures { result ≡ frame_number last }
{
    match last {
        LastFrame::NoFrame => 0,
        LastFrame::Closed(_, number) | LastFrame::Open(_, number) => number,
    }
}

// The number that follows `old`.
#[tactic(auto, unfolding(crate::specs::Events::next_frame_number))]
fn next_frame_number(largest: u16, old: u16) -> u16
    ensures { result ≡ next_frame_number largest old }
{
    if largest == 0 {
        return 0;
    }
    if old < largest {
        return old + 1;
    }
    1
}

// The number of the next frame start on a port.
pub(crate) fn start_number(hub: Hub, port: u8) -> u16
    ensures { result ≡ start_number hub port }
{
    let file = hub.registers;
    let largest = high_low(file.shared[map::MAX_FRM_HI], file.shared[map::MAX_FRM_LO]);
    let frames = hub::port_frames(hub, port);
    let last = frames.last;
    next_frame_number(largest, number_of(last))
}
