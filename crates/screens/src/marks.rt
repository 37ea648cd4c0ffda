// The marks of what looks wrong, and which ports have one.
use endstate::findings::Grade;
use endstate::{EndState, channels, unset};
use formats::Format;
use registers::bits;

// The mark of a row, or the spaces in its place.
pub(crate) fn mark(is_marked: bool) -> &'static str {
    if is_marked { "! " } else { "  " }
}

// Whether a port is among those that share an output and channel, and that looks wrong.
fn shares_channel(end: &EndState, port: u8) -> bool {
    for format in [Format::Raw10, Format::Raw12] {
        for output in 0..2u8 {
            for channel in 0..4u8 {
                if let Some(clash) = channels::same_channel(end, format, output, channel) {
                    if clash.grade == Grade::Wrong && bits::is_set(clash.ports, port) {
                        return true;
                    }
                }
            }
        }
    }
    false
}

// Whether a port's picture looks wrong: it shares an output and channel, or the port is forwarded and was not set up.
pub(crate) fn is_port_wrong(end: &EndState, port: u8) -> bool {
    shares_channel(end, port) || unset::not_set_up(end, port)
}
