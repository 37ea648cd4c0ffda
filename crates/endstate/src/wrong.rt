// How many findings in the state at the end are wrong.
ghost use Rattle.std.specs.Prelude.{◌≡◌, Bool, ℕ, ◌<◌, ◌≤◌};
ghost use Rattle.endstate.specs.Unset.{not_set_up};
ghost use Rattle.endstate.specs.Wrong.{grade_of, is_wrong, count_below, wrong_channel, wrong_channels, wrong_address};
ghost use Rattle.endstate.specs.Wrong.{wrong_count};

use crate::findings::{Clash, Grade};
use crate::{EndState, addresses, channels, unset};
use formats::Format;

// Whether the ports share something, and that is wrong.
pub fn is_wrong(found: Option<Clash>) -> bool
    ensures { result ≡ is_wrong (grade_of found) }
{
    match found {
        Some(clash) => matches!(clash.grade, Grade::Wrong),
        None => false,
    }
}

// How many numbers below `end` pass a test. What it answers is said by a test of numbers, `test`.
fn count_below<F: Fn(u8) -> bool>(end: u8, passes: F) -> u64
    requires { F.IsAlwaysCallable passes }
    ensures counted { (test : ℕ → Bool)
        → ((k : ℕ) (answer : Bool) → k < end → F.post passes k answer → answer ≡ test k)
        → result ≡ count_below test end }
    ensures few { result ≤ end }
{
    let mut count: u64 = 0;
    for k in 0..end {
        if passes(k) {
            count += 1;
        }
    }
    count
}

// Whether what is found of an output and channel is wrong.
#[tactic(auto, using(crate::proofs::WrongLaws::finding_grade))]
fn is_wrong_channel(end: &EndState, format: Format, output: u8, channel: u8) -> bool
    ensures { result ≡ wrong_channel end.now.hub end.now.state format output channel }
{
    is_wrong(channels::same_channel(end, format, output, channel))
}

// Whether what is found of an address is wrong.
#[tactic(auto, using(crate::proofs::WrongLaws::finding_grade))]
fn is_wrong_address(end: &EndState, address: u8) -> bool
    ensures { result ≡ wrong_address end.now.hub end.now.state address }
{
    is_wrong(addresses::same_address(end, address))
}

// The channels of an output that ports share, where that is wrong.
fn wrong_channels(end: &EndState, format: Format, output: u8) -> u64
    ensures { (result ≡ wrong_channels end.now.hub end.now.state format output) × (result ≤ 4) }
{
    count_below(4, |channel| is_wrong_channel(end, format, output, channel))
}

// The addresses that reach several ports, where that is wrong.
fn wrong_addresses(end: &EndState) -> u64
    ensures { (result ≡ count_below (wrong_address end.now.hub end.now.state) 128) × (result ≤ 128) }
{
    count_below(128, |address| is_wrong_address(end, address))
}

// The ports that are forwarded and were not set up.
fn unset_ports(end: &EndState) -> u64
    ensures { (result ≡ count_below (not_set_up end.now.hub end.now.state) 4) × (result ≤ 4) }
{
    count_below(4, |port| unset::not_set_up(end, port))
}

// All of them, both formats on both outputs. (A loop over formats and outputs would be no plainer than the sum.)
pub fn count(end: &EndState) -> u64
    ensures { result ≡ wrong_count end.now.hub end.now.state }
{
    wrong_channels(end, Format::Raw10, 0)
        + wrong_channels(end, Format::Raw10, 1)
        + wrong_channels(end, Format::Raw12, 0)
        + wrong_channels(end, Format::Raw12, 1)
        + wrong_addresses(end)
        + unset_ports(end)
}
