// Whether a net has changed by so much that SR sends it.
ghost use Rattle.std.specs.Prelude.{◌≡◌, true, nat_abs, ◌-ℤ◌, ◌≤◌};
ghost use Rattle.weight.specs.Changes.{has_moved, is_thirty_steps, reaches_threshold};
ghost use Rattle.weight.specs.Rounding.{allowed_resolution, in_range};

use crate::amount::Tare;
use crate::rounding::{
    Allowed, Micrograms, Net, Resolution, divisor_of, if_allowed, if_in_range, scale_of, size_of,
};

// How far a net is from the last one sent before SR sends it, in micrograms; 0 where none is set.
#[derive(Clone, Copy, PartialEq, Eq)]
pub struct Threshold(pub u32);

pub const NO_THRESHOLD: Threshold = Threshold(0);

// A typed number as a threshold.
impl From<Tare> for Threshold {
    ghost from_gives = { λ amount t. t.0 ≡ amount.0 };

    fn from(amount: Tare) -> Threshold {
        Threshold(amount.0)
    }
}

fn distance(a: Net, b: Net) -> u64
    ensures value { result ≡ nat_abs (a.weight.0 -ℤ b.weight.0) }
    ensures upper_bound { result ≤ 10_000_000_000 }
{
    a.weight.0.abs_diff(b.weight.0)
}

// At least 30 display steps. Nothing is divided.
fn is_thirty_steps(allowed: Allowed, off: u64) -> bool
    requires { off ≤ 10_000_000_000 }
    ensures { result ≡ is_thirty_steps allowed.resolution off }
{
    30 * divisor_of(allowed.resolution) <= off * scale_of(allowed.resolution.decimals)
}

// The set threshold, or else one eighth of the last net's size and 30 display steps.
fn reaches_threshold(allowed: Allowed, threshold: Threshold, last: Net, net: Net) -> bool
    ensures { result ≡ reaches_threshold allowed.resolution threshold.0 last.weight.0 (nat_abs (net.weight.0 -ℤ last.weight.0)) }
{
    let off = distance(net, last);
    if threshold == NO_THRESHOLD {
        (size_of(last.weight) <= 8 * off) & is_thirty_steps(allowed, off)
    } else {
        threshold.0 as u64 <= off
    }
}

pub fn has_moved(
    resolution: Resolution,
    threshold: Threshold,
    last: Micrograms,
    net: Micrograms,
) -> bool
    ensures { result ≡ has_moved resolution threshold.0 last.0 net.0 }
{
    match (if_allowed(resolution), if_in_range(last), if_in_range(net)) {
        (Some(r), Some(last), Some(net)) => reaches_threshold(r, threshold, last, net),
        _ => false,
    }
}
