// A net weight in micrograms becomes display steps, in one rounding, and these the printed number.
ghost use Rattle.std.specs.Prelude.{◌≡◌, true, false, MatchOption, ◌&&◌, ◌||◌, eqb, leb, ◌*◌, ◌<◌, ◌≤◌, ◌^◌, pos, nat_abs, ◌*ℤ◌};
ghost use Rattle.weight.specs.Units.{nanograms_of};
ghost use Rattle.std.specs.Int.{w64};
ghost use Rattle.std.proofs.Common.{SFits};
ghost use Rattle.weight.specs.Rounding.{allowed_resolution, round_away, steps_of, in_range};

use crate::integer::divide;
use crate::units::{WeightUnit, nanograms_of};

// How weights are shown: the unit, the decimals and the step in the last place (document 01's d and k), and whether that is the coarse
// range's (document 02, No. 7).
#[derive(Clone, Copy, PartialEq, Eq)]
pub struct Resolution {
    pub unit: WeightUnit,
    pub decimals: u8,
    pub step: u8,
    pub coarse: bool,
}

#[derive(Clone, Copy, PartialEq, Eq)]
pub struct Micrograms(pub i64);

#[derive(Clone, Copy, PartialEq, Eq)]
pub struct DisplaySteps(pub i64);

// A number in units of its last place: 14.2560 with four decimals is 142560.
#[derive(Clone, Copy, PartialEq, Eq)]
pub struct LastPlaces(pub i64);

// x / by to the nearest whole number, a tie away from zero: one signed division with its remainder. That `by` is not 0 stays a clause, here and
// where it divides: a type for it would be made for one call and taken apart in the next.
fn nearest(x: i64, by: u64) -> i64
    requires by_nonzero { 0 < by }
    requires by_bound { by < 2 ^ 62 }
    requires x_bound { nat_abs x < 2 ^ 63 }
    ensures { result ≡ round_away x by }
{
    let parts = divide(x, by);
    let rest = parts.rest.unsigned_abs();
    if by <= rest + rest {
        if x < 0 {
            parts.quotient - 1
        } else {
            parts.quotient + 1
        }
    } else {
        parts.quotient
    }
}

// The nanograms of a display step, times 10^d: what a rounding divides by.
pub fn divisor_of(resolution: Resolution) -> u64
    ensures { result ≡ resolution.step * nanograms_of resolution.unit }
{
    resolution.step as u64 * nanograms_of(resolution.unit).0
}

// The nanograms of a microgram, times 10^d: what a rounding multiplies by.
pub fn scale_of(decimals: u8) -> u64
    requires { decimals ≤ 6 }
    ensures { result ≡ 1000 * 10 ^ decimals }
{
    match decimals {
        0 => 1_000,
        1 => 10_000,
        2 => 100_000,
        3 => 1_000_000,
        4 => 10_000_000,
        5 => 100_000_000,
        _ => 1_000_000_000,
    }
}

// Whether a step is one of document 01's.
pub fn is_known_step(step: u8) -> bool
    ensures { result ≡ (eqb step 1 || eqb step 2 || eqb step 5) }
{
    (step == 1) | (step == 2) | (step == 5)
}

// Whether a step is one of these, and at least one microgram by what a rounding multiplies and divides by.
pub fn is_step_allowed(step: u8, scale: u64, divisor: u64) -> bool
    ensures { result ≡ ((eqb step 1 || eqb step 2 || eqb step 5) && leb scale divisor) }
{
    is_known_step(step) & (scale <= divisor)
}

// Whether decimals and step are those of document 01, and the step is at least one microgram.
pub fn is_allowed(resolution: Resolution) -> bool
    ensures { result ≡ allowed_resolution resolution }
{
    if 6 < resolution.decimals {
        false
    } else {
        is_step_allowed(
            resolution.step,
            scale_of(resolution.decimals),
            divisor_of(resolution),
        )
    }
}

// How far from zero an amount is. Stays beside `size_of_number`: each is one call, and the types keep apart what they measure.
pub fn size_of(amount: Micrograms) -> u64
    ensures { result ≡ nat_abs amount.0 }
{
    amount.0.unsigned_abs()
}

// A resolution that is allowed.
#[derive(Clone, Copy)]
pub struct Allowed {
    pub resolution: Resolution,
    ghost holds: { allowed_resolution resolution ≡ true },
}

// A net that a device can meet.
#[derive(Clone, Copy)]
pub struct Net {
    pub weight: Micrograms,
    ghost near: { in_range weight.0 ≡ true },
}

// More micrograms than a load with a zero and a tare in their ranges can give.
const NET_LIMIT: u64 = 5_000_000_000;

pub fn if_allowed(resolution: Resolution) -> Option<Allowed>
    ensures { MatchOption result (allowed_resolution resolution ≡ false) (λ a. a.resolution ≡ resolution) }
{
    if is_allowed(resolution) {
        Some(Allowed { resolution })
    } else {
        None
    }
}

pub fn if_in_range(weight: Micrograms) -> Option<Net>
    ensures { MatchOption result (in_range weight.0 ≡ false) (λ n. n.weight ≡ weight) }
{
    if size_of(weight) <= NET_LIMIT {
        Some(Net { weight })
    } else {
        None
    }
}

// One rounding from the exact net.
pub fn steps_of(allowed: Allowed, net: Net) -> DisplaySteps
    ensures { result.0 ≡ steps_of allowed.resolution net.weight.0 }
{
    let scale = scale_of(allowed.resolution.decimals) as i64;
    DisplaySteps(nearest(net.weight.0 * scale, divisor_of(allowed.resolution)))
}

pub fn places_of(resolution: Resolution, steps: DisplaySteps) -> LastPlaces
    requires { SFits w64 (steps.0 *ℤ pos resolution.step) }
    ensures { result.0 ≡ steps.0 *ℤ pos resolution.step }
{
    LastPlaces(steps.0 * resolution.step as i64)
}
