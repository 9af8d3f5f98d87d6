// The printed number of a net weight.
ghost use Rattle.std.specs.Prelude.{◌≡◌, true, false, ◌&&◌, leb, ◌≤◌};
ghost use Rattle.weight.specs.Units.{nanograms_of};
ghost use Rattle.weight.specs.Printing.{printed_number, fits_below_zero, is_short, largest_reach, sure_decimals, surely_fits};

use crate::places::fits;
use crate::rounding::{
    LastPlaces, Micrograms, Resolution, divisor_of, if_allowed, if_in_range, is_known_step,
    is_step_allowed, places_of, scale_of, steps_of,
};
use crate::units::{WeightUnit, nanograms_of};

// Twice 10^8: beside a minus and a point ten characters hold eight digits.
const TWICE_PLACES_LIMIT: u64 = 200_000_000;

// The number of a net that is printed in the characters of its range.
pub fn printed_number(resolution: Resolution, net: Micrograms) -> Option<LastPlaces>
    ensures { result ≡ printed_number resolution net.0 }
{
    let allowed = if_allowed(resolution)?;
    let near = if_in_range(net)?;
    let places = places_of(resolution, steps_of(allowed, near));
    if fits(resolution.decimals, places, resolution.coarse) {
        Some(places)
    } else {
        None
    }
}

// The most that U and C of a profile give together.
const LARGEST_REACH: u32 = 2_000_000_000;

// A reach up to which every unit can have one decimal more: 600 g.
const NEAR_REACH: u32 = 600_000_000;

fn sure_decimals(unit: WeightUnit, near: bool) -> u8
    ensures { result ≡ sure_decimals near unit }
{
    let (most, most_far) = match unit {
        WeightUnit::G => (5, 4),
        WeightUnit::Mg => (2, 1),
        WeightUnit::Ct => (4, 3),
        WeightUnit::Oz => (6, 6),
        WeightUnit::Ozt => (6, 6),
        WeightUnit::Gn => (4, 3),
        WeightUnit::Dwt => (5, 4),
        WeightUnit::Kg => (6, 6),
        WeightUnit::Lb => (6, 6),
    };
    if near { most } else { most_far }
}

// Whether so few decimals are asked for that no product has to be made: a profile is tested at every call, in each unit.
pub fn fits_surely(resolution: Resolution, size: u32) -> bool
    ensures { result ≡ surely_fits resolution size }
{
    let most = sure_decimals(resolution.unit, size <= NEAR_REACH);
    (size <= LARGEST_REACH) & is_known_step(resolution.step) & (resolution.decimals <= most)
}

// A number is below a limit exactly when its exact steps and half a step more are below the limit by the step, so nothing is divided.
fn is_short_exactly(resolution: Resolution, size: u32, steps: u64) -> bool
    requires steps_bound { steps ≤ 10 }
    requires decimals_bound { resolution.decimals ≤ 6 }
    requires unit_bound { nanograms_of resolution.unit ≤ 1_555_173_840 }
    ensures { result ≡ is_short steps resolution size }
{
    let scale = scale_of(resolution.decimals);
    let divisor = divisor_of(resolution);
    let twice = 2 * (size as u64 * scale) + steps * divisor;
    let limit = nanograms_of(resolution.unit).0 * TWICE_PLACES_LIMIT;
    is_step_allowed(resolution.step, scale, divisor) & (twice < limit)
}

// The same for a size that a profile can have: with few decimals no product has to be made. Inlined, since a profile is tested by it
// at every call, in each unit.
#[inline(always)]
pub fn is_short(resolution: Resolution, size: u32, steps: u64) -> bool
    requires { steps ≤ 10 }
    ensures { result ≡ leb size largest_reach && is_short steps resolution size }
{
    if (LARGEST_REACH < size) | (6 < resolution.decimals) | !is_known_step(resolution.step) {
        false
    } else if resolution.decimals <= sure_decimals(resolution.unit, false) {
        true
    } else {
        is_short_exactly(resolution, size, steps)
    }
}

// Whether a resolution is allowed and a net of `size` micrograms below zero fits ten characters, for a size that a profile can have.
// Without decimals nine digits fit, but 2^32 micrograms never need them.
pub fn fits_below_zero(resolution: Resolution, size: u32) -> bool
    ensures { result ≡ leb size largest_reach && fits_below_zero resolution size }
{
    is_short(resolution, size, 1)
}
