// The fine and the coarse range: the resolution in force, and whether a profile's nets fit coarse too.
ghost use Rattle.std.specs.Prelude.{◌≡◌, ◌&&◌, leb};
ghost use Rattle.weight.specs.Printing.{largest_reach};
ghost use Rattle.weight.specs.Ranges as meaning;

use crate::amount::most_places;
use crate::limits::is_over;
use crate::printing::is_short;
use crate::rounding::{Micrograms, Resolution, scale_of};
use crate::units::{WeightUnit, nanograms_of};

// Of one of the two ranges: coarse one decimal fewer, with the same step in the last place.
fn ranged(resolution: Resolution, coarse: bool) -> Resolution
    ensures { result ≡ meaning.ranged coarse resolution }
{
    Resolution {
        decimals: if coarse {
            resolution.decimals.saturating_sub(1)
        } else {
            resolution.decimals
        },
        coarse,
        ..resolution
    }
}

// The resolution in force, by the weight that decides.
pub fn resolution_at(fine: u32, resolution: Resolution, weight: Micrograms) -> Resolution
    ensures { result ≡ meaning.resolution_at fine resolution weight.0 }
{
    ranged(resolution, is_over(weight, fine))
}

// Whether a typed number is above the fine limit. One whose product with its unit leaves a word is above every limit.
fn is_typed_above(fine: u32, unit: WeightUnit, decimals: u8, value: u64) -> bool
    ensures { result ≡ meaning.is_typed_above fine unit decimals value }
{
    if 6 < decimals {
        false
    } else if most_places(unit) < value {
        true
    } else {
        let limit = fine as u64 * scale_of(decimals);
        limit < value * nanograms_of(unit).0
    }
}

// The resolution that a typed number is rounded to.
pub fn typed_resolution(
    capacity: u32,
    fine: u32,
    resolution: Resolution,
    decimals: u8,
    value: u64,
) -> Resolution
    ensures { result ≡ meaning.typed_resolution capacity fine resolution decimals value }
{
    let above = (fine < capacity) & is_typed_above(fine, resolution.unit, decimals, value);
    ranged(resolution, above)
}

// Whether a unit has two decimals and an allowed resolution, and a net of `size` micrograms below zero fits coarse, for a size that a
// profile can have: ten steps in place of one, as the number has a place fewer, and so has what it stays below.
pub fn fits_coarse(resolution: Resolution, size: u32) -> bool
    ensures { result ≡ leb size largest_reach && meaning.fits_coarse resolution size }
{
    (2 <= resolution.decimals) & is_short(resolution, size, 10)
}
