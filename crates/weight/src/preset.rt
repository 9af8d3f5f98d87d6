// A typed tare: to the nearest display step, and that decimal to the nearest microgram.
ghost use Rattle.std.specs.Prelude.{◌≡◌, true, ◌≤◌};
ghost use Rattle.weight.specs.Presets.{largest_typed, preset_amount, preset_places};
ghost use Rattle.weight.specs.Rounding.{allowed_resolution};

use crate::amount::{NoAmount, Tare, half_up, typed_amount};
use crate::rounding::{Allowed, Resolution, if_allowed, scale_of};

const LARGEST_TYPED: u64 = 9_999_999_999;

// The decimal with the resolution's readable places. Both scales carry the 1,000 of a microgram, which cancels.
fn preset_places(allowed: Allowed, decimals: u8, value: u64) -> u64
    requires decimals_bound { decimals ≤ 6 }
    requires value_le_largest_typed { value ≤ largest_typed }
    ensures { result ≡ preset_places allowed.resolution decimals value }
{
    let step = allowed.resolution.step as u64;
    let exact = value * scale_of(allowed.resolution.decimals);
    let steps = half_up(exact, step * scale_of(decimals));
    steps * step
}

// `value` last places with `decimals` decimals as a tare.
pub fn preset_amount(resolution: Resolution, decimals: u8, value: u64) -> Result<Tare, NoAmount>
    ensures { result ≡ preset_amount resolution decimals value }
{
    match if_allowed(resolution) {
        Some(allowed) if (decimals <= 6) & (value <= LARGEST_TYPED) => {
            let places = preset_places(allowed, decimals, value);
            typed_amount(resolution.unit, resolution.decimals, places)
        }
        _ => Err(NoAmount::NotTyped),
    }
}
