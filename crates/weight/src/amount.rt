// The amounts of numbers that a user types, as TA takes them.
ghost use Rattle.std.specs.Prelude.{◌≡◌, ◌+◌, ◌^◌, ◌<◌};
ghost use Rattle.weight.specs.Rounding.{half_up};
ghost use Rattle.weight.specs.Amounts.{MostPlaces, typed_amount};

use crate::rounding::scale_of;
use crate::units::{WeightUnit, nanograms_of};

// A tare, in micrograms: it is never below zero.
#[derive(Clone, Copy, PartialEq, Eq)]
pub struct Tare(pub u32);

// Why a typed number is no amount.
#[derive(Clone, Copy, PartialEq, Eq)]
pub enum NoAmount {
    // Above the largest capacity of any profile.
    TooLarge,
    NotTyped,
}

const LARGEST_CAPACITY: u64 = 1_000_000_000;

// (2^63 - 1) / nanograms: no number up to it makes a product that leaves a signed word, and all above it are too large.
pub fn most_places(unit: WeightUnit) -> u64
    ensures { MostPlaces unit result }
{
    match unit {
        WeightUnit::G => 9_223_372_036,
        WeightUnit::Mg => 9_223_372_036_854,
        WeightUnit::Ct => 46_116_860_184,
        WeightUnit::Oz => 325_344_874,
        WeightUnit::Ozt => 296_538_296,
        WeightUnit::Gn => 142_338_382_495,
        WeightUnit::Dwt => 5_930_765_937,
        WeightUnit::Kg => 9_223_372,
        WeightUnit::Lb => 20_334_054,
    }
}

// value / by to the nearest whole number, a tie upwards: a typed number has no sign, so one unsigned division does. The remainder is what
// the product leaves.
pub fn half_up(value: u64, by: u64) -> u64
    requires by_nonzero { 0 < by }
    requires by_bound { by < 2 ^ 62 }
    requires value_bound { value + 1 < 2 ^ 64 }
    ensures { result ≡ half_up value by }
{
    let quotient = value / by;
    let rest = value - quotient * by;
    if by <= rest + rest {
        quotient + 1
    } else {
        quotient
    }
}

// `value` last places with `decimals` decimals as an amount. Stays two numbers, here and where such a number is rounded or compared: the
// definitions of specs/ take them apart, and a struct would be named in each of them.
pub fn typed_amount(unit: WeightUnit, decimals: u8, value: u64) -> Result<Tare, NoAmount>
    ensures { result ≡ typed_amount unit decimals value }
{
    if 6 < decimals {
        return Err(NoAmount::NotTyped);
    }
    if most_places(unit) < value {
        return Err(NoAmount::TooLarge);
    }
    let exact = value * nanograms_of(unit).0;
    let rounded = half_up(exact, scale_of(decimals));
    if LARGEST_CAPACITY < rounded {
        Err(NoAmount::TooLarge)
    } else {
        Ok(Tare(rounded as u32))
    }
}
