// Weights against the limits of a profile, which are counts of micrograms.
ghost use Rattle.std.specs.Prelude.{◌≡◌, ◌&&◌, ◌+◌, leb, pos, neg_ℤ};
ghost use Rattle.std.specs.Int.Signed.{lt_z, le_z};

use crate::amount::Tare;
use crate::changes::Threshold;
use crate::rounding::Micrograms;

// Whether a weight is above a limit.
pub fn is_over(weight: Micrograms, limit: u32) -> bool
    ensures { result ≡ lt_z (pos limit) weight.0 }
{
    i64::from(limit) < weight.0
}

// Whether a weight is below zero by more than a limit.
pub fn is_under(weight: Micrograms, limit: u32) -> bool
    ensures { result ≡ lt_z weight.0 (neg_ℤ (pos limit)) }
{
    weight.0 < -i64::from(limit)
}

// Whether a weight is no farther from zero than a limit.
pub fn is_within(weight: Micrograms, limit: u32) -> bool
    ensures { result ≡ le_z (neg_ℤ (pos limit)) weight.0 && le_z weight.0 (pos limit) }
{
    (-i64::from(limit) <= weight.0) & (weight.0 <= i64::from(limit))
}

// Whether a weight is a net that a load between -underload and capacity can give with a tare of up to the capacity.
pub fn is_net_within(net: Micrograms, underload: u32, capacity: u32) -> bool
    ensures { result ≡ le_z (neg_ℤ (pos (underload + capacity))) net.0 && le_z net.0 (pos capacity) }
{
    let reach = i64::from(underload) + i64::from(capacity);
    (-reach <= net.0) & (net.0 <= i64::from(capacity))
}

// Stays beside `is_threshold_within`: each is one comparison, and a trait over the two types would be longer.
pub fn is_tare_within(tare: Tare, limit: u32) -> bool
    ensures { result ≡ leb tare.0 limit }
{
    tare.0 <= limit
}

// 0, which is none set, is within every limit.
pub fn is_threshold_within(threshold: Threshold, limit: u32) -> bool
    ensures { result ≡ leb threshold.0 limit }
{
    threshold.0 <= limit
}
