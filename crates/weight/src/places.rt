// Whether a number fits the characters of a weight.
ghost use Rattle.std.specs.Prelude.{◌≡◌, true, false, cond, not, ◌-◌, ◌^◌, ltb, nat_abs};
ghost use Rattle.std.specs.Int.Signed.{non_neg};
ghost use Rattle.weight.specs.Places.{characters_in, decimals_fit, fits_field, signed_places};

use crate::rounding::LastPlaces;

// How far from zero a number is.
pub fn size_of_number(places: LastPlaces) -> u64
    ensures { result ≡ nat_abs places.0 }
{
    places.0.unsigned_abs()
}

pub fn is_below_zero(places: LastPlaces) -> bool
    ensures { result ≡ not (non_neg places.0) }
{
    places.0 < 0
}

// What ten digits stay below.
const TEN_DIGITS: u64 = 10_000_000_000;

// A number of its size and sign; 0 for one of over ten digits, which no ten characters hold.
pub fn signed_places(negative: bool, size: u64) -> LastPlaces
    ensures { result.0 ≡ signed_places negative size }
{
    if TEN_DIGITS <= size {
        LastPlaces(0)
    } else if negative {
        LastPlaces(-(size as i64))
    } else {
        LastPlaces(size as i64)
    }
}

// What the size of a number stays below: its range's characters hold a digit each, but for a point and for a minus.
fn size_limit(decimals: u8, negative: bool, coarse: bool) -> u64
    ensures { result ≡ 10 ^ (characters_in coarse - cond (ltb decimals 1) 0 1 - cond negative 1 0) }
{
    match u8::from(coarse) + u8::from(0 < decimals) + u8::from(negative) {
        0 => 10_000_000_000,
        1 => 1_000_000_000,
        2 => 100_000_000,
        _ => 10_000_000,
    }
}

// 0 to 6 decimals, coarse 1 to 5.
fn decimals_fit(decimals: u8, coarse: bool) -> bool
    ensures { result ≡ decimals_fit coarse decimals }
{
    if coarse {
        (1 <= decimals) & (decimals <= 5)
    } else {
        decimals <= 6
    }
}

// Whether a number is written in the characters of its range.
pub fn fits(decimals: u8, places: LastPlaces, coarse: bool) -> bool
    ensures { result ≡ fits_field coarse decimals places.0 }
{
    let limit = size_limit(decimals, is_below_zero(places), coarse);
    decimals_fit(decimals, coarse) & (size_of_number(places) < limit)
}
