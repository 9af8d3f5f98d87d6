// The ten characters of a weight, or nine and a space: the number is written from its first digit to its last, each by subtracting a power of ten.
ghost use Rattle.std.specs.Prelude.{◌≡◌, ◌∷◌, ◌++◌, ◌+◌, ◌-◌, ◌/◌, ◌%◌, ◌^◌, ◌≤◌, ◌<◌, unwrap_or, length, take, drop, set};
ghost use Rattle.weight.specs.Characters.{point, digit};
ghost use Rattle.weight.specs.Places.{last_digits, decimal_of, number_text, width_of, characters_in, fits_field};
ghost use Rattle.text.specs.Digits.{Begun};
ghost use Rattle.text.specs.Field.{digit_count, field_if, blank};

use weight::{LastPlaces, fits, is_below_zero, size_of_number};

// What nine digits stay below.
const BILLION: u64 = 1_000_000_000;

// Of a number that starts at `start`, the `high` digits from `at` on, which stand for `value`.
#[derive(Clone, Copy)]
struct Nine {
    start: usize,
    at: usize,
    high: u32,
    value: u32,
}

static POWERS: [u32; 10] = [
    1,
    10,
    100,
    1_000,
    10_000,
    100_000,
    1_000_000,
    10_000_000,
    100_000_000,
    1_000_000_000,
];

fn power_of_ten(place: u32) -> u32
    requires { place ≤ 9 }
    ensures { result ≡ 10 ^ place }
{
    POWERS[place as usize]
}

// How many digits a number is written with.
fn digit_count(decimals: u32, value: u32) -> u32
    requires { digit_count decimals value ≤ 9 }
    ensures { result ≡ digit_count decimals value }
{
    // Stays a while: what is counted is the answer, and a search through a range would have to say again where it ends.
    let mut count = decimals + 1;
    while power_of_ten(count) <= value {
        count += 1;
    }
    count
}

// Writes how often `power` can be subtracted from `value`, as a digit; answers what is left.
fn put_digit(out: &mut [u8], at: usize, power: u32, value: u32) -> u32
    requires at_in_bounds { at < length out.old }
    requires power_nonzero { 0 < power }
    requires power_bound { value / power ≤ 9 }
    ensures value { result ≡ value % power }
    ensures out_after { out.new ≡ set out.old at (digit (value / power)) }
{
    let mut rest = value;
    let mut byte = b'0';
    // Stays a while: it ends by what is left, and no division may say after how many turns.
    while power <= rest {
        rest -= power;
        byte += 1;
    }
    out[at] = byte;
    rest
}

// Writes the digits at the places below `high` down to `low`, the highest first; answers what the places below `low` stand for.
fn put_digits(out: &mut [u8], at: usize, high: u32, low: u32, value: u32) -> u32
    requires low_le_high { low ≤ high }
    requires high_bound { high ≤ 9 }
    requires value_bound { value < 10 ^ high }
    requires low_in_bounds { at + (high - low) ≤ length out.old }
    ensures value { result ≡ value % 10 ^ low }
    ensures out_after { out.new ≡ take at out.old ++ last_digits (high - low) (value / 10 ^ low) ++ drop (at + (high - low)) out.old }
{
    let mut rest = value;
    // Stays a counter: the cells go up as the places go down.
    let mut cell = at;
    for place in (low..high).rev() {
        rest = put_digit(out, cell, power_of_ten(place), rest);
        cell += 1;
    }
    rest
}

// Writes the first of ten digits, which alone needs more than 32 bits; answers what is left. The loop has nine turns, since of one that
// only subtracts a number that it knows a compiler makes a division.
fn put_billions(out: &mut [u8], value: u64) -> u32
    requires in_bounds { 1 ≤ length out.old }
    requires value_bound { value < 10 ^ 10 }
    ensures value { result ≡ value % 10 ^ 9 }
    ensures out_after { out.new ≡ set out.old 0 (digit (value / 10 ^ 9)) }
{
    let mut rest = value;
    let mut byte = b'0';
    for _ in 0..9u32 {
        if BILLION <= rest {
            rest -= BILLION;
            byte += 1;
        }
    }
    out[0] = byte;
    rest as u32
}

// The digits of a number that 32 bits hold: all of them, or nine after the first of ten, which is written.
fn nine_digits(out: &mut [u8], decimals: u32, size: u64) -> Nine
    requires out_len_bound { length out.old ≤ 10 }
    requires size_in_bounds { length (decimal_of decimals size) ≤ length out.old }
    ensures { Begun out.old decimals size out.new result }
{
    if BILLION <= size {
        return Nine {
            start: 0,
            at: 1,
            high: 9,
            value: put_billions(out, size),
        };
    }
    let value = size as u32;
    let high = digit_count(decimals, value);
    let mut start = out.len() - high as usize;
    if 0 < decimals {
        start -= 1;
    }
    Nine {
        start,
        at: start,
        high,
        value,
    }
}

// Writes the point and the decimals up to the end of `out`.
fn put_decimals(out: &mut [u8], decimals: u32, value: u32)
    requires decimals_bound { decimals ≤ 9 }
    requires decimals_in_bounds { decimals + 1 ≤ length out.old }
    requires value_bound { value < 10 ^ decimals }
    ensures { out.new ≡ take (length out.old - decimals - 1) out.old ++ point ∷ last_digits decimals value }
{
    let at = out.len() - decimals as usize - 1;
    out[at] = b'.';
    put_digits(out, at + 1, decimals, 0, value);
}

// Writes a number without its sign up to the end of `out`; answers where it starts. Nine digits and ten share the call that writes them: a
// compiler that knew how many there are would know the powers.
fn decimal(out: &mut [u8], decimals: u32, size: u64) -> usize
    requires out_len_bound { length out.old ≤ 10 }
    requires size_in_bounds { length (decimal_of decimals size) ≤ length out.old }
    ensures size_value { result + length (decimal_of decimals size) ≡ length out.old }
    ensures out_after { out.new ≡ take result out.old ++ decimal_of decimals size }
{
    let nine = nine_digits(out, decimals, size);
    let rest = put_digits(out, nine.at, nine.high, decimals, nine.value);
    if 0 < decimals {
        put_decimals(out, decimals, rest);
    }
    nine.start
}

// Here and above `out` stays a slice of at most ten: an array would be ten, and nine are lent in the coarse range.
// Writes a number up to the end of `out`, a minus before it if it is below zero.
fn number(out: &mut [u8], decimals: u8, places: LastPlaces)
    requires out_len_bound { length out.old ≤ 10 }
    requires places_in_bounds { width_of decimals places.0 ≤ length out.old }
    ensures { out.new ≡ take (length out.old - width_of decimals places.0) out.old ++ number_text decimals places.0 }
{
    let size = size_of_number(places);
    let start = decimal(out, decimals as u32, size);
    if is_below_zero(places) {
        out[start - 1] = b'-';
    }
}

// The characters that a number may take.
pub fn width_in(coarse: bool) -> usize
    ensures value { result ≡ characters_in coarse }
    ensures upper_bound { result ≤ 10 }
{
    if coarse { 9 } else { 10 }
}

// The characters of a field, or ten spaces, which can be taken for no weight, where its number does not fit.
pub fn field_cells(field: Option<[u8; 10]>) -> [u8; 10]
    ensures { result ≡ unwrap_or field blank }
{
    field.unwrap_or([b' '; 10])
}

// The ten characters of a number; none where it does not fit.
pub fn field_of(decimals: u8, places: LastPlaces, coarse: bool) -> Option<[u8; 10]>
    ensures { result ≡ field_if (fits_field coarse decimals places.0) coarse decimals places.0 }
{
    if !fits(decimals, places, coarse) {
        return None;
    }
    let mut cells = [b' '; 10];
    number(&mut cells[..width_in(coarse)], decimals, places);
    Some(cells)
}
