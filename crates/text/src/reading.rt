// Reading the text of a number back.
ghost use Rattle.std.specs.Prelude.{◌≡◌, ◌<◌, ◌≤◌, length, drop};
ghost use Rattle.weight.specs.Characters.{point};
ghost use Rattle.text.specs.Decimals.{TenDigits, read_whole, read_decimal};
ghost use Rattle.text.specs.Searching.{FirstAt};
ghost use Rattle.text.specs.Reading.{after_spaces, has_minus, after_minus, before_point, no_leading_zero, coarsely, read_number, read_field};

use crate::field::width_in;
use crate::scanning::byte_at;
use classes::{ALL, DIGITS, POINTS, SPACES, first_in};
use weight::{LastPlaces, signed_places};

// What ten characters are read as: the decimals and the number, and whether it is one of the coarse range.
#[derive(Clone, Copy)]
pub struct FieldNumber {
    pub decimals: u8,
    pub places: LastPlaces,
    pub coarse: bool,
}

// The decimals of a number without a sign, and the number without the point.
#[derive(Clone, Copy)]
pub struct Decimal {
    pub decimals: u8,
    pub value: u64,
}

const FIELD_WIDTH: usize = 10;

const LAST_PLACE: usize = 9;

const MOST_DECIMALS: usize = 6;

const NO_SPACES: u8 = ALL - SPACES;

const NO_DIGITS: u8 = ALL - DIGITS;

// How many spaces the text begins with.
fn space_count(text: &[u8]) -> usize
    ensures upper_bound { result ≤ length text.now }
    ensures text_value { drop result text.now ≡ after_spaces text.now }
{
    first_in(text, NO_SPACES)
}

// Where the first point is; the length where there is none.
fn first_point(text: &[u8]) -> usize
    ensures { FirstAt point text.now result }
{
    first_in(text, POINTS)
}

// A text of digits after digits that stand for `start`, ten in all at most, so that no sum wraps.
fn read_whole(text: &[u8], start: u64) -> Option<u64>
    requires { TenDigits text.now start }
    ensures { result ≡ read_whole start text.now }
{
    if (text.len() < 1) | (first_in(text, NO_DIGITS) < text.len()) {
        return None;
    }
    let mut value = start;
    for c in text {
        value = value * 10 + (*c - b'0') as u64;
    }
    Some(value)
}

// A decimal of at most ten characters. Here and below a clause says so: a type for the text would be made anew for each part of it.
pub fn read_decimal(text: &[u8]) -> Option<Decimal>
    requires { length text.now ≤ 10 }
    ensures { result ≡ read_decimal text.now }
{
    let point = first_point(text);
    let whole = read_whole(&text[..point], 0)?;
    if text.len() <= point {
        return Some(Decimal {
            decimals: 0,
            value: whole,
        });
    }
    let fraction = &text[point + 1..];
    let value = read_whole(fraction, whole)?;
    if MOST_DECIMALS < fraction.len() {
        return None;
    }
    Some(Decimal {
        decimals: fraction.len() as u8,
        value,
    })
}

// Whether the text begins with a minus, and what follows it.
fn split_minus(text: &[u8]) -> (bool, &[u8])
    ensures has { result.0 ≡ has_minus text.now }
    ensures after { result.1.now ≡ after_minus text.now }
{
    match text {
        [b'-', rest @ ..] => (true, rest),
        _ => (false, text),
    }
}

// Whether no zero leads the digits before the point, save one that stands alone.
fn no_leading_zero(text: &[u8]) -> bool
    ensures { result ≡ no_leading_zero (before_point text.now) }
{
    byte_at(text, 0) != b'0' || first_point(text) < 2
}

// A number written as a weight is: `text` is what follows the spaces.
fn read_number(text: &[u8]) -> Option<FieldNumber>
    requires { length text.now ≤ 10 }
    ensures { result ≡ read_number text.now }
{
    let (negative, digits) = split_minus(text);
    let number = read_decimal(digits)?;
    let minus_zero = negative & (number.value == 0);
    if minus_zero | !no_leading_zero(digits) {
        return None;
    }
    Some(FieldNumber {
        decimals: number.decimals,
        places: signed_places(negative, number.value),
        coarse: false,
    })
}

// A number right aligned in the text.
fn read_aligned(text: &[u8]) -> Option<FieldNumber>
    requires { length text.now ≤ 10 }
    ensures { result ≡ read_number (after_spaces text.now) }
{
    read_number(&text[space_count(text)..])
}

// The same number as one of the coarse range, if it has 1 to 5 decimals.
fn coarsely(read: Option<FieldNumber>) -> Option<FieldNumber>
    ensures { result ≡ coarsely read }
{
    let number = read?;
    if 1 <= number.decimals && number.decimals <= 5 {
        Some(FieldNumber {
            coarse: true,
            ..number
        })
    } else {
        None
    }
}

// A field of ten characters: coarse, the last of them is a space.
pub fn read_field(text: &[u8]) -> Option<FieldNumber>
    ensures { result ≡ read_field text.now }
{
    if text.len() != FIELD_WIDTH {
        return None;
    }
    let coarse = text[LAST_PLACE] == b' ';
    let read = read_aligned(&text[..width_in(coarse)]);
    if coarse { coarsely(read) } else { read }
}
