// Decimal numbers and loads.
ghost use Rattle.std.specs.Prelude.{◌≡◌};
ghost use Rattle.script.specs.Numbers.{with_digit, with_digits, number_of, number_up_to, above_zero, below_zero, load_of};

use crate::words::from;
use text::byte_at;
use weight::Load;

const MOST_DIGITS: usize = 10;

// More than nine digits say, so that a tenth still fits.
const MOST_BEFORE_DIGIT: u64 = 1_000_000_000;

fn with_digit(value: u64, byte: u8) -> Option<u64>
    ensures { result ≡ with_digit value byte }
{
    if byte.is_ascii_digit() && value <= MOST_BEFORE_DIGIT {
        Some(value * 10 + (byte - b'0') as u64)
    } else {
        None
    }
}

fn digits_value(text: &[u8]) -> Option<u64>
    ensures { result ≡ with_digits 0 text.now }
{
    let mut value = 0;
    for byte in text {
        value = with_digit(value, *byte)?;
    }
    Some(value)
}

// 1 to 10 digits.
fn number(text: &[u8]) -> Option<u64>
    ensures { result ≡ number_of text.now }
{
    if text.len() < 1 || MOST_DIGITS < text.len() {
        None
    } else {
        digits_value(text)
    }
}

// The same, up to a largest.
pub fn number_up_to(largest: u64, text: &[u8]) -> Option<u64>
    ensures { result ≡ number_up_to largest text.now }
{
    number(text).filter(|n| *n <= largest)
}

pub fn above_zero(size: u64) -> Option<Load>
    ensures { result ≡ above_zero size }
{
    Some(Load(i32::try_from(size).ok()?))
}

pub fn below_zero(size: u64) -> Option<Load>
    ensures { result ≡ below_zero size }
{
    let above = i64::try_from(size).ok()?;
    Some(Load(i32::try_from(-above).ok()?))
}

// A number that may have a minus, within 32 bits.
pub fn load_of(text: &[u8]) -> Option<Load>
    ensures { result ≡ load_of text.now }
{
    if byte_at(text, 0) == b'-' {
        below_zero(number(from(text, 1))?)
    } else {
        above_zero(number(text)?)
    }
}
