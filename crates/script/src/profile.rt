// What a line of the script sets in the profile.
ghost use Rattle.std.specs.Prelude.{◌≡◌};
ghost use Rattle.script.specs.Settings.{numbers_in, word_of, with_numbers, with_fine, unit_numbers_in, byte_of, with_unit, text_fits};

use crate::number::number_up_to;
use crate::words::{after_word, first_word};
use model::{Profile, Readability};
use text::read_unit;
use weight::{WeightUnit, place_of};

pub const LARGEST_WORD: u64 = u32::MAX as u64;

const LARGEST_BYTE: u64 = u8::MAX as u64;

// C, U, R and W, as they stand in a line. Each stays a u64: `with_numbers` answers one wider than the profile's field too, and a narrower
// field would ask more of its callers.
#[derive(Clone, Copy)]
pub struct Numbers {
    pub capacity: u64,
    pub underload: u64,
    pub zeroing: u64,
    pub timeout: u64,
}

// A unit and its D and K, as they stand in a line, and as wide for the sake of `with_unit`.
#[derive(Clone, Copy)]
pub struct UnitNumbers {
    pub unit: Option<WeightUnit>,
    pub decimals: u64,
    pub step: u64,
}

// Each local begins with the number that it is named for.
pub fn read_numbers(text: &[u8]) -> Option<Numbers>
    ensures { result ≡ numbers_in text.now }
{
    let underload = after_word(text);
    let zeroing = after_word(underload);
    Some(Numbers {
        capacity: number_up_to(LARGEST_WORD, first_word(text))?,
        underload: number_up_to(LARGEST_WORD, first_word(underload))?,
        zeroing: number_up_to(LARGEST_WORD, first_word(zeroing))?,
        timeout: number_up_to(LARGEST_WORD, after_word(zeroing))?,
    })
}

fn word_of(n: u64) -> u32
    ensures { result ≡ word_of n }
{
    u32::try_from(n).unwrap_or(0)
}

// The profile with these numbers, with C for the limit of the fine range, and all else its own.
pub fn with_numbers(profile: Profile, numbers: Numbers) -> Profile
    ensures { result ≡ with_numbers profile numbers }
{
    let capacity = word_of(numbers.capacity);
    Profile {
        capacity,
        fine: capacity,
        underload: word_of(numbers.underload),
        zeroing: word_of(numbers.zeroing),
        timeout: word_of(numbers.timeout),
        ..profile
    }
}

// The profile with this limit of the fine range and all else its own.
pub fn with_fine(profile: Profile, fine: u32) -> Profile
    ensures { result ≡ with_fine profile fine }
{
    Profile { fine, ..profile }
}

pub fn read_unit_numbers(text: &[u8]) -> Option<UnitNumbers>
    ensures { result ≡ unit_numbers_in text.now }
{
    let unit = read_unit(first_word(text))?;
    let decimals = after_word(text);
    Some(UnitNumbers {
        unit: Some(unit),
        decimals: number_up_to(LARGEST_BYTE, first_word(decimals))?,
        step: number_up_to(LARGEST_BYTE, after_word(decimals))?,
    })
}

fn byte_of(n: u64) -> u8
    ensures { result ≡ byte_of n }
{
    u8::try_from(n).unwrap_or(0)
}

// The profile with these in the row of that unit and all else its own.
pub fn with_unit(profile: Profile, numbers: UnitNumbers) -> Profile
    ensures { result ≡ with_unit profile numbers }
{
    let place = place_of(numbers.unit.unwrap_or(WeightUnit::G)) as usize;
    let mut readability = profile.readability;
    readability[place] = Readability {
        decimals: byte_of(numbers.decimals),
        step: byte_of(numbers.step),
    };
    Profile {
        readability,
        ..profile
    }
}

// A digit from 2 to 5, a space, and what the text of I2 to I5 holds.
pub fn text_fits(text: &[u8]) -> bool
    ensures { result ≡ text_fits text.now }
{
    match text {
        [b'2' | b'3', b' ', rest @ ..] => rest.len() <= 40,
        [b'4' | b'5', b' ', rest @ ..] => rest.len() <= 20,
        _ => false,
    }
}
