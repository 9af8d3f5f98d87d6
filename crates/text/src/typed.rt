// Reading the numbers that a user types, as SR and TA take them.
ghost use Rattle.std.specs.Prelude.{◌≡◌};
ghost use Rattle.text.specs.Typed.{typed_number, preset_resolution, read_preset, read_typed};

use crate::reading::{Decimal, read_decimal};
use weight::{
    NoAmount, Resolution, Tare, WeightUnit, preset_amount, typed_amount, typed_resolution,
};

const LONGEST_TYPED: usize = 10;

// A typed number: none where it is longer than ten characters.
fn typed_decimal(text: &[u8]) -> Option<Decimal>
    ensures { result ≡ typed_number text.now }
{
    if LONGEST_TYPED < text.len() {
        return None;
    }
    read_decimal(text)
}

// As SR takes it: to the microgram.
pub fn read_typed(unit: WeightUnit, text: &[u8]) -> Result<Tare, NoAmount>
    ensures { result ≡ read_typed unit text.now }
{
    let number = typed_decimal(text).ok_or(NoAmount::NotTyped)?;
    typed_amount(unit, number.decimals, number.value)
}

// As TA takes it: to the display step of its range, and that to the microgram.
pub fn read_preset(
    capacity: u32,
    fine: u32,
    resolution: Resolution,
    text: &[u8],
) -> Result<Tare, NoAmount>
    ensures { result ≡ read_preset (preset_resolution capacity fine resolution text.now) text.now }
{
    let number = typed_decimal(text).ok_or(NoAmount::NotTyped)?;
    let range = typed_resolution(capacity, fine, resolution, number.decimals, number.value);
    preset_amount(range, number.decimals, number.value)
}
