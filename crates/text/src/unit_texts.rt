// The texts of the units, and their codes in M21.
ghost use Rattle.std.specs.Prelude.{◌≡◌};
ghost use Rattle.text.specs.Ascii.{same_text};
ghost use Rattle.text.specs.UnitTexts.{unit_text, unit_code, unit_named, unit_coded};

use crate::scanning::same_text;
use weight::{UNITS, WeightUnit};

// Stays beside `unit_code`: each is a table, and one of both would have the same eighteen rows.
pub fn unit_text(unit: WeightUnit) -> &'static [u8]
    ensures { result.now ≡ unit_text unit }
{
    match unit {
        WeightUnit::G => b"g",
        WeightUnit::Mg => b"mg",
        WeightUnit::Ct => b"ct",
        WeightUnit::Oz => b"oz",
        WeightUnit::Ozt => b"ozt",
        WeightUnit::Gn => b"GN",
        WeightUnit::Dwt => b"dwt",
        WeightUnit::Kg => b"kg",
        WeightUnit::Lb => b"lb",
    }
}

pub fn unit_code(unit: WeightUnit) -> &'static [u8]
    ensures { result.now ≡ unit_code unit }
{
    match unit {
        WeightUnit::G => b"0",
        WeightUnit::Mg => b"3",
        WeightUnit::Ct => b"5",
        WeightUnit::Oz => b"8",
        WeightUnit::Ozt => b"9",
        WeightUnit::Gn => b"10",
        WeightUnit::Dwt => b"11",
        WeightUnit::Kg => b"1",
        WeightUnit::Lb => b"7",
    }
}

// Whether a text is the unit's.
pub fn is_unit(text: &[u8], unit: WeightUnit) -> bool
    ensures { result ≡ same_text text.now (unit_text unit) }
{
    same_text(text, unit_text(unit))
}

// The unit whose text it is.
pub fn read_unit(text: &[u8]) -> Option<WeightUnit>
    ensures { result ≡ unit_named text.now }
{
    UNITS.iter().copied().find(|unit| is_unit(text, *unit))
}

// The unit whose code it is.
pub fn read_code(text: &[u8]) -> Option<WeightUnit>
    ensures { result ≡ unit_coded text.now }
{
    UNITS
        .iter()
        .copied()
        .find(|unit| same_text(text, unit_code(*unit)))
}
