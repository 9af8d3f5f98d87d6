// The units: document 01's seven, in its order, then document 02's two.
ghost use Rattle.std.specs.Prelude.{◌≡◌};
ghost use Rattle.weight.specs.Units.{nanograms_of, unit_place};

// Gram, milligram, carat, ounce, troy ounce, grain, pennyweight, kilogram, pound.
#[derive(Clone, Copy, PartialEq, Eq)]
pub enum WeightUnit {
    G,
    Mg,
    Ct,
    Oz,
    Ozt,
    Gn,
    Dwt,
    Kg,
    Lb,
}

pub const UNITS: [WeightUnit; 9] = [
    WeightUnit::G,
    WeightUnit::Mg,
    WeightUnit::Ct,
    WeightUnit::Oz,
    WeightUnit::Ozt,
    WeightUnit::Gn,
    WeightUnit::Dwt,
    WeightUnit::Kg,
    WeightUnit::Lb,
];

// The nanograms of one unit.
#[derive(Clone, Copy, PartialEq, Eq)]
pub struct Nanograms(pub u64);

pub fn nanograms_of(unit: WeightUnit) -> Nanograms
    ensures { result.0 ≡ nanograms_of unit }
{
    let count: u64 = match unit {
        WeightUnit::G => 1_000_000_000,
        WeightUnit::Mg => 1_000_000,
        WeightUnit::Ct => 200_000_000,
        WeightUnit::Oz => 28_349_523_125,
        WeightUnit::Ozt => 31_103_476_800,
        WeightUnit::Gn => 64_798_910,
        WeightUnit::Dwt => 1_555_173_840,
        WeightUnit::Kg => 1_000_000_000_000,
        WeightUnit::Lb => 453_592_370_000,
    };
    Nanograms(count)
}

// The place of a unit in their order.
pub fn place_of(unit: WeightUnit) -> u8
    ensures { result ≡ unit_place unit }
{
    unit as u8
}
