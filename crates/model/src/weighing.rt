// Zero, tare, the unit in force and the latest sample.
use weight::{Load, Tare, WeightUnit};

#[derive(Clone, Copy)]
pub struct Weighing {
    // The load that counts as nothing.
    pub zero: Load,
    pub tare: Tare,
    // The latest sample, and whether there was one since power-on.
    pub load: Load,
    // What weights are told and typed in.
    pub unit: WeightUnit,
    pub stable: bool,
    pub sampled: bool,
}
