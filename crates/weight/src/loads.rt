// Loads and tares as weights: gross, net, and the tare that a gross gives.
ghost use Rattle.std.specs.Prelude.{◌≡◌, pos, nat_abs, ◌-ℤ◌};
ghost use Rattle.std.specs.Int.{w64};
ghost use Rattle.std.proofs.Common.{SFits};

use crate::amount::Tare;
use crate::rounding::{Micrograms, size_of};

// A sample's load, in micrograms.
#[derive(Clone, Copy, PartialEq, Eq)]
pub struct Load(pub i32);

// Zero as it is from power-on.
pub const NO_LOAD: Load = Load(0);

pub const NO_TARE: Tare = Tare(0);

impl From<Load> for Micrograms {
    ghost from_gives = { λ load m. m.0 ≡ load.0 };

    fn from(load: Load) -> Micrograms {
        Micrograms(i64::from(load.0))
    }
}

impl From<Tare> for Micrograms {
    ghost from_gives = { λ tare m. m.0 ≡ pos tare.0 };

    fn from(tare: Tare) -> Micrograms {
        Micrograms(i64::from(tare.0))
    }
}

// Stays a function, and no `-` on the numbers inside: only micrograms are subtracted, no load or tare (tests/type_confusion.sh).
fn minus(a: Micrograms, b: Micrograms) -> Micrograms
    requires { SFits w64 (a.0 -ℤ b.0) }
    ensures { result.0 ≡ a.0 -ℤ b.0 }
{
    Micrograms(a.0 - b.0)
}

// Loads and tares have 32 bits, so neither difference leaves a word.
pub fn gross_of(load: Load, zero: Load) -> Micrograms
    ensures { result.0 ≡ load.0 -ℤ zero.0 }
{
    minus(Micrograms::from(load), Micrograms::from(zero))
}

pub fn net_of(load: Load, zero: Load, tare: Tare) -> Micrograms
    ensures { result.0 ≡ load.0 -ℤ zero.0 -ℤ pos tare.0 }
{
    minus(gross_of(load, zero), Micrograms::from(tare))
}

// The size of the gross, which two loads of 32 bits keep within 32: the gross itself, where that is not below zero.
pub fn tare_of(load: Load, zero: Load) -> Tare
    ensures { result.0 ≡ nat_abs (load.0 -ℤ zero.0) }
{
    Tare(size_of(gross_of(load, zero)) as u32)
}
