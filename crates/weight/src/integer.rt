// The signed division that a rounding makes.
ghost use Rattle.std.specs.Prelude.{◌≡◌, ◌<◌, pos};
ghost use Rattle.std.specs.Int.Signed.{quot_z, rem_z};
ghost use Rattle.std.specs.Int.{w64};
ghost use Rattle.std.proofs.Common.{SFits};

// What one signed division gives, rounded towards zero, and what it leaves.
#[derive(Clone, Copy)]
pub struct Divided {
    pub quotient: i64,
    pub rest: i64,
}

// One division: the remainder is what the product leaves, so that no compiler divides again for it.
pub fn divide(x: i64, by: u64) -> Divided
    requires by_nonzero { 0 < by }
    requires sfits { SFits w64 (pos by) }
    ensures quotient_value { result.quotient ≡ quot_z x (pos by) }
    ensures rest_value { result.rest ≡ rem_z x (pos by) }
{
    let d = by as i64;
    let quotient = x / d;
    Divided {
        quotient,
        rest: x - quotient * d,
    }
}
