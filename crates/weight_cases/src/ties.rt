// Around the middle between two display steps, for every unit, step and number of decimals: the whole micrograms of an odd
// number of half steps, with one microgram less and one more.
ghost use Rattle.std.specs.Prelude.{◌≤◌};

use crate::{nets, show};
use std::io;
use weight::{Resolution, UNITS, WeightUnit};

// k x unit.
fn step_nanograms(unit: WeightUnit, step: u8) -> u64
    ensures { result ≤ 5_000_000_000_000 }
{
    let n = weight::nanograms_of(unit).0;
    if n > 1_000_000_000_000 {
        return 0;
    }
    match step {
        1 => n,
        2 => n + n,
        _ => n * 5,
    }
}

fn around(rt: &impl Print, r: Resolution, size: u64) -> io::Result<()> {
    show::text(rt, b"tie")?;
    show::resolution(rt, r)?;
    show::number(rt, size)?;
    nets::both_signs(rt, r, size.saturating_sub(1))?;
    nets::both_signs(rt, r, size)?;
    nets::both_signs(rt, r, size.saturating_add(1))?;
    show::end(rt)
}

// One half step and 25 of them, which is a tie in whole micrograms for each unit that has one; `per` is 2,000 x 10^d.
fn middles(rt: &impl Print, unit: WeightUnit, decimals: u8, step: u8, per: u64) -> io::Result<()> {
    if per < 1 {
        return Ok(());
    }
    let r = nets::fine(unit, decimals, step);
    let n = step_nanograms(unit, step);
    around(rt, r, n / per)?;
    around(rt, r, n * 25 / per)
}

pub fn cases(rt: &impl Print) -> io::Result<()> {
    for unit in UNITS {
        for step in [1, 2, 5] {
            for (decimals, per) in [
                (0, 2_000),
                (1, 20_000),
                (2, 200_000),
                (3, 2_000_000),
                (4, 20_000_000),
                (5, 200_000_000),
                (6, 2_000_000_000),
            ] {
                middles(rt, unit, decimals, step, per)?;
            }
        }
    }
    Ok(())
}
