// Document 02, No. 7: nets printed in the coarse range, which of the ranges is in force, and which nets fit the coarse one.
use crate::{nets, show};
use std::io;
use weight::WeightUnit::{Ct, Dwt, G, Gn, Mg, Oz, Ozt};
use weight::{Micrograms, Resolution, UNITS, WeightUnit};

// The coarse range of a resolution: with F at 0, a microgram is above it.
fn coarse(unit: WeightUnit, decimals: u8, step: u8) -> Resolution {
    weight::resolution_at(0, nets::fine(unit, decimals, step), Micrograms(1))
}

fn each(
    rt: &impl Print,
    unit: WeightUnit,
    decimals: u8,
    step: u8,
    sizes: &[u64],
) -> io::Result<()> {
    nets::each(rt, coarse(unit, decimals, step), sizes)
}

// One rounding, to multiples of ten steps.
pub fn coarse_cases(rt: &impl Print) -> io::Result<()> {
    each(rt, G, 4, 1, &[0, 1, 499, 500, 1_449, 1_450])?;
    each(rt, G, 4, 1, &[1_499, 1_500, 140_000_499, 140_000_500])?;
    each(rt, G, 4, 2, &[999, 1_000, 2_999, 3_000])?;
    each(rt, G, 4, 5, &[2_499, 2_500, 7_499, 7_500])?;
    for unit in UNITS {
        each(rt, unit, 2, 1, &[14_256_050])?;
    }
    each(rt, G, 4, 1, &[5_000_000_000, 5_000_000_001])?;
    for decimals in [0, 1, 2, 3, 4, 5, 6, 7, 255] {
        each(rt, G, decimals, 1, &[1_000_000])?;
    }
    each(rt, Mg, 4, 1, &[1_000_000])?;
    each(rt, Mg, 5, 1, &[1_000_000])?;
    each(rt, G, 4, 3, &[1_000_000])
}

pub fn width_cases(rt: &impl Print) -> io::Result<()> {
    for (unit, decimals, step, last) in [
        (G, 6, 1, 999_999_994),
        (G, 6, 1, 99_999_994),
        (G, 5, 2, 999_999_899),
        (Mg, 3, 1, 999_999_994),
        (Mg, 3, 1, 99_999_994),
        (Mg, 2, 5, 999_999_749),
        (Ct, 6, 5, 199_999_994),
        (Ct, 6, 5, 19_999_994),
        (Ct, 5, 1, 1_999_999_989),
        (Ct, 5, 1, 199_999_989),
        (Oz, 6, 1, 2_834_952_170),
        (Ozt, 6, 2, 3_110_347_368),
        (Gn, 5, 2, 647_989_093),
        (Gn, 5, 2, 64_798_903),
        (Gn, 4, 1, 647_989_067),
        (Dwt, 6, 1, 1_555_173_832),
        (Dwt, 6, 1, 155_517_376),
        (Dwt, 5, 5, 1_555_173_451),
    ] {
        nets::last_and_next(rt, coarse(unit, decimals, step), last)?;
    }
    Ok(())
}

// A fine limit, the weight that decides and the net that is printed, in profile A's resolution.
fn grams(rt: &impl Print, fine: u32, deciding: i64, net: i64) -> io::Result<()> {
    let r = nets::fine(G, 4, 1);
    show::text(rt, b"range")?;
    show::number(rt, fine as u64)?;
    show::resolution(rt, r)?;
    show::whole(rt, deciding)?;
    show::whole(rt, net)?;
    nets::printed(
        rt,
        weight::resolution_at(fine, r, Micrograms(deciding)),
        net,
    )?;
    show::end(rt)
}

pub fn in_force_cases(rt: &impl Print) -> io::Result<()> {
    for (limit, deciding, net) in [
        (100_000_000, 100_000_000, 100_000_000),
        (100_000_000, 100_000_001, 100_000_001),
        (100_000_000, 150_000_000, 150_000_000),
        (100_000_000, 150_000_500, 500),
        (100_000_000, 10_000_000, -140_000_000),
        (100_000_000, 50_000_000, 50_000_000),
        (0, 0, 0),
        (0, -1, -1),
        (0, 1, 1),
        (0, 3_000, 3_000),
        (219_999_999, 220_000_000, 220_000_000),
        (219_999_999, 219_999_999, 219_999_999),
        (220_000_000, 220_000_000, 220_000_000),
        (4_294_967_295, 4_294_967_295, 4_294_967_295),
        (4_294_967_295, 4_294_967_296, 4_294_967_296),
    ] {
        grams(rt, limit, deciding, net)?;
    }
    Ok(())
}

// Whether a net of this size below zero is printed coarse too.
fn fit(rt: &impl Print, unit: WeightUnit, decimals: u8, step: u8, size: u32) -> io::Result<()> {
    let r = nets::fine(unit, decimals, step);
    show::text(rt, b"fits")?;
    show::resolution(rt, r)?;
    show::number(rt, size as u64)?;
    if weight::fits_coarse(r, size) {
        show::text(rt, b" yes")?;
    } else {
        show::text(rt, b" no")?;
    }
    show::end(rt)
}

pub fn fit_cases(rt: &impl Print) -> io::Result<()> {
    for (unit, decimals, step, size) in [
        (Mg, 3, 1, 99_999_994),
        (Mg, 3, 1, 99_999_995),
        (Mg, 3, 5, 99_999_974),
        (Mg, 3, 5, 99_999_975),
        (Mg, 2, 2, 999_999_899),
        (Mg, 2, 2, 999_999_900),
        (G, 6, 1, 99_999_994),
        (G, 6, 1, 99_999_995),
        (G, 5, 5, 999_999_749),
        (G, 5, 5, 999_999_750),
        (Ct, 6, 5, 19_999_994),
        (Ct, 6, 5, 19_999_995),
        (Ct, 5, 1, 199_999_989),
        (Ct, 5, 1, 199_999_990),
        (Ct, 4, 2, 1_999_999_799),
        (Ct, 4, 2, 1_999_999_800),
        (Gn, 5, 2, 64_798_903),
        (Gn, 5, 2, 64_798_904),
        (Gn, 4, 1, 647_989_067),
        (Gn, 4, 1, 647_989_068),
        (Dwt, 6, 1, 155_517_376),
        (Dwt, 6, 1, 155_517_377),
        (Dwt, 5, 5, 1_555_173_451),
        (Dwt, 5, 5, 1_555_173_452),
    ] {
        fit(rt, unit, decimals, step, size)?;
    }
    // The farthest net that a profile can have.
    for unit in UNITS {
        for decimals in 0..=7 {
            fit(rt, unit, decimals, 1, 2_000_000_000)?;
        }
    }
    for (unit, decimals, step, size) in [
        (G, 2, 1, 2_000_000_001),
        (G, 2, 1, 4_294_967_295),
        (G, 2, 1, 0),
        // Decimals and steps that no profile with a coarse range has.
        (G, 1, 1, 0),
        (G, 0, 5, 0),
        (G, 255, 1, 0),
        (G, 4, 0, 0),
        (G, 4, 3, 0),
        (Mg, 4, 5, 0),
        (Ct, 6, 2, 0),
        (Gn, 5, 1, 0),
    ] {
        fit(rt, unit, decimals, step, size)?;
    }
    Ok(())
}
