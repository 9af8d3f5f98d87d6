// Net weights printed: a size in micrograms, and the fields of that net weight and of its opposite.
use crate::show;
use std::io;
use weight::WeightUnit::{Ct, Dwt, G, Gn, Kg, Lb, Mg, Oz, Ozt};
use weight::{Micrograms, Resolution, WeightUnit};

// Of the fine range.
pub fn fine(unit: WeightUnit, decimals: u8, step: u8) -> Resolution {
    Resolution {
        unit,
        decimals,
        step,
        coarse: false,
    }
}

pub fn printed(rt: &impl Print, r: Resolution, net: i64) -> io::Result<()> {
    match weight::printed_number(r, Micrograms(net)) {
        Some(places) => show::field(rt, text::field_of(r.decimals, places, r.coarse)),
        None => show::text(rt, b" no"),
    }
}

pub fn both_signs(rt: &impl Print, r: Resolution, size: u64) -> io::Result<()> {
    printed(rt, r, show::above(size))?;
    printed(rt, r, show::below(size))
}

fn net(rt: &impl Print, r: Resolution, size: u64) -> io::Result<()> {
    show::text(rt, b"net")?;
    show::resolution(rt, r)?;
    show::number(rt, size)?;
    both_signs(rt, r, size)?;
    show::end(rt)
}

pub fn each(rt: &impl Print, r: Resolution, sizes: &[u64]) -> io::Result<()> {
    for size in sizes {
        net(rt, r, *size)?;
    }
    Ok(())
}

fn grams(rt: &impl Print, decimals: u8, sizes: &[u64]) -> io::Result<()> {
    each(rt, fine(G, decimals, 1), sizes)
}

// Document 01, "Bench cases": profile A is g, d 4, k 1.
pub fn bench_cases(rt: &impl Print) -> io::Result<()> {
    grams(rt, 4, &[14_256_049, 14_256_050, 49, 50])?;
    each(rt, fine(G, 4, 5), &[249, 250])?;
    each(rt, fine(Ct, 3, 1), &[99, 100])?;
    each(rt, fine(Oz, 5, 1), &[28_349_523])?;
    grams(rt, 4, &[220_000_000, 220_000_001, 1_000_000, 1_000_001])?;
    grams(rt, 4, &[10_000_050, 100_000_000])?;
    each(rt, fine(Mg, 3, 1), &[99_999_999, 100_000_000])?;
    each(rt, fine(Gn, 5, 1), &[64_798_910])?;
    each(rt, fine(Gn, 5, 2), &[64_798_910])
}

// Document 02, No. 5: one load in the eight other units, d 2, k 1.
pub fn request_cases(rt: &impl Print) -> io::Result<()> {
    for unit in [Ct, Kg, Lb, Oz, Ozt, Gn, Dwt, Mg] {
        each(rt, fine(unit, 2, 1), &[14_256_050])?;
    }
    Ok(())
}

// The weights that sources 003 and 000 print in commands and answers, each once.
pub fn manual_cases(rt: &impl Print) -> io::Result<()> {
    grams(rt, 1, &[4_875_200_000])?;
    grams(rt, 2, &[0, 1_230_000, 5_250_000, 10_000_000, 12_340_000])?;
    grams(rt, 2, &[15_000_000, 20_000_000, 67_890_000, 100_000_000])?;
    grams(rt, 2, &[100_120_000, 114_870_000, 115_230_000, 117_570_000])?;
    grams(rt, 2, &[129_070_000, 129_080_000, 129_090_000, 200_000_000])?;
    grams(rt, 2, &[200_010_000, 2_000_000_000])?;
    grams(rt, 3, &[256_000, 14_256_000, 100_000_000, 100_123_000])?;
    grams(rt, 3, &[123_456_000])?;
    grams(rt, 4, &[70_000_000, 200_123_400])
}

// The ends of what a load can be, of what is rounded, and of the machine's numbers.
pub fn range_cases(rt: &impl Print) -> io::Result<()> {
    grams(rt, 4, &[0, 1, 1_000_000_000, 2_147_483_647, 2_147_483_648])?;
    grams(rt, 4, &[4_147_483_648, 4_999_999_999, 5_000_000_000])?;
    grams(rt, 4, &[5_000_000_001])?;
    grams(
        rt,
        4,
        &[9_223_372_036_854_775_807, 9_223_372_036_854_775_808],
    )?;
    grams(rt, 6, &[0, 1])?;
    for (unit, decimals, step) in [
        (Mg, 0, 1),
        (Ct, 4, 1),
        (Oz, 6, 1),
        (Ozt, 0, 5),
        (Gn, 4, 1),
        (Dwt, 4, 2),
        (Kg, 6, 1),
        (Lb, 6, 5),
    ] {
        each(
            rt,
            fine(unit, decimals, step),
            &[5_000_000_000, 5_000_000_001],
        )?;
    }
    Ok(())
}

// The last size whose field fits, above zero or below, and the first that does not.
pub fn last_and_next(rt: &impl Print, r: Resolution, last: u64) -> io::Result<()> {
    net(rt, r, last)?;
    net(rt, r, last.saturating_add(1))
}

// No net is too wide for kg and lb.
pub fn width_cases(rt: &impl Print) -> io::Result<()> {
    for (unit, decimals, step, last) in [
        (G, 6, 1, 999_999_999),
        (G, 6, 1, 99_999_999),
        (Mg, 3, 1, 999_999_999),
        (Mg, 3, 1, 99_999_999),
        (Mg, 2, 1, 999_999_994),
        (Ct, 6, 5, 199_999_999),
        (Ct, 6, 5, 19_999_999),
        (Ct, 5, 1, 1_999_999_998),
        (Ct, 5, 1, 199_999_998),
        (Ct, 4, 2, 1_999_999_979),
        (Oz, 6, 1, 2_834_952_298),
        (Ozt, 6, 1, 3_110_347_664),
        (Gn, 5, 2, 647_989_099),
        (Gn, 5, 2, 64_798_909),
        (Gn, 4, 1, 647_989_096),
        (Dwt, 6, 1, 1_555_173_839),
        (Dwt, 6, 1, 155_517_383),
        (Dwt, 5, 5, 1_555_173_801),
    ] {
        last_and_next(rt, fine(unit, decimals, step), last)?;
    }
    Ok(())
}

// A gram, in decimals and steps just allowed and just not; the ties go through all that a profile can ask for.
pub fn resolution_cases(rt: &impl Print) -> io::Result<()> {
    for (unit, decimals, step) in [
        (G, 6, 1),
        (G, 7, 1),
        (G, 255, 1),
        (G, 4, 0),
        (G, 4, 3),
        (G, 4, 4),
        (G, 4, 6),
        (G, 4, 10),
        (G, 4, 255),
        (Mg, 3, 1),
        (Mg, 4, 5),
        (Ct, 6, 2),
        (Ct, 6, 5),
        (Oz, 7, 5),
        (Ozt, 7, 5),
        (Gn, 5, 1),
        (Gn, 5, 2),
        (Kg, 6, 1),
        (Kg, 7, 1),
        (Lb, 6, 1),
        (Lb, 7, 5),
    ] {
        each(rt, fine(unit, decimals, step), &[1_000_000])?;
    }
    Ok(())
}
