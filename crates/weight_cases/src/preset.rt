// Typed tares, in micrograms: a resolution and what a text is stored as, where the fine range has no end.
use crate::{nets, show, typed};
use std::io;
use weight::WeightUnit::{Dwt, G, Gn, Kg, Lb, Mg, Oz, Ozt};
use weight::{Resolution, UNITS, WeightUnit};

// C and F of such a profile.
const LARGEST_CAPACITY: u32 = 1_000_000_000;

fn preset(rt: &impl Print, r: Resolution, text: &[u8]) -> io::Result<()> {
    show::text(rt, b"preset")?;
    show::resolution(rt, r)?;
    show::quoted(rt, text)?;
    typed::found(
        rt,
        text::read_preset(LARGEST_CAPACITY, LARGEST_CAPACITY, r, text),
    )?;
    show::end(rt)
}

fn each(
    rt: &impl Print,
    unit: WeightUnit,
    decimals: u8,
    step: u8,
    list: &[&[u8]],
) -> io::Result<()> {
    for text in list {
        preset(rt, nets::fine(unit, decimals, step), text)?;
    }
    Ok(())
}

// Document 01, "Bench cases".
pub fn bench_cases(rt: &impl Print) -> io::Result<()> {
    each(rt, G, 4, 1, &[b"100.00", b"-1", b"220.000001", b"1."])
}

// Document 02, No. 3, and its corners.
pub fn request_cases(rt: &impl Print) -> io::Result<()> {
    each(
        rt,
        G,
        4,
        1,
        &[b"220.000049", b"220.00005", b"0.00005", b"0.000049"],
    )?;
    each(rt, G, 4, 5, &[b"0.00025", b"0.000249"])?;
    each(rt, G, 0, 5, &[b"1002.4", b"1002.5"])?;
    each(rt, Oz, 0, 5, &[b"37.4", b"37.5"])?;
    each(rt, Oz, 5, 1, &[b"4", b"1.000005", b"1.000004"])?;
    // Document 02, No. 5, with the two.
    each(rt, Oz, 2, 1, &[b"4"])?;
    each(rt, Kg, 2, 1, &[b"0.224", b"0.225", b"0.004"])?;
    // No number, and no profile's resolution.
    each(rt, G, 4, 1, &[b"00000000001"])?;
    each(rt, G, 4, 0, &[b"1"])?;
    each(rt, G, 4, 3, &[b"1"])?;
    each(rt, Gn, 5, 1, &[b"1"])?;
    each(rt, Oz, 7, 5, &[b"1"])
}

// Half a display step of each k, and what is just below it; the largest text.
fn halves(rt: &impl Print, unit: WeightUnit) -> io::Result<()> {
    each(rt, unit, 2, 1, &[b"1.005", b"1.004999", b"9999999999"])?;
    each(rt, unit, 2, 2, &[b"1.01", b"1.009999", b"9999999999"])?;
    each(rt, unit, 2, 5, &[b"1.025", b"1.024999", b"9999999999"])?;
    each(rt, unit, 0, 5, &[b"2.5", b"2.499999", b"9999999999"])
}

pub fn first_tie_cases(rt: &impl Print) -> io::Result<()> {
    for unit in UNITS {
        halves(rt, unit)?;
    }
    Ok(())
}

// Decimals in the middle between two micrograms, with what is rounded to them; the steps of g, mg, ct and kg are whole micrograms.
pub fn second_tie_cases(rt: &impl Print) -> io::Result<()> {
    each(rt, Oz, 5, 1, &[b"4", b"3.999995", b"4.000004", b"3.999994"])?;
    each(
        rt,
        Ozt,
        5,
        1,
        &[b"0.3125", b"0.312495", b"0.312504", b"0.312494"],
    )?;
    each(
        rt,
        Gn,
        4,
        1,
        &[b"50", b"49.99995", b"50.00004", b"49.99994"],
    )?;
    each(
        rt,
        Dwt,
        4,
        1,
        &[b"6.25", b"6.24995", b"6.25004", b"6.24994"],
    )?;
    each(
        rt,
        Lb,
        5,
        1,
        &[b"0.05", b"0.049995", b"0.050004", b"0.049994"],
    )?;
    each(rt, Mg, 3, 1, &[b"0.0005", b"0.000499"])
}
