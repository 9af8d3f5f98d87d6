// The units: text, its length and nanograms; and reading texts back.
use crate::show;
use std::io;
use weight::{UNITS, WeightUnit};

fn unit(rt: &impl Print, u: WeightUnit) -> io::Result<()> {
    show::text(rt, b"unit")?;
    show::unit(rt, u)?;
    show::number(rt, text::unit_text(u).len() as u64)?;
    show::number(rt, weight::nanograms_of(u).0)?;
    show::end(rt)
}

fn named(rt: &impl Print, text: &[u8]) -> io::Result<()> {
    show::text(rt, b"named")?;
    match text::read_unit(text) {
        Some(u) => show::unit(rt, u)?,
        None => show::text(rt, b" no ")?,
    }
    show::quoted(rt, text)?;
    show::end(rt)
}

fn each(rt: &impl Print, list: &[&[u8]]) -> io::Result<()> {
    for text in list {
        named(rt, text)?;
    }
    Ok(())
}

pub fn cases(rt: &impl Print) -> io::Result<()> {
    for u in UNITS {
        unit(rt, u)?;
    }
    each(
        rt,
        &[
            b"g", b"mg", b"ct", b"oz", b"ozt", b"GN", b"dwt", b"kg", b"lb",
        ],
    )?;
    each(
        rt,
        &[
            b"", b"G", b"gn", b"KG", b"g ", b" g", b"m", b"dw", b"ozt ", b"oztt", b"DWT", b"k",
            b"lbs",
        ],
    )
}
