// What a line is made of, each part but the first word with a space before it; and numbers of either sign from their size.
use std::io;
use weight::{LastPlaces, Resolution, WeightUnit};

pub fn text(rt: &impl Print, bytes: &[u8]) -> io::Result<()> {
    rt.write_all(bytes)
}

// A text between quotes, so that its ends are seen.
pub fn quoted(rt: &impl Print, bytes: &[u8]) -> io::Result<()> {
    text(rt, b" \"")?;
    text(rt, bytes)?;
    text(rt, b"\"")
}

pub fn number(rt: &impl Print, n: u64) -> io::Result<()> {
    text(rt, b" ")?;
    rt.print(n)
}

// Three characters.
pub fn unit(rt: &impl Print, u: WeightUnit) -> io::Result<()> {
    let name = text::unit_text(u);
    text(rt, b" ")?;
    text(rt, name)?;
    for _ in name.len()..3 {
        text(rt, b" ")?;
    }
    Ok(())
}

// All ten cells, also of a field that does not fit.
pub fn field(rt: &impl Print, cells: Option<[u8; 10]>) -> io::Result<()> {
    if cells.is_none() {
        text(rt, b" no")?;
    }
    text(rt, b" [")?;
    text(rt, &text::field_cells(cells))?;
    text(rt, b"]")
}

// A number of at most ten characters, as a field with no decimals.
pub fn whole(rt: &impl Print, n: i64) -> io::Result<()> {
    field(rt, text::field_of(0, LastPlaces(n), false))
}

// The range: a word for the coarse one alone.
pub fn range(rt: &impl Print, coarse: bool) -> io::Result<()> {
    if coarse {
        text(rt, b" coarse")?;
    }
    Ok(())
}

pub fn resolution(rt: &impl Print, r: Resolution) -> io::Result<()> {
    unit(rt, r.unit)?;
    number(rt, r.decimals as u64)?;
    number(rt, r.step as u64)?;
    range(rt, r.coarse)?;
    if weight::is_allowed(r) {
        text(rt, b" allowed")
    } else {
        text(rt, b" refused")
    }
}

pub fn end(rt: &impl Print) -> io::Result<()> {
    text(rt, b"\n")
}

// The number of this size; the largest one where there is none.
pub fn above(size: u64) -> i64 {
    i64::try_from(size).unwrap_or(i64::MAX)
}

// The number of this size below zero; the least one where there is none.
pub fn below(size: u64) -> i64 {
    0_i64.saturating_sub_unsigned(size)
}
