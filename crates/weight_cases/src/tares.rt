// Typed tares in the two ranges: C, F, a resolution and a text; what is stored, and the field of TA's answer or L.
use crate::{nets, show, typed};
use std::io;
use weight::WeightUnit::{G, Kg, Lb, Oz};
use weight::{Micrograms, NoAmount, Resolution, Tare, UNITS, WeightUnit};

#[derive(Clone, Copy)]
struct Limits {
    capacity: u32,
    fine: u32,
}

// The stored tare decides the range of its answer.
fn printed(rt: &impl Print, limits: Limits, r: Resolution, tare: Tare) -> io::Result<()> {
    let weight = Micrograms::from(tare);
    if weight::is_tare_within(tare, limits.capacity) {
        nets::printed(rt, weight::resolution_at(limits.fine, r, weight), weight.0)
    } else {
        show::text(rt, b" L")
    }
}

fn answered(
    rt: &impl Print,
    limits: Limits,
    r: Resolution,
    read: Result<Tare, NoAmount>,
) -> io::Result<()> {
    match read {
        Ok(tare) => printed(rt, limits, r, tare),
        Err(_) => show::text(rt, b" L"),
    }
}

fn tare(rt: &impl Print, limits: Limits, r: Resolution, text: &[u8]) -> io::Result<()> {
    show::text(rt, b"tare")?;
    show::number(rt, limits.capacity as u64)?;
    show::number(rt, limits.fine as u64)?;
    show::resolution(rt, r)?;
    show::quoted(rt, text)?;
    let read = text::read_preset(limits.capacity, limits.fine, r, text);
    typed::found(rt, read)?;
    answered(rt, limits, r, read)?;
    show::end(rt)
}

fn each(
    rt: &impl Print,
    capacity: u32,
    fine: u32,
    r: Resolution,
    list: &[&[u8]],
) -> io::Result<()> {
    for text in list {
        tare(rt, Limits { capacity, fine }, r, text)?;
    }
    Ok(())
}

// Profile A, but for its fine limit.
fn grams(rt: &impl Print, fine: u32, list: &[&[u8]]) -> io::Result<()> {
    each(rt, 220_000_000, fine, nets::fine(G, 4, 1), list)
}

// With another step.
fn steps(rt: &impl Print, step: u8, list: &[&[u8]]) -> io::Result<()> {
    each(rt, 220_000_000, 100_000_000, nets::fine(G, 4, step), list)
}

// Document 02, No. 7.
pub fn request_cases(rt: &impl Print) -> io::Result<()> {
    grams(
        rt,
        100_000_000,
        &[
            b"100",
            b"100.00004",
            b"100.0004",
            b"100.0005",
            b"220.0004",
            b"220.0005",
            b"99.99995",
            b"50",
        ],
    )?;
    grams(rt, 220_000_000, &[b"220.0004", b"220.00004", b"100.0004"])?;
    grams(rt, 100_000_050, &[b"100.00005", b"100.000051"])?;
    grams(rt, 219_999_999, &[b"219.999999", b"220.0004", b"219.99994"])?;
    grams(rt, 0, &[b"0", b"0.000001", b"0.0004", b"0.0005", b"1."])?;
    steps(rt, 2, &[b"100.000999", b"100.001"])?;
    steps(rt, 5, &[b"100.002499", b"100.0025"])?;
    steps(rt, 3, &[b"1", b"100.0005"])
}

// An ounce is above this F by an eighth of a microgram, and its stored tare is not.
fn ounces(rt: &impl Print, fine: u32) -> io::Result<()> {
    each(
        rt,
        220_000_000,
        fine,
        nets::fine(Oz, 5, 1),
        &[b"1.00000", b"1.00004", b"1.00005", b"0.99999"],
    )
}

fn large(
    rt: &impl Print,
    fine: u32,
    unit: WeightUnit,
    decimals: u8,
    list: &[&[u8]],
) -> io::Result<()> {
    each(rt, 1_000_000_000, fine, nets::fine(unit, decimals, 1), list)
}

pub fn unit_cases(rt: &impl Print) -> io::Result<()> {
    ounces(rt, 28_349_522)?;
    ounces(rt, 28_349_523)?;
    ounces(rt, 28_349_524)?;
    large(
        rt,
        453_592_370,
        Lb,
        5,
        &[b"1", b"1.00004", b"1.00005", b"0.99999"],
    )?;
    large(
        rt,
        500_000_000,
        Kg,
        6,
        &[b"0.5", b"0.500004", b"0.500005", b"1", b"1.000001"],
    )
}

// The largest texts, and the least.
fn largest(rt: &impl Print, unit: WeightUnit) -> io::Result<()> {
    large(
        rt,
        0,
        unit,
        2,
        &[b"9999999999", b"9999.99999", b"999.999999", b"0.000001"],
    )?;
    large(
        rt,
        999_999_999,
        unit,
        2,
        &[b"9999999999", b"9999.99999", b"999.999999"],
    )
}

// No product passes 64 bits; of kg and lb, either side of the largest number whose product has 63.
pub fn large_cases(rt: &impl Print) -> io::Result<()> {
    for unit in UNITS {
        largest(rt, unit)?;
    }
    large(rt, 0, Kg, 5, &[b"9.223372", b"9.223373"])?;
    large(rt, 0, Lb, 5, &[b"20.334054", b"20.334055"])
}
