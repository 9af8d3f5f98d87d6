// Numbers that a user types, to the microgram, as SR takes them.
use crate::show;
use std::io;
use weight::WeightUnit::{Ct, Dwt, G, Gn, Kg, Lb, Mg, Oz, Ozt};
use weight::{NoAmount, Tare, WeightUnit};

// What a text was read as.
pub fn found(rt: &impl Print, read: Result<Tare, NoAmount>) -> io::Result<()> {
    match read {
        Ok(m) => show::whole(rt, m.0 as i64),
        Err(NoAmount::TooLarge) => show::text(rt, b" too large"),
        Err(NoAmount::NotTyped) => show::text(rt, b" no"),
    }
}

fn typed(rt: &impl Print, unit: WeightUnit, text: &[u8]) -> io::Result<()> {
    show::text(rt, b"typed")?;
    show::unit(rt, unit)?;
    show::quoted(rt, text)?;
    found(rt, text::read_typed(unit, text))?;
    show::end(rt)
}

fn each(rt: &impl Print, unit: WeightUnit, list: &[&[u8]]) -> io::Result<()> {
    for text in list {
        typed(rt, unit, text)?;
    }
    Ok(())
}

fn grams(rt: &impl Print, list: &[&[u8]]) -> io::Result<()> {
    each(rt, G, list)
}

// Document 01's bench cases of TA, as SR reads them.
pub fn bench_cases(rt: &impl Print) -> io::Result<()> {
    grams(rt, &[b"100.00", b"-1", b"220.000001", b"1."])
}

// 1 to 10 characters, digits with at most one point that has digits on both sides, at most 6 decimals.
pub fn form_cases(rt: &impl Print) -> io::Result<()> {
    grams(
        rt,
        &[
            b"",
            b"5",
            b"50",
            b"5.0",
            b"50.0",
            b"50.00",
            b"50.000",
            b"50.0000",
            b"50.00000",
            b"50.000000",
        ],
    )?;
    grams(
        rt,
        &[
            b"050.000000",
            b"0050.000000",
            b"0",
            b"000.000001",
            b"0.123456",
            b"0.1234567",
        ],
    )?;
    grams(rt, &[b".5", b".", b"5..0", b"5.0.0", b"5.0.", b".5.0"])?;
    grams(
        rt,
        &[
            b"+5", b" 5", b"5 ", b"5 0", b"5,0", b"5/0", b"5:0", b"5e1", b"5.-1", b"five",
        ],
    )
}

// Texts in the middle between two micrograms, with the nearest texts around; g, ct and kg have none.
pub fn tie_cases(rt: &impl Print) -> io::Result<()> {
    each(rt, Mg, &[b"0.000499", b"0.0005", b"0.000501"])?;
    each(rt, Mg, &[b"0.002499", b"0.0025", b"123.4565"])?;
    each(rt, Oz, &[b"3.999999", b"4", b"4.000001", b"12"])?;
    each(rt, Ozt, &[b"0.312499", b"0.3125", b"0.312501"])?;
    each(rt, Gn, &[b"49.999999", b"50", b"50.000001", b"150.000000"])?;
    each(rt, Dwt, &[b"6.249999", b"6.25", b"6.250001", b"18.75"])?;
    each(rt, Lb, &[b"0.049999", b"0.05", b"0.050001", b"0.15"])?;
    grams(rt, &[b"0.000001"])?;
    each(rt, Ct, &[b"0.000001", b"0.000002", b"0.000003"])?;
    each(rt, Kg, &[b"0.000001", b"0.999999"])
}

// The last text up to the largest capacity and the first above it; then six decimals, and the largest text.
fn large(rt: &impl Print, unit: WeightUnit, list: &[&[u8]]) -> io::Result<()> {
    each(rt, unit, list)?;
    each(rt, unit, &[b"999.999999", b"9999999999"])
}

pub fn large_cases(rt: &impl Print) -> io::Result<()> {
    large(rt, G, &[b"1000.00000", b"1000.00001"])?;
    large(rt, Mg, &[b"1000000.00", b"1000000.01"])?;
    large(rt, Ct, &[b"5000.00000", b"5000.00001"])?;
    large(rt, Oz, &[b"35.273961", b"35.273962"])?;
    large(rt, Ozt, &[b"32.150746", b"32.150747"])?;
    large(rt, Gn, &[b"15432.3583", b"15432.3584"])?;
    large(rt, Dwt, &[b"643.014931", b"643.014932"])?;
    large(rt, Kg, &[b"1.000000", b"1.000001"])?;
    large(rt, Lb, &[b"2.204622", b"2.204623"])
}
