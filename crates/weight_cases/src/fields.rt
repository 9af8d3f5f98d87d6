// Fields written and read back, and texts that are no field.
use crate::show;
use std::io;
use text::FieldNumber;
use weight::LastPlaces;

// The decimals, the last places and the range.
fn found(rt: &impl Print, read: Option<FieldNumber>) -> io::Result<()> {
    match read {
        Some(number) => {
            show::number(rt, number.decimals as u64)?;
            show::whole(rt, number.places.0)?;
            show::range(rt, number.coarse)
        }
        None => show::text(rt, b" no"),
    }
}

fn there_and_back(rt: &impl Print, decimals: u8, places: i64, coarse: bool) -> io::Result<()> {
    let cells = text::field_of(decimals, LastPlaces(places), coarse);
    show::field(rt, cells)?;
    found(rt, text::read_field(&text::field_cells(cells)))
}

fn written(rt: &impl Print, decimals: u8, size: u64, coarse: bool) -> io::Result<()> {
    show::text(rt, b"written")?;
    show::number(rt, decimals as u64)?;
    show::range(rt, coarse)?;
    show::number(rt, size)?;
    there_and_back(rt, decimals, show::above(size), coarse)?;
    there_and_back(rt, decimals, show::below(size), coarse)?;
    show::end(rt)
}

fn read(rt: &impl Print, text: &[u8]) -> io::Result<()> {
    show::text(rt, b"read")?;
    show::quoted(rt, text)?;
    found(rt, text::read_field(text))?;
    show::end(rt)
}

// Either side of each place where the text gets longer.
fn lengths(rt: &impl Print, decimals: u8, coarse: bool) -> io::Result<()> {
    written(rt, decimals, 0, coarse)?;
    for digits in 1..=9 {
        let power = 10_u64.pow(digits);
        written(rt, decimals, power.saturating_sub(1), coarse)?;
        written(rt, decimals, power, coarse)?;
    }
    Ok(())
}

pub fn written_cases(rt: &impl Print) -> io::Result<()> {
    for decimals in 0..=7 {
        lengths(rt, decimals, false)?;
    }
    for (decimals, size) in [
        (0, 9_999_999_999),
        (0, 10_000_000_000),
        (0, 9_223_372_036_854_775_807),
        (0, 9_223_372_036_854_775_808),
        (6, 9_223_372_036_854_775_808),
        (4, 142_560),
        (4, 1_234_567_890),
        (0, 1_000_000_001),
        (0, 9_000_000_000),
        (0, 9_080_706_054),
        (6, 908_070_605),
        (255, 1),
    ] {
        written(rt, decimals, size, false)?;
    }
    Ok(())
}

fn each(rt: &impl Print, list: &[&[u8]]) -> io::Result<()> {
    for text in list {
        read(rt, text)?;
    }
    Ok(())
}

pub fn read_cases(rt: &impl Print) -> io::Result<()> {
    each(
        rt,
        &[
            b"         0",
            b"         7",
            b"        -7",
            b"9999999999",
            b"-999999999",
            b"1000000000",
        ],
    )?;
    each(
        rt,
        &[
            b"       0.0",
            b"       0.1",
            b"      -0.1",
            b"   14.2560",
            b"  -14.2560",
            b"  0.000001",
        ],
    )?;
    each(
        rt,
        &[
            b" -0.000001",
            b"999.999999",
            b"-99.999999",
            b"99999999.9",
            b"-9999999.9",
        ],
    )
}

// No text other than the rule's is read.
pub fn other_cases(rt: &impl Print) -> io::Result<()> {
    each(
        rt,
        &[
            b"",
            b"          ",
            b"  14.2560",
            b"    14.2560",
            b"  014.2560",
            b"        00",
            b"        01",
        ],
    )?;
    each(
        rt,
        &[
            b"     00.10",
            b"       -01",
            b"    -0.000",
            b"        -0",
            b"         -",
            b"         .",
        ],
    )?;
    each(
        rt,
        &[
            b"        -.",
            b"        1.",
            b"        .5",
            b"       -.5",
            b" 0.1234567",
            b"1.12345678",
        ],
    )?;
    each(
        rt,
        &[
            b"     1.2.3",
            b"     1..23",
            b"   14. 256",
            b"   1 4.256",
            b"  - 14.256",
        ],
    )?;
    each(
        rt,
        &[
            b"  --14.256",
            b"   14.-256",
            b"   14.256-",
            b"   +14.256",
            b"0000000014",
            b"     14/25",
        ],
    )?;
    each(rt, &[b"     14:25", b"    \t14.25", b"    14.25g"])
}

// Nine characters and a space.
pub fn coarse_written_cases(rt: &impl Print) -> io::Result<()> {
    for decimals in 0..=6 {
        lengths(rt, decimals, true)?;
    }
    for (decimals, size) in [
        (1, 48_752),
        (3, 150_000),
        (5, 9_223_372_036_854_775_807),
        (5, 9_223_372_036_854_775_808),
        (7, 1),
        (255, 1),
    ] {
        written(rt, decimals, size, true)?;
    }
    Ok(())
}

pub fn coarse_read_cases(rt: &impl Print) -> io::Result<()> {
    each(
        rt,
        &[
            b"   4875.2 ",
            b"  150.000 ",
            b"   14.256 ",
            b"      0.0 ",
            b"      0.1 ",
            b"     -0.1 ",
        ],
    )?;
    each(
        rt,
        &[
            b"   -0.001 ",
            b"  0.00001 ",
            b" -0.00001 ",
            b"999.99999 ",
            b"-99.99999 ",
            b"9999999.9 ",
        ],
    )?;
    each(rt, &[b"-999999.9 "])
}

// One to five decimals, and else as in the fine range.
pub fn coarse_other_cases(rt: &impl Print) -> io::Result<()> {
    each(
        rt,
        &[
            b"      150 ",
            b"        0 ",
            b" 99999999 ",
            b"       -1 ",
            b" 0.000001 ",
            b"-0.000001 ",
        ],
    )?;
    each(
        rt,
        &[
            b"   -0.000 ",
            b"     -0.0 ",
            b"     00.5 ",
            b"     01.5 ",
            b"       5. ",
            b"       .5 ",
        ],
    )?;
    each(
        rt,
        &[
            b"      -.5 ",
            b"     1.5  ",
            b"    1 5.0 ",
            b"    +1.50 ",
            b"      1,5 ",
            b"    1.5.0 ",
        ],
    )?;
    each(rt, &[b"     1.5 0", b"    4875.2 ", b"  4875.2 "])
}
