// What the input line is so far. Nothing of it is kept but a sample's number, so a line may have any length.
use script::{above_zero, below_zero};
use weight::Load;

#[derive(Clone, Copy, PartialEq)]
pub enum Entry {
    Start,
    // `s`, for a stable sample, or `u`.
    Letter(bool),
    Arrow,
    // `> `: every byte that follows goes to the module.
    Command,
    // A letter and a space, with what there is of the load.
    Sample(Sample),
    // No line that the program knows. Stays a case: the bytes that follow go by it as by any other.
    Other,
}

#[derive(Clone, Copy, PartialEq)]
pub struct Sample {
    pub stable: bool,
    pub negative: bool,
    // How many digits there are, and what they say.
    pub digits: u8,
    pub size: u64,
}

const MOST_DIGITS: u8 = 10;

// More than nine digits say, so that a tenth still fits.
const MOST_BEFORE_DIGIT: u64 = 1_000_000_000;

fn first(byte: u8) -> Entry {
    match byte {
        b's' => Entry::Letter(true),
        b'u' => Entry::Letter(false),
        b'>' => Entry::Arrow,
        _ => Entry::Other,
    }
}

fn after_letter(stable: bool, byte: u8) -> Entry {
    if byte == b' ' {
        Entry::Sample(Sample {
            stable,
            negative: false,
            digits: 0,
            size: 0,
        })
    } else {
        Entry::Other
    }
}

fn after_arrow(byte: u8) -> Entry {
    if byte == b' ' {
        Entry::Command
    } else {
        Entry::Other
    }
}

fn with_digit(sample: Sample, byte: u8) -> Entry {
    if byte.is_ascii_digit() && sample.digits < MOST_DIGITS && sample.size <= MOST_BEFORE_DIGIT {
        Entry::Sample(Sample {
            digits: sample.digits + 1,
            size: sample.size * 10 + (byte - b'0') as u64,
            ..sample
        })
    } else {
        Entry::Other
    }
}

// A minus stands before every digit, once.
fn after_space(sample: Sample, byte: u8) -> Entry {
    if byte == b'-' && !sample.negative && sample.digits < 1 {
        Entry::Sample(Sample {
            negative: true,
            ..sample
        })
    } else {
        with_digit(sample, byte)
    }
}

// The entry after one more byte that is no LF.
pub fn advanced(entry: Entry, byte: u8) -> Entry {
    match entry {
        Entry::Start => first(byte),
        Entry::Letter(stable) => after_letter(stable, byte),
        Entry::Arrow => after_arrow(byte),
        Entry::Command => Entry::Command,
        Entry::Sample(sample) => after_space(sample, byte),
        Entry::Other => Entry::Other,
    }
}

pub fn load_of(sample: Sample) -> Option<Load> {
    if sample.digits < 1 {
        None
    } else if sample.negative {
        below_zero(sample.size)
    } else {
        above_zero(sample.size)
    }
}
