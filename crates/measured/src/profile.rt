// A profile of 162 bytes: C, U, R, W and F, decimals and step of each unit, and the texts of I2 to I5, each after its length.
use model::{Profile, Readability, Text};
use text::{byte_at, part};

// With two bytes to spare.
const SIZE: usize = 164;

fn number_at(bytes: &[u8], at: usize) -> u32 {
    let four = part(bytes, at, 4);
    u32::from_le_bytes([
        byte_at(four, 0),
        byte_at(four, 1),
        byte_at(four, 2),
        byte_at(four, 3),
    ])
}

fn row_at(rows: &[u8], at: usize) -> Readability {
    let row = part(rows, at, 2);
    Readability {
        decimals: byte_at(row, 0),
        step: byte_at(row, 1),
    }
}

// The length is at `at`, and the text after it; 0 past the end.
fn text_at<const N: usize>(bytes: &[u8], at: usize) -> Text<N> {
    let mut held = [0u8; N];
    let given = part(bytes, at, bytes.len());
    for (cell, byte) in held.iter_mut().zip(part(given, 1, N)) {
        *cell = *byte;
    }
    Text {
        bytes: held,
        len: byte_at(given, 0),
    }
}

// The `n`-th of several.
pub fn profile_at(profiles: &[u8], n: u32) -> Profile {
    let bytes = part(profiles, n as usize * SIZE, SIZE);
    let rows = part(bytes, 20, 18);
    Profile {
        capacity: number_at(bytes, 0),
        fine: number_at(bytes, 16),
        underload: number_at(bytes, 4),
        zeroing: number_at(bytes, 8),
        timeout: number_at(bytes, 12),
        // In the order of the units.
        readability: std::array::from_fn(|k| row_at(rows, k * 2)),
        model: text_at(bytes, 38),
        software: text_at(bytes, 79),
        serial: text_at(bytes, 120),
        release: text_at(bytes, 141),
    }
}
