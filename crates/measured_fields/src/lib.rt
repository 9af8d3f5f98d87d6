// The ten characters of numbers behind one function on byte slices, for the benchmark's rows of one field by itself. It is a crate and,
// as `measured_fields_c`, a static library of its own, as `measured_buffers` is: one caller more of the field would change what a
// compiler makes of the others.
// A record of eight bytes has the decimals, whether the number is below zero, and its size, the low byte first.
#![tactic(auto)]

use measured::{Sums, with_bytes, with_number};
use text::{field_cells, field_of};
use weight::signed_places;

const RECORD: usize = 8;

fn field_in(record: &[u8; RECORD]) -> Option<[u8; 10]> {
    let [decimals, below, a, b, c, d, e, f] = *record;
    let size = u64::from_le_bytes([a, b, c, d, e, f, 0, 0]);
    field_of(decimals, signed_places(below != 0, size), false)
}

// The checksum of each field and of whether it holds its number.
pub fn proved_fields(numbers: &[u8]) -> u64 {
    let mut sums = Sums::default();
    for record in numbers.as_chunks::<RECORD>().0 {
        let field = field_in(record);
        let fits = field.is_some() as u64;
        sums = with_bytes(with_number(sums, fits), &field_cells(field));
    }
    sums.high
}
