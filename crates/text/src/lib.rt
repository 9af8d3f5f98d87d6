// The texts of weights: the ten-character field written and read, the texts of units, and typed numbers read.
// The crates above use the promises of the functions named here and the laws of proofs/.
#![tactic(auto)]

mod field;
mod reading;
mod scanning;
mod typed;
mod unit_texts;

pub use field::{field_cells, field_of};
pub use reading::{FieldNumber, read_field};
pub use scanning::{byte_at, first_at, first_space, is_printable, part, same_text};
pub use typed::{read_preset, read_typed};
pub use unit_texts::{is_unit, read_code, read_unit, unit_code, unit_text};
