// The script that `replay` plays: what each of its lines asks for. `bench` has its loads from here.
// The programs above use the promises of the functions named here.
#![tactic(auto)]

mod hex;
mod marked;
mod number;
mod order;
mod profile;
mod words;

pub use marked::{put_bytes, put_marks};
pub use number::{above_zero, below_zero};
pub use order::{Order, order_of, sent_byte};
pub use profile::{Numbers, UnitNumbers, with_fine, with_numbers, with_unit};
