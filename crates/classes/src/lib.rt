// The class of a byte, and searches through a text by classes.
// The crates above use the promises of the functions named here and the laws of proofs/.
#![tactic(auto)]

mod search;
mod table;

pub use search::{ALL, CONTROLS, DIGITS, POINTS, QUOTES, SPACES, first_in};
