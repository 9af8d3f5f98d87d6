// Which answers can be formed: document 01's list for the reader and the writer of lines.
// The crates above use the promises of the functions named here and the laws of proofs/.
#![tactic(auto)]

mod forms;

pub use forms::{can_form, plain_form};
