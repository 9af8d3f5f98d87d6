// The host's reader and writer of answer lines.
// The programs above use the promises of the functions named here and the laws of proofs/.
#![tactic(auto)]

mod frame;
mod guess;
mod named_line;
mod reader;
mod refusal;
mod writer;

pub use reader::{ReadLine, ReadText, read_line};
pub use refusal::Refusal;
pub use writer::write_line;
