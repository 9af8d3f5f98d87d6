// Renders an answer into a lent buffer.
// The crates above use the promises of the functions named here.
#![tactic(auto)]

mod emit;

pub use emit::emit_answer;
