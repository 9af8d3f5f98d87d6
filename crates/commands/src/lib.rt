// What each command does: the reaction to an ended line.
// The crates above use the promise of the function named here and the laws of proofs/.
#![tactic(auto)]

mod perform;
mod run;

pub use perform::line_reaction;
