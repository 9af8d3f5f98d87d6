// Commands that wait for a stable sample, and what a sample makes of the state.
// The crates above use the promises of the functions named here and the laws of proofs/.
#![tactic(auto)]

mod change;
mod react;
mod sample;
mod wait;

pub use change::with_threshold;
pub use react::measured_reaction;
pub use sample::{is_awaited, sample_reaction, sampled};
pub use wait::{begun, not_waiting};
