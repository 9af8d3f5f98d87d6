// What a device is made of: its profile and its state, and the tests whether they are refused (refusals 1 and 2).
// The crates above use the promises of the functions named here and the laws of proofs/.
#![tactic(auto)]

mod groups;
mod profile;
mod react;
mod refusal;
mod sending;
mod state;
mod weighing;

pub use groups::{with_display, with_line, with_mode, with_sending, with_waiting, with_weighing};
pub use profile::{Profile, Readability, Scale, Text, is_profile_allowed, resolution_in, scale_of};
pub use react::{Reaction, answered};
pub use refusal::Refusal;
pub use sending::{Mode, Sending, is_off};
pub use state::{Display, Pending, State, Waiting, is_pending, is_state_allowed, start_state};
pub use weighing::Weighing;
