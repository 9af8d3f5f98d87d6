// The device: its calls.
// The crates above use the promises of the functions named here and the laws of proofs/.
#![tactic(auto)]

mod buffer;
mod bytes;
mod call;

pub use bytes::{BytesTaken, Taken, take_bytes};
pub use call::{Called, power_on, take_byte, take_sample};
