// The module and the host's reader behind three functions on byte slices, for the benchmark of tests/benchmark, which has the same
// loops over two Rust implementations. What is counted there is the proved code, so these loops do no more than feed it. The three
// promise only to end and to stay within bounds: what they call has the contracts.
#![tactic(auto)]

mod calls;
mod lines;
mod profile;
mod sums;

// For the loops of `measured_buffers`, which has whole buffers too, and of `measured_fields`, and for the exports of `measured_c`.
pub use calls::{Order, RECORD, added, called, order_of, proved_calls, room_of, with_call};
pub use lines::{proved_lines, proved_rewritten};
pub use profile::profile_at;
pub use sums::{Sums, with_bytes, with_number};
