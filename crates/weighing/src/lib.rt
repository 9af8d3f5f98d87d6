// Zero, tare and the latest sample: gross and net, and what S, Z, T and their kin make of them.
// The crates above use the promises of the functions named here and the definitions of specs/.
#![tactic(auto)]

mod weighing;

pub use weighing::{
    Measured, is_outside, net_of, stability, tare_answer, tared_by, unchanged, weighed_by,
    with_sample, with_tare, with_unit, zeroed_by,
};
