// What the module answers: the commands by their place, and answers as values.
// The crates above use the promises of the functions named here and the laws of proofs/.
#![tactic(auto)]

mod answer;
mod command;
mod name_table;

pub use answer::{Answer, Error, Head, Number, Status, plain};
pub use command::{
    D, DW, I0, I1, I2, I3, I4, I5, Kind, LAST, LIST_LENGTH, LISTED_LENGTH, M21, NONE, RESET, S, SI,
    SIR, SR, T, TA, TAC, TI, Z, ZI, has_text, kind_of, level_of, may_wait, name_length, name_of,
    needs_sample, takes_parameters,
};
pub use name_table::find_command;
