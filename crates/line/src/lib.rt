// The line being received, and the judgement of a finished one.
#![tactic(auto)]

mod judge;
mod parameter;
mod receive;
mod run;
mod scan;

pub use judge::{Situation, Verdict, judge_line};
pub use receive::{LINE_LIMIT, Line, Received, cleared, receive_byte};
pub use run::{Run, receive_run};
