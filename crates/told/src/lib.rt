// What the module holds and no answer shows, as one line of text.
#![tactic(auto)]

mod state;
mod words;

pub use state::put_state;
