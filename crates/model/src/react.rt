// What a call makes of the state, and its answer as a value.
ghost use Rattle.std.specs.Prelude.{◌≡◌};
ghost use Rattle.model.specs.Groups.{reaction};

use crate::state::State;
use answer::Answer;

#[derive(Clone, Copy)]
pub struct Reaction {
    pub state: State,
    pub answer: Answer,
}

pub fn answered(state: State, answer: Answer) -> Reaction
    ensures { result ≡ reaction state answer }
{
    Reaction { state, answer }
}
