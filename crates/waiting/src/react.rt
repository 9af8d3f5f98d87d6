// The weighing that a command made, and its answer.
ghost use Rattle.std.specs.Prelude.{◌≡◌};
ghost use Rattle.waiting.specs.Waits as meaning;

use model::{Reaction, State, answered, with_weighing};
use weighing::Measured;

pub fn measured_reaction(state: State, measured: Measured) -> Reaction
    ensures { result ≡ meaning.measured_reaction state measured }
{
    answered(with_weighing(state, measured.weighing), measured.answer)
}
