// SR: how it starts, and what it makes of a sample.
ghost use Rattle.std.specs.Prelude.{◌≡◌};
ghost use Rattle.waiting.specs.Changes as meaning;

use answer::Answer;
use model::{Mode, Reaction, Scale, Sending, State, Weighing, answered, with_sending};
use weighing::{is_outside, net_of, weighed_by};
use weight::{Threshold, has_moved};

// SR comes: what was sent before is over.
pub fn with_threshold(sending: Sending, threshold: Threshold) -> Sending
    ensures { result ≡ meaning.with_threshold sending threshold.0 }
{
    Sending {
        threshold,
        mode: Mode::Off,
        ..sending
    }
}

// Its first answer is that of a stable sample.
pub fn started(scale: Scale, weighing: Weighing, sending: Sending) -> Sending
    ensures { result ≡ meaning.started_by scale weighing sending }
{
    if is_outside(scale, weighing) {
        return sending;
    }
    Sending {
        last: net_of(weighing),
        mode: Mode::OnChange,
        owed: false,
        outside: false,
        ..sending
    }
}

// A stable net counts as the last one from now on.
fn sent(weighing: Weighing, sending: Sending) -> Sending
    ensures { result ≡ meaning.sent weighing sending }
{
    let last = if weighing.stable {
        net_of(weighing)
    } else {
        sending.last
    };
    Sending {
        last,
        owed: !weighing.stable,
        outside: false,
        ..sending
    }
}

fn is_due(scale: Scale, weighing: Weighing, sending: Sending) -> bool
    ensures { result ≡ meaning.is_due_by scale weighing sending }
{
    if sending.owed {
        return weighing.stable;
    }
    has_moved(
        scale.resolution,
        sending.threshold,
        sending.last,
        net_of(weighing),
    )
}

// A sample that finds no command waiting while SR runs; it is the state's latest. A load out of range is told once.
#[tactic(auto, unfolding(crate::specs::Changes::change_reaction_by))]
pub fn changed(scale: Scale, state: State) -> Reaction
    ensures { result ≡ meaning.change_reaction_by scale state }
{
    let weighing = state.weighing;
    let sending = state.sending;
    if is_outside(scale, weighing) {
        let answer = if sending.outside {
            Answer::Nothing
        } else {
            weighed_by(scale, weighing)
        };
        let outside = Sending {
            outside: true,
            ..sending
        };
        answered(with_sending(state, outside), answer)
    } else if is_due(scale, weighing, sending) {
        answered(
            with_sending(state, sent(weighing, sending)),
            weighed_by(scale, weighing),
        )
    } else {
        let inside = Sending {
            outside: false,
            ..sending
        };
        answered(with_sending(state, inside), Answer::Nothing)
    }
}
