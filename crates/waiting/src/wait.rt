// S, Z, T and SR: judged at a stable sample, and else waiting.
ghost use Rattle.std.specs.Prelude.{◌≡◌};
ghost use Rattle.model.specs.Groups as groups;
ghost use Rattle.waiting.specs.Waits as meaning;

use crate::change::started;
use crate::react::measured_reaction;
use answer::{Answer, S, Status, T, Z, plain};
use model::{
    Pending, Profile, Reaction, Scale, Sending, State, Waiting, Weighing, answered, with_sending,
    with_waiting,
};
use weighing::{Measured, tared_by, unchanged, weighed_by, zeroed_by};

// The identification of what waits. Stays a function: as a number of `From` it would not say which number.
fn place_of(pending: Pending) -> u8
    ensures { result ≡ meaning.place_of_pending pending }
{
    match pending {
        Pending::Weigh | Pending::Change => S,
        Pending::Zero => Z,
        Pending::Tare => T,
    }
}

pub fn not_waiting() -> Waiting
    ensures { result ≡ groups.not_waiting }
{
    Waiting {
        pending: None,
        unstable: 0,
    }
}

// What a waiting command makes of a stable sample.
fn settled(scale: Scale, pending: Pending, weighing: Weighing) -> Measured
    ensures { result ≡ meaning.settled_by scale pending weighing }
{
    match pending {
        Pending::Weigh | Pending::Change => unchanged(weighing, weighed_by(scale, weighing)),
        Pending::Zero => zeroed_by(scale, weighing, Z, Status::A),
        Pending::Tare => tared_by(scale, weighing, T),
    }
}

// SR runs from then on.
fn sending_of(scale: Scale, pending: Pending, weighing: Weighing, sending: Sending) -> Sending
    ensures { result ≡ meaning.sending_by scale pending weighing sending }
{
    match pending {
        Pending::Change => started(scale, weighing, sending),
        Pending::Weigh | Pending::Zero | Pending::Tare => sending,
    }
}

// The command is answered by the latest sample of the state.
#[tactic(auto, unfolding(crate::specs::Waits::settled_reaction_by))]
pub fn settled_reaction(scale: Scale, state: State, pending: Pending) -> Reaction
    ensures { result ≡ meaning.settled_reaction_by scale state pending }
{
    let weighing = state.weighing;
    measured_reaction(
        with_sending(state, sending_of(scale, pending, weighing, state.sending)),
        settled(scale, pending, weighing),
    )
}

// The latest sample is judged if it is stable; otherwise the command waits. No command has no answer.
#[tactic(auto, unfolding(crate::specs::Waits::begun_by))]
pub fn begun(scale: Scale, state: State, pending: Option<Pending>) -> Reaction
    ensures { result ≡ meaning.begun_of scale state pending }
{
    let judged = state.weighing.sampled & state.weighing.stable;
    match pending {
        Some(command) if judged => settled_reaction(scale, state, command),
        None if judged => answered(state, Answer::Nothing),
        _ => {
            let waiting = Waiting {
                pending,
                unstable: 0,
            };
            answered(with_waiting(state, waiting), Answer::Nothing)
        }
    }
}

// One more unstable sample while a command waits.
#[tactic(auto, unfolding(crate::specs::Waits::waited))]
pub fn waited(profile: Profile, state: State, pending: Pending) -> Reaction
    ensures { result ≡ meaning.waited profile state pending }
{
    let unstable = state.waiting.unstable.saturating_add(1);
    if profile.timeout <= unstable {
        return answered(
            with_waiting(state, not_waiting()),
            plain(place_of(pending), Status::I),
        );
    }
    let waiting = Waiting {
        pending: Some(pending),
        unstable,
    };
    answered(with_waiting(state, waiting), Answer::Nothing)
}
