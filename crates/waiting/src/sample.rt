// What a sample makes of the state.
ghost use Rattle.std.specs.Prelude.{◌≡◌};
ghost use Rattle.waiting.specs.Parts as parts;
ghost use Rattle.waiting.specs.Waits as meaning;

use crate::change::changed;
use crate::wait::{not_waiting, settled_reaction, waited};
use answer::Answer;
use model::{
    Mode, Pending, Profile, Reaction, State, answered, is_off, is_pending, scale_of, with_waiting,
    with_weighing,
};
use weighing::{weighed_by, with_sample};
use weight::Load;

// A sample that finds no command waiting; it is the state's latest.
fn unasked(profile: Profile, state: State) -> Reaction
    ensures { result ≡ meaning.unasked_as state.sending.mode profile state }
{
    let weighing = state.weighing;
    match state.sending.mode {
        Mode::Off => answered(state, Answer::Nothing),
        Mode::EachSample => answered(state, weighed_by(scale_of(profile, weighing), weighing)),
        Mode::OnChange => changed(scale_of(profile, weighing), state),
    }
}

// A sample that finds a command waiting; it is the state's latest.
fn attended(profile: Profile, state: State, pending: Pending) -> Reaction
    ensures { result ≡ parts.attended_reaction profile state pending }
{
    if state.weighing.stable {
        let free = with_waiting(state, not_waiting());
        settled_reaction(scale_of(profile, state.weighing), free, pending)
    } else {
        waited(profile, state, pending)
    }
}

// Whether a sample may be answered: a command waits, or SIR or SR runs.
pub fn is_awaited(state: State) -> bool
    ensures { result ≡ meaning.is_awaited state }
{
    is_pending(state.waiting.pending) | !is_off(state.sending.mode)
}

// The sample is the latest.
pub fn sampled(state: State, load: Load, stable: bool) -> State
    ensures { result ≡ meaning.sampled_state state load stable }
{
    with_weighing(state, with_sample(state.weighing, load, stable))
}

// What the latest sample of a state gives.
fn latest_reaction(profile: Profile, state: State) -> Reaction
    ensures { result ≡ parts.latest_reaction profile state }
{
    match state.waiting.pending {
        Some(pending) => attended(profile, state, pending),
        None => unasked(profile, state),
    }
}

// The groups that a sample can change, of another state. Line and display stay, so no way of a sample has to copy them.
fn with_groups_of(state: State, other: State) -> State
    ensures { result ≡ parts.with_groups_of state other }
{
    State {
        line: state.line,
        display: state.display,
        ..other
    }
}

pub fn sample_reaction(profile: Profile, state: State, load: Load, stable: bool) -> Reaction
    ensures { result ≡ meaning.sample_reaction profile state load stable }
{
    let reaction = latest_reaction(profile, sampled(state, load, stable));
    answered(with_groups_of(state, reaction.state), reaction.answer)
}
