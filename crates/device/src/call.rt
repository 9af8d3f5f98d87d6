// The calls of the module. Each is total and trusts no caller: a profile or state that is not allowed is refused before anything is
// changed, and a refusal gives the given state back and leaves the buffer as it was. Most inputs are not answered: they change one
// group of the state and need no buffer.
ghost use Rattle.std.specs.Prelude.{◌≡◌, Ok, Err};
ghost use Rattle.device.specs.Calls.{Gives, PowerOnCalled, ByteCalled, SampleCalled, delivered, admitted_by};

use crate::buffer::emit_due;
use answer::{Answer, I4};
use commands::line_reaction;
use line::receive_byte;
use model::{
    Profile, Reaction, Refusal, State, answered, is_profile_allowed, is_state_allowed, start_state,
    with_line,
};
use waiting::{is_awaited, sample_reaction, sampled};
use weight::Load;

#[derive(Clone, Copy)]
pub struct Called {
    // The given state where it is refused.
    pub state: State,
    // How many bytes of the buffer are the answer, or why it is refused.
    pub outcome: Result<usize, Refusal>,
}

fn refused(refusal: Refusal, given: State) -> Called
    ensures { result ≡ record { state = given; outcome = Err refusal } }
{
    Called {
        state: given,
        outcome: Err(refusal),
    }
}

fn taken(state: State, count: usize) -> Called
    ensures { result ≡ record { state = state; outcome = Ok count } }
{
    Called {
        state,
        outcome: Ok(count),
    }
}

// What every call but power-on asks before anything is changed, by what the tests of profile and state say: of the two themselves, by
// value, a copy would be made for it.
#[inline(always)]
pub fn admitted(profile_allowed: bool, state_allowed: bool) -> Result<(), Refusal>
    ensures { result ≡ admitted_by profile_allowed state_allowed }
{
    if !profile_allowed {
        Err(Refusal::Profile)
    } else if !state_allowed {
        Err(Refusal::State)
    } else {
        Ok(())
    }
}

// The answer due, and with it the new state, if there is room.
#[inline(always)]
#[tactic(auto, unfolding(crate::specs::Calls::delivered, emit::specs::Rooms::emitted, emit::specs::Rooms::laid_in))]
fn delivered(profile: Profile, given: State, reaction: Reaction, out: &mut [u8]) -> Called
    ensures { Gives (delivered profile given reaction out.old) result out.new }
{
    match emit_due(profile, reaction.answer, out) {
        Some(count) => taken(reaction.state, count),
        None => refused(Refusal::Room, given),
    }
}

// Power on: the earlier state is only handed back with a refusal.
pub fn power_on(profile: Profile, earlier: State, out: &mut [u8]) -> Called
    ensures { PowerOnCalled profile earlier out.old result out.new }
{
    if !is_profile_allowed(profile) {
        return refused(Refusal::Profile, earlier);
    }
    let started = answered(start_state(), Answer::Text(I4));
    delivered(profile, earlier, started, out)
}

// A received byte, with its mark.
pub fn take_byte(profile: Profile, state: State, byte: u8, faulty: bool, out: &mut [u8]) -> Called
    ensures { ByteCalled profile state byte faulty out.old result out.new }
{
    let asked = admitted(
        is_profile_allowed(profile),
        is_state_allowed(profile, state),
    );
    if let Err(refusal) = asked {
        return refused(refusal, state);
    }
    let received = receive_byte(state.line, byte, faulty);
    if received.ended {
        // Copied here, the profile is not copied for a byte that ends no line.
        let kept = profile;
        delivered(kept, state, line_reaction(profile, state), out)
    } else {
        taken(with_line(state, received.line), 0)
    }
}

// A load sample, with its mark.
pub fn take_sample(
    profile: Profile,
    state: State,
    load: Load,
    stable: bool,
    out: &mut [u8],
) -> Called
    ensures { SampleCalled profile state load stable out.old result out.new }
{
    let asked = admitted(
        is_profile_allowed(profile),
        is_state_allowed(profile, state),
    );
    if let Err(refusal) = asked {
        return refused(refusal, state);
    }
    if is_awaited(state) {
        // Copied here, the profile is not copied for a sample that nothing awaits.
        let kept = profile;
        let reaction = sample_reaction(profile, state, load, stable);
        delivered(kept, state, reaction, out)
    } else {
        taken(sampled(state, load, stable), 0)
    }
}
