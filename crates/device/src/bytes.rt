// A whole buffer of received bytes in one call. Profile and state are tested once, and the state is made anew only where a line ends: an
// allowed state stays one.
ghost use Rattle.std.specs.Prelude.{◌≡◌, true, length, Ok, Err};
ghost use Rattle.device.specs.Buffers.{BytesCalled, GivesBytes, served, singly};
ghost use Rattle.line.specs.Runs.{marked_bytes};
ghost use Rattle.model.specs.Profiles.{profile_allowed};
ghost use Rattle.model.specs.States.{state_allowed};

use crate::buffer::emit_due;
use crate::call::admitted;
use commands::line_reaction;
use line::receive_run;
use model::{Profile, Refusal, State, is_profile_allowed, is_state_allowed};

// The serial driver delivers no more together.
const BUFFER_LIMIT: usize = 4096;

// How many bytes of the buffer are the answers, and how many bytes were taken.
#[derive(Clone, Copy)]
pub struct Taken {
    pub count: usize,
    pub taken: usize,
}

#[derive(Clone, Copy)]
pub struct BytesTaken {
    // After the bytes that were taken; the given one where the call is refused.
    pub state: State,
    pub outcome: Result<Taken, Refusal>,
}

fn refused_bytes(refusal: Refusal, given: State) -> BytesTaken
    ensures { result ≡ record { state = given; outcome = Err refusal } }
{
    BytesTaken {
        state: given,
        outcome: Err(refusal),
    }
}

fn taken_bytes(state: State, count: usize, taken: usize) -> BytesTaken
    ensures { result ≡ record { state = state; outcome = Ok (record { count = count; taken = taken }) } }
{
    BytesTaken {
        state,
        outcome: Ok(Taken { count, taken }),
    }
}

// Line after line, in the room that is left, up to one whose answer does not fit.
fn take_lines(
    profile: Profile,
    given: State,
    bytes: &[u8],
    marks: &[u8],
    out: &mut [u8],
) -> BytesTaken
    requires profile_value { profile_allowed profile ≡ true }
    requires given_value { state_allowed profile given ≡ true }
    requires bytes_len { length bytes.now ≡ length marks.now }
    ensures { GivesBytes (served (singly profile given (marked_bytes bytes.now marks.now) out.old)) result out.new }
{
    // Stays a while: a turn takes as many bytes as end no line, so there is no item to go over.
    let mut state = given;
    let mut count = 0;
    let mut at = 0;
    while at < bytes.len() {
        let run = receive_run(state.line, &bytes[at..], &marks[at..]);
        state.line = run.line;
        at += run.taken;
        if !run.ended {
            return taken_bytes(state, count, at);
        }
        let reaction = line_reaction(profile, state);
        let Some(length) = emit_due(profile, reaction.answer, &mut out[count..]) else {
            return taken_bytes(state, count, at);
        };
        state = reaction.state;
        count += length;
        at += 1;
    }
    taken_bytes(state, count, at)
}

// Bytes with their marks, of which 0 is good.
pub fn take_bytes(
    profile: Profile,
    state: State,
    bytes: &[u8],
    marks: &[u8],
    out: &mut [u8],
) -> BytesTaken
    ensures { BytesCalled profile state bytes.now marks.now out.old result out.new }
{
    let asked = admitted(
        is_profile_allowed(profile),
        is_state_allowed(profile, state),
    );
    if let Err(refusal) = asked {
        return refused_bytes(refusal, state);
    }
    if bytes.len() != marks.len() || BUFFER_LIMIT < bytes.len() {
        return refused_bytes(Refusal::Lengths, state);
    }
    take_lines(profile, state, bytes, marks, out)
}
