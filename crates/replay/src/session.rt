// The module with the profile and the room that are lent to it, and the calls.
use crate::words::first;
use device::{Called, take_bytes};
use lent::{fill, is_spilt};
use model::{Profile, Refusal, State, start_state};
use profiles::profile_a;
use std::io;

#[derive(Clone, Copy)]
pub struct Session {
    pub profile: Profile,
    // The length of the buffer that is lent.
    pub room: usize,
    // How many calls there were, modulo 256: the seed of what the buffer is filled with.
    pub calls: u8,
    // A power-on was granted.
    pub on: bool,
    pub state: State,
    // How many bytes of the script's line there are. Stays a length beside the buffer: a session is copied at each step, and the buffer
    // has 64 KiB.
    pub held: usize,
}

pub fn start() -> Session {
    Session {
        profile: profile_a(),
        room: 384,
        calls: 0,
        on: false,
        state: start_state(),
        held: 0,
    }
}

// A line that is none of the script's, or that comes before a power-on was granted.
pub fn unknown(rt: &impl Print, session: Session) -> io::Result<Session> {
    rt.write_all(b"?\r\n")?;
    Ok(session)
}

fn write_outcome(rt: &impl Print, outcome: Result<usize, Refusal>, out: &[u8]) -> io::Result<()> {
    match outcome {
        Ok(count) => rt.write_all(first(out, count)),
        Err(refusal) => print!(rt; "refused {}\r\n", refusal as u8),
    }
}

// The state that the call returned is the next call's. A byte past the answer, or any byte on a refusal, may not be as before.
fn after_call(
    rt: &impl Print,
    session: Session,
    called: Called,
    out: &[u8],
) -> io::Result<Session> {
    if is_spilt(out, session.calls, called.outcome.unwrap_or(0)) {
        rt.write_all(b"spilt\r\n")?;
    }
    Ok(Session {
        state: called.state,
        on: session.on || called.outcome.is_ok(),
        calls: session.calls.wrapping_add(1),
        ..session
    })
}

// A call with a buffer of the length that the script says, filled anew for it; none where the whole buffer is shorter.
fn lent<T, F: FnOnce(&mut [u8]) -> T>(session: Session, out: &mut [u8], call: F) -> Option<T>
    requires { F.IsAlwaysCallable call }
{
    fill(out, session.calls);
    Some(call(out.get_mut(..session.room)?))
}

pub fn make<F: FnOnce(&mut [u8]) -> Called>(
    rt: &impl Print,
    session: Session,
    out: &mut [u8],
    call: F,
) -> io::Result<Session>
    requires { F.IsAlwaysCallable call }
{
    let Some(called) = lent(session, out, call) else {
        return Ok(session);
    };
    write_outcome(rt, called.outcome, out)?;
    after_call(rt, session, called, out)
}

// The same with a whole buffer of bytes and their marks; fewer of them may be taken than given.
pub fn make_whole(
    rt: &impl Print,
    session: Session,
    bytes: &[u8],
    marks: &[u8],
    out: &mut [u8],
) -> io::Result<Session> {
    let call = |cells: &mut [u8]| take_bytes(session.profile, session.state, bytes, marks, cells);
    let Some(returned) = lent(session, out, call) else {
        return Ok(session);
    };
    let called = Called {
        state: returned.state,
        outcome: returned.outcome.map(|done| done.count),
    };
    write_outcome(rt, called.outcome, out)?;
    if let Ok(done) = returned.outcome
        && done.taken < bytes.len()
    {
        print!(rt; "took {}\r\n", done.taken)?;
    }
    after_call(rt, session, called, out)
}
