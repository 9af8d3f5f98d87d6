// One call with a constructed state, and what is said of it. The buffer is filled before, so that what the call writes is seen.
use device::{Called, Taken, power_on, take_byte, take_bytes, take_sample};
use lent::{fill, is_spilt};
use model::{Profile, Refusal, State, start_state};
use profiles::profile_a;
use std::io;
use weight::Load;

// What came of a call.
#[derive(Clone, Copy)]
struct Tried {
    outcome: Result<Taken, Refusal>,
    // A byte past the answer, or any byte on a refusal, is not as before.
    spilt: bool,
}

// A call with so much of a buffer.
fn attempt<F: FnOnce(&mut [u8]) -> Result<Taken, Refusal>>(room: usize, seed: u8, call: F) -> Tried
    requires { F.IsAlwaysCallable call }
{
    let mut out = [0u8; 384];
    fill(&mut out, seed);
    let outcome = call(&mut out[..room.min(384)]);
    Tried {
        outcome,
        spilt: is_spilt(&out, seed, outcome.map_or(0, |done| done.count)),
    }
}

// The same call twice: what it writes is not as before in one of the two buffers, which differ in every byte. A refused call takes and
// counts nothing.
fn say_kept<F: Fn(&mut [u8]) -> Result<Taken, Refusal>>(
    rt: &impl Print,
    label: &str,
    room: usize,
    call: F,
) -> io::Result<Taken>
    requires { F.IsAlwaysCallable call }
{
    let first = attempt(room, 1, &call);
    let second = attempt(room, 2, &call);
    let done = first.outcome.unwrap_or(Taken { count: 0, taken: 0 });
    print!(rt;
        "{label}{}",
        first.outcome.map_or_else(|refusal| refusal as u8, |_| 0)
    )?;
    if first.spilt || second.spilt {
        rt.write_all(b" spilt")?;
    } else if done.count == 0 {
        rt.write_all(b" kept")?;
    } else {
        rt.write_all(b" rest kept")?;
    }
    Ok(done)
}

// Of a call without a whole buffer, which takes nothing.
fn say<F: Fn(&mut [u8]) -> Called>(
    rt: &impl Print,
    label: &str,
    room: usize,
    call: F,
) -> io::Result<()>
    requires { F.IsAlwaysCallable call }
{
    let counted = |out: &mut [u8]| call(out).outcome.map(|count| Taken { count, taken: 0 });
    say_kept(rt, label, room, counted)?;
    rt.write_all(b"\n")
}

// A byte that ends no line, with a state.
pub fn try_state(rt: &impl Print, label: &str, state: State) -> io::Result<()> {
    say(rt, label, 384, |out| {
        take_byte(profile_a(), state, b'S', false, out)
    })
}

// A stable sample, with a state and a room.
pub fn try_sample(rt: &impl Print, label: &str, state: State, room: usize) -> io::Result<()> {
    say(rt, label, room, |out| {
        take_sample(profile_a(), state, Load(0), true, out)
    })
}

// First that applies: profile, state, room.
pub fn try_room(
    rt: &impl Print,
    label: &str,
    profile: Profile,
    state: State,
    room: usize,
) -> io::Result<()> {
    say(rt, label, room, |out| power_on(profile, state, out))
}

fn say_bytes<F: Fn(&mut [u8]) -> Result<Taken, Refusal>>(
    rt: &impl Print,
    label: &str,
    room: usize,
    call: F,
) -> io::Result<()>
    requires { F.IsAlwaysCallable call }
{
    let done = say_kept(rt, label, room, call)?;
    print!(rt; ", {} taken, {} counted\n", done.taken, done.count)
}

// The first `count` bytes; all of them where there are fewer.
fn first(text: &[u8], count: usize) -> &[u8] {
    &text[..count.min(text.len())]
}

// A text whose bytes are all good, with a room.
pub fn try_text(rt: &impl Print, label: &str, text: &[u8], room: usize) -> io::Result<()> {
    let marks = [0u8; 256];
    let good = first(&marks, text.len());
    say_bytes(rt, label, room, |out| {
        take_bytes(profile_a(), start_state(), text, good, out).outcome
    })
}

// So many bytes that end no line and so many marks, with no room.
pub fn try_lengths(
    rt: &impl Print,
    label: &str,
    profile: Profile,
    state: State,
    count: usize,
    marked: usize,
) -> io::Result<()> {
    let bytes = [b'S'; 4097];
    let marks = [0u8; 4097];
    let sent = first(&bytes, count);
    let good = first(&marks, marked);
    say_bytes(rt, label, 0, |out| {
        take_bytes(profile, state, sent, good, out).outcome
    })
}
