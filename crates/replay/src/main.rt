// Plays a script on standard input: each line sets the profile or the room, or calls the module, whose answers are printed as they
// come. A line ends at LF alone. The README has the words of the script.
#![tactic(auto)]

mod order;
mod profile;
mod session;
mod words;

use order::perform;
use session::{Session, start, unknown};
use std::io;
use std::io::Read;
use words::{first, put};

// The line has ended. One that fills the buffer may have lost bytes.
fn end_line(rt: &impl Print, session: Session, line: &[u8], out: &mut [u8]) -> io::Result<Session> {
    let next = Session { held: 0, ..session };
    if session.held < line.len() {
        perform(rt, next, first(line, session.held), out)
    } else {
        unknown(rt, next)
    }
}

fn take(
    rt: &impl Print,
    session: Session,
    byte: u8,
    line: &mut [u8],
    out: &mut [u8],
) -> io::Result<Session> {
    if byte == b'\n' {
        end_line(rt, session, line, out)
    } else {
        Ok(Session {
            held: put(line, session.held, byte),
            ..session
        })
    }
}

// Every byte of a chunk, one after the other.
fn take_all(
    rt: &impl Print,
    session: Session,
    chunk: &[u8],
    line: &mut [u8],
    out: &mut [u8],
) -> io::Result<Session> {
    let mut latest = session;
    for byte in chunk {
        latest = take(rt, latest, *byte, line, out)?;
    }
    Ok(latest)
}

// Reads once; none at the end of the input. That ends a last line that has no LF; an empty one does nothing.
fn take_some(
    rt: &impl Print,
    input: &mut impl Read,
    session: Session,
    line: &mut [u8],
    out: &mut [u8],
) -> io::Result<Option<Session>> {
    let mut chunk = [0u8; 4096];
    let n = input.read(&mut chunk)?;
    if n < 1 {
        end_line(rt, session, line, out)?;
        Ok(None)
    } else {
        Ok(Some(take_all(rt, session, &chunk[..n], line, out)?))
    }
}

// A proved loop has to end, and nothing says that an input does: it counts up to a number that no run reaches.
fn play(rt: &impl Print, input: &mut impl Read, line: &mut [u8], out: &mut [u8]) -> io::Result<()> {
    let mut session = start();
    for _ in 0..u64::MAX {
        let Some(next) = take_some(rt, input, session, line, out)? else {
            return Ok(());
        };
        session = next;
    }
    Ok(())
}

// A line has up to 65,535 bytes, and the lent buffer up to 4,096.
fn main(rt: HostRuntime) -> io::Result<()> {
    let mut line = [0u8; 65_536];
    let mut out = [0u8; 4096];
    play(&rt, &mut rt.stdin(), &mut line, &mut out)
}
