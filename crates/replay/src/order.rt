// One line of the script. It is judged whole before anything is set or called.
use crate::profile::with_text;
use crate::session::{Session, make, make_whole, unknown};
use crate::words::{first, first_cells};
use device::{power_on, take_byte, take_sample};
use script::{
    Order, order_of, put_bytes, put_marks, sent_byte, with_fine, with_numbers, with_unit,
};
use std::io;
use told::put_state;

// The bytes that the line sends, one after the other.
fn call_bytes(
    rt: &impl Print,
    session: Session,
    line: &[u8],
    count: usize,
    faulty: bool,
    out: &mut [u8],
) -> io::Result<Session> {
    let mut latest = session;
    for i in 0..count {
        let byte = sent_byte(line, i);
        latest = make(rt, latest, out, |cells| {
            take_byte(latest.profile, latest.state, byte, faulty, cells)
        })?;
    }
    Ok(latest)
}

// The words of the line as one call. A line has fewer than 22,000 of them.
fn call_whole(
    rt: &impl Print,
    session: Session,
    line: &[u8],
    count: usize,
    marked: usize,
    out: &mut [u8],
) -> io::Result<Session> {
    let mut bytes = [0u8; 65_536];
    let mut marks = [0u8; 65_536];
    put_bytes(line, first_cells(&mut bytes, count));
    put_marks(line, first_cells(&mut marks, marked));
    make_whole(
        rt,
        session,
        first(&bytes, count),
        first(&marks, marked),
        out,
    )
}

// It calls nothing.
fn tell_state(rt: &impl Print, session: Session) -> io::Result<Session> {
    let mut line = [0u8; 256];
    let count = put_state(session.state, &mut line);
    rt.write_all(first(&line, count))?;
    Ok(session)
}

pub fn perform(
    rt: &impl Print,
    session: Session,
    line: &[u8],
    out: &mut [u8],
) -> io::Result<Session> {
    let Session { profile, state, .. } = session;
    let Some(order) = order_of(session.on, line) else {
        return unknown(rt, session);
    };
    match order {
        Order::Nothing => Ok(session),
        Order::On => make(rt, session, out, |cells| power_on(profile, state, cells)),
        Order::State => tell_state(rt, session),
        Order::Numbers(numbers) => Ok(Session {
            profile: with_numbers(profile, numbers),
            ..session
        }),
        Order::Fine(fine) => Ok(Session {
            profile: with_fine(profile, fine),
            ..session
        }),
        Order::Unit(numbers) => Ok(Session {
            profile: with_unit(profile, numbers),
            ..session
        }),
        Order::Text => Ok(Session {
            profile: with_text(profile, line),
            ..session
        }),
        Order::Room(room) => Ok(Session { room, ..session }),
        Order::Bytes(count, faulty) => call_bytes(rt, session, line, count, faulty, out),
        Order::Buffer(count, marked) => call_whole(rt, session, line, count, marked, out),
        Order::Sample(load, stable) => make(rt, session, out, |cells| {
            take_sample(profile, state, load, stable, cells)
        }),
    }
}
