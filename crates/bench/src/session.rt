// The module and the input line so far. Each answer is written as it comes.
use crate::entry::{Entry, Sample, advanced, load_of};
use device::{power_on, take_byte, take_sample};
use model::{Refusal, State, start_state};
use profiles::profile_a;
use std::io;
use weight::Load;

#[derive(Clone, Copy)]
pub struct Session {
    pub state: State,
    pub entry: Entry,
}

// The first bytes of the buffer are a call's answer; a refused one has none.
fn write_answer(rt: &impl Print, outcome: Result<usize, Refusal>, out: &[u8]) -> io::Result<()> {
    rt.write_all(out.get(..outcome.unwrap_or(0)).unwrap_or(&[]))
}

fn unknown(rt: &impl Print) -> io::Result<()> {
    rt.write_all(b"?\r\n")
}

// Power on, and the line that it sends.
pub fn on(rt: &impl Print) -> io::Result<Session> {
    let mut out = [0u8; 384];
    let called = power_on(profile_a(), start_state(), &mut out);
    write_answer(rt, called.outcome, &out)?;
    Ok(Session {
        state: called.state,
        entry: Entry::Start,
    })
}

// The session is lent, so that no byte copies it. Each call stands by itself: a closure would have the state copied for it.
impl Session {
    // One good byte of a command line.
    fn feed(&mut self, rt: &impl Print, byte: u8) -> io::Result<()> {
        let mut out = [0u8; 384];
        let called = take_byte(profile_a(), self.state, byte, false, &mut out);
        self.state = called.state;
        write_answer(rt, called.outcome, &out)
    }

    fn sample(&mut self, rt: &impl Print, load: Load, stable: bool) -> io::Result<()> {
        let mut out = [0u8; 384];
        let called = take_sample(profile_a(), self.state, load, stable, &mut out);
        self.state = called.state;
        write_answer(rt, called.outcome, &out)
    }

    fn weigh(&mut self, rt: &impl Print, sample: Sample) -> io::Result<()> {
        match load_of(sample) {
            Some(load) => self.sample(rt, load, sample.stable),
            None => unknown(rt),
        }
    }

    // The input line has ended.
    fn end(&mut self, rt: &impl Print) -> io::Result<()> {
        match self.entry {
            Entry::Command => {
                self.feed(rt, b'\r')?;
                self.feed(rt, b'\n')?;
            }
            Entry::Sample(sample) => self.weigh(rt, sample)?,
            Entry::Start | Entry::Letter(_) | Entry::Arrow | Entry::Other => unknown(rt)?,
        }
        self.entry = Entry::Start;
        Ok(())
    }

    // One byte of the input.
    pub fn take(&mut self, rt: &impl Print, byte: u8) -> io::Result<()> {
        if byte == b'\n' {
            return self.end(rt);
        }
        if let Entry::Command = self.entry {
            return self.feed(rt, byte);
        }
        self.entry = advanced(self.entry, byte);
        Ok(())
    }

    // The end of the input ends a last line that has no LF.
    pub fn close(&mut self, rt: &impl Print) -> io::Result<()> {
        match self.entry {
            Entry::Start => Ok(()),
            _ => self.end(rt),
        }
    }
}
