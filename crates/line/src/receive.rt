// A byte joins the line being received.
ghost use Rattle.std.specs.Prelude.{◌≡◌};
ghost use Rattle.line.specs.Receiving.{cleared_line, joined_line, continued_line, ends_line, received_byte};

// The bytes of the line so far, and what is known of those that had no place.
#[derive(Clone, Copy, PartialEq)]
pub struct Line {
    // The first `len` cells are the line's bytes, at most 64.
    // Stays an array with a length: memory is fixed, and a state whose length is above 64 is answered by refusal 2 (`is_state_allowed`).
    pub bytes: [u8; 64],
    pub len: u8,
    // A byte came after the 64th.
    pub over: bool,
    // A faulty byte came.
    pub faulty: bool,
    // The last byte was a good CR, which is part of the line only if no LF follows.
    pub returned: bool,
}

#[derive(Clone, Copy, PartialEq)]
pub struct Received {
    // The finished line if it ended, and else the line so far. Stays beside a flag: either way the line is kept.
    pub line: Line,
    pub ended: bool,
}

// The bytes that a line holds at most.
pub const LINE_LIMIT: u8 = 64;

pub(crate) const CELLS: usize = LINE_LIMIT as usize;

pub(crate) const CARRIAGE_RETURN: u8 = 13;

const LINE_FEED: u8 = 10;

// Nothing received; the cells are left as they are.
pub fn cleared(line: Line) -> Line
    ensures { result ≡ cleared_line line }
{
    Line {
        len: 0,
        over: false,
        faulty: false,
        returned: false,
        ..line
    }
}

impl Line {
    // A good LF after a good CR ends the line.
    pub(crate) fn ends(&self, byte: u8, faulty: bool) -> bool
        ensures { result ≡ ends_line self.now byte faulty }
    {
        !faulty & (self.returned & (byte == LINE_FEED))
    }

    // The byte takes the next cell, or none where all are taken.
    #[tactic(auto, unfolding(crate::specs::Receiving::joined_line))]
    fn add(&mut self, byte: u8, faulty: bool)
        ensures { self.new ≡ joined_line self.old byte faulty }
    {
        if self.len < LINE_LIMIT {
            self.bytes[self.len as usize] = byte;
            self.len += 1;
        } else {
            self.over = true;
        }
        self.faulty |= faulty;
        self.returned = false;
    }

    // A byte that does not end the line: a CR that was kept apart and then the byte join it. A good CR is kept apart in its turn.
    // The line is lent, so that many bytes copy it once.
    #[tactic(auto, unfolding(crate::specs::Receiving::settled_line))]
    pub(crate) fn join(&mut self, byte: u8, faulty: bool)
        ensures { self.new ≡ continued_line self.old byte faulty }
    {
        if self.returned {
            self.add(CARRIAGE_RETURN, false);
        }
        if !faulty & (byte == CARRIAGE_RETURN) {
            self.returned = true;
        } else {
            self.add(byte, faulty);
        }
    }
}

#[tactic(auto, unfolding(crate::specs::Receiving::received_byte))]
pub fn receive_byte(mut line: Line, byte: u8, faulty: bool) -> Received
    ensures { result ≡ received_byte line byte faulty }
{
    let ended = line.ends(byte, faulty);
    if ended {
        line.returned = false;
    } else {
        line.join(byte, faulty);
    }
    Received { line, ended }
}
