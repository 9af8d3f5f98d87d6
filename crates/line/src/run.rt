// Bytes that are received together join the line one after another, up to one that ends it. Those before a CR are taken at once: they
// end nothing, so only the cells that are left and their marks count.
ghost use Rattle.std.specs.Prelude.{◌≡◌, length};
ghost use Rattle.line.specs.Runs.{marked_bytes, received_run, any_mark_set, SoFar};

use crate::receive::{CARRIAGE_RETURN, CELLS, LINE_LIMIT, Line};
use text::first_at;

#[derive(Clone, Copy, PartialEq)]
pub struct Run {
    // The line with the bytes that joined it. Stays beside a flag: either way the line is kept.
    pub line: Line,
    // How many did.
    pub taken: usize,
    // The byte after them ends it.
    pub ended: bool,
}

// Whether one of them is that of a faulty byte. Every mark is looked at, so that several are tested at once.
fn any_faulty(marks: &[u8]) -> bool
    ensures { result ≡ any_mark_set marks.now }
{
    marks.iter().fold(false, |any, mark| any | (*mark != 0))
}

impl Line {
    // The bytes before a CR join the line, and none where the last one was a CR; how many they are.
    // Bytes and marks stay two slices: `take_bytes` is lent two buffers.
    fn join_plain(&mut self, bytes: &[u8], marks: &[u8]) -> usize
        requires { length bytes.now ≡ length marks.now }
        ensures { SoFar self.old (marked_bytes bytes.now marks.now) self.new result }
    {
        if self.returned {
            return 0;
        }
        let count = first_at(bytes, CARRIAGE_RETURN);
        let start = self.len.min(LINE_LIMIT) as usize;
        let kept = count.min(CELLS - start);
        self.bytes[start..start + kept].copy_from_slice(&bytes[..kept]);
        self.len += kept as u8;
        self.over |= kept < count;
        self.faulty |= any_faulty(&marks[..count]);
        count
    }
}

// A mark other than 0 is that of a faulty byte.
pub fn receive_run(mut line: Line, bytes: &[u8], marks: &[u8]) -> Run
    ensures { result ≡ received_run line (marked_bytes bytes.now marks.now) }
{
    let count = bytes.len().min(marks.len());
    let mut i = 0;
    // Stays a `while`: a turn takes several bytes.
    while i < count {
        i += line.join_plain(&bytes[i..count], &marks[i..count]);
        if i < count {
            let byte = bytes[i];
            let faulty = marks[i] != 0;
            if line.ends(byte, faulty) {
                return Run {
                    line,
                    taken: i,
                    ended: true,
                };
            }
            line.join(byte, faulty);
            i += 1;
        }
    }
    Run {
        line,
        taken: i,
        ended: false,
    }
}
