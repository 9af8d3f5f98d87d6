// Reads one answer line: the answer that it could be is taken if it can be formed and the rest of the line fits it.
ghost use Rattle.std.specs.Prelude.{◌≡◌, ◌+◌, length};
ghost use Rattle.host.specs.Reads.{text_place, read_line, number_of_line};
ghost use Rattle.host.specs.Refusals.{number_of};
ghost use Rattle.text.specs.Searching.{before_space};

use crate::frame::{is_ended, is_framed};
use crate::guess::{guess_answer, head_guess};
use crate::named_line::NamedLine;
use crate::refusal::Refusal;
use answer::Answer;
use forms::{can_form, plain_form};
use text::part;

// No line that can be formed is longer: I2 with a text of 40 bytes.
const LONGEST: usize = 49;

// Where the text of I2 to I5 stands in the line that was read. Stays a place: `read_line` is an equation, which a slice with an address is not in.
#[derive(Clone, Copy, PartialEq)]
pub struct ReadText {
    pub start: usize,
    pub len: usize,
}

#[derive(Clone, Copy, PartialEq)]
pub struct ReadLine {
    pub answer: Answer,
    pub text: ReadText,
}

const NO_TEXT: ReadText = ReadText { start: 0, len: 0 };

// Between the quotes of I2 to I5.
fn text_place(answer: Answer, line: &[u8]) -> ReadText
    ensures { result ≡ text_place answer line.now }
{
    match answer {
        Answer::Text(_) => ReadText {
            start: 6,
            len: line.len().saturating_sub(9),
        },
        _ => NO_TEXT,
    }
}

// An identification and a status alone: the most frequent line is read without the tests of the others.
#[tactic(auto, using(crate::proofs::Outcomes::plain_read, crate::proofs::Outcomes::plain_unended, crate::proofs::Outcomes::plain_unformed))]
fn read_plain(line: NamedLine) -> Result<ReadLine, Refusal>
    requires { length line.bytes.now ≡ length (before_space line.bytes.now) + 4 }
    ensures { result ≡ read_line line.entry.bytes.now }
{
    let head = head_guess(line);
    if is_ended(line.bytes) && plain_form(head) {
        Ok(ReadLine {
            answer: Answer::Plain(head),
            text: NO_TEXT,
        })
    } else {
        Err(Refusal::Form)
    }
}

#[tactic(auto, using(crate::proofs::Outcomes::too_long, crate::proofs::Outcomes::read_branch, crate::proofs::Outcomes::unframed_branch, crate::proofs::Outcomes::unformed_branch, crate::proofs::Outcomes::numbered_read))]
pub fn read_line(line: &[u8]) -> Result<ReadLine, Refusal>
    ensures value { result ≡ read_line line.now }
    ensures result_value { number_of result ≡ number_of_line line.now }
{
    if LONGEST < line.len() {
        return Err(Refusal::Form);
    }
    let named = NamedLine::new(line);
    if line.len() == named.name + 4 {
        return read_plain(named);
    }
    let answer = guess_answer(named);
    let text = text_place(answer, line);
    if is_framed(answer, named) && can_form(answer, part(line, text.start, text.len)) {
        Ok(ReadLine { answer, text })
    } else {
        Err(Refusal::Form)
    }
}
