// The answers whose line can be formed.
ghost use Rattle.std.specs.Prelude.{◌≡◌};
ghost use Rattle.forms.specs.Forms.{plain_form, weight_form, number_form, text_form, can_form};

use answer::{
    Answer, D, DW, Head, I3, M21, NONE, Number, RESET, S, SI, SIR, SR, Status, T, TA, TAC, TI, Z,
    ZI, has_text,
};
use text::is_printable;
use weight::{fits, is_below_zero};

const SHORT_TEXT: usize = 20;

const LONG_TEXT: usize = 40;

// An identification and a status alone.
pub fn plain_form(head: Head) -> bool
    ensures { result ≡ plain_form head.identification head.status }
{
    let command = head.identification;
    match head.status {
        Status::A => matches!(command, Z | TAC | D | DW | M21),
        Status::B => false,
        Status::S | Status::D => command == ZI,
        Status::I => command < NONE && !matches!(command, SI | SIR | SR | RESET),
        Status::L => matches!(command, S | D | TA | M21),
        Status::Over | Status::Under => matches!(command, S | Z | ZI | T | TI),
    }
}

// The heads that a weight follows.
fn weight_form(head: Head) -> bool
    ensures { result ≡ weight_form head.identification head.status }
{
    let command = head.identification;
    match head.status {
        Status::A => command == TA,
        Status::S => matches!(command, S | T | TI),
        Status::D => matches!(command, S | TI),
        _ => false,
    }
}

// Only a weight of S may be below zero.
fn number_form(command: u8, number: Number) -> bool
    ensures { result ≡ number_form command number }
{
    fits(number.decimals, number.places, number.coarse)
        && (command == S || !is_below_zero(number.places))
}

// The texts of I2 and I3 may be longer than those of I4 and I5.
fn text_form(command: u8, text: &[u8]) -> bool
    ensures { result ≡ text_form command text.now }
{
    let longest = if command <= I3 { LONG_TEXT } else { SHORT_TEXT };
    has_text(command) && text.len() <= longest && is_printable(text)
}

// Whether the answer, with `text` beside it, is one line of document 01's list.
pub fn can_form(answer: Answer, text: &[u8]) -> bool
    ensures { result ≡ can_form answer text.now }
{
    match answer {
        Answer::Text(command) => text_form(command, text),
        Answer::Plain(head) => plain_form(head) && text.is_empty(),
        Answer::Weight(head, number) => {
            weight_form(head) && number_form(head.identification, number) && text.is_empty()
        }
        Answer::Listed(_, command) => command < NONE && text.is_empty(),
        Answer::ErrorLine(_) | Answer::Versions | Answer::HostUnit(_) => text.is_empty(),
        Answer::Nothing | Answer::CommandList => false,
    }
}
