// The one answer that a line could be, by its first bytes and its length.
ghost use Rattle.std.specs.Prelude.{◌≡◌};
ghost use Rattle.answer.specs.Commands.{place_of};
ghost use Rattle.host.specs.Reads.{error_guess, status_guess, weight_guess, head_guess, field_guess, unit_guess, listed_guess, code_guess, host_unit_guess, named_guess, guessed};
ghost use Rattle.text.specs.Searching.{before_space};

use crate::named_line::NamedLine;
use answer::{Answer, Error, Head, I0, I1, I2, I5, M21, Number, Status, find_command};
use text::{FieldNumber, byte_at, part, read_code, read_field, read_unit};
use weight::WeightUnit;

// By the second letter.
fn error_guess(letter: u8) -> Answer
    ensures { result ≡ error_guess letter }
{
    match letter {
        b'S' => Answer::ErrorLine(Error::Syntax),
        b'T' => Answer::ErrorLine(Error::Transmission),
        b'L' => Answer::ErrorLine(Error::Logical),
        _ => Answer::Nothing,
    }
}

// B, which only I0 has, for a byte that is no status.
fn status_guess(byte: u8) -> Status
    ensures { result ≡ status_guess byte }
{
    match byte {
        b'A' => Status::A,
        b'S' => Status::S,
        b'D' => Status::D,
        b'I' => Status::I,
        b'L' => Status::L,
        b'+' => Status::Over,
        b'-' => Status::Under,
        _ => Status::B,
    }
}

pub fn head_guess(line: NamedLine) -> Head
    ensures { result ≡ head_guess line.entry.bytes.now }
{
    Head {
        identification: line.command,
        status: status_guess(byte_at(line.bytes, line.name + 1)),
    }
}

// The ten characters of a weight.
fn field_guess(line: NamedLine) -> Option<FieldNumber>
    ensures { result ≡ field_guess line.entry.bytes.now }
{
    read_field(part(line.bytes, line.name + 3, 10))
}

fn unit_guess(line: NamedLine) -> Option<WeightUnit>
    ensures { result ≡ unit_guess line.entry.bytes.now }
{
    let size = line.bytes.len().saturating_sub(line.name + 16);
    read_unit(part(line.bytes, line.name + 14, size))
}

// Stays a function of three values: `From` takes one.
fn weight_guess(head: Head, field: Option<FieldNumber>, unit: Option<WeightUnit>) -> Answer
    ensures { result ≡ weight_guess head field unit }
{
    let (Some(field), Some(unit)) = (field, unit) else {
        return Answer::Nothing;
    };
    Answer::Weight(
        head,
        Number {
            decimals: field.decimals,
            places: field.places,
            unit,
            coarse: field.coarse,
        },
    )
}

// A line of I0: the name stands from the ninth byte up to the last quote.
fn listed_guess(line: &[u8]) -> Answer
    ensures { result ≡ listed_guess line.now }
{
    let size = line.len().saturating_sub(11);
    Answer::Listed(byte_at(line, 3) == b'A', find_command(part(line, 8, size)))
}

// M21's answer: the code stands from the ninth byte up to CR LF.
fn host_unit_guess(line: &[u8]) -> Answer
    ensures { result ≡ host_unit_guess (code_guess line.now) }
{
    let size = line.len().saturating_sub(10);
    read_code(part(line, 8, size)).map_or(Answer::Nothing, Answer::HostUnit)
}

// A line with a space. I0, I1, the texts and M21 answer by more than a status.
fn named_guess(line: NamedLine) -> Answer
    ensures { result ≡ named_guess (place_of (before_space line.entry.bytes.now)) line.entry.bytes.now }
{
    if line.bytes.len() == line.name + 4 {
        return Answer::Plain(head_guess(line));
    }
    match line.command {
        I0 => listed_guess(line.bytes),
        I1 => Answer::Versions,
        I2..=I5 => Answer::Text(line.command),
        M21 => host_unit_guess(line.bytes),
        _ => weight_guess(head_guess(line), field_guess(line), unit_guess(line)),
    }
}

#[tactic(auto, using(crate::proofs::Branches::spaced_branch, crate::proofs::Branches::unspaced_branch))]
pub fn guess_answer(line: NamedLine) -> Answer
    ensures { result ≡ guessed line.entry.bytes.now }
{
    if line.name < line.bytes.len() {
        named_guess(line)
    } else {
        error_guess(byte_at(line.bytes, 1))
    }
}
