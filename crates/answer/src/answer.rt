// What an answer line says.
ghost use Rattle.std.specs.Prelude.{◌≡◌, [], ◌∷◌};
ghost use Rattle.answer.specs.Lines.{head_of, status_text, error_text};

use weight::{LastPlaces, WeightUnit};

// The letter or sign after the identification.
#[derive(Clone, Copy, PartialEq)]
pub enum Status {
    A,
    B,
    S,
    D,
    I,
    L,
    Over,
    Under,
}

// Its letter.
impl From<Status> for u8 {
    ghost from_gives = { λ s b. status_text s ≡ b ∷ [] };

    fn from(status: Status) -> u8 {
        match status {
            Status::A => b'A',
            Status::B => b'B',
            Status::S => b'S',
            Status::D => b'D',
            Status::I => b'I',
            Status::L => b'L',
            Status::Over => b'+',
            Status::Under => b'-',
        }
    }
}

// Identification (a command's place in the order of I0) and status.
#[derive(Clone, Copy, PartialEq)]
pub struct Head {
    pub identification: u8,
    pub status: Status,
}

// A printed weight, and whether it is one of the coarse range (document 02, No. 7).
#[derive(Clone, Copy, PartialEq)]
pub struct Number {
    pub decimals: u8,
    pub places: LastPlaces,
    pub unit: WeightUnit,
    pub coarse: bool,
}

// Syntax, transmission, logical: the lines ES, ET and EL.
#[derive(Clone, Copy, PartialEq)]
pub enum Error {
    Syntax,
    Transmission,
    Logical,
}

// The letter after E.
impl From<Error> for u8 {
    ghost from_gives = { λ e b. error_text e ≡ 69 ∷ b ∷ [] };

    fn from(error: Error) -> u8 {
        match error {
            Error::Syntax => b'S',
            Error::Transmission => b'T',
            Error::Logical => b'L',
        }
    }
}

#[derive(Clone, Copy, PartialEq)]
pub enum Answer {
    // Stays a case: `emit_answer` answers it by no byte, and `write_line` by refusal 4.
    Nothing,
    Plain(Head),
    Weight(Head, Number),
    ErrorLine(Error),
    // A text, which stands beside the answer: I2 to I5.
    Text(u8),
    // One line of I0, with A if it is the last.
    Listed(bool, u8),
    // All lines of I0.
    CommandList,
    // The one line of I1.
    Versions,
    // The unit in force, as M21 tells it.
    HostUnit(WeightUnit),
}

// An answer of identification and status alone.
pub fn plain(command: u8, status: Status) -> Answer
    ensures { result ≡ Answer.Plain (head_of command status) }
{
    Answer::Plain(Head {
        identification: command,
        status,
    })
}
