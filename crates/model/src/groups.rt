// The groups of the state, each put back alone.
ghost use Rattle.std.specs.Prelude.{◌≡◌};
ghost use Rattle.model.specs.Groups as meaning;

use crate::sending::{Mode, Sending};
use crate::state::{Display, State, Waiting};
use crate::weighing::Weighing;
use line::Line;

pub fn with_line(state: State, line: Line) -> State
    ensures { result ≡ meaning.with_line state line }
{
    State { line, ..state }
}

pub fn with_weighing(state: State, weighing: Weighing) -> State
    ensures { result ≡ meaning.with_weighing state weighing }
{
    State { weighing, ..state }
}

pub fn with_waiting(state: State, waiting: Waiting) -> State
    ensures { result ≡ meaning.with_waiting state waiting }
{
    State { waiting, ..state }
}

pub fn with_sending(state: State, sending: Sending) -> State
    ensures { result ≡ meaning.with_sending state sending }
{
    State { sending, ..state }
}

pub fn with_display(state: State, display: Display) -> State
    ensures { result ≡ meaning.with_display state display }
{
    State { display, ..state }
}

// What SR keeps stays, and does not count unless it runs.
pub fn with_mode(sending: Sending, mode: Mode) -> Sending
    ensures { result ≡ meaning.with_mode sending mode }
{
    Sending { mode, ..sending }
}
