// The first row of the judging table that applies.
ghost use Rattle.std.specs.Prelude.{◌≡◌};
ghost use Rattle.line.specs.Judging.{judgement};
ghost use Rattle.line.specs.Parts.{last_rows, text_rows};
ghost use Rattle.weight.specs.Characters.{space};
ghost use Rattle.text.specs.Searching.{FirstAt};

use crate::parameter::{change_rule, preset_rule, select_rule, show_rule};
use crate::receive::{CELLS, Line};
use crate::scan::has_control;
use answer::{D, Error, M21, NONE, RESET, SR, TA, find_command, needs_sample, takes_parameters};
use classes::{CONTROLS, SPACES, first_in};
use weight::{Resolution, Tare, Threshold, WeightUnit};

// What the table asks of the device: document 01's C, document 02's F, the fine resolution of the unit in force, whether a command waits, and
// whether there was a sample.
#[derive(Clone, Copy, PartialEq)]
pub struct Situation {
    pub capacity: u32,
    pub fine: u32,
    pub resolution: Resolution,
    pub waiting: bool,
    pub sampled: bool,
}

#[derive(Clone, Copy, PartialEq)]
pub enum Verdict {
    Erroneous(Error),
    Reset,
    // A command is waiting; no such parameter; no sample yet. Each with the command's place, a number as all of `answer` takes it.
    Busy(u8),
    Wrong(u8),
    NoSample(u8),
    // The command's own rule.
    Run(u8),
    // TA with a number.
    Preset(Tare),
    // SR with a number.
    Change(Threshold),
    // D with a text of this length, which starts at the line's fourth byte.
    Show(u8),
    // M21 with a code.
    Select(WeightUnit),
}

// Rows 6 to 8, which alone look at what follows the name.
fn last_rows(situation: Situation, command: u8, text: &[u8], end: usize) -> Verdict
    requires { FirstAt space text.now end }
    ensures { result ≡ last_rows situation command text.now }
{
    let parameter = text.get(end + 1..);
    match command {
        D => parameter.map_or(Verdict::Wrong(D), show_rule),
        TA => parameter.map_or(Verdict::Run(TA), |number| preset_rule(situation, number)),
        SR => parameter.map_or(Verdict::Run(SR), |number| change_rule(situation, number)),
        M21 => parameter.map_or(Verdict::Run(M21), select_rule),
        _ if needs_sample(command) & !situation.sampled => Verdict::NoSample(command),
        _ => Verdict::Run(command),
    }
}

// A name ends at a space. A control byte before one makes the line unknown, whatever it ends.
const BREAKS: u8 = SPACES + CONTROLS;

fn judge_text(situation: Situation, faulty: bool, over: bool, text: &[u8]) -> Verdict
    ensures { result ≡ text_rows situation faulty over text.now }
{
    let end = first_in(text, BREAKS);
    let (name, rest) = text.split_at(end);
    let command = find_command(name);
    let unknown = over | has_control(rest) | (NONE <= command);
    let extra = (end < text.len()) & !takes_parameters(command);
    if faulty {
        Verdict::Erroneous(Error::Transmission)
    } else if unknown {
        Verdict::Erroneous(Error::Syntax)
    } else if extra {
        Verdict::Erroneous(Error::Logical)
    } else if command == RESET {
        Verdict::Reset
    } else if situation.waiting {
        Verdict::Busy(command)
    } else {
        last_rows(situation, command, text, end)
    }
}

pub fn judge_line(situation: Situation, line: Line) -> Verdict
    ensures { result ≡ judgement situation line }
{
    // All cells where `len` says more.
    let count = (line.len as usize).min(CELLS);
    let text = &line.bytes[..count];
    judge_text(situation, line.faulty, line.over, text)
}
