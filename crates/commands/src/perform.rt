// What a finished line makes of the state, by its verdict.
ghost use Rattle.std.specs.Prelude.{◌≡◌, true, ◌≤◌};
ghost use Rattle.answer.specs.Commands.{place_d, place_m21};
ghost use Rattle.commands.specs.Shown.{shows_short};
ghost use Rattle.commands.specs.Reactions as meaning;
ghost use Rattle.model.specs.Groups as groups;
ghost use Rattle.model.specs.Profiles.{scale_of};
ghost use Rattle.answer.specs.Lines as lines;
ghost use Rattle.weighing.specs.Weighings as weights;

use crate::run::{run, run_changing, weight_shown};
use answer::{Answer, D, I4, M21, S, SI, SIR, SR, Status, plain};
use line::{Line, Situation, Verdict, cleared, judge_line};
use model::{
    Display, Mode, Profile, Reaction, State, Text, answered, is_pending, resolution_in, scale_of,
    with_display, with_line, with_mode, with_weighing,
};
use waiting::not_waiting;
use weighing::{tare_answer, with_tare, with_unit};
use weight::{NO_TARE, Tare, WeightUnit};

// The name's place; for SI, SIR and SR that of S.
fn identification_of(command: u8) -> u8
    ensures { result ≡ meaning.identification_of command }
{
    match command {
        SI | SIR | SR => S,
        _ => command,
    }
}

// Not carried out: I or L.
fn declined(state: State, command: u8, status: Status) -> Reaction
    ensures { result ≡ groups.reaction state (Answer.Plain (lines.head_of (meaning.identification_of command) status)) }
{
    answered(state, plain(identification_of(command), status))
}

// @: zero, the latest sample and the unit are kept.
#[tactic(auto, unfolding(crate::specs::Reactions::reset_state))]
fn reset_state(state: State) -> State
    ensures { result ≡ meaning.reset_state state }
{
    State {
        weighing: with_tare(state.weighing, NO_TARE),
        waiting: not_waiting(),
        sending: with_mode(state.sending, Mode::Off),
        display: weight_shown(state.display),
        ..state
    }
}

// The text of D starts at the line's fourth byte, after the name, a space and a quote.
const TEXT_START: usize = 3;

// The text in front of the cells that were there.
fn text_shown(display: Display, line: Line, len: u8) -> Display
    requires { len ≤ 20 }
    ensures { result ≡ meaning.text_shown display line len }
{
    let count = len as usize;
    let mut bytes = display.text.bytes;
    bytes[..count].copy_from_slice(&line.bytes[TEXT_START..TEXT_START + count]);
    Display {
        shown: true,
        text: Text { bytes, len },
    }
}

// D with a text.
fn show_text(state: State, line: Line, len: u8) -> Reaction
    requires { len ≤ 20 }
    ensures { result ≡ groups.reaction (groups.with_display state (meaning.text_shown state.display line len)) (Answer.Plain (lines.head_of place_d Status.A)) }
{
    answered(
        with_display(state, text_shown(state.display, line, len)),
        plain(D, Status::A),
    )
}

// TA with a number.
fn preset(profile: Profile, state: State, tare: Tare) -> Reaction
    ensures { result ≡ groups.reaction (groups.with_weighing state (weights.with_tare state.weighing tare.0)) (weights.tare_answer (scale_of profile state.weighing) tare.0) }
{
    answered(
        with_weighing(state, with_tare(state.weighing, tare)),
        tare_answer(scale_of(profile, state.weighing), tare),
    )
}

// M21 with a code.
fn select(state: State, unit: WeightUnit) -> Reaction
    ensures { result ≡ groups.reaction (groups.with_weighing state (weights.with_unit state.weighing unit)) (Answer.Plain (lines.head_of place_m21 Status.A)) }
{
    answered(
        with_weighing(state, with_unit(state.weighing, unit)),
        plain(M21, Status::A),
    )
}

// `state` has its line cleared; `line` is the finished one.
fn performed(profile: Profile, state: State, line: Line, verdict: Verdict) -> Reaction
    requires { shows_short verdict ≡ true }
    ensures { result ≡ meaning.performed profile state line verdict }
{
    match verdict {
        Verdict::Erroneous(error) => answered(state, Answer::ErrorLine(error)),
        Verdict::Reset => answered(reset_state(state), Answer::Text(I4)),
        // A command is waiting, or there is no sample yet.
        Verdict::Busy(command) | Verdict::NoSample(command) => declined(state, command, Status::I),
        // A wrong parameter.
        Verdict::Wrong(command) => declined(state, command, Status::L),
        Verdict::Run(command) => run(profile, state, command),
        Verdict::Preset(tare) => preset(profile, state, tare),
        Verdict::Change(threshold) => run_changing(profile, state, threshold),
        Verdict::Show(len) => show_text(state, line, len),
        Verdict::Select(unit) => select(state, unit),
    }
}

// What the judging table asks of the device. Stays a function of two values: `From` takes one.
fn situation_of(profile: Profile, state: State) -> Situation
    ensures { result ≡ meaning.situation_of profile state }
{
    Situation {
        capacity: profile.capacity,
        fine: profile.fine,
        resolution: resolution_in(profile, state.weighing),
        waiting: is_pending(state.waiting.pending),
        sampled: state.weighing.sampled,
    }
}

// The line of the state is ended: it is judged, and the next one starts empty.
pub fn line_reaction(profile: Profile, state: State) -> Reaction
    ensures { result ≡ meaning.line_reaction profile state }
{
    let line = state.line;
    let verdict = judge_line(situation_of(profile, state), line);
    performed(profile, with_line(state, cleared(line)), line, verdict)
}
