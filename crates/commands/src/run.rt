// A command's own rule, by its kind.
ghost use Rattle.std.specs.Prelude.{◌≡◌};
ghost use Rattle.commands.specs.Reactions as meaning;
ghost use Rattle.model.specs.Groups as groups;
ghost use Rattle.waiting.specs.Changes as changes;

use answer::{
    Answer, DW, I0, I1, Kind, SIR, Status, T, TA, TAC, TI, ZI, has_text, kind_of, may_wait, plain,
};
use model::{
    Display, Mode, Pending, Profile, Reaction, State, answered, scale_of, with_display, with_mode,
    with_sending, with_weighing,
};
use waiting::{begun, measured_reaction, with_threshold};
use weighing::{stability, tare_answer, tared_by, weighed_by, with_tare, zeroed_by};
use weight::{NO_TARE, NO_THRESHOLD, Threshold};

fn information(command: u8) -> Answer
    ensures { result ≡ meaning.information_of command }
{
    match command {
        I0 => Answer::CommandList,
        I1 => Answer::Versions,
        _ if has_text(command) => Answer::Text(command),
        _ => Answer::Nothing,
    }
}

// Nothing is sent unasked after S and SI, and each sample after SIR.
fn mode_after(command: u8) -> Mode
    ensures { result ≡ meaning.mode_after command }
{
    if command == SIR {
        Mode::EachSample
    } else {
        Mode::Off
    }
}

fn sending_as(state: State, mode: Mode) -> State
    ensures { result ≡ meaning.sending_as state mode }
{
    with_sending(state, with_mode(state.sending, mode))
}

// S, SI and SIR: the first two end a repetition and SR, and the third starts a repetition.
#[tactic(auto, unfolding(crate::specs::Reactions::weighing))]
fn run_weighing(profile: Profile, state: State, command: u8) -> Reaction
    ensures { result ≡ meaning.weighing profile state command }
{
    let scale = scale_of(profile, state.weighing);
    if may_wait(command) {
        begun(scale, sending_as(state, Mode::Off), Some(Pending::Weigh))
    } else {
        answered(
            sending_as(state, mode_after(command)),
            weighed_by(scale, state.weighing),
        )
    }
}

// Z and ZI.
#[tactic(auto, unfolding(crate::specs::Reactions::zeroing))]
fn run_zeroing(profile: Profile, state: State, command: u8) -> Reaction
    ensures { result ≡ meaning.zeroing profile state command }
{
    let weighing = state.weighing;
    let scale = scale_of(profile, weighing);
    if may_wait(command) {
        begun(scale, state, Some(Pending::Zero))
    } else {
        measured_reaction(state, zeroed_by(scale, weighing, ZI, stability(weighing)))
    }
}

pub fn weight_shown(display: Display) -> Display
    ensures { result ≡ meaning.weight_shown display }
{
    Display {
        shown: false,
        ..display
    }
}

// DW.
fn show_weight(state: State) -> Reaction
    ensures { result ≡ meaning.showing_weight state }
{
    answered(
        with_display(state, weight_shown(state.display)),
        plain(DW, Status::A),
    )
}

// What has no own rule.
fn unanswered(state: State) -> Reaction
    ensures { result ≡ meaning.unanswered state }
{
    answered(state, Answer::Nothing)
}

// D, which has a verdict of its own, and DW.
#[tactic(auto, unfolding(crate::specs::Reactions::showing))]
fn run_showing(state: State, command: u8) -> Reaction
    ensures { result ≡ meaning.showing state command }
{
    if command == DW {
        show_weight(state)
    } else {
        unanswered(state)
    }
}

// SR, with its threshold.
#[tactic(auto, unfolding(crate::specs::Reactions::changing))]
pub fn run_changing(profile: Profile, state: State, threshold: Threshold) -> Reaction
    ensures { result ≡ meaning.changing profile state threshold.0 }
{
    begun(
        scale_of(profile, state.weighing),
        with_sending(state, with_threshold(state.sending, threshold)),
        Some(Pending::Change),
    )
}

// T, TI, TAC and TA alone.
#[tactic(auto, unfolding(crate::specs::Reactions::taring))]
fn run_taring(profile: Profile, state: State, command: u8) -> Reaction
    ensures { result ≡ meaning.taring profile state command }
{
    let weighing = state.weighing;
    let scale = scale_of(profile, weighing);
    match command {
        T => begun(scale, state, Some(Pending::Tare)),
        TI => measured_reaction(state, tared_by(scale, weighing, TI)),
        TAC => answered(
            with_weighing(state, with_tare(weighing, NO_TARE)),
            plain(TAC, Status::A),
        ),
        TA => answered(state, tare_answer(scale, weighing.tare)),
        _ => unanswered(state),
    }
}

// Stays a u8: what is no command's identification is not answered (`run` of specs/Reactions).
#[tactic(auto, unfolding(crate::specs::Reactions::run))]
pub fn run(profile: Profile, state: State, command: u8) -> Reaction
    ensures { result ≡ meaning.run profile state command }
{
    match kind_of(command) {
        Kind::Informs => answered(state, information(command)),
        Kind::Weighs => run_weighing(profile, state, command),
        Kind::Zeroes => run_zeroing(profile, state, command),
        Kind::Shows => run_showing(state, command),
        Kind::Sends => run_changing(profile, state, NO_THRESHOLD),
        Kind::Tares => run_taring(profile, state, command),
        // M21 alone.
        Kind::Selects => answered(state, Answer::HostUnit(state.weighing.unit)),
        Kind::Resets | Kind::Unknown => unanswered(state),
    }
}
