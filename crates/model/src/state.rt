// What changes between calls, grouped by who changes it, and whether it is allowed.
ghost use Rattle.std.specs.Prelude.{◌≡◌, not, ◌||◌};
ghost use Rattle.model.specs.Profiles.{text_allowed};
ghost use Rattle.model.specs.States.{is_pending, state_allowed, start_state};

use crate::profile::{Profile, Text, is_text_allowed};
use crate::sending::{Mode, Sending, is_change_allowed, is_off};
use crate::weighing::Weighing;
use line::{LINE_LIMIT, Line};
use weight::{Micrograms, NO_LOAD, NO_TARE, NO_THRESHOLD, WeightUnit, is_tare_within, is_within};

// The command that waits for a stable sample: S, Z, T or SR.
#[derive(Clone, Copy, PartialEq, Eq)]
pub enum Pending {
    Weigh,
    Zero,
    Tare,
    Change,
}

#[derive(Clone, Copy)]
pub struct Waiting {
    // The unstable samples that have come while it waits.
    pub unstable: u32,
    pub pending: Option<Pending>,
}

#[derive(Clone, Copy)]
pub struct Display {
    pub text: Text<20>,
    // The text of D is shown in place of the weight.
    pub shown: bool,
}

#[derive(Clone, Copy)]
pub struct State {
    pub sending: Sending,
    pub line: Line,
    pub weighing: Weighing,
    pub waiting: Waiting,
    pub display: Display,
}

pub fn is_pending(pending: Option<Pending>) -> bool
    ensures { result ≡ is_pending pending }
{
    pending.is_some()
}

fn is_display_allowed(display: Display) -> bool
    ensures { result ≡ not display.shown || text_allowed 20 display.text }
{
    !display.shown || is_text_allowed(&display.text)
}

#[tactic(auto, unfolding(crate::specs::States::state_allowed))]
pub fn is_state_allowed(profile: Profile, state: State) -> bool
    ensures { result ≡ state_allowed profile state }
{
    let waiting = state.waiting;
    is_within(Micrograms::from(state.weighing.zero), profile.zeroing)
        & is_tare_within(state.weighing.tare, profile.capacity)
        & (state.line.len <= LINE_LIMIT)
        & is_display_allowed(state.display)
        & (!is_pending(waiting.pending) | (waiting.unstable < profile.timeout))
        & (is_off(state.sending.mode) | state.weighing.sampled)
        & is_change_allowed(
            profile.underload,
            profile.capacity,
            state.sending,
            waiting.pending == Some(Pending::Change),
        )
}

// What power-on returns.
#[tactic(auto, unfolding(crate::specs::States::start_state))]
pub fn start_state() -> State
    ensures { result ≡ start_state }
{
    State {
        line: Line {
            bytes: [0; 64],
            len: 0,
            over: false,
            faulty: false,
            returned: false,
        },
        weighing: Weighing {
            zero: NO_LOAD,
            tare: NO_TARE,
            unit: WeightUnit::G,
            sampled: false,
            load: NO_LOAD,
            stable: false,
        },
        waiting: Waiting {
            pending: None,
            unstable: 0,
        },
        sending: Sending {
            last: Micrograms(0),
            threshold: NO_THRESHOLD,
            mode: Mode::Off,
            owed: false,
            outside: false,
        },
        display: Display {
            shown: false,
            text: Text {
                bytes: [0; 20],
                len: 0,
            },
        },
    }
}
