// The state of power-on with one thing changed, and profile A with one.
use model::{
    Display, Mode, Pending, Profile, Readability, Sending, State, Text, Waiting, Weighing,
    start_state,
};
use profiles::profile_a;
use weight::{Load, Micrograms, Tare, Threshold, WeightUnit};

// Stays beside `tared`: one field each, of another type.
pub fn zeroed(zero: i32) -> State {
    let state = start_state();
    State {
        weighing: Weighing {
            zero: Load(zero),
            ..state.weighing
        },
        ..state
    }
}

pub fn tared(tare: u32) -> State {
    let state = start_state();
    State {
        weighing: Weighing {
            tare: Tare(tare),
            ..state.weighing
        },
        ..state
    }
}

pub fn in_unit(unit: WeightUnit) -> State {
    let state = start_state();
    State {
        weighing: Weighing {
            unit,
            ..state.weighing
        },
        ..state
    }
}

pub fn held(len: u8) -> State {
    let mut state = start_state();
    state.line.len = len;
    state
}

pub fn displayed(shown: bool, byte: u8, len: u8) -> State {
    let text = Text {
        bytes: [byte; 20],
        len,
    };
    State {
        display: Display { shown, text },
        ..start_state()
    }
}

pub fn waited(pending: Option<Pending>, unstable: u32) -> State {
    State {
        waiting: Waiting { pending, unstable },
        ..start_state()
    }
}

// A mode with a last net and a threshold, 0 for none set, as SR keeps them.
fn sent(mode: Mode, sampled: bool, last: i64, threshold: u32) -> State {
    let state = start_state();
    State {
        weighing: Weighing {
            sampled,
            ..state.weighing
        },
        sending: Sending {
            last: Micrograms(last),
            threshold: Threshold(threshold),
            mode,
            owed: false,
            outside: false,
        },
        ..state
    }
}

pub fn repeated(sampled: bool) -> State {
    sent(Mode::EachSample, sampled, 0, 0)
}

// SR runs.
pub fn changing(sampled: bool, last: i64, threshold: u32) -> State {
    sent(Mode::OnChange, sampled, last, threshold)
}

// SR neither runs nor waits.
pub fn left_behind(last: i64, threshold: u32) -> State {
    sent(Mode::Off, false, last, threshold)
}

// SR waits, and there is no sample.
pub fn change_waited(threshold: u32, unstable: u32) -> State {
    State {
        waiting: Waiting {
            pending: Some(Pending::Change),
            unstable,
        },
        ..left_behind(0, threshold)
    }
}

// Another capacity, and another limit of the fine range.
pub fn ranged(capacity: u32, fine: u32) -> Profile {
    Profile {
        capacity,
        fine,
        ..profile_a()
    }
}

// Another capacity, without a coarse range.
pub fn bearing(capacity: u32) -> Profile {
    ranged(capacity, capacity)
}

// Other decimals, and the step 1, at a place in the order of the units, and another limit of the fine range.
pub fn showing_ranged(place: usize, decimals: u8, fine: u32) -> Profile {
    let profile = profile_a();
    let mut readability = profile.readability;
    if place < 9 {
        readability[place] = Readability { decimals, step: 1 };
    }
    Profile {
        readability,
        fine,
        ..profile
    }
}

// The same without a coarse range.
pub fn showing(place: usize, decimals: u8) -> Profile {
    showing_ranged(place, decimals, 220_000_000)
}
