// What is sent without being asked for each time: SIR's repetition, and SR's send on change.
ghost use Rattle.std.specs.Prelude.{◌≡◌};
ghost use Rattle.model.specs.Sendings.{is_off, change_allowed};

use weight::{Micrograms, Threshold, is_net_within, is_threshold_within};

#[derive(Clone, Copy, PartialEq, Eq)]
pub enum Mode {
    Off,
    // Document 01's repetition: each sample is answered, as SIR asked.
    EachSample,
    // Document 02's send on change, as SR asked.
    OnChange,
}

// What SR keeps counts while it runs; its threshold counts from when it waits.
#[derive(Clone, Copy)]
pub struct Sending {
    // The net of the last S S that it sent.
    pub last: Micrograms,
    pub threshold: Threshold,
    pub mode: Mode,
    // S D was sent: the next stable net is owed.
    pub owed: bool,
    // + or - was sent, and the load has not come back into range.
    pub outside: bool,
}

pub fn is_off(mode: Mode) -> bool
    ensures { result ≡ is_off mode }
{
    mode == Mode::Off
}

// What SR keeps, where it runs or `waits`.
#[tactic(auto, unfolding(crate::specs::Sendings::change_allowed))]
pub fn is_change_allowed(underload: u32, capacity: u32, sending: Sending, waits: bool) -> bool
    ensures { result ≡ change_allowed underload capacity sending waits }
{
    let within = is_threshold_within(sending.threshold, capacity);
    if sending.mode == Mode::OnChange {
        is_net_within(sending.last, underload, capacity) & within
    } else {
        !waits | within
    }
}
