// Zero, tare and the latest sample, and what the commands do with them.
ghost use Rattle.std.specs.Prelude.{◌≡◌, pos, neg_ℤ};
ghost use Rattle.std.specs.Int.Signed.{lt_z};
ghost use Rattle.answer.specs.Lines.{head_of};
ghost use Rattle.weighing.specs.Weighings as meaning;

use answer::{Answer, Head, Number, S, Status, TA, plain};
use model::{Scale, Weighing};
use weight::{
    LastPlaces, Load, Micrograms, NO_TARE, Resolution, Tare, WeightUnit, is_over, is_under,
    printed_number, resolution_at, tare_of,
};

// What a command made of the weighing, and its answer.
#[derive(Clone, Copy)]
pub struct Measured {
    pub weighing: Weighing,
    pub answer: Answer,
}

fn gross_of(weighing: Weighing) -> Micrograms
    ensures { result.0 ≡ meaning.gross_of weighing }
{
    weight::gross_of(weighing.load, weighing.zero)
}

pub fn net_of(weighing: Weighing) -> Micrograms
    ensures { result.0 ≡ meaning.net_of weighing }
{
    weight::net_of(weighing.load, weighing.zero, weighing.tare)
}

// A weight as it is printed. Stays a function of two values: `From` takes one.
fn number_of(resolution: Resolution, weight: Micrograms) -> Number
    ensures { result ≡ meaning.number_in resolution weight.0 }
{
    Number {
        decimals: resolution.decimals,
        places: printed_number(resolution, weight).unwrap_or(LastPlaces(0)),
        unit: resolution.unit,
        coarse: resolution.coarse,
    }
}

// The resolution in force, by the weight that decides.
fn resolution_by(scale: Scale, weight: Micrograms) -> Resolution
    ensures { result ≡ meaning.resolution_by scale weight.0 }
{
    resolution_at(scale.fine, scale.resolution, weight)
}

fn weight_answer(command: u8, status: Status, number: Number) -> Answer
    ensures { result ≡ Answer.Weight (head_of command status) number }
{
    Answer::Weight(
        Head {
            identification: command,
            status,
        },
        number,
    )
}

pub fn unchanged(weighing: Weighing, answer: Answer) -> Measured
    ensures { result ≡ record { weighing = weighing; answer = answer } }
{
    Measured { weighing, answer }
}

pub fn stability(weighing: Weighing) -> Status
    ensures { result ≡ meaning.stability weighing }
{
    if weighing.stable {
        Status::S
    } else {
        Status::D
    }
}

// + above a limit and - below the other, which is below zero.
fn beyond(weight: Micrograms, most: u32, least: u32) -> Option<Status>
    ensures { result ≡ meaning.beyond (lt_z (pos most) weight.0) (lt_z weight.0 (neg_ℤ (pos least))) }
{
    if is_over(weight, most) {
        Some(Status::Over)
    } else if is_under(weight, least) {
        Some(Status::Under)
    } else {
        None
    }
}

// Stays with scale and weighing apart, here and below: a struct of both would be put together at each call for one use.
// Whether a load is out of range for a weight.
pub fn is_outside(scale: Scale, weighing: Weighing) -> bool
    ensures { result ≡ meaning.outside_by scale weighing }
{
    beyond(gross_of(weighing), scale.capacity, scale.underload).is_some()
}

// S, SI, SIR and SR.
#[tactic(auto, unfolding(crate::specs::Weighings::weighed_by))]
pub fn weighed_by(scale: Scale, weighing: Weighing) -> Answer
    ensures { result ≡ meaning.weighed_by scale weighing }
{
    let gross = gross_of(weighing);
    match beyond(gross, scale.capacity, scale.underload) {
        Some(status) => plain(S, status),
        None => {
            let number = number_of(resolution_by(scale, gross), net_of(weighing));
            weight_answer(S, stability(weighing), number)
        }
    }
}

// Zero becomes the load, and tare becomes 0.
fn with_zero(weighing: Weighing) -> Weighing
    ensures { result ≡ meaning.with_zero weighing }
{
    Weighing {
        zero: weighing.load,
        tare: NO_TARE,
        ..weighing
    }
}

pub fn with_tare(weighing: Weighing, tare: Tare) -> Weighing
    ensures { result ≡ meaning.with_tare weighing tare.0 }
{
    Weighing { tare, ..weighing }
}

pub fn with_sample(weighing: Weighing, load: Load, stable: bool) -> Weighing
    ensures { result ≡ meaning.with_sample weighing load stable }
{
    Weighing {
        sampled: true,
        load,
        stable,
        ..weighing
    }
}

// M21: nothing else moves.
pub fn with_unit(weighing: Weighing, unit: WeightUnit) -> Weighing
    ensures { result ≡ meaning.with_unit weighing unit }
{
    Weighing { unit, ..weighing }
}

// Z and ZI, with the status of what is granted.
#[tactic(auto, unfolding(crate::specs::Weighings::zeroed_by))]
pub fn zeroed_by(scale: Scale, weighing: Weighing, command: u8, granted: Status) -> Measured
    ensures { result ≡ meaning.zeroed_by scale weighing command granted }
{
    match beyond(
        Micrograms::from(weighing.load),
        scale.zeroing,
        scale.zeroing,
    ) {
        Some(status) => unchanged(weighing, plain(command, status)),
        None => Measured {
            weighing: with_zero(weighing),
            answer: plain(command, granted),
        },
    }
}

// T and TI.
#[tactic(auto, unfolding(crate::specs::Weighings::tared_by))]
pub fn tared_by(scale: Scale, weighing: Weighing, command: u8) -> Measured
    ensures { result ≡ meaning.tared_by scale weighing command }
{
    let gross = gross_of(weighing);
    match beyond(gross, scale.capacity, 0) {
        Some(status) => unchanged(weighing, plain(command, status)),
        None => {
            let number = number_of(resolution_by(scale, gross), gross);
            Measured {
                weighing: with_tare(weighing, tare_of(weighing.load, weighing.zero)),
                answer: weight_answer(command, stability(weighing), number),
            }
        }
    }
}

// TA: the tare as a weight.
pub fn tare_answer(scale: Scale, tare: Tare) -> Answer
    ensures { result ≡ meaning.tare_answer scale tare.0 }
{
    let weight = Micrograms::from(tare);
    weight_answer(
        TA,
        Status::A,
        number_of(resolution_by(scale, weight), weight),
    )
}
