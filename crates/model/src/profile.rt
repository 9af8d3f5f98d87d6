// What is fixed from power-on, and whether it is allowed.
ghost use Rattle.std.specs.Prelude.{◌≡◌, ◌&&◌};
ghost use Rattle.model.specs.Reaches.{AsksEach, reached_in_all};
ghost use Rattle.model.specs.Profiles.{capacity_allowed, underload_allowed, zero_range_allowed, timeout_allowed, text_of, text_allowed, texts_allowed, profile_allowed, resolution_from, resolution_in, scale_of};

use crate::weighing::Weighing;
use text::is_printable;
use weight::{Resolution, UNITS, WeightUnit, fits_below_zero, fits_coarse, fits_surely, place_of};

// A text: its first `len` bytes. Stays an array with a length: memory is fixed, and a length above N is answered by refusal 1 or 2.
#[derive(Clone, Copy)]
pub struct Text<const N: usize> {
    pub bytes: [u8; N],
    pub len: u8,
}

impl<const N: usize> Text<N> {
    pub fn as_bytes(&self) -> &[u8]
        ensures { result.now ≡ text_of self.now }
    {
        &self.bytes[..N.min(self.len as usize)]
    }
}

// How a unit is shown: document 01's d and k.
#[derive(Clone, Copy)]
pub struct Readability {
    pub decimals: u8,
    pub step: u8,
}

#[derive(Clone, Copy)]
pub struct Profile {
    // Document 01's C, document 02's F, the limit of the fine range, U and R, in micrograms, and W (its "patience"), the samples after which
    // a wait times out.
    pub capacity: u32,
    pub fine: u32,
    pub underload: u32,
    pub zeroing: u32,
    pub timeout: u32,
    // Of each unit, in the order of the units.
    pub readability: [Readability; 9],
    // The texts of I2, I3, I4 and I5; the last is the identification number of the software release.
    pub model: Text<40>,
    pub software: Text<40>,
    pub serial: Text<20>,
    pub release: Text<20>,
}

// What weighing asks of a profile. A function that is not inlined takes this: a whole profile would be copied for it.
#[derive(Clone, Copy)]
pub struct Scale {
    pub capacity: u32,
    pub fine: u32,
    pub underload: u32,
    pub zeroing: u32,
    pub resolution: Resolution,
}

// Stays a function of two values, as `scale_of` below: `From` takes one.
fn resolution_from(rows: [Readability; 9], unit: WeightUnit) -> Resolution
    ensures { result ≡ resolution_from rows unit }
{
    let row = rows[place_of(unit) as usize];
    Resolution {
        unit,
        decimals: row.decimals,
        step: row.step,
        coarse: false,
    }
}

// The fine resolution of the unit in force.
#[tactic(auto, unfolding(crate::specs::Profiles::resolution_in))]
pub fn resolution_in(profile: Profile, weighing: Weighing) -> Resolution
    ensures { result ≡ resolution_in profile weighing }
{
    resolution_from(profile.readability, weighing.unit)
}

pub fn scale_of(profile: Profile, weighing: Weighing) -> Scale
    ensures { result ≡ scale_of profile weighing }
{
    Scale {
        capacity: profile.capacity,
        fine: profile.fine,
        underload: profile.underload,
        zeroing: profile.zeroing,
        resolution: resolution_in(profile, weighing),
    }
}

// Whether there are `len` bytes, 32 to 255 without 34. An empty text, as most are, is not looked at.
pub fn is_text_allowed<const N: usize>(text: &Text<N>) -> bool
    ensures { result ≡ text_allowed N text.now }
{
    text.len == 0 || (text.len as usize <= N && is_printable(text.as_bytes()))
}

// The same of a copy: a profile whose text is lent where it lies would be copied whole.
fn is_copy_allowed<const N: usize>(text: Text<N>) -> bool
    ensures { result ≡ text_allowed N text.entry }
{
    is_text_allowed(&text)
}

// An empty text is not copied either.
fn are_texts_allowed(profile: Profile) -> bool
    ensures { result ≡ texts_allowed profile }
{
    let long = (profile.model.len == 0 || is_copy_allowed(profile.model))
        & (profile.software.len == 0 || is_copy_allowed(profile.software));
    let short = (profile.serial.len == 0 || is_copy_allowed(profile.serial))
        & (profile.release.len == 0 || is_copy_allowed(profile.release));
    long & short
}

fn are_limits_allowed(profile: Profile) -> bool
    ensures { result ≡ capacity_allowed profile && underload_allowed profile && zero_range_allowed profile && timeout_allowed profile }
{
    (1..=1_000_000_000).contains(&profile.capacity)
        & (profile.underload <= profile.capacity)
        & (profile.zeroing <= profile.capacity)
        & (1..=1000).contains(&profile.timeout)
}

// Whether every unit's resolution has what is asked of it. Every one is asked, so that several are compared at once.
fn every_unit<F: Fn(Resolution) -> bool>(rows: [Readability; 9], fits: F) -> bool
    requires { F.IsAlwaysCallable fits }
    ensures { AsksEach (F.post fits) rows result }
{
    UNITS
        .iter()
        .fold(true, |all, unit| all & fits(resolution_from(rows, *unit)))
}

// In every unit: with a coarse range that test alone, since what fits coarse fits fine; else closely, but only where the quick test, which
// most profiles pass, fails.
fn are_reached(rows: [Readability; 9], reach: u32, ranged: bool) -> bool
    ensures { result ≡ reached_in_all ranged rows reach }
{
    if ranged {
        return every_unit(rows, |r| fits_coarse(r, reach));
    }
    every_unit(rows, |r| fits_surely(r, reach)) || every_unit(rows, |r| fits_below_zero(r, reach))
}

// The units are tested by the lower end of the nets: where it fits, the upper one does.
pub fn is_profile_allowed(profile: Profile) -> bool
    ensures { result ≡ profile_allowed profile }
{
    if !are_limits_allowed(profile) {
        return false;
    }
    let reach = profile.underload + profile.capacity;
    let ranged = profile.fine < profile.capacity;
    are_reached(profile.readability, reach, ranged)
        & are_texts_allowed(profile)
        & (profile.fine <= profile.capacity)
}
