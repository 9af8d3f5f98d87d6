// The parameters of D, TA, SR and M21.
ghost use Rattle.std.specs.Prelude.{◌≡◌};
ghost use Rattle.line.specs.Judging.{is_shown, is_quoted, number_in};
ghost use Rattle.line.specs.Parts.{show_rule, preset_rule, change_rule, select_rule};

use crate::judge::{Situation, Verdict};
use answer::{D, M21, SR, TA};
use classes::{QUOTES, first_in};
use text::{first_space, is_printable, is_unit, read_code, read_preset, read_typed, same_text};
use weight::{Threshold, WeightUnit, is_tare_within, is_threshold_within};

const LONGEST_SHOWN: usize = 20;

// A text that D takes.
fn is_shown(text: &[u8]) -> bool
    ensures { result ≡ is_shown text.now }
{
    text.len() <= LONGEST_SHOWN && is_printable(text)
}

// The same in quotes. Stays a search: quotes are found by their class (document 02, No. 6), which no pattern asks.
fn is_quoted(text: &[u8]) -> bool
    ensures { result ≡ is_quoted text.now }
{
    let [_, shown @ .., _] = text else {
        return false;
    };
    let last = text.len() - 1;
    let quotes = (first_in(text, QUOTES) == 0) & (first_in(&text[last..], QUOTES) == 0);
    quotes & is_shown(shown)
}

// What D does with its parameter.
pub fn show_rule(parameter: &[u8]) -> Verdict
    ensures { result ≡ show_rule parameter.now }
{
    if is_quoted(parameter) {
        Verdict::Show((parameter.len() - 2) as u8)
    } else {
        Verdict::Wrong(D)
    }
}

// Number, space, the unit in force: the number, and no byte where the rest is not so.
fn number_in(unit: WeightUnit, parameter: &[u8]) -> &[u8]
    ensures { result.now ≡ number_in unit parameter.now }
{
    let space = first_space(parameter);
    if space < parameter.len() && is_unit(&parameter[space + 1..], unit) {
        &parameter[..space]
    } else {
        &[]
    }
}

// What TA does with its parameter: a number not above the capacity.
pub fn preset_rule(situation: Situation, parameter: &[u8]) -> Verdict
    ensures { result ≡ preset_rule situation parameter.now }
{
    let capacity = situation.capacity;
    let resolution = situation.resolution;
    let number = number_in(resolution.unit, parameter);
    match read_preset(capacity, situation.fine, resolution, number) {
        Ok(tare) if is_tare_within(tare, capacity) => Verdict::Preset(tare),
        _ => Verdict::Wrong(TA),
    }
}

// What SR does with its parameter: a number neither 0 nor above the capacity.
pub fn change_rule(situation: Situation, parameter: &[u8]) -> Verdict
    ensures { result ≡ change_rule situation parameter.now }
{
    let capacity = situation.capacity;
    let unit = situation.resolution.unit;
    match read_typed(unit, number_in(unit, parameter)).map(Threshold::from) {
        Ok(threshold) if (1 <= threshold.0) & is_threshold_within(threshold, capacity) => {
            Verdict::Change(threshold)
        }
        _ => Verdict::Wrong(SR),
    }
}

// What M21 does with its parameter: 0, which stands for the host unit, space, a unit's code.
pub fn select_rule(parameter: &[u8]) -> Verdict
    ensures { result ≡ select_rule parameter.now }
{
    let space = first_space(parameter);
    if space < parameter.len() && same_text(&parameter[..space], b"0") {
        read_code(&parameter[space + 1..]).map_or(Verdict::Wrong(M21), Verdict::Select)
    } else {
        Verdict::Wrong(M21)
    }
}
