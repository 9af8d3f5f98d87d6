// Writes one line a case: the numbers given, and what the library makes of them. tests/weight_cases.py works the same list
// out by itself, and the two are compared.
#![tactic(auto)]

mod fields;
mod nets;
mod preset;
mod ranges;
mod show;
mod tares;
mod ties;
mod typed;
mod units;

use std::io;

fn main(rt: HostRuntime) -> io::Result<()> {
    units::cases(&rt)?;
    nets::bench_cases(&rt)?;
    nets::request_cases(&rt)?;
    nets::manual_cases(&rt)?;
    nets::range_cases(&rt)?;
    nets::width_cases(&rt)?;
    nets::resolution_cases(&rt)?;
    ranges::coarse_cases(&rt)?;
    ranges::width_cases(&rt)?;
    ranges::in_force_cases(&rt)?;
    ranges::fit_cases(&rt)?;
    ties::cases(&rt)?;
    typed::bench_cases(&rt)?;
    typed::form_cases(&rt)?;
    typed::tie_cases(&rt)?;
    typed::large_cases(&rt)?;
    preset::bench_cases(&rt)?;
    preset::request_cases(&rt)?;
    preset::first_tie_cases(&rt)?;
    preset::second_tie_cases(&rt)?;
    tares::request_cases(&rt)?;
    tares::unit_cases(&rt)?;
    tares::large_cases(&rt)?;
    fields::written_cases(&rt)?;
    fields::read_cases(&rt)?;
    fields::other_cases(&rt)?;
    fields::coarse_written_cases(&rt)?;
    fields::coarse_read_cases(&rt)?;
    fields::coarse_other_cases(&rt)
}
