// The arithmetic of weights: units, gross and net, the rounding of a weight to display steps, whether a number fits ten
// characters, and typed amounts. Every conversion between the counts that have a type of their own is here. The crates above use the promises of the functions named here and the laws of proofs/.
#![tactic(auto)]

mod amount;
mod changes;
mod integer;
mod limits;
mod loads;
mod places;
mod preset;
mod printing;
mod ranges;
mod rounding;
mod units;

pub use amount::{NoAmount, Tare, typed_amount};
pub use changes::{NO_THRESHOLD, Threshold, has_moved};
pub use limits::{
    is_net_within, is_over, is_tare_within, is_threshold_within, is_under, is_within,
};
pub use loads::{Load, NO_LOAD, NO_TARE, gross_of, net_of, tare_of};
pub use places::{fits, is_below_zero, signed_places, size_of_number};
pub use preset::preset_amount;
pub use printing::{fits_below_zero, fits_surely, printed_number};
pub use ranges::{fits_coarse, resolution_at, typed_resolution};
pub use rounding::{DisplaySteps, LastPlaces, Micrograms, Resolution, is_allowed, size_of};
pub use units::{Nanograms, UNITS, WeightUnit, nanograms_of, place_of};
