//! The search for multipliers: rows that premises imply, premises that no whole point meets, and bounds of forms.
//! Whatever finds multipliers, they are checked before they are given, so each answer is a proof.
//!
//! It promises that what is found proves what was wanted, with numbers in the ranges of a document, and that what the premises show
//! at once is found. Many questions of what a list of premises shows at once are asked of `Premises`, many searches from one list of `Search`.
//! It stands on `rv_rows`. Begin with seek.rt, then prepared.rt and search.rt, then the simplex in tableau.rt and dual.rt.
#![tactic(auto)]

mod divisors;
mod dual;
mod least;
mod pairs;
mod places;
mod prepared;
mod ranges;
mod search;
mod seek;
mod sides;
mod simplex;
mod sparse;
mod tableau;

pub use least::Best;
pub use pairs::pair_multipliers;
pub use prepared::Premises;
pub use search::Search;
pub use seek::{Bounded, seek_bound, seek_refutation, seek_row};
