//! Accepted certificates whose steps of a location to itself are turns of a loop.
//!
//! It promises that `judged` lets a certificate through only where it has the ranges of a document and is accepted for the system whose relation and
//! questions are in the store, and that `with_turns` makes an accepted certificate of an accepted one. It knows systems alone, and no programs.
//!
//! How it is built, from the bottom. `judged` (judging.rt) lets a certificate through where it has the ranges of a document and the checker (`rv_accept`)
//! accepts it. `with_flags` (building.rt) makes a certificate anew in which the steps that have a flag are turns: what holds after the first turn is what
//! holds at the entry, and nothing is kept around besides. Which steps these are is found at one valuation of their scope (turning.rt): each integer memory
//! that the location's rows have is moved by a constant there, and no row that the step's proof names has an input. What the search finds promises
//! nothing: where the new certificate is not let through the answer is the given one.
#![tactic(auto)]

mod building;
mod judging;
mod turning;

pub use judging::judged;
pub use turning::with_turns;
