//! The steps of a flat system, in whole numbers within the range of traces.
//!
//! It promises that `start` gives the state with the start values, and that `step` gives the one instant of the flat system at
//! a state, the state after it, which can be stepped from again, the observer and the least place of a false assertion, or
//! `Outgrown` exactly where an integer leaves the range. It stands on `rv_flat`, whose laws make the steps the run of the program.
//! Begin with stepping.rt.
#![tactic(auto)]

mod evaluate;
mod filling;
mod least;
mod ranges;
mod stepped;
mod stepping;
mod ticking;

pub use stepped::{StepFault, Stepped};
pub use stepping::{start, step};
