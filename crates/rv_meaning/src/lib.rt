//! What a Lustre program means: its runs, its instants, and when its observer is safe.
//!
//! It promises that an accepted program has exactly one run for all starts and inputs, that instants after one another are the run,
//! and what `memories` and `kind_of` tell of places. What Safe means is `IsSafe`, what a counterexample is `Falsifies`. It stands
//! on `rv_types` for the rules of programs. Begin with specs/Meaning.antt (values), specs/Runs.antt, then laws.rt.
#![tactic(auto)]

mod calls;
mod finding;
mod kinds;
mod laws;
mod memory_list;
mod numbers;

pub use kinds::kind_of;
pub use laws::{
    defined_flows, one_instant, one_run, run_is_instants, some_next, some_run, states_of_run,
    steps_are_run, typed_instants,
};
pub use memory_list::memories;
