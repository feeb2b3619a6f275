//! A flat system and its program at valuations of their control and of their order tests, and how their whole numbers agree
//! with one.
//!
//! It promises that each instant of a run agrees with a valuation whose symbolic instant gives what the run has, of a program and of
//! a flat system alike, that both have the same symbolic instants, and that what is inductive over the valuations is safe. The
//! definitions read whole numbers and linear forms by one text (`value` over `Reads`). It stands on `rv_meaning` for runs and on
//! `rv_rows` for forms, and has no code but its laws. Begin with specs/Agreement.antt, then laws.rt and program_laws.rt.
#![tactic(auto)]

mod laws;
mod program_laws;

pub use laws::{
    checked_is_well, inductive_is_safe, instants_agree, one_symbolic_instant, presence_is_told,
    rows_of_valuations, steps_agree, typed_readings,
};
pub use program_laws::{
    indexed_places, inductive_program_is_safe, one_meaning, program_steps_agree, programs_agree,
    runs_agree, same_symbolic_instants, suited_comparisons, translated_expressions,
    translated_systems,
};
