//! A flat system as a system of valuations, of which certificates speak.
//!
//! It promises that the program is safe exactly where the system of its flat system is (`runs_are_abstract`,
//! `abstract_runs_are_runs`), and that this is a system as certificates ask for one (`control_is_a_system`), integers included. It
//! stands on `rv_flat` for the flat system and on `rv_proofs` for systems, and has no code but its laws. Begin with
//! specs/Control.antt (`control_of`), then laws.rt.
#![tactic(auto)]

mod laws;

pub use laws::{
    abstract_runs_are_runs, computed_instants, control_is_a_system, initial_states,
    names_are_numbers, points_agree, rows_are_tightened, rows_of_comparisons, runs_are_abstract,
    spelled_runs,
};
