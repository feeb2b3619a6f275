//! The sources that the program makes are safe.
//!
//! What it promises. In the program that a made source is, with any number of calls and wherever its parts stand, the observer is true at
//! each instant of every run, and no integers occur: `made_programs_are_safe`.
//!
//! What it stands on: `rv_make` for the tree of a made source, `rv_meaning` for runs, `rv_types` for instances, types and clocks. It has
//! no code but its law.
//!
//! Where to begin: laws.rt; in the proofs Instants.antt (what the flows have at the instants of a run), Chain.antt (where a call gives true,
//! the input has been true) and Control.antt (no integers).
#![tactic(auto)]

mod laws;

pub use laws::made_programs_are_safe;
