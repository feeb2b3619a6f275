//! The programs that are made for a number are accepted.
//!
//! It promises that the tree of each source that is made for a number of calls (`chain_program` of `rv_make`), whatever the offsets
//! of its parts, keeps every rule of names, types and clocks with the main node `main`, and can be run with up to 2,000 calls:
//! `made_programs_are_accepted`. It stands on `rv_make` for the tree, on `rv_types` for the rules of names, types and clocks, on
//! `rv_instances` for instances and weights, and on `rv_causality` for what is accepted. It has no code but its law.
//!
//! Where to begin: laws.rt; in the proofs Program.antt (the parts of the main node), Settled.antt (the rules), Instances.antt (the
//! main node and one instance for each call), and Ranked.antt (each flow needs only flows of lower rank).
#![tactic(auto)]

mod laws;

pub use laws::made_programs_are_accepted;
