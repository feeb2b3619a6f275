//! The probes: a handful of fixed traces of a source, replayed in order, and one that falsifies.
//!
//! It promises that what `probe` answers is a probe that falsifies, cut after the instant at which its replay says so, and that it
//! answers none exactly where no probe falsifies (specs/Probes.antt); `falsified_at` tells where any trace falsifies. It stands on `rv_replay`. Begin with
//! probing.rt.
#![tactic(auto)]

mod probing;
mod traces;

pub use probing::{falsified_at, probe};
