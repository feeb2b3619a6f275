//! The hunt: a trace that falsifies a source, by running its flat system with inputs by chance.
//!
//! It promises that what `hunt` answers is a trace of the program that falsifies it at its last instant, as its replay says; where it
//! answers none it promises nothing. The search asks for no diagram and no case: it takes one step of `rv_step` after the other, keeps the
//! states that were new, and begins runs there. No claim rests on it, since `rv_probe` replays each trace. It stands on `rv_step` and
//! `rv_probe`. Begin with hunting.rt.
#![tactic(auto)]

mod chance;
mod confirming;
mod hunting;
mod inputs;
mod novelty;
mod pool;
mod runs;
mod shortening;
mod typed;

pub use hunting::hunt;

/// A small number of instants: a controller of 40 lines takes some 0.04 s for them, and one of 200 lines some 0.3 s.
pub const FEW_STEPS: u32 = 20_000;

/// A large number of instants: a controller of 40 lines takes some second for them, and one of 200 lines five to nine.
pub const MANY_STEPS: u32 = 500_000;
