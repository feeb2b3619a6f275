//! The flat system: a program as one system of equations by numbers, and its laws.
//!
//! It promises, for a flat system that is one of a program (`IsFlatOf`), that its steps are the program's run, its runs the
//! program's runs, and that what is inductive over its valuations makes the program safe (laws.rt). It stands on
//! `rv_agreement`, and knows nothing of how a flat system is built (`rv_flatten`) or stepped (`rv_step`). Begin with flat.rt,
//! then specs/FlatOf.antt.
#![tactic(auto)]

mod flat;
mod laws;
mod parts;
mod state;

pub use flat::Flat;
pub use laws::{
    flat_states, inductive_is_safe, one_flat_instant, runs_are_one, steps_give_run, typed_steps,
};
pub use parts::{Bit, Column, FlatExpr, FlatFlow, FlatForm, FlatInput, FlatMemory, Side};
pub use state::State;
