//! What a trace does to the program that it is of: the replay of its instants, in order, up to the first that ends it.
//!
//! It promises that `replay` answers by the program's own run from the trace (specs/Replays.antt), both ways: what is found is so,
//! and only what is so is found, but for want of memory. It stands on `rv_flatten` and `rv_step`. Begin with replaying.rt.
#![tactic(auto)]

mod laws;
mod playing;
mod replayed;
mod replaying;

pub use laws::flat_traces;
pub use replayed::{ReplayFault, Replayed};
pub use replaying::{replay, replay_flat};
