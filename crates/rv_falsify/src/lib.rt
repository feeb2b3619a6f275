//! Traces that falsify: of a program without integer flows back from a false observer through the layers of control states, of any
//! other a candidate that its replay confirms.
//!
//! It promises that what `find` answers is a trace that falsifies its program, with every value in the range of traces
//! (specs/Falsifying.antt). For the layers of a program without integer flows it has as few instants as any, and none is answered exactly
//! where no run falsifies; of any other program none promises nothing. It stands on `rv_reading` for sets and candidates, on `rv_control`
//! for the runs that valuations spell, and on `rv_replay` and `rv_probe` for what falsifies. Begin with finding.rt, then decoding.rt and
//! confirming.rt.
#![tactic(auto)]

mod confirming;
mod decoding;
mod finding;

pub use confirming::confirmed;
pub use decoding::trace_of;
pub use finding::find;
