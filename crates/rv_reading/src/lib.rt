//! A flat system, read into the references of a diagram store and the questions by which its cases are split.
//!
//! It promises that the references of a `Reading` mean the system of its flat system (`IsRead`), and of each call what it says of
//! that system: cases, images, preimages, initial states, the walk through the layers, the box pass, the analysis by rows (analysis.rt), candidates
//! for traces. It stands on `rv_bits` for the way of a flat system into a store, on `rv_symbolic` for systems in a
//! store, on `rv_walk`, `rv_least`, `rv_open`, `rv_rise`, `rv_claimed`, `rv_refine`, `rv_left`, `rv_paths` and `rv_accept` for what is decided of any such
//! system, and on `rv_control` for what the system of a flat system is. Begin with reading.rt and specs/Read.antt.
#![tactic(auto)]

mod analysis;
mod candidates;
mod ending;
mod reading;

pub use ending::Analysis;
pub use reading::Reading;
