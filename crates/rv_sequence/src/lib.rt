//! An order of evaluation of the flows of all instances, and the weights of their expressions.
//!
//! It promises that `sequence_of` answers a sequence in which each flow stands after those that it needs at the same instant,
//! exactly where no flow needs itself and no expression is too wide, and else a cycle or the least offset of such an expression
//! (specs/Sequenced.antt). It stands on `rv_calls`, for graphs. Begin with sequencing.rt, then specs/Sequenced.antt.
#![tactic(auto)]

mod flow_graph;
mod flow_weights;
mod needs;
mod paces;
mod sequence;
mod sequencing;
mod shown;
mod weight_check;
mod weight_laws;
mod weights;

pub use sequencing::sequence_of;
