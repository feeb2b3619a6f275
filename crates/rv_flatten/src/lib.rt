//! From an accepted source to its flat system.
//!
//! It promises that what `flatten` answers is a flat system of the source's program (`IsFlatOf` of `rv_flat`), with all that
//! follows from it there. It stands on `rv_flat` for what a flat system is, and on the instances, layout and givers of the
//! program. Begin with build.rt, then specs/Building.antt.
#![tactic(auto)]

mod assertions;
mod build;
mod comparisons;
mod expressions;
mod flows;
mod found;
mod frame;
mod given;
mod items;
mod kept;
mod laws;
mod memories;
mod naming;
mod node_reader;
mod numbering;
mod positions;
mod remembered;
mod thresholds;
mod ticks;
mod variables;

pub use build::flatten;
pub use laws::fitting_sources;
