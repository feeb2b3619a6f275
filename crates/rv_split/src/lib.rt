//! Partitions of control states (Jeannet 2003): by the values of the tick bits, and finer where a part is split by a diagram.
//!
//! It promises that the parts are pairwise disjoint nonempty sets of control states, at most as many as may be, whose union stays the same;
//! which two sets a part becomes; and exactly when a part is not split. The store is left as it was after each call, and Nodes comes only
//! where it has no room for four steps. `rv_left` makes partitions by it.
//!
//! Whether a part has one control state alone is read off its diagram, without the store, so that no want of nodes stands before that answer
//! (freeing.rt): for each node whether some valuation makes it true, and then down from the root as long as one child alone does.
//! Each cut of a set by a test is four calls of the store, which is released after them (cutting.rt).
//!
//! It stands on `rv_diagram` for sets, and on `rv_proofs` for what it is to be in one. Begin with partition.rt, then
//! specs/Partitions.antt and specs/Splits.antt; specs/Modes.antt says how many values the tick bits have.
#![tactic(auto)]

mod cutting;
mod fault;
mod freeing;
mod partition;

pub use fault::SplitFault;
pub use partition::{Partition, by_modes};
