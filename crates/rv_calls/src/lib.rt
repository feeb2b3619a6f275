//! Which nodes of a program call which: recursion, and the instances that the calls give.
//!
//! It promises that `check` answers the nodes in an order in which each stands after those that it calls, exactly where no node
//! reaches itself, and else the first call that leads back (specs/Reach.antt, Nodes.antt); and that `instances` lists all
//! instances, in the order of their paths. Graphs, walks in depth and loops stand here too (`sort`), for the flows above. It
//! stands on `rv_instances`. Begin with recursion.rt, then specs/Reach.antt.
#![tactic(auto)]

mod calls;
mod components;
mod expansion;
mod fault;
mod finishing;
mod graph;
mod names;
mod reach;
mod recursion;

pub use calls::Calling;
pub use expansion::instances;
pub use fault::{CauseFault, Quantity};
pub use graph::{Sorted, sort};
pub use names::Names;
pub use recursion::{Nodes, check};
