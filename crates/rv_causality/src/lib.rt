//! Whether a program can be run: recursion, sizes, cycles and weights.
//!
//! It promises that `order` answers an order of evaluation exactly for the accepted programs, and the first fault of the others:
//! a node that reaches itself, a quantity above its limit, flows that need each other at one instant, or an expression
//! that is too wide (`IsAccepted` and `IsCause` of specs/Causes.antt). By `ordered_fits` what is answered fits the program, which
//! is all that the builder of flat systems takes. It puts `rv_calls`, `rv_sizes` and `rv_sequence` together. Begin with
//! ordering.rt, then specs/Causes.antt.
#![tactic(auto)]

mod laws;
mod ordering;

pub use laws::{counted_instances, expanded_program, no_cycle, ordered_fits};
pub use ordering::order;
pub use rv_calls::{CauseFault, Quantity};
pub use rv_instances::{Instance, Order, Source};
