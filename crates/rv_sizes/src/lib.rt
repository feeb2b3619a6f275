//! How large a program is: six quantities, each with its limit.
//!
//! It promises that `check_sizes` answers the number of expressions of all instances exactly where each quantity is within its
//! limit, and else the first that is not, with its number (specs/Sizes.antt, Sized.antt). Sums are taken over nodes, and share
//! nothing with the instances that they count. It stands on `rv_calls`. Begin with measure.rt, then specs/Sizes.antt.
#![tactic(auto)]

mod bits;
mod declared_sizes;
mod measure;
mod memories;
mod memory_sizes;
mod order_tests;
mod sites;
mod sizes;
mod ticks;
mod totals;
mod variables;

pub use measure::check_sizes;
