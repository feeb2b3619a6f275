//! Systems of valuations without integer memories and inputs, whose order tests compare constants: which valuations some point agrees with,
//! and runs that falsify.
//!
//! It promises that a falsifying run is found back through the layers of the least closed claim exactly where the claim is not good, that it has
//! as few instants as any, and that then the system is not safe. A test's row has no coefficients there, so it holds or not whatever the
//! instant is, and the valuations that count are the allowed ones at which each row holds: the system of these alone has no integers, and
//! `rv_walk` finds its runs. It knows systems alone, and no programs. It stands on `rv_cases` for what rows a test has, on `rv_walk`, and on
//! `rv_boxes` for systems with other allowed valuations. Begin with path.rt, then specs/Columns.antt.
#![tactic(auto)]

mod counting;
mod laws;
mod path;

pub use laws::constant_tests;
pub use path::open_path;
