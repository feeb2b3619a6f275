//! The box pass over the control reading of a flat system.
//!
//! It promises Good, with an accepted certificate without loops, exactly where a closed box claim with bounds among the thresholds is
//! good, else the layers of the least closed claim. Where the flat system has no integer memories and inputs, Good comes exactly where it is
//! safe, whatever constants it compares. It stands on `rv_reading`, and that on the box pass and the walk over any system, `rv_least`
//! and `rv_walk`, and on the laws of `rv_open`; `prove` decides by it. Begin with pass.rt.
#![tactic(auto)]

mod pass;

pub use pass::box_pass;
