//! The analysis of a flat system with integers, where no box claim is good.
//!
//! It promises Proved, with an accepted certificate, wherever a closed row claim with bounds among the thresholds is good, and else Proved or a
//! left partition, with why nothing more was split: there are as many locations as there may be, or each location that is left has one control
//! state. The certificate has loops only where these are to be accelerated, the left partition none. It stands on `rv_reading`; `prove` decides by
//! it. Begin with analysis.rt.
#![tactic(auto)]

mod analysis;
mod end;

pub use analysis::analyse;
pub use end::{End, Options};
