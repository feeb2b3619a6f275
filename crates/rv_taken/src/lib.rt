//! Which valuations a box claim takes, as one diagram, and how far its limits rise by what the updates do there.
//!
//! It promises that a reference is true exactly at the taken valuations (`IsTakenAt`), without a case for each answer of each test, and that a
//! limit rises exactly to the least threshold that holds after all updates of these (`IsRisen`). It knows systems alone. It stands on
//! `rv_ends` for narrowed boxes and their greatest values, on `rv_cases` for what answers mean, and on `rv_diagram`. Begin with opening.rt, then
//! rising.rt.
#![tactic(auto)]

mod opening;
mod rising;

pub use opening::{Opening, open_claim};
pub use rising::risen;
