//! What is left where nothing is known of integers: a partition of the control states that control alone reaches, in which the observer is true
//! at each allowed valuation of a part or the part is left.
//!
//! It promises that the report is an accepted certificate where no part is left, and otherwise a left partition with the reason why nothing more was
//! split: as many parts as there may be, or left parts of one control state each. All lists of rows are empty, so there are no multipliers to search,
//! and no case is looked at: tests are free. It stands on `rv_symbolic` for systems in a store, on `rv_walk` for sets of control states that grow, and
//! on `rv_split` for partitions. `prove` prints what it makes where nothing else is found.
//!
//! Begin with reporting.rt, which says in what order things are done: reaching.rt finds a closed set of control states, failures.rt where the observer
//! may be false, refining.rt splits parts until each one that is left has one control state, and locating.rt writes the certificate, a part at a time,
//! by entering.rt and conditions.rt. In specs/, Entries.antt says what the certificate holds.
#![tactic(auto)]

mod conditions;
mod entering;
mod failures;
mod locating;
mod meeting;
mod reaching;
mod refining;
mod reporting;

pub use reporting::left_report;
