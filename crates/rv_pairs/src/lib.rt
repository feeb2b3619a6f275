//! What the premises of a row claim show at once, at all valuations of a system in one diagram.
//!
//! A premise counts where a reference is true: the row of an order test where its answer is given, the claim's own rows where the main tick is
//! true (`premises`, `with_claim`). It promises that a reference is true exactly at the valuations that a row claim takes (`open_rows`), and that the
//! limit of a left side rises exactly to the least threshold that is shown at all of these after the updates (`risen_row`). So what a search for a
//! row claim asks of its cases one by one is asked of all allowed valuations at once.
//!
//! How that is built, from the bottom. Two rows that sum to a left side are found by keys (keys.rt, indexed.rt). What they show is kept as hints: a
//! bound, and the two references where it is shown (hints.rt); no diagram is built for them. Where a reference is true and no hint shows a bound is found
//! by taking away from it what the hints show, one after the other (rising.rt), and what rows show that count wherever it is true needs no diagram at all
//! (sure.rt). Rows whose left sides are 0 show nothing where rows are not shut, and are left out first (`telling`).
//!
//! It knows systems alone. It stands on `rv_ends` for how limits rise, on `rv_cases` for what answers mean, and on `rv_diagram`. Begin with labels.rt,
//! then hints.rt, opening.rt and moving.rt.
#![tactic(auto)]

mod hints;
mod indexed;
mod keys;
mod labels;
mod moving;
mod opening;
mod rising;
mod showing;
mod sure;

pub use indexed::LabelledRows;
pub use labels::{Labelled, label_tests, premises, telling, with_claim};
pub use moving::risen_row;
pub use opening::{open_rows, open_where, open_within};
