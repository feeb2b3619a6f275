//! The narrowed boxes of all valuations of a system at once: for each column the bounds that order tests and a claim's limits give it, as
//! terms over a diagram store.
//!
//! It promises that at each valuation the ends of the columns are the narrowed box of the claim there (specs/Sides.antt, `AreEndsOf`), that the
//! greatest value of a sum over the box is one more such bound (`IsPeak`), and that a limit rises by such a bound exactly to the least threshold
//! that holds (`IsRisen`). So what a box pass asks of its cases one by one is asked of all allowed valuations in one diagram, and a test that
//! nobody asks splits nothing. It knows systems alone. It stands on `rv_terms` for forms that depend on the valuation, on `rv_cases` for what
//! the tests' answers mean, on `rv_proofs` for boxes, and on `rv_diagram`. Begin with ends.rt, then peaks.rt and raising.rt;
//! specs/Intervals.antt has boxes as lists of intervals.
#![tactic(auto)]

mod ends;
mod peaks;
mod raising;
mod sides;
mod thresholds;

pub use ends::{Ends, limited, main_tick, only_column, test_ends};
pub use peaks::greatest;
pub use raising::risen_to;
pub use sides::{Side, below, no_side, number_term};
pub use thresholds::{is_below, least_above};
