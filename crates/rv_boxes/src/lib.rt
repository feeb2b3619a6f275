//! Box claims of a system of valuations with integers, and certificates of the closed ones: a set of control states with bounds of the integer
//! memories among thresholds (interval analysis with widening by thresholds, Cousot and Cousot 1976).
//!
//! It promises that `certificate_of` gives the least closed claim an accepted certificate over the cases of its control states, or says that
//! the claim takes a valuation at which the observer is false. It knows systems alone, and no programs.
//!
//! How it is built, from the bottom. A case of the system gives premises: the rows of the claim's bounds, and a row for each order test
//! (premises.rt). Those with one coefficient make a box, each column of which has ends that are premises (ends.rt). The greatest value of a
//! sum over a box comes with the weights on premises that prove it (peaks.rt), and what is empty, or has a premise that no point of the box
//! meets, is refuted (shut.rt): no multiplier is searched for. From the cases of a claim comes the certificate (entries.rt, locations.rt,
//! certifying.rt). Besides, there is what a pass over claims begins with (frame.rt, claim.rt, thresholds.rt), how its limits are compared
//! (limits.rt), and the parts of a relation with other allowed valuations (parts.rt).
//!
//! It stands on `rv_cases` for cases, on `rv_symbolic` and `rv_walk` for sets of control states, on `rv_proofs` for claims and certificates,
//! and on `rv_rows`. Begin with certifying.rt and specs/Rounds.antt; specs/Boxed.antt says what a box is.
#![tactic(auto)]

mod bounding;
mod certifying;
mod claim;
mod ends;
mod entries;
mod frame;
mod laws;
mod limits;
mod locations;
mod parts;
mod peaks;
mod premises;
mod shut;
mod thresholds;
mod weights;

pub use bounding::bound_rows;
pub use certifying::certificate_of;
pub use claim::{Claim, first_claim, take_set};
pub use ends::{End, narrow};
pub use frame::{Frame, frame_of};
pub use laws::{boxes_agree, boxes_are_accepted, closed_claims_reach};
pub use limits::{either, is_changed, opposite_form};
pub use parts::parts_with;
pub use peaks::{Peak, greatest};
pub use premises::Premises;
pub use shut::shut_of;
