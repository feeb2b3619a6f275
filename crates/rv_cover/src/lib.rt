//! A search for a certificate with few entries of a closed claim: a box claim, or a row claim.
//!
//! It promises nothing but that what it answers has the counts and ranges of a document and no loop: the checker (`rv_accept`) judges it. For a
//! good claim it is meant to be accepted, for another to be a left partition.
//!
//! The certificate has two locations: the initial control states without rows, and the others with rows of the claim. An entry begins at the
//! least valuation that is not covered yet, and is as wide as its multipliers allow: its condition has the answers of those order tests alone
//! that a multiplier names, and of those memories that a wanted row has (answers.rt, finding.rt). Where the claim takes the valuation it is a
//! step, whose condition has also that the step leads into the claim, and that the observer is true or the claim takes the valuation
//! (leading.rt, conditions.rt); elsewhere it is dead (covering.rt). So comparisons on which nothing depends split nothing. Multipliers come
//! from the box of the premises (reaching.rt, rows.rt), or from pairs of them (pairing.rt); the claim says which (`By`, proving.rt). Of the
//! claim's rows only those are kept that some multiplier names (needing.rt): of a box claim they are found row by row, without the entries of all
//! of them together, and where these rows do not do, by whole lists of entries as of a row claim. Where neither a step covers a valuation nor the
//! kept rows refute it, it gets a step too, if it is safe.
//!
//! Entries of a location whose steps lead into several others are found the same way, into one after another (several.rt, specs/Toward.antt): so
//! a certificate can have more than two locations.
//!
//! Begin with seeking.rt and specs/Seeking.antt.
#![tactic(auto)]

mod answers;
mod conditions;
mod copies;
mod covering;
mod fewest;
mod finding;
mod frame;
mod leading;
mod locations;
mod marks;
mod needing;
mod pairing;
mod proving;
mod reaching;
mod reading;
mod refs;
mod rows;
mod seeking;
mod several;

pub use answers::{test_answers, told_forms, told_rows, with_updates};
pub use copies::copy_set;
pub use frame::{By, Frame};
pub use leading::led_into;
pub use locations::location;
pub use marks::{mark_entries, mark_named, mark_premise, next_place, unset};
pub use pairing::{are_within, premises_of};
pub use refs::{all_of, without};
pub use rows::{chosen, only_marked};
pub use seeking::{frame_of, sought};
pub use several::{Target, entries_toward, steps_toward};
