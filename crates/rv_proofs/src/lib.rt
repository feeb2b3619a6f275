//! Certificates: partitions of the control of a program with rows and multipliers, which show that its observer is true
//! at every instant. An accepted certificate is an inductive invariant, and safety follows along every run.
//! The crate stands on diagrams and rows alone. Its definitions speak of any system of valuations (`specs/Systems.antt`),
//! which is what a program and its flat system give; begin to read there, then `specs/Scopes.antt` and `Accepted.antt`.
//! Beside certificates it has the cases and layers of an analysis, and box and row claims. `laws.rt` has the laws of
//! certificates, `control.rt` those of cases and claims. The answers of a checker and the order of its reasons stand
//! here, since laws speak of them and the report of a rejection is told by them; the checker is `rv_accept`.
#![tactic(auto)]

mod certificate;
mod control;
mod including;
mod laws;
mod report;
mod showing;
mod verdict;

pub use certificate::{Certificate, Entry, EntryKind, Location};
pub use control::{
    control_claims, layers_follow, least_closed_claims, rows_have_room, rows_of_cases,
    sets_of_valuations, tightened_ends, tighter_row_claims,
};
pub use including::first_unproved;
pub use laws::{
    certificates_are_safe, claims_are_met, claims_are_safe, cone_is_kept, document_is_judged,
    entries_lead, invariants_are_inductive, left_is_not_accepted, loop_from_entry_is_unsound,
    one_verdict, sample_is_accepted, settled_entries,
};
pub use report::{Case, Layers, LeftReport, Why};
pub use showing::{implied_is_shown, shows_after};
pub use verdict::{Reason, Verdict};
