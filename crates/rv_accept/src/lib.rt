//! The checker of certificates: whether a certificate is accepted for a system of valuations, by the references of the system in a
//! diagram store.
//!
//! It promises that the answer is Accepted exactly where the certificate is accepted by its definition (`IsAccepted` of `rv_proofs`), and
//! otherwise the first reason in the order of the tests, with its least valuation or control state; that an accepted certificate implies
//! safety along each run of the system; that the locations that `judge` answers make a certificate a left partition (`IsLeftPartition`), and
//! that it answers some wherever there are any; and that the store is left as it was. It knows systems alone, and no programs. It stands on
//! `rv_proofs` for certificates, on `rv_symbolic` and `rv_cases` for the references of a system, on `rv_rows` for multipliers and on
//! `rv_diagram`. Begin with checker.rt, then specs/Passing.antt for what is given and what passes at each level; for partitions with
//! judging.rt and specs/Judging.antt.
#![tactic(auto)]

mod checker;
mod entry;
mod facts;
mod implying;
mod including;
mod judging;
mod laws;
mod naming;
mod sets;
mod settled;
mod settling;
mod showing;
mod words;

pub use checker::accept;
pub use judging::judge;
pub use laws::{counting_is_given, levels_compose, places_are_apart};
