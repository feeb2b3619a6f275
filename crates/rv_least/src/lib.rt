//! The box pass over a system of valuations with integers, without a case for each answer of each order test: the least closed box claim, a set
//! of control states with bounds of the integer memories among thresholds (interval analysis with widening by thresholds, Cousot and Cousot
//! 1976).
//!
//! It promises that `box_pass` answers Good exactly where a closed good box claim exists, with an accepted certificate, and else gives the
//! layers of the least closed claim. It knows systems alone, and no programs.
//!
//! How it is built, from the bottom. What the memories and their opposites become stands as forms for the answers to their questions
//! (turned.rt). A claim is opened in the store: one reference is true exactly at the valuations that it takes, beside their boxes (opened.rt).
//! Limits rise by what the memories become there (rising.rt), and the system whose allowed valuations are the taken ones gives the next control
//! states of all of them in one image (narrowed.rt). Rounds of both loosen a claim until nothing changes (rounds.rt). The claim at which they end
//! is good or has layers, which `rv_walk` walks in the narrowed system. Where it is good a certificate with few entries is sought, which the
//! checker judges (searching.rt), and where none is found that it accepts the certificate is one over the claim's cases (pass.rt).
//!
//! It stands on `rv_taken` and `rv_ends` for what a claim takes, on `rv_boxes` for claims, their certificates over cases and their order, on
//! `rv_cover` for the search and `rv_accept` for the checker, on `rv_walk` and `rv_symbolic` for sets of control states, and on `rv_proofs`.
//! Begin with pass.rt, then rounds.rt and specs/Rounds.antt.
#![tactic(auto)]

mod narrowed;
mod next;
mod opened;
mod pass;
mod rising;
mod rounds;
mod searching;
mod turned;

pub use pass::box_pass;
