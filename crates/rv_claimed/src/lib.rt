//! The certificate of a closed row claim.
//!
//! It promises that a closed row claim gives an accepted certificate without loops exactly where the claim is good, which is where the
//! observer is true at all valuations that the claim takes. The certificate has two locations: one for the initial control states, without
//! rows, and one for the others, with rows of the claim. It knows systems alone, and no programs.
//!
//! The claim is opened first: one reference is true at the valuations that it takes, and where the observer is false at one of these there is
//! no certificate. Else a search seeks one with few entries (`rv_cover`), which the checker accepts (searching.rt). Where nothing comes of
//! that, the certificate is made over the cases, which is proved to be right.
//!
//! How that is built, from the bottom. The premises of a case are the rows of its location, and then those of the tests that are present.
//! A pair of them that shows a row at once has other numbers in a certificate, where each test has one, present or not (pairs.rt,
//! specs/Placing.antt). A case whose premises are shut at once is dead, and another is a step into the second location; where the observer is
//! false at a step there are no entries, since the claim is bad (entries.rt). The entries of all cases of a set of control states make a
//! location, and both locations the certificate (locations.rt).
//!
//! It stands on `rv_claims` for claims and the law of their certificates, on `rv_pairs` for what a claim takes, on `rv_cover` for the search and
//! on `rv_accept` for its judge, on `rv_seek` for the search of pairs, on `rv_cases` for cases, on `rv_symbolic` and `rv_walk` for sets of control
//! states, and on `rv_proofs` for certificates. Begin with building.rt; then searching.rt, entries.rt and specs/Certifying.antt.
#![tactic(auto)]

mod building;
mod entries;
mod lists;
mod locations;
mod pairs;
mod searching;

pub use building::certify;
