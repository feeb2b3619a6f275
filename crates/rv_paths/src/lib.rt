//! Candidates for traces that falsify a system of valuations with integers: a path of cases from the initial control states to one at
//! which the observer is false, and a whole point of the rows of all its instants.
//!
//! It promises the shape of a candidate and the range of its numbers, and that the store is left as it was. That a candidate falsifies is
//! for its replay to show; None promises nothing.
//!
//! How it searches. A node is reached by a path of cases; it has exactly the control states to which the path leads, and a span of the
//! numbers of each integer memory (tree.rt, spans.rt), narrowed by the rows of the path (unroll.rt, hulls.rt). Nodes are visited breadth
//! first, those that no earlier node covers before the others (search.rt). Where a case with a false observer is open at a node, the rows of
//! all instants of the path are joined over the start values and the inputs of each instant (unroll.rt), a whole point of them is sought
//! (points.rt), and a valuation of each instant is found back from the last one (words.rt).
//!
//! It stands on `rv_cases` for cases, on `rv_symbolic` and `rv_walk` for sets of control states, and on `rv_poly` and `rv_seek` for points
//! of rows. It knows systems alone, and no programs. Begin with finding.rt, then specs/Candidates.antt.
#![tactic(auto)]

mod finding;
mod hulls;
mod planning;
mod points;
mod search;
mod sets;
mod spans;
mod trace;
mod tree;
mod unroll;
mod words;

pub use finding::candidate;
pub use trace::Candidate;
