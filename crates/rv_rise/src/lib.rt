//! The least closed row claim of a system of valuations with integers, computed upward: a set of control states with rows over one or two
//! integer memories whose bounds are thresholds, each as tight as a closed claim can have it.
//!
//! It promises that `least_closed` gives the least closed row claim, in the shape of which a certificate can be made. It knows systems
//! alone, and no programs.
//!
//! How it is built, from the bottom. All left sides of candidates stand in one table (table.rt), and a claim under way has for each of them a limit among the
//! thresholds, or none (risen.rt); those that have one are its rows (rows.rt). Its premises stand as rows that count where a reference is true, and one
//! reference is true exactly at the valuations that it takes. Each limit rises to the least threshold that the premises show of its left side after the
//! updates at all of these, or goes (limits.rt, columns.rt), and the control states outside of the claim to which they lead are taken in (steps.rt). The
//! search begins with the initial control states and the least threshold at each left side (search.rt). The first round asks all valuations that the claim
//! takes, the others those with the main tick alone, until nothing changes: at initial valuations no row of a claim counts (rounds.rt). What the tests say by
//! themselves is asked once for all rounds (asking.rt).
//!
//! It stands on `rv_claims` for claims and their order, on `rv_pairs` for what premises show at all valuations at once, on `rv_ends` for thresholds, on
//! `rv_leaving` for next control states, and on `rv_symbolic` and `rv_walk` for sets of control states. Begin with search.rt, then rounds.rt and
//! specs/Rounds.antt.
#![tactic(auto)]

mod asking;
mod columns;
mod frame;
mod limits;
mod risen;
mod rounds;
mod rows;
mod search;
mod steps;
mod table;

pub use asking::{Asked, asked_of};
pub use columns::columns_of;
pub use rows::rows_of;
pub use search::least_closed;
pub use table::sides_of;
