//! A system of valuations as decision diagrams in a store: its cases, and images and preimages of sets of control
//! states (Burch, Clarke, McMillan, Dill and Hwang 1990).
//!
//! It promises that cases, images, preimages and initial states are exactly those of the system that its references mean in the store
//! beside it, that each call but `step` leaves the store as it was, and that what is built in the store leaves those meanings. It knows systems
//! alone, and no programs. It stands on `rv_proofs` for systems and on `rv_diagram`. Begin with relation.rt, then
//! specs/Represented.antt for what the references mean.
#![tactic(auto)]

mod cubes;
mod given;
mod laws;
mod links;
mod relation;
mod schedule;
mod sides;
mod steps;
mod words;

pub use laws::relation_stays;
pub use relation::{NextStates, Parts, Relation};
