//! The abstract value of one location: a set of control states, and a polyhedron that has what the integer memories may be there.
//!
//! It promises that `post` has every successor by a case where it is given the image of the control set, and `pre` every predecessor where it is
//! given the preimage, and no other state where each update adds a constant to its own column and the rows stay within their limits; that
//! `includes` is told only where every state of the other is one of the value's, and wherever the rows show it at once; and that `join` has the
//! states of both. `Domain` says what an abstract domain of points is, of which polyhedra, boxes and rows over two columns are instances. No
//! command calls this crate yet.
//!
//! It stands on `rv_poly` for points, on `rv_diagram` for control sets, and on `rv_proofs` for systems and their cases. Begin with value.rt,
//! then specs/States.antt and specs/Predecessors.antt.
#![tactic(auto)]

mod domain;
mod narrow;
mod polys;
mod sets;
mod value;

pub use domain::Domain;
pub use narrow::{Bounds, Pairs};
pub use value::Abstract;
