//! Integer expressions of a flat system, read into terms: at each valuation of the diagram variables a term has the linear form over
//! the columns that the expression has there.
//!
//! It stands on `rv_bits` for what is Boolean or of an enumeration, conditions and clocks among it, and on `rv_terms` for the
//! arithmetic. `read_wholes` promises the terms of all memories, inputs and flows (`AreWholes`), over which `term_of` reads one
//! expression more (`ReadsAs`): wherever the clock of the expression is there, it has the form of the term. `read_updates` promises the
//! updates of the integer memories (`AreUpdatesRead`). What is absent has the constant 0, so that at each valuation, there or not, a
//! form is within the weight of its expression, and no sum or product leaves its type. The parts of a term serve as the answers to a
//! question (`terms_answer`). Begin with specs/Terms.antt, then expressions.rt.
#![tactic(auto)]

mod constants;
mod expressions;
mod flows;
mod laws;
mod over;
mod updates;

pub use expressions::{none_known, term_of};
pub use flows::read_wholes;
pub use laws::terms_answer;
pub use over::Wholes;
pub use updates::{forms_of, read_updates, refs_of};
