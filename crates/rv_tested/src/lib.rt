//! The comparisons of integers of a flat system, read into the questions of its order tests, and with its updates and its observer into
//! the questions by which `rv_cases` splits its valuations.
//!
//! `read_questions` promises that each answer is true exactly where it is right (`AreQuestions`), and that no test has one row in two
//! answers and no memory one form (`AreDistinct`). An order test is absent where no comparison of it is there; where one is, its row is
//! the tightened one of the form that it asks to be at most 0, or of the negation, by the truth of its variable. Rows that are equal are
//! one answer. It stands on `rv_forms` for the terms of integer expressions, on `rv_bits` for what is Boolean, and on `rv_control` for
//! what the system of a flat system is. Begin with questions.rt, then testing.rt, rows.rt and specs/Exact.antt.
#![tactic(auto)]

mod compared;
mod questions;
mod rows;
mod testing;

pub use compared::{Compared, comparisons_of};
pub use questions::{ask_system, read_questions};
