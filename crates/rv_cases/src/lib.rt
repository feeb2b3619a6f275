//! The cases of a set of control states of a system of valuations with integers, in a diagram store: the allowed valuations,
//! split by one question after another, until each question has one answer throughout each part.
//!
//! The questions are the order tests (absent, or which row), the integer memories (which form) and the observer. What their answers
//! mean is `AreQuestions` (specs/Questions.antt). It knows systems alone, and no terms and no arithmetic. It stands on `rv_proofs`
//! for systems and cases and on `rv_diagram`. Begin with parting.rt.
#![tactic(auto)]

mod asking;
mod laws;
mod parting;
mod splitting;
mod telling;

pub use asking::{Present, Questions};
pub use laws::counting_is_asked;
pub use parting::{cases, make_case};
pub use splitting::{place_in, sample_of, split, split_whole};
pub use telling::{observer_in, tests_in, updates_in};
