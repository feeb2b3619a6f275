//! Linear rows and forms over the whole numbers, and multipliers that prove a row from others (Farkas' lemma).
//!
//! It promises that each call is exact at every point, that what `proves` and `refutes` accept holds at whole points, and that no
//! sum leaves its type. It stands on `rv_base` alone. Begin with linear.rt and forms.rt, then farkas.rt.
#![tactic(auto)]

mod farkas;
mod forms;
mod laws;
mod linear;
mod sums;
mod tighten;

pub use farkas::{Multipliers, Weight, proves, refutes};
pub use laws::{forms_at_points, rows_of_tests, tightened_rows};
pub use linear::{Form, Row};
pub use sums::number_at;
