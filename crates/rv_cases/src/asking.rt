//! Questions, and what an answer tells.

use rv_base::Many;
use rv_diagram::Ref;
use rv_rows::{Form, Row};

/// What is asked of a valuation, and with which references it is answered.
#[derive(Debug, Drop)]
pub struct Questions {
    /// For each question the references of its answers. The first questions are the order tests: a test is absent, or has one of
    /// its rows. The integer memories follow: a memory becomes one of its forms. The last one is the observer: it is true, or false.
    pub questions: Many<Many<Ref>>,
    /// For each order test the rows of its answers, the first one for the second answer.
    pub rows: Many<Many<Row>>,
    /// For each integer memory the forms of its answers.
    pub forms: Many<Many<Form>>,
}

/// The order tests that are present, and their rows.
#[derive(Debug, Drop)]
pub struct Present {
    /// The tests by number, in rising order.
    pub tests: Many<u32>,
    /// Their rows, in the same order.
    pub rows: Many<Row>,
}
