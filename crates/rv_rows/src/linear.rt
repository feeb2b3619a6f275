use rv_base::Many;

/// A linear inequality over whole numbers: the sum of the coefficients, each times its column, is at most the
/// bound. Columns beyond the width have coefficient 0.
#[derive(Clone, Debug, Drop, PartialEq, Eq)]
pub struct Row {
    /// One coefficient for each column.
    pub coefficients: Many<i128>,
    /// The greatest value that the sum may have.
    pub bound: i128,
}

/// A linear form over whole numbers: the sum of the coefficients, each times its column, and the constant.
#[derive(Clone, Debug, Drop, PartialEq, Eq)]
pub struct Form {
    /// One coefficient for each column.
    pub coefficients: Many<i128>,
    /// What is added to the sum.
    pub constant: i128,
}
