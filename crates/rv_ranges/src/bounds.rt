/// How much there is of what a certificate speaks of.
#[derive(Clone, Copy, Debug, PartialEq, Eq)]
pub struct Bounds {
    /// How many state bits there are. State bit i is variable 2 i, and variable 2 i + 1 is its next copy.
    pub states: u32,
    /// How many variables diagrams may have.
    pub variables: u32,
    /// How many integer memories there are: each row of a location has one coefficient for each.
    pub memories: usize,
    /// How many order tests there are: the premises of an entry are rows of its location, and then one row for each test.
    pub tests: u32,
}
