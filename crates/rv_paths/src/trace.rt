use rv_base::Many;

/// A candidate for a trace that falsifies a system: from one instant to the next it follows a path of cases, whose last one has a false
/// observer.
#[derive(Debug, Drop)]
pub struct Candidate {
    /// For each instant a truth value for each variable of the store: a valuation of the instant's case. Those of next copies mean nothing.
    pub words: Many<Many<bool>>,
    /// What each integer memory starts with.
    pub starts: Many<i128>,
    /// For each instant the number of each integer input.
    pub inputs: Many<Many<i128>>,
}
