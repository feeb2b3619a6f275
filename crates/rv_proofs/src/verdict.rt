use rv_base::Many;

/// What a checker says of a certificate.
#[derive(Debug, PartialEq, Eq, Drop)]
pub enum Verdict {
    /// It is accepted.
    Accepted,
    /// It is not, and this is the first thing that fails.
    Rejected(Reason),
}

/// What fails in a certificate. A control state and a valuation are one truth value for each diagram variable.
#[derive(Debug, PartialEq, Eq, Drop)]
pub enum Reason {
    /// An initial control state is in no location whose `entry` is empty.
    NoInitial(Many<bool>),
    /// An allowed valuation of a location meets no condition.
    Uncovered(u32, Many<bool>),
    /// An entry of a location is not settled.
    Unsettled(u32, u32),
    /// The observer is false in the scope of a step.
    Observer(u32, u32, Many<bool>),
    /// A step does not lead into its target.
    Target(u32, u32, Many<bool>),
    /// An implication of an entry does not hold by its multipliers.
    Multipliers(u32, u32, u32),
    /// A row of `state` is not proved from `entry`, or, after these, from `first`.
    Inclusion(u32, u32),
}
