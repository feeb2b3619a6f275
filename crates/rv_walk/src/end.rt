use rv_proofs::{Certificate, Layers};

/// How a walk through the layers ends.
#[derive(Debug, Drop)]
pub enum BoxEnd {
    /// The observer is true at each allowed valuation of what is reached.
    Good(Certificate),
    /// It is false at one of them.
    Bad(Layers),
}
