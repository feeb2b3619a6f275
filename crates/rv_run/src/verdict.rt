use rv_base::Trace;
use rv_proofs::{Certificate, LeftReport};

/// What is found of an accepted source.
#[derive(Debug, Drop)]
pub enum Verdict {
    /// It is safe: a certificate of it, and the document of the certificate.
    Safe(Certificate, Vec<u8>),
    /// It is not safe: a trace that falsifies it, and the document of the trace.
    Violated(Trace, Vec<u8>),
    /// It has integers, no closed box claim or row claim of it is good, and no probe falsifies it: a left partition with why nothing more was
    /// split, and the document of this.
    Undecided(LeftReport, Vec<u8>),
}
