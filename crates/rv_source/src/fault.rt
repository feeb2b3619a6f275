//! Why a source is refused.

use rv_causality::CauseFault;
use rv_syntax::TextFault;
use rv_types::NameFault;
use thiserror::Error;

/// Why a source is refused.
#[derive(Debug, PartialEq, Eq, Drop, Error)]
pub enum SourceFault {
    /// It is no program, by its first offending token.
    #[error("{0}")]
    Text(TextFault),
    /// A rule of names, types or clocks is broken.
    #[error("{0}")]
    Names(NameFault),
    /// A rule of recursion, size, cycles or weights is broken.
    #[error("{0}")]
    Cause(CauseFault),
    /// There was no memory.
    #[error("out of memory")]
    Memory,
}
