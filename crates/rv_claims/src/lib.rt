//! Row claims: a set of control states with rows over one or two integer memories, whose bounds are thresholds.
//!
//! It promises what an upward search for the least closed claim rests on: a tighter claim is good where another is, what a step upward
//! from the bottom gives stays below each closed claim, and the certificate that a closed good claim gives is accepted. It knows systems
//! alone, and no programs. It stands on `rv_proofs` for claims and certificates. Begin with laws.rt and specs/Order.antt; claim.rt has
//! claims as values.
#![tactic(auto)]

mod claim;
mod laws;

pub use claim::Claim;
pub use laws::{claim_certificate, least_claim, renumbered_multipliers, tighter_claims};
