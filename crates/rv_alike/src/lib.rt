//! Any two flat systems of one well formed program are alike.
//!
//! What it promises. A program leaves open in which order the flows of its flat system stand. Two flat systems of one program still
//! have the same names (`alike_names`), the same system of valuations, of which certificates and verdicts speak (`alike_systems`),
//! and the same documents, read and written (`alike_documents`). What is said of these for some flat system of a program is then
//! said for each.
//!
//! What it stands on: `rv_flat` for what a flat system has of its program, `rv_agreement` for the symbolic instants of both,
//! `rv_control` for systems of valuations, `rv_invariant` and `rv_invfile` for documents. It has no code but its laws.
//!
//! Where to begin: laws.rt; in the proofs Rising.antt (a rising list is known by its members) and Systems.antt (the system of
//! valuations, field by field).
#![tactic(auto)]

mod laws;

pub use laws::{alike_documents, alike_names, alike_systems};
