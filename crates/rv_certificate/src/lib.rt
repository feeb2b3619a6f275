//! The checker of certificates over the control reading of a flat system.
//!
//! It promises Accepted exactly where a certificate is accepted for the system of the flat system, and otherwise the first reason with
//! the least valuation or control state that fails. It stands on `rv_reading`, and that on the checker of any system, `rv_accept`;
//! `check` answers by it. Begin with checking.rt.
#![tactic(auto)]

mod checking;

pub use checking::accept;
