//! The control states that a system without integers reaches, layer by layer: a certificate where the observer is true at
//! all of them, and the layers where it is not.
//!
//! It promises Good exactly where every run of the system is safe, and that from bad layers a run leads to a false observer
//! (`layers_falsify`). Sets of control states are joined and cut in sets.rt. It stands on `rv_symbolic`, and knows no programs. Begin
//! with walking.rt, then specs/Walks.antt.
#![tactic(auto)]

mod certify;
mod end;
mod laws;
mod path;
mod sets;
mod walking;

pub use end::BoxEnd;
pub use laws::layers_falsify;
pub use path::falsifying_path;
pub use sets::{Extended, extend, without};
pub use walking::walk;
