//! Linear forms that depend on the variables of decision diagrams: at each valuation a term has one form.
//! Each call is exact on every valuation and leaves the store as it was after a fault. Over m variables `leaf`, `scale` and
//! `single` keep no node, `choose` adds at most `m * 2^m` and `sum` at most `2 m * 2^m`, and none answers Nodes where the list
//! has room for `(m + 2) * 2^(m + 2)` nodes more.
#![tactic(auto)]

mod calls;
mod laws;
mod parted;

pub use calls::{choose, leaf, scale, single, sum};
pub use laws::{few_nodes, one_form, terms_stay};
pub use parted::{Part, Term};
