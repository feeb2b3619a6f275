//! Sources that the program makes itself, of any length: a chain of delays, each a call of one node.
//!
//! It promises the text of each such source (`make`), and holds the definition of the tree that it is the text of. It stands on the small
//! types and on the tree alone. Begin with making.rt, then specs/Made.antt and specs/Chains.antt.
#![tactic(auto)]

mod making;

pub use making::{made_texts_are_short, make};
