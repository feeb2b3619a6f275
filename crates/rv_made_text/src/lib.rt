//! A made source is the text of a chain of calls.
//!
//! It promises that the text which `rv_make` makes for a number has the tree of two nodes, one of which calls the other that many
//! times, each call after the one before (`made_trees`). It stands on `rv_make` for the text and the tree, and on `rv_syntax` for the
//! grammar; it has no code but its law. Begin with laws.rt; in the proofs with Tokens.antt, the tokens of such a text and where they
//! stand, and then with Lexed.antt (the text has these tokens), Derived.antt (the grammar derives them), Nested.antt (they are nested
//! within the limit) and Sited.antt (the derived tree with its sites is the chain).
#![tactic(auto)]

mod laws;

pub use laws::made_trees;
