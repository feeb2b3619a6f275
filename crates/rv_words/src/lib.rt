//! The words of the command line.
//!
//! What it promises. `read_words` answers with the command exactly where the words are one, and with none exactly where they are
//! none: the words are taken as a command of `clap` takes them, by `clap`'s own definitions of what it refuses and of what it finds,
//! and the numbers and the `yes` or `no` among them are then read here. Laws say what that is on ordinary words (`plain_words`,
//! `words_with_nodes`, `no_words`), and that the words refused are just those that `clap` does not take (`taken_words`);
//! the numbers of each command lie within their ranges (`numbers_have_ranges`).
//!
//! What it stands on: `clap` for the words, `rv_base` for want of memory.
//!
//! Where to begin: specs/Reaver.antt (the command), specs/Words.antt (what words mean), reading.rt. building.rt makes the command; in
//! the proofs Parsed.antt leads from `clap`'s clauses to the meaning of the words.
#![tactic(auto)]

mod building;
mod command;
mod laws;
mod ranges;
mod reading;
mod values;

pub use command::{Checking, Command, Proving, Replaying};
pub use laws::{
    no_words, plain_words, taken_words, words_after_dashes, words_with_nodes,
    words_with_options_first, words_with_other_flags,
};
pub use ranges::numbers_have_ranges;
pub use reading::{read_answer, read_words};
