//! The files, the standard output and the words of the machine.
//!
//! It promises that `DiskFiles` and `StandardOut` meet `Files` and `Sink` of `rv_base`, which say nothing of content here: they
//! are the trusted edge, with tests beside them. The programs above make them, and call `run` themselves.
#![tactic(auto)]

mod command_line;
mod disk_files;
mod standard_out;

pub use command_line::{ended_by, words, words_in};
pub use disk_files::DiskFiles;
pub use standard_out::StandardOut;
