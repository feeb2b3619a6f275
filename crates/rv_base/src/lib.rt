//! What stands between the program and the outside, and the small types that every layer shares.
//!
//! It promises what `Files` and `Sink` tell of the outside, and that the implementations in memory meet them exactly; `Many`, `Text`,
//! `Path`, `Sites` are to contracts the lists that they hold; limits.rt has the numbers that bound a source. It stands on nothing of
//! the project, and every crate stands on it. Begin with files.rt and sink.rt, then specs/Shelf.antt and specs/Causes.antt.
#![tactic(auto)]

mod entries;
mod files;
mod held;
mod limits;
mod many;
mod memory;
mod memory_files;
mod memory_sink;
mod sink;
mod sites;
mod sure_files;
mod sure_sink;
mod text;
mod value;

pub use files::{Files, LoadFault};
pub use held::Box;
pub use limits::{HEAVIEST, SOURCE_LIMIT, TOO_HEAVY};
pub use many::Many;
pub use memory::Memory;
pub use memory_files::MemoryFiles;
pub use memory_sink::MemorySink;
pub use sink::{PutFault, Sink};
pub use sites::{Path, Sites};
pub use sure_files::SureFiles;
pub use sure_sink::SureSink;
pub use text::Text;
pub use value::{Place, Trace, Value};
