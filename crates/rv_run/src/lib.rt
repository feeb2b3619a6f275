//! What the program does with the words of its command line: over any files and any sink it reads a source, judges it, replays a
//! trace over it or checks an invariant file, and shows one report.
//!
//! It promises what each report says of the bytes under the named files, which report comes where, what is shown and the status
//! (the clauses of `run`). It joins the readers of sources, traces and invariant files, the builder of flat systems, the probes, the box
//! pass, the analysis of what it leaves, the search for traces, the checker and the replay. Begin with running.rt, then prove.rt with
//! judge.rt, retrace.rt and inspect.rt, and specs/Programs.antt, specs/Traced.antt and specs/Checked.antt for what the reports say.
#![tactic(auto)]

mod inspect;
mod judge;
mod laws;
mod load;
mod made;
mod prove;
mod report;
mod retrace;
mod running;
mod verdict;
mod words;

pub use laws::probed_texts;
pub use report::{Outcome, Report, Sent, status_of_report, text};
pub use running::run;
