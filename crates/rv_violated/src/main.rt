//! The program once more, so that a run of it on eight words is stored: a source that is not safe, its trace, and the status.
#![tactic(auto)]

use rv_machine::{DiskFiles, StandardOut, ended_by, words};
use rv_run::run;
use std::process::ExitCode;

fn main(rt: HostRuntime) -> ExitCode {
    let words = match words(&rt) {
        Ok(words) => words,
        Err(report) => return ended_by(&report),
    };
    let mut files = DiskFiles::new(&rt);
    let mut out = StandardOut::new(&rt);
    let outcome = run(rt.alloc(), &words, &mut files, &mut out);
    ExitCode::from(outcome.status)
}
