//! The program once more, so that a run of it is stored on words that are no command, with the status that it ends with.
#![tactic(auto)]

use rv_machine::{DiskFiles, StandardOut, ended_by, words};
use rv_run::run;
use std::process::ExitCode;

fn main(rt: HostRuntime) -> ExitCode {
    let words = match words(&rt) {
        Ok(words) => words,
        Err(report) => return ended_by(&report),
    };
    let mut files = DiskFiles::new(&rt);
    let mut out = StandardOut::new(&rt);
    let outcome = run(rt.alloc(), &words, &mut files, &mut out);
    ExitCode::from(outcome.status)
}
