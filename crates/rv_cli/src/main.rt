//! `reaver prove FILE NODE` shows why the observer of a Lustre node is true in every run, or a trace of one in which it is not, or tells
//! that neither was found;
//! `reaver replay FILE NODE TRACE` plays a trace, `reaver check FILE NODE INVARIANT` judges an invariant file, `reaver make N` shows a
//! source of N calls, and `reaver tour N` proves it.
#![tactic(auto)]

use rv_machine::{DiskFiles, StandardOut, ended_by, words};
use rv_run::run;
use std::process::ExitCode;

fn main(rt: HostRuntime) -> ExitCode {
    let words = match words(&rt) {
        Ok(words) => words,
        Err(report) => return ended_by(&report),
    };
    let mut files = DiskFiles::new(&rt);
    let mut out = StandardOut::new(&rt);
    let outcome = run(rt.alloc(), &words, &mut files, &mut out);
    ExitCode::from(outcome.status)
}
