//! The report on the bytes of a trace over an accepted source.

ghost use Rattle.std.specs.Prelude.{◌≡◌, ◌≤◌, length, Result};
ghost use Rattle.rv_tree.specs.Tree.{program_tree};
ghost use Rattle.rv_tree.specs.Words.{HasPlainNames};
ghost use Rattle.rv_types.specs.Instances.{name_at};
ghost use Rattle.rv_run.specs.declared.report.Report.{Report as ReportModel};
ghost use Rattle.rv_run.specs.Loaded.{file_report, replay_report};
ghost use Rattle.rv_run.specs.Traced.{IsTraceAnswer, IsTraceReport, IsUnlessNoMemory, SaysOfTrace};

use crate::report::Report;
use rv_flatten::{fitting_sources, flatten};
use rv_instances::Source;
use rv_invfile::{FileFault, fitting_traces, one_trace_rule, read_trace, told_systems};
use rv_replay::{ReplayFault, Replayed, flat_traces, replay};
use rv_types::well_formed_programs;
use std::alloc::Global;

/// How many bytes a file with a trace may have.
pub const FILE_LIMIT: usize = 67_108_864;

/// The report on the bytes of a trace over an accepted source, in whose text names are letters, digits and `_`. BadFile where they
/// are the document of no trace of its program, with the first fault. Otherwise what the trace does, as `replay` answers it.
pub fn report_on_trace(alloc: Global, source: &Source, document: &[u8]) -> Report
    requires plain { HasPlainNames (program_tree source.now.program) }
    requires short { length document.now ≤ FILE_LIMIT }
    ensures says { (report : ReportModel) → IsTraceReport report → result ≡ report
        → SaysOfTrace report document.now (program_tree source.now.program) (name_at (program_tree source.now.program) source.now.typed.main) }
    ensures only { IsTraceAnswer result }
    ensures only_says { (report : ReportModel)
        → SaysOfTrace report document.now (program_tree source.now.program) (name_at (program_tree source.now.program) source.now.typed.main)
        → IsUnlessNoMemory report result }
{
    fitting_sources();
    well_formed_programs();
    told_systems();
    fitting_traces();
    flat_traces();
    one_trace_rule();
    let Ok(flat) = flatten(alloc, source) else {
        return Report::Memory;
    };
    match read_trace(alloc, &flat, document) {
        Ok(trace) => on_replay(replay(alloc, source, &trace)),
        Err(fault) => on_fault(fault),
    }
}

/// The report on how a replay ended.
fn on_replay(end: Result<Replayed, ReplayFault>) -> Report
    ensures { result ≡ replay_report end }
{
    match end {
        Ok(Replayed::Falsified(at)) => Report::Falsified(at),
        Ok(Replayed::AssertionFails(at, place)) => Report::AssertionFails(at, place),
        Ok(Replayed::NeverFalse) => Report::NeverFalse,
        Err(ReplayFault::Outgrown(at, place)) => Report::Outgrown(at, place),
        Err(ReplayFault::Memory) => Report::Memory,
    }
}

/// The report on a file that is no document. Want of memory is no fault of it.
pub fn on_fault(fault: FileFault) -> Report
    ensures { result ≡ file_report fault }
{
    match fault {
        FileFault::Memory => Report::Memory,
        fault => Report::BadFile(fault),
    }
}
