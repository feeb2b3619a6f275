//! The report on the bytes of a source.

ghost use Rattle.std.specs.Prelude.{◌≡◌, ◌≤◌, ℕ, false, length, Result};
ghost use Rattle.rv_base.specs.declared.value.Trace.{Trace as TraceModel};
ghost use Rattle.rv_source.specs.declared.fault.SourceFault.{SourceFault as FaultModel};
ghost use Rattle.rv_meaning.specs.Runs.{IsSafe};
ghost use Rattle.rv_proofs.specs.declared.certificate.Certificate.{Certificate as CertificateModel};
ghost use Rattle.rv_walk.specs.Plain.{ArePlain};
ghost use Rattle.rv_proofs.specs.declared.report.LeftReport.{LeftReport as LeftModel};
ghost use Rattle.rv_run.specs.Answers.{IsOnSource, IsSafeUnlessCutOff, IsJudgedUnlessLimited, IsViolatedUnlessCutOff, IsViolatedUnlessUnread};
ghost use Rattle.rv_run.specs.Answers.{IsRefusalUnlessCutOff};
ghost use Rattle.rv_run.specs.Programs.{OnProgram, WithRuns, IsSafeControl, IsUnsafeControl, IsCertified, HasGoodClaim, HasManyVariables, HasProbe, LacksProbe};
ghost use Rattle.rv_run.specs.Programs.{IsProgram, IsUnknown, IsRefusedFor};
ghost use Rattle.rv_run.specs.Refusals.{refusal_of};
ghost use Rattle.rv_run.specs.Verdicts.{IsDocumentOf, IsInvariantOf, IsLeftOf, IsViolated, verdict_document, verdict_report};

use crate::judge::judge;
use crate::report::{Answer, Report};
use crate::verdict::Verdict;
use rv_alike::{alike_names, alike_systems};
use rv_diagram::StoreFault;
use rv_meaning::{one_run, some_run};
use rv_source::{SourceFault, numbers_are_small, read_source};
use rv_syntax::{SOURCE_LIMIT, one_tree, plain_names};
use rv_types::well_formed_programs;
use std::alloc::Global;

/// The report on a source, and the document of its certificate, its trace or what is left where it is Safe, Violated or Unknown. Refused where the bytes have no
/// tree, where their program breaks a rule of names, types or clocks, and where it breaks one of recursion, sizes, cycles or weights,
/// with the first fault. Otherwise Violated wherever a probe falsifies, and Safe with an accepted certificate wherever some closed box
/// claim or row claim is good. A source without integer flows has a good claim exactly where it is safe, and is else Violated, with a
/// shortest trace that falsifies it, or a probe where its diagrams outgrow their limit. One with integer flows of which neither is so is
/// Safe with another certificate, Violated with a trace that its replay confirms, or Unknown with what is left, as they are found: a left
/// partition, of as many locations as there may be, or whose left locations have one control state each. The certificate has no loops where these
/// are not to be accelerated. Nodes comes only where no probe falsifies and it has many diagram variables for the number of nodes that the
/// diagrams may have.
pub fn report_on_source(
    alloc: Global,
    bytes: &[u8],
    node: &str,
    nodes: u32,
    locations: u32,
    accelerate: bool,
) -> Answer
    requires short { length bytes.now ≤ SOURCE_LIMIT }
    requires limit { nodes ≤ 33554432 }
    requires least { 1 ≤ locations }
    requires most { locations ≤ 4096 }
    ensures safe { (c : CertificateModel) → result.report ≡ Report.Safe c → OnProgram (WithRuns IsSafe) bytes.now node.now }
    ensures certified { (c : CertificateModel) → result.report ≡ Report.Safe c → OnProgram (IsCertified c) bytes.now node.now }
    ensures invariant { (c : CertificateModel) → result.report ≡ Report.Safe c → OnProgram (IsInvariantOf c result.document.items) bytes.now node.now }
    ensures plain { (c : CertificateModel) → result.report ≡ Report.Safe c → accelerate ≡ false → ArePlain c }
    ensures violated { (t : TraceModel) → result.report ≡ Report.Violated t → OnProgram (WithRuns (IsViolated nodes t)) bytes.now node.now }
    ensures document { (t : TraceModel) → result.report ≡ Report.Violated t → OnProgram (IsDocumentOf t result.document.items) bytes.now node.now }
    ensures unknown { (l : LeftModel) → result.report ≡ Report.Unknown l → OnProgram (WithRuns (IsUnknown locations l)) bytes.now node.now }
    ensures left { (l : LeftModel) → result.report ≡ Report.Unknown l → OnProgram (IsLeftOf locations l result.document.items) bytes.now node.now }
    ensures nodes { (n : ℕ) → result.report ≡ Report.Nodes n → (n ≡ nodes) × OnProgram (HasManyVariables nodes) bytes.now node.now }
    ensures unprobed { (n : ℕ) → result.report ≡ Report.Nodes n → OnProgram LacksProbe bytes.now node.now }
    ensures refused { (fault : FaultModel) → result.report ≡ Report.Refused fault → IsRefusedFor fault bytes.now node.now }
    ensures only { IsOnSource result.report }
    ensures only_safe { OnProgram IsSafeControl bytes.now node.now → IsSafeUnlessCutOff result.report }
    ensures only_violated { OnProgram IsUnsafeControl bytes.now node.now → IsViolatedUnlessCutOff result.report }
    ensures only_probed { OnProgram HasProbe bytes.now node.now → IsViolatedUnlessUnread result.report }
    ensures only_claimed { OnProgram HasGoodClaim bytes.now node.now → IsSafeUnlessCutOff result.report }
    ensures only_judged { OnProgram IsProgram bytes.now node.now → IsJudgedUnlessLimited result.report }
    ensures only_refused { (fault : FaultModel) → IsRefusedFor fault bytes.now node.now → IsRefusalUnlessCutOff fault result.report }
{
    one_tree();
    plain_names();
    numbers_are_small();
    well_formed_programs();
    one_run();
    some_run();
    alike_names();
    alike_systems();
    match read_source(alloc, bytes, node) {
        Ok(source) => on_verdict(
            alloc,
            judge(alloc, &source, nodes, locations, accelerate),
            nodes,
        ),
        Err(fault) => Answer {
            report: refusal(fault),
            document: Vec::new(alloc),
        },
    }
}

/// The answer on a verdict, or on why there is none.
fn on_verdict(alloc: Global, judged: Result<Verdict, StoreFault>, nodes: u32) -> Answer
    ensures report { result.report ≡ verdict_report nodes judged }
    ensures document { result.document.items ≡ verdict_document judged }
{
    let mut document = Vec::new(alloc);
    let report = match judged {
        Ok(Verdict::Safe(certificate, text)) => {
            document = text;
            Report::Safe(certificate)
        }
        Ok(Verdict::Violated(trace, text)) => {
            document = text;
            Report::Violated(trace)
        }
        Ok(Verdict::Undecided(left, text)) => {
            document = text;
            Report::Unknown(left)
        }
        Err(StoreFault::Nodes) => Report::Nodes(nodes),
        Err(StoreFault::Memory) => Report::Memory,
    };
    Answer { report, document }
}

/// The report on a source that is not accepted. Want of memory refuses nothing.
pub fn refusal(fault: SourceFault) -> Report
    ensures { result ≡ refusal_of fault }
{
    match fault {
        SourceFault::Memory => Report::Memory,
        fault => Report::Refused(fault),
    }
}
