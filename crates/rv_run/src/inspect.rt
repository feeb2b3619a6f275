//! The report on the bytes of an invariant file over an accepted source.

ghost use Rattle.std.specs.Prelude.{◌≡◌, ◌<◌, ◌≤◌, ◌^◌, ℕ, length, IfOk, IsErrOf, Result};
ghost use Rattle.rv_tree.specs.Tree.{ProgramTree, program_tree};
ghost use Rattle.rv_tree.specs.Places.{Identifier};
ghost use Rattle.rv_tree.specs.Words.{HasPlainNames};
ghost use Rattle.rv_types.specs.Instances.{IsNode, name_at};
ghost use Rattle.rv_types.specs.WellFormed.{AreWell};
ghost use Rattle.rv_meaning.specs.Runs.{IsSafe};
ghost use Rattle.rv_flat.specs.FlatOf.{IsFlatOf};
ghost use Rattle.rv_control.specs.Control.{control_of};
ghost use Rattle.rv_invariant.specs.Certificates.{FitsCertificate};
ghost use Rattle.rv_proofs.specs.Counts.{HasFree};
ghost use Rattle.rv_proofs.specs.Verdicts.{IsVerdict};
ghost use Rattle.rv_run.specs.declared.report.Report.{Report as ReportModel};
ghost use Rattle.rv_run.specs.declared.words.Task.TheVariants as tasks;
ghost use Rattle.rv_run.specs.Checked.{IsAnswerOf, IsInvariantReport, IsUnlessLimit, SaysOfInvariant};
ghost use Rattle.rv_run.specs.Loaded.{accepted_report};
ghost use Rattle.rv_run.specs.Programs.{HasManyVariables};

use crate::report::Report;
use crate::retrace::{FILE_LIMIT, on_fault};
use rv_alike::{alike_documents, alike_systems};
use rv_certificate::accept;
use rv_control::runs_are_abstract;
use rv_diagram::StoreFault;
use rv_flat::Flat;
use rv_flatten::{fitting_sources, flatten};
use rv_instances::Source;
use rv_invariant::{documents_fit, read_certificate};
use rv_proofs::{Certificate, Verdict, certificates_are_safe, one_verdict};
use rv_reading::Reading;
use rv_types::well_formed_programs;
use std::alloc::Global;

/// The report on the bytes of an invariant file over an accepted source, in whose text names are letters, digits and `_`. BadFile where
/// they are the document of no certificate of its program, with the first fault. Otherwise Accepted where the certificate is accepted
/// for the system of the program's flat system, and Rejected with the first reason where it is not. Nodes comes only where the program
/// has many diagram variables for the number of nodes that the diagrams may have.
pub fn report_on_invariant(alloc: Global, source: &Source, document: &[u8], nodes: u32) -> Report
    requires limit { nodes ≤ 33554432 }
    requires plain { HasPlainNames (program_tree source.now.program) }
    requires short { length document.now ≤ FILE_LIMIT }
    ensures says { (report : ReportModel) → IsInvariantReport report → result ≡ report
        → SaysOfInvariant report document.now (program_tree source.now.program) (name_at (program_tree source.now.program) source.now.typed.main) }
    ensures safe { result ≡ Report.Accepted → IsSafe (program_tree source.now.program) (name_at (program_tree source.now.program) source.now.typed.main) }
    ensures wide { (n : ℕ) → result ≡ Report.Nodes n → (n ≡ nodes)
        × HasManyVariables nodes (program_tree source.now.program) (name_at (program_tree source.now.program) source.now.typed.main) }
    ensures only { IsAnswerOf tasks.Check result }
    ensures only_says { (report : ReportModel)
        → SaysOfInvariant report document.now (program_tree source.now.program) (name_at (program_tree source.now.program) source.now.typed.main)
        → IsUnlessLimit tasks.Check report result }
{
    fitting_sources();
    well_formed_programs();
    runs_are_abstract();
    certificates_are_safe();
    one_verdict();
    documents_fit();
    alike_systems();
    alike_documents();
    let Ok(flat) = flatten(alloc, source) else {
        return Report::Memory;
    };
    match read_certificate(alloc, &flat, document) {
        Ok(certificate) => on_accepted(accepted(alloc, &flat, &certificate, nodes), nodes),
        Err(fault) => on_fault(fault),
    }
}

/// The verdict on a certificate of the flat system of a well formed program.
fn accepted(
    alloc: Global,
    flat: &Flat,
    certificate: &Certificate,
    nodes: u32,
) -> Result<Verdict, StoreFault>
    requires limit { nodes ≤ 33554432 }
    requires program { (program : ProgramTree) × (main : Identifier) × AreWell program × IsNode program main × IsFlatOf program main flat.now }
    requires fits { FitsCertificate flat.now certificate.now }
    requires free { HasFree certificate.now }
    ensures exact { IfOk result (λ v. IsVerdict (control_of flat.now) certificate.now v) }
    ensures wide { IsErrOf result StoreFault.Nodes → nodes < 2 ^ (2 ^ length flat.now.variables) }
{
    let mut reading = Reading::new(alloc, flat, nodes)?;
    accept(alloc, &mut reading, certificate)
}

/// The report on a verdict, or on why there is none.
fn on_accepted(judged: Result<Verdict, StoreFault>, nodes: u32) -> Report
    ensures { result ≡ accepted_report nodes judged }
{
    match judged {
        Ok(Verdict::Accepted) => Report::Accepted,
        Ok(Verdict::Rejected(reason)) => Report::Rejected(reason),
        Err(StoreFault::Nodes) => Report::Nodes(nodes),
        Err(StoreFault::Memory) => Report::Memory,
    }
}
