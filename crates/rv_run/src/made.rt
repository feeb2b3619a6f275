//! The reports on sources that are made.

ghost use Rattle.std.specs.Prelude.{◌≡◌, ◌≤◌, ◌⊎◌, ℕ, length, codes};
ghost use Rattle.rv_meaning.specs.Runs.{IsSafe};
ghost use Rattle.rv_make.specs.Made.{made_text};
ghost use Rattle.rv_proofs.specs.declared.certificate.Certificate.{Certificate as CertificateModel};
ghost use Rattle.rv_run.specs.Answers.{IsNodesReport, IsTouredReport};
ghost use Rattle.rv_run.specs.Programs.{OnProgram, WithRuns, HasManyVariables, LacksProbe, IsCertified};
ghost use Rattle.rv_run.specs.Traced.{IsUnlessNoMemory};
ghost use Rattle.rv_run.specs.Words.{usual_nodes};

use crate::prove::report_on_source;
use crate::report::{Answer, Report};
use crate::words::{USUAL_LOCATIONS, USUAL_NODES};
use rv_made_order::made_programs_are_accepted;
use rv_made_safe::made_programs_are_safe;
use rv_made_text::made_trees;
use rv_make::{made_texts_are_short, make};
use std::alloc::Global;

/// The report on the source with this many calls: its text, unless there is no memory.
pub fn report_on_make(alloc: Global, n: u32) -> Report
    requires positive { 1 ≤ n }
    requires within { n ≤ 2000 }
    ensures { IsUnlessNoMemory (Report.Made (made_text n)) result }
{
    match make(alloc, n) {
        Ok(source) => Report::Made(source),
        Err(_) => Report::Memory,
    }
}

/// The report on the proof of that source: that it is safe, unless the diagrams outgrow their usual number of nodes, which comes only
/// where the source has many diagram variables, or there is no memory.
pub fn report_on_tour(alloc: Global, n: u32) -> Report
    requires positive { 1 ≤ n }
    requires within { n ≤ 2000 }
    ensures toured { (count size : ℕ) (c : CertificateModel) → result ≡ Report.Toured count size c → (count ≡ n) × (size ≡ length (made_text n)) }
    ensures safe { (count size : ℕ) (c : CertificateModel) → result ≡ Report.Toured count size c → OnProgram (WithRuns IsSafe) (made_text n) (codes "main") }
    ensures certified { (count size : ℕ) (c : CertificateModel) → result ≡ Report.Toured count size c → OnProgram (IsCertified c) (made_text n) (codes "main") }
    ensures nodes { (k : ℕ) → result ≡ Report.Nodes k → (k ≡ usual_nodes) × OnProgram (HasManyVariables k) (made_text n) (codes "main") }
    ensures unprobed { (k : ℕ) → result ≡ Report.Nodes k → OnProgram LacksProbe (made_text n) (codes "main") }
    ensures only { IsTouredReport result ⊎ (IsNodesReport result ⊎ (result ≡ Report.Memory)) }
{
    made_trees();
    made_texts_are_short();
    made_programs_are_accepted();
    made_programs_are_safe();
    let Ok(source) = make(alloc, n) else {
        return Report::Memory;
    };
    let Answer { report, .. } = report_on_source(
        alloc,
        source.as_str().as_bytes(),
        "main",
        USUAL_NODES,
        USUAL_LOCATIONS,
        true,
    );
    match report {
        Report::Safe(certificate) => Report::Toured {
            count: n,
            length: source.as_str().len() as u64,
            certificate,
        },
        report => report,
    }
}
