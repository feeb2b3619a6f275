//! How an analysis ends.

ghost use Rattle.std.specs.Prelude.{◌≡◌, ℕ, Bool, []};
ghost use Rattle.rv_proofs.specs.Systems.{System};
ghost use Rattle.rv_proofs.specs.Accepted.{IsAccepted};
ghost use Rattle.rv_proofs.specs.Left.{IsLeftReport};
ghost use Rattle.rv_walk.specs.Plain.{ArePlain};
ghost use Rattle.rv_reading.specs.Analysing.{IsAnalysisOf};

use rv_proofs::{Certificate, LeftReport};

/// How an analysis ends.
#[derive(Debug, Drop)]
pub enum Analysis {
    /// The system is safe: an accepted certificate of it, without loops where none are asked for.
    Proved(Certificate),
    /// Nothing more was found: a left partition, and why no location of it was split further.
    Left(LeftReport),
}

/// How the analysis ends with a report: as a proof where no location is left.
pub fn ended(report: LeftReport) -> Analysis
    ensures { (s : System) (limit : ℕ) (accelerate : Bool) → (report.left ≡ [] → IsAccepted s report.partition)
        → (¬ (report.left ≡ []) → IsLeftReport s limit report) → ArePlain report.partition → IsAnalysisOf s limit accelerate result }
{
    if report.left.is_empty() {
        let LeftReport { partition, .. } = report;
        return Analysis::Proved(partition);
    }
    Analysis::Left(report)
}
