//! Whether a certificate has the ranges of a document and is accepted.

ghost use Rattle.std.specs.Prelude.{◌≡◌, ◌*◌, ◌<◌, ◌^◌, IfOk, IfSome, IsErrOf};
ghost use Rattle.rv_proofs.specs.Systems.{System};
ghost use Rattle.rv_proofs.specs.Accepted.{IsAccepted};
ghost use Rattle.rv_ranges.specs.Documents.{AreBoundsOf, IsDocument};
ghost use Rattle.rv_rise.specs.Rounds.{IsGiven};

use rv_accept::accept;
use rv_cases::Questions;
use rv_diagram::{Store, StoreFault};
use rv_proofs::{Certificate, Verdict};
use rv_ranges::{Bounds, is_document};
use rv_symbolic::Relation;
use std::alloc::Global;

/// How much there is of what a certificate speaks of.
fn bounds_of(store: &Store, relation: &Relation, questions: &Questions) -> Bounds
    requires { (s : System) × IsGiven s store.now relation.now questions.now }
    ensures { (s : System) → IsGiven s store.now relation.now questions.now → AreBoundsOf s result }
{
    Bounds {
        states: relation.parts().next.len() as u32,
        variables: store.variables(),
        memories: questions.forms.len(),
        tests: questions.rows.len() as u32,
    }
}

/// The certificate, or none where it has not the ranges of a document or is not accepted for the system whose relation and questions are in the
/// store. The store is left as it was, after a fault too. Nodes comes where the store has no room for what is built on the way, never where its
/// limit holds every function of its variables, and Memory where there is none.
pub fn judged(
    alloc: Global,
    store: &mut Store,
    relation: &Relation,
    questions: &Questions,
    certificate: Certificate,
) -> Result<Option<Certificate>, StoreFault>
    requires given { (s : System) × IsGiven s store.old relation.now questions.now }
    ensures accepted { (s : System) → IsGiven s store.old relation.now questions.now → IfOk result (λ o. IfSome o (IsAccepted s)) }
    ensures document { (s : System) → IsGiven s store.old relation.now questions.now → IfOk result (λ o. IfSome o (IsDocument s)) }
    ensures itself { IfOk result (λ o. IfSome o (λ c. c ≡ certificate)) }
    ensures same { store.new ≡ store.old }
    ensures roomy { IsErrOf result StoreFault.Nodes → store.old.limit < 2 ^ (2 ^ store.old.variables) }
{
    let bounds = bounds_of(store, relation, questions);
    if !is_document(&certificate, &bounds) {
        return Ok(None);
    }
    match accept(alloc, store, relation.parts(), questions, &certificate)? {
        Verdict::Accepted => Ok(Some(certificate)),
        Verdict::Rejected(_) => Ok(None),
    }
}
