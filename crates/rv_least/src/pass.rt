//! The box pass.

ghost use Rattle.std.specs.Prelude.{◌≡◌, ◌↔◌, ◌<◌, ◌≤◌, ◌^◌, All, length, IfOk, IsErrOf, Ok};
ghost use Rattle.std.specs.Int.RustNames.{unsigned_abs};
ghost use Rattle.rv_proofs.specs.Systems.{System};
ghost use Rattle.rv_proofs.specs.Accepted.{IsAccepted};
ghost use Rattle.rv_proofs.specs.Boxes.{BoxClaim, IsGood, HasGoodBox};
ghost use Rattle.rv_proofs.specs.Reached.{IsLeastClosed, AreLayers};
ghost use Rattle.rv_proofs.specs.declared.certificate.Certificate.{Certificate as CertificateModel};
ghost use Rattle.rv_proofs.specs.declared.report.Layers.{Layers as LayersModel};
ghost use Rattle.rv_walk.specs.Ends.{IsGoodEnd};
ghost use Rattle.rv_walk.specs.Plain.{ArePlain};
ghost use Rattle.rv_boxes.specs.Claiming.{claim_of};
ghost use Rattle.rv_boxes.specs.Rounds.{IsGiven, IsLeastClaim};
ghost use Rattle.rv_boxes.specs.Passing.{IsPassOf, IsProof, IsEndOf};
ghost use Rattle.rv_least.specs.Rounds.{IsLeastOf};

use crate::narrowed::layers;
use crate::rounds::{Closed, closed_claim};
use crate::searching::few_entries;
use rv_boxes::{Claim, Frame, certificate_of, frame_of};
use rv_cases::Questions;
use rv_diagram::{Store, StoreFault};
use rv_proofs::Certificate;
use rv_symbolic::Relation;
use rv_walk::BoxEnd;
use std::alloc::Global;

/// The certificate of the least closed claim, which is good, over the cases of its control states.
fn over_cases(
    alloc: Global,
    store: &mut Store,
    relation: &Relation,
    questions: &Questions,
    frame: &Frame,
    claim: &Claim,
) -> Result<Certificate, StoreFault>
    requires { (s : System) × IsGiven s store.old relation.now questions.now frame.now × IsLeastClaim s frame.now claim.now
        × IsGood s (claim_of claim.now) }
    ensures proof { (s : System) → IsGiven s store.old relation.now questions.now frame.now → IsLeastClaim s frame.now claim.now
        → IfOk result (λ c. IsProof s c) }
    ensures same { store.new ≡ store.old }
    ensures roomy { IsErrOf result StoreFault.Nodes → store.old.limit < 2 ^ (2 ^ store.old.variables) }
{
    match certificate_of(alloc, store, relation, questions, frame, claim)? {
        Some(certificate) => Ok(certificate),
        None => unreachable!(),
    }
}

/// The certificate of the least closed claim, which is good: one with few entries, or else one over cases.
fn good_end(
    alloc: Global,
    store: &mut Store,
    relation: &Relation,
    questions: &Questions,
    frame: &Frame,
    claim: &Claim,
) -> Result<Certificate, StoreFault>
    requires { (s : System) × IsGiven s store.old relation.now questions.now frame.now × IsLeastClaim s frame.now claim.now
        × IsGood s (claim_of claim.now) }
    ensures proof { (s : System) → IsGiven s store.old relation.now questions.now frame.now → IsLeastClaim s frame.now claim.now
        → IfOk result (λ c. IsProof s c) }
    ensures same { store.new ≡ store.old }
    ensures roomy { IsErrOf result StoreFault.Nodes → store.old.limit < 2 ^ (2 ^ store.old.variables) }
{
    match few_entries(alloc, store, relation, questions, frame, claim)? {
        Some(certificate) => Ok(certificate),
        None => over_cases(alloc, store, relation, questions, frame, claim),
    }
}

/// How the pass ends at the least closed claim.
fn end_of(
    alloc: Global,
    store: &mut Store,
    relation: &Relation,
    questions: &Questions,
    frame: &Frame,
    closed: &Closed,
) -> Result<BoxEnd, StoreFault>
    requires { (s : System) × IsGiven s store.old relation.now questions.now frame.now × IsLeastOf s frame.now closed.now }
    ensures ends { (s : System) → IsGiven s store.old relation.now questions.now frame.now → IsLeastOf s frame.now closed.now
        → IfOk result (IsEndOf s frame.now.thresholds) }
    ensures same { store.new ≡ store.old }
    ensures roomy { IsErrOf result StoreFault.Nodes → store.old.limit < 2 ^ (2 ^ store.old.variables) }
{
    let claim = &closed.claim;
    if closed.good {
        let certificate = good_end(alloc, store, relation, questions, frame, claim)?;
        return Ok(BoxEnd::Good(certificate));
    }
    let layers = layers(alloc, store, relation, questions, frame, claim)?;
    Ok(BoxEnd::Bad(layers))
}

/// The pass within a frame.
fn pass_in(
    alloc: Global,
    store: &mut Store,
    relation: &Relation,
    questions: &Questions,
    frame: &Frame,
) -> Result<BoxEnd, StoreFault>
    requires { (s : System) × IsGiven s store.old relation.now questions.now frame.now }
    ensures ends { (s : System) → IsGiven s store.old relation.now questions.now frame.now → IfOk result (IsEndOf s frame.now.thresholds) }
    ensures same { store.new ≡ store.old }
    ensures roomy { IsErrOf result StoreFault.Nodes → store.old.limit < 2 ^ (2 ^ store.old.variables) }
{
    let closed = closed_claim(alloc, store, relation, questions, frame)?;
    end_of(alloc, store, relation, questions, frame, &closed)
}

/// The box pass: the least closed box claim of a system, upward from the initial control states and the closest thresholds. A bound
/// rises only to the least threshold that holds a value that it must, and disappears past the last one. `relation` and `questions` are
/// those of the system in the store, `columns` says how many integer memories and inputs it has. Good comes exactly where a closed good
/// claim exists, and its certificate is accepted and has no loop: one location for the initial control states, one for the others, with
/// the bounds as rows. Bad has the layers of the least closed claim. The store is left as it was, after a fault too. Nodes comes where the store has no
/// room for what is built on the way, never where its limit holds every function of its variables, and Memory where there is none.
pub fn box_pass(
    alloc: Global,
    store: &mut Store,
    relation: &Relation,
    questions: &Questions,
    thresholds: &[i128],
    columns: usize,
) -> Result<BoxEnd, StoreFault>
    requires system { (s : System) × IsPassOf s store.old relation.now questions.now columns }
    requires thresholds { All (λ t. unsigned_abs t ≤ 2 ^ 41) thresholds.now }
    ensures good { (s : System) (c : CertificateModel) → IsPassOf s store.old relation.now questions.now columns → result ≡ Ok (BoxEnd.Good c)
        → IsAccepted s c }
    ensures plain { (s : System) (c : CertificateModel) → IsPassOf s store.old relation.now questions.now columns → result ≡ Ok (BoxEnd.Good c)
        → ArePlain c }
    ensures exactly { (s : System) → IsPassOf s store.old relation.now questions.now columns
        → IfOk result (λ e. IsGoodEnd e ↔ HasGoodBox s thresholds.now) }
    ensures bad { (s : System) (l : LayersModel) → IsPassOf s store.old relation.now questions.now columns → result ≡ Ok (BoxEnd.Bad l)
        → (c : BoxClaim) × IsLeastClosed s thresholds.now c × AreLayers s c l.sets }
    ensures same { store.new ≡ store.old }
    ensures roomy { IsErrOf result StoreFault.Nodes → store.old.limit < 2 ^ (2 ^ store.old.variables) }
{
    let frame = frame_of(alloc, questions, thresholds, columns)?;
    pass_in(alloc, store, relation, questions, &frame)
}
