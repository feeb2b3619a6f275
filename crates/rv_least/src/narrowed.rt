//! The system whose allowed valuations are those that a claim takes, and its layers.

ghost use Rattle.std.specs.Prelude.{◌≡◌, ◌<◌, ◌^◌, IfOk, IsErrOf};
ghost use Rattle.rv_diagram.specs.Nodes.{IsRef};
ghost use Rattle.rv_diagram.specs.Growing.{Extends};
ghost use Rattle.rv_proofs.specs.Systems.{System};
ghost use Rattle.rv_proofs.specs.Reached.{AreLayers};
ghost use Rattle.rv_symbolic.specs.Represented.{IsRelationOf};
ghost use Rattle.rv_boxes.specs.declared.frame.Frame.{Frame as FrameModel};
ghost use Rattle.rv_boxes.specs.declared.claim.Claim.{Claim as ClaimModel};
ghost use Rattle.rv_boxes.specs.Claiming.{claim_of};
ghost use Rattle.rv_boxes.specs.Opening.{IsFrameOf};
ghost use Rattle.rv_boxes.specs.Rounds.{IsGiven, IsKeptClaim, IsLeastClaim};
ghost use Rattle.rv_boxes.specs.Certifying.{IsBad};
ghost use Rattle.rv_boxes.specs.Layering.{IsTakenAt, IsNarrowedTo};

use crate::opened::opened_anew;
use rv_boxes::{Claim, Frame, parts_with};
use rv_cases::Questions;
use rv_diagram::{Ref, Store, StoreFault};
use rv_proofs::Layers;
use rv_symbolic::Relation;
use rv_walk::{BoxEnd, walk};
use std::alloc::Global;

/// The relation of the system whose allowed valuations are those at which the reference is true, with what was built of it.
fn relation_in(
    alloc: Global,
    store: &mut Store,
    relation: &Relation,
    taken: Ref,
) -> Result<Relation, StoreFault>
    requires relation { (s : System) × IsRelationOf s store.old relation.now }
    requires taken { IsRef store.old.nodes taken }
    ensures extends { Extends store.old store.new }
    ensures roomy { IsErrOf result StoreFault.Nodes → store.old.limit < 2 ^ (2 ^ store.old.variables) }
    ensures narrowed { (s : System) (f : FrameModel) (c : ClaimModel) → IsRelationOf s store.old relation.now → IsFrameOf s f → IsKeptClaim s f c
        → IsTakenAt s store.old (claim_of c) taken → IfOk result (IsNarrowedTo s store.new (claim_of c)) }
{
    let parts = parts_with(alloc, relation.parts(), taken)?;
    Relation::new(alloc, store, parts)
}

/// The layers of the least closed claim, which takes a valuation at which the observer is false, with what was built of them.
fn layers_in(
    alloc: Global,
    store: &mut Store,
    relation: &Relation,
    questions: &Questions,
    frame: &Frame,
    claim: &Claim,
) -> Result<Layers, StoreFault>
    requires { (s : System) × IsGiven s store.old relation.now questions.now frame.now × IsLeastClaim s frame.now claim.now
        × IsBad s (claim_of claim.now) }
    ensures extends { Extends store.old store.new }
    ensures roomy { IsErrOf result StoreFault.Nodes → store.old.limit < 2 ^ (2 ^ store.old.variables) }
    ensures layers { (s : System) → IsGiven s store.old relation.now questions.now frame.now → IsLeastClaim s frame.now claim.now
        → IfOk result (λ l. AreLayers s (claim_of claim.now) l.sets) }
{
    let opening = opened_anew(alloc, store, relation, questions, frame.columns, claim)?;
    let narrowed = relation_in(alloc, store, relation, opening.taken)?;
    match walk(alloc, store, &narrowed)? {
        BoxEnd::Bad(layers) => Ok(layers),
        BoxEnd::Good(_) => unreachable!(),
    }
}

/// The layers of the least closed claim, where it takes a valuation at which the observer is false: the first set is the initial one,
/// and each later one holds the control states that are first reached one step later in the claim. The store is left as it was.
pub fn layers(
    alloc: Global,
    store: &mut Store,
    relation: &Relation,
    questions: &Questions,
    frame: &Frame,
    claim: &Claim,
) -> Result<Layers, StoreFault>
    requires { (s : System) × IsGiven s store.old relation.now questions.now frame.now × IsLeastClaim s frame.now claim.now
        × IsBad s (claim_of claim.now) }
    ensures layers { (s : System) → IsGiven s store.old relation.now questions.now frame.now → IsLeastClaim s frame.now claim.now
        → IfOk result (λ l. AreLayers s (claim_of claim.now) l.sets) }
    ensures same { store.new ≡ store.old }
    ensures roomy { IsErrOf result StoreFault.Nodes → store.old.limit < 2 ^ (2 ^ store.old.variables) }
{
    let mark = store.mark();
    let answer = layers_in(alloc, store, relation, questions, frame, claim);
    store.release(mark);
    answer
}
