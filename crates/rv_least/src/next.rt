//! One step from all valuations that a claim takes.

ghost use Rattle.std.specs.Prelude.{◌≡◌, ◌<◌, ◌^◌, true, false, MatchBool, IfOk, IsErrOf};
ghost use Rattle.rv_diagram.specs.Nodes.{Valuation, IsRef, value_of};
ghost use Rattle.rv_diagram.specs.Growing.{Extends};
ghost use Rattle.rv_proofs.specs.Systems.{System};
ghost use Rattle.rv_symbolic.specs.Represented.{IsRelationOf};
ghost use Rattle.rv_boxes.specs.declared.frame.Frame.{Frame as FrameModel};
ghost use Rattle.rv_boxes.specs.Claiming.{claim_of};
ghost use Rattle.rv_boxes.specs.Opening.{IsFrameOf};
ghost use Rattle.rv_boxes.specs.Rounds.{IsKeptClaim};
ghost use Rattle.rv_boxes.specs.Layering.{IsTakenAt};
ghost use Rattle.rv_least.specs.Rounds.{IsGoodAt, AreNextOf};

use rv_base::Memory;
use rv_boxes::Claim;
use rv_diagram::{Ref, Store, StoreFault};
use rv_leaving::leaving;
use rv_symbolic::{NextStates, Relation};
use std::alloc::Global;

/// Whether some valuation makes it true.
fn is_met(store: &Store, a: Ref) -> Result<bool, Memory>
    requires { IsRef store.now.nodes a }
    ensures { IfOk result (λ met. MatchBool met ((v : Valuation) × (value_of store.now.nodes a v ≡ true))
        ((v : Valuation) → value_of store.now.nodes a v ≡ false)) }
{
    match store.pick(a)? {
        Some(_) => Ok(true),
        None => Ok(false),
    }
}

/// Whether the observer is true at each valuation at which the first reference is, with what was built of it.
fn is_good(store: &mut Store, taken: Ref, observer: Ref) -> Result<bool, StoreFault>
    requires taken { IsRef store.old.nodes taken }
    requires observer { IsRef store.old.nodes observer }
    ensures extends { Extends store.old store.new }
    ensures roomy { IsErrOf result StoreFault.Nodes → store.old.limit < 2 ^ (2 ^ store.old.variables) }
    ensures good { IfOk result (IsGoodAt store.old.nodes taken observer) }
{
    let unseen = store.not(observer)?;
    let bad = store.and(taken, unseen)?;
    let met = is_met(store, bad)?;
    Ok(!met)
}

/// The control states outside of a claim to which valuations lead that it takes, which are those at which the reference is true, and whether the
/// observer is true at each of these, with what was built of it.
pub fn next_of(
    alloc: Global,
    store: &mut Store,
    relation: &Relation,
    taken: Ref,
    claim: &Claim,
) -> Result<NextStates, StoreFault>
    requires { (s : System) × (f : FrameModel) × IsRelationOf s store.old relation.now × IsFrameOf s f × IsKeptClaim s f claim.now
        × IsTakenAt s store.old (claim_of claim.now) taken }
    ensures extends { Extends store.old store.new }
    ensures roomy { IsErrOf result StoreFault.Nodes → store.old.limit < 2 ^ (2 ^ store.old.variables) }
    ensures next { (s : System) (f : FrameModel) → IsRelationOf s store.old relation.now → IsFrameOf s f → IsKeptClaim s f claim.now
        → IsTakenAt s store.old (claim_of claim.now) taken → IfOk result (AreNextOf s (claim_of claim.now)) }
{
    let set = leaving(alloc, store, relation, &claim.reached, taken)?;
    let observer = relation.parts().observer;
    let good = is_good(store, taken, observer)?;
    Ok(NextStates { set, good })
}
