//! The walk through the layers of control states.

ghost use Rattle.std.specs.Prelude.{◌≡◌, ◌↔◌, ◌&&◌, ◌<◌, ◌^◌, ℤ, List, Ok, false, length, IfOk, IsErrOf, IsTrue};
ghost use Rattle.rv_diagram.specs.Nodes.{Valuation, value_of, IsRef};
ghost use Rattle.rv_diagram.specs.Growing.{Extends};
ghost use Rattle.rv_proofs.specs.Systems.{System};
ghost use Rattle.rv_proofs.specs.Ranges.{IsControlSet};
ghost use Rattle.rv_proofs.specs.Runs.{IsSafeSystem};
ghost use Rattle.rv_proofs.specs.Boxes.{HasGoodBox};
ghost use Rattle.rv_proofs.specs.Reached.{HasNoIntegers};
ghost use Rattle.rv_proofs.specs.declared.certificate.Certificate.{Certificate};
ghost use Rattle.rv_proofs.specs.declared.report.Layers.{Layers};
ghost use Rattle.rv_symbolic.specs.Represented.{parts_of, IsRelationOf};
ghost use Rattle.rv_symbolic.specs.Stepped.{AreNextStates};
ghost use Rattle.rv_walk.specs.Ends.{IsGoodCertificate, AreBadLayers, IsEnd, IsGoodEnd};
ghost use Rattle.rv_walk.specs.Plain.{ArePlain, IsPlainEnd};
ghost use Rattle.rv_walk.specs.Walks.{missing, IsWalk, IsDone, IsWalking, IsExplored};

use crate::certify::certify;
use crate::end::BoxEnd;
use crate::sets::{Grown, MOST_KEPT, grow, keep};
use rv_base::Many;
use rv_diagram::{Frozen, Ref, Store, StoreFault};
use rv_proofs::{Layers, certificates_are_safe, control_claims};
use rv_symbolic::{NextStates, Relation};
use std::alloc::Global;

/// How many nodes a round may build so that the next one leaves in the store what it builds. Most of a round that builds few is found
/// again; one that builds many would make all tables larger.
const FEW_MADE: u32 = 128;

/// The layers so far, their union in the store, and whether the observer was true.
#[derive(Debug, Drop)]
struct Progress {
    sets: Many<Frozen>,
    reached: Ref,
    good: bool,
}

/// All layers, and their union by itself.
#[derive(Debug, Drop)]
struct Explored {
    sets: Many<Frozen>,
    reached: Frozen,
    good: bool,
}

/// Whether both are true.
fn both(a: bool, b: bool) -> bool
    ensures { result ≡ (a && b) }
{
    a && b
}

/// One step from a layer. What was built of it stays in the store where it is to.
fn step_from(
    store: &mut Store,
    relation: &Relation,
    layer: &Frozen,
    stays: bool,
) -> Result<NextStates, StoreFault>
    requires { (s : System) × IsRelationOf s store.old relation.now × IsControlSet s layer.now }
    ensures exact { (s : System) → IsRelationOf s store.old relation.now → IsControlSet s layer.now → IfOk result (AreNextStates s layer.now) }
    ensures extends { Extends store.old store.new }
    ensures roomy { IsErrOf result StoreFault.Nodes → store.old.limit < 2 ^ (2 ^ store.old.variables) }
{
    if stays {
        return relation.step(store, layer);
    }
    relation.next_states(store, layer)
}

/// A layer more. False where none is left.
fn advance(
    store: &mut Store,
    relation: &Relation,
    walk: &mut Progress,
    stays: bool,
) -> Result<bool, StoreFault>
    requires { (s : System) × IsRelationOf s store.old relation.now × IsRef store.old.nodes walk.old.reached
        × IsWalk s walk.old.sets (value_of store.old.nodes walk.old.reached) walk.old.good }
    ensures ok { (s : System) → IsRelationOf s store.old relation.now → IsWalk s walk.old.sets (value_of store.old.nodes walk.old.reached) walk.old.good
        → IfOk result (λ more. IsWalking s more walk.new.sets (value_of store.new.nodes walk.new.reached) walk.new.good) }
    ensures found { IfOk result (λ more. IsRef store.new.nodes walk.new.reached) }
    ensures less { IfOk result (λ more. IsTrue more → (v : Valuation)
        → missing (length (parts_of relation.now).next) (value_of store.new.nodes walk.new.reached) v
        < missing (length (parts_of relation.now).next) (value_of store.old.nodes walk.old.reached) v) }
    ensures still { IfOk result (λ more. more ≡ false → value_of store.new.nodes walk.new.reached ≡ value_of store.old.nodes walk.old.reached) }
    ensures extends { Extends store.old store.new }
    ensures roomy { IsErrOf result StoreFault.Nodes → store.old.limit < 2 ^ (2 ^ store.old.variables) }
{
    let last = walk.sets.len() - 1;
    let step = step_from(store, relation, walk.sets.at(last), stays)?;
    let good = both(walk.good, step.good);
    let grown = grow(store, walk.reached, &step.set)?;
    let Some(grown) = grown else {
        walk.good = good;
        return Ok(false);
    };
    let Grown { fresh, all } = grown;
    walk.sets.push(fresh)?;
    walk.reached = all;
    walk.good = good;
    Ok(true)
}

/// The layers from the first on. The store grows: what was built on the way is released each time that it is much.
fn rounds(store: &mut Store, relation: &Relation, begun: Progress) -> Result<Progress, StoreFault>
    requires { (s : System) × IsRelationOf s store.old relation.now × IsRef store.old.nodes begun.reached
        × IsWalk s begun.sets (value_of store.old.nodes begun.reached) begun.good }
    ensures ok { (s : System) → IsRelationOf s store.old relation.now → IsWalk s begun.sets (value_of store.old.nodes begun.reached) begun.good
        → IfOk result (λ w. IsDone s w.sets (value_of store.new.nodes w.reached) w.good) }
    ensures found { IfOk result (λ w. IsRef store.new.nodes w.reached) }
    ensures extends { Extends store.old store.new }
    ensures roomy { IsErrOf result StoreFault.Nodes → store.old.limit < 2 ^ (2 ^ store.old.variables) }
{
    let first = store.mark();
    let mut walk = begun;
    let mut most = first.saturating_add(MOST_KEPT);
    let mut few = true;
    let mut more = true;
    while more {
        let before = store.mark();
        more = advance(store, relation, &mut walk, few)?;
        few = store.mark().saturating_sub(before) <= FEW_MADE;
        let kept = keep(store, first, walk.reached, most)?;
        walk.reached = kept.set;
        most = kept.most;
    }
    Ok(walk)
}

/// All layers, with what was built of them.
fn explore_in(alloc: Global, store: &mut Store, relation: &Relation) -> Result<Explored, StoreFault>
    requires { (s : System) × IsRelationOf s store.old relation.now }
    ensures ok { (s : System) → IsRelationOf s store.old relation.now → IfOk result (λ w. IsExplored s w.sets w.reached w.good) }
    ensures extends { Extends store.old store.new }
    ensures roomy { IsErrOf result StoreFault.Nodes → store.old.limit < 2 ^ (2 ^ store.old.variables) }
{
    let first = relation.initial(store)?;
    let reached = store.thaw(&first)?;
    let mut sets = Many::new(alloc);
    sets.push(first)?;
    let begun = Progress {
        sets,
        reached,
        good: true,
    };
    let walk = rounds(store, relation, begun)?;
    let Progress {
        sets,
        reached,
        good,
    } = walk;
    let whole = store.freeze(reached)?;
    Ok(Explored {
        sets,
        reached: whole,
        good,
    })
}

/// All layers.
fn explore(alloc: Global, store: &mut Store, relation: &Relation) -> Result<Explored, StoreFault>
    requires { (s : System) × IsRelationOf s store.old relation.now }
    ensures ok { (s : System) → IsRelationOf s store.old relation.now → IfOk result (λ w. IsExplored s w.sets w.reached w.good) }
    ensures same { store.new ≡ store.old }
    ensures roomy { IsErrOf result StoreFault.Nodes → store.old.limit < 2 ^ (2 ^ store.old.variables) }
{
    let mark = store.mark();
    let answer = explore_in(alloc, store, relation);
    store.release(mark);
    answer
}

/// How the walk ends.
fn end_of(alloc: Global, store: &mut Store, relation: &Relation) -> Result<BoxEnd, StoreFault>
    requires { (s : System) × IsRelationOf s store.old relation.now × HasNoIntegers s }
    ensures ends { (s : System) → IsRelationOf s store.old relation.now → HasNoIntegers s → IfOk result (IsEnd s) }
    ensures plain { IfOk result IsPlainEnd }
    ensures same { store.new ≡ store.old }
    ensures roomy { IsErrOf result StoreFault.Nodes → store.old.limit < 2 ^ (2 ^ store.old.variables) }
{
    control_claims();
    let walk = explore(alloc, store, relation)?;
    let Explored {
        sets,
        reached,
        good,
    } = walk;
    if !good {
        return Ok(BoxEnd::Bad(Layers { sets }));
    }
    let cases = relation.cases(alloc, store, &reached)?;
    Ok(BoxEnd::Good(certify(alloc, reached, cases)?))
}

/// The control states that a system without integers reaches, layer by layer, each from what is new in the one before.
/// Good has a certificate whose one location holds them, without a loop, and comes exactly where a closed good box claim exists,
/// which is exactly where the observer is true along each run. Bad has the layers.
pub fn walk(alloc: Global, store: &mut Store, relation: &Relation) -> Result<BoxEnd, StoreFault>
    requires { (s : System) × IsRelationOf s store.old relation.now × HasNoIntegers s }
    ensures good { (s : System) (c : Certificate) → IsRelationOf s store.old relation.now → HasNoIntegers s → result ≡ Ok (BoxEnd.Good c)
        → IsGoodCertificate s c }
    ensures plain { (c : Certificate) → result ≡ Ok (BoxEnd.Good c) → ArePlain c }
    ensures bad { (s : System) (l : Layers) → IsRelationOf s store.old relation.now → HasNoIntegers s → result ≡ Ok (BoxEnd.Bad l) → AreBadLayers s l }
    ensures exactly { (s : System) (thresholds : List ℤ) → IsRelationOf s store.old relation.now → HasNoIntegers s
        → IfOk result (λ e. IsGoodEnd e ↔ HasGoodBox s thresholds) }
    ensures decides { (s : System) → IsRelationOf s store.old relation.now → HasNoIntegers s → IfOk result (λ e. IsGoodEnd e ↔ IsSafeSystem s) }
    ensures same { store.new ≡ store.old }
    ensures roomy { IsErrOf result StoreFault.Nodes → store.old.limit < 2 ^ (2 ^ store.old.variables) }
{
    control_claims();
    certificates_are_safe();
    end_of(alloc, store, relation)
}
