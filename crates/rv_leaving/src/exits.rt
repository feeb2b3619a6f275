//! The control states outside of a set to which valuations lead.

ghost use Rattle.std.specs.Prelude.{◌≡◌, ◌<◌, ◌^◌, IfOk, IsErrOf};
ghost use Rattle.rv_diagram.specs.Nodes.{IsRef};
ghost use Rattle.rv_diagram.specs.Growing.{Extends};
ghost use Rattle.rv_proofs.specs.Systems.{System};
ghost use Rattle.rv_proofs.specs.Ranges.{IsControlSet};
ghost use Rattle.rv_symbolic.specs.Represented.{IsRelationOf};
ghost use Rattle.rv_leaving.specs.Exits.{AreTakenFrom, IsApart, AreOutside, AreLeft};

use crate::inside::led;
use rv_base::Many;
use rv_diagram::{Frozen, Ref, Store, StoreFault};
use rv_proofs::Case;
use rv_symbolic::Relation;
use std::alloc::Global;

/// Where one reference is true and the other is not, with what was built of it.
fn apart(store: &mut Store, taken: Ref, inside: Ref) -> Result<Frozen, StoreFault>
    requires taken { IsRef store.old.nodes taken }
    requires inside { IsRef store.old.nodes inside }
    ensures extends { Extends store.old store.new }
    ensures roomy { IsErrOf result StoreFault.Nodes → store.old.limit < 2 ^ (2 ^ store.old.variables) }
    ensures apart { IfOk result (IsApart store.old taken inside) }
{
    let outside = store.not(inside)?;
    let both = store.and(taken, outside)?;
    Ok(store.freeze(both)?)
}

/// Where the reference is true and the next control state is outside of the set, with what was built of it.
fn outside_in(
    alloc: Global,
    store: &mut Store,
    relation: &Relation,
    from: &Frozen,
    taken: Ref,
) -> Result<Frozen, StoreFault>
    requires { (s : System) × IsRelationOf s store.old relation.now × IsControlSet s from.now × AreTakenFrom s store.old.nodes from.now taken }
    ensures extends { Extends store.old store.new }
    ensures roomy { IsErrOf result StoreFault.Nodes → store.old.limit < 2 ^ (2 ^ store.old.variables) }
    ensures outside { (s : System) → IsRelationOf s store.old relation.now → IsControlSet s from.now → AreTakenFrom s store.old.nodes from.now taken
        → IfOk result (AreOutside s store.old.nodes from.now taken) }
{
    let parts = relation.parts();
    let inside = led(alloc, store, parts.next.as_slice(), from)?;
    apart(store, taken, inside)
}

/// Where the reference is true and the next control state is outside of the set. The store is left as it was.
fn outside(
    alloc: Global,
    store: &mut Store,
    relation: &Relation,
    from: &Frozen,
    taken: Ref,
) -> Result<Frozen, StoreFault>
    requires { (s : System) × IsRelationOf s store.old relation.now × IsControlSet s from.now × AreTakenFrom s store.old.nodes from.now taken }
    ensures outside { (s : System) → IsRelationOf s store.old relation.now → IsControlSet s from.now → AreTakenFrom s store.old.nodes from.now taken
        → IfOk result (AreOutside s store.old.nodes from.now taken) }
    ensures same { store.new ≡ store.old }
    ensures roomy { IsErrOf result StoreFault.Nodes → store.old.limit < 2 ^ (2 ^ store.old.variables) }
{
    let mark = store.mark();
    let answer = outside_in(alloc, store, relation, from, taken);
    store.release(mark);
    answer
}

/// Next control states of the valuations at which the reference is true, among them each one that is outside of the set. These valuations are
/// allowed, their control states are in the set, and next copies do not count. The store is left as it was, after a fault too. Nodes comes where the
/// store has no room for what is built on the way, never where its limit holds every function of its variables, and Memory where there is none.
pub fn leaving(
    alloc: Global,
    store: &mut Store,
    relation: &Relation,
    from: &Frozen,
    taken: Ref,
) -> Result<Frozen, StoreFault>
    requires { (s : System) × IsRelationOf s store.old relation.now × IsControlSet s from.now × AreTakenFrom s store.old.nodes from.now taken }
    ensures left { (s : System) → IsRelationOf s store.old relation.now → IsControlSet s from.now → AreTakenFrom s store.old.nodes from.now taken
        → IfOk result (AreLeft s store.old.nodes from.now taken) }
    ensures same { store.new ≡ store.old }
    ensures roomy { IsErrOf result StoreFault.Nodes → store.old.limit < 2 ^ (2 ^ store.old.variables) }
{
    let condition = outside(alloc, store, relation, from, taken)?;
    let away = Case {
        condition,
        tests: Many::new(alloc),
        rows: Many::new(alloc),
        updates: Many::new(alloc),
        observer: true,
    };
    relation.image(store, from, &away)
}
