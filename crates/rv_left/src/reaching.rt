//! The control states that are reached from the initial ones where only control is looked at. The store is left as it was.

ghost use Rattle.std.specs.Prelude.{◌≡◌, ◌<◌, ◌^◌, false, length, IfOk, IsErrOf, IsTrue};
ghost use Rattle.rv_diagram.specs.Nodes.{Valuation};
ghost use Rattle.rv_proofs.specs.Systems.{System};
ghost use Rattle.rv_symbolic.specs.Represented.{parts_of, IsRelationOf};
ghost use Rattle.rv_walk.specs.Ends.{has};
ghost use Rattle.rv_walk.specs.Walks.{missing};
ghost use Rattle.rv_left.specs.Fronts.{IsFront, IsReaching, IsClosedSet};

use rv_base::Memory;
use rv_diagram::{Frozen, Store, StoreFault};
use rv_symbolic::Relation;
use rv_walk::{Extended, extend};

/// The initial control states, all of them new.
fn begin(store: &Store, relation: &Relation) -> Result<Extended, Memory>
    requires { (s : System) × IsRelationOf s store.now relation.now }
    ensures { (s : System) → IsRelationOf s store.now relation.now → IfOk result (λ e. IsFront s e.fresh e.all) }
{
    let fresh = relation.initial(store)?;
    let all = relation.initial(store)?;
    Ok(Extended { fresh, all })
}

/// One step more from what is new. False where nothing new is reached.
fn advance(store: &mut Store, relation: &Relation, front: &mut Extended) -> Result<bool, StoreFault>
    requires { (s : System) × IsRelationOf s store.old relation.now × IsFront s front.old.fresh front.old.all }
    ensures ok { (s : System) → IsRelationOf s store.old relation.now → IsFront s front.old.fresh front.old.all
        → IfOk result (λ more. IsReaching s more front.new.fresh front.new.all) }
    ensures less { IfOk result (λ more. IsTrue more → (v : Valuation)
        → missing (length (parts_of relation.now).next) (has front.new.all) v < missing (length (parts_of relation.now).next) (has front.old.all) v) }
    ensures still { IfOk result (λ more. more ≡ false → has front.new.all ≡ has front.old.all) }
    ensures same { store.new ≡ store.old }
    ensures roomy { IsErrOf result StoreFault.Nodes → store.old.limit < 2 ^ (2 ^ store.old.variables) }
{
    let next = relation.next_states(store, &front.fresh)?;
    let found = extend(store, &front.all, &next.set)?;
    let Some(more) = found else {
        return Ok(false);
    };
    *front = more;
    Ok(true)
}

/// A set of control states that holds the initial ones and, with the control state of each allowed valuation, the next one. Nothing is in it
/// that is not reached so: it grows from the initial ones by next control states alone. Nodes comes where the store has no room for what is built
/// on the way, never where its limit holds every function of its variables, and Memory where there is none.
pub fn reached(store: &mut Store, relation: &Relation) -> Result<Frozen, StoreFault>
    requires { (s : System) × IsRelationOf s store.old relation.now }
    ensures closed { (s : System) → IsRelationOf s store.old relation.now → IfOk result (IsClosedSet s) }
    ensures same { store.new ≡ store.old }
    ensures roomy { IsErrOf result StoreFault.Nodes → store.old.limit < 2 ^ (2 ^ store.old.variables) }
{
    let mut front = begin(store, relation)?;
    let mut more = true;
    while more {
        more = advance(store, relation, &mut front)?;
    }
    let Extended { fresh: _fresh, all } = front;
    Ok(all)
}
