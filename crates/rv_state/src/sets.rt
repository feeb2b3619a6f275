// Sets of control states in a store, which is left as it was.
ghost use Rattle.std.specs.Prelude.{◌≡◌, ◌↔◌, ◌<◌, ◌^◌, IsTrue, IfOk, IsErrOf};
ghost use Rattle.rv_diagram.specs.Nodes.{Valuation, IsOrderedOver};
ghost use Rattle.rv_diagram.specs.Room.{Lacks};
ghost use Rattle.rv_diagram.specs.Growing.{Extends};
ghost use Rattle.rv_proofs.specs.Scopes.{IsIn};
ghost use Rattle.rv_state.specs.States.{IsUnion};

use rv_diagram::{Frozen, Store, StoreFault};

/// Whether the first set is within the second, with what was built of it.
fn is_within_in(store: &mut Store, a: &Frozen, b: &Frozen) -> Result<bool, StoreFault>
    requires a { IsOrderedOver store.old.variables a.now }
    requires b { IsOrderedOver store.old.variables b.now }
    ensures extends { Extends store.old store.new }
    ensures roomy { IsErrOf result StoreFault.Nodes → store.old.limit < 2 ^ (2 ^ store.old.variables) }
    ensures room { IsErrOf result StoreFault.Nodes → Lacks 1 store.old }
    ensures exact { IfOk result (λ yes. IsTrue yes ↔ ((v : Valuation) → IsIn a.now v → IsIn b.now v)) }
{
    let one = store.thaw(a)?;
    let other = store.thaw(b)?;
    let yes = store.implies(one, other)?;
    Ok(yes)
}

/// Whether the first set is within the second. The store is left as it was. Nodes never comes where it has room for one step.
pub fn is_within(store: &mut Store, a: &Frozen, b: &Frozen) -> Result<bool, StoreFault>
    requires a { IsOrderedOver store.old.variables a.now }
    requires b { IsOrderedOver store.old.variables b.now }
    ensures exact { IfOk result (λ yes. IsTrue yes ↔ ((v : Valuation) → IsIn a.now v → IsIn b.now v)) }
    ensures same { store.new ≡ store.old }
    ensures roomy { IsErrOf result StoreFault.Nodes → store.old.limit < 2 ^ (2 ^ store.old.variables) }
    ensures room { IsErrOf result StoreFault.Nodes → Lacks 1 store.old }
{
    let mark = store.mark();
    let answer = is_within_in(store, a, b);
    store.release(mark);
    answer
}

/// Both sets together, with what was built of them.
fn union_in(store: &mut Store, a: &Frozen, b: &Frozen) -> Result<Frozen, StoreFault>
    requires a { IsOrderedOver store.old.variables a.now }
    requires b { IsOrderedOver store.old.variables b.now }
    ensures extends { Extends store.old store.new }
    ensures roomy { IsErrOf result StoreFault.Nodes → store.old.limit < 2 ^ (2 ^ store.old.variables) }
    ensures room { IsErrOf result StoreFault.Nodes → Lacks 1 store.old }
    ensures exact { IfOk result (IsUnion store.old.variables a.now b.now) }
{
    let one = store.thaw(a)?;
    let other = store.thaw(b)?;
    let both = store.or(one, other)?;
    Ok(store.freeze(both)?)
}

/// Both sets together: a set of control states where both are. The store is left as it was. Nodes never comes where it has room for one
/// step.
pub fn union_of(store: &mut Store, a: &Frozen, b: &Frozen) -> Result<Frozen, StoreFault>
    requires a { IsOrderedOver store.old.variables a.now }
    requires b { IsOrderedOver store.old.variables b.now }
    ensures exact { IfOk result (IsUnion store.old.variables a.now b.now) }
    ensures same { store.new ≡ store.old }
    ensures roomy { IsErrOf result StoreFault.Nodes → store.old.limit < 2 ^ (2 ^ store.old.variables) }
    ensures room { IsErrOf result StoreFault.Nodes → Lacks 1 store.old }
{
    let nodes = store.mark();
    let answer = union_in(store, a, b);
    store.release(nodes);
    answer
}
