//! References in a store that may grow.

ghost use Rattle.std.specs.Prelude.{◌<◌, ◌^◌, IfOk, IsErrOf};
ghost use Rattle.rv_diagram.specs.Nodes.{IsRef, IsOrderedOver};
ghost use Rattle.rv_diagram.specs.Growing.{Extends};
ghost use Rattle.rv_cases.specs.Conditions.{AreRefs};

use rv_diagram::{Frozen, Ref, Store, StoreFault};

/// The conjunction.
pub fn both(store: &mut Store, a: Ref, b: Ref) -> Result<Ref, StoreFault>
    requires a { IsRef store.old.nodes a }
    requires b { IsRef store.old.nodes b }
    ensures extends { Extends store.old store.new }
    ensures roomy { IsErrOf result StoreFault.Nodes → store.old.limit < 2 ^ (2 ^ store.old.variables) }
    ensures found { IfOk result (λ r. IsRef store.new.nodes r) }
{
    store.and(a, b)
}

/// The disjunction.
pub fn either(store: &mut Store, a: Ref, b: Ref) -> Result<Ref, StoreFault>
    requires a { IsRef store.old.nodes a }
    requires b { IsRef store.old.nodes b }
    ensures extends { Extends store.old store.new }
    ensures roomy { IsErrOf result StoreFault.Nodes → store.old.limit < 2 ^ (2 ^ store.old.variables) }
    ensures found { IfOk result (λ r. IsRef store.new.nodes r) }
{
    store.or(a, b)
}

/// The valuations of the first reference that are not in the second. Nodes comes where the store has no room for what is built on the way, never
/// where its limit holds every function of its variables, and Memory where there is none.
pub fn without(store: &mut Store, a: Ref, b: Ref) -> Result<Ref, StoreFault>
    requires a { IsRef store.old.nodes a }
    requires b { IsRef store.old.nodes b }
    ensures extends { Extends store.old store.new }
    ensures roomy { IsErrOf result StoreFault.Nodes → store.old.limit < 2 ^ (2 ^ store.old.variables) }
    ensures found { IfOk result (λ r. IsRef store.new.nodes r) }
{
    let none = store.constant(false);
    store.ite(b, none, a)
}

/// The valuations of a reference that are in a set too.
pub fn within(store: &mut Store, a: Ref, set: &Frozen) -> Result<Ref, StoreFault>
    requires a { IsRef store.old.nodes a }
    requires set { IsOrderedOver store.old.variables set.now }
    ensures extends { Extends store.old store.new }
    ensures roomy { IsErrOf result StoreFault.Nodes → store.old.limit < 2 ^ (2 ^ store.old.variables) }
    ensures found { IfOk result (λ r. IsRef store.new.nodes r) }
{
    let one = store.thaw(set)?;
    store.and(a, one)
}

/// The conjunction of a list, true where it is empty. Nodes comes where the store has no room for what is built on the way, never where its limit
/// holds every function of its variables, and Memory where there is none.
pub fn all_of(store: &mut Store, list: &[Ref]) -> Result<Ref, StoreFault>
    requires { AreRefs store.old.nodes list.now }
    ensures extends { Extends store.old store.new }
    ensures roomy { IsErrOf result StoreFault.Nodes → store.old.limit < 2 ^ (2 ^ store.old.variables) }
    ensures found { IfOk result (λ r. IsRef store.new.nodes r) }
{
    let mut all = store.constant(true);
    for place in 0..list.len() {
        all = both(store, all, list[place])?;
    }
    Ok(all)
}
