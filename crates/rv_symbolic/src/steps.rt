//! Relational products, with what was built of them in the store.

ghost use Rattle.std.specs.Prelude.{◌≡◌, ℕ, ◌<◌, ◌^◌, ◌&&◌, not, true, IfOk, IsErrOf};
ghost use Rattle.rv_diagram.specs.Nodes.{Valuation, value_of, IsRef, IsOrderedOver};
ghost use Rattle.rv_diagram.specs.Several.{Ignores, UsesNeeded, ArePartRefs, IsSchedule};
ghost use Rattle.rv_diagram.specs.Growing.{Extends};
ghost use Rattle.rv_proofs.specs.Scopes.{IsIn};
ghost use Rattle.rv_symbolic.specs.Stepped.{IsProjected};
ghost use Rattle.rv_symbolic.specs.Growing.{Makes, Finds};
ghost use Rattle.rv_symbolic.specs.Linked.{Meets, AreMet, quantified};

use rv_diagram::{Frozen, Part, Ref, Store, StoreFault};

/// True where both sets and all parts of the relation are true together for some values of the variables that the parts quantify.
pub fn product(
    store: &mut Store,
    set: &Frozen,
    condition: &Frozen,
    links: &[Part],
) -> Result<Ref, StoreFault>
    requires set { IsOrderedOver store.old.variables set.now }
    requires condition { IsOrderedOver store.old.variables condition.now }
    requires links { ArePartRefs store.old.nodes links.now }
    requires schedule { IsSchedule store.old.nodes links.now }
    ensures extends { Extends store.old store.new }
    ensures roomy { IsErrOf result StoreFault.Nodes → store.old.limit < 2 ^ (2 ^ store.old.variables) }
    ensures ok { IfOk result (λ r. Finds store.old store.new (Meets store.old.nodes set.now condition.now links.now) r) }
    ensures forgets { IfOk result (λ r. (x : ℕ) → quantified links.now x ≡ true → Ignores (value_of store.new.nodes r) x) }
{
    let one = store.thaw(set)?;
    let other = store.thaw(condition)?;
    let both = store.and(one, other)?;
    store.image(both, links)
}

/// The allowed valuations of a set.
pub fn within(store: &mut Store, allowed: Ref, from: &Frozen) -> Result<Ref, StoreFault>
    requires allowed { IsRef store.old.nodes allowed }
    requires from { IsOrderedOver store.old.variables from.now }
    ensures extends { Extends store.old store.new }
    ensures roomy { IsErrOf result StoreFault.Nodes → store.old.limit < 2 ^ (2 ^ store.old.variables) }
    ensures ok { IfOk result (λ r. Makes store.old store.new
        (λ v. value_of store.old.nodes allowed v && value_of from.now.nodes from.now.root v) r) }
{
    let set = store.thaw(from)?;
    store.and(allowed, set)
}

/// The first without the second.
pub fn without(store: &mut Store, a: Ref, b: Ref) -> Result<Ref, StoreFault>
    requires a { IsRef store.old.nodes a }
    requires b { IsRef store.old.nodes b }
    ensures extends { Extends store.old store.new }
    ensures roomy { IsErrOf result StoreFault.Nodes → store.old.limit < 2 ^ (2 ^ store.old.variables) }
    ensures ok { IfOk result (λ r. Makes store.old store.new (λ v. value_of store.old.nodes a v && not (value_of store.old.nodes b v)) r) }
{
    let nothing = store.constant(false);
    store.ite(b, nothing, a)
}

/// The allowed valuations of a set, and of these the valuations at which the observer is false.
#[derive(Debug, Drop)]
pub struct AllowedSet {
    /// The allowed valuations.
    pub all: Ref,
    /// Those at which the observer is false.
    pub bad: Ref,
}

/// The allowed valuations of a set, and of these the valuations at which the observer is false.
pub fn allowed_within(
    store: &mut Store,
    allowed: Ref,
    observer: Ref,
    from: &Frozen,
) -> Result<AllowedSet, StoreFault>
    requires allowed { IsRef store.old.nodes allowed }
    requires observer { IsRef store.old.nodes observer }
    requires from { IsOrderedOver store.old.variables from.now }
    ensures extends { Extends store.old store.new }
    ensures roomy { IsErrOf result StoreFault.Nodes → store.old.limit < 2 ^ (2 ^ store.old.variables) }
    ensures all { IfOk result (λ w. Makes store.old store.new
        (λ v. value_of store.old.nodes allowed v && value_of from.now.nodes from.now.root v) w.all) }
    ensures bad { IfOk result (λ w. Makes store.old store.new (λ v. (value_of store.old.nodes allowed v
        && value_of from.now.nodes from.now.root v) && not (value_of store.old.nodes observer v)) w.bad) }
{
    let all = within(store, allowed, from)?;
    let bad = without(store, all, observer)?;
    Ok(AllowedSet { all, bad })
}

/// The same by itself.
pub fn projected(
    store: &mut Store,
    set: &Frozen,
    condition: &Frozen,
    links: &[Part],
) -> Result<Frozen, StoreFault>
    requires set { IsOrderedOver store.old.variables set.now }
    requires condition { IsOrderedOver store.old.variables condition.now }
    requires links { ArePartRefs store.old.nodes links.now }
    requires schedule { IsSchedule store.old.nodes links.now }
    ensures extends { Extends store.old store.new }
    ensures roomy { IsErrOf result StoreFault.Nodes → store.old.limit < 2 ^ (2 ^ store.old.variables) }
    ensures ok { IfOk result (IsProjected store.old.variables (quantified links.now)
        (λ w. IsIn set.now w × IsIn condition.now w × AreMet store.old.nodes links.now w)) }
{
    let r = product(store, set, condition, links)?;
    Ok(store.freeze(r)?)
}

/// A copy of a diagram, each node of which is needed. The store is left as it was.
pub fn copied(store: &mut Store, whole: &Frozen) -> Result<Frozen, StoreFault>
    requires { IsOrderedOver store.old.variables whole.now }
    ensures ordered { IfOk result (λ f. IsOrderedOver store.old.variables f) }
    ensures means { IfOk result (λ f. (v : Valuation) → value_of f.nodes f.root v ≡ value_of whole.now.nodes whole.now.root v) }
    ensures needed { IfOk result (λ f. UsesNeeded f.nodes (value_of whole.now.nodes whole.now.root)) }
    ensures same { store.new ≡ store.old }
    ensures roomy { IsErrOf result StoreFault.Nodes → store.old.limit < 2 ^ (2 ^ store.old.variables) }
{
    let mark = store.mark();
    let r = store.thaw(whole)?;
    let frozen = store.freeze(r);
    store.release(mark);
    Ok(frozen?)
}
