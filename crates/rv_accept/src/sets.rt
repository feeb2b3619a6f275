//! Sets of valuations in a store that may grow.

ghost use Rattle.std.specs.Prelude.{◌≡◌, ℕ, ◌<◌, ◌^◌, ◌&&◌, ◌||◌, not, false, [], Some, IfOk, IsErrOf, slice_get};
ghost use Rattle.rv_diagram.specs.Nodes.{Valuation, value_of, IsRef, IsOrderedOver};
ghost use Rattle.rv_diagram.specs.Growing.{Extends};
ghost use Rattle.rv_accept.specs.Steps.{IsTrueOf, has};
ghost use Rattle.rv_proofs.specs.Scopes.{IsIn};
ghost use Rattle.rv_proofs.specs.declared.certificate.Location.{Location};
ghost use Rattle.rv_proofs.specs.declared.certificate.Entry.{Entry};

use rv_base::Many;
use rv_diagram::{Frozen, Ref, Store, StoreFault};
use rv_proofs::{Entry, Location};

/// The valuations of a reference that are in a set too.
pub fn both(store: &mut Store, a: Ref, set: &Frozen) -> Result<Ref, StoreFault>
    requires a { IsRef store.old.nodes a }
    requires set { IsOrderedOver store.old.variables set.now }
    ensures extends { Extends store.old store.new }
    ensures roomy { IsErrOf result StoreFault.Nodes → store.old.limit < 2 ^ (2 ^ store.old.variables) }
    ensures found { IfOk result (λ r. IsRef store.new.nodes r) }
    ensures means { IfOk result (λ r. (v : Valuation) → value_of store.new.nodes r v ≡ (value_of store.old.nodes a v && has set.now v)) }
{
    let one = store.thaw(set)?;
    store.and(a, one)
}

/// The valuations of a reference or of a set.
pub fn either(store: &mut Store, a: Ref, set: &Frozen) -> Result<Ref, StoreFault>
    requires a { IsRef store.old.nodes a }
    requires set { IsOrderedOver store.old.variables set.now }
    ensures extends { Extends store.old store.new }
    ensures roomy { IsErrOf result StoreFault.Nodes → store.old.limit < 2 ^ (2 ^ store.old.variables) }
    ensures found { IfOk result (λ r. IsRef store.new.nodes r) }
    ensures means { IfOk result (λ r. (v : Valuation) → value_of store.new.nodes r v ≡ (value_of store.old.nodes a v || has set.now v)) }
{
    let one = store.thaw(set)?;
    store.or(a, one)
}

/// The valuations of the first reference that are not in the second.
pub fn without(store: &mut Store, a: Ref, b: Ref) -> Result<Ref, StoreFault>
    requires a { IsRef store.old.nodes a }
    requires b { IsRef store.old.nodes b }
    ensures extends { Extends store.old store.new }
    ensures roomy { IsErrOf result StoreFault.Nodes → store.old.limit < 2 ^ (2 ^ store.old.variables) }
    ensures found { IfOk result (λ r. IsRef store.new.nodes r) }
    ensures means { IfOk result (λ r. (v : Valuation) → value_of store.new.nodes r v ≡ (value_of store.old.nodes a v && not (value_of store.old.nodes b v))) }
{
    // No diagram of the whole complement: where the first has little, little of the second is looked at.
    let none = store.constant(false);
    store.ite(b, none, a)
}

/// The valuations that meet the condition of some entry.
pub fn conditions(store: &mut Store, entries: &Many<Entry>) -> Result<Ref, StoreFault>
    requires entries { (j : ℕ) (e : Entry) → slice_get entries.now j ≡ Some e → IsOrderedOver store.old.variables e.condition }
    ensures extends { Extends store.old store.new }
    ensures roomy { IsErrOf result StoreFault.Nodes → store.old.limit < 2 ^ (2 ^ store.old.variables) }
    ensures ok { IfOk result (λ r. IsTrueOf store.new (λ v. (j : ℕ) × (e : Entry) × (slice_get entries.now j ≡ Some e) × IsIn e.condition v) r) }
{
    let mut whole = store.constant(false);
    for j in 0..entries.len() {
        whole = either(store, whole, &entries.at(j).condition)?;
    }
    Ok(whole)
}

/// Adds the control set of a location whose `entry` is empty.
fn add_entry(store: &mut Store, whole: Ref, location: &Location) -> Result<Ref, StoreFault>
    requires whole { IsRef store.old.nodes whole }
    requires control { IsOrderedOver store.old.variables location.now.control }
    ensures extends { Extends store.old store.new }
    ensures roomy { IsErrOf result StoreFault.Nodes → store.old.limit < 2 ^ (2 ^ store.old.variables) }
    ensures found { IfOk result (λ r. IsRef store.new.nodes r) }
    ensures empty { IfOk result (λ r. location.now.entry ≡ [] → (v : Valuation)
        → value_of store.new.nodes r v ≡ (value_of store.old.nodes whole v || has location.now.control v)) }
    ensures other { IfOk result (λ r. ¬ (location.now.entry ≡ []) → (v : Valuation) → value_of store.new.nodes r v ≡ value_of store.old.nodes whole v) }
{
    if location.entry.is_empty() {
        either(store, whole, &location.control)
    } else {
        Ok(whole)
    }
}

/// The control states of the locations whose `entry` is empty.
pub fn entered(store: &mut Store, locations: &Many<Location>) -> Result<Ref, StoreFault>
    requires locations { (k : ℕ) (l : Location) → slice_get locations.now k ≡ Some l → IsOrderedOver store.old.variables l.control }
    ensures extends { Extends store.old store.new }
    ensures roomy { IsErrOf result StoreFault.Nodes → store.old.limit < 2 ^ (2 ^ store.old.variables) }
    ensures ok { IfOk result (λ r. IsTrueOf store.new (λ v. (k : ℕ) × (l : Location) × (slice_get locations.now k ≡ Some l) × (l.entry ≡ [])
        × IsIn l.control v) r) }
{
    let mut whole = store.constant(false);
    for k in 0..locations.len() {
        whole = add_entry(store, whole, locations.at(k))?;
    }
    Ok(whole)
}
