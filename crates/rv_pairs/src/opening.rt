//! The valuations that a row claim takes: allowed ones whose control state is in its set, and whose premises are not shut at once.

ghost use Rattle.std.specs.Prelude.{◌≡◌, ◌↔◌, ◌<◌, ◌^◌, true, IfOk, IsErrOf};
ghost use Rattle.rv_diagram.specs.Nodes.{Valuation, IsRef, IsMeant, IsOrderedOver, value_of};
ghost use Rattle.rv_diagram.specs.Growing.{Extends};
ghost use Rattle.rv_rows.specs.Multipliers.{AreShutAtOnce};
ghost use Rattle.rv_proofs.specs.RowClaims.{RowClaim};
ghost use Rattle.rv_proofs.specs.Systems.{System};
ghost use Rattle.rv_walk.specs.Ends.{has};
ghost use Rattle.rv_pairs.specs.Labels.{active, AreLabels};
ghost use Rattle.rv_pairs.specs.Taking.{ArePremises, IsTakenAt};

use crate::hints::{hints_of, left_by};
use crate::indexed::LabelledRows;
use rv_base::Many;
use rv_diagram::{Frozen, Ref, Store, StoreFault};
use std::alloc::Global;

/// Where the reference is true and the control state is in the set.
fn within(store: &mut Store, allowed: Ref, reached: &Frozen) -> Result<Ref, StoreFault>
    requires allowed { IsRef store.old.nodes allowed }
    requires reached { IsOrderedOver store.old.variables reached.now }
    ensures extends { Extends store.old store.new }
    ensures roomy { IsErrOf result StoreFault.Nodes → store.old.limit < 2 ^ (2 ^ store.old.variables) }
    ensures found { IfOk result (IsRef store.new.nodes) }
    ensures exact { IfOk result (λ r. (v : Valuation) → (value_of store.new.nodes r v ≡ true)
        ↔ ((value_of store.old.nodes allowed v ≡ true) × (has reached.now v ≡ true))) }
{
    let set = store.thaw(reached)?;
    store.and(allowed, set)
}

/// Where the reference is true and the rows that count are not shut at once. Nodes comes where the store has no room for what is built, never where
/// its limit holds every function of its variables, and Memory where there is none; what was built is left, after a fault too.
pub fn open_where(
    alloc: Global,
    store: &mut Store,
    whole: Ref,
    labels: &LabelledRows,
) -> Result<Ref, StoreFault>
    requires whole { IsRef store.old.nodes whole }
    requires labels { AreLabels store.old.nodes labels.now }
    ensures extends { Extends store.old store.new }
    ensures roomy { IsErrOf result StoreFault.Nodes → store.old.limit < 2 ^ (2 ^ store.old.variables) }
    ensures found { IfOk result (IsRef store.new.nodes) }
    ensures exact { IfOk result (λ r. (v : Valuation) → (value_of store.new.nodes r v ≡ true)
        ↔ ((value_of store.old.nodes whole v ≡ true) × ¬ AreShutAtOnce (active store.old.nodes labels.now v))) }
{
    let none = Many::new(alloc);
    let shut = hints_of(alloc, store, labels, &none)?;
    left_by(store, whole, &shut, -1)
}

/// Where the reference is true, the control state is in the set and the rows that count are not shut at once. Nodes comes where the store has no room
/// for what is built, never where its limit holds every function of its variables, and Memory where there is none; what was built is left, after a
/// fault too.
pub fn open_within(
    alloc: Global,
    store: &mut Store,
    allowed: Ref,
    labels: &LabelledRows,
    reached: &Frozen,
) -> Result<Ref, StoreFault>
    requires allowed { IsRef store.old.nodes allowed }
    requires labels { AreLabels store.old.nodes labels.now }
    requires reached { IsOrderedOver store.old.variables reached.now }
    ensures extends { Extends store.old store.new }
    ensures roomy { IsErrOf result StoreFault.Nodes → store.old.limit < 2 ^ (2 ^ store.old.variables) }
    ensures found { IfOk result (IsRef store.new.nodes) }
    ensures exact { IfOk result (λ r. (v : Valuation) → (value_of store.new.nodes r v ≡ true)
        ↔ (((value_of store.old.nodes allowed v ≡ true) × (has reached.now v ≡ true)) × ¬ AreShutAtOnce (active store.old.nodes labels.now v))) }
{
    let whole = within(store, allowed, reached)?;
    open_where(alloc, store, whole, labels)
}

/// What a row claim takes: the allowed valuations whose control state is in its set and whose premises, the labelled rows, are not shut at once.
/// Nodes comes where the store has no room for what is built, never where its limit holds every function of its variables, and Memory where
/// there is none; what was built is left, after a fault too.
pub fn open_rows(
    alloc: Global,
    store: &mut Store,
    allowed: Ref,
    labels: &LabelledRows,
    reached: &Frozen,
) -> Result<Ref, StoreFault>
    requires allowed { IsRef store.old.nodes allowed }
    requires labels { AreLabels store.old.nodes labels.now }
    requires reached { IsOrderedOver store.old.variables reached.now }
    ensures extends { Extends store.old store.new }
    ensures roomy { IsErrOf result StoreFault.Nodes → store.old.limit < 2 ^ (2 ^ store.old.variables) }
    ensures taken { IfOk result (λ r. (s : System) (c : RowClaim) → IsMeant store.old.nodes s.allowed allowed
        → ((v : Valuation) → c.reached v ≡ has reached.now v) → ArePremises s store.old.nodes c labels.now → IsTakenAt s store.new.nodes c r) }
{
    open_within(alloc, store, allowed, labels, reached)
}
