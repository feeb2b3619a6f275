//! The certificate of a partition, a part at a time. The store is left as it was.

ghost use Rattle.std.specs.Prelude.{◌≡◌, ℕ, ◌+◌, ◌<◌, ◌≤◌, ◌^◌, List, length, IfOk, IsErrOf};
ghost use Rattle.rv_diagram.specs.Nodes.{Valuation, value_of, IsRef, IsOrderedOver};
ghost use Rattle.rv_diagram.specs.Several.{ref_at};
ghost use Rattle.rv_diagram.specs.Growing.{Extends};
ghost use Rattle.rv_diagram.specs.declared.frozen.Frozen.{Frozen as FrozenModel};
ghost use Rattle.rv_proofs.specs.Systems.{System};
ghost use Rattle.rv_proofs.specs.Ranges.{IsControlSet};
ghost use Rattle.rv_symbolic.specs.Linked.{AreRefs};
ghost use Rattle.rv_symbolic.specs.Represented.{IsRelationOf};
ghost use Rattle.rv_split.specs.Partitions.{part_at};
ghost use Rattle.rv_walk.specs.Ends.{has};
ghost use Rattle.rv_left.specs.Entries.{AreControlSets, AreThawn, AreThawnSets, IsLocationOf, AreLocations};

use crate::entering::entries_of;
use rv_base::Many;
use rv_diagram::{Frozen, Ref, Store, StoreFault};
use rv_proofs::{Certificate, Location};
use rv_symbolic::Relation;
use std::alloc::Global;

/// All sets in the store.
fn thaw_all(alloc: Global, store: &mut Store, sets: &[Frozen]) -> Result<Vec<Ref>, StoreFault>
    requires { (k : ℕ) → k < length sets.now → IsOrderedOver store.old.variables (part_at sets.now k) }
    ensures extends { Extends store.old store.new }
    ensures roomy { IsErrOf result StoreFault.Nodes → store.old.limit < 2 ^ (2 ^ store.old.variables) }
    ensures thawn { IfOk result (λ refs. AreThawn store.new sets.now (length sets.now) refs.items) }
{
    let mut refs = Vec::new(alloc);
    for k in 0..sets.len() {
        let whole = store.thaw(&sets[k])?;
        refs.push(whole)?;
    }
    Ok(refs)
}

/// The location of a part, which is in the store too.
fn location(
    alloc: Global,
    store: &mut Store,
    relation: &Relation,
    part: &Frozen,
    whole: Ref,
    refs: &[Ref],
) -> Result<Location, StoreFault>
    requires part { (s : System) × IsRelationOf s store.old relation.now × IsControlSet s part.now × IsRef store.old.nodes whole
        × ((v : Valuation) → value_of store.old.nodes whole v ≡ has part.now v) }
    requires refs { AreRefs store.old.nodes refs.now }
    requires few { length refs.now ≤ 4096 }
    ensures located { (s : System) (sets : List FrozenModel) → IsRelationOf s store.old relation.now → IsControlSet s part.now
        → AreThawnSets s store.old sets refs.now → IfOk result (IsLocationOf s part.now sets) }
    ensures same { store.new ≡ store.old }
    ensures roomy { IsErrOf result StoreFault.Nodes → store.old.limit < 2 ^ (2 ^ store.old.variables) }
{
    let entries = entries_of(alloc, store, relation, part, whole, refs)?;
    let control = store.freeze(whole)?;
    Ok(Location {
        control,
        entry: Many::new(alloc),
        first: Many::new(alloc),
        around: Many::new(alloc),
        state: Many::new(alloc),
        by_entry: Many::new(alloc),
        by_first: Many::new(alloc),
        entries,
    })
}

/// The locations of all parts, which are in the store too.
fn locations(
    alloc: Global,
    store: &mut Store,
    relation: &Relation,
    sets: &[Frozen],
    refs: &[Ref],
) -> Result<Many<Location>, StoreFault>
    requires given { (s : System) × IsRelationOf s store.old relation.now × AreThawnSets s store.old sets.now refs.now }
    requires few { length sets.now ≤ 4096 }
    ensures located { (s : System) → IsRelationOf s store.old relation.now → AreThawnSets s store.old sets.now refs.now
        → IfOk result (AreLocations s sets.now (length sets.now)) }
    ensures same { store.new ≡ store.old }
    ensures roomy { IsErrOf result StoreFault.Nodes → store.old.limit < 2 ^ (2 ^ store.old.variables) }
{
    let mut locations = Many::new(alloc);
    for k in 0..sets.len() {
        let here = location(alloc, store, relation, &sets[k], refs[k], refs)?;
        locations.push(here)?;
    }
    Ok(locations)
}

/// The certificate, with all parts in the store.
fn certificate_in(
    alloc: Global,
    store: &mut Store,
    relation: &Relation,
    sets: &[Frozen],
) -> Result<Certificate, StoreFault>
    requires given { (s : System) × IsRelationOf s store.old relation.now × AreControlSets s sets.now }
    requires few { length sets.now ≤ 4096 }
    ensures extends { Extends store.old store.new }
    ensures roomy { IsErrOf result StoreFault.Nodes → store.old.limit < 2 ^ (2 ^ store.old.variables) }
    ensures located { (s : System) → IsRelationOf s store.old relation.now → AreControlSets s sets.now
        → IfOk result (λ c. AreLocations s sets.now (length sets.now) c.locations) }
{
    let refs = thaw_all(alloc, store, sets)?;
    let locations = locations(alloc, store, relation, sets, refs.as_slice())?;
    Ok(Certificate { locations })
}

/// The certificate that has a location for each part, without rows: for each part that its allowed valuations lead into, a step under the condition that
/// they do. Nodes comes where the store has no room for what is built on the way, never where its limit holds every function of its variables, and
/// Memory where there is none.
pub fn certificate(
    alloc: Global,
    store: &mut Store,
    relation: &Relation,
    sets: &[Frozen],
) -> Result<Certificate, StoreFault>
    requires given { (s : System) × IsRelationOf s store.old relation.now × AreControlSets s sets.now }
    requires few { length sets.now ≤ 4096 }
    ensures located { (s : System) → IsRelationOf s store.old relation.now → AreControlSets s sets.now
        → IfOk result (λ c. AreLocations s sets.now (length sets.now) c.locations) }
    ensures same { store.new ≡ store.old }
    ensures roomy { IsErrOf result StoreFault.Nodes → store.old.limit < 2 ^ (2 ^ store.old.variables) }
{
    let mark = store.mark();
    let answer = certificate_in(alloc, store, relation, sets);
    store.release(mark);
    answer
}
