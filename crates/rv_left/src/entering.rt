//! The entries of a part: one step into each part that its allowed valuations lead into.

ghost use Rattle.std.specs.Prelude.{◌≡◌, ◌+◌, ◌<◌, ◌≤◌, ◌^◌, List, length, IfOk, IsErrOf};
ghost use Rattle.rv_diagram.specs.Nodes.{Valuation, value_of, IsRef};
ghost use Rattle.rv_diagram.specs.Growing.{Extends};
ghost use Rattle.rv_diagram.specs.declared.frozen.Frozen.{Frozen as FrozenModel};
ghost use Rattle.rv_proofs.specs.Systems.{System};
ghost use Rattle.rv_proofs.specs.Ranges.{IsControlSet};
ghost use Rattle.rv_symbolic.specs.Linked.{AreRefs};
ghost use Rattle.rv_symbolic.specs.Represented.{IsRelationOf};
ghost use Rattle.rv_walk.specs.Ends.{has};
ghost use Rattle.rv_left.specs.Targets.{IsSource, IsSourceOf, AreTargets};
ghost use Rattle.rv_left.specs.Entries.{AreThawnSets, AreEntriesInto};

use crate::conditions::{condition, replacements};
use crate::meeting::meets;
use rv_base::Many;
use rv_diagram::{Frozen, Ref, Store, StoreFault};
use rv_proofs::{Entry, EntryKind};
use rv_symbolic::Relation;
use std::alloc::Global;

/// A part in a store: the next control states of its allowed valuations, these valuations, and what each variable becomes at them.
#[derive(Drop)]
pub struct Source {
    image: Ref,
    within: Ref,
    by: Vec<Ref>,
}

/// Adds the entry into a part, where some valuation leads into it.
fn add_target(
    alloc: Global,
    store: &mut Store,
    source: &Source,
    refs: &[Ref],
    j: usize,
    entries: &mut Many<Entry>,
) -> Result<(), StoreFault>
    requires source { IsSource store.old source.now }
    requires refs { AreRefs store.old.nodes refs.now }
    requires there { j < length refs.now }
    requires few { j < 4294967296 }
    ensures added { AreTargets store.old source.now refs.now j entries.old
        → IfOk result (λ u. AreTargets store.old source.now refs.now (j + 1) entries.new) }
    ensures same { store.new ≡ store.old }
    ensures roomy { IsErrOf result StoreFault.Nodes → store.old.limit < 2 ^ (2 ^ store.old.variables) }
{
    let target = refs[j];
    let met = meets(store, source.image, target)?;
    if !met {
        return Ok(());
    }
    let condition = condition(store, source.within, target, source.by.as_slice())?;
    entries.push(Entry {
        condition,
        kind: EntryKind::Go {
            target: j as u32,
            reach: Many::new(alloc),
        },
    })?;
    Ok(())
}

/// The entries into all parts that some valuation leads into.
fn targets(
    alloc: Global,
    store: &mut Store,
    source: &Source,
    refs: &[Ref],
) -> Result<Many<Entry>, StoreFault>
    requires source { IsSource store.old source.now }
    requires refs { AreRefs store.old.nodes refs.now }
    requires few { length refs.now ≤ 4096 }
    ensures added { IfOk result (AreTargets store.old source.now refs.now (length refs.now)) }
    ensures same { store.new ≡ store.old }
    ensures roomy { IsErrOf result StoreFault.Nodes → store.old.limit < 2 ^ (2 ^ store.old.variables) }
{
    let mut entries = Many::new(alloc);
    for j in 0..refs.len() {
        add_target(alloc, store, source, refs, j, &mut entries)?;
    }
    Ok(entries)
}

/// A part in the store, with what was built of it.
fn source_of(
    alloc: Global,
    store: &mut Store,
    relation: &Relation,
    part: &Frozen,
    whole: Ref,
) -> Result<Source, StoreFault>
    requires { (s : System) × IsRelationOf s store.old relation.now × IsControlSet s part.now × IsRef store.old.nodes whole
        × ((v : Valuation) → value_of store.old.nodes whole v ≡ has part.now v) }
    ensures extends { Extends store.old store.new }
    ensures roomy { IsErrOf result StoreFault.Nodes → store.old.limit < 2 ^ (2 ^ store.old.variables) }
    ensures source { (s : System) → IsRelationOf s store.old relation.now → IsControlSet s part.now → IfOk result (IsSourceOf s store.new part.now) }
{
    let next = relation.next_states(store, part)?;
    let image = store.thaw(&next.set)?;
    let parts = relation.parts();
    let within = store.and(parts.allowed, whole)?;
    let by = replacements(alloc, store, parts.next.as_slice(), within)?;
    Ok(Source { image, within, by })
}

/// The entries of a part, with what was built of them.
fn entries_in(
    alloc: Global,
    store: &mut Store,
    relation: &Relation,
    part: &Frozen,
    whole: Ref,
    refs: &[Ref],
) -> Result<Many<Entry>, StoreFault>
    requires part { (s : System) × IsRelationOf s store.old relation.now × IsControlSet s part.now × IsRef store.old.nodes whole
        × ((v : Valuation) → value_of store.old.nodes whole v ≡ has part.now v) }
    requires refs { AreRefs store.old.nodes refs.now }
    requires few { length refs.now ≤ 4096 }
    ensures extends { Extends store.old store.new }
    ensures roomy { IsErrOf result StoreFault.Nodes → store.old.limit < 2 ^ (2 ^ store.old.variables) }
    ensures entries { (s : System) (sets : List FrozenModel) → IsRelationOf s store.old relation.now → IsControlSet s part.now
        → AreThawnSets s store.old sets refs.now → IfOk result (AreEntriesInto s part.now sets) }
{
    let source = source_of(alloc, store, relation, part, whole)?;
    targets(alloc, store, &source, refs)
}

/// The entries of a part: for each of some sets that its allowed valuations lead into, a step under the condition that they do. The part and the sets are
/// in the store too, which is left as it was.
pub fn entries_of(
    alloc: Global,
    store: &mut Store,
    relation: &Relation,
    part: &Frozen,
    whole: Ref,
    refs: &[Ref],
) -> Result<Many<Entry>, StoreFault>
    requires part { (s : System) × IsRelationOf s store.old relation.now × IsControlSet s part.now × IsRef store.old.nodes whole
        × ((v : Valuation) → value_of store.old.nodes whole v ≡ has part.now v) }
    requires refs { AreRefs store.old.nodes refs.now }
    requires few { length refs.now ≤ 4096 }
    ensures entries { (s : System) (sets : List FrozenModel) → IsRelationOf s store.old relation.now → IsControlSet s part.now
        → AreThawnSets s store.old sets refs.now → IfOk result (AreEntriesInto s part.now sets) }
    ensures same { store.new ≡ store.old }
    ensures roomy { IsErrOf result StoreFault.Nodes → store.old.limit < 2 ^ (2 ^ store.old.variables) }
{
    let mark = store.mark();
    let answer = entries_in(alloc, store, relation, part, whole, refs);
    store.release(mark);
    answer
}
