//! A whole flat system read into references.

ghost use Rattle.std.specs.Prelude.{◌≡◌, ◌<◌, ◌≤◌, ◌^◌, ◌&&◌, length, map, List, IfOk, IsErrOf};
ghost use Rattle.rv_types.specs.Lists.{Input};
ghost use Rattle.rv_diagram.specs.declared.Triple.{Triple as TripleModel};
ghost use Rattle.rv_diagram.specs.Nodes.{IsRef, value_of};
ghost use Rattle.rv_agreement.specs.Trees.{kind_at};
ghost use Rattle.rv_control.specs.Control.{is_initial, memories_named as are_memories, inputs_named as are_inputs};
ghost use Rattle.rv_control.specs.Named.{named};
ghost use Rattle.rv_flat.specs.FlatInstants.{system_of};
ghost use Rattle.rv_flat.specs.Lists.{variable_of};
ghost use Rattle.rv_flat.specs.Steps.{label_counts, memory_kinds, input_kinds};
ghost use Rattle.rv_symbolic.specs.Growing.{Makes};
ghost use Rattle.rv_bits.specs.Shown.{AreAfter, AreTables};
ghost use Rattle.rv_bits.specs.Tables.{AreAllBits, memory_bit};
ghost use Rattle.rv_bits.specs.Whole.{AreTablesRead, IsRestRead, IsSystemRead};
ghost use Rattle.rv_agreement.specs.Agreement.{IsWell};

use crate::around::{Around, FlowRefs, Tables};
use crate::assertions::read_assertions;
use crate::bits::ref_of;
use crate::coded::{inputs_named, memories_named, none_ticked};
use crate::flows::{read_afters, read_flows};
use crate::following::read_next;
use crate::tables::{input_refs, memory_refs, tick_refs};
use rv_base::{Many, Memory};
use rv_diagram::{Ref, Store, StoreFault};
use rv_flat::Flat;
use rv_symbolic::Parts;
use std::alloc::Global;

/// For each memory, that what it holds after an instant has not been read.
pub fn none_shown(alloc: Global, flat: &Flat) -> Result<Many<Option<Many<Ref>>>, Memory>
    ensures { IfOk result (λ shown. (nodes : List TripleModel) → AreAfter flat.now nodes shown) }
{
    let mut shown = Many::new(alloc);
    for _ in 0..flat.memories.len() {
        shown.push(None)?;
    }
    Ok(shown)
}

/// The references of what an instant finds.
pub fn read_tables(alloc: Global, store: &mut Store, flat: &Flat) -> Result<Tables, StoreFault>
    requires { length flat.now.variables ≤ store.old.variables }
    ensures ok { IfOk result (AreTablesRead flat.now store.old store.new) }
    ensures roomy { IsErrOf result StoreFault.Nodes → store.old.limit < 2 ^ (2 ^ store.old.variables) }
{
    let ticks = tick_refs(alloc, store, flat.variables.as_slice())?;
    let kept = memory_refs(alloc, store, flat)?;
    let given = input_refs(alloc, store, flat)?;
    Ok(Tables { ticks, kept, given })
}

/// Whether the control state is initial: no clock has been there, and the code of each memory names a label.
pub fn read_initial(store: &mut Store, flat: &Flat, tables: &Tables) -> Result<Ref, StoreFault>
    requires tables { AreTables flat.now store.old.nodes tables.now }
    requires size { length tables.now.ticks ≡ length (system_of flat.now).ticks }
    requires kept { AreAllBits (label_counts flat.now) (map variable_of flat.now.variables) (memory_bit flat.now) (kind_at (memory_kinds flat.now))
        store.old.nodes (length flat.now.memories) tables.now.kept }
    ensures ok { IfOk result (Makes store.old store.new (λ v. is_initial (system_of flat.now) (named flat.now v))) }
    ensures roomy { IsErrOf result StoreFault.Nodes → store.old.limit < 2 ^ (2 ^ store.old.variables) }
{
    let named = memories_named(store, flat, &tables.kept)?;
    let unticked = none_ticked(store, flat, tables)?;
    store.and(unticked, named)
}

/// Whether every code names a label, and a reference is true.
pub fn read_coded(
    store: &mut Store,
    flat: &Flat,
    tables: &Tables,
    met: Ref,
) -> Result<Ref, StoreFault>
    requires kept { AreAllBits (label_counts flat.now) (map variable_of flat.now.variables) (memory_bit flat.now) (kind_at (memory_kinds flat.now))
        store.old.nodes (length flat.now.memories) tables.now.kept }
    requires given { AreAllBits (label_counts flat.now) (map variable_of flat.now.variables) Input (kind_at (input_kinds flat.now)) store.old.nodes
        (length flat.now.inputs) tables.now.given }
    requires met { IsRef store.old.nodes met }
    ensures ok { IfOk result (Makes store.old store.new (λ v. (are_memories (label_counts flat.now) (named flat.now v) (system_of flat.now).memories
        && are_inputs (label_counts flat.now) (named flat.now v) 0 (system_of flat.now).inputs) && value_of store.old.nodes met v)) }
    ensures roomy { IsErrOf result StoreFault.Nodes → store.old.limit < 2 ^ (2 ^ store.old.variables) }
{
    let memories = memories_named(store, flat, &tables.kept)?;
    let inputs = inputs_named(store, flat, &tables.given)?;
    let coded = store.and(memories, inputs)?;
    store.and(coded, met)
}

/// What is read after the tables: where all assertions are true or absent, where the observer is true, what each state bit is
/// after the instant, the flows, and what the memories hold after it.
#[derive(Debug, Drop)]
pub struct Rest {
    pub met: Ref,
    pub observer: Ref,
    pub next: Many<Ref>,
    pub read: FlowRefs,
    pub shown: Many<Option<Many<Ref>>>,
}

/// A whole flat system in references: what its system of valuations is, and by number what ticks, memories, inputs and flows are
/// and what the memories hold after the instant.
#[derive(Debug, Drop)]
pub struct ReadSystem {
    pub parts: Parts,
    pub tables: Tables,
    pub read: FlowRefs,
    pub shown: Many<Option<Many<Ref>>>,
}

/// The references of the assertions, of the observer and of the next state bits. Each flow, each body of a memory and each
/// assertion is read once.
fn read_rest(
    alloc: Global,
    store: &mut Store,
    flat: &Flat,
    tables: &Tables,
) -> Result<Rest, StoreFault>
    requires well { IsWell (system_of flat.now) }
    requires variables { length flat.now.variables ≤ store.old.variables }
    requires tables { AreTables flat.now store.old.nodes tables.now }
    ensures ok { IfOk result (IsRestRead flat.now store.old store.new) }
    ensures roomy { IsErrOf result StoreFault.Nodes → store.old.limit < 2 ^ (2 ^ store.old.variables) }
{
    let mut shown = none_shown(alloc, flat)?;
    let read = read_flows(alloc, store, flat, tables, &mut shown)?;
    let around = Around {
        flat,
        tables,
        read: &read,
    };
    let met = read_assertions(alloc, store, &around, &mut shown)?;
    let after = read_afters(alloc, store, &around, &mut shown)?;
    let next = read_next(alloc, store, &around, &after)?;
    let observer = ref_of(read.on.as_slice(), flat.observer as usize);
    Ok(Rest {
        met,
        observer,
        next,
        read,
        shown,
    })
}

/// The references of a whole flat system. Each flow, each body of a memory and each assertion is read once. After a fault nodes
/// may be left.
pub fn read_system(alloc: Global, store: &mut Store, flat: &Flat) -> Result<ReadSystem, StoreFault>
    requires well { IsWell (system_of flat.now) }
    requires variables { length flat.now.variables ≤ store.old.variables }
    ensures ok { IfOk result (IsSystemRead flat.now store.old store.new) }
    ensures roomy { IsErrOf result StoreFault.Nodes → store.old.limit < 2 ^ (2 ^ store.old.variables) }
{
    let tables = read_tables(alloc, store, flat)?;
    let Rest {
        met,
        observer,
        next,
        read,
        shown,
    } = read_rest(alloc, store, flat, &tables)?;
    let initial = read_initial(store, flat, &tables)?;
    let allowed = read_coded(store, flat, &tables, met)?;
    let parts = Parts {
        allowed,
        observer,
        initial,
        next,
    };
    Ok(ReadSystem {
        parts,
        tables,
        read,
        shown,
    })
}
