//! The references of what an instant finds: of the ticks, and of the bits of the memories and inputs.

ghost use Rattle.std.specs.Prelude.{◌<◌, ◌≤◌, ◌^◌, ◌++◌, length, map, IfOk, OnOk, IsErrOf, List, Option};
ghost use Rattle.rv_tree.specs.Places.{Sites};
ghost use Rattle.rv_types.specs.Lists.{Input};
ghost use Rattle.rv_diagram.specs.Nodes.{Diagrams};
ghost use Rattle.rv_agreement.specs.Trees.{kind_at};
ghost use Rattle.rv_flat.specs.Lists.{variable_of};
ghost use Rattle.rv_flat.specs.Steps.{label_counts, memory_kinds, input_kinds};
ghost use Rattle.rv_flat.specs.Systems.{tick_flows_of};
ghost use Rattle.rv_bits.specs.Tables.{AreBitLists, AreTickRefs, memory_bit, ticks_in};

use crate::names::{Named, Owner, bits_of_kind, owned_bits, truth};
use rv_base::Many;
use rv_diagram::{Ref, Store, StoreFault};
use rv_flat::{Bit, Flat};
use std::alloc::Global;

/// Adds the reference of the tick that a variable is.
fn push_tick(
    store: &mut Store,
    variables: &[Bit],
    variable: &Bit,
    refs: &mut Many<Ref>,
) -> Result<(), StoreFault>
    requires few { length variables.now ≤ 4096 }
    requires variables { length variables.now ≤ store.old.variables }
    ensures ok { OnOk result ((first : Diagrams) (ticks : List (Option Sites)) → AreTickRefs (map variable_of variables.now) first store.old ticks refs.old
        → AreTickRefs (map variable_of variables.now) first store.new (ticks ++ ticks_in variable.now) refs.new) }
    ensures roomy { IsErrOf result StoreFault.Nodes → store.old.limit < 2 ^ (2 ^ store.old.variables) }
{
    if let Bit::Tick(place) = variable {
        let found = truth(store, variables, &Named::Tick(place))?;
        refs.push(found)?;
    }
    Ok(())
}

/// The references of the ticks, the main one first.
pub fn tick_refs(
    alloc: Global,
    store: &mut Store,
    variables: &[Bit],
) -> Result<Many<Ref>, StoreFault>
    requires few { length variables.now ≤ 4096 }
    requires variables { length variables.now ≤ store.old.variables }
    ensures ok { IfOk result (AreTickRefs (map variable_of variables.now) store.old store.new (tick_flows_of variables.now)) }
    ensures roomy { IsErrOf result StoreFault.Nodes → store.old.limit < 2 ^ (2 ^ store.old.variables) }
{
    let mut refs = Many::new(alloc);
    refs.push(truth(store, variables, &Named::MainTick)?)?;
    for variable in variables {
        push_tick(store, variables, variable, &mut refs)?;
    }
    Ok(refs)
}

/// The references of the bits of each memory.
pub fn memory_refs(
    alloc: Global,
    store: &mut Store,
    flat: &Flat,
) -> Result<Many<Many<Ref>>, StoreFault>
    requires { length flat.now.variables ≤ store.old.variables }
    ensures ok { IfOk result (AreBitLists (label_counts flat.now) (map variable_of flat.now.variables) (memory_bit flat.now) (kind_at (memory_kinds flat.now))
        store.old store.new (length flat.now.memories)) }
    ensures roomy { IsErrOf result StoreFault.Nodes → store.old.limit < 2 ^ (2 ^ store.old.variables) }
{
    let mut lists = Many::new(alloc);
    for memory in flat.memories.as_slice() {
        let count = bits_of_kind(&flat.labels, memory.kind);
        let owner = Owner::Memory(&memory.place);
        lists.push(owned_bits(alloc, store, flat.variables.as_slice(), &owner, count)?)?;
    }
    Ok(lists)
}

/// The references of the bits of each input, however many there are.
pub fn input_refs(
    alloc: Global,
    store: &mut Store,
    flat: &Flat,
) -> Result<Many<Many<Ref>>, StoreFault>
    requires { length flat.now.variables ≤ store.old.variables }
    ensures ok { IfOk result (AreBitLists (label_counts flat.now) (map variable_of flat.now.variables) Input (kind_at (input_kinds flat.now)) store.old
        store.new (length flat.now.inputs)) }
    ensures roomy { IsErrOf result StoreFault.Nodes → store.old.limit < 2 ^ (2 ^ store.old.variables) }
{
    let mut lists = Many::new(alloc);
    for (number, input) in flat.inputs.as_slice().iter().enumerate() {
        let count = bits_of_kind(&flat.labels, input.kind);
        let owner = Owner::Input(number);
        lists.push(owned_bits(alloc, store, flat.variables.as_slice(), &owner, count)?)?;
    }
    Ok(lists)
}
