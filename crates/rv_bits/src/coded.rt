//! The valuations at which every code names a label, and those at which no clock has been there.

ghost use Rattle.std.specs.Prelude.{◌≡◌, ◌<◌, ◌^◌, ◌&&◌, not, length, map, IfOk, IsErrOf, IsTrue};
ghost use Rattle.rv_types.specs.Lists.{Input};
ghost use Rattle.rv_diagram.specs.Nodes.{IsRef, value_of};
ghost use Rattle.rv_agreement.specs.Agreement.{bit_count};
ghost use Rattle.rv_agreement.specs.Trees.{kind_at};
ghost use Rattle.rv_control.specs.Control.{names_label as is_label, memories_named as are_memories, inputs_named as are_inputs, none_ticked as are_unticked};
ghost use Rattle.rv_control.specs.Named.{named};
ghost use Rattle.rv_flat.specs.Facts.{all_few};
ghost use Rattle.rv_flat.specs.FlatInstants.{system_of};
ghost use Rattle.rv_flat.specs.Lists.{variable_of};
ghost use Rattle.rv_flat.specs.Steps.{label_counts, memory_kinds, input_kinds};
ghost use Rattle.rv_symbolic.specs.Growing.{Makes};
ghost use Rattle.rv_symbolic.specs.Linked.{AreRefs};
ghost use Rattle.rv_bits.specs.Bits.{bit};
ghost use Rattle.rv_bits.specs.Tables.{AreAllBits, memory_bit};
ghost use Rattle.rv_bits.specs.Shown.{AreTables};

use crate::around::Tables;
use crate::bits::names_label;
use crate::leaves::list_at;
use rv_base::{Many, Text};
use rv_diagram::{Ref, Store, StoreFault};
use rv_flat::Flat;
use rv_types::Kind;

/// Whether the code that the bits of a value of a type spell names a label. A value of another type has no code.
fn label_named(
    store: &mut Store,
    labels: &Many<Many<Text>>,
    kind: Kind,
    bits: &[Ref],
) -> Result<Ref, StoreFault>
    requires bits { AreRefs store.old.nodes bits.now }
    requires size { length bits.now ≡ bit_count (map (λ ls. length ls) labels.now) kind }
    requires few { IsTrue (all_few 256 labels.now) }
    ensures ok { IfOk result (Makes store.old store.new (λ v. is_label (map (λ ls. length ls) labels.now) kind (bit store.old.nodes bits.now v))) }
    ensures roomy { IsErrOf result StoreFault.Nodes → store.old.limit < 2 ^ (2 ^ store.old.variables) }
{
    match kind {
        Kind::Bool => Ok(store.constant(true)),
        Kind::Int => Ok(store.constant(true)),
        Kind::Labels(number) => match labels.get(number as usize) {
            Some(own) => names_label(store, bits, own.len()),
            None => Ok(store.constant(false)),
        },
    }
}

/// Whether the code of each memory names a label.
pub fn memories_named(
    store: &mut Store,
    flat: &Flat,
    kept: &Many<Many<Ref>>,
) -> Result<Ref, StoreFault>
    requires { AreAllBits (label_counts flat.now) (map variable_of flat.now.variables) (memory_bit flat.now) (kind_at (memory_kinds flat.now)) store.old.nodes
        (length flat.now.memories) kept.now }
    ensures ok { IfOk result (Makes store.old store.new (λ v. are_memories (label_counts flat.now) (named flat.now v) (system_of flat.now).memories)) }
    ensures roomy { IsErrOf result StoreFault.Nodes → store.old.limit < 2 ^ (2 ^ store.old.variables) }
{
    let mut all = store.constant(true);
    for (number, memory) in flat.memories.as_slice().iter().enumerate() {
        let one = label_named(store, &flat.labels, memory.kind, list_at(kept, number))?;
        all = store.and(all, one)?;
    }
    Ok(all)
}

/// Whether the code of each input names a label.
pub fn inputs_named(
    store: &mut Store,
    flat: &Flat,
    given: &Many<Many<Ref>>,
) -> Result<Ref, StoreFault>
    requires { AreAllBits (label_counts flat.now) (map variable_of flat.now.variables) Input (kind_at (input_kinds flat.now)) store.old.nodes
        (length flat.now.inputs) given.now }
    ensures ok { IfOk result (Makes store.old store.new (λ v. are_inputs (label_counts flat.now) (named flat.now v) 0 (system_of flat.now).inputs)) }
    ensures roomy { IsErrOf result StoreFault.Nodes → store.old.limit < 2 ^ (2 ^ store.old.variables) }
{
    let mut all = store.constant(true);
    for (number, input) in flat.inputs.as_slice().iter().enumerate() {
        let one = label_named(store, &flat.labels, input.kind, list_at(given, number))?;
        all = store.and(all, one)?;
    }
    Ok(all)
}

/// The first without the second.
fn without(store: &mut Store, all: Ref, one: Ref) -> Result<Ref, StoreFault>
    requires all { IsRef store.old.nodes all }
    requires one { IsRef store.old.nodes one }
    ensures ok { IfOk result (Makes store.old store.new (λ v. value_of store.old.nodes all v && not (value_of store.old.nodes one v))) }
    ensures roomy { IsErrOf result StoreFault.Nodes → store.old.limit < 2 ^ (2 ^ store.old.variables) }
{
    let off = store.not(one)?;
    store.and(all, off)
}

/// Whether no clock has been there.
pub fn none_ticked(store: &mut Store, flat: &Flat, tables: &Tables) -> Result<Ref, StoreFault>
    requires tables { AreTables flat.now store.old.nodes tables.now }
    requires size { length tables.now.ticks ≡ length (system_of flat.now).ticks }
    ensures ok { IfOk result (Makes store.old store.new (λ v. are_unticked (named flat.now v) (system_of flat.now).ticks)) }
    ensures roomy { IsErrOf result StoreFault.Nodes → store.old.limit < 2 ^ (2 ^ store.old.variables) }
{
    let mut all = store.constant(true);
    for tick in tables.ticks.as_slice() {
        all = without(store, all, *tick)?;
    }
    Ok(all)
}
