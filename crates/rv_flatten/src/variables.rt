//! The diagram variables and the columns of a program, in their order.

ghost use Rattle.std.specs.Prelude.{◌≡◌, ◌≤◌, ◌++◌, ◌∷◌, [], ℕ, map, length, IfOk, OnOk};
ghost use Rattle.rv_tree.specs.Bounded.{most};
ghost use Rattle.rv_tree.specs.Tree.{ProgramTree};
ghost use Rattle.rv_types.specs.Lists as lists;
ghost use Rattle.rv_types.specs.Lists.{sites_of, with_copies, memory_variables, input_variables, test_variables, sides_of, memory_columns, input_columns};
ghost use Rattle.rv_types.specs.Values.{labels_at as labels_of_type};
ghost use Rattle.rv_flatten.specs.Kept.{kept_memory, found_comparison};
ghost use Rattle.rv_flat.specs.Lists.{column_of, side_of, tick_places, variable_of};
ghost use Rattle.rv_flatten.specs.VariableLists.{kept_variables, given_variables, own_columns};

use crate::flows::copied;
use crate::kept::{Comparison, Kept};
use rv_base::{Many, Memory, Place};
use rv_flat::{Bit, Column, Side};
use rv_instances::bits_of;
use rv_tree::{Op, TypeDecl};
use rv_types::Kind;
use std::alloc::{AllocError, Global};

/// The diagram variables: the main tick, the other ticks by the places of their clocks' flows, and the bits of the memories,
/// each with its next copy; then the bits of the main node's inputs, of these types; then the order tests.
pub fn variables_of(
    alloc: Global,
    types: &[TypeDecl],
    ticks: &[Place],
    kept: &[Kept],
    inputs: &[Kind],
    comparisons: &[Comparison],
) -> Result<Many<Bit>, Memory>
    requires few { (k : ℕ) → labels_of_type types.now k ≤ most }
    requires few_inputs { length inputs.now ≤ most }
    ensures list { (p : ProgramTree) → p.types ≡ types.now → IfOk result
        (λ made. map variable_of made ≡ with_copies (lists.MainTick ∷ map lists.Tick (sites_of ticks.now) ++ memory_variables p (map kept_memory kept.now))
        ++ (input_variables p 0 inputs.now ++ test_variables (map found_comparison comparisons.now))) }
    ensures ticks { IfOk result (λ made. tick_places made ≡ sites_of ticks.now) }
{
    listed_variables(alloc, types, ticks, kept, inputs, comparisons)
}

/// The same list, by the declarations of types.
fn listed_variables(
    alloc: Global,
    types: &[TypeDecl],
    ticks: &[Place],
    kept: &[Kept],
    inputs: &[Kind],
    comparisons: &[Comparison],
) -> Result<Many<Bit>, Memory>
    requires few { (k : ℕ) → labels_of_type types.now k ≤ most }
    requires few_inputs { length inputs.now ≤ most }
    ensures { IfOk result (λ made. map variable_of made ≡ with_copies (lists.MainTick ∷ [])
        ++ (with_copies (map lists.Tick (sites_of ticks.now)) ++ (with_copies (kept_variables types.now (map kept_memory kept.now))
        ++ (given_variables types.now 0 inputs.now ++ test_variables (map found_comparison comparisons.now))))) }
{
    let mut bits = Many::new(alloc);
    add_pair(Bit::MainTick, &mut bits)?;
    add_ticks(ticks, &mut bits)?;
    add_memories(types, kept, &mut bits)?;
    add_inputs(types, inputs, &mut bits)?;
    add_tests(comparisons, &mut bits)?;
    Ok(bits)
}

/// Adds a variable and its next copy.
fn add_pair(bit: Bit, bits: &mut Many<Bit>) -> Result<(), AllocError>
    ensures { OnOk result (map variable_of bits.new ≡ map variable_of bits.old ++ variable_of bit ∷ lists.Next ∷ []) }
{
    bits.push(bit)?;
    bits.push(Bit::Next)
}

/// Adds ticks.
fn add_ticks(ticks: &[Place], bits: &mut Many<Bit>) -> Result<(), Memory>
    ensures { OnOk result (map variable_of bits.new ≡ map variable_of bits.old ++ with_copies (map lists.Tick (sites_of ticks.now))) }
{
    for place in ticks {
        let again = copied(place)?;
        add_pair(Bit::Tick(again), bits)?;
    }
    Ok(())
}

/// Adds the bits of memories.
fn add_memories(types: &[TypeDecl], kept: &[Kept], bits: &mut Many<Bit>) -> Result<(), Memory>
    requires { (k : ℕ) → labels_of_type types.now k ≤ most }
    ensures { OnOk result (map variable_of bits.new ≡ map variable_of bits.old ++ with_copies (kept_variables types.now (map kept_memory kept.now))) }
{
    for memory in kept {
        let count = bits_of(types, memory.kind);
        add_memory(&memory.place, count, bits)?;
    }
    Ok(())
}

/// Adds so many bits of the memory at a place.
fn add_memory(place: &Place, count: u32, bits: &mut Many<Bit>) -> Result<(), Memory>
    ensures { OnOk result (map variable_of bits.new ≡ map variable_of bits.old ++ with_copies (lists.bits (lists.Kept place.now.sites) count)) }
{
    for bit in 0..count {
        let again = copied(place)?;
        add_pair(Bit::Kept(again, bit), bits)?;
    }
    Ok(())
}

/// Adds the bits of inputs of these types.
fn add_inputs(types: &[TypeDecl], inputs: &[Kind], bits: &mut Many<Bit>) -> Result<(), Memory>
    requires few { (k : ℕ) → labels_of_type types.now k ≤ most }
    requires few_inputs { length inputs.now ≤ most }
    ensures { OnOk result (map variable_of bits.new ≡ map variable_of bits.old ++ given_variables types.now 0 inputs.now) }
{
    for (number, kind) in inputs.iter().enumerate() {
        let count = bits_of(types, *kind);
        add_input(number as u32, count, bits)?;
    }
    Ok(())
}

/// Adds so many bits of the input with a number.
fn add_input(number: u32, count: u32, bits: &mut Many<Bit>) -> Result<(), Memory>
    ensures { OnOk result (map variable_of bits.new ≡ map variable_of bits.old ++ lists.bits (lists.Input number) count) }
{
    for bit in 0..count {
        bits.push(Bit::Input(number, bit))?;
    }
    Ok(())
}

/// Adds the order tests of comparisons.
fn add_tests(comparisons: &[Comparison], bits: &mut Many<Bit>) -> Result<(), Memory>
    ensures { OnOk result (map variable_of bits.new ≡ map variable_of bits.old ++ test_variables (map found_comparison comparisons.now)) }
{
    for comparison in comparisons {
        add_sides(&comparison.place, comparison.operator, bits)?;
    }
    Ok(())
}

/// Adds the order tests of a comparison.
fn add_sides(place: &Place, operator: Op, bits: &mut Many<Bit>) -> Result<(), Memory>
    ensures { OnOk result (map variable_of bits.new ≡ map variable_of bits.old ++ map (lists.Test place.now.sites) (sides_of operator)) }
{
    match operator {
        Op::Equal | Op::Differs => {
            add_side(place, Side::AtMost, bits)?;
            add_side(place, Side::AtLeast, bits)
        }
        Op::AtMost | Op::Greater => add_side(place, Side::AtMost, bits),
        Op::AtLeast | Op::Less => add_side(place, Side::AtLeast, bits),
        _ => Ok(()),
    }
}

/// Adds one.
fn add_side(place: &Place, side: Side, bits: &mut Many<Bit>) -> Result<(), Memory>
    ensures { OnOk result (map variable_of bits.new ≡ map variable_of bits.old ++ lists.Test place.now.sites (side_of side) ∷ []) }
{
    let again = copied(place)?;
    bits.push(Bit::Test(again, side))?;
    Ok(())
}

/// The columns: the integer memories, then the integer inputs of the main node, whose inputs have these types.
pub fn columns_of(alloc: Global, kept: &[Kept], inputs: &[Kind]) -> Result<Many<Column>, Memory>
    requires { length inputs.now ≤ most }
    ensures { IfOk result (λ made. map column_of made ≡ memory_columns (map kept_memory kept.now) ++ input_columns 0 inputs.now) }
{
    let mut columns = Many::new(alloc);
    add_kept_columns(kept, &mut columns)?;
    add_input_columns(inputs, &mut columns)?;
    Ok(columns)
}

/// Adds those of memories.
fn add_kept_columns(kept: &[Kept], columns: &mut Many<Column>) -> Result<(), Memory>
    ensures { OnOk result (map column_of columns.new ≡ map column_of columns.old ++ memory_columns (map kept_memory kept.now)) }
{
    for memory in kept {
        add_kept_column(&memory.place, memory.kind, columns)?;
    }
    Ok(())
}

/// Adds that of a memory, where it is of integers.
fn add_kept_column(place: &Place, kind: Kind, columns: &mut Many<Column>) -> Result<(), Memory>
    ensures { OnOk result (map column_of columns.new ≡ map column_of columns.old ++ own_columns (lists.KeptColumn place.now.sites) kind) }
{
    match kind {
        Kind::Int => {
            let again = copied(place)?;
            columns.push(Column::Kept(again))?;
            Ok(())
        }
        Kind::Bool | Kind::Labels(_) => Ok(()),
    }
}

/// Adds those of inputs of these types.
fn add_input_columns(inputs: &[Kind], columns: &mut Many<Column>) -> Result<(), Memory>
    requires { length inputs.now ≤ most }
    ensures { OnOk result (map column_of columns.new ≡ map column_of columns.old ++ input_columns 0 inputs.now) }
{
    for (number, kind) in inputs.iter().enumerate() {
        add_input_column(number as u32, *kind, columns)?;
    }
    Ok(())
}

/// Adds that of an input, where it is of integers.
fn add_input_column(number: u32, kind: Kind, columns: &mut Many<Column>) -> Result<(), Memory>
    ensures { OnOk result (map column_of columns.new ≡ map column_of columns.old ++ own_columns (lists.InputColumn number) kind) }
{
    match kind {
        Kind::Int => {
            columns.push(Column::Input(number))?;
            Ok(())
        }
        Kind::Bool | Kind::Labels(_) => Ok(()),
    }
}
