//! What each state bit is after an instant.

ghost use Rattle.std.specs.Prelude.{◌≡◌, ◌*◌, ◌<◌, ◌≤◌, ◌^◌, map, length, slice_index_or, None, IfOk, IsErrOf, Some};
ghost use Rattle.rv_tree.specs.Places.{index_of};
ghost use Rattle.rv_diagram.specs.Nodes.{Diagrams};
ghost use Rattle.rv_control.specs.Control.{state_bits, tick_index};
ghost use Rattle.rv_flat.specs.FlatInstants.{system_of};
ghost use Rattle.rv_flat.specs.Lists.{variable_of};
ghost use Rattle.rv_flat.specs.Systems.{memory_places_of, tick_flows_of};
ghost use Rattle.rv_bits.specs.Following.{IsNextRead, AreNextRead, IsTickRead, IsKeptBit, copies_in, kept_ref, variable_at};
ghost use Rattle.rv_bits.specs.Flows.{AreAfters};
ghost use Rattle.rv_bits.specs.Tables.{ticks_in};
ghost use Rattle.rv_bits.specs.Shown.{IsAround};

use crate::around::Around;
use crate::bits::ref_of;
use crate::leaves::list_at;
use crate::names::{Named, is_named, is_place};
use rv_base::{Many, Place};
use rv_diagram::{Ref, Store, StoreFault};
use rv_flat::{Bit, Flat, FlatMemory};
use rv_types::Kind;
use std::alloc::Global;

/// Whether a variable is a next copy, as a number.
fn one_copy(variable: &Bit) -> usize
    ensures { result ≡ copies_in variable.now }
{
    match variable {
        Bit::Next => 1,
        Bit::MainTick => 0,
        Bit::Tick(_) => 0,
        Bit::Kept(_, _) => 0,
        Bit::Input(_, _) => 0,
        Bit::Test(_, _) => 0,
    }
}

/// Whether a variable is a tick other than the main one, as a number.
fn one_tick(variable: &Bit) -> usize
    ensures { result ≡ length (ticks_in variable.now) }
{
    match variable {
        Bit::Tick(_) => 1,
        Bit::MainTick => 0,
        Bit::Next => 0,
        Bit::Kept(_, _) => 0,
        Bit::Input(_, _) => 0,
        Bit::Test(_, _) => 0,
    }
}

/// How many state bits there are: as many as next copies.
fn count_states(variables: &[Bit]) -> usize
    requires { length variables.now ≤ 4096 }
    ensures is { result ≡ state_bits (map variable_of variables.now) }
    ensures within { result ≤ length variables.now }
{
    let mut count = 0;
    for variable in variables {
        count += one_copy(variable);
    }
    count
}

/// The number of the tick of a clock by the place of its flow, the main tick being 0.
fn tick_number(variables: &[Bit], place: &Place) -> usize
    requires { length variables.now ≤ 4096 }
    ensures { result ≡ tick_index (tick_flows_of variables.now) (Some place.now.sites) }
{
    let mut count = 1;
    for variable in variables {
        if is_named(variable, &Named::Tick(place)) {
            return count;
        }
        count += one_tick(variable);
    }
    count
}

/// The number of the memory at a place.
fn memory_number(memories: &[FlatMemory], place: &Place) -> usize
    ensures { result ≡ index_of (memory_places_of memories.now) place.now.sites }
{
    for (number, memory) in memories.iter().enumerate() {
        if is_place(&memory.place, place) {
            return number;
        }
    }
    memories.len()
}

/// The number of the flow of the clock of a tick, none for the main one.
fn clock_of_tick(flat: &Flat, number: usize) -> Option<u32>
    ensures { result ≡ slice_index_or (system_of flat.now).tick_clocks number None }
{
    if number == 0 {
        return None;
    }
    match flat.tick_flows.get(number - 1) {
        Some(flow) => Some(*flow),
        None => None,
    }
}

/// Whether the clock of a tick has been there after the instant.
fn tick_after(store: &mut Store, around: &Around, number: usize) -> Result<Ref, StoreFault>
    requires around { IsAround store.old around.now }
    requires all { length around.now.read.now.on ≡ length around.now.flat.now.flows }
    ensures ok { IfOk result (IsTickRead around.now.flat.now store.old store.new number) }
    ensures roomy { IsErrOf result StoreFault.Nodes → store.old.limit < 2 ^ (2 ^ store.old.variables) }
{
    match clock_of_tick(around.flat, number) {
        None => Ok(store.constant(true)),
        Some(clock) => {
            let before = ref_of(around.tables.ticks.as_slice(), number);
            store.or(before, ref_of(around.read.on.as_slice(), clock as usize))
        }
    }
}

/// A bit of what a memory holds after the instant.
fn bit_after(kind: Kind, refs: &[Ref], number: u32) -> Ref
    ensures { result ≡ kept_ref kind refs.now number }
{
    match kind {
        Kind::Bool => ref_of(refs, 0),
        Kind::Int => 0,
        Kind::Labels(_) => ref_of(refs, number as usize),
    }
}

/// A bit of what the memory at a place holds after the instant.
fn kept_after(flat: &Flat, after: &Many<Many<Ref>>, place: &Place, number: u32) -> Ref
    ensures { (old new : Diagrams) → AreAfters flat.now old new (length flat.now.memories) after.now
        → IsKeptBit flat.now new.nodes place.now.sites number result }
{
    let memory = memory_number(flat.memories.as_slice(), place);
    match flat.memories.get(memory) {
        Some(kept) => bit_after(kept.kind, list_at(after, memory), number),
        None => 0,
    }
}

/// What a variable is after the instant, where it is a state bit.
fn next_of(
    store: &mut Store,
    around: &Around,
    after: &Many<Many<Ref>>,
    variable: &Bit,
) -> Result<Ref, StoreFault>
    requires around { IsAround store.old around.now }
    requires all { length around.now.read.now.on ≡ length around.now.flat.now.flows }
    requires after { (old : Diagrams) × AreAfters around.now.flat.now old store.old (length around.now.flat.now.memories) after.now }
    ensures ok { IfOk result (IsNextRead around.now.flat.now store.old store.new (variable_of variable.now)) }
    ensures roomy { IsErrOf result StoreFault.Nodes → store.old.limit < 2 ^ (2 ^ store.old.variables) }
{
    match variable {
        Bit::MainTick => tick_after(store, around, 0),
        Bit::Tick(place) => {
            let number = tick_number(around.flat.variables.as_slice(), place);
            tick_after(store, around, number)
        }
        Bit::Kept(place, number) => Ok(kept_after(around.flat, after, place, *number)),
        Bit::Next => Ok(store.constant(false)),
        Bit::Input(_, _) => Ok(store.constant(false)),
        Bit::Test(_, _) => Ok(store.constant(false)),
    }
}

/// What the variable with a number is after the instant. There is none past the last one.
fn next_at(
    store: &mut Store,
    around: &Around,
    after: &Many<Many<Ref>>,
    number: usize,
) -> Result<Ref, StoreFault>
    requires around { IsAround store.old around.now }
    requires all { length around.now.read.now.on ≡ length around.now.flat.now.flows }
    requires after { (old : Diagrams) × AreAfters around.now.flat.now old store.old (length around.now.flat.now.memories) after.now }
    ensures ok { IfOk result (IsNextRead around.now.flat.now store.old store.new (variable_at around.now.flat.now number)) }
    ensures roomy { IsErrOf result StoreFault.Nodes → store.old.limit < 2 ^ (2 ^ store.old.variables) }
{
    match around.flat.variables.get(number) {
        Some(variable) => next_of(store, around, after, variable),
        None => Ok(store.constant(false)),
    }
}

/// What each state bit is after the instant.
pub fn read_next(
    alloc: Global,
    store: &mut Store,
    around: &Around,
    after: &Many<Many<Ref>>,
) -> Result<Many<Ref>, StoreFault>
    requires around { IsAround store.old around.now }
    requires all { length around.now.read.now.on ≡ length around.now.flat.now.flows }
    requires after { (old : Diagrams) × AreAfters around.now.flat.now old store.old (length around.now.flat.now.memories) after.now }
    ensures ok { IfOk result (AreNextRead around.now.flat.now store.old store.new (state_bits (map variable_of around.now.flat.now.variables))) }
    ensures roomy { IsErrOf result StoreFault.Nodes → store.old.limit < 2 ^ (2 ^ store.old.variables) }
{
    let mut next = Many::new(alloc);
    for bit in 0..count_states(around.flat.variables.as_slice()) {
        next.push(next_at(store, around, after, 2 * bit)?)?;
    }
    Ok(next)
}
