//! The ticks of a program, by the numbers of the flows of their clocks.

ghost use Rattle.std.specs.Prelude.{◌≡◌, ◌+◌, ◌<◌, ◌^◌, ◌++◌, [], ◌∷◌, false, true, ℕ, List, cond, length, map, replicate, slice_index_or, slice_set, IfOk};
ghost use Rattle.std.specs.Prelude.{OnOk};
ghost use Rattle.std.specs.List.{Contains};
ghost use Rattle.rv_tree.specs.Places.{Sites, index_of};
ghost use Rattle.rv_tree.specs.Tree.{node_tree};
ghost use Rattle.rv_types.specs.declared.typed.Clock.{Clock as ClockModel};
ghost use Rattle.rv_types.specs.Lists.{AreRising, AreTicks};
ghost use Rattle.rv_instances.specs.Expanded.{IsKnown, program_of, main_of};
ghost use Rattle.rv_instances.specs.Flowing.{place_at};
ghost use Rattle.rv_instances.specs.Layouts.{IsLayout, IsWithin, all_places};
ghost use Rattle.rv_instances.specs.NumberedNeeds.{IsReader, listed, numbers_of};
ghost use Rattle.rv_flatten.specs.Arrows.{arrow_numbers, arrow_numbers_to, arrow_of, marked_from, node_arrows, numbers_of_clocks, with_marks};

use crate::positions::{flow_count, standing};
use rv_base::{Many, Memory};
use rv_instances::{
    Expanded, Layout, Reader, Timed, flow_places, instance_numbers, numbered_instances, timed_of,
};
use rv_tree::Op;
use rv_types::{Clock, NodeClocks};
use std::alloc::{AllocError, Global};

/// The numbers of the flows of the clocks on which a `->` stands, rising; main's base clock left out.
pub fn ticks_of(alloc: Global, expanded: &Expanded, layout: &Layout) -> Result<Many<u32>, Memory>
    requires known { IsKnown expanded.now }
    requires layout { IsLayout (program_of expanded.now) (main_of expanded.now) expanded.now.instances.now layout.now }
    ensures within { IfOk result (λ ks. (k : ℕ) → Contains ks k → k < length (all_places (program_of expanded.now) expanded.now.instances.now)) }
    ensures list { IfOk result (λ ks. AreTicks (program_of expanded.now) (main_of expanded.now)
        (map (place_at (all_places (program_of expanded.now) expanded.now.instances.now)) ks)) }
{
    flow_places();
    instance_numbers();
    numbered_instances();
    let numbers = clock_numbers(alloc, expanded, layout)?;
    let marks = marks_of(alloc, flow_count(expanded, layout), numbers.as_slice())?;
    marked(alloc, marks.as_slice())
}

/// The numbers of the flows of the clocks of the `->` of all instances. Time grows with the number of expressions of all
/// instances.
fn clock_numbers(alloc: Global, expanded: &Expanded, layout: &Layout) -> Result<Many<u32>, Memory>
    requires known { IsKnown expanded.now }
    requires layout { IsLayout (program_of expanded.now) (main_of expanded.now) expanded.now.instances.now layout.now }
    ensures { IfOk result (λ found. found ≡ arrow_numbers_to (program_of expanded.now) expanded.now.instances.now layout.now
        (length expanded.now.instances.now)) }
{
    let mut found = Many::new(alloc);
    for instance in 0..expanded.instances.len() {
        add_instance(alloc, expanded, layout, instance as u32, &mut found)?;
    }
    Ok(found)
}

/// Adds those of an instance.
fn add_instance(
    alloc: Global,
    expanded: &Expanded,
    layout: &Layout,
    instance: u32,
    found: &mut Many<u32>,
) -> Result<(), Memory>
    requires known { IsKnown expanded.now }
    requires layout { IsLayout (program_of expanded.now) (main_of expanded.now) expanded.now.instances.now layout.now }
    requires within { instance < length expanded.now.instances.now }
    ensures { OnOk result (found.new ≡ found.old ++ arrow_numbers (program_of expanded.now) expanded.now.instances.now layout.now instance) }
{
    numbered_instances();
    let reader = Reader::new(expanded, layout, instance);
    let clocks = arrow_clocks(alloc, reader.clocks)?;
    add_numbers(&reader, clocks.as_slice(), found)
}

/// The clocks of the `->` of a node.
fn arrow_clocks(alloc: Global, clocks: &NodeClocks) -> Result<Many<Clock>, Memory>
    ensures { IfOk result (λ found. found ≡ node_arrows (node_tree clocks.now.node.now)) }
{
    let Timed { operators, .. } = timed_of(alloc, clocks)?;
    let mut found = Many::new(alloc);
    for operator in operators.as_slice() {
        add_arrow(operator.operator, operator.clock, &mut found)?;
    }
    Ok(found)
}

/// Adds the clock of an operator, if that is a `->`.
fn add_arrow(operator: Op, clock: Clock, found: &mut Many<Clock>) -> Result<(), AllocError>
    ensures { OnOk result (found.new ≡ found.old ++ arrow_of operator clock) }
{
    if matches!(operator, Op::Arrow) {
        found.push(clock)
    } else {
        Ok(())
    }
}

/// Adds the numbers of the flows of some clocks of an instance.
fn add_numbers(reader: &Reader, clocks: &[Clock], found: &mut Many<u32>) -> Result<(), Memory>
    requires reader { IsReader reader.now }
    requires within { (k : ClockModel) → Contains clocks.now k → IsWithin (numbers_of reader.now).offset k }
    ensures { OnOk result (found.new ≡ found.old ++ numbers_of_clocks (numbers_of reader.now) clocks.now) }
{
    for clock in clocks {
        add_number(reader.clock(*clock), found)?;
    }
    Ok(())
}

/// Adds a number, if there is one.
fn add_number(number: Option<u32>, found: &mut Many<u32>) -> Result<(), AllocError>
    ensures { OnOk result (found.new ≡ found.old ++ listed number) }
{
    match number {
        None => Ok(()),
        Some(number) => found.push(number),
    }
}

/// For each number below a count whether it is among some.
fn marks_of(alloc: Global, count: usize, numbers: &[u32]) -> Result<Many<bool>, Memory>
    ensures { IfOk result (λ marks. marks ≡ with_marks (replicate count false) numbers.now) }
{
    let mut marks = unmarked(alloc, count)?;
    for number in numbers {
        mark(*number, &mut marks);
    }
    Ok(marks)
}

/// So many numbers, none of them marked.
fn unmarked(alloc: Global, count: usize) -> Result<Many<bool>, Memory>
    ensures { IfOk result (λ marks. marks ≡ replicate count false) }
{
    let mut marks = Many::new(alloc);
    for _ in 0..count {
        marks.push(false)?;
    }
    Ok(marks)
}

/// Marks a number, if it is below the count.
fn mark(number: u32, marks: &mut Many<bool>)
    ensures { marks.new ≡ slice_set marks.old number true }
{
    let number = number as usize;
    if number < marks.len() {
        marks.set(number, true);
    }
}

/// The numbers that are marked, rising.
fn marked(alloc: Global, marks: &[bool]) -> Result<Many<u32>, Memory>
    requires { length marks.now < 2 ^ 32 }
    ensures { IfOk result (λ found. found ≡ marked_from 0 marks.now) }
{
    let mut found = Many::new(alloc);
    for (number, mark) in marks.iter().enumerate() {
        add_marked(number as u32, *mark, &mut found)?;
    }
    Ok(found)
}

/// Adds a number, if it is marked.
fn add_marked(number: u32, mark: bool, found: &mut Many<u32>) -> Result<(), AllocError>
    ensures { OnOk result (found.new ≡ found.old ++ cond mark (number ∷ []) []) }
{
    if mark { found.push(number) } else { Ok(()) }
}

/// For each flow, by its number, the number of its tick, from 1; 0 where it has none.
pub fn tick_numbers(alloc: Global, count: usize, ticks: &[u32]) -> Result<Many<u32>, Memory>
    requires { count < 2 ^ 32 }
    ensures { (places : List Sites) → length places ≡ count → AreRising places → AreRising (map (place_at places) ticks.now)
        → ((k : ℕ) → Contains ticks.now k → k < count) → IfOk result (λ made. (k : ℕ) → k < count
        → Contains (map (place_at places) ticks.now) (place_at places k)
        → slice_index_or made k 0 ≡ index_of (map (place_at places) ticks.now) (place_at places k) + 1) }
{
    standing(alloc, count, 1, ticks)
}
