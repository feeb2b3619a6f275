//! The comparisons of integers of a flat system.

ghost use Rattle.std.specs.Prelude.{◌≡◌, ◌++◌, not, nat_eq, List, length, map, flat_map, IfOk, OnOk};
ghost use Rattle.rv_types.specs.Lists.{sides_of};
ghost use Rattle.rv_agreement.specs.Trees.{nth_item};
ghost use Rattle.rv_agreement.specs.Valuations.{own, comparisons, comparisons_of as all_in, item_comparisons, all_comparisons};
ghost use Rattle.rv_flat.specs.declared.parts.FlatMemory.{FlatMemory as MemoryModel};
ghost use Rattle.rv_flat.specs.FlatInstants.{system_of};
ghost use Rattle.rv_flat.specs.Inlined.{tree_among, all_inlined, table_of};
ghost use Rattle.rv_flat.specs.RawTree.{raw_tree, raw_trees};
ghost use Rattle.rv_flat.specs.Systems.{assertion_item, flow_item, memory_item};
ghost use Rattle.rv_tested.specs.Compared.{comparison_in};

use rv_base::{Many, Memory, Place};
use rv_bits::parts_of;
use rv_flat::{Flat, FlatExpr, FlatForm};
use rv_tree::Op;
use std::alloc::Global;

/// A comparison of integers: its place, the flow of its clock (none for the main node's base clock), and what it compares.
#[derive(Clone, Copy)]
pub struct Compared<'a> {
    pub at: &'a Place,
    pub clock: Option<u32>,
    pub operator: Op,
    pub left: &'a FlatExpr,
    pub right: &'a FlatExpr,
}

/// Whether an operator has order tests where its operands are integers.
fn has_tests(op: Op) -> bool
    ensures { result ≡ not (nat_eq (length (sides_of op)) 0) }
{
    match op {
        Op::Equal | Op::Differs | Op::Less | Op::AtMost | Op::Greater | Op::AtLeast => true,
        Op::Arrow
        | Op::Implies
        | Op::Or
        | Op::Xor
        | Op::And
        | Op::Plus
        | Op::Minus
        | Op::Times
        | Op::Slash
        | Op::Div
        | Op::Mod => false,
    }
}

/// The clock of the flow with a number.
fn clock_of(flat: &Flat, number: u32) -> Option<u32>
    ensures { result ≡ (nth_item (system_of flat.now).flows number).clock }
{
    match flat.flows.get(number as usize) {
        Some(flow) => flow.clock,
        None => None,
    }
}

/// Adds an operator, if it is a comparison of integers.
#[inline(never)]
fn add_own<'a>(
    clock: Option<u32>,
    at: &'a Place,
    op: Op,
    left: &'a FlatExpr,
    right: &'a FlatExpr,
    found: &mut Many<Compared<'a>>,
) -> Result<(), Memory>
    ensures { OnOk result ((ms : List MemoryModel) → map (comparison_in ms) found.new ≡ map (comparison_in ms) found.old
        ++ own op (record { at = at.now.sites; clock = clock; operator = op; left = tree_among ms left.now; right = tree_among ms right.now })) }
{
    if at.sites.is_empty() || !has_tests(op) {
        return Ok(());
    }
    found.push(Compared {
        at,
        clock,
        operator: op,
        left,
        right,
    })?;
    Ok(())
}

/// Adds the comparisons of an expression on a clock, without those that stand in memories which it shows. It calls itself for each
/// operand, so as deep as the tree of the source is: 20,301 levels at most.
#[cycle(gather)]
fn gather<'a>(
    flat: &'a Flat,
    clock: Option<u32>,
    e: &'a FlatExpr,
    found: &mut Many<Compared<'a>>,
) -> Result<(), Memory>
    ensures { OnOk result (map (comparison_in flat.now.memories) found.new ≡ map (comparison_in flat.now.memories) found.old
        ++ comparisons (system_of flat.now).flows clock (tree_among flat.now.memories e.now)) }
{
    match &e.form {
        FlatForm::Not(operand) | FlatForm::Scale(_, operand) => gather(flat, clock, operand, found),
        FlatForm::When(number, operand) => gather(flat, clock_of(flat, *number), operand, found),
        FlatForm::Binary(op, left, right) => {
            add_own(clock, &e.at, *op, left, right, found)?;
            gather(flat, clock, left, found)?;
            gather(flat, clock, right, found)
        }
        FlatForm::If(condition, first, second) => {
            gather(flat, clock, condition, found)?;
            gather(flat, clock, first, found)?;
            gather(flat, clock, second, found)
        }
        FlatForm::AtMostOne(operands) => gather_all(flat, clock, operands.as_slice(), found),
        FlatForm::Constant(_)
        | FlatForm::Flow(_)
        | FlatForm::Memory(_)
        | FlatForm::Ticked(_)
        | FlatForm::Input(_)
        | FlatForm::Current(_) => Ok(()),
    }
}

/// Adds those of some expressions.
#[cycle(gather)]
fn gather_all<'a>(
    flat: &'a Flat,
    clock: Option<u32>,
    expressions: &'a [FlatExpr],
    found: &mut Many<Compared<'a>>,
) -> Result<(), Memory>
    ensures { OnOk result (map (comparison_in flat.now.memories) found.new ≡ map (comparison_in flat.now.memories) found.old
        ++ all_in (system_of flat.now).flows clock (all_inlined (table_of flat.now.memories) (raw_trees (map raw_tree expressions.now)))) }
{
    for e in expressions {
        gather(flat, clock, e, found)?;
    }
    Ok(())
}

/// Adds those of the flows.
fn gather_flows<'a>(flat: &'a Flat, found: &mut Many<Compared<'a>>) -> Result<(), Memory>
    ensures { OnOk result (map (comparison_in flat.now.memories) found.new ≡ map (comparison_in flat.now.memories) found.old
        ++ flat_map (item_comparisons (system_of flat.now).flows) (map (flow_item flat.now.memories) flat.now.flows)) }
{
    for flow in flat.flows.as_slice() {
        gather(flat, flow.clock, &flow.body, found)?;
    }
    Ok(())
}

/// Adds those of the memories.
fn gather_memories<'a>(flat: &'a Flat, found: &mut Many<Compared<'a>>) -> Result<(), Memory>
    ensures { OnOk result (map (comparison_in flat.now.memories) found.new ≡ map (comparison_in flat.now.memories) found.old
        ++ flat_map (item_comparisons (system_of flat.now).flows) (map (memory_item flat.now.memories) flat.now.memories)) }
{
    for memory in flat.memories.as_slice() {
        gather(flat, memory.clock, &memory.body, found)?;
    }
    Ok(())
}

/// Adds those of the assertions.
fn gather_assertions<'a>(flat: &'a Flat, found: &mut Many<Compared<'a>>) -> Result<(), Memory>
    ensures { OnOk result (map (comparison_in flat.now.memories) found.new ≡ map (comparison_in flat.now.memories) found.old
        ++ flat_map (item_comparisons (system_of flat.now).flows) (map (assertion_item flat.now.memories) flat.now.assertions)) }
{
    for assertion in flat.assertions.as_slice() {
        let parts = parts_of(assertion);
        gather(flat, parts.clock, parts.body, found)?;
    }
    Ok(())
}

/// The comparisons of integers of a flat system, in the order of its flows, memories and assertions. The only error is want of memory.
pub fn comparisons_of<'a>(alloc: Global, flat: &'a Flat) -> Result<Many<Compared<'a>>, Memory>
    ensures { IfOk result (λ found. map (comparison_in flat.now.memories) found ≡ all_comparisons (system_of flat.now)) }
{
    let mut found = Many::new(alloc);
    gather_flows(flat, &mut found)?;
    gather_memories(flat, &mut found)?;
    gather_assertions(flat, &mut found)?;
    Ok(found)
}
