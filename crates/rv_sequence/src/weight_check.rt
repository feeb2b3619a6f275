//! Whether an expression is too wide, and the least offset of one.

ghost use Rattle.std.specs.Prelude.{◌≡◌, length, map, IfOk, IfErr};
ghost use Rattle.rv_tree.specs.Tree.{tree_of, node_tree, equation_tree, assertion_tree};
ghost use Rattle.rv_types.specs.Readings.{AreTables};
ghost use Rattle.rv_types.specs.Scopes.{constant_values};
ghost use Rattle.rv_instances.specs.Expanded.{IsKnown, program_of, main_of};
ghost use Rattle.rv_instances.specs.Givers.{AreGivers};
ghost use Rattle.rv_instances.specs.Layouts.{IsLayout};
ghost use Rattle.rv_sequence.specs.Sided.{AreSided};
ghost use Rattle.rv_instances.specs.Weights.{AreLight};
ghost use Rattle.rv_sequence.specs.Weighing.{weighing};
ghost use Rattle.rv_sequence.specs.WeightTables.{IsNumbered};
ghost use Rattle.rv_sequence.specs.WideNodes.{wide_in_several, wide_in_side, wide_in_equations, wide_in_assertions, wide_in_node, wide_in_first, IsWideFault};

use crate::flow_weights::{flow_weights, weigher};
use crate::weights::{Weigher, weigh, weigh_all};
use rv_base::{Many, Value};
use rv_calls::CauseFault;
use rv_instances::{Expanded, Giver, Layout};
use rv_tree::{Assertion, Equation, Expr, ExprForm};
use rv_types::{NamedValues, ProgramTables, lesser_of, named_values, wide_constant};
use std::alloc::Global;

/// Checks that no expression in a constant or in an instance has a weight above 2^40.
///
/// The tables are those of the program, and the values those of its constants. The sequence has the numbers of all
/// flows, each after those that it needs. Where an expression is too wide the fault is `TooWide` with the least offset
/// of one. `Memory` comes where memory runs out. Time grows with the number of expressions of all instances, up to
/// look-ups of names and sites.
pub fn check_weights(
    alloc: Global,
    expanded: &Expanded,
    tables: &ProgramTables,
    constants: &[Value],
    layout: &Layout,
    givers: &Many<Giver>,
    sequence: &Many<u32>,
) -> Result<(), CauseFault>
    requires known { IsKnown expanded.now }
    requires sided { AreSided (program_of expanded.now) }
    requires tables { AreTables (program_of expanded.now) tables.now }
    requires constants { constants.now ≡ constant_values (program_of expanded.now) }
    requires layout { IsLayout (program_of expanded.now) (main_of expanded.now) expanded.now.instances.now layout.now }
    requires givers { AreGivers (program_of expanded.now) (main_of expanded.now) expanded.now.instances.now givers.now }
    requires sequence { IsNumbered (program_of expanded.now) (main_of expanded.now) expanded.now.instances.now sequence.now }
    ensures light { IfOk result (λ done. AreLight (program_of expanded.now) (main_of expanded.now)) }
    ensures wide { IfErr result (IsWideFault (program_of expanded.now) (main_of expanded.now)) }
{
    let program = expanded.program;
    let values = named_values(program, tables, constants);
    let weights = flow_weights(alloc, expanded, &values, layout, givers, sequence)?;
    let constant = wide_constant(program, tables, constants);
    let instance = wide_in_instances(expanded, &values, layout, weights.as_slice());
    match lesser_of(constant, instance) {
        None => Ok(()),
        Some(at) => Err(CauseFault::TooWide(at)),
    }
}

/// The least offset of what is too wide in the instances.
fn wide_in_instances<'a>(
    expanded: &'a Expanded<'a, 'a>,
    values: &'a NamedValues<'a>,
    layout: &'a Layout,
    weights: &'a [u64],
) -> Option<u32>
    requires { IsKnown expanded.now }
    ensures { result ≡ wide_in_first (program_of expanded.now) expanded.now.instances.now values.now layout.now weights.now
        (length expanded.now.instances.now) }
{
    let mut first = None;
    for instance in 0..expanded.instances.len() {
        let w = weigher(expanded, values, layout, weights, instance as u32);
        first = lesser_of(first, wide_in_instance(&w));
    }
    first
}

/// The same in an instance.
fn wide_in_instance(w: &Weigher) -> Option<u32>
    ensures { result ≡ wide_in_node (weighing w.now) (node_tree w.now.clocks.now.node.now) }
{
    let node = w.clocks.node;
    lesser_of(
        wide_in_rights(w, node.equations.as_slice()),
        wide_in_bodies(w, node.assertions.as_slice()),
    )
}

/// The same in the right sides of some equations of an instance.
fn wide_in_rights(w: &Weigher, equations: &[Equation]) -> Option<u32>
    ensures { result ≡ wide_in_equations (weighing w.now) (map equation_tree equations.now) }
{
    let mut first = None;
    for equation in equations {
        first = lesser_of(first, wide_in_right(w, equation));
    }
    first
}

/// The same in some assertions of an instance.
fn wide_in_bodies(w: &Weigher, assertions: &[Assertion]) -> Option<u32>
    ensures { result ≡ wide_in_assertions (weighing w.now) (map assertion_tree assertions.now) }
{
    let mut first = None;
    for assertion in assertions {
        first = lesser_of(first, weigh(w, true, &assertion.body).first);
    }
    first
}

/// The same in the right side of an equation of an instance.
fn wide_in_right(w: &Weigher, equation: &Equation) -> Option<u32>
    ensures { result ≡ wide_in_side (weighing w.now) equation.now.lefts (tree_of equation.now.right) }
{
    if equation.lefts.len() == 1 {
        weigh(w, true, &equation.right).first
    } else {
        wide_in_call(w, &equation.right)
    }
}

/// The same in a right side with several left sides, which is a call.
fn wide_in_call(w: &Weigher, e: &Expr) -> Option<u32>
    ensures { result ≡ wide_in_several (weighing w.now) (tree_of e.now) }
{
    match &e.form {
        ExprForm::Call(_, es) => weigh_all(w, true, es.as_slice()).first,
        _ => weigh(w, true, e).first,
    }
}
