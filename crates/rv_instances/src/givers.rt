//! What gives each flow its value.

ghost use Rattle.std.specs.Prelude.{◌≡◌, ◌+◌, ◌<◌, [], ℕ, length, map, slice_index_or, Some, IfOk};
ghost use Rattle.std.specs.List.{Contains};
ghost use Rattle.rv_tree.specs.Places.{Identifier};
ghost use Rattle.rv_tree.specs.Tree.{Tree, equation_tree, tree_of};
ghost use Rattle.rv_types.specs.Instances.{CallTree, IsArgument, IsRight, Right, calls, node_of};
ghost use Rattle.rv_types.specs.Names.{texts};
ghost use Rattle.rv_instances.specs.Expanded.{IsKnown, IsCallOf, program_of, main_of};
ghost use Rattle.rv_instances.specs.Givers.{AreGivers};
ghost use Rattle.rv_instances.specs.Giving.{AreGiven, IsGiven, KeepsGiven, IsGiving, IsBodyOf, IsRightOf, has_call, first_of, number_at};
ghost use Rattle.rv_instances.specs.Layouts.{IsLayout, all_places, callee_or_main, node_at};

use crate::equal::all_equal;
use crate::expanded::Expanded;
use crate::layout::Layout;
use crate::timed::ClockedCall;
use rv_base::{Many, Memory};
use rv_tree::{Equation, Expr, ExprForm};
use rv_types::Clock;
use std::alloc::Global;

/// An expression of an instance, and the clock of its node on which it stands.
#[derive(Clone, Copy)]
pub struct BodyOf<'a> {
    pub instance: u32,
    pub clock: Clock,
    pub body: &'a Expr,
}

/// An output of a call of an instance, by its number, and the clock of its node on which the call stands.
#[derive(Clone, Copy)]
pub struct OutputOf<'a> {
    pub instance: u32,
    pub clock: Clock,
    pub call: &'a Expr,
    pub output: usize,
}

/// What gives a flow its value: an input of the main node by its number, an expression, or an output of a call.
#[derive(Clone, Copy)]
pub enum Giver<'a> {
    Input(u32),
    Body(BodyOf<'a>),
    Output(OutputOf<'a>),
}

/// For each flow, by its number, what gives it its value.
pub fn givers_of<'a>(
    alloc: Global,
    expanded: &Expanded<'a, '_>,
    layout: &Layout,
) -> Result<Many<Giver<'a>>, Memory>
    requires known { IsKnown expanded.now }
    requires layout { IsLayout (program_of expanded.now) (main_of expanded.now) expanded.now.instances.now layout.now }
    ensures { IfOk result (AreGivers (program_of expanded.now) (main_of expanded.now) expanded.now.instances.now) }
{
    let mut found = all_equal(alloc, flow_total(expanded, layout), None)?;
    give_inputs(expanded, &mut found);
    for instance in 0..expanded.instances.len() {
        give_rights(expanded, layout, instance as u32, &mut found);
        give_arguments(expanded, layout, instance as u32, &mut found);
    }
    all_found(alloc, &found)
}

/// How many flows all instances have.
fn flow_total(expanded: &Expanded, layout: &Layout) -> usize
    requires known { IsKnown expanded.now }
    requires layout { IsLayout (program_of expanded.now) (main_of expanded.now) expanded.now.instances.now layout.now }
    ensures { result ≡ length (all_places (program_of expanded.now) expanded.now.instances.now) }
{
    let last = expanded.instances.len() - 1;
    layout.laid.at(last).first as usize + expanded.count(last as u32) as usize
}

/// Tells of the inputs of main.
fn give_inputs<'a>(expanded: &Expanded<'a, '_>, found: &mut Many<Option<Giver<'a>>>)
    requires known { IsKnown expanded.now }
    requires given { AreGiven (program_of expanded.now) (main_of expanded.now) expanded.now.instances.now found.old }
    ensures given { AreGiven (program_of expanded.now) (main_of expanded.now) expanded.now.instances.now found.new }
    ensures inputs { (j : ℕ) → j < length (node_of (program_of expanded.now) (main_of expanded.now)).inputs → IsGiven found.new j }
{
    for input in 0..expanded.node(0).inputs.len() {
        found.set(input, Some(Giver::Input(input as u32)));
    }
}

/// Tells of the flows that the equations of an instance give.
fn give_rights<'a>(
    expanded: &Expanded<'a, '_>,
    layout: &Layout,
    instance: u32,
    found: &mut Many<Option<Giver<'a>>>,
)
    requires known { IsKnown expanded.now }
    requires layout { IsLayout (program_of expanded.now) (main_of expanded.now) expanded.now.instances.now layout.now }
    requires within { instance < length expanded.now.instances.now }
    requires given { AreGiven (program_of expanded.now) (main_of expanded.now) expanded.now.instances.now found.old }
    ensures given { AreGiven (program_of expanded.now) (main_of expanded.now) expanded.now.instances.now found.new }
    ensures kept { KeepsGiven found.old found.new }
    ensures rights { (x : Identifier) (r : Right) → IsRight (node_at (program_of expanded.now) expanded.now.instances.now instance) x r
        → IsGiven found.new (number_at (program_of expanded.now) expanded.now.instances.now instance x) }
{
    for equation in expanded.clocks(instance).node.equations.as_slice() {
        give_equation(expanded, layout, instance, equation, found);
    }
}

/// Tells of the left sides of an equation of an instance.
fn give_equation<'a>(
    expanded: &Expanded<'a, '_>,
    layout: &Layout,
    instance: u32,
    equation: &'a Equation,
    found: &mut Many<Option<Giver<'a>>>,
)
    requires known { IsKnown expanded.now }
    requires layout { IsLayout (program_of expanded.now) (main_of expanded.now) expanded.now.instances.now layout.now }
    requires within { instance < length expanded.now.instances.now }
    requires equation { Contains (node_at (program_of expanded.now) expanded.now.instances.now instance).equations (equation_tree equation.now) }
    requires given { AreGiven (program_of expanded.now) (main_of expanded.now) expanded.now.instances.now found.old }
    ensures given { AreGiven (program_of expanded.now) (main_of expanded.now) expanded.now.instances.now found.new }
    ensures kept { KeepsGiven found.old found.new }
    ensures lefts { (j : ℕ) → j < length equation.now.lefts → IsGiving (equation_tree equation.now)
        → IsGiven found.new (number_at (program_of expanded.now) expanded.now.instances.now instance (slice_index_or (texts equation.now.lefts) j [])) }
{
    if equation.lefts.len() == 1 || is_sited_call(&equation.right) {
        for number in 0..equation.lefts.len() {
            give_left(expanded, layout, instance, equation, number, found);
        }
    }
}

/// Whether an expression is a call with a site.
fn is_sited_call(e: &Expr) -> bool
    ensures { result ≡ has_call (tree_of e.now) }
{
    e.site.is_some() && matches!(e.form, ExprForm::Call(_, _))
}

/// Tells of the left side of an equation with a number.
fn give_left<'a>(
    expanded: &Expanded<'a, '_>,
    layout: &Layout,
    instance: u32,
    equation: &'a Equation,
    number: usize,
    found: &mut Many<Option<Giver<'a>>>,
)
    requires known { IsKnown expanded.now }
    requires layout { IsLayout (program_of expanded.now) (main_of expanded.now) expanded.now.instances.now layout.now }
    requires within { instance < length expanded.now.instances.now }
    requires equation { Contains (node_at (program_of expanded.now) expanded.now.instances.now instance).equations (equation_tree equation.now) }
    requires giving { IsGiving (equation_tree equation.now) }
    requires number { number < length equation.now.lefts }
    requires given { AreGiven (program_of expanded.now) (main_of expanded.now) expanded.now.instances.now found.old }
    ensures given { AreGiven (program_of expanded.now) (main_of expanded.now) expanded.now.instances.now found.new }
    ensures kept { KeepsGiven found.old found.new }
    ensures left { IsGiven found.new (number_at (program_of expanded.now) expanded.now.instances.now instance
        (slice_index_or (texts equation.now.lefts) number [])) }
{
    let clocks = expanded.clocks(instance);
    let first = layout.laid.at(instance as usize).first;
    if let Some(site) = clocks.site(&equation.lefts.at(number).text) {
        let giver = right_of(instance, clocks.clock_at(site), equation, number);
        found.set(first as usize + site as usize, Some(giver));
    }
}

/// An expression of an instance that stands on a clock.
fn body_of<'a>(instance: u32, clock: Clock, body: &'a Expr) -> Giver<'a>
    ensures { IsBodyOf instance clock body.now result }
{
    Giver::Body(BodyOf {
        instance,
        clock,
        body,
    })
}

/// What gives the left side of an equation with a number its value.
fn right_of<'a>(instance: u32, clock: Clock, equation: &'a Equation, output: usize) -> Giver<'a>
    ensures { IsRightOf instance clock equation.now output result }
{
    if equation.lefts.len() == 1 {
        body_of(instance, clock, &equation.right)
    } else {
        Giver::Output(OutputOf {
            instance,
            clock,
            call: &equation.right,
            output,
        })
    }
}

/// Tells of the inputs of what an instance calls.
fn give_arguments<'a>(
    expanded: &Expanded<'a, '_>,
    layout: &Layout,
    instance: u32,
    found: &mut Many<Option<Giver<'a>>>,
)
    requires known { IsKnown expanded.now }
    requires layout { IsLayout (program_of expanded.now) (main_of expanded.now) expanded.now.instances.now layout.now }
    requires within { instance < length expanded.now.instances.now }
    requires given { AreGiven (program_of expanded.now) (main_of expanded.now) expanded.now.instances.now found.old }
    ensures given { AreGiven (program_of expanded.now) (main_of expanded.now) expanded.now.instances.now found.new }
    ensures kept { KeepsGiven found.old found.new }
    ensures arguments { (c : CallTree) (j : ℕ) (e : Tree) → Contains (calls (node_at (program_of expanded.now) expanded.now.instances.now instance)) c
        → IsArgument c.args j e → IsGiven found.new (first_of (program_of expanded.now) expanded.now.instances.now
        (callee_or_main layout.now.callees instance c.site) + j) }
{
    for call in expanded.calls(instance) {
        give_call(expanded, layout, instance, call, found);
    }
}

/// Tells of the inputs of what a call of an instance gives.
fn give_call<'a>(
    expanded: &Expanded<'a, '_>,
    layout: &Layout,
    instance: u32,
    call: &ClockedCall<'a>,
    found: &mut Many<Option<Giver<'a>>>,
)
    requires known { IsKnown expanded.now }
    requires layout { IsLayout (program_of expanded.now) (main_of expanded.now) expanded.now.instances.now layout.now }
    requires within { instance < length expanded.now.instances.now }
    requires call { IsCallOf (program_of expanded.now) (main_of expanded.now) expanded.now.instances.now instance call.now }
    requires given { AreGiven (program_of expanded.now) (main_of expanded.now) expanded.now.instances.now found.old }
    ensures given { AreGiven (program_of expanded.now) (main_of expanded.now) expanded.now.instances.now found.new }
    ensures kept { KeepsGiven found.old found.new }
    ensures arguments { (j : ℕ) → j < length call.now.arguments.now → IsGiven found.new
        (first_of (program_of expanded.now) expanded.now.instances.now (callee_or_main layout.now.callees instance call.now.site) + j) }
{
    let callee = layout.callees.callee(instance, call.site).unwrap_or(0);
    let first = layout.laid.at(callee as usize).first;
    let arguments = call.arguments;
    for number in 0..arguments.len() {
        let giver = body_of(instance, call.clock, &arguments[number]);
        found.set(first as usize + number, Some(giver));
    }
}

/// What is told of all flows.
fn all_found<'a>(alloc: Global, found: &Many<Option<Giver<'a>>>) -> Result<Many<Giver<'a>>, Memory>
    requires { (k : ℕ) → k < length found.now → IsGiven found.now k }
    ensures { IfOk result (λ givers. map Some givers ≡ found.now) }
{
    let mut givers = Many::new(alloc);
    for giver in found.as_slice() {
        match giver {
            Some(giver) => givers.push(*giver)?,
            None => unreachable!(),
        }
    }
    Ok(givers)
}
