//! The rules of names.

ghost use Rattle.std.specs.Prelude.{◌≡◌, ◌+◌, ◌<◌, ◌++◌, ℕ, [], IfOk, map, flat_map, length, slice_get};
ghost use Rattle.rv_tree.specs.declared.tree.Decl.{Decl as AnyDecl};
ghost use Rattle.rv_tree.specs.Tree.{program_tree, constant_tree, node_tree, equation_tree, assertion_tree};
ghost use Rattle.rv_types.specs.Names.{is_declared, stands_before, decls, decl_names, lefts, repeated, type_use, use_of, undefined_unless, name_faults};
ghost use Rattle.rv_types.specs.Firsts.{firsts_after, firsts};
ghost use Rattle.rv_types.specs.Known.{first_spaces, alias_use_in, type_use_before, constant_use_in, flow_use_in, clock_use_in, equation_use_in};
ghost use Rattle.rv_types.specs.Known.{assertion_use_in, flow_names, undefined_in, uses_in, names_in};
ghost use Rattle.rv_types.specs.Earliest.{first};

use crate::fault::NameFault;
use crate::first::sooner_of;
use crate::groups::goes_on;
use crate::space::Space;
use crate::spaces::{Declared, Spaces, declare_flows, declare_names, spaces_of};
use crate::uses::{Reach, unknown_use, use_fault};
use rv_base::Memory;
use rv_tree::{
    Assertion, ConstDecl, Decl, Decls, Equation, Name, Node, Program, TypeBody, TypeDecl, TypeName,
};
use std::alloc::Global;

fn unknown_type(types: &Space, kind: &TypeName) -> Option<NameFault>
    ensures { result ≡ first (type_use (is_declared types.now) kind.now) }
{
    match kind {
        TypeName::Bool | TypeName::Int => None,
        TypeName::Named(name) => use_fault(name.at, types.has(&name.text)),
    }
}

fn unknown_type_before(types: &Space, at: u32, kind: &TypeName) -> Option<NameFault>
    ensures { result ≡ first (type_use (stands_before at types.now) kind.now) }
{
    match kind {
        TypeName::Bool | TypeName::Int => None,
        TypeName::Named(name) => use_fault(name.at, types.is_before(at, &name.text)),
    }
}

/// An alias names a type that stands before it.
fn unknown_in_alias(types: &Space, decl: &TypeDecl) -> Option<NameFault>
    ensures { result ≡ first (alias_use_in types.now decl.now) }
{
    match &decl.body {
        TypeBody::Alias(kind) => unknown_type_before(types, decl.name.at, kind),
        TypeBody::Labels(_) => None,
    }
}

fn unknown_in_aliases(types: &Space, decls: &[TypeDecl]) -> Option<NameFault>
    ensures { result ≡ first (flat_map (alias_use_in types.now) decls.now) }
{
    let mut fault = None;
    for decl in decls {
        fault = sooner_of(fault, unknown_in_alias(types, decl));
    }
    fault
}

fn unknown_type_of(types: &Space, constant: &ConstDecl) -> Option<NameFault>
    ensures { result ≡ first (type_use_before types.now constant.now.name.at constant.now.kind) }
{
    match &constant.kind {
        None => None,
        Some(kind) => unknown_type_before(types, constant.name.at, kind),
    }
}

fn unknown_in_constant(spaces: &Spaces, none: &Space, constant: &ConstDecl) -> Option<NameFault>
    ensures { result ≡ first (constant_use_in spaces.now none.now (constant_tree constant.now)) }
{
    sooner_of(
        unknown_type_of(&spaces.types, constant),
        unknown_use(
            spaces,
            none,
            Reach::Before(constant.name.at),
            &constant.body,
        ),
    )
}

fn unknown_in_constants(spaces: &Spaces, none: &Space, constants: &[ConstDecl]) -> Option<NameFault>
    ensures { result ≡ first (flat_map (constant_use_in spaces.now none.now) (map constant_tree constants.now)) }
{
    let mut fault = None;
    for constant in constants {
        fault = sooner_of(fault, unknown_in_constant(spaces, none, constant));
    }
    fault
}

/// The unknown type of a flow, which is that of the flow before it where both stand in one group.
fn unknown_in_flow(
    types: &Space,
    decls: &Decls,
    index: usize,
    before: Option<NameFault>,
) -> Option<NameFault>
    requires within { index < length decls.now }
    requires before { (k : ℕ) (d : AnyDecl) → k + 1 ≡ index → slice_get decls.now k ≡ Some d → before ≡ first (flow_use_in types.now d) }
    ensures { (d : AnyDecl) → slice_get decls.now index ≡ Some d → result ≡ first (flow_use_in types.now d) }
{
    if goes_on(decls, index) {
        before
    } else {
        unknown_type(types, &decls.at(index).kind)
    }
}

fn unknown_in_flows(types: &Space, decls: &Decls) -> Option<NameFault>
    ensures { result ≡ first (flat_map (flow_use_in types.now) decls.now) }
{
    let mut fault = None;
    let mut own = None;
    for index in 0..decls.len() {
        own = unknown_in_flow(types, decls, index, own);
        fault = sooner_of(fault, own);
    }
    fault
}

fn unknown_clock(flows: &Space, decl: &Decl) -> Option<NameFault>
    ensures { result ≡ first (clock_use_in flows.now decl.now) }
{
    match &decl.clock {
        None => None,
        Some(clock) => use_fault(clock.at, flows.has(&clock.text)),
    }
}

/// The unknown clock of a flow, which is that of the flow before it where both stand in one group.
fn unknown_clock_in(
    flows: &Space,
    decls: &Decls,
    index: usize,
    before: Option<NameFault>,
) -> Option<NameFault>
    requires within { index < length decls.now }
    requires before { (k : ℕ) (d : AnyDecl) → k + 1 ≡ index → slice_get decls.now k ≡ Some d → before ≡ first (clock_use_in flows.now d) }
    ensures { (d : AnyDecl) → slice_get decls.now index ≡ Some d → result ≡ first (clock_use_in flows.now d) }
{
    if goes_on(decls, index) {
        before
    } else {
        unknown_clock(flows, decls.at(index))
    }
}

fn unknown_clocks(flows: &Space, decls: &Decls) -> Option<NameFault>
    ensures { result ≡ first (flat_map (clock_use_in flows.now) decls.now) }
{
    let mut fault = None;
    let mut own = None;
    for index in 0..decls.len() {
        own = unknown_clock_in(flows, decls, index, own);
        fault = sooner_of(fault, own);
    }
    fault
}

fn unknown_names(flows: &Space, names: &[Name]) -> Option<NameFault>
    ensures { result ≡ first (flat_map (use_of (is_declared flows.now)) names.now) }
{
    let mut fault = None;
    for name in names {
        fault = sooner_of(fault, use_fault(name.at, flows.has(&name.text)));
    }
    fault
}

fn unknown_in_equation(spaces: &Spaces, flows: &Space, equation: &Equation) -> Option<NameFault>
    ensures { result ≡ first (equation_use_in spaces.now flows.now (equation_tree equation.now)) }
{
    sooner_of(
        unknown_names(flows, equation.lefts.as_slice()),
        unknown_use(spaces, flows, Reach::Everywhere, &equation.right),
    )
}

fn unknown_in_equations(spaces: &Spaces, flows: &Space, equations: &[Equation]) -> Option<NameFault>
    ensures { result ≡ first (flat_map (equation_use_in spaces.now flows.now) (map equation_tree equations.now)) }
{
    let mut fault = None;
    for equation in equations {
        fault = sooner_of(fault, unknown_in_equation(spaces, flows, equation));
    }
    fault
}

fn unknown_in_assertion(spaces: &Spaces, flows: &Space, assertion: &Assertion) -> Option<NameFault>
    ensures { result ≡ first (assertion_use_in spaces.now flows.now (assertion_tree assertion.now)) }
{
    unknown_use(spaces, flows, Reach::Everywhere, &assertion.body)
}

fn unknown_in_assertions(
    spaces: &Spaces,
    flows: &Space,
    assertions: &[Assertion],
) -> Option<NameFault>
    ensures { result ≡ first (flat_map (assertion_use_in spaces.now flows.now) (map assertion_tree assertions.now)) }
{
    let mut fault = None;
    for assertion in assertions {
        fault = sooner_of(fault, unknown_in_assertion(spaces, flows, assertion));
    }
    fault
}

/// Declares the left sides of equations in turn.
fn declare_lefts(space: &mut Space, equations: &[Equation]) -> Result<Option<NameFault>, Memory>
    ensures space { IfOk result (λ fault. space.new ≡ firsts_after space.old (flat_map (λ q. q.lefts) (map equation_tree equations.now))) }
    ensures fault { IfOk result (λ fault. fault ≡ first (repeated space.old (flat_map (λ q. q.lefts) (map equation_tree equations.now)))) }
{
    let mut fault = None;
    for equation in equations {
        fault = sooner_of(fault, declare_names(space, equation.lefts.as_slice())?);
    }
    Ok(fault)
}

fn undefined_one(lefts: &Space, name: &Name) -> Option<NameFault>
    ensures { result ≡ first (undefined_unless lefts.now name.now) }
{
    if lefts.has(&name.text) {
        None
    } else {
        Some(NameFault::Undefined(name.at))
    }
}

fn undefined_flows(lefts: &Space, decls: &[Decl]) -> Option<NameFault>
    ensures { result ≡ first (flat_map (undefined_unless lefts.now) (decl_names decls.now)) }
{
    let mut fault = None;
    for decl in decls {
        fault = sooner_of(fault, undefined_one(lefts, &decl.name));
    }
    fault
}

/// The space of a node's flows, and the first second declaration in it.
#[derive(Drop)]
pub struct Flows {
    pub space: Space,
    pub fault: Option<NameFault>,
}

/// The space of a node's flows.
pub fn flows_of(alloc: Global, node: &Node) -> Result<Flows, Memory>
    ensures space { IfOk result (λ f. f.space ≡ firsts (flow_names (node_tree node.now))) }
    ensures fault { IfOk result (λ f. f.fault ≡ first (repeated [] (flow_names (node_tree node.now)))) }
{
    let mut space = Space::new(alloc);
    let inputs = declare_flows(&mut space, node.inputs.as_slice())?;
    let outputs = declare_flows(&mut space, node.outputs.as_slice())?;
    let locals = declare_flows(&mut space, node.locals.as_slice())?;
    let fault = sooner_of(sooner_of(inputs, outputs), locals);
    Ok(Flows { space, fault })
}

/// The first left side that is an input or the second of its name.
fn second_left(alloc: Global, node: &Node) -> Result<Option<NameFault>, Memory>
    ensures { IfOk result (λ fault. fault ≡ first (repeated (decl_names (node_tree node.now).inputs) (lefts (node_tree node.now)))) }
{
    let mut defined = Space::new(alloc);
    let _inputs = declare_flows(&mut defined, node.inputs.as_slice())?;
    declare_lefts(&mut defined, node.equations.as_slice())
}

/// The first output or local without an equation.
fn undefined_flow(alloc: Global, node: &Node) -> Result<Option<NameFault>, Memory>
    ensures { IfOk result (λ fault. fault ≡ first (undefined_in (node_tree node.now))) }
{
    let mut lefts = Space::new(alloc);
    let _seconds = declare_lefts(&mut lefts, node.equations.as_slice())?;
    let outputs = undefined_flows(&lefts, node.outputs.as_slice());
    let locals = undefined_flows(&lefts, node.locals.as_slice());
    Ok(sooner_of(outputs, locals))
}

fn unknown_in_decls(types: &Space, node: &Node) -> Option<NameFault>
    ensures { result ≡ first (flat_map (flow_use_in types.now) (decls (node_tree node.now))) }
{
    let inputs = unknown_in_flows(types, &node.inputs);
    let outputs = unknown_in_flows(types, &node.outputs);
    let locals = unknown_in_flows(types, &node.locals);
    sooner_of(sooner_of(inputs, outputs), locals)
}

/// The first unknown name of a node.
fn unknown_in_node(spaces: &Spaces, flows: &Space, node: &Node) -> Option<NameFault>
    ensures { result ≡ first (uses_in spaces.now flows.now (node_tree node.now)) }
{
    let declared = sooner_of(
        unknown_in_decls(&spaces.types, node),
        unknown_clocks(flows, &node.locals),
    );
    let used = sooner_of(
        unknown_in_equations(spaces, flows, node.equations.as_slice()),
        unknown_in_assertions(spaces, flows, node.assertions.as_slice()),
    );
    sooner_of(declared, used)
}

/// The first fault of names in a node.
fn name_node(alloc: Global, spaces: &Spaces, node: &Node) -> Result<Option<NameFault>, Memory>
    ensures { IfOk result (λ fault. fault ≡ first (names_in spaces.now (node_tree node.now))) }
{
    let left = second_left(alloc, node)?;
    let undefined = undefined_flow(alloc, node)?;
    let flows = flows_of(alloc, node)?;
    let second = sooner_of(flows.fault, left);
    let unknown = unknown_in_node(spaces, &flows.space, node);
    Ok(sooner_of(second, sooner_of(undefined, unknown)))
}

fn name_nodes(alloc: Global, spaces: &Spaces, nodes: &[Node]) -> Result<Option<NameFault>, Memory>
    ensures { IfOk result (λ fault. fault ≡ first (flat_map (names_in spaces.now) (map node_tree nodes.now))) }
{
    let mut fault = None;
    for node in nodes {
        fault = sooner_of(fault, name_node(alloc, spaces, node)?);
    }
    Ok(fault)
}

/// The first unknown name of an alias or a constant.
fn unknown_in_globals(alloc: Global, spaces: &Spaces, p: &Program) -> Option<NameFault>
    ensures { result ≡ first (flat_map (alias_use_in spaces.now.types) (program_tree p.now).types
        ++ flat_map (constant_use_in spaces.now []) (program_tree p.now).constants) }
{
    let none = Space::new(alloc);
    let aliases = unknown_in_aliases(&spaces.types, p.types.as_slice());
    let constants = unknown_in_constants(spaces, &none, p.constants.as_slice());
    sooner_of(aliases, constants)
}

/// The first fault of names beside the second declarations of the program.
fn name_uses(alloc: Global, spaces: &Spaces, p: &Program) -> Result<Option<NameFault>, Memory>
    ensures { IfOk result (λ fault. fault ≡ first ((flat_map (alias_use_in spaces.now.types) (program_tree p.now).types
        ++ flat_map (constant_use_in spaces.now []) (program_tree p.now).constants) ++ flat_map (names_in spaces.now) (program_tree p.now).nodes)) }
{
    let nodes = name_nodes(alloc, spaces, p.nodes.as_slice())?;
    Ok(sooner_of(unknown_in_globals(alloc, spaces, p), nodes))
}

/// The spaces of a program, and the first fault of names.
pub fn name_all(alloc: Global, p: &Program) -> Result<Declared, Memory>
    ensures spaces { IfOk result (λ d. d.spaces ≡ first_spaces (program_tree p.now)) }
    ensures fault { IfOk result (λ d. d.fault ≡ first (name_faults (program_tree p.now))) }
{
    let mut declared = spaces_of(alloc, p)?;
    let used = name_uses(alloc, &declared.spaces, p)?;
    declared.fault = sooner_of(declared.fault, used);
    Ok(declared)
}
