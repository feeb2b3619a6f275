//! The clocks of flows, and the rules of clocks.

ghost use Rattle.std.specs.Prelude.{◌≡◌, ◌+◌, ◌++◌, [], ◌<◌, ◌^◌, ℕ, length, map, flat_map, slice_get, IfOk};
ghost use Rattle.rv_tree.specs.declared.tree.Decl.{Decl as AnyDecl};
ghost use Rattle.rv_tree.specs.Tree.{node_tree, equation_tree, assertion_tree};
ghost use Rattle.rv_tree.specs.Places.{flows as flow_texts};
ghost use Rattle.rv_types.specs.Names.{texts, repeated};
ghost use Rattle.rv_types.specs.Known.{flow_names};
ghost use Rattle.rv_types.specs.Clocks.{base_clock, flow_clocks, left_pace, chain_clash, equation_clocks, assertion_clocks, clocks_in_node};
ghost use Rattle.rv_types.specs.Chains.{is_base};
ghost use Rattle.rv_types.specs.Timings.{IsTiming, clock_by, EndsAt, HaveFlows};
ghost use Rattle.rv_types.specs.Earliest.{first};

use crate::chains::{chain_ends, follow_clock};
use crate::fault::{NameFault, Pace};
use crate::first::sooner_of;
use crate::groups::goes_on;
use crate::names::flows_of;
use crate::pacing::{as_seen, clash_of, met, pace_of, pace_of_name};
use crate::space::Space;
use crate::timing::Timing;
use crate::typed::Clock;
use rv_base::{Many, Memory};
use rv_tree::{Assertion, Decl, Decls, Equation, Name, Node};
use std::alloc::Global;

fn push_base(clocks: &mut Vec<Clock>, decls: &[Decl]) -> Result<(), Memory>
    ensures { IfOk result (λ done. clocks.new.items ≡ clocks.old.items ++ map base_clock decls.now) }
{
    for _decl in decls {
        clocks.push(Clock::Base)?;
    }
    Ok(())
}

fn declared_clock(flows: &Space, clock: &Option<Name>) -> Clock
    requires { length flows.now < 2 ^ 32 }
    ensures { result ≡ clock_by flows.now clock.now }
{
    match clock {
        None => Clock::Base,
        Some(clock) => Clock::On(flows.index(&clock.text) as u32),
    }
}

/// The clock of a flow, which is that of the flow before it where both stand in one group.
fn clock_in_group(flows: &Space, decls: &Decls, index: usize, before: Clock) -> Clock
    requires few { length flows.now < 2 ^ 32 }
    requires within { index < length decls.now }
    requires before { (k : ℕ) (d : AnyDecl) → k + 1 ≡ index → slice_get decls.now k ≡ Some d → before ≡ clock_by flows.now d.clock }
    ensures { (d : AnyDecl) → slice_get decls.now index ≡ Some d → result ≡ clock_by flows.now d.clock }
{
    if goes_on(decls, index) {
        before
    } else {
        declared_clock(flows, &decls.at(index).clock)
    }
}

fn push_declared(clocks: &mut Vec<Clock>, flows: &Space, decls: &Decls) -> Result<(), Memory>
    requires { length flows.now < 2 ^ 32 }
    ensures { IfOk result (λ done. clocks.new.items ≡ clocks.old.items ++ map (λ d. clock_by flows.now d.clock) decls.now) }
{
    let mut own = Clock::Base;
    for index in 0..decls.len() {
        own = clock_in_group(flows, decls, index, own);
        clocks.push(own)?;
    }
    Ok(())
}

/// The clocks of the flows of a node, in the order of their sites.
pub fn clocks_of(alloc: Global, flows: &Space, node: &Node) -> Result<Vec<Clock>, Memory>
    requires names { texts flows.now ≡ flow_texts (node_tree node.now) }
    requires few { length flows.now < 2 ^ 32 }
    ensures { IfOk result (λ v. v.items ≡ flow_clocks (node_tree node.now)) }
{
    let mut clocks = Vec::new(alloc);
    push_base(&mut clocks, node.inputs.as_slice())?;
    push_base(&mut clocks, node.outputs.as_slice())?;
    push_declared(&mut clocks, flows, &node.locals)?;
    Ok(clocks)
}

fn is_on_base(clock: Clock) -> bool
    ensures { result ≡ is_base clock }
{
    matches!(clock, Clock::Base)
}

/// A declared clock whose chain does not end.
fn chain_fault(timing: &Timing, ends: &[Clock], decl: &Decl) -> Option<NameFault>
    requires { EndsAt (node_tree timing.now.node.now) ends.now }
    ensures { result ≡ first (chain_clash (node_tree timing.now.node.now) decl.now) }
{
    match &decl.clock {
        None => None,
        Some(clock) => {
            if is_on_base(follow_clock(ends, Clock::On(timing.site(&clock.text)))) {
                None
            } else {
                Some(NameFault::ClockClash(clock.at))
            }
        }
    }
}

/// The same of a flow, which has what the flow before it has where both stand in one group.
fn chain_fault_in(
    timing: &Timing,
    ends: &[Clock],
    decls: &Decls,
    index: usize,
    before: Option<NameFault>,
) -> Option<NameFault>
    requires ends { EndsAt (node_tree timing.now.node.now) ends.now }
    requires within { index < length decls.now }
    requires before { (k : ℕ) (d : AnyDecl) → k + 1 ≡ index → slice_get decls.now k ≡ Some d → before ≡ first (chain_clash (node_tree timing.now.node.now) d) }
    ensures { (d : AnyDecl) → slice_get decls.now index ≡ Some d → result ≡ first (chain_clash (node_tree timing.now.node.now) d) }
{
    if goes_on(decls, index) {
        before
    } else {
        chain_fault(timing, ends, decls.at(index))
    }
}

fn chain_faults(timing: &Timing, ends: &[Clock], decls: &Decls) -> Option<NameFault>
    requires { EndsAt (node_tree timing.now.node.now) ends.now }
    ensures { result ≡ first (flat_map (chain_clash (node_tree timing.now.node.now)) decls.now) }
{
    let mut fault = None;
    let mut own = None;
    for index in 0..decls.len() {
        own = chain_fault_in(timing, ends, decls, index, own);
        fault = sooner_of(fault, own);
    }
    fault
}

/// The clock of left sides together.
#[tactic(auto, using(crate::proofs::Meeting::meet_free))]
fn pace_of_lefts(timing: &Timing, lefts: &[Name]) -> Pace
    ensures { result ≡ left_pace (node_tree timing.now.node.now) lefts.now }
{
    let mut pace = Pace::Free;
    for left in lefts {
        pace = met(pace, pace_of_name(timing, &left.text));
    }
    pace
}

fn equation_fault(timing: &Timing, equation: &Equation) -> Option<NameFault>
    ensures { result ≡ first (equation_clocks (node_tree timing.now.node.now) (equation_tree equation.now)) }
{
    let right = pace_of(timing, &equation.right);
    let left = pace_of_lefts(timing, equation.lefts.as_slice());
    sooner_of(
        right.fault,
        clash_of(equation.right.at, met(left, as_seen(right.pace))),
    )
}

fn equation_faults(timing: &Timing, equations: &[Equation]) -> Option<NameFault>
    ensures { result ≡ first (flat_map (equation_clocks (node_tree timing.now.node.now)) (map equation_tree equations.now)) }
{
    let mut fault = None;
    for equation in equations {
        fault = sooner_of(fault, equation_fault(timing, equation));
    }
    fault
}

fn assertion_fault(timing: &Timing, assertion: &Assertion) -> Option<NameFault>
    ensures { result ≡ first (assertion_clocks (node_tree timing.now.node.now) (assertion_tree assertion.now)) }
{
    pace_of(timing, &assertion.body).fault
}

fn assertion_faults(timing: &Timing, assertions: &[Assertion]) -> Option<NameFault>
    ensures { result ≡ first (flat_map (assertion_clocks (node_tree timing.now.node.now)) (map assertion_tree assertions.now)) }
{
    let mut fault = None;
    for assertion in assertions {
        fault = sooner_of(fault, assertion_fault(timing, assertion));
    }
    fault
}

/// For each flow the base clock exactly where its chain of clocks ends.
fn ends_of(alloc: Global, timing: &Timing) -> Result<Vec<Clock>, Memory>
    ensures { IfOk result (λ v. EndsAt (node_tree timing.now.node.now) v.items) }
{
    let ends = chain_ends(alloc, timing.clocks)?;
    Ok(ends)
}

/// The first fault of clocks in a node.
pub fn clock_fault(alloc: Global, timing: &Timing) -> Result<Option<NameFault>, Memory>
    ensures { IfOk result (λ fault. fault ≡ first (clocks_in_node (node_tree timing.now.node.now))) }
{
    let ends = ends_of(alloc, timing)?;
    let node = timing.node;
    let chains = chain_faults(timing, ends.as_slice(), &node.locals);
    let used = sooner_of(
        equation_faults(timing, node.equations.as_slice()),
        assertion_faults(timing, node.assertions.as_slice()),
    );
    Ok(sooner_of(chains, used))
}

/// The clocks of the flows of a node, and the first fault of clocks in it.
#[derive(Drop)]
pub struct Timed {
    pub clocks: Vec<Clock>,
    pub fault: Option<NameFault>,
}

/// The clocks of a node, whose flows are those of the space.
pub fn time_node(alloc: Global, flows: &Space, node: &Node) -> Result<Timed, Memory>
    requires names { texts flows.now ≡ flow_texts (node_tree node.now) }
    requires few { length flows.now < 2 ^ 32 }
    ensures clocks { IfOk result (λ t. t.clocks.items ≡ flow_clocks (node_tree node.now)) }
    ensures fault { IfOk result (λ t. t.fault ≡ first (clocks_in_node (node_tree node.now))) }
{
    let clocks = clocks_of(alloc, flows, node)?;
    let fault = clock_fault_by(alloc, flows, clocks.as_slice(), node)?;
    Ok(Timed { clocks, fault })
}

fn clock_fault_by(
    alloc: Global,
    flows: &Space,
    clocks: &[Clock],
    node: &Node,
) -> Result<Option<NameFault>, Memory>
    requires { IsTiming (node_tree node.now) flows.now clocks.now }
    ensures { IfOk result (λ fault. fault ≡ first (clocks_in_node (node_tree node.now))) }
{
    let timing = Timing {
        node,
        flows,
        clocks,
    };
    clock_fault(alloc, &timing)
}

/// The clocks of a node, whose flows have different names.
fn time_flows(alloc: Global, node: &Node) -> Result<Timed, Memory>
    requires different { repeated [] (flow_names (node_tree node.now)) ≡ [] }
    requires few { length (flow_texts (node_tree node.now)) < 2 ^ 32 }
    ensures clocks { IfOk result (λ t. t.clocks.items ≡ flow_clocks (node_tree node.now)) }
    ensures fault { IfOk result (λ t. t.fault ≡ first (clocks_in_node (node_tree node.now))) }
{
    let flows = flows_of(alloc, node)?;
    let timed = time_node(alloc, &flows.space, node)?;
    Ok(timed)
}

/// The clocks of the flows of all nodes, and the first fault of clocks.
#[derive(Drop)]
pub struct Times {
    pub clocks: Many<Many<Clock>>,
    pub fault: Option<NameFault>,
}

/// The clocks of all nodes, whose flows have different names in each.
pub fn time_nodes(alloc: Global, nodes: &[Node]) -> Result<Times, Memory>
    requires { HaveFlows (map node_tree nodes.now) }
    ensures clocks { IfOk result (λ t. t.clocks ≡ map flow_clocks (map node_tree nodes.now)) }
    ensures fault { IfOk result (λ t. t.fault ≡ first (flat_map clocks_in_node (map node_tree nodes.now))) }
{
    let mut clocks = Many::new(alloc);
    let mut fault = None;
    for node in nodes {
        let timed = time_flows(alloc, node)?;
        clocks.push(Many::from_vec(timed.clocks))?;
        fault = sooner_of(fault, timed.fault);
    }
    Ok(Times { clocks, fault })
}
