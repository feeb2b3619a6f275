//! The ticks of a program: the clocks on which `->` stand.

ghost use Rattle.std.specs.Prelude.{◌≡◌, ◌<◌, ◌^◌, ◌++◌, [], length, map, flat_map, slice_set, IfOk, OnOk};
ghost use Rattle.rv_tree.specs.Bounded.{IsBounded};
ghost use Rattle.rv_tree.specs.Places.{Identifier, flows};
ghost use Rattle.rv_tree.specs.Tree.{ProgramTree, node_tree, program_tree};
ghost use Rattle.rv_types.specs.Instances.{node_of, name_at};
ghost use Rattle.rv_types.specs.Names.{name_faults, repeated, decl_names, decls};
ghost use Rattle.rv_sizes.specs.Capped.{capped};
ghost use Rattle.rv_types.specs.WellFormed.{AreSited};
ghost use Rattle.rv_calls.specs.Nodes.{AreOrderedNodes};
ghost use Rattle.rv_types.specs.Variables.{ticks as tick_places};
ghost use Rattle.rv_instances.specs.Expanded.{told};
ghost use Rattle.rv_instances.specs.Timed.{operator_listed};
ghost use Rattle.rv_sizes.specs.Ticks.{has_base, sites_of_clocks, tick_total, ticking_where, own_ticks};
ghost use Rattle.rv_sizes.specs.TickWalk.{arrow_told, handed_told, is_new_site, with_clock, ticks_on_base};

use crate::measure::total_of;
use crate::sites::Sites;
use rv_base::{Many, Memory, Text};
use rv_calls::{Names, Nodes};
use rv_instances::{ClockedCall, ClockedOperator, Timed, all_equal, timed_of};
use rv_tree::{HEAVIEST, Node, Op, Program};
use rv_types::{Clock, node_clocks};
use std::alloc::Global;

/// The ticks of all instances are those of the nodes, summed along calls.
pub(crate) fn tick_counts()
    ensures { (p : ProgramTree) (main : Identifier) → AreSited p → length (tick_places p main) ≡ tick_total p (length p.nodes) (node_of p main) }
{}

/// What is known of the nodes, by their numbers: whether a node has a tick on its base clock, and how many others, or
/// 2^40 where that is less.
#[derive(Drop)]
struct NodeTicks {
    bases: Many<bool>,
    own: Many<u64>,
}

/// The number of ticks of all instances below the main node but for main's own, or 2^40 where that is less.
pub fn tick_total_of(alloc: Global, p: &Program, main: u32, nodes: &Nodes) -> Result<u64, Memory>
    requires bounded { IsBounded (program_tree p.now) }
    requires named { name_faults (program_tree p.now) ≡ [] }
    requires sited { AreSited (program_tree p.now) }
    requires nodes { AreOrderedNodes (program_tree p.now) nodes.now }
    requires main { main < length (program_tree p.now).nodes }
    ensures { IfOk result (λ count. count ≡ capped (length (tick_places (program_tree p.now) (name_at (program_tree p.now) main)))) }
{
    let ticks = ticks_of(alloc, p, nodes)?;
    total_of(alloc, p, main, nodes, &ticks.own)
}

/// For each node the number of its ticks but for that on its base clock. The nodes are walked over in an order in
/// which each stands after those that it calls, so each expression is looked at once.
fn ticks_of(alloc: Global, p: &Program, nodes: &Nodes) -> Result<NodeTicks, Memory>
    requires bounded { IsBounded (program_tree p.now) }
    requires named { name_faults (program_tree p.now) ≡ [] }
    requires nodes { AreOrderedNodes (program_tree p.now) nodes.now }
    ensures { IfOk result (λ ticks. ticks.own ≡ map (λ n. capped (own_ticks (program_tree p.now) n)) (program_tree p.now).nodes) }
{
    let mut ticks = NodeTicks {
        bases: all_equal(alloc, p.nodes.len(), false)?,
        own: all_equal(alloc, p.nodes.len(), 0)?,
    };
    for node in nodes.order.as_slice() {
        let at = *node as usize;
        add_node(alloc, p.nodes.at(at), at, &nodes.names, &mut ticks)?;
    }
    Ok(ticks)
}

/// Notes what is known of the node with a number.
fn add_node(
    alloc: Global,
    node: &Node,
    at: usize,
    names: &Names,
    ticks: &mut NodeTicks,
) -> Result<(), Memory>
    requires different { repeated [] (decl_names (decls (node_tree node.now))) ≡ [] }
    requires few { length (flows (node_tree node.now)) < 2 ^ 32 }
    requires bases { at < length ticks.old.bases }
    requires own { at < length ticks.old.own }
    ensures bases { OnOk result (ticks.new.bases ≡ slice_set ticks.old.bases at
        (has_base (ticking_where (node_tree node.now) (ticks_on_base names.now ticks.old.bases)))) }
    ensures own { OnOk result (ticks.new.own ≡ slice_set ticks.old.own at
        (capped (length (sites_of_clocks [] (ticking_where (node_tree node.now) (ticks_on_base names.now ticks.old.bases)))))) }
{
    let found = ticking_in(alloc, node, names, &ticks.bases)?;
    let own = different_sites(alloc, found.as_slice())?;
    ticks.own.set(at, own.min(HEAVIEST));
    ticks.bases.set(at, is_base_among(found.as_slice()));
    Ok(())
}

/// Whether the base clock is among some.
fn is_base_among(clocks: &[Clock]) -> bool
    ensures { result ≡ has_base clocks.now }
{
    for clock in clocks {
        if matches!(clock, Clock::Base) {
            return true;
        }
    }
    false
}

/// How many different flows some clocks are of.
fn different_sites(alloc: Global, clocks: &[Clock]) -> Result<u64, Memory>
    ensures { IfOk result (λ count. count ≡ length (sites_of_clocks [] clocks.now)) }
{
    let mut seen = Sites::new(alloc);
    let mut count = 0;
    for clock in clocks {
        if is_new(*clock, &mut seen)? {
            count += 1;
        }
    }
    Ok(count)
}

/// Whether a clock is a flow that has not been seen.
fn is_new(clock: Clock, seen: &mut Sites) -> Result<bool, Memory>
    ensures new { IfOk result (λ new. new ≡ is_new_site seen.old clock) }
    ensures sites { OnOk result (seen.new ≡ with_clock seen.old clock) }
{
    match clock {
        Clock::Base => Ok(false),
        Clock::On(site) => seen.add(site as u64),
    }
}

/// The clocks that tick in a node, where it is known which nodes that it calls have a tick on their base clock.
fn ticking_in(
    alloc: Global,
    node: &Node,
    names: &Names,
    bases: &Many<bool>,
) -> Result<Many<Clock>, Memory>
    requires different { repeated [] (decl_names (decls (node_tree node.now))) ≡ [] }
    requires few { length (flows (node_tree node.now)) < 2 ^ 32 }
    ensures { IfOk result (λ found. found ≡ ticking_where (node_tree node.now) (ticks_on_base names.now bases.now)) }
{
    let clocks = node_clocks(alloc, node)?;
    let Timed {
        calls,
        operators,
        ..
    } = timed_of(alloc, &clocks)?;
    let mut found = arrows_among(alloc, operators.as_slice())?;
    add_handed(names, bases, calls.as_slice(), &mut found)?;
    Ok(found)
}

/// The clocks of the `->` among some operators.
fn arrows_among(alloc: Global, operators: &[ClockedOperator]) -> Result<Many<Clock>, Memory>
    ensures { IfOk result (λ found. found ≡ flat_map arrow_told (map operator_listed operators.now)) }
{
    let mut found = Many::new(alloc);
    for operator in operators {
        if matches!(operator.operator, Op::Arrow) {
            found.push(operator.clock)?;
        }
    }
    Ok(found)
}

/// Adds the clocks of those calls whose node is known to have a tick on its base clock.
fn add_handed(
    names: &Names,
    bases: &Many<bool>,
    calls: &[ClockedCall],
    found: &mut Many<Clock>,
) -> Result<(), Memory>
    ensures { OnOk result (found.new ≡ found.old ++ flat_map (handed_told (ticks_on_base names.now bases.now)) (map told calls.now)) }
{
    for call in calls {
        if has_tick_on_base(names, bases, call.callee) {
            found.push(call.clock)?;
        }
    }
    Ok(())
}

/// Whether the node of a name is known to have a tick on its base clock.
fn has_tick_on_base(names: &Names, bases: &Many<bool>, callee: &Text) -> bool
    ensures { result ≡ ticks_on_base names.now bases.now callee.now }
{
    let number = names.place(callee);
    number < bases.len() && *bases.at(number)
}
