//! Recursion of nodes.

ghost use Rattle.std.specs.Prelude.{◌≡◌, ◌<◌, ◌^◌, [], ◌∷◌, ℕ, length, slice_index_or, IfOk, IfErr};
ghost use Rattle.std.specs.Bool.{MatchBool};
ghost use Rattle.std.specs.List.{Contains};
ghost use Rattle.rv_tree.specs.Bounded.{IsBounded};
ghost use Rattle.rv_tree.specs.Tree.{program_tree};
ghost use Rattle.rv_types.specs.Names.{name_faults};
ghost use Rattle.rv_calls.specs.Nodes.{AreOrderedNodes, IsRecursionOf};
ghost use Rattle.rv_calls.specs.declared.calls.Calling.{Calling as CallingModel};
ghost use Rattle.rv_calls.specs.Graphs.{IsGraph, IsOrdered};
ghost use Rattle.rv_calls.specs.Callings.{call_graph};
ghost use Rattle.rv_calls.specs.Loops.{AtMost, IsLowered, IsLoweredTo, IsRecursion};

use crate::calls::{Calling, calls_of, graph_of, names_of_nodes};
use crate::components::components_of;
use crate::fault::CauseFault;
use crate::graph::{Sorted, sort};
use crate::names::Names;
use crate::reach::are_same;
use rv_base::Many;
use rv_tree::Program;
use std::alloc::Global;

/// The names of the nodes, their calls, and an order in which each stands after those that it calls.
#[derive(Drop)]
pub struct Nodes {
    /// The names, in the order of the source; a node's number is how many stand before it.
    pub names: Names,
    /// The calls of each node.
    pub calls: Many<Many<Calling>>,
    /// The numbers of the nodes, each after those that it calls.
    pub order: Many<u32>,
}

/// Checks that no node of a program with different names reaches itself, and answers the nodes in order.
///
/// Otherwise it answers `Recursive` with the offset of the first call that leads back; `Memory` comes where memory runs out.
pub fn check(alloc: Global, p: &Program) -> Result<Nodes, CauseFault>
    requires bounded { IsBounded (program_tree p.now) }
    requires named { name_faults (program_tree p.now) ≡ [] }
    ensures ordered { IfOk result (AreOrderedNodes (program_tree p.now)) }
    ensures recursive { IfErr result (IsRecursionOf (program_tree p.now)) }
{
    let names = names_of_nodes(alloc, p)?;
    let calls = calls_of(alloc, p, &names)?;
    let graph = graph_of(alloc, &calls)?;
    match node_order(alloc, &calls, &graph) {
        Ok(order) => Ok(Nodes {
            names,
            calls,
            order,
        }),
        Err(fault) => Err(fault),
    }
}

/// The nodes in an order in which each stands after those that it calls, or the first call that leads back to its own
/// node: the first between two nodes of one component. Time is linear.
pub fn node_order(
    alloc: Global,
    table: &Many<Many<Calling>>,
    graph: &Many<Many<u32>>,
) -> Result<Many<u32>, CauseFault>
    requires graph { graph.now ≡ call_graph table.now }
    requires known { IsGraph graph.now }
    requires few { length graph.now < 2 ^ 32 }
    ensures ordered { IfOk result (λ nodes. IsOrdered graph.now nodes) }
    ensures recursive { IfErr result (IsRecursion graph.now table.now) }
{
    match sort(alloc, graph)? {
        Sorted::Ordered(nodes) => Ok(nodes),
        Sorted::Looped(_) => {
            let parts = components_of(alloc, graph)?;
            match first_back(table, &parts) {
                Some(at) => Err(CauseFault::Recursive(at)),
                None => unreachable!(),
            }
        }
    }
}

/// The least offset of a call between two nodes of one component.
fn first_back(table: &Many<Many<Calling>>, parts: &Many<Option<u32>>) -> Option<u32>
    requires nodes { length parts.now ≡ length table.now }
    requires callees { (k : ℕ) (c : CallingModel) → k < length table.now → Contains (slice_index_or table.now k []) c → c.callee < length parts.now }
    ensures { IsLoweredTo parts.now table.now (length table.now) result }
{
    let mut least = None;
    for node in 0..table.len() {
        least = lower_in_node(parts, node, table.at(node).as_slice(), least);
    }
    least
}

/// Lowers the least offset by the calls of a node.
fn lower_in_node(
    parts: &Many<Option<u32>>,
    node: usize,
    calls: &[Calling],
    old: Option<u32>,
) -> Option<u32>
    requires node { node < length parts.now }
    requires callees { (c : CallingModel) → Contains calls.now c → c.callee < length parts.now }
    ensures { IsLowered parts.now node calls.now old result }
{
    let mut least = old;
    for call in calls {
        least = lower(parts, node, call, least);
    }
    least
}

/// Lowers the least offset by a call, where its node is in the component of the node that it stands in.
fn lower(parts: &Many<Option<u32>>, node: usize, call: &Calling, old: Option<u32>) -> Option<u32>
    requires node { node < length parts.now }
    requires callee { call.now.callee < length parts.now }
    ensures { IsLowered parts.now node (call.now ∷ []) old result }
{
    if is_at_most(old, call.at) {
        old
    } else if are_same(*parts.at(node), *parts.at(call.callee as usize)) {
        Some(call.at)
    } else {
        old
    }
}

/// Whether an offset is at least the least one, where that is known.
fn is_at_most(least: Option<u32>, at: u32) -> bool
    ensures { MatchBool result (AtMost least at) (AtMost least at → ⊥) }
{
    match least {
        None => false,
        Some(bound) => bound <= at,
    }
}
