//! The components of a graph: two vertices are in one exactly where each leads to the other.

ghost use Rattle.std.specs.Prelude.{◌≡◌, ◌<◌, ◌^◌, [], ◌∷◌, ℕ, length, replicate, IfOk, OnOk, Some};
ghost use Rattle.std.specs.List.{Contains};
ghost use Rattle.rv_calls.specs.Graphs.{IsGraph};
ghost use Rattle.rv_calls.specs.Components.{AreComponents, HasMark, IsParted, IsReversed, IsTurned};

use crate::finishing::finishing_order;
use crate::reach::reach;
use rv_base::{Many, Memory};
use rv_instances::all_equal;
use std::alloc::Global;

/// For each vertex the number of a vertex of its component. From each root that has no component yet it searches twice:
/// for what leads to it over vertices without a component, and among those for what it leads to. Time is linear, since the
/// roots come in the reverse of the order in which a search in depth finishes them: then both searches find the same
/// vertices.
pub fn components_of(alloc: Global, graph: &Many<Many<u32>>) -> Result<Many<Option<u32>>, Memory>
    requires vertices { IsGraph graph.now }
    requires few { length graph.now < 2 ^ 32 }
    ensures { IfOk result (AreComponents graph.now) }
{
    let turned = reversed(alloc, graph)?;
    let mut seen = all_equal(alloc, graph.len(), None)?;
    let mut parts = all_equal(alloc, graph.len(), None)?;
    let mut roots = finishing_order(alloc, graph)?;
    while let Some(root) = roots.pop() {
        assign(alloc, graph, &turned, root, &mut seen, &mut parts)?;
    }
    for v in 0..graph.len() {
        assign(alloc, graph, &turned, v as u32, &mut seen, &mut parts)?;
    }
    Ok(parts)
}

/// Gives a vertex its component, unless it has one, and all others of that component.
fn assign(
    alloc: Global,
    graph: &Many<Many<u32>>,
    turned: &Many<Many<u32>>,
    root: u32,
    seen: &mut Many<Option<u32>>,
    parts: &mut Many<Option<u32>>,
) -> Result<(), Memory>
    requires vertices { IsGraph graph.now }
    requires turned { IsReversed graph.now turned.now }
    requires root { root < length graph.now }
    requires parted { IsParted graph.now seen.old parts.old }
    ensures parted { OnOk result (IsParted graph.now seen.new parts.new) }
    ensures root { OnOk result (HasMark parts.new root) }
    ensures kept { OnOk result ((k : ℕ) → HasMark parts.old k → HasMark parts.new k) }
{
    match *parts.at(root as usize) {
        Some(_) => Ok(()),
        None => {
            reach(alloc, turned, root, parts, None, seen)?;
            reach(alloc, graph, root, seen, Some(root), parts)
        }
    }
}

/// The same edges the other way round.
fn reversed(alloc: Global, graph: &Many<Many<u32>>) -> Result<Many<Many<u32>>, Memory>
    requires vertices { IsGraph graph.now }
    requires few { length graph.now < 2 ^ 32 }
    ensures { IfOk result (IsReversed graph.now) }
{
    let mut turned = no_edges(alloc, graph.len())?;
    for v in 0..graph.len() {
        turn_all(graph.at(v).as_slice(), v as u32, &mut turned)?;
    }
    Ok(Many::from_vec(turned))
}

/// A graph of these many vertices with no edge.
fn no_edges(alloc: Global, count: usize) -> Result<Vec<Many<u32>>, Memory>
    ensures { IfOk result (λ turned. turned.items ≡ replicate count []) }
{
    let mut turned = Vec::new(alloc);
    for _ in 0..count {
        turned.push(Many::new(alloc))?;
    }
    Ok(turned)
}

/// Adds the edges of a vertex to these, the other way round.
fn turn_all(targets: &[u32], v: u32, turned: &mut Vec<Many<u32>>) -> Result<(), Memory>
    requires { (w : ℕ) → Contains targets.now w → w < length turned.old.items }
    ensures { OnOk result (IsTurned targets.now v turned.old.items turned.new.items) }
{
    for target in targets {
        turn(*target, v, turned)?;
    }
    Ok(())
}

/// Adds an edge from a vertex to another.
fn turn(from: u32, to: u32, turned: &mut Vec<Many<u32>>) -> Result<(), Memory>
    requires { from < length turned.old.items }
    ensures { OnOk result (IsTurned (from ∷ []) to turned.old.items turned.new.items) }
{
    let found = &mut turned[from as usize];
    found.push(to)?;
    Ok(())
}
