//! The vertices of a graph in the order in which a search in depth finishes them.

ghost use Rattle.std.specs.Prelude.{◌<◌, ◌^◌, length, IfOk, OnOk};
ghost use Rattle.rv_calls.specs.Graphs.{IsGraph};
ghost use Rattle.rv_calls.specs.Components.{AreVertices, IsDepth};

use crate::graph::Walk;
use rv_base::{Many, Memory};
use std::alloc::Global;

/// The vertices in the order in which a search in depth over the whole graph finishes them. What is made of it is right
/// in every order, and in this one takes linear time; so no more is said of it. The path is kept in a list, so no call
/// is nested.
pub fn finishing_order(alloc: Global, graph: &Many<Many<u32>>) -> Result<Many<u32>, Memory>
    requires vertices { IsGraph graph.now }
    requires few { length graph.now < 2 ^ 32 }
    ensures { IfOk result (AreVertices graph.now) }
{
    let mut walk = Walk::new(alloc, graph.len())?;
    for root in 0..graph.len() {
        if !*walk.entered.at(root) {
            finish(graph, &mut walk, root as u32)?;
        }
    }
    Ok(walk.order)
}

/// Enters a root, and goes on until all that it leads to are finished.
fn finish(graph: &Many<Many<u32>>, walk: &mut Walk, root: u32) -> Result<(), Memory>
    requires vertices { IsGraph graph.now }
    requires walk { IsDepth graph.now walk.old }
    requires root { root < length graph.now }
    ensures { OnOk result (IsDepth graph.now walk.new) }
{
    walk.enter(root)?;
    while let Some(top) = walk.top() {
        match walk.next_new(graph, top) {
            None => walk.leave(top)?,
            Some(child) => walk.enter(child)?,
        }
    }
    Ok(())
}
