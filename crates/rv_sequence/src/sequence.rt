//! Sequences of flows in which each stands after those that it needs, and cycles.

ghost use Rattle.std.specs.Prelude.{◌≡◌, ◌<◌, ◌≤◌, ◌^◌, ℕ, length, map, IfOk, IfErr, slice_index_or};
ghost use Rattle.rv_tree.specs.Tree.{ProgramTree};
ghost use Rattle.rv_tree.specs.Places.{Identifier};
ghost use Rattle.rv_calls.specs.Graphs.{IsGraph};
ghost use Rattle.rv_types.specs.Needs.{IsSequence};
ghost use Rattle.rv_instances.specs.Flowing.{flow_places, place_at, AreOf};
ghost use Rattle.rv_sequence.specs.FlowGraphs.{IsFlowGraph, AreTurned, IsCycleFault};

use rv_base::{Many, Memory};
use rv_calls::{CauseFault, Sorted, sort};
use rv_instances::{Flow, Instance, places_of};
use std::alloc::Global;

/// A sequence of all flows by their numbers, each after those that it needs, or a cycle from its least place on. The graph
/// says which flow needs which; places are made for the cycle alone.
pub fn evaluation(
    alloc: Global,
    instances: &Many<Instance>,
    flows: &Many<Flow>,
    graph: &Many<Many<u32>>,
) -> Result<Many<u32>, CauseFault>
    requires vertices { IsGraph graph.now }
    requires few { length graph.now < 2 ^ 32 }
    requires size { length graph.now ≡ length flows.now }
    requires instances { AreOf instances.now flows.now }
    ensures within { IfOk result (λ numbers. (j : ℕ) → j < length numbers → slice_index_or numbers j 0 < length flows.now) }
    ensures sequence { (p : ProgramTree) (main : Identifier) → IsFlowGraph p main (flow_places instances.now flows.now) graph.now
        → IfOk result (λ numbers. IsSequence p main (map (place_at (flow_places instances.now flows.now)) numbers)) }
    ensures cycle { (p : ProgramTree) (main : Identifier) → IsFlowGraph p main (flow_places instances.now flows.now) graph.now
        → IfErr result (IsCycleFault p main) }
{
    match sort(alloc, graph)? {
        Sorted::Ordered(order) => Ok(order),
        Sorted::Looped(found) => {
            let turned = from_least(alloc, found.as_slice())?;
            Err(CauseFault::Cycle(places_of(alloc, instances, flows, turned.as_slice())?))
        }
    }
}

/// Numbers turned so that they begin with the least.
fn from_least(alloc: Global, numbers: &[u32]) -> Result<Many<u32>, Memory>
    requires { 0 < length numbers.now }
    ensures { IfOk result (AreTurned numbers.now) }
{
    let start = least_at(numbers);
    let mut turned = Vec::from_slice(alloc, &numbers[start..])?;
    turned.extend_from_slice(&numbers[..start])?;
    Ok(Many::from_vec(turned))
}

/// Where the least number stands.
fn least_at(numbers: &[u32]) -> usize
    requires { 0 < length numbers.now }
    ensures within { result < length numbers.now }
    ensures least { (j : ℕ) → j < length numbers.now → slice_index_or numbers.now result 0 ≤ slice_index_or numbers.now j 0 }
{
    let mut least = 0;
    let mut next = 1;
    while next < numbers.len() {
        if numbers[next] < numbers[least] {
            least = next;
        }
        next += 1;
    }
    least
}
