//! The instances of a program, in the order of their paths.

ghost use Rattle.std.specs.Prelude.{◌≡◌, ◌<◌, ◌++◌, [], ℕ, List, length, map, reverse, IfOk, OnOk};
ghost use Rattle.rv_tree.specs.Tree.{program_tree};
ghost use Rattle.rv_types.specs.Names.{name_faults};
ghost use Rattle.rv_calls.specs.Graphs.{IsGraph, IsOrdered};
ghost use Rattle.rv_calls.specs.Callings.{call_graph};
ghost use Rattle.rv_instances.specs.AllInstances.{AreInstances};
ghost use Rattle.rv_types.specs.WellFormed.{AreSited};
ghost use Rattle.rv_types.specs.Instances.{name_at};
ghost use Rattle.rv_calls.specs.Nodes.{AreOrderedNodes};
ghost use Rattle.rv_calls.specs.Listing.{called_instance, all_listed, AreSorted, AreAllSorted};

use crate::calls::Calling;
use crate::recursion::Nodes;
use rv_base::{Many, Memory, Path};
use rv_instances::Instance;
use rv_tree::Program;
use std::alloc::Global;

/// The instances of a program whose main node has the number `main`, in the order of their paths. The only error is want
/// of memory.
pub fn instances(
    alloc: Global,
    p: &Program,
    main: u32,
    nodes: &Nodes,
) -> Result<Many<Instance>, Memory>
    requires named { name_faults (program_tree p.now) ≡ [] }
    requires sited { AreSited (program_tree p.now) }
    requires nodes { AreOrderedNodes (program_tree p.now) nodes.now }
    requires main { main < length (program_tree p.now).nodes }
    ensures { IfOk result (AreInstances (program_tree p.now) (name_at (program_tree p.now) main)) }
{
    let sorted = sorted_calls(alloc, &nodes.calls)?;
    expand(alloc, main, &sorted)
}

/// The instance of a node and all below it, where the calls of each node are sorted by their sites and no node leads
/// back to itself. What has been found and what waits are lists, so no call is nested; time grows with the length of
/// the answer's paths.
fn expand(alloc: Global, root: u32, calls: &Many<Many<Calling>>) -> Result<Many<Instance>, Memory>
    requires graph { IsGraph (call_graph calls.now) }
    requires ordered { (order : List ℕ) × IsOrdered (call_graph calls.now) order }
    requires root { root < length calls.now }
    ensures { IfOk result (λ found. found ≡ all_listed calls.now [] root) }
{
    let mut found = Many::new(alloc);
    let mut waiting = Many::new(alloc);
    waiting.push(Instance {
        path: Path::from_slice(alloc, &[])?,
        node: root,
    })?;
    while let Some(instance) = waiting.pop() {
        let callees = calls.at(instance.node as usize).as_slice();
        push_callees(alloc, instance.path.as_slice(), callees, &mut waiting)?;
        found.push(instance)?;
    }
    Ok(found)
}

/// Lets the instances that calls give wait, that of the first call last.
fn push_callees(
    alloc: Global,
    path: &[u32],
    calls: &[Calling],
    waiting: &mut Many<Instance>,
) -> Result<(), Memory>
    ensures { OnOk result (waiting.new ≡ waiting.old ++ reverse (map (called_instance path.now) calls.now)) }
{
    let mut left = calls.len();
    while left > 0 {
        left -= 1;
        waiting.push(callee_instance(alloc, path, &calls[left])?)?;
    }
    Ok(())
}

/// The instance that a call gives.
fn callee_instance(alloc: Global, path: &[u32], call: &Calling) -> Result<Instance, Memory>
    ensures { IfOk result (λ i. i ≡ called_instance path.now call.now) }
{
    let mut longer = Vec::from_slice(alloc, path)?;
    longer.push(call.site)?;
    Ok(Instance {
        path: Path::from_slice(alloc, longer.as_slice())?,
        node: call.callee,
    })
}

/// The calls of each node, sorted by their sites.
fn sorted_calls(alloc: Global, calls: &Many<Many<Calling>>) -> Result<Many<Many<Calling>>, Memory>
    ensures { IfOk result (AreAllSorted calls.now) }
{
    let mut all = Many::new(alloc);
    for of_node in calls.as_slice() {
        all.push(sorted(alloc, of_node.as_slice())?)?;
    }
    Ok(all)
}

/// Calls sorted by their sites.
fn sorted(alloc: Global, calls: &[Calling]) -> Result<Many<Calling>, Memory>
    ensures { IfOk result (AreSorted calls.now) }
{
    let mut sorted = Vec::from_slice(alloc, calls)?;
    sorted.sort_by_key(|call| call.site)?;
    Ok(Many::from_vec(sorted))
}
