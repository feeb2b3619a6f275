//! The flows of all instances, by numbers, and their places.

ghost use Rattle.std.specs.Prelude.{◌≡◌, ◌<◌, ◌≤◌, ◌++◌, ℕ, length, map, IfOk, OnOk};
ghost use Rattle.std.specs.List.{Contains};
ghost use Rattle.rv_tree.specs.Bounded.{IsBounded, most};
ghost use Rattle.rv_tree.specs.Places.{flows};
ghost use Rattle.rv_tree.specs.Tree.{node_tree, program_tree};
ghost use Rattle.rv_instances.specs.Expanded.{IsKnown, program_of};
ghost use Rattle.rv_types.specs.Lists.{sites_of};
ghost use Rattle.rv_instances.specs.Flowing.{AreOf, AreOfNodes, all_flows, flow_places, flow_sites, flows_below, place_at};

use crate::answer::Instance;
use crate::expanded::Expanded;
use rv_base::{Many, Memory, Place, Sites};
use rv_tree::{Node, Program};
use std::alloc::Global;

/// A flow: the number of its instance and its site in the node.
#[derive(Clone, Copy, Debug, PartialEq, Eq)]
pub struct Flow {
    pub instance: u32,
    pub site: u32,
}

/// The flows of all instances of a program that is known.
pub fn flows_in(alloc: Global, expanded: &Expanded) -> Result<Many<Flow>, Memory>
    requires { IsKnown expanded.now }
    ensures flows { IfOk result (λ found. found ≡ all_flows (program_of expanded.now) expanded.now.instances.now) }
    ensures instances { IfOk result (AreOf expanded.now.instances.now) }
{
    let found = flows_of(alloc, expanded.program, expanded.instances)?;
    Ok(found)
}

/// The flows of all instances: those of the first in the order of their sites, then those of the next.
fn flows_of(alloc: Global, p: &Program, instances: &Many<Instance>) -> Result<Many<Flow>, Memory>
    requires bounded { IsBounded (program_tree p.now) }
    requires nodes { AreOfNodes (program_tree p.now) instances.now }
    requires few { length instances.now ≤ 4000 }
    ensures { IfOk result (λ found. found ≡ all_flows (program_tree p.now) instances.now) }
{
    let mut found = Many::new(alloc);
    for instance in 0..instances.len() {
        let node = p.nodes.at(instances.at(instance).node as usize);
        push_flows(instance as u32, count_flows(node), &mut found)?;
    }
    Ok(found)
}

/// Adds the flows of an instance with these many.
fn push_flows(instance: u32, count: u32, found: &mut Many<Flow>) -> Result<(), Memory>
    ensures { OnOk result (found.new ≡ found.old ++ flows_below instance count) }
{
    for site in 0..count {
        found.push(Flow { instance, site })?;
    }
    Ok(())
}

/// How many flows a node has.
pub fn count_flows(node: &Node) -> u32
    requires { length (flows (node_tree node.now)) ≤ most }
    ensures { result ≡ length (flows (node_tree node.now)) }
{
    (node.inputs.len() + node.outputs.len() + node.locals.len()) as u32
}

/// The places of flows by their numbers.
pub fn places_of(
    alloc: Global,
    instances: &Many<Instance>,
    flows: &Many<Flow>,
    numbers: &[u32],
) -> Result<Many<Place>, Memory>
    requires instances { AreOf instances.now flows.now }
    requires numbers { (k : ℕ) → Contains numbers.now k → k < length flows.now }
    ensures { IfOk result (λ places. sites_of places ≡ map (place_at (flow_places instances.now flows.now)) numbers.now) }
{
    let mut places = Many::new(alloc);
    for number in numbers {
        places.push(place_of(instances, *flows.at(*number as usize))?)?;
    }
    Ok(places)
}

/// The place of a flow.
fn place_of(instances: &Many<Instance>, flow: Flow) -> Result<Place, Memory>
    requires { flow.instance < length instances.now }
    ensures { IfOk result (λ place. place.sites ≡ flow_sites instances.now flow) }
{
    let instance = instances.at(flow.instance as usize);
    let sites = Sites::within(&instance.path, flow.site)?;
    Ok(Place { sites })
}
