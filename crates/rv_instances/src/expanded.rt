//! A program with all its instances.

ghost use Rattle.std.specs.Prelude.{◌≡◌, ◌<◌, ◌≤◌, length, map, IfOk};
ghost use Rattle.rv_base.specs.Limits.{source_limit};
ghost use Rattle.rv_tree.specs.Tree.{node_tree, program_tree};
ghost use Rattle.rv_types.specs.Instances.{name_at};
ghost use Rattle.rv_instances.specs.Expanded.{IsExpanded, IsKnown, program_of, told, calls_told};
ghost use Rattle.rv_instances.specs.Flowing.{flow_count};
ghost use Rattle.rv_instances.specs.Layouts.{node_at};

use crate::answer::Instance;
use crate::flows::count_flows;
use crate::timed::{ClockedCall, clocked_calls};
use rv_base::{Many, Memory};
use rv_tree::{Node, Program};
use rv_types::{NodeClocks, program_clocks};
use std::alloc::Global;

/// A program whose names, types and clocks are right, with the number of its main node, all its instances in the order
/// of their paths, and the clocks and calls of its nodes.
#[derive(Drop)]
pub struct Expanded<'a, 'b> {
    pub program: &'a Program,
    pub main: u32,
    pub instances: &'b Many<Instance>,
    pub clocks: Many<NodeClocks<'a>>,
    pub calls: Many<Many<ClockedCall<'a>>>,
}

impl<'a, 'b> Expanded<'a, 'b> {
    /// A program with the number of its main node and with all its instances.
    pub fn new(
        alloc: Global,
        program: &'a Program,
        main: u32,
        instances: &'b Many<Instance>,
    ) -> Result<Expanded<'a, 'b>, Memory>
        requires { IsExpanded (program_tree program.now) (name_at (program_tree program.now) main) instances.now }
        ensures known { IfOk result IsKnown }
        ensures program { IfOk result (λ x. x.program.now ≡ program.now) }
        ensures main { IfOk result (λ x. x.main ≡ main) }
        ensures instances { IfOk result (λ x. x.instances.now ≡ instances.now) }
    {
        let clocks = program_clocks(alloc, program)?;
        let calls = clocked_calls(alloc, &clocks)?;
        Ok(Expanded {
            program,
            main,
            instances,
            clocks,
            calls,
        })
    }

    /// The node of an instance.
    pub fn node(&self, instance: u32) -> &'a Node
        requires known { IsKnown self.now }
        requires within { instance < length self.now.instances.now }
        ensures { node_tree result.now ≡ node_at (program_of self.now) self.now.instances.now instance }
    {
        self.program
            .nodes
            .at(self.instances.at(instance as usize).node as usize)
    }

    /// The clocks of the node of an instance.
    pub fn clocks<'c>(&'c self, instance: u32) -> &'c NodeClocks<'a>
        requires known { IsKnown self.now }
        requires within { instance < length self.now.instances.now }
        ensures { node_tree result.now.node.now ≡ node_at (program_of self.now) self.now.instances.now instance }
    {
        self.clocks
            .at(self.instances.at(instance as usize).node as usize)
    }

    /// The calls of the node of an instance.
    pub fn calls<'c>(&'c self, instance: u32) -> &'c [ClockedCall<'a>]
        requires known { IsKnown self.now }
        requires within { instance < length self.now.instances.now }
        ensures { map told result.now ≡ calls_told (node_at (program_of self.now) self.now.instances.now instance) }
    {
        self.calls
            .at(self.instances.at(instance as usize).node as usize)
            .as_slice()
    }

    /// How many flows an instance has.
    pub fn count(&self, instance: u32) -> u32
        requires known { IsKnown self.now }
        requires within { instance < length self.now.instances.now }
        ensures count { result ≡ flow_count (program_of self.now) self.now.instances.now instance }
        ensures few { result ≤ source_limit }
    {
        count_flows(self.node(instance))
    }
}
