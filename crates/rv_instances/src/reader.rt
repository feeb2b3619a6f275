//! Instances in which expressions are read.

ghost use Rattle.std.specs.Prelude.{◌≡◌, ◌<◌, length};
ghost use Rattle.rv_tree.specs.Tree.{tree_of};
ghost use Rattle.rv_types.specs.Instances.{clock_of};
ghost use Rattle.rv_types.specs.ToldPaces.{told_clock};
ghost use Rattle.rv_instances.specs.Expanded.{IsKnown, program_of, main_of};
ghost use Rattle.rv_instances.specs.Layouts.{IsLayout, IsWithin, node_at};
ghost use Rattle.rv_instances.specs.NumberedNeeds.{IsReader, clock_number, clock_of_expression, flow_number, node_read, numbers_of};

use crate::expanded::Expanded;
use crate::layout::{Layout, number_of_clock};
use crate::timed::clock_or_base;
use rv_base::Text;
use rv_tree::Expr;
use rv_types::{Clock, NodeClocks};

/// An instance, by its number, with the names and clocks of its node and with the numbers of all flows.
#[derive(Drop)]
pub struct Reader<'a, 'b> {
    pub instance: u32,
    pub clocks: &'b NodeClocks<'a>,
    pub layout: &'b Layout,
}

impl<'a, 'b> Reader<'a, 'b> {
    /// The instance with a number.
    pub fn new(expanded: &'b Expanded<'a, '_>, layout: &'b Layout, instance: u32) -> Reader<'a, 'b>
        requires known { IsKnown expanded.now }
        requires layout { IsLayout (program_of expanded.now) (main_of expanded.now) expanded.now.instances.now layout.now }
        requires within { instance < length expanded.now.instances.now }
        ensures reader { IsReader result }
        ensures instance { result.instance ≡ instance }
        ensures layout { result.layout.now ≡ layout.now }
        ensures node { node_read result ≡ node_at (program_of expanded.now) expanded.now.instances.now instance }
    {
        Reader {
            instance,
            clocks: expanded.clocks(instance),
            layout,
        }
    }

    /// The number of its flow of a name, none where it has no such flow.
    pub fn flow(&self, name: &Text) -> Option<u32>
        requires { IsReader self.now }
        ensures { result ≡ flow_number (node_read self.now) (numbers_of self.now) name.now }
    {
        match self.clocks.site(name) {
            None => None,
            Some(site) => Some(self.first() + site),
        }
    }

    /// The number of the flow of a clock, none for the base clock of main.
    pub fn clock(&self, clock: Clock) -> Option<u32>
        requires reader { IsReader self.now }
        requires within { IsWithin (numbers_of self.now).offset clock }
        ensures { result ≡ clock_number (numbers_of self.now) clock }
    {
        let base = *self.layout.bases.at(self.instance as usize);
        number_of_clock(self.first(), base, clock)
    }

    /// The number of the flow of the clock of an expression, which is the base clock where it is free.
    pub fn clock_of(&self, e: &Expr) -> Option<u32>
        requires { IsReader self.now }
        ensures { result ≡ clock_number (numbers_of self.now) (clock_of_expression (node_read self.now) (tree_of e.now)) }
    {
        self.clock(clock_or_base(self.clocks.pace(e)))
    }

    /// The number of the flow of the clock that an expression tells. Where clocks are right that is its own.
    pub fn told_clock_of(&self, e: &Expr) -> Option<u32>
        requires { IsReader self.now }
        ensures { result ≡ clock_number (numbers_of self.now) (told_clock (node_read self.now) (tree_of e.now)) }
    {
        self.clock(clock_or_base(self.clocks.told_pace(e)))
    }

    /// The number of the flow of the clock of the flow of a name.
    pub fn clock_of_flow(&self, name: &Text) -> Option<u32>
        requires { IsReader self.now }
        ensures { result ≡ clock_number (numbers_of self.now) (clock_of (node_read self.now) name.now) }
    {
        self.clock(self.clocks.clock_of(name))
    }

    /// The number of the first output of what the call with a site gives.
    pub fn output(&self, site: u32) -> u32
        requires { IsReader self.now }
        ensures { result ≡ (numbers_of self.now).output site }
    {
        let callee = self.layout.callees.callee(self.instance, site).unwrap_or(0);
        self.layout.laid.at(callee as usize).output
    }

    fn first(&self) -> u32
        requires { IsReader self.now }
        ensures { result ≡ (numbers_of self.now).offset }
    {
        self.layout.laid.at(self.instance as usize).first
    }
}
