//! Which flow needs which at the same instant.

ghost use Rattle.std.specs.Prelude.{◌≡◌, ◌++◌, IfOk, OnOk};
ghost use Rattle.rv_tree.specs.Tree.{tree_of};
ghost use Rattle.rv_instances.specs.declared.givers.Giver.TheVariants as giver;
ghost use Rattle.rv_instances.specs.Expanded.{IsKnown, program_of, main_of};
ghost use Rattle.rv_sequence.specs.FlowGraphs.{IsFlowGraph};
ghost use Rattle.rv_instances.specs.Givers.{AreGivers};
ghost use Rattle.rv_calls.specs.Graphs.{IsGraph};
ghost use Rattle.rv_instances.specs.Layouts.{IsLayout, all_places};
ghost use Rattle.rv_instances.specs.NumberedNeeds.{IsGiver, site_in};
ghost use Rattle.rv_sequence.specs.Needed.{giver_needed};

use crate::needs::{add_flow, add_needs};
use rv_base::{Many, Memory};
use rv_instances::{BodyOf, Expanded, Giver, Layout, OutputOf, Reader};
use rv_tree::Expr;
use std::alloc::Global;

/// For each flow, by its number, the numbers of the flows that it needs at the same instant. Time grows with the number
/// of expressions of all instances, up to look-ups of names and calls; of the arguments of a call within a `current` the
/// first operand that has a clock tells the clock.
pub fn flow_graph(
    alloc: Global,
    expanded: &Expanded,
    layout: &Layout,
    givers: &Many<Giver>,
) -> Result<Many<Many<u32>>, Memory>
    requires known { IsKnown expanded.now }
    requires layout { IsLayout (program_of expanded.now) (main_of expanded.now) expanded.now.instances.now layout.now }
    requires givers { AreGivers (program_of expanded.now) (main_of expanded.now) expanded.now.instances.now givers.now }
    ensures vertices { IfOk result IsGraph }
    ensures graph { IfOk result (IsFlowGraph (program_of expanded.now) (main_of expanded.now)
        (all_places (program_of expanded.now) expanded.now.instances.now)) }
{
    let mut graph = Many::new(alloc);
    for giver in givers.as_slice() {
        graph.push(needs_of(alloc, expanded, layout, giver)?)?;
    }
    Ok(graph)
}

/// The numbers of the flows that a flow needs, by what gives it its value.
fn needs_of(
    alloc: Global,
    expanded: &Expanded,
    layout: &Layout,
    giver: &Giver,
) -> Result<Many<u32>, Memory>
    requires known { IsKnown expanded.now }
    requires layout { IsLayout (program_of expanded.now) (main_of expanded.now) expanded.now.instances.now layout.now }
    requires giver { IsGiver (program_of expanded.now) (main_of expanded.now) expanded.now.instances.now giver.now }
    ensures { IfOk result (λ found. found ≡ giver_needed (program_of expanded.now) expanded.now.instances.now layout.now giver.now) }
{
    let mut found = Many::new(alloc);
    match giver {
        Giver::Input(_) => {}
        Giver::Body(body) => add_body(expanded, layout, body, &mut found)?,
        Giver::Output(output) => add_output(expanded, layout, output, &mut found)?,
    }
    Ok(found)
}

/// Adds what an expression of an instance needs.
fn add_body(
    expanded: &Expanded,
    layout: &Layout,
    body: &BodyOf,
    found: &mut Many<u32>,
) -> Result<(), Memory>
    requires known { IsKnown expanded.now }
    requires layout { IsLayout (program_of expanded.now) (main_of expanded.now) expanded.now.instances.now layout.now }
    requires giver { IsGiver (program_of expanded.now) (main_of expanded.now) expanded.now.instances.now (giver.Body body.now) }
    ensures { OnOk result (found.new ≡ found.old ++ giver_needed (program_of expanded.now) expanded.now.instances.now layout.now (giver.Body body.now)) }
{
    let reader = Reader::new(expanded, layout, body.instance);
    add_flow(reader.clock(body.clock), found)?;
    add_needs(&reader, body.body, found)
}

/// Adds what an output of a call of an instance needs: the flow of the clock, and the output.
fn add_output(
    expanded: &Expanded,
    layout: &Layout,
    output: &OutputOf,
    found: &mut Many<u32>,
) -> Result<(), Memory>
    requires known { IsKnown expanded.now }
    requires layout { IsLayout (program_of expanded.now) (main_of expanded.now) expanded.now.instances.now layout.now }
    requires giver { IsGiver (program_of expanded.now) (main_of expanded.now) expanded.now.instances.now (giver.Output output.now) }
    ensures { OnOk result (found.new ≡ found.old ++ giver_needed (program_of expanded.now) expanded.now.instances.now layout.now (giver.Output output.now)) }
{
    let reader = Reader::new(expanded, layout, output.instance);
    add_flow(reader.clock(output.clock), found)?;
    let first = reader.output(site_of(output.call));
    found.push((first as usize + output.output) as u32)?;
    Ok(())
}

/// The site of an expression that has one.
fn site_of(e: &Expr) -> u32
    ensures { result ≡ site_in (tree_of e.now) }
{
    e.site.unwrap_or(0)
}
