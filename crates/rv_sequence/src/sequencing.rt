//! The rules of cycles and weights, in turn.

ghost use Rattle.std.specs.Prelude.{◌≡◌, IfOk, IfErr};
ghost use Rattle.rv_tree.specs.Tree.{program_tree};
ghost use Rattle.rv_types.specs.Instances.{name_at};
ghost use Rattle.rv_types.specs.Scopes.{constant_values};
ghost use Rattle.rv_calls.specs.declared.fault.CauseFault.{CauseFault};
ghost use Rattle.rv_instances.specs.Expanded.{IsExpanded, IsKnown, program_of, main_of};
ghost use Rattle.rv_instances.specs.Flowing.{all_flows};
ghost use Rattle.rv_sequence.specs.FlowGraphs.{IsCycleFault};
ghost use Rattle.rv_instances.specs.Givers.{AreGivers};
ghost use Rattle.rv_instances.specs.Layouts.{IsLayout};
ghost use Rattle.rv_sequence.specs.Sequenced.{AreSequenced, IsSequenceFault};
ghost use Rattle.rv_sequence.specs.WeightTables.{IsNumbered};
ghost use Rattle.rv_instances.specs.Weights.{AreLight};
ghost use Rattle.rv_sequence.specs.WideNodes.{IsWideFault};

use crate::flow_graph::flow_graph;
use crate::sequence::evaluation;
use crate::weight_check::check_weights;
use rv_base::{Many, Place, Value};
use rv_calls::CauseFault;
use rv_instances::{
    Expanded, Flow, Giver, Instance, Layout, flows_in, givers_of, layout_of, places_of,
};
use rv_tree::Program;
use rv_types::{Typed, program_tables};
use std::alloc::Global;

/// A sequence of the flows of all instances, each after those that it needs, where no expression is too wide; otherwise a
/// cycle, or the least offset of one that is. `Memory` comes where memory runs out.
pub fn sequence_of(
    alloc: Global,
    p: &Program,
    t: &Typed,
    instances: &Many<Instance>,
) -> Result<Many<Place>, CauseFault>
    requires expanded { IsExpanded (program_tree p.now) (name_at (program_tree p.now) t.now.main) instances.now }
    requires constants { t.now.constants ≡ constant_values (program_tree p.now) }
    ensures sequence { IfOk result (AreSequenced (program_tree p.now) (name_at (program_tree p.now) t.now.main)) }
    ensures fault { IfErr result (IsSequenceFault (program_tree p.now) (name_at (program_tree p.now) t.now.main)) }
{
    let expanded = Expanded::new(alloc, p, t.main, instances)?;
    sequence_in(alloc, &expanded, t.constants.as_slice())
}

/// The same in a program with its instances.
fn sequence_in(
    alloc: Global,
    expanded: &Expanded,
    constants: &[Value],
) -> Result<Many<Place>, CauseFault>
    requires known { IsKnown expanded.now }
    requires constants { constants.now ≡ constant_values (program_of expanded.now) }
    ensures sequence { IfOk result (AreSequenced (program_of expanded.now) (main_of expanded.now)) }
    ensures fault { IfErr result (IsSequenceFault (program_of expanded.now) (main_of expanded.now)) }
{
    let layout = layout_of(alloc, expanded)?;
    sequence_by_layout(alloc, expanded, constants, &layout)
}

/// The same by the layout of the flows.
fn sequence_by_layout(
    alloc: Global,
    expanded: &Expanded,
    constants: &[Value],
    layout: &Layout,
) -> Result<Many<Place>, CauseFault>
    requires known { IsKnown expanded.now }
    requires constants { constants.now ≡ constant_values (program_of expanded.now) }
    requires layout { IsLayout (program_of expanded.now) (main_of expanded.now) expanded.now.instances.now layout.now }
    ensures sequence { IfOk result (AreSequenced (program_of expanded.now) (main_of expanded.now)) }
    ensures fault { IfErr result (IsSequenceFault (program_of expanded.now) (main_of expanded.now)) }
{
    let givers = givers_of(alloc, expanded, layout)?;
    sequence_by_givers(alloc, expanded, constants, layout, &givers)
}

/// The same by the layout of the flows and by what gives them their values.
fn sequence_by_givers(
    alloc: Global,
    expanded: &Expanded,
    constants: &[Value],
    layout: &Layout,
    givers: &Many<Giver>,
) -> Result<Many<Place>, CauseFault>
    requires known { IsKnown expanded.now }
    requires constants { constants.now ≡ constant_values (program_of expanded.now) }
    requires layout { IsLayout (program_of expanded.now) (main_of expanded.now) expanded.now.instances.now layout.now }
    requires givers { AreGivers (program_of expanded.now) (main_of expanded.now) expanded.now.instances.now givers.now }
    ensures sequence { IfOk result (AreSequenced (program_of expanded.now) (main_of expanded.now)) }
    ensures fault { IfErr result (IsSequenceFault (program_of expanded.now) (main_of expanded.now)) }
{
    let flows = flows_in(alloc, expanded)?;
    let numbers = match numbers_of(alloc, expanded, layout, givers, &flows) {
        Ok(numbers) => numbers,
        Err(fault) => return Err(fault),
    };
    match check_light(alloc, expanded, constants, layout, givers, &numbers) {
        Ok(()) => {}
        Err(fault) => return Err(fault),
    }
    let places = places_of(alloc, expanded.instances, &flows, numbers.as_slice())?;
    Ok(places)
}

/// Checks that no expression is too wide, or answers the least offset of one that is.
fn check_light(
    alloc: Global,
    expanded: &Expanded,
    constants: &[Value],
    layout: &Layout,
    givers: &Many<Giver>,
    numbers: &Many<u32>,
) -> Result<(), CauseFault>
    requires known { IsKnown expanded.now }
    requires constants { constants.now ≡ constant_values (program_of expanded.now) }
    requires layout { IsLayout (program_of expanded.now) (main_of expanded.now) expanded.now.instances.now layout.now }
    requires givers { AreGivers (program_of expanded.now) (main_of expanded.now) expanded.now.instances.now givers.now }
    requires numbered { IsNumbered (program_of expanded.now) (main_of expanded.now) expanded.now.instances.now numbers.now }
    ensures light { IfOk result (λ done. AreLight (program_of expanded.now) (main_of expanded.now)) }
    ensures wide { IfErr result (IsWideFault (program_of expanded.now) (main_of expanded.now)) }
{
    let tables = program_tables(alloc, expanded.program)?;
    let checked = check_weights(alloc, expanded, &tables, constants, layout, givers, numbers);
    drop(tables);
    checked
}

/// The numbers of the flows in such a sequence, or a cycle.
fn numbers_of(
    alloc: Global,
    expanded: &Expanded,
    layout: &Layout,
    givers: &Many<Giver>,
    flows: &Many<Flow>,
) -> Result<Many<u32>, CauseFault>
    requires known { IsKnown expanded.now }
    requires layout { IsLayout (program_of expanded.now) (main_of expanded.now) expanded.now.instances.now layout.now }
    requires givers { AreGivers (program_of expanded.now) (main_of expanded.now) expanded.now.instances.now givers.now }
    requires flows { flows.now ≡ all_flows (program_of expanded.now) expanded.now.instances.now }
    ensures numbered { IfOk result (IsNumbered (program_of expanded.now) (main_of expanded.now) expanded.now.instances.now) }
    ensures cycle { IfErr result (IsCycleFault (program_of expanded.now) (main_of expanded.now)) }
{
    let graph = flow_graph(alloc, expanded, layout, givers)?;
    evaluation(alloc, expanded.instances, flows, &graph)
}
