//! The weights of the flows of all instances.

ghost use Rattle.std.specs.Prelude.{◌≡◌, ◌<◌, length, IfOk};
ghost use Rattle.rv_tree.specs.Tree.{node_tree};
ghost use Rattle.rv_types.specs.Scopes.{constant_value};
ghost use Rattle.rv_types.specs.ValueTables.{value_by};
ghost use Rattle.rv_instances.specs.Expanded.{IsKnown, program_of, main_of};
ghost use Rattle.rv_instances.specs.Givers.{AreGivers};
ghost use Rattle.rv_instances.specs.Layouts.{IsLayout, node_at};
ghost use Rattle.rv_sequence.specs.Weighing.{weighing};
ghost use Rattle.rv_sequence.specs.WeightTables.{weighing_at, told_weight, counted_weight, IsToldWithin, IsNumbered, AreFlowWeights};

use crate::weights::{Weigher, output_number, weigh, weight_at};
use rv_base::{Many, Memory};
use rv_instances::{Expanded, Giver, Layout, all_equal};
use rv_types::NamedValues;
use std::alloc::Global;

/// The weights of the flows of all instances, by their numbers, where any above 2^40 counts as 2^40 + 1. The sequence
/// has the numbers of all flows, each after those that it needs.
pub fn flow_weights(
    alloc: Global,
    expanded: &Expanded,
    values: &NamedValues,
    layout: &Layout,
    givers: &Many<Giver>,
    sequence: &Many<u32>,
) -> Result<Many<u64>, Memory>
    requires known { IsKnown expanded.now }
    requires values { value_by values.now ≡ constant_value (program_of expanded.now) }
    requires layout { IsLayout (program_of expanded.now) (main_of expanded.now) expanded.now.instances.now layout.now }
    requires givers { AreGivers (program_of expanded.now) (main_of expanded.now) expanded.now.instances.now givers.now }
    requires sequence { IsNumbered (program_of expanded.now) (main_of expanded.now) expanded.now.instances.now sequence.now }
    ensures { IfOk result (AreFlowWeights (program_of expanded.now) (main_of expanded.now) expanded.now.instances.now) }
{
    let mut weights = all_equal(alloc, givers.len(), 0)?;
    for number in sequence.as_slice() {
        let giver = givers.at(*number as usize);
        let weight = giver_weight(expanded, values, layout, weights.as_slice(), giver);
        weights.set(*number as usize, weight);
    }
    Ok(weights)
}

/// What the weights of the expressions of an instance depend on.
pub fn weigher<'a>(
    expanded: &'a Expanded<'a, 'a>,
    values: &'a NamedValues<'a>,
    layout: &'a Layout,
    weights: &'a [u64],
    instance: u32,
) -> Weigher<'a>
    requires known { IsKnown expanded.now }
    requires within { instance < length expanded.now.instances.now }
    ensures node { node_tree result.clocks.now.node.now ≡ node_at (program_of expanded.now) expanded.now.instances.now instance }
    ensures tables { weighing result ≡ weighing_at (program_of expanded.now) expanded.now.instances.now values.now layout.now weights.now instance }
{
    Weigher {
        clocks: expanded.clocks(instance),
        values,
        weights,
        layout,
        instance,
    }
}

/// The weight that a giver gives its flow.
fn giver_weight(
    expanded: &Expanded,
    values: &NamedValues,
    layout: &Layout,
    weights: &[u64],
    giver: &Giver,
) -> u64
    requires known { IsKnown expanded.now }
    requires within { IsToldWithin (length expanded.now.instances.now) giver.now }
    ensures { result ≡ counted_weight (told_weight (program_of expanded.now) expanded.now.instances.now values.now layout.now weights.now giver.now) }
{
    match giver {
        Giver::Input(_) => 1,
        Giver::Body(body) => {
            let w = weigher(expanded, values, layout, weights, body.instance);
            weigh(&w, false, body.body).weight
        }
        Giver::Output(output) => {
            let first = output_number(layout, output.instance, output.call.site.unwrap_or(0));
            weight_at(weights, first as usize + output.output)
        }
    }
}
