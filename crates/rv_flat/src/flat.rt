//! The flat system: the flows of a program by numbers, each given by an expression over earlier ones.

ghost use Rattle.std.specs.Prelude.{◌<◌, ◌≤◌, length, map, IsTrue, Option, slice_get};
ghost use Rattle.rv_tree.specs.Places.{Sites, is_same};
ghost use Rattle.rv_types.specs.declared.typed.Kind.TheVariants as kind;
ghost use Rattle.rv_agreement.specs.Agreement.{AreApart};
ghost use Rattle.rv_agreement.specs.Checks.{are_distinct, assertions_fit, clocks_fit, flows_fit, is_of, memories_fit, same_flow, same_sites};
ghost use Rattle.rv_flat.specs.Facts.{all_few, flow_weights, integers, items_light, numbers_among, ticks_known};
ghost use Rattle.rv_flat.specs.Inlined.{all_end};
ghost use Rattle.rv_flat.specs.Lists.{tick_places};
ghost use Rattle.rv_flat.specs.Systems.{assertion_item, flow_item, flow_kinds_of, kept_of, memory_item, memory_places_of, places_of, system_from};
ghost use Rattle.rv_flat.specs.Systems.{tick_clocks_of, tick_flows_of};

use crate::parts::{Bit, Column, FlatExpr, FlatFlow, FlatInput, FlatMemory};
use rv_base::{Many, Text};

/// A program as one system of equations, by numbers: its diagram variables and columns, its memories in the order of their
/// places, the inputs of its main node, its flows in an order of evaluation, its assertions, the number of the observer among
/// the flows, the main node's name, for each type declaration its labels, the thresholds of its bounds in rising order, the
/// number of its expressions, and for each tick but the main one, in the order of the variables, the number of the flow of
/// its clock.
#[derive(Debug, Drop)]
pub struct Flat {
    pub variables: Many<Bit>,
    pub columns: Many<Column>,
    pub memories: Many<FlatMemory>,
    pub inputs: Many<FlatInput>,
    pub flows: Many<FlatFlow>,
    pub assertions: Many<FlatExpr>,
    pub observer: u32,
    pub main: Text,
    pub labels: Many<Many<Text>>,
    pub thresholds: Many<i128>,
    pub expanded: u64,
    pub tick_flows: Many<u32>,
    pub ghost ends: { IsTrue (all_end memories (length memories)) },
    pub ghost flows_fit: { IsTrue (flows_fit (system_from flows memories inputs assertions variables labels observer) 0 (map (flow_item memories) flows)) },
    pub ghost memories_fit: { IsTrue (memories_fit (system_from flows memories inputs assertions variables labels observer)
        (map (kept_of memories) memories)) },
    pub ghost assertions_fit: { IsTrue (assertions_fit (system_from flows memories inputs assertions variables labels observer)
        (map (assertion_item memories) assertions)) },
    pub ghost observed: { IsTrue (is_of kind.Bool (slice_get (flow_kinds_of flows) observer)) },
    pub ghost ticks: { IsTrue (ticks_known (places_of flows) (tick_places variables)) },
    pub ghost tick_numbers: { IsTrue (is_same tick_flows (numbers_among (places_of flows) (tick_places variables))) },
    pub ghost tick_clocks: { IsTrue (clocks_fit (system_from flows memories inputs assertions variables labels observer) (tick_clocks_of flows variables)) },
    pub ghost ticks_apart: { IsTrue (are_distinct (Option Sites) same_flow (tick_flows_of variables)) },
    pub ghost memories_apart: { IsTrue (are_distinct Sites same_sites (memory_places_of memories)) },
    pub ghost comparisons_apart: { ∥ AreApart (system_from flows memories inputs assertions variables labels observer) ∥₁ },
    pub ghost flows_light: { IsTrue (items_light (flow_weights (map (flow_item memories) flows)) (map (flow_item memories) flows)) },
    pub ghost memories_light: { IsTrue (items_light (flow_weights (map (flow_item memories) flows)) (map (memory_item memories) memories)) },
    pub ghost assertions_light: { IsTrue (items_light (flow_weights (map (flow_item memories) flows)) (map (assertion_item memories) assertions)) },
    pub ghost few_variables: { length variables ≤ 4096 },
    pub ghost few_memories: { integers (map (λ m. m.kind) memories) ≤ 64 },
    pub ghost few_inputs: { integers (map (λ i. i.kind) inputs) ≤ 64 },
    pub ghost few_labels: { IsTrue (all_few 256 labels) },
    pub ghost few_expressions: { expanded ≤ 200000 },
}
