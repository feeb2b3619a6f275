//! What is found of a program before its flat system is put together.

ghost use Rattle.std.specs.Prelude.{◌≡◌, ◌<◌, ℕ, map, length, slice_index_or, IfOk};
ghost use Rattle.std.specs.List.{Contains};
ghost use Rattle.rv_types.specs.Lists.{AreTicks, sites_of};
ghost use Rattle.rv_types.specs.Needs.{IsSequence};
ghost use Rattle.rv_types.specs.Readings.{AreTables};
ghost use Rattle.rv_instances.specs.AllInstances.{AreCounted};
ghost use Rattle.rv_instances.specs.Expanded.{IsKnown, program_of, main_of};
ghost use Rattle.rv_instances.specs.Fitting.{AreFew};
ghost use Rattle.rv_instances.specs.Flowing.{place_at};
ghost use Rattle.rv_instances.specs.Layouts.{IsLayout, all_places};
ghost use Rattle.rv_flatten.specs.Building.{IsFound};
ghost use Rattle.rv_flatten.specs.Frames.{IsNumbering};
ghost use Rattle.rv_flatten.specs.Kept.{AreKept};
ghost use Rattle.rv_flatten.specs.Positions.{AreNumbersOf};

use crate::comparisons::comparisons_of;
use crate::expressions::number_at;
use crate::kept::{Comparison, Kept};
use crate::memories::{few_memories, kept_of, memory_numbers};
use crate::numbering::Numbering;
use crate::positions::{flow_count, flow_numbers, positions};
use crate::ticks::{tick_numbers, ticks_of};
use rv_base::{Many, Memory, Place};
use rv_instances::{Expanded, Layout, flow_places, flows_in, places_of};
use rv_types::ProgramTables;
use std::alloc::Global;

/// The memories, ticks and comparisons of all instances, in the order of their places; for each flow of the sequence its
/// number in the layout; the numbers of flows, ticks and memories in the flat system; and for each tick the number of the flow
/// of its clock there.
#[derive(Drop)]
pub struct Found<'a> {
    pub kept: Many<Kept<'a>>,
    pub ticks: Many<Place>,
    pub comparisons: Many<Comparison>,
    pub order: Many<u32>,
    pub numbering: Numbering,
    pub tick_flows: Many<u32>,
}

/// What is found of a program with this order of evaluation.
pub fn found_in<'a>(
    alloc: Global,
    expanded: &Expanded<'a, '_>,
    layout: &Layout,
    tables: &ProgramTables,
    sequence: &[Place],
) -> Result<Found<'a>, Memory>
    requires known { IsKnown expanded.now }
    requires layout { IsLayout (program_of expanded.now) (main_of expanded.now) expanded.now.instances.now layout.now }
    requires tables { AreTables (program_of expanded.now) tables.now }
    requires counted { AreCounted (program_of expanded.now) (main_of expanded.now) }
    requires limits { AreFew (program_of expanded.now) (main_of expanded.now) }
    requires sequence { IsSequence (program_of expanded.now) (main_of expanded.now) (sites_of sequence.now) }
    ensures { IfOk result (IsFound expanded.now (sites_of sequence.now)) }
{
    let kept = kept_of(alloc, expanded, tables)?;
    let comparisons = comparisons_of(alloc, expanded, tables)?;
    let ticking = ticks_of(alloc, expanded, layout)?;
    let ticks = tick_places(alloc, expanded, &ticking)?;
    let order = flow_numbers(alloc, layout, sequence)?;
    let numbering = numbered(alloc, expanded, layout, sequence, &order, &ticking, &kept)?;
    let tick_flows = numbers_at(alloc, &numbering.flows, ticking.as_slice())?;
    Ok(Found {
        kept,
        ticks,
        comparisons,
        order,
        numbering,
        tick_flows,
    })
}

/// The places of flows by their numbers.
fn tick_places(
    alloc: Global,
    expanded: &Expanded,
    ticking: &Many<u32>,
) -> Result<Many<Place>, Memory>
    requires known { IsKnown expanded.now }
    requires within { (k : ℕ) → Contains ticking.now k → k < length (all_places (program_of expanded.now) expanded.now.instances.now) }
    ensures { IfOk result (λ ps. sites_of ps ≡ map (place_at (all_places (program_of expanded.now) expanded.now.instances.now)) ticking.now) }
{
    let flows = flows_in(alloc, expanded)?;
    let places = places_of(alloc, expanded.instances, &flows, ticking.as_slice())?;
    Ok(places)
}

/// What stands at some numbers, 0 where nothing does.
fn numbers_at(alloc: Global, numbers: &Many<u32>, at: &[u32]) -> Result<Many<u32>, Memory>
    ensures { IfOk result (λ found. found ≡ map (λ k. slice_index_or numbers.now k 0) at.now) }
{
    let mut found = Many::new(alloc);
    for k in at {
        found.push(number_at(numbers, *k as usize))?;
    }
    Ok(found)
}

/// The numbers of flows, ticks and memories in the flat system.
fn numbered(
    alloc: Global,
    expanded: &Expanded,
    layout: &Layout,
    sequence: &[Place],
    order: &Many<u32>,
    ticking: &Many<u32>,
    kept: &Many<Kept>,
) -> Result<Numbering, Memory>
    requires known { IsKnown expanded.now }
    requires layout { IsLayout (program_of expanded.now) (main_of expanded.now) expanded.now.instances.now layout.now }
    requires counted { AreCounted (program_of expanded.now) (main_of expanded.now) }
    requires limits { AreFew (program_of expanded.now) (main_of expanded.now) }
    requires sequence { IsSequence (program_of expanded.now) (main_of expanded.now) (sites_of sequence.now) }
    requires order { AreNumbersOf (all_places (program_of expanded.now) expanded.now.instances.now) (sites_of sequence.now) order.now }
    requires within { (k : ℕ) → Contains ticking.now k → k < length (all_places (program_of expanded.now) expanded.now.instances.now) }
    requires ticks { AreTicks (program_of expanded.now) (main_of expanded.now)
        (map (place_at (all_places (program_of expanded.now) expanded.now.instances.now)) ticking.now) }
    requires kept { AreKept (program_of expanded.now) (main_of expanded.now) expanded.now.instances.now kept.now }
    ensures { IfOk result (IsNumbering (program_of expanded.now) (main_of expanded.now) expanded.now.instances.now (record {
      flows = sites_of sequence.now;
      memories = map (λ k. k.place.sites) kept.now;
      ticks = map (place_at (all_places (program_of expanded.now) expanded.now.instances.now)) ticking.now;
    })) }
{
    flow_places();
    few_memories();
    let _ = sequence;
    let count = flow_count(expanded, layout);
    let flows = positions(alloc, count, order.as_slice())?;
    let ticks = tick_numbers(alloc, count, ticking.as_slice())?;
    let memories = memory_numbers(alloc, kept.as_slice())?;
    Ok(Numbering {
        flows,
        ticks,
        memories,
    })
}
