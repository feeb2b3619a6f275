//! The hunt for a trace that falsifies, by runs of the flat system with inputs by chance.

ghost use Rattle.std.specs.Prelude.{◌≡◌, ◌+◌, ℕ, Ok, Some, length};
ghost use Rattle.rv_base.specs.declared.value.Trace.{Trace as TraceModel};
ghost use Rattle.rv_tree.specs.Tree.{program_tree};
ghost use Rattle.rv_types.specs.Instances.{name_at};
ghost use Rattle.rv_flat.specs.FlatOf.{IsFlatOf};
ghost use Rattle.rv_flat.specs.Steps.{memory_kinds as kinds_of_memories};
ghost use Rattle.rv_replay.specs.Replays.{IsFalsifiedAt};
ghost use Rattle.rv_replay.specs.Traces.{IsTrace};

use crate::confirming::confirmed;
use crate::inputs::{first_values, varied};
use crate::runs::Search;
use crate::shortening::shortened;
use crate::typed::{are_values, input_kinds, memory_kinds};
use rv_base::{Many, Memory, Trace, Value};
use rv_flat::Flat;
use rv_instances::Source;
use rv_step::start;
use rv_types::Kind;
use std::alloc::Global;

/// How many states of the start there are whose memories hold values by chance, beside the one in which each holds the first of its type.
const STARTS: u32 = 7;

/// How many instants are run at most to make a trace shorter.
const SHORTENING: u32 = 100_000;

/// Adds starts whose memories hold values by chance.
fn add_starts(
    alloc: Global,
    flat: &Flat,
    memories: &[Kind],
    values: &Many<Value>,
    search: &mut Search,
) -> Result<(), Memory>
    requires memories { memories.now ≡ kinds_of_memories flat.now }
{
    for _ in 0..STARTS {
        let other = varied(alloc, flat, memories, values, 1, &mut search.chance)?;
        if are_values(flat, memories, other.as_slice()) {
            let state = start(alloc, flat, &other)?;
            search.add_start(alloc, flat, &state)?;
        }
    }
    Ok(())
}

/// A trace whose last instant has a false observer, as the search tells it, made shorter; none where it finds none within so many instants.
fn searched(alloc: Global, flat: &Flat, instants: u32) -> Result<Option<Trace>, Memory> {
    let memories = memory_kinds(alloc, flat)?;
    let inputs = input_kinds(alloc, flat)?;
    let (memories, inputs) = (memories.as_slice(), inputs.as_slice());
    let values = first_values(alloc, memories)?;
    if !are_values(flat, memories, values.as_slice()) {
        return Ok(None);
    }
    let first = start(alloc, flat, &values)?;
    let mut search = Search::new(alloc, instants)?;
    search.add_start(alloc, flat, &first)?;
    add_starts(alloc, flat, memories, &values, &mut search)?;
    for _ in 0..instants {
        if search.left == 0 {
            return Ok(None);
        }
        if let Some(trace) = search.run(alloc, flat, memories, inputs, &first)? {
            let left = search.left.min(SHORTENING);
            return Ok(Some(shortened(alloc, flat, memories, inputs, trace, left)?));
        }
    }
    Ok(None)
}

/// A trace that falsifies a source, cut after the instant at which its replay says so, where so many instants of runs by chance come to one;
/// no answer promises nothing. `flat` is the flat system of the source. The runs begin at states that were found, and inputs keep their
/// values or change by chance, in one sequence of numbers that is the same at each call. `Memory` comes where memory runs out. Time grows
/// with the instants times the flat system, and room with the instants on the ways to 4,096 states.
pub fn hunt(
    alloc: Global,
    source: &Source,
    flat: &Flat,
    steps: u32,
) -> Result<Option<Trace>, Memory>
    requires flat { IsFlatOf (program_tree source.now.program) (name_at (program_tree source.now.program) source.now.typed.main) flat.now }
    ensures falsifies { (t : TraceModel) → result ≡ Ok (Some t)
        → IsTrace (program_tree source.now.program) (name_at (program_tree source.now.program) source.now.typed.main) t
        × ((last : ℕ) × (length t.instants ≡ last + 1)
        × IsFalsifiedAt (program_tree source.now.program) (name_at (program_tree source.now.program) source.now.typed.main) t last) }
{
    match searched(alloc, flat, steps)? {
        Some(trace) => confirmed(alloc, source, flat, trace),
        None => Ok(None),
    }
}
