//! How many cases a source has.

ghost use Rattle.rv_tree.specs.Tree.{ProgramTree};
ghost use Rattle.rv_tree.specs.Places.{Identifier};
ghost use Rattle.rv_types.specs.Instances.{IsNode};
ghost use Rattle.rv_types.specs.WellFormed.{AreWell};
ghost use Rattle.rv_flat.specs.FlatOf.{IsFlatOf};

use rv_base::{Many, Memory};
use rv_diagram::{Frozen, StoreFault};
use rv_flat::Flat;
use rv_flatten::flatten;
use rv_reading::Reading;
use rv_source::read_source;
use rv_syntax::SOURCE_LIMIT;
use rv_types::well_formed_programs;
use std::alloc::Global;

/// How many nodes the diagrams may have.
const NODES: u32 = 200_000;

/// What is counted: the cases of the initial control states and those of all.
#[derive(Debug, Drop)]
pub struct Counted {
    pub initial: usize,
    pub all: usize,
}

/// How the counting ended.
#[derive(Debug, Drop)]
pub enum Ended {
    Counted(Counted),
    /// The text is no source that is accepted.
    NoSource,
    /// The diagrams grew past their limit.
    Nodes,
}

/// The cases of a flat system.
fn cases_of(alloc: Global, flat: &Flat) -> Result<Counted, StoreFault>
    requires program { (program : ProgramTree) × (main : Identifier) × AreWell program × IsNode program main × IsFlatOf program main flat.now }
{
    let mut reading = Reading::new(alloc, flat, NODES)?;
    let first = reading.initial()?;
    let initial = reading.cases(&first)?;
    let every = Frozen {
        nodes: Many::new(alloc),
        root: 1,
    };
    let all = reading.cases(&every)?;
    Ok(Counted {
        initial: initial.len(),
        all: all.len(),
    })
}

/// The cases of the source with the main node `main`.
pub fn count_cases(alloc: Global, text: &str) -> Result<Ended, Memory> {
    if text.len() > SOURCE_LIMIT {
        return Ok(Ended::NoSource);
    }
    well_formed_programs();
    let Ok(source) = read_source(alloc, text.as_bytes(), "main") else {
        return Ok(Ended::NoSource);
    };
    let flat = flatten(alloc, &source)?;
    match cases_of(alloc, &flat) {
        Ok(counted) => Ok(Ended::Counted(counted)),
        Err(StoreFault::Nodes) => Ok(Ended::Nodes),
        Err(StoreFault::Memory) => Err(Memory::Memory),
    }
}
