//! Where the observer of a flat system is false, as a diagram.

ghost use Rattle.rv_agreement.specs.Agreement.{IsWell};
ghost use Rattle.rv_flat.specs.FlatInstants.{system_of};

use rv_base::Memory;
use rv_bits::read_system;
use rv_diagram::{Frozen, Store, StoreFault};
use rv_flat::Flat;
use std::alloc::Global;

/// The most nodes of the diagrams by which that is seen.
const NODES: u32 = 1_000_000;

/// The valuations that the assertions allow and at which the observer is false, whatever integers there are. None where its diagrams would
/// have more than a million nodes.
pub fn unobserved(alloc: Global, flat: &Flat) -> Result<Option<Frozen>, Memory>
    requires { IsWell (system_of flat.now) }
{
    match frozen(alloc, flat) {
        Ok(set) => Ok(Some(set)),
        Err(StoreFault::Nodes) => Ok(None),
        Err(StoreFault::Memory) => Err(Memory::Memory),
    }
}

/// The same, or why it has no diagram.
fn frozen(alloc: Global, flat: &Flat) -> Result<Frozen, StoreFault>
    requires { IsWell (system_of flat.now) }
{
    let mut store = Store::new(alloc, flat.variables.len() as u32, NODES)?;
    let read = read_system(alloc, &mut store, flat)?;
    let fails = store.not(read.parts.observer)?;
    let both = store.and(fails, read.parts.allowed)?;
    Ok(store.freeze(both)?)
}
