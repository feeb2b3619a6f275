//! The memories of a flat system.

ghost use Rattle.std.specs.Prelude.{◌≡◌, IfOk};
ghost use Rattle.rv_flatten.specs.Building.{AreRemembered, IsFoundOf, IsGiven, IsRemembered, main_given, numbers_of, program_given};
ghost use Rattle.rv_flat.specs.Systems.{memory_of};
ghost use Rattle.rv_flatten.specs.Kept.{IsKept, kept_memory};
ghost use Rattle.rv_types.specs.Lists.{sites_of};

use crate::flows::copied;
use crate::found::Found;
use crate::given::Given;
use crate::items::delay_item;
use crate::kept::Kept;
use rv_base::{Many, Memory};
use rv_flat::FlatMemory;
use std::alloc::Global;

/// The memories of a program in the order of their places.
pub fn flat_memories(
    alloc: Global,
    given: &Given,
    found: &Found,
) -> Result<Many<FlatMemory>, Memory>
    requires given { IsGiven given.now }
    requires found { IsFoundOf given.now found.now }
    ensures { IfOk result (AreRemembered given.now.expanded.now (sites_of given.now.sequence.now) found.now) }
{
    let mut memories = Many::new(alloc);
    for kept in found.kept.as_slice() {
        let memory = flat_memory(alloc, given, found, kept)?;
        memories.push(memory)?;
    }
    Ok(memories)
}

/// A memory of a program.
fn flat_memory(
    alloc: Global,
    given: &Given,
    found: &Found,
    kept: &Kept,
) -> Result<FlatMemory, Memory>
    requires given { IsGiven given.now }
    requires found { IsFoundOf given.now found.now }
    requires kept { IsKept (program_given given.now) (main_given given.now) given.now.expanded.now.instances.now kept.now }
    ensures memory { IfOk result (λ m. memory_of m ≡ kept_memory kept.now) }
    ensures item { IfOk result (IsRemembered (program_given given.now) (main_given given.now) (numbers_of given.now found.now)) }
{
    let item = delay_item(
        alloc,
        given.expanded,
        given.layout,
        given.tables,
        given.owns,
        given.values,
        &found.numbering,
        kept.instance,
        kept.operand,
        kept.clock,
    )?;
    let place = copied(&kept.place)?;
    Ok(FlatMemory {
        place,
        kind: kept.kind,
        clock: item.clock,
        body: item.body,
    })
}
