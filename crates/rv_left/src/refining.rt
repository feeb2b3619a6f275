//! Parts that are split until each one in which the observer may be false has one control state, or there are as many as may be. The store is left as
//! it was.

ghost use Rattle.std.specs.Prelude.{◌≡◌, ◌↔◌, ℕ, ◌+◌, ◌*◌, ◌<◌, ◌≤◌, ◌^◌, length, slice_index, IfOk, IsErrOf};
ghost use Rattle.rv_diagram.specs.Nodes.{Valuation, IsOrderedOver};
ghost use Rattle.rv_split.specs.Partitions.{IsPartition, IsStateSet, IsInSome, part_at};
ghost use Rattle.rv_left.specs.Turns.{IsTurned, IsEnded, AreMarked};
ghost use Rattle.rv_left.specs.Meeting.{Meets};
ghost use Rattle.rv_walk.specs.Ends.{has};

use crate::meeting::sets_meet;
use rv_base::{Many, Memory};
use rv_diagram::{Frozen, Store, StoreFault};
use rv_proofs::Why;
use rv_split::{Partition, SplitFault};
use std::alloc::Global;

/// The state variables of so many state bits, in rising order.
pub fn state_variables(alloc: Global, bits: u32) -> Result<Many<u32>, Memory>
    requires { bits ≤ 4096 }
    ensures size { IfOk result (λ state. length state ≡ bits) }
    ensures each { IfOk result (λ state. (i : ℕ) → i < bits → slice_index state i ≡ 2 * i) }
{
    let mut state = Many::new(alloc);
    for i in 0..bits {
        state.push(2 * i)?;
    }
    Ok(state)
}

/// Splits a part. The number of the part that is next: the same one after a split, and the one after it where the part has one control state. None
/// where there are as many parts as may be.
fn divide(
    partition: &mut Partition,
    store: &mut Store,
    at: u32,
    failing: &Frozen,
) -> Result<Option<u32>, StoreFault>
    requires partition { IsPartition store.old.variables partition.old }
    requires at { at < length partition.old.parts }
    requires few { partition.old.limit ≤ 4096 }
    requires failing { IsStateSet store.old.variables partition.old.state failing.now }
    ensures turned { IfOk result (IsTurned partition.old.limit partition.old.state failing.now partition.old.parts partition.new.parts at) }
    ensures partition { IsPartition store.old.variables partition.new }
    ensures union { (v : Valuation) → IsInSome partition.new.parts v ↔ IsInSome partition.old.parts v }
    ensures state { partition.new.state ≡ partition.old.state }
    ensures limit { partition.new.limit ≡ partition.old.limit }
    ensures same { store.new ≡ store.old }
    ensures roomy { IsErrOf result StoreFault.Nodes → store.old.limit < 2 ^ (2 ^ store.old.variables) }
{
    match partition.split(store, at, failing) {
        Ok(()) => Ok(Some(at)),
        Err(SplitFault::AtLimit) => Ok(None),
        Err(SplitFault::Single) => Ok(Some(at + 1)),
        Err(SplitFault::Nodes) => Err(StoreFault::Nodes),
        Err(SplitFault::Memory) => Err(StoreFault::Memory),
    }
}

/// Splits a part in which the observer may be false, and passes over each other one.
fn turn(
    partition: &mut Partition,
    store: &mut Store,
    at: u32,
    failing: &Frozen,
) -> Result<Option<u32>, StoreFault>
    requires partition { IsPartition store.old.variables partition.old }
    requires at { at < length partition.old.parts }
    requires few { partition.old.limit ≤ 4096 }
    requires failing { IsStateSet store.old.variables partition.old.state failing.now }
    ensures turned { IfOk result (IsTurned partition.old.limit partition.old.state failing.now partition.old.parts partition.new.parts at) }
    ensures partition { IsPartition store.old.variables partition.new }
    ensures union { (v : Valuation) → IsInSome partition.new.parts v ↔ IsInSome partition.old.parts v }
    ensures state { partition.new.state ≡ partition.old.state }
    ensures limit { partition.new.limit ≡ partition.old.limit }
    ensures same { store.new ≡ store.old }
    ensures roomy { IsErrOf result StoreFault.Nodes → store.old.limit < 2 ^ (2 ^ store.old.variables) }
{
    let fails = sets_meet(store, partition.parts.at(at as usize), failing)?;
    if !fails {
        return Ok(Some(at + 1));
    }
    divide(partition, store, at, failing)
}

/// Splits parts, first to last, new ones at the end, and answers why nothing more is split: Locations where there are as many parts as may be, and
/// Stuck where each part in which the observer may be false has one control state. Nodes comes where the store has no room for what is built on the way,
/// never where its limit holds every function of its variables, and Memory where there is none.
pub fn refine(
    partition: &mut Partition,
    store: &mut Store,
    failing: &Frozen,
) -> Result<Why, StoreFault>
    requires partition { IsPartition store.old.variables partition.old }
    requires few { partition.old.limit ≤ 4096 }
    requires failing { IsStateSet store.old.variables partition.old.state failing.now }
    ensures ended { IfOk result (IsEnded partition.old.limit partition.old.state failing.now partition.new.parts) }
    ensures partition { IfOk result (λ why. IsPartition store.old.variables partition.new) }
    ensures union { IfOk result (λ why. (v : Valuation) → IsInSome partition.new.parts v ↔ IsInSome partition.old.parts v) }
    ensures state { IfOk result (λ why. partition.new.state ≡ partition.old.state) }
    ensures limit { IfOk result (λ why. partition.new.limit ≡ partition.old.limit) }
    ensures same { store.new ≡ store.old }
    ensures roomy { IsErrOf result StoreFault.Nodes → store.old.limit < 2 ^ (2 ^ store.old.variables) }
{
    let mut at = 0u32;
    while (at as usize) < partition.parts.len() {
        let next = turn(partition, store, at, failing)?;
        let Some(next) = next else {
            return Ok(Why::Locations(partition.limit));
        };
        at = next;
    }
    Ok(Why::Stuck)
}

/// Adds the number of a part where the observer may be false in it.
fn mark_part(
    store: &mut Store,
    left: &mut Many<u32>,
    parts: &[Frozen],
    failing: &Frozen,
    k: usize,
) -> Result<(), StoreFault>
    requires parts { IsOrderedOver store.old.variables (part_at parts.now k) }
    requires failing { IsOrderedOver store.old.variables failing.now }
    requires low { k < length parts.now }
    requires few { k < 4294967296 }
    ensures marked { AreMarked parts.now failing.now k left.old → IfOk result (λ u. AreMarked parts.now failing.now (k + 1) left.new) }
    ensures same { store.new ≡ store.old }
    ensures roomy { IsErrOf result StoreFault.Nodes → store.old.limit < 2 ^ (2 ^ store.old.variables) }
{
    let fails = sets_meet(store, &parts[k], failing)?;
    if !fails {
        return Ok(());
    }
    left.push(k as u32)?;
    Ok(())
}

/// The numbers of the parts in which the observer may be false, in rising order.
pub fn left_parts(
    alloc: Global,
    store: &mut Store,
    parts: &[Frozen],
    failing: &Frozen,
) -> Result<Many<u32>, StoreFault>
    requires parts { (k : ℕ) → k < length parts.now → IsOrderedOver store.old.variables (part_at parts.now k) }
    requires failing { IsOrderedOver store.old.variables failing.now }
    requires few { length parts.now ≤ 4096 }
    ensures marked { IfOk result (AreMarked parts.now failing.now (length parts.now)) }
    ensures same { store.new ≡ store.old }
    ensures roomy { IsErrOf result StoreFault.Nodes → store.old.limit < 2 ^ (2 ^ store.old.variables) }
{
    let mut left = Many::new(alloc);
    for k in 0..parts.len() {
        mark_part(store, &mut left, parts, failing, k)?;
    }
    Ok(left)
}
