//! The partition into single control states.

ghost use Rattle.std.specs.Prelude.{◌≡◌, ◌*◌, ◌<◌, ◌≤◌, ◌^◌, All, length, IfOk, IfSome, OnOk, IsErrOf};
ghost use Rattle.rv_diagram.specs.Nodes.{IsRef, IsOrderedOver};
ghost use Rattle.rv_diagram.specs.Growing.{Extends};

use rv_base::Many;
use rv_diagram::{Frozen, Ref, Store, StoreFault};
use std::alloc::Global;

/// The most control states that get a part of their own.
const MOST: usize = 64;

/// The valuations of a reference at which a variable has this value, with what was built of it.
fn with_bit(store: &mut Store, all: Ref, variable: u32, value: bool) -> Result<Ref, StoreFault>
    requires all { IsRef store.old.nodes all }
    requires variable { variable < store.old.variables }
    ensures extends { Extends store.old store.new }
    ensures roomy { IsErrOf result StoreFault.Nodes → store.old.limit < 2 ^ (2 ^ store.old.variables) }
    ensures found { IfOk result (IsRef store.new.nodes) }
{
    let bit = store.variable(variable)?;
    if value {
        store.and(bit, all)
    } else {
        let never = store.constant(false);
        store.ite(bit, never, all)
    }
}

/// The control state of a valuation: one reference that is true where each state bit has the value that it has there. With what was built of it.
fn state_of(store: &mut Store, word: &Many<bool>, bits: usize) -> Result<Ref, StoreFault>
    requires word { length word.now ≡ store.old.variables }
    requires bits { 2 * bits ≤ store.old.variables }
    requires few { store.old.variables ≤ 4096 }
    ensures extends { Extends store.old store.new }
    ensures roomy { IsErrOf result StoreFault.Nodes → store.old.limit < 2 ^ (2 ^ store.old.variables) }
    ensures found { IfOk result (IsRef store.new.nodes) }
{
    let mut state = store.constant(true);
    for back in 0..bits {
        let variable = 2 * (bits - 1 - back);
        state = with_bit(store, state, variable as u32, *word.at(variable))?;
    }
    Ok(state)
}

/// Adds a control state as a part. What is left of a set of control states without it, with what was built of it.
fn take_state(
    store: &mut Store,
    parts: &mut Many<Frozen>,
    left: Ref,
    word: &Many<bool>,
    bits: usize,
) -> Result<Ref, StoreFault>
    requires parts { All (IsOrderedOver store.old.variables) parts.old }
    requires left { IsRef store.old.nodes left }
    requires word { length word.now ≡ store.old.variables }
    requires bits { 2 * bits ≤ store.old.variables }
    requires few { store.old.variables ≤ 4096 }
    ensures extends { Extends store.old store.new }
    ensures roomy { IsErrOf result StoreFault.Nodes → store.old.limit < 2 ^ (2 ^ store.old.variables) }
    ensures found { IfOk result (IsRef store.new.nodes) }
    ensures ordered { OnOk result (All (IsOrderedOver store.old.variables) parts.new) }
{
    let state = state_of(store, word, bits)?;
    let part = store.freeze(state)?;
    let never = store.constant(false);
    let rest = store.ite(state, never, left)?;
    parts.push(part)?;
    Ok(rest)
}

/// The control states of a set, each in a set of its own, or none where there are too many. Nodes comes where the store has no room for what is built on
/// the way, never where its limit holds every function of its variables, and Memory where there is none; what was built is left, after a fault too.
pub fn single_states(
    alloc: Global,
    store: &mut Store,
    bits: usize,
    set: &Frozen,
) -> Result<Option<Many<Frozen>>, StoreFault>
    requires bits { 2 * bits ≤ store.old.variables }
    requires few { store.old.variables ≤ 4096 }
    requires set { IsOrderedOver store.old.variables set.now }
    ensures extends { Extends store.old store.new }
    ensures roomy { IsErrOf result StoreFault.Nodes → store.old.limit < 2 ^ (2 ^ store.old.variables) }
    ensures ordered { IfOk result (λ o. IfSome o (All (IsOrderedOver store.old.variables))) }
{
    let mut left = store.thaw(set)?;
    let mut parts = Many::new(alloc);
    for _turn in 0..MOST {
        match store.pick(left)? {
            Some(word) => left = take_state(store, &mut parts, left, &word, bits)?,
            None => return Ok(Some(parts)),
        }
    }
    if store.is_false(left) {
        return Ok(Some(parts));
    }
    Ok(None)
}
