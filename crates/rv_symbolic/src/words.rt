//! The least valuations of sets in a store, as words, and what was built of them.

ghost use Rattle.std.specs.Prelude.{◌*◌, ◌<◌, ◌≤◌, ◌^◌, length, IfOk, IsErrOf};
ghost use Rattle.rv_diagram.specs.Nodes.{IsRef, IsOrderedOver};
ghost use Rattle.rv_diagram.specs.Several.{ArePartRefs};
ghost use Rattle.rv_diagram.specs.Growing.{Extends};
ghost use Rattle.rv_symbolic.specs.Growing.{Finds};
ghost use Rattle.rv_symbolic.specs.Words.{IsFirstOf, IsFalseAt, LeadsAt, AreMetWith};

use crate::cubes::cube;
use crate::steps;
use rv_base::Many;
use rv_diagram::{Frozen, Part, Ref, Store, StoreFault};

/// The first allowed valuation of a set at which the observer is false.
pub fn first_false(
    store: &mut Store,
    allowed: Ref,
    observer: Ref,
    from: &Frozen,
) -> Result<Option<Many<bool>>, StoreFault>
    requires allowed { IsRef store.old.nodes allowed }
    requires observer { IsRef store.old.nodes observer }
    requires from { IsOrderedOver store.old.variables from.now }
    ensures extends { Extends store.old store.new }
    ensures roomy { IsErrOf result StoreFault.Nodes → store.old.limit < 2 ^ (2 ^ store.old.variables) }
    ensures first { IfOk result (IsFirstOf store.old.variables (IsFalseAt store.old.nodes allowed observer from.now)) }
{
    let within = steps::allowed_within(store, allowed, observer, from)?;
    Ok(store.pick(within.bad)?)
}

/// The valuations of a set at which all parts of a relation are true.
fn met(store: &mut Store, set: Ref, links: &[Part]) -> Result<Ref, StoreFault>
    requires set { IsRef store.old.nodes set }
    requires links { ArePartRefs store.old.nodes links.now }
    ensures extends { Extends store.old store.new }
    ensures roomy { IsErrOf result StoreFault.Nodes → store.old.limit < 2 ^ (2 ^ store.old.variables) }
    ensures ok { IfOk result (λ r. Finds store.old store.new (AreMetWith store.old.nodes set links.now (length links.now)) r) }
{
    let mut whole = set;
    for part in links {
        whole = store.and(whole, part.relation)?;
    }
    Ok(whole)
}

/// The first allowed valuation of a set from which the relation leads to the control state of a word. Set and cube are joined first, so
/// that each part of the relation is met under them.
pub fn first_leading(
    store: &mut Store,
    allowed: Ref,
    links: &[Part],
    from: &Frozen,
    to: &[bool],
    bits: u32,
) -> Result<Option<Many<bool>>, StoreFault>
    requires allowed { IsRef store.old.nodes allowed }
    requires links { ArePartRefs store.old.nodes links.now }
    requires from { IsOrderedOver store.old.variables from.now }
    requires to { 2 * bits ≤ length to.now }
    requires low { 2 * bits ≤ store.old.variables }
    requires few { store.old.variables ≤ 4096 }
    ensures extends { Extends store.old store.new }
    ensures roomy { IsErrOf result StoreFault.Nodes → store.old.limit < 2 ^ (2 ^ store.old.variables) }
    ensures first { IfOk result (IsFirstOf store.old.variables (LeadsAt store.old.nodes allowed links.now from.now to.now bits)) }
{
    let within = steps::within(store, allowed, from)?;
    let state = cube(store, to, bits)?;
    let both = store.and(within, state)?;
    let leading = met(store, both, links)?;
    Ok(store.pick(leading)?)
}
