//! Where the next control state is in a set, and the observer is true or the claim takes the valuation.

ghost use Rattle.std.specs.Prelude.{◌<◌, ◌^◌, IfOk, IsErrOf, List};
ghost use Rattle.rv_diagram.specs.declared.Triple.{Triple as TripleModel};
ghost use Rattle.rv_diagram.specs.Nodes.{IsRef};
ghost use Rattle.rv_diagram.specs.Growing.{Extends};
ghost use Rattle.rv_cases.specs.Conditions.{AreRefs};
ghost use Rattle.rv_symbolic.specs.Represented.{HaveRefs};

use crate::refs::{both, either};
use rv_diagram::{Frozen, Ref, Store, StoreFault, Triple};
use rv_symbolic::Parts;
use std::alloc::Global;

/// The reference with this number, false where there is none.
fn ref_of(refs: &[Ref], place: usize) -> Ref
    ensures { (nodes : List TripleModel) → AreRefs nodes refs.now → IsRef nodes result }
{
    if place < refs.len() { refs[place] } else { 0 }
}

/// What a child of a node has become.
fn child_of(made: &[Ref], r: u32) -> Ref
    ensures { (nodes : List TripleModel) → AreRefs nodes made.now → IsRef nodes result }
{
    if r < 2 {
        r
    } else {
        ref_of(made, r as usize - 2)
    }
}

/// A node, chosen by what its state bit becomes.
fn chosen_node(
    store: &mut Store,
    next: &[Ref],
    made: &[Ref],
    node: Triple,
) -> Result<Ref, StoreFault>
    requires next { AreRefs store.old.nodes next.now }
    requires made { AreRefs store.old.nodes made.now }
    ensures extends { Extends store.old store.new }
    ensures roomy { IsErrOf result StoreFault.Nodes → store.old.limit < 2 ^ (2 ^ store.old.variables) }
    ensures found { IfOk result (λ r. IsRef store.new.nodes r) }
{
    let by = ref_of(next, node.var as usize / 2);
    let hi = child_of(made, node.hi);
    let lo = child_of(made, node.lo);
    store.ite(by, hi, lo)
}

/// The valuations whose next control state is in a set, where `next` are the next values of the state bits: the set's nodes are gone through
/// once, children first, and each becomes a choice by the reference of its state bit. Nodes comes where the store has no room for what is built
/// on the way, never where its limit holds every function of its variables, and Memory where there is none; what was built stays, after a fault
/// too.
pub fn led_into(
    alloc: Global,
    store: &mut Store,
    next: &[Ref],
    set: &Frozen,
) -> Result<Ref, StoreFault>
    requires next { AreRefs store.old.nodes next.now }
    ensures extends { Extends store.old store.new }
    ensures roomy { IsErrOf result StoreFault.Nodes → store.old.limit < 2 ^ (2 ^ store.old.variables) }
    ensures found { IfOk result (λ r. IsRef store.new.nodes r) }
{
    let mut made = Vec::new(alloc);
    for place in 0..set.nodes.len() {
        let r = chosen_node(store, next, made.as_slice(), *set.nodes.at(place))?;
        made.push(r)?;
    }
    Ok(child_of(made.as_slice(), set.root))
}

/// The valuations whose next control state is in the set, and at which the observer is true or the claim, which takes `taken`, takes the
/// valuation. So a step of a good claim is one at which the observer is true, and it is false in a step of another claim only where it is
/// false at a valuation that the claim takes.
pub fn safe_into(
    alloc: Global,
    store: &mut Store,
    parts: &Parts,
    taken: Ref,
    set: &Frozen,
) -> Result<Ref, StoreFault>
    requires refs { HaveRefs store.old parts.now }
    requires taken { IsRef store.old.nodes taken }
    ensures extends { Extends store.old store.new }
    ensures roomy { IsErrOf result StoreFault.Nodes → store.old.limit < 2 ^ (2 ^ store.old.variables) }
    ensures found { IfOk result (λ r. IsRef store.new.nodes r) }
{
    let seen = either(store, parts.observer, taken)?;
    let led = led_into(alloc, store, parts.next.as_slice(), set)?;
    both(store, seen, led)
}
