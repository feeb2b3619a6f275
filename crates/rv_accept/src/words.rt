//! The least valuations that fail.

ghost use Rattle.std.specs.Prelude.{◌≡◌, ℕ, ◌+◌, ◌/◌, ◌<◌, ◌^◌, not, true, false, List, Some, IfOk, IsErrOf, MatchOption};
ghost use Rattle.std.specs.Prelude.{length, slice_get, if◌then◌else◌};
ghost use Rattle.rv_diagram.specs.declared.Triple.{Triple};
ghost use Rattle.rv_diagram.specs.Nodes.{Valuation, value_of, IsRef, IsOrdered, IsExpanded, IsOrderedOver};
ghost use Rattle.rv_diagram.specs.Several.{ref_at};
ghost use Rattle.rv_diagram.specs.Growing.{Extends};
ghost use Rattle.rv_accept.specs.Steps.{IsLeastWord, has};
ghost use Rattle.rv_accept.specs.Steps.{AreRefs};
ghost use Rattle.rv_accept.specs.Held.{IsHeld, IsWithin, IsScope, follow, ReadsNext, AreMoved, AreLedInto, IsUnseen, IsElsewhere};
ghost use Rattle.rv_proofs.specs.Systems.{System, IsSystem};
ghost use Rattle.rv_proofs.specs.Accepted.{IsInitial, IsCovered, IsObserved, LeadsInto};
ghost use Rattle.rv_proofs.specs.Ranges.{IsControlSet, IsCondition, IsInRange};
ghost use Rattle.rv_proofs.specs.Verdicts.{LacksInitial, IsUncovered};
ghost use Rattle.rv_proofs.specs.declared.certificate.Location.{Location};
ghost use Rattle.rv_proofs.specs.declared.certificate.Entry.{Entry};

use crate::sets;
use rv_base::Many;
use rv_diagram::{Frozen, Ref, Store, StoreFault, Triple};
use rv_proofs::{Certificate, Location};
use rv_symbolic::Parts;
use std::alloc::Global;

/// The least initial control state that is in no location whose `entry` is empty, or none.
pub fn lacks_initial(
    store: &mut Store,
    parts: &Parts,
    certificate: &Certificate,
) -> Result<Option<Many<bool>>, StoreFault>
    requires initial { IsRef store.old.nodes parts.now.initial }
    requires locations { (k : ℕ) (l : Location) → slice_get certificate.now.locations k ≡ Some l → IsOrderedOver store.old.variables l.control }
    ensures extends { Extends store.old store.new }
    ensures roomy { IsErrOf result StoreFault.Nodes → store.old.limit < 2 ^ (2 ^ store.old.variables) }
    ensures exact { IfOk result (λ o. (s : System) → IsHeld s store.old parts.now → IsInRange s certificate.now
        → MatchOption o (IsInitial s certificate.now) (λ w. IsLeastWord (LacksInitial s certificate.now) w)) }
{
    let entered = sets::entered(store, &certificate.locations)?;
    let rest = sets::without(store, parts.initial, entered)?;
    Ok(store.pick(rest)?)
}

/// The least allowed valuation of a location that meets the condition of no entry, or none.
pub fn uncovered(
    store: &mut Store,
    within: Ref,
    location: &Location,
) -> Result<Option<Many<bool>>, StoreFault>
    requires within { IsRef store.old.nodes within }
    requires entries { (j : ℕ) (e : Entry) → slice_get location.now.entries j ≡ Some e → IsOrderedOver store.old.variables e.condition }
    ensures extends { Extends store.old store.new }
    ensures roomy { IsErrOf result StoreFault.Nodes → store.old.limit < 2 ^ (2 ^ store.old.variables) }
    ensures exact { IfOk result (λ o. (s : System) → IsSystem s → store.old.variables ≡ s.variables → IsControlSet s location.now.control
        → ((j : ℕ) (e : Entry) → slice_get location.now.entries j ≡ Some e → IsCondition s e.condition) → IsWithin s location.now store.old within
        → MatchOption o (IsCovered s location.now) (λ w. IsLeastWord (IsUncovered s location.now) w)) }
{
    let met = sets::conditions(store, &location.entries)?;
    let rest = sets::without(store, within, met)?;
    Ok(store.pick(rest)?)
}

/// The least valuation of a scope at which the observer is false, or none.
pub fn unobserved(
    store: &mut Store,
    scope: Ref,
    observer: Ref,
) -> Result<Option<Many<bool>>, StoreFault>
    requires scope { IsRef store.old.nodes scope }
    requires observer { IsRef store.old.nodes observer }
    ensures extends { Extends store.old store.new }
    ensures roomy { IsErrOf result StoreFault.Nodes → store.old.limit < 2 ^ (2 ^ store.old.variables) }
    ensures exact { IfOk result (λ o. (s : System) (l : Location) (e : Entry) → IsSystem s → store.old.variables ≡ s.variables → IsControlSet s l.control
        → IsCondition s e.condition
        → IsScope s l e store.old scope → ((v : Valuation) → value_of store.old.nodes observer v ≡ s.observer v)
        → MatchOption o (IsObserved s l e) (λ w. IsLeastWord (IsUnseen s l e) w)) }
{
    let rest = sets::without(store, scope, observer)?;
    Ok(store.pick(rest)?)
}

/// What a child of a node has become.
fn moved_child(moved: &[Ref], r: u32) -> Ref
    requires { r < length moved.now + 2 }
    ensures constant { r < 2 → result ≡ r }
    ensures node { (n : ℕ) → r ≡ n + 2 → result ≡ ref_at moved.now n }
{
    if r < 2 { r } else { moved[r as usize - 2] }
}

/// A node, chosen by what its state bit becomes.
fn moved_node(
    store: &mut Store,
    next: &[Ref],
    moved: &[Ref],
    node: Triple,
) -> Result<Ref, StoreFault>
    requires next { AreRefs store.old next.now }
    requires moved { AreRefs store.old moved.now }
    requires var { node.var / 2 < length next.now }
    requires lo { node.lo < length moved.now + 2 }
    requires hi { node.hi < length moved.now + 2 }
    ensures extends { Extends store.old store.new }
    ensures roomy { IsErrOf result StoreFault.Nodes → store.old.limit < 2 ^ (2 ^ store.old.variables) }
    ensures found { IfOk result (λ r. IsRef store.new.nodes r) }
    ensures means { IfOk result (λ r. (nodes : List Triple) → IsExpanded nodes → AreMoved store.old next.now nodes moved.now
        → (v : Valuation) → value_of store.new.nodes r v ≡ (if follow store.old next.now v node.var then value_of nodes node.hi
        (follow store.old next.now v) else value_of nodes node.lo (follow store.old next.now v))) }
{
    let _count = store.mark();
    let by = next[node.var as usize / 2];
    let hi = moved_child(moved, node.hi);
    let lo = moved_child(moved, node.lo);
    store.ite(by, hi, lo)
}

/// What each node of a set of control states is true of before the step.
fn moved_nodes(
    alloc: Global,
    store: &mut Store,
    next: &[Ref],
    nodes: &[Triple],
) -> Result<Vec<Ref>, StoreFault>
    requires next { AreRefs store.old next.now }
    requires ordered { IsOrdered nodes.now }
    requires expanded { IsExpanded nodes.now }
    requires states { ReadsNext (length next.now) nodes.now }
    ensures extends { Extends store.old store.new }
    ensures roomy { IsErrOf result StoreFault.Nodes → store.old.limit < 2 ^ (2 ^ store.old.variables) }
    ensures size { IfOk result (λ m. length m.items ≡ length nodes.now) }
    ensures refs { IfOk result (λ m. AreRefs store.new m.items) }
    ensures means { IfOk result (λ m. (n : ℕ) → n < length nodes.now → (v : Valuation)
        → value_of store.new.nodes (ref_at m.items n) v ≡ value_of nodes.now (n + 2) (follow store.old next.now v)) }
{
    let mut moved = Vec::new(alloc);
    for i in 0..nodes.len() {
        let r = moved_node(store, next, moved.as_slice(), nodes[i])?;
        moved.push(r)?;
    }
    Ok(moved)
}

/// The same set with no node that its root does not reach: a file may have others. The store is left as it was.
fn reached(store: &mut Store, set: &Frozen) -> Result<Frozen, StoreFault>
    requires { IsOrderedOver store.old.variables set.now }
    ensures same { store.new ≡ store.old }
    ensures roomy { IsErrOf result StoreFault.Nodes → store.old.limit < 2 ^ (2 ^ store.old.variables) }
    ensures ordered { IfOk result (λ f. IsOrderedOver store.old.variables f) }
    ensures means { IfOk result (λ f. (v : Valuation) → has f v ≡ has set.now v) }
    ensures states { IfOk result (λ f. (n : ℕ) → ReadsNext n set.now.nodes → ReadsNext n f.nodes) }
{
    let mark = store.mark();
    let r = store.thaw(set)?;
    let kept = store.freeze(r);
    store.release(mark);
    Ok(kept?)
}

/// The valuations whose next control state is in a set: the nodes that the set's root reaches are gone through once, children
/// first, and each becomes a choice by the reference of its state bit.
fn led_into(alloc: Global, store: &mut Store, next: &[Ref], set: &Frozen) -> Result<Ref, StoreFault>
    requires next { AreRefs store.old next.now }
    requires set { IsOrderedOver store.old.variables set.now }
    requires states { ReadsNext (length next.now) set.now.nodes }
    ensures extends { Extends store.old store.new }
    ensures roomy { IsErrOf result StoreFault.Nodes → store.old.limit < 2 ^ (2 ^ store.old.variables) }
    ensures found { IfOk result (λ r. IsRef store.new.nodes r) }
    ensures means { IfOk result (λ r. (v : Valuation) → value_of store.new.nodes r v ≡ has set.now (follow store.old next.now v)) }
{
    let kept = reached(store, set)?;
    let variables = store.variables();
    let _ordered = kept.ordered(variables);
    let moved = moved_nodes(alloc, store, next, kept.nodes.as_slice())?;
    let _count = store.mark();
    Ok(moved_child(moved.as_slice(), kept.root))
}

/// The same as a diagram that stands by itself, with what was built for it.
fn led_frozen(
    alloc: Global,
    store: &mut Store,
    next: &[Ref],
    set: &Frozen,
) -> Result<Frozen, StoreFault>
    requires next { AreRefs store.old next.now }
    requires set { IsOrderedOver store.old.variables set.now }
    requires states { ReadsNext (length next.now) set.now.nodes }
    ensures extends { Extends store.old store.new }
    ensures roomy { IsErrOf result StoreFault.Nodes → store.old.limit < 2 ^ (2 ^ store.old.variables) }
    ensures ordered { IfOk result (λ f. IsOrderedOver store.old.variables f) }
    ensures means { IfOk result (λ f. (v : Valuation) → has f v ≡ has set.now (follow store.old next.now v)) }
{
    let led = led_into(alloc, store, next, set)?;
    Ok(store.freeze(led)?)
}

/// The same. The store is left as it was.
fn led_apart(
    alloc: Global,
    store: &mut Store,
    next: &[Ref],
    set: &Frozen,
) -> Result<Frozen, StoreFault>
    requires next { AreRefs store.old next.now }
    requires set { IsOrderedOver store.old.variables set.now }
    requires states { ReadsNext (length next.now) set.now.nodes }
    ensures same { store.new ≡ store.old }
    ensures roomy { IsErrOf result StoreFault.Nodes → store.old.limit < 2 ^ (2 ^ store.old.variables) }
    ensures ordered { IfOk result (λ f. IsOrderedOver store.old.variables f) }
    ensures means { IfOk result (λ f. (v : Valuation) → has f v ≡ has set.now (follow store.old next.now v)) }
{
    let mark = store.mark();
    let answer = led_frozen(alloc, store, next, set);
    store.release(mark);
    answer
}

/// The valuations whose next control state is in a set, with the nodes that they need and no others that were built on the way.
fn led_alone(
    alloc: Global,
    store: &mut Store,
    next: &[Ref],
    set: &Frozen,
) -> Result<Ref, StoreFault>
    requires next { AreRefs store.old next.now }
    requires set { IsOrderedOver store.old.variables set.now }
    requires states { ReadsNext (length next.now) set.now.nodes }
    ensures extends { Extends store.old store.new }
    ensures roomy { IsErrOf result StoreFault.Nodes → store.old.limit < 2 ^ (2 ^ store.old.variables) }
    ensures found { IfOk result (λ r. IsRef store.new.nodes r) }
    ensures means { IfOk result (λ r. (v : Valuation) → value_of store.new.nodes r v ≡ has set.now (follow store.old next.now v)) }
{
    let apart = led_apart(alloc, store, next, set)?;
    store.thaw(&apart)
}

/// For each location the valuations whose next control state is in its control set: each set is moved once, however many
/// entries lead into it.
pub fn led_into_each(
    alloc: Global,
    store: &mut Store,
    parts: &Parts,
    certificate: &Certificate,
) -> Result<Vec<Ref>, StoreFault>
    requires given { (s : System) × IsHeld s store.old parts.now × IsInRange s certificate.now }
    ensures extends { Extends store.old store.new }
    ensures roomy { IsErrOf result StoreFault.Nodes → store.old.limit < 2 ^ (2 ^ store.old.variables) }
    ensures exact { IfOk result (λ led. (s : System) → IsHeld s store.old parts.now → IsInRange s certificate.now
        → AreLedInto s certificate.now store.new led.items) }
{
    let mut led = Vec::new(alloc);
    for k in 0..certificate.locations.len() {
        let control = &certificate.locations.at(k).control;
        let r = led_alone(alloc, store, parts.next.as_slice(), control)?;
        led.push(r)?;
    }
    Ok(led)
}

/// The least valuation of a scope that is not among those that lead into a target, or none.
pub fn misses_target(
    store: &mut Store,
    scope: Ref,
    led: Ref,
) -> Result<Option<Many<bool>>, StoreFault>
    requires scope { IsRef store.old.nodes scope }
    requires led { IsRef store.old.nodes led }
    ensures extends { Extends store.old store.new }
    ensures roomy { IsErrOf result StoreFault.Nodes → store.old.limit < 2 ^ (2 ^ store.old.variables) }
    ensures exact { IfOk result (λ o. (s : System) (l : Location) (e : Entry) (target : Location) → IsSystem s → store.old.variables ≡ s.variables
        → IsControlSet s l.control → IsCondition s e.condition → IsControlSet s target.control → IsScope s l e store.old scope
        → ((v : Valuation) → value_of store.old.nodes led v ≡ has target.control (s.next v))
        → MatchOption o (LeadsInto s l e target) (λ w. IsLeastWord (IsElsewhere s l e target) w)) }
{
    let rest = sets::without(store, scope, led)?;
    Ok(store.pick(rest)?)
}
