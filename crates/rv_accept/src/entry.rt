//! The tests of an entry, in order.

ghost use Rattle.std.specs.Prelude.{◌≡◌, ℕ, ◌<◌, ◌^◌, [], ◌∷◌, Some, IfOk, IsErrOf, MatchOption, MatchBool, length, slice_get};
ghost use Rattle.rv_diagram.specs.Nodes.{IsRef};
ghost use Rattle.rv_diagram.specs.Growing.{Extends};
ghost use Rattle.rv_proofs.specs.Systems.{System, IsSystem};
ghost use Rattle.rv_proofs.specs.Ranges.{IsInRange};
ghost use Rattle.rv_proofs.specs.Accepted.{IsObserved, IsStepKind, IsDeadKind, Leads, IsEntry};
ghost use Rattle.rv_proofs.specs.Verdicts.{IsUnobserved, LeadsElsewhere, IsFirst};
ghost use Rattle.rv_proofs.specs.declared.certificate.Certificate.{Certificate};
ghost use Rattle.rv_proofs.specs.declared.certificate.Location.{Location};
ghost use Rattle.rv_proofs.specs.declared.certificate.Entry.{Entry};
ghost use Rattle.rv_accept.specs.Steps.{IsLeastWord};
ghost use Rattle.rv_accept.specs.Held.{IsHeld, IsWithin, IsScope, AreLedInto};
ghost use Rattle.rv_accept.specs.Passing.{NoneBefore, Passes, IsGiven};

use crate::facts::entry_facts;
use crate::implying::first_unimplied;
use crate::{sets, words};
use rv_base::Many;
use rv_cases::Questions;
use rv_diagram::{Ref, Store, StoreFault};
use rv_proofs::{Certificate, Entry, EntryKind, Location, Reason};
use rv_symbolic::Parts;
use std::alloc::Global;

/// Whether the entry is a step, and not dead.
pub fn is_step(entry: &Entry) -> bool
    ensures { MatchBool result (IsStepKind entry.now.kind) (IsDeadKind entry.now.kind) }
{
    match &entry.kind {
        EntryKind::Dead(_) => false,
        _ => true,
    }
}

/// The least valuation in the scope of a step at which the observer is false, or none.
pub fn step_unobserved(
    store: &mut Store,
    parts: &Parts,
    entry: &Entry,
    scope: Ref,
) -> Result<Option<Many<bool>>, StoreFault>
    requires scope { IsRef store.old.nodes scope }
    requires observer { IsRef store.old.nodes parts.now.observer }
    ensures extends { Extends store.old store.new }
    ensures roomy { IsErrOf result StoreFault.Nodes → store.old.limit < 2 ^ (2 ^ store.old.variables) }
    ensures exact { IfOk result (λ o. (s : System) (c : Certificate) (k j : ℕ) (l : Location) → IsHeld s store.old parts.now → IsInRange s c
        → IsEntry c k j l entry.now
        → IsScope s l entry.now store.old scope
        → MatchOption o (IsStepKind entry.now.kind → IsObserved s l entry.now) (λ w. IsLeastWord (IsUnobserved s l entry.now) w)) }
{
    if is_step(entry) {
        words::unobserved(store, scope, parts.observer)
    } else {
        Ok(None)
    }
}

/// The least valuation in the scope of a step that does not lead where it should, or none. `led` has for each location the
/// valuations that lead into it.
pub fn step_misses(
    store: &mut Store,
    certificate: &Certificate,
    location: &Location,
    entry: &Entry,
    k: u32,
    scope: Ref,
    led: &[Ref],
) -> Result<Option<Many<bool>>, StoreFault>
    requires given { (s : System) × IsSystem s × IsInRange s certificate.now × AreLedInto s certificate.now store.old led.now }
    requires entry { (j : ℕ) × IsEntry certificate.now k j location.now entry.now }
    requires scope { IsRef store.old.nodes scope }
    ensures extends { Extends store.old store.new }
    ensures roomy { IsErrOf result StoreFault.Nodes → store.old.limit < 2 ^ (2 ^ store.old.variables) }
    ensures exact { IfOk result (λ o. (s : System) → IsSystem s → store.old.variables ≡ s.variables → IsInRange s certificate.now
        → AreLedInto s certificate.now store.old led.now → IsScope s location.now entry.now store.old scope
        → MatchOption o (Leads s certificate.now location.now entry.now entry.now.kind) (λ w. IsLeastWord
        (LeadsElsewhere s certificate.now location.now entry.now) w)) }
{
    match &entry.kind {
        EntryKind::Dead(_) => Ok(None),
        EntryKind::Go { target, .. } => words::misses_target(store, scope, led[*target as usize]),
        EntryKind::Loop { .. } => words::misses_target(store, scope, led[k as usize]),
    }
}

/// The first reason of an entry, with what was built for it. `led` has for each location the valuations that lead into it.
fn entry_fault_in(
    alloc: Global,
    store: &mut Store,
    parts: &Parts,
    questions: &Questions,
    certificate: &Certificate,
    location: &Location,
    k: u32,
    j: u32,
    within: Ref,
    led: &[Ref],
) -> Result<Option<Reason>, StoreFault>
    requires given { (s : System) × IsGiven s store.old parts.now questions.now certificate.now × IsWithin s location.now store.old within
        × AreLedInto s certificate.now store.old led.now }
    requires at { slice_get certificate.now.locations k ≡ Some location.now }
    requires entry { j < length location.now.entries }
    requires within { IsRef store.old.nodes within }
    ensures extends { Extends store.old store.new }
    ensures roomy { IsErrOf result StoreFault.Nodes → store.old.limit < 2 ^ (2 ^ store.old.variables) }
    ensures exact { IfOk result (λ o. (s : System) → IsGiven s store.old parts.now questions.now certificate.now → IsWithin s location.now store.old within
        → AreLedInto s certificate.now store.old led.now → (e : Entry) → slice_get location.now.entries j ≡ Some e
        → MatchOption o (Passes s certificate.now location.now e) (λ r. NoneBefore s certificate.now (1 ∷ k ∷ 2 ∷ j ∷ []) → IsFirst s certificate.now r)) }
{
    let entry = location.entries.at(j as usize);
    let scope = sets::both(store, within, &entry.condition)?;
    let facts = entry_facts(alloc, store, questions, certificate, location, entry, scope)?;
    let Some(facts) = facts else {
        return Ok(Some(Reason::Unsettled(k, j)));
    };
    if let Some(word) = step_unobserved(store, parts, entry, scope)? {
        return Ok(Some(Reason::Observer(k, j, word)));
    }
    if let Some(word) = step_misses(store, certificate, location, entry, k, scope, led)? {
        return Ok(Some(Reason::Target(k, j, word)));
    }
    if let Some(n) = first_unimplied(alloc, certificate, location, entry, &facts)? {
        return Ok(Some(Reason::Multipliers(k, j, n)));
    }
    Ok(None)
}

/// The first reason of an entry, or none. The store is left as it was.
pub fn entry_fault(
    alloc: Global,
    store: &mut Store,
    parts: &Parts,
    questions: &Questions,
    certificate: &Certificate,
    location: &Location,
    k: u32,
    j: u32,
    within: Ref,
    led: &[Ref],
) -> Result<Option<Reason>, StoreFault>
    requires given { (s : System) × IsGiven s store.old parts.now questions.now certificate.now × IsWithin s location.now store.old within
        × AreLedInto s certificate.now store.old led.now }
    requires at { slice_get certificate.now.locations k ≡ Some location.now }
    requires entry { j < length location.now.entries }
    requires within { IsRef store.old.nodes within }
    ensures same { store.new ≡ store.old }
    ensures roomy { IsErrOf result StoreFault.Nodes → store.old.limit < 2 ^ (2 ^ store.old.variables) }
    ensures exact { IfOk result (λ o. (s : System) → IsGiven s store.old parts.now questions.now certificate.now → IsWithin s location.now store.old within
        → AreLedInto s certificate.now store.old led.now → (e : Entry) → slice_get location.now.entries j ≡ Some e
        → MatchOption o (Passes s certificate.now location.now e) (λ r. NoneBefore s certificate.now (1 ∷ k ∷ 2 ∷ j ∷ []) → IsFirst s certificate.now r)) }
{
    let mark = store.mark();
    let answer = entry_fault_in(
        alloc,
        store,
        parts,
        questions,
        certificate,
        location,
        k,
        j,
        within,
        led,
    );
    store.release(mark);
    answer
}
