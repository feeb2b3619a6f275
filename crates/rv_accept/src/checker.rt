//! The checker: the loops over locations and entries, and the first reason.

ghost use Rattle.std.specs.Prelude.{◌≡◌, ◌↔◌, ℕ, ◌<◌, ◌^◌, [], ◌∷◌, Some, IfOk, IsErrOf, MatchOption, slice_get};
ghost use Rattle.rv_diagram.specs.Nodes.{IsRef, IsOrderedOver};
ghost use Rattle.rv_diagram.specs.Growing.{Extends};
ghost use Rattle.rv_proofs.specs.Systems.{System, IsSystem};
ghost use Rattle.rv_proofs.specs.Ranges.{IsControlSet, IsCondition, IsInRange};
ghost use Rattle.rv_proofs.specs.Accepted.{IsAccepted, IsInitial, IsIncluded, IsCovered};
ghost use Rattle.rv_proofs.specs.Runs.{IsSafeSystem};
ghost use Rattle.rv_proofs.specs.Verdicts.{LacksInitial, IsUncovered, IsFirst, IsVerdict};
ghost use Rattle.rv_proofs.specs.declared.certificate.Location.{Location};
ghost use Rattle.rv_proofs.specs.declared.certificate.Entry.{Entry};
ghost use Rattle.rv_accept.specs.Steps.{IsLeastWord};
ghost use Rattle.rv_accept.specs.Held.{IsHeld, IsWithin, AreLedInto};
ghost use Rattle.rv_accept.specs.Passing.{NoneBefore, Passes, AllPass, IsGiven};

use crate::entry::entry_fault;
use crate::including::first_not_included;
use crate::{sets, words};
use rv_base::Many;
use rv_cases::Questions;
use rv_diagram::{Ref, Store, StoreFault};
use rv_proofs::{Certificate, Location, Reason, Verdict};
use rv_symbolic::Parts;
use std::alloc::Global;

/// The least initial control state that is in no location whose `entry` is empty, or none. The store is left as it was.
pub fn initial_word(
    store: &mut Store,
    parts: &Parts,
    certificate: &Certificate,
) -> Result<Option<Many<bool>>, StoreFault>
    requires given { (s : System) × IsHeld s store.old parts.now × IsInRange s certificate.now }
    ensures same { store.new ≡ store.old }
    ensures roomy { IsErrOf result StoreFault.Nodes → store.old.limit < 2 ^ (2 ^ store.old.variables) }
    ensures exact { IfOk result (λ o. (s : System) → IsHeld s store.old parts.now → IsInRange s certificate.now
        → MatchOption o (IsInitial s certificate.now) (λ w. IsLeastWord (LacksInitial s certificate.now) w)) }
{
    let mark = store.mark();
    let answer = words::lacks_initial(store, parts, certificate);
    store.release(mark);
    answer
}

/// The least uncovered valuation of a location, or none. The store is left as it was.
pub fn cover_word(
    store: &mut Store,
    within: Ref,
    location: &Location,
) -> Result<Option<Many<bool>>, StoreFault>
    requires within { IsRef store.old.nodes within }
    requires entries { (j : ℕ) (e : Entry) → slice_get location.now.entries j ≡ Some e → IsOrderedOver store.old.variables e.condition }
    ensures same { store.new ≡ store.old }
    ensures roomy { IsErrOf result StoreFault.Nodes → store.old.limit < 2 ^ (2 ^ store.old.variables) }
    ensures exact { IfOk result (λ o. (s : System) → IsSystem s → store.old.variables ≡ s.variables → IsControlSet s location.now.control
        → ((j : ℕ) (e : Entry) → slice_get location.now.entries j ≡ Some e → IsCondition s e.condition) → IsWithin s location.now store.old within
        → MatchOption o (IsCovered s location.now) (λ w. IsLeastWord (IsUncovered s location.now) w)) }
{
    let mark = store.mark();
    let answer = words::uncovered(store, within, location);
    store.release(mark);
    answer
}

/// The first reason among the entries of a location, or none. `within` is true of the allowed valuations of the location, and `led` has for
/// each location the valuations that lead into it.
fn entries_fault(
    alloc: Global,
    store: &mut Store,
    parts: &Parts,
    questions: &Questions,
    certificate: &Certificate,
    location: &Location,
    k: u32,
    within: Ref,
    led: &[Ref],
) -> Result<Option<Reason>, StoreFault>
    requires given { (s : System) × IsGiven s store.old parts.now questions.now certificate.now × IsWithin s location.now store.old within
        × AreLedInto s certificate.now store.old led.now }
    requires at { slice_get certificate.now.locations k ≡ Some location.now }
    requires within { IsRef store.old.nodes within }
    ensures same { store.new ≡ store.old }
    ensures roomy { IsErrOf result StoreFault.Nodes → store.old.limit < 2 ^ (2 ^ store.old.variables) }
    ensures exact { IfOk result (λ o. (s : System) → IsGiven s store.old parts.now questions.now certificate.now → IsWithin s location.now store.old within
        → AreLedInto s certificate.now store.old led.now → MatchOption o ((j : ℕ) (e : Entry) → slice_get location.now.entries j ≡ Some e
            → Passes s certificate.now location.now e)
        (λ r. NoneBefore s certificate.now (1 ∷ k ∷ []) → IsIncluded location.now → IsCovered s location.now → IsFirst s certificate.now r)) }
{
    for j in 0..location.entries.len() {
        if let Some(reason) = entry_fault(
            alloc,
            store,
            parts,
            questions,
            certificate,
            location,
            k,
            j as u32,
            within,
            led,
        )? {
            return Ok(Some(reason));
        }
    }
    Ok(None)
}

/// The first reason of a location, with what was built for it.
fn location_fault_in(
    alloc: Global,
    store: &mut Store,
    parts: &Parts,
    questions: &Questions,
    certificate: &Certificate,
    location: &Location,
    k: u32,
    led: &[Ref],
) -> Result<Option<Reason>, StoreFault>
    requires given { (s : System) × IsGiven s store.old parts.now questions.now certificate.now × AreLedInto s certificate.now store.old led.now }
    requires at { slice_get certificate.now.locations k ≡ Some location.now }
    ensures extends { Extends store.old store.new }
    ensures roomy { IsErrOf result StoreFault.Nodes → store.old.limit < 2 ^ (2 ^ store.old.variables) }
    ensures exact { IfOk result (λ o. (s : System) → IsGiven s store.old parts.now questions.now certificate.now
        → AreLedInto s certificate.now store.old led.now → MatchOption o (AllPass s certificate.now location.now)
            (λ r. NoneBefore s certificate.now (1 ∷ k ∷ []) → IsFirst s certificate.now r)) }
{
    if let Some(row) = first_not_included(location) {
        return Ok(Some(Reason::Inclusion(k, row)));
    }
    let within = sets::both(store, parts.allowed, &location.control)?;
    if let Some(word) = cover_word(store, within, location)? {
        return Ok(Some(Reason::Uncovered(k, word)));
    }
    entries_fault(
        alloc,
        store,
        parts,
        questions,
        certificate,
        location,
        k,
        within,
        led,
    )
}

/// The first reason of a location, or none. The store is left as it was.
fn location_fault(
    alloc: Global,
    store: &mut Store,
    parts: &Parts,
    questions: &Questions,
    certificate: &Certificate,
    location: &Location,
    k: u32,
    led: &[Ref],
) -> Result<Option<Reason>, StoreFault>
    requires given { (s : System) × IsGiven s store.old parts.now questions.now certificate.now × AreLedInto s certificate.now store.old led.now }
    requires at { slice_get certificate.now.locations k ≡ Some location.now }
    ensures same { store.new ≡ store.old }
    ensures roomy { IsErrOf result StoreFault.Nodes → store.old.limit < 2 ^ (2 ^ store.old.variables) }
    ensures exact { IfOk result (λ o. (s : System) → IsGiven s store.old parts.now questions.now certificate.now
        → AreLedInto s certificate.now store.old led.now → MatchOption o (AllPass s certificate.now location.now)
            (λ r. NoneBefore s certificate.now (1 ∷ k ∷ []) → IsFirst s certificate.now r)) }
{
    let mark = store.mark();
    let answer = location_fault_in(
        alloc,
        store,
        parts,
        questions,
        certificate,
        location,
        k,
        led,
    );
    store.release(mark);
    answer
}

/// The first reason among the locations, or none. `led` has for each location the valuations that lead into it.
fn locations_fault(
    alloc: Global,
    store: &mut Store,
    parts: &Parts,
    questions: &Questions,
    certificate: &Certificate,
    led: &[Ref],
) -> Result<Option<Reason>, StoreFault>
    requires given { (s : System) × IsGiven s store.old parts.now questions.now certificate.now × AreLedInto s certificate.now store.old led.now }
    ensures same { store.new ≡ store.old }
    ensures roomy { IsErrOf result StoreFault.Nodes → store.old.limit < 2 ^ (2 ^ store.old.variables) }
    ensures exact { IfOk result (λ o. (s : System) → IsGiven s store.old parts.now questions.now certificate.now
        → AreLedInto s certificate.now store.old led.now → MatchOption o ((k : ℕ) (l : Location) → slice_get certificate.now.locations k ≡ Some l
        → AllPass s certificate.now l) (λ r. IsInitial s certificate.now → IsFirst s certificate.now r)) }
{
    for k in 0..certificate.locations.len() {
        let location = certificate.locations.at(k);
        if let Some(reason) = location_fault(
            alloc,
            store,
            parts,
            questions,
            certificate,
            location,
            k as u32,
            led,
        )? {
            return Ok(Some(reason));
        }
    }
    Ok(None)
}

/// The first reason after the initial control states, with what was built for all locations.
fn later_fault_in(
    alloc: Global,
    store: &mut Store,
    parts: &Parts,
    questions: &Questions,
    certificate: &Certificate,
) -> Result<Option<Reason>, StoreFault>
    requires given { (s : System) × IsGiven s store.old parts.now questions.now certificate.now }
    ensures extends { Extends store.old store.new }
    ensures roomy { IsErrOf result StoreFault.Nodes → store.old.limit < 2 ^ (2 ^ store.old.variables) }
    ensures exact { IfOk result (λ o. (s : System) → IsGiven s store.old parts.now questions.now certificate.now
        → MatchOption o ((k : ℕ) (l : Location) → slice_get certificate.now.locations k ≡ Some l
        → AllPass s certificate.now l) (λ r. IsInitial s certificate.now → IsFirst s certificate.now r)) }
{
    let led = words::led_into_each(alloc, store, parts, certificate)?;
    locations_fault(alloc, store, parts, questions, certificate, led.as_slice())
}

/// The first reason after the initial control states, or none. The store is left as it was.
fn later_fault(
    alloc: Global,
    store: &mut Store,
    parts: &Parts,
    questions: &Questions,
    certificate: &Certificate,
) -> Result<Option<Reason>, StoreFault>
    requires given { (s : System) × IsGiven s store.old parts.now questions.now certificate.now }
    ensures same { store.new ≡ store.old }
    ensures roomy { IsErrOf result StoreFault.Nodes → store.old.limit < 2 ^ (2 ^ store.old.variables) }
    ensures exact { IfOk result (λ o. (s : System) → IsGiven s store.old parts.now questions.now certificate.now
        → MatchOption o ((k : ℕ) (l : Location) → slice_get certificate.now.locations k ≡ Some l
        → AllPass s certificate.now l) (λ r. IsInitial s certificate.now → IsFirst s certificate.now r)) }
{
    let mark = store.mark();
    let answer = later_fault_in(alloc, store, parts, questions, certificate);
    store.release(mark);
    answer
}

/// The verdict on a certificate. The store is left as it was.
fn verdict_of(
    alloc: Global,
    store: &mut Store,
    parts: &Parts,
    questions: &Questions,
    certificate: &Certificate,
) -> Result<Verdict, StoreFault>
    requires given { (s : System) × IsGiven s store.old parts.now questions.now certificate.now }
    ensures same { store.new ≡ store.old }
    ensures roomy { IsErrOf result StoreFault.Nodes → store.old.limit < 2 ^ (2 ^ store.old.variables) }
    ensures exact { IfOk result (λ v. (s : System) → IsGiven s store.old parts.now questions.now certificate.now → IsVerdict s certificate.now v) }
{
    if let Some(word) = initial_word(store, parts, certificate)? {
        return Ok(Verdict::Rejected(Reason::NoInitial(word)));
    }
    if let Some(reason) = later_fault(alloc, store, parts, questions, certificate)? {
        return Ok(Verdict::Rejected(reason));
    }
    Ok(Verdict::Accepted)
}

/// Whether a certificate is accepted for a system: Accepted exactly where it is, by the definition; otherwise the first reason in the
/// order of the tests, with the least valuation or control state that fails. The initial control states come first; then the locations in
/// order, in each the rows of Inclusion, the cover, and for each entry in order that it is settled, the observer, the target and the
/// multipliers. An accepted certificate implies that along each run of the system the observer is true at each instant up to which the
/// assertions have held. The store is left as it was, after a fault too. Nodes comes where the store has no room for what is built on the
/// way, never where its limit holds every function of its variables, and Memory where there is none.
pub fn accept(
    alloc: Global,
    store: &mut Store,
    parts: &Parts,
    questions: &Questions,
    certificate: &Certificate,
) -> Result<Verdict, StoreFault>
    requires given { (s : System) × IsGiven s store.old parts.now questions.now certificate.now }
    ensures exact { IfOk result (λ v. (s : System) → IsGiven s store.old parts.now questions.now certificate.now → IsVerdict s certificate.now v) }
    ensures accepted { IfOk result (λ v. (s : System) → IsGiven s store.old parts.now questions.now certificate.now
        → (v ≡ Verdict.Accepted) ↔ IsAccepted s certificate.now) }
    ensures safe { IfOk result (λ v. (s : System) → IsGiven s store.old parts.now questions.now certificate.now → v ≡ Verdict.Accepted → IsSafeSystem s) }
    ensures same { store.new ≡ store.old }
    ensures roomy { IsErrOf result StoreFault.Nodes → store.old.limit < 2 ^ (2 ^ store.old.variables) }
{
    verdict_of(alloc, store, parts, questions, certificate)
}
