//! The judge of partitions: which of their locations are left, because an entry of theirs uses one of the two exceptions of a left partition.

ghost use Rattle.std.specs.Prelude.{◌≡◌, ◌⊎◌, ℕ, ◌<◌, ◌^◌, [], true, false, List, Option, Some, IsSome, None, ◌&&◌, ◌||◌, IfOk, OnOk, IsErrOf, MatchOption};
ghost use Rattle.std.specs.Prelude.{MatchBool, length, slice_get};
ghost use Rattle.rv_diagram.specs.Nodes.{Valuation, value_of, IsRef, IsOrderedOver};
ghost use Rattle.rv_diagram.specs.Growing.{Extends};
ghost use Rattle.rv_proofs.specs.Systems.{System, IsSystem};
ghost use Rattle.rv_proofs.specs.Ranges.{IsInRange};
ghost use Rattle.rv_proofs.specs.Scopes.{IsSettled, IsIn};
ghost use Rattle.rv_proofs.specs.declared.certificate.Certificate.{Certificate};
ghost use Rattle.rv_proofs.specs.Accepted.{IsAccepted, IsEntry, Leads, AreImplied};
ghost use Rattle.rv_proofs.specs.Left.{IsLeftPartition};
ghost use Rattle.rv_proofs.specs.declared.certificate.Location.{Location};
ghost use Rattle.rv_proofs.specs.declared.certificate.Entry.{Entry};
ghost use Rattle.rv_accept.specs.Steps.{has};
ghost use Rattle.rv_accept.specs.Held.{IsHeld, IsWithin, IsScope, AreLedInto};
ghost use Rattle.rv_accept.specs.Passing.{IsGiven};
ghost use Rattle.rv_cases.specs.Questions.{AreQuestions};
ghost use Rattle.rv_accept.specs.Judging.{IsSeen, added_if, Stands, worse_of, AreStanding, located_by, IsLocated, AreLocated, AreApart, IsMarked};

use crate::checker::{cover_word, initial_word};
use crate::entry::{is_step, step_misses, step_unobserved};
use crate::facts::entry_facts;
use crate::implying::first_unimplied;
use crate::including::first_not_included;
use crate::{sets, words};
use rv_base::{Many, Memory};
use rv_cases::Questions;
use rv_diagram::{Frozen, Ref, Store, StoreFault};
use rv_proofs::{Certificate, Entry, Location};
use rv_symbolic::Parts;
use std::alloc::Global;

/// How an entry stands in a partition.
#[derive(Clone, Copy, Debug, PartialEq, Eq)]
pub enum Standing {
    /// It passes each test.
    Sound,
    /// It makes its location a left one: a step at which the observer is false somewhere, or a dead entry without refutation in
    /// whose scope, which is not empty, the observer is false.
    Using,
    /// It may stand in a left location alone: a dead entry without refutation whose scope is empty.
    Asking,
    /// It may stand in none.
    Unfit,
}

/// What the observer is in a scope.
#[derive(Clone, Copy, Debug, PartialEq, Eq)]
enum Seen {
    /// The scope is empty.
    Nothing,
    /// It is false throughout a scope that is not empty.
    Never,
    /// It is true somewhere.
    Somewhere,
}

/// Whether some valuation makes a reference true.
fn is_possible(store: &Store, a: Ref) -> Result<bool, Memory>
    requires { IsRef store.now.nodes a }
    ensures { IfOk result (λ some. MatchBool some ((v : Valuation) × (value_of store.now.nodes a v ≡ true)) ((v : Valuation)
        → value_of store.now.nodes a v ≡ false)) }
{
    match store.pick(a)? {
        Some(_) => Ok(true),
        None => Ok(false),
    }
}

/// What the observer is where a scope is true.
fn seen_in(store: &mut Store, scope: Ref, observer: Ref) -> Result<Seen, StoreFault>
    requires scope { IsRef store.old.nodes scope }
    requires observer { IsRef store.old.nodes observer }
    ensures extends { Extends store.old store.new }
    ensures roomy { IsErrOf result StoreFault.Nodes → store.old.limit < 2 ^ (2 ^ store.old.variables) }
    ensures exact { IfOk result (λ seen. IsSeen store.old.nodes scope observer seen) }
{
    let met = store.and(scope, observer)?;
    let on = is_possible(store, met)?;
    let some = is_possible(store, scope)?;
    if on {
        return Ok(Seen::Somewhere);
    }
    if some {
        return Ok(Seen::Never);
    }
    Ok(Seen::Nothing)
}

/// Whether an entry is settled, and if so whether its implications hold.
fn implied(
    alloc: Global,
    store: &mut Store,
    questions: &Questions,
    certificate: &Certificate,
    location: &Location,
    entry: &Entry,
    scope: Ref,
) -> Result<Option<bool>, StoreFault>
    requires given { (s : System) × IsSystem s × AreQuestions s store.old questions.now × IsInRange s certificate.now
        × IsScope s location.now entry.now store.old scope }
    requires entry { (k j : ℕ) × IsEntry certificate.now k j location.now entry.now }
    requires scope { IsRef store.old.nodes scope }
    ensures same { store.new ≡ store.old }
    ensures roomy { IsErrOf result StoreFault.Nodes → store.old.limit < 2 ^ (2 ^ store.old.variables) }
    ensures exact { IfOk result (λ o. (s : System) → IsSystem s → AreQuestions s store.old questions.now → IsInRange s certificate.now
        → IsScope s location.now entry.now store.old scope → MatchOption o (¬ IsSettled s certificate.now location.now entry.now)
        (λ yes. IsSettled s certificate.now location.now entry.now × MatchBool yes (AreImplied s certificate.now location.now entry.now)
        (¬ AreImplied s certificate.now location.now entry.now))) }
{
    let facts = entry_facts(alloc, store, questions, certificate, location, entry, scope)?;
    let Some(facts) = facts else {
        return Ok(None);
    };
    let first = first_unimplied(alloc, certificate, location, entry, &facts)?;
    if let Some(_) = first {
        return Ok(Some(false));
    }
    Ok(Some(true))
}

/// Whether an entry leads where it should. The store is left as it was. `led` has for each location the valuations that lead into it.
fn is_led(
    store: &mut Store,
    certificate: &Certificate,
    location: &Location,
    entry: &Entry,
    k: u32,
    scope: Ref,
    led: &[Ref],
) -> Result<bool, StoreFault>
    requires given { (s : System) × IsSystem s × IsInRange s certificate.now × AreLedInto s certificate.now store.old led.now }
    requires entry { (j : ℕ) × IsEntry certificate.now k j location.now entry.now }
    requires scope { IsRef store.old.nodes scope }
    ensures same { store.new ≡ store.old }
    ensures roomy { IsErrOf result StoreFault.Nodes → store.old.limit < 2 ^ (2 ^ store.old.variables) }
    ensures exact { IfOk result (λ yes. (s : System) → IsSystem s → store.old.variables ≡ s.variables → IsInRange s certificate.now
        → AreLedInto s certificate.now store.old led.now → IsScope s location.now entry.now store.old scope
        → MatchBool yes (Leads s certificate.now location.now entry.now entry.now.kind)
        (¬ Leads s certificate.now location.now entry.now entry.now.kind)) }
{
    let mark = store.mark();
    let answer = step_misses(store, certificate, location, entry, k, scope, led);
    store.release(mark);
    let word = answer?;
    if let Some(_) = word {
        return Ok(false);
    }
    Ok(true)
}

/// How an entry stands whose implications hold.
fn implied_standing(
    store: &mut Store,
    parts: &Parts,
    entry: &Entry,
    scope: Ref,
) -> Result<Standing, StoreFault>
    requires scope { IsRef store.old.nodes scope }
    requires observer { IsRef store.old.nodes parts.now.observer }
    ensures extends { Extends store.old store.new }
    ensures roomy { IsErrOf result StoreFault.Nodes → store.old.limit < 2 ^ (2 ^ store.old.variables) }
    ensures exact { IfOk result (λ st. (s : System) (c : Certificate) (k j : ℕ) (l : Location) → IsHeld s store.old parts.now → IsInRange s c
        → IsEntry c k j l entry.now → IsScope s l entry.now store.old scope → IsSettled s c l entry.now → Leads s c l entry.now entry.now.kind
        → AreImplied s c l entry.now → Stands s c l entry.now st) }
{
    let word = step_unobserved(store, parts, entry, scope)?;
    if let Some(_) = word {
        return Ok(Standing::Using);
    }
    Ok(Standing::Sound)
}

/// How an entry stands one of whose implications does not hold.
fn unimplied_standing(
    store: &mut Store,
    parts: &Parts,
    entry: &Entry,
    scope: Ref,
) -> Result<Standing, StoreFault>
    requires scope { IsRef store.old.nodes scope }
    requires observer { IsRef store.old.nodes parts.now.observer }
    ensures extends { Extends store.old store.new }
    ensures roomy { IsErrOf result StoreFault.Nodes → store.old.limit < 2 ^ (2 ^ store.old.variables) }
    ensures exact { IfOk result (λ st. (s : System) (c : Certificate) (l : Location) → IsHeld s store.old parts.now
        → IsScope s l entry.now store.old scope → IsSettled s c l entry.now → Leads s c l entry.now entry.now.kind
        → ¬ AreImplied s c l entry.now → Stands s c l entry.now st) }
{
    if is_step(entry) {
        return Ok(Standing::Unfit);
    }
    let seen = seen_in(store, scope, parts.observer)?;
    match seen {
        Seen::Nothing => Ok(Standing::Asking),
        Seen::Never => Ok(Standing::Using),
        Seen::Somewhere => Ok(Standing::Unfit),
    }
}

/// How an entry stands whose scope is given.
fn scope_standing(
    alloc: Global,
    store: &mut Store,
    parts: &Parts,
    questions: &Questions,
    certificate: &Certificate,
    location: &Location,
    entry: &Entry,
    k: u32,
    scope: Ref,
    led: &[Ref],
) -> Result<Standing, StoreFault>
    requires given { (s : System) × IsGiven s store.old parts.now questions.now certificate.now × IsScope s location.now entry.now store.old scope
        × AreLedInto s certificate.now store.old led.now }
    requires entry { (j : ℕ) × IsEntry certificate.now k j location.now entry.now }
    requires scope { IsRef store.old.nodes scope }
    ensures extends { Extends store.old store.new }
    ensures roomy { IsErrOf result StoreFault.Nodes → store.old.limit < 2 ^ (2 ^ store.old.variables) }
    ensures exact { IfOk result (λ st. (s : System) → IsGiven s store.old parts.now questions.now certificate.now
        → IsScope s location.now entry.now store.old scope → AreLedInto s certificate.now store.old led.now
        → Stands s certificate.now location.now entry.now st) }
{
    let found = implied(alloc, store, questions, certificate, location, entry, scope)?;
    let Some(holds) = found else {
        return Ok(Standing::Unfit);
    };
    let leads = is_led(store, certificate, location, entry, k, scope, led)?;
    if !leads {
        return Ok(Standing::Unfit);
    }
    if holds {
        implied_standing(store, parts, entry, scope)
    } else {
        unimplied_standing(store, parts, entry, scope)
    }
}

/// How an entry stands, with what was built for it.
fn entry_standing_in(
    alloc: Global,
    store: &mut Store,
    parts: &Parts,
    questions: &Questions,
    certificate: &Certificate,
    location: &Location,
    k: u32,
    j: u32,
    within: Ref,
    led: &[Ref],
) -> Result<Standing, StoreFault>
    requires given { (s : System) × IsGiven s store.old parts.now questions.now certificate.now × IsWithin s location.now store.old within
        × AreLedInto s certificate.now store.old led.now }
    requires at { slice_get certificate.now.locations k ≡ Some location.now }
    requires entry { j < length location.now.entries }
    requires within { IsRef store.old.nodes within }
    ensures extends { Extends store.old store.new }
    ensures roomy { IsErrOf result StoreFault.Nodes → store.old.limit < 2 ^ (2 ^ store.old.variables) }
    ensures exact { IfOk result (λ st. (s : System) → IsGiven s store.old parts.now questions.now certificate.now → IsWithin s location.now store.old within
        → AreLedInto s certificate.now store.old led.now → (e : Entry) → slice_get location.now.entries j ≡ Some e
            → Stands s certificate.now location.now e st) }
{
    let entry = location.entries.at(j as usize);
    let scope = sets::both(store, within, &entry.condition)?;
    scope_standing(
        alloc,
        store,
        parts,
        questions,
        certificate,
        location,
        entry,
        k,
        scope,
        led,
    )
}

/// How an entry stands. The store is left as it was.
fn entry_standing(
    alloc: Global,
    store: &mut Store,
    parts: &Parts,
    questions: &Questions,
    certificate: &Certificate,
    location: &Location,
    k: u32,
    j: u32,
    within: Ref,
    led: &[Ref],
) -> Result<Standing, StoreFault>
    requires given { (s : System) × IsGiven s store.old parts.now questions.now certificate.now × IsWithin s location.now store.old within
        × AreLedInto s certificate.now store.old led.now }
    requires at { slice_get certificate.now.locations k ≡ Some location.now }
    requires entry { j < length location.now.entries }
    requires within { IsRef store.old.nodes within }
    ensures same { store.new ≡ store.old }
    ensures roomy { IsErrOf result StoreFault.Nodes → store.old.limit < 2 ^ (2 ^ store.old.variables) }
    ensures exact { IfOk result (λ st. (s : System) → IsGiven s store.old parts.now questions.now certificate.now → IsWithin s location.now store.old within
        → AreLedInto s certificate.now store.old led.now → (e : Entry) → slice_get location.now.entries j ≡ Some e
            → Stands s certificate.now location.now e st) }
{
    let mark = store.mark();
    let answer = entry_standing_in(
        alloc,
        store,
        parts,
        questions,
        certificate,
        location,
        k,
        j,
        within,
        led,
    );
    store.release(mark);
    answer
}

/// The worse of two.
fn worse(a: Standing, b: Standing) -> Standing
    ensures { result ≡ worse_of a b }
{
    match a {
        Standing::Unfit => Standing::Unfit,
        Standing::Using => match b {
            Standing::Unfit => Standing::Unfit,
            Standing::Using => Standing::Using,
            Standing::Asking => Standing::Using,
            Standing::Sound => Standing::Using,
        },
        Standing::Asking => match b {
            Standing::Unfit => Standing::Unfit,
            Standing::Using => Standing::Using,
            Standing::Asking => Standing::Asking,
            Standing::Sound => Standing::Asking,
        },
        Standing::Sound => b,
    }
}

/// How the worst entry of a location stands. `within` is true of the allowed valuations of the location.
fn entries_standing(
    alloc: Global,
    store: &mut Store,
    parts: &Parts,
    questions: &Questions,
    certificate: &Certificate,
    location: &Location,
    k: u32,
    within: Ref,
    led: &[Ref],
) -> Result<Standing, StoreFault>
    requires given { (s : System) × IsGiven s store.old parts.now questions.now certificate.now × IsWithin s location.now store.old within
        × AreLedInto s certificate.now store.old led.now }
    requires at { slice_get certificate.now.locations k ≡ Some location.now }
    requires within { IsRef store.old.nodes within }
    ensures same { store.new ≡ store.old }
    ensures roomy { IsErrOf result StoreFault.Nodes → store.old.limit < 2 ^ (2 ^ store.old.variables) }
    ensures exact { IfOk result (λ st. (s : System) → IsGiven s store.old parts.now questions.now certificate.now → IsWithin s location.now store.old within
        → AreLedInto s certificate.now store.old led.now → AreStanding s certificate.now location.now (length location.now.entries) st) }
{
    let mut worst = Standing::Sound;
    for j in 0..location.entries.len() {
        let next = entry_standing(
            alloc,
            store,
            parts,
            questions,
            certificate,
            location,
            k,
            j as u32,
            within,
            led,
        )?;
        worst = worse(worst, next);
    }
    Ok(worst)
}

/// What a location is by the worst of its entries.
fn located(worst: Standing) -> Option<bool>
    ensures { result ≡ located_by worst }
{
    match worst {
        Standing::Sound => Some(false),
        Standing::Asking => None,
        Standing::Using => Some(true),
        Standing::Unfit => None,
    }
}

/// Whether a location is left or passes each test, or neither, with what was built for it.
fn location_standing_in(
    alloc: Global,
    store: &mut Store,
    parts: &Parts,
    questions: &Questions,
    certificate: &Certificate,
    location: &Location,
    k: u32,
    led: &[Ref],
) -> Result<Option<bool>, StoreFault>
    requires given { (s : System) × IsGiven s store.old parts.now questions.now certificate.now × AreLedInto s certificate.now store.old led.now }
    requires at { slice_get certificate.now.locations k ≡ Some location.now }
    ensures extends { Extends store.old store.new }
    ensures roomy { IsErrOf result StoreFault.Nodes → store.old.limit < 2 ^ (2 ^ store.old.variables) }
    ensures exact { IfOk result (λ o. (s : System) → IsGiven s store.old parts.now questions.now certificate.now
        → AreLedInto s certificate.now store.old led.now → IsLocated s certificate.now location.now o) }
{
    if let Some(_) = first_not_included(location) {
        return Ok(None);
    }
    let within = sets::both(store, parts.allowed, &location.control)?;
    let uncovered = cover_word(store, within, location)?;
    if let Some(_) = uncovered {
        return Ok(None);
    }
    let worst = entries_standing(
        alloc,
        store,
        parts,
        questions,
        certificate,
        location,
        k,
        within,
        led,
    )?;
    Ok(located(worst))
}

/// The same. The store is left as it was.
fn location_standing(
    alloc: Global,
    store: &mut Store,
    parts: &Parts,
    questions: &Questions,
    certificate: &Certificate,
    location: &Location,
    k: u32,
    led: &[Ref],
) -> Result<Option<bool>, StoreFault>
    requires given { (s : System) × IsGiven s store.old parts.now questions.now certificate.now × AreLedInto s certificate.now store.old led.now }
    requires at { slice_get certificate.now.locations k ≡ Some location.now }
    ensures same { store.new ≡ store.old }
    ensures roomy { IsErrOf result StoreFault.Nodes → store.old.limit < 2 ^ (2 ^ store.old.variables) }
    ensures exact { IfOk result (λ o. (s : System) → IsGiven s store.old parts.now questions.now certificate.now
        → AreLedInto s certificate.now store.old led.now → IsLocated s certificate.now location.now o) }
{
    let mark = store.mark();
    let answer = location_standing_in(
        alloc,
        store,
        parts,
        questions,
        certificate,
        location,
        k,
        led,
    );
    store.release(mark);
    answer
}

/// Adds the control set of a location to those before it, unless the set is empty or meets one of them.
fn add_apart(store: &mut Store, seen: Ref, control: &Frozen) -> Result<Option<Ref>, StoreFault>
    requires seen { IsRef store.old.nodes seen }
    requires control { IsOrderedOver store.old.variables control.now }
    ensures extends { Extends store.old store.new }
    ensures roomy { IsErrOf result StoreFault.Nodes → store.old.limit < 2 ^ (2 ^ store.old.variables) }
    ensures exact { IfOk result (λ o. MatchOption o (((v : Valuation) → has control.now v ≡ false)
        ⊎ ((v : Valuation) × (value_of store.old.nodes seen v ≡ true) × IsIn control.now v))
        (λ r. IsRef store.new.nodes r × ((v : Valuation) → value_of store.new.nodes r v ≡ (value_of store.old.nodes seen v || has control.now v))
        × ((v : Valuation) × IsIn control.now v) × ((v : Valuation) → (value_of store.old.nodes seen v && has control.now v) ≡ false))) }
{
    let set = store.thaw(control)?;
    let some = is_possible(store, set)?;
    if !some {
        return Ok(None);
    }
    let both = store.and(seen, set)?;
    let meets = is_possible(store, both)?;
    if meets {
        return Ok(None);
    }
    let more = store.or(seen, set)?;
    Ok(Some(more))
}

/// Whether the control sets of the locations are pairwise disjoint, and none is empty, with what was built of it.
fn are_apart_in(store: &mut Store, certificate: &Certificate) -> Result<bool, StoreFault>
    requires { (k : ℕ) (l : Location) → slice_get certificate.now.locations k ≡ Some l → IsOrderedOver store.old.variables l.control }
    ensures extends { Extends store.old store.new }
    ensures roomy { IsErrOf result StoreFault.Nodes → store.old.limit < 2 ^ (2 ^ store.old.variables) }
    ensures exact { IfOk result (λ yes. MatchBool yes (AreApart certificate.now) (AreApart certificate.now → ⊥)) }
{
    let mut seen = store.constant(false);
    for k in 0..certificate.locations.len() {
        let location = certificate.locations.at(k);
        let added = add_apart(store, seen, &location.control)?;
        let Some(more) = added else {
            return Ok(false);
        };
        seen = more;
    }
    Ok(true)
}

/// The same. The store is left as it was.
fn are_apart(store: &mut Store, certificate: &Certificate) -> Result<bool, StoreFault>
    requires { (k : ℕ) (l : Location) → slice_get certificate.now.locations k ≡ Some l → IsOrderedOver store.old.variables l.control }
    ensures same { store.new ≡ store.old }
    ensures roomy { IsErrOf result StoreFault.Nodes → store.old.limit < 2 ^ (2 ^ store.old.variables) }
    ensures exact { IfOk result (λ yes. MatchBool yes (AreApart certificate.now) (AreApart certificate.now → ⊥)) }
{
    let mark = store.mark();
    let answer = are_apart_in(store, certificate);
    store.release(mark);
    answer
}

/// Adds the number of a location that is left.
fn add_left(left: &mut Many<u32>, k: u32, is_left: bool) -> Result<(), Memory>
    ensures { OnOk result (left.new ≡ added_if is_left left.old k) }
{
    if !is_left {
        return Ok(());
    }
    left.push(k)?;
    Ok(())
}

/// The locations that are left, where each is left or passes each test. `led` has for each location the valuations that lead into it.
fn left_among(
    alloc: Global,
    store: &mut Store,
    parts: &Parts,
    questions: &Questions,
    certificate: &Certificate,
    led: &[Ref],
) -> Result<Option<Many<u32>>, StoreFault>
    requires given { (s : System) × IsGiven s store.old parts.now questions.now certificate.now × AreLedInto s certificate.now store.old led.now }
    ensures same { store.new ≡ store.old }
    ensures roomy { IsErrOf result StoreFault.Nodes → store.old.limit < 2 ^ (2 ^ store.old.variables) }
    ensures exact { IfOk result (λ o. (s : System) → IsGiven s store.old parts.now questions.now certificate.now
        → AreLedInto s certificate.now store.old led.now → MatchOption o
            ((k : ℕ) × (l : Location) × (slice_get certificate.now.locations k ≡ Some l) × IsLocated s certificate.now l None)
        (AreLocated s certificate.now (length certificate.now.locations))) }
{
    let mut left = Many::new(alloc);
    for k in 0..certificate.locations.len() {
        let location = certificate.locations.at(k);
        let found = location_standing(
            alloc,
            store,
            parts,
            questions,
            certificate,
            location,
            k as u32,
            led,
        )?;
        let Some(is_left) = found else {
            return Ok(None);
        };
        add_left(&mut left, k as u32, is_left)?;
    }
    Ok(Some(left))
}

/// The locations that are left, where each is left or passes each test, with what was built for all of them.
fn left_locations_in(
    alloc: Global,
    store: &mut Store,
    parts: &Parts,
    questions: &Questions,
    certificate: &Certificate,
) -> Result<Option<Many<u32>>, StoreFault>
    requires given { (s : System) × IsGiven s store.old parts.now questions.now certificate.now }
    ensures extends { Extends store.old store.new }
    ensures roomy { IsErrOf result StoreFault.Nodes → store.old.limit < 2 ^ (2 ^ store.old.variables) }
    ensures exact { IfOk result (λ o. (s : System) → IsGiven s store.old parts.now questions.now certificate.now
        → MatchOption o ((k : ℕ) × (l : Location) × (slice_get certificate.now.locations k ≡ Some l) × IsLocated s certificate.now l None)
        (AreLocated s certificate.now (length certificate.now.locations))) }
{
    let led = words::led_into_each(alloc, store, parts, certificate)?;
    left_among(alloc, store, parts, questions, certificate, led.as_slice())
}

/// The locations that are left, where each is left or passes each test. The store is left as it was.
fn left_locations(
    alloc: Global,
    store: &mut Store,
    parts: &Parts,
    questions: &Questions,
    certificate: &Certificate,
) -> Result<Option<Many<u32>>, StoreFault>
    requires given { (s : System) × IsGiven s store.old parts.now questions.now certificate.now }
    ensures same { store.new ≡ store.old }
    ensures roomy { IsErrOf result StoreFault.Nodes → store.old.limit < 2 ^ (2 ^ store.old.variables) }
    ensures exact { IfOk result (λ o. (s : System) → IsGiven s store.old parts.now questions.now certificate.now
        → MatchOption o ((k : ℕ) × (l : Location) × (slice_get certificate.now.locations k ≡ Some l) × IsLocated s certificate.now l None)
        (AreLocated s certificate.now (length certificate.now.locations))) }
{
    let mark = store.mark();
    let answer = left_locations_in(alloc, store, parts, questions, certificate);
    store.release(mark);
    answer
}

/// Which locations of a partition are left.
fn judgment(
    alloc: Global,
    store: &mut Store,
    parts: &Parts,
    questions: &Questions,
    certificate: &Certificate,
) -> Result<Option<Many<u32>>, StoreFault>
    requires given { (s : System) × IsGiven s store.old parts.now questions.now certificate.now }
    ensures exact { IfOk result (λ o. (s : System) → IsGiven s store.old parts.now questions.now certificate.now
        → MatchOption o ((left : List ℕ) → IsMarked s certificate.now left → ⊥) (IsMarked s certificate.now)) }
    ensures same { store.new ≡ store.old }
    ensures roomy { IsErrOf result StoreFault.Nodes → store.old.limit < 2 ^ (2 ^ store.old.variables) }
{
    let missing = initial_word(store, parts, certificate)?;
    if let Some(_) = missing {
        return Ok(None);
    }
    let apart = are_apart(store, certificate)?;
    if !apart {
        return Ok(None);
    }
    left_locations(alloc, store, parts, questions, certificate)
}

/// Which locations of a partition are left: a list exactly where the certificate is all that a left partition is, but that some location need be
/// left. With an empty list the certificate is accepted, and its locations are disjoint and none is empty; with another it is a left partition
/// of that list. The store is left as it was, after a fault too. Nodes comes where the store has no room for what is built on the way, never
/// where its limit holds every function of its variables, and Memory where there is none.
pub fn judge(
    alloc: Global,
    store: &mut Store,
    parts: &Parts,
    questions: &Questions,
    certificate: &Certificate,
) -> Result<Option<Many<u32>>, StoreFault>
    requires given { (s : System) × IsGiven s store.old parts.now questions.now certificate.now }
    ensures exact { IfOk result (λ o. (s : System) → IsGiven s store.old parts.now questions.now certificate.now
        → MatchOption o ((left : List ℕ) → IsMarked s certificate.now left → ⊥) (IsMarked s certificate.now)) }
    ensures left { IfOk result (λ o. (s : System) → IsGiven s store.old parts.now questions.now certificate.now
        → (left : List ℕ) → o ≡ Some left → 0 < length left → IsLeftPartition s certificate.now left) }
    ensures accepted { IfOk result (λ o. (s : System) → IsGiven s store.old parts.now questions.now certificate.now
        → o ≡ Some [] → IsAccepted s certificate.now) }
    ensures only { IfOk result (λ o. (s : System) → IsGiven s store.old parts.now questions.now certificate.now
        → (left : List ℕ) → IsLeftPartition s certificate.now left → IsSome o) }
    ensures same { store.new ≡ store.old }
    ensures roomy { IsErrOf result StoreFault.Nodes → store.old.limit < 2 ^ (2 ^ store.old.variables) }
{
    judgment(alloc, store, parts, questions, certificate)
}
