//! Entries of a location whose steps lead into several others.

ghost use Rattle.std.specs.Prelude.{◌≡◌, ℕ, ◌+◌, ◌<◌, ◌≤◌, ◌^◌, All, IfOk, Some, IfSome, IsSomeAnd, IsErrOf, length, slice_get};
ghost use Rattle.rv_diagram.specs.Nodes.{IsRef, valuation_of};
ghost use Rattle.rv_diagram.specs.Growing.{Extends};
ghost use Rattle.rv_proofs.specs.Systems.{System};
ghost use Rattle.rv_cover.specs.declared.frame.Frame.{Frame as FrameModel};
ghost use Rattle.rv_cover.specs.Entries.{AreShortEntries};
ghost use Rattle.rv_cover.specs.Covering.{IsCover};
ghost use Rattle.rv_cover.specs.Seeking.{IsSearched};
ghost use Rattle.rv_cover.specs.declared.several.Target.{Target as TargetModel};
ghost use Rattle.rv_cover.specs.Toward.{IsTarget, LeadsInto};

use crate::covering::{Cover, add_found_dead, add_found_step, entries_in};
use crate::finding::{dead_from, step_into};
use crate::frame::Frame;
use crate::refs::both;
use rv_base::Many;
use rv_cases::{Questions, sample_of};
use rv_diagram::{Ref, Store, StoreFault};
use rv_proofs::Entry;
use rv_rows::Row;
use std::alloc::Global;

/// As many turns as may be needed to find the most entries that a location may have, and that nothing is left.
const TURNS: usize = 16_385;

/// A location that steps may lead into.
#[derive(Debug, Drop)]
pub struct Target {
    /// Its number in the certificate.
    pub number: u32,
    /// The valuations at which a step may lead into it: those whose next control state is one of its own, and at which a step may be taken.
    pub into: Ref,
    /// The rows that a step has to prove after its updates.
    pub wanted: Many<Row>,
}

/// The cover with a dead entry more, at this valuation, or none where the premises are not refuted there.
fn add_dead_at(
    alloc: Global,
    store: &mut Store,
    frame: &Frame,
    sample: &Many<bool>,
    questions: &Questions,
    given: &Many<Row>,
    cover: Cover,
) -> Result<Option<Cover>, StoreFault>
    requires sized { length sample.now ≡ store.old.variables }
    requires searched { (s : System) × IsSearched s store.old questions.now frame.now given.now }
    requires cover { IsCover store.old.nodes frame.now (length given.now + length questions.now.rows) cover }
    ensures extends { Extends store.old store.new }
    ensures roomy { IsErrOf result StoreFault.Nodes → store.old.limit < 2 ^ (2 ^ store.old.variables) }
    ensures cover { IfOk result (λ o. IfSome o (IsCover store.new.nodes frame.now (length given.now + length questions.now.rows))) }
{
    match dead_from(alloc, store, frame, sample, questions, given)? {
        Some(found) => add_found_dead(store, frame, found, cover),
        None => Ok(None),
    }
}

/// The cover with a step into a target more, at this valuation, or none where the target's rows are not proved there.
fn add_step_into(
    alloc: Global,
    store: &mut Store,
    frame: &Frame,
    sample: &Many<bool>,
    questions: &Questions,
    given: &Many<Row>,
    target: &Target,
    scope: Ref,
    cover: Cover,
) -> Result<Option<Cover>, StoreFault>
    requires sized { length sample.now ≡ store.old.variables }
    requires searched { (s : System) × IsSearched s store.old questions.now frame.now given.now × IsTarget s store.old.nodes target.now }
    requires scope { IsRef store.old.nodes scope }
    requires cover { IsCover store.old.nodes frame.now (length given.now + length questions.now.rows) cover }
    ensures extends { Extends store.old store.new }
    ensures roomy { IsErrOf result StoreFault.Nodes → store.old.limit < 2 ^ (2 ^ store.old.variables) }
    ensures cover { IfOk result (λ o. IfSome o (IsCover store.new.nodes frame.now (length given.now + length questions.now.rows))) }
{
    let number = target.number;
    match step_into(
        alloc,
        store,
        frame,
        sample,
        questions,
        given,
        &target.wanted,
        number,
    )? {
        Some(found) => add_found_step(store, frame, scope, target.into, found, cover),
        None => Ok(None),
    }
}

/// The cover with an entry more, at the least valuation that is left: a step into the target, or a dead one where the target's rows are not
/// proved there.
fn add_toward(
    alloc: Global,
    store: &mut Store,
    frame: &Frame,
    questions: &Questions,
    given: &Many<Row>,
    target: &Target,
    scope: Ref,
    cover: Cover,
) -> Result<Option<Cover>, StoreFault>
    requires searched { (s : System) × IsSearched s store.old questions.now frame.now given.now × IsTarget s store.old.nodes target.now }
    requires scope { IsRef store.old.nodes scope }
    requires cover { IsCover store.old.nodes frame.now (length given.now + length questions.now.rows) cover }
    ensures extends { Extends store.old store.new }
    ensures roomy { IsErrOf result StoreFault.Nodes → store.old.limit < 2 ^ (2 ^ store.old.variables) }
    ensures cover { IfOk result (λ o. IfSome o (IsCover store.new.nodes frame.now (length given.now + length questions.now.rows))) }
{
    let sample = sample_of(alloc, store, cover.left)?;
    let number = target.number;
    match step_into(
        alloc,
        store,
        frame,
        &sample,
        questions,
        given,
        &target.wanted,
        number,
    )? {
        Some(found) => add_found_step(store, frame, scope, target.into, found, cover),
        None => add_dead_at(alloc, store, frame, &sample, questions, given, cover),
    }
}

/// The cover whose `left` are those valuations that meet no condition, that the claim takes, and at which a step may lead into a target.
fn turned(store: &mut Store, taken: Ref, into: Ref, cover: Cover) -> Result<Cover, StoreFault>
    requires taken { IsRef store.old.nodes taken }
    requires into { IsRef store.old.nodes into }
    requires rest { IsRef store.old.nodes cover.rest }
    ensures extends { Extends store.old store.new }
    ensures roomy { IsErrOf result StoreFault.Nodes → store.old.limit < 2 ^ (2 ^ store.old.variables) }
    ensures cover { (f : FrameModel) (n : ℕ) → IsCover store.old.nodes f n cover → IfOk result (IsCover store.new.nodes f n) }
{
    let Cover {
        entries,
        left: _,
        rest,
    } = cover;
    let path = both(store, taken, into)?;
    let left = both(store, rest, path)?;
    Ok(Cover {
        entries,
        left,
        rest,
    })
}

/// The cover with entries until no valuation is left, steps into the target where that can be, or none.
fn add_steps_left(
    alloc: Global,
    store: &mut Store,
    frame: &Frame,
    questions: &Questions,
    given: &Many<Row>,
    target: &Target,
    scope: Ref,
    begun: Cover,
) -> Result<Option<Cover>, StoreFault>
    requires searched { (s : System) × IsSearched s store.old questions.now frame.now given.now × IsTarget s store.old.nodes target.now }
    requires scope { IsRef store.old.nodes scope }
    requires cover { IsCover store.old.nodes frame.now (length given.now + length questions.now.rows) begun }
    ensures extends { Extends store.old store.new }
    ensures roomy { IsErrOf result StoreFault.Nodes → store.old.limit < 2 ^ (2 ^ store.old.variables) }
    ensures cover { IfOk result (λ o. IfSome o (IsCover store.new.nodes frame.now (length given.now + length questions.now.rows))) }
{
    let mut cover = begun;
    for _turn in 0..TURNS {
        if store.is_false(cover.left) {
            return Ok(Some(cover));
        }
        match add_toward(alloc, store, frame, questions, given, target, scope, cover)? {
            Some(next) => cover = next,
            None => return Ok(None),
        }
    }
    Ok(None)
}

/// The cover with entries until no valuation is left that the claim takes and at which a step may lead into the target, or none.
fn add_steps_into(
    alloc: Global,
    store: &mut Store,
    frame: &Frame,
    questions: &Questions,
    given: &Many<Row>,
    target: &Target,
    scope: Ref,
    taken: Ref,
    begun: Cover,
) -> Result<Option<Cover>, StoreFault>
    requires searched { (s : System) × IsSearched s store.old questions.now frame.now given.now × IsTarget s store.old.nodes target.now }
    requires scope { IsRef store.old.nodes scope }
    requires taken { IsRef store.old.nodes taken }
    requires cover { IsCover store.old.nodes frame.now (length given.now + length questions.now.rows) begun }
    ensures extends { Extends store.old store.new }
    ensures roomy { IsErrOf result StoreFault.Nodes → store.old.limit < 2 ^ (2 ^ store.old.variables) }
    ensures cover { IfOk result (λ o. IfSome o (IsCover store.new.nodes frame.now (length given.now + length questions.now.rows))) }
{
    let cover = turned(store, taken, target.into, begun)?;
    add_steps_left(alloc, store, frame, questions, given, target, scope, cover)
}

/// The same for each target in turn.
fn add_all_steps(
    alloc: Global,
    store: &mut Store,
    frame: &Frame,
    questions: &Questions,
    given: &Many<Row>,
    targets: &Many<Target>,
    scope: Ref,
    taken: Ref,
    begun: Cover,
) -> Result<Option<Cover>, StoreFault>
    requires searched { (s : System) × IsSearched s store.old questions.now frame.now given.now × All (IsTarget s store.old.nodes) targets.now }
    requires scope { IsRef store.old.nodes scope }
    requires taken { IsRef store.old.nodes taken }
    requires cover { IsCover store.old.nodes frame.now (length given.now + length questions.now.rows) begun }
    ensures extends { Extends store.old store.new }
    ensures roomy { IsErrOf result StoreFault.Nodes → store.old.limit < 2 ^ (2 ^ store.old.variables) }
    ensures cover { IfOk result (λ o. IfSome o (IsCover store.new.nodes frame.now (length given.now + length questions.now.rows))) }
{
    let mut cover = begun;
    for place in 0..targets.len() {
        let target = targets.at(place);
        match add_steps_into(
            alloc, store, frame, questions, given, target, scope, taken, cover,
        )? {
            Some(next) => cover = next,
            None => return Ok(None),
        }
    }
    Ok(Some(cover))
}

/// The number of the first target that a step at this valuation may lead into, or none.
fn target_at(store: &Store, targets: &Many<Target>, sample: &Many<bool>) -> Option<usize>
    requires sized { length sample.now ≡ store.now.variables }
    requires targets { (s : System) × All (IsTarget s store.now.nodes) targets.now }
    ensures known { IfSome result (λ place. place < length targets.now) }
    ensures here { IfSome result (λ place. (t : TargetModel) × (slice_get targets.now place ≡ Some t)
        × LeadsInto store.now.nodes (valuation_of sample.now) t) }
    ensures first { (n : ℕ) (t : TargetModel) → slice_get targets.now n ≡ Some t → LeadsInto store.now.nodes (valuation_of sample.now) t
        → IsSomeAnd result (λ place. place ≤ n) }
{
    for place in 0..targets.len() {
        let target = targets.at(place);
        if store.value_at(target.into, sample) {
            return Some(place);
        }
    }
    None
}

/// The cover with a step more, at this valuation, into the first target that it may lead into, or none.
fn add_first_step(
    alloc: Global,
    store: &mut Store,
    frame: &Frame,
    sample: &Many<bool>,
    questions: &Questions,
    given: &Many<Row>,
    targets: &Many<Target>,
    scope: Ref,
    cover: Cover,
) -> Result<Option<Cover>, StoreFault>
    requires sized { length sample.now ≡ store.old.variables }
    requires searched { (s : System) × IsSearched s store.old questions.now frame.now given.now × All (IsTarget s store.old.nodes) targets.now }
    requires scope { IsRef store.old.nodes scope }
    requires cover { IsCover store.old.nodes frame.now (length given.now + length questions.now.rows) cover }
    ensures extends { Extends store.old store.new }
    ensures roomy { IsErrOf result StoreFault.Nodes → store.old.limit < 2 ^ (2 ^ store.old.variables) }
    ensures cover { IfOk result (λ o. IfSome o (IsCover store.new.nodes frame.now (length given.now + length questions.now.rows))) }
{
    match target_at(store, targets, sample) {
        Some(place) => {
            let target = targets.at(place);
            add_step_into(
                alloc, store, frame, sample, questions, given, target, scope, cover,
            )
        }
        None => Ok(None),
    }
}

/// The cover with an entry more, at the least valuation that meets no condition: a dead one, or a step where nothing refutes the premises.
fn add_rest(
    alloc: Global,
    store: &mut Store,
    frame: &Frame,
    questions: &Questions,
    given: &Many<Row>,
    targets: &Many<Target>,
    scope: Ref,
    cover: Cover,
) -> Result<Option<Cover>, StoreFault>
    requires searched { (s : System) × IsSearched s store.old questions.now frame.now given.now × All (IsTarget s store.old.nodes) targets.now }
    requires scope { IsRef store.old.nodes scope }
    requires cover { IsCover store.old.nodes frame.now (length given.now + length questions.now.rows) cover }
    ensures extends { Extends store.old store.new }
    ensures roomy { IsErrOf result StoreFault.Nodes → store.old.limit < 2 ^ (2 ^ store.old.variables) }
    ensures cover { IfOk result (λ o. IfSome o (IsCover store.new.nodes frame.now (length given.now + length questions.now.rows))) }
{
    let sample = sample_of(alloc, store, cover.rest)?;
    match dead_from(alloc, store, frame, &sample, questions, given)? {
        Some(found) => add_found_dead(store, frame, found, cover),
        None => add_first_step(
            alloc, store, frame, &sample, questions, given, targets, scope, cover,
        ),
    }
}

/// The cover with entries, dead ones where that can be, until no valuation meets no condition, or none.
fn add_rests(
    alloc: Global,
    store: &mut Store,
    frame: &Frame,
    questions: &Questions,
    given: &Many<Row>,
    targets: &Many<Target>,
    scope: Ref,
    begun: Cover,
) -> Result<Option<Cover>, StoreFault>
    requires searched { (s : System) × IsSearched s store.old questions.now frame.now given.now × All (IsTarget s store.old.nodes) targets.now }
    requires scope { IsRef store.old.nodes scope }
    requires cover { IsCover store.old.nodes frame.now (length given.now + length questions.now.rows) begun }
    ensures extends { Extends store.old store.new }
    ensures roomy { IsErrOf result StoreFault.Nodes → store.old.limit < 2 ^ (2 ^ store.old.variables) }
    ensures cover { IfOk result (λ o. IfSome o (IsCover store.new.nodes frame.now (length given.now + length questions.now.rows))) }
{
    let mut cover = begun;
    for _turn in 0..TURNS {
        if store.is_false(cover.rest) {
            return Ok(Some(cover));
        }
        match add_rest(alloc, store, frame, questions, given, targets, scope, cover)? {
            Some(next) => cover = next,
            None => return Ok(None),
        }
    }
    Ok(None)
}

/// The cover with an entry more, at the least valuation that is left: a step into the target by the rows `lean`, which are as many as the given
/// ones, or else one by these, or a dead one where the target's rows are not proved there.
fn add_leanly(
    alloc: Global,
    store: &mut Store,
    frame: &Frame,
    questions: &Questions,
    lean: &Many<Row>,
    given: &Many<Row>,
    target: &Target,
    scope: Ref,
    cover: Cover,
) -> Result<Option<Cover>, StoreFault>
    requires searched { (s : System) × IsSearched s store.old questions.now frame.now given.now × IsTarget s store.old.nodes target.now }
    requires same_many { length lean.now ≡ length given.now }
    requires scope { IsRef store.old.nodes scope }
    requires cover { IsCover store.old.nodes frame.now (length given.now + length questions.now.rows) cover }
    ensures extends { Extends store.old store.new }
    ensures roomy { IsErrOf result StoreFault.Nodes → store.old.limit < 2 ^ (2 ^ store.old.variables) }
    ensures cover { IfOk result (λ o. IfSome o (IsCover store.new.nodes frame.now (length given.now + length questions.now.rows))) }
{
    let sample = sample_of(alloc, store, cover.left)?;
    let number = target.number;
    match step_into(
        alloc,
        store,
        frame,
        &sample,
        questions,
        lean,
        &target.wanted,
        number,
    )? {
        Some(found) => add_found_step(store, frame, scope, target.into, found, cover),
        None => add_toward(alloc, store, frame, questions, given, target, scope, cover),
        // (the given rows may prove what the lean ones do not, and where they do not
        // either they may refute)
    }
}

/// The cover with entries until no valuation is left, steps into the target where that can be, by the rows `lean` first, or none.
fn add_lean_steps(
    alloc: Global,
    store: &mut Store,
    frame: &Frame,
    questions: &Questions,
    lean: &Many<Row>,
    given: &Many<Row>,
    target: &Target,
    scope: Ref,
    begun: Cover,
) -> Result<Option<Cover>, StoreFault>
    requires searched { (s : System) × IsSearched s store.old questions.now frame.now given.now × IsTarget s store.old.nodes target.now }
    requires same_many { length lean.now ≡ length given.now }
    requires scope { IsRef store.old.nodes scope }
    requires cover { IsCover store.old.nodes frame.now (length given.now + length questions.now.rows) begun }
    ensures extends { Extends store.old store.new }
    ensures roomy { IsErrOf result StoreFault.Nodes → store.old.limit < 2 ^ (2 ^ store.old.variables) }
    ensures cover { IfOk result (λ o. IfSome o (IsCover store.new.nodes frame.now (length given.now + length questions.now.rows))) }
{
    let mut cover = begun;
    for _turn in 0..TURNS {
        if store.is_false(cover.left) {
            return Ok(Some(cover));
        }
        match add_leanly(
            alloc, store, frame, questions, lean, given, target, scope, cover,
        )? {
            Some(next) => cover = next,
            None => return Ok(None),
        }
    }
    Ok(None)
}

/// The entries of a location whose valuations are `scope` and whose rows are `given` for the steps into one target, or none where the search gives
/// up: steps that prove the target's rows, by the rows `lean` where these do, which are as many, and dead entries, until every valuation of the
/// scope that the claim takes, by `taken`, and at which a step may lead into the target meets a condition. It promises of them what
/// `entries_toward` promises. Nodes and Memory come as there; what was built stays in the store.
pub fn steps_toward(
    alloc: Global,
    store: &mut Store,
    frame: &Frame,
    questions: &Questions,
    scope: Ref,
    taken: Ref,
    lean: &Many<Row>,
    given: &Many<Row>,
    target: &Target,
) -> Result<Option<Many<Entry>>, StoreFault>
    requires searched { (s : System) × IsSearched s store.old questions.now frame.now given.now × IsTarget s store.old.nodes target.now }
    requires same_many { length lean.now ≡ length given.now }
    requires scope { IsRef store.old.nodes scope }
    requires taken { IsRef store.old.nodes taken }
    ensures extends { Extends store.old store.new }
    ensures roomy { IsErrOf result StoreFault.Nodes → store.old.limit < 2 ^ (2 ^ store.old.variables) }
    ensures entries { IfOk result (λ o. IfSome o (AreShortEntries frame.now (length given.now + length questions.now.rows))) }
{
    let entries = Many::new(alloc);
    let begun = Cover {
        entries,
        left: scope,
        rest: scope,
    };
    let cover = turned(store, taken, target.into, begun)?;
    let whole = add_lean_steps(
        alloc, store, frame, questions, lean, given, target, scope, cover,
    )?;
    Ok(entries_in(whole))
}

/// The entries of a location whose valuations are `scope` and whose rows are `given`, or none where the search gives up. A step leads into one of
/// the targets and proves its rows; where the claim takes a valuation is `taken`. There steps come first, into each target in turn, and then
/// dead entries, and steps where nothing refutes the premises, until every valuation of the scope meets a condition. It promises no more of
/// them than that they are at most 16,384, have the ranges of a document, and are no turns of a loop: the checker judges them. Nodes comes where
/// the store has no room for what is built on the way, never where its limit holds every function of its variables, and Memory where there is
/// none; what was built stays in the store, after a fault too.
pub fn entries_toward(
    alloc: Global,
    store: &mut Store,
    frame: &Frame,
    questions: &Questions,
    scope: Ref,
    taken: Ref,
    given: &Many<Row>,
    targets: &Many<Target>,
) -> Result<Option<Many<Entry>>, StoreFault>
    requires searched { (s : System) × IsSearched s store.old questions.now frame.now given.now × All (IsTarget s store.old.nodes) targets.now }
    requires scope { IsRef store.old.nodes scope }
    requires taken { IsRef store.old.nodes taken }
    ensures extends { Extends store.old store.new }
    ensures roomy { IsErrOf result StoreFault.Nodes → store.old.limit < 2 ^ (2 ^ store.old.variables) }
    ensures entries { IfOk result (λ o. IfSome o (AreShortEntries frame.now (length given.now + length questions.now.rows))) }
{
    let entries = Many::new(alloc);
    let begun = Cover {
        entries,
        left: scope,
        rest: scope,
    };
    match add_all_steps(
        alloc, store, frame, questions, given, targets, scope, taken, begun,
    )? {
        Some(steps) => {
            let whole = add_rests(alloc, store, frame, questions, given, targets, scope, steps)?;
            Ok(entries_in(whole))
        }
        None => Ok(None),
    }
}
