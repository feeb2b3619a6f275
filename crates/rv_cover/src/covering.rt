//! The entries of a location.

ghost use Rattle.std.specs.Prelude.{◌≡◌, ℕ, ◌+◌, ◌<◌, ◌^◌, List, IfOk, IfSome, IsErrOf, length};
ghost use Rattle.rv_diagram.specs.declared.Triple.{Triple as TripleModel};
ghost use Rattle.rv_diagram.specs.Nodes.{IsRef, IsOrderedOver};
ghost use Rattle.rv_diagram.specs.Growing.{Extends};
ghost use Rattle.rv_proofs.specs.Systems.{System};
ghost use Rattle.rv_proofs.specs.Ranges.{AreKept};
ghost use Rattle.rv_cases.specs.Conditions.{AreRefs};
ghost use Rattle.rv_cover.specs.declared.frame.Frame.{Frame as FrameModel};
ghost use Rattle.rv_cover.specs.Entries.{IsPlainKind, AreShortEntries};
ghost use Rattle.rv_cover.specs.Covering.{IsCover};
ghost use Rattle.rv_cover.specs.Seeking.{IsSearched};

use crate::conditions::{condition_of, step_condition};
use crate::finding::{Found, dead_at, step_at};
use crate::frame::Frame;
use crate::refs::{all_of, both, within, without};
use rv_base::Many;
use rv_cases::{Questions, sample_of};
use rv_diagram::{Frozen, Ref, Store, StoreFault};
use rv_proofs::{Entry, EntryKind};
use rv_rows::Row;
use std::alloc::Global;

/// As many entries as a location may have here.
const MOST: usize = 16_384;

/// As many turns as may be needed to find these entries, and that nothing is left.
const TURNS: usize = 16_385;

/// Entries, and what they leave of a location's scope.
#[derive(Drop)]
pub struct Cover {
    /// The entries.
    pub entries: Many<Entry>,
    /// The valuations that the claim takes and that meet no condition.
    pub left: Ref,
    /// All valuations that meet no condition.
    pub rest: Ref,
}

/// The cover with one entry more, or none where there are too many or the condition reads what it may not.
#[tactic(auto, using(crate::proofs::Chaining::short_more))]
fn add_entry(
    store: &mut Store,
    frame: &Frame,
    cover: Cover,
    condition: Ref,
    kind: EntryKind,
) -> Result<Option<Cover>, StoreFault>
    requires condition { IsRef store.old.nodes condition }
    requires left { IsRef store.old.nodes cover.left }
    requires rest { IsRef store.old.nodes cover.rest }
    ensures extends { Extends store.old store.new }
    ensures roomy { IsErrOf result StoreFault.Nodes → store.old.limit < 2 ^ (2 ^ store.old.variables) }
    ensures cover { (n : ℕ) → IsCover store.old.nodes frame.now n cover → IsPlainKind n kind
        → IfOk result (λ o. IfSome o (IsCover store.new.nodes frame.now n)) }
{
    let Cover {
        entries,
        left,
        rest,
    } = cover;
    if entries.len() >= MOST {
        return Ok(None);
    }
    let left = without(store, left, condition)?;
    let rest = without(store, rest, condition)?;
    match condition_of(store, frame, condition)? {
        Some(condition) => {
            let mut entries = entries;
            entries.push(Entry { condition, kind })?;
            Ok(Some(Cover {
                entries,
                left,
                rest,
            }))
        }
        None => Ok(None),
    }
}

/// The cover with one entry more: a step that was found, where its answers are given and a step may be taken, which is `into`.
#[tactic(auto, using(crate::proofs::Chaining::cover_later))]
pub fn add_found_step(
    store: &mut Store,
    frame: &Frame,
    scope: Ref,
    into: Ref,
    found: Found,
    cover: Cover,
) -> Result<Option<Cover>, StoreFault>
    requires scope { IsRef store.old.nodes scope }
    requires into { IsRef store.old.nodes into }
    requires answers { AreRefs store.old.nodes found.answers.items }
    requires left { IsRef store.old.nodes cover.left }
    requires rest { IsRef store.old.nodes cover.rest }
    ensures extends { Extends store.old store.new }
    ensures roomy { IsErrOf result StoreFault.Nodes → store.old.limit < 2 ^ (2 ^ store.old.variables) }
    ensures cover { (n : ℕ) → IsCover store.old.nodes frame.now n cover → IsPlainKind n found.kind
        → IfOk result (λ o. IfSome o (IsCover store.new.nodes frame.now n)) }
{
    let Found { kind, answers } = found;
    let condition = step_condition(store, scope, into, answers.as_slice())?;
    add_entry(store, frame, cover, condition, kind)
}

/// The cover with one entry more: a dead one that was found, where its answers are given.
#[tactic(auto, using(crate::proofs::Chaining::cover_later))]
pub fn add_found_dead(
    store: &mut Store,
    frame: &Frame,
    found: Found,
    cover: Cover,
) -> Result<Option<Cover>, StoreFault>
    requires answers { AreRefs store.old.nodes found.answers.items }
    requires left { IsRef store.old.nodes cover.left }
    requires rest { IsRef store.old.nodes cover.rest }
    ensures extends { Extends store.old store.new }
    ensures roomy { IsErrOf result StoreFault.Nodes → store.old.limit < 2 ^ (2 ^ store.old.variables) }
    ensures cover { (n : ℕ) → IsCover store.old.nodes frame.now n cover → IsPlainKind n found.kind
        → IfOk result (λ o. IfSome o (IsCover store.new.nodes frame.now n)) }
{
    let Found { kind, answers } = found;
    let condition = all_of(store, answers.as_slice())?;
    add_entry(store, frame, cover, condition, kind)
}

/// The cover with a step more, at this valuation, or none where the wanted rows are not proved there.
fn add_step_at(
    alloc: Global,
    store: &mut Store,
    frame: &Frame,
    sample: &Many<bool>,
    questions: &Questions,
    lean: &Many<Row>,
    given: &Many<Row>,
    wanted: &Many<Row>,
    scope: Ref,
    safe: Ref,
    cover: Cover,
) -> Result<Option<Cover>, StoreFault>
    requires sized { length sample.now ≡ store.old.variables }
    requires searched { (s : System) × IsSearched s store.old questions.now frame.now given.now × AreKept s wanted.now }
    requires same_many { length lean.now ≡ length given.now }
    requires scope { IsRef store.old.nodes scope }
    requires safe { IsRef store.old.nodes safe }
    requires cover { IsCover store.old.nodes frame.now (length given.now + length questions.now.rows) cover }
    ensures extends { Extends store.old store.new }
    ensures roomy { IsErrOf result StoreFault.Nodes → store.old.limit < 2 ^ (2 ^ store.old.variables) }
    ensures cover { IfOk result (λ o. IfSome o (IsCover store.new.nodes frame.now (length given.now + length questions.now.rows))) }
{
    match step_at(alloc, store, frame, sample, questions, lean, given, wanted)? {
        Some(found) => add_found_step(store, frame, scope, safe, found, cover),
        None => Ok(None),
    }
}

/// The cover with a step more, at the least valuation that the claim takes and that meets no condition.
fn add_step(
    alloc: Global,
    store: &mut Store,
    frame: &Frame,
    questions: &Questions,
    lean: &Many<Row>,
    given: &Many<Row>,
    wanted: &Many<Row>,
    scope: Ref,
    safe: Ref,
    cover: Cover,
) -> Result<Option<Cover>, StoreFault>
    requires searched { (s : System) × IsSearched s store.old questions.now frame.now given.now × AreKept s wanted.now }
    requires same_many { length lean.now ≡ length given.now }
    requires scope { IsRef store.old.nodes scope }
    requires safe { IsRef store.old.nodes safe }
    requires cover { IsCover store.old.nodes frame.now (length given.now + length questions.now.rows) cover }
    ensures extends { Extends store.old store.new }
    ensures roomy { IsErrOf result StoreFault.Nodes → store.old.limit < 2 ^ (2 ^ store.old.variables) }
    ensures cover { IfOk result (λ o. IfSome o (IsCover store.new.nodes frame.now (length given.now + length questions.now.rows))) }
{
    let sample = sample_of(alloc, store, cover.left)?;
    add_step_at(
        alloc, store, frame, &sample, questions, lean, given, wanted, scope, safe, cover,
    )
}

/// The cover with steps until the claim takes no valuation that is left, or none.
fn add_steps(
    alloc: Global,
    store: &mut Store,
    frame: &Frame,
    questions: &Questions,
    lean: &Many<Row>,
    given: &Many<Row>,
    wanted: &Many<Row>,
    scope: Ref,
    safe: Ref,
    begun: Cover,
) -> Result<Option<Cover>, StoreFault>
    requires searched { (s : System) × IsSearched s store.old questions.now frame.now given.now × AreKept s wanted.now }
    requires same_many { length lean.now ≡ length given.now }
    requires scope { IsRef store.old.nodes scope }
    requires safe { IsRef store.old.nodes safe }
    requires cover { IsCover store.old.nodes frame.now (length given.now + length questions.now.rows) begun }
    ensures extends { Extends store.old store.new }
    ensures roomy { IsErrOf result StoreFault.Nodes → store.old.limit < 2 ^ (2 ^ store.old.variables) }
    ensures cover { IfOk result (λ o. IfSome o (IsCover store.new.nodes frame.now (length given.now + length questions.now.rows))) }
{
    let mut cover = begun;
    for _turn in 0..TURNS {
        if store.is_false(cover.left) {
            return Ok(Some(cover));
        }
        match add_step(
            alloc, store, frame, questions, lean, given, wanted, scope, safe, cover,
        )? {
            Some(next) => cover = next,
            None => return Ok(None),
        }
    }
    Ok(None)
}

/// The cover with a step more, at this valuation, or none where it is not safe or the wanted rows are not proved there.
fn add_safe_step(
    alloc: Global,
    store: &mut Store,
    frame: &Frame,
    sample: &Many<bool>,
    questions: &Questions,
    lean: &Many<Row>,
    given: &Many<Row>,
    wanted: &Many<Row>,
    scope: Ref,
    safe: Ref,
    cover: Cover,
) -> Result<Option<Cover>, StoreFault>
    requires sized { length sample.now ≡ store.old.variables }
    requires searched { (s : System) × IsSearched s store.old questions.now frame.now given.now × AreKept s wanted.now }
    requires same_many { length lean.now ≡ length given.now }
    requires scope { IsRef store.old.nodes scope }
    requires safe { IsRef store.old.nodes safe }
    requires cover { IsCover store.old.nodes frame.now (length given.now + length questions.now.rows) cover }
    ensures extends { Extends store.old store.new }
    ensures roomy { IsErrOf result StoreFault.Nodes → store.old.limit < 2 ^ (2 ^ store.old.variables) }
    ensures cover { IfOk result (λ o. IfSome o (IsCover store.new.nodes frame.now (length given.now + length questions.now.rows))) }
{
    let _count = store.mark();
    if !store.value_at(safe, sample) {
        return Ok(None);
    }
    add_step_at(
        alloc, store, frame, sample, questions, lean, given, wanted, scope, safe, cover,
    )
}

/// The cover with an entry more, at the least valuation that meets no condition: a dead one, or a step where nothing refutes the premises.
fn add_dead(
    alloc: Global,
    store: &mut Store,
    frame: &Frame,
    questions: &Questions,
    lean: &Many<Row>,
    given: &Many<Row>,
    wanted: &Many<Row>,
    scope: Ref,
    safe: Ref,
    cover: Cover,
) -> Result<Option<Cover>, StoreFault>
    requires searched { (s : System) × IsSearched s store.old questions.now frame.now given.now × AreKept s wanted.now }
    requires same_many { length lean.now ≡ length given.now }
    requires scope { IsRef store.old.nodes scope }
    requires safe { IsRef store.old.nodes safe }
    requires cover { IsCover store.old.nodes frame.now (length given.now + length questions.now.rows) cover }
    ensures extends { Extends store.old store.new }
    ensures roomy { IsErrOf result StoreFault.Nodes → store.old.limit < 2 ^ (2 ^ store.old.variables) }
    ensures cover { IfOk result (λ o. IfSome o (IsCover store.new.nodes frame.now (length given.now + length questions.now.rows))) }
{
    let sample = sample_of(alloc, store, cover.rest)?;
    match dead_at(alloc, store, frame, &sample, questions, lean, given)? {
        Some(found) => add_found_dead(store, frame, found, cover),
        None => add_safe_step(
            alloc, store, frame, &sample, questions, lean, given, wanted, scope, safe, cover,
        ),
    }
}

/// The cover with entries, dead ones where that can be, until no valuation is left, or none.
fn add_dead_entries(
    alloc: Global,
    store: &mut Store,
    frame: &Frame,
    questions: &Questions,
    lean: &Many<Row>,
    given: &Many<Row>,
    wanted: &Many<Row>,
    scope: Ref,
    safe: Ref,
    begun: Cover,
) -> Result<Option<Cover>, StoreFault>
    requires searched { (s : System) × IsSearched s store.old questions.now frame.now given.now × AreKept s wanted.now }
    requires same_many { length lean.now ≡ length given.now }
    requires scope { IsRef store.old.nodes scope }
    requires safe { IsRef store.old.nodes safe }
    requires cover { IsCover store.old.nodes frame.now (length given.now + length questions.now.rows) begun }
    ensures extends { Extends store.old store.new }
    ensures roomy { IsErrOf result StoreFault.Nodes → store.old.limit < 2 ^ (2 ^ store.old.variables) }
    ensures cover { IfOk result (λ o. IfSome o (IsCover store.new.nodes frame.now (length given.now + length questions.now.rows))) }
{
    let mut cover = begun;
    for _turn in 0..TURNS {
        if store.is_false(cover.rest) {
            return Ok(Some(cover));
        }
        match add_dead(
            alloc, store, frame, questions, lean, given, wanted, scope, safe, cover,
        )? {
            Some(next) => cover = next,
            None => return Ok(None),
        }
    }
    Ok(None)
}

/// The entries of a cover.
pub fn entries_in(cover: Option<Cover>) -> Option<Many<Entry>>
    ensures { (nodes : List TripleModel) (f : FrameModel) (n : ℕ) → IfSome cover (IsCover nodes f n) → IfSome result (AreShortEntries f n) }
{
    match cover {
        Some(cover) => {
            let Cover {
                entries,
                left: _,
                rest: _,
            } = cover;
            Some(entries)
        }
        None => None,
    }
}

/// The entries of a scope of which steps are to cover `left` and entries of either kind `rest`, or none, with what was built of them.
fn cover_of(
    alloc: Global,
    store: &mut Store,
    frame: &Frame,
    questions: &Questions,
    lean: &Many<Row>,
    given: &Many<Row>,
    wanted: &Many<Row>,
    scope: Ref,
    left: Ref,
    rest: Ref,
    safe: Ref,
) -> Result<Option<Many<Entry>>, StoreFault>
    requires searched { (s : System) × IsSearched s store.old questions.now frame.now given.now × AreKept s wanted.now }
    requires same_many { length lean.now ≡ length given.now }
    requires scope { IsRef store.old.nodes scope }
    requires left { IsRef store.old.nodes left }
    requires rest { IsRef store.old.nodes rest }
    requires safe { IsRef store.old.nodes safe }
    ensures extends { Extends store.old store.new }
    ensures roomy { IsErrOf result StoreFault.Nodes → store.old.limit < 2 ^ (2 ^ store.old.variables) }
    ensures entries { IfOk result (λ o. IfSome o (AreShortEntries frame.now (length given.now + length questions.now.rows))) }
{
    let entries = Many::new(alloc);
    let begun = Cover {
        entries,
        left,
        rest,
    };
    match add_steps(
        alloc, store, frame, questions, lean, given, wanted, scope, safe, begun,
    )? {
        Some(steps) => {
            let whole = add_dead_entries(
                alloc, store, frame, questions, lean, given, wanted, scope, safe, steps,
            )?;
            Ok(entries_in(whole))
        }
        None => Ok(None),
    }
}

/// The entries of a set of control states, or none, with what was built of them.
fn entries_within(
    alloc: Global,
    store: &mut Store,
    frame: &Frame,
    questions: &Questions,
    allowed: Ref,
    control: &Frozen,
    lean: &Many<Row>,
    given: &Many<Row>,
    wanted: &Many<Row>,
    taken: Ref,
    safe: Ref,
) -> Result<Option<Many<Entry>>, StoreFault>
    requires searched { (s : System) × IsSearched s store.old questions.now frame.now given.now × AreKept s wanted.now }
    requires same_many { length lean.now ≡ length given.now }
    requires allowed { IsRef store.old.nodes allowed }
    requires control { IsOrderedOver store.old.variables control.now }
    requires taken { IsRef store.old.nodes taken }
    requires safe { IsRef store.old.nodes safe }
    ensures extends { Extends store.old store.new }
    ensures roomy { IsErrOf result StoreFault.Nodes → store.old.limit < 2 ^ (2 ^ store.old.variables) }
    ensures entries { IfOk result (λ o. IfSome o (AreShortEntries frame.now (length given.now + length questions.now.rows))) }
{
    let scope = within(store, allowed, control)?;
    let left = both(store, scope, taken)?;
    cover_of(
        alloc, store, frame, questions, lean, given, wanted, scope, left, scope, safe,
    )
}

/// The entries of a location with these control states and rows, whose steps prove the wanted rows, or none. Where the claim takes a
/// valuation is `taken`, and where a step may be taken is `safe`. What the rows `lean` show, which are as many, is taken before what the given
/// ones show. The store is left as it was.
pub fn entries_of(
    alloc: Global,
    store: &mut Store,
    frame: &Frame,
    questions: &Questions,
    allowed: Ref,
    control: &Frozen,
    lean: &Many<Row>,
    given: &Many<Row>,
    wanted: &Many<Row>,
    taken: Ref,
    safe: Ref,
) -> Result<Option<Many<Entry>>, StoreFault>
    requires searched { (s : System) × IsSearched s store.old questions.now frame.now given.now × AreKept s wanted.now }
    requires same_many { length lean.now ≡ length given.now }
    requires allowed { IsRef store.old.nodes allowed }
    requires control { IsOrderedOver store.old.variables control.now }
    requires taken { IsRef store.old.nodes taken }
    requires safe { IsRef store.old.nodes safe }
    ensures same { store.new ≡ store.old }
    ensures roomy { IsErrOf result StoreFault.Nodes → store.old.limit < 2 ^ (2 ^ store.old.variables) }
    ensures entries { IfOk result (λ o. IfSome o (AreShortEntries frame.now (length given.now + length questions.now.rows))) }
{
    let mark = store.mark();
    let answer = entries_within(
        alloc, store, frame, questions, allowed, control, lean, given, wanted, taken, safe,
    );
    store.release(mark);
    answer
}

/// The steps of a set of control states that prove the wanted rows, or none, with what was built of them.
fn steps_within(
    alloc: Global,
    store: &mut Store,
    frame: &Frame,
    questions: &Questions,
    allowed: Ref,
    control: &Frozen,
    lean: &Many<Row>,
    given: &Many<Row>,
    wanted: &Many<Row>,
    taken: Ref,
) -> Result<Option<Many<Entry>>, StoreFault>
    requires searched { (s : System) × IsSearched s store.old questions.now frame.now given.now × AreKept s wanted.now }
    requires same_many { length lean.now ≡ length given.now }
    requires allowed { IsRef store.old.nodes allowed }
    requires control { IsOrderedOver store.old.variables control.now }
    requires taken { IsRef store.old.nodes taken }
    ensures extends { Extends store.old store.new }
    ensures roomy { IsErrOf result StoreFault.Nodes → store.old.limit < 2 ^ (2 ^ store.old.variables) }
{
    let scope = within(store, allowed, control)?;
    let left = both(store, scope, taken)?;
    let none = store.constant(false);
    let all = store.constant(true);
    cover_of(
        alloc, store, frame, questions, lean, given, wanted, scope, left, none, all,
    )
}

/// Steps that prove the wanted rows where the claim takes a valuation with one of these control states, or none. They are no entries of a
/// certificate: the observer may be false in them. The store is left as it was.
pub fn steps_of(
    alloc: Global,
    store: &mut Store,
    frame: &Frame,
    questions: &Questions,
    allowed: Ref,
    control: &Frozen,
    lean: &Many<Row>,
    given: &Many<Row>,
    wanted: &Many<Row>,
    taken: Ref,
) -> Result<Option<Many<Entry>>, StoreFault>
    requires searched { (s : System) × IsSearched s store.old questions.now frame.now given.now × AreKept s wanted.now }
    requires same_many { length lean.now ≡ length given.now }
    requires allowed { IsRef store.old.nodes allowed }
    requires control { IsOrderedOver store.old.variables control.now }
    requires taken { IsRef store.old.nodes taken }
    ensures same { store.new ≡ store.old }
    ensures roomy { IsErrOf result StoreFault.Nodes → store.old.limit < 2 ^ (2 ^ store.old.variables) }
{
    let mark = store.mark();
    let answer = steps_within(
        alloc, store, frame, questions, allowed, control, lean, given, wanted, taken,
    );
    store.release(mark);
    answer
}
