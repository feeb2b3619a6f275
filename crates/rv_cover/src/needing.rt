//! The rows of a claim that its certificate needs.

ghost use Rattle.std.specs.Prelude.{◌≡◌, ◌≤◌, ◌<◌, ◌^◌, IfOk, IfSome, IsErrOf, length};
ghost use Rattle.rv_diagram.specs.Nodes.{IsRef, IsOrderedOver};
ghost use Rattle.rv_proofs.specs.Systems.{System};
ghost use Rattle.rv_proofs.specs.Ranges.{AreKept};
ghost use Rattle.rv_cover.specs.Seeking.{IsSearched};

use crate::covering::{entries_of, steps_of};
use crate::frame::Frame;
use crate::marks::{mark_entries, mark_premise, next_place, unset};
use crate::rows::{chosen, only_marked};
use rv_base::{Many, Memory};
use rv_cases::Questions;
use rv_diagram::{Frozen, Ref, Store, StoreFault};
use rv_rows::Row;
use std::alloc::Global;

/// As many tries as are made.
const TRIES: usize = 64;

/// As many rows as are asked for what proves them, and the turn in which none is left. Boxes have fewer than 256 columns.
const TURNS: usize = 513;

/// Sets the flags of the rows that prove those whose flags are set, and answers whether one was not set, or none where there are no entries.
fn mark_needed(
    alloc: Global,
    store: &mut Store,
    frame: &Frame,
    questions: &Questions,
    allowed: Ref,
    control: &Frozen,
    lean: &Many<Row>,
    given: &Many<Row>,
    taken: Ref,
    safe: Ref,
    flags: &mut Many<bool>,
) -> Result<Option<bool>, StoreFault>
    requires searched { (s : System) × IsSearched s store.old questions.now frame.now given.now × AreKept s given.now }
    requires same_many { length lean.now ≡ length given.now }
    requires allowed { IsRef store.old.nodes allowed }
    requires control { IsOrderedOver store.old.variables control.now }
    requires taken { IsRef store.old.nodes taken }
    requires safe { IsRef store.old.nodes safe }
    ensures same { store.new ≡ store.old }
    ensures roomy { IsErrOf result StoreFault.Nodes → store.old.limit < 2 ^ (2 ^ store.old.variables) }
{
    let wanted = chosen(alloc, given, flags)?;
    match entries_of(
        alloc, store, frame, questions, allowed, control, lean, given, &wanted, taken, safe,
    )? {
        Some(entries) => Ok(Some(mark_entries(flags, 0, &entries))),
        None => Ok(None),
    }
}

/// One flag, of so many, is set.
fn flag_of(alloc: Global, many: usize, place: usize) -> Result<Many<bool>, Memory> {
    let mut flags = unset(alloc, many)?;
    mark_premise(&mut flags, 0, place);
    Ok(flags)
}

/// Sets the flags of the rows that prove one of them, those first whose flags are set. It answers whether steps prove it.
fn mark_provers(
    alloc: Global,
    store: &mut Store,
    frame: &Frame,
    questions: &Questions,
    allowed: Ref,
    control: &Frozen,
    given: &Many<Row>,
    taken: Ref,
    place: usize,
    flags: &mut Many<bool>,
) -> Result<bool, StoreFault>
    requires searched { (s : System) × IsSearched s store.old questions.now frame.now given.now × AreKept s given.now }
    requires allowed { IsRef store.old.nodes allowed }
    requires control { IsOrderedOver store.old.variables control.now }
    requires taken { IsRef store.old.nodes taken }
    ensures same { store.new ≡ store.old }
    ensures roomy { IsErrOf result StoreFault.Nodes → store.old.limit < 2 ^ (2 ^ store.old.variables) }
{
    let lean = only_marked(alloc, given, flags)?;
    let one = flag_of(alloc, given.len(), place)?;
    let wanted = chosen(alloc, given, &one)?;
    match steps_of(
        alloc, store, frame, questions, allowed, control, &lean, given, &wanted, taken,
    )? {
        Some(entries) => {
            mark_entries(flags, 0, &entries);
            Ok(true)
        }
        None => Ok(false),
    }
}

/// Goes on with the next row that is needed and not known to be proved. It answers whether there is one, or none where steps do not prove it.
fn mark_next(
    alloc: Global,
    store: &mut Store,
    frame: &Frame,
    questions: &Questions,
    allowed: Ref,
    control: &Frozen,
    given: &Many<Row>,
    taken: Ref,
    flags: &mut Many<bool>,
    known: &mut Many<bool>,
) -> Result<Option<bool>, StoreFault>
    requires searched { (s : System) × IsSearched s store.old questions.now frame.now given.now × AreKept s given.now }
    requires allowed { IsRef store.old.nodes allowed }
    requires control { IsOrderedOver store.old.variables control.now }
    requires taken { IsRef store.old.nodes taken }
    ensures same { store.new ≡ store.old }
    ensures roomy { IsErrOf result StoreFault.Nodes → store.old.limit < 2 ^ (2 ^ store.old.variables) }
{
    let Some(place) = next_place(flags, known) else {
        return Ok(Some(false));
    };
    mark_premise(known, 0, place);
    let proved = mark_provers(
        alloc, store, frame, questions, allowed, control, given, taken, place, flags,
    )?;
    if proved {
        return Ok(Some(true));
    }
    Ok(None)
}

/// Sets the flags of the rows that refute where the observer is false. It answers whether there are entries.
fn mark_first(
    alloc: Global,
    store: &mut Store,
    frame: &Frame,
    questions: &Questions,
    allowed: Ref,
    control: &Frozen,
    given: &Many<Row>,
    taken: Ref,
    safe: Ref,
    flags: &mut Many<bool>,
) -> Result<bool, StoreFault>
    requires searched { (s : System) × IsSearched s store.old questions.now frame.now given.now × AreKept s given.now }
    requires allowed { IsRef store.old.nodes allowed }
    requires control { IsOrderedOver store.old.variables control.now }
    requires taken { IsRef store.old.nodes taken }
    requires safe { IsRef store.old.nodes safe }
    ensures same { store.new ≡ store.old }
    ensures roomy { IsErrOf result StoreFault.Nodes → store.old.limit < 2 ^ (2 ^ store.old.variables) }
{
    let marked = mark_needed(
        alloc, store, frame, questions, allowed, control, given, given, taken, safe, flags,
    )?;
    Ok(marked.is_some())
}

/// Sets the flags of the rows that prove the needed ones, one after another, until all are proved. It answers whether all are.
fn mark_rest(
    alloc: Global,
    store: &mut Store,
    frame: &Frame,
    questions: &Questions,
    allowed: Ref,
    control: &Frozen,
    given: &Many<Row>,
    taken: Ref,
    flags: &mut Many<bool>,
) -> Result<bool, StoreFault>
    requires searched { (s : System) × IsSearched s store.old questions.now frame.now given.now × AreKept s given.now }
    requires allowed { IsRef store.old.nodes allowed }
    requires control { IsOrderedOver store.old.variables control.now }
    requires taken { IsRef store.old.nodes taken }
    ensures same { store.new ≡ store.old }
    ensures roomy { IsErrOf result StoreFault.Nodes → store.old.limit < 2 ^ (2 ^ store.old.variables) }
{
    let mut known = unset(alloc, given.len())?;
    for _turn in 0..TURNS {
        match mark_next(
            alloc, store, frame, questions, allowed, control, given, taken, flags, &mut known,
        )? {
            Some(true) => {}
            Some(false) => return Ok(true),
            None => return Ok(false),
        }
    }
    Ok(false)
}

/// The rows of a claim that its certificate needs, found one by one: those that refute where the observer is false, and then those that prove
/// a needed row after a step, for each row by itself. None where some row has no steps that prove it. It may be that the certificate needs
/// more, where the needed rows together split more. The store is left as it was.
fn needed_apart(
    alloc: Global,
    store: &mut Store,
    frame: &Frame,
    questions: &Questions,
    allowed: Ref,
    control: &Frozen,
    given: &Many<Row>,
    taken: Ref,
    safe: Ref,
) -> Result<Option<Many<Row>>, StoreFault>
    requires searched { (s : System) × IsSearched s store.old questions.now frame.now given.now × AreKept s given.now }
    requires allowed { IsRef store.old.nodes allowed }
    requires control { IsOrderedOver store.old.variables control.now }
    requires taken { IsRef store.old.nodes taken }
    requires safe { IsRef store.old.nodes safe }
    ensures same { store.new ≡ store.old }
    ensures roomy { IsErrOf result StoreFault.Nodes → store.old.limit < 2 ^ (2 ^ store.old.variables) }
    ensures few { IfOk result (λ o. IfSome o (λ rows. length rows ≤ length given.now)) }
    ensures kept { IfOk result (λ o. IfSome o (λ rows. (s : System) → AreKept s given.now → AreKept s rows)) }
{
    let mut flags = unset(alloc, given.len())?;
    let begun = mark_first(
        alloc, store, frame, questions, allowed, control, given, taken, safe, &mut flags,
    )?;
    if !begun {
        return Ok(None);
    }
    let proved = mark_rest(
        alloc, store, frame, questions, allowed, control, given, taken, &mut flags,
    )?;
    if !proved {
        return Ok(None);
    }
    let rows = chosen(alloc, given, &flags)?;
    Ok(Some(rows))
}

/// The rows of a claim that its certificate needs, found together: those that refute what is dead or prove a needed row, in the location with
/// these control states. None where there are no entries. The store is left as it was.
fn needed_together(
    alloc: Global,
    store: &mut Store,
    frame: &Frame,
    questions: &Questions,
    allowed: Ref,
    control: &Frozen,
    given: &Many<Row>,
    taken: Ref,
    safe: Ref,
) -> Result<Option<Many<Row>>, StoreFault>
    requires searched { (s : System) × IsSearched s store.old questions.now frame.now given.now × AreKept s given.now }
    requires allowed { IsRef store.old.nodes allowed }
    requires control { IsOrderedOver store.old.variables control.now }
    requires taken { IsRef store.old.nodes taken }
    requires safe { IsRef store.old.nodes safe }
    ensures same { store.new ≡ store.old }
    ensures roomy { IsErrOf result StoreFault.Nodes → store.old.limit < 2 ^ (2 ^ store.old.variables) }
    ensures few { IfOk result (λ o. IfSome o (λ rows. length rows ≤ length given.now)) }
    ensures kept { IfOk result (λ o. IfSome o (λ rows. (s : System) → AreKept s given.now → AreKept s rows)) }
{
    let mut flags = unset(alloc, given.len())?;
    for _try in 0..TRIES {
        match mark_needed(
            alloc, store, frame, questions, allowed, control, given, given, taken, safe, &mut flags,
        )? {
            Some(true) => {}
            Some(false) => {
                let rows = chosen(alloc, given, &flags)?;
                return Ok(Some(rows));
            }
            None => return Ok(None),
        }
    }
    Ok(None)
}

/// The rows of a claim that its certificate needs, found one by one or together. The store is left as it was.
pub fn needed(
    alloc: Global,
    store: &mut Store,
    frame: &Frame,
    questions: &Questions,
    allowed: Ref,
    control: &Frozen,
    given: &Many<Row>,
    taken: Ref,
    safe: Ref,
    apart: bool,
) -> Result<Option<Many<Row>>, StoreFault>
    requires searched { (s : System) × IsSearched s store.old questions.now frame.now given.now × AreKept s given.now }
    requires allowed { IsRef store.old.nodes allowed }
    requires control { IsOrderedOver store.old.variables control.now }
    requires taken { IsRef store.old.nodes taken }
    requires safe { IsRef store.old.nodes safe }
    ensures same { store.new ≡ store.old }
    ensures roomy { IsErrOf result StoreFault.Nodes → store.old.limit < 2 ^ (2 ^ store.old.variables) }
    ensures few { IfOk result (λ o. IfSome o (λ rows. length rows ≤ length given.now)) }
    ensures kept { IfOk result (λ o. IfSome o (λ rows. (s : System) → AreKept s given.now → AreKept s rows)) }
{
    if apart {
        return needed_apart(
            alloc, store, frame, questions, allowed, control, given, taken, safe,
        );
    }
    needed_together(
        alloc, store, frame, questions, allowed, control, given, taken, safe,
    )
}
