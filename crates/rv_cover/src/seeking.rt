//! The search for a certificate of a closed claim.

ghost use Rattle.std.specs.Prelude.{◌≡◌, ◌+◌, ◌≤◌, ◌<◌, ◌^◌, ◌∷◌, [], IfOk, IfSome, IsErrOf, length};
ghost use Rattle.rv_diagram.specs.Nodes.{IsRef, IsOrderedOver};
ghost use Rattle.rv_diagram.specs.Growing.{Extends};
ghost use Rattle.rv_proofs.specs.Systems.{System};
ghost use Rattle.rv_proofs.specs.Ranges.{AreKept};
ghost use Rattle.rv_symbolic.specs.Represented.{HaveRefs};
ghost use Rattle.rv_cover.specs.Entries.{AreShortEntries};
ghost use Rattle.rv_cover.specs.Seeking.{IsSearched, IsFrameFor, IsAssembled, IsSought, IsPlausible, IsDocument};

use crate::copies::copy_set;
use crate::covering::entries_of;
use crate::frame::{By, Frame};
use crate::leading::safe_into;
use crate::locations::location;
use crate::needing::needed;
use crate::reading::no_copies;
use rv_base::{Many, Memory};
use rv_cases::Questions;
use rv_diagram::{Frozen, Ref, Store, StoreFault};
use rv_proofs::{Certificate, Entry, Location};
use rv_rows::Row;
use rv_symbolic::Parts;
use std::alloc::Global;

/// The certificate of two locations.
fn certificate(alloc: Global, initial: Location, rest: Location) -> Result<Certificate, Memory>
    ensures { IfOk result (λ c. c.locations ≡ initial ∷ rest ∷ []) }
{
    let mut locations = Many::new(alloc);
    locations.push(initial)?;
    locations.push(rest)?;
    Ok(Certificate { locations })
}

/// The certificate with these control states and entries, and these rows in the second location, or none where the counts are not right.
fn assembled(
    alloc: Global,
    first: &Frozen,
    rest: &Frozen,
    rows: Many<Row>,
    initial: Many<Entry>,
    others: Many<Entry>,
) -> Result<Option<Certificate>, Memory>
    requires { length rows < 2 ^ 32 }
    ensures { IfOk result (λ o. IfSome o (IsAssembled first.now rest.now rows initial others)) }
{
    let first_set = copy_set(alloc, first)?;
    let nothing = Many::new(alloc);
    let one = location(alloc, first_set, nothing, initial)?;
    let rest_set = copy_set(alloc, rest)?;
    let two = location(alloc, rest_set, rows, others)?;
    let whole = certificate(alloc, one, two)?;
    if whole.counts() {
        return Ok(Some(whole));
    }
    Ok(None)
}

/// The certificate whose second location has these rows, or none. The store is left as it was.
fn located(
    alloc: Global,
    store: &mut Store,
    frame: &Frame,
    parts: &Parts,
    questions: &Questions,
    first: &Frozen,
    rest: &Frozen,
    taken: Ref,
    safe: Ref,
    rows: Many<Row>,
) -> Result<Option<Certificate>, StoreFault>
    requires searched { (s : System) × IsSearched s store.old questions.now frame.now rows × AreKept s rows }
    requires allowed { IsRef store.old.nodes parts.now.allowed }
    requires first { IsOrderedOver store.old.variables first.now }
    requires rest { IsOrderedOver store.old.variables rest.now }
    requires taken { IsRef store.old.nodes taken }
    requires safe { IsRef store.old.nodes safe }
    ensures same { store.new ≡ store.old }
    ensures roomy { IsErrOf result StoreFault.Nodes → store.old.limit < 2 ^ (2 ^ store.old.variables) }
    ensures found { IfOk result (λ o. IfSome o (IsPlausible frame.now (length questions.now.rows) first.now rest.now rows)) }
{
    let allowed = parts.allowed;
    let nothing = Many::new(alloc);
    let Some(initial) = entries_of(
        alloc, store, frame, questions, allowed, first, &nothing, &nothing, &rows, taken, safe,
    )?
    else {
        return Ok(None);
    };
    let Some(others) = entries_of(
        alloc, store, frame, questions, allowed, rest, &rows, &rows, &rows, taken, safe,
    )?
    else {
        return Ok(None);
    };
    let found = assembled(alloc, first, rest, rows, initial, others)?;
    Ok(found)
}

/// What is the same throughout a search over the store's variables, by what proves rows: a condition may read all of them but the next copies of
/// the state bits, of which there are as many as `parts` has next values. The only error is want of memory.
pub fn frame_of(alloc: Global, store: &Store, parts: &Parts, by: By) -> Result<Frame, Memory>
    requires { HaveRefs store.now parts.now }
    ensures { IfOk result (IsFrameFor store.now.variables (length parts.now.next) by) }
{
    let variables = store.variables();
    let read = no_copies(alloc, variables, parts.next.len() as u32)?;
    Ok(Frame {
        by,
        variables,
        read,
    })
}

/// The certificate whose needed rows are found one by one or together, or none, with what was built of it.
fn sought_in(
    alloc: Global,
    store: &mut Store,
    parts: &Parts,
    questions: &Questions,
    by: By,
    first: &Frozen,
    rest: &Frozen,
    taken: Ref,
    reached: &Frozen,
    given: &Many<Row>,
    apart: bool,
) -> Result<Option<Certificate>, StoreFault>
    requires { (s : System) × IsSought s store.old parts.now questions.now by first.now rest.now taken reached.now given.now }
    ensures extends { Extends store.old store.new }
    ensures roomy { IsErrOf result StoreFault.Nodes → store.old.limit < 2 ^ (2 ^ store.old.variables) }
    ensures found { (s : System) → IsSought s store.old parts.now questions.now by first.now rest.now taken reached.now given.now
        → IfOk result (λ o. IfSome o (IsDocument s)) }
{
    let safe = safe_into(alloc, store, parts, taken, reached)?;
    let frame = frame_of(alloc, store, parts, by)?;
    let allowed = parts.allowed;
    match needed(
        alloc, store, &frame, questions, allowed, rest, given, taken, safe, apart,
    )? {
        Some(rows) => located(
            alloc, store, &frame, parts, questions, first, rest, taken, safe, rows,
        ),
        None => Ok(None),
    }
}

/// The same, with the store left as it was.
fn sought_by(
    alloc: Global,
    store: &mut Store,
    parts: &Parts,
    questions: &Questions,
    by: By,
    first: &Frozen,
    rest: &Frozen,
    taken: Ref,
    reached: &Frozen,
    given: &Many<Row>,
    apart: bool,
) -> Result<Option<Certificate>, StoreFault>
    requires { (s : System) × IsSought s store.old parts.now questions.now by first.now rest.now taken reached.now given.now }
    ensures found { (s : System) → IsSought s store.old parts.now questions.now by first.now rest.now taken reached.now given.now
        → IfOk result (λ o. IfSome o (IsDocument s)) }
    ensures same { store.new ≡ store.old }
    ensures roomy { IsErrOf result StoreFault.Nodes → store.old.limit < 2 ^ (2 ^ store.old.variables) }
{
    let mark = store.mark();
    let answer = sought_in(
        alloc, store, parts, questions, by, first, rest, taken, reached, given, apart,
    );
    store.release(mark);
    answer
}

/// The certificate of a box claim whose needed rows are found one by one, or none. The store is left as it was.
fn sought_apart(
    alloc: Global,
    store: &mut Store,
    parts: &Parts,
    questions: &Questions,
    by: By,
    first: &Frozen,
    rest: &Frozen,
    taken: Ref,
    reached: &Frozen,
    given: &Many<Row>,
) -> Result<Option<Certificate>, StoreFault>
    requires { (s : System) × IsSought s store.old parts.now questions.now by first.now rest.now taken reached.now given.now }
    ensures found { (s : System) → IsSought s store.old parts.now questions.now by first.now rest.now taken reached.now given.now
        → IfOk result (λ o. IfSome o (IsDocument s)) }
    ensures same { store.new ≡ store.old }
    ensures roomy { IsErrOf result StoreFault.Nodes → store.old.limit < 2 ^ (2 ^ store.old.variables) }
{
    match by {
        By::Boxes(_) => sought_by(
            alloc, store, parts, questions, by, first, rest, taken, reached, given, true,
        ),
        By::Rows => Ok(None),
    }
}

/// A certificate with few entries of a closed claim, or none where the search gives up. Location 0 has the control states `first` and no rows,
/// location 1 those of `rest` and the rows of `given` that are needed, which are the claim's; `by` says what proves them after a step. `taken` is
/// where the claim takes a valuation, and `reached` are its control states. It promises no more than that the certificate has the counts and
/// ranges of a document and no loop. The store is left as it was, after a fault too. Nodes comes where it has no room for what is built on the
/// way, never where its limit holds every function of its variables, and Memory where there is none.
pub fn sought(
    alloc: Global,
    store: &mut Store,
    parts: &Parts,
    questions: &Questions,
    by: By,
    first: &Frozen,
    rest: &Frozen,
    taken: Ref,
    reached: &Frozen,
    given: &Many<Row>,
) -> Result<Option<Certificate>, StoreFault>
    requires { (s : System) × IsSought s store.old parts.now questions.now by first.now rest.now taken reached.now given.now }
    ensures found { (s : System) → IsSought s store.old parts.now questions.now by first.now rest.now taken reached.now given.now
        → IfOk result (λ o. IfSome o (IsDocument s)) }
    ensures same { store.new ≡ store.old }
    ensures roomy { IsErrOf result StoreFault.Nodes → store.old.limit < 2 ^ (2 ^ store.old.variables) }
{
    match sought_apart(
        alloc, store, parts, questions, by, first, rest, taken, reached, given,
    )? {
        Some(certificate) => Ok(Some(certificate)),
        None => sought_by(
            alloc, store, parts, questions, by, first, rest, taken, reached, given, false,
        ),
    }
}
