//! Rows of parts, risen until each step from a part shows those of the part that it leads into.

ghost use Rattle.std.specs.Prelude.{◌≡◌, ℕ, ◌<◌, ◌≤◌, ◌^◌, IsTrue, All, length, IfOk, IfSome, OnOk, IsErrOf};
ghost use Rattle.std.specs.Int.RustNames.{unsigned_abs};
ghost use Rattle.rv_diagram.specs.Nodes.{IsRef};
ghost use Rattle.rv_diagram.specs.Growing.{Extends};
ghost use Rattle.rv_proofs.specs.Systems.{System};
ghost use Rattle.rv_pairs.specs.Labels.{AreLabels};
ghost use Rattle.rv_refine.specs.Sides.{IsLeftSide, AreLeftSides, AreLimits, IsSmallLimit};
ghost use Rattle.rv_refine.specs.Frames.{IsFrame, IsKnown, IsTaken, IsPath};

use crate::bounding::risen_limit;
use crate::frames::{Frame, Known};
use rv_base::{Many, Memory};
use rv_cases::Questions;
use rv_diagram::{Ref, Store, StoreFault};
use rv_ends::{least_above, main_tick};
use rv_pairs::{LabelledRows, open_within, risen_row, with_claim};
use rv_rise::rows_of;
use rv_rows::Row;
use std::alloc::Global;

/// As many visits of parts as are made.
const VISITS: usize = 4096;

/// As many visits for each part in which turns count: after them limits rise one by one, since a limit that is raised too far does not come back.
const VISITS_TURNED: usize = 4;

/// No threshold is below it.
const LOWEST: i128 = -2_199_023_255_552;

/// Where a part's valuations are taken, and the rows that count there.
#[derive(Debug, Drop)]
pub struct Taken {
    /// True where they are.
    pub here: Ref,
    /// The rows.
    pub labels: LabelledRows,
    /// The number of the part.
    pub place: usize,
}

/// Where steps lead from a part into another.
#[derive(Debug, Drop)]
pub struct Path {
    /// True at the valuations of these steps.
    pub here: Ref,
    /// True wherever that is, and one of few references.
    pub sure: Ref,
    /// Whether they may be taken any number of times, one after another.
    pub turn: bool,
}

/// Limits of a part, and whether some of them have changed.
#[derive(Debug, Drop)]
pub struct Raised {
    /// One limit for each left side, or none.
    pub limits: Many<Option<i128>>,
    /// Whether one is other than before.
    pub changed: bool,
}

/// The least threshold, or none where there are none.
#[tactic(auto, using(crate::proofs::Framing::least_small))]
fn least_threshold(frame: &Frame) -> Option<i128>
    requires { All (λ t. unsigned_abs t ≤ 2 ^ 41) frame.now.thresholds }
    ensures { IsSmallLimit result }
{
    least_above(&frame.thresholds, LOWEST)
}

/// For each left side the least threshold.
fn first_limits(alloc: Global, frame: &Frame) -> Result<Many<Option<i128>>, Memory>
    requires { All (λ t. unsigned_abs t ≤ 2 ^ 41) frame.now.thresholds }
    ensures { IfOk result (AreLimits (length frame.now.sides)) }
{
    let least = least_threshold(frame);
    let mut limits = Many::new(alloc);
    for _place in 0..frame.sides.len() {
        limits.push(least)?;
    }
    Ok(limits)
}

/// Part 0 alone is reached. The only error is want of memory.
pub fn begun(alloc: Global, frame: &Frame) -> Result<Known, Memory>
    requires { All (λ t. unsigned_abs t ≤ 2 ^ 41) frame.now.thresholds }
    ensures { IfOk result (IsKnown frame.now) }
{
    let mut reached = Many::new(alloc);
    let mut dirty = Many::new(alloc);
    let mut limits = Many::new(alloc);
    for place in 0..frame.sets.len() {
        reached.push(place == 0)?;
        dirty.push(place == 0)?;
        let first = first_limits(alloc, frame)?;
        limits.push(first)?;
    }
    Ok(Known {
        reached,
        dirty,
        limits,
        visits: 0,
    })
}

/// The rows of a part; part 0 has none. The only error is want of memory.
pub fn rows_in(
    alloc: Global,
    frame: &Frame,
    known: &Known,
    place: usize,
) -> Result<Many<Row>, Memory>
    requires known { IsKnown frame.now known.now }
    requires place { place < length frame.now.sets }
    ensures { (memories : ℕ) → AreLeftSides memories frame.now.sides → IfOk result (AreLeftSides memories) }
{
    if place == 0 {
        return Ok(Many::new(alloc));
    }
    rows_of(alloc, &frame.sides, known.limits.at(place))
}

/// Where a part's valuations are taken, and the rows that count there. Nodes comes where the store has no room for what is built on the way, never where
/// its limit holds every function of its variables, and Memory where there is none; what was built is left, after a fault too.
pub fn taken_in(
    alloc: Global,
    store: &mut Store,
    questions: &Questions,
    frame: &Frame,
    given: &Many<Row>,
    place: usize,
) -> Result<Taken, StoreFault>
    requires frame { (s : System) × IsFrame s store.old questions.now frame.now × AreLeftSides s.memories given.now }
    requires place { place < length frame.now.sets }
    ensures extends { Extends store.old store.new }
    ensures roomy { IsErrOf result StoreFault.Nodes → store.old.limit < 2 ^ (2 ^ store.old.variables) }
    ensures taken { IfOk result (IsTaken store.new.nodes) }
{
    let _tests = &questions.rows;
    let labels = with_claim(alloc, store, &frame.labels, given)?;
    let here = open_within(alloc, store, frame.allowed, &labels, frame.sets.at(place))?;
    Ok(Taken {
        here,
        labels,
        place,
    })
}

/// Whether all numbers of the left side are -1, 0 or 1.
fn is_unit_sum(side: &Row) -> bool
    ensures { IsTrue result → All (λ c. unsigned_abs c ≤ 1) side.now.coefficients }
{
    for column in 0..side.coefficients.len() {
        if side.coefficients.at(column).unsigned_abs() > 1 {
            return false;
        }
    }
    true
}

/// Whether the limit is this bound.
fn is_bound(limit: Option<i128>, bound: i128) -> bool {
    match limit {
        Some(other) => other == bound,
        None => false,
    }
}

/// Whether pairs of the rows show, after the updates, the left side with this bound wherever the steps are. The store is left as it was.
fn is_kept(
    alloc: Global,
    store: &mut Store,
    questions: &Questions,
    frame: &Frame,
    labels: &LabelledRows,
    path: &Path,
    side: &Row,
    bound: i128,
) -> Result<bool, StoreFault>
    requires frame { (s : System) × IsFrame s store.old questions.now frame.now × IsLeftSide s.memories side.now }
    requires labels { AreLabels store.old.nodes labels.now }
    requires path { IsPath store.old.nodes path.now }
    requires bound { unsigned_abs bound ≤ 2 ^ 41 }
    ensures same { store.new ≡ store.old }
    ensures roomy { IsErrOf result StoreFault.Nodes → store.old.limit < 2 ^ (2 ^ store.old.variables) }
{
    if !is_unit_sum(side) {
        return Ok(false);
    }
    let none = Many::new(alloc);
    let risen = risen_row(
        alloc,
        store,
        path.sure,
        path.here,
        questions,
        labels,
        &side.coefficients,
        frame.columns,
        &none,
        bound,
    )?;
    Ok(is_bound(risen, bound))
}

/// The limit of a left side, risen by what the steps show of it. The store is left as it was.
fn raised_limit(
    alloc: Global,
    store: &mut Store,
    questions: &Questions,
    frame: &Frame,
    given: &Many<Row>,
    labels: &LabelledRows,
    path: &Path,
    side: &Row,
    limit: Option<i128>,
) -> Result<Option<i128>, StoreFault>
    requires frame { (s : System) × IsFrame s store.old questions.now frame.now × IsLeftSide s.memories side.now }
    requires labels { AreLabels store.old.nodes labels.now }
    requires path { IsPath store.old.nodes path.now }
    requires limit { IsSmallLimit limit }
    ensures small { IfOk result IsSmallLimit }
    ensures same { store.new ≡ store.old }
    ensures roomy { IsErrOf result StoreFault.Nodes → store.old.limit < 2 ^ (2 ^ store.old.variables) }
{
    match limit {
        Some(bound) => {
            if is_kept(alloc, store, questions, frame, labels, path, side, bound)? {
                return Ok(limit);
            }
            risen_limit(alloc, store, questions, frame, given, side, path, bound)
        }
        None => Ok(None),
    }
}

/// Whether two limits are different.
fn differ(old: Option<i128>, new: Option<i128>) -> bool {
    match old {
        Some(bound) => !is_bound(new, bound),
        None => new.is_some(),
    }
}

/// The limits of a part, risen by what the steps into it show. The store is left as it was.
fn raised_limits(
    alloc: Global,
    store: &mut Store,
    questions: &Questions,
    frame: &Frame,
    given: &Many<Row>,
    labels: &LabelledRows,
    path: &Path,
    limits: &Many<Option<i128>>,
) -> Result<Raised, StoreFault>
    requires frame { (s : System) × IsFrame s store.old questions.now frame.now }
    requires labels { AreLabels store.old.nodes labels.now }
    requires path { IsPath store.old.nodes path.now }
    requires limits { AreLimits (length frame.now.sides) limits.now }
    ensures limits { IfOk result (λ r. AreLimits (length frame.now.sides) r.limits) }
    ensures same { store.new ≡ store.old }
    ensures roomy { IsErrOf result StoreFault.Nodes → store.old.limit < 2 ^ (2 ^ store.old.variables) }
{
    let mut list = Many::new(alloc);
    let mut changed = false;
    for place in 0..limits.len() {
        let limit = *limits.at(place);
        let side = frame.sides.at(place);
        let next = raised_limit(
            alloc, store, questions, frame, given, labels, path, side, limit,
        )?;
        changed = changed || differ(limit, next);
        list.push(next)?;
    }
    Ok(Raised {
        limits: list,
        changed,
    })
}

/// Puts the limits of a part in, which is reached and to be visited, where some have changed or it is new.
fn note(frame: &Frame, known: &mut Known, target: usize, raised: Raised)
    requires known { IsKnown frame.now known.old }
    requires target { target < length frame.now.sets }
    requires limits { AreLimits (length frame.now.sides) raised.limits }
    ensures { IsKnown frame.now known.new }
{
    let _sets = &frame.sets;
    let Raised { limits, changed } = raised;
    let new = !*known.reached.at(target);
    if changed || new {
        known.limits.set(target, limits);
        known.reached.set(target, true);
        known.dirty.set(target, true);
    }
}

/// The main tick, or everywhere in the first part, with what was built of it.
fn sure_in(store: &mut Store, first: bool) -> Result<Ref, StoreFault>
    ensures extends { Extends store.old store.new }
    ensures roomy { IsErrOf result StoreFault.Nodes → store.old.limit < 2 ^ (2 ^ store.old.variables) }
    ensures found { IfOk result (IsRef store.new.nodes) }
{
    if first {
        return Ok(store.constant(true));
    }
    main_tick(store)
}

/// The steps at which both references are true, with what was built of them.
fn path_under(store: &mut Store, all: Ref, sure: Ref, turn: bool) -> Result<Path, StoreFault>
    requires all { IsRef store.old.nodes all }
    requires sure { IsRef store.old.nodes sure }
    ensures extends { Extends store.old store.new }
    ensures roomy { IsErrOf result StoreFault.Nodes → store.old.limit < 2 ^ (2 ^ store.old.variables) }
    ensures path { IfOk result (IsPath store.new.nodes) }
{
    let here = store.and(all, sure)?;
    Ok(Path { here, sure, turn })
}

/// The steps from a part into another, with what was built of them.
fn path_into(
    store: &mut Store,
    taken: Ref,
    into: Ref,
    sure: Ref,
    turn: bool,
) -> Result<Path, StoreFault>
    requires taken { IsRef store.old.nodes taken }
    requires into { IsRef store.old.nodes into }
    requires sure { IsRef store.old.nodes sure }
    ensures extends { Extends store.old store.new }
    ensures roomy { IsErrOf result StoreFault.Nodes → store.old.limit < 2 ^ (2 ^ store.old.variables) }
    ensures path { IfOk result (IsPath store.new.nodes) }
{
    let all = store.and(taken, into)?;
    path_under(store, all, sure, turn)
}

/// Whether steps from a part into another may count as turns.
fn is_turned(frame: &Frame, known: &Known, place: usize, target: usize) -> bool {
    frame.turns && place == target && known.visits / VISITS_TURNED < frame.sets.len()
}

/// What the steps from a part show of another, with what was built of it.
fn lead_in(
    alloc: Global,
    store: &mut Store,
    questions: &Questions,
    frame: &Frame,
    known: &mut Known,
    given: &Many<Row>,
    taken: &Taken,
    sure: Ref,
    target: usize,
) -> Result<(), StoreFault>
    requires frame { (s : System) × IsFrame s store.old questions.now frame.now }
    requires known { IsKnown frame.now known.old }
    requires taken { IsTaken store.old.nodes taken.now }
    requires sure { IsRef store.old.nodes sure }
    requires target { target < length frame.now.sets }
    ensures known { OnOk result (IsKnown frame.now known.new) }
    ensures extends { Extends store.old store.new }
    ensures roomy { IsErrOf result StoreFault.Nodes → store.old.limit < 2 ^ (2 ^ store.old.variables) }
{
    let into = *frame.into.at(target);
    let turn = is_turned(frame, known, taken.place, target);
    let path = path_into(store, taken.here, into, sure, turn)?;
    if store.is_false(path.here) {
        return Ok(());
    }
    let limits = known.limits.at(target);
    let risen = raised_limits(
        alloc,
        store,
        questions,
        frame,
        given,
        &taken.labels,
        &path,
        limits,
    )?;
    note(frame, known, target, risen);
    Ok(())
}

/// What the steps from a part show of another. The store is left as it was.
fn lead(
    alloc: Global,
    store: &mut Store,
    questions: &Questions,
    frame: &Frame,
    known: &mut Known,
    given: &Many<Row>,
    taken: &Taken,
    sure: Ref,
    target: usize,
) -> Result<(), StoreFault>
    requires frame { (s : System) × IsFrame s store.old questions.now frame.now }
    requires known { IsKnown frame.now known.old }
    requires taken { IsTaken store.old.nodes taken.now }
    requires sure { IsRef store.old.nodes sure }
    requires target { target < length frame.now.sets }
    ensures known { OnOk result (IsKnown frame.now known.new) }
    ensures same { store.new ≡ store.old }
    ensures roomy { IsErrOf result StoreFault.Nodes → store.old.limit < 2 ^ (2 ^ store.old.variables) }
{
    let mark = store.mark();
    let answer = lead_in(
        alloc, store, questions, frame, known, given, taken, sure, target,
    );
    store.release(mark);
    answer
}

/// What the steps from a part show of all others. The store is left as it was.
fn lead_all(
    alloc: Global,
    store: &mut Store,
    questions: &Questions,
    frame: &Frame,
    known: &mut Known,
    given: &Many<Row>,
    taken: &Taken,
    sure: Ref,
) -> Result<(), StoreFault>
    requires frame { (s : System) × IsFrame s store.old questions.now frame.now }
    requires known { IsKnown frame.now known.old }
    requires taken { IsTaken store.old.nodes taken.now }
    requires sure { IsRef store.old.nodes sure }
    ensures known { OnOk result (IsKnown frame.now known.new) }
    ensures same { store.new ≡ store.old }
    ensures roomy { IsErrOf result StoreFault.Nodes → store.old.limit < 2 ^ (2 ^ store.old.variables) }
{
    for target in 1..frame.sets.len() {
        lead(
            alloc, store, questions, frame, known, given, taken, sure, target,
        )?;
    }
    Ok(())
}

/// Visits a part, with what was built of it.
fn visit_in(
    alloc: Global,
    store: &mut Store,
    questions: &Questions,
    frame: &Frame,
    known: &mut Known,
    place: usize,
) -> Result<(), StoreFault>
    requires frame { (s : System) × IsFrame s store.old questions.now frame.now }
    requires known { IsKnown frame.now known.old }
    requires place { place < length frame.now.sets }
    ensures known { OnOk result (IsKnown frame.now known.new) }
    ensures extends { Extends store.old store.new }
    ensures roomy { IsErrOf result StoreFault.Nodes → store.old.limit < 2 ^ (2 ^ store.old.variables) }
{
    let given = rows_in(alloc, frame, known, place)?;
    let taken = taken_in(alloc, store, questions, frame, &given, place)?;
    let sure = sure_in(store, place == 0)?;
    lead_all(alloc, store, questions, frame, known, &given, &taken, sure)
}

/// Visits a part. The store is left as it was.
fn visit(
    alloc: Global,
    store: &mut Store,
    questions: &Questions,
    frame: &Frame,
    known: &mut Known,
    place: usize,
) -> Result<(), StoreFault>
    requires frame { (s : System) × IsFrame s store.old questions.now frame.now }
    requires known { IsKnown frame.now known.old }
    requires place { place < length frame.now.sets }
    ensures known { OnOk result (IsKnown frame.now known.new) }
    ensures same { store.new ≡ store.old }
    ensures roomy { IsErrOf result StoreFault.Nodes → store.old.limit < 2 ^ (2 ^ store.old.variables) }
{
    let mark = store.mark();
    let answer = visit_in(alloc, store, questions, frame, known, place);
    store.release(mark);
    answer
}

/// The first part that is to be visited.
fn next_dirty(known: &Known) -> Option<usize>
    ensures { IfSome result (λ p. p < length known.now.dirty) }
{
    for place in 0..known.dirty.len() {
        if *known.dirty.at(place) {
            return Some(place);
        }
    }
    None
}

/// A part is not to be visited.
fn visited(frame: &Frame, known: &mut Known, place: usize)
    requires known { IsKnown frame.now known.old }
    requires place { place < length frame.now.sets }
    ensures { IsKnown frame.now known.new }
{
    let _sets = &frame.sets;
    known.dirty.set(place, false);
    known.visits = known.visits.saturating_add(1);
}

/// Visits parts until none is to be visited. Whether that is so. The store is left as it was. Nodes comes where it has no room for what is built on the
/// way, never where its limit holds every function of its variables, and Memory where there is none.
pub fn closed(
    alloc: Global,
    store: &mut Store,
    questions: &Questions,
    frame: &Frame,
    known: &mut Known,
) -> Result<bool, StoreFault>
    requires frame { (s : System) × IsFrame s store.old questions.now frame.now }
    requires known { IsKnown frame.now known.old }
    ensures known { OnOk result (IsKnown frame.now known.new) }
    ensures same { store.new ≡ store.old }
    ensures roomy { IsErrOf result StoreFault.Nodes → store.old.limit < 2 ^ (2 ^ store.old.variables) }
{
    for _visit in 0..VISITS {
        match next_dirty(known) {
            Some(place) => {
                visited(frame, known, place);
                visit(alloc, store, questions, frame, known, place)?;
            }
            None => return Ok(true),
        }
    }
    Ok(false)
}
