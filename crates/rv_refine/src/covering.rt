//! The certificate of a partition: entries, and the rows that are needed.

ghost use Rattle.std.specs.Prelude.{◌≡◌, ◌+◌, ◌<◌, ◌≤◌, ◌^◌, List, IsTrue, All, length, IfOk, IfSome, OnOk, IsErrOf};
ghost use Rattle.rv_diagram.specs.declared.Triple.{Triple};
ghost use Rattle.rv_diagram.specs.Nodes.{IsRef, IsOrderedOver};
ghost use Rattle.rv_diagram.specs.Growing.{Extends};
ghost use Rattle.rv_proofs.specs.Systems.{System};
ghost use Rattle.rv_symbolic.specs.Represented.{HaveRefs};
ghost use Rattle.rv_cover.specs.Toward.{IsTarget};
ghost use Rattle.rv_refine.specs.Frames.{IsFrame, IsHeld, IsKnown};
ghost use Rattle.rv_refine.specs.Plans.{ArePremises, IsPlan, IsPlanned, IsHere};

use crate::frames::{Frame, Known};
use crate::rising::{rows_in, taken_in};
use rv_base::{Many, Memory};
use rv_cases::Questions;
use rv_cover::{
    By, Target, chosen, copy_set, entries_toward, frame_of, location, mark_entries, mark_premise,
    next_place, only_marked, steps_toward, unset,
};
use rv_diagram::{Frozen, Ref, Store, StoreFault};
use rv_proofs::{Certificate, Entry, Location};
use rv_rows::Row;
use rv_symbolic::Parts;
use std::alloc::Global;

/// The most rows that a location may have.
const MOST_ROWS: usize = 1024;

/// No list of premises is as long.
const MANY: usize = 4_294_967_296;

/// As many rows are needed at most of all parts together.
const TURNS: usize = 65_536;

/// How often the needed rows together may ask for more.
const TRIES: usize = 64;

/// The reached parts as the locations of a certificate.
#[derive(Debug, Drop)]
pub struct Plan {
    /// For each part the number of its location.
    pub numbers: Many<u32>,
    /// For each part whether it is reached.
    pub reached: Many<bool>,
    /// For each part all its rows.
    pub rows: Many<Many<Row>>,
}

/// Where a part's valuations are, and where its rows take them.
#[derive(Debug, Drop)]
pub struct Here {
    /// True at the allowed valuations of the part.
    pub scope: Ref,
    /// True at those that its rows take.
    pub taken: Ref,
}

/// A row of a part.
#[derive(Clone, Copy, Debug)]
pub struct Spot {
    /// The part.
    pub part: usize,
    /// The row's number.
    pub row: usize,
}

/// The number of the location of each reached part, counted in order.
fn numbers_of(alloc: Global, known: &Known) -> Result<Many<u32>, Memory>
    ensures { IfOk result (λ numbers. length numbers ≡ length known.now.reached) }
{
    let mut numbers = Many::new(alloc);
    let mut count: u32 = 0;
    for place in 0..known.reached.len() {
        numbers.push(count)?;
        if *known.reached.at(place) {
            count = count.saturating_add(1);
        }
    }
    Ok(numbers)
}

/// The same flags.
fn copy_flags(alloc: Global, flags: &Many<bool>) -> Result<Many<bool>, Memory>
    ensures { IfOk result (λ copy. copy ≡ flags.now) }
{
    let same = Vec::from_slice(alloc, flags.as_slice())?;
    Ok(Many::from_vec(same))
}

/// Whether a location may have so many rows, and an entry of it as many premises as there are then.
fn are_few(rows: usize, tests: usize) -> bool
    ensures { IsTrue result → (rows ≤ 1024) × (rows + tests < 2 ^ 32) }
{
    rows <= MOST_ROWS && tests < MANY - MOST_ROWS
}

/// All rows of all parts, or none where a part has too many.
fn all_rows(
    alloc: Global,
    questions: &Questions,
    frame: &Frame,
    known: &Known,
) -> Result<Option<Many<Many<Row>>>, Memory>
    requires { (s : System) × IsPlanned s questions.now frame.now × IsKnown frame.now known.now }
    ensures many { IfOk result (λ o. IfSome o (λ all. length all ≡ length frame.now.sets)) }
    ensures rows { (s : System) → IsPlanned s questions.now frame.now → IfOk result (λ o. IfSome o (All (ArePremises s))) }
{
    let mut all = Many::new(alloc);
    let tests = questions.rows.len();
    for place in 0..frame.sets.len() {
        let rows = rows_in(alloc, frame, known, place)?;
        let few = are_few(rows.len(), tests);
        if !few {
            return Ok(None);
        }
        all.push(rows)?;
    }
    Ok(Some(all))
}

/// The reached parts as locations, or none where a part has too many rows. The only error is want of memory.
fn plan_of(
    alloc: Global,
    questions: &Questions,
    frame: &Frame,
    known: &Known,
) -> Result<Option<Plan>, Memory>
    requires { (s : System) × IsPlanned s questions.now frame.now × IsKnown frame.now known.now }
    ensures { (s : System) → IsPlanned s questions.now frame.now → IfOk result (λ o. IfSome o (IsPlan s frame.now)) }
{
    let numbers = numbers_of(alloc, known)?;
    let reached = copy_flags(alloc, &known.reached)?;
    match all_rows(alloc, questions, frame, known)? {
        Some(rows) => Ok(Some(Plan {
            numbers,
            reached,
            rows,
        })),
        None => Ok(None),
    }
}

/// For each list of rows as many flags, none of them set.
fn all_unset(alloc: Global, rows: &Many<Many<Row>>) -> Result<Many<Many<bool>>, Memory>
    ensures { IfOk result (λ all. length all ≡ length rows.now) }
{
    let mut all = Many::new(alloc);
    for place in 0..rows.len() {
        let flags = unset(alloc, rows.at(place).len())?;
        all.push(flags)?;
    }
    Ok(all)
}

/// The valuations of a set of control states at which a reference is true, with what was built of it.
fn scope_in(store: &mut Store, allowed: Ref, set: &Frozen) -> Result<Ref, StoreFault>
    requires allowed { IsRef store.old.nodes allowed }
    requires set { IsOrderedOver store.old.variables set.now }
    ensures extends { Extends store.old store.new }
    ensures roomy { IsErrOf result StoreFault.Nodes → store.old.limit < 2 ^ (2 ^ store.old.variables) }
    ensures found { IfOk result (IsRef store.new.nodes) }
{
    let states = store.thaw(set)?;
    store.and(allowed, states)
}

/// Where a part's valuations are, with what was built of it.
fn here_in(
    alloc: Global,
    store: &mut Store,
    parts: &Parts,
    questions: &Questions,
    frame: &Frame,
    plan: &Plan,
    place: usize,
) -> Result<Here, StoreFault>
    requires frame { (s : System) × IsFrame s store.old questions.now frame.now × IsPlan s frame.now plan.now }
    requires refs { HaveRefs store.old parts.now }
    requires place { place < length frame.now.sets }
    ensures extends { Extends store.old store.new }
    ensures roomy { IsErrOf result StoreFault.Nodes → store.old.limit < 2 ^ (2 ^ store.old.variables) }
    ensures here { IfOk result (IsHere store.new.nodes) }
{
    let taken = taken_in(alloc, store, questions, frame, plan.rows.at(place), place)?;
    let scope = scope_in(store, parts.allowed, frame.sets.at(place))?;
    Ok(Here {
        scope,
        taken: taken.here,
    })
}

/// A location that steps may lead into where the observer is true, with what was built of it: the rows whose flags are set are wanted.
fn target_in(
    alloc: Global,
    store: &mut Store,
    frame: &Frame,
    plan: &Plan,
    flags: &Many<Many<bool>>,
    observer: Ref,
    place: usize,
) -> Result<Target, StoreFault>
    requires plan { (s : System) × IsHeld store.old frame.now × IsPlan s frame.now plan.now }
    requires observer { IsRef store.old.nodes observer }
    requires flags { length flags.now ≡ length frame.now.sets }
    requires place { place < length frame.now.sets }
    ensures extends { Extends store.old store.new }
    ensures roomy { IsErrOf result StoreFault.Nodes → store.old.limit < 2 ^ (2 ^ store.old.variables) }
    ensures target { (s : System) → IsPlan s frame.now plan.now → IfOk result (IsTarget s store.new.nodes) }
{
    let into = store.and(observer, *frame.into.at(place))?;
    let wanted = chosen(alloc, plan.rows.at(place), flags.at(place))?;
    Ok(Target {
        number: *plan.numbers.at(place),
        into,
        wanted,
    })
}

/// Adds the location of a part, where that is reached, with what was built of it.
fn add_target(
    alloc: Global,
    store: &mut Store,
    frame: &Frame,
    plan: &Plan,
    flags: &Many<Many<bool>>,
    observer: Ref,
    place: usize,
    targets: &mut Many<Target>,
) -> Result<(), StoreFault>
    requires plan { (s : System) × IsHeld store.old frame.now × IsPlan s frame.now plan.now }
    requires observer { IsRef store.old.nodes observer }
    requires flags { length flags.now ≡ length frame.now.sets }
    requires place { place < length frame.now.sets }
    ensures extends { Extends store.old store.new }
    ensures roomy { IsErrOf result StoreFault.Nodes → store.old.limit < 2 ^ (2 ^ store.old.variables) }
    ensures targets { (s : System) → IsPlan s frame.now plan.now → All (IsTarget s store.old.nodes) targets.old
        → OnOk result (All (IsTarget s store.new.nodes) targets.new) }
{
    if !*plan.reached.at(place) {
        return Ok(());
    }
    let target = target_in(alloc, store, frame, plan, flags, observer, place)?;
    targets.push(target)?;
    Ok(())
}

/// All locations that steps may lead into, with what was built of them.
fn targets_in(
    alloc: Global,
    store: &mut Store,
    frame: &Frame,
    plan: &Plan,
    flags: &Many<Many<bool>>,
    observer: Ref,
) -> Result<Many<Target>, StoreFault>
    requires plan { (s : System) × IsHeld store.old frame.now × IsPlan s frame.now plan.now }
    requires observer { IsRef store.old.nodes observer }
    requires flags { length flags.now ≡ length frame.now.sets }
    ensures extends { Extends store.old store.new }
    ensures roomy { IsErrOf result StoreFault.Nodes → store.old.limit < 2 ^ (2 ^ store.old.variables) }
    ensures targets { (s : System) → IsPlan s frame.now plan.now → IfOk result (All (IsTarget s store.new.nodes)) }
{
    let mut targets = Many::new(alloc);
    for place in 1..frame.sets.len() {
        add_target(
            alloc,
            store,
            frame,
            plan,
            flags,
            observer,
            place,
            &mut targets,
        )?;
    }
    Ok(targets)
}

/// The entries of a part whose rows are the given ones, into all parts, or none, with what was built of them.
fn entries_in(
    alloc: Global,
    store: &mut Store,
    parts: &Parts,
    questions: &Questions,
    frame: &Frame,
    plan: &Plan,
    flags: &Many<Many<bool>>,
    given: &Many<Row>,
    place: usize,
) -> Result<Option<Many<Entry>>, StoreFault>
    requires frame { (s : System) × IsFrame s store.old questions.now frame.now × IsPlan s frame.now plan.now × (length given.now + s.tests < 2 ^ 32) }
    requires refs { HaveRefs store.old parts.now }
    requires flags { length flags.now ≡ length frame.now.sets }
    requires place { place < length frame.now.sets }
    ensures extends { Extends store.old store.new }
    ensures roomy { IsErrOf result StoreFault.Nodes → store.old.limit < 2 ^ (2 ^ store.old.variables) }
{
    let here = here_in(alloc, store, parts, questions, frame, plan, place)?;
    let targets = targets_in(alloc, store, frame, plan, flags, parts.observer)?;
    let within = frame_of(alloc, store, parts, By::Rows)?;
    entries_toward(
        alloc, store, &within, questions, here.scope, here.taken, given, &targets,
    )
}

/// The same, with the store left as it was.
fn entries_of(
    alloc: Global,
    store: &mut Store,
    parts: &Parts,
    questions: &Questions,
    frame: &Frame,
    plan: &Plan,
    flags: &Many<Many<bool>>,
    given: &Many<Row>,
    place: usize,
) -> Result<Option<Many<Entry>>, StoreFault>
    requires frame { (s : System) × IsFrame s store.old questions.now frame.now × IsPlan s frame.now plan.now × (length given.now + s.tests < 2 ^ 32) }
    requires refs { HaveRefs store.old parts.now }
    requires flags { length flags.now ≡ length frame.now.sets }
    requires place { place < length frame.now.sets }
    ensures same { store.new ≡ store.old }
    ensures roomy { IsErrOf result StoreFault.Nodes → store.old.limit < 2 ^ (2 ^ store.old.variables) }
{
    let mark = store.mark();
    let answer = entries_in(
        alloc, store, parts, questions, frame, plan, flags, given, place,
    );
    store.release(mark);
    answer
}

/// Sets the flags of the rows of a part that the entries name. Whether one was not set.
fn mark_named_by(
    alloc: Global,
    flags: &mut Many<Many<bool>>,
    place: usize,
    entries: &Many<Entry>,
) -> Result<bool, Memory>
    requires { place < length flags.old }
    ensures { length flags.new ≡ length flags.old }
{
    let mut own = copy_flags(alloc, flags.at(place))?;
    let more = mark_entries(&mut own, 0, entries);
    flags.set(place, own);
    Ok(more)
}

/// Sets the flags of the rows of a part that refute where the observer is false, or prove the wanted rows together. Whether one was not set, or
/// none where the part has no entries.
fn mark_together_in(
    alloc: Global,
    store: &mut Store,
    parts: &Parts,
    questions: &Questions,
    frame: &Frame,
    plan: &Plan,
    flags: &mut Many<Many<bool>>,
    place: usize,
) -> Result<Option<bool>, StoreFault>
    requires frame { (s : System) × IsFrame s store.old questions.now frame.now × IsPlan s frame.now plan.now }
    requires refs { HaveRefs store.old parts.now }
    requires flags { length flags.old ≡ length frame.now.sets }
    requires place { place < length frame.now.sets }
    ensures same { store.new ≡ store.old }
    ensures roomy { IsErrOf result StoreFault.Nodes → store.old.limit < 2 ^ (2 ^ store.old.variables) }
    ensures many { length flags.new ≡ length flags.old }
{
    let given = plan.rows.at(place);
    let found = entries_of(
        alloc, store, parts, questions, frame, plan, flags, given, place,
    )?;
    let Some(entries) = found else {
        return Ok(None);
    };
    let more = mark_named_by(alloc, flags, place, &entries)?;
    Ok(Some(more))
}

/// The same for each part. Whether some flag was not set, or none where a part has no entries.
fn mark_together(
    alloc: Global,
    store: &mut Store,
    parts: &Parts,
    questions: &Questions,
    frame: &Frame,
    plan: &Plan,
    flags: &mut Many<Many<bool>>,
) -> Result<Option<bool>, StoreFault>
    requires frame { (s : System) × IsFrame s store.old questions.now frame.now × IsPlan s frame.now plan.now }
    requires refs { HaveRefs store.old parts.now }
    requires flags { length flags.old ≡ length frame.now.sets }
    ensures same { store.new ≡ store.old }
    ensures roomy { IsErrOf result StoreFault.Nodes → store.old.limit < 2 ^ (2 ^ store.old.variables) }
    ensures many { length flags.new ≡ length flags.old }
{
    let mut more = false;
    for place in 0..frame.sets.len() {
        if *plan.reached.at(place) {
            match mark_together_in(alloc, store, parts, questions, frame, plan, flags, place)? {
                Some(new) => more = more || new,
                None => return Ok(None),
            }
        }
    }
    Ok(Some(more))
}

/// The location of a part, of whose rows this one is wanted, with what was built of it.
fn target_for(alloc: Global, frame: &Frame, plan: &Plan, spot: Spot) -> Result<Target, Memory>
    requires plan { (s : System) × IsPlan s frame.now plan.now }
    requires part { spot.part < length frame.now.sets }
    requires into { length frame.now.into ≡ length frame.now.sets }
    ensures wanted { (s : System) (nodes : List Triple) → IsPlan s frame.now plan.now → All (IsRef nodes) frame.now.into → IfOk result (IsTarget s nodes) }
{
    let rows = plan.rows.at(spot.part);
    let mut one = unset(alloc, rows.len())?;
    mark_premise(&mut one, 0, spot.row);
    let wanted = chosen(alloc, rows, &one)?;
    Ok(Target {
        number: *plan.numbers.at(spot.part),
        into: *frame.into.at(spot.part),
        wanted,
    })
}

/// The steps from a part into another that prove a row there, by the rows whose flags are set where these do, or none, with what was built.
fn steps_in(
    alloc: Global,
    store: &mut Store,
    parts: &Parts,
    questions: &Questions,
    frame: &Frame,
    plan: &Plan,
    flags: &Many<Many<bool>>,
    place: usize,
    spot: Spot,
) -> Result<Option<Many<Entry>>, StoreFault>
    requires frame { (s : System) × IsFrame s store.old questions.now frame.now × IsPlan s frame.now plan.now }
    requires refs { HaveRefs store.old parts.now }
    requires flags { length flags.now ≡ length frame.now.sets }
    requires place { place < length frame.now.sets }
    requires part { spot.part < length frame.now.sets }
    ensures extends { Extends store.old store.new }
    ensures roomy { IsErrOf result StoreFault.Nodes → store.old.limit < 2 ^ (2 ^ store.old.variables) }
{
    let here = here_in(alloc, store, parts, questions, frame, plan, place)?;
    let target = target_for(alloc, frame, plan, spot)?;
    let given = plan.rows.at(place);
    let lean = only_marked(alloc, given, flags.at(place))?;
    let within = frame_of(alloc, store, parts, By::Rows)?;
    steps_toward(
        alloc, store, &within, questions, here.scope, here.taken, &lean, given, &target,
    )
}

/// The same, with the store left as it was.
fn steps_of(
    alloc: Global,
    store: &mut Store,
    parts: &Parts,
    questions: &Questions,
    frame: &Frame,
    plan: &Plan,
    flags: &Many<Many<bool>>,
    place: usize,
    spot: Spot,
) -> Result<Option<Many<Entry>>, StoreFault>
    requires frame { (s : System) × IsFrame s store.old questions.now frame.now × IsPlan s frame.now plan.now }
    requires refs { HaveRefs store.old parts.now }
    requires flags { length flags.now ≡ length frame.now.sets }
    requires place { place < length frame.now.sets }
    requires part { spot.part < length frame.now.sets }
    ensures same { store.new ≡ store.old }
    ensures roomy { IsErrOf result StoreFault.Nodes → store.old.limit < 2 ^ (2 ^ store.old.variables) }
{
    let mark = store.mark();
    let answer = steps_in(
        alloc, store, parts, questions, frame, plan, flags, place, spot,
    );
    store.release(mark);
    answer
}

/// Sets the flags of the rows of a part that prove a row of another after the steps between them. Whether steps do.
fn mark_provers_in(
    alloc: Global,
    store: &mut Store,
    parts: &Parts,
    questions: &Questions,
    frame: &Frame,
    plan: &Plan,
    flags: &mut Many<Many<bool>>,
    place: usize,
    spot: Spot,
) -> Result<bool, StoreFault>
    requires frame { (s : System) × IsFrame s store.old questions.now frame.now × IsPlan s frame.now plan.now }
    requires refs { HaveRefs store.old parts.now }
    requires flags { length flags.old ≡ length frame.now.sets }
    requires place { place < length frame.now.sets }
    requires part { spot.part < length frame.now.sets }
    ensures same { store.new ≡ store.old }
    ensures roomy { IsErrOf result StoreFault.Nodes → store.old.limit < 2 ^ (2 ^ store.old.variables) }
    ensures many { length flags.new ≡ length flags.old }
{
    let found = steps_of(
        alloc, store, parts, questions, frame, plan, flags, place, spot,
    )?;
    let Some(entries) = found else {
        return Ok(false);
    };
    let _more = mark_named_by(alloc, flags, place, &entries)?;
    Ok(true)
}

/// Sets the flags of the rows that prove a row after all steps into its part. Whether steps prove it.
fn mark_provers(
    alloc: Global,
    store: &mut Store,
    parts: &Parts,
    questions: &Questions,
    frame: &Frame,
    plan: &Plan,
    flags: &mut Many<Many<bool>>,
    spot: Spot,
) -> Result<bool, StoreFault>
    requires frame { (s : System) × IsFrame s store.old questions.now frame.now × IsPlan s frame.now plan.now }
    requires refs { HaveRefs store.old parts.now }
    requires flags { length flags.old ≡ length frame.now.sets }
    requires part { spot.part < length frame.now.sets }
    ensures same { store.new ≡ store.old }
    ensures roomy { IsErrOf result StoreFault.Nodes → store.old.limit < 2 ^ (2 ^ store.old.variables) }
    ensures many { length flags.new ≡ length flags.old }
{
    for place in 0..frame.sets.len() {
        if *plan.reached.at(place) {
            let proved = mark_provers_in(
                alloc, store, parts, questions, frame, plan, flags, place, spot,
            )?;
            if !proved {
                return Ok(false);
            }
        }
    }
    Ok(true)
}

/// The first row whose flag is set in the one list and not in the other.
fn next_spot(flags: &Many<Many<bool>>, known: &Many<Many<bool>>) -> Option<Spot>
    requires { length known.now ≡ length flags.now }
    ensures { IfSome result (λ spot. spot.part < length flags.now) }
{
    for part in 0..flags.len() {
        if let Some(row) = next_place(flags.at(part), known.at(part)) {
            return Some(Spot { part, row });
        }
    }
    None
}

/// Sets the flag of a row.
fn mark_spot(alloc: Global, flags: &mut Many<Many<bool>>, spot: Spot) -> Result<(), Memory>
    requires { spot.part < length flags.old }
    ensures { length flags.new ≡ length flags.old }
{
    let mut own = copy_flags(alloc, flags.at(spot.part))?;
    mark_premise(&mut own, 0, spot.row);
    flags.set(spot.part, own);
    Ok(())
}

/// Sets the flags of the rows that prove the needed ones, one after another, until all are known to be proved. Whether all are.
fn mark_rest(
    alloc: Global,
    store: &mut Store,
    parts: &Parts,
    questions: &Questions,
    frame: &Frame,
    plan: &Plan,
    flags: &mut Many<Many<bool>>,
    known: &mut Many<Many<bool>>,
) -> Result<bool, StoreFault>
    requires frame { (s : System) × IsFrame s store.old questions.now frame.now × IsPlan s frame.now plan.now }
    requires refs { HaveRefs store.old parts.now }
    requires flags { length flags.old ≡ length frame.now.sets }
    requires known { length known.old ≡ length frame.now.sets }
    ensures same { store.new ≡ store.old }
    ensures roomy { IsErrOf result StoreFault.Nodes → store.old.limit < 2 ^ (2 ^ store.old.variables) }
    ensures many { length flags.new ≡ length flags.old }
    ensures many_known { length known.new ≡ length known.old }
{
    for _turn in 0..TURNS {
        let Some(spot) = next_spot(flags, known) else {
            return Ok(true);
        };
        mark_spot(alloc, known, spot)?;
        let proved = mark_provers(alloc, store, parts, questions, frame, plan, flags, spot)?;
        if !proved {
            return Ok(false);
        }
    }
    Ok(false)
}

/// The location of a part with the rows whose flags are set, or none where it has no entries.
fn location_in(
    alloc: Global,
    store: &mut Store,
    parts: &Parts,
    questions: &Questions,
    frame: &Frame,
    plan: &Plan,
    flags: &Many<Many<bool>>,
    place: usize,
) -> Result<Option<Location>, StoreFault>
    requires frame { (s : System) × IsFrame s store.old questions.now frame.now × IsPlan s frame.now plan.now }
    requires refs { HaveRefs store.old parts.now }
    requires flags { length flags.now ≡ length frame.now.sets }
    requires place { place < length frame.now.sets }
    ensures same { store.new ≡ store.old }
    ensures roomy { IsErrOf result StoreFault.Nodes → store.old.limit < 2 ^ (2 ^ store.old.variables) }
{
    let own = chosen(alloc, plan.rows.at(place), flags.at(place))?;
    let found = entries_of(
        alloc, store, parts, questions, frame, plan, flags, &own, place,
    )?;
    let Some(entries) = found else {
        return Ok(None);
    };
    let control = copy_set(alloc, frame.sets.at(place))?;
    let one = location(alloc, control, own, entries)?;
    Ok(Some(one))
}

/// The certificate whose locations have the rows whose flags are set, or none.
fn certificate_in(
    alloc: Global,
    store: &mut Store,
    parts: &Parts,
    questions: &Questions,
    frame: &Frame,
    plan: &Plan,
    flags: &Many<Many<bool>>,
) -> Result<Option<Certificate>, StoreFault>
    requires frame { (s : System) × IsFrame s store.old questions.now frame.now × IsPlan s frame.now plan.now }
    requires refs { HaveRefs store.old parts.now }
    requires flags { length flags.now ≡ length frame.now.sets }
    ensures same { store.new ≡ store.old }
    ensures roomy { IsErrOf result StoreFault.Nodes → store.old.limit < 2 ^ (2 ^ store.old.variables) }
{
    let mut locations = Many::new(alloc);
    for place in 0..frame.sets.len() {
        if *plan.reached.at(place) {
            match location_in(alloc, store, parts, questions, frame, plan, flags, place)? {
                Some(one) => locations.push(one)?,
                None => return Ok(None),
            }
        }
    }
    Ok(Some(Certificate { locations }))
}

/// Sets the flags of all rows that are needed: row by row, and then those that the needed rows together ask for, until no flag is new. Whether that
/// is found.
fn mark_needed(
    alloc: Global,
    store: &mut Store,
    parts: &Parts,
    questions: &Questions,
    frame: &Frame,
    plan: &Plan,
    flags: &mut Many<Many<bool>>,
) -> Result<bool, StoreFault>
    requires frame { (s : System) × IsFrame s store.old questions.now frame.now × IsPlan s frame.now plan.now }
    requires refs { HaveRefs store.old parts.now }
    requires flags { length flags.old ≡ length frame.now.sets }
    ensures same { store.new ≡ store.old }
    ensures roomy { IsErrOf result StoreFault.Nodes → store.old.limit < 2 ^ (2 ^ store.old.variables) }
    ensures many { length flags.new ≡ length flags.old }
{
    let mut known = all_unset(alloc, &plan.rows)?;
    for _try in 0..TRIES {
        match mark_together(alloc, store, parts, questions, frame, plan, flags)? {
            Some(false) => return Ok(true),
            Some(true) => {}
            None => return Ok(false),
        }
        let proved = mark_rest(
            alloc, store, parts, questions, frame, plan, flags, &mut known,
        )?;
        if !proved {
            return Ok(false);
        }
    }
    Ok(false)
}

/// The certificate with the rows that are needed, or none.
fn certificate_by(
    alloc: Global,
    store: &mut Store,
    parts: &Parts,
    questions: &Questions,
    frame: &Frame,
    plan: &Plan,
) -> Result<Option<Certificate>, StoreFault>
    requires frame { (s : System) × IsFrame s store.old questions.now frame.now × IsPlan s frame.now plan.now }
    requires refs { HaveRefs store.old parts.now }
    ensures same { store.new ≡ store.old }
    ensures roomy { IsErrOf result StoreFault.Nodes → store.old.limit < 2 ^ (2 ^ store.old.variables) }
{
    let mut flags = all_unset(alloc, &plan.rows)?;
    let found = mark_needed(alloc, store, parts, questions, frame, plan, &mut flags)?;
    if !found {
        return Ok(None);
    }
    certificate_in(alloc, store, parts, questions, frame, plan, &flags)
}

/// The certificate of the partition with the rows that are needed, or none: those that refute where the observer is false, and then those that
/// prove a needed row after the steps into its part, found row by row. It promises nothing of it. The store is left as it was, after a fault too.
/// Nodes comes where it has no room for what is built on the way, never where its limit holds every function of its variables, and Memory where
/// there is none.
pub fn certificate_of(
    alloc: Global,
    store: &mut Store,
    parts: &Parts,
    questions: &Questions,
    frame: &Frame,
    known: &Known,
) -> Result<Option<Certificate>, StoreFault>
    requires frame { (s : System) × IsFrame s store.old questions.now frame.now }
    requires refs { HaveRefs store.old parts.now }
    requires known { IsKnown frame.now known.now }
    ensures same { store.new ≡ store.old }
    ensures roomy { IsErrOf result StoreFault.Nodes → store.old.limit < 2 ^ (2 ^ store.old.variables) }
{
    match plan_of(alloc, questions, frame, known)? {
        Some(plan) => certificate_by(alloc, store, parts, questions, frame, &plan),
        None => Ok(None),
    }
}
