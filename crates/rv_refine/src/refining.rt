//! A certificate over one part, or over single control states.

ghost use Rattle.std.specs.Prelude.{◌≡◌, ◌*◌, ◌<◌, ◌≤◌, ◌^◌, ℕ, All, length, IfOk, IfSome, OnOk, IsErrOf};
ghost use Rattle.std.specs.Int.RustNames.{unsigned_abs};
ghost use Rattle.rv_diagram.specs.Nodes.{IsRef, IsOrderedOver};
ghost use Rattle.rv_diagram.specs.Growing.{Extends};
ghost use Rattle.rv_proofs.specs.Systems.{System, IsSystem};
ghost use Rattle.rv_proofs.specs.Accepted.{IsAccepted};
ghost use Rattle.rv_symbolic.specs.Represented.{IsRelationOf};
ghost use Rattle.rv_walk.specs.Plain.{ArePlain};
ghost use Rattle.rv_cases.specs.Questions.{AreQuestions};
ghost use Rattle.rv_rise.specs.Rounds.{IsGiven};
ghost use Rattle.rv_refine.specs.Frames.{IsFrame, IsKnown};
ghost use Rattle.rv_refine.specs.Sides.{AreLeftSides};

use crate::covering::certificate_of;
use crate::directions::directions_of;
use crate::frames::{Frame, Known};
use crate::hull::add_hull;
use crate::parts::single_states;
use crate::rising::{begun, closed};
use crate::thresholds::thresholds_of;
use rv_base::{Many, Memory};
use rv_cases::Questions;
use rv_cover::{copy_set, led_into};
use rv_diagram::{Frozen, Ref, Store, StoreFault};
use rv_loops::judged;
use rv_proofs::Certificate;
use rv_ranges::is_plain;
use rv_rise::{Asked, asked_of, columns_of};
use rv_rows::Row;
use rv_symbolic::Relation;
use rv_walk::without;
use std::alloc::Global;

/// How many ways there are, each for both partitions: with the first left sides, with those that no step changes besides, with the further ones, and
/// with all of them and dense bounds.
const WAYS: usize = 8;

/// How a certificate is sought.
#[derive(Clone, Copy, Debug)]
pub struct Way {
    /// Over single control states, and else over one part.
    single: bool,
    /// With the further left sides.
    further: bool,
    /// With each number of small magnitude as a bound.
    dense: bool,
    /// With the left sides that no step changes.
    level: bool,
    /// Whether limits are raised by any number of turns of a part at once.
    turns: bool,
}

/// The initial control states, and then the parts. The only error is want of memory.
fn with_first(alloc: Global, first: Frozen, parts: &Many<Frozen>) -> Result<Many<Frozen>, Memory>
    ensures { (variables : ℕ) → IsOrderedOver variables first → All (IsOrderedOver variables) parts.now
        → IfOk result (All (IsOrderedOver variables)) }
{
    let mut sets = Many::new(alloc);
    sets.push(first)?;
    for place in 0..parts.len() {
        let part = copy_set(alloc, parts.at(place))?;
        sets.push(part)?;
    }
    Ok(sets)
}

/// For each set where the next control state is in it, with what was built of it.
fn into_each(
    alloc: Global,
    store: &mut Store,
    relation: &Relation,
    sets: &Many<Frozen>,
) -> Result<Many<Ref>, StoreFault>
    requires { (s : System) × IsRelationOf s store.old relation.now }
    ensures extends { Extends store.old store.new }
    ensures roomy { IsErrOf result StoreFault.Nodes → store.old.limit < 2 ^ (2 ^ store.old.variables) }
    ensures found { IfOk result (All (IsRef store.new.nodes)) }
    ensures many { IfOk result (λ into. length into ≡ length sets.now) }
{
    let mut into = Many::new(alloc);
    for place in 0..sets.len() {
        let led = led_into(
            alloc,
            store,
            relation.parts().next.as_slice(),
            sets.at(place),
        )?;
        into.push(led)?;
    }
    Ok(into)
}

/// The left sides whose bounds are sought in a way. The store is left as it was.
fn sides_for(
    alloc: Global,
    store: &mut Store,
    questions: &Questions,
    allowed: Ref,
    way: Way,
) -> Result<Many<Row>, StoreFault>
    requires asked { (s : System) × IsSystem s × AreQuestions s store.old questions.now }
    requires allowed { IsRef store.old.nodes allowed }
    requires few { length questions.now.forms ≤ 64 }
    ensures same { store.new ≡ store.old }
    ensures roomy { IsErrOf result StoreFault.Nodes → store.old.limit < 2 ^ (2 ^ store.old.variables) }
    ensures sides { IfOk result (AreLeftSides (length questions.now.forms)) }
{
    let mut sides = directions_of(alloc, questions, way.further)?;
    if way.level {
        add_hull(alloc, store, questions, allowed, &mut sides)?;
    }
    Ok(sides)
}

/// Whether a way with so many left sides is one that was tried: with those that no step changes, of which none is new.
fn is_idle(alloc: Global, questions: &Questions, way: Way, many: usize) -> Result<bool, Memory>
    requires { length questions.now.forms ≤ 64 }
{
    if way.further || !way.level {
        return Ok(false);
    }
    let first = directions_of(alloc, questions, false)?;
    Ok(first.len() == many)
}

/// What is the same throughout a search over these sets, with what was built of it.
fn frame_over(
    alloc: Global,
    store: &mut Store,
    relation: &Relation,
    questions: &Questions,
    thresholds: &[i128],
    sets: Many<Frozen>,
    way: Way,
) -> Result<Frame, StoreFault>
    requires given { (s : System) × IsGiven s store.old relation.now questions.now }
    requires thresholds { All (λ t. unsigned_abs t ≤ 2 ^ 41) thresholds.now }
    requires some { 0 < length questions.now.forms }
    requires sets { All (IsOrderedOver store.old.variables) sets }
    ensures extends { Extends store.old store.new }
    ensures roomy { IsErrOf result StoreFault.Nodes → store.old.limit < 2 ^ (2 ^ store.old.variables) }
    ensures frame { (s : System) → IsGiven s store.old relation.now questions.now → IfOk result (IsFrame s store.new questions.now) }
{
    let thresholds = thresholds_of(alloc, thresholds, questions, way.dense)?;
    let columns = columns_of(store, questions);
    let into = into_each(alloc, store, relation, &sets)?;
    let Asked { allowed, labels } = asked_of(alloc, store, relation, questions)?;
    let sides = sides_for(alloc, store, questions, allowed, way)?;
    let idle = is_idle(alloc, questions, way, sides.len())?;
    Ok(Frame {
        sides,
        thresholds,
        columns,
        labels,
        allowed,
        sets,
        into,
        turns: way.turns,
        idle,
    })
}

/// The parts with rows that steps keep, or none where the search gives up. The store is left as it was.
fn known_of(
    alloc: Global,
    store: &mut Store,
    questions: &Questions,
    frame: &Frame,
) -> Result<Option<Known>, StoreFault>
    requires frame { (s : System) × IsFrame s store.old questions.now frame.now }
    ensures known { IfOk result (λ o. IfSome o (IsKnown frame.now)) }
    ensures same { store.new ≡ store.old }
    ensures roomy { IsErrOf result StoreFault.Nodes → store.old.limit < 2 ^ (2 ^ store.old.variables) }
{
    if frame.idle {
        return Ok(None);
    }
    let mut known = begun(alloc, frame)?;
    let done = closed(alloc, store, questions, frame, &mut known)?;
    if done {
        return Ok(Some(known));
    }
    Ok(None)
}

/// The certificate, or none where it is not accepted or has a loop. The store is left as it was.
fn accepted(
    alloc: Global,
    store: &mut Store,
    relation: &Relation,
    questions: &Questions,
    certificate: Certificate,
) -> Result<Option<Certificate>, StoreFault>
    requires given { (s : System) × IsGiven s store.old relation.now questions.now }
    ensures accepted { (s : System) → IsGiven s store.old relation.now questions.now → IfOk result (λ o. IfSome o (IsAccepted s)) }
    ensures plain { IfOk result (λ o. IfSome o ArePlain) }
    ensures same { store.new ≡ store.old }
    ensures roomy { IsErrOf result StoreFault.Nodes → store.old.limit < 2 ^ (2 ^ store.old.variables) }
{
    let Some(found) = judged(alloc, store, relation, questions, certificate)? else {
        return Ok(None);
    };
    if is_plain(&found) {
        return Ok(Some(found));
    }
    Ok(None)
}

/// A certificate over the sets of a frame, or none. The store is left as it was.
fn refined_with(
    alloc: Global,
    store: &mut Store,
    relation: &Relation,
    questions: &Questions,
    frame: &Frame,
) -> Result<Option<Certificate>, StoreFault>
    requires given { (s : System) × IsGiven s store.old relation.now questions.now × IsFrame s store.old questions.now frame.now }
    ensures accepted { (s : System) → IsGiven s store.old relation.now questions.now → IfOk result (λ o. IfSome o (IsAccepted s)) }
    ensures plain { IfOk result (λ o. IfSome o ArePlain) }
    ensures same { store.new ≡ store.old }
    ensures roomy { IsErrOf result StoreFault.Nodes → store.old.limit < 2 ^ (2 ^ store.old.variables) }
{
    let Some(known) = known_of(alloc, store, questions, frame)? else {
        return Ok(None);
    };
    match certificate_of(alloc, store, relation.parts(), questions, frame, &known)? {
        Some(certificate) => accepted(alloc, store, relation, questions, certificate),
        None => Ok(None),
    }
}

/// A certificate over the initial control states and these parts, or none, with what was built of it.
fn refined_over(
    alloc: Global,
    store: &mut Store,
    relation: &Relation,
    questions: &Questions,
    thresholds: &[i128],
    first: Frozen,
    parts: Many<Frozen>,
    way: Way,
) -> Result<Option<Certificate>, StoreFault>
    requires given { (s : System) × IsGiven s store.old relation.now questions.now }
    requires thresholds { All (λ t. unsigned_abs t ≤ 2 ^ 41) thresholds.now }
    requires some { 0 < length questions.now.forms }
    requires first { IsOrderedOver store.old.variables first }
    requires parts { All (IsOrderedOver store.old.variables) parts }
    ensures extends { Extends store.old store.new }
    ensures roomy { IsErrOf result StoreFault.Nodes → store.old.limit < 2 ^ (2 ^ store.old.variables) }
    ensures accepted { (s : System) → IsGiven s store.old relation.now questions.now → IfOk result (λ o. IfSome o (IsAccepted s)) }
    ensures plain { IfOk result (λ o. IfSome o ArePlain) }
{
    let sets = with_first(alloc, first, &parts)?;
    let frame = frame_over(alloc, store, relation, questions, thresholds, sets, way)?;
    refined_with(alloc, store, relation, questions, &frame)
}

/// The parts, or none where there is one alone, which another way looks at.
fn unless_one(parts: Option<Many<Frozen>>) -> Option<Many<Frozen>>
    ensures { (variables : ℕ) → IfSome parts (All (IsOrderedOver variables)) → IfSome result (All (IsOrderedOver variables)) }
{
    match parts {
        Some(parts) => {
            if parts.len() == 1 {
                return None;
            }
            Some(parts)
        }
        None => None,
    }
}

/// The one part, or the single control states of it, or none where there are too many or one alone, with what was built of it.
fn parts_of(
    alloc: Global,
    store: &mut Store,
    bits: usize,
    rest: Frozen,
    single: bool,
) -> Result<Option<Many<Frozen>>, StoreFault>
    requires bits { 2 * bits ≤ store.old.variables }
    requires few { store.old.variables ≤ 4096 }
    requires rest { IsOrderedOver store.old.variables rest }
    ensures extends { Extends store.old store.new }
    ensures roomy { IsErrOf result StoreFault.Nodes → store.old.limit < 2 ^ (2 ^ store.old.variables) }
    ensures ordered { IfOk result (λ o. IfSome o (All (IsOrderedOver store.old.variables))) }
{
    if single {
        let states = single_states(alloc, store, bits, &rest)?;
        return Ok(unless_one(states));
    }
    let mut parts = Many::new(alloc);
    parts.push(rest)?;
    Ok(Some(parts))
}

/// A certificate in one way, or none, with what was built of it.
fn refined_in(
    alloc: Global,
    store: &mut Store,
    relation: &Relation,
    questions: &Questions,
    reached: &Frozen,
    thresholds: &[i128],
    way: Way,
) -> Result<Option<Certificate>, StoreFault>
    requires given { (s : System) × IsGiven s store.old relation.now questions.now }
    requires reached { IsOrderedOver store.old.variables reached.now }
    requires thresholds { All (λ t. unsigned_abs t ≤ 2 ^ 41) thresholds.now }
    ensures extends { Extends store.old store.new }
    ensures roomy { IsErrOf result StoreFault.Nodes → store.old.limit < 2 ^ (2 ^ store.old.variables) }
    ensures accepted { (s : System) → IsGiven s store.old relation.now questions.now → IfOk result (λ o. IfSome o (IsAccepted s)) }
    ensures plain { IfOk result (λ o. IfSome o ArePlain) }
{
    if questions.forms.is_empty() {
        return Ok(None);
    }
    let bits = relation.parts().next.len();
    let first = relation.initial(store)?;
    let rest = without(store, reached, &first)?;
    let Some(parts) = parts_of(alloc, store, bits, rest, way.single)? else {
        return Ok(None);
    };
    refined_over(
        alloc, store, relation, questions, thresholds, first, parts, way,
    )
}

/// The same, also none where the store has no room. The store is left as it was.
fn refined_by(
    alloc: Global,
    store: &mut Store,
    relation: &Relation,
    questions: &Questions,
    reached: &Frozen,
    thresholds: &[i128],
    way: Way,
) -> Result<Option<Certificate>, Memory>
    requires given { (s : System) × IsGiven s store.old relation.now questions.now }
    requires reached { IsOrderedOver store.old.variables reached.now }
    requires thresholds { All (λ t. unsigned_abs t ≤ 2 ^ 41) thresholds.now }
    ensures accepted { (s : System) → IsGiven s store.old relation.now questions.now → IfOk result (λ o. IfSome o (IsAccepted s)) }
    ensures plain { IfOk result (λ o. IfSome o ArePlain) }
    ensures same { store.new ≡ store.old }
{
    let mark = store.mark();
    let answer = refined_in(alloc, store, relation, questions, reached, thresholds, way);
    store.release(mark);
    match answer {
        Ok(found) => Ok(found),
        Err(StoreFault::Nodes) => Ok(None),
        Err(StoreFault::Memory) => Err(Memory::Memory),
    }
}

/// An accepted certificate without loops over the initial control states and one part, or over them and single control states, or none, for the
/// system whose relation and questions are in the store; `reached` holds the control states that are looked at, and thresholds are tried as
/// bounds; where it is asked to accelerate, limits are raised by any number of turns at once. None promises nothing, and comes too where the work is
/// more than is taken on, or the store has no room. The store is left as it was, after a fault too. The only error is want of memory.
pub fn refined(
    alloc: Global,
    store: &mut Store,
    relation: &Relation,
    questions: &Questions,
    reached: &Frozen,
    thresholds: &[i128],
    accelerate: bool,
) -> Result<Option<Certificate>, Memory>
    requires given { (s : System) × IsGiven s store.old relation.now questions.now }
    requires reached { IsOrderedOver store.old.variables reached.now }
    requires thresholds { All (λ t. unsigned_abs t ≤ 2 ^ 41) thresholds.now }
    ensures accepted { (s : System) → IsGiven s store.old relation.now questions.now → IfOk result (λ o. IfSome o (IsAccepted s)) }
    ensures plain { IfOk result (λ o. IfSome o ArePlain) }
    ensures same { store.new ≡ store.old }
{
    for number in 0..WAYS {
        let way = Way {
            single: number % 2 == 1,
            further: number >= 4,
            dense: number >= 6,
            level: number % 4 >= 2,
            turns: accelerate,
        };
        let found = refined_by(alloc, store, relation, questions, reached, thresholds, way)?;
        if let Some(certificate) = found {
            return Ok(Some(certificate));
        }
    }
    Ok(None)
}
