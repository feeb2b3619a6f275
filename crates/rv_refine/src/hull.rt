//! Left sides whose value no step changes: those that are orthogonal to what each step adds to the memories.
//!
//! Steps are taken at one valuation after another. To begin with each unit is such a left side; a step that changes some of them takes one away,
//! and combines it with the others so that these do not change. What is left at the end promises nothing, as not every step is looked at, and of a
//! memory that is set to a constant the number before the step is guessed by the tests at that valuation.

ghost use Rattle.std.specs.Prelude.{◌≡◌, ◌<◌, ◌≤◌, ◌^◌, ℕ, All, length, IfOk, IfSome, OnOk, IsErrOf};
ghost use Rattle.std.specs.Int.RustNames.{unsigned_abs};
ghost use Rattle.rv_diagram.specs.Nodes.{IsRef};
ghost use Rattle.rv_diagram.specs.Growing.{Extends};
ghost use Rattle.rv_proofs.specs.Systems.{System, IsSystem};
ghost use Rattle.rv_cases.specs.Questions.{AreQuestions};
ghost use Rattle.rv_refine.specs.Sides.{IsLeftSide, AreLeftSides, AreIncrements};
ghost use Rattle.rv_refine.specs.Hulls.{IsHull};

use crate::bounding::left_of;
use crate::directions::{add_rows, combined, divisor_of, is_small, magnitude, pair, signed};
use crate::gains::{Gain, gain_of, growth_of};
use rv_base::{Many, Memory};
use rv_cases::{Questions, sample_of};
use rv_cover::{told_forms, told_rows, with_updates};
use rv_diagram::{Ref, Store, StoreFault};
use rv_ends::main_tick;
use rv_rows::{Form, Row, number_at};
use std::alloc::Global;

/// As many steps as are looked at.
const STEPS: usize = 256;

/// As many left sides as may be added.
const MOST: usize = 128;

/// The left sides that the steps so far do not change, and where other steps are.
#[derive(Debug, Drop)]
pub struct Hull {
    /// The left sides.
    pub kept: Many<Row>,
    /// Where other steps are.
    pub left: Ref,
}

/// The left side of each memory alone.
fn units(alloc: Global, memories: usize) -> Result<Many<Row>, Memory>
    ensures { IfOk result (AreLeftSides memories) }
{
    let mut units = Many::new(alloc);
    for memory in 0..memories {
        let unit = pair(alloc, memories, memory, 1, memory, 0)?;
        units.push(unit)?;
    }
    Ok(units)
}

/// What a step adds to each memory, or none where one is set to a constant and nothing is known of the number before.
fn gains_of(
    alloc: Global,
    updates: &Many<Form>,
    told: &Many<Row>,
) -> Result<Option<Many<Gain>>, Memory> {
    let mut gains = Many::new(alloc);
    for memory in 0..updates.len() {
        let gain = gain_of(updates.at(memory), memory, updates.len(), told);
        if let Gain::Reset = gain {
            return Ok(None);
        }
        gains.push(gain)?;
    }
    Ok(Some(gains))
}

/// What a step adds to each left side, or none where one is great.
fn growths_of(
    alloc: Global,
    sides: &Many<Row>,
    gains: &Many<Gain>,
) -> Result<Option<Many<i128>>, Memory>
    ensures small { IfOk result (λ o. IfSome o AreIncrements) }
    ensures many { IfOk result (λ o. IfSome o (λ growths. length growths ≡ length sides.now)) }
{
    let mut growths = Many::new(alloc);
    for place in 0..sides.len() {
        match growth_of(sides.at(place), gains) {
            Some(growth) => growths.push(growth)?,
            None => return Ok(None),
        }
    }
    Ok(Some(growths))
}

/// The number that each left side has for a memory, or none where one is great.
fn numbers_of(alloc: Global, sides: &Many<Row>, memory: usize) -> Result<Option<Many<i128>>, Memory>
    ensures small { IfOk result (λ o. IfSome o AreIncrements) }
    ensures many { IfOk result (λ o. IfSome o (λ growths. length growths ≡ length sides.now)) }
{
    let mut numbers = Many::new(alloc);
    for place in 0..sides.len() {
        let number = number_at(&sides.at(place).coefficients, memory);
        if !is_small(number) {
            return Ok(None);
        }
        numbers.push(number)?;
    }
    Ok(Some(numbers))
}

/// The place of the first number that is not 0, or none.
fn first_change(growths: &Many<i128>) -> Option<usize>
    ensures { IfSome result (λ k. k < length growths.now) }
{
    for place in 0..growths.len() {
        if *growths.at(place) != 0 {
            return Some(place);
        }
    }
    None
}

/// The sum of two left sides that does not grow where they grow by these numbers, the second one's not 0; none where a number is great.
fn levelled(
    alloc: Global,
    memories: usize,
    side: &Row,
    growth: i128,
    with: &Row,
    other: i128,
) -> Result<Option<Row>, Memory>
    requires growth { unsigned_abs growth ≤ 2 ^ 20 }
    requires other { unsigned_abs other ≤ 2 ^ 20 }
    ensures { IfOk result (λ o. IfSome o (IsLeftSide memories)) }
{
    let by = divisor_of(magnitude(growth), magnitude(other)) as i128;
    let one = other / by;
    let part = growth / by;
    if !is_small(one) || !is_small(part) {
        return Ok(None);
    }
    combined(
        alloc,
        memories,
        one,
        &side.coefficients,
        signed(part, true),
        &with.coefficients,
    )
}

/// Adds a left side where there is one.
fn add_one(sides: &mut Many<Row>, memories: usize, side: Option<Row>) -> Result<(), Memory>
    requires sides { AreLeftSides memories sides.old }
    requires side { IfSome side (IsLeftSide memories) }
    ensures { OnOk result (AreLeftSides memories sides.new) }
{
    let _size = memories;
    match side {
        Some(side) => {
            sides.push(side)?;
            Ok(())
        }
        None => Ok(()),
    }
}

/// The left sides, changed so that none grows where they grow by these numbers: one fewer, where one of them does.
fn after_growths(
    alloc: Global,
    memories: usize,
    sides: Many<Row>,
    growths: &Many<i128>,
) -> Result<Many<Row>, Memory>
    requires sides { AreLeftSides memories sides }
    requires growths { AreIncrements growths.now }
    requires many { length growths.now ≡ length sides }
    ensures { IfOk result (AreLeftSides memories) }
{
    let Some(changed) = first_change(growths) else {
        return Ok(sides);
    };
    let other = *growths.at(changed);
    let mut rest = Many::new(alloc);
    for place in 0..sides.len() {
        if place != changed {
            let growth = *growths.at(place);
            let with = sides.at(changed);
            let side = levelled(alloc, memories, sides.at(place), growth, with, other)?;
            add_one(&mut rest, memories, side)?;
        }
    }
    Ok(rest)
}

/// The left sides, changed so that none has a memory.
fn without_memory(
    alloc: Global,
    memories: usize,
    sides: Many<Row>,
    memory: usize,
) -> Result<Many<Row>, Memory>
    requires { AreLeftSides memories sides }
    ensures { IfOk result (AreLeftSides memories) }
{
    match numbers_of(alloc, &sides, memory)? {
        Some(numbers) => after_growths(alloc, memories, sides, &numbers),
        None => Ok(Many::new(alloc)),
    }
}

/// The left sides, changed so that none has a memory of which it is not looked at what a step adds to it.
fn without_free(
    alloc: Global,
    memories: usize,
    sides: Many<Row>,
    gains: &Many<Gain>,
) -> Result<Many<Row>, Memory>
    requires { AreLeftSides memories sides }
    ensures { IfOk result (AreLeftSides memories) }
{
    let mut kept = sides;
    for memory in 0..gains.len() {
        if let Gain::Free = *gains.at(memory) {
            kept = without_memory(alloc, memories, kept, memory)?;
        }
    }
    Ok(kept)
}

/// The left sides, changed so that a step with these rows and updates does not change them.
fn after_step(
    alloc: Global,
    memories: usize,
    sides: Many<Row>,
    updates: &Many<Form>,
    told: &Many<Row>,
) -> Result<Many<Row>, Memory>
    requires { AreLeftSides memories sides }
    ensures { IfOk result (AreLeftSides memories) }
{
    let Some(gains) = gains_of(alloc, updates, told)? else {
        return Ok(sides);
    };
    let kept = without_free(alloc, memories, sides, &gains)?;
    match growths_of(alloc, &kept, &gains)? {
        Some(growths) => after_growths(alloc, memories, kept, &growths),
        None => Ok(Many::new(alloc)),
    }
}

/// Looks at one more step, with what was built of it. The rows that are wanted have all memories.
fn next_step(
    alloc: Global,
    store: &mut Store,
    questions: &Questions,
    wanted: &Many<Row>,
    hull: Hull,
) -> Result<Hull, StoreFault>
    requires asked { (s : System) × IsSystem s × AreQuestions s store.old questions.now }
    requires hull { IsHull (length questions.now.forms) store.old.nodes hull }
    ensures extends { Extends store.old store.new }
    ensures roomy { IsErrOf result StoreFault.Nodes → store.old.limit < 2 ^ (2 ^ store.old.variables) }
    ensures hull { IfOk result (IsHull (length questions.now.forms) store.new.nodes) }
{
    let Hull { kept, left } = hull;
    let sample = sample_of(alloc, store, left)?;
    let told = told_rows(alloc, store, &sample, questions)?;
    let updates = told_forms(alloc, store, &sample, questions)?;
    let kept = after_step(alloc, questions.forms.len(), kept, &updates, &told)?;
    let nothing = Vec::new(alloc);
    let answers = with_updates(store, &sample, questions, wanted, nothing)?;
    let left = left_of(store, left, answers.as_slice())?;
    Ok(Hull { kept, left })
}

/// The left sides of a hull.
fn kept_of(hull: Hull) -> Many<Row>
    ensures { result ≡ hull.kept }
{
    let Hull { kept, .. } = hull;
    kept
}

/// The left sides that no step changes of those where the reference is true, with what was built of them.
fn hull_in(
    alloc: Global,
    store: &mut Store,
    questions: &Questions,
    allowed: Ref,
) -> Result<Many<Row>, StoreFault>
    requires asked { (s : System) × IsSystem s × AreQuestions s store.old questions.now }
    requires allowed { IsRef store.old.nodes allowed }
    ensures extends { Extends store.old store.new }
    ensures roomy { IsErrOf result StoreFault.Nodes → store.old.limit < 2 ^ (2 ^ store.old.variables) }
    ensures kept { IfOk result (AreLeftSides (length questions.now.forms)) }
{
    let wanted = units(alloc, questions.forms.len())?;
    let kept = units(alloc, questions.forms.len())?;
    let mut hull = Hull {
        kept,
        left: allowed,
    };
    for _step in 0..STEPS {
        if hull.kept.is_empty() || store.is_false(hull.left) {
            return Ok(kept_of(hull));
        }
        hull = next_step(alloc, store, questions, &wanted, hull)?;
    }
    Ok(kept_of(hull))
}

/// Where both references are true, with what was built of that.
fn both(store: &mut Store, a: Ref, b: Ref) -> Result<Ref, StoreFault>
    requires a { IsRef store.old.nodes a }
    requires b { IsRef store.old.nodes b }
    ensures extends { Extends store.old store.new }
    ensures roomy { IsErrOf result StoreFault.Nodes → store.old.limit < 2 ^ (2 ^ store.old.variables) }
    ensures found { IfOk result (IsRef store.new.nodes) }
{
    store.and(a, b)
}

/// The same of those steps at which the main tick is, too.
fn hull_under(
    alloc: Global,
    store: &mut Store,
    questions: &Questions,
    allowed: Ref,
) -> Result<Many<Row>, StoreFault>
    requires asked { (s : System) × IsSystem s × AreQuestions s store.old questions.now }
    requires allowed { IsRef store.old.nodes allowed }
    ensures extends { Extends store.old store.new }
    ensures roomy { IsErrOf result StoreFault.Nodes → store.old.limit < 2 ^ (2 ^ store.old.variables) }
    ensures kept { IfOk result (AreLeftSides (length questions.now.forms)) }
{
    let tick = main_tick(store)?;
    let later = both(store, allowed, tick)?;
    hull_in(alloc, store, questions, later)
}

/// The same. The store is left as it was.
fn hull_of(
    alloc: Global,
    store: &mut Store,
    questions: &Questions,
    allowed: Ref,
) -> Result<Many<Row>, StoreFault>
    requires asked { (s : System) × IsSystem s × AreQuestions s store.old questions.now }
    requires allowed { IsRef store.old.nodes allowed }
    ensures same { store.new ≡ store.old }
    ensures roomy { IsErrOf result StoreFault.Nodes → store.old.limit < 2 ^ (2 ^ store.old.variables) }
    ensures kept { IfOk result (AreLeftSides (length questions.now.forms)) }
{
    let mark = store.mark();
    let answer = hull_under(alloc, store, questions, allowed);
    store.release(mark);
    answer
}

/// Adds the left sides that no step changes after the first one, and their opposites, where the reference is true at these steps. The store is left as it
/// was, after a fault too. Nodes comes where it has no room for what is built on the way, never where its limit holds every function of its variables, and
/// Memory where there is none.
pub fn add_hull(
    alloc: Global,
    store: &mut Store,
    questions: &Questions,
    allowed: Ref,
    sides: &mut Many<Row>,
) -> Result<(), StoreFault>
    requires asked { (s : System) × IsSystem s × AreQuestions s store.old questions.now }
    requires allowed { IsRef store.old.nodes allowed }
    requires sides { AreLeftSides (length questions.now.forms) sides.old }
    ensures same { store.new ≡ store.old }
    ensures roomy { IsErrOf result StoreFault.Nodes → store.old.limit < 2 ^ (2 ^ store.old.variables) }
    ensures sides { OnOk result (AreLeftSides (length questions.now.forms) sides.new) }
{
    let memories = questions.forms.len();
    let kept = hull_of(alloc, store, questions, allowed)?;
    let most = sides.len().saturating_add(MOST);
    add_rows(alloc, sides, most, &kept, memories, true)?;
    Ok(())
}
