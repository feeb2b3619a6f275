//! The left sides whose bounds are sought: units and pairs of memories, left sides of tests, those on which a loop that adds constants, or inputs at
//! one of their ends, to two memories does not move, and what the tests' left sides over two memories are before a step.

ghost use Rattle.std.specs.Prelude.{◌≡◌, ◌<◌, ◌≤◌, ◌^◌, ℕ, true, All, length, IfOk, IfSome, OnOk};
ghost use Rattle.std.specs.Int.RustNames.{unsigned_abs};
ghost use Rattle.rv_refine.specs.Sides.{IsLeftSide, AreLeftSides, AreIncrements};

use rv_base::{Many, Memory};
use rv_cases::Questions;
use rv_rise::sides_of;
use rv_rows::{Form, Row, number_at};
use std::alloc::Global;

/// As many as there may be beside units and pairs.
const MOST: usize = 128;

/// As many increments as are looked at for a memory.
const MOST_INCREMENTS: usize = 16;

/// The greatest number of a further one.
const GREATEST: i128 = 1_048_576;

/// Whether the magnitude of a number is at most 2^20.
pub fn is_small(number: i128) -> bool
    ensures { result ≡ true → unsigned_abs number ≤ 2 ^ 20 }
{
    number <= GREATEST && number >= -GREATEST
}

/// Whether a row has a column past the memories.
fn is_beyond(row: &Row, memories: usize) -> bool {
    for column in memories..row.coefficients.len() {
        if number_at(&row.coefficients, column) != 0 {
            return true;
        }
    }
    false
}

/// The number, or its opposite.
pub fn signed(number: i128, opposite: bool) -> i128
    requires { unsigned_abs number ≤ 2 ^ 20 }
    ensures { unsigned_abs result ≤ 2 ^ 20 }
{
    if opposite { -number } else { number }
}

/// The left side of a row over the memories, without its other columns, or its opposite, or none where it has a great number.
fn turned(alloc: Global, row: &Row, memories: usize, opposite: bool) -> Result<Option<Row>, Memory>
    ensures { IfOk result (λ o. IfSome o (IsLeftSide memories)) }
{
    let mut coefficients = Many::new(alloc);
    for column in 0..memories {
        let number = number_at(&row.coefficients, column);
        if !is_small(number) {
            return Ok(None);
        }
        coefficients.push(signed(number, opposite))?;
    }
    Ok(Some(Row {
        coefficients,
        bound: 0,
    }))
}

/// Whether two left sides are one.
fn is_same(one: &Row, other: &Row) -> bool {
    for column in 0..one.coefficients.len() {
        if number_at(&one.coefficients, column) != number_at(&other.coefficients, column) {
            return false;
        }
    }
    true
}

/// Whether all numbers of a left side are 0.
fn is_zero(side: &Row) -> bool {
    for column in 0..side.coefficients.len() {
        if number_at(&side.coefficients, column) != 0 {
            return false;
        }
    }
    true
}

/// Whether the left side is among them, or is 0.
fn is_known(sides: &Many<Row>, side: &Row) -> bool {
    if is_zero(side) {
        return true;
    }
    for place in 0..sides.len() {
        if is_same(side, sides.at(place)) {
            return true;
        }
    }
    false
}

/// Adds a left side, where it is new and there is room.
fn add_new(sides: &mut Many<Row>, most: usize, side: Row) -> Result<(), Memory>
    ensures { (memories : ℕ) → AreLeftSides memories sides.old → IsLeftSide memories side → OnOk result (AreLeftSides memories sides.new) }
{
    if sides.len() >= most {
        return Ok(());
    }
    if is_known(sides, &side) {
        return Ok(());
    }
    sides.push(side)?;
    Ok(())
}

/// Adds the left side of a row over the memories, or its opposite.
fn add_turned(
    alloc: Global,
    sides: &mut Many<Row>,
    most: usize,
    row: &Row,
    memories: usize,
    opposite: bool,
) -> Result<(), Memory>
    requires { AreLeftSides memories sides.old }
    ensures { OnOk result (AreLeftSides memories sides.new) }
{
    match turned(alloc, row, memories, opposite)? {
        Some(side) => add_new(sides, most, side),
        None => Ok(()),
    }
}

/// Adds the left sides of rows over memories, and their opposites; of others those without their other columns, where that is asked.
pub fn add_rows(
    alloc: Global,
    sides: &mut Many<Row>,
    most: usize,
    rows: &Many<Row>,
    memories: usize,
    cut: bool,
) -> Result<(), Memory>
    requires { AreLeftSides memories sides.old }
    ensures { OnOk result (AreLeftSides memories sides.new) }
{
    for place in 0..rows.len() {
        let row = rows.at(place);
        if cut || !is_beyond(row, memories) {
            add_turned(alloc, sides, most, row, memories, false)?;
            add_turned(alloc, sides, most, row, memories, true)?;
        }
    }
    Ok(())
}

/// Adds the left sides of tests over memories, and their opposites; of others those without their other columns, where that is asked.
fn add_tests(
    alloc: Global,
    sides: &mut Many<Row>,
    most: usize,
    questions: &Questions,
    memories: usize,
    cut: bool,
) -> Result<(), Memory>
    requires { AreLeftSides memories sides.old }
    ensures { OnOk result (AreLeftSides memories sides.new) }
{
    for test in 0..questions.rows.len() {
        add_rows(alloc, sides, most, questions.rows.at(test), memories, cut)?;
    }
    Ok(())
}

/// Whether a form has its own memory once and no other one.
pub fn is_own(form: &Form, memory: usize, memories: usize) -> bool {
    for column in 0..memories {
        let number = number_at(&form.coefficients, column);
        let own = if column == memory { 1 } else { 0 };
        if number != own {
            return false;
        }
    }
    true
}

/// The product of two small numbers.
pub fn product(a: i128, b: i128) -> i128
    requires a { unsigned_abs a ≤ 2 ^ 20 }
    requires b { unsigned_abs b ≤ 2 ^ 20 }
    ensures { unsigned_abs result ≤ 2 ^ 40 }
{
    a * b
}

/// Adds an increment, where it is small and not 0 and there is room.
fn add_increment(list: &mut Many<i128>, number: i128) -> Result<(), Memory>
    requires { AreIncrements list.old }
    ensures { OnOk result (AreIncrements list.new) }
{
    if number == 0 || list.len() >= MOST_INCREMENTS {
        return Ok(());
    }
    if is_small(number) {
        list.push(number)?;
    }
    Ok(())
}

/// The number that a row of a column alone bounds it by from above or below: `x <= 3` and `-x <= -3` say 3. None of other rows.
pub fn end_of(row: &Row, column: usize) -> Option<i128>
    ensures { IfSome result (λ b. unsigned_abs b ≤ 2 ^ 20) }
{
    for other in 0..row.coefficients.len() {
        if other != column && number_at(&row.coefficients, other) != 0 {
            return None;
        }
    }
    if !is_small(row.bound) {
        return None;
    }
    let number = number_at(&row.coefficients, column);
    if number == 1 {
        return Some(row.bound);
    }
    if number == -1 {
        return Some(-row.bound);
    }
    None
}

/// Adds the increments of a sum with an input, which has the ends that rows say.
fn add_ends(
    list: &mut Many<i128>,
    rows: &Many<Row>,
    constant: i128,
    column: usize,
    number: i128,
) -> Result<(), Memory>
    requires list { AreIncrements list.old }
    requires constant { unsigned_abs constant ≤ 2 ^ 20 }
    requires number { unsigned_abs number ≤ 2 ^ 20 }
    ensures { OnOk result (AreIncrements list.new) }
{
    for place in 0..rows.len() {
        match end_of(rows.at(place), column) {
            Some(end) => add_increment(list, constant + product(number, end))?,
            None => {}
        }
    }
    Ok(())
}

/// The same by the rows of all tests.
fn add_all_ends(
    list: &mut Many<i128>,
    questions: &Questions,
    constant: i128,
    column: usize,
    number: i128,
) -> Result<(), Memory>
    requires list { AreIncrements list.old }
    requires constant { unsigned_abs constant ≤ 2 ^ 20 }
    requires number { unsigned_abs number ≤ 2 ^ 20 }
    ensures { OnOk result (AreIncrements list.new) }
{
    for test in 0..questions.rows.len() {
        add_ends(list, questions.rows.at(test), constant, column, number)?;
    }
    Ok(())
}

/// Adds the increments of a form with an input at a column.
fn add_input(
    list: &mut Many<i128>,
    questions: &Questions,
    form: &Form,
    constant: i128,
    column: usize,
) -> Result<(), Memory>
    requires list { AreIncrements list.old }
    requires constant { unsigned_abs constant ≤ 2 ^ 20 }
    ensures { OnOk result (AreIncrements list.new) }
{
    let number = number_at(&form.coefficients, column);
    if number == 0 || !is_small(number) {
        return Ok(());
    }
    add_all_ends(list, questions, constant, column, number)
}

/// Adds what a form adds to its memory, where it is a sum of the memory, a constant and inputs: the constant, and with an input also the sums
/// with the ends of the input.
fn add_of_form(
    list: &mut Many<i128>,
    questions: &Questions,
    form: &Form,
    memory: usize,
    memories: usize,
) -> Result<(), Memory>
    requires { AreIncrements list.old }
    ensures { OnOk result (AreIncrements list.new) }
{
    let constant = form.constant;
    if !is_small(constant) || !is_own(form, memory, memories) {
        return Ok(());
    }
    add_increment(list, constant)?;
    for column in memories..form.coefficients.len() {
        add_input(list, questions, form, constant, column)?;
    }
    Ok(())
}

/// What the forms of a memory add to it.
fn increments_of(
    alloc: Global,
    questions: &Questions,
    memory: usize,
    memories: usize,
) -> Result<Many<i128>, Memory>
    requires { memory < length questions.now.forms }
    ensures { IfOk result AreIncrements }
{
    let mut list = Many::new(alloc);
    let forms = questions.forms.at(memory);
    for place in 0..forms.len() {
        add_of_form(&mut list, questions, forms.at(place), memory, memories)?;
    }
    Ok(list)
}

/// The greatest common divisor of two numbers, or 1 where it takes long; 1 where both are 0.
pub fn divisor_of(a: u64, b: u64) -> u64
    ensures { 0 < result }
{
    let mut x = a;
    let mut y = b;
    for _turn in 0..64 {
        if y == 0 {
            return if x == 0 { 1 } else { x };
        }
        let rest = x % y;
        x = y;
        y = rest;
    }
    1
}

/// The number that a left side with two numbers has at a column.
fn number_of(column: usize, first: usize, one: i128, second: usize, other: i128) -> i128
    requires one { unsigned_abs one ≤ 2 ^ 20 }
    requires other { unsigned_abs other ≤ 2 ^ 20 }
    ensures { unsigned_abs result ≤ 2 ^ 20 }
{
    if column == first {
        one
    } else if column == second {
        other
    } else {
        0
    }
}

/// The left side with these numbers at two memories.
pub fn pair(
    alloc: Global,
    memories: usize,
    first: usize,
    one: i128,
    second: usize,
    other: i128,
) -> Result<Row, Memory>
    requires one { unsigned_abs one ≤ 2 ^ 20 }
    requires other { unsigned_abs other ≤ 2 ^ 20 }
    ensures { IfOk result (IsLeftSide memories) }
{
    let mut coefficients = Many::new(alloc);
    for column in 0..memories {
        coefficients.push(number_of(column, first, one, second, other))?;
    }
    Ok(Row {
        coefficients,
        bound: 0,
    })
}

/// Adds the left side with these numbers at two memories, and its opposite.
fn add_pair(
    alloc: Global,
    sides: &mut Many<Row>,
    most: usize,
    memories: usize,
    first: usize,
    one: i128,
    second: usize,
    other: i128,
) -> Result<(), Memory>
    requires sides { AreLeftSides memories sides.old }
    requires one { unsigned_abs one ≤ 2 ^ 20 }
    requires other { unsigned_abs other ≤ 2 ^ 20 }
    ensures { OnOk result (AreLeftSides memories sides.new) }
{
    let plus = pair(alloc, memories, first, one, second, other)?;
    add_new(sides, most, plus)?;
    let minus = pair(
        alloc,
        memories,
        first,
        signed(one, true),
        second,
        signed(other, true),
    )?;
    add_new(sides, most, minus)
}

/// The magnitude of a small number.
pub fn magnitude(number: i128) -> u64
    requires { unsigned_abs number ≤ 2 ^ 20 }
{
    let size = if number < 0 { -number } else { number };
    size as u64
}

/// Adds the left sides over two memories that do not change where these grow by constants.
fn add_level(
    alloc: Global,
    sides: &mut Many<Row>,
    most: usize,
    memories: usize,
    first: usize,
    a: i128,
    second: usize,
    b: i128,
) -> Result<(), Memory>
    requires sides { AreLeftSides memories sides.old }
    requires a { unsigned_abs a ≤ 2 ^ 20 }
    requires b { unsigned_abs b ≤ 2 ^ 20 }
    ensures { OnOk result (AreLeftSides memories sides.new) }
{
    let by = divisor_of(magnitude(a), magnitude(b)) as i128;
    let one = b / by;
    let part = a / by;
    if !is_small(one) {
        return Ok(());
    }
    if !is_small(part) {
        return Ok(());
    }
    add_pair(
        alloc,
        sides,
        most,
        memories,
        first,
        one,
        second,
        signed(part, true),
    )
}

/// Adds them for one increment of the first memory and all of the second.
fn add_against(
    alloc: Global,
    sides: &mut Many<Row>,
    most: usize,
    memories: usize,
    first: usize,
    a: i128,
    second: usize,
    others: &Many<i128>,
) -> Result<(), Memory>
    requires sides { AreLeftSides memories sides.old }
    requires a { unsigned_abs a ≤ 2 ^ 20 }
    requires others { AreIncrements others.now }
    ensures { OnOk result (AreLeftSides memories sides.new) }
{
    for place in 0..others.len() {
        let b = *others.at(place);
        add_level(alloc, sides, most, memories, first, a, second, b)?;
    }
    Ok(())
}

/// Adds them for two memories.
fn add_levels(
    alloc: Global,
    sides: &mut Many<Row>,
    most: usize,
    questions: &Questions,
    memories: usize,
    first: usize,
    second: usize,
) -> Result<(), Memory>
    requires sides { AreLeftSides memories sides.old }
    requires first { first < length questions.now.forms }
    requires second { second < length questions.now.forms }
    ensures { OnOk result (AreLeftSides memories sides.new) }
{
    let ones = increments_of(alloc, questions, first, memories)?;
    let others = increments_of(alloc, questions, second, memories)?;
    for place in 0..ones.len() {
        let a = *ones.at(place);
        add_against(alloc, sides, most, memories, first, a, second, &others)?;
    }
    Ok(())
}

/// Adds them for a memory and all before it.
fn add_before(
    alloc: Global,
    sides: &mut Many<Row>,
    most: usize,
    questions: &Questions,
    memories: usize,
    second: usize,
) -> Result<(), Memory>
    requires sides { AreLeftSides memories sides.old }
    requires second { second < length questions.now.forms }
    ensures { OnOk result (AreLeftSides memories sides.new) }
{
    for first in 0..second {
        add_levels(alloc, sides, most, questions, memories, first, second)?;
    }
    Ok(())
}

/// Adds them for all pairs of memories.
fn add_all(
    alloc: Global,
    sides: &mut Many<Row>,
    most: usize,
    questions: &Questions,
    memories: usize,
) -> Result<(), Memory>
    requires sides { AreLeftSides memories sides.old }
    requires memories { memories ≤ length questions.now.forms }
    ensures { OnOk result (AreLeftSides memories sides.new) }
{
    for second in 0..memories {
        add_before(alloc, sides, most, questions, memories, second)?;
    }
    Ok(())
}

/// Two memories.
#[derive(Clone, Copy, Debug)]
pub struct Two {
    /// The first of them.
    pub first: usize,
    /// The other.
    pub second: usize,
}

/// Whether a column comes after another, or there is none.
fn is_past(column: usize, after: Option<usize>) -> bool {
    match after {
        Some(other) => column > other,
        None => true,
    }
}

/// The first column, after the given one, at which a left side has a number, or none.
fn next_column(side: &Row, after: Option<usize>) -> Option<usize>
    ensures { IfSome result (λ k. k < length side.now.coefficients) }
{
    for column in 0..side.coefficients.len() {
        if is_past(column, after) && number_at(&side.coefficients, column) != 0 {
            return Some(column);
        }
    }
    None
}

/// The memories of a left side over exactly two of them, or none.
fn two_of(side: &Row) -> Option<Two>
    ensures { IfSome result (λ t. (t.first < length side.now.coefficients) × (t.second < length side.now.coefficients)) }
{
    let Some(first) = next_column(side, None) else {
        return None;
    };
    let Some(second) = next_column(side, Some(first)) else {
        return None;
    };
    if next_column(side, Some(second)).is_some() {
        return None;
    }
    Some(Two { first, second })
}

/// The sum of two numbers with these small weights, or none where a number is great.
fn weighted(one: i128, a: i128, other: i128, b: i128) -> Option<i128>
    requires one { unsigned_abs one ≤ 2 ^ 20 }
    requires other { unsigned_abs other ≤ 2 ^ 20 }
    ensures { IfSome result (λ sum. unsigned_abs sum ≤ 2 ^ 20) }
{
    if !is_small(a) || !is_small(b) {
        return None;
    }
    let sum = product(one, a) + product(other, b);
    if is_small(sum) {
        return Some(sum);
    }
    None
}

/// The left side that is the sum of two lists of numbers with these small weights, over the memories, or none where a number is great.
pub fn combined(
    alloc: Global,
    memories: usize,
    one: i128,
    numbers: &Many<i128>,
    other: i128,
    with: &Many<i128>,
) -> Result<Option<Row>, Memory>
    requires one { unsigned_abs one ≤ 2 ^ 20 }
    requires other { unsigned_abs other ≤ 2 ^ 20 }
    ensures { IfOk result (λ o. IfSome o (IsLeftSide memories)) }
{
    let mut coefficients = Many::new(alloc);
    for column in 0..memories {
        let a = number_at(numbers, column);
        let b = number_at(with, column);
        let Some(sum) = weighted(one, a, other, b) else {
            return Ok(None);
        };
        coefficients.push(sum)?;
    }
    Ok(Some(Row {
        coefficients,
        bound: 0,
    }))
}

/// Adds a left side where there is one, and it is new and there is room.
fn add_some(sides: &mut Many<Row>, most: usize, side: Option<Row>) -> Result<(), Memory>
    ensures { (memories : ℕ) → AreLeftSides memories sides.old → IfSome side (IsLeftSide memories) → OnOk result (AreLeftSides memories sides.new) }
{
    match side {
        Some(side) => add_new(sides, most, side),
        None => Ok(()),
    }
}

/// Adds what a left side over two memories is before a step in which these forms are taken, for one form of the first and all of the second.
fn add_steps_with(
    alloc: Global,
    sides: &mut Many<Row>,
    most: usize,
    memories: usize,
    one: i128,
    form: &Form,
    other: i128,
    forms: &Many<Form>,
) -> Result<(), Memory>
    requires sides { AreLeftSides memories sides.old }
    requires one { unsigned_abs one ≤ 2 ^ 20 }
    requires other { unsigned_abs other ≤ 2 ^ 20 }
    ensures { OnOk result (AreLeftSides memories sides.new) }
{
    for place in 0..forms.len() {
        let with = &forms.at(place).coefficients;
        let side = combined(alloc, memories, one, &form.coefficients, other, with)?;
        add_some(sides, most, side)?;
    }
    Ok(())
}

/// Adds what a left side over two memories is before a step.
fn add_steps_of(
    alloc: Global,
    sides: &mut Many<Row>,
    most: usize,
    questions: &Questions,
    memories: usize,
    side: &Row,
    two: Two,
) -> Result<(), Memory>
    requires sides { AreLeftSides memories sides.old }
    requires first { two.first < length questions.now.forms }
    requires second { two.second < length questions.now.forms }
    ensures { OnOk result (AreLeftSides memories sides.new) }
{
    let one = number_at(&side.coefficients, two.first);
    let other = number_at(&side.coefficients, two.second);
    if !is_small(one) || !is_small(other) {
        return Ok(());
    }
    let forms = questions.forms.at(two.first);
    let others = questions.forms.at(two.second);
    for place in 0..forms.len() {
        add_steps_with(
            alloc,
            sides,
            most,
            memories,
            one,
            forms.at(place),
            other,
            others,
        )?;
    }
    Ok(())
}

/// Adds what the left side at a place is before a step, where it is one over two memories.
fn add_steps_at(
    alloc: Global,
    sides: &mut Many<Row>,
    most: usize,
    questions: &Questions,
    memories: usize,
    place: usize,
) -> Result<(), Memory>
    requires sides { AreLeftSides memories sides.old }
    requires memories { memories ≡ length questions.now.forms }
    requires place { place < length sides.old }
    ensures { OnOk result (AreLeftSides memories sides.new) }
{
    let Some(side) = turned(alloc, sides.at(place), memories, false)? else {
        return Ok(());
    };
    match two_of(&side) {
        Some(two) => add_steps_of(alloc, sides, most, questions, memories, &side, two),
        None => Ok(()),
    }
}

/// Adds what the left sides of tests over two memories are before a step: of those from this place on.
fn add_before_steps(
    alloc: Global,
    sides: &mut Many<Row>,
    most: usize,
    questions: &Questions,
    memories: usize,
    first: usize,
) -> Result<(), Memory>
    requires sides { AreLeftSides memories sides.old }
    requires memories { memories ≡ length questions.now.forms }
    ensures { OnOk result (AreLeftSides memories sides.new) }
{
    let count = sides.len();
    for place in first..count {
        if place < sides.len() {
            add_steps_at(alloc, sides, most, questions, memories, place)?;
        }
    }
    Ok(())
}

/// All left sides of units and pairs.
fn first_sides(alloc: Global, memories: usize) -> Result<Many<Row>, Memory>
    requires { memories ≤ 64 }
    ensures sides { IfOk result (AreLeftSides memories) }
    ensures few { IfOk result (λ sides. length sides ≤ 1024) }
{
    sides_of(alloc, memories)
}

/// The left sides whose bounds are sought, the further ones too where that is asked. The only error is want of memory.
pub fn directions_of(
    alloc: Global,
    questions: &Questions,
    further: bool,
) -> Result<Many<Row>, Memory>
    requires { length questions.now.forms ≤ 64 }
    ensures { IfOk result (AreLeftSides (length questions.now.forms)) }
{
    let memories = questions.forms.len();
    let mut sides = first_sides(alloc, memories)?;
    let first = sides.len();
    let most = first + MOST;
    add_tests(alloc, &mut sides, most, questions, memories, false)?;
    if further {
        add_tests(alloc, &mut sides, most, questions, memories, true)?;
        add_all(alloc, &mut sides, most, questions, memories)?;
        add_before_steps(alloc, &mut sides, most, questions, memories, first)?;
    }
    Ok(sides)
}
