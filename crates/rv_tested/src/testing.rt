//! The order tests of a flat system: where each is absent, and where it has each of its rows.

ghost use Rattle.std.specs.Prelude.{◌≡◌, ◌++◌, ◌∷◌, [], ℕ, ◌<◌, ◌≤◌, ◌^◌, true, false, List, None, length, map, IfOk, OnOk, IsErrOf};
ghost use Rattle.rv_diagram.specs.declared.Triple.{Triple as TripleModel};
ghost use Rattle.rv_diagram.specs.Nodes.{Valuation, value_of, IsRef};
ghost use Rattle.rv_diagram.specs.Growing.{Extends};
ghost use Rattle.rv_agreement.specs.Agreement.{IsWell};
ghost use Rattle.rv_agreement.specs.Valuations.{all_comparisons, Comparison};
ghost use Rattle.rv_flat.specs.FlatInstants.{system_of};
ghost use Rattle.rv_flat.specs.Lists.{side_of, variable_of};
ghost use Rattle.rv_types.specs.Lists.{sides_of, Test};
ghost use Rattle.rv_control.specs.Control.{control_of, has_side as has_side_among, order_tests};
ghost use Rattle.rv_control.specs.Named.{truth_at, variables_of};
ghost use Rattle.rv_bits.specs.Shown.{clock_bit};
ghost use Rattle.rv_cases.specs.Conditions.{AreRefs};
ghost use Rattle.rv_forms.specs.Terms.{IsReady, IsWithin};
ghost use Rattle.rv_base.specs.Limits.{heaviest};
ghost use Rattle.rv_tested.specs.Compared.{comparison_in, AreInside, IsInside};
ghost use Rattle.rv_tested.specs.Rows.{IsAnswered, IsLaid};
ghost use Rattle.rv_tested.specs.Testing.{AreSidesRead, AreAllRead, AreTestsRead, IsDifference, IsTestTerm, row_in, row_of_variable};

use crate::compared::Compared;
use crate::rows::{Answered, add_comparison};
use rv_base::{Many, Memory, Place};
use rv_bits::{Around, Named, is_place, ref_of, truth};
use rv_diagram::{Ref, Store, StoreFault};
use rv_flat::{Bit, Flat, Side};
use rv_forms::{Wholes, term_of};
use rv_rows::Row;
use rv_terms::{Term, scale, sum};
use rv_tree::Op;
use std::alloc::Global;

/// What is read of a comparison: where its clock is there, and its two sides.
#[derive(Debug, Drop)]
pub struct Sides {
    /// True where the clock is there.
    pub there: Ref,
    /// The form of the left side, wherever the clock is there.
    pub left: Term,
    /// The form of the right side.
    pub right: Term,
}

/// Where a clock is there.
fn clock_ref(on: &[Ref], clock: Option<u32>) -> Ref
    ensures means { (nodes : List TripleModel) (v : Valuation) → value_of nodes result v ≡ clock_bit nodes on.now clock v }
    ensures found { (nodes : List TripleModel) → AreRefs nodes on.now → IsRef nodes result }
{
    match clock {
        None => 1,
        Some(number) => ref_of(on, number as usize),
    }
}

/// Whether an order test is one of an operator's.
fn has_side(op: Op, side: Side) -> bool
    ensures { result ≡ has_side_among (sides_of op) (side_of side) }
{
    match op {
        Op::Equal | Op::Differs => true,
        Op::AtMost | Op::Greater => matches!(side, Side::AtMost),
        Op::AtLeast | Op::Less => matches!(side, Side::AtLeast),
        Op::Arrow
        | Op::Implies
        | Op::Or
        | Op::Xor
        | Op::And
        | Op::Plus
        | Op::Minus
        | Op::Times
        | Op::Slash
        | Op::Div
        | Op::Mod => false,
    }
}

/// Reads a comparison: its clock and its two sides.
fn read_sides(
    alloc: Global,
    store: &mut Store,
    around: &Around,
    wholes: &Wholes,
    shown: &mut Many<Option<Many<Ref>>>,
    known: &mut Many<Option<Term>>,
    compared: &Compared,
) -> Result<Sides, StoreFault>
    requires ready { IsReady store.old around.now wholes.now shown.old known.old }
    requires all { length wholes.now.flows ≡ length around.now.flat.now.flows }
    requires inside { IsInside around.now.flat.now (comparison_in around.now.flat.now.memories compared.now) }
    ensures ok { IfOk result (AreSidesRead around.now.flat.now store.new.nodes (comparison_in around.now.flat.now.memories compared.now)) }
    ensures ready { OnOk result (IsReady store.new around.now wholes.now shown.new known.new) }
    ensures extends { OnOk result (Extends store.old store.new) }
    ensures roomy { IsErrOf result StoreFault.Nodes → store.old.limit < 2 ^ (2 ^ store.old.variables) }
{
    let left = term_of(alloc, store, around, wholes, shown, known, compared.left)?;
    let right = term_of(alloc, store, around, wholes, shown, known, compared.right)?;
    let there = clock_ref(around.read.on.as_slice(), compared.clock);
    Ok(Sides { there, left, right })
}

/// Reads all comparisons, each once.
pub fn read_all(
    alloc: Global,
    store: &mut Store,
    around: &Around,
    wholes: &Wholes,
    shown: &mut Many<Option<Many<Ref>>>,
    known: &mut Many<Option<Term>>,
    compared: &Many<Compared>,
) -> Result<Many<Sides>, StoreFault>
    requires ready { IsReady store.old around.now wholes.now shown.old known.old }
    requires all { length wholes.now.flows ≡ length around.now.flat.now.flows }
    requires inside { AreInside around.now.flat.now compared.now }
    ensures ok { IfOk result (AreAllRead around.now.flat.now store.new.nodes compared.now) }
    ensures ready { OnOk result (IsReady store.new around.now wholes.now shown.new known.new) }
    ensures extends { OnOk result (Extends store.old store.new) }
    ensures roomy { IsErrOf result StoreFault.Nodes → store.old.limit < 2 ^ (2 ^ store.old.variables) }
{
    let mut read = Many::new(alloc);
    for number in 0..compared.len() {
        let one = compared.at(number);
        let sides = read_sides(alloc, store, around, wholes, shown, known, one)?;
        read.push(sides)?;
    }
    Ok(read)
}

/// The difference of two terms within the heaviest weight.
fn difference(
    alloc: Global,
    store: &mut Store,
    first: &Term,
    second: &Term,
) -> Result<Term, StoreFault>
    requires terms { (columns : ℕ) × IsWithin store.old.nodes columns heaviest first.now.parts × IsWithin store.old.nodes columns heaviest second.now.parts }
    ensures extends { Extends store.old store.new }
    ensures ok { IfOk result (IsDifference store.old.nodes store.new.nodes first.now.parts second.now.parts) }
    ensures roomy { IsErrOf result StoreFault.Nodes → store.old.limit < 2 ^ (2 ^ store.old.variables) }
{
    let negative = scale(alloc, store, -1, second)?;
    sum(alloc, store, first, &negative)
}

/// The term that a test asks to be at most 0.
fn side_term(
    alloc: Global,
    store: &mut Store,
    side: Side,
    sides: &Sides,
) -> Result<Term, StoreFault>
    requires terms { (columns : ℕ) × IsWithin store.old.nodes columns heaviest sides.now.left.parts
        × IsWithin store.old.nodes columns heaviest sides.now.right.parts }
    ensures extends { Extends store.old store.new }
    ensures ok { IfOk result (λ t. IsTestTerm store.old.nodes store.new.nodes (side_of side) sides.now.left.parts sides.now.right.parts t.parts) }
    ensures roomy { IsErrOf result StoreFault.Nodes → store.old.limit < 2 ^ (2 ^ store.old.variables) }
{
    match side {
        Side::AtMost => difference(alloc, store, &sides.left, &sides.right),
        Side::AtLeast => difference(alloc, store, &sides.right, &sides.left),
    }
}

/// Adds to the answers of a test what a comparison of the test gives it.
fn add_own(
    alloc: Global,
    store: &mut Store,
    answers: &mut Answered,
    flat: &Flat,
    at: &Place,
    side: Side,
    truth: Ref,
    compared: &Compared,
    sides: &Sides,
) -> Result<(), StoreFault>
    requires well { IsWell (system_of flat.now) }
    requires sides { AreSidesRead flat.now store.old.nodes (comparison_in flat.now.memories compared.now) sides.now }
    requires truth_ref { IsRef store.old.nodes truth }
    requires truth { (v : Valuation) → value_of store.old.nodes truth v ≡ truth_at (variables_of flat.now) v (Test at.now.sites (side_of side)) }
    requires laid { IsLaid store.old.nodes answers.old }
    requires place { compared.now.at.now.sites ≡ at.now.sites }
    requires asked { has_side_among (sides_of compared.now.operator) (side_of side) ≡ true }
    ensures extends { Extends store.old store.new }
    ensures answered { OnOk result ((cs : List Comparison) → IsAnswered store.old.nodes (row_in flat.now cs at.now.sites (side_of side)) answers.old
        → IsAnswered store.new.nodes (row_in flat.now (cs ++ comparison_in flat.now.memories compared.now ∷ []) at.now.sites (side_of side)) answers.new) }
    ensures roomy { IsErrOf result StoreFault.Nodes → store.old.limit < 2 ^ (2 ^ store.old.variables) }
{
    let term = side_term(alloc, store, side, sides)?;
    add_comparison(
        alloc,
        store,
        answers,
        sides.there,
        truth,
        term.parts.as_slice(),
    )
}

/// Adds to the answers of a test what a comparison at its place gives it, if the test is one of the comparison's.
fn add_there(
    alloc: Global,
    store: &mut Store,
    answers: &mut Answered,
    flat: &Flat,
    at: &Place,
    side: Side,
    truth: Ref,
    compared: &Compared,
    sides: &Sides,
) -> Result<(), StoreFault>
    requires well { IsWell (system_of flat.now) }
    requires sides { AreSidesRead flat.now store.old.nodes (comparison_in flat.now.memories compared.now) sides.now }
    requires truth_ref { IsRef store.old.nodes truth }
    requires truth { (v : Valuation) → value_of store.old.nodes truth v ≡ truth_at (variables_of flat.now) v (Test at.now.sites (side_of side)) }
    requires laid { IsLaid store.old.nodes answers.old }
    requires place { compared.now.at.now.sites ≡ at.now.sites }
    ensures extends { Extends store.old store.new }
    ensures answered { OnOk result ((cs : List Comparison) → IsAnswered store.old.nodes (row_in flat.now cs at.now.sites (side_of side)) answers.old
        → IsAnswered store.new.nodes (row_in flat.now (cs ++ comparison_in flat.now.memories compared.now ∷ []) at.now.sites (side_of side)) answers.new) }
    ensures roomy { IsErrOf result StoreFault.Nodes → store.old.limit < 2 ^ (2 ^ store.old.variables) }
{
    if has_side(compared.operator, side) {
        return add_own(
            alloc, store, answers, flat, at, side, truth, compared, sides,
        );
    }
    Ok(())
}

/// Adds to the answers of a test what a comparison gives it, if that is at the place of the test.
fn add_at(
    alloc: Global,
    store: &mut Store,
    answers: &mut Answered,
    flat: &Flat,
    at: &Place,
    side: Side,
    truth: Ref,
    compared: &Compared,
    sides: &Sides,
) -> Result<(), StoreFault>
    requires well { IsWell (system_of flat.now) }
    requires sides { AreSidesRead flat.now store.old.nodes (comparison_in flat.now.memories compared.now) sides.now }
    requires truth_ref { IsRef store.old.nodes truth }
    requires truth { (v : Valuation) → value_of store.old.nodes truth v ≡ truth_at (variables_of flat.now) v (Test at.now.sites (side_of side)) }
    requires laid { IsLaid store.old.nodes answers.old }
    ensures extends { Extends store.old store.new }
    ensures answered { OnOk result ((cs : List Comparison) → IsAnswered store.old.nodes (row_in flat.now cs at.now.sites (side_of side)) answers.old
        → IsAnswered store.new.nodes (row_in flat.now (cs ++ comparison_in flat.now.memories compared.now ∷ []) at.now.sites (side_of side)) answers.new) }
    ensures roomy { IsErrOf result StoreFault.Nodes → store.old.limit < 2 ^ (2 ^ store.old.variables) }
{
    if compared.at.sites.is(&at.sites) {
        return add_there(
            alloc, store, answers, flat, at, side, truth, compared, sides,
        );
    }
    Ok(())
}

/// The answers of a test that is absent everywhere.
fn none_there(alloc: Global) -> Result<Answered, Memory>
    ensures { IfOk result (λ a. (nodes : List TripleModel) → IsAnswered nodes (λ v. None) a) }
{
    let mut refs = Many::new(alloc);
    refs.push(1)?;
    let rows = Many::new(alloc);
    Ok(Answered { refs, rows })
}

/// The same, where a store is at work.
fn absent(alloc: Global) -> Result<Answered, StoreFault>
    ensures ok { IfOk result (λ a. (nodes : List TripleModel) → IsAnswered nodes (λ v. None) a) }
    ensures never { IsErrOf result StoreFault.Nodes → ⊥ }
{
    Ok(none_there(alloc)?)
}

/// The answers of the test of a side at a place.
fn read_test(
    alloc: Global,
    store: &mut Store,
    flat: &Flat,
    at: &Place,
    side: Side,
    compared: &Many<Compared>,
    sides: &Many<Sides>,
) -> Result<Answered, StoreFault>
    requires well { IsWell (system_of flat.now) }
    requires variables { length flat.now.variables ≤ store.old.variables }
    requires inside { AreInside flat.now compared.now }
    requires read { AreAllRead flat.now store.old.nodes compared.now sides.now }
    ensures extends { OnOk result (Extends store.old store.new) }
    ensures ok { IfOk result (IsAnswered store.new.nodes
        (row_in flat.now (map (comparison_in flat.now.memories) compared.now) at.now.sites (side_of side))) }
    ensures roomy { IsErrOf result StoreFault.Nodes → store.old.limit < 2 ^ (2 ^ store.old.variables) }
{
    let truth = truth(store, flat.variables.as_slice(), &Named::Test(at, side))?;
    let mut answers = none_there(alloc)?;
    for number in 0..compared.len() {
        let one = compared.at(number);
        add_at(
            alloc,
            store,
            &mut answers,
            flat,
            at,
            side,
            truth,
            one,
            sides.at(number),
        )?;
    }
    Ok(answers)
}

/// The answers to the question of a variable: those of an order test, and absence of any other variable.
fn read_variable(
    alloc: Global,
    store: &mut Store,
    flat: &Flat,
    variable: &Bit,
    compared: &Many<Compared>,
    sides: &Many<Sides>,
) -> Result<Answered, StoreFault>
    requires well { IsWell (system_of flat.now) }
    requires variables { length flat.now.variables ≤ store.old.variables }
    requires all { map (comparison_in flat.now.memories) compared.now ≡ all_comparisons (system_of flat.now) }
    requires inside { AreInside flat.now compared.now }
    requires read { AreAllRead flat.now store.old.nodes compared.now sides.now }
    ensures extends { OnOk result (Extends store.old store.new) }
    ensures ok { IfOk result (IsAnswered store.new.nodes (row_of_variable flat.now (variable_of variable.now))) }
    ensures roomy { IsErrOf result StoreFault.Nodes → store.old.limit < 2 ^ (2 ^ store.old.variables) }
{
    match variable {
        Bit::Test(at, side) => read_test(alloc, store, flat, at, *side, compared, sides),
        Bit::MainTick => absent(alloc),
        Bit::Tick(_) => absent(alloc),
        Bit::Kept(_, _) => absent(alloc),
        Bit::Next => absent(alloc),
        Bit::Input(_, _) => absent(alloc),
    }
}

/// 1 for an order test, else 0.
fn one_of(variable: &Bit) -> usize
    ensures { result ≡ order_tests (variable_of variable.now ∷ []) }
{
    match variable {
        Bit::Test(_, _) => 1,
        Bit::MainTick => 0,
        Bit::Tick(_) => 0,
        Bit::Kept(_, _) => 0,
        Bit::Next => 0,
        Bit::Input(_, _) => 0,
    }
}

/// How many order tests there are.
fn count_tests(variables: &[Bit]) -> usize
    ensures is { result ≡ order_tests (map variable_of variables.now) }
    ensures most { result ≤ length variables.now }
{
    let mut count = 0;
    for variable in variables {
        count += one_of(variable);
    }
    count
}

/// The questions of the order tests, in order, and their rows.
#[derive(Debug, Drop)]
pub struct Tests {
    pub questions: Many<Many<Ref>>,
    pub rows: Many<Many<Row>>,
}

/// The questions of all order tests.
pub fn read_tests(
    alloc: Global,
    store: &mut Store,
    flat: &Flat,
    compared: &Many<Compared>,
    sides: &Many<Sides>,
) -> Result<Tests, StoreFault>
    requires well { IsWell (system_of flat.now) }
    requires variables { length flat.now.variables ≤ store.old.variables }
    requires all { map (comparison_in flat.now.memories) compared.now ≡ all_comparisons (system_of flat.now) }
    requires inside { AreInside flat.now compared.now }
    requires read { AreAllRead flat.now store.old.nodes compared.now sides.now }
    ensures extends { OnOk result (Extends store.old store.new) }
    ensures ok { IfOk result (λ t. AreTestsRead flat.now store.new.nodes (control_of flat.now).tests t.questions t.rows) }
    ensures roomy { IsErrOf result StoreFault.Nodes → store.old.limit < 2 ^ (2 ^ store.old.variables) }
{
    let mut questions = Many::new(alloc);
    let mut rows = Many::new(alloc);
    let many = count_tests(flat.variables.as_slice());
    let first = flat.variables.len() - many;
    for number in 0..many {
        let variable = flat.variables.at(first + number);
        let answers = read_variable(alloc, store, flat, variable, compared, sides)?;
        questions.push(answers.refs)?;
        rows.push(answers.rows)?;
    }
    Ok(Tests { questions, rows })
}
