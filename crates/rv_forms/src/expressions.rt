//! Integer expressions read into terms, and what the integer memories hold after an instant.

ghost use Rattle.std.specs.Prelude.{◌≡◌, ℕ, ◌<◌, ◌^◌, true, cond, List, length, slice_get, slice_index_or, None, Some};
ghost use Rattle.std.specs.Prelude.{IfOk, OnOk, IsErrOf};
ghost use Rattle.rv_tree.specs.Places.{Sites};
ghost use Rattle.rv_base.specs.Limits.{heaviest};
ghost use Rattle.rv_diagram.specs.declared.Triple.{Triple as TripleModel};
ghost use Rattle.rv_terms.specs.declared.parted.Term.{Term as TermModel};
ghost use Rattle.rv_terms.specs.Parts.{form_at, IsTerm};
ghost use Rattle.rv_agreement.specs.Agreement.{IsNamed};
ghost use Rattle.rv_agreement.specs.Trees.{Node, Binary, Scale, If};
ghost use Rattle.rv_flat.specs.Facts.{is_light};
ghost use Rattle.rv_flat.specs.Inlined.{table_of};
ghost use Rattle.rv_flat.specs.Tame.{IsOver};
ghost use Rattle.rv_symbolic.specs.Linked.{AreRefs};
ghost use Rattle.rv_bits.specs.Reads.{tree_in};
ghost use Rattle.rv_bits.specs.Shown.{clock_bit};
ghost use Rattle.rv_forms.specs.Columns.{gives_whole, combined_form};
ghost use Rattle.rv_forms.specs.Terms.{weights_of, IsWithin, GivesTerm, ReadsAs, AreKnown, IsReady, IsAfterRead};

use crate::constants::{constant_term, copied, term_at, zero_term};
use crate::over::Wholes;
use rv_base::{Many, Memory};
use rv_bits::{Around, read_expr, ref_of};
use rv_diagram::{Ref, Store, StoreFault};
use rv_flat::{Flat, FlatExpr, FlatForm, FlatMemory};
use rv_terms::{Term, choose, scale, sum};
use rv_tree::Op;
use std::alloc::Global;

/// For each memory, that what it holds after an instant is not known as a term. The only error is want of memory.
pub fn none_known(alloc: Global, flat: &Flat) -> Result<Many<Option<Term>>, Memory>
    ensures { IfOk result (λ known. (nodes : List TripleModel) → AreKnown flat.now nodes known) }
{
    let mut known = Many::new(alloc);
    for _ in 0..flat.memories.len() {
        known.push(None)?;
    }
    Ok(known)
}

/// The term of an integer expression, whose flows are among those of `wholes`. `shown` and `known` keep what has been read of what the
/// memories hold after the instant. Where no node is left for the store the error is Nodes, and nodes may be left that nothing names.
///
/// It calls itself, through the functions below, for each operand and for what each `current` shows, so as deep as the tree of the
/// source is: 20,301 levels at most. So what makes terms stands in functions of its own, and little in its frame.
#[cycle(terms)]
pub fn term_of(
    alloc: Global,
    store: &mut Store,
    around: &Around,
    wholes: &Wholes,
    shown: &mut Many<Option<Many<Ref>>>,
    known: &mut Many<Option<Term>>,
    e: &FlatExpr,
) -> Result<Term, StoreFault>
    requires ready { IsReady store.old around.now wholes.now shown.old known.old }
    requires over { IsOver (length wholes.now.flows) (tree_in around.now e.now) }
    requires light { is_light (weights_of around.now.flat.now) (tree_in around.now e.now) ≡ true }
    ensures ok { IfOk result (λ t. ReadsAs around.now.flat.now store.old store.new (tree_in around.now e.now) t.parts) }
    ensures ready { OnOk result (IsReady store.new around.now wholes.now shown.new known.new) }
    ensures roomy { IsErrOf result StoreFault.Nodes → store.old.limit < 2 ^ (2 ^ store.old.variables) }
{
    match &e.form {
        FlatForm::Constant(constant) => constant_term(alloc, wholes.columns, constant),
        FlatForm::Flow(number) => term_at(alloc, wholes.columns, &wholes.flows, *number as usize),
        FlatForm::Memory(number) => term_at(alloc, wholes.columns, &wholes.kept, *number as usize),
        FlatForm::Ticked(_) => zero_term(alloc, wholes.columns),
        FlatForm::Input(number) => term_at(alloc, wholes.columns, &wholes.given, *number as usize),
        FlatForm::Not(_) => zero_term(alloc, wholes.columns),
        FlatForm::Binary(op, left, right) => {
            binary_term(alloc, store, around, wholes, shown, known, *op, left, right)
        }
        FlatForm::Scale(by, operand) => {
            scaled_term(alloc, store, around, wholes, shown, known, *by, operand)
        }
        FlatForm::If(condition, first, second) => {
            chosen_term(
                alloc, store, around, wholes, shown, known, condition, first, second,
            )
        }
        FlatForm::AtMostOne(_) => zero_term(alloc, wholes.columns),
        FlatForm::When(_, operand) => {
            term_of(alloc, store, around, wholes, shown, known, operand)
        }
        FlatForm::Current(number) => {
            after_term(alloc, store, around, wholes, shown, known, *number as usize)
        }
    }
}

/// Whether an operator gives an integer.
fn is_sum(op: Op) -> bool
    ensures { result ≡ gives_whole op }
{
    match op {
        Op::Plus => true,
        Op::Minus => true,
        _ => false,
    }
}

/// The difference of two terms, or their sum.
#[inline(never)]
fn combined(
    alloc: Global,
    store: &mut Store,
    op: Op,
    first: &Term,
    second: &Term,
) -> Result<Term, StoreFault>
    requires terms { (columns : ℕ) × IsWithin store.old.nodes columns heaviest first.now.parts
        × IsWithin store.old.nodes columns heaviest second.now.parts }
    ensures ok { IfOk result (λ t. (columns : ℕ) → IsTerm store.old.nodes columns first.now.parts → GivesTerm store.old store.new columns
        (λ v. combined_form op (form_at store.old.nodes first.now.parts v) (form_at store.old.nodes second.now.parts v)) t.parts) }
    ensures roomy { IsErrOf result StoreFault.Nodes → store.old.limit < 2 ^ (2 ^ store.old.variables) }
{
    match op {
        Op::Minus => {
            let negative = scale(alloc, store, -1, second)?;
            sum(alloc, store, first, &negative)
        }
        _ => sum(alloc, store, first, second),
    }
}

/// That of an operator between two expressions.
#[cycle(terms)]
#[inline(never)]
fn binary_term(
    alloc: Global,
    store: &mut Store,
    around: &Around,
    wholes: &Wholes,
    shown: &mut Many<Option<Many<Ref>>>,
    known: &mut Many<Option<Term>>,
    op: Op,
    left: &FlatExpr,
    right: &FlatExpr,
) -> Result<Term, StoreFault>
    requires ready { IsReady store.old around.now wholes.now shown.old known.old }
    requires over_left { IsOver (length wholes.now.flows) (tree_in around.now left.now) }
    requires over_right { IsOver (length wholes.now.flows) (tree_in around.now right.now) }
    requires light { (at : Sites) → is_light (weights_of around.now.flat.now)
        (Node at (Binary op (tree_in around.now left.now) (tree_in around.now right.now))) ≡ true }
    ensures ok { IfOk result (λ t. (at : Sites) → ReadsAs around.now.flat.now store.old store.new
        (Node at (Binary op (tree_in around.now left.now) (tree_in around.now right.now))) t.parts) }
    ensures ready { OnOk result (IsReady store.new around.now wholes.now shown.new known.new) }
    ensures roomy { IsErrOf result StoreFault.Nodes → store.old.limit < 2 ^ (2 ^ store.old.variables) }
{
    if !is_sum(op) {
        return zero_term(alloc, wholes.columns);
    }
    let first = term_of(alloc, store, around, wholes, shown, known, left)?;
    let second = term_of(alloc, store, around, wholes, shown, known, right)?;
    combined(alloc, store, op, &first, &second)
}

/// That of a multiple.
#[cycle(terms)]
#[inline(never)]
fn scaled_term(
    alloc: Global,
    store: &mut Store,
    around: &Around,
    wholes: &Wholes,
    shown: &mut Many<Option<Many<Ref>>>,
    known: &mut Many<Option<Term>>,
    by: i128,
    operand: &FlatExpr,
) -> Result<Term, StoreFault>
    requires ready { IsReady store.old around.now wholes.now shown.old known.old }
    requires over { IsOver (length wholes.now.flows) (tree_in around.now operand.now) }
    requires light { (at : Sites) → is_light (weights_of around.now.flat.now) (Node at (Scale by (tree_in around.now operand.now))) ≡ true }
    ensures ok { IfOk result (λ t. (at : Sites) → ReadsAs around.now.flat.now store.old store.new
        (Node at (Scale by (tree_in around.now operand.now))) t.parts) }
    ensures ready { OnOk result (IsReady store.new around.now wholes.now shown.new known.new) }
    ensures roomy { IsErrOf result StoreFault.Nodes → store.old.limit < 2 ^ (2 ^ store.old.variables) }
{
    let whole = term_of(alloc, store, around, wholes, shown, known, operand)?;
    scale(alloc, store, by, &whole)
}

/// That of a choice.
#[cycle(terms)]
#[inline(never)]
fn chosen_term(
    alloc: Global,
    store: &mut Store,
    around: &Around,
    wholes: &Wholes,
    shown: &mut Many<Option<Many<Ref>>>,
    known: &mut Many<Option<Term>>,
    condition: &FlatExpr,
    first: &FlatExpr,
    second: &FlatExpr,
) -> Result<Term, StoreFault>
    requires ready { IsReady store.old around.now wholes.now shown.old known.old }
    requires over { (at : Sites) → IsOver (length wholes.now.flows)
        (Node at (If (tree_in around.now condition.now) (tree_in around.now first.now) (tree_in around.now second.now))) }
    requires light { (at : Sites) → is_light (weights_of around.now.flat.now)
        (Node at (If (tree_in around.now condition.now) (tree_in around.now first.now) (tree_in around.now second.now))) ≡ true }
    ensures ok { IfOk result (λ t. (at : Sites) → ReadsAs around.now.flat.now store.old store.new
        (Node at (If (tree_in around.now condition.now) (tree_in around.now first.now) (tree_in around.now second.now))) t.parts) }
    ensures ready { OnOk result (IsReady store.new around.now wholes.now shown.new known.new) }
    ensures roomy { IsErrOf result StoreFault.Nodes → store.old.limit < 2 ^ (2 ^ store.old.variables) }
{
    let test = read_expr(alloc, store, around, shown, condition)?;
    let one = term_of(alloc, store, around, wholes, shown, known, first)?;
    let other = term_of(alloc, store, around, wholes, shown, known, second)?;
    choose(alloc, store, ref_of(test.as_slice(), 0), &one, &other)
}

/// What is known of what a memory holds after the instant.
#[inline(never)]
fn known_term(
    alloc: Global,
    known: &Many<Option<Term>>,
    number: usize,
) -> Result<Option<Term>, Memory>
    ensures { IfOk result (λ found. (t : TermModel) → found ≡ Some t
        → (u : TermModel) × (slice_index_or known.now number None ≡ Some u) × (t.parts ≡ u.parts)) }
{
    match known.get(number) {
        Some(Some(term)) => Ok(Some(copied(alloc, term)?)),
        Some(None) | None => Ok(None),
    }
}

/// The one term where the flow of a clock is there and true, and the other elsewhere. Main's base clock is always there.
#[inline(never)]
pub fn there_or(
    alloc: Global,
    store: &mut Store,
    on: &[Ref],
    clock: Option<u32>,
    body: Term,
    elsewhere: &Term,
) -> Result<Term, StoreFault>
    requires on { AreRefs store.old.nodes on.now }
    requires terms { (columns n m : ℕ) × IsWithin store.old.nodes columns n body.parts × IsWithin store.old.nodes columns m elsewhere.now.parts }
    ensures ok { IfOk result (λ t. (columns : ℕ) → IsTerm store.old.nodes columns elsewhere.now.parts → GivesTerm store.old store.new columns
        (λ v. cond (clock_bit store.old.nodes on.now clock v) (form_at store.old.nodes body.parts v) (form_at store.old.nodes elsewhere.now.parts v))
        t.parts) }
    ensures roomy { IsErrOf result StoreFault.Nodes → store.old.limit < 2 ^ (2 ^ store.old.variables) }
{
    match clock {
        None => Ok(body),
        Some(clock) => choose(alloc, store, ref_of(on, clock as usize), &body, elsewhere),
    }
}

/// The term of what an integer memory holds after the instant. It is made once, and kept from then on by the number of the memory.
#[cycle(terms)]
#[inline(never)]
pub fn after_term(
    alloc: Global,
    store: &mut Store,
    around: &Around,
    wholes: &Wholes,
    shown: &mut Many<Option<Many<Ref>>>,
    known: &mut Many<Option<Term>>,
    number: usize,
) -> Result<Term, StoreFault>
    requires ready { IsReady store.old around.now wholes.now shown.old known.old }
    requires clock { IsNamed (length wholes.now.flows) (table_of around.now.flat.now.memories number).clock }
    requires over { IsOver (length wholes.now.flows) (table_of around.now.flat.now.memories number).body }
    requires light { is_light (weights_of around.now.flat.now) (table_of around.now.flat.now.memories number).body ≡ true }
    ensures ok { IfOk result (λ t. IsAfterRead around.now.flat.now store.old store.new number t.parts) }
    ensures ready { OnOk result (IsReady store.new around.now wholes.now shown.new known.new) }
    ensures roomy { IsErrOf result StoreFault.Nodes → store.old.limit < 2 ^ (2 ^ store.old.variables) }
{
    match known_term(alloc, known, number)? {
        Some(term) => Ok(term),
        None => match around.flat.memories.get(number) {
            Some(memory) => {
                after_new(alloc, store, around, wholes, shown, known, number, memory)
            }
            None => zero_term(alloc, wholes.columns),
        },
    }
}

/// The same of a memory of which nothing is known.
#[cycle(terms)]
#[inline(never)]
fn after_new(
    alloc: Global,
    store: &mut Store,
    around: &Around,
    wholes: &Wholes,
    shown: &mut Many<Option<Many<Ref>>>,
    known: &mut Many<Option<Term>>,
    number: usize,
    memory: &FlatMemory,
) -> Result<Term, StoreFault>
    requires ready { IsReady store.old around.now wholes.now shown.old known.old }
    requires memory { slice_get around.now.flat.now.memories number ≡ Some memory.now }
    requires clock { IsNamed (length wholes.now.flows) memory.now.clock }
    requires over { IsOver (length wholes.now.flows) (tree_in around.now memory.now.body) }
    requires light { is_light (weights_of around.now.flat.now) (tree_in around.now memory.now.body) ≡ true }
    ensures ok { IfOk result (λ t. IsAfterRead around.now.flat.now store.old store.new number t.parts) }
    ensures ready { OnOk result (IsReady store.new around.now wholes.now shown.new known.new) }
    ensures roomy { IsErrOf result StoreFault.Nodes → store.old.limit < 2 ^ (2 ^ store.old.variables) }
{
    let body = term_of(alloc, store, around, wholes, shown, known, &memory.body)?;
    let kept = term_at(alloc, wholes.columns, &wholes.kept, number)?;
    let on = around.read.on.as_slice();
    let after = there_or(alloc, store, on, memory.clock, body, &kept)?;
    let copy = copied(alloc, &after)?;
    known.set(number, Some(copy));
    Ok(after)
}
