//! Expressions read into the references of their bits, and what the memories hold after an instant.

ghost use Rattle.std.specs.Prelude.{◌≡◌, ◌<◌, ◌^◌, ℕ, List, cond, length, map, slice_get, slice_index_or, None, Some, IfOk, OnOk, IsErrOf};
ghost use Rattle.rv_agreement.specs.Agreement.{IsNamed};
ghost use Rattle.rv_agreement.specs.Trees.{Node, Not, Binary, If, AtMostOne};
ghost use Rattle.rv_symbolic.specs.Linked.{AreRefs};
ghost use Rattle.rv_bits.specs.Bits.{bit, IsSingle, Spells};
ghost use Rattle.rv_bits.specs.Operators.{operated_by};
ghost use Rattle.rv_flat.specs.Lists.{variable_of};
ghost use Rattle.rv_tree.specs.Places.{Sites};
ghost use Rattle.rv_flat.specs.Inlined.{table_of};
ghost use Rattle.rv_flat.specs.Tame.{IsOver, AreOver};
ghost use Rattle.rv_bits.specs.Reads.{tree_in, trees_in, AreCountedIn, ShowsTo};
ghost use Rattle.rv_bits.specs.Shown.{AreAfter, IsAround, ReadsTo, clock_bit, refs_at};

use crate::around::Around;
use crate::bits::{at_most_one, chosen, ref_of, single};
use crate::leaves::{bit_at, constant_bits, copied, copy_at, list_at, negated};
use crate::operators::operated;
use rv_base::{Many, Memory, Place};
use rv_diagram::{Ref, Store, StoreFault};
use rv_flat::{FlatExpr, FlatForm, FlatMemory};
use rv_tree::Op;
use std::alloc::Global;

/// The references of the bits of an expression. It calls itself, through the functions below, for each operand and for what each
/// `current` shows, so as deep as the tree of the source is: 20,301 levels at most. So what makes references stands in functions
/// of its own, and little in its frame.
#[cycle(read)]
pub fn read_expr(
    alloc: Global,
    store: &mut Store,
    around: &Around,
    shown: &mut Many<Option<Many<Ref>>>,
    e: &FlatExpr,
) -> Result<Many<Ref>, StoreFault>
    requires around { IsAround store.old around.now }
    requires shown { AreAfter around.now.flat.now store.old.nodes shown.old }
    requires over { IsOver (length around.now.read.now.on) (tree_in around.now e.now) }
    ensures ok { IfOk result (ReadsTo around.now.flat.now store.old store.new (tree_in around.now e.now)) }
    ensures shown { OnOk result (AreAfter around.now.flat.now store.new.nodes shown.new) }
    ensures roomy { IsErrOf result StoreFault.Nodes → store.old.limit < 2 ^ (2 ^ store.old.variables) }
{
    match &e.form {
        FlatForm::Constant(constant) => constant_bits(alloc, store, constant),
        FlatForm::Flow(number) => copy_at(alloc, &around.read.bits, *number as usize),
        FlatForm::Memory(number) => copy_at(alloc, &around.tables.kept, *number as usize),
        FlatForm::Ticked(number) => bit_at(alloc, &around.tables.ticks, *number as usize),
        FlatForm::Input(number) => copy_at(alloc, &around.tables.given, *number as usize),
        FlatForm::Not(operand) => read_not(alloc, store, around, shown, operand),
        FlatForm::Binary(op, left, right) => {
            read_binary(alloc, store, around, shown, &e.at, *op, left, right)
        }
        FlatForm::Scale(_, _) => Ok(Many::new(alloc)),
        FlatForm::If(condition, first, second) => {
            read_if(alloc, store, around, shown, condition, first, second)
        }
        FlatForm::AtMostOne(operands) => {
            read_at_most_one(alloc, store, around, shown, operands.as_slice())
        }
        FlatForm::When(_, operand) => read_expr(alloc, store, around, shown, operand),
        FlatForm::Current(number) => show(alloc, store, around, shown, *number as usize),
    }
}

/// Those of a negation.
#[cycle(read)]
#[inline(never)]
fn read_not(
    alloc: Global,
    store: &mut Store,
    around: &Around,
    shown: &mut Many<Option<Many<Ref>>>,
    operand: &FlatExpr,
) -> Result<Many<Ref>, StoreFault>
    requires around { IsAround store.old around.now }
    requires shown { AreAfter around.now.flat.now store.old.nodes shown.old }
    requires over { IsOver (length around.now.read.now.on) (tree_in around.now operand.now) }
    ensures ok { IfOk result (λ refs. (at : Sites) → ReadsTo around.now.flat.now store.old store.new (Node at (Not (tree_in around.now operand.now))) refs) }
    ensures shown { OnOk result (AreAfter around.now.flat.now store.new.nodes shown.new) }
    ensures roomy { IsErrOf result StoreFault.Nodes → store.old.limit < 2 ^ (2 ^ store.old.variables) }
{
    let bits = read_expr(alloc, store, around, shown, operand)?;
    negated(alloc, store, bits.as_slice())
}

/// Those of an operator between two expressions.
#[cycle(read)]
#[inline(never)]
fn read_binary(
    alloc: Global,
    store: &mut Store,
    around: &Around,
    shown: &mut Many<Option<Many<Ref>>>,
    at: &Place,
    op: Op,
    left: &FlatExpr,
    right: &FlatExpr,
) -> Result<Many<Ref>, StoreFault>
    requires around { IsAround store.old around.now }
    requires shown { AreAfter around.now.flat.now store.old.nodes shown.old }
    requires left { IsOver (length around.now.read.now.on) (tree_in around.now left.now) }
    requires right { IsOver (length around.now.read.now.on) (tree_in around.now right.now) }
    ensures ok { IfOk result (ReadsTo around.now.flat.now store.old store.new
        (Node at.now.sites (Binary op (tree_in around.now left.now) (tree_in around.now right.now)))) }
    ensures shown { OnOk result (AreAfter around.now.flat.now store.new.nodes shown.new) }
    ensures roomy { IsErrOf result StoreFault.Nodes → store.old.limit < 2 ^ (2 ^ store.old.variables) }
{
    let first = read_expr(alloc, store, around, shown, left)?;
    let second = read_expr(alloc, store, around, shown, right)?;
    combined(
        alloc,
        store,
        around,
        at,
        op,
        first.as_slice(),
        second.as_slice(),
    )
}

/// The reference of what an operator makes of the bits of its operands.
#[inline(never)]
fn combined(
    alloc: Global,
    store: &mut Store,
    around: &Around,
    at: &Place,
    op: Op,
    left: &[Ref],
    right: &[Ref],
) -> Result<Many<Ref>, StoreFault>
    requires around { IsAround store.old around.now }
    requires left { AreRefs store.old.nodes left.now }
    requires right { AreRefs store.old.nodes right.now }
    ensures ok { IfOk result (IsSingle store.old store.new
        (λ v. operated_by store.old.nodes (map variable_of around.now.flat.now.variables) at.now.sites left.now right.now v op)) }
    ensures roomy { IsErrOf result StoreFault.Nodes → store.old.limit < 2 ^ (2 ^ store.old.variables) }
{
    let variables = around.flat.variables.as_slice();
    let made = operated(store, variables, at, op, left, right)?;
    Ok(single(alloc, made)?)
}

/// Those of a choice.
#[cycle(read)]
#[inline(never)]
fn read_if(
    alloc: Global,
    store: &mut Store,
    around: &Around,
    shown: &mut Many<Option<Many<Ref>>>,
    condition: &FlatExpr,
    first: &FlatExpr,
    second: &FlatExpr,
) -> Result<Many<Ref>, StoreFault>
    requires around { IsAround store.old around.now }
    requires shown { AreAfter around.now.flat.now store.old.nodes shown.old }
    requires condition { IsOver (length around.now.read.now.on) (tree_in around.now condition.now) }
    requires first { IsOver (length around.now.read.now.on) (tree_in around.now first.now) }
    requires second { IsOver (length around.now.read.now.on) (tree_in around.now second.now) }
    ensures ok { IfOk result (λ refs. (at : Sites) → ReadsTo around.now.flat.now store.old store.new
        (Node at (If (tree_in around.now condition.now) (tree_in around.now first.now) (tree_in around.now second.now))) refs) }
    ensures shown { OnOk result (AreAfter around.now.flat.now store.new.nodes shown.new) }
    ensures roomy { IsErrOf result StoreFault.Nodes → store.old.limit < 2 ^ (2 ^ store.old.variables) }
{
    let test = read_expr(alloc, store, around, shown, condition)?;
    let one = read_expr(alloc, store, around, shown, first)?;
    let other = read_expr(alloc, store, around, shown, second)?;
    chosen(
        alloc,
        store,
        ref_of(test.as_slice(), 0),
        one.as_slice(),
        other.as_slice(),
    )
}

/// The first bit of each of some expressions.
#[cycle(read)]
fn read_each(
    alloc: Global,
    store: &mut Store,
    around: &Around,
    shown: &mut Many<Option<Many<Ref>>>,
    expressions: &[FlatExpr],
) -> Result<Many<Ref>, StoreFault>
    requires around { IsAround store.old around.now }
    requires shown { AreAfter around.now.flat.now store.old.nodes shown.old }
    requires over { AreOver (length around.now.read.now.on) (trees_in around.now expressions.now) }
    ensures ok { IfOk result (AreCountedIn around.now.flat.now store.old store.new (trees_in around.now expressions.now)) }
    ensures shown { OnOk result (AreAfter around.now.flat.now store.new.nodes shown.new) }
    ensures roomy { IsErrOf result StoreFault.Nodes → store.old.limit < 2 ^ (2 ^ store.old.variables) }
{
    let mut refs = Many::new(alloc);
    for e in expressions {
        let bits = read_expr(alloc, store, around, shown, e)?;
        refs.push(ref_of(bits.as_slice(), 0))?;
    }
    Ok(refs)
}

/// Those of whether one of some expressions is true at the most.
#[cycle(read)]
#[inline(never)]
fn read_at_most_one(
    alloc: Global,
    store: &mut Store,
    around: &Around,
    shown: &mut Many<Option<Many<Ref>>>,
    operands: &[FlatExpr],
) -> Result<Many<Ref>, StoreFault>
    requires around { IsAround store.old around.now }
    requires shown { AreAfter around.now.flat.now store.old.nodes shown.old }
    requires over { AreOver (length around.now.read.now.on) (trees_in around.now operands.now) }
    ensures ok { IfOk result (λ refs. (at : Sites) → ReadsTo around.now.flat.now store.old store.new (Node at (AtMostOne (trees_in around.now operands.now)))
        refs) }
    ensures shown { OnOk result (AreAfter around.now.flat.now store.new.nodes shown.new) }
    ensures roomy { IsErrOf result StoreFault.Nodes → store.old.limit < 2 ^ (2 ^ store.old.variables) }
{
    let refs = read_each(alloc, store, around, shown, operands)?;
    let most = at_most_one(store, refs.as_slice())?;
    Ok(single(alloc, most)?)
}

/// What has been read of what a memory holds after the instant.
#[inline(never)]
fn known(
    alloc: Global,
    shown: &Many<Option<Many<Ref>>>,
    number: usize,
) -> Result<Option<Many<Ref>>, Memory>
    ensures { IfOk result (λ found. (refs : List ℕ) → found ≡ Some refs → slice_index_or shown.now number None ≡ Some refs) }
{
    match shown.get(number) {
        Some(Some(refs)) => Ok(Some(copied(alloc, refs.as_slice())?)),
        Some(None) | None => Ok(None),
    }
}

/// The bits of what a memory holds after the instant, from those of its body: these where its clock is there, and what it held
/// elsewhere.
#[inline(never)]
fn after_body(
    alloc: Global,
    store: &mut Store,
    around: &Around,
    number: usize,
    clock: Option<u32>,
    body: &[Ref],
) -> Result<Many<Ref>, StoreFault>
    requires around { IsAround store.old around.now }
    requires body { AreRefs store.old.nodes body.now }
    ensures ok { IfOk result (Spells store.old store.new (λ b v. cond (clock_bit store.old.nodes around.now.read.now.on clock v)
        (bit store.old.nodes body.now v b)
        (bit store.old.nodes (refs_at around.now.tables.now.kept number) v b))) }
    ensures roomy { IsErrOf result StoreFault.Nodes → store.old.limit < 2 ^ (2 ^ store.old.variables) }
{
    match clock {
        None => Ok(copied(alloc, body)?),
        Some(clock) => {
            let on = ref_of(around.read.on.as_slice(), clock as usize);
            chosen(alloc, store, on, body, list_at(&around.tables.kept, number))
        }
    }
}

/// The references of the bits of what a memory holds after the instant. They are made once, and kept from then on by the number
/// of the memory.
#[cycle(read)]
#[inline(never)]
pub fn show(
    alloc: Global,
    store: &mut Store,
    around: &Around,
    shown: &mut Many<Option<Many<Ref>>>,
    number: usize,
) -> Result<Many<Ref>, StoreFault>
    requires around { IsAround store.old around.now }
    requires shown { AreAfter around.now.flat.now store.old.nodes shown.old }
    requires clock { IsNamed (length around.now.read.now.on) (table_of around.now.flat.now.memories number).clock }
    requires over { IsOver (length around.now.read.now.on) (table_of around.now.flat.now.memories number).body }
    ensures ok { IfOk result (ShowsTo around.now.flat.now store.old store.new number) }
    ensures shown { OnOk result (AreAfter around.now.flat.now store.new.nodes shown.new) }
    ensures roomy { IsErrOf result StoreFault.Nodes → store.old.limit < 2 ^ (2 ^ store.old.variables) }
{
    match known(alloc, shown, number)? {
        Some(refs) => Ok(refs),
        None => match around.flat.memories.get(number) {
            Some(memory) => show_new(alloc, store, around, shown, number, memory),
            None => Ok(Many::new(alloc)),
        },
    }
}

/// The same of a memory of which nothing has been read.
#[cycle(read)]
#[inline(never)]
fn show_new(
    alloc: Global,
    store: &mut Store,
    around: &Around,
    shown: &mut Many<Option<Many<Ref>>>,
    number: usize,
    memory: &FlatMemory,
) -> Result<Many<Ref>, StoreFault>
    requires around { IsAround store.old around.now }
    requires shown { AreAfter around.now.flat.now store.old.nodes shown.old }
    requires memory { slice_get around.now.flat.now.memories number ≡ Some memory.now }
    requires clock { IsNamed (length around.now.read.now.on) memory.now.clock }
    requires over { IsOver (length around.now.read.now.on) (tree_in around.now memory.now.body) }
    ensures ok { IfOk result (ShowsTo around.now.flat.now store.old store.new number) }
    ensures shown { OnOk result (AreAfter around.now.flat.now store.new.nodes shown.new) }
    ensures roomy { IsErrOf result StoreFault.Nodes → store.old.limit < 2 ^ (2 ^ store.old.variables) }
{
    let body = read_expr(alloc, store, around, shown, &memory.body)?;
    let after = after_body(alloc, store, around, number, memory.clock, body.as_slice())?;
    let copy = copied(alloc, after.as_slice())?;
    shown.set(number, Some(copy));
    Ok(after)
}
