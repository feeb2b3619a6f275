//! The valuations at which each assertion is true or absent.

ghost use Rattle.std.specs.Prelude.{◌≡◌, ◌<◌, ◌^◌, true, cond, length, IfOk, OnOk, IsErrOf};
ghost use Rattle.rv_agreement.specs.Agreement.{IsNamed};
ghost use Rattle.rv_flat.specs.FlatInstants.{system_of};
ghost use Rattle.rv_flat.specs.RawTree.{raw_tree};
ghost use Rattle.rv_flat.specs.Systems.{assertion_item, asserted as asserted_parts, asserted_on};
ghost use Rattle.rv_flat.specs.Tame.{IsOver};
ghost use Rattle.rv_symbolic.specs.Growing.{Makes};
ghost use Rattle.rv_symbolic.specs.Linked.{AreRefs};
ghost use Rattle.rv_bits.specs.Asserted.{is_true_tree, guard_tree, guarded as guarded_tree, IsMetRead, AreMetRead};
ghost use Rattle.rv_bits.specs.Bits.{bit};
ghost use Rattle.rv_bits.specs.Shown.{AreAfter, IsAround, clock_bit};

use crate::around::Around;
use crate::bits::ref_of;
use crate::read::read_expr;
use rv_base::{Many, Value};
use rv_diagram::{Ref, Store, StoreFault};
use rv_flat::{FlatExpr, FlatForm};
use std::alloc::Global;

/// What a choice is guarded by: the constant true, a flow, or anything else.
#[derive(Clone, Copy)]
pub enum Guard {
    Always,
    Flow(u32),
    Neither,
}

/// The parts of an assertion: the flow of its clock, none for the main node's base clock, and its body.
#[derive(Clone, Copy)]
pub struct Asserted<'a> {
    pub clock: Option<u32>,
    pub body: &'a FlatExpr,
}

/// Whether an expression is the constant true.
fn is_true(e: &FlatExpr) -> bool
    ensures { result ≡ is_true_tree (raw_tree e.now) }
{
    match &e.form {
        FlatForm::Constant(constant) => match constant {
            Value::Flag(flag) => *flag,
            Value::Label(_) => false,
            Value::Whole(_) => false,
        },
        FlatForm::Flow(_) => false,
        FlatForm::Memory(_) => false,
        FlatForm::Ticked(_) => false,
        FlatForm::Input(_) => false,
        FlatForm::Not(_) => false,
        FlatForm::Binary(_, _, _) => false,
        FlatForm::Scale(_, _) => false,
        FlatForm::If(_, _, _) => false,
        FlatForm::AtMostOne(_) => false,
        FlatForm::When(_, _) => false,
        FlatForm::Current(_) => false,
    }
}

/// What a choice with this condition is guarded by.
fn guard_of(e: &FlatExpr) -> Guard
    ensures { result ≡ guard_tree (raw_tree e.now) }
{
    match &e.form {
        FlatForm::Constant(constant) => match constant {
            Value::Flag(flag) => { if *flag { Guard::Always } else { Guard::Neither } }
            Value::Label(_) => Guard::Neither,
            Value::Whole(_) => Guard::Neither,
        },
        FlatForm::Flow(number) => Guard::Flow(*number),
        FlatForm::Memory(_) => Guard::Neither,
        FlatForm::Ticked(_) => Guard::Neither,
        FlatForm::Input(_) => Guard::Neither,
        FlatForm::Not(_) => Guard::Neither,
        FlatForm::Binary(_, _, _) => Guard::Neither,
        FlatForm::Scale(_, _) => Guard::Neither,
        FlatForm::If(_, _, _) => Guard::Neither,
        FlatForm::AtMostOne(_) => Guard::Neither,
        FlatForm::When(_, _) => Guard::Neither,
        FlatForm::Current(_) => Guard::Neither,
    }
}

/// The parts of an expression with these.
fn guarded<'a>(whole: &'a FlatExpr, guard: Guard, body: &'a FlatExpr) -> Asserted<'a>
    ensures clock { result.clock ≡ (guarded_tree (raw_tree whole.now) guard (raw_tree body.now)).0 }
    ensures body { raw_tree result.body.now ≡ (guarded_tree (raw_tree whole.now) guard (raw_tree body.now)).1 }
{
    match guard {
        Guard::Always => Asserted { clock: None, body },
        Guard::Flow(clock) => Asserted {
            clock: Some(clock),
            body,
        },
        Guard::Neither => Asserted {
            clock: None,
            body: whole,
        },
    }
}

/// The parts of a choice.
fn choice_parts<'a>(
    whole: &'a FlatExpr,
    there: &FlatExpr,
    body: &'a FlatExpr,
    absent: &FlatExpr,
) -> Asserted<'a>
    ensures clock { result.clock ≡ (asserted_on (raw_tree whole.now) (raw_tree there.now) (raw_tree body.now) (raw_tree absent.now)).0 }
    ensures body { raw_tree result.body.now ≡ (asserted_on (raw_tree whole.now) (raw_tree there.now) (raw_tree body.now) (raw_tree absent.now)).1 }
{
    let guard = if is_true(absent) {
        guard_of(there)
    } else {
        Guard::Neither
    };
    guarded(whole, guard, body)
}

/// The parts of an assertion. What is no choice of a body on a clock is taken whole.
pub fn parts_of(e: &FlatExpr) -> Asserted<'_>
    ensures clock { result.clock ≡ (asserted_parts (raw_tree e.now)).0 }
    ensures body { raw_tree result.body.now ≡ (asserted_parts (raw_tree e.now)).1 }
{
    match &e.form {
        FlatForm::If(there, body, absent) => choice_parts(e, there, body, absent),
        FlatForm::Constant(_) => guarded(e, Guard::Neither, e),
        FlatForm::Flow(_) => guarded(e, Guard::Neither, e),
        FlatForm::Memory(_) => guarded(e, Guard::Neither, e),
        FlatForm::Ticked(_) => guarded(e, Guard::Neither, e),
        FlatForm::Input(_) => guarded(e, Guard::Neither, e),
        FlatForm::Not(_) => guarded(e, Guard::Neither, e),
        FlatForm::Binary(_, _, _) => guarded(e, Guard::Neither, e),
        FlatForm::Scale(_, _) => guarded(e, Guard::Neither, e),
        FlatForm::AtMostOne(_) => guarded(e, Guard::Neither, e),
        FlatForm::When(_, _) => guarded(e, Guard::Neither, e),
        FlatForm::Current(_) => guarded(e, Guard::Neither, e),
    }
}

/// Whether a body is true, or its clock absent.
fn met_ref(
    store: &mut Store,
    on: &[Ref],
    clock: Option<u32>,
    bits: &[Ref],
) -> Result<Ref, StoreFault>
    requires on { AreRefs store.old.nodes on.now }
    requires bits { AreRefs store.old.nodes bits.now }
    ensures ok { IfOk result (Makes store.old store.new (λ v. cond (clock_bit store.old.nodes on.now clock v) (bit store.old.nodes bits.now v 0) true)) }
    ensures roomy { IsErrOf result StoreFault.Nodes → store.old.limit < 2 ^ (2 ^ store.old.variables) }
{
    match clock {
        None => Ok(ref_of(bits, 0)),
        Some(clock) => store.ite(ref_of(on, clock as usize), ref_of(bits, 0), 1),
    }
}

/// The valuations at which an assertion is true or absent.
fn read_assertion(
    alloc: Global,
    store: &mut Store,
    around: &Around,
    shown: &mut Many<Option<Many<Ref>>>,
    e: &FlatExpr,
) -> Result<Ref, StoreFault>
    requires around { IsAround store.old around.now }
    requires shown { AreAfter around.now.flat.now store.old.nodes shown.old }
    requires clock { IsNamed (length around.now.read.now.on) (assertion_item around.now.flat.now.memories e.now).clock }
    requires over { IsOver (length around.now.read.now.on) (assertion_item around.now.flat.now.memories e.now).body }
    ensures ok { IfOk result (IsMetRead around.now.flat.now store.old store.new (assertion_item around.now.flat.now.memories e.now)) }
    ensures shown { OnOk result (AreAfter around.now.flat.now store.new.nodes shown.new) }
    ensures roomy { IsErrOf result StoreFault.Nodes → store.old.limit < 2 ^ (2 ^ store.old.variables) }
{
    let parts = parts_of(e);
    let bits = read_expr(alloc, store, around, shown, parts.body)?;
    let on = around.read.on.as_slice();
    met_ref(store, on, parts.clock, bits.as_slice())
}

/// The valuations at which all assertions are true or absent.
pub fn read_assertions(
    alloc: Global,
    store: &mut Store,
    around: &Around,
    shown: &mut Many<Option<Many<Ref>>>,
) -> Result<Ref, StoreFault>
    requires around { IsAround store.old around.now }
    requires shown { AreAfter around.now.flat.now store.old.nodes shown.old }
    requires all { length around.now.read.now.on ≡ length around.now.flat.now.flows }
    ensures ok { IfOk result (AreMetRead around.now.flat.now store.old store.new (system_of around.now.flat.now).assertions) }
    ensures shown { OnOk result (AreAfter around.now.flat.now store.new.nodes shown.new) }
    ensures roomy { IsErrOf result StoreFault.Nodes → store.old.limit < 2 ^ (2 ^ store.old.variables) }
{
    let mut all = store.constant(true);
    for e in around.flat.assertions.as_slice() {
        let one = read_assertion(alloc, store, around, shown, e)?;
        all = store.and(all, one)?;
    }
    Ok(all)
}
