//! The types of the operands of the `pre` and `current` of a node, in one walk.

ghost use Rattle.std.specs.Prelude.{◌≡◌, ◌++◌, ◌∷◌, ◌||◌, ◌&&◌, false, List, length, map, flat_map, unwrap_or, IfOk, OnOk};
ghost use Rattle.rv_tree.specs.Tree.{tree_of, trees, node_tree, equation_tree, assertion_tree};
ghost use Rattle.rv_tree.specs.Tree.{Named, AtMostOne, Call};
ghost use Rattle.rv_tree.specs.Delays.{node_delays};
ghost use Rattle.rv_types.specs.Delayed.{delayed_kinds, delayed_in, delayed_in_all, node_delayed};
ghost use Rattle.rv_types.specs.Readings.{view_of};
ghost use Rattle.rv_types.specs.Tables.{scope_of, stays_constant};
ghost use Rattle.rv_types.specs.Types.{is_constant, is_constant_form, are_constant, form_verdict, kind_of, kinds_of_all, all_typed, all_suit, fit, kind_in};
ghost use Rattle.rv_types.specs.Types.{two_of, three_of, binary_rule, if_rule, when_of};
ghost use Rattle.rv_types.specs.declared.typed.Kind.{Kind as AnyKind};
ghost use Rattle.rv_types.specs.declared.typed.Kind.TheVariants as kind;

use crate::fault::Verdict;
use crate::reading::{NodeTables, ProgramTables, view};
use crate::rules::{
    kind_of_verdict, of_at_most_one, of_binary, of_if, of_memory, of_minus, of_name, of_not,
    of_when,
};
use crate::typed::Kind;
use crate::typing::{Judged, Operands, of_call, one_more, wanted_by, whole};
use crate::view::View;
use rv_base::{Many, Memory, Text};
use rv_tree::{Assertion, Equation, Expr, ExprForm, Node, Op};
use std::alloc::Global;

/// The types of the operands of the `pre` and `current` of a node, those of its equations and then those of its
/// assertions, each before those that stand in it; `Bool` where one has none, as nowhere in a program whose types are
/// right. Each expression is looked at once. `Memory` comes where memory runs out.
pub fn delay_kinds(
    alloc: Global,
    tables: &ProgramTables,
    own: &NodeTables,
    node: &Node,
) -> Result<Many<Kind>, Memory>
    ensures { IfOk result (λ kinds. kinds ≡ delayed_kinds (scope_of (view_of tables.now own.now)) (node_delays (node_tree node.now))) }
{
    walked(alloc, tables, own, node)
}

/// The same, as the walk over the expressions finds them.
fn walked(
    alloc: Global,
    tables: &ProgramTables,
    own: &NodeTables,
    node: &Node,
) -> Result<Many<Kind>, Memory>
    ensures { IfOk result (λ kinds. kinds ≡ node_delayed (scope_of (view_of tables.now own.now)) (node_tree node.now)) }
{
    let mut found = Many::new(alloc);
    gather_node(&view(tables, own), node, &mut found)?;
    Ok(found)
}

/// Adds those of right sides and then those of assertions.
fn gather_node(view: &View, node: &Node, found: &mut Many<Kind>) -> Result<(), Memory>
    ensures { OnOk result (found.new ≡ found.old ++ node_delayed (scope_of view.now) (node_tree node.now)) }
{
    gather_equations(view, node.equations.as_slice(), found)?;
    gather_assertions(view, node.assertions.as_slice(), found)
}

/// Adds those of right sides.
fn gather_equations(
    view: &View,
    equations: &[Equation],
    found: &mut Many<Kind>,
) -> Result<(), Memory>
    ensures { OnOk result (found.new ≡ found.old ++ flat_map (λ q. delayed_in (scope_of view.now) q.right) (map equation_tree equations.now)) }
{
    let mut told = nothing_told();
    for equation in equations {
        gather(view, &equation.right, &mut told, found)?;
    }
    Ok(())
}

/// Adds those of assertions.
fn gather_assertions(
    view: &View,
    assertions: &[Assertion],
    found: &mut Many<Kind>,
) -> Result<(), Memory>
    ensures { OnOk result (found.new ≡ found.old ++ flat_map (λ a. delayed_in (scope_of view.now) a.body) (map assertion_tree assertions.now)) }
{
    let mut told = nothing_told();
    for assertion in assertions {
        gather(view, &assertion.body, &mut told, found)?;
    }
    Ok(())
}

/// What is told of an expression beside the types that it adds: its own type, where it has one, and whether it is constant.
#[derive(Clone, Copy, Debug)]
struct Told {
    kind: Option<Kind>,
    constant: bool,
}

/// What stands where nothing has been told yet.
fn nothing_told() -> Told {
    Told {
        kind: None,
        constant: false,
    }
}

/// What a verdict tells of the type.
fn from_verdict(verdict: Verdict, constant: bool) -> Told
    ensures kind { result.kind ≡ kind_in verdict }
    ensures constant { result.constant ≡ constant }
{
    Told {
        kind: kind_of_verdict(verdict),
        constant,
    }
}

/// Adds those of an expression, and tells its own type. It calls itself for each operand, so as deep as the tree is: 20,301
/// levels at most, all but 200 of them left operands and operands of `when`. So what it tells is written over and over in one
/// place, no fault is looked for, and little else stands in its frame.
#[cycle(gather)]
fn gather(view: &View, e: &Expr, told: &mut Told, found: &mut Many<Kind>) -> Result<(), Memory>
    ensures kind { OnOk result (told.new.kind ≡ kind_of (scope_of view.now) (tree_of e.now)) }
    ensures constant { OnOk result (told.new.constant ≡ is_constant (scope_of view.now) (tree_of e.now)) }
    ensures found { OnOk result (found.new ≡ found.old ++ delayed_in (scope_of view.now) (tree_of e.now)) }
{
    match &e.form {
        ExprForm::Binary(op, a, b) => {
            gather(view, a, told, found)?;
            let first = *told;
            gather(view, b, told, found)?;
            *told = told_of_two(view.moves(), *op, first, *told);
            Ok(())
        }
        ExprForm::When(a, c) => {
            gather(view, a, told, found)?;
            *told = told_of_when(view, *told, &c.text);
            Ok(())
        }
        ExprForm::True | ExprForm::False => {
            *told = from_verdict(Verdict::Has(Kind::Bool), true);
            Ok(())
        }
        ExprForm::Number(_) => {
            *told = from_verdict(Verdict::Has(Kind::Int), true);
            Ok(())
        }
        ExprForm::Named(x) => {
            *told = told_of_name(view, x);
            Ok(())
        }
        ExprForm::Not(a) => {
            gather(view, a, told, found)?;
            *told = from_verdict(of_not(told.kind), told.constant);
            Ok(())
        }
        ExprForm::Minus(a) => {
            gather(view, a, told, found)?;
            *told = from_verdict(of_minus(told.kind), told.constant);
            Ok(())
        }
        ExprForm::Pre(a) | ExprForm::Current(a) => {
            let number = found.len();
            found.push(Kind::Bool)?;
            gather(view, a, told, found)?;
            put(number, told.kind, found);
            *told = from_verdict(of_memory(view.moves(), told.kind), false);
            Ok(())
        }
        ExprForm::If(a, b, c) => {
            gather(view, a, told, found)?;
            let first = *told;
            gather(view, b, told, found)?;
            let second = *told;
            gather(view, c, told, found)?;
            *told = told_of_three(first, second, *told);
            Ok(())
        }
        ExprForm::AtMostOne(es) => gather_at_most_one(view, es.as_slice(), told, found),
        ExprForm::Call(f, es) => gather_call(view, f, es.as_slice(), told, found),
    }
}

/// What is told of an operator between two operands.
fn told_of_two(moves: bool, op: Op, a: Told, b: Told) -> Told
    ensures kind { result.kind ≡ kind_in (two_of (binary_rule moves (a.constant || b.constant) op) a.kind b.kind) }
    ensures constant { result.constant ≡ stays_constant op a.constant b.constant }
{
    let scaled = is_either(a.constant, b.constant);
    let verdict = of_binary(moves, scaled, op, a.kind, b.kind);
    from_verdict(verdict, is_constant_by(op, a.constant, b.constant))
}

/// Whether one of two is constant.
fn is_either(a: bool, b: bool) -> bool
    ensures { result ≡ (a || b) }
{
    a || b
}

/// Whether an operator gives a constant, where these operands are or are not.
fn is_constant_by(op: Op, a: bool, b: bool) -> bool
    ensures { result ≡ stays_constant op a b }
{
    match op {
        Op::Arrow => false,
        _ => a && b,
    }
}

/// What is told of an `if`.
fn told_of_three(a: Told, b: Told, c: Told) -> Told
    ensures kind { result.kind ≡ kind_in (three_of if_rule a.kind b.kind c.kind) }
    ensures constant { result.constant ≡ (a.constant && (b.constant && c.constant)) }
{
    let constant = a.constant && (b.constant && c.constant);
    from_verdict(of_if(a.kind, b.kind, c.kind), constant)
}

/// What is told of a `when` on the flow of a name.
fn told_of_when(view: &View, a: Told, clock: &Text) -> Told
    ensures kind { result.kind ≡ kind_in (when_of (scope_of view.now).moves a.kind ((scope_of view.now).clock clock.now)) }
    ensures constant { result.constant ≡ false }
{
    from_verdict(of_when(view.moves(), a.kind, view.clock(clock)), false)
}

/// What is told of a name.
fn told_of_name(view: &View, name: &Text) -> Told
    ensures kind { result.kind ≡ kind_in (form_verdict (scope_of view.now) (Named name.now)) }
    ensures constant { result.constant ≡ is_constant_form (scope_of view.now) (Named name.now) }
{
    from_verdict(of_name(view.kind(name)), view.is_fixed(name))
}

/// Puts a type in the place of the one with a number; `Bool` where there is none.
#[tactic(auto, using(crate::proofs::PutKinds::put_between, crate::proofs::PutKinds::there))]
fn put(number: usize, one: Option<Kind>, found: &mut Many<Kind>)
    ensures { (before after : List AnyKind) (k : AnyKind) → number ≡ length before → found.old ≡ before ++ k ∷ after
        → found.new ≡ before ++ unwrap_or one kind.Bool ∷ after }
{
    if number < found.len() {
        found.set(number, one.unwrap_or(Kind::Bool));
    }
}

/// Those of the operands of `#`.
#[cycle(gather)]
fn gather_at_most_one(
    view: &View,
    es: &[Expr],
    told: &mut Told,
    found: &mut Many<Kind>,
) -> Result<(), Memory>
    ensures kind { OnOk result (told.new.kind ≡ kind_in (form_verdict (scope_of view.now) (AtMostOne (trees (map tree_of es.now))))) }
    ensures constant { OnOk result (told.new.constant ≡ is_constant_form (scope_of view.now) (AtMostOne (trees (map tree_of es.now)))) }
    ensures found { OnOk result (found.new ≡ found.old ++ delayed_in_all (scope_of view.now) (trees (map tree_of es.now))) }
{
    let all = gather_all(view, &[], es, found)?;
    *told = from_verdict(of_at_most_one(all.typed, all.boolean), all.constant);
    Ok(())
}

/// Those of the arguments of a call.
#[cycle(gather)]
fn gather_call(
    view: &View,
    name: &Text,
    es: &[Expr],
    told: &mut Told,
    found: &mut Many<Kind>,
) -> Result<(), Memory>
    ensures kind { OnOk result (told.new.kind ≡ kind_in (form_verdict (scope_of view.now) (Call name.now (trees (map tree_of es.now))))) }
    ensures constant { OnOk result (told.new.constant ≡ is_constant_form (scope_of view.now) (Call name.now (trees (map tree_of es.now)))) }
    ensures found { OnOk result (found.new ≡ found.old ++ delayed_in_all (scope_of view.now) (trees (map tree_of es.now))) }
{
    let arguments = gather_all(view, wanted_by(view, name), es, found)?;
    *told = from_verdict(of_call(view.moves(), view.callee(name), &arguments), false);
    Ok(())
}

/// Adds those of some expressions, where these types are wanted, and answers what is found of them together.
#[cycle(gather)]
fn gather_all(
    view: &View,
    wanted: &[Kind],
    es: &[Expr],
    found: &mut Many<Kind>,
) -> Result<Operands, Memory>
    ensures typed { IfOk result (λ o. o.typed ≡ all_typed (kinds_of_all (scope_of view.now) (trees (map tree_of es.now)))) }
    ensures boolean { IfOk result (λ o. o.boolean ≡ all_suit kind.Bool (kinds_of_all (scope_of view.now) (trees (map tree_of es.now)))) }
    ensures constant { IfOk result (λ o. o.constant ≡ are_constant (scope_of view.now) (trees (map tree_of es.now))) }
    ensures fit { IfOk result (λ o. o.fit ≡ fit wanted.now (kinds_of_all (scope_of view.now) (trees (map tree_of es.now)))) }
    ensures found { OnOk result (found.new ≡ found.old ++ delayed_in_all (scope_of view.now) (trees (map tree_of es.now))) }
{
    let mut together = Operands {
        typed: true,
        boolean: true,
        constant: true,
        fit: true,
        count: 0,
        fault: None,
    };
    let mut one = nothing_told();
    for e in es {
        gather(view, e, &mut one, found)?;
        together = one_more(wanted, together, judged(one));
    }
    Ok(whole(wanted, together))
}

/// What is told, as what is found of an expression without a fault.
fn judged(one: Told) -> Judged
    ensures verdict { kind_in result.verdict ≡ one.kind }
    ensures constant { result.constant ≡ one.constant }
{
    Judged {
        verdict: of_name(one.kind),
        constant: one.constant,
        fault: None,
    }
}
