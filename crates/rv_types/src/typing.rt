//! The types of expressions, and the first fault among them, in one walk.

ghost use Rattle.std.specs.Prelude.{◌≡◌, ◌||◌, ◌&&◌, ◌++◌, ◌+◌, ◌<◌, List, Option, map, [], true, false, is_some, length, nat_le, ◌^◌};
ghost use Rattle.std.specs.Option.{option_copied};
ghost use Rattle.rv_tree.specs.Tree.{tree_of, trees};
ghost use Rattle.rv_types.specs.Types.{verdict, is_constant, is_constant_form, are_constant, form_verdict, when_of, expression_types, own_type_fault};
ghost use Rattle.rv_types.specs.Types.{kinds_of_all, all_typed, all_suit, fit, suits, kind_in, fault_in, two_of, three_of, binary_rule, if_rule, call_of};
ghost use Rattle.rv_types.specs.Parts.{faults_of_all, faults_below};
ghost use Rattle.rv_tree.specs.Tree.{Named, Not, Minus, Pre, AtMostOne, Call};
ghost use Rattle.rv_types.specs.Tables.{scope_of, takes_in, suits_at, stays_constant};
ghost use Rattle.rv_types.specs.Earliest.{first, sooner};
ghost use Rattle.rv_types.specs.declared.fault.NameFault.{NameFault};
ghost use Rattle.rv_types.specs.declared.typed.Kind.{Kind as AnyKind};
ghost use Rattle.rv_types.specs.declared.typed.Kind.TheVariants as kind;

use crate::fault::{NameFault, Verdict};
use crate::first::sooner_of;
use crate::rules::{
    fault_of_verdict, is_suited, kind_of_verdict, of_at_most_one, of_binary, of_if, of_memory,
    of_minus, of_name, of_not, of_outputs, of_when,
};
use crate::typed::Kind;
use crate::view::{Signature, View, takes_of};
use rv_base::Text;
use rv_tree::{Expr, ExprForm, Op};

/// What is found of an expression: its verdict, whether it is constant, and the first fault in it.
#[derive(Clone, Copy, Debug)]
pub struct Judged {
    pub verdict: Verdict,
    pub constant: bool,
    pub fault: Option<NameFault>,
}

impl Judged {
    /// The type, where it has one.
    pub fn kind(&self) -> Option<Kind>
        ensures { result ≡ kind_in self.now.verdict }
    {
        kind_of_verdict(self.verdict)
    }
}

/// What is found of operands or arguments together.
#[derive(Clone, Copy, Debug)]
pub struct Operands {
    /// Whether each has a type.
    pub typed: bool,
    /// Whether each that has a type is Boolean.
    pub boolean: bool,
    /// Whether each is constant.
    pub constant: bool,
    /// Whether there are as many as types are wanted, each of its type where it has one.
    pub fit: bool,
    /// How many there are.
    pub count: usize,
    /// The first fault in them.
    pub fault: Option<NameFault>,
}

/// What is found of an expression from its own verdict and the first fault of its parts.
#[inline(never)]
fn made(at: u32, verdict: Verdict, constant: bool, below: Option<NameFault>) -> Judged
    ensures verdict { result.verdict ≡ verdict }
    ensures constant { result.constant ≡ constant }
    ensures fault { (faults : List NameFault) → below ≡ first faults → result.fault ≡ first (fault_in at verdict ++ faults) }
{
    Judged {
        verdict,
        constant,
        fault: sooner_of(fault_of_verdict(at, verdict), below),
    }
}

#[inline(never)]
fn made_binary(at: u32, moves: bool, op: Op, a: &Judged, b: &Judged) -> Judged
    ensures verdict { result.verdict ≡ two_of (binary_rule moves (a.now.constant || b.now.constant) op) (kind_in a.now.verdict) (kind_in b.now.verdict) }
    ensures constant { result.constant ≡ stays_constant op a.now.constant b.now.constant }
    ensures fault { (xs ys : List NameFault) → a.now.fault ≡ first xs → b.now.fault ≡ first ys
        → result.fault ≡ first (fault_in at result.verdict ++ (xs ++ ys)) }
{
    let scaled = a.constant || b.constant;
    let constant = match op {
        Op::Arrow => false,
        _ => a.constant && b.constant,
    };
    let verdict = of_binary(moves, scaled, op, a.kind(), b.kind());
    made(at, verdict, constant, sooner_of(a.fault, b.fault))
}

#[inline(never)]
fn made_if(at: u32, a: &Judged, b: &Judged, c: &Judged) -> Judged
    ensures verdict { result.verdict ≡ three_of if_rule (kind_in a.now.verdict) (kind_in b.now.verdict) (kind_in c.now.verdict) }
    ensures constant { result.constant ≡ (a.now.constant && (b.now.constant && c.now.constant)) }
    ensures fault { (xs ys zs : List NameFault) → a.now.fault ≡ first xs → b.now.fault ≡ first ys → c.now.fault ≡ first zs
        → result.fault ≡ first (fault_in at result.verdict ++ (xs ++ (ys ++ zs))) }
{
    let verdict = of_if(a.kind(), b.kind(), c.kind());
    let constant = a.constant && (b.constant && c.constant);
    made(
        at,
        verdict,
        constant,
        sooner_of(a.fault, sooner_of(b.fault, c.fault)),
    )
}

/// The rule of a call, of what is found of its arguments. In a constant it always clashes.
pub fn of_call(moves: bool, signature: Option<&Signature>, arguments: &Operands) -> Verdict
    ensures { (ks : List (Option AnyKind)) → arguments.now.typed ≡ all_typed ks → arguments.now.fit ≡ fit (takes_in (option_copied signature.entry)) ks
        → result ≡ call_of moves (option_copied signature.entry) ks }
{
    if !moves {
        return if arguments.typed {
            Verdict::Clashes
        } else {
            Verdict::Silent
        };
    }
    match signature {
        None => Verdict::Silent,
        Some(signature) => {
            if !arguments.typed {
                Verdict::Silent
            } else if arguments.fit {
                of_outputs(signature.gives())
            } else {
                Verdict::Clashes
            }
        }
    }
}

#[inline(never)]
fn made_call(at: u32, view: &View, name: &Text, arguments: &Operands) -> Judged
    ensures constant { result.constant ≡ false }
    ensures verdict { (ks : List (Option AnyKind)) → arguments.now.typed ≡ all_typed ks
        → arguments.now.fit ≡ fit (takes_in ((scope_of view.now).callee name.now)) ks
        → result.verdict ≡ call_of (scope_of view.now).moves ((scope_of view.now).callee name.now) ks }
    ensures fault { (xs : List NameFault) → arguments.now.fault ≡ first xs → result.fault ≡ first (fault_in at result.verdict ++ xs) }
{
    let verdict = of_call(view.moves(), view.callee(name), arguments);
    made(at, verdict, false, arguments.fault)
}

/// The types that the node of a name takes.
pub(crate) fn wanted_by<'a>(view: &View<'a>, name: &Text) -> &'a [Kind]
    ensures { result.now ≡ takes_in ((scope_of view.now).callee name.now) }
{
    takes_of(view.callee(name))
}

#[inline(never)]
fn made_literal(kind: Kind) -> Judged
    ensures verdict { result.verdict ≡ Verdict.Has kind }
    ensures constant { result.constant ≡ true }
    ensures fault { result.fault ≡ None }
{
    Judged {
        verdict: Verdict::Has(kind),
        constant: true,
        fault: None,
    }
}

#[inline(never)]
fn made_name(view: &View, at: u32, name: &Text) -> Judged
    ensures verdict { result.verdict ≡ form_verdict (scope_of view.now) (Named name.now) }
    ensures constant { result.constant ≡ is_constant_form (scope_of view.now) (Named name.now) }
    ensures fault { result.fault ≡ first (fault_in at result.verdict ++ faults_below (own_type_fault (scope_of view.now)) (Named name.now)) }
{
    made(at, of_name(view.kind(name)), view.is_fixed(name), None)
}

#[inline(never)]
fn made_when(view: &View, at: u32, a: &Judged, clock: &Text) -> Judged
    ensures verdict { result.verdict ≡ when_of (scope_of view.now).moves (kind_in a.now.verdict) ((scope_of view.now).clock clock.now) }
    ensures constant { result.constant ≡ false }
    ensures fault { (xs : List NameFault) → a.now.fault ≡ first xs → result.fault ≡ first (fault_in at result.verdict ++ xs) }
{
    let verdict = of_when(view.moves(), a.kind(), view.clock(clock));
    made(at, verdict, false, a.fault)
}

#[cycle(judge)]
#[inline(never)]
fn judge_not(view: &View, at: u32, a: &Expr) -> Judged
    ensures verdict { result.verdict ≡ form_verdict (scope_of view.now) (Not (tree_of a.now)) }
    ensures constant { result.constant ≡ is_constant_form (scope_of view.now) (Not (tree_of a.now)) }
    ensures fault { result.fault ≡ first (fault_in at result.verdict ++ faults_below (own_type_fault (scope_of view.now)) (Not (tree_of a.now))) }
{
    let a = judge(view, a);
    made(at, of_not(a.kind()), a.constant, a.fault)
}

#[cycle(judge)]
#[inline(never)]
fn judge_minus(view: &View, at: u32, a: &Expr) -> Judged
    ensures verdict { result.verdict ≡ form_verdict (scope_of view.now) (Minus (tree_of a.now)) }
    ensures constant { result.constant ≡ is_constant_form (scope_of view.now) (Minus (tree_of a.now)) }
    ensures fault { result.fault ≡ first (fault_in at result.verdict ++ faults_below (own_type_fault (scope_of view.now)) (Minus (tree_of a.now))) }
{
    let a = judge(view, a);
    made(at, of_minus(a.kind()), a.constant, a.fault)
}

#[cycle(judge)]
#[inline(never)]
fn judge_memory(view: &View, at: u32, a: &Expr) -> Judged
    ensures verdict { result.verdict ≡ form_verdict (scope_of view.now) (Pre (tree_of a.now)) }
    ensures constant { result.constant ≡ is_constant_form (scope_of view.now) (Pre (tree_of a.now)) }
    ensures fault { result.fault ≡ first (fault_in at result.verdict ++ faults_below (own_type_fault (scope_of view.now)) (Pre (tree_of a.now))) }
{
    let a = judge(view, a);
    made(at, of_memory(view.moves(), a.kind()), false, a.fault)
}

#[cycle(judge)]
#[inline(never)]
fn judge_at_most_one(view: &View, at: u32, es: &[Expr]) -> Judged
    ensures verdict { result.verdict ≡ form_verdict (scope_of view.now) (AtMostOne (trees (map tree_of es.now))) }
    ensures constant { result.constant ≡ is_constant_form (scope_of view.now) (AtMostOne (trees (map tree_of es.now))) }
    ensures fault { result.fault ≡ first (fault_in at result.verdict ++ faults_below (own_type_fault (scope_of view.now))
        (AtMostOne (trees (map tree_of es.now)))) }
{
    let all = judge_all(view, &[], es);
    made(
        at,
        of_at_most_one(all.typed, all.boolean),
        all.constant,
        all.fault,
    )
}

#[cycle(judge)]
#[inline(never)]
fn judge_call(view: &View, at: u32, name: &Text, es: &[Expr]) -> Judged
    ensures verdict { result.verdict ≡ form_verdict (scope_of view.now) (Call name.now (trees (map tree_of es.now))) }
    ensures constant { result.constant ≡ is_constant_form (scope_of view.now) (Call name.now (trees (map tree_of es.now))) }
    ensures fault { result.fault ≡ first (fault_in at result.verdict ++ faults_below (own_type_fault (scope_of view.now))
        (Call name.now (trees (map tree_of es.now)))) }
{
    let arguments = judge_all(view, wanted_by(view, name), es);
    made_call(at, view, name, &arguments)
}

/// The verdict on an expression, whether it is constant, and the first fault of types in it.
///
/// A text nested 200 deep may give a tree of 20,101 levels, all but 200 of them left operands and operands of `when`.
/// So little else stands in the frame of this function.
#[cycle(judge)]
pub fn judge(view: &View, e: &Expr) -> Judged
    ensures verdict { result.verdict ≡ verdict (scope_of view.now) (tree_of e.now) }
    ensures constant { result.constant ≡ is_constant (scope_of view.now) (tree_of e.now) }
    ensures fault { result.fault ≡ first (expression_types (scope_of view.now) (tree_of e.now)) }
{
    match &e.form {
        ExprForm::Binary(op, a, b) => {
            let a = judge(view, a);
            let b = judge(view, b);
            made_binary(e.at, view.moves(), *op, &a, &b)
        }
        ExprForm::When(a, c) => {
            let a = judge(view, a);
            made_when(view, e.at, &a, &c.text)
        }
        ExprForm::True | ExprForm::False => made_literal(Kind::Bool),
        ExprForm::Number(_) => made_literal(Kind::Int),
        ExprForm::Named(x) => made_name(view, e.at, x),
        ExprForm::Not(a) => judge_not(view, e.at, a),
        ExprForm::Minus(a) => judge_minus(view, e.at, a),
        ExprForm::Pre(a) | ExprForm::Current(a) => judge_memory(view, e.at, a),
        ExprForm::If(a, b, c) => {
            let a = judge(view, a);
            let b = judge(view, b);
            let c = judge(view, c);
            made_if(e.at, &a, &b, &c)
        }
        ExprForm::AtMostOne(es) => judge_at_most_one(view, e.at, es.as_slice()),
        ExprForm::Call(f, es) => judge_call(view, e.at, f, es.as_slice()),
    }
}

pub fn is_suited_at(wanted: &[Kind], number: usize, found: Option<Kind>) -> bool
    ensures { result ≡ suits_at wanted.now number found }
{
    match wanted.get(number) {
        None => false,
        Some(kind) => is_suited(*kind, found),
    }
}

/// One more operand or argument.
#[inline(never)]
pub(crate) fn one_more(wanted: &[Kind], so_far: Operands, one: Judged) -> Operands
    requires { so_far.count < 2 ^ 63 }
    ensures typed { result.typed ≡ (so_far.typed && is_some (kind_in one.verdict)) }
    ensures boolean { result.boolean ≡ (so_far.boolean && suits kind.Bool (kind_in one.verdict)) }
    ensures constant { result.constant ≡ (so_far.constant && one.constant) }
    ensures fit { result.fit ≡ (so_far.fit && suits_at wanted.now so_far.count (kind_in one.verdict)) }
    ensures count { result.count ≡ so_far.count + 1 }
    ensures fault { result.fault ≡ sooner so_far.fault one.fault }
{
    let kind = one.kind();
    Operands {
        typed: so_far.typed && kind.is_some(),
        boolean: so_far.boolean && is_suited(Kind::Bool, kind),
        constant: so_far.constant && one.constant,
        fit: so_far.fit && is_suited_at(wanted, so_far.count, kind),
        count: so_far.count + 1,
        fault: sooner_of(so_far.fault, one.fault),
    }
}

/// What is found of operands or arguments, where these types are wanted.
#[cycle(judge)]
pub fn judge_all(view: &View, wanted: &[Kind], es: &[Expr]) -> Operands
    ensures typed { result.typed ≡ all_typed (kinds_of_all (scope_of view.now) (trees (map tree_of es.now))) }
    ensures boolean { result.boolean ≡ all_suit kind.Bool (kinds_of_all (scope_of view.now) (trees (map tree_of es.now))) }
    ensures constant { result.constant ≡ are_constant (scope_of view.now) (trees (map tree_of es.now)) }
    ensures fit { result.fit ≡ fit wanted.now (kinds_of_all (scope_of view.now) (trees (map tree_of es.now))) }
    ensures fault { result.fault ≡ first (faults_of_all (own_type_fault (scope_of view.now)) (trees (map tree_of es.now))) }
{
    let mut found = Operands {
        typed: true,
        boolean: true,
        constant: true,
        fit: true,
        count: 0,
        fault: None,
    };
    for e in es {
        let one = judge(view, e);
        found = one_more(wanted, found, one);
    }
    whole(wanted, found)
}

/// After the last argument no type may be left.
pub(crate) fn whole(wanted: &[Kind], found: Operands) -> Operands
    ensures { result ≡ record found { fit = found.fit && nat_le (length wanted.now) found.count } }
{
    Operands {
        typed: found.typed,
        boolean: found.boolean,
        constant: found.constant,
        fit: found.fit && wanted.len() <= found.count,
        count: found.count,
        fault: found.fault,
    }
}
