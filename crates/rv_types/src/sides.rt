//! The rules of types of equations, assertions and declared clocks.

ghost use Rattle.std.specs.Prelude.{◌≡◌, ◌+◌, ◌<◌, ◌&&◌, ℕ, map, flat_map, ◌∷◌, [], length, slice_get, nat_le};
ghost use Rattle.rv_tree.specs.declared.tree.Decl.{Decl as AnyDecl};
ghost use Rattle.rv_tree.specs.Tree.{tree_of, trees, equation_tree, assertion_tree, node_tree};
ghost use Rattle.rv_types.specs.Earliest.{first};
ghost use Rattle.rv_types.specs.NodeTypes.{clash_where, called_types, plain_types, lefts_by, sides_by, equation_by, assertion_by, local_by, types_by};
ghost use Rattle.rv_types.specs.Scopes.{sides_clash, several_types};
ghost use Rattle.rv_types.specs.Tables.{scope_of, suits_at};
ghost use Rattle.rv_types.specs.Types.{fit};

use crate::fault::NameFault;
use crate::first::sooner_of;
use crate::groups::goes_on;
use crate::rules::clash_of;
use crate::typed::Kind;
use crate::typing::{is_suited_at, judge, judge_all};
use crate::view::{View, takes_of};
use rv_base::Text;
use rv_tree::{Assertion, Decl, Decls, Equation, Expr, ExprForm, Name, Node};

/// The clash of two sides.
fn sides_fault(at: u32, left: Option<Kind>, right: Option<Kind>) -> Option<NameFault>
    ensures { result ≡ first (sides_clash at left right) }
{
    match left {
        None => None,
        Some(left) => clash_of(at, left, right),
    }
}

fn clash_if(at: u32, broken: bool) -> Option<NameFault>
    ensures { result ≡ first (clash_where at broken) }
{
    if broken {
        Some(NameFault::TypeClash(at))
    } else {
        None
    }
}

fn still_fits(so_far: bool, wanted: &[Kind], number: usize, found: Option<Kind>) -> bool
    ensures { result ≡ (so_far && suits_at wanted.now number found) }
{
    so_far && is_suited_at(wanted, number, found)
}

fn fits_whole(so_far: bool, wanted: &[Kind], count: usize) -> bool
    ensures { result ≡ (so_far && nat_le (length wanted.now) count) }
{
    so_far && wanted.len() <= count
}

/// Whether left sides have these types, and are as many.
fn fit_lefts(view: &View, wanted: &[Kind], lefts: &[Name]) -> bool
    ensures { result ≡ fit wanted.now (lefts_by (scope_of view.now) lefts.now) }
{
    let mut fit = true;
    let mut count = 0;
    for x in lefts {
        fit = still_fits(fit, wanted, count, view.clock(&x.text));
        count += 1;
    }
    fits_whole(fit, wanted, count)
}

/// A call whose outputs several left sides are.
fn call_sides(
    view: &View,
    lefts: &[Name],
    at: u32,
    name: &Text,
    arguments: &[Expr],
) -> Option<NameFault>
    ensures { result ≡ first (called_types (scope_of view.now) (lefts_by (scope_of view.now) lefts.now) at name.now (trees (map tree_of arguments.now))) }
{
    let signature = view.callee(name);
    let found = judge_all(view, takes_of(signature), arguments);
    let clash = match signature {
        None => None,
        Some(signature) => {
            let fits = found.fit && fit_lefts(view, signature.gives(), lefts);
            clash_if(at, found.typed && !fits)
        }
    };
    sooner_of(found.fault, clash)
}

/// No call, where a call is wanted.
fn plain_sides(view: &View, e: &Expr) -> Option<NameFault>
    ensures { result ≡ first (plain_types (scope_of view.now) (tree_of e.now)) }
{
    let right = judge(view, e);
    sooner_of(right.fault, clash_if(e.at, right.kind().is_some()))
}

/// An equation with no left side, or several.
fn several_sides(view: &View, lefts: &[Name], e: &Expr) -> Option<NameFault>
    ensures { result ≡ first (several_types (scope_of view.now) (lefts_by (scope_of view.now) lefts.now) (tree_of e.now)) }
{
    match &e.form {
        ExprForm::Call(name, arguments) => {
            call_sides(view, lefts, e.at, name, arguments.as_slice())
        }
        _ => plain_sides(view, e),
    }
}

fn two_sides(view: &View, left: &Name, e: &Expr) -> Option<NameFault>
    ensures { result ≡ first (sides_by (scope_of view.now) (left.now ∷ []) (tree_of e.now)) }
{
    let right = judge(view, e);
    let clash = sides_fault(e.at, view.clock(&left.text), right.kind());
    sooner_of(right.fault, clash)
}

fn equation_fault(view: &View, q: &Equation) -> Option<NameFault>
    ensures { result ≡ first (equation_by (scope_of view.now) (equation_tree q.now)) }
{
    match q.lefts.as_slice() {
        [left] => two_sides(view, left, &q.right),
        lefts => several_sides(view, lefts, &q.right),
    }
}

fn equations_fault(view: &View, equations: &[Equation]) -> Option<NameFault>
    ensures { result ≡ first (flat_map (equation_by (scope_of view.now)) (map equation_tree equations.now)) }
{
    let mut fault = None;
    for q in equations {
        fault = sooner_of(fault, equation_fault(view, q));
    }
    fault
}

fn assertion_fault(view: &View, a: &Assertion) -> Option<NameFault>
    ensures { result ≡ first (assertion_by (scope_of view.now) (assertion_tree a.now)) }
{
    let body = judge(view, &a.body);
    sooner_of(body.fault, clash_of(a.body.at, Kind::Bool, body.kind()))
}

fn assertions_fault(view: &View, assertions: &[Assertion]) -> Option<NameFault>
    ensures { result ≡ first (flat_map (assertion_by (scope_of view.now)) (map assertion_tree assertions.now)) }
{
    let mut fault = None;
    for a in assertions {
        fault = sooner_of(fault, assertion_fault(view, a));
    }
    fault
}

fn local_fault(view: &View, d: &Decl) -> Option<NameFault>
    ensures { result ≡ first (local_by (scope_of view.now) d.now) }
{
    match &d.clock {
        None => None,
        Some(clock) => clash_of(clock.at, Kind::Bool, view.clock(&clock.text)),
    }
}

/// The clash of a local's clock, which is that of the local before it where both stand in one group.
fn local_fault_in(
    view: &View,
    locals: &Decls,
    index: usize,
    before: Option<NameFault>,
) -> Option<NameFault>
    requires within { index < length locals.now }
    requires before { (k : ℕ) (d : AnyDecl) → k + 1 ≡ index → slice_get locals.now k ≡ Some d → before ≡ first (local_by (scope_of view.now) d) }
    ensures { (d : AnyDecl) → slice_get locals.now index ≡ Some d → result ≡ first (local_by (scope_of view.now) d) }
{
    if goes_on(locals, index) {
        before
    } else {
        local_fault(view, locals.at(index))
    }
}

fn locals_fault(view: &View, locals: &Decls) -> Option<NameFault>
    ensures { result ≡ first (flat_map (local_by (scope_of view.now)) locals.now) }
{
    let mut fault = None;
    let mut own = None;
    for index in 0..locals.len() {
        own = local_fault_in(view, locals, index, own);
        fault = sooner_of(fault, own);
    }
    fault
}

/// The first fault of types in a node.
pub fn type_fault(view: &View, node: &Node) -> Option<NameFault>
    ensures { result ≡ first (types_by (scope_of view.now) (node_tree node.now)) }
{
    let clocks = locals_fault(view, &node.locals);
    let equations = equations_fault(view, node.equations.as_slice());
    let assertions = assertions_fault(view, node.assertions.as_slice());
    sooner_of(clocks, sooner_of(equations, assertions))
}
