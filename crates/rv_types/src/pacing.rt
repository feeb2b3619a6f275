//! The clocks of expressions, and the first fault among them, in one walk.

ghost use Rattle.std.specs.Prelude.{◌≡◌, ◌++◌, List, map};
ghost use Rattle.rv_tree.specs.Tree.{tree_of, trees, node_tree};
ghost use Rattle.rv_tree.specs.Places.{site_of};
ghost use Rattle.rv_types.specs.Clocks as clocking;
ghost use Rattle.rv_types.specs.Clocks.{same_clock, seen, grounded, meet, clash_in, expression_clocks, own_clash};
ghost use Rattle.rv_types.specs.Parts.{faults_of_all};
ghost use Rattle.rv_types.specs.Earliest.{first, sooner};
ghost use Rattle.rv_types.specs.declared.fault.NameFault.{NameFault};

use crate::fault::{NameFault, Pace};
use crate::first::sooner_of;
use crate::timing::Timing;
use crate::typed::Clock;
use rv_base::Text;
use rv_tree::{Expr, ExprForm, Op};

/// What is found of an expression: its pace, and the first fault of clocks in it.
#[derive(Clone, Copy, Debug)]
pub struct Paced {
    pub pace: Pace,
    pub fault: Option<NameFault>,
}

fn is_same(c: Clock, d: Clock) -> bool
    ensures { result ≡ same_clock c d }
{
    match c {
        Clock::Base => matches!(d, Clock::Base),
        Clock::On(i) => match d {
            Clock::Base => false,
            Clock::On(j) => i == j,
        },
    }
}

/// A pace as what has the expression as a part sees it.
pub fn as_seen(p: Pace) -> Pace
    ensures { result ≡ seen p }
{
    match p {
        Pace::Free => Pace::Free,
        Pace::At(c) => Pace::At(c),
        _ => Pace::Mute,
    }
}

/// What is free stands on the base clock.
pub fn on_ground(p: Pace) -> Pace
    ensures { result ≡ grounded p }
{
    match p {
        Pace::Free => Pace::At(Clock::Base),
        _ => p,
    }
}

/// The pace of two operands together.
pub fn met(p: Pace, q: Pace) -> Pace
    ensures { result ≡ meet p q }
{
    match (p, q) {
        (Pace::Mute, _) | (_, Pace::Mute) => Pace::Mute,
        (Pace::Differ, _) | (_, Pace::Differ) => Pace::Differ,
        (Pace::Free, _) => q,
        (_, Pace::Free) => p,
        (Pace::At(c), Pace::At(d)) => { if is_same(c, d) { p } else { Pace::Differ } }
    }
}

/// The fault of a pace at an offset.
pub fn clash_of(at: u32, p: Pace) -> Option<NameFault>
    ensures { result ≡ first (clash_in at p) }
{
    match p {
        Pace::Differ => Some(NameFault::ClockClash(at)),
        _ => None,
    }
}

/// What is found of an expression from its own pace and the first fault of its parts.
#[inline(never)]
fn made(at: u32, pace: Pace, below: Option<NameFault>) -> Paced
    ensures pace { result.pace ≡ pace }
    ensures fault { (faults : List NameFault) → below ≡ first faults → result.fault ≡ first (clash_in at pace ++ faults) }
{
    Paced {
        pace,
        fault: sooner_of(clash_of(at, pace), below),
    }
}

/// The pace of a name.
pub fn pace_of_name(timing: &Timing, name: &Text) -> Pace
    ensures { result ≡ clocking.name_pace (node_tree timing.now.node.now) name.now }
{
    if timing.is_flow(name) {
        Pace::At(timing.clock_at(timing.site(name)))
    } else {
        Pace::Free
    }
}

/// The pace of `when` a flow.
pub fn of_when(timing: &Timing, p: Pace, clock: &Text) -> Pace
    ensures { result ≡ clocking.when_pace (node_tree timing.now.node.now) p (site_of (node_tree timing.now.node.now) clock.now) }
{
    let site = timing.site(clock);
    match met(p, Pace::At(timing.clock_at(site))) {
        Pace::Free | Pace::At(_) => Pace::At(Clock::On(site)),
        Pace::Mute => Pace::Mute,
        Pace::Differ => Pace::Differ,
    }
}

/// The pace of `current`.
pub fn of_current(timing: &Timing, p: Pace) -> Pace
    ensures { result ≡ clocking.current_pace (node_tree timing.now.node.now) p }
{
    match p {
        Pace::Free | Pace::At(Clock::Base) => Pace::Differ,
        Pace::At(Clock::On(site)) => Pace::At(timing.clock_at(site)),
        Pace::Mute | Pace::Differ => Pace::Mute,
    }
}

/// The pace of an operator between two operands.
pub fn of_binary(op: Op, p: Pace, q: Pace) -> Pace
    ensures { result ≡ clocking.binary_pace op p q }
{
    match op {
        Op::Arrow => on_ground(met(p, q)),
        _ => met(p, q),
    }
}

#[inline(never)]
fn made_name(timing: &Timing, at: u32, name: &Text) -> Paced
    ensures pace { result.pace ≡ clocking.name_pace (node_tree timing.now.node.now) name.now }
    ensures fault { result.fault ≡ first (clash_in at (clocking.name_pace (node_tree timing.now.node.now) name.now)) }
{
    made(at, pace_of_name(timing, name), None)
}

/// An operator between two operands, of what is found of them.
#[inline(never)]
fn made_binary(at: u32, op: Op, a: &Paced, b: &Paced) -> Paced
    ensures pace { result.pace ≡ clocking.binary_pace op (seen a.now.pace) (seen b.now.pace) }
    ensures fault { (xs ys : List NameFault) → a.now.fault ≡ first xs → b.now.fault ≡ first ys
        → result.fault ≡ first (clash_in at (clocking.binary_pace op (seen a.now.pace) (seen b.now.pace)) ++ (xs ++ ys)) }
{
    let pace = of_binary(op, as_seen(a.pace), as_seen(b.pace));
    made(at, pace, sooner_of(a.fault, b.fault))
}

/// `if`, of what is found of its parts.
#[inline(never)]
fn made_if(at: u32, a: &Paced, b: &Paced, c: &Paced) -> Paced
    ensures pace { result.pace ≡ meet (seen a.now.pace) (meet (seen b.now.pace) (seen c.now.pace)) }
    ensures fault { (xs ys zs : List NameFault) → a.now.fault ≡ first xs → b.now.fault ≡ first ys → c.now.fault ≡ first zs
        → result.fault ≡ first (clash_in at (meet (seen a.now.pace) (meet (seen b.now.pace) (seen c.now.pace))) ++ (xs ++ (ys ++ zs))) }
{
    let pace = met(as_seen(a.pace), met(as_seen(b.pace), as_seen(c.pace)));
    made(at, pace, sooner_of(a.fault, sooner_of(b.fault, c.fault)))
}

/// `when`, of what is found of its operand.
#[inline(never)]
fn made_when(timing: &Timing, at: u32, a: &Paced, clock: &Text) -> Paced
    ensures pace { result.pace ≡ clocking.when_pace (node_tree timing.now.node.now) (seen a.now.pace) (site_of (node_tree timing.now.node.now) clock.now) }
    ensures fault { (xs : List NameFault) → a.now.fault ≡ first xs → result.fault ≡ first
        (clash_in at (clocking.when_pace (node_tree timing.now.node.now) (seen a.now.pace) (site_of (node_tree timing.now.node.now) clock.now)) ++ xs) }
{
    made(at, of_when(timing, as_seen(a.pace), clock), a.fault)
}

/// The pace of an expression, and the first fault of clocks in it.
///
/// A text nested 200 deep may give a tree of 20,101 levels, all but 200 of them left operands and operands of `when`.
/// So little else stands in the frame of this function.
#[cycle(pace)]
pub fn pace_of(timing: &Timing, e: &Expr) -> Paced
    ensures pace { result.pace ≡ clocking.pace (node_tree timing.now.node.now) (tree_of e.now) }
    ensures fault { result.fault ≡ first (expression_clocks (node_tree timing.now.node.now) (tree_of e.now)) }
{
    match &e.form {
        ExprForm::Binary(op, a, b) => {
            let a = pace_of(timing, a);
            let b = pace_of(timing, b);
            made_binary(e.at, *op, &a, &b)
        }
        ExprForm::When(a, c) => {
            let a = pace_of(timing, a);
            made_when(timing, e.at, &a, &c.text)
        }
        ExprForm::True | ExprForm::False | ExprForm::Number(_) => made(e.at, Pace::Free, None),
        ExprForm::Named(x) => made_name(timing, e.at, x),
        ExprForm::Not(a) | ExprForm::Minus(a) => pace_of_kept(timing, e.at, a),
        ExprForm::Pre(a) => pace_of_pre(timing, e.at, a),
        ExprForm::Current(a) => pace_of_current(timing, e.at, a),
        ExprForm::If(a, b, c) => {
            let a = pace_of(timing, a);
            let b = pace_of(timing, b);
            let c = pace_of(timing, c);
            made_if(e.at, &a, &b, &c)
        }
        ExprForm::AtMostOne(es) => pace_of_operands(timing, e.at, es.as_slice()),
        ExprForm::Call(_, es) => pace_of_call(timing, e.at, es.as_slice()),
    }
}

/// An operator that keeps the clock of its operand.
#[cycle(pace)]
#[inline(never)]
fn pace_of_kept(timing: &Timing, at: u32, a: &Expr) -> Paced
    ensures pace { result.pace ≡ seen (clocking.pace (node_tree timing.now.node.now) (tree_of a.now)) }
    ensures fault { result.fault ≡ first (clash_in at (seen (clocking.pace (node_tree timing.now.node.now) (tree_of a.now)))
        ++ expression_clocks (node_tree timing.now.node.now) (tree_of a.now)) }
{
    let a = pace_of(timing, a);
    made(at, as_seen(a.pace), a.fault)
}

/// `pre`.
#[cycle(pace)]
#[inline(never)]
fn pace_of_pre(timing: &Timing, at: u32, a: &Expr) -> Paced
    ensures pace { result.pace ≡ grounded (seen (clocking.pace (node_tree timing.now.node.now) (tree_of a.now))) }
    ensures fault { result.fault ≡ first (clash_in at (grounded (seen (clocking.pace (node_tree timing.now.node.now) (tree_of a.now))))
        ++ expression_clocks (node_tree timing.now.node.now) (tree_of a.now)) }
{
    let a = pace_of(timing, a);
    made(at, on_ground(as_seen(a.pace)), a.fault)
}

/// `current`.
#[cycle(pace)]
#[inline(never)]
fn pace_of_current(timing: &Timing, at: u32, a: &Expr) -> Paced
    ensures pace { result.pace ≡ clocking.current_pace (node_tree timing.now.node.now) (seen (clocking.pace (node_tree timing.now.node.now) (tree_of a.now))) }
    ensures fault { result.fault ≡ first (clash_in at (clocking.current_pace (node_tree timing.now.node.now)
        (seen (clocking.pace (node_tree timing.now.node.now) (tree_of a.now)))) ++ expression_clocks (node_tree timing.now.node.now) (tree_of a.now)) }
{
    let a = pace_of(timing, a);
    made(at, of_current(timing, as_seen(a.pace)), a.fault)
}

/// `#`.
#[cycle(pace)]
#[inline(never)]
fn pace_of_operands(timing: &Timing, at: u32, es: &[Expr]) -> Paced
    ensures pace { result.pace ≡ clocking.pace_of_all (node_tree timing.now.node.now) (trees (map tree_of es.now)) }
    ensures fault { result.fault ≡ first (clash_in at (clocking.pace_of_all (node_tree timing.now.node.now) (trees (map tree_of es.now)))
        ++ faults_of_all (own_clash (node_tree timing.now.node.now)) (trees (map tree_of es.now))) }
{
    let all = pace_of_all(timing, es);
    made(at, all.pace, all.fault)
}

/// A call.
#[cycle(pace)]
#[inline(never)]
fn pace_of_call(timing: &Timing, at: u32, es: &[Expr]) -> Paced
    ensures pace { result.pace ≡ grounded (clocking.pace_of_all (node_tree timing.now.node.now) (trees (map tree_of es.now))) }
    ensures fault { result.fault ≡ first (clash_in at (grounded (clocking.pace_of_all (node_tree timing.now.node.now) (trees (map tree_of es.now))))
        ++ faults_of_all (own_clash (node_tree timing.now.node.now)) (trees (map tree_of es.now))) }
{
    let all = pace_of_all(timing, es);
    made(at, on_ground(all.pace), all.fault)
}

fn one_more(so_far: Paced, one: Paced) -> Paced
    ensures pace { result.pace ≡ meet so_far.pace (seen one.pace) }
    ensures fault { result.fault ≡ sooner so_far.fault one.fault }
{
    Paced {
        pace: met(so_far.pace, as_seen(one.pace)),
        fault: sooner_of(so_far.fault, one.fault),
    }
}

/// The pace of operands or arguments together.
#[tactic(auto, using(crate::proofs::Joined::sooner_none, crate::proofs::Meeting::meet_free))]
#[cycle(pace)]
pub fn pace_of_all(timing: &Timing, es: &[Expr]) -> Paced
    ensures pace { result.pace ≡ clocking.pace_of_all (node_tree timing.now.node.now) (trees (map tree_of es.now)) }
    ensures fault { result.fault ≡ first (faults_of_all (own_clash (node_tree timing.now.node.now)) (trees (map tree_of es.now))) }
{
    let mut found = Paced {
        pace: Pace::Free,
        fault: None,
    };
    for e in es {
        let one = pace_of(timing, e);
        found = one_more(found, one);
    }
    found
}
