//! What stands in the expressions of nodes, with its clock: calls, `pre` and `current`, and operators, found by one walk.

ghost use Rattle.std.specs.Prelude.{◌≡◌, ◌++◌, ◌∷◌, [], List, length, map, flat_map, unwrap_or, IfOk, OnOk};
ghost use Rattle.rv_tree.specs.Delays.{delays, delays_of_all, delays_in_equations, delays_in_assertions};
ghost use Rattle.rv_tree.specs.Tree.{tree_of, trees, node_tree, equation_tree, assertion_tree};
ghost use Rattle.rv_types.specs.Clocks.{pace, pace_of_all, current_pace, seen, grounded, meet};
ghost use Rattle.rv_types.specs.Instances.{calls_in, calls_in_all, calls_in_equations, calls_in_assertions, clock_of_args, taken};
ghost use Rattle.rv_types.specs.declared.typed.Clock.TheVariants.{Base as OnBase};
ghost use Rattle.rv_instances.specs.Expanded.{ToldCall, told, call_told, calls_told, AreTold};
ghost use Rattle.rv_instances.specs.NumberedNeeds.{clock_of_expression};
ghost use Rattle.rv_instances.specs.Timed.{ToldDelay, delay_listed, delay_told, delays_told};
ghost use Rattle.rv_instances.specs.Timed.{ToldOperator, operator_listed, operators_in, operators_of_all, operators_told};

use rv_base::{Many, Memory, Text};
use rv_tree::{Assertion, Equation, Expr, ExprForm, Op};
use rv_types::{
    Clock, NodeClocks, Pace, called_pace, choice_pace, delayed_pace, joined_pace, kept_pace,
    operator_pace,
};
use std::alloc::Global;

/// A call of a node: its site, the name of the node, its arguments, and the clock on which these stand.
#[derive(Clone, Copy)]
pub struct ClockedCall<'a> {
    pub site: u32,
    pub callee: &'a Text,
    pub arguments: &'a [Expr],
    pub clock: Clock,
}

/// A `pre` or `current`: its site, its operand, and the clock of that.
#[derive(Clone, Copy)]
pub struct ClockedDelay<'a> {
    pub site: Option<u32>,
    pub operand: &'a Expr,
    pub clock: Clock,
}

/// An operator between two operands: its site, its left operand, and its clock.
#[derive(Clone, Copy)]
pub struct ClockedOperator<'a> {
    pub site: Option<u32>,
    pub operator: Op,
    pub left: &'a Expr,
    pub clock: Clock,
}

/// What stands in the expressions of a node, those of its equations and then those of its assertions, each part before those in its
/// operands.
#[derive(Drop)]
pub struct Timed<'a> {
    pub calls: Many<ClockedCall<'a>>,
    pub delays: Many<ClockedDelay<'a>>,
    pub operators: Many<ClockedOperator<'a>>,
}

/// The calls of each node.
pub fn clocked_calls<'a>(
    alloc: Global,
    clocks: &Many<NodeClocks<'a>>,
) -> Result<Many<Many<ClockedCall<'a>>>, Memory>
    ensures { IfOk result (AreTold (map (λ c. node_tree c.node.now) clocks.now)) }
{
    let mut table = Many::new(alloc);
    for of_node in clocks.as_slice() {
        let Timed { calls, .. } = timed_of(alloc, of_node)?;
        table.push(calls)?;
    }
    Ok(table)
}

/// What stands in a node. The only error is want of memory. Each expression is looked at once.
pub fn timed_of<'a>(alloc: Global, clocks: &NodeClocks<'a>) -> Result<Timed<'a>, Memory>
    ensures calls { IfOk result (λ found. map told found.calls ≡ calls_told (node_tree clocks.now.node.now)) }
    ensures delays { IfOk result (λ found. map delay_listed found.delays ≡ delays_told (node_tree clocks.now.node.now)) }
    ensures operators { IfOk result (λ found. map operator_listed found.operators ≡ operators_told (node_tree clocks.now.node.now)) }
{
    let node = clocks.node;
    let mut found = Timed {
        calls: Many::new(alloc),
        delays: Many::new(alloc),
        operators: Many::new(alloc),
    };
    gather_equations(clocks, node.equations.as_slice(), &mut found)?;
    gather_assertions(clocks, node.assertions.as_slice(), &mut found)?;
    Ok(found)
}

/// Adds what stands in right sides.
fn gather_equations<'a>(
    clocks: &NodeClocks<'a>,
    equations: &'a [Equation],
    found: &mut Timed<'a>,
) -> Result<(), Memory>
    ensures calls { OnOk result (map told found.new.calls ≡ map told found.old.calls
        ++ map (call_told (node_tree clocks.now.node.now)) (calls_in_equations (map equation_tree equations.now))) }
    ensures delays { OnOk result (map delay_listed found.new.delays ≡ map delay_listed found.old.delays
        ++ map (delay_told (node_tree clocks.now.node.now)) (delays_in_equations (map equation_tree equations.now))) }
    ensures operators { OnOk result (map operator_listed found.new.operators ≡ map operator_listed found.old.operators
        ++ flat_map (λ q. operators_in (node_tree clocks.now.node.now) q.right) (map equation_tree equations.now)) }
{
    for equation in equations {
        gather(clocks, &equation.right, found)?;
    }
    Ok(())
}

/// Adds what stands in assertions.
fn gather_assertions<'a>(
    clocks: &NodeClocks<'a>,
    assertions: &'a [Assertion],
    found: &mut Timed<'a>,
) -> Result<(), Memory>
    ensures calls { OnOk result (map told found.new.calls ≡ map told found.old.calls
        ++ map (call_told (node_tree clocks.now.node.now)) (calls_in_assertions (map assertion_tree assertions.now))) }
    ensures delays { OnOk result (map delay_listed found.new.delays ≡ map delay_listed found.old.delays
        ++ map (delay_told (node_tree clocks.now.node.now)) (delays_in_assertions (map assertion_tree assertions.now))) }
    ensures operators { OnOk result (map operator_listed found.new.operators ≡ map operator_listed found.old.operators
        ++ flat_map (λ a. operators_in (node_tree clocks.now.node.now) a.body) (map assertion_tree assertions.now)) }
{
    for assertion in assertions {
        gather(clocks, &assertion.body, found)?;
    }
    Ok(())
}

/// Adds what stands in an expression, and answers its pace. Each expression is looked at once. It calls itself for each operand, so
/// as deep as the tree is: 20,301 levels at most, all but 200 of them left operands and operands of `when`. So little else stands in
/// the frame of this function.
#[cycle(gather)]
fn gather<'a>(clocks: &NodeClocks<'a>, e: &'a Expr, found: &mut Timed<'a>) -> Result<Pace, Memory>
    ensures pace { IfOk result (λ p. p ≡ pace (node_tree clocks.now.node.now) (tree_of e.now)) }
    ensures calls { OnOk result (map told found.new.calls ≡ map told found.old.calls
        ++ map (call_told (node_tree clocks.now.node.now)) (calls_in (tree_of e.now))) }
    ensures delays { OnOk result (map delay_listed found.new.delays ≡ map delay_listed found.old.delays
        ++ map (delay_told (node_tree clocks.now.node.now)) (delays (tree_of e.now))) }
    ensures operators { OnOk result (map operator_listed found.new.operators ≡ map operator_listed found.old.operators
        ++ operators_in (node_tree clocks.now.node.now) (tree_of e.now)) }
{
    match &e.form {
        ExprForm::Binary(operator, left, right) => {
            let number = add_operator(e.site, *operator, left, found)?;
            let one = gather(clocks, left, found)?;
            let other = gather(clocks, right, found)?;
            let pace = operator_pace(*operator, one, other);
            put_operator(number, e.site, *operator, left, pace, &mut found.operators);
            Ok(pace)
        }
        ExprForm::When(operand, clock) => {
            let operand = gather(clocks, operand, found)?;
            Ok(clocks.when_pace(operand, &clock.text))
        }
        ExprForm::True | ExprForm::False | ExprForm::Number(_) => Ok(Pace::Free),
        ExprForm::Named(name) => Ok(clocks.name_pace(name)),
        ExprForm::Not(operand) | ExprForm::Minus(operand) => gather_kept(clocks, operand, found),
        ExprForm::Pre(operand) => {
            let operand = gather_delay(clocks, e.site, operand, found)?;
            Ok(delayed_pace(operand))
        }
        ExprForm::Current(operand) => {
            let operand = gather_delay(clocks, e.site, operand, found)?;
            Ok(clocks.current_pace(operand))
        }
        ExprForm::If(condition, first, second) => {
            let condition = gather(clocks, condition, found)?;
            let first = gather(clocks, first, found)?;
            gather_else(clocks, condition, first, second, found)
        }
        ExprForm::AtMostOne(operands) => gather_all(clocks, operands.as_slice(), found),
        ExprForm::Call(callee, arguments) => {
            gather_call(clocks, e.site, callee, arguments.as_slice(), found)
        }
    }
}

/// The same of an operator that keeps the clock of its operand.
#[cycle(gather)]
#[inline(never)]
fn gather_kept<'a>(
    clocks: &NodeClocks<'a>,
    operand: &'a Expr,
    found: &mut Timed<'a>,
) -> Result<Pace, Memory>
    ensures pace { IfOk result (λ p. p ≡ seen (pace (node_tree clocks.now.node.now) (tree_of operand.now))) }
    ensures calls { OnOk result (map told found.new.calls ≡ map told found.old.calls
        ++ map (call_told (node_tree clocks.now.node.now)) (calls_in (tree_of operand.now))) }
    ensures delays { OnOk result (map delay_listed found.new.delays ≡ map delay_listed found.old.delays
        ++ map (delay_told (node_tree clocks.now.node.now)) (delays (tree_of operand.now))) }
    ensures operators { OnOk result (map operator_listed found.new.operators ≡ map operator_listed found.old.operators
        ++ operators_in (node_tree clocks.now.node.now) (tree_of operand.now)) }
{
    Ok(kept_pace(gather(clocks, operand, found)?))
}

/// Adds a `pre` or `current` with the clock that its operand turns out to have, and what stands in the operand, and answers the pace
/// of that.
#[cycle(gather)]
#[inline(never)]
fn gather_delay<'a>(
    clocks: &NodeClocks<'a>,
    site: Option<u32>,
    operand: &'a Expr,
    found: &mut Timed<'a>,
) -> Result<Pace, Memory>
    ensures pace { IfOk result (λ p. p ≡ pace (node_tree clocks.now.node.now) (tree_of operand.now)) }
    ensures calls { OnOk result (map told found.new.calls ≡ map told found.old.calls
        ++ map (call_told (node_tree clocks.now.node.now)) (calls_in (tree_of operand.now))) }
    ensures delays { OnOk result (map delay_listed found.new.delays ≡ map delay_listed found.old.delays
        ++ record { site = site; operand = tree_of operand.now; clock = clock_of_expression (node_tree clocks.now.node.now) (tree_of operand.now) }
        ∷ map (delay_told (node_tree clocks.now.node.now)) (delays (tree_of operand.now))) }
    ensures operators { OnOk result (map operator_listed found.new.operators ≡ map operator_listed found.old.operators
        ++ operators_in (node_tree clocks.now.node.now) (tree_of operand.now)) }
{
    let number = add_delay(site, operand, found)?;
    let pace = gather(clocks, operand, found)?;
    put_delay(number, site, operand, pace, &mut found.delays);
    Ok(pace)
}

/// The same of an `if`, whose condition and first part have these paces, from its second one.
#[cycle(gather)]
#[inline(never)]
fn gather_else<'a>(
    clocks: &NodeClocks<'a>,
    condition: Pace,
    first: Pace,
    second: &'a Expr,
    found: &mut Timed<'a>,
) -> Result<Pace, Memory>
    ensures pace { IfOk result (λ p. p ≡ meet (seen condition) (meet (seen first) (seen (pace (node_tree clocks.now.node.now) (tree_of second.now))))) }
    ensures calls { OnOk result (map told found.new.calls ≡ map told found.old.calls
        ++ map (call_told (node_tree clocks.now.node.now)) (calls_in (tree_of second.now))) }
    ensures delays { OnOk result (map delay_listed found.new.delays ≡ map delay_listed found.old.delays
        ++ map (delay_told (node_tree clocks.now.node.now)) (delays (tree_of second.now))) }
    ensures operators { OnOk result (map operator_listed found.new.operators ≡ map operator_listed found.old.operators
        ++ operators_in (node_tree clocks.now.node.now) (tree_of second.now)) }
{
    let second = gather(clocks, second, found)?;
    Ok(choice_pace(condition, first, second))
}

/// Adds a call, with the clock that its arguments turn out to have, and what stands in its arguments.
#[cycle(gather)]
#[inline(never)]
fn gather_call<'a>(
    clocks: &NodeClocks<'a>,
    site: Option<u32>,
    callee: &'a Text,
    arguments: &'a [Expr],
    found: &mut Timed<'a>,
) -> Result<Pace, Memory>
    ensures pace { IfOk result (λ p. p ≡ grounded (pace_of_all (node_tree clocks.now.node.now) (trees (map tree_of arguments.now)))) }
    ensures calls { OnOk result (map told found.new.calls ≡ map told found.old.calls
        ++ record {
          site = unwrap_or site 0;
          callee = callee.now;
          arguments = trees (map tree_of arguments.now);
          clock = clock_of_args (node_tree clocks.now.node.now)
              (trees (map tree_of arguments.now));
        } ∷ map (call_told (node_tree clocks.now.node.now)) (calls_in_all (trees (map tree_of arguments.now)))) }
    ensures delays { OnOk result (map delay_listed found.new.delays ≡ map delay_listed found.old.delays
        ++ map (delay_told (node_tree clocks.now.node.now)) (delays_of_all (trees (map tree_of arguments.now)))) }
    ensures operators { OnOk result (map operator_listed found.new.operators ≡ map operator_listed found.old.operators
        ++ operators_of_all (node_tree clocks.now.node.now) (trees (map tree_of arguments.now))) }
{
    let number = add_call(site, callee, arguments, found)?;
    let together = gather_all(clocks, arguments, found)?;
    put_call(number, site, callee, arguments, together, &mut found.calls);
    Ok(called_pace(together))
}

/// Adds what stands in the expressions, and answers their pace together.
#[cycle(gather)]
#[inline(never)]
fn gather_all<'a>(
    clocks: &NodeClocks<'a>,
    expressions: &'a [Expr],
    found: &mut Timed<'a>,
) -> Result<Pace, Memory>
    ensures pace { IfOk result (λ p. p ≡ pace_of_all (node_tree clocks.now.node.now) (trees (map tree_of expressions.now))) }
    ensures calls { OnOk result (map told found.new.calls ≡ map told found.old.calls
        ++ map (call_told (node_tree clocks.now.node.now)) (calls_in_all (trees (map tree_of expressions.now)))) }
    ensures delays { OnOk result (map delay_listed found.new.delays ≡ map delay_listed found.old.delays
        ++ map (delay_told (node_tree clocks.now.node.now)) (delays_of_all (trees (map tree_of expressions.now)))) }
    ensures operators { OnOk result (map operator_listed found.new.operators ≡ map operator_listed found.old.operators
        ++ operators_of_all (node_tree clocks.now.node.now) (trees (map tree_of expressions.now))) }
{
    let mut together = Pace::Free;
    for e in expressions {
        let one = gather(clocks, e, found)?;
        together = joined_pace(together, one);
    }
    Ok(together)
}

/// A call, of whose arguments this is the pace.
fn made_call<'a>(
    site: Option<u32>,
    callee: &'a Text,
    arguments: &'a [Expr],
    pace: Pace,
) -> ClockedCall<'a>
    ensures { told result ≡ record {
      site = unwrap_or site 0;
      callee = callee.now;
      arguments = trees (map tree_of arguments.now);
      clock = taken OnBase pace;
    } }
{
    ClockedCall {
        site: site.unwrap_or(0),
        callee,
        arguments,
        clock: clock_or_base(pace),
    }
}

/// A `pre` or `current`, of whose operand this is the pace.
fn made_delay<'a>(site: Option<u32>, operand: &'a Expr, pace: Pace) -> ClockedDelay<'a>
    ensures { delay_listed result ≡ record { site = site; operand = tree_of operand.now; clock = taken OnBase pace } }
{
    ClockedDelay {
        site,
        operand,
        clock: clock_or_base(pace),
    }
}

/// An operator of this pace.
fn made_operator<'a>(
    site: Option<u32>,
    operator: Op,
    left: &'a Expr,
    pace: Pace,
) -> ClockedOperator<'a>
    ensures { operator_listed result ≡ record { site = site; operator = operator; left = tree_of left.now; clock = taken OnBase pace } }
{
    ClockedOperator {
        site,
        operator,
        left,
        clock: clock_or_base(pace),
    }
}

/// Adds a call as on the base clock, before it is known what clock its arguments have, and answers its number.
#[inline(never)]
fn add_call<'a>(
    site: Option<u32>,
    callee: &'a Text,
    arguments: &'a [Expr],
    found: &mut Timed<'a>,
) -> Result<usize, Memory>
    ensures number { IfOk result (λ number. number ≡ length (map told found.old.calls)) }
    ensures calls { OnOk result (map told found.new.calls ≡ map told found.old.calls
        ++ record { site = unwrap_or site 0; callee = callee.now; arguments = trees (map tree_of arguments.now); clock = OnBase } ∷ []) }
    ensures delays { OnOk result (found.new.delays ≡ found.old.delays) }
    ensures operators { OnOk result (found.new.operators ≡ found.old.operators) }
{
    let number = found.calls.len();
    found
        .calls
        .push(made_call(site, callee, arguments, Pace::Free))?;
    Ok(number)
}

/// Adds a `pre` or `current` as if its operand were on the base clock, and answers its number.
#[inline(never)]
fn add_delay<'a>(
    site: Option<u32>,
    operand: &'a Expr,
    found: &mut Timed<'a>,
) -> Result<usize, Memory>
    ensures number { IfOk result (λ number. number ≡ length (map delay_listed found.old.delays)) }
    ensures delays { OnOk result (map delay_listed found.new.delays ≡ map delay_listed found.old.delays
        ++ record { site = site; operand = tree_of operand.now; clock = OnBase } ∷ []) }
    ensures calls { OnOk result (found.new.calls ≡ found.old.calls) }
    ensures operators { OnOk result (found.new.operators ≡ found.old.operators) }
{
    let number = found.delays.len();
    found.delays.push(made_delay(site, operand, Pace::Free))?;
    Ok(number)
}

/// Adds an operator as on the base clock, and answers its number.
#[inline(never)]
fn add_operator<'a>(
    site: Option<u32>,
    operator: Op,
    left: &'a Expr,
    found: &mut Timed<'a>,
) -> Result<usize, Memory>
    ensures number { IfOk result (λ number. number ≡ length (map operator_listed found.old.operators)) }
    ensures operators { OnOk result (map operator_listed found.new.operators ≡ map operator_listed found.old.operators
        ++ record { site = site; operator = operator; left = tree_of left.now; clock = OnBase } ∷ []) }
    ensures calls { OnOk result (found.new.calls ≡ found.old.calls) }
    ensures delays { OnOk result (found.new.delays ≡ found.old.delays) }
{
    let number = found.operators.len();
    found
        .operators
        .push(made_operator(site, operator, left, Pace::Free))?;
    Ok(number)
}

/// Puts a call, of whose arguments this is the pace, in the place of the one with a number.
#[tactic(auto, using(crate::proofs::PutCalls::within))]
fn put_call<'a>(
    number: usize,
    site: Option<u32>,
    callee: &'a Text,
    arguments: &'a [Expr],
    pace: Pace,
    found: &mut Many<ClockedCall<'a>>,
)
    ensures { (before after : List ToldCall) (c : ToldCall) → number ≡ length before → map told found.old ≡ before ++ c ∷ after
        → map told found.new ≡ before ++ record {
          site = unwrap_or site 0;
          callee = callee.now;
          arguments = trees (map tree_of arguments.now);
          clock = taken OnBase pace;
        } ∷ after }
{
    if number < found.len() {
        found.set(number, made_call(site, callee, arguments, pace));
    }
}

/// Puts a `pre` or `current`, of whose operand this is the pace, in the place of the one with a number.
#[tactic(auto, using(crate::proofs::PutCalls::within))]
fn put_delay<'a>(
    number: usize,
    site: Option<u32>,
    operand: &'a Expr,
    pace: Pace,
    found: &mut Many<ClockedDelay<'a>>,
)
    ensures { (before after : List ToldDelay) (d : ToldDelay) → number ≡ length before → map delay_listed found.old ≡ before ++ d ∷ after
        → map delay_listed found.new ≡ before ++ record { site = site; operand = tree_of operand.now; clock = taken OnBase pace } ∷ after }
{
    if number < found.len() {
        found.set(number, made_delay(site, operand, pace));
    }
}

/// Puts an operator of this pace in the place of the one with a number.
#[tactic(auto, using(crate::proofs::PutCalls::within))]
fn put_operator<'a>(
    number: usize,
    site: Option<u32>,
    operator: Op,
    left: &'a Expr,
    pace: Pace,
    found: &mut Many<ClockedOperator<'a>>,
)
    ensures { (before after : List ToldOperator) (o : ToldOperator) → number ≡ length before → map operator_listed found.old ≡ before ++ o ∷ after
        → map operator_listed found.new ≡ before ++ record { site = site; operator = operator; left = tree_of left.now; clock = taken OnBase pace } ∷ after }
{
    if number < found.len() {
        found.set(number, made_operator(site, operator, left, pace));
    }
}

/// The clock of a pace, the base clock where that is free.
pub fn clock_or_base(pace: Pace) -> Clock
    ensures { result ≡ taken OnBase pace }
{
    match pace {
        Pace::At(clock) => clock,
        Pace::Free | Pace::Mute | Pace::Differ => Clock::Base,
    }
}
