//! The sites of a node: first its flows, then each `pre`, `current`, call, comparison and assertion, in the order of
//! their offsets.

ghost use Rattle.std.specs.Prelude.{◌≡◌, ◌+◌, ◌≤◌, ◌++◌, ℕ, length, map, IsTrue, IfOk, OnOk, Some, None};
ghost use Rattle.std.specs.List.{All};
ghost use Rattle.std.specs.List.Sorted.{IsNonDecreasing};
ghost use Rattle.rv_base.specs.Limits.{source_limit};
ghost use Rattle.rv_syntax.specs.ProgramText.{program_with_sites};
ghost use Rattle.rv_tree.specs.Sites as spec;
ghost use Rattle.rv_tree.specs.Tree.{assertion_tree, equation_tree, node_tree, program_tree, tree_of, trees};
ghost use Rattle.rv_tree.specs.Tree as tree;

use rv_base::{Box, Many, Text};
use rv_tree::{Assertion, Equation, Expr, ExprForm, Name, Node, Op, Program};
use std::alloc::{AllocError, Global};

/// Whether an operator is a comparison, one of level 5.
fn is_comparison(op: Op) -> bool
    ensures { result ≡ spec.is_comparison op }
{
    match op {
        Op::Equal | Op::Differs | Op::Less | Op::AtMost | Op::Greater | Op::AtLeast => true,
        _ => false,
    }
}

/// The offsets of what has a site in a node beside its flows, in rising order, and the first site that one of them has.
#[derive(Drop)]
struct Sites {
    first: u32,
    offsets: Vec<u32>,
    ghost rising: { IsNonDecreasing offsets.items },
    ghost few: { first + length offsets.items ≤ source_limit },
}

impl Sites {
    /// The site of what has this offset. This and the next stay calls, as `leaf` below does.
    #[inline(never)]
    fn at(&self, at: u32) -> u32
        ensures { result ≡ spec.numbered_from self.now.first self.now.offsets.items at }
    {
        self.first + self.offsets.partition_point(|offset| *offset < at) as u32
    }

    /// The site of an operator, where it is a comparison.
    #[inline(never)]
    fn of_operator(&self, op: Op, at: u32) -> Option<u32>
        ensures { result ≡ spec.compared_site op (spec.numbered_from self.now.first self.now.offsets.items at) }
    {
        if is_comparison(op) {
            Some(self.at(at))
        } else {
            None
        }
    }
}

/// Adds the offset of an operator, where it is a comparison.
fn collect_operator(op: Op, at: u32, offsets: &mut Vec<u32>) -> Result<(), AllocError>
    ensures { OnOk result (offsets.new.items ≡ offsets.old.items ++ spec.compared op at) }
{
    if is_comparison(op) {
        offsets.push(at)?;
    }
    Ok(())
}

/// Adds the offset of each part of an expression that has a site. It calls itself for each operand, so as deep as the
/// tree is: 20,301 levels at most, where each bracket begins a chain of left operands.
#[cycle(collect)]
fn collect(expr: &Expr, offsets: &mut Vec<u32>) -> Result<(), AllocError>
    ensures { OnOk result (offsets.new.items ≡ offsets.old.items ++ spec.offsets (tree_of expr.now)) }
{
    match &expr.form {
        ExprForm::True | ExprForm::False | ExprForm::Number(_) | ExprForm::Named(_) => Ok(()),
        ExprForm::Not(a) | ExprForm::Minus(a) | ExprForm::When(a, _) => collect(a, offsets),
        ExprForm::Pre(a) | ExprForm::Current(a) => {
            offsets.push(expr.at)?;
            collect(a, offsets)
        }
        ExprForm::Binary(op, a, b) => {
            collect(a, offsets)?;
            collect_operator(*op, expr.at, offsets)?;
            collect(b, offsets)
        }
        ExprForm::If(a, b, c) => {
            collect(a, offsets)?;
            collect(b, offsets)?;
            collect(c, offsets)
        }
        ExprForm::AtMostOne(all) => collect_all(all.as_slice(), offsets),
        ExprForm::Call(_, all) => {
            offsets.push(expr.at)?;
            collect_all(all.as_slice(), offsets)
        }
    }
}

/// The same of some expressions.
#[cycle(collect)]
fn collect_all(all: &[Expr], offsets: &mut Vec<u32>) -> Result<(), AllocError>
    ensures { OnOk result (offsets.new.items ≡ offsets.old.items ++ spec.trees_offsets (trees (map tree_of all.now))) }
{
    'each: for expr in all {
        collect(expr, offsets)?;
    }
    Ok(())
}

/// The same of equations.
fn collect_equations(equations: &[Equation], offsets: &mut Vec<u32>) -> Result<(), AllocError>
    ensures { OnOk result (offsets.new.items ≡ offsets.old.items ++ spec.equation_offsets (map equation_tree equations.now)) }
{
    'each: for equation in equations {
        collect(&equation.right, offsets)?;
    }
    Ok(())
}

/// Adds the offset of each assertion, and those in it.
fn collect_assertions(assertions: &[Assertion], offsets: &mut Vec<u32>) -> Result<(), AllocError>
    ensures { OnOk result (offsets.new.items ≡ offsets.old.items ++ spec.assertion_offsets (map assertion_tree assertions.now)) }
{
    'each: for assertion in assertions {
        offsets.push(assertion.at)?;
        collect(&assertion.body, offsets)?;
    }
    Ok(())
}

/// The sites of a node.
fn sites_of(alloc: Global, node: &Node) -> Result<Sites, AllocError>
    requires { spec.site_count (node_tree node.now) ≤ source_limit }
    ensures { IfOk result (λ s. spec.numbered_from s.first s.offsets.items ≡ spec.site_at (node_tree node.now)) }
{
    let flows = node.inputs.len() + node.outputs.len() + node.locals.len();
    let mut offsets = Vec::new(alloc);
    collect_equations(node.equations.as_slice(), &mut offsets)?;
    collect_assertions(node.assertions.as_slice(), &mut offsets)?;
    offsets.sort_unstable();
    Ok(Sites {
        first: flows as u32,
        offsets,
    })
}

/// A literal or a name, in memory of its own. This and the functions up to `sited` stay calls, so that `sited`, which
/// calls itself, has none of their values on the stack.
#[inline(never)]
fn leaf(alloc: Global, expr: &Expr) -> Result<Box<Expr>, AllocError>
    requires { IsTrue (spec.is_leaf (tree_of expr.now)) }
    ensures { IfOk result (λ e. (f : ℕ → ℕ) → tree_of e ≡ spec.sited f (tree_of expr.now)) }
{
    let form = match &expr.form {
        ExprForm::Named(name) => ExprForm::Named(name.clone()?),
        ExprForm::Number(number) => ExprForm::Number(*number),
        ExprForm::True => ExprForm::True,
        _ => ExprForm::False,
    };
    made(alloc, expr.at, None, form)
}

/// An expression in memory of its own.
fn made(alloc: Global, at: u32, site: Option<u32>, form: ExprForm) -> Result<Box<Expr>, AllocError>
    ensures { IfOk result (λ e. e ≡ record { at = at; site = site; form = form }) }
{
    Box::new(alloc, Expr { at, site, form })
}

#[inline(never)]
fn made_not(alloc: Global, at: u32, a: Box<Expr>) -> Result<Box<Expr>, AllocError>
    ensures { IfOk result (λ e. tree_of e ≡ tree.Node at None (tree.Not (tree_of a))) }
{
    made(alloc, at, None, ExprForm::Not(a))
}

#[inline(never)]
fn made_minus(alloc: Global, at: u32, a: Box<Expr>) -> Result<Box<Expr>, AllocError>
    ensures { IfOk result (λ e. tree_of e ≡ tree.Node at None (tree.Minus (tree_of a))) }
{
    made(alloc, at, None, ExprForm::Minus(a))
}

#[inline(never)]
fn made_pre(alloc: Global, at: u32, site: u32, a: Box<Expr>) -> Result<Box<Expr>, AllocError>
    ensures { IfOk result (λ e. tree_of e ≡ tree.Node at (Some site) (tree.Pre (tree_of a))) }
{
    made(alloc, at, Some(site), ExprForm::Pre(a))
}

#[inline(never)]
fn made_current(alloc: Global, at: u32, site: u32, a: Box<Expr>) -> Result<Box<Expr>, AllocError>
    ensures { IfOk result (λ e. tree_of e ≡ tree.Node at (Some site) (tree.Current (tree_of a))) }
{
    made(alloc, at, Some(site), ExprForm::Current(a))
}

#[inline(never)]
fn made_when(alloc: Global, at: u32, a: Box<Expr>, clock: &Name) -> Result<Box<Expr>, AllocError>
    ensures { IfOk result (λ e. tree_of e ≡ tree.Node at None (tree.When (tree_of a) clock.now)) }
{
    let clock = Name {
        text: clock.text.clone()?,
        at: clock.at,
    };
    made(alloc, at, None, ExprForm::When(a, clock))
}

#[inline(never)]
fn made_binary(
    alloc: Global,
    at: u32,
    site: Option<u32>,
    op: Op,
    a: Box<Expr>,
    b: Box<Expr>,
) -> Result<Box<Expr>, AllocError>
    ensures { IfOk result (λ e. tree_of e ≡ tree.Node at site (tree.Binary op (tree_of a) (tree_of b))) }
{
    made(alloc, at, site, ExprForm::Binary(op, a, b))
}

#[inline(never)]
fn made_if(
    alloc: Global,
    at: u32,
    a: Box<Expr>,
    b: Box<Expr>,
    c: Box<Expr>,
) -> Result<Box<Expr>, AllocError>
    ensures { IfOk result (λ e. tree_of e ≡ tree.Node at None (tree.If (tree_of a) (tree_of b) (tree_of c))) }
{
    made(alloc, at, None, ExprForm::If(a, b, c))
}

#[inline(never)]
fn made_at_most_one(alloc: Global, at: u32, all: Many<Expr>) -> Result<Box<Expr>, AllocError>
    ensures { IfOk result (λ e. tree_of e ≡ tree.Node at None (tree.AtMostOne (trees (map tree_of all)))) }
{
    made(alloc, at, None, ExprForm::AtMostOne(all))
}

#[inline(never)]
fn made_call(
    alloc: Global,
    at: u32,
    site: u32,
    name: &Text,
    all: Many<Expr>,
) -> Result<Box<Expr>, AllocError>
    ensures { IfOk result (λ e. tree_of e ≡ tree.Node at (Some site) (tree.Call name.now (trees (map tree_of all)))) }
{
    made(alloc, at, Some(site), ExprForm::Call(name.clone()?, all))
}

/// The same expression with sites. It calls itself for each operand, so as deep as the tree is, and hands on boxes,
/// which are small on the stack.
#[cycle(sited)]
fn sited(alloc: Global, expr: &Expr, sites: &Sites) -> Result<Box<Expr>, AllocError>
    ensures { IfOk result (λ e. tree_of e ≡ spec.sited (spec.numbered_from sites.now.first sites.now.offsets.items) (tree_of expr.now)) }
{
    let at = expr.at;
    match &expr.form {
        ExprForm::True | ExprForm::False | ExprForm::Number(_) | ExprForm::Named(_) => {
            leaf(alloc, expr)
        }
        ExprForm::Not(a) => made_not(alloc, at, sited(alloc, a, sites)?),
        ExprForm::Minus(a) => made_minus(alloc, at, sited(alloc, a, sites)?),
        ExprForm::Pre(a) => made_pre(alloc, at, sites.at(at), sited(alloc, a, sites)?),
        ExprForm::Current(a) => made_current(alloc, at, sites.at(at), sited(alloc, a, sites)?),
        ExprForm::When(a, clock) => made_when(alloc, at, sited(alloc, a, sites)?, clock),
        ExprForm::Binary(op, a, b) => {
            let a = sited(alloc, a, sites)?;
            let b = sited(alloc, b, sites)?;
            made_binary(alloc, at, sites.of_operator(*op, at), *op, a, b)
        }
        ExprForm::If(a, b, c) => {
            let a = sited(alloc, a, sites)?;
            let b = sited(alloc, b, sites)?;
            let c = sited(alloc, c, sites)?;
            made_if(alloc, at, a, b, c)
        }
        ExprForm::AtMostOne(all) => {
            made_at_most_one(alloc, at, sited_all(alloc, all.as_slice(), sites)?)
        }
        ExprForm::Call(name, all) => {
            let all = sited_all(alloc, all.as_slice(), sites)?;
            made_call(alloc, at, sites.at(at), name, all)
        }
    }
}

/// The same of some expressions, in their order.
#[cycle(sited)]
fn sited_all(alloc: Global, all: &[Expr], sites: &Sites) -> Result<Many<Expr>, AllocError>
    ensures { IfOk result (λ es. trees (map tree_of es) ≡ spec.sited_trees (spec.numbered_from sites.now.first sites.now.offsets.items)
        (trees (map tree_of all.now))) }
{
    let mut made = Many::new(alloc);
    'each: for expr in all {
        made.push(sited(alloc, expr, sites)?.into_inner())?;
    }
    Ok(made)
}

/// The same of an equation.
fn sited_equation(alloc: Global, equation: Equation, sites: &Sites) -> Result<Equation, AllocError>
    ensures { IfOk result (λ q. equation_tree q ≡ spec.sited_equation (spec.numbered_from sites.now.first sites.now.offsets.items) (equation_tree equation)) }
{
    let right = sited(alloc, &equation.right, sites)?.into_inner();
    Ok(Equation {
        lefts: equation.lefts,
        right,
    })
}

/// The same of equations.
fn sited_equations(
    alloc: Global,
    equations: Many<Equation>,
    sites: &Sites,
) -> Result<Many<Equation>, AllocError>
    ensures { IfOk result (λ qs. map equation_tree qs ≡ map (spec.sited_equation (spec.numbered_from sites.now.first sites.now.offsets.items))
        (map equation_tree equations)) }
{
    let mut made = Many::new(alloc);
    'each: for equation in equations.into_vec() {
        made.push(sited_equation(alloc, equation, sites)?)?;
    }
    Ok(made)
}

/// The same of an assertion, which has a site itself.
fn sited_assertion(
    alloc: Global,
    assertion: &Assertion,
    sites: &Sites,
) -> Result<Assertion, AllocError>
    ensures { IfOk result (λ a. assertion_tree a ≡ spec.sited_assertion (spec.numbered_from sites.now.first sites.now.offsets.items)
        (assertion_tree assertion.now)) }
{
    Ok(Assertion {
        at: assertion.at,
        site: sites.at(assertion.at),
        body: sited(alloc, &assertion.body, sites)?.into_inner(),
    })
}

/// The same of assertions.
fn sited_assertions(
    alloc: Global,
    assertions: Many<Assertion>,
    sites: &Sites,
) -> Result<Many<Assertion>, AllocError>
    ensures { IfOk result (λ found. map assertion_tree found ≡ map (spec.sited_assertion (spec.numbered_from sites.now.first sites.now.offsets.items))
        (map assertion_tree assertions)) }
{
    let mut made = Many::new(alloc);
    'each: for assertion in assertions.into_vec() {
        made.push(sited_assertion(alloc, &assertion, sites)?)?;
    }
    Ok(made)
}

/// The same of the equations and assertions of a node.
fn sited_parts(
    alloc: Global,
    equations: Many<Equation>,
    assertions: Many<Assertion>,
    sites: &Sites,
) -> Result<(Many<Equation>, Many<Assertion>), AllocError>
    ensures equations { IfOk result (λ p. map equation_tree p.0 ≡ map (spec.sited_equation (spec.numbered_from sites.now.first sites.now.offsets.items))
        (map equation_tree equations)) }
    ensures assertions { IfOk result (λ p. map assertion_tree p.1 ≡ map (spec.sited_assertion (spec.numbered_from sites.now.first sites.now.offsets.items))
        (map assertion_tree assertions)) }
{
    let equations = sited_equations(alloc, equations, sites)?;
    let assertions = sited_assertions(alloc, assertions, sites)?;
    Ok((equations, assertions))
}

/// The same of a node.
fn sited_node(alloc: Global, node: Node, sites: &Sites) -> Result<Node, AllocError>
    ensures { IfOk result (λ n. node_tree n ≡ spec.with_sites_by (spec.numbered_from sites.now.first sites.now.offsets.items) (node_tree node)) }
{
    let (equations, assertions) = sited_parts(alloc, node.equations, node.assertions, sites)?;
    Ok(Node {
        equations,
        assertions,
        ..node
    })
}

/// The node with the sites of its expressions and assertions.
fn with_sites(alloc: Global, node: Node) -> Result<Node, AllocError>
    requires { spec.site_count (node_tree node) ≤ source_limit }
    ensures { IfOk result (λ n. node_tree n ≡ spec.with_sites (node_tree node)) }
{
    let sites = sites_of(alloc, &node)?;
    sited_node(alloc, node, &sites)
}

/// The program with the sites of its nodes, each of which has at most 1,048,576.
/// Time is that of sorting the offsets of each node, and of finding each by bisection.
pub fn with_program_sites(alloc: Global, program: Program) -> Result<Program, AllocError>
    requires { All (λ n. spec.site_count n ≤ source_limit) (program_tree program).nodes }
    ensures { IfOk result (λ p. program_tree p ≡ program_with_sites (program_tree program)) }
{
    let Program {
        types,
        constants,
        nodes,
    } = program;
    let mut made = Many::new(alloc);
    'each: for node in nodes.into_vec() {
        made.push(with_sites(alloc, node)?)?;
    }
    Ok(Program {
        types,
        constants,
        nodes: made,
    })
}
