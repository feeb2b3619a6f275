//! The places of memories.

ghost use Rattle.std.specs.Prelude.{◌≡◌, ◌≤◌, ◌<◌, ◌++◌, ◌∷◌, [], ℕ, map, flat_map, length, slice_index_or, IfOk, OnOk};
ghost use Rattle.std.specs.List.{Contains};
ghost use Rattle.std.specs.Cmp.Lexicographic.{slice_cmp};
ghost use Rattle.std.specs.Ordering.{nat_cmp};
ghost use Rattle.rv_tree.specs.Bounded.{most};
ghost use Rattle.rv_tree.specs.SourceTrees.{IsSourceTree};
ghost use Rattle.rv_tree.specs.Delays.{delays, delays_of_all, delays_in_equations, delays_in_assertions, node_delays};
ghost use Rattle.rv_tree.specs.Places.{flows};
ghost use Rattle.rv_tree.specs.Tree.{NodeTree as NodeModel, tree_of, trees, node_tree, equation_tree, assertion_tree, program_tree};
ghost use Rattle.rv_types.specs.Instances.{name_at, no_node};
ghost use Rattle.rv_types.specs.Settled.{IsAnswer};
ghost use Rattle.rv_meaning.specs.Accessors.{ArePaths, AreMemoryPlaces};
ghost use Rattle.rv_types.specs.Lists.{sites_of};
ghost use Rattle.rv_meaning.specs.Callings.{callee_in};
ghost use Rattle.rv_meaning.specs.Remembered.{AreSites, AreSorted, places_at, site_by, sites_at, sites_by};

use crate::calls::{callees_of, node_at};
use crate::numbers::{Numbers, flow_numbers};
use rv_base::{Many, Memory, Path, Place, Sites};
use rv_tree::{Assertion, Equation, Expr, ExprForm, Node, Program};
use rv_types::{Typed, well_formed_programs};
use std::alloc::Global;
use std::cmp::Ordering;
use std::collections::HashMap;

/// The places of the memories of the instances with these paths, in order: a proper prefix first, then by the first
/// number that differs. `Memory` comes where memory runs out. Time grows with the program and with the length of the
/// paths and places, up to look-ups and one sort.
pub fn memories(
    alloc: Global,
    p: &Program,
    t: &Typed,
    paths: &Many<Many<u32>>,
) -> Result<Many<Place>, Memory>
    requires tree { IsSourceTree (program_tree p.now) }
    requires settled { IsAnswer (program_tree p.now) t.now }
    requires paths { ArePaths (program_tree p.now) (name_at (program_tree p.now) t.now.main) paths.now }
    ensures { IfOk result (λ ps. AreMemoryPlaces (program_tree p.now) (name_at (program_tree p.now) t.now.main) paths.now (sites_of ps)) }
{
    well_formed_programs();
    let callees = callees_of(alloc, p.nodes.as_slice())?;
    let sites = sites_of_nodes(alloc, p.nodes.as_slice())?;
    let places = places_of(
        alloc,
        t.main,
        paths.as_slice(),
        callees.as_slice(),
        sites.as_slice(),
    )?;
    Ok(sorted(places))
}

/// The places, from first to last, each once.
fn sorted(places: Many<Place>) -> Many<Place>
    ensures { AreSorted places result }
{
    let mut places = places.into_vec();
    places.sort_unstable_by(|one, other| compare(one, other));
    places.dedup();
    Many::from_vec(places)
}

/// Whether a place stands before another: a proper prefix does, and otherwise that with the lower first number that
/// differs.
fn compare(one: &Place, other: &Place) -> Ordering
    ensures { result ≡ slice_cmp nat_cmp one.now.sites other.now.sites }
{
    one.sites.compare(&other.sites)
}

/// The places of the memories of the instances with these paths, path by path.
fn places_of(
    alloc: Global,
    main: u32,
    paths: &[Many<u32>],
    callees: &[HashMap<u32, u32>],
    sites: &[Many<u32>],
) -> Result<Many<Place>, Memory>
    ensures { IfOk result (λ places. sites_of places ≡ flat_map (places_at (callee_in callees.now) sites.now main) paths.now) }
{
    let mut places = Many::new(alloc);
    for path in paths {
        let own = sites_of_path(main, path.as_slice(), callees, sites);
        push_places(alloc, path.as_slice(), own, &mut places)?;
    }
    Ok(places)
}

/// The sites of the memories of the instance with a path.
fn sites_of_path<'a>(
    main: u32,
    path: &[u32],
    callees: &[HashMap<u32, u32>],
    sites: &'a [Many<u32>],
) -> &'a [u32]
    ensures { result.now ≡ sites_at (callee_in callees.now) sites.now main path.now }
{
    match node_at(callees, main, path) {
        None => &[],
        Some(number) => match sites.get(number as usize) {
            None => &[],
            Some(own) => own.as_slice(),
        },
    }
}

/// Adds the places of the memories of an instance.
fn push_places(
    alloc: Global,
    path: &[u32],
    sites: &[u32],
    places: &mut Many<Place>,
) -> Result<(), Memory>
    ensures { OnOk result (sites_of places.new ≡ sites_of places.old ++ map (λ s. path.now ++ s ∷ []) sites.now) }
{
    let shared = Path::from_slice(alloc, path)?;
    for site in sites {
        places.push(place_at(&shared, *site)?)?;
    }
    Ok(())
}

/// The place of a site of an instance.
fn place_at(path: &Path, site: u32) -> Result<Place, Memory>
    ensures { IfOk result (λ place. place.sites ≡ path.now ++ site ∷ []) }
{
    let sites = Sites::within(path, site)?;
    Ok(Place { sites })
}

/// For each node the sites of its memories.
fn sites_of_nodes(alloc: Global, nodes: &[Node]) -> Result<Many<Many<u32>>, Memory>
    requires { (n : NodeModel) → Contains (map node_tree nodes.now) n → length (flows n) ≤ most }
    ensures { IfOk result (λ sites. (k : ℕ) → AreSites (slice_index_or (map node_tree nodes.now) k no_node) (slice_index_or sites k [])) }
{
    let mut sites = Many::new(alloc);
    for node in nodes {
        sites.push(sites_of_node(alloc, node)?)?;
    }
    Ok(sites)
}

/// The sites of the memories of a node, each once.
fn sites_of_node(alloc: Global, node: &Node) -> Result<Many<u32>, Memory>
    requires { length (flows (node_tree node.now)) ≤ most }
    ensures { IfOk result (AreSites (node_tree node.now)) }
{
    let flows = flow_numbers(alloc, node)?;
    let read = sites_read(alloc, node, &flows)?;
    let mut sites = read.into_vec();
    sites.sort_unstable();
    sites.dedup();
    Ok(Many::from_vec(sites))
}

/// The sites of the memories that the `pre` and `current` of a node read, in its equations and then in its assertions.
fn sites_read(alloc: Global, node: &Node, flows: &Numbers) -> Result<Many<u32>, Memory>
    ensures { IfOk result (λ sites. sites ≡ sites_by flows.now (node_delays (node_tree node.now))) }
{
    let mut sites = Many::new(alloc);
    gather_equations(node.equations.as_slice(), flows, &mut sites)?;
    gather_assertions(node.assertions.as_slice(), flows, &mut sites)?;
    Ok(sites)
}

/// Adds what the right sides read.
fn gather_equations(
    equations: &[Equation],
    flows: &Numbers,
    sites: &mut Many<u32>,
) -> Result<(), Memory>
    ensures { OnOk result (sites.new ≡ sites.old ++ sites_by flows.now (delays_in_equations (map equation_tree equations.now))) }
{
    for equation in equations {
        gather(&equation.right, flows, sites)?;
    }
    Ok(())
}

/// Adds what the assertions read.
fn gather_assertions(
    assertions: &[Assertion],
    flows: &Numbers,
    sites: &mut Many<u32>,
) -> Result<(), Memory>
    ensures { OnOk result (sites.new ≡ sites.old ++ sites_by flows.now (delays_in_assertions (map assertion_tree assertions.now))) }
{
    for assertion in assertions {
        gather(&assertion.body, flows, sites)?;
    }
    Ok(())
}

/// Adds what an expression reads. It calls itself for each operand, so as deep as the tree is: 20,301 levels at most.
#[cycle(gather)]
fn gather(e: &Expr, flows: &Numbers, sites: &mut Many<u32>) -> Result<(), Memory>
    ensures { OnOk result (sites.new ≡ sites.old ++ sites_by flows.now (delays (tree_of e.now))) }
{
    match &e.form {
        ExprForm::True | ExprForm::False | ExprForm::Number(_) | ExprForm::Named(_) => Ok(()),
        ExprForm::Not(operand) | ExprForm::Minus(operand) | ExprForm::When(operand, _) => {
            gather(operand, flows, sites)
        }
        ExprForm::Pre(operand) | ExprForm::Current(operand) => {
            add_site(e.site, operand, flows, sites)?;
            gather(operand, flows, sites)
        }
        ExprForm::Binary(_, left, right) => {
            gather(left, flows, sites)?;
            gather(right, flows, sites)
        }
        ExprForm::If(condition, first, second) => {
            gather(condition, flows, sites)?;
            gather(first, flows, sites)?;
            gather(second, flows, sites)
        }
        ExprForm::AtMostOne(operands) => gather_all(operands.as_slice(), flows, sites),
        ExprForm::Call(_, arguments) => gather_all(arguments.as_slice(), flows, sites),
    }
}

/// Adds what the expressions read.
#[cycle(gather)]
fn gather_all(expressions: &[Expr], flows: &Numbers, sites: &mut Many<u32>) -> Result<(), Memory>
    ensures { OnOk result (sites.new ≡ sites.old ++ sites_by flows.now (delays_of_all (trees (map tree_of expressions.now)))) }
{
    for e in expressions {
        gather(e, flows, sites)?;
    }
    Ok(())
}

/// Adds what a `pre` or `current` of this site and operand reads.
#[inline(never)]
fn add_site(
    site: Option<u32>,
    operand: &Expr,
    flows: &Numbers,
    sites: &mut Many<u32>,
) -> Result<(), Memory>
    ensures { OnOk result (sites.new ≡ sites.old ++ site_by flows.now site (tree_of operand.now) ∷ []) }
{
    sites.push(site_read(site, operand, flows))?;
    Ok(())
}

/// The site of the memory of a `pre` or `current`: that of the flow where its operand is one, and otherwise its own.
fn site_read(site: Option<u32>, operand: &Expr, flows: &Numbers) -> u32
    ensures { result ≡ site_by flows.now site (tree_of operand.now) }
{
    match &operand.form {
        ExprForm::Named(name) => {
            let number = flows.number(name);
            if number < flows.count {
                number
            } else {
                site.unwrap_or(0)
            }
        }
        _ => site.unwrap_or(0),
    }
}
