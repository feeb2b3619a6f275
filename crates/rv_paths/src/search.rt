//! The search: nodes are visited breadth first, those that no earlier node covers before the others. At each node the cases with a false
//! observer are tried first.

ghost use Rattle.std.specs.Prelude.{◌≡◌, ◌<◌, ◌≤◌, ◌^◌, length, IfOk, IfSome, OnOk, IsErrOf};
ghost use Rattle.rv_proofs.specs.Systems.{System};
ghost use Rattle.rv_proofs.specs.Ranges.{IsControlSet};
ghost use Rattle.rv_paths.specs.Candidates.{HasShape, IsInRange};
ghost use Rattle.rv_diagram.specs.Nodes.{IsOrderedOver};
ghost use Rattle.rv_symbolic.specs.Represented.{IsRelationOf};
ghost use Rattle.rv_paths.specs.Searching.{AreNodes, IsPlanOf, IsSetting, IsFirstTree, cases_of};

use crate::hulls::{hulls_of, is_refuted};
use crate::points::{inputs_of, part_of, point_of};
use crate::sets::is_within;
use crate::spans::{Span, all_numbers, are_points, cover, meet, spans_after, spans_at};
use crate::trace::Candidate;
use crate::tree::{Node, Plan, Tree, Turn, next_node, with_turn};
use crate::unroll::{Joined, columns_of, last_joined};
use crate::words::{some_word, words_of};
use rv_base::{Many, Memory};
use rv_diagram::{Frozen, Store, StoreFault};
use rv_proofs::Case;
use rv_symbolic::Relation;
use std::alloc::Global;

/// How many nodes are kept.
const MOST_NODES: usize = 4096;

/// How much work is done. A case that is tried counts 1.
const MOST_WORK: u64 = 1 << 20;

/// What the rows of a path count at least.
const PATH_WORK: u64 = 1024;

/// What the bound of a form counts at least.
const BOUND_WORK: u64 = 16;

/// What an image counts at least.
const IMAGE_WORK: u64 = 16;

/// How a node stands to the earlier ones.
#[derive(Clone, Copy, Debug, PartialEq, Eq)]
enum Standing {
    /// None covers it.
    Fresh,
    /// One has all its control states and numbers, and maybe more numbers.
    Covered,
    /// One has all its control states and exactly its numbers, one for each memory.
    Known,
}

/// Counts work.
fn spend(work: &mut u64, cost: u64) {
    *work = work.saturating_add(cost);
}

/// What a bound over the rows of a path counts: it takes about as many steps as there are columns, each over all columns of all rows.
fn bound_work(columns: usize) -> u64 {
    let many = columns as u64;
    let cube = many.saturating_mul(many).saturating_mul(many);
    BOUND_WORK.saturating_add(cube / 8)
}

/// What a point of the rows of a path counts.
fn path_work(plan: &Plan, turns: &Many<Turn>) -> u64 {
    let bounds = bound_work(columns_of(plan, turns));
    PATH_WORK.saturating_add(bounds.saturating_mul(4))
}

/// What the image of a set by a case counts, by the sizes of the set and of the condition.
fn image_work(control: &Frozen, case: &Case) -> u64 {
    let nodes = control
        .nodes
        .len()
        .saturating_add(case.condition.nodes.len());
    IMAGE_WORK.saturating_add(nodes as u64 / 4)
}

/// How a set of control states with spans stands to an earlier node.
fn placed_by(
    store: &mut Store,
    node: &Node,
    control: &Frozen,
    spans: &Many<Span>,
) -> Result<Standing, StoreFault>
    requires node { IsOrderedOver store.old.variables node.now.control }
    requires control { IsOrderedOver store.old.variables control.now }
    ensures same { store.new ≡ store.old }
    ensures roomy { IsErrOf result StoreFault.Nodes → store.old.limit < 2 ^ (2 ^ store.old.variables) }
{
    if !cover(&node.spans, spans) {
        return Ok(Standing::Fresh);
    }
    if !is_within(store, control, &node.control)? {
        return Ok(Standing::Fresh);
    }
    if are_points(&node.spans) {
        return Ok(Standing::Known);
    }
    Ok(Standing::Covered)
}

/// How it stands to all earlier nodes.
fn placed_among(
    store: &mut Store,
    nodes: &Many<Node>,
    control: &Frozen,
    spans: &Many<Span>,
) -> Result<Standing, StoreFault>
    requires { (s : System) × (store.old.variables ≡ s.variables) × AreNodes s nodes.now × IsControlSet s control.now }
    ensures same { store.new ≡ store.old }
    ensures roomy { IsErrOf result StoreFault.Nodes → store.old.limit < 2 ^ (2 ^ store.old.variables) }
{
    for place in 0..nodes.len() {
        let found = placed_by(store, nodes.at(place), control, spans)?;
        if found != Standing::Fresh {
            return Ok(found);
        }
    }
    Ok(Standing::Fresh)
}

/// The spans of the integer memories after a case, where its rows may hold.
fn spans_by(
    alloc: Global,
    spans: &Many<Span>,
    inputs: usize,
    case: &Case,
) -> Result<Option<Many<Span>>, Memory> {
    match spans_at(alloc, spans, inputs, &case.rows)? {
        Some(all) => {
            let after = spans_after(alloc, &case.updates, &case.rows, &all)?;
            Ok(Some(after))
        }
        None => Ok(None),
    }
}

/// What a bound over the joined rows counts.
fn joined_work(joined: &Joined) -> u64 {
    match joined.rows.get(0) {
        Some(row) => bound_work(row.coefficients.len()),
        None => 0,
    }
}

/// The spans at the end of a path, unless the rows of its last instants are refuted; narrowed by these rows where `fresh` is true.
fn spans_along(
    alloc: Global,
    plan: &Plan,
    nodes: &Many<Node>,
    turns: &Many<Turn>,
    spans: Many<Span>,
    fresh: bool,
    work: &mut u64,
) -> Result<Option<Many<Span>>, Memory> {
    let Some(joined) = last_joined(alloc, plan, nodes, turns)? else {
        return Ok(None);
    };
    spend(work, joined_work(&joined));
    if is_refuted(alloc, &joined.rows)? {
        return Ok(None);
    }
    if !fresh {
        return Ok(Some(spans));
    }
    let bounds = (spans.len() as u64).saturating_mul(2);
    spend(work, joined_work(&joined).saturating_mul(bounds));
    let hulls = hulls_of(alloc, &joined.rows, &joined.forms)?;
    let met = meet(alloc, &spans, &hulls)?;
    Ok(Some(met))
}

/// The node to which a set of control states with spans leads, unless one with the same is there, or the rows of its path are refuted.
fn node_of(
    alloc: Global,
    store: &mut Store,
    plan: &Plan,
    nodes: &Many<Node>,
    turn: Turn,
    control: Frozen,
    spans: Many<Span>,
    work: &mut u64,
) -> Result<Option<Node>, StoreFault>
    requires place { turn.node < length nodes.now }
    requires setting { (s : System) × (store.old.variables ≡ s.variables) × AreNodes s nodes.now × IsControlSet s control }
    ensures control { IfOk result (λ o. IfSome o (λ n. n.control ≡ control)) }
    ensures same { store.new ≡ store.old }
    ensures roomy { IsErrOf result StoreFault.Nodes → store.old.limit < 2 ^ (2 ^ store.old.variables) }
{
    let first = placed_among(store, nodes, &control, &spans)?;
    if first == Standing::Known {
        return Ok(None);
    }
    let turns = with_turn(alloc, &nodes.at(turn.node).turns, turn)?;
    let fresh = first == Standing::Fresh;
    let narrowed = spans_along(alloc, plan, nodes, &turns, spans, fresh, work)?;
    let Some(spans) = narrowed else {
        return Ok(None);
    };
    let found = placed_among(store, nodes, &control, &spans)?;
    if found == Standing::Known {
        return Ok(None);
    }
    Ok(Some(Node {
        turns,
        control,
        spans,
        fresh: found == Standing::Fresh,
    }))
}

/// The node to which a case with a true observer leads from a node, where its rows may hold and its condition meets the control states.
fn next_by(
    alloc: Global,
    store: &mut Store,
    relation: &Relation,
    plan: &Plan,
    nodes: &Many<Node>,
    turn: Turn,
    work: &mut u64,
) -> Result<Option<Node>, StoreFault>
    requires node { turn.node < length nodes.now }
    requires case { turn.case < length (cases_of plan.now turn.node) }
    requires setting { (s : System) × IsSetting s store.old relation.now plan.now nodes.now }
    ensures control { (s : System) → IsSetting s store.old relation.now plan.now nodes.now
        → IfOk result (λ o. IfSome o (λ n. IsControlSet s n.control)) }
    ensures same { store.new ≡ store.old }
    ensures roomy { IsErrOf result StoreFault.Nodes → store.old.limit < 2 ^ (2 ^ store.old.variables) }
{
    let node = nodes.at(turn.node);
    let case = plan.cases_from(turn.node).at(turn.case);
    if !case.observer {
        return Ok(None);
    }
    let Some(spans) = spans_by(alloc, &node.spans, plan.inputs, case)? else {
        return Ok(None);
    };
    spend(work, image_work(&node.control, case));
    let control = relation.image(store, &node.control, case)?;
    if control.root == 0 {
        return Ok(None);
    }
    node_of(alloc, store, plan, nodes, turn, control, spans, work)
}

/// Adds that node, while there is room and work left.
fn grow_by(
    alloc: Global,
    store: &mut Store,
    relation: &Relation,
    plan: &Plan,
    nodes: &mut Many<Node>,
    turn: Turn,
    work: &mut u64,
) -> Result<(), StoreFault>
    requires node { turn.node < length nodes.old }
    requires case { turn.case < length (cases_of plan.now turn.node) }
    requires setting { (s : System) × IsSetting s store.old relation.now plan.now nodes.old }
    ensures nodes { (s : System) → IsSetting s store.old relation.now plan.now nodes.old → OnOk result (AreNodes s nodes.new) }
    ensures more { OnOk result (length nodes.old ≤ length nodes.new) }
    ensures same { store.new ≡ store.old }
    ensures roomy { IsErrOf result StoreFault.Nodes → store.old.limit < 2 ^ (2 ^ store.old.variables) }
{
    spend(work, 1);
    if *work > MOST_WORK || nodes.len() >= MOST_NODES {
        return Ok(());
    }
    match next_by(alloc, store, relation, plan, nodes, turn, work)? {
        Some(node) => {
            nodes.push(node)?;
            Ok(())
        }
        None => Ok(()),
    }
}

/// Adds the nodes to which the cases with a true observer lead from a node.
fn grow(
    alloc: Global,
    store: &mut Store,
    relation: &Relation,
    plan: &Plan,
    nodes: &mut Many<Node>,
    place: usize,
    work: &mut u64,
) -> Result<(), StoreFault>
    requires node { place < length nodes.old }
    requires setting { (s : System) × IsSetting s store.old relation.now plan.now nodes.old }
    ensures nodes { (s : System) → IsSetting s store.old relation.now plan.now nodes.old → OnOk result (AreNodes s nodes.new) }
    ensures same { store.new ≡ store.old }
    ensures roomy { IsErrOf result StoreFault.Nodes → store.old.limit < 2 ^ (2 ^ store.old.variables) }
{
    if nodes.at(place).turns.len().saturating_add(1) >= plan.instants {
        return Ok(());
    }
    for case in 0..plan.cases_from(place).len() {
        let turn = Turn { node: place, case };
        grow_by(alloc, store, relation, plan, nodes, turn, work)?;
    }
    Ok(())
}

/// The candidate of a path whose last valuation is given, where its rows have a point that is found.
fn candidate_of(
    alloc: Global,
    store: &mut Store,
    relation: &Relation,
    plan: &Plan,
    nodes: &Many<Node>,
    turns: &Many<Turn>,
    last: Many<bool>,
) -> Result<Option<Candidate>, StoreFault>
    requires setting { (s : System) × IsSetting s store.old relation.now plan.now nodes.now }
    requires last { length last ≡ store.old.variables }
    ensures shape { IfOk result (λ o. IfSome o (HasShape store.old.variables plan.now.memories plan.now.inputs)) }
    ensures range { IfOk result (λ o. IfSome o IsInRange) }
    ensures same { store.new ≡ store.old }
    ensures roomy { IsErrOf result StoreFault.Nodes → store.old.limit < 2 ^ (2 ^ store.old.variables) }
{
    if turns.len() > MOST_NODES {
        return Ok(None);
    }
    let Some(point) = point_of(alloc, plan, turns)? else {
        return Ok(None);
    };
    let Some(words) = words_of(alloc, store, relation, plan, nodes, turns, last)? else {
        return Ok(None);
    };
    let starts = part_of(alloc, &point, 0, plan.memories)?;
    let inputs = inputs_of(alloc, &point, plan.memories, plan.inputs, words.len())?;
    Ok(Some(Candidate {
        words,
        starts,
        inputs,
    }))
}

/// The candidate of the path through a node that ends with a case with a false observer, where one is found.
fn end_by(
    alloc: Global,
    store: &mut Store,
    relation: &Relation,
    plan: &Plan,
    nodes: &Many<Node>,
    turn: Turn,
    work: &mut u64,
) -> Result<Option<Candidate>, StoreFault>
    requires node { turn.node < length nodes.now }
    requires case { turn.case < length (cases_of plan.now turn.node) }
    requires setting { (s : System) × IsSetting s store.old relation.now plan.now nodes.now }
    ensures shape { IfOk result (λ o. IfSome o (HasShape store.old.variables plan.now.memories plan.now.inputs)) }
    ensures range { IfOk result (λ o. IfSome o IsInRange) }
    ensures same { store.new ≡ store.old }
    ensures roomy { IsErrOf result StoreFault.Nodes → store.old.limit < 2 ^ (2 ^ store.old.variables) }
{
    let node = nodes.at(turn.node);
    let case = plan.cases_from(turn.node).at(turn.case);
    if case.observer || *work > MOST_WORK {
        return Ok(None);
    }
    if spans_at(alloc, &node.spans, plan.inputs, &case.rows)?.is_none() {
        return Ok(None);
    }
    let Some(last) = some_word(store, &node.control, &case.condition)? else {
        return Ok(None);
    };
    let turns = with_turn(alloc, &node.turns, turn)?;
    spend(work, path_work(plan, &turns));
    candidate_of(alloc, store, relation, plan, nodes, &turns, last)
}

/// The candidate of a path through a node that ends there, where one is found.
fn end_at(
    alloc: Global,
    store: &mut Store,
    relation: &Relation,
    plan: &Plan,
    nodes: &Many<Node>,
    place: usize,
    work: &mut u64,
) -> Result<Option<Candidate>, StoreFault>
    requires node { place < length nodes.now }
    requires setting { (s : System) × IsSetting s store.old relation.now plan.now nodes.now }
    ensures shape { IfOk result (λ o. IfSome o (HasShape store.old.variables plan.now.memories plan.now.inputs)) }
    ensures range { IfOk result (λ o. IfSome o IsInRange) }
    ensures same { store.new ≡ store.old }
    ensures roomy { IsErrOf result StoreFault.Nodes → store.old.limit < 2 ^ (2 ^ store.old.variables) }
{
    for case in 0..plan.cases_from(place).len() {
        let turn = Turn { node: place, case };
        let found = end_by(alloc, store, relation, plan, nodes, turn, work)?;
        if let Some(candidate) = found {
            return Ok(Some(candidate));
        }
    }
    Ok(None)
}

/// The tree with the initial control states, at which the memories may have any numbers.
fn first_tree(alloc: Global, first: Frozen, memories: usize) -> Result<Tree, Memory>
    ensures { IfOk result (λ t. IsFirstTree first t.nodes) }
{
    let mut nodes = Many::new(alloc);
    nodes.push(Node {
        turns: Many::new(alloc),
        control: first,
        spans: all_numbers(alloc, memories)?,
        fresh: true,
    })?;
    Ok(Tree {
        nodes,
        next_fresh: 0,
        next_other: 0,
    })
}

/// Visits nodes until one leads to a candidate, none is left, or enough work is done.
pub fn search(
    alloc: Global,
    store: &mut Store,
    relation: &Relation,
    plan: &Plan,
    first: Frozen,
) -> Result<Option<Candidate>, StoreFault>
    requires { (s : System) × IsRelationOf s store.old relation.now × IsPlanOf s plan.now × IsControlSet s first }
    ensures shape { IfOk result (λ o. IfSome o (HasShape store.old.variables plan.now.memories plan.now.inputs)) }
    ensures range { IfOk result (λ o. IfSome o IsInRange) }
    ensures same { store.new ≡ store.old }
    ensures roomy { IsErrOf result StoreFault.Nodes → store.old.limit < 2 ^ (2 ^ store.old.variables) }
{
    let mut tree = first_tree(alloc, first, plan.memories)?;
    let mut work: u64 = 0;
    for _visit in 0..MOST_NODES {
        let Some(place) = next_node(&mut tree) else {
            return Ok(None);
        };
        let found = end_at(alloc, store, relation, plan, &tree.nodes, place, &mut work)?;
        if let Some(candidate) = found {
            return Ok(Some(candidate));
        }
        grow(
            alloc,
            store,
            relation,
            plan,
            &mut tree.nodes,
            place,
            &mut work,
        )?;
    }
    Ok(None)
}
