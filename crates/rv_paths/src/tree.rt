//! The nodes of a search, and what it goes by.

ghost use Rattle.std.specs.Prelude.{◌≡◌, ◌<◌, length, IfSome};
ghost use Rattle.rv_paths.specs.Searching.{cases_of};

use crate::spans::Span;
use rv_base::{Many, Memory};
use rv_diagram::Frozen;
use rv_proofs::Case;
use std::alloc::Global;

/// A step of a path: the node from which it leads, and the number of its case there.
#[derive(Clone, Copy, Debug)]
pub struct Turn {
    /// The place of the node.
    pub node: usize,
    /// The place of the case among those that lead on from the node.
    pub case: usize,
}

/// What a path of cases leads to.
#[derive(Debug, Drop)]
pub struct Node {
    /// The path, from the first node on.
    pub turns: Many<Turn>,
    /// Exactly the control states to which it leads.
    pub control: Frozen,
    /// The numbers that each integer memory may have.
    pub spans: Many<Span>,
    /// Whether no earlier node covers its control states and spans.
    pub fresh: bool,
}

/// The nodes of a search, and how far they are visited.
#[derive(Debug, Drop)]
pub struct Tree {
    /// The nodes, the initial control states first.
    pub nodes: Many<Node>,
    /// No fresh node is left before this place.
    pub next_fresh: usize,
    /// No other node is left before this place.
    pub next_other: usize,
}

/// What a search goes by.
#[derive(Debug, Drop)]
pub struct Plan {
    /// The cases of the initial control states.
    pub first: Many<Case>,
    /// The cases of the others.
    pub others: Many<Case>,
    /// How many integer memories there are.
    pub memories: usize,
    /// How many integer inputs there are.
    pub inputs: usize,
    /// How many instants a path may have.
    pub instants: usize,
}

impl Plan {
    /// The cases that lead on from a node, by its place: the first node is that of the initial control states.
    pub fn cases_from(&self, node: usize) -> &Many<Case>
        ensures { result.now ≡ cases_of self.now node }
    {
        if node == 0 { &self.first } else { &self.others }
    }
}

/// The path with one more step.
pub fn with_turn(alloc: Global, turns: &Many<Turn>, turn: Turn) -> Result<Many<Turn>, Memory> {
    let mut longer = Many::from_vec(turns.as_slice().to_vec(alloc)?);
    longer.push(turn)?;
    Ok(longer)
}

/// The first node from a place on that is fresh, or that is not.
fn first_from(nodes: &Many<Node>, from: usize, fresh: bool) -> Option<usize>
    ensures { IfSome result (λ place. place < length nodes.now) }
{
    for place in from..nodes.len() {
        if nodes.at(place).fresh == fresh {
            return Some(place);
        }
    }
    None
}

/// The next node to visit: the first fresh one that is left, or else the first other one.
pub fn next_node(tree: &mut Tree) -> Option<usize>
    ensures same { tree.new.nodes ≡ tree.old.nodes }
    ensures within { IfSome result (λ place. place < length tree.old.nodes) }
{
    match first_from(&tree.nodes, tree.next_fresh, true) {
        Some(place) => {
            tree.next_fresh = place.saturating_add(1);
            Some(place)
        }
        None => match first_from(&tree.nodes, tree.next_other, false) {
            Some(place) => {
                tree.next_other = place.saturating_add(1);
                Some(place)
            }
            None => None,
        },
    }
}
