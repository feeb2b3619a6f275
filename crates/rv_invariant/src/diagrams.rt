//! Reading diagrams: sets of control states and conditions.

ghost use Rattle.std.specs.Prelude.{◌≡◌, ◌+◌, ◌*◌, ◌-◌, ◌<◌, ◌≤◌, ◌&&◌, ◌||◌, MatchOption, true, false, length, nat_lt};
ghost use Rattle.rv_diagram.specs.Nodes.{node_at};
ghost use Rattle.rv_invfile.specs.Ahead.{here, ReadsFields};
ghost use Rattle.rv_invfile.specs.Forms.{field};
ghost use Rattle.rv_invfile.specs.Readers.{Reads, run};
ghost use Rattle.rv_invfile.specs.Texts.{natural};
ghost use Rattle.rv_invariant.specs.Groups.{is_grouped, upto};
ghost use Rattle.rv_invariant.specs.Judging.{ReadsGroup, ReadsGroups};
ghost use Rattle.rv_invariant.specs.Pieces as pieces;
ghost use Rattle.rv_invariant.specs.Pieces.{is_below, is_child, is_node_field, triple_at, variable_at};
ghost use Rattle.rv_invariant.specs.Shapes as shapes;

use crate::counts::Shape;
use crate::groups::expect_groups;
use crate::numbers::below;
use rv_base::Many;
use rv_diagram::{Frozen, Triple};
use rv_invfile::{Fault, FileFault, Records};
use std::alloc::Global;

/// Whether a diagram may read this variable: a state bit, or unless `states` any variable that is no next copy.
fn may_stand(shape: Shape, states: bool, variable: u32) -> bool
    ensures { result ≡ shapes.may_stand shape states variable }
{
    let even = variable % 2 == 0;
    let first = u64::from(variable) < 2 * u64::from(shape.states);
    if states {
        first && even
    } else {
        !first || even
    }
}

/// The variable that a text writes, where a diagram may read it.
fn variable_in(text: &[u8], shape: Shape, states: bool) -> Option<u32>
    ensures { MatchOption result ((is_below shape.variables text.now && shapes.may_stand shape states (natural text.now)) ≡ false)
        (λ n. ((is_below shape.variables text.now && shapes.may_stand shape states (natural text.now)) ≡ true) × (n ≡ natural text.now)) }
{
    match below(text, u64::from(shape.variables)) {
        Some(variable) => {
            if may_stand(shape, states, variable) {
                Some(variable)
            } else {
                None
            }
        }
        None => None,
    }
}

/// Whether a child is a constant, or a node with a variable after this one.
fn is_later(triples: &Many<Triple>, variable: u32, child: u32) -> bool
    requires { child < length triples.now + 2 }
    ensures { result ≡ (nat_lt child 2 || nat_lt variable (node_at triples.now (child - 2)).var) }
{
    if child < 2 {
        return true;
    }
    variable < triples.at(child as usize - 2).var
}

/// The child of the node after these that the field with this number writes.
fn child_in(
    records: &Records<'_>,
    index: usize,
    triples: &Many<Triple>,
    variable: u32,
) -> Option<u32>
    requires before { triples.now ≡ upto triple_at (here records.now) (length triples.now) }
    requires variable { variable ≡ variable_at (here records.now) (length triples.now) }
    requires few { length triples.now ≤ 67108865 }
    ensures { MatchOption result (is_child (here records.now) (length triples.now) (field (here records.now) index) ≡ false)
        (λ n. (is_child (here records.now) (length triples.now) (field (here records.now) index) ≡ true) × (n ≡ natural (field (here records.now) index))) }
{
    match below(records.field(index), triples.len() as u64 + 2) {
        Some(child) => {
            if is_later(triples, variable, child) {
                Some(child)
            } else {
                None
            }
        }
        None => None,
    }
}

/// The node after these.
fn read_triple(
    records: &Records<'_>,
    shape: Shape,
    states: bool,
    triples: &Many<Triple>,
) -> Result<Triple, Fault>
    requires before { triples.now ≡ upto triple_at (here records.now) (length triples.now) }
    requires few { length triples.now ≤ 67108865 }
    ensures { ReadsGroup 3 (is_node_field shape states) records.now (length triples.now) (triple_at (here records.now) (length triples.now)) result }
{
    let place = 2 + 3 * triples.len();
    let number = records.number();
    let Some(var) = variable_in(records.field(place), shape, states) else {
        return Err(Fault::BadNumber(number, place as u32));
    };
    let Some(lo) = child_in(records, place + 1, triples, var) else {
        return Err(Fault::BadNumber(number, place as u32 + 1));
    };
    let Some(hi) = child_in(records, place + 2, triples, var) else {
        return Err(Fault::BadNumber(number, place as u32 + 2));
    };
    Ok(Triple { var, lo, hi })
}

/// All nodes of the record that stands here, in a list with as much room as it takes.
fn read_triples(
    alloc: Global,
    records: &Records<'_>,
    shape: Shape,
    states: bool,
    count: usize,
) -> Result<Many<Triple>, FileFault>
    requires { count ≤ 67108865 }
    ensures { ReadsGroups 3 (is_node_field shape states) records.now count (upto triple_at (here records.now) count) result }
{
    let mut triples = Many::from_vec(Vec::with_capacity(alloc, count)?);
    for index in 0..count {
        let triple = read_triple(records, shape, states, &triples)?;
        triples.push(triple)?;
    }
    Ok(triples)
}

/// The diagram of the record that stands here, or the first field that is wrong.
fn read_frozen(
    alloc: Global,
    records: &Records<'_>,
    shape: Shape,
    word: &[u8],
    states: bool,
) -> Result<Frozen, FileFault>
    requires { is_grouped word.now 3 (here records.now) ≡ true }
    ensures { ReadsFields records.now (pieces.diagram shape word.now states) (pieces.frozen_of (here records.now)) result }
{
    let fields = records.len();
    let count = (fields - 2) / 3;
    let Some(root) = below(records.field(1), count as u64 + 2) else {
        return Err(FileFault::BadNumber(records.number(), 1));
    };
    let nodes = read_triples(alloc, records, shape, states, count)?;
    Ok(Frozen { nodes, root })
}

/// A record of this word with a diagram.
pub fn read_diagram(
    alloc: Global,
    records: &mut Records<'_>,
    shape: Shape,
    word: &[u8],
    states: bool,
) -> Result<Frozen, FileFault>
    ensures { Reads (λ d. d) (run (pieces.a_diagram shape word.now states) records.old) result records.new }
{
    expect_groups(records, word, 3)?;
    let frozen = read_frozen(alloc, records, shape, word, states)?;
    records.advance()?;
    Ok(frozen)
}
