//! The order in which variables are quantified: each with the last part that reads it (Burch, Clarke and Long 1991).

ghost use Rattle.std.specs.Prelude.{◌≡◌, ℕ, ◌<◌, ◌&&◌, not, length, IfOk};
ghost use Rattle.rv_diagram.specs.Nodes.{valuation_of};
ghost use Rattle.rv_symbolic.specs.Linked.{AreRefs, AreScheduled};

use rv_base::{Many, Memory};
use rv_diagram::{Part, Ref, Store};
use std::alloc::Global;

/// The given variables that are not read.
fn unread(alloc: Global, given: &[bool], read: &[bool]) -> Result<Many<bool>, Memory>
    ensures { IfOk result (λ left. (x : ℕ) → valuation_of left x ≡ (valuation_of given.now x && not (valuation_of read.now x))) }
{
    let mut left = Vec::new(alloc);
    for x in 0..given.len() {
        let is_read = x < read.len() && read[x];
        left.push(given[x] && !is_read)?;
    }
    Ok(Many::from_vec(left))
}

/// The references as parts in their order, which quantify the given variables: each part those that no later part reads.
pub fn schedule(
    alloc: Global,
    store: &Store,
    relations: &[Ref],
    given: Many<bool>,
) -> Result<Many<Part>, Memory>
    requires refs { AreRefs store.now.nodes relations.now }
    requires some { 0 < length relations.now }
    ensures { IfOk result (AreScheduled store.now.nodes relations.now given) }
{
    let mut parts = Vec::new(alloc);
    let mut left = given;
    for back in 0..relations.len() {
        let relation = relations[relations.len() - 1 - back];
        let read = store.reads(relation)?;
        let rest = unread(alloc, left.as_slice(), read.as_slice())?;
        parts.insert(
            0,
            Part {
                relation,
                over: left,
            },
        )?;
        left = rest;
    }
    Ok(Many::from_vec(parts))
}
