//! Sums over a node and all that it calls.

ghost use Rattle.std.specs.Prelude.{◌≡◌, ◌<◌, ◌≤◌, ◌+◌, length, min, IfOk};
ghost use Rattle.std.specs.List.{Contains};
ghost use Rattle.rv_calls.specs.declared.calls.Calling.{Calling as CallingModel};
ghost use Rattle.rv_calls.specs.Graphs.{IsGraph, IsOrdered};
ghost use Rattle.rv_calls.specs.Callings.{call_graph};
ghost use Rattle.rv_base.specs.Limits.{heaviest};
ghost use Rattle.rv_sizes.specs.Totals.{AreTotals, AreCapped, called_total};

use rv_base::{Many, Memory};
use rv_calls::Calling;
use rv_instances::all_equal;
use rv_tree::HEAVIEST;
use std::alloc::Global;

/// For each node the sum of what it and all copies of nodes below it have of their own, or 2^40 where that is less.
/// The nodes are given in an order in which each stands after those that it calls, so each is looked at once.
pub fn totals(
    alloc: Global,
    own: &Many<u64>,
    calls: &Many<Many<Calling>>,
    order: &Many<u32>,
) -> Result<Many<u64>, Memory>
    requires size { length own.now ≡ length calls.now }
    requires capped { AreCapped own.now }
    requires graph { IsGraph (call_graph calls.now) }
    requires ordered { IsOrdered (call_graph calls.now) order.now }
    ensures { IfOk result (AreTotals own.now calls.now) }
{
    let mut totals = all_equal(alloc, own.len(), 0)?;
    for node in order.as_slice() {
        let at = *node as usize;
        let sum = sum_of(*own.at(at), calls.at(at).as_slice(), &totals);
        totals.set(at, sum);
    }
    Ok(totals)
}

/// What a node has of its own, and the sums of the nodes that it calls.
fn sum_of(own: u64, calls: &[Calling], totals: &Many<u64>) -> u64
    requires own { own ≤ heaviest }
    requires totals { AreCapped totals.now }
    requires callees { (c : CallingModel) → Contains calls.now c → c.callee < length totals.now }
    ensures { result ≡ min (own + called_total totals.now calls.now) heaviest }
{
    let mut sum = own;
    for call in calls {
        sum = capped_sum(sum, *totals.at(call.callee as usize));
    }
    sum
}

/// A sum, or 2^40 where that is less.
pub fn capped_sum(a: u64, b: u64) -> u64
    requires a { a ≤ heaviest }
    requires b { b ≤ heaviest }
    ensures { result ≡ min (a + b) heaviest }
{
    (a + b).min(HEAVIEST)
}
