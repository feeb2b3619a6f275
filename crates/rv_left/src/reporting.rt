//! The report of what is left.

ghost use Rattle.std.specs.Prelude.{◌≡◌, ◌<◌, ◌≤◌, ◌^◌, [], true, IfOk, IsErrOf};
ghost use Rattle.rv_diagram.specs.Nodes.{Valuation};
ghost use Rattle.rv_proofs.specs.Systems.{System};
ghost use Rattle.rv_proofs.specs.Ranges.{IsControlSet};
ghost use Rattle.rv_proofs.specs.Accepted.{IsAccepted};
ghost use Rattle.rv_proofs.specs.Left.{IsLeftReport};
ghost use Rattle.rv_symbolic.specs.Represented.{IsRelationOf};
ghost use Rattle.rv_walk.specs.Ends.{has};
ghost use Rattle.rv_walk.specs.Plain.{ArePlain};
ghost use Rattle.rv_left.specs.Fronts.{IsClosedSet};
ghost use Rattle.rv_left.specs.Reports.{IsParted, IsRight};

use crate::failures::failing;
use crate::locating::certificate;
use crate::meeting::sets_meet;
use crate::reaching::reached;
use crate::refining::{left_parts, refine, state_variables};
use rv_base::Many;
use rv_diagram::{Frozen, Store, StoreFault};
use rv_proofs::{Certificate, LeftReport, Why};
use rv_split::{Partition, by_modes};
use rv_symbolic::Relation;
use std::alloc::Global;

/// The partition of a set of control states by the first state bits.
fn parted(
    alloc: Global,
    store: &mut Store,
    relation: &Relation,
    reached: &Frozen,
    ticks: u32,
    limit: u32,
) -> Result<Partition, StoreFault>
    requires given { (s : System) × IsRelationOf s store.old relation.now × IsControlSet s reached.now }
    requires some { (v : Valuation) × (has reached.now v ≡ true) }
    requires limit { 0 < limit }
    ensures parted { (s : System) → IsRelationOf s store.old relation.now → IsControlSet s reached.now → IfOk result (IsParted s limit reached.now) }
    ensures same { store.new ≡ store.old }
    ensures roomy { IsErrOf result StoreFault.Nodes → store.old.limit < 2 ^ (2 ^ store.old.variables) }
{
    let bits = relation.state_bits();
    let state = state_variables(alloc, bits)?;
    let first = ticks.min(bits);
    let partition = by_modes(alloc, store, reached, &state, first, limit)?;
    Ok(partition)
}

/// The report of a closed set of control states that is not empty.
fn report_of(
    alloc: Global,
    store: &mut Store,
    relation: &Relation,
    reached: &Frozen,
    ticks: u32,
    limit: u32,
) -> Result<LeftReport, StoreFault>
    requires given { (s : System) × IsRelationOf s store.old relation.now × IsClosedSet s reached.now }
    requires some { (v : Valuation) × (has reached.now v ≡ true) }
    requires limit { 0 < limit }
    requires few { limit ≤ 4096 }
    ensures right { (s : System) → IsRelationOf s store.old relation.now → IsClosedSet s reached.now → IfOk result (IsRight s limit) }
    ensures plain { IfOk result (λ r. ArePlain r.partition) }
    ensures same { store.new ≡ store.old }
    ensures roomy { IsErrOf result StoreFault.Nodes → store.old.limit < 2 ^ (2 ^ store.old.variables) }
{
    let bad = failing(alloc, store, relation)?;
    let mut parts = parted(alloc, store, relation, reached, ticks, limit)?;
    let why = refine(&mut parts, store, &bad)?;
    let sets = parts.parts.as_slice();
    let left = left_parts(alloc, store, sets, &bad)?;
    let partition = certificate(alloc, store, relation, sets)?;
    Ok(LeftReport {
        partition,
        left,
        why,
    })
}

/// The report of a closed set of control states, which may be empty.
fn report_any(
    alloc: Global,
    store: &mut Store,
    relation: &Relation,
    reached: &Frozen,
    ticks: u32,
    limit: u32,
) -> Result<LeftReport, StoreFault>
    requires given { (s : System) × IsRelationOf s store.old relation.now × IsClosedSet s reached.now }
    requires limit { 0 < limit }
    requires few { limit ≤ 4096 }
    ensures right { (s : System) → IsRelationOf s store.old relation.now → IsClosedSet s reached.now → IfOk result (IsRight s limit) }
    ensures plain { IfOk result (λ r. ArePlain r.partition) }
    ensures same { store.new ≡ store.old }
    ensures roomy { IsErrOf result StoreFault.Nodes → store.old.limit < 2 ^ (2 ^ store.old.variables) }
{
    let some = sets_meet(store, reached, reached)?;
    if !some {
        return Ok(LeftReport {
            partition: Certificate {
                locations: Many::new(alloc),
            },
            left: Many::new(alloc),
            why: Why::Stuck,
        });
    }
    report_of(alloc, store, relation, reached, ticks, limit)
}

/// A certificate without rows and without a loop, whose locations are parts of the control states that are reached where all tests are free, and the
/// numbers of the locations in which the observer may be false. Where there is none, the certificate is accepted. Otherwise it is a left partition,
/// and the reason says why nothing more was split: there are `limit` locations, or each one that is left has one control state. The first `ticks` state bits,
/// or all where there are fewer, have one value in each location, as long as so many values take at most `limit` locations. Where no control state is
/// initial there is no location.
///
/// Nodes comes where the store has no room for what is built on the way, never where its limit holds every function of its variables, and
/// Memory where there is none. The store is left as it was, after a fault too.
pub fn left_report(
    alloc: Global,
    store: &mut Store,
    relation: &Relation,
    ticks: u32,
    limit: u32,
) -> Result<LeftReport, StoreFault>
    requires given { (s : System) × IsRelationOf s store.old relation.now }
    requires limit { 1 ≤ limit }
    requires few { limit ≤ 4096 }
    ensures accepted { (s : System) → IsRelationOf s store.old relation.now → IfOk result (λ r. r.left ≡ [] → IsAccepted s r.partition) }
    ensures left { (s : System) → IsRelationOf s store.old relation.now → IfOk result (λ r. ¬ (r.left ≡ []) → IsLeftReport s limit r) }
    ensures plain { IfOk result (λ r. ArePlain r.partition) }
    ensures same { store.new ≡ store.old }
    ensures roomy { IsErrOf result StoreFault.Nodes → store.old.limit < 2 ^ (2 ^ store.old.variables) }
{
    let closed = reached(store, relation)?;
    report_any(alloc, store, relation, &closed, ticks, limit)
}
