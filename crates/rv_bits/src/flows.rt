//! The flows read in their order, and what the memories hold after an instant.

ghost use Rattle.std.specs.Prelude.{◌≡◌, ◌<◌, ◌≤◌, ◌^◌, length, IfOk, OnOk, IsErrOf};
ghost use Rattle.rv_agreement.specs.Agreement.{IsWell};
ghost use Rattle.rv_flat.specs.FlatInstants.{system_of};
ghost use Rattle.rv_flat.specs.Tame.{IsOver};
ghost use Rattle.rv_symbolic.specs.Growing.{Makes};
ghost use Rattle.rv_symbolic.specs.Linked.{AreRefs};
ghost use Rattle.rv_bits.specs.Flows.{on_bit, IsFlowRead, AreFlowsRead, AreAfters};
ghost use Rattle.rv_bits.specs.Reads.{tree_in};
ghost use Rattle.rv_bits.specs.Shown.{AreAfter, AreTables, IsAround};

use crate::around::{Around, FlowRefs, Tables};
use crate::bits::ref_of;
use crate::read::{read_expr, show};
use rv_base::Many;
use rv_diagram::{Ref, Store, StoreFault};
use rv_flat::{Flat, FlatFlow};
use rv_types::Kind;
use std::alloc::Global;

/// The references of a flow: whether it is there and true, and its bits.
#[derive(Debug, Drop)]
pub struct FlowRef {
    pub on: Ref,
    pub bits: Many<Ref>,
}

/// Whether a Boolean flow is there and true. No other flow is true.
fn on_ref(
    store: &mut Store,
    on: &[Ref],
    kind: Kind,
    clock: Option<u32>,
    bits: &[Ref],
) -> Result<Ref, StoreFault>
    requires on { AreRefs store.old.nodes on.now }
    requires bits { AreRefs store.old.nodes bits.now }
    ensures ok { IfOk result (Makes store.old store.new (on_bit store.old.nodes on.now kind clock bits.now)) }
    ensures roomy { IsErrOf result StoreFault.Nodes → store.old.limit < 2 ^ (2 ^ store.old.variables) }
{
    match kind {
        Kind::Bool => match clock {
            None => Ok(ref_of(bits, 0)),
            Some(clock) => store.and(ref_of(on, clock as usize), ref_of(bits, 0)),
        },
        Kind::Int => Ok(store.constant(false)),
        Kind::Labels(_) => Ok(store.constant(false)),
    }
}

/// The references of a flow.
fn read_flow(
    alloc: Global,
    store: &mut Store,
    around: &Around,
    shown: &mut Many<Option<Many<Ref>>>,
    flow: &FlatFlow,
) -> Result<FlowRef, StoreFault>
    requires around { IsAround store.old around.now }
    requires shown { AreAfter around.now.flat.now store.old.nodes shown.old }
    requires over { IsOver (length around.now.read.now.on) (tree_in around.now flow.now.body) }
    ensures ok { IfOk result (IsFlowRead around.now store.old store.new flow.now) }
    ensures shown { OnOk result (AreAfter around.now.flat.now store.new.nodes shown.new) }
    ensures roomy { IsErrOf result StoreFault.Nodes → store.old.limit < 2 ^ (2 ^ store.old.variables) }
{
    let bits = read_expr(alloc, store, around, shown, &flow.body)?;
    let before = around.read.on.as_slice();
    let on = on_ref(store, before, flow.kind, flow.clock, bits.as_slice())?;
    Ok(FlowRef { on, bits })
}

/// The references of all flows.
pub fn read_flows(
    alloc: Global,
    store: &mut Store,
    flat: &Flat,
    tables: &Tables,
    shown: &mut Many<Option<Many<Ref>>>,
) -> Result<FlowRefs, StoreFault>
    requires well { IsWell (system_of flat.now) }
    requires variables { length flat.now.variables ≤ store.old.variables }
    requires tables { AreTables flat.now store.old.nodes tables.now }
    requires shown { AreAfter flat.now store.old.nodes shown.old }
    ensures ok { IfOk result (AreFlowsRead flat.now store.old store.new (length flat.now.flows)) }
    ensures shown { OnOk result (AreAfter flat.now store.new.nodes shown.new) }
    ensures roomy { IsErrOf result StoreFault.Nodes → store.old.limit < 2 ^ (2 ^ store.old.variables) }
{
    let mut read = FlowRefs {
        on: Many::new(alloc),
        bits: Many::new(alloc),
    };
    for flow in flat.flows.as_slice() {
        let around = Around {
            flat,
            tables,
            read: &read,
        };
        let FlowRef { on, bits } = read_flow(alloc, store, &around, shown, flow)?;
        read.on.push(on)?;
        read.bits.push(bits)?;
    }
    Ok(read)
}

/// For each memory the references of the bits of what it holds after an instant.
pub fn read_afters(
    alloc: Global,
    store: &mut Store,
    around: &Around,
    shown: &mut Many<Option<Many<Ref>>>,
) -> Result<Many<Many<Ref>>, StoreFault>
    requires around { IsAround store.old around.now }
    requires shown { AreAfter around.now.flat.now store.old.nodes shown.old }
    requires all { length around.now.read.now.on ≡ length around.now.flat.now.flows }
    ensures ok { IfOk result (AreAfters around.now.flat.now store.old store.new (length around.now.flat.now.memories)) }
    ensures shown { OnOk result (AreAfter around.now.flat.now store.new.nodes shown.new) }
    ensures roomy { IsErrOf result StoreFault.Nodes → store.old.limit < 2 ^ (2 ^ store.old.variables) }
{
    let mut lists = Many::new(alloc);
    for number in 0..around.flat.memories.len() {
        lists.push(show(alloc, store, around, shown, number)?)?;
    }
    Ok(lists)
}
