//! The flows of a flat system.

ghost use Rattle.std.specs.Prelude.{◌≡◌, ◌<◌, [], length, slice_index_or, IfOk};
ghost use Rattle.rv_types.specs.Lists.{sites_of};
ghost use Rattle.rv_flatten.specs.Building.{IsFoundOf, IsGiven, IsMade, AreMade, kind_at, main_given, numbers_of, program_given};

use crate::found::Found;
use crate::given::Given;
use crate::items::giver_item;
use rv_base::{Many, Memory, Place};
use rv_flat::FlatFlow;
use rv_instances::Flow;
use rv_types::Kind;
use std::alloc::Global;

/// The flows of a program in its order of evaluation.
pub fn flat_flows(alloc: Global, given: &Given, found: &Found) -> Result<Many<FlatFlow>, Memory>
    requires given { IsGiven given.now }
    requires found { IsFoundOf given.now found.now }
    ensures { IfOk result (AreMade (program_given given.now) (main_given given.now) (numbers_of given.now found.now) (sites_of given.now.sequence.now)) }
{
    let mut flows = Many::new(alloc);
    for number in 0..given.sequence.len() {
        let flow = flat_flow(alloc, given, found, number)?;
        flows.push(flow)?;
    }
    Ok(flows)
}

/// The flow with a number in the sequence.
fn flat_flow(alloc: Global, given: &Given, found: &Found, number: usize) -> Result<FlatFlow, Memory>
    requires given { IsGiven given.now }
    requires found { IsFoundOf given.now found.now }
    requires within { number < length given.now.sequence.now }
    ensures { IfOk result (IsMade (program_given given.now) (main_given given.now) (numbers_of given.now found.now)
        (slice_index_or (sites_of given.now.sequence.now) number [])) }
{
    let at = *found.order.at(number) as usize;
    let item = giver_item(
        alloc,
        given.expanded,
        given.layout,
        given.tables,
        given.owns,
        given.values,
        &found.numbering,
        given.givers.at(at),
    )?;
    let place = copied(&given.sequence[number])?;
    Ok(FlatFlow {
        place,
        kind: kind_of_flow(given, *given.flows.at(at)),
        clock: item.clock,
        body: item.body,
    })
}

/// The type of a flow.
fn kind_of_flow(given: &Given, flow: Flow) -> Kind
    ensures { result ≡ kind_at given.now flow }
{
    let node = match given
        .expanded
        .instances
        .as_slice()
        .get(flow.instance as usize)
    {
        Some(instance) => instance.node,
        None => 0,
    };
    match given.kinds.as_slice().get(node as usize) {
        Some(kinds) => match kinds.as_slice().get(flow.site as usize) {
            Some(kind) => *kind,
            None => Kind::Bool,
        },
        None => Kind::Bool,
    }
}

/// A copy of a place, which shares its path.
pub fn copied(place: &Place) -> Result<Place, Memory>
    ensures { IfOk result (λ copy. copy.sites ≡ place.now.sites) }
{
    Ok(place.clone()?)
}
