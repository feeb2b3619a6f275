//! The numbers of the flows of an order of evaluation, and where each flow stands in it.

ghost use Rattle.std.specs.Prelude.{◌≡◌, ◌+◌, ◌-◌, ◌<◌, ◌≤◌, ◌^◌, ◌++◌, ◌∷◌, [], ℕ, List, length, map, replicate, take, slice_index_or, slice_set, IfOk, OnOk};
ghost use Rattle.rv_tree.specs.Tree.{ProgramTree};
ghost use Rattle.rv_tree.specs.Places.{Identifier, Sites as SitesModel, index_of};
ghost use Rattle.rv_types.specs.Needs.{IsSequence};
ghost use Rattle.rv_types.specs.Lists.{sites_of};
ghost use Rattle.rv_instances.specs.declared.answer.Instance.{Instance as InstanceModel};
ghost use Rattle.rv_instances.specs.Expanded.{IsExpanded, IsKnown, program_of, main_of};
ghost use Rattle.rv_instances.specs.Flowing.{place_at};
ghost use Rattle.rv_instances.specs.Layouts.{IsLayout, all_places, callee_or_main, here_of};
ghost use Rattle.rv_flatten.specs.Positions.{AreNumbersOf, number_from, site_number, told, way_from};

use rv_base::{Many, Memory, Place, Sites};
use rv_instances::{Expanded, Layout, flow_places, instance_numbers};
use std::alloc::{AllocError, Global};

/// How many flows all instances have.
pub fn flow_count(expanded: &Expanded, layout: &Layout) -> usize
    requires known { IsKnown expanded.now }
    requires layout { IsLayout (program_of expanded.now) (main_of expanded.now) expanded.now.instances.now layout.now }
    ensures count { result ≡ length (all_places (program_of expanded.now) expanded.now.instances.now) }
    ensures few { result < 2 ^ 32 }
{
    let last = expanded.instances.len() - 1;
    layout.laid.at(last).first as usize + expanded.count(last as u32) as usize
}

/// For each place of a sequence of all flows the number of its flow. Each place is compared once with the one before it,
/// and followed from where the two part; so time grows with the length of the places, and look-ups come only where the
/// sequence goes on to an instance within another one.
pub fn flow_numbers(alloc: Global, layout: &Layout, sequence: &[Place]) -> Result<Many<u32>, Memory>
    ensures { (p : ProgramTree) (main : Identifier) (instances : List InstanceModel) → IsExpanded p main instances → IsLayout p main instances layout.now
        → IsSequence p main (sites_of sequence.now) → IfOk result (AreNumbersOf (all_places p instances) (sites_of sequence.now)) }
{
    instance_numbers();
    numbers_of(alloc, layout, sequence)
}

/// The numbers to which the layout leads from main, along each place.
fn numbers_of(alloc: Global, layout: &Layout, sequence: &[Place]) -> Result<Many<u32>, Memory>
    ensures { IfOk result (λ numbers. numbers ≡ map (number_from layout.now 0 0) (sites_of sequence.now)) }
{
    let mut numbers = Many::new(alloc);
    let mut way = Many::new(alloc);
    way.push(0)?;
    let mut path: &[u32] = &[];
    for place in sequence {
        let number = number_of(layout, &place.sites, path, &mut way)?;
        numbers.push(number)?;
        path = place.sites.front();
    }
    Ok(numbers)
}

/// The number to which the layout leads from main along a place. The way along a path becomes that along the place's own.
fn number_of(
    layout: &Layout,
    sites: &Sites,
    path: &[u32],
    way: &mut Many<u32>,
) -> Result<u32, Memory>
    requires { way.old ≡ way_from layout.now 0 path.now }
    ensures number { IfOk result (λ number. number ≡ number_from layout.now 0 0 sites.now) }
    ensures way { OnOk result (way.new ≡ way_from layout.now 0 (take (length sites.now - 1) sites.now)) }
{
    turn(layout, path, sites.front(), way)?;
    match sites.last() {
        Some(site) => Ok(number_at(layout, end_of(way), site)),
        None => Ok(0),
    }
}

/// Makes the way along one path that along another.
fn turn(layout: &Layout, path: &[u32], other: &[u32], way: &mut Many<u32>) -> Result<(), Memory>
    requires { way.old ≡ way_from layout.now 0 path.now }
    ensures { OnOk result (way.new ≡ way_from layout.now 0 other.now) }
{
    let common = shared(path, other);
    way.truncate(common + 1);
    for k in common..other.len() {
        go_on(layout, other[k], way)?;
    }
    Ok(())
}

/// How many sites two paths have in common before they part.
fn shared(one: &[u32], other: &[u32]) -> usize
    ensures within { result ≤ length one.now }
    ensures within_other { result ≤ length other.now }
    ensures same { take result one.now ≡ take result other.now }
{
    if one == other {
        return one.len();
    }
    for k in 0..one.len() {
        if k >= other.len() {
            return k;
        }
        if one[k] != other[k] {
            return k;
        }
    }
    one.len()
}

/// Adds the instance that a call of the last one gives.
fn go_on(layout: &Layout, site: u32, way: &mut Many<u32>) -> Result<(), AllocError>
    ensures { OnOk result (way.new ≡ way.old ++ callee_or_main layout.now.callees (slice_index_or way.old (length way.old - 1) 0) site ∷ []) }
{
    let callee = layout.callees.callee(end_of(way), site).unwrap_or(0);
    way.push(callee)
}

/// The last instance of a way.
fn end_of(way: &Many<u32>) -> u32
    ensures { result ≡ slice_index_or way.now (length way.now - 1) 0 }
{
    let count = way.len();
    if count == 0 { 0 } else { *way.at(count - 1) }
}

/// The number of the flow of an instance with this site.
fn number_at(layout: &Layout, instance: u32, site: u32) -> u32
    ensures { result ≡ site_number layout.now instance site }
{
    first_of(layout, instance).saturating_add(site)
}

/// The number of the first flow of an instance, 0 where there is none.
#[tactic(auto, using(crate::proofs::Reading::read_nothing))]
fn first_of(layout: &Layout, instance: u32) -> u32
    ensures { result ≡ (here_of layout.now instance).offset }
{
    match layout.laid.get(instance as usize) {
        Some(laid) => laid.first,
        None => 0,
    }
}

/// For each flow, by its number, where it stands in a sequence of all flows, which have these numbers there.
pub fn positions(alloc: Global, count: usize, numbers: &[u32]) -> Result<Many<u32>, Memory>
    ensures { (p : ProgramTree) (main : Identifier) (instances : List InstanceModel) (sequence : List SitesModel) → IsExpanded p main instances
        → IsSequence p main sequence → count ≡ length (all_places p instances) → AreNumbersOf (all_places p instances) sequence numbers.now
        → IfOk result (λ at. (k : ℕ) → k < length (all_places p instances) → slice_index_or at k 0 ≡ index_of sequence (place_at (all_places p instances) k)) }
{
    flow_places();
    standing(alloc, count, 0, numbers)
}

/// For each number below a count where it stands among some, counted from `first`; 0 where it does not.
pub fn standing(
    alloc: Global,
    count: usize,
    first: u32,
    numbers: &[u32],
) -> Result<Many<u32>, Memory>
    ensures { IfOk result (λ at. at ≡ told (replicate count 0) first numbers.now) }
{
    let mut at = zeros(alloc, count)?;
    let mut next = first;
    for number in numbers {
        tell(*number, next, &mut at);
        next = next.saturating_add(1);
    }
    Ok(at)
}

/// Writes where a number stands, if it is below the count.
fn tell(number: u32, next: u32, at: &mut Many<u32>)
    ensures { at.new ≡ slice_set at.old number next }
{
    let number = number as usize;
    if number < at.len() {
        at.set(number, next);
    }
}

/// So many zeros.
fn zeros(alloc: Global, count: usize) -> Result<Many<u32>, Memory>
    ensures { IfOk result (λ all. all ≡ replicate count 0) }
{
    let mut all = Many::new(alloc);
    for _ in 0..count {
        all.push(0)?;
    }
    Ok(all)
}
