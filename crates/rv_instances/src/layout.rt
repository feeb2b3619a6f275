//! How the flows of all instances are numbered.

ghost use Rattle.std.specs.Prelude.{◌≡◌, ◌<◌, ◌≤◌, ◌++◌, ◌∷◌, ◌&&◌, [], ℕ, List, length, cond, nat_eq, slice_index_or, IfOk, OnOk, Some};
ghost use Rattle.rv_instances.specs.Callees.{callee_in};
ghost use Rattle.rv_instances.specs.Expanded.{IsKnown, program_of, main_of};
ghost use Rattle.rv_instances.specs.Layouts.{all_laid, ArePaths, AreCallees, path_at, number_of, IsWithin, IsBaseOf, IsLayout};

use crate::answer::Instance;
use crate::callees::Callees;
use crate::equal::all_equal;
use crate::expanded::Expanded;
use rv_base::{Many, Memory};
use rv_types::Clock;
use std::alloc::Global;

/// The numbers of the first flow and of the first output of an instance.
#[derive(Clone, Copy, Debug)]
pub struct Laid {
    pub first: u32,
    pub output: u32,
}

/// For each instance the numbers of its flows, of the flow of its base clock, and of the instances that its calls give.
#[derive(Drop)]
pub struct Layout {
    pub laid: Many<Laid>,
    pub bases: Many<Option<u32>>,
    pub callees: Callees,
}

/// The layout of the flows of all instances, one instance after the other.
pub fn layout_of(alloc: Global, expanded: &Expanded) -> Result<Layout, Memory>
    requires { IsKnown expanded.now }
    ensures { IfOk result (IsLayout (program_of expanded.now) (main_of expanded.now) expanded.now.instances.now) }
{
    let laid = laid_of(alloc, expanded)?;
    let callees = callees_of(alloc, expanded.instances)?;
    let bases = bases_of(alloc, expanded, &laid, &callees)?;
    Ok(Layout {
        laid,
        bases,
        callees,
    })
}

/// Where the flows of each instance begin.
fn laid_of(alloc: Global, expanded: &Expanded) -> Result<Many<Laid>, Memory>
    requires { IsKnown expanded.now }
    ensures { IfOk result (λ laid. laid ≡ all_laid (program_of expanded.now) expanded.now.instances.now (length expanded.now.instances.now)) }
{
    let mut laid = Many::new(alloc);
    let mut first = 0;
    for instance in 0..expanded.instances.len() {
        let inputs = expanded.node(instance as u32).inputs.len() as u32;
        laid.push(Laid {
            first,
            output: first + inputs,
        })?;
        first += expanded.count(instance as u32);
    }
    Ok(laid)
}

/// Which instance each call of an instance gives.
fn callees_of(alloc: Global, instances: &Many<Instance>) -> Result<Callees, Memory>
    requires paths { ArePaths instances.now }
    requires few { length instances.now ≤ 4000 }
    ensures { IfOk result (AreCallees instances.now) }
{
    let mut callees = Callees::new(alloc);
    let mut chain = Many::new(alloc);
    for instance in 0..instances.len() {
        let path = instances.at(instance).path.as_slice();
        tell_caller(path, instance as u32, &chain, &mut callees)?;
        chain.truncate(path.len());
        chain.push(instance as u32)?;
    }
    Ok(callees)
}

/// Tells of an instance which call gives it, where a chain leads to it from main on.
fn tell_caller(
    path: &[u32],
    instance: u32,
    chain: &Many<u32>,
    callees: &mut Callees,
) -> Result<(), Memory>
    requires { length path.now ≤ length chain.now }
    ensures main { OnOk result (path.now ≡ [] → callees.new ≡ callees.old) }
    ensures called { OnOk result ((q : List ℕ) (s m t : ℕ) → path.now ≡ q ++ s ∷ []
        → callee_in callees.new m t ≡ cond (nat_eq (slice_index_or chain.now (length q) 0) m && nat_eq s t) (Some instance) (callee_in callees.old m t)) }
{
    let depth = path.len();
    if depth == 0 {
        return Ok(());
    }
    callees.tell(*chain.at(depth - 1), path[depth - 1], instance)
}

/// The numbers of the flows of the base clocks of all instances.
fn bases_of(
    alloc: Global,
    expanded: &Expanded,
    laid: &Many<Laid>,
    callees: &Callees,
) -> Result<Many<Option<u32>>, Memory>
    requires known { IsKnown expanded.now }
    requires laid { laid.now ≡ all_laid (program_of expanded.now) expanded.now.instances.now (length expanded.now.instances.now) }
    requires callees { AreCallees expanded.now.instances.now callees.now }
    ensures size { IfOk result (λ bases. length bases ≡ length expanded.now.instances.now) }
    ensures base { IfOk result (λ bases. (m : ℕ) → m < length expanded.now.instances.now
        → IsBaseOf (program_of expanded.now) (main_of expanded.now) expanded.now.instances.now bases m) }
{
    let mut bases = all_equal(alloc, expanded.instances.len(), None)?;
    for instance in 0..expanded.instances.len() {
        set_bases(expanded, laid, callees, instance as u32, &mut bases);
    }
    Ok(bases)
}

/// Sets the base clocks of what an instance calls.
fn set_bases(
    expanded: &Expanded,
    laid: &Many<Laid>,
    callees: &Callees,
    instance: u32,
    bases: &mut Many<Option<u32>>,
)
    requires known { IsKnown expanded.now }
    requires laid { laid.now ≡ all_laid (program_of expanded.now) expanded.now.instances.now (length expanded.now.instances.now) }
    requires callees { AreCallees expanded.now.instances.now callees.now }
    requires size { length bases.old ≡ length expanded.now.instances.now }
    requires instance { instance < length expanded.now.instances.now }
    requires base { IsBaseOf (program_of expanded.now) (main_of expanded.now) expanded.now.instances.now bases.old instance }
    ensures size { length bases.new ≡ length bases.old }
    ensures kept { (k : ℕ) → IsBaseOf (program_of expanded.now) (main_of expanded.now) expanded.now.instances.now bases.old k
        → IsBaseOf (program_of expanded.now) (main_of expanded.now) expanded.now.instances.now bases.new k }
    ensures set { (k s : ℕ) → k < length expanded.now.instances.now → path_at expanded.now.instances.now k ≡ path_at expanded.now.instances.now instance ++ s
        ∷ [] → IsBaseOf (program_of expanded.now) (main_of expanded.now) expanded.now.instances.now bases.new k }
{
    let base = *bases.at(instance as usize);
    let first = laid.at(instance as usize).first;
    for call in expanded.calls(instance) {
        let callee = callees.callee(instance, call.site).unwrap_or(0);
        bases.set(callee as usize, number_of_clock(first, base, call.clock));
    }
}

/// The number of the flow of a clock, by those of the first flow and of the base clock of its instance.
pub fn number_of_clock(first: u32, base: Option<u32>, clock: Clock) -> Option<u32>
    requires { IsWithin first clock }
    ensures { result ≡ number_of first base clock }
{
    match clock {
        Clock::Base => base,
        Clock::On(site) => Some(first + site),
    }
}
