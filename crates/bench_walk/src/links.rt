//! A row of links in a store.

ghost use Rattle.std.specs.Prelude.{◌≡◌, ◌+◌, ◌*◌, ◌-◌, ◌<◌, ◌≤◌, not, true, false, IfOk};
ghost use Rattle.rv_symbolic.specs.Growing.{Makes};
ghost use Rattle.rv_symbolic.specs.Represented.{IsRelationOf, HaveRefs, AreParts};
ghost use Rattle.bench_walk.specs.Chain.{held_of, seen_of, next_of, observer_of, links, AreNext};

use rv_base::Many;
use rv_diagram::{Ref, Store, StoreFault};
use rv_symbolic::{Parts, Relation};
use rv_walk::{BoxEnd, walk};
use std::alloc::Global;

/// What was found.
#[derive(Clone, Copy, Debug)]
pub struct Outcome {
    /// The nodes of the store before the walk.
    pub held: u32,
    /// Whether the observer is true everywhere.
    pub good: bool,
    /// How many layers there are, where it is not.
    pub layers: usize,
}

/// What a variable holds before a step, and false before the first.
fn held(store: &mut Store, x: u32) -> Result<Ref, StoreFault>
    requires some { 0 < store.old.variables }
    requires low { x < store.old.variables }
    ensures { IfOk result (λ r. Makes store.old store.new (held_of x) r) }
{
    let tick = store.variable(0)?;
    let before = store.variable(x)?;
    store.and(tick, before)
}

/// Whether the input is or was true.
fn seen(store: &mut Store, n: u32) -> Result<Ref, StoreFault>
    requires n { n ≤ 2000 }
    requires variables { store.old.variables ≡ 2 * n + 5 }
    ensures { IfOk result (λ r. Makes store.old store.new (seen_of n) r) }
{
    let before = held(store, 2)?;
    let input = store.variable(2 * n + 4)?;
    store.or(input, before)
}

/// What a state bit becomes.
fn next(store: &mut Store, n: u32, bit: u32) -> Result<Ref, StoreFault>
    requires n { n ≤ 2000 }
    requires variables { store.old.variables ≡ 2 * n + 5 }
    requires bit { bit < n + 2 }
    ensures { IfOk result (λ r. Makes store.old store.new (λ v. next_of n v (2 * bit)) r) }
{
    if bit == 0 {
        return Ok(store.constant(true));
    }
    if bit == 1 {
        return seen(store, n);
    }
    if bit == 2 {
        return store.variable(2 * n + 4);
    }
    held(store, 2 * bit - 2)
}

/// What each state bit becomes.
fn all_next(alloc: Global, store: &mut Store, n: u32) -> Result<Many<Ref>, StoreFault>
    requires n { n ≤ 2000 }
    requires variables { store.old.variables ≡ 2 * n + 5 }
    ensures { IfOk result (λ refs. AreNext n store.old store.new refs (n + 2)) }
{
    let mut refs = Vec::new(alloc);
    for bit in 0..n + 2 {
        let r = next(store, n, bit)?;
        refs.push(r)?;
    }
    Ok(Many::from_vec(refs))
}

/// Whether the last link is false or something was seen.
fn observer(store: &mut Store, n: u32) -> Result<Ref, StoreFault>
    requires n { n ≤ 2000 }
    requires variables { store.old.variables ≡ 2 * n + 5 }
    ensures { IfOk result (λ r. Makes store.old store.new (observer_of false n) r) }
{
    let last = held(store, 2 * n + 2)?;
    let some = seen(store, n)?;
    let nothing = store.not(some)?;
    let bad = store.and(last, nothing)?;
    store.not(bad)
}

/// Whether the last link is false.
fn strict_observer(store: &mut Store, n: u32) -> Result<Ref, StoreFault>
    requires n { n ≤ 2000 }
    requires variables { store.old.variables ≡ 2 * n + 5 }
    ensures { IfOk result (λ r. Makes store.old store.new (observer_of true n) r) }
{
    let last = held(store, 2 * n + 2)?;
    store.not(last)
}

/// One of the two observers.
fn chosen_observer(store: &mut Store, n: u32, strict: bool) -> Result<Ref, StoreFault>
    requires n { n ≤ 2000 }
    requires variables { store.old.variables ≡ 2 * n + 5 }
    ensures { IfOk result (λ r. Makes store.old store.new (observer_of strict n) r) }
{
    if strict {
        return strict_observer(store, n);
    }
    observer(store, n)
}

/// Whether no step has been made.
fn initial(store: &mut Store) -> Result<Ref, StoreFault>
    requires { 0 < store.old.variables }
    ensures { IfOk result (λ r. Makes store.old store.new (λ v. not (v 0)) r) }
{
    let tick = store.variable(0)?;
    store.not(tick)
}

/// The references of the row.
fn parts(alloc: Global, store: &mut Store, n: u32, strict: bool) -> Result<Parts, StoreFault>
    requires n { n ≤ 2000 }
    requires variables { store.old.variables ≡ 2 * n + 5 }
    ensures refs { IfOk result (HaveRefs store.new) }
    ensures means { IfOk result (AreParts (links strict n) store.new) }
{
    let next = all_next(alloc, store, n)?;
    let observer = chosen_observer(store, n, strict)?;
    let initial = initial(store)?;
    let allowed = store.constant(true);
    Ok(Parts {
        allowed,
        observer,
        initial,
        next,
    })
}

/// The row as a relation in a store.
fn made(alloc: Global, store: &mut Store, n: u32, strict: bool) -> Result<Relation, StoreFault>
    requires n { n ≤ 2000 }
    requires variables { store.old.variables ≡ 2 * n + 5 }
    ensures { IfOk result (IsRelationOf (links strict n) store.new) }
{
    let parts = parts(alloc, store, n, strict)?;
    Relation::new(alloc, store, parts)
}

/// Walks through the control states of a row of n links.
pub fn run(alloc: Global, n: u32, strict: bool, limit: u32) -> Result<Outcome, StoreFault>
    requires n { n ≤ 2000 }
    requires limit { limit ≤ 33554432 }
{
    let mut store = Store::new(alloc, 2 * n + 5, limit)?;
    let relation = made(alloc, &mut store, n, strict)?;
    let held = store.mark();
    let (good, layers) = match walk(alloc, &mut store, &relation)? {
        BoxEnd::Good(_) => (true, 0),
        BoxEnd::Bad(layers) => (false, layers.sets.len()),
    };
    Ok(Outcome { held, good, layers })
}
