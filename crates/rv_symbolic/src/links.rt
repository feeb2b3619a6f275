//! The relation between a valuation and its next control state, in parts that are joined as long as they stay small.

ghost use Rattle.std.specs.Prelude.{◌≡◌, ◌+◌, ◌-◌, ◌*◌, ◌<◌, ◌≤◌, ◌^◌, ◌↔◌, true, false, length, IfOk, IfSome, IfNone, IsErrOf};
ghost use Rattle.rv_diagram.specs.Nodes.{Valuation, value_of, IsRef, IsOrderedOver};
ghost use Rattle.rv_diagram.specs.Growing.{Extends};
ghost use Rattle.rv_proofs.specs.Scopes.{IsIn};
ghost use Rattle.rv_symbolic.specs.Growing.{Finds};
ghost use Rattle.rv_symbolic.specs.Linked.{AreRefs, AreLinkedBetween, AreParted};

use rv_base::Many;
use rv_diagram::{Frozen, Ref, Store, StoreFault};
use std::alloc::Global;

/// How many nodes a part of the relation may take in the making. In a product the memories that one part alone reads are quantified before the
/// next part is met: where all parts read the same inputs, a relation in one part is much the cheaper.
const MOST_MADE: u32 = 4000;

/// How many nodes one more next copy may take in any case. In a row of links each takes some twenty at first and more as the part
/// grows.
const MOST_ADDED: u32 = 256;

/// A relation in which next copy i also has the value of `next`.
fn link(store: &mut Store, whole: Ref, i: u32, next: Ref) -> Result<Ref, StoreFault>
    requires whole { IsRef store.old.nodes whole }
    requires next { IsRef store.old.nodes next }
    requires low { 2 * i + 1 < store.old.variables }
    requires few { store.old.variables ≤ 4096 }
    ensures extends { Extends store.old store.new }
    ensures roomy { IsErrOf result StoreFault.Nodes → store.old.limit < 2 ^ (2 ^ store.old.variables) }
    ensures ok { IfOk result (λ r. Finds store.old store.new
        (λ v. (v (2 * i + 1) ≡ value_of store.old.nodes next v) × (value_of store.old.nodes whole v ≡ true)) r) }
{
    let not_next = store.not(next)?;
    let copy = store.variable(2 * i + 1)?;
    let same = store.ite(copy, next, not_next)?;
    store.and(same, whole)
}

/// The same where it takes few nodes more, or where the part that began at `first` stays small, or where it must be. Else
/// the store is left as it was, also where there is no room for it.
fn joined(
    store: &mut Store,
    whole: Ref,
    i: u32,
    next: Ref,
    first: u32,
    must: bool,
) -> Result<Option<Ref>, StoreFault>
    requires whole { IsRef store.old.nodes whole }
    requires next { IsRef store.old.nodes next }
    requires low { 2 * i + 1 < store.old.variables }
    requires few { store.old.variables ≤ 4096 }
    requires first { first ≤ length store.old.nodes }
    ensures extends { Extends store.old store.new }
    ensures roomy { IsErrOf result StoreFault.Nodes → store.old.limit < 2 ^ (2 ^ store.old.variables) }
    ensures ok { IfOk result (λ o. IfSome o (λ r. Finds store.old store.new
        (λ v. (v (2 * i + 1) ≡ value_of store.old.nodes next v) × (value_of store.old.nodes whole v ≡ true)) r)) }
    ensures none { IfOk result (λ o. IfNone o (must ≡ false × store.new ≡ store.old)) }
{
    if must {
        return Ok(Some(link(store, whole, i, next)?));
    }
    let mark = store.mark();
    match link(store, whole, i, next) {
        Ok(r) => {
            let made = store.mark();
            if made - mark <= MOST_ADDED || made - first <= MOST_MADE {
                return Ok(Some(r));
            }
        }
        Err(StoreFault::Nodes) => {}
        Err(StoreFault::Memory) => return Err(StoreFault::Memory),
    }
    store.release(mark);
    Ok(None)
}

/// A part of the relation, and the first of the next copies that it links.
#[derive(Debug, Drop)]
struct Links {
    relation: Ref,
    start: usize,
}

/// The relation in which next copies below `end` have the values of their references, the last one first: what is joined
/// then has variables below those of the rest, which is left as it is. It ends where one more would make it too large.
fn link_some(store: &mut Store, next: &[Ref], end: usize) -> Result<Links, StoreFault>
    requires next { AreRefs store.old.nodes next.now }
    requires end { end ≤ length next.now }
    requires low { 2 * length next.now ≤ store.old.variables }
    requires few { store.old.variables ≤ 4096 }
    ensures extends { Extends store.old store.new }
    ensures roomy { IsErrOf result StoreFault.Nodes → store.old.limit < 2 ^ (2 ^ store.old.variables) }
    ensures some { IfOk result (λ l. 0 < end → l.start < end) }
    ensures ok { IfOk result (λ l. Finds store.old store.new (AreLinkedBetween store.old.nodes next.now l.start end) l.relation) }
{
    let first = store.mark();
    let mut relation = store.constant(true);
    for back in 0..end {
        let i = end - 1 - back;
        match joined(store, relation, i as u32, next[i], first, back == 0)? {
            Some(r) => relation = r,
            None => {
                return Ok(Links {
                    relation,
                    start: i + 1,
                });
            }
        }
    }
    Ok(Links { relation, start: 0 })
}

/// A part of the relation by itself, and the first of the next copies that it links.
#[derive(Debug, Drop)]
struct Alone {
    relation: Frozen,
    start: usize,
}

/// The same relation by itself. The store is left as it was.
fn linked(store: &mut Store, next: &[Ref], end: usize) -> Result<Alone, StoreFault>
    requires next { AreRefs store.old.nodes next.now }
    requires end { end ≤ length next.now }
    requires low { 2 * length next.now ≤ store.old.variables }
    requires few { store.old.variables ≤ 4096 }
    ensures ordered { IfOk result (λ l. IsOrderedOver store.old.variables l.relation) }
    ensures some { IfOk result (λ l. 0 < end → l.start < end) }
    ensures exact { IfOk result (λ l. (v : Valuation) → IsIn l.relation v ↔ AreLinkedBetween store.old.nodes next.now l.start end v) }
    ensures same { store.new ≡ store.old }
    ensures roomy { IsErrOf result StoreFault.Nodes → store.old.limit < 2 ^ (2 ^ store.old.variables) }
{
    let mark = store.mark();
    let (frozen, start) = match link_some(store, next, end) {
        Ok(links) => (store.freeze(links.relation), links.start),
        Err(fault) => {
            store.release(mark);
            return Err(fault);
        }
    };
    store.release(mark);
    Ok(Alone {
        relation: frozen?,
        start,
    })
}

/// The same relation in the store, without what was built of it on the way.
fn part(store: &mut Store, next: &[Ref], end: usize) -> Result<Links, StoreFault>
    requires next { AreRefs store.old.nodes next.now }
    requires end { end ≤ length next.now }
    requires low { 2 * length next.now ≤ store.old.variables }
    requires few { store.old.variables ≤ 4096 }
    ensures extends { Extends store.old store.new }
    ensures roomy { IsErrOf result StoreFault.Nodes → store.old.limit < 2 ^ (2 ^ store.old.variables) }
    ensures some { IfOk result (λ l. 0 < end → l.start < end) }
    ensures ok { IfOk result (λ l. Finds store.old store.new (AreLinkedBetween store.old.nodes next.now l.start end) l.relation) }
{
    let alone = linked(store, next, end)?;
    let relation = store.thaw(&alone.relation)?;
    Ok(Links {
        relation,
        start: alone.start,
    })
}

/// The relation in which each next copy has the value of its reference, in one part or more.
pub fn relations(alloc: Global, store: &mut Store, next: &[Ref]) -> Result<Many<Ref>, StoreFault>
    requires next { AreRefs store.old.nodes next.now }
    requires low { 2 * length next.now ≤ store.old.variables }
    requires few { store.old.variables ≤ 4096 }
    ensures extends { Extends store.old store.new }
    ensures roomy { IsErrOf result StoreFault.Nodes → store.old.limit < 2 ^ (2 ^ store.old.variables) }
    ensures some { IfOk result (λ relations. 0 < length relations) }
    ensures ok { IfOk result (AreParted store.old store.new next.now 0 (length next.now)) }
{
    let mut relations = Vec::new(alloc);
    let mut end = next.len();
    while end > 0 {
        let links = part(store, next, end)?;
        relations.push(links.relation)?;
        end = links.start;
    }
    if relations.is_empty() {
        relations.push(store.constant(true))?;
    }
    Ok(Many::from_vec(relations))
}
