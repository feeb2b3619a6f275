//! Sets of control states in a store. `extend` and `without` leave it as it was; what `grow` and `keep` build of a union stays there.

ghost use Rattle.std.specs.Prelude.{◌≡◌, ◌<◌, ◌≤◌, ◌^◌, ◌&&◌, not, false, length, Some, IfOk, IsErrOf, MatchOption};
ghost use Rattle.rv_diagram.specs.Nodes.{Valuation, Diagrams, value_of, IsRef, IsOrderedOver};
ghost use Rattle.rv_diagram.specs.Growing.{Extends};
ghost use Rattle.rv_proofs.specs.Systems.{System};
ghost use Rattle.rv_proofs.specs.Ranges.{IsControlSet};
ghost use Rattle.rv_symbolic.specs.Growing.{Makes};
ghost use Rattle.rv_walk.specs.declared.sets.Extended.{Extended as ExtendedModel};
ghost use Rattle.rv_walk.specs.Extended.{fresh_of, either_of, fresh_in, either_in, IsTaken, IsExtended, IsWithout, IsGrown, IsLifted};

use rv_base::Memory;
use rv_diagram::{Frozen, Ref, Store, StoreFault};

/// What is new in a set, and all.
#[derive(Debug, Drop)]
pub struct Extended {
    /// What is new.
    pub fresh: Frozen,
    /// What was there and what is new.
    pub all: Frozen,
}

/// What is new in a set, and all, which stays in the store.
#[derive(Debug, Drop)]
pub struct Grown {
    /// What is new, by itself.
    pub fresh: Frozen,
    /// What was there and what is new.
    pub all: Ref,
}

/// How many nodes a walk builds until what is no longer needed is released, so that its tables stay small.
pub const MOST_KEPT: u32 = 512;

/// The same in the store.
#[derive(Debug, Drop)]
struct Joined {
    fresh: Ref,
    all: Ref,
}

/// The first without the second.
fn rest(store: &mut Store, a: Ref, b: Ref) -> Result<Ref, StoreFault>
    requires a { IsRef store.old.nodes a }
    requires b { IsRef store.old.nodes b }
    ensures extends { Extends store.old store.new }
    ensures roomy { IsErrOf result StoreFault.Nodes → store.old.limit < 2 ^ (2 ^ store.old.variables) }
    ensures ok { IfOk result (λ r. Makes store.old store.new (λ v. value_of store.old.nodes a v && not (value_of store.old.nodes b v)) r) }
{
    let nothing = store.constant(false);
    store.ite(b, nothing, a)
}

/// What of `next` is not in a set of the store, and both together, with what was built of them.
fn join_to(store: &mut Store, before: Ref, next: &Frozen) -> Result<Joined, StoreFault>
    requires before { IsRef store.old.nodes before }
    requires next { IsOrderedOver store.old.variables next.now }
    ensures extends { Extends store.old store.new }
    ensures roomy { IsErrOf result StoreFault.Nodes → store.old.limit < 2 ^ (2 ^ store.old.variables) }
    ensures fresh { IfOk result (λ j. Makes store.old store.new (fresh_in (value_of store.old.nodes before) next.now) j.fresh) }
    ensures all { IfOk result (λ j. Makes store.old store.new (either_in (value_of store.old.nodes before) next.now) j.all) }
{
    let step = store.thaw(next)?;
    let fresh = rest(store, step, before)?;
    let all = store.or(step, before)?;
    Ok(Joined { fresh, all })
}

/// What of `next` is not in `reached`, and both together, with what was built of them.
fn join(store: &mut Store, reached: &Frozen, next: &Frozen) -> Result<Joined, StoreFault>
    requires reached { IsOrderedOver store.old.variables reached.now }
    requires next { IsOrderedOver store.old.variables next.now }
    ensures extends { Extends store.old store.new }
    ensures roomy { IsErrOf result StoreFault.Nodes → store.old.limit < 2 ^ (2 ^ store.old.variables) }
    ensures fresh { IfOk result (λ j. Makes store.old store.new (fresh_of reached.now next.now) j.fresh) }
    ensures all { IfOk result (λ j. Makes store.old store.new (either_of reached.now next.now) j.all) }
{
    let before = store.thaw(reached)?;
    join_to(store, before, next)
}

/// The first by itself, or none where nothing is new.
fn take_fresh(store: &Store, joined: &Joined) -> Result<Option<Grown>, Memory>
    requires fresh { IsRef store.now.nodes joined.now.fresh }
    ensures { IfOk result (λ found. MatchOption found ((v : Valuation) → value_of store.now.nodes joined.now.fresh v ≡ false)
        (IsLifted store.now joined.now.fresh joined.now.all)) }
{
    if store.is_false(joined.fresh) {
        return Ok(None);
    }
    let fresh = store.freeze(joined.fresh)?;
    Ok(Some(Grown {
        fresh,
        all: joined.all,
    }))
}

/// What of `next` is not in a set of the store, by itself, and both together in the store, or none where nothing is new.
pub fn grow(store: &mut Store, reached: Ref, next: &Frozen) -> Result<Option<Grown>, StoreFault>
    requires reached { IsRef store.old.nodes reached }
    requires next { IsOrderedOver store.old.variables next.now }
    ensures extends { Extends store.old store.new }
    ensures roomy { IsErrOf result StoreFault.Nodes → store.old.limit < 2 ^ (2 ^ store.old.variables) }
    ensures exact { IfOk result (λ found. MatchOption found ((v : Valuation) → fresh_in (value_of store.old.nodes reached) next.now v ≡ false)
        (IsGrown store.old store.new reached next.now)) }
{
    let joined = join_to(store, reached, next)?;
    Ok(take_fresh(store, &joined)?)
}

/// A set in a store out of which all else is released.
#[derive(Debug, Drop)]
pub struct Kept {
    /// The set.
    pub set: Ref,
    /// How many nodes there may be until the next release.
    pub most: u32,
}

/// The set again, in a store that is released to its first nodes, or as it was where it has no more than `most` nodes.
pub fn keep(store: &mut Store, first: u32, set: Ref, most: u32) -> Result<Kept, StoreFault>
    requires set { IsRef store.old.nodes set }
    requires first { first ≤ length store.old.nodes }
    ensures extends { (d : Diagrams) → first ≡ length d.nodes → Extends d store.old → Extends d store.new }
    ensures roomy { IsErrOf result StoreFault.Nodes → store.old.limit < 2 ^ (2 ^ store.old.variables) }
    ensures found { IfOk result (λ k. IsRef store.new.nodes k.set) }
    ensures means { IfOk result (λ k. (v : Valuation) → value_of store.new.nodes k.set v ≡ value_of store.old.nodes set v) }
{
    if store.mark() <= most {
        return Ok(Kept { set, most });
    }
    let frozen = store.freeze(set)?;
    store.release(first);
    let set = store.thaw(&frozen)?;
    let most = store.mark().saturating_add(MOST_KEPT);
    Ok(Kept { set, most })
}

/// The sets by themselves, or none where nothing is new.
fn take_sets(store: &Store, joined: &Joined) -> Result<Option<Extended>, Memory>
    requires fresh { IsRef store.now.nodes joined.now.fresh }
    requires all { IsRef store.now.nodes joined.now.all }
    ensures { IfOk result (λ found. MatchOption found ((v : Valuation) → value_of store.now.nodes joined.now.fresh v ≡ false)
        (IsTaken store.now joined.now.fresh joined.now.all)) }
{
    if store.is_false(joined.fresh) {
        return Ok(None);
    }
    let fresh = store.freeze(joined.fresh)?;
    let all = store.freeze(joined.all)?;
    Ok(Some(Extended { fresh, all }))
}

/// What is new in a set, and all, with what was built of it.
fn extend_in(
    store: &mut Store,
    reached: &Frozen,
    next: &Frozen,
) -> Result<Option<Extended>, StoreFault>
    requires reached { IsOrderedOver store.old.variables reached.now }
    requires next { IsOrderedOver store.old.variables next.now }
    ensures extends { Extends store.old store.new }
    ensures roomy { IsErrOf result StoreFault.Nodes → store.old.limit < 2 ^ (2 ^ store.old.variables) }
    ensures exact { IfOk result (λ found. MatchOption found ((v : Valuation) → fresh_of reached.now next.now v ≡ false)
        (IsExtended store.old.variables reached.now next.now)) }
{
    let joined = join(store, reached, next)?;
    Ok(take_sets(store, &joined)?)
}

/// What of `next` is not in `reached`, and both together, or none where nothing is new. Of two sets of control states both are such.
/// The store is left as it was.
pub fn extend(
    store: &mut Store,
    reached: &Frozen,
    next: &Frozen,
) -> Result<Option<Extended>, StoreFault>
    requires reached { IsOrderedOver store.old.variables reached.now }
    requires next { IsOrderedOver store.old.variables next.now }
    ensures exact { IfOk result (λ found. MatchOption found ((v : Valuation) → fresh_of reached.now next.now v ≡ false)
        (IsExtended store.old.variables reached.now next.now)) }
    ensures control { (s : System) → store.old.variables ≡ s.variables → IsControlSet s reached.now → IsControlSet s next.now
        → IfOk result (λ found. (e : ExtendedModel) → found ≡ Some e → IsControlSet s e.fresh × IsControlSet s e.all) }
    ensures same { store.new ≡ store.old }
    ensures roomy { IsErrOf result StoreFault.Nodes → store.old.limit < 2 ^ (2 ^ store.old.variables) }
{
    let mark = store.mark();
    let answer = extend_in(store, reached, next);
    store.release(mark);
    answer
}

/// What of the first set is not in the second, with what was built of it.
fn without_in(store: &mut Store, a: &Frozen, b: &Frozen) -> Result<Frozen, StoreFault>
    requires a { IsOrderedOver store.old.variables a.now }
    requires b { IsOrderedOver store.old.variables b.now }
    ensures extends { Extends store.old store.new }
    ensures roomy { IsErrOf result StoreFault.Nodes → store.old.limit < 2 ^ (2 ^ store.old.variables) }
    ensures exact { IfOk result (IsWithout store.old.variables a.now b.now) }
{
    let one = store.thaw(a)?;
    let other = store.thaw(b)?;
    let left = rest(store, one, other)?;
    Ok(store.freeze(left)?)
}

/// What of the first set is not in the second: a set of control states where both are. The store is left as it was.
pub fn without(store: &mut Store, a: &Frozen, b: &Frozen) -> Result<Frozen, StoreFault>
    requires a { IsOrderedOver store.old.variables a.now }
    requires b { IsOrderedOver store.old.variables b.now }
    ensures exact { IfOk result (IsWithout store.old.variables a.now b.now) }
    ensures control { (s : System) → store.old.variables ≡ s.variables → IsControlSet s a.now → IsControlSet s b.now
        → IfOk result (IsControlSet s) }
    ensures same { store.new ≡ store.old }
    ensures roomy { IsErrOf result StoreFault.Nodes → store.old.limit < 2 ^ (2 ^ store.old.variables) }
{
    let mark = store.mark();
    let answer = without_in(store, a, b);
    store.release(mark);
    answer
}
