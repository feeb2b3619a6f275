//! Whether two sets have a valuation in common. The store is left as it was.

ghost use Rattle.std.specs.Prelude.{◌≡◌, ◌<◌, ◌^◌, true, false, IfOk, IsErrOf, MatchBool};
ghost use Rattle.rv_diagram.specs.Nodes.{Valuation, value_of, IsRef, IsOrderedOver};
ghost use Rattle.rv_diagram.specs.Growing.{Extends};
ghost use Rattle.rv_walk.specs.Ends.{has};
ghost use Rattle.rv_left.specs.Meeting.{IsEither};

use rv_base::Memory;
use rv_diagram::{Frozen, Ref, Store, StoreFault};

/// Whether some valuation makes it true.
fn is_met(store: &Store, a: Ref) -> Result<bool, Memory>
    requires { IsRef store.now.nodes a }
    ensures { IfOk result (λ met. MatchBool met ((v : Valuation) × (value_of store.now.nodes a v ≡ true))
        ((v : Valuation) → value_of store.now.nodes a v ≡ false)) }
{
    match store.pick(a)? {
        Some(_) => Ok(true),
        None => Ok(false),
    }
}

/// Whether some valuation makes both true, with what was built of it.
fn meets_in(store: &mut Store, a: Ref, b: Ref) -> Result<bool, StoreFault>
    requires a { IsRef store.old.nodes a }
    requires b { IsRef store.old.nodes b }
    ensures extends { Extends store.old store.new }
    ensures roomy { IsErrOf result StoreFault.Nodes → store.old.limit < 2 ^ (2 ^ store.old.variables) }
    ensures exact { IfOk result (IsEither (value_of store.old.nodes a) (value_of store.old.nodes b)) }
{
    let both = store.and(a, b)?;
    Ok(is_met(store, both)?)
}

/// Whether some valuation makes both true.
pub fn meets(store: &mut Store, a: Ref, b: Ref) -> Result<bool, StoreFault>
    requires a { IsRef store.old.nodes a }
    requires b { IsRef store.old.nodes b }
    ensures exact { IfOk result (IsEither (value_of store.old.nodes a) (value_of store.old.nodes b)) }
    ensures same { store.new ≡ store.old }
    ensures roomy { IsErrOf result StoreFault.Nodes → store.old.limit < 2 ^ (2 ^ store.old.variables) }
{
    let mark = store.mark();
    let answer = meets_in(store, a, b);
    store.release(mark);
    answer
}

/// Whether two sets that stand by themselves have a valuation in common, with what was built of it.
fn sets_meet_in(store: &mut Store, a: &Frozen, b: &Frozen) -> Result<bool, StoreFault>
    requires a { IsOrderedOver store.old.variables a.now }
    requires b { IsOrderedOver store.old.variables b.now }
    ensures extends { Extends store.old store.new }
    ensures roomy { IsErrOf result StoreFault.Nodes → store.old.limit < 2 ^ (2 ^ store.old.variables) }
    ensures exact { IfOk result (IsEither (has a.now) (has b.now)) }
{
    let one = store.thaw(a)?;
    let other = store.thaw(b)?;
    meets(store, one, other)
}

/// Whether two sets that stand by themselves have a valuation in common.
pub fn sets_meet(store: &mut Store, a: &Frozen, b: &Frozen) -> Result<bool, StoreFault>
    requires a { IsOrderedOver store.old.variables a.now }
    requires b { IsOrderedOver store.old.variables b.now }
    ensures exact { IfOk result (IsEither (has a.now) (has b.now)) }
    ensures same { store.new ≡ store.old }
    ensures roomy { IsErrOf result StoreFault.Nodes → store.old.limit < 2 ^ (2 ^ store.old.variables) }
{
    let mark = store.mark();
    let answer = sets_meet_in(store, a, b);
    store.release(mark);
    answer
}
