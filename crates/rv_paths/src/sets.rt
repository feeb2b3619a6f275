//! Sets of control states in a store, which is left as it was.

ghost use Rattle.std.specs.Prelude.{◌≡◌, ◌<◌, ◌^◌, IsErrOf};
ghost use Rattle.rv_diagram.specs.Nodes.{IsOrderedOver};
ghost use Rattle.rv_diagram.specs.Growing.{Extends};

use rv_diagram::{Frozen, Store, StoreFault};

/// Whether the first set is within the second, with what was built of it.
fn is_within_in(store: &mut Store, a: &Frozen, b: &Frozen) -> Result<bool, StoreFault>
    requires a { IsOrderedOver store.old.variables a.now }
    requires b { IsOrderedOver store.old.variables b.now }
    ensures extends { Extends store.old store.new }
    ensures roomy { IsErrOf result StoreFault.Nodes → store.old.limit < 2 ^ (2 ^ store.old.variables) }
{
    let one = store.thaw(a)?;
    let other = store.thaw(b)?;
    let yes = store.implies(one, other)?;
    Ok(yes)
}

/// Whether the first set is within the second. Equal sets are told at once.
pub fn is_within(store: &mut Store, a: &Frozen, b: &Frozen) -> Result<bool, StoreFault>
    requires a { IsOrderedOver store.old.variables a.now }
    requires b { IsOrderedOver store.old.variables b.now }
    ensures same { store.new ≡ store.old }
    ensures roomy { IsErrOf result StoreFault.Nodes → store.old.limit < 2 ^ (2 ^ store.old.variables) }
{
    if *a == *b {
        return Ok(true);
    }
    let mark = store.mark();
    let answer = is_within_in(store, a, b);
    store.release(mark);
    answer
}
