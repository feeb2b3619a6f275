//! The control states in which the observer may be false. The store is left as it was.

ghost use Rattle.std.specs.Prelude.{◌≡◌, ◌≤◌, ◌<◌, ◌^◌, IfOk, IsErrOf};
ghost use Rattle.rv_diagram.specs.Nodes.{valuation_of};
ghost use Rattle.rv_diagram.specs.Growing.{Extends};
ghost use Rattle.rv_proofs.specs.Systems.{System};
ghost use Rattle.rv_symbolic.specs.Represented.{IsRelationOf};
ghost use Rattle.rv_symbolic.specs.Variables.{is_of, AreAllBut};
ghost use Rattle.rv_left.specs.Failures.{IsFailingSet};

use rv_base::{Many, Memory};
use rv_diagram::{Frozen, Store, StoreFault};
use rv_symbolic::Relation;
use std::alloc::Global;

/// Whether x is one of the first `bits` state bits.
fn is_bit(bits: u32, x: u32) -> bool
    requires { bits ≤ 4096 }
    ensures { result ≡ is_of bits 0 x }
{
    x < 2 * bits && x % 2 == 0
}

/// All variables but the first `bits` state bits.
fn all_but_bits(alloc: Global, variables: u32, bits: u32) -> Result<Many<bool>, Memory>
    requires { bits ≤ 4096 }
    ensures { IfOk result (λ given. AreAllBut variables bits 0 (valuation_of given)) }
{
    let mut given = Vec::new(alloc);
    for x in 0..variables {
        given.push(!is_bit(bits, x))?;
    }
    Ok(Many::from_vec(given))
}

/// The control states in which the observer may be false, with what was built of them.
fn failing_in(alloc: Global, store: &mut Store, relation: &Relation) -> Result<Frozen, StoreFault>
    requires { (s : System) × IsRelationOf s store.old relation.now }
    ensures extends { Extends store.old store.new }
    ensures roomy { IsErrOf result StoreFault.Nodes → store.old.limit < 2 ^ (2 ^ store.old.variables) }
    ensures exact { (s : System) → IsRelationOf s store.old relation.now → IfOk result (IsFailingSet s) }
{
    let parts = relation.parts();
    let bits = relation.state_bits();
    let variables = store.variables();
    let others = all_but_bits(alloc, variables, bits)?;
    let never = store.constant(false);
    let bad = store.ite(parts.observer, never, parts.allowed)?;
    let states = store.exists_each(bad, others.as_slice())?;
    Ok(store.freeze(states)?)
}

/// Exactly the control states of the allowed valuations at which the observer is false. Nodes comes where the store has no room for what is built on
/// the way, never where its limit holds every function of its variables, and Memory where there is none.
pub fn failing(alloc: Global, store: &mut Store, relation: &Relation) -> Result<Frozen, StoreFault>
    requires { (s : System) × IsRelationOf s store.old relation.now }
    ensures exact { (s : System) → IsRelationOf s store.old relation.now → IfOk result (IsFailingSet s) }
    ensures same { store.new ≡ store.old }
    ensures roomy { IsErrOf result StoreFault.Nodes → store.old.limit < 2 ^ (2 ^ store.old.variables) }
{
    let mark = store.mark();
    let answer = failing_in(alloc, store, relation);
    store.release(mark);
    answer
}
