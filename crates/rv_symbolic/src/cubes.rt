//! The cube of a control state at the next copies.

ghost use Rattle.std.specs.Prelude.{◌≡◌, ◌*◌, ◌<◌, ◌≤◌, ◌^◌, true, length, IfOk, IsErrOf};
ghost use Rattle.rv_diagram.specs.Nodes.{value_of, IsRef};
ghost use Rattle.rv_diagram.specs.Growing.{Extends};
ghost use Rattle.rv_symbolic.specs.Growing.{Finds};
ghost use Rattle.rv_symbolic.specs.Words.{AreCopies};

use rv_diagram::{Ref, Store, StoreFault};

/// The valuations of a set at which a variable has a value.
fn literal(store: &mut Store, variable: u32, value: bool, rest: Ref) -> Result<Ref, StoreFault>
    requires variable { variable < store.old.variables }
    requires rest { IsRef store.old.nodes rest }
    ensures extends { Extends store.old store.new }
    ensures roomy { IsErrOf result StoreFault.Nodes → store.old.limit < 2 ^ (2 ^ store.old.variables) }
    ensures ok { IfOk result (λ r. Finds store.old store.new (λ v. (v variable ≡ value) × (value_of store.old.nodes rest v ≡ true)) r) }
{
    let never = store.constant(false);
    let bit = store.variable(variable)?;
    if value {
        store.ite(bit, rest, never)
    } else {
        store.ite(bit, never, rest)
    }
}

/// The valuations whose first `bits` next copies have the values that a word gives the state bits. From the last next copy up, so that
/// what is there has greater variables alone, and each takes two nodes at the most.
pub fn cube(store: &mut Store, word: &[bool], bits: u32) -> Result<Ref, StoreFault>
    requires word { 2 * bits ≤ length word.now }
    requires low { 2 * bits ≤ store.old.variables }
    requires few { store.old.variables ≤ 4096 }
    ensures extends { Extends store.old store.new }
    ensures roomy { IsErrOf result StoreFault.Nodes → store.old.limit < 2 ^ (2 ^ store.old.variables) }
    ensures ok { IfOk result (λ r. Finds store.old store.new (AreCopies word.now bits) r) }
{
    let mut cube = store.constant(true);
    for back in 0..bits {
        let i = bits - 1 - back;
        cube = literal(store, 2 * i + 1, word[2 * i as usize], cube)?;
    }
    Ok(cube)
}
