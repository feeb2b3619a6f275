//! A falsifying run of a system without columns, found back through the layers.

ghost use Rattle.std.specs.Prelude.{◌≡◌, ◌<◌, ◌^◌, ℕ, ℤ, Bool, List, Ok, Some, None, slice_get, IfOk, IsErrOf};
ghost use Rattle.rv_diagram.specs.declared.frozen.Frozen.{Frozen as FrozenModel};
ghost use Rattle.rv_diagram.specs.Growing.{Extends};
ghost use Rattle.rv_proofs.specs.Systems.{System};
ghost use Rattle.rv_proofs.specs.Ranges.{IsControlSet};
ghost use Rattle.rv_walk.specs.Paths.{IsFalsifyingPath, IsShortestPath};
ghost use Rattle.rv_open.specs.Columns.{AreLeastBadLayers};
ghost use Rattle.rv_open.specs.Given.{IsConstant};

use crate::counting::counted;
use rv_base::Many;
use rv_cases::Questions;
use rv_diagram::{Store, StoreFault};
use rv_proofs::Layers;
use rv_symbolic::Relation;
use rv_walk::falsifying_path;
use std::alloc::Global;

/// The run, with what was built of it. Where there are no tests, the allowed valuations are those that count.
fn path_in(
    alloc: Global,
    store: &mut Store,
    relation: &Relation,
    questions: &Questions,
    layers: &Layers,
) -> Result<Option<Many<Many<bool>>>, StoreFault>
    requires { (s : System) × IsConstant s store.old relation.now questions.now
        × ((t : ℕ) (set : FrozenModel) → slice_get layers.now.sets t ≡ Some set → IsControlSet s set) }
    ensures falsifies { (s : System) (words : List (List Bool)) → IsConstant s store.old relation.now questions.now
        → ((t : ℕ) (set : FrozenModel) → slice_get layers.now.sets t ≡ Some set → IsControlSet s set)
        → result ≡ Ok (Some words) → IsFalsifyingPath s words }
    ensures shortest { (s : System) (thresholds : List ℤ) (words : List (List Bool)) → IsConstant s store.old relation.now questions.now
        → AreLeastBadLayers s thresholds layers.now → result ≡ Ok (Some words) → IsShortestPath s words }
    ensures found { (s : System) (thresholds : List ℤ) → IsConstant s store.old relation.now questions.now → AreLeastBadLayers s thresholds layers.now
        → IfOk result (λ path. path ≡ None → ⊥) }
    ensures extends { Extends store.old store.new }
    ensures roomy { IsErrOf result StoreFault.Nodes → store.old.limit < 2 ^ (2 ^ store.old.variables) }
{
    if questions.rows.is_empty() {
        return falsifying_path(alloc, store, relation, layers);
    }
    let counted = counted(alloc, store, relation, questions)?;
    falsifying_path(alloc, store, &counted, layers)
}

/// A run of a system without columns along which the assertions hold and at whose last instant the observer is false for the first time, found
/// back through the layers: at each instant the least valuation picked of those that are allowed and with which a point agrees. `relation` and
/// `questions` are those of the system in the store. One word for each instant, with a truth value for each diagram variable; those of next
/// copies mean nothing. Where the layers are those of the least closed claim, which is not good, some run is found, and none has fewer
/// instants. The store is left as it was, after a fault too. Nodes comes where the store has no room for what is built on the way, never where its
/// limit holds every function of its variables, and Memory where there is none.
pub fn open_path(
    alloc: Global,
    store: &mut Store,
    relation: &Relation,
    questions: &Questions,
    layers: &Layers,
) -> Result<Option<Many<Many<bool>>>, StoreFault>
    requires { (s : System) × IsConstant s store.old relation.now questions.now
        × ((t : ℕ) (set : FrozenModel) → slice_get layers.now.sets t ≡ Some set → IsControlSet s set) }
    ensures falsifies { (s : System) (words : List (List Bool)) → IsConstant s store.old relation.now questions.now
        → ((t : ℕ) (set : FrozenModel) → slice_get layers.now.sets t ≡ Some set → IsControlSet s set)
        → result ≡ Ok (Some words) → IsFalsifyingPath s words }
    ensures shortest { (s : System) (thresholds : List ℤ) (words : List (List Bool)) → IsConstant s store.old relation.now questions.now
        → AreLeastBadLayers s thresholds layers.now → result ≡ Ok (Some words) → IsShortestPath s words }
    ensures found { (s : System) (thresholds : List ℤ) → IsConstant s store.old relation.now questions.now → AreLeastBadLayers s thresholds layers.now
        → IfOk result (λ path. path ≡ None → ⊥) }
    ensures same { store.new ≡ store.old }
    ensures roomy { IsErrOf result StoreFault.Nodes → store.old.limit < 2 ^ (2 ^ store.old.variables) }
{
    let mark = store.mark();
    let answer = path_in(alloc, store, relation, questions, layers);
    store.release(mark);
    answer
}
