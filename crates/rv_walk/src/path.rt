//! A falsifying run, found back through the layers.

ghost use Rattle.std.specs.Prelude.{◌≡◌, ◌<◌, ◌^◌, ℕ, Bool, List, Ok, Some, None, length, reverse, slice_get, IfOk, IsErrOf};
ghost use Rattle.rv_diagram.specs.declared.frozen.Frozen.{Frozen as FrozenModel};
ghost use Rattle.rv_proofs.specs.Systems.{System};
ghost use Rattle.rv_proofs.specs.Ranges.{IsControlSet};
ghost use Rattle.rv_proofs.specs.Reached.{HasNoIntegers};
ghost use Rattle.rv_symbolic.specs.Represented.{IsRelationOf};
ghost use Rattle.rv_walk.specs.Ends.{AreBadLayers};
ghost use Rattle.rv_walk.specs.Paths.{IsFalsifyingPath, IsShortestPath};
ghost use Rattle.rv_walk.specs.Trails.{layer_at, AreControlSets, IsFailing, IsFirstFailing, IsTrailed, IsPathThrough};

use rv_base::Many;
use rv_diagram::{Frozen, Store, StoreFault};
use rv_proofs::{Layers, control_claims};
use rv_symbolic::Relation;
use std::alloc::Global;

/// A layer in which the observer is false, and the least valuation there.
#[derive(Debug, Drop)]
pub struct Failing {
    layer: usize,
    word: Many<bool>,
}

/// A layer, of which the first is given beside the others.
fn layer_at<'a>(first: &'a Frozen, layers: &'a Layers, layer: usize) -> &'a Frozen
    requires { layer < length layers.now.sets }
    ensures { result.now ≡ layer_at first.now layers.now.sets layer }
{
    if layer == 0 {
        first
    } else {
        layers.sets.at(layer)
    }
}

/// The first layer in which the observer is false.
fn first_failing(
    store: &mut Store,
    relation: &Relation,
    first: &Frozen,
    layers: &Layers,
) -> Result<Option<Failing>, StoreFault>
    requires { (s : System) × IsRelationOf s store.old relation.now × AreControlSets s first.now layers.now.sets }
    ensures exact { (s : System) → IsRelationOf s store.old relation.now → AreControlSets s first.now layers.now.sets
        → IfOk result (IsFirstFailing s first.now layers.now.sets) }
    ensures same { store.new ≡ store.old }
    ensures roomy { IsErrOf result StoreFault.Nodes → store.old.limit < 2 ^ (2 ^ store.old.variables) }
{
    for layer in 0..layers.sets.len() {
        let found = relation.false_observer(store, layer_at(first, layers, layer))?;
        if let Some(word) = found {
            return Ok(Some(Failing { layer, word }));
        }
    }
    Ok(None)
}

/// The words of a run from a valuation of a layer back to the first layer, the last instant first.
fn trail(
    alloc: Global,
    store: &mut Store,
    relation: &Relation,
    first: &Frozen,
    layers: &Layers,
    failing: Failing,
) -> Result<Option<Many<Many<bool>>>, StoreFault>
    requires { (s : System) × IsRelationOf s store.old relation.now × AreControlSets s first.now layers.now.sets
        × IsFailing s first.now layers.now.sets failing.layer failing.word }
    ensures trailed { (s : System) → IsRelationOf s store.old relation.now → AreControlSets s first.now layers.now.sets
        → IsFailing s first.now layers.now.sets failing.layer failing.word
        → IfOk result (IsTrailed s first.now layers.now.sets failing.layer) }
    ensures same { store.new ≡ store.old }
    ensures roomy { IsErrOf result StoreFault.Nodes → store.old.limit < 2 ^ (2 ^ store.old.variables) }
{
    let Failing { layer, word } = failing;
    let mut words = Many::new(alloc);
    words.push(word)?;
    for back in 0..layer {
        let before = layer_at(first, layers, layer - 1 - back);
        let found = relation.leading(store, before, words.at(back).as_slice())?;
        let Some(word) = found else {
            return Ok(None);
        };
        words.push(word)?;
    }
    Ok(Some(words))
}

/// The words in the other order.
fn turned(words: Many<Many<bool>>) -> Many<Many<bool>>
    ensures { result ≡ reverse words }
{
    let mut words = words.into_vec();
    words.reverse();
    Many::from_vec(words)
}

/// A run from the first layer to the first one in which the observer is false.
fn path_through(
    alloc: Global,
    store: &mut Store,
    relation: &Relation,
    first: &Frozen,
    layers: &Layers,
) -> Result<Option<Many<Many<bool>>>, StoreFault>
    requires { (s : System) × IsRelationOf s store.old relation.now × AreControlSets s first.now layers.now.sets }
    ensures through { (s : System) → IsRelationOf s store.old relation.now → AreControlSets s first.now layers.now.sets
        → IfOk result (IsPathThrough s first.now layers.now.sets) }
    ensures same { store.new ≡ store.old }
    ensures roomy { IsErrOf result StoreFault.Nodes → store.old.limit < 2 ^ (2 ^ store.old.variables) }
{
    let found = first_failing(store, relation, first, layers)?;
    let Some(failing) = found else {
        return Ok(None);
    };
    match trail(alloc, store, relation, first, layers, failing)? {
        Some(words) => Ok(Some(turned(words))),
        None => Ok(None),
    }
}

/// A run along which the assertions hold and at whose last instant the observer is false for the first time: from the first layer with
/// a false observer back through the layers, the least valuation picked in each. One word for each instant, with a truth value for each
/// diagram variable; those of next copies mean nothing. The first layer is taken as that of the initial control states. Where the
/// layers are those of a walk, some run is found, and none has fewer instants.
pub fn falsifying_path(
    alloc: Global,
    store: &mut Store,
    relation: &Relation,
    layers: &Layers,
) -> Result<Option<Many<Many<bool>>>, StoreFault>
    requires { (s : System) × IsRelationOf s store.old relation.now × HasNoIntegers s
        × ((t : ℕ) (set : FrozenModel) → slice_get layers.now.sets t ≡ Some set → IsControlSet s set) }
    ensures falsifies { (s : System) (words : List (List Bool)) → IsRelationOf s store.old relation.now → HasNoIntegers s
        → ((t : ℕ) (set : FrozenModel) → slice_get layers.now.sets t ≡ Some set → IsControlSet s set)
        → result ≡ Ok (Some words) → IsFalsifyingPath s words }
    ensures shortest { (s : System) (words : List (List Bool)) → IsRelationOf s store.old relation.now → HasNoIntegers s → AreBadLayers s layers.now
        → result ≡ Ok (Some words) → IsShortestPath s words }
    ensures found { (s : System) → IsRelationOf s store.old relation.now → HasNoIntegers s → AreBadLayers s layers.now
        → IfOk result (λ path. path ≡ None → ⊥) }
    ensures same { store.new ≡ store.old }
    ensures roomy { IsErrOf result StoreFault.Nodes → store.old.limit < 2 ^ (2 ^ store.old.variables) }
{
    control_claims();
    let first = relation.initial(store)?;
    path_through(alloc, store, relation, &first, layers)
}
