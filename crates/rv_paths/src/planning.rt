//! What a search goes by: the cases of the initial control states, and those of all other control states of the layers.

ghost use Rattle.std.specs.Prelude.{◌≡◌, ◌-◌, ◌<◌, ◌^◌, length, IfOk, IsErrOf};
ghost use Rattle.rv_symbolic.specs.Represented.{IsRelationOf};
ghost use Rattle.rv_proofs.specs.Systems.{System};
ghost use Rattle.rv_proofs.specs.Ranges.{IsControlSet};
ghost use Rattle.rv_paths.specs.Candidates.{IsSearchOf, AreControlSets};
ghost use Rattle.rv_paths.specs.Searching.{AreUsable, IsPlanOf};

use crate::tree::Plan;
use rv_base::Many;
use rv_cases::{Questions, cases};
use rv_diagram::{Frozen, Store, StoreFault};
use rv_proofs::{Case, Layers};
use rv_symbolic::Relation;
use rv_walk::{Extended, extend, without};
use std::alloc::Global;

/// How many columns the rows of a path may have.
const MOST_COLUMNS: usize = 256;

/// How many instants a path may have.
const MOST_INSTANTS: usize = 512;

/// How many instants a path may have so that its columns are few: the integer memories, and the integer inputs of each instant.
fn most_instants(memories: usize, inputs: usize) -> usize {
    if inputs == 0 {
        return MOST_INSTANTS;
    }
    let rest = MOST_COLUMNS.saturating_sub(memories);
    MOST_INSTANTS.min(rest / inputs)
}

/// Both sets of control states together.
fn united(store: &mut Store, reached: Frozen, set: &Frozen) -> Result<Frozen, StoreFault>
    requires { (s : System) × (store.old.variables ≡ s.variables) × IsControlSet s reached × IsControlSet s set.now }
    ensures control { (s : System) → store.old.variables ≡ s.variables → IsControlSet s reached → IsControlSet s set.now
        → IfOk result (IsControlSet s) }
    ensures same { store.new ≡ store.old }
    ensures roomy { IsErrOf result StoreFault.Nodes → store.old.limit < 2 ^ (2 ^ store.old.variables) }
{
    match extend(store, &reached, set)? {
        Some(extended) => {
            let Extended { fresh: _, all } = extended;
            Ok(all)
        }
        None => Ok(reached),
    }
}

/// A set of control states and those of all layers.
fn with_layers(store: &mut Store, first: Frozen, layers: &Layers) -> Result<Frozen, StoreFault>
    requires { (s : System) × (store.old.variables ≡ s.variables) × IsControlSet s first × AreControlSets s layers.now.sets }
    ensures control { (s : System) → store.old.variables ≡ s.variables → IsControlSet s first → AreControlSets s layers.now.sets
        → IfOk result (IsControlSet s) }
    ensures same { store.new ≡ store.old }
    ensures roomy { IsErrOf result StoreFault.Nodes → store.old.limit < 2 ^ (2 ^ store.old.variables) }
{
    let mut reached = first;
    for layer in 0..layers.sets.len() {
        reached = united(store, reached, layers.sets.at(layer))?;
    }
    Ok(reached)
}

/// The cases of a set of control states.
fn cases_in(
    alloc: Global,
    store: &mut Store,
    relation: &Relation,
    questions: &Questions,
    columns: usize,
    from: &Frozen,
) -> Result<Many<Case>, StoreFault>
    requires { (s : System) × IsSearchOf s store.old relation.now questions.now columns × IsControlSet s from.now }
    ensures usable { (s : System) → IsSearchOf s store.old relation.now questions.now columns → IsControlSet s from.now
        → IfOk result (AreUsable s) }
    ensures same { store.new ≡ store.old }
    ensures roomy { IsErrOf result StoreFault.Nodes → store.old.limit < 2 ^ (2 ^ store.old.variables) }
{
    let allowed = relation.parts().allowed;
    cases(alloc, store, allowed, questions, from)
}

/// The control states of the layers that are not initial.
fn other_states(
    store: &mut Store,
    relation: &Relation,
    layers: &Layers,
    first: &Frozen,
) -> Result<Frozen, StoreFault>
    requires { (s : System) × IsRelationOf s store.old relation.now × IsControlSet s first.now × AreControlSets s layers.now.sets }
    ensures control { (s : System) → IsRelationOf s store.old relation.now → IsControlSet s first.now → AreControlSets s layers.now.sets
        → IfOk result (IsControlSet s) }
    ensures same { store.new ≡ store.old }
    ensures roomy { IsErrOf result StoreFault.Nodes → store.old.limit < 2 ^ (2 ^ store.old.variables) }
{
    let initial = relation.initial(store)?;
    let reached = with_layers(store, initial, layers)?;
    without(store, &reached, first)
}

/// The cases of the initial control states and of the others, and the sizes of a path.
pub fn plan_of(
    alloc: Global,
    store: &mut Store,
    relation: &Relation,
    questions: &Questions,
    columns: usize,
    layers: &Layers,
    first: &Frozen,
) -> Result<Plan, StoreFault>
    requires { (s : System) × IsSearchOf s store.old relation.now questions.now columns × IsControlSet s first.now × AreControlSets s layers.now.sets }
    ensures plan { (s : System) → IsSearchOf s store.old relation.now questions.now columns → IsControlSet s first.now → AreControlSets s layers.now.sets
        → IfOk result (IsPlanOf s) }
    ensures memories { IfOk result (λ p. p.memories ≡ length questions.now.forms) }
    ensures inputs { IfOk result (λ p. p.inputs ≡ columns - length questions.now.forms) }
    ensures same { store.new ≡ store.old }
    ensures roomy { IsErrOf result StoreFault.Nodes → store.old.limit < 2 ^ (2 ^ store.old.variables) }
{
    let others = other_states(store, relation, layers, first)?;
    let from_first = cases_in(alloc, store, relation, questions, columns, first)?;
    let from_others = cases_in(alloc, store, relation, questions, columns, &others)?;
    let memories = questions.forms.len();
    let inputs = columns.saturating_sub(memories);
    Ok(Plan {
        first: from_first,
        others: from_others,
        memories,
        inputs,
        instants: most_instants(memories, inputs),
    })
}
