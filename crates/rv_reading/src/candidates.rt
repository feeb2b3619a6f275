//! Candidates for traces.

ghost use Rattle.std.specs.Prelude.{◌≡◌, ◌<◌, ◌^◌, IfOk, IfSome, IsErrOf};
ghost use Rattle.rv_proofs.specs.Systems.{System};
ghost use Rattle.rv_paths.specs.Candidates.{IsSearchOf, AreControlSets, IsCandidateOf, IsInRange};

use rv_cases::Questions;
use rv_diagram::{Store, StoreFault};
use rv_paths::{Candidate, candidate};
use rv_proofs::Layers;
use rv_symbolic::Relation;
use std::alloc::Global;

/// A candidate for a trace, or none, also where the store has no room for the search. None promises nothing.
pub fn candidate_or_none(
    alloc: Global,
    store: &mut Store,
    relation: &Relation,
    questions: &Questions,
    columns: usize,
    layers: &Layers,
) -> Result<Option<Candidate>, StoreFault>
    requires { (s : System) × IsSearchOf s store.old relation.now questions.now columns × AreControlSets s layers.now.sets }
    ensures shape { (s : System) → IsSearchOf s store.old relation.now questions.now columns → AreControlSets s layers.now.sets
        → IfOk result (λ o. IfSome o (IsCandidateOf s)) }
    ensures range { IfOk result (λ o. IfSome o IsInRange) }
    ensures same { store.new ≡ store.old }
    ensures roomy { IsErrOf result StoreFault.Nodes → store.old.limit < 2 ^ (2 ^ store.old.variables) }
    ensures never { IsErrOf result StoreFault.Nodes → ⊥ }
{
    match candidate(alloc, store, relation, questions, columns, layers) {
        Ok(found) => Ok(found),
        Err(StoreFault::Nodes) => Ok(None),
        Err(StoreFault::Memory) => Err(StoreFault::Memory),
    }
}
