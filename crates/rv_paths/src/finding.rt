//! Candidates for traces that falsify a system with integers.

ghost use Rattle.std.specs.Prelude.{◌≡◌, ◌<◌, ◌^◌, IfOk, IfSome, IsErrOf};
ghost use Rattle.rv_proofs.specs.Systems.{System};
ghost use Rattle.rv_paths.specs.Candidates.{IsSearchOf, AreControlSets, IsCandidateOf, IsInRange};

use crate::planning::plan_of;
use crate::search::search;
use crate::trace::Candidate;
use rv_base::Many;
use rv_cases::Questions;
use rv_diagram::{Store, StoreFault};
use rv_proofs::Layers;
use rv_symbolic::Relation;
use std::alloc::Global;

/// A candidate for a trace that falsifies a system: a path of cases from the initial control states to one with a false observer, a
/// valuation of each instant's case that leads to the next one, and start values and inputs that meet the rows of all instants. `relation`
/// and `questions` are those of the system in the store, `columns` says how many integer memories and inputs it has, and the layers are
/// sets of control states, in which the path stays after the first instant. A path has at most 512 instants, and at most 256 columns: the
/// memories, and the inputs of each instant. Short paths are tried before long ones, as long as a limit of work is not reached. That the
/// candidate falsifies is not promised, and None promises nothing. The store is left as it was, after a fault too. Nodes comes where the
/// store has no room for what is built on the way, never where its limit holds every function of its variables, and Memory where there is none.
pub fn candidate(
    alloc: Global,
    store: &mut Store,
    relation: &Relation,
    questions: &Questions,
    columns: usize,
    layers: &Layers,
) -> Result<Option<Candidate>, StoreFault>
    requires { (s : System) × IsSearchOf s store.old relation.now questions.now columns × AreControlSets s layers.now.sets }
    ensures shape { (s : System) → IsSearchOf s store.old relation.now questions.now columns → AreControlSets s layers.now.sets
        → IfOk result (λ o. IfSome o (IsCandidateOf s)) }
    ensures range { IfOk result (λ o. IfSome o IsInRange) }
    ensures same { store.new ≡ store.old }
    ensures roomy { IsErrOf result StoreFault.Nodes → store.old.limit < 2 ^ (2 ^ store.old.variables) }
{
    let first = relation.initial(store)?;
    let plan = plan_of(alloc, store, relation, questions, columns, layers, &first)?;
    search(alloc, store, relation, &plan, first)
}
