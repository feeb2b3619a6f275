//! What is asked once for all rounds.

ghost use Rattle.std.specs.Prelude.{◌<◌, ◌^◌, IfOk, IsErrOf};
ghost use Rattle.rv_diagram.specs.Growing.{Extends};
ghost use Rattle.rv_proofs.specs.Systems.{System};
ghost use Rattle.rv_rise.specs.Rounds.{IsGiven, AreAsked};

use rv_base::Many;
use rv_cases::Questions;
use rv_diagram::{Ref, Store, StoreFault};
use rv_pairs::{Labelled, LabelledRows, label_tests, open_where, telling};
use rv_symbolic::Relation;
use std::alloc::Global;

/// What is asked once for all rounds.
#[derive(Debug, Drop)]
pub struct Asked {
    /// Where the valuation is allowed and its tests are not shut at once by themselves.
    pub allowed: Ref,
    /// The rows of the tests, each where its answer is given.
    pub labels: Many<Labelled>,
}

/// What is asked once for all rounds, with what was built of it.
pub fn asked_of(
    alloc: Global,
    store: &mut Store,
    relation: &Relation,
    questions: &Questions,
) -> Result<Asked, StoreFault>
    requires { (s : System) × IsGiven s store.old relation.now questions.now }
    ensures extends { Extends store.old store.new }
    ensures roomy { IsErrOf result StoreFault.Nodes → store.old.limit < 2 ^ (2 ^ store.old.variables) }
    ensures asked { (s : System) → IsGiven s store.old relation.now questions.now → IfOk result (AreAsked s store.new) }
{
    let tests = label_tests(alloc, store, questions)?;
    let labels = telling(alloc, &tests)?;
    let rows = LabelledRows::new(alloc, tests)?;
    let whole = relation.parts().allowed;
    let allowed = open_where(alloc, store, whole, &rows)?;
    Ok(Asked { allowed, labels })
}
