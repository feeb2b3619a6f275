//! The rows and forms that are settled at an entry.

ghost use Rattle.std.specs.Prelude.{◌≡◌, ◌⊎◌, ℕ, ◌<◌, ◌^◌, IfOk, IsErrOf, MatchOption, length};
ghost use Rattle.rv_diagram.specs.Nodes.{IsRef};
ghost use Rattle.rv_proofs.specs.Systems.{System, IsSystem};
ghost use Rattle.rv_proofs.specs.Ranges.{IsInRange};
ghost use Rattle.rv_proofs.specs.Scopes.{IsSettled};
ghost use Rattle.rv_proofs.specs.Accepted.{IsEntry};
ghost use Rattle.rv_cases.specs.Questions.{HaveAnswers, AreQuestions};
ghost use Rattle.rv_accept.specs.Needs.{IsPointOf, AreStillRows, AreStillForms, HasMovingRow, HasMovingForm};
ghost use Rattle.rv_accept.specs.Held.{IsScope};
ghost use Rattle.rv_accept.specs.Passing.{AreFacts, IsNeededBy};

use crate::naming::{named_tests, needed_memories, unmarked};
use crate::settling::{still_forms, still_rows};
use rv_base::{Many, Memory};
use rv_cases::Questions;
use rv_diagram::{Ref, Store, StoreFault};
use rv_proofs::{Certificate, Entry, Location};
use rv_rows::{Form, Row};
use std::alloc::Global;

/// A row for each test and a form for each memory: where a multiplier names the test, or a row needs the update, the settled one.
#[derive(Drop)]
pub struct Facts {
    /// One row for each test.
    pub rows: Many<Row>,
    /// One form for each integer memory.
    pub forms: Many<Form>,
}

/// What an entry needs to be settled.
#[derive(Drop)]
pub struct Needed {
    /// For each test whether a multiplier names it.
    pub named: Vec<bool>,
    /// For each integer memory whether it is in a row that is to be proved after the updates.
    pub moved: Vec<bool>,
}

/// The valuation that gives no variable of the store true.
fn all_false(alloc: Global, store: &Store) -> Result<Many<bool>, Memory>
    ensures { IfOk result (λ base. length base ≡ store.now.variables) }
{
    let flags = unmarked(alloc, store.variables() as usize)?;
    Ok(Many::from_vec(flags))
}

/// What an entry needs to be settled.
fn needed_of(
    alloc: Global,
    questions: &Questions,
    certificate: &Certificate,
    location: &Location,
    entry: &Entry,
) -> Result<Needed, Memory>
    requires given { (s : System) × IsSystem s × IsInRange s certificate.now
        × (length questions.now.rows ≡ s.tests) × (length questions.now.forms ≡ s.memories) }
    requires entry { (k j : ℕ) × IsEntry certificate.now k j location.now entry.now }
    ensures { IfOk result (λ n. (s : System) → length questions.now.rows ≡ s.tests → length questions.now.forms ≡ s.memories
        → IsNeededBy s certificate.now location.now entry.now n.named.items n.moved.items) }
{
    let named = named_tests(alloc, location, entry, questions.rows.len())?;
    let moved = needed_memories(alloc, certificate, location, entry, questions.forms.len())?;
    Ok(Needed { named, moved })
}

/// A row for each test and a form for each memory, where each marked one is one throughout the scope; else none. `point` is a valuation of
/// the scope, if there is one.
fn facts_of(
    alloc: Global,
    store: &mut Store,
    questions: &Questions,
    scope: Ref,
    point: &Option<Many<bool>>,
    needed: &Needed,
) -> Result<Option<Facts>, StoreFault>
    requires scope { IsRef store.old.nodes scope }
    requires point { IsPointOf store.old.nodes store.old.variables scope point.now }
    requires answers { HaveAnswers store.old.nodes questions.now }
    requires few { length questions.now.questions < 2 ^ 32 }
    requires named { length needed.now.named.items ≡ length questions.now.rows }
    requires moved { length needed.now.moved.items ≡ length questions.now.forms }
    ensures same { store.new ≡ store.old }
    ensures roomy { IsErrOf result StoreFault.Nodes → store.old.limit < 2 ^ (2 ^ store.old.variables) }
    ensures exact { IfOk result (λ o. (s : System) → IsSystem s → AreQuestions s store.old questions.now
        → MatchOption o (HasMovingRow s store.old.nodes scope needed.now.named.items ⊎ HasMovingForm s store.old.nodes scope needed.now.moved.items)
        (λ f. AreStillRows s store.old.nodes scope needed.now.named.items f.rows × AreStillForms s store.old.nodes scope needed.now.moved.items f.forms)) }
{
    let named = needed.named.as_slice();
    let moved = needed.moved.as_slice();
    let base = all_false(alloc, store)?;
    let Some(rows) = still_rows(alloc, store, questions, scope, point, named)? else {
        return Ok(None);
    };
    let Some(forms) = still_forms(alloc, store, questions, scope, point, &base, moved)? else {
        return Ok(None);
    };
    Ok(Some(Facts { rows, forms }))
}

/// The rows and forms of an entry that is settled, or none. `scope` is true of its scope.
pub fn entry_facts(
    alloc: Global,
    store: &mut Store,
    questions: &Questions,
    certificate: &Certificate,
    location: &Location,
    entry: &Entry,
    scope: Ref,
) -> Result<Option<Facts>, StoreFault>
    requires given { (s : System) × IsSystem s × AreQuestions s store.old questions.now × IsInRange s certificate.now }
    requires entry { (k j : ℕ) × IsEntry certificate.now k j location.now entry.now }
    requires scope { IsRef store.old.nodes scope }
    ensures same { store.new ≡ store.old }
    ensures roomy { IsErrOf result StoreFault.Nodes → store.old.limit < 2 ^ (2 ^ store.old.variables) }
    ensures exact { IfOk result (λ o. (s : System) → IsSystem s → AreQuestions s store.old questions.now → IsInRange s certificate.now
        → IsScope s location.now entry.now store.old scope → MatchOption o (¬ IsSettled s certificate.now location.now entry.now)
        (λ f. IsSettled s certificate.now location.now entry.now × AreFacts s certificate.now location.now entry.now f.rows f.forms)) }
{
    let needed = needed_of(alloc, questions, certificate, location, entry)?;
    let point = store.pick(scope)?;
    facts_of(alloc, store, questions, scope, &point, &needed)
}
