//! Limits, risen by what the memories become where a claim takes a valuation.

ghost use Rattle.std.specs.Prelude.{◌≡◌, ℕ, ◌<◌, ◌≤◌, ◌^◌, ℤ, length, All, IfOk, IsErrOf};
ghost use Rattle.std.specs.Int.RustNames.{unsigned_abs};
ghost use Rattle.rv_proofs.specs.Systems.{System, IsSystem};
ghost use Rattle.rv_proofs.specs.Boxes.{BoxClaim};
ghost use Rattle.rv_cases.specs.Conditions.{AreAnswers};
ghost use Rattle.rv_cases.specs.Questions.{AreQuestions};
ghost use Rattle.rv_ends.specs.Risen.{IsRisen};
ghost use Rattle.rv_boxes.specs.Limits.{HasChanged};
ghost use Rattle.rv_least.specs.Turned.{AreTurned, AreAllTurned};
ghost use Rattle.rv_least.specs.Opened.{IsOpenedAt};
ghost use Rattle.rv_least.specs.Rising.{HoldsAt, AreRisen};

use rv_base::Many;
use rv_boxes::{either, is_changed};
use rv_cases::Questions;
use rv_diagram::{Ref, Store, StoreFault};
use rv_rows::Form;
use rv_taken::{Opening, risen};
use std::alloc::Global;

/// Limits, and whether some of them have changed.
#[derive(Debug, Drop)]
pub struct Risen {
    /// One limit for each memory, or none.
    pub limits: Many<Option<i128>>,
    /// Whether one is other than before.
    pub changed: bool,
}

/// A limit, risen by the forms of a memory's answers. The store is left as it was.
fn risen_limit(
    alloc: Global,
    store: &mut Store,
    opening: &Opening,
    answers: &[Ref],
    forms: &Many<Form>,
    thresholds: &Many<i128>,
    limit: Option<i128>,
) -> Result<Option<i128>, StoreFault>
    requires system { (s : System) × (c : BoxClaim) × (k : ℕ) × (sign : ℤ) × IsSystem s × IsOpenedAt s store.old c opening.now
        × AreTurned s store.old.nodes k sign answers.now (length answers.now) forms.now }
    requires answers { AreAnswers store.old.nodes answers.now }
    requires thresholds { All (λ t. unsigned_abs t ≤ 2 ^ 41) thresholds.now }
    ensures risen { (s : System) (c : BoxClaim) (k : ℕ) (sign : ℤ) → IsSystem s → IsOpenedAt s store.old c opening.now
        → AreTurned s store.old.nodes k sign answers.now (length answers.now) forms.now
        → IfOk result (IsRisen thresholds.now (HoldsAt s c k sign) limit) }
    ensures same { store.new ≡ store.old }
    ensures roomy { IsErrOf result StoreFault.Nodes → store.old.limit < 2 ^ (2 ^ store.old.variables) }
{
    let taken = opening.taken;
    let ends = &opening.ends;
    risen(alloc, store, taken, ends, answers, forms, thresholds, limit)
}

/// The limits, each risen by what its memory becomes, times a sign: `forms` has this for each memory and each answer to its question. The store is
/// left as it was.
pub fn risen_limits(
    alloc: Global,
    store: &mut Store,
    opening: &Opening,
    questions: &Questions,
    forms: &Many<Many<Form>>,
    thresholds: &Many<i128>,
    limits: &Many<Option<i128>>,
) -> Result<Risen, StoreFault>
    requires system { (s : System) × (c : BoxClaim) × (sign : ℤ) × IsSystem s × IsOpenedAt s store.old c opening.now
        × AreQuestions s store.old questions.now × AreAllTurned s store.old.nodes questions.now sign s.memories forms.now
        × (length limits.now ≡ s.memories) }
    requires thresholds { All (λ t. unsigned_abs t ≤ 2 ^ 41) thresholds.now }
    ensures risen { (s : System) (c : BoxClaim) (sign : ℤ) → IsSystem s → IsOpenedAt s store.old c opening.now
        → AreQuestions s store.old questions.now → AreAllTurned s store.old.nodes questions.now sign s.memories forms.now
        → length limits.now ≡ s.memories → IfOk result (λ r. AreRisen s c thresholds.now sign (length limits.now) limits.now r.limits) }
    ensures changed { IfOk result (λ r. HasChanged r.changed limits.now r.limits) }
    ensures same { store.new ≡ store.old }
    ensures roomy { IsErrOf result StoreFault.Nodes → store.old.limit < 2 ^ (2 ^ store.old.variables) }
{
    let mut list = Many::new(alloc);
    let mut changed = false;
    let tests = questions.rows.len();
    for memory in 0..limits.len() {
        let question = tests + memory;
        let answers = questions.questions.at(question);
        let given = answers.as_slice();
        let limit = *limits.at(memory);
        let turned = forms.at(memory);
        let next = risen_limit(alloc, store, opening, given, turned, thresholds, limit)?;
        changed = either(changed, is_changed(limit, next));
        list.push(next)?;
    }
    Ok(Risen {
        limits: list,
        changed,
    })
}
