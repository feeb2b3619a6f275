//! The least closed row claim.

ghost use Rattle.std.specs.Prelude.{◌≡◌, ◌<◌, ◌≤◌, ◌^◌, All, length, IfOk, IsErrOf};
ghost use Rattle.std.specs.Int.RustNames.{unsigned_abs};
ghost use Rattle.rv_proofs.specs.Systems.{System};
ghost use Rattle.rv_proofs.specs.RowClaims.{IsLeastRowClosed};
ghost use Rattle.rv_claims.specs.Claiming.{claim_of, IsKeptClaim};
ghost use Rattle.rv_rise.specs.Sides.{rows_with};
ghost use Rattle.rv_rise.specs.Rounds.{IsGiven, IsFrameOf};

use crate::frame::Frame;
use crate::risen::Risen;
use crate::rounds::closed_claim;
use crate::rows::rows_of;
use crate::table::sides_of;
use rv_base::{Many, Memory};
use rv_cases::Questions;
use rv_claims::Claim;
use rv_diagram::{Store, StoreFault};
use rv_symbolic::Relation;
use std::alloc::Global;

/// What is the same throughout the search.
fn frame_of(alloc: Global, memories: usize, thresholds: &[i128]) -> Result<Frame, Memory>
    requires few { memories ≤ 64 }
    requires thresholds { All (λ t. unsigned_abs t ≤ 2 ^ 41) thresholds.now }
    ensures thresholds { IfOk result (λ f. f.thresholds ≡ thresholds.now) }
    ensures frame { (s : System) → s.memories ≡ memories → IfOk result (IsFrameOf s) }
{
    let sides = sides_of(alloc, memories)?;
    let list = Vec::from_slice(alloc, thresholds)?;
    Ok(Frame {
        sides,
        thresholds: Many::from_vec(list),
    })
}

/// The claim, with its rows.
fn claim_from(alloc: Global, frame: &Frame, risen: Risen) -> Result<Claim, Memory>
    requires { length risen.limits ≡ length frame.now.sides }
    ensures reached { IfOk result (λ c. c.reached ≡ risen.reached) }
    ensures rows { IfOk result (λ c. c.rows ≡ rows_with frame.now.sides risen.limits) }
{
    let Risen { reached, limits } = risen;
    let rows = rows_of(alloc, &frame.sides, &limits)?;
    Ok(Claim { reached, rows })
}

/// The least closed row claim of a system, upward from the initial control states and, at each left side, the least threshold: each
/// bound rises only to the least threshold that the premises show, and disappears where they show none. A candidate has 1 or -1 at one
/// integer memory, or at two where there are at most 22 of them, and a threshold as bound. `relation` and `questions` are those of the
/// system in the store, which is left as it was, after a fault too. Nodes comes where the store has no room for what is built on the way,
/// never where its limit holds every function of its variables, and Memory where there is none.
pub fn least_closed(
    alloc: Global,
    store: &mut Store,
    relation: &Relation,
    questions: &Questions,
    thresholds: &[i128],
) -> Result<Claim, StoreFault>
    requires system { (s : System) × IsGiven s store.old relation.now questions.now }
    requires thresholds { All (λ t. unsigned_abs t ≤ 2 ^ 41) thresholds.now }
    ensures least { (s : System) → IsGiven s store.old relation.now questions.now
        → IfOk result (λ c. IsLeastRowClosed s thresholds.now (claim_of c)) }
    ensures kept { (s : System) → IsGiven s store.old relation.now questions.now → IfOk result (IsKeptClaim s thresholds.now) }
    ensures same { store.new ≡ store.old }
    ensures roomy { IsErrOf result StoreFault.Nodes → store.old.limit < 2 ^ (2 ^ store.old.variables) }
{
    let frame = frame_of(alloc, questions.forms.len(), thresholds)?;
    let risen = closed_claim(alloc, store, relation, questions, &frame)?;
    Ok(claim_from(alloc, &frame, risen)?)
}
