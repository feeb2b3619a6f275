//! Laws of box claims, each the contract of a function that does nothing.

ghost use Rattle.std.specs.Prelude.{ℕ, ◌<◌, ◌↔◌, ◌⊎◌, ◌++◌, ℤ, List};
ghost use Rattle.rv_proofs.specs.Systems.{System, IsSystem};
ghost use Rattle.rv_proofs.specs.Boxes.{BoxClaim, IsClosed, IsGood, IsInBox, IsOpen};
ghost use Rattle.rv_diagram.specs.Nodes.{Valuation};
ghost use Rattle.rv_proofs.specs.Scopes.{IsIn};
ghost use Rattle.rv_proofs.specs.Accepted.{IsAccepted};
ghost use Rattle.rv_proofs.specs.declared.certificate.Certificate.{Certificate};
ghost use Rattle.rv_boxes.specs.Built.{IsBuilt, IsToldCase, IsClaimedAt, AreBoundsAt, IsUpperRow, IsLowerRow};
ghost use Rattle.rv_boxes.specs.Boxed.{IsBoxed, IsOpenBox, IsUnbounded};
ghost use Rattle.rv_rows.specs.Forms.{IsSubstituted};
ghost use Rattle.rv_rows.specs.declared.linear.Row.{Row};
ghost use Rattle.rv_proofs.specs.declared.certificate.Location.{Location};
ghost use Rattle.rv_proofs.specs.declared.certificate.Entry.{Entry};

/// A closed good claim gives an accepted certificate: the one that is built of it, where each case that its box shuts
/// is dead by the box's refutation and each other case is a step by the greatest values over the box.
pub fn boxes_are_accepted()
    ensures { (s : System) (c : BoxClaim) (certificate : Certificate) → IsSystem s → IsClosed s c → IsGood s c → IsBuilt s c certificate
        → IsAccepted s certificate }
{}

/// In a case that the box of a closed claim leaves open, each bound's row has, before the updates, a left side that is
/// bounded over the box. So its greatest value is always found, and with it the proofs of the step.
pub fn closed_claims_reach()
    ensures { (s : System) (c : BoxClaim) (l : Location) (e : Entry) → IsSystem s → IsClosed s c → (here : IsToldCase s e)
        → ((v : Valuation) → IsIn e.condition v → IsIn l.control v) → IsClaimedAt s c l → IsOpenBox s.columns (l.state ++ here.tests)
        → (k : ℕ) (r new : Row) → k < s.memories → IsUpperRow c k r ⊎ IsLowerRow c k r → IsSubstituted r here.forms new
        → ¬ IsUnbounded s.columns (l.state ++ here.tests) new.coefficients }
{}

/// The box of a case's premises is the box of each of its valuations at which the bounds count, and the case is open
/// exactly where they are.
pub fn boxes_agree()
    ensures points { (s : System) (c : BoxClaim) (l : Location) (e : Entry) → (here : IsToldCase s e) → IsClaimedAt s c l → (v : Valuation)
        → IsIn e.condition v → IsIn l.control v → AreBoundsAt s c l v
        → (point : List ℤ) → IsInBox s c v point ↔ IsBoxed s.columns (l.state ++ here.tests) point }
    ensures opened { (s : System) (c : BoxClaim) (l : Location) (e : Entry) → (here : IsToldCase s e) → IsClaimedAt s c l → (v : Valuation)
        → IsIn e.condition v → IsIn l.control v → AreBoundsAt s c l v
        → IsOpen s c v ↔ IsOpenBox s.columns (l.state ++ here.tests) }
{}
