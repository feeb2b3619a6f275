//! Laws of row claims, each the contract of a function that does nothing.

ghost use Rattle.std.specs.Prelude.{List, ℕ, ℤ};
ghost use Rattle.rv_diagram.specs.Nodes.{Valuation};
ghost use Rattle.rv_rows.specs.declared.linear.Row.{Row};
ghost use Rattle.rv_rows.specs.Multipliers.{ShowsAtOnce, Proves, Refutes};
ghost use Rattle.rv_proofs.specs.Systems.{System, IsSystem};
ghost use Rattle.rv_proofs.specs.RowClaims.{RowClaim, IsRowClaim, IsRowTaken, IsRowClosed, IsRowGood, IsRowTighter, HasGoodRows, premises_at};
ghost use Rattle.rv_proofs.specs.Accepted.{IsAccepted};
ghost use Rattle.rv_proofs.specs.declared.certificate.Certificate.{Certificate};
ghost use Rattle.rv_proofs.specs.declared.certificate.Location.{Location};
ghost use Rattle.rv_claims.specs.Certify.{IsClaimCertificate};
ghost use Rattle.rv_rows.specs.declared.farkas.Multipliers.{Multipliers};
ghost use Rattle.rv_claims.specs.Renumbered.{renumbered, AreSameRows};
ghost use Rattle.rv_claims.specs.Order.{IsBelowClosed, IsBottom, IsRaised};

/// A tighter claim has fewer open valuations, and its premises show at once what those of the other claim show. So it
/// is good where the other is.
pub fn tighter_claims()
    ensures shows { (s : System) (thresholds : List ℤ) (c d : RowClaim) → IsRowClaim s thresholds d → IsRowTighter c d → (v : Valuation) (r : Row)
        → ShowsAtOnce (premises_at s d v) r → ShowsAtOnce (premises_at s c v) r }
    ensures taken { (s : System) (thresholds : List ℤ) (c d : RowClaim) → IsRowClaim s thresholds d → IsRowTighter c d → (v : Valuation) → IsRowTaken s c v
        → IsRowTaken s d v }
    ensures good { (s : System) (thresholds : List ℤ) (c d : RowClaim) → IsRowClaim s thresholds d → IsRowTighter c d → IsRowGood s d → IsRowGood s c }
{}

/// The bottom is below each closed claim, and so is what a step upward gives. A claim that is below each closed one is
/// good where any closed one is.
pub fn least_claim()
    ensures bottom { (s : System) (thresholds : List ℤ) (c : RowClaim) → IsBottom s thresholds c → IsBelowClosed s thresholds c }
    ensures raised { (s : System) (thresholds : List ℤ) (c e : RowClaim) → IsBelowClosed s thresholds c → IsRaised s thresholds c e
        → IsBelowClosed s thresholds e }
    ensures good { (s : System) (thresholds : List ℤ) (c : RowClaim) → IsBelowClosed s thresholds c → HasGoodRows s thresholds → IsRowGood s c }
{}

/// The certificate of two locations that a closed good claim gives is accepted.
pub fn claim_certificate()
    ensures { (s : System) (thresholds : List ℤ) (c : RowClaim) (cert : Certificate) (start later : Location) → IsSystem s → IsRowClaim s thresholds c
        → IsRowClosed s c → IsRowGood s c → IsClaimCertificate s c cert start later → IsAccepted s cert }
{}

/// Multipliers prove, and refute, by the same rows under other numbers: those of the tests that are present, in a list,
/// become those of a certificate, where each test has a number.
pub fn renumbered_multipliers()
    ensures proves { (ps qs : List Row) (g : ℕ → ℕ) (r : Row) (m : Multipliers) → AreSameRows ps qs g m.weights → Proves ps r m → Proves qs r (renumbered g m) }
    ensures refutes { (ps qs : List Row) (g : ℕ → ℕ) (m : Multipliers) → AreSameRows ps qs g m.weights → Refutes ps m → Refutes qs (renumbered g m) }
{}
