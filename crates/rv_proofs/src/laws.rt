//! Laws of certificates, each the contract of a function that does nothing.

ghost use Rattle.rv_proofs.specs.Systems.{System, Agrees, HasSameState};
ghost use Rattle.rv_proofs.specs.Accepted.{IsAccepted, IsEntry};
ghost use Rattle.rv_proofs.specs.Runs.{AllHold, IsStepBy, IsWithin, IsInvariant, KeepsInvariant, IsSafeSystem};
ghost use Rattle.std.specs.Prelude.{◌≡◌, ◌⊎◌, ◌<◌, ℕ, List, ℤ, pos, ◌-ℤ◌, ◌*ℤ◌, [], ◌∷◌, true, false, Some, IsTrue, slice_get};
ghost use Rattle.rv_diagram.specs.Nodes.{Valuation};
ghost use Rattle.rv_rows.specs.Rows.{dot};
ghost use Rattle.rv_rows.specs.Forms.{number, value};
ghost use Rattle.rv_proofs.specs.Systems.{IsSystem};
ghost use Rattle.rv_proofs.specs.Boxes.{HasGoodBox, IsBoxClaim, IsClosed, IsGood};
ghost use Rattle.rv_proofs.specs.RowClaims.{HasGoodRows, IsRowClaim, IsRowClosed, IsRowGood};
ghost use Rattle.rv_proofs.specs.Left.{IsLeftPartition};
ghost use Rattle.rv_proofs.specs.Verdicts.{IsVerdict, Fails};
ghost use Rattle.rv_proofs.specs.declared.verdict.Verdict.{Verdict};
ghost use Rattle.rv_proofs.specs.declared.verdict.Reason.{Reason};
ghost use Rattle.rv_proofs.specs.Scopes.{IsSettled};
ghost use Rattle.rv_proofs.specs.Accepted.{AreImplied};
ghost use Rattle.rv_proofs.specs.Cones.{IsInCone, IsMoved};
ghost use Rattle.rv_rows.specs.declared.linear.Row.{Row};
ghost use Rattle.rv_proofs.specs.declared.certificate.Location.{Location};
ghost use Rattle.rv_proofs.specs.declared.certificate.Entry.{Entry};
ghost use Rattle.rv_proofs.specs.declared.certificate.EntryKind.TheVariants.{Go, Loop};
ghost use Rattle.rv_rows.specs.declared.farkas.Multipliers.{Multipliers};
ghost use Rattle.rv_proofs.specs.Counters.{paired, filed, misfiled, cut_short, equal_rows};
ghost use Rattle.rv_proofs.specs.Samples.{counting, counted, at_later, names_unsettled, at_most_ten, undecided, rising, unsound, IsAcceptedFromEntry};
ghost use Rattle.rv_proofs.specs.declared.certificate.Certificate.{Certificate};

/// An accepted certificate is an inductive invariant and implies safety: along each run the invariant holds at each
/// instant before which the assertions have held, and the observer is true at each instant up to which they have.
pub fn certificates_are_safe()
    ensures invariant { (s : System) (c : Certificate) → IsAccepted s c → KeepsInvariant s c }
    ensures safe { (s : System) (c : Certificate) → IsAccepted s c → IsSafeSystem s }
{}

/// The invariant of an accepted certificate is inductive. It holds in each initial control state. At an allowed valuation with a
/// point that agrees with it, it leads to itself after the step, and the observer is true. And where a location has a state
/// within, the state is in the location's `state`.
pub fn invariants_are_inductive()
    ensures starts { (s : System) (c : Certificate) (v : Valuation) (point : List ℤ) → IsAccepted s c → IsTrue (s.initial v) → IsInvariant c v point }
    ensures steps { (s : System) (c : Certificate) (v w : Valuation) (point next : List ℤ) → IsAccepted s c → Agrees s v point → IsTrue (s.allowed v)
        → HasSameState s (s.next v) w → ((k : ℕ) → k < s.memories → number k next ≡ value (s.update v k) point)
        → IsInvariant c v point → IsInvariant c w next }
    ensures observed { (s : System) (c : Certificate) (v : Valuation) (point : List ℤ) → IsAccepted s c → Agrees s v point → IsTrue (s.allowed v)
        → IsInvariant c v point → IsTrue (s.observer v) }
    ensures in_state { (s : System) (c : Certificate) (k : ℕ) (l : Location) (point : List ℤ) → IsAccepted s c → slice_get c.locations k ≡ Some l
        → IsWithin l point → AllHold l.state point }
{}

/// What entries of an accepted certificate lead to. A step leads from `state` into the `entry` of its target. A turn of a loop
/// leads from `entry` into `first`, and from there, or from the meet of `around` and `state`, into that meet.
pub fn entries_lead()
    ensures step { (s : System) (c : Certificate) (k j : ℕ) (l : Location) (e : Entry) (v : Valuation) (point next : List ℤ) (target : ℕ)
        (reach : List Multipliers) (into : Location) → IsAccepted s c → IsEntry c k j l e → IsStepBy s l e v point next
        → e.kind ≡ Go target reach → slice_get c.locations target ≡ Some into → AllHold l.state point → AllHold into.entry next }
    ensures turn { (s : System) (c : Certificate) (k j : ℕ) (l : Location) (e : Entry) (v : Valuation) (point next : List ℤ)
        (first before around state : List Multipliers) → IsAccepted s c → IsEntry c k j l e → IsStepBy s l e v point next
        → e.kind ≡ Loop first before around state → AllHold l.entry point → AllHold l.first next }
    ensures further { (s : System) (c : Certificate) (k j : ℕ) (l : Location) (e : Entry) (v : Valuation) (point next : List ℤ)
        (first before around state : List Multipliers) → IsAccepted s c → IsEntry c k j l e → IsStepBy s l e v point next
        → e.kind ≡ Loop first before around state → AllHold l.first point ⊎ (AllHold l.around point × AllHold l.state point)
        → AllHold l.around next × AllHold l.state next }
{}

/// The certificate of a counter with a loop is accepted, by the definition, so that the law above is not empty.
pub fn sample_is_accepted()
    ensures { IsAccepted counting counted }
{}

/// With a loop checked from `entry` alone the law would be false: a counter that rises without end has a certificate
/// that passes this check, and a run in which the observer is false.
pub fn loop_from_entry_is_unsound()
    ensures passes { IsAcceptedFromEntry rising unsound }
    ensures fails { ¬ IsSafeSystem rising }
{}

/// There is at most one right verdict on a certificate: nothing fails in an accepted one, and the first reason is one.
pub fn one_verdict()
    ensures nothing_fails { (s : System) (c : Certificate) (r : Reason) → IsAccepted s c → ¬ Fails s c r }
    ensures one { (s : System) (c : Certificate) (u v : Verdict) → IsVerdict s c u → IsVerdict s c v → u ≡ v }
{}

/// A left partition is never an accepted certificate.
pub fn left_is_not_accepted()
    ensures { (s : System) (c : Certificate) (left : List ℕ) → IsLeftPartition s c left → ¬ IsAccepted s c }
{}

/// A closed good box claim, or row claim, implies safety.
pub fn claims_are_safe()
    ensures box_claim { (s : System) (thresholds : List ℤ) → IsSystem s → HasGoodBox s thresholds → IsSafeSystem s }
    ensures row_claim { (s : System) (thresholds : List ℤ) → IsSystem s → HasGoodRows s thresholds → IsSafeSystem s }
{}

/// An entry whose implications hold is settled, and one that names a test with two rows in its scope is not.
pub fn settled_entries()
    ensures implied { (s : System) (c : Certificate) (l : Location) (e : Entry) → AreImplied s c l e → IsSettled s c l e }
    ensures refused { ¬ IsSettled counting counted at_later names_unsettled }
{}

/// The cone of rows along a direction has the points of the rows, and each of its points moved along the direction. It speaks of
/// the point `d*x - k*t`: the left side of a row there is `d` times that at `x` less `k` times that at `t`.
pub fn cone_is_kept()
    ensures base { (rows : List Row) (t x : List ℤ) → AllHold rows x → IsInCone rows t x }
    ensures moved { (rows : List Row) (t x y : List ℤ) → IsMoved t x y → IsInCone rows t x → IsInCone rows t y }
    ensures drawn { (r : Row) (d k : ℕ) (t x y : List ℤ) → ((n : ℕ) → number n y ≡ (pos d *ℤ number n x) -ℤ (pos k *ℤ number n t))
        → dot r.coefficients y ≡ (pos d *ℤ dot r.coefficients x) -ℤ (pos k *ℤ dot r.coefficients t) }
{}

/// The certificate of the document of two counters is accepted. With another last multiplier implication 0 of entry 2 of
/// location 1 fails; without its last entry the valuation 10010 of location 1 is not covered.
pub fn document_is_judged()
    ensures accepted { IsAccepted paired filed }
    ensures wrong_multiplier { Fails paired misfiled (Reason.Multipliers 1 2 0) }
    ensures uncovered { IsVerdict paired cut_short (Verdict.Rejected (Reason.Uncovered 1 (true ∷ false ∷ false ∷ true ∷ false ∷ []))) }
{}

/// There are systems, closed good box claims and row claims, and left partitions, by their definitions.
pub fn claims_are_met()
    ensures system { IsSystem counting × IsSystem paired × IsSystem rising }
    ensures box_claim { IsBoxClaim counting (pos 10 ∷ []) at_most_ten × IsClosed counting at_most_ten × IsGood counting at_most_ten }
    ensures row_claim { IsRowClaim paired (pos 0 ∷ []) equal_rows × IsRowClosed paired equal_rows × IsRowGood paired equal_rows }
    ensures left { IsLeftPartition rising undecided (1 ∷ []) }
{}
