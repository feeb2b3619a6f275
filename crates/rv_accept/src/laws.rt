//! Laws of the order of reasons, each the contract of a function that does nothing.

ghost use Rattle.std.specs.Prelude.{◌≡◌, ◌⊎◌, ℕ, ◌+◌, ◌<◌, List, [], ◌∷◌, ◌++◌, Bool, Some, slice_get};
ghost use Rattle.rv_proofs.specs.Systems.{System};
ghost use Rattle.rv_proofs.specs.Scopes.{IsSettled, Implication, implications};
ghost use Rattle.rv_proofs.specs.Implied.{IsImplied};
ghost use Rattle.rv_proofs.specs.Ranges.{IsInRange};
ghost use Rattle.rv_proofs.specs.Accepted.{IsAccepted, IsInitial, IsIncluded, IsCovered, IsObserved, IsStepKind, IsEntry, Leads};
ghost use Rattle.rv_proofs.specs.Verdicts.{place, IsBefore, IsFirst, LacksInitial, IsNotIncluded, IsUncovered, IsUnobserved, LeadsElsewhere};
ghost use Rattle.rv_proofs.specs.declared.certificate.Certificate.{Certificate};
ghost use Rattle.rv_proofs.specs.declared.certificate.Location.{Location};
ghost use Rattle.rv_proofs.specs.declared.certificate.Entry.{Entry};
ghost use Rattle.rv_accept.specs.Steps.{IsLeastWord};
ghost use Rattle.rv_accept.specs.Passing.{NoneBefore, Passes, AllPass, IsGiven};
ghost use Rattle.rv_accept.specs.Samples.{counting_parts};
ghost use Rattle.rv_cases.specs.Samples.{counting_diagrams, counting_questions};
ghost use Rattle.rv_proofs.specs.Samples.{counting, counted};
ghost use Rattle.rv_proofs.specs.declared.verdict.Reason.{Reason};

/// What is before the next place of a level is before this place or at it, and only one kind of reason stands at a place.
pub fn places_are_apart()
    ensures next { (pre : List ℕ) (n : ℕ) (x : List ℕ) → IsBefore x (pre ++ (n + 1) ∷ []) → IsBefore x (pre ++ n ∷ []) ⊎ ((rest : List ℕ)
        × (x ≡ pre ++ n ∷ rest)) }
    ensures multipliers { (q : Reason) (k j n : ℕ) (rest : List ℕ) → place q ≡ 1 ∷ k ∷ 2 ∷ j ∷ 3 ∷ n ∷ rest → q ≡ Reason.Multipliers k j n }
    ensures observer { (q : Reason) (k j : ℕ) (rest : List ℕ) → place q ≡ 1 ∷ k ∷ 2 ∷ j ∷ 1 ∷ rest → (w : List Bool) × (q ≡ Reason.Observer k j w) }
{}

/// What each level of the checker has to find so that its answer is the first reason, or that the certificate is accepted.
pub fn levels_compose()
    ensures initial { (s : System) (c : Certificate) (w : List Bool) → IsLeastWord (LacksInitial s c) w → IsFirst s c (Reason.NoInitial w) }
    ensures location { (s : System) (c : Certificate) (k : ℕ) → IsInitial s c → ((m : ℕ) (l : Location) → m < k → slice_get c.locations m ≡ Some l
        → AllPass s c l) → NoneBefore s c (1 ∷ k ∷ []) }
    ensures inclusion { (s : System) (c : Certificate) (k : ℕ) (l : Location) → slice_get c.locations k ≡ Some l → NoneBefore s c (1 ∷ k ∷ [])
        → (n : ℕ) → IsNotIncluded l n → ((m : ℕ) → m < n → ¬ IsNotIncluded l m) → IsFirst s c (Reason.Inclusion k n) }
    ensures uncovered { (s : System) (c : Certificate) (k : ℕ) (l : Location) → slice_get c.locations k ≡ Some l → NoneBefore s c (1 ∷ k ∷ [])
        → (w : List Bool) → IsIncluded l → IsLeastWord (IsUncovered s l) w → IsFirst s c (Reason.Uncovered k w) }
    ensures entry { (s : System) (c : Certificate) (k : ℕ) (l : Location) → slice_get c.locations k ≡ Some l → NoneBefore s c (1 ∷ k ∷ [])
        → (j : ℕ) → IsIncluded l → IsCovered s l → ((i : ℕ) (e : Entry) → i < j → slice_get l.entries i ≡ Some e → Passes s c l e)
        → NoneBefore s c (1 ∷ k ∷ 2 ∷ j ∷ []) }
    ensures unsettled { (s : System) (c : Certificate) (k j : ℕ) (l : Location) (e : Entry) → IsEntry c k j l e → NoneBefore s c (1 ∷ k ∷ 2 ∷ j ∷ [])
        → ¬ IsSettled s c l e → IsFirst s c (Reason.Unsettled k j) }
    ensures observer { (s : System) (c : Certificate) (k j : ℕ) (l : Location) (e : Entry) → IsEntry c k j l e → NoneBefore s c (1 ∷ k ∷ 2 ∷ j ∷ [])
        → (w : List Bool) → IsSettled s c l e → IsLeastWord (IsUnobserved s l e) w → IsFirst s c (Reason.Observer k j w) }
    ensures target { (s : System) (c : Certificate) (k j : ℕ) (l : Location) (e : Entry) → IsEntry c k j l e → NoneBefore s c (1 ∷ k ∷ 2 ∷ j ∷ [])
        → (w : List Bool) → IsSettled s c l e → (IsStepKind e.kind → IsObserved s l e) → IsLeastWord (LeadsElsewhere s c l e) w
        → IsFirst s c (Reason.Target k j w) }
    ensures multipliers { (s : System) (c : Certificate) (k j : ℕ) (l : Location) (e : Entry) → IsEntry c k j l e → NoneBefore s c (1 ∷ k ∷ 2 ∷ j ∷ [])
        → (n : ℕ) (i : Implication) → IsSettled s c l e → (IsStepKind e.kind → IsObserved s l e) → Leads s c l e e.kind
        → slice_get (implications c l e.kind) n ≡ Some i → ¬ IsImplied s l e i
        → ((m : ℕ) (p : Implication) → m < n → slice_get (implications c l e.kind) m ≡ Some p → IsImplied s l e p) → IsFirst s c (Reason.Multipliers k j n) }
    ensures accepted { (s : System) (c : Certificate) → IsInRange s c → IsInitial s c → ((k : ℕ) (l : Location) → slice_get c.locations k ≡ Some l
        → AllPass s c l) → IsAccepted s c }
{}

/// There are a system, its references and questions in a store, and a certificate that a checker can be given.
pub fn counting_is_given()
    ensures { IsGiven counting counting_diagrams counting_parts counting_questions counted }
{}
