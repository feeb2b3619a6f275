//! Laws of flat systems, each the contract of a function that does nothing.

ghost use Rattle.std.specs.Prelude.{◌≡◌, ◌<◌, ◌≤◌, ℕ, ℤ, Bool, true, false, map, length, List, Option, Some, [], ◌∷◌, None as Nothing};
ghost use Rattle.rv_base.specs.declared.value.Value.{Value};
ghost use Rattle.rv_base.specs.declared.value.Value.TheVariants.{Flag};
ghost use Rattle.rv_types.specs.declared.typed.Kind.{Kind};
ghost use Rattle.rv_types.specs.Variables.{is_integer};
ghost use Rattle.rv_tree.specs.Places.{Sites};
ghost use Rattle.rv_types.specs.Lists.{Side};
ghost use Rattle.rv_rows.specs.declared.linear.Row.{Row};
ghost use Rattle.rv_rows.specs.Tight.{IsTightened};
ghost use Rattle.rv_rows.specs.Forms.{values};
ghost use Rattle.rv_agreement.specs.Examples.{compared_then_sampled, sampled_then_compared};
ghost use Rattle.rv_agreement.specs.Kinding.{ReadsAs};
ghost use Rattle.rv_agreement.specs.Checks.{IsChecked, IsInlined};
ghost use Rattle.rv_agreement.specs.FlatRuns.{IsFlatRun, AreMetIn, IsInductive};
ghost use Rattle.rv_agreement.specs.Evaluation.{nth, is_there, integers};
ghost use Rattle.rv_agreement.specs.Trees.{FlatTree, System, memory_kinds, kind_at};
ghost use Rattle.rv_agreement.specs.Valuations.{Valuation, Reading, IsSymbolic, IsCoded, wholes, all_comparisons, is_linear, read, reads_at, updated, Tested};
ghost use Rattle.rv_agreement.specs.Valuations.{IsPresent, IsRowOf};
ghost use Rattle.rv_agreement.specs.Agreement.{State, point, IsWholeInstant, IsNext, IsTyped, IsAgreed, Fits, IsWell, Gives, AreAlike, updates, Leads};

use rv_rows::{forms_at_points, rows_of_tests, tightened_rows};

/// A flat system that passes the tests kept in its type and has its memories inlined is well formed.
pub fn checked_is_well()
    ensures { (s : System) → IsChecked s → IsInlined s → IsWell s }
{}

/// At a valuation each test of a comparison that is present has exactly one row, which is tight; and a test that has a row is one
/// of a comparison that is present.
pub fn rows_of_valuations()
    ensures some { (columns : ℕ) (test : Sites → Side → Bool) (t : Tested) (side : Side) → IsPresent t side → (r : Row) × IsRowOf columns test t side r }
    ensures one { (columns : ℕ) (test : Sites → Side → Bool) (t : Tested) (side : Side) (a b : Row) → IsRowOf columns test t side a
        → IsRowOf columns test t side b → a ≡ b }
    ensures tight { (columns : ℕ) (test : Sites → Side → Bool) (t : Tested) (side : Side) (r : Row) → IsRowOf columns test t side r → IsTightened r r }
    ensures present { (columns : ℕ) (test : Sites → Side → Bool) (t : Tested) (side : Side) (r : Row) → IsRowOf columns test t side r → IsPresent t side }
{
    tightened_rows();
}

/// At each valuation there is exactly one symbolic instant.
pub fn one_symbolic_instant()
    ensures { (s : System) (v : Valuation) → IsWell s → (row : List (Option Reading)) × IsSymbolic s v row
        × ((other : List (Option Reading)) → IsSymbolic s v other → other ≡ row) }
{}

/// At a valuation whose codes name labels each flow that is present has a value of its type: an integer a form, a label a label
/// of its enumeration; so has each expression where its clock is there, and each memory after the instant, so that each integer
/// memory has a form as its update. And no expression of another type than int has a form, present or not.
pub fn typed_readings()
    ensures flows { (s : System) (v : Valuation) (symbolic : List (Option Reading)) (k : ℕ) (a : Reading)
        → IsWell s → IsCoded s v → IsSymbolic s v symbolic → k < length s.flows → nth Reading (reads_at s v) symbolic k ≡ Some a
        → ReadsAs s.labels (kind_at s.kinds k) a }
    ensures expressions { (s : System) (v : Valuation) (symbolic : List (Option Reading)) (k : Option ℕ) (j : Kind) (e : FlatTree)
        → IsWell s → IsCoded s v → IsSymbolic s v symbolic → Fits s (length s.flows) k j e → is_there Reading (reads_at s v) symbolic k ≡ true
        → ReadsAs s.labels j (read s v symbolic e) }
    ensures controls { (s : System) (v : Valuation) (symbolic : List (Option Reading)) (k : Option ℕ) (j : Kind) (e : FlatTree)
        → IsWell s → IsSymbolic s v symbolic → Fits s (length s.flows) k j e → is_integer j ≡ false → is_linear (read s v symbolic e) ≡ false }
    ensures memories { (s : System) (v : Valuation) (symbolic : List (Option Reading)) (m : ℕ)
        → IsWell s → IsCoded s v → IsSymbolic s v symbolic → m < length s.memories → ReadsAs s.labels (kind_at (memory_kinds s) m) (updated s v symbolic m) }
{}

/// A state in whole numbers of any size and inputs agree with some valuation, whose codes name labels; with any two such
/// valuations only in the truth of absent tests; and the symbolic instant at each gives the values, the truth of the
/// assertions and of the observer, and the state after the instant.
pub fn instants_agree()
    ensures some { (s : System) (now : State) (inputs : List Value) (row : List (Option Value))
        → IsWell s → IsTyped s now inputs → IsWholeInstant s now inputs row
        → (v : Valuation) × (symbolic : List (Option Reading)) × IsCoded s v × IsAgreed s v symbolic now inputs }
    ensures alike { (s : System) (now : State) (inputs : List Value) (row : List (Option Value)) (v w : Valuation) (first second : List (Option Reading))
        → IsWell s → IsTyped s now inputs → IsWholeInstant s now inputs row → IsAgreed s v first now inputs → IsAgreed s w second now inputs
        → AreAlike s v w first }
    ensures gives { (s : System) (now next : State) (inputs : List Value) (row : List (Option Value)) (v : Valuation) (symbolic : List (Option Reading))
        → IsWell s → IsTyped s now inputs → IsWholeInstant s now inputs row → IsNext s now inputs row next → IsAgreed s v symbolic now inputs
        → Gives s v symbolic now inputs row next }
{
    forms_at_points();
    rows_of_tests();
    tightened_rows();
}

/// From a state that agrees with a valuation: the integer memories after the instant are the values of its updates at the
/// point, and the control state of each valuation with which the next state agrees is the next one of the valuation.
pub fn steps_agree()
    ensures updates { (s : System) (now next : State) (inputs : List Value) (row : List (Option Value)) (v : Valuation) (symbolic : List (Option Reading))
        → IsWell s → IsTyped s now inputs → IsWholeInstant s now inputs row → IsNext s now inputs row next → IsAgreed s v symbolic now inputs
        → wholes (memory_kinds s) next.kept ≡ values (updates s v symbolic) (point s now inputs) }
    ensures leads { (s : System) (now next : State) (inputs later : List Value) (row : List (Option Value)) (v w : Valuation)
        (symbolic after : List (Option Reading))
        → IsWell s → IsTyped s now inputs → IsWholeInstant s now inputs row → IsNext s now inputs row next → IsAgreed s v symbolic now inputs
        → IsAgreed s w after next later
        → Leads s v symbolic w }
{
    forms_at_points();
    rows_of_tests();
    tightened_rows();
}

/// Where something is inductive over the valuations, in each run of the flat system in whole numbers the observer is true at
/// each instant up to which the assertions have held.
pub fn inductive_is_safe()
    ensures { (s : System) (holds : Valuation → List ℤ → Bool) (n : ℕ) (states : ℕ → State) (inputs : ℕ → List Value) (rows : ℕ → List (Option Value)) (t : ℕ)
        → IsWell s → IsInductive s holds → IsFlatRun s n states inputs rows → t < n → ((u : ℕ) → u ≤ t → AreMetIn s (states u) (inputs u) (rows u))
        → nth Value integers (rows t) s.observer ≡ Some (Flag true) }
{
    forms_at_points();
    rows_of_tests();
    tightened_rows();
}

/// Two flat systems in which one comparison has the same place and operands but for where it is present: on main's base clock
/// in the one, on the clock of a flow in the other.
pub fn presence_is_told()
    ensures first { IsWell compared_then_sampled × (map (λ c. c.clock) (all_comparisons compared_then_sampled) ≡ Nothing ∷ []) }
    ensures second { IsWell sampled_then_compared × (map (λ c. c.clock) (all_comparisons sampled_then_compared) ≡ Some 2 ∷ []) }
{}
