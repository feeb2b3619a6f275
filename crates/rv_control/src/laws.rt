//! Laws, each the contract of a function that does nothing.

ghost use Rattle.std.specs.Prelude.{◌≡◌, ◌↔◌, ◌<◌, ℕ, ℤ, Bool, List, [], Some, false, int_le, length, IsTrue, slice_index_or};
ghost use Rattle.std.specs.Prelude.{None as Nothing};
ghost use Rattle.std.specs.List.{Contains};
ghost use Rattle.rv_base.specs.declared.value.Value.{Value};
ghost use Rattle.rv_tree.specs.Tree.{ProgramTree};
ghost use Rattle.rv_tree.specs.Places.{Identifier, Sites};
ghost use Rattle.rv_types.specs.Instances.{IsNode};
ghost use Rattle.rv_types.specs.Lists.{AtLeast, AtMost, Next, Side, Test, Variable};
ghost use Rattle.rv_types.specs.WellFormed.{AreWell};
ghost use Rattle.rv_meaning.specs.Runs.{History, IsRun, IsSafe};
ghost use Rattle.rv_rows.specs.declared.linear.Row.{Row as RowModel};
ghost use Rattle.rv_rows.specs.declared.linear.Form.{Form as FormModel};
ghost use Rattle.rv_rows.specs.Arithmetic.{test_row};
ghost use Rattle.rv_rows.specs.Forms.{value};
ghost use Rattle.rv_rows.specs.Rows.{Holds};
ghost use Rattle.rv_rows.specs.Tight.{IsTightened};
ghost use Rattle.rv_diagram.specs.Nodes.{Valuation};
ghost use Rattle.rv_proofs.specs.Systems.{Agrees as AgreesThere, IsSystem};
ghost use Rattle.rv_proofs.specs.Runs.{IsAbstractRun, IsSafeSystem};
ghost use Rattle.rv_flat.specs.declared.flat.Flat.{Flat as FlatModel};
ghost use Rattle.rv_flat.specs.FlatOf.{IsFlatOf};
ghost use Rattle.rv_agreement.specs.Agreement.{IsWell};
ghost use Rattle.rv_agreement.specs.Trees.{System as SystemOf, kind_at, memory_kinds, memory_places};
ghost use Rattle.rv_agreement.specs.Valuations.{Valuation as Named, Agrees, Comparison, IsAllowed, IsCodedAs, IsPresent, IsSymbolic, all_comparisons};
ghost use Rattle.rv_agreement.specs.Valuations.{side_form, tested_form, width};
ghost use Rattle.rv_flat.specs.FlatInstants.{system_of};
ghost use Rattle.rv_control.specs.Control.{control_of};
ghost use Rattle.rv_control.specs.Named.{by_names, by_numbers, named, truth_of};
ghost use Rattle.rv_control.specs.Spelled.{HasSpelledRun};
ghost use Rattle.rv_control.specs.Symbolic.{symbolic};
ghost use Rattle.rv_control.specs.Meets.{IsAbstractOf};
ghost use Rattle.rv_control.specs.Tests.{test_variable, tested_at};
ghost use Rattle.rv_control.specs.Tightening.{tightened};

use rv_agreement::{instants_agree, one_symbolic_instant, steps_agree, typed_readings};
use rv_flat::{one_flat_instant, runs_are_one};
use rv_rows::{rows_of_tests, tightened_rows};

/// A row has the tightened row that is computed.
pub fn rows_are_tightened()
    ensures { (r : RowModel) → IsTightened r (tightened r) }
{}

/// A valuation by names says of each variable that is listed what it says by numbers; and one by numbers says at each position,
/// of a variable that is no next copy and stands there first, what it says by names.
pub fn names_are_numbers()
    ensures named { (names : List Variable) (w : Named) (x : Variable) → Contains names x → truth_of (by_names names (by_numbers names w)) x ≡ truth_of w x }
    ensures numbered { (names : List Variable) (v : Valuation) (k : ℕ) → k < length names → (slice_index_or names k Next ≡ Next → ⊥)
        → ((j : ℕ) → j < k → slice_index_or names j Next ≡ slice_index_or names k Next → ⊥) → by_numbers names (by_names names v) k ≡ v k }
{}

/// In a well formed flat system the computed symbolic instant is the symbolic instant, of which there is exactly one; and a valuation
/// is allowed where the system of valuations says so.
pub fn computed_instants()
    ensures symbolic { (s : SystemOf) (v : Named) → IsWell s → IsSymbolic s v (symbolic s v) }
    ensures allowed { (f : FlatModel) (v : Valuation)
        → IsTrue ((control_of f).allowed v) ↔ IsAllowed (system_of f) (named f v) (symbolic (system_of f) (named f v)) }
{}

/// What is initial in the system of a flat system: a valuation at which no tick bit is true and the code of each memory names a
/// label of its type, and no other.
pub fn initial_states()
    ensures ticks { (f : FlatModel) (v : Valuation) (k : ℕ) → IsTrue ((control_of f).initial v) → k < length (system_of f).ticks
        → (named f v).ticked (slice_index_or (system_of f).ticks k Nothing) ≡ false }
    ensures codes { (f : FlatModel) (v : Valuation) (m : ℕ) → IsTrue ((control_of f).initial v) → m < length (system_of f).memories
        → IsCodedAs (system_of f).labels (kind_at (memory_kinds (system_of f)) m)
        ((named f v).kept (slice_index_or (memory_places (system_of f)) m [])) }
    ensures all { (f : FlatModel) (v : Valuation)
        → ((k : ℕ) → k < length (system_of f).ticks → (named f v).ticked (slice_index_or (system_of f).ticks k Nothing) ≡ false)
        → ((m : ℕ) → m < length (system_of f).memories
        → IsCodedAs (system_of f).labels (kind_at (memory_kinds (system_of f)) m)
        ((named f v).kept (slice_index_or (memory_places (system_of f)) m [])))
        → IsTrue ((control_of f).initial v) }
{}

/// Which row belongs to which test of the system of a flat system. A test has a row exactly where a comparison at its place is present
/// that has this test: the tightened row of the test's truth and of the difference of what the operands have. For a test at most of
/// a comparison of a and b the difference is a - b, so where the test is true the row says a - b <= 0, and where it is false
/// b - a <= -1; for a test at least, the sides are exchanged.
pub fn rows_of_comparisons()
    ensures row { (program : ProgramTree) (main : Identifier) (f : FlatModel) (v : Valuation) (j : ℕ) (c : Comparison) (side : Side)
        → IsFlatOf program main f → test_variable f j ≡ Test c.at side → Contains (all_comparisons (system_of f)) c → IsPresent (tested_at f v c) side
        → (control_of f).row v j ≡ Some (tightened (test_row ((named f v).test c.at side)
        (tested_form (width (system_of f)) (named f v).test (tested_at f v c) side))) }
    ensures present { (f : FlatModel) (v : Valuation) (j : ℕ) (r : RowModel) → (control_of f).row v j ≡ Some r
        → (c : Comparison) × (side : Side)
        × (test_variable f j ≡ Test c.at side) × Contains (all_comparisons (system_of f)) c × IsPresent (tested_at f v c) side }
    ensures at_most { (truth : Bool) (a b : FormModel) (x : List ℤ)
        → Holds (tightened (test_row truth (side_form AtMost a b))) x ↔ (truth ≡ int_le (value a x) (value b x)) }
    ensures at_least { (truth : Bool) (a b : FormModel) (x : List ℤ)
        → Holds (tightened (test_row truth (side_form AtLeast a b))) x ↔ (truth ≡ int_le (value b x) (value a x)) }
{
    tightened_rows();
    rows_of_tests();
}

/// A point agrees with a valuation of the system of a flat system exactly where it has a number for each column and meets each row
/// of the flat system at the valuation.
pub fn points_agree()
    ensures { (program : ProgramTree) (main : Identifier) (f : FlatModel) (v : Valuation) (x : List ℤ)
        → AreWell program → IsNode program main → IsFlatOf program main f
        → AgreesThere (control_of f) v x ↔ ((length x ≡ width (system_of f)) × Agrees (system_of f) (named f v) (symbolic (system_of f) (named f v)) x) }
{
    tightened_rows();
}

/// Each run of a well formed program, in whole numbers of any size, is an abstract run of the system of its flat system. So the
/// program is safe where the system is.
pub fn runs_are_abstract()
    ensures runs { (program : ProgramTree) (main : Identifier) (f : FlatModel) (starts : Sites → Value) (inputs : ℕ → ℕ → Value) (n : ℕ) (h : History)
        → AreWell program → IsNode program main → IsFlatOf program main f → IsRun program main starts inputs n h
        → (vs : ℕ → Valuation) × (points : ℕ → List ℤ) × IsAbstractOf program main f starts n h vs points }
    ensures safe { (program : ProgramTree) (main : Identifier) (f : FlatModel)
        → AreWell program → IsNode program main → IsFlatOf program main f → IsSafeSystem (control_of f) → IsSafe program main }
{
    instants_agree();
    one_symbolic_instant();
    steps_agree();
    typed_readings();
    runs_are_one();
}

/// Each abstract run of the system of the flat system of a well formed program that has an instant, and of which each valuation is
/// allowed, is a run of the program, whatever integers there are: its states are those that the valuations and points spell. So the
/// system is safe where the program is.
pub fn abstract_runs_are_runs()
    ensures runs { (program : ProgramTree) (main : Identifier) (f : FlatModel) (n : ℕ) (vs : ℕ → Valuation) (points : ℕ → List ℤ)
        → AreWell program → IsNode program main → IsFlatOf program main f → IsAbstractRun (control_of f) n vs points → 0 < n
        → ((t : ℕ) → t < n → IsTrue ((control_of f).allowed (vs t)))
        → (starts : Sites → Value) × (inputs : ℕ → ℕ → Value) × (h : History)
        × IsRun program main starts inputs n h × IsAbstractOf program main f starts n h vs points }
    ensures safe { (program : ProgramTree) (main : Identifier) (f : FlatModel)
        → AreWell program → IsNode program main → IsFlatOf program main f → IsSafe program main → IsSafeSystem (control_of f) }
{
    instants_agree();
    one_symbolic_instant();
    steps_agree();
    typed_readings();
    one_flat_instant();
    runs_are_one();
    tightened_rows();
}

/// An abstract run of the flat system of a well formed program that has an instant, and of which each valuation is allowed, is the run of
/// the program from the start values and inputs that it spells: each memory starts with the value that its bits or its column spell at
/// the first instant, and each input has at each instant the value that its own spell there.
pub fn spelled_runs()
    ensures { (program : ProgramTree) (main : Identifier) (f : FlatModel) (n : ℕ) (vs : ℕ → Valuation) (points : ℕ → List ℤ)
        → AreWell program → IsNode program main → IsFlatOf program main f → IsAbstractRun (control_of f) n vs points → 0 < n
        → ((t : ℕ) → t < n → IsTrue ((control_of f).allowed (vs t)))
        → HasSpelledRun program main f n vs points }
{
    instants_agree();
    one_symbolic_instant();
    steps_agree();
    typed_readings();
    one_flat_instant();
    runs_are_one();
    tightened_rows();
}

/// The system of the flat system of a well formed program is one: its parts go by what they read, its first variable is the main
/// tick, its counts are within their limits, its rows are tight, and the numbers of its rows and updates are within the limits that
/// the weights of the flat system set.
pub fn control_is_a_system()
    ensures { (program : ProgramTree) (main : Identifier) (f : FlatModel)
        → AreWell program → IsNode program main → IsFlatOf program main f → IsSystem (control_of f) }
{
    typed_readings();
    tightened_rows();
}
