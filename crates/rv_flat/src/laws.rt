//! Laws of flat systems, each the contract of a function that does nothing.

ghost use Rattle.std.specs.Prelude.{◌≡◌, ℕ, ◌<◌, ◌≤◌, ◌↔◌, ℤ, Bool, List, Option, length, slice_index_or};
ghost use Rattle.std.specs.FinMap.{empty};
ghost use Rattle.std.specs.List.{Contains};
ghost use Rattle.rv_base.specs.declared.value.Place.{Place as PlaceModel};
ghost use Rattle.rv_base.specs.declared.value.Value.{Value};
ghost use Rattle.rv_tree.specs.Tree.{ProgramTree};
ghost use Rattle.rv_tree.specs.Places.{Identifier, Sites};
ghost use Rattle.rv_types.specs.Instances.{IsNode};
ghost use Rattle.rv_types.specs.WellFormed.{AreWell};
ghost use Rattle.rv_meaning.specs.Runs.{History, AreStarts, AssertionsHold, IsRun, IsSafe, cells, observed};
ghost use Rattle.rv_meaning.specs.Instants.{State as Brought, AreGiven};
ghost use Rattle.rv_meaning.specs.Following.{IsStateAt};
ghost use Rattle.rv_agreement.specs.Agreement.{State as SystemState};
ghost use Rattle.rv_agreement.specs.FlatRuns.{IsFlatRun, IsInductive};
ghost use Rattle.rv_agreement.specs.Valuations.{Valuation};
ghost use Rattle.rv_flat.specs.declared.flat.Flat.{Flat as FlatModel};
ghost use Rattle.rv_flat.specs.declared.state.State.{State as StateModel};
ghost use Rattle.rv_flat.specs.FlatInstants.{Row, nth, places, memory_places, system_of, IsFlatInstant};
ghost use Rattle.rv_flat.specs.FlatOf.{IsFlatBroken, IsFlatOf, flat_inputs, flat_state, row_of};
ghost use Rattle.rv_flat.specs.FlatRuns.{AreStepsOf, IsBrokenAt};
ghost use Rattle.rv_flat.specs.SystemRuns.{HasRun, IsRunOf};
ghost use Rattle.rv_flat.specs.Steps.{AreTaken, AreValues, IsInRange, IsLeastOf, IsState, input_kinds};

use rv_agreement::inductive_is_safe as inductive_systems;
use rv_meaning::{run_is_instants, some_next, states_of_run, steps_are_run, typed_instants};

/// A flat system has exactly one instant at each state and inputs.
pub fn one_flat_instant()
    ensures { (f : FlatModel) (now : StateModel) (inputs : List Value)
        → (row : Row) × IsFlatInstant f now inputs row × ((other : Row) → IsFlatInstant f now inputs other → other ≡ row) }
{}

/// Steps of a flat system from the start give the run of its program, where that is well formed: the rows are the run's, flow
/// by flow, each state is the one that the run brings there, the observer has what it has in the run, and the assertions that
/// are false are those of the run. So the least place of one is that in the run, and there is none exactly where the assertions
/// hold.
pub fn steps_give_run()
    ensures rows { (program : ProgramTree) (main : Identifier) (f : FlatModel) (starts : Sites → Value) (inputs : ℕ → ℕ → Value) (n : ℕ) (h : History)
        (states : ℕ → StateModel) (rows : ℕ → Row)
        → AreStepsOf program main f starts inputs n h states rows → (t : ℕ) → t < n → rows t ≡ row_of (places f) (slice_index_or h t empty) }
    ensures states { (program : ProgramTree) (main : Identifier) (f : FlatModel) (starts : Sites → Value) (inputs : ℕ → ℕ → Value) (n : ℕ) (h : History)
        (states : ℕ → StateModel) (rows : ℕ → Row)
        → AreStepsOf program main f starts inputs n h states rows → (t : ℕ) → t ≤ n
        → (state : Brought) × IsStateAt program main starts (cells h) t state × (states t ≡ flat_state f state) }
    ensures observer { (program : ProgramTree) (main : Identifier) (f : FlatModel) (starts : Sites → Value) (inputs : ℕ → ℕ → Value) (n : ℕ) (h : History)
        (states : ℕ → StateModel) (rows : ℕ → Row)
        → AreStepsOf program main f starts inputs n h states rows → (t : ℕ) → t < n → nth (rows t) f.observer ≡ observed program main h t }
    ensures broken { (program : ProgramTree) (main : Identifier) (f : FlatModel) (starts : Sites → Value) (inputs : ℕ → ℕ → Value) (n : ℕ) (h : History)
        (states : ℕ → StateModel) (rows : ℕ → Row)
        → AreStepsOf program main f starts inputs n h states rows → (t : ℕ) → t < n → (q : Sites)
        → IsFlatBroken f (states t) (flat_inputs f (inputs t)) (rows t) q ↔ IsBrokenAt program main starts h t q }
    ensures least { (program : ProgramTree) (main : Identifier) (f : FlatModel) (starts : Sites → Value) (inputs : ℕ → ℕ → Value) (n : ℕ) (h : History)
        (states : ℕ → StateModel) (rows : ℕ → Row)
        → AreStepsOf program main f starts inputs n h states rows → (t : ℕ) → t < n → (p : Option PlaceModel)
        → IsLeastOf (IsFlatBroken f (states t) (flat_inputs f (inputs t)) (rows t)) p → IsLeastOf (IsBrokenAt program main starts h t) p }
    ensures allowed { (program : ProgramTree) (main : Identifier) (f : FlatModel) (starts : Sites → Value) (inputs : ℕ → ℕ → Value) (n : ℕ) (h : History)
        (states : ℕ → StateModel) (rows : ℕ → Row)
        → AreStepsOf program main f starts inputs n h states rows → (t : ℕ) → t < n
        → AssertionsHold program main starts h t ↔ ((q : Sites) → IsFlatBroken f (states t) (flat_inputs f (inputs t)) (rows t) q → ⊥) }
{
    run_is_instants();
    states_of_run();
}

/// Each state of the flat system of a well formed program is the flat form of a state of the program, and so are its inputs; what
/// these hold has its type. And the flat form of such a state is a state, where the integers in its memories are within the range.
/// So what holds at all flat states holds at all those of the program.
pub fn flat_states()
    ensures states { (program : ProgramTree) (main : Identifier) (f : FlatModel) (now : StateModel)
        → AreWell program → IsNode program main → IsFlatOf program main f → IsState f now
        → (state : Brought) × (flat_state f state ≡ now) × AreStarts program main state.kept }
    ensures inputs { (program : ProgramTree) (main : Identifier) (f : FlatModel) (given : List Value)
        → AreWell program → IsNode program main → IsFlatOf program main f → AreValues f (input_kinds f) given
        → (inputs : ℕ → Value) × (flat_inputs f inputs ≡ given) × AreGiven program main inputs }
    ensures back { (program : ProgramTree) (main : Identifier) (f : FlatModel) (state : Brought)
        → AreWell program → IsNode program main → IsFlatOf program main f → AreStarts program main state.kept
        → ((q : Sites) → Contains (memory_places f) q → IsInRange (state.kept q)) → IsState f (flat_state f state) }
    ensures given { (program : ProgramTree) (main : Identifier) (f : FlatModel) (inputs : ℕ → Value)
        → AreWell program → IsNode program main → IsFlatOf program main f → AreGiven program main inputs
        → ((j : ℕ) → j < length f.inputs → IsInRange (inputs j)) → AreValues f (input_kinds f) (flat_inputs f inputs) }
{}

/// In the flat system of a well formed program each memory whose clock is there takes a value of its type, at each state
/// whose memories hold values of theirs and inputs of theirs. So the state after each step is one again.
pub fn typed_steps()
    ensures { (program : ProgramTree) (main : Identifier) (f : FlatModel) (now : StateModel) (inputs : List Value) (row : Row)
        → AreWell program → IsNode program main → IsFlatOf program main f → IsState f now → AreValues f (input_kinds f) inputs → IsFlatInstant f now inputs row
        → AreTaken f now inputs row }
{
    typed_instants();
    some_next();
}

/// A run of a well formed program is a run of its flat system, in whole numbers of any size, with its states, rows, starts,
/// assertions and observer; and a run of the flat system that has an instant is one of the program.
pub fn runs_are_one()
    ensures flat { (program : ProgramTree) (main : Identifier) (f : FlatModel) (starts : Sites → Value) (inputs : ℕ → ℕ → Value) (n : ℕ) (h : History)
        → AreWell program → IsNode program main → IsFlatOf program main f → IsRun program main starts inputs n h
        → (states : ℕ → SystemState) × (rows : ℕ → Row) × IsRunOf program main f starts inputs n h states rows }
    ensures back { (program : ProgramTree) (main : Identifier) (f : FlatModel) (n : ℕ) (states : ℕ → SystemState) (inputs : ℕ → List Value) (rows : ℕ → Row)
        → AreWell program → IsNode program main → IsFlatOf program main f → IsFlatRun (system_of f) n states inputs rows → 0 < n
        → HasRun program main f n states inputs rows }
{
    run_is_instants();
    states_of_run();
    steps_are_run();
    some_next();
    typed_instants();
}

/// Where something is inductive over the valuations of a flat system, its program is safe: a property of the control state and of
/// the integer memories that is initial, that makes the observer true at each allowed valuation whose rows are met, and that is
/// kept there.
pub fn inductive_is_safe()
    ensures { (program : ProgramTree) (main : Identifier) (f : FlatModel) (holds : Valuation → List ℤ → Bool)
        → AreWell program → IsNode program main → IsFlatOf program main f → IsInductive (system_of f) holds → IsSafe program main }
{
    inductive_systems();
    run_is_instants();
    states_of_run();
    typed_instants();
}
