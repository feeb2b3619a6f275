//! Laws of the meaning, each the contract of a function that does nothing.

ghost use Rattle.std.specs.Prelude.{◌≡◌, ℕ, ◌+◌, ◌<◌, ◌↔◌, List, slice_index_or};
ghost use Rattle.std.specs.FinMap.{empty};
ghost use Rattle.std.specs.List.{Contains};
ghost use Rattle.rv_base.specs.declared.value.Value.{Value};
ghost use Rattle.rv_tree.specs.Tree.{AssertionTree, ProgramTree};
ghost use Rattle.rv_tree.specs.Places.{Identifier, Sites};
ghost use Rattle.rv_types.specs.declared.typed.Clock.TheVariants.{Base};
ghost use Rattle.rv_types.specs.Instances.{Instance, IsInstance, IsNode};
ghost use Rattle.rv_types.specs.Needs.{IsSequence};
ghost use Rattle.rv_types.specs.WellFormed.{AreWell};
ghost use Rattle.rv_meaning.specs.Meaning.{value};
ghost use Rattle.rv_meaning.specs.Runs.{History, Instant, cells, AssertionsHold, AreStarts, AreInputs, IsRun};
ghost use Rattle.rv_meaning.specs.Instants.{State, IsInstant, IsNext, IsStart, AllowsAt, AreGiven, value_now};
ghost use Rattle.rv_meaning.specs.Givers.{AreDefined};
ghost use Rattle.rv_meaning.specs.Following.{IsStateAt, AreSteps, IsTypedInstant};

/// Two runs with the same starts and inputs are equal, where the flows stand in an order of evaluation.
pub fn one_run()
    ensures { (program : ProgramTree) (main : Identifier) (sequence : List Sites) (starts : Sites → Value) (inputs : ℕ → ℕ → Value) (n : ℕ) (h g : History)
        → AreWell program → IsNode program main → IsSequence program main sequence → IsRun program main starts inputs n h → IsRun program main starts inputs n g
        → h ≡ g }
{}

/// All starts and inputs of their types have a run, where the flows stand in an order of evaluation.
pub fn some_run()
    ensures { (program : ProgramTree) (main : Identifier) (sequence : List Sites) (starts : Sites → Value) (inputs : ℕ → ℕ → Value) (n : ℕ)
        → AreWell program → IsNode program main → IsSequence program main sequence → AreStarts program main starts → AreInputs program main n inputs
        → (h : History) × IsRun program main starts inputs n h }
{}

/// At each state and inputs there is exactly one instant, where the flows stand in an order of evaluation.
pub fn one_instant()
    ensures { (program : ProgramTree) (main : Identifier) (sequence : List Sites) (state : State) (inputs : ℕ → Value)
        → AreWell program → IsNode program main → IsSequence program main sequence
        → (row : Instant) × IsInstant program main state inputs row × ((other : Instant) → IsInstant program main state inputs other → other ≡ row) }
{}

/// Each row of a run is an instant at the state that the run brings there, and the assertions have the same there; so they hold
/// in both or in neither.
pub fn run_is_instants()
    ensures instant { (program : ProgramTree) (main : Identifier) (starts : Sites → Value) (inputs : ℕ → ℕ → Value) (n : ℕ) (h : History) (t : ℕ)
        (state : State)
        → IsRun program main starts inputs n h → t < n → IsStateAt program main starts (cells h) t state
        → IsInstant program main state (inputs t) (slice_index_or h t empty)
        × (AssertionsHold program main starts h t ↔ AllowsAt program main state (slice_index_or h t empty)) }
    ensures assertions { (program : ProgramTree) (main : Identifier) (starts : Sites → Value) (h : History) (t : ℕ) (state : State) (i : Instance)
        (a : AssertionTree)
        → IsStateAt program main starts (cells h) t state → IsInstance program main i → Contains i.node.assertions a
        → value program starts (cells h) i Base a.body t ≡ value_now program state (slice_index_or h t empty) i Base a.body }
{}

/// A history brings a state to each instant: at the first the start, and after each row the next one.
pub fn states_of_run()
    ensures some { (program : ProgramTree) (main : Identifier) (starts : Sites → Value) (h : History) (t : ℕ)
        → AreWell program → IsNode program main → (state : State) × IsStateAt program main starts (cells h) t state }
    ensures start { (program : ProgramTree) (main : Identifier) (starts : Sites → Value) (h : History) (state : State)
        → IsStateAt program main starts (cells h) 0 state ↔ IsStart program main starts state }
    ensures next { (program : ProgramTree) (main : Identifier) (starts : Sites → Value) (h : History) (t : ℕ) (state next : State)
        → IsStateAt program main starts (cells h) t state → IsStateAt program main starts (cells h) (t + 1) next
        → IsNext program main state (slice_index_or h t empty) next }
{}

/// There is a state after each row.
pub fn some_next()
    ensures { (program : ProgramTree) (main : Identifier) (state : State) (row : Instant) → AreWell program → IsNode program main
        → (next : State) × IsNext program main state row next }
{}

/// Each flow has exactly one right side, argument or input that gives it its value, on its own clock.
pub fn defined_flows()
    ensures { (program : ProgramTree) (main : Identifier) → AreWell program → IsNode program main → AreDefined program main }
{}

/// Steps from the start are the run: rows of which each is the instant at its state, the first state the start and each
/// next one that after the row.
pub fn steps_are_run()
    ensures { (program : ProgramTree) (main : Identifier) (starts : Sites → Value) (inputs : ℕ → ℕ → Value) (n : ℕ) (states : ℕ → State) (rows : History)
        → AreStarts program main starts → AreInputs program main n inputs → AreSteps program main starts inputs n states rows
        → IsRun program main starts inputs n rows × ((t : ℕ) → t < n → IsStateAt program main starts (cells rows) t (states t)) }
{}

/// Where what the memories hold and what is given have their types, so has each flow, and so have the memories after it.
pub fn typed_instants()
    ensures flows { (program : ProgramTree) (main : Identifier) (sequence : List Sites) (state : State) (inputs : ℕ → Value) (row : Instant)
        → AreWell program → IsNode program main → IsSequence program main sequence → AreStarts program main state.kept → AreGiven program main inputs
        → IsInstant program main state inputs row → IsTypedInstant program main row }
    ensures memories { (program : ProgramTree) (main : Identifier) (sequence : List Sites) (state next : State) (inputs : ℕ → Value) (row : Instant)
        → AreWell program → IsNode program main → IsSequence program main sequence → AreStarts program main state.kept → AreGiven program main inputs
        → IsInstant program main state inputs row → IsNext program main state row next → AreStarts program main next.kept }
{}
