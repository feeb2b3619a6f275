//! Laws of programs, each the contract of a function that does nothing.

ghost use Rattle.std.specs.Prelude.{◌≡◌, ◌↔◌, ◌<◌, ◌+◌, ℕ, ℤ, Bool, map, List, Option, [], slice_index_or};
ghost use Rattle.std.specs.FinMap.{empty};
ghost use Rattle.std.specs.List.{Contains};
ghost use Rattle.rv_base.specs.declared.value.Value.{Value};
ghost use Rattle.rv_tree.specs.Delays.{Delay};
ghost use Rattle.rv_tree.specs.Tree.{Tree, Binary, ProgramTree};
ghost use Rattle.rv_tree.specs.Places.{Identifier, Sites, index_of};
ghost use Rattle.rv_types.specs.WellFormed.{AreWell, Suits};
ghost use Rattle.rv_types.specs.Instances.{IsNode, Instance, place, absolute, clock_of};
ghost use Rattle.rv_types.specs.Lists.{memory_places, delay_place, Side};
ghost use Rattle.rv_types.specs.declared.typed.Clock.{Clock};
ghost use Rattle.rv_types.specs.Clocks.{pace, form_pace};
ghost use Rattle.rv_meaning.specs.Runs.{Instant, cell, History, AreStarts, AssertionsHold, IsRun, IsSafe, cells};
ghost use Rattle.rv_meaning.specs.Following.{IsStateAt};
ghost use Rattle.rv_meaning.specs.Instants.{State as Brought, now, AreGiven, IsInstant as IsInstantAt, IsNext as IsNextState};
ghost use Rattle.rv_meaning.specs.Givers.{AreDefined};
ghost use Rattle.rv_rows.specs.Forms.{values};
ghost use Rattle.rv_agreement.specs.Programs.{kinds_of, AgreesWith, found_of, HasProducts, FoundAt, meant, Compared, compared, IsInstantOf, IsComparison};
ghost use Rattle.rv_agreement.specs.ProgramAgreement.{IsDelay, IsSymbolicAt, updated_at, integers_of, point_of, IsCodedOf, IsAgreedOf, AreUpdated, updates_of};
ghost use Rattle.rv_agreement.specs.ProgramAgreement.{LeadsTo, GivesOf, AreAlikeOf, HaveProducts, KeepsProducts, IsInitialOf, IsAllowedOf, IsSystemOf};
ghost use Rattle.rv_agreement.specs.ProgramAgreement.{memories_of};
ghost use Rattle.rv_agreement.specs.FlatRuns.{IsInductive};
ghost use Rattle.rv_agreement.specs.Translation.{Numbers, tick_number, clock_number, flat_of, Names, AreNamed, IsClockOf, AreIndexed, flat_compared};
ghost use Rattle.rv_agreement.specs.Translation.{IsTranslated};
ghost use Rattle.rv_agreement.specs.Evaluation.{Found, IsInstant, nth, value, integers};
ghost use Rattle.rv_agreement.specs.Trees.{System, Item, nth_item};
ghost use Rattle.rv_agreement.specs.Valuations.{Valuation, Reading, IsSymbolic, readings, comparisons, Comparison, all_comparisons, reads_at, updated, Agrees};
ghost use Rattle.rv_agreement.specs.Valuations.{IsAllowed};
ghost use Rattle.rv_agreement.specs.Agreement.{updates, Leads};

use rv_meaning::{defined_flows, run_is_instants, states_of_run, typed_instants};
use rv_rows::{forms_at_points, rows_of_tests, tightened_rows};

/// In each list of places a place that is there has a number, and stands at it.
pub fn indexed_places()
    ensures { (places : List Sites) → AreIndexed places }
{}

/// What is read of an expression of a program has what the expression has, over the integers and at every valuation alike;
/// and its comparisons are those of the expression, each on the clock of its own.
pub fn translated_expressions()
    ensures whole { (program : ProgramTree) (numbers : Numbers) (found : Found Value) (row : List (Option Value)) (at_place : FoundAt Value)
        (cells : Sites → Option Value)
        → ((q : Sites) → nth Value integers row (index_of numbers.flows q) ≡ cells q) → (i : Instance) (e : Tree)
        → Names i (λ q. found.kept (index_of numbers.memories q) ≡ at_place.kept q) (λ k. found.ticked (tick_number numbers k) ≡ at_place.ticked k)
        (λ x. Unit {0}) e
        → value Value integers found row (flat_of program numbers i e) ≡ meant Value integers program at_place cells i e }
    ensures symbolic { (program : ProgramTree) (numbers : Numbers) (columns : ℕ) (test : Sites → Side → Bool) (found : Found Reading)
        (row : List (Option Reading)) (at_place : FoundAt Reading) (cells : Sites → Option Reading)
        → ((q : Sites) → nth Reading (readings columns test) row (index_of numbers.flows q) ≡ cells q) → (i : Instance) (e : Tree)
        → Names i (λ q. found.kept (index_of numbers.memories q) ≡ at_place.kept q) (λ k. found.ticked (tick_number numbers k) ≡ at_place.ticked k)
        (λ x. Unit {0}) e
        → value Reading (readings columns test) found row (flat_of program numbers i e) ≡ meant Reading (readings columns test) program at_place cells i e }
    ensures comparisons { (program : ProgramTree) (numbers : Numbers) (flows : List Item) (i : Instance) (k : Option Sites) (e : Tree)
        → Names i (λ q. Unit {0}) (λ t. Unit {0}) (λ x. (nth_item flows (index_of numbers.flows (place i x))).clock ≡ clock_number numbers
        (absolute i (clock_of i.node x))) e
        → comparisons flows (clock_number numbers k) (flat_of program numbers i e)
        ≡ map (λ c. record {
          at = c.at;
          clock = clock_number numbers c.clock;
          operator = c.operator;
          left = flat_of program numbers c.within c.left;
          right = flat_of program numbers c.within c.right;
        }) (compared program i k e) }
{}

/// A flat system that is read from its program has the program's symbolic instants at each valuation, and its comparisons.
pub fn translated_systems()
    ensures instants { (program : ProgramTree) (main : Identifier) (numbers : Numbers) (s : System) (columns : ℕ) (test : Sites → Side → Bool)
        (found : Found Reading) (at_place : FoundAt Reading) (cells : Sites → Option Reading)
        → IsTranslated program main numbers s → ((j : ℕ) → found.given j ≡ at_place.given j)
        → AreNamed program main (λ q. found.kept (index_of numbers.memories q) ≡ at_place.kept q)
        (λ k. found.ticked (tick_number numbers k) ≡ at_place.ticked k) (λ i x. Unit {0})
        → ((q : Sites) → nth Reading (readings columns test) (map cells numbers.flows) (index_of numbers.flows q) ≡ cells q)
        → IsInstantOf Reading (readings columns test) program main at_place cells
        → IsInstant Reading (readings columns test) s found (map cells numbers.flows) }
    ensures rows { (program : ProgramTree) (main : Identifier) (numbers : Numbers) (s : System) (columns : ℕ) (test : Sites → Side → Bool)
        (found : Found Reading) (at_place : FoundAt Reading) (row : List (Option Reading))
        → IsTranslated program main numbers s → ((j : ℕ) → found.given j ≡ at_place.given j)
        → AreNamed program main (λ q. found.kept (index_of numbers.memories q) ≡ at_place.kept q)
        (λ k. found.ticked (tick_number numbers k) ≡ at_place.ticked k) (λ i x. Unit {0})
        → AreDefined program main → AreIndexed numbers.flows
        → IsInstant Reading (readings columns test) s found row → IsInstantOf Reading (readings columns test) program main at_place
        (λ q. nth Reading (readings columns test) row (index_of numbers.flows q)) }
    ensures comparisons { (program : ProgramTree) (main : Identifier) (numbers : Numbers) (s : System) (c : Compared)
        → IsTranslated program main numbers s → AreDefined program main → AreIndexed numbers.flows
        → AreNamed program main (λ q. Unit {0}) (λ t. Unit {0}) (IsClockOf numbers s)
        → IsComparison program main c → Contains (all_comparisons s) (flat_compared program numbers c) }
    ensures only { (program : ProgramTree) (main : Identifier) (numbers : Numbers) (s : System) (d : Comparison)
        → IsTranslated program main numbers s → AreDefined program main → AreIndexed numbers.flows
        → AreNamed program main (λ q. Unit {0}) (λ t. Unit {0}) (IsClockOf numbers s)
        → Contains (all_comparisons s) d → (c : Compared) × IsComparison program main c × (d ≡ flat_compared program numbers c) }
{}

/// Over the integers the one text of instants is the meaning of an expression at an instant.
pub fn one_meaning()
    ensures { (program : ProgramTree) (state : Brought) (inputs : ℕ → Value) (row : Instant) (i : Instance) (e : Tree)
        → HasProducts program state row i e → meant Value integers program (found_of state inputs) (cell row) i e ≡ now program state row i e }
{}

/// In an expression that is on a clock or free to take it, each comparison is given a clock that it is on, or that it is free
/// to take: where that clock is there, the comparison is present.
pub fn suited_comparisons()
    ensures { (program : ProgramTree) (i : Instance) (k : Clock) (e : Tree) → Suits k (pace i.node e) → (c : Compared)
        → Contains (compared program i (absolute i k) e) c
        → (own : Clock) × (c.clock ≡ absolute i own) × Suits own (form_pace i.node (Binary c.operator c.left c.right)) }
{}

/// The flat system of a program has at each valuation the symbolic instant of the program, of which there is exactly one; the same
/// points agree with both, the same valuations are allowed, and the same states come after them.
pub fn same_symbolic_instants()
    ensures from_program { (program : ProgramTree) (main : Identifier) (numbers : Numbers) (s : System) (v : Valuation) (cells : Sites → Option Reading)
        → AreWell program → IsNode program main → IsSystemOf program main numbers s → IsSymbolicAt program main (memories_of s) v cells
        → IsSymbolic s v (map cells numbers.flows) × ((q : Sites) → nth Reading (reads_at s v) (map cells numbers.flows) (index_of numbers.flows q) ≡ cells q) }
    ensures from_system { (program : ProgramTree) (main : Identifier) (numbers : Numbers) (s : System) (v : Valuation) (row : List (Option Reading))
        → AreWell program → IsNode program main → IsSystemOf program main numbers s → IsSymbolic s v row
        → IsSymbolicAt program main (memories_of s) v (λ q. nth Reading (reads_at s v) row (index_of numbers.flows q)) }
    ensures one { (program : ProgramTree) (main : Identifier) (numbers : Numbers) (s : System) (v : Valuation) (first second : Sites → Option Reading)
        (q : Sites)
        → AreWell program → IsNode program main → IsSystemOf program main numbers s → IsSymbolicAt program main (memories_of s) v first
        → IsSymbolicAt program main (memories_of s) v second → first q ≡ second q }
    ensures points { (program : ProgramTree) (main : Identifier) (numbers : Numbers) (s : System) (v : Valuation) (cells : Sites → Option Reading) (x : List ℤ)
        → AreWell program → IsNode program main → IsSystemOf program main numbers s → IsSymbolicAt program main (memories_of s) v cells
        → AgreesWith program main (memories_of s) v cells x ↔ Agrees s v (map cells numbers.flows) x }
    ensures allowed { (program : ProgramTree) (main : Identifier) (numbers : Numbers) (s : System) (v : Valuation) (cells : Sites → Option Reading)
        → AreWell program → IsNode program main → IsSystemOf program main numbers s → IsSymbolicAt program main (memories_of s) v cells
        → IsAllowedOf program main (memories_of s) v cells ↔ IsAllowed s v (map cells numbers.flows) }
    ensures updates { (program : ProgramTree) (main : Identifier) (numbers : Numbers) (s : System) (v : Valuation) (cells : Sites → Option Reading)
        (i : Instance) (d : Delay)
        → AreWell program → IsNode program main → IsSystemOf program main numbers s → IsSymbolicAt program main (memories_of s) v cells
        → IsDelay program main i d
        → updated s v (map cells numbers.flows) (index_of numbers.memories (delay_place i d)) ≡ updated_at program main (memories_of s) v cells i d }
    ensures leads { (program : ProgramTree) (main : Identifier) (numbers : Numbers) (s : System) (v : Valuation) (w : Valuation)
        (cells : Sites → Option Reading)
        → AreWell program → IsNode program main → IsSystemOf program main numbers s → IsSymbolicAt program main (memories_of s) v cells
        → LeadsTo program main (memories_of s) v cells w ↔ Leads s v (map cells numbers.flows) w }
{
    defined_flows();
}

/// A state in whole numbers of any size and inputs of a program, of which a well formed flat system is read, agree with some
/// valuation, whose codes name labels; with any two such valuations only in the truth of absent tests; and the symbolic instant
/// of the program at each gives the values of the instant, the truth of the assertions and of the observer, and the state after
/// the instant.
pub fn programs_agree()
    ensures some { (program : ProgramTree) (main : Identifier) (numbers : Numbers) (s : System) (state : Brought) (inputs : ℕ → Value) (row : Instant)
        → AreWell program → IsNode program main → IsSystemOf program main numbers s → AreStarts program main state.kept → AreGiven program main inputs
        → IsInstantAt program main state inputs row → HaveProducts program main state row
        → (v : Valuation) × (cells : Sites → Option Reading) × IsCodedOf program main (memories_of s) v × IsAgreedOf program main (memories_of s) v cells state
        inputs }
    ensures alike { (program : ProgramTree) (main : Identifier) (numbers : Numbers) (s : System) (state : Brought) (inputs : ℕ → Value) (row : Instant)
        (v w : Valuation) (first second : Sites → Option Reading)
        → AreWell program → IsNode program main → IsSystemOf program main numbers s → AreStarts program main state.kept → AreGiven program main inputs
        → IsInstantAt program main state inputs row → HaveProducts program main state row
        → IsAgreedOf program main (memories_of s) v first state inputs → IsAgreedOf program main (memories_of s) w second state inputs
        → AreAlikeOf program main (memories_of s) v first w }
    ensures gives { (program : ProgramTree) (main : Identifier) (numbers : Numbers) (s : System) (state : Brought) (inputs : ℕ → Value) (row : Instant)
        (next : Brought) (v : Valuation) (cells : Sites → Option Reading)
        → AreWell program → IsNode program main → IsSystemOf program main numbers s → AreStarts program main state.kept → AreGiven program main inputs
        → IsInstantAt program main state inputs row → HaveProducts program main state row → IsNextState program main state row next
        → IsAgreedOf program main (memories_of s) v cells state inputs → GivesOf program main (memories_of s) v cells state inputs row next }
{
    defined_flows();
    forms_at_points();
    rows_of_tests();
    tightened_rows();
}

/// From a state of a program that agrees with a valuation: each memory has something after the symbolic instant, the integer
/// memories after the instant are the values of its forms at the point, and the control state of each valuation with which the
/// next state agrees is the next one of the valuation.
pub fn program_steps_agree()
    ensures some { (program : ProgramTree) (main : Identifier) (numbers : Numbers) (s : System) (state : Brought) (inputs : ℕ → Value) (row : Instant)
        (v : Valuation) (cells : Sites → Option Reading)
        → AreWell program → IsNode program main → IsSystemOf program main numbers s → AreStarts program main state.kept → AreGiven program main inputs
        → IsInstantAt program main state inputs row → HaveProducts program main state row → IsAgreedOf program main (memories_of s) v cells state inputs
        → (after : Sites → Reading) × AreUpdated program main (memories_of s) v cells after }
    ensures updates { (program : ProgramTree) (main : Identifier) (numbers : Numbers) (s : System) (state : Brought) (inputs : ℕ → Value) (row : Instant)
        (next : Brought) (v : Valuation) (cells : Sites → Option Reading) (after : Sites → Reading)
        → AreWell program → IsNode program main → IsSystemOf program main numbers s → AreStarts program main state.kept → AreGiven program main inputs
        → IsInstantAt program main state inputs row → HaveProducts program main state row → IsNextState program main state row next
        → IsAgreedOf program main (memories_of s) v cells state inputs → AreUpdated program main (memories_of s) v cells after
        → integers_of (kinds_of program main (memories_of s)) (λ m. next.kept (slice_index_or (memory_places (memories_of s)) m []))
        ≡ values (updates_of program main (memories_of s) v cells after) (point_of program main (memories_of s) state inputs) }
    ensures leads { (program : ProgramTree) (main : Identifier) (numbers : Numbers) (s : System) (state : Brought) (inputs : ℕ → Value) (row : Instant)
        (next : Brought) (later : ℕ → Value) (v w : Valuation) (cells after : Sites → Option Reading)
        → AreWell program → IsNode program main → IsSystemOf program main numbers s → AreStarts program main state.kept → AreGiven program main inputs
        → IsInstantAt program main state inputs row → HaveProducts program main state row → IsNextState program main state row next
        → IsAgreedOf program main (memories_of s) v cells state inputs → IsAgreedOf program main (memories_of s) w after next later
        → LeadsTo program main (memories_of s) v cells w }
{
    defined_flows();
    forms_at_points();
    rows_of_tests();
    tightened_rows();
}

/// At each instant of a run of a program, in whole numbers of any size, the state and the inputs agree with a valuation, and any
/// two with which they agree differ only in the truth of tests that are absent there. The symbolic instant at each such valuation
/// gives the values of the history, the truth of its assertions and of its observer, and the state of the next instant; where the
/// assertions hold, the valuation is allowed; and at the first instant its control state is initial.
pub fn runs_agree()
    ensures some { (program : ProgramTree) (main : Identifier) (numbers : Numbers) (s : System) (starts : Sites → Value) (inputs : ℕ → ℕ → Value) (n : ℕ)
        (h : History) (t : ℕ) (state : Brought)
        → AreWell program → IsNode program main → IsSystemOf program main numbers s → KeepsProducts program main
        → IsRun program main starts inputs n h → t < n → IsStateAt program main starts (cells h) t state
        → (v : Valuation) × (symbolic : Sites → Option Reading) × IsCodedOf program main (memories_of s) v × IsAgreedOf program main (memories_of s) v symbolic
        state (inputs t) }
    ensures alike { (program : ProgramTree) (main : Identifier) (numbers : Numbers) (s : System) (starts : Sites → Value) (inputs : ℕ → ℕ → Value) (n : ℕ)
        (h : History) (t : ℕ) (state : Brought) (v w : Valuation) (first second : Sites → Option Reading)
        → AreWell program → IsNode program main → IsSystemOf program main numbers s → KeepsProducts program main
        → IsRun program main starts inputs n h → t < n → IsStateAt program main starts (cells h) t state
        → IsAgreedOf program main (memories_of s) v first state (inputs t) → IsAgreedOf program main (memories_of s) w second state (inputs t)
        → AreAlikeOf program main (memories_of s) v first w }
    ensures gives { (program : ProgramTree) (main : Identifier) (numbers : Numbers) (s : System) (starts : Sites → Value) (inputs : ℕ → ℕ → Value) (n : ℕ)
        (h : History) (t : ℕ) (state : Brought) (next : Brought) (v : Valuation) (symbolic : Sites → Option Reading)
        → AreWell program → IsNode program main → IsSystemOf program main numbers s → KeepsProducts program main
        → IsRun program main starts inputs n h → t < n → IsStateAt program main starts (cells h) t state → IsStateAt program main starts (cells h) (t + 1) next
        → IsAgreedOf program main (memories_of s) v symbolic state (inputs t)
        → GivesOf program main (memories_of s) v symbolic state (inputs t) (slice_index_or h t empty) next }
    ensures leads { (program : ProgramTree) (main : Identifier) (numbers : Numbers) (s : System) (starts : Sites → Value) (inputs : ℕ → ℕ → Value) (n : ℕ)
        (h : History) (t : ℕ) (state : Brought) (next : Brought) (later : ℕ → Value) (v w : Valuation) (symbolic after : Sites → Option Reading)
        → AreWell program → IsNode program main → IsSystemOf program main numbers s → KeepsProducts program main
        → IsRun program main starts inputs n h → t < n → IsStateAt program main starts (cells h) t state → IsStateAt program main starts (cells h) (t + 1) next
        → IsAgreedOf program main (memories_of s) v symbolic state (inputs t) → IsAgreedOf program main (memories_of s) w after next later
        → LeadsTo program main (memories_of s) v symbolic w }
    ensures updates { (program : ProgramTree) (main : Identifier) (numbers : Numbers) (s : System) (starts : Sites → Value) (inputs : ℕ → ℕ → Value) (n : ℕ)
        (h : History) (t : ℕ) (state : Brought) (next : Brought) (v : Valuation) (symbolic : Sites → Option Reading) (after : Sites → Reading)
        → AreWell program → IsNode program main → IsSystemOf program main numbers s → KeepsProducts program main
        → IsRun program main starts inputs n h → t < n → IsStateAt program main starts (cells h) t state → IsStateAt program main starts (cells h) (t + 1) next
        → IsAgreedOf program main (memories_of s) v symbolic state (inputs t) → AreUpdated program main (memories_of s) v symbolic after
        → integers_of (kinds_of program main (memories_of s)) (λ m. next.kept (slice_index_or (memory_places (memories_of s)) m []))
        ≡ values (updates_of program main (memories_of s) v symbolic after) (point_of program main (memories_of s) state (inputs t)) }
    ensures allowed { (program : ProgramTree) (main : Identifier) (numbers : Numbers) (s : System) (starts : Sites → Value) (inputs : ℕ → ℕ → Value) (n : ℕ)
        (h : History) (t : ℕ) (state : Brought) (v : Valuation) (symbolic : Sites → Option Reading)
        → AreWell program → IsNode program main → IsSystemOf program main numbers s → KeepsProducts program main
        → IsRun program main starts inputs n h → t < n → IsStateAt program main starts (cells h) t state → AssertionsHold program main starts h t
        → IsAgreedOf program main (memories_of s) v symbolic state (inputs t) → IsAllowedOf program main (memories_of s) v symbolic }
    ensures initial { (program : ProgramTree) (main : Identifier) (numbers : Numbers) (s : System) (starts : Sites → Value) (inputs : ℕ → ℕ → Value) (n : ℕ)
        (h : History) (state : Brought) (v : Valuation) (symbolic : Sites → Option Reading)
        → AreWell program → IsNode program main → IsSystemOf program main numbers s → KeepsProducts program main
        → IsRun program main starts inputs n h → 0 < n → IsStateAt program main starts (cells h) 0 state
        → IsAgreedOf program main (memories_of s) v symbolic state (inputs 0) → IsInitialOf program main (memories_of s) v }
{
    defined_flows();
    run_is_instants();
    states_of_run();
    typed_instants();
    forms_at_points();
    rows_of_tests();
    tightened_rows();
}

/// Where something is inductive over the valuations of the flat system of a program, the program is safe: in each run in whole
/// numbers of any size the observer is true at each instant up to which the assertions have held.
pub fn inductive_program_is_safe()
    ensures { (program : ProgramTree) (main : Identifier) (numbers : Numbers) (s : System) (holds : Valuation → List ℤ → Bool)
        → AreWell program → IsNode program main → IsSystemOf program main numbers s → KeepsProducts program main
        → IsInductive s holds → IsSafe program main }
{
    defined_flows();
    run_is_instants();
    states_of_run();
    typed_instants();
    forms_at_points();
    rows_of_tests();
    tightened_rows();
}
