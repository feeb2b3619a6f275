//! Laws of cases and of box claims: the rows of a case, what tightened rows give a box, the least closed claim and its
//! layers, tighter row claims, and claims of systems without integers.

ghost use Rattle.std.specs.Prelude.{◌≡◌, ◌↔◌, ◌^◌, IsTrue, All, length, ℕ, zero, suc, Bool, Some, List, ℤ, slice_get};
ghost use Rattle.rv_diagram.specs.Nodes.{Valuation};
ghost use Rattle.rv_rows.specs.declared.linear.Row.{Row};
ghost use Rattle.rv_rows.specs.declared.linear.Form.{Form};
ghost use Rattle.rv_rows.specs.Rows.{RowWithin};
ghost use Rattle.rv_rows.specs.Forms.{CanSubstitute, IsSubstituted};
ghost use Rattle.rv_rows.specs.Tight.{Fits, IsTightened};
ghost use Rattle.rv_diagram.specs.declared.frozen.Frozen.{Frozen};
ghost use Rattle.rv_rows.specs.Multipliers.{ShowsAtOnce};
ghost use Rattle.rv_proofs.specs.Systems.{System, HasSameState, IsSameValuation, IsSystem, IsTestRow, IsUpdate, rows_of};
ghost use Rattle.rv_proofs.specs.Ranges.{IsControlSet, IsCondition};
ghost use Rattle.rv_proofs.specs.RowClaims.{
  RowClaim,
  IsRowClaim,
  IsRowTaken,
  IsRowGood,
  HasGoodRows,
  premises_at,
  IsRowTighter,
  IsLeastRowClosed,
};
ghost use Rattle.rv_proofs.specs.Scopes.{IsIn};
ghost use Rattle.rv_proofs.specs.Cases.{IsCaseOf, AreCases, IsInitialSet};
ghost use Rattle.rv_proofs.specs.declared.report.Case.{Case};
ghost use Rattle.rv_proofs.specs.Boxes.{BoxClaim, HasUnit, IsOpen, IsGood, HasGoodBox};
ghost use Rattle.rv_proofs.specs.Reached.{HasNoIntegers, HasGoodControl, IsControlClosed, IsLeastClosed, AreLayers, IsReachedNext, unbounded};

/// At each valuation of a case the rows of the system are those of the case, in their order. Two cases of a set that have a
/// valuation in common are one.
pub fn rows_of_cases()
    ensures rows { (s : System) (c : Case) (v : Valuation) → IsCaseOf s c → IsIn c.condition v → rows_of s v ≡ c.rows }
    ensures one { (s : System) (from : Frozen) (cases : List Case) (i j : ℕ) (b c : Case) (v : Valuation) → AreCases s from cases
        → slice_get cases i ≡ Some b → slice_get cases j ≡ Some c → IsIn b.condition v → IsIn c.condition v → b ≡ c }
{}

/// The first layer of a claim holds exactly the initial control states. Each later one holds exactly those to which a step from
/// an allowed open valuation of the layer before it leads, and which are in no layer before it.
pub fn layers_follow()
    ensures first { (s : System) (c : BoxClaim) (sets : List Frozen) (set : Frozen) → AreLayers s c sets → slice_get sets zero ≡ Some set → IsInitialSet s set }
    ensures later { (s : System) (c : BoxClaim) (sets : List Frozen) (t : ℕ) (set : Frozen) (v : Valuation) → AreLayers s c sets
        → slice_get sets (suc t) ≡ Some set → IsIn set v ↔ IsReachedNext s c sets t v }
{}

/// A row that has been tightened has 1 or -1 where exactly one of its coefficients is other than 0. So the box of a
/// claim is narrowed without division.
pub fn tightened_ends()
    ensures { (old new : Row) → IsTightened old new → HasUnit new }
{}

/// The least closed claim is good where any closed claim is.
pub fn least_closed_claims()
    ensures { (s : System) (thresholds : List ℤ) (c : BoxClaim) → IsLeastClosed s thresholds c → HasGoodBox s thresholds → IsGood s c }
{}

/// A row claim with tighter rows and fewer control states has fewer open valuations, and its premises show at once what those of
/// the other claim show. So the least closed row claim is good where any closed one is.
pub fn tighter_row_claims()
    ensures shows { (s : System) (thresholds : List ℤ) (c d : RowClaim) (v : Valuation) (r : Row) → IsRowClaim s thresholds d → IsRowTighter c d
        → ShowsAtOnce (premises_at s d v) r → ShowsAtOnce (premises_at s c v) r }
    ensures taken { (s : System) (thresholds : List ℤ) (c d : RowClaim) (v : Valuation) → IsRowClaim s thresholds d → IsRowTighter c d
        → IsRowTaken s c v → IsRowTaken s d v }
    ensures good { (s : System) (thresholds : List ℤ) (c : RowClaim) → IsLeastRowClosed s thresholds c → HasGoodRows s thresholds → IsRowGood s c }
{}

/// What a checker computes stays within its numbers: a kept row and a row of a test have numbers up to 2^60; a kept row of the
/// memories can be taken before the updates, with sums below 2^110, and is then a row with numbers up to 2^78.
pub fn rows_have_room()
    ensures kept { (r : Row) → Fits r → RowWithin (2 ^ 60) r }
    ensures test { (s : System) (r : Row) → IsTestRow s r → RowWithin (2 ^ 60) r }
    ensures room { (s : System) (r : Row) (forms : List Form) → IsSystem s → length r.coefficients ≡ s.memories → Fits r → length forms ≡ s.memories
        → All (IsUpdate s) forms → CanSubstitute r forms }
    ensures small { (s : System) (r : Row) (forms : List Form) (new : Row) → IsSystem s → length r.coefficients ≡ s.memories → Fits r
        → length forms ≡ s.memories → All (IsUpdate s) forms → IsSubstituted r forms new → RowWithin (2 ^ 78) new }
{}

/// Whether a valuation is in a control set goes by its state bits, and whether it meets a condition by its variables that are no
/// next copies.
pub fn sets_of_valuations()
    ensures control { (s : System) (set : Frozen) (v w : Valuation) → IsControlSet s set → HasSameState s v w → IsIn set v → IsIn set w }
    ensures condition { (s : System) (set : Frozen) (v w : Valuation) → IsCondition s set → IsSameValuation s v w → IsIn set v → IsIn set w }
{}

/// In a system without integers each valuation is open in each claim. So for any thresholds a closed good claim is a set of
/// control states that holds the initial ones, is closed under the step of each allowed valuation, and has the observer true
/// at each allowed valuation; and the least such set, without bounds, is the least closed claim.
pub fn control_claims()
    ensures all_open { (s : System) (c : BoxClaim) (v : Valuation) → HasNoIntegers s → IsOpen s c v }
    ensures same { (s : System) (thresholds : List ℤ) → HasNoIntegers s → HasGoodBox s thresholds ↔ HasGoodControl s }
    ensures least { (s : System) (thresholds : List ℤ) (reached : Valuation → Bool) → HasNoIntegers s → IsControlClosed s reached
        → ((other : Valuation → Bool) → IsControlClosed s other → (v : Valuation) → IsTrue (reached v) → IsTrue (other v))
        → IsLeastClosed s thresholds (unbounded reached) }
{}
