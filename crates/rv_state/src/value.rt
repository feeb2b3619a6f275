ghost use Rattle.std.specs.Prelude.{◌≡◌, ◌↔◌, ◌⊎◌, ℕ, ◌+◌, ◌<◌, ◌≤◌, ◌^◌, ℤ, List, ◌++◌, length, All, IsTrue, IfOk, IsErrOf, slice_index_or};
ghost use Rattle.rv_diagram.specs.Nodes.{Valuation, IsOrderedOver};
ghost use Rattle.rv_diagram.specs.Room.{Lacks};
ghost use Rattle.rv_rows.specs.declared.linear.Row.{Row};
ghost use Rattle.rv_rows.specs.Forms.{forms_width};
ghost use Rattle.rv_rows.specs.Multipliers.{ShowsAtOnce};
ghost use Rattle.rv_poly.specs.Points.{HasPoint, Covers};
ghost use Rattle.rv_poly.specs.Polys.{IsPoly, HaveOneWidth};
ghost use Rattle.rv_poly.specs.Befores.{IsBefore, IsBackMove};
ghost use Rattle.rv_proofs.specs.Systems.{System, IsSystem};
ghost use Rattle.rv_proofs.specs.Scopes.{IsIn};
ghost use Rattle.rv_proofs.specs.Ranges.{IsControlSet};
ghost use Rattle.rv_proofs.specs.Cases.{IsCaseOf, IsImage, IsPreimage};
ghost use Rattle.rv_state.specs.States.{HasState, IsUpdated, IsMove, IsSuccessor};
ghost use Rattle.rv_state.specs.Predecessors.{IsPredecessor};

use crate::polys::{is_included, joined};
use crate::sets::{is_within, union_of};
use rv_base::Memory;
use rv_diagram::{Frozen, Store, StoreFault};
use rv_poly::Poly;
use rv_proofs::Case;
use std::alloc::Global;

/// The value of one location: a set of control states, and a polyhedron that has what the integer memories may be there, the first memory
/// in the first column.
#[derive(Debug, Drop, PartialEq, Eq)]
pub struct Abstract {
    /// The control states.
    pub control: Frozen,
    /// The points of the integer memories.
    pub poly: Poly,
}

impl Abstract {
    /// The states after a case: the control set that is handed in, and a polyhedron with the updated point of each own point that, with some
    /// whole inputs, meets the rows of the case, which has one update for each column of the own rows. With the image of the own control set
    /// by the case it so has every successor. Where each update is its own column plus a constant, the rows of the case have no input, and
    /// all rows, as they are and moved by the constants, are within the limits of kept rows and at most 1,024, it has no other points, and
    /// with the image no other states, whatever the size of the constants. The only error is want of memory.
    pub fn post(&self, alloc: Global, case: &Case, image: Frozen) -> Result<Abstract, Memory>
        requires poly { IsPoly self.now.poly.rows }
        requires width { All (λ r. length r.coefficients ≡ length case.now.updates) self.now.poly.rows }
        requires updates { All (λ f. length f.coefficients ≡ forms_width case.now.updates) case.now.updates }
        ensures control { IfOk result (λ a. a.control ≡ image) }
        ensures poly { IfOk result (λ a. IsPoly a.poly.rows) }
        ensures few { IfOk result (λ a. length a.poly.rows ≤ 1024) }
        ensures width { IfOk result (λ a. All (λ r. length r.coefficients ≡ length case.now.updates) a.poly.rows) }
        ensures contains { IfOk result (λ a. (inputs : ℕ) (new : List ℤ) → IsUpdated self.now.poly.rows case.now inputs new → HasPoint a.poly.rows new) }
        ensures exact { IfOk result (λ a. IsMove self.now.poly.rows case.now → (inputs : ℕ) (new : List ℤ)
            → length new ≡ length case.now.updates → HasPoint a.poly.rows new → IsUpdated self.now.poly.rows case.now inputs new) }
        ensures successors { IfOk result (λ a. (s : System) → IsCaseOf s case.now → IsImage s self.now.control case.now image
            → (w : Valuation) (new : List ℤ) → IsSuccessor s self.now case.now w new → HasState a w new) }
        ensures only { IfOk result (λ a. (s : System) → IsSystem s → IsCaseOf s case.now → IsImage s self.now.control case.now image
            → IsMove self.now.poly.rows case.now → (w : Valuation) (new : List ℤ) → length new ≡ s.memories → HasState a w new
            → IsSuccessor s self.now case.now w new) }
    {
        let poly = self.poly.after(alloc, &case.rows, &case.updates)?;
        Ok(Abstract {
            control: image,
            poly,
        })
    }

    /// The states before a case: the control set that is handed in, and a polyhedron with each point that, with some whole inputs, meets the
    /// rows of the case, and whose updated point is one of its own; the case has one update for each column of the own rows. With the preimage
    /// of the own control set by the case it so has every predecessor. Where each update is its own column plus a constant, the rows of the
    /// case have no input, and they, and the own rows moved by the negatives of the constants, are within the limits of kept rows and at most
    /// 1,024, it has no other points, and with the preimage no other states, whatever the size of the constants. The only error is want of
    /// memory.
    pub fn pre(&self, alloc: Global, case: &Case, preimage: Frozen) -> Result<Abstract, Memory>
        requires poly { IsPoly self.now.poly.rows }
        requires width { All (λ r. length r.coefficients ≡ length case.now.updates) self.now.poly.rows }
        requires updates { All (λ f. length f.coefficients ≡ forms_width case.now.updates) case.now.updates }
        ensures control { IfOk result (λ a. a.control ≡ preimage) }
        ensures poly { IfOk result (λ a. IsPoly a.poly.rows) }
        ensures few { IfOk result (λ a. length a.poly.rows ≤ 1024) }
        ensures width { IfOk result (λ a. All (λ r. length r.coefficients ≡ length case.now.updates) a.poly.rows) }
        ensures contains { IfOk result (λ a. (inputs : ℕ) (point : List ℤ)
            → IsBefore self.now.poly.rows case.now.rows case.now.updates inputs point → HasPoint a.poly.rows point) }
        ensures exact { IfOk result (λ a. IsBackMove self.now.poly.rows case.now.rows case.now.updates → (inputs : ℕ) (point : List ℤ)
            → length point ≡ length case.now.updates → HasPoint a.poly.rows point
            → IsBefore self.now.poly.rows case.now.rows case.now.updates inputs point) }
        ensures predecessors { IfOk result (λ a. (s : System) → IsCaseOf s case.now → IsPreimage s self.now.control case.now preimage
            → (w : Valuation) (point : List ℤ) → IsPredecessor s self.now case.now w point → HasState a w point) }
        ensures only { IfOk result (λ a. (s : System) → IsSystem s → IsCaseOf s case.now → IsPreimage s self.now.control case.now preimage
            → IsBackMove self.now.poly.rows case.now.rows case.now.updates → (w : Valuation) (point : List ℤ) → length point ≡ s.memories
            → HasState a w point → IsPredecessor s self.now case.now w point) }
    {
        let poly = self.poly.before(alloc, &case.rows, &case.updates)?;
        Ok(Abstract {
            control: preimage,
            poly,
        })
    }

    /// Whether every state of the other is one of its own. It is found wherever the control set of the other is within the own one, and
    /// none, one or two rows of the other show each own row at once; elsewhere false promises nothing. Both control sets are ordered for the
    /// store, which is left as it was. Memory comes for want of memory, and Nodes only where the store, over m variables, has no room for
    /// `(m + 2)^2 * 2^(m + 1)` more nodes.
    pub fn includes(
        &self,
        alloc: Global,
        store: &mut Store,
        other: &Abstract,
    ) -> Result<bool, StoreFault>
        requires control { IsOrderedOver store.old.variables self.now.control }
        requires other_control { IsOrderedOver store.old.variables other.now.control }
        requires poly { IsPoly self.now.poly.rows }
        requires other_poly { IsPoly other.now.poly.rows }
        ensures sound { IfOk result (λ yes. IsTrue yes → (v : Valuation) (point : List ℤ) → HasState other.now v point → HasState self.now v point) }
        ensures found { IfOk result (λ yes. ((v : Valuation) → IsIn other.now.control v → IsIn self.now.control v)
            → All (ShowsAtOnce other.now.poly.rows) self.now.poly.rows → IsTrue yes) }
        ensures same { store.new ≡ store.old }
        ensures roomy { IsErrOf result StoreFault.Nodes → store.old.limit < 2 ^ (2 ^ store.old.variables) }
        ensures room { IsErrOf result StoreFault.Nodes → Lacks 1 store.old }
    {
        if !is_within(store, &other.control, &self.control)? {
            return Ok(false);
        }
        let yes = is_included(alloc, &other.poly, &self.poly)?;
        Ok(yes)
    }

    /// A value with the states of both. Its control set is exactly the union; its polyhedron has the points of both, over as many columns.
    /// Where the two have at most 1,024 rows together, its points meet each row of one that the other shows at once. Both control sets are
    /// ordered for the store, which is left as it was. Memory comes for want of memory, and Nodes only where the store, over m variables, has no
    /// room for `(m + 2)^2 * 2^(m + 1)` more nodes.
    pub fn join(
        &self,
        alloc: Global,
        store: &mut Store,
        other: &Abstract,
    ) -> Result<Abstract, StoreFault>
        requires control { IsOrderedOver store.old.variables self.now.control }
        requires other_control { IsOrderedOver store.old.variables other.now.control }
        requires poly { IsPoly self.now.poly.rows }
        requires other_poly { IsPoly other.now.poly.rows }
        requires widths { HaveOneWidth (self.now.poly.rows ++ other.now.poly.rows) }
        ensures contains { IfOk result (λ a. (v : Valuation) (point : List ℤ) → HasState self.now v point ⊎ HasState other.now v point → HasState a v point) }
        ensures control { IfOk result (λ a. (v : Valuation) → IsIn a.control v ↔ (IsIn self.now.control v ⊎ IsIn other.now.control v)) }
        ensures ordered { IfOk result (λ a. IsOrderedOver store.old.variables a.control) }
        ensures states { IfOk result (λ a. (s : System) → store.old.variables ≡ s.variables → IsControlSet s self.now.control
            → IsControlSet s other.now.control → IsControlSet s a.control) }
        ensures poly { IfOk result (λ a. IsPoly a.poly.rows) }
        ensures few { IfOk result (λ a. length a.poly.rows ≤ 1024) }
        ensures width { IfOk result (λ a. (w : ℕ) → All (λ r. length r.coefficients ≡ w) self.now.poly.rows
            → All (λ r. length r.coefficients ≡ w) other.now.poly.rows → All (λ r. length r.coefficients ≡ w) a.poly.rows) }
        ensures first { IfOk result (λ a. length self.now.poly.rows + length other.now.poly.rows ≤ 1024 → (i : ℕ) (d : Row) → i < length self.now.poly.rows
            → ShowsAtOnce other.now.poly.rows (slice_index_or self.now.poly.rows i d) → Covers a.poly.rows (slice_index_or self.now.poly.rows i d)) }
        ensures second { IfOk result (λ a. length self.now.poly.rows + length other.now.poly.rows ≤ 1024 → (i : ℕ) (d : Row) → i < length other.now.poly.rows
            → ShowsAtOnce self.now.poly.rows (slice_index_or other.now.poly.rows i d) → Covers a.poly.rows (slice_index_or other.now.poly.rows i d)) }
        ensures same { store.new ≡ store.old }
        ensures roomy { IsErrOf result StoreFault.Nodes → store.old.limit < 2 ^ (2 ^ store.old.variables) }
        ensures room { IsErrOf result StoreFault.Nodes → Lacks 1 store.old }
    {
        let control = union_of(store, &self.control, &other.control)?;
        let poly = joined(alloc, &self.poly, &other.poly)?;
        Ok(Abstract { control, poly })
    }
}
