// Premises made ready for many searches.
ghost use Rattle.std.specs.Prelude.{◌≡◌, ◌<◌, ◌≤◌, ◌^◌, List, ℤ, ◌≤ℤ◌, All, length, IfSome, IfOk, IsSomeAnd};
ghost use Rattle.rv_rows.specs.Rows.{RowWithin, Holds};
ghost use Rattle.rv_rows.specs.Multipliers.{Proves, ShowsAtOnce};
ghost use Rattle.rv_rows.specs.Forms.{FormWithin, value};
ghost use Rattle.rv_seek.specs.Least.{IsNoLooser, at_most};
ghost use Rattle.rv_seek.specs.Pairs.{HasRanges};

use crate::dual::{Reached, least_from};
use crate::places::widest;
use crate::prepared::Premises;
use crate::seek::{
    Bounded, bounded_by_pair, bounded_by_simplex, bounded_from, lesser_bound, row_by,
};
use crate::simplex::corner_of;
use crate::sparse::{Sparse, sparse_rows};
use crate::tableau::Tableau;
use rv_base::{Many, Memory};
use rv_rows::{Form, Row};
use std::alloc::Global;
use std::marker::Model;

/// Premises made ready for many searches: what pairs show by `Premises`, and a corner of them from which the simplex begins. To a contract
/// they are the list of their rows.
#[derive(Drop)]
pub struct Search<'a> {
    rows: &'a Many<Row>,
    pairs: Premises<'a>,
    sparse: Many<Sparse>,
    corner: Option<Tableau>,
}

impl<'a> Model for Search<'a> {
    ghost use Rattle.std.specs.Prelude.{List};
    ghost use Rattle.rv_rows.specs.declared.linear.Row.{Row};
    ghost use Rattle.rv_seek.specs.Sides.{IsReady};

    ghost Value = { List Row };

    ghost view = { λ p. p.rows.now };

    ghost invariant = { λ p. IsReady p.rows.now p.pairs };
}

/// The bound that the simplex finds from a corner, or anew where it finds nothing there for want of room.
fn bounded_by_corner(
    alloc: Global,
    premises: &Many<Row>,
    sparse: &Many<Sparse>,
    corner: &Tableau,
    form: &Form,
) -> Result<Option<Bounded>, Memory>
    requires premises { All (RowWithin (2 ^ 60)) premises.now }
    requires few { length premises.now < 2 ^ 32 }
    requires form { FormWithin (2 ^ 78) form.now }
    ensures proof { IfOk result (λ o. IfSome o (λ b. Proves premises.now (at_most form.now b.bound) b.by)) }
    ensures ranges { IfOk result (λ o. IfSome o (λ b. HasRanges (length premises.now) b.by)) }
    ensures tight { IfOk result (λ o. IfSome o (λ b. IsNoLooser premises.now form.now b.bound b.by)) }
{
    match least_from(alloc, corner, sparse, &form.coefficients)? {
        Reached::Least(found) => bounded_from(alloc, premises, form, found),
        Reached::Nothing => Ok(None),
        Reached::GaveUp => bounded_by_simplex(alloc, premises, form),
    }
}

/// The bound that the simplex finds, from the corner where there is one.
fn bounded_otherwise(
    alloc: Global,
    premises: &Many<Row>,
    sparse: &Many<Sparse>,
    corner: &Option<Tableau>,
    form: &Form,
) -> Result<Option<Bounded>, Memory>
    requires premises { All (RowWithin (2 ^ 60)) premises.now }
    requires few { length premises.now < 2 ^ 32 }
    requires form { FormWithin (2 ^ 78) form.now }
    ensures proof { IfOk result (λ o. IfSome o (λ b. Proves premises.now (at_most form.now b.bound) b.by)) }
    ensures ranges { IfOk result (λ o. IfSome o (λ b. HasRanges (length premises.now) b.by)) }
    ensures tight { IfOk result (λ o. IfSome o (λ b. IsNoLooser premises.now form.now b.bound b.by)) }
{
    match corner {
        Some(corner) => bounded_by_corner(alloc, premises, sparse, corner, form),
        None => bounded_by_simplex(alloc, premises, form),
    }
}

/// The lesser of the bounds that pairs show and that the simplex finds.
fn bounded_by(
    alloc: Global,
    premises: &Many<Row>,
    pairs: &Premises,
    sparse: &Many<Sparse>,
    corner: &Option<Tableau>,
    form: &Form,
) -> Result<Option<Bounded>, Memory>
    requires same { pairs.now ≡ premises.now }
    requires premises { All (RowWithin (2 ^ 60)) premises.now }
    requires few { length premises.now < 2 ^ 32 }
    requires form { FormWithin (2 ^ 78) form.now }
    ensures proof { IfOk result (λ o. IfSome o (λ b. Proves premises.now (at_most form.now b.bound) b.by)) }
    ensures ranges { IfOk result (λ o. IfSome o (λ b. HasRanges (length premises.now) b.by)) }
    ensures tight { IfOk result (λ o. IfSome o (λ b. IsNoLooser premises.now form.now b.bound b.by)) }
    ensures at_once { IfOk result (λ o. (bound : ℤ) → ShowsAtOnce premises.now (at_most form.now bound) → IsSomeAnd o (λ b. b.bound ≤ℤ bound)) }
    ensures holds { IfOk result (λ o. IfSome o (λ b. (point : List ℤ) → All (λ r. Holds r point) premises.now → value form.now point ≤ℤ b.bound)) }
{
    let pair = bounded_by_pair(alloc, premises, pairs, form)?;
    let other = bounded_otherwise(alloc, premises, sparse, corner, form)?;
    Ok(lesser_bound(pair, other))
}

impl<'a> Search<'a> {
    /// The premises, made ready for searches: in time n log n, and one run of the simplex. The only error is want of memory.
    pub fn new(alloc: Global, rows: &'a Many<Row>) -> Result<Search<'a>, Memory>
        requires numbers { All (RowWithin (2 ^ 60)) rows.now }
        requires few { length rows.now < 2 ^ 32 }
        ensures { IfOk result (λ p. p ≡ rows.now) }
    {
        let pairs = Premises::new(alloc, rows)?;
        let sparse = sparse_rows(alloc, rows)?;
        let corner = corner_of(alloc, &sparse, widest(rows, 0))?;
        Ok(Search {
            rows,
            pairs,
            sparse,
            corner,
        })
    }

    /// A bound of the form at the whole points of the premises, and the multipliers that prove it, as `seek_bound` finds one: where the form's
    /// left side is the sum of the left sides of none, one or two different premises, and then at most the least such sum of their bounds plus
    /// the form's constant; elsewhere None promises nothing. It is the least bound that its multipliers prove. The only error is want of memory.
    pub fn bound(&self, alloc: Global, form: &Form) -> Result<Option<Bounded>, Memory>
        requires form { FormWithin (2 ^ 78) form.now }
        ensures proof { IfOk result (λ o. IfSome o (λ b. Proves self.now (at_most form.now b.bound) b.by)) }
        ensures ranges { IfOk result (λ o. IfSome o (λ b. HasRanges (length self.now) b.by)) }
        ensures tight { IfOk result (λ o. IfSome o (λ b. IsNoLooser self.now form.now b.bound b.by)) }
        ensures at_once { IfOk result (λ o. (bound : ℤ) → ShowsAtOnce self.now (at_most form.now bound) → IsSomeAnd o (λ b. b.bound ≤ℤ bound)) }
        ensures holds { IfOk result (λ o. IfSome o (λ b. (point : List ℤ) → All (λ r. Holds r point) self.now → value form.now point ≤ℤ b.bound)) }
    {
        bounded_by(
            alloc,
            self.rows,
            &self.pairs,
            &self.sparse,
            &self.corner,
            form,
        )
    }
}
