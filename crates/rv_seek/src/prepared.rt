// Premises that many questions are asked of.
ghost use Rattle.std.specs.Prelude.{◌≡◌, ◌<◌, ◌≤◌, ◌^◌, ◌+◌, [], negsuc, All, length, IfSome, IfNone, IsSome, IfOk};
ghost use Rattle.std.specs.Int.RustNames.{unsigned_abs};
ghost use Rattle.rv_rows.specs.Rows.{RowWithin};
ghost use Rattle.rv_rows.specs.Multipliers.{Proves, ShowsAtOnce, AreShutAtOnce};
ghost use Rattle.rv_seek.specs.Least.{IsLeast, IsAlone, IsLeastAmong, bounded};
ghost use Rattle.rv_seek.specs.Pairs.{PairShows, HasRanges};
ghost use Rattle.rv_seek.specs.Sides.{IsTable};

use crate::least::{Best, alone_in, least_among_in, least_in};
use crate::places::widest;
use crate::seek::row_by;
use crate::sides::{Sides, add_place};
use rv_base::{Many, Memory};
use rv_rows::{Multipliers, Row};
use std::alloc::Global;
use std::collections::BTreeMap;
use std::marker::Model;

/// Premises with the places of the closest two rows of each left side, so that each question costs one look-up for
/// each left side. To a contract they are the list of their rows. A place past the end of the list stands for no
/// premise, which is the row `0 <= 0`.
#[derive(Drop)]
pub struct Premises<'a> {
    rows: &'a Many<Row>,
    width: usize,
    sides: Sides,
}

impl<'a> Model for Premises<'a> {
    ghost use Rattle.std.specs.Prelude.{List};
    ghost use Rattle.rv_rows.specs.declared.linear.Row.{Row};
    ghost use Rattle.rv_seek.specs.Sides.{IsPrepared};

    ghost Value = { List Row };

    ghost view = { λ p. p.rows.now };

    ghost invariant = { λ p. IsPrepared p.rows.now p.width p.sides };
}

/// The closest places of each left side, over so many columns.
fn sides_of(alloc: Global, rows: &Many<Row>, width: usize) -> Result<Sides, Memory>
    requires widths { All (λ r. length r.coefficients ≤ width) rows.now }
    requires few { length rows.now < 2 ^ 32 }
    ensures { IfOk result (λ sides. IsTable rows.now width (length rows.now + 2) sides) }
{
    let mut sides: Sides = BTreeMap::new(alloc);
    for place in 0..rows.len() + 2 {
        add_place(alloc, rows, &mut sides, place, width)?;
    }
    Ok(sides)
}

impl<'a> Premises<'a> {
    /// The premises, made ready for questions in time n log n. The only error is want of memory.
    pub fn new(alloc: Global, rows: &'a Many<Row>) -> Result<Premises<'a>, Memory>
        requires numbers { All (RowWithin (2 ^ 60)) rows.now }
        requires few { length rows.now < 2 ^ 32 }
        ensures { IfOk result (λ p. p ≡ rows.now) }
    {
        let width = widest(rows, 0);
        let sides = sides_of(alloc, rows, width)?;
        Ok(Premises { rows, width, sides })
    }

    /// The pair with the least sum of bounds among those whose left sides sum to the wanted one. The two places past
    /// the end of the list stand for no premise, so that single premises and none are pairs too. The only error is
    /// want of memory.
    pub fn least(&self, alloc: Global, wanted: &Many<i128>) -> Result<Option<Best>, Memory>
        requires { All (λ c. unsigned_abs c ≤ 2 ^ 78) wanted.now }
        ensures { IfOk result (λ o. IsLeast self.now wanted.now (length self.now + 2) o) }
    {
        least_in(alloc, self.rows, &self.sides, self.width, wanted)
    }

    /// The pair with the least sum of bounds among those of which one place is below `first`. It costs one look-up for each of these. The only
    /// error is want of memory.
    pub fn least_among(
        &self,
        alloc: Global,
        wanted: &Many<i128>,
        first: usize,
    ) -> Result<Option<Best>, Memory>
        requires { All (λ c. unsigned_abs c ≤ 2 ^ 78) wanted.now }
        ensures { IfOk result (IsLeastAmong self.now wanted.now (length self.now + 2) first) }
    {
        least_among_in(alloc, self.rows, &self.sides, self.width, wanted, first)
    }

    /// The premise with the wanted left side and the least bound, as a pair with a place past the end. It costs one look-up. The only error is
    /// want of memory.
    pub fn alone(&self, alloc: Global, wanted: &Many<i128>) -> Result<Option<Best>, Memory>
        requires { All (λ c. unsigned_abs c ≤ 2 ^ 78) wanted.now }
        ensures { IfOk result (IsAlone self.now wanted.now) }
    {
        alone_in(alloc, self.rows, &self.sides, self.width, wanted)
    }

    /// Two places that show the row at once: their left sides sum to its left side, and their bounds to at most its
    /// bound. There is no answer exactly where none, one or two premises do not show it. The only error is want of
    /// memory.
    pub fn shown(&self, alloc: Global, wanted: &Row) -> Result<Option<Best>, Memory>
        requires { RowWithin (2 ^ 78) wanted.now }
        ensures found { IfOk result (λ o. IfSome o (λ b. (b.first < b.second) × PairShows self.now wanted.now b.first b.second)) }
        ensures missing { IfOk result (λ o. IfNone o (¬ (ShowsAtOnce self.now wanted.now))) }
    {
        let least = self.least(alloc, &wanted.coefficients)?;
        match least {
            Some(best) => {
                if best.bound <= wanted.bound {
                    Ok(Some(best))
                } else {
                    Ok(None)
                }
            }
            None => Ok(None),
        }
    }

    /// Two places that show `0 <= -1` at once, so that no point meets the premises. There is no answer exactly where
    /// none, one or two premises are not shut at once. The only error is want of memory.
    pub fn shut(&self, alloc: Global) -> Result<Option<Best>, Memory>
        ensures found { IfOk result (λ o. IfSome o (λ b. (b.first < b.second) × PairShows self.now (bounded [] (negsuc 0)) b.first b.second)) }
        ensures missing { IfOk result (λ o. IfNone o (¬ (AreShutAtOnce self.now))) }
    {
        let wanted = Row {
            coefficients: Many::new(alloc),
            bound: -1,
        };
        let shown = self.shown(alloc, &wanted)?;
        Ok(shown)
    }

    /// Multipliers that prove the row from the premises, as `seek_row` finds them: wherever none, one or two premises show the row at once;
    /// elsewhere None promises nothing. The only error is want of memory.
    pub fn row(&self, alloc: Global, wanted: &Row) -> Result<Option<Multipliers>, Memory>
        requires wanted { RowWithin (2 ^ 78) wanted.now }
        ensures proof { IfOk result (λ o. IfSome o (λ m. Proves self.now wanted.now m)) }
        ensures ranges { IfOk result (λ o. IfSome o (λ m. HasRanges (length self.now) m)) }
        ensures at_once { IfOk result (λ o. ShowsAtOnce self.now wanted.now → IsSome o) }
    {
        row_by(alloc, self.rows, self, wanted)
    }
}
