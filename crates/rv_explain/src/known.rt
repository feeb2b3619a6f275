//! What is known where a formula stands, and which parts of a region need not be told then.

use crate::regions::{Region, hull_of};
use crate::sets::Values;
use crate::sums::Bound;
use crate::vocabulary::Vocabulary;
use rv_base::Memory;
use rv_rows::Row;
use std::alloc::Global;

/// What is known: in which regions all lies, the values that quantities have, and bounds of sums.
#[derive(Drop)]
pub struct Known {
    /// The regions.
    pub within: Vec<Region>,
    region: Region,
    bounds: Vec<Bound>,
    tells_all: bool,
}

/// Whether a bound holds by others.
fn follows(bound: Bound, others: &[Bound]) -> bool {
    others.iter().any(|other| bound.follows(*other))
}

/// The bounds that hold in a region.
fn bounds_in(
    alloc: Global,
    vocabulary: &Vocabulary,
    region: &Region,
) -> Result<Vec<Bound>, Memory> {
    let mut bounds = Vec::new(alloc);
    let mut quantity: usize = 0;
    for values in region.values.as_slice() {
        if let Some(bound) = vocabulary.bound_at(quantity, *values) {
            bounds.push(bound)?;
        }
        quantity = quantity.saturating_add(1);
    }
    Ok(bounds)
}

/// Whether a bound holds by another of a list that does not hold by it.
fn is_weaker(bound: Bound, others: &[Bound]) -> bool {
    others
        .iter()
        .any(|other| bound.follows(*other) && !other.follows(bound))
}

/// Whether no integer meets a bound and one of others.
fn is_excluded(bound: Bound, others: &[Bound]) -> bool {
    others.iter().any(|other| bound.excludes(*other))
}

impl Known {
    /// Nothing but that each quantity has a value.
    pub fn nothing(alloc: Global, vocabulary: &Vocabulary) -> Result<Known, Memory> {
        let mut within = Vec::new(alloc);
        within.push(vocabulary.whole(alloc)?)?;
        Known::new(alloc, vocabulary, within, &[])
    }

    /// What holds in regions, and by rows.
    pub fn new(
        alloc: Global,
        vocabulary: &Vocabulary,
        within: Vec<Region>,
        rows: &[Row],
    ) -> Result<Known, Memory> {
        let mut bounds = Vec::new(alloc);
        for row in rows {
            if let Some(bound) = vocabulary.bound_of(alloc, row)? {
                bounds.push(bound)?;
            }
        }
        let whole = vocabulary.whole(alloc)?;
        let region = hull_of(alloc, &whole, within.as_slice())?;
        Ok(Known {
            within,
            region,
            bounds,
            tells_all: false,
        })
    }

    /// The same, where also what no integers meet is to be told.
    pub fn telling_all(self) -> Known {
        Known {
            tells_all: true,
            ..self
        }
    }

    /// Whether a region need not be told, since two bounds of one sum, its own or known ones, tell that no integers meet it.
    pub fn excludes(
        &self,
        alloc: Global,
        vocabulary: &Vocabulary,
        region: &Region,
    ) -> Result<bool, Memory> {
        if self.tells_all {
            return Ok(false);
        }
        let own = bounds_in(alloc, vocabulary, region)?;
        for bound in own.as_slice() {
            if is_excluded(*bound, own.as_slice()) || is_excluded(*bound, self.bounds.as_slice()) {
                return Ok(true);
            }
        }
        Ok(false)
    }

    /// What is known of quantities and sums, and what holds in a region.
    pub fn and(
        &self,
        alloc: Global,
        vocabulary: &Vocabulary,
        region: &Region,
    ) -> Result<Known, Memory> {
        let mut bounds = bounds_in(alloc, vocabulary, region)?;
        for bound in self.bounds.as_slice() {
            bounds.push(*bound)?;
        }
        Ok(Known {
            within: Vec::new(alloc),
            region: self.region.and(alloc, region)?,
            bounds,
            tells_all: self.tells_all,
        })
    }

    /// Whether a quantity has these values by what is known.
    fn has(&self, quantity: usize, values: Values) -> bool {
        match self.region.values.get(quantity) {
            Some(own) => own.without(values).is_empty(),
            None => false,
        }
    }

    /// For each quantity whether what a region says of it is to be told: it is not known, and what is told of others does not say it.
    pub fn told(
        &self,
        alloc: Global,
        vocabulary: &Vocabulary,
        region: &Region,
    ) -> Result<Vec<bool>, Memory> {
        let all = bounds_in(alloc, vocabulary, region)?;
        let mut bounds = Vec::from_slice(alloc, self.bounds.as_slice())?;
        let mut told = Vec::new(alloc);
        let mut quantity: usize = 0;
        for values in region.values.as_slice() {
            let bound = vocabulary.bound_at(quantity, *values);
            let is_said = match bound {
                Some(bound) => {
                    is_weaker(bound, all.as_slice()) || follows(bound, bounds.as_slice())
                }
                None => false,
            };
            let is_told = !is_said && !self.has(quantity, *values);
            if let (Some(bound), true) = (bound, is_told) {
                bounds.push(bound)?;
            }
            told.push(is_told)?;
            quantity = quantity.saturating_add(1);
        }
        Ok(told)
    }
}
