//! Lists of sites that share their front: the places of one instance share the way to it.

ghost use Rattle.std.specs.Prelude.{◌≡◌, ◌<◌, ◌↔◌, [], ◌∷◌, ◌++◌, IfOk, IfSome, IfNone, IsTrue, Some, nat_eq, length, slice_get, ◌-◌, take};
ghost use Rattle.std.specs.Cmp.{nat_eq_equiv, partial_equiv_from_equiv};
ghost use Rattle.std.specs.Cmp.Lexicographic.{pointwise, slice_cmp, lists_per, lists_equiv};
ghost use Rattle.std.specs.Ordering.{nat_cmp};

use crate::many::Many;
use std::alloc::{AllocError, Global};
use std::cmp::Ordering;
use std::marker::Model;
use std::rc::RcSlice;

/// The call sites from the main node to an instance. To a contract it is the list of them; clones share its block.
#[derive(Debug, Drop)]
pub struct Path {
    calls: RcSlice<u32>,
}

impl Model for Path {
    ghost use Rattle.std.specs.Prelude.{List, ℕ};
    ghost use Rattle.std.specs.Rc.{rc_slice_items};

    ghost Value = { List ℕ };

    ghost view = { λ p. rc_slice_items p.calls };
}

impl Path {
    /// The path with these call sites, which are copied once.
    pub fn from_slice(alloc: Global, calls: &[u32]) -> Result<Path, AllocError>
        ensures { IfOk result (λ p. p ≡ calls.now) }
    {
        let calls = RcSlice::from_slice(alloc, calls)?;
        Ok(Path { calls })
    }

    /// The call sites, first to last.
    pub fn as_slice(&self) -> &[u32]
        ensures { result.now ≡ self.now }
    {
        self.calls.as_slice()
    }

    /// How many call sites there are.
    pub fn len(&self) -> usize
        ensures { result ≡ length self.now }
    {
        self.calls.len()
    }

    /// Whether this is the path of the main node.
    pub fn is_empty(&self) -> bool
        ensures { IsTrue result ↔ (self.now ≡ []) }
    {
        self.calls.as_slice().is_empty()
    }
}

/// A clone is the same path.
impl Clone for Path {
    ghost is_clone = { λ a b. a ≡ b };

    /// The same path in the same block.
    fn clone(&self) -> Result<Path, AllocError> {
        let calls = self.calls.clone()?;
        Ok(Path { calls })
    }
}

/// A list of sites, of which all but the last may be shared with other lists. To a contract it is the list.
#[derive(Debug, Drop)]
pub struct Sites {
    front: Option<Path>,
    last: Option<u32>,
}

impl Model for Sites {
    ghost use Rattle.std.specs.Prelude.{List, ℕ};
    ghost use Rattle.rv_base.specs.Fronts.{joined, AreFilled};

    ghost Value = { List ℕ };

    ghost view = { λ s. joined s.front s.last };

    ghost invariant = { λ s. AreFilled s.front s.last };
}

// Making one.
impl Sites {
    /// No site. It takes no memory.
    pub fn empty() -> Sites
        ensures { result ≡ [] }
    {
        Sites {
            front: None,
            last: None,
        }
    }

    /// The sites of the path, which stay shared with it, and then this site.
    pub fn within(path: &Path, site: u32) -> Result<Sites, AllocError>
        ensures { IfOk result (λ s. s ≡ path.now ++ site ∷ []) }
    {
        Ok(Sites {
            front: Some(path.clone()?),
            last: Some(site),
        })
    }

    /// These sites, which are copied.
    pub fn from_slice(alloc: Global, sites: &[u32]) -> Result<Sites, AllocError>
        ensures { IfOk result (λ s. s ≡ sites.now) }
    {
        match sites.split_last() {
            None => Ok(Sites::empty()),
            Some((last, front)) => Sites::within(&Path::from_slice(alloc, front)?, *last),
        }
    }
}

// Reading.
impl Sites {
    /// All but the last site.
    pub fn front(&self) -> &[u32]
        ensures { result.now ≡ take (length self.now - 1) self.now }
    {
        match &self.front {
            Some(path) => path.as_slice(),
            None => &[],
        }
    }

    /// The last site, if there is one.
    pub fn last(&self) -> Option<u32>
        ensures some { IfSome result (λ last. self.now ≡ take (length self.now - 1) self.now ++ last ∷ []) }
        ensures none { IfNone result (self.now ≡ []) }
    {
        self.last
    }

    /// Whether both have the same sites in one order.
    pub fn is(&self, other: &Sites) -> bool
        ensures { IsTrue result ↔ (self.now ≡ other.now) }
    {
        match (self.last(), other.last()) {
            (None, None) => true,
            (Some(one), Some(another)) => one == another && self.front() == other.front(),
            _ => false,
        }
    }

    /// How many sites there are.
    pub fn len(&self) -> usize
        ensures { result ≡ length self.now }
    {
        let front = self.front();
        match self.last() {
            Some(_) => front.len() + 1,
            None => 0,
        }
    }

    /// Whether there is no site.
    pub fn is_empty(&self) -> bool
        ensures { IsTrue result ↔ (self.now ≡ []) }
    {
        match self.last() {
            Some(_) => false,
            None => true,
        }
    }

    /// The site with this number, counted from 0, or `None` past the end.
    pub fn get(&self, index: usize) -> Option<u32>
        ensures { result ≡ slice_get self.now index }
    {
        let front = self.front();
        if index < front.len() {
            return Some(front[index]);
        }
        match self.last() {
            Some(last) => if index == front.len() {
                Some(last)
            } else {
                None
            },
            None => None,
        }
    }

    /// How the two lists compare by their first difference, a front part before the whole.
    pub fn compare(&self, other: &Sites) -> Ordering
        ensures { result ≡ slice_cmp nat_cmp self.now other.now }
    {
        let count = self.len();
        let mut k: usize = 0;
        'sites: while k < count {
            let Some(one) = self.get(k) else {
                unreachable!();
            };
            let Some(another) = other.get(k) else {
                return Ordering::Greater;
            };
            match one.cmp(&another) {
                Ordering::Equal => k += 1,
                order => return order,
            }
        }
        if k < other.len() {
            Ordering::Less
        } else {
            Ordering::Equal
        }
    }
}

/// A clone is the same list.
impl Clone for Sites {
    ghost is_clone = { λ a b. a ≡ b };

    /// The same sites, the front in the same block.
    fn clone(&self) -> Result<Sites, AllocError> {
        let front = self.front.clone()?;
        Ok(Sites {
            front,
            last: self.last,
        })
    }
}

/// Equal where the lists are.
impl PartialEq for Sites {
    ghost eq = { pointwise nat_eq };

    ghost laws = { lists_per (partial_equiv_from_equiv nat_eq_equiv) };

    /// Whether both have the same sites in one order.
    fn eq(&self, other: &Sites) -> bool {
        self.is(other)
    }
}

impl Eq for Sites {
    ghost laws = { lists_equiv nat_eq_equiv };
}
