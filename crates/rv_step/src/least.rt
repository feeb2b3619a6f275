//! The least of some places.

ghost use Rattle.std.specs.Prelude.{◌≡◌, ◌-◌, length, take, IfOk, IsTrue};
ghost use Rattle.std.specs.Option.{option_copied};
ghost use Rattle.rv_flat.specs.Earliest as places;

use rv_base::{Memory, Place};

/// Whether two places differ in their last sites alone, as those of one instance do.
fn are_together(a: &Place, b: &Place) -> bool
    ensures { IsTrue result → take (length a.now.sites - 1) a.now.sites ≡ take (length b.now.sites - 1) b.now.sites }
{
    a.sites.front() == b.sites.front()
}

/// Whether a place stands before another: a proper prefix does, or the one with the smaller first number that differs. The way to
/// an instance is long, so it is compared as a whole first.
fn is_before(a: &Place, b: &Place) -> bool
    ensures { result ≡ places.is_before a.now.sites b.now.sites }
{
    if are_together(a, b) {
        if let (Some(one), Some(other)) = (a.sites.last(), b.sites.last()) {
            return one < other;
        }
    }
    a.sites.compare(&b.sites).is_lt()
}

/// The earlier one of a place and the one so far.
pub fn sooner<'a>(least: Option<&'a Place>, place: &'a Place) -> &'a Place
    ensures { result.now ≡ places.sooner (option_copied least.entry) place.now }
{
    match least {
        Some(other) => {
            if is_before(place, other) {
                place
            } else {
                other
            }
        }
        None => place,
    }
}

/// A copy of a place.
pub fn copy_of(place: &Place) -> Result<Place, Memory>
    ensures { IfOk result (λ p. p ≡ place.now) }
{
    Ok(place.clone()?)
}
