//! The parts of a relation, with other allowed valuations.

ghost use Rattle.std.specs.Prelude.{IfOk};
ghost use Rattle.rv_boxes.specs.Layering.{ArePartsWith};

use rv_base::{Many, Memory};
use rv_diagram::Ref;
use rv_symbolic::Parts;
use std::alloc::Global;

/// The same parts, with another reference for which valuations are allowed.
pub fn parts_with(alloc: Global, parts: &Parts, allowed: Ref) -> Result<Parts, Memory>
    ensures { IfOk result (ArePartsWith parts.now allowed) }
{
    let next = Vec::from_slice(alloc, parts.next.as_slice())?;
    Ok(Parts {
        allowed,
        observer: parts.observer,
        initial: parts.initial,
        next: Many::from_vec(next),
    })
}
