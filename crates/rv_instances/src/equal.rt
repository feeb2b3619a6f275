//! Lists of equal values.

ghost use Rattle.std.specs.Prelude.{◌≡◌, replicate, IfOk};

use rv_base::{Many, Memory};
use std::alloc::Global;

/// As many equal values.
pub fn all_equal<T: Copy + Drop>(alloc: Global, count: usize, value: T) -> Result<Many<T>, Memory>
    ensures { IfOk result (λ xs. xs ≡ replicate count value) }
{
    let mut all = Many::new(alloc);
    for _ in 0..count {
        all.push(value)?;
    }
    Ok(all)
}
