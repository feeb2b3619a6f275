//! The bits of control memories and inputs.

ghost use Rattle.std.specs.Prelude.{◌≡◌, ◌≤◌, ℕ, map, IfOk};
ghost use Rattle.rv_instances.specs.Bits.{bits_of_all};
ghost use Rattle.rv_sizes.specs.Capped.{capped};
ghost use Rattle.rv_types.specs.Values.{labels_at as labels_of_type};
ghost use Rattle.rv_tree.specs.Bounded.{most};

use crate::totals::capped_sum;
use rv_base::{Many, Memory};
use rv_instances::bits_of;
use rv_tree::TypeDecl;
use rv_types::Kind;
use std::alloc::Global;

/// For each node, whose memories have these types, the bits of the control ones, or 2^40 where that is less.
pub fn memory_bits_of(
    alloc: Global,
    types: &[TypeDecl],
    kinds: &Many<Many<Kind>>,
) -> Result<Many<u64>, Memory>
    requires few { (k : ℕ) → labels_of_type types.now k ≤ most }
    ensures { IfOk result (λ own. own ≡ map (λ ks. capped (bits_of_all types.now ks)) kinds.now) }
{
    let mut own = Many::new(alloc);
    for of_node in kinds.as_slice() {
        own.push(bits_of_kinds(types, of_node.as_slice()))?;
    }
    Ok(own)
}

/// The bits of control memories or inputs of these types, or 2^40 where that is less.
pub fn bits_of_kinds(types: &[TypeDecl], kinds: &[Kind]) -> u64
    requires few { (k : ℕ) → labels_of_type types.now k ≤ most }
    ensures { result ≡ capped (bits_of_all types.now kinds.now) }
{
    let mut sum = 0;
    for kind in kinds {
        sum = capped_sum(sum, bits_of(types, *kind) as u64);
    }
    sum
}
