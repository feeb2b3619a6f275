//! How much the memories of each node are.

ghost use Rattle.std.specs.Prelude.{◌≡◌, map, IfOk};
ghost use Rattle.rv_sizes.specs.Capped.{capped};
ghost use Rattle.rv_sizes.specs.Memories.{integers};

use crate::declared_sizes::integers_among;
use rv_base::{Many, Memory};
use rv_tree::HEAVIEST;
use rv_types::Kind;
use std::alloc::Global;

/// For each node, whose memories have these types, the number of integer ones, or 2^40 where that is less.
pub fn integer_memories_of(alloc: Global, kinds: &Many<Many<Kind>>) -> Result<Many<u64>, Memory>
    ensures { IfOk result (λ own. own ≡ map (λ ks. capped (integers ks)) kinds.now) }
{
    let mut own = Many::new(alloc);
    for of_node in kinds.as_slice() {
        own.push(capped_integers(of_node.as_slice()))?;
    }
    Ok(own)
}

/// How many types are that of the integers, or 2^40 where that is less.
fn capped_integers(kinds: &[Kind]) -> u64
    ensures { result ≡ capped (integers kinds.now) }
{
    integers_among(kinds).min(HEAVIEST)
}
