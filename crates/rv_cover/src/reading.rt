//! What a condition may read.

ghost use Rattle.std.specs.Prelude.{◌≡◌, ◌≤◌, IfOk};
ghost use Rattle.rv_diagram.specs.Nodes.{valuation_of};
ghost use Rattle.rv_symbolic.specs.Variables.{is_of, AreAllBut};

use rv_base::{Many, Memory};
use std::alloc::Global;

/// Whether x is the next copy of one of the first `bits` state bits.
fn is_copy(bits: u32, x: u32) -> bool
    requires { bits ≤ 4096 }
    ensures { result ≡ is_of bits 1 x }
{
    x < 2 * bits && x % 2 == 1
}

/// For each variable whether it is no next copy of a state bit.
pub fn no_copies(alloc: Global, variables: u32, bits: u32) -> Result<Many<bool>, Memory>
    requires { bits ≤ 4096 }
    ensures { IfOk result (λ read. AreAllBut variables bits 1 (valuation_of read)) }
{
    let mut read = Vec::new(alloc);
    for x in 0..variables {
        read.push(!is_copy(bits, x))?;
    }
    Ok(Many::from_vec(read))
}
