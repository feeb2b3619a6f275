//! Sets of variables by number.

ghost use Rattle.std.specs.Prelude.{◌≡◌, ◌≤◌, IfOk};
ghost use Rattle.rv_diagram.specs.Nodes.{valuation_of};
ghost use Rattle.rv_symbolic.specs.Variables.{is_of, AreAllBut};

use rv_base::{Many, Memory};
use std::alloc::Global;

/// Whether x is one of the first `bits` variables 2 i + `side`.
fn is_of(bits: u32, side: u32, x: u32) -> bool
    requires { bits ≤ 4096 }
    ensures { result ≡ is_of bits side x }
{
    x < 2 * bits && x % 2 == side
}

/// All variables but the first `bits` variables 2 i + `side`.
pub fn all_but(alloc: Global, variables: u32, bits: u32, side: u32) -> Result<Many<bool>, Memory>
    requires { bits ≤ 4096 }
    ensures { IfOk result (λ given. AreAllBut variables bits side (valuation_of given)) }
{
    let mut given = Vec::new(alloc);
    for x in 0..variables {
        given.push(!is_of(bits, side, x))?;
    }
    Ok(Many::from_vec(given))
}
