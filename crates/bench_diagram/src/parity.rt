//! The parity of variables.

ghost use Rattle.std.specs.Prelude.{◌<◌, ◌≤◌, IfOk};
ghost use Rattle.rv_diagram.specs.Nodes.{IsRef};

use rv_diagram::{Ref, Store, StoreFault};

/// Whether an odd number of the first n variables is true.
pub fn parity(s: &mut Store, n: u32) -> Result<Ref, StoreFault>
    requires { n ≤ s.old.variables }
    ensures { IfOk result (λ r. IsRef s.new.nodes r) }
{
    let mut all = s.constant(false);
    for v in 0..n {
        let x = s.variable(v)?;
        let not_all = s.not(all)?;
        all = s.ite(x, not_all, all)?;
    }
    Ok(all)
}
