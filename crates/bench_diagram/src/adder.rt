//! The sum of two numbers.

ghost use Rattle.std.specs.Prelude.{◌≡◌, ◌+◌, ◌<◌, ◌≤◌, length, IfOk, OnOk};
ghost use Rattle.rv_diagram.specs.Nodes.{IsRef};

use rv_diagram::{Ref, Store, StoreFault};

/// Whether exactly one of two is true.
fn xor(s: &mut Store, a: Ref, b: Ref) -> Result<Ref, StoreFault>
    requires a { IsRef s.old.nodes a }
    requires b { IsRef s.old.nodes b }
    ensures found { IfOk result (λ r. IsRef s.new.nodes r) }
    ensures longer { OnOk result (length s.old.nodes ≤ length s.new.nodes) }
    ensures variables { OnOk result (s.new.variables ≡ s.old.variables) }
{
    let not_b = s.not(b)?;
    s.ite(a, not_b, b)
}

/// The carry of x, y and the carry before, where `half` is the sum of x and y.
fn carry_of(s: &mut Store, x: Ref, y: Ref, half: Ref, carry: Ref) -> Result<Ref, StoreFault>
    requires x { IsRef s.old.nodes x }
    requires y { IsRef s.old.nodes y }
    requires half { IsRef s.old.nodes half }
    requires carry { IsRef s.old.nodes carry }
    ensures found { IfOk result (λ r. IsRef s.new.nodes r) }
    ensures longer { OnOk result (length s.old.nodes ≤ length s.new.nodes) }
    ensures variables { OnOk result (s.new.variables ≡ s.old.variables) }
{
    let both = s.and(x, y)?;
    let one = s.and(half, carry)?;
    s.or(both, one)
}

/// Whether the sum of two n-bit numbers has an even number of ones.
pub fn adder(s: &mut Store, n: u32) -> Result<Ref, StoreFault>
    requires low { n + n ≤ s.old.variables }
    requires few { s.old.variables ≤ 4096 }
    ensures { IfOk result (λ r. IsRef s.new.nodes r) }
{
    let mut carry = s.constant(false);
    let mut even = s.constant(true);
    for v in 0..n {
        let x = s.variable(v)?;
        let y = s.variable(n + v)?;
        let half = xor(s, x, y)?;
        let sum = xor(s, half, carry)?;
        carry = carry_of(s, x, y, half, carry)?;
        let not_sum = s.not(sum)?;
        even = s.ite(even, not_sum, sum)?;
    }
    Ok(even)
}
