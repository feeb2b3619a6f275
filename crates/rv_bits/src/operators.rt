//! Operators between control values, and comparisons of integers by their tests.

ghost use Rattle.std.specs.Prelude.{◌<◌, ◌≤◌, ◌^◌, ◌&&◌, ◌||◌, not, cond, length, map, IfOk, IsErrOf};
ghost use Rattle.rv_types.specs.Lists.{Test, AtMost, AtLeast};
ghost use Rattle.rv_diagram.specs.Nodes.{IsRef, value_of};
ghost use Rattle.rv_flat.specs.Lists.{side_of, variable_of};
ghost use Rattle.rv_control.specs.Named.{truth_at};
ghost use Rattle.rv_symbolic.specs.Growing.{Makes};
ghost use Rattle.rv_symbolic.specs.Linked.{AreRefs};
ghost use Rattle.rv_bits.specs.Operators.{same_by, operated_by};

use crate::bits::{all_equal, ref_of};
use crate::names::{Named, truth};
use rv_base::Place;
use rv_diagram::{Ref, Store, StoreFault};
use rv_flat::{Bit, Side};
use rv_tree::Op;

/// The reference of a test of the comparison at a place.
fn test(store: &mut Store, variables: &[Bit], at: &Place, side: Side) -> Result<Ref, StoreFault>
    requires few { length variables.now ≤ 4096 }
    requires variables { length variables.now ≤ store.old.variables }
    ensures ok { IfOk result (Makes store.old store.new (λ v. truth_at (map variable_of variables.now) v (Test at.now.sites (side_of side)))) }
    ensures roomy { IsErrOf result StoreFault.Nodes → store.old.limit < 2 ^ (2 ^ store.old.variables) }
{
    truth(store, variables, &Named::Test(at, side))
}

/// The negation of a test.
fn not_test(store: &mut Store, variables: &[Bit], at: &Place, side: Side) -> Result<Ref, StoreFault>
    requires few { length variables.now ≤ 4096 }
    requires variables { length variables.now ≤ store.old.variables }
    ensures ok { IfOk result (Makes store.old store.new (λ v. not (truth_at (map variable_of variables.now) v (Test at.now.sites (side_of side))))) }
    ensures roomy { IsErrOf result StoreFault.Nodes → store.old.limit < 2 ^ (2 ^ store.old.variables) }
{
    let found = test(store, variables, at, side)?;
    store.not(found)
}

/// Both tests of a comparison together.
fn both_tests(store: &mut Store, variables: &[Bit], at: &Place) -> Result<Ref, StoreFault>
    requires few { length variables.now ≤ 4096 }
    requires variables { length variables.now ≤ store.old.variables }
    ensures ok { IfOk result (Makes store.old store.new
        (λ v. truth_at (map variable_of variables.now) v (Test at.now.sites AtMost) && truth_at (map variable_of variables.now) v
        (Test at.now.sites AtLeast))) }
    ensures roomy { IsErrOf result StoreFault.Nodes → store.old.limit < 2 ^ (2 ^ store.old.variables) }
{
    let at_most = test(store, variables, at, Side::AtMost)?;
    let at_least = test(store, variables, at, Side::AtLeast)?;
    store.and(at_most, at_least)
}

/// Whether two operands are the same. A comparison of integers has a place.
fn same(
    store: &mut Store,
    variables: &[Bit],
    at: &Place,
    left: &[Ref],
    right: &[Ref],
) -> Result<Ref, StoreFault>
    requires few { length variables.now ≤ 4096 }
    requires variables { length variables.now ≤ store.old.variables }
    requires left { AreRefs store.old.nodes left.now }
    requires right { AreRefs store.old.nodes right.now }
    ensures ok { IfOk result (Makes store.old store.new (same_by store.old.nodes (map variable_of variables.now) at.now.sites left.now right.now)) }
    ensures roomy { IsErrOf result StoreFault.Nodes → store.old.limit < 2 ^ (2 ^ store.old.variables) }
{
    if at.sites.is_empty() {
        all_equal(store, left, right)
    } else {
        both_tests(store, variables, at)
    }
}

/// Whether they differ.
fn differs(
    store: &mut Store,
    variables: &[Bit],
    at: &Place,
    left: &[Ref],
    right: &[Ref],
) -> Result<Ref, StoreFault>
    requires few { length variables.now ≤ 4096 }
    requires variables { length variables.now ≤ store.old.variables }
    requires left { AreRefs store.old.nodes left.now }
    requires right { AreRefs store.old.nodes right.now }
    ensures ok { IfOk result (Makes store.old store.new (λ v. not (same_by store.old.nodes (map variable_of variables.now) at.now.sites left.now
        right.now v))) }
    ensures roomy { IsErrOf result StoreFault.Nodes → store.old.limit < 2 ^ (2 ^ store.old.variables) }
{
    let found = same(store, variables, at, left, right)?;
    store.not(found)
}

/// Whether the second is true where the first is.
fn implies(store: &mut Store, a: Ref, b: Ref) -> Result<Ref, StoreFault>
    requires a { IsRef store.old.nodes a }
    requires b { IsRef store.old.nodes b }
    ensures ok { IfOk result (Makes store.old store.new (λ v. not (value_of store.old.nodes a v) || value_of store.old.nodes b v)) }
    ensures roomy { IsErrOf result StoreFault.Nodes → store.old.limit < 2 ^ (2 ^ store.old.variables) }
{
    store.ite(a, b, 1)
}

/// Whether one of the two is true and the other false.
fn exclusive(store: &mut Store, a: Ref, b: Ref) -> Result<Ref, StoreFault>
    requires a { IsRef store.old.nodes a }
    requires b { IsRef store.old.nodes b }
    ensures ok { IfOk result (Makes store.old store.new (λ v. cond (value_of store.old.nodes a v) (not (value_of store.old.nodes b v))
        (value_of store.old.nodes b v))) }
    ensures roomy { IsErrOf result StoreFault.Nodes → store.old.limit < 2 ^ (2 ^ store.old.variables) }
{
    let not_b = store.not(b)?;
    store.ite(a, not_b, b)
}

/// Whether both are true.
fn both(store: &mut Store, a: Ref, b: Ref) -> Result<Ref, StoreFault>
    requires a { IsRef store.old.nodes a }
    requires b { IsRef store.old.nodes b }
    ensures ok { IfOk result (Makes store.old store.new (λ v. value_of store.old.nodes a v && value_of store.old.nodes b v)) }
    ensures roomy { IsErrOf result StoreFault.Nodes → store.old.limit < 2 ^ (2 ^ store.old.variables) }
{
    store.and(a, b)
}

/// Whether one of them is true.
fn either(store: &mut Store, a: Ref, b: Ref) -> Result<Ref, StoreFault>
    requires a { IsRef store.old.nodes a }
    requires b { IsRef store.old.nodes b }
    ensures ok { IfOk result (Makes store.old store.new (λ v. value_of store.old.nodes a v || value_of store.old.nodes b v)) }
    ensures roomy { IsErrOf result StoreFault.Nodes → store.old.limit < 2 ^ (2 ^ store.old.variables) }
{
    store.or(a, b)
}

/// What a Boolean operator makes of two lists of bits, or of the tests of the comparison at a place. Of an operator that gives an
/// integer nothing is said.
#[inline(never)]
pub fn operated(
    store: &mut Store,
    variables: &[Bit],
    at: &Place,
    op: Op,
    left: &[Ref],
    right: &[Ref],
) -> Result<Ref, StoreFault>
    requires few { length variables.now ≤ 4096 }
    requires variables { length variables.now ≤ store.old.variables }
    requires left { AreRefs store.old.nodes left.now }
    requires right { AreRefs store.old.nodes right.now }
    ensures ok { IfOk result (Makes store.old store.new (λ v. operated_by store.old.nodes (map variable_of variables.now) at.now.sites left.now
        right.now v op)) }
    ensures roomy { IsErrOf result StoreFault.Nodes → store.old.limit < 2 ^ (2 ^ store.old.variables) }
{
    match op {
        Op::Implies => implies(store, ref_of(left, 0), ref_of(right, 0)),
        Op::Or => either(store, ref_of(left, 0), ref_of(right, 0)),
        Op::Xor => exclusive(store, ref_of(left, 0), ref_of(right, 0)),
        Op::And => both(store, ref_of(left, 0), ref_of(right, 0)),
        Op::Equal => same(store, variables, at, left, right),
        Op::Differs => differs(store, variables, at, left, right),
        Op::Less => not_test(store, variables, at, Side::AtLeast),
        Op::AtMost => test(store, variables, at, Side::AtMost),
        Op::Greater => not_test(store, variables, at, Side::AtMost),
        Op::AtLeast => test(store, variables, at, Side::AtLeast),
        _ => Ok(store.constant(false)),
    }
}
