//! The assertions of a flat system.

ghost use Rattle.std.specs.Prelude.{◌≡◌, ◌<◌, ◌++◌, ◌∷◌, [], length, map, IfOk, OnOk};
ghost use Rattle.std.specs.List.{Contains};
ghost use Rattle.rv_tree.specs.Tree.{assertion_tree};
ghost use Rattle.rv_types.specs.Instances.{Instance, IsInstance};
ghost use Rattle.rv_instances.specs.Layouts.{IsNumberOf};
ghost use Rattle.rv_flatten.specs.Building.{AreAsserted, IsFoundOf, IsGiven, main_given, numbers_of, program_given};
ghost use Rattle.rv_flat.specs.RawTree.{raw_tree};
ghost use Rattle.rv_flatten.specs.Readings.{assertion_of};

use crate::found::Found;
use crate::given::Given;
use crate::items::flat_assertion;
use rv_base::{Many, Memory};
use rv_flat::FlatExpr;
use rv_tree::Assertion;
use std::alloc::Global;

/// The assertions of all instances, one instance after the other.
pub fn flat_assertions(
    alloc: Global,
    given: &Given,
    found: &Found,
) -> Result<Many<FlatExpr>, Memory>
    requires given { IsGiven given.now }
    requires found { IsFoundOf given.now found.now }
    ensures { IfOk result (AreAsserted given.now.expanded.now (numbers_of given.now found.now) (length given.now.expanded.now.instances.now)) }
{
    let mut made = Many::new(alloc);
    for instance in 0..given.expanded.instances.len() {
        push_assertions(alloc, given, found, instance as u32, &mut made)?;
    }
    Ok(made)
}

/// Adds the assertions of an instance.
fn push_assertions(
    alloc: Global,
    given: &Given,
    found: &Found,
    instance: u32,
    made: &mut Many<FlatExpr>,
) -> Result<(), Memory>
    requires given { IsGiven given.now }
    requires found { IsFoundOf given.now found.now }
    requires within { instance < length given.now.expanded.now.instances.now }
    ensures { OnOk result ((i : Instance) → IsInstance (program_given given.now) (main_given given.now) i
        → IsNumberOf (program_given given.now) given.now.expanded.now.instances.now instance i
        → map raw_tree made.new ≡ map raw_tree made.old ++ map (assertion_of (program_given given.now) (numbers_of given.now found.now) i) i.node.assertions) }
{
    let node = given.expanded.node(instance);
    for assertion in node.assertions.as_slice() {
        push_assertion(alloc, given, found, instance, assertion, made)?;
    }
    Ok(())
}

/// Adds an assertion of an instance.
fn push_assertion(
    alloc: Global,
    given: &Given,
    found: &Found,
    instance: u32,
    assertion: &Assertion,
    made: &mut Many<FlatExpr>,
) -> Result<(), Memory>
    requires given { IsGiven given.now }
    requires found { IsFoundOf given.now found.now }
    requires within { instance < length given.now.expanded.now.instances.now }
    ensures { OnOk result ((i : Instance) → IsInstance (program_given given.now) (main_given given.now) i
        → IsNumberOf (program_given given.now) given.now.expanded.now.instances.now instance i → Contains i.node.assertions (assertion_tree assertion.now)
        → map raw_tree made.new ≡ map raw_tree made.old ++ assertion_of (program_given given.now) (numbers_of given.now found.now) i
        (assertion_tree assertion.now) ∷ []) }
{
    let flat = flat_assertion(
        alloc,
        given.expanded,
        given.layout,
        given.tables,
        given.owns,
        given.values,
        &found.numbering,
        instance,
        assertion,
    )?;
    made.push(flat)?;
    Ok(())
}
