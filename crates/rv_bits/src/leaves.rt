//! What stands in an expression by itself: constants, flows, memories, ticks and inputs.

ghost use Rattle.std.specs.Prelude.{◌≡◌, ℕ, ◌<◌, ◌^◌, [], ◌∷◌, not, IfOk, IsErrOf};
ghost use Rattle.rv_diagram.specs.Nodes.{Valuation};
ghost use Rattle.rv_diagram.specs.Several.{ref_at};
ghost use Rattle.rv_symbolic.specs.Linked.{AreRefs};
ghost use Rattle.rv_bits.specs.Bits.{bit, IsSingle};
ghost use Rattle.rv_bits.specs.Constants.{constant_bit};
ghost use Rattle.rv_bits.specs.Shown.{refs_at};

use crate::bits::{bits_of, ref_of, single};
use rv_base::{Many, Memory, Value};
use rv_diagram::{Ref, Store, StoreFault};
use std::alloc::Global;

/// A copy of a list of references.
pub fn copied(alloc: Global, refs: &[Ref]) -> Result<Many<Ref>, Memory>
    ensures { IfOk result (λ copy. copy ≡ refs.now) }
{
    Ok(Many::from_vec(Vec::from_slice(alloc, refs)?))
}

/// The list with a number, of no reference where there is none.
pub fn list_at(lists: &Many<Many<Ref>>, number: usize) -> &[Ref]
    ensures { result.now ≡ refs_at lists.now number }
{
    match lists.get(number) {
        Some(refs) => refs.as_slice(),
        None => &[],
    }
}

/// A copy of it.
#[inline(never)]
pub fn copy_at(
    alloc: Global,
    lists: &Many<Many<Ref>>,
    number: usize,
) -> Result<Many<Ref>, StoreFault>
    ensures ok { IfOk result (λ copy. copy ≡ refs_at lists.now number) }
    ensures never { IsErrOf result StoreFault.Nodes → ⊥ }
{
    Ok(copied(alloc, list_at(lists, number))?)
}

/// The bits of a constant; an integer has none.
#[inline(never)]
pub fn constant_bits(
    alloc: Global,
    store: &Store,
    constant: &Value,
) -> Result<Many<Ref>, StoreFault>
    ensures found { IfOk result (λ refs. AreRefs store.now.nodes refs) }
    ensures means { IfOk result (λ refs. (b : ℕ) (v : Valuation) → bit store.now.nodes refs v b ≡ constant_bit constant.now b) }
    ensures never { IsErrOf result StoreFault.Nodes → ⊥ }
{
    match constant {
        Value::Flag(flag) => Ok(bits_of(alloc, store, u32::from(*flag))?),
        Value::Label(label) => Ok(bits_of(alloc, store, *label)?),
        Value::Whole(_) => Ok(Many::new(alloc)),
    }
}

/// The bit of the reference with a number.
#[inline(never)]
pub fn bit_at(alloc: Global, refs: &Many<Ref>, number: usize) -> Result<Many<Ref>, StoreFault>
    ensures ok { IfOk result (λ one. one ≡ ref_at refs.now number ∷ []) }
    ensures never { IsErrOf result StoreFault.Nodes → ⊥ }
{
    Ok(single(alloc, ref_of(refs.as_slice(), number))?)
}

/// The negation of a bit alone.
#[inline(never)]
pub fn negated(alloc: Global, store: &mut Store, bits: &[Ref]) -> Result<Many<Ref>, StoreFault>
    requires { AreRefs store.old.nodes bits.now }
    ensures ok { IfOk result (IsSingle store.old store.new (λ v. not (bit store.old.nodes bits.now v 0))) }
    ensures roomy { IsErrOf result StoreFault.Nodes → store.old.limit < 2 ^ (2 ^ store.old.variables) }
{
    let negation = store.not(ref_of(bits, 0))?;
    Ok(single(alloc, negation)?)
}
