//! Control values bit by bit: lists of references, bit 0 the least significant. Past the end of a list stands the constant
//! false.

ghost use Rattle.std.specs.Prelude.{◌≡◌, ℕ, ◌+◌, ◌<◌, ◌≤◌, ◌^◌, ◌&&◌, ◌||◌, [], ◌∷◌, cond, length, max, nat_eq, nat_le, nat_lt, IfOk, IsErrOf};
ghost use Rattle.rv_diagram.specs.Nodes.{Valuation, IsRef, value_of};
ghost use Rattle.rv_diagram.specs.Several.{ref_at};
ghost use Rattle.rv_meaning.specs.Codes.{code};
ghost use Rattle.rv_types.specs.Variables.{bits_for};
ghost use Rattle.rv_symbolic.specs.Growing.{Makes};
ghost use Rattle.rv_symbolic.specs.Linked.{AreRefs};
ghost use Rattle.rv_bits.specs.Bits.{bit, bit_of, is_same, are_same, count_true, Spells, AreCounted};

use rv_base::{Many, Memory};
use rv_diagram::{Ref, Store, StoreFault};
use std::alloc::Global;

/// The reference of a bit.
pub fn ref_of(refs: &[Ref], number: usize) -> Ref
    ensures { result ≡ ref_at refs.now number }
{
    match refs.get(number) {
        Some(found) => *found,
        None => 0,
    }
}

/// One bit alone.
pub fn single(alloc: Global, found: Ref) -> Result<Many<Ref>, Memory>
    ensures { IfOk result (λ refs. refs ≡ found ∷ []) }
{
    let mut refs = Many::new(alloc);
    refs.push(found)?;
    Ok(refs)
}

/// The bits of a number, up to its last one.
pub fn bits_of(alloc: Global, store: &Store, number: u32) -> Result<Many<Ref>, Memory>
    ensures found { IfOk result (λ refs. AreRefs store.now.nodes refs) }
    ensures means { IfOk result (λ refs. (b : ℕ) (v : Valuation) → bit store.now.nodes refs v b ≡ bit_of number b) }
{
    let mut refs = Many::new(alloc);
    let mut rest = number;
    while rest > 0 {
        refs.push(store.constant(rest % 2 == 1))?;
        rest /= 2;
    }
    Ok(refs)
}

/// Whether two references have the same truth.
fn equal(store: &mut Store, a: Ref, b: Ref) -> Result<Ref, StoreFault>
    requires a { IsRef store.old.nodes a }
    requires b { IsRef store.old.nodes b }
    ensures ok { IfOk result (Makes store.old store.new (λ v. is_same (value_of store.old.nodes a v) (value_of store.old.nodes b v))) }
    ensures roomy { IsErrOf result StoreFault.Nodes → store.old.limit < 2 ^ (2 ^ store.old.variables) }
{
    let not_b = store.not(b)?;
    store.ite(a, b, not_b)
}

/// Whether a reference is true, and two others have the same truth.
fn equal_too(store: &mut Store, same: Ref, a: Ref, b: Ref) -> Result<Ref, StoreFault>
    requires same { IsRef store.old.nodes same }
    requires a { IsRef store.old.nodes a }
    requires b { IsRef store.old.nodes b }
    ensures ok { IfOk result (Makes store.old store.new
        (λ v. value_of store.old.nodes same v && is_same (value_of store.old.nodes a v) (value_of store.old.nodes b v))) }
    ensures roomy { IsErrOf result StoreFault.Nodes → store.old.limit < 2 ^ (2 ^ store.old.variables) }
{
    let one = equal(store, a, b)?;
    store.and(same, one)
}

/// Whether all bits of two lists have the same truth.
pub fn all_equal(store: &mut Store, left: &[Ref], right: &[Ref]) -> Result<Ref, StoreFault>
    requires left { AreRefs store.old.nodes left.now }
    requires right { AreRefs store.old.nodes right.now }
    ensures ok { IfOk result (Makes store.old store.new
        (λ v. are_same (max (length left.now) (length right.now)) (bit store.old.nodes left.now v) (bit store.old.nodes right.now v))) }
    ensures roomy { IsErrOf result StoreFault.Nodes → store.old.limit < 2 ^ (2 ^ store.old.variables) }
{
    let mut same = store.constant(true);
    for number in 0..left.len().max(right.len()) {
        same = equal_too(store, same, ref_of(left, number), ref_of(right, number))?;
    }
    Ok(same)
}

/// The bits of the first list where a reference is true, and those of the second elsewhere.
pub fn chosen(
    alloc: Global,
    store: &mut Store,
    condition: Ref,
    first: &[Ref],
    second: &[Ref],
) -> Result<Many<Ref>, StoreFault>
    requires condition { IsRef store.old.nodes condition }
    requires first { AreRefs store.old.nodes first.now }
    requires second { AreRefs store.old.nodes second.now }
    ensures ok { IfOk result (Spells store.old store.new
        (λ b v. cond (value_of store.old.nodes condition v) (bit store.old.nodes first.now v b) (bit store.old.nodes second.now v b))) }
    ensures size { IfOk result (λ refs. length refs ≡ max (length first.now) (length second.now)) }
    ensures roomy { IsErrOf result StoreFault.Nodes → store.old.limit < 2 ^ (2 ^ store.old.variables) }
{
    let mut refs = Many::new(alloc);
    for number in 0..first.len().max(second.len()) {
        refs.push(store.ite(condition, ref_of(first, number), ref_of(second, number))?)?;
    }
    Ok(refs)
}

/// Whether no reference is true so far, and whether one at the most is.
#[derive(Clone, Copy)]
struct Counted {
    none: Ref,
    most: Ref,
}

/// The same with one reference more.
fn count_one(store: &mut Store, so_far: Counted, one: Ref) -> Result<Counted, StoreFault>
    requires none { IsRef store.old.nodes so_far.none }
    requires most { IsRef store.old.nodes so_far.most }
    requires one { IsRef store.old.nodes one }
    ensures ok { IfOk result (λ more. (count : Valuation → ℕ)
        → ((v : Valuation) → value_of store.old.nodes so_far.none v ≡ nat_eq (count v) 0)
        → ((v : Valuation) → value_of store.old.nodes so_far.most v ≡ nat_le (count v) 1)
        → AreCounted store.old store.new (λ v. count v + cond (value_of store.old.nodes one v) 1 0) more.none more.most) }
    ensures roomy { IsErrOf result StoreFault.Nodes → store.old.limit < 2 ^ (2 ^ store.old.variables) }
{
    let most = store.ite(one, so_far.none, so_far.most)?;
    let none = store.ite(one, 0, so_far.none)?;
    Ok(Counted { none, most })
}

/// Whether one of some references is true at the most.
pub fn at_most_one(store: &mut Store, refs: &[Ref]) -> Result<Ref, StoreFault>
    requires refs { AreRefs store.old.nodes refs.now }
    ensures ok { IfOk result (Makes store.old store.new (λ v. nat_le (count_true (length refs.now) (bit store.old.nodes refs.now v)) 1)) }
    ensures roomy { IsErrOf result StoreFault.Nodes → store.old.limit < 2 ^ (2 ^ store.old.variables) }
{
    let always = store.constant(true);
    let mut counted = Counted {
        none: always,
        most: always,
    };
    for number in 0..refs.len() {
        counted = count_one(store, counted, refs[number])?;
    }
    Ok(counted.most)
}

/// Whether a code of one bit more is at most a number: where the further bit of the number is 1, the code is below it where its
/// own is 0, and where that of the number is 0, the code is above it where its own is 1.
fn within_too(store: &mut Store, within: Ref, own: Ref, number: bool) -> Result<Ref, StoreFault>
    requires within { IsRef store.old.nodes within }
    requires own { IsRef store.old.nodes own }
    ensures ok { IfOk result (Makes store.old store.new
        (λ v. cond (value_of store.old.nodes own v) (number && value_of store.old.nodes within v) (number || value_of store.old.nodes within v))) }
    ensures roomy { IsErrOf result StoreFault.Nodes → store.old.limit < 2 ^ (2 ^ store.old.variables) }
{
    if number {
        store.ite(own, within, 1)
    } else {
        store.ite(own, 0, within)
    }
}

/// Whether the code that some bits spell is that of a label, where there are so many labels.
pub fn names_label(store: &mut Store, bits: &[Ref], labels: usize) -> Result<Ref, StoreFault>
    requires bits { AreRefs store.old.nodes bits.now }
    requires size { length bits.now ≡ bits_for labels }
    requires few { labels ≤ 256 }
    ensures ok { IfOk result (Makes store.old store.new (λ v. nat_lt (code (bits_for labels) (bit store.old.nodes bits.now v)) labels)) }
    ensures roomy { IsErrOf result StoreFault.Nodes → store.old.limit < 2 ^ (2 ^ store.old.variables) }
{
    if labels == 0 {
        return Ok(store.constant(false));
    }
    let mut rest = labels - 1;
    let mut within = store.constant(true);
    for number in 0..bits.len() {
        within = within_too(store, within, bits[number], rest % 2 == 1)?;
        rest /= 2;
    }
    Ok(within)
}
