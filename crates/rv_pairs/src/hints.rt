//! Bounds that the rows which count at a valuation show at once of a left side, each with where they do.

ghost use Rattle.std.specs.Prelude.{◌≡◌, ◌↔◌, ◌⊎◌, List, ℕ, ℤ, ◌+◌, ◌<◌, ◌≤◌, ◌^◌, ◌++◌, ◌∷◌, ◌≤ℤ◌, pos, true, [], Some, IfOk, IsErrOf, take, length};
ghost use Rattle.std.specs.Prelude.{slice_get};
ghost use Rattle.rv_diagram.specs.declared.Triple.{Triple};
ghost use Rattle.rv_diagram.specs.Nodes.{Valuation, IsRef, value_of};
ghost use Rattle.rv_diagram.specs.Growing.{Extends};
ghost use Rattle.rv_seek.specs.Least.{bounded};
ghost use Rattle.rv_pairs.specs.Labels.{IsLabel, AreLabels};
ghost use Rattle.rv_pairs.specs.Shown.{BothShow, ShowsWith, ShowsBefore};
ghost use Rattle.rv_pairs.specs.Hints.{AreHints, IsHinted, AreHintsOf, IsHintAt};
ghost use Rattle.rv_pairs.specs.Keys.{IsKey};

use crate::indexed::LabelledRows;
use crate::keys::key_of;
use crate::labels::Labelled;
use crate::showing::{misses, nothing, sum_of};
use rv_base::{Many, Memory};
use rv_diagram::{Ref, Store, StoreFault};
use rv_ends::is_below;
use std::alloc::Global;

/// A bound of a left side, and where rows show it.
#[derive(Debug, Drop)]
pub struct Hint {
    /// The bound.
    pub bound: i128,
    /// It is shown where this is true,
    pub one: Ref,
    /// and this too.
    pub other: Ref,
}

/// The hints, and one more.
fn with_hint(hints: Many<Hint>, one: Ref, other: Ref, bound: i128) -> Result<Many<Hint>, Memory>
    ensures { IfOk result (λ all. all ≡ hints ++ record { bound = bound; one = one; other = other } ∷ []) }
{
    let mut all = hints;
    all.push(Hint { bound, one, other })?;
    Ok(all)
}

/// Whether the last hint shows the bound where both references are true.
fn is_covered(hints: &Many<Hint>, one: Ref, other: Ref, bound: i128) -> bool
    ensures { result ≡ true → (nodes : List Triple) (v : Valuation) (z : ℤ) → value_of nodes one v ≡ true → value_of nodes other v ≡ true → bound ≤ℤ z
        → IsHinted nodes hints.now v z }
{
    let count = hints.len();
    if count == 0 {
        return false;
    }
    let last = hints.at(count - 1);
    if is_below(bound, last.bound) {
        return false;
    }
    last.one == one && last.other == other
}

/// The hints, and what two rows show together of the left side where both count.
fn with_both(
    store: &Store,
    hints: Many<Hint>,
    one: &Labelled,
    other: &Labelled,
    numbers: &Many<i128>,
) -> Result<Many<Hint>, Memory>
    requires hints { AreHints store.now.nodes hints }
    requires one { IsLabel store.now.nodes one.now }
    requires other { IsLabel store.now.nodes other.now }
    ensures hints { IfOk result (AreHints store.now.nodes) }
    ensures exact { IfOk result (λ h. (v : Valuation) (z : ℤ) → IsHinted store.now.nodes h v z
        ↔ (IsHinted store.now.nodes hints v z ⊎ BothShow store.now.nodes v one.now other.now (bounded numbers.now z))) }
{
    let _count = store.mark();
    let bound = sum_of(one.row.bound, other.row.bound);
    if is_covered(&hints, one.under, other.under, bound) {
        return Ok(hints);
    }
    if misses(numbers, &one.row, &other.row) {
        return Ok(hints);
    }
    let all = with_hint(hints, one.under, other.under, bound)?;
    Ok(all)
}

/// The same of one row and none, whose left side has the first key; that of the wanted one has the second.
fn with_alone(
    store: &Store,
    hints: Many<Hint>,
    one: &Labelled,
    none: &Labelled,
    numbers: &Many<i128>,
    here: usize,
    key: usize,
) -> Result<Many<Hint>, Memory>
    requires hints { AreHints store.now.nodes hints }
    requires one { IsLabel store.now.nodes one.now }
    requires none { IsLabel store.now.nodes none.now }
    requires nothing { none.now.row ≡ record { coefficients = []; bound = pos 0 } }
    requires here { IsKey one.now.row.coefficients here }
    requires key { IsKey numbers.now key }
    ensures hints { IfOk result (AreHints store.now.nodes) }
    ensures exact { IfOk result (λ h. (v : Valuation) (z : ℤ) → IsHinted store.now.nodes h v z
        ↔ (IsHinted store.now.nodes hints v z ⊎ BothShow store.now.nodes v one.now none.now (bounded numbers.now z))) }
{
    if here != key {
        return Ok(hints);
    }
    with_both(store, hints, one, none, numbers)
}

/// The same with the row at a place, where that is before the other one's own.
fn with_one(
    store: &Store,
    hints: Many<Hint>,
    labels: &LabelledRows,
    earlier: usize,
    place: usize,
    label: &Labelled,
    numbers: &Many<i128>,
) -> Result<Many<Hint>, Memory>
    requires hints { AreHints store.now.nodes hints }
    requires labels { AreLabels store.now.nodes labels.now }
    requires place { place < length labels.now }
    requires label { IsLabel store.now.nodes label.now }
    ensures hints { IfOk result (AreHints store.now.nodes) }
    ensures exact { IfOk result (λ h. (v : Valuation) (z : ℤ) → IsHinted store.now.nodes h v z
        ↔ (IsHinted store.now.nodes hints v z ⊎ ShowsBefore store.now.nodes v labels.now earlier place label.now (bounded numbers.now z))) }
{
    if earlier >= place {
        return Ok(hints);
    }
    with_both(store, hints, labels.at(earlier), label, numbers)
}

/// The same with any row before the other one's own. `key` is that of the left side.
fn with_earlier(
    store: &Store,
    hints: Many<Hint>,
    labels: &LabelledRows,
    place: usize,
    label: &Labelled,
    numbers: &Many<i128>,
    key: usize,
) -> Result<Many<Hint>, Memory>
    requires hints { AreHints store.now.nodes hints }
    requires labels { AreLabels store.now.nodes labels.now }
    requires place { place < length labels.now }
    requires label { slice_get labels.now place ≡ Some label.now }
    requires key { IsKey numbers.now key }
    ensures hints { IfOk result (AreHints store.now.nodes) }
    ensures exact { IfOk result (λ h. (v : Valuation) (z : ℤ) → IsHinted store.now.nodes h v z
        ↔ (IsHinted store.now.nodes hints v z ⊎ ShowsWith store.now.nodes v labels.now place label.now (bounded numbers.now z))) }
{
    let others = labels.others(key, place);
    let mut all = hints;
    for turn in 0..others.len() {
        let earlier = *others.at(turn);
        all = with_one(store, all, labels, earlier, place, label, numbers)?;
    }
    Ok(all)
}

/// The hints of the rows before a place, and what one row more shows. `key` is that of the left side, and `zero` is no row.
fn with_label(
    store: &Store,
    hints: Many<Hint>,
    labels: &LabelledRows,
    place: usize,
    zero: &Labelled,
    numbers: &Many<i128>,
    key: usize,
) -> Result<Many<Hint>, Memory>
    requires hints { AreHints store.now.nodes hints }
    requires labels { AreLabels store.now.nodes labels.now }
    requires place { place < length labels.now }
    requires zero { IsLabel store.now.nodes zero.now }
    requires nothing { zero.now.row ≡ record { coefficients = []; bound = pos 0 } }
    requires counts { (v : Valuation) → value_of store.now.nodes zero.now.under v ≡ true }
    requires key { IsKey numbers.now key }
    ensures hints { IfOk result (AreHints store.now.nodes) }
    ensures shown { IfOk result (λ h. AreHintsOf store.now.nodes (take place labels.now) numbers.now hints
        → AreHintsOf store.now.nodes (take (place + 1) labels.now) numbers.now h) }
{
    let label = labels.at(place);
    let here = labels.key_at(place);
    let alone = with_alone(store, hints, label, zero, numbers, here, key)?;
    with_earlier(store, alone, labels, place, label, numbers, key)
}

/// The hints of no rows at all: 0 where all numbers are. `zero` is no row.
fn of_none(
    alloc: Global,
    store: &Store,
    zero: &Labelled,
    numbers: &Many<i128>,
) -> Result<Many<Hint>, Memory>
    requires zero { IsLabel store.now.nodes zero.now }
    requires nothing { zero.now.row ≡ record { coefficients = []; bound = pos 0 } }
    requires counts { (v : Valuation) → value_of store.now.nodes zero.now.under v ≡ true }
    ensures hints { IfOk result (AreHints store.now.nodes) }
    ensures shown { IfOk result (AreHintsOf store.now.nodes [] numbers.now) }
{
    let empty = Many::new(alloc);
    with_both(store, empty, zero, zero, numbers)
}

/// Bounds of the left side with these numbers, and where the rows that count show them at once: none, one or two different ones whose left sides
/// sum to it. The only error is want of memory.
pub fn hints_of(
    alloc: Global,
    store: &Store,
    labels: &LabelledRows,
    numbers: &Many<i128>,
) -> Result<Many<Hint>, Memory>
    requires { AreLabels store.now.nodes labels.now }
    ensures hints { IfOk result (AreHints store.now.nodes) }
    ensures shown { IfOk result (AreHintsOf store.now.nodes labels.now numbers.now) }
{
    let key = key_of(numbers);
    let zero = nothing(alloc, store);
    let mut all = of_none(alloc, store, &zero, numbers)?;
    for place in 0..labels.len() {
        all = with_label(store, all, labels, place, &zero, numbers, key)?;
    }
    Ok(all)
}

/// Where the reference is true and the hint does not show the bound.
fn without_hint(store: &mut Store, rest: Ref, hint: &Hint, bound: i128) -> Result<Ref, StoreFault>
    requires rest { IsRef store.old.nodes rest }
    requires one { IsRef store.old.nodes hint.now.one }
    requires other { IsRef store.old.nodes hint.now.other }
    ensures extends { Extends store.old store.new }
    ensures roomy { IsErrOf result StoreFault.Nodes → store.old.limit < 2 ^ (2 ^ store.old.variables) }
    ensures found { IfOk result (IsRef store.new.nodes) }
    ensures exact { IfOk result (λ r. (v : Valuation) → (value_of store.new.nodes r v ≡ true)
        ↔ ((value_of store.old.nodes rest v ≡ true) × ¬ IsHintAt store.old.nodes v bound hint.now)) }
{
    if is_below(bound, hint.bound) {
        return Ok(rest);
    }
    let never = store.constant(false);
    let outside = store.ite(hint.other, never, rest)?;
    store.ite(hint.one, outside, rest)
}

/// Where the reference is true and no hint shows the bound. Nodes comes where the store has no room for what is built, never where its limit holds
/// every function of its variables, and Memory where there is none; what was built is left, after a fault too.
pub fn left_by(
    store: &mut Store,
    inside: Ref,
    hints: &Many<Hint>,
    bound: i128,
) -> Result<Ref, StoreFault>
    requires inside { IsRef store.old.nodes inside }
    requires hints { AreHints store.old.nodes hints.now }
    ensures extends { Extends store.old store.new }
    ensures roomy { IsErrOf result StoreFault.Nodes → store.old.limit < 2 ^ (2 ^ store.old.variables) }
    ensures found { IfOk result (IsRef store.new.nodes) }
    ensures exact { IfOk result (λ r. (v : Valuation) → (value_of store.new.nodes r v ≡ true)
        ↔ ((value_of store.old.nodes inside v ≡ true) × ¬ IsHinted store.old.nodes hints.now v bound)) }
{
    let mut rest = inside;
    for place in 0..hints.len() {
        rest = without_hint(store, rest, hints.at(place), bound)?;
    }
    Ok(rest)
}

/// Whether the hint shows the bound wherever both of these references are true.
fn is_sure_hint(hint: &Hint, sure: Ref, always: Ref, bound: i128) -> bool
    ensures { result ≡ true → (nodes : List Triple) (v : Valuation) → value_of nodes sure v ≡ true → value_of nodes always v ≡ true
        → IsHintAt nodes v bound hint.now }
{
    if is_below(bound, hint.bound) {
        return false;
    }
    if hint.one != sure && hint.one != always {
        return false;
    }
    hint.other == sure || hint.other == always
}

/// Whether a hint shows the bound wherever both of these references are true.
pub fn is_sure(hints: &Many<Hint>, sure: Ref, always: Ref, bound: i128) -> bool
    ensures { result ≡ true → (nodes : List Triple) (v : Valuation) → value_of nodes sure v ≡ true → value_of nodes always v ≡ true
        → IsHinted nodes hints.now v bound }
{
    for place in 0..hints.len() {
        if is_sure_hint(hints.at(place), sure, always, bound) {
            return true;
        }
    }
    false
}
