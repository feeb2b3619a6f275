//! What rows that count wherever a reference is true show of a left side, without a diagram: one of them, or two.

ghost use Rattle.std.specs.Prelude.{◌≡◌, ◌⊎◌, List, [], ◌∷◌, Some, true, All, ◌<◌, ◌^◌, pos, length, slice_get};
ghost use Rattle.rv_diagram.specs.Nodes.{Valuation, value_of};
ghost use Rattle.rv_diagram.specs.declared.Triple.{Triple};
ghost use Rattle.rv_rows.specs.Rows.{RowWithin};
ghost use Rattle.rv_rows.specs.Multipliers.{ShowsAtOnce};
ghost use Rattle.rv_seek.specs.Least.{bounded};
ghost use Rattle.rv_pairs.specs.Keys.{IsKey};
ghost use Rattle.rv_pairs.specs.Labels.{active, AreLabels};
ghost use Rattle.rv_pairs.specs.Shown.{SumShows, ShowsBefore};

use crate::indexed::LabelledRows;
use crate::keys::key_of;
use crate::labels::Labelled;
use crate::showing::{misses, nothing, sum_of};
use rv_base::Many;
use rv_diagram::{Ref, Store};
use rv_ends::is_below;
use std::alloc::Global;

/// Whether the row counts wherever `sure` is true and shows the left side with this bound by itself. `zero` is no row.
fn is_sure_row(
    label: &Labelled,
    zero: &Labelled,
    sure: Ref,
    numbers: &Many<i128>,
    bound: i128,
) -> bool
    requires label { RowWithin (2 ^ 60) label.now.row }
    requires zero { RowWithin (2 ^ 60) zero.now.row }
    ensures same { result ≡ true → label.now.under ≡ sure }
    ensures shows { result ≡ true → zero.now.row.bound ≡ pos 0 → SumShows label.now.row zero.now.row (bounded numbers.now bound) }
{
    if label.under != sure {
        return false;
    }
    if is_below(bound, label.row.bound) {
        return false;
    }
    !misses(numbers, &label.row, &zero.row)
}

/// Whether the row at a place is such a row.
fn is_sure_at(
    labels: &LabelledRows,
    place: usize,
    zero: &Labelled,
    sure: Ref,
    numbers: &Many<i128>,
    bound: i128,
) -> bool
    requires labels { All (λ l. RowWithin (2 ^ 60) l.row) labels.now }
    requires zero { zero.now.row ≡ record { coefficients = []; bound = pos 0 } }
    ensures { result ≡ true → (nodes : List Triple) (v : Valuation) → value_of nodes sure v ≡ true
        → ShowsAtOnce (active nodes labels.now v) (bounded numbers.now bound) }
{
    if place >= labels.len() {
        return false;
    }
    is_sure_row(labels.at(place), zero, sure, numbers, bound)
}

/// Whether a row that counts wherever `sure` is true shows the left side with this bound by itself.
pub fn is_sure_alone(
    alloc: Global,
    store: &Store,
    labels: &LabelledRows,
    sure: Ref,
    numbers: &Many<i128>,
    bound: i128,
) -> bool
    requires { AreLabels store.now.nodes labels.now }
    ensures { result ≡ true → (v : Valuation) → value_of store.now.nodes sure v ≡ true
        → ShowsAtOnce (active store.now.nodes labels.now v) (bounded numbers.now bound) }
{
    let alike = labels.alike(key_of(numbers));
    let zero = nothing(alloc, store);
    for turn in 0..alike.len() {
        let place = *alike.at(turn);
        if is_sure_at(labels, place, &zero, sure, numbers, bound) {
            return true;
        }
    }
    false
}

/// Whether the reference is one of the two.
fn is_one_of(under: Ref, sure: Ref, always: Ref) -> bool
    ensures { result ≡ true → (nodes : List Triple) (v : Valuation) → value_of nodes sure v ≡ true → value_of nodes always v ≡ true
        → value_of nodes under v ≡ true }
{
    if under == sure {
        return true;
    }
    under == always
}

/// Whether the row at a place, where that is before the other one's own, and this one count wherever both references are true, and show the left side
/// with this bound together.
fn is_sure_pair(
    labels: &LabelledRows,
    earlier: usize,
    place: usize,
    label: &Labelled,
    sure: Ref,
    always: Ref,
    numbers: &Many<i128>,
    bound: i128,
) -> bool
    requires labels { All (λ l. RowWithin (2 ^ 60) l.row) labels.now }
    requires place { place < length labels.now }
    requires label { RowWithin (2 ^ 60) label.now.row }
    ensures { result ≡ true → (nodes : List Triple) (v : Valuation) → value_of nodes sure v ≡ true → value_of nodes always v ≡ true
        → value_of nodes label.now.under v ≡ true → ShowsBefore nodes v labels.now earlier place label.now (bounded numbers.now bound) }
{
    if earlier >= place {
        return false;
    }
    let one = labels.at(earlier);
    if !is_one_of(one.under, sure, always) {
        return false;
    }
    let sum = sum_of(one.row.bound, label.row.bound);
    if is_below(bound, sum) {
        return false;
    }
    if misses(numbers, &one.row, &label.row) {
        return false;
    }
    true
}

/// Whether the row at a place and one before it do. `key` is that of the left side.
fn is_sure_with(
    labels: &LabelledRows,
    place: usize,
    sure: Ref,
    always: Ref,
    numbers: &Many<i128>,
    key: usize,
    bound: i128,
) -> bool
    requires labels { All (λ l. RowWithin (2 ^ 60) l.row) labels.now }
    requires place { place < length labels.now }
    requires key { IsKey numbers.now key }
    ensures { result ≡ true → (nodes : List Triple) (v : Valuation) → value_of nodes sure v ≡ true → value_of nodes always v ≡ true
        → ShowsAtOnce (active nodes labels.now v) (bounded numbers.now bound) }
{
    let label = labels.at(place);
    if !is_one_of(label.under, sure, always) {
        return false;
    }
    let others = labels.others(key, place);
    for turn in 0..others.len() {
        let earlier = *others.at(turn);
        if is_sure_pair(labels, earlier, place, label, sure, always, numbers, bound) {
            return true;
        }
    }
    false
}

/// Whether two rows that count wherever both references are true show the left side with this bound together.
pub fn is_sure_together(
    labels: &LabelledRows,
    sure: Ref,
    always: Ref,
    numbers: &Many<i128>,
    bound: i128,
) -> bool
    requires { All (λ l. RowWithin (2 ^ 60) l.row) labels.now }
    ensures { result ≡ true → (nodes : List Triple) (v : Valuation) → value_of nodes sure v ≡ true → value_of nodes always v ≡ true
        → ShowsAtOnce (active nodes labels.now v) (bounded numbers.now bound) }
{
    let key = key_of(numbers);
    for place in 0..labels.len() {
        if is_sure_with(labels, place, sure, always, numbers, key, bound) {
            return true;
        }
    }
    false
}
