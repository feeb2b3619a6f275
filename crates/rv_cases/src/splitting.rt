//! Splitting a list of conditions by the answers to a question, and the one answer that a condition has.

ghost use Rattle.std.specs.Prelude.{◌≡◌, ℕ, ◌<◌, ◌^◌, ◌&&◌, Bool, true, false, length, IfOk, OnOk, IsErrOf};
ghost use Rattle.rv_diagram.specs.Nodes.{Valuation, value_of, valuation_of, IsRef};
ghost use Rattle.rv_diagram.specs.Growing.{Extends};
ghost use Rattle.rv_cases.specs.Conditions.{is_in, AreRefs, AreApart, IsParted, AreAnswers, HasOneAnswer, IsSampleOf, AreMeets, AreWithin, AreJoined, list_at};
ghost use Rattle.rv_cases.specs.Conditions.{Gathers};

use rv_base::{Many, Memory};
use rv_diagram::{Ref, Store, StoreFault};
use std::alloc::Global;

/// Adds the meet of a condition and an answer, unless it is empty. It answers whether the meet is the condition itself, which
/// then has no valuation with another answer.
fn add_meet(
    store: &mut Store,
    made: &mut Vec<Ref>,
    conditions: &[Ref],
    i: usize,
    answers: &[Ref],
    b: usize,
) -> Result<bool, StoreFault>
    requires conditions { AreRefs store.old.nodes conditions.now }
    requires answers { AreRefs store.old.nodes answers.now }
    requires i { i < length conditions.now }
    requires b { b < length answers.now }
    requires made { AreRefs store.old.nodes made.old.items }
    ensures extends { Extends store.old store.new }
    ensures roomy { IsErrOf result StoreFault.Nodes → store.old.limit < 2 ^ (2 ^ store.old.variables) }
    ensures refs { OnOk result (AreRefs store.new.nodes made.new.items) }
    ensures gathers { OnOk result (Gathers store.old.nodes store.new.nodes
        (λ v. is_in store.old.nodes conditions.now i v && is_in store.old.nodes answers.now b v) made.old.items made.new.items) }
    ensures met { OnOk result (AreMeets store.old.nodes conditions.now answers.now made.old.items
        → AreMeets store.new.nodes conditions.now answers.now made.new.items) }
    ensures whole { IfOk result (λ whole. whole ≡ true → (v : Valuation) → is_in store.old.nodes conditions.now i v ≡ true
        → is_in store.old.nodes answers.now b v ≡ true) }
{
    let condition = conditions[i];
    let both = store.and(condition, answers[b])?;
    let _count = store.mark();
    if store.is_false(both) {
        return Ok(false);
    }
    made.push(both)?;
    Ok(both == condition)
}

/// Adds the meets of a condition and each answer in turn. Where one is the condition itself, the others are empty and left out.
fn add_each(
    store: &mut Store,
    made: &mut Vec<Ref>,
    conditions: &[Ref],
    i: usize,
    answers: &[Ref],
) -> Result<(), StoreFault>
    requires conditions { AreRefs store.old.nodes conditions.now }
    requires answers { AreAnswers store.old.nodes answers.now }
    requires i { i < length conditions.now }
    requires made { AreRefs store.old.nodes made.old.items }
    ensures extends { Extends store.old store.new }
    ensures roomy { IsErrOf result StoreFault.Nodes → store.old.limit < 2 ^ (2 ^ store.old.variables) }
    ensures refs { OnOk result (AreRefs store.new.nodes made.new.items) }
    ensures gathers { OnOk result (Gathers store.old.nodes store.new.nodes
        (is_in store.old.nodes conditions.now i) made.old.items made.new.items) }
    ensures met { OnOk result (AreMeets store.old.nodes conditions.now answers.now made.old.items
        → AreMeets store.new.nodes conditions.now answers.now made.new.items) }
{
    for b in 0..answers.len() {
        let whole = add_meet(store, made, conditions, i, answers, b)?;
        if whole {
            return Ok(());
        }
    }
    Ok(())
}

/// Whether a condition is within an answer.
fn is_within(
    store: &mut Store,
    conditions: &[Ref],
    i: usize,
    answers: &[Ref],
    b: usize,
) -> Result<bool, StoreFault>
    requires conditions { AreRefs store.old.nodes conditions.now }
    requires answers { AreRefs store.old.nodes answers.now }
    requires i { i < length conditions.now }
    requires b { b < length answers.now }
    ensures extends { Extends store.old store.new }
    ensures roomy { IsErrOf result StoreFault.Nodes → store.old.limit < 2 ^ (2 ^ store.old.variables) }
    ensures within { IfOk result (λ yes. yes ≡ true → (v : Valuation) → is_in store.old.nodes conditions.now i v ≡ true
        → is_in store.old.nodes answers.now b v ≡ true) }
{
    let condition = conditions[i];
    let both = store.and(condition, answers[b])?;
    Ok(both == condition)
}

/// Adds the meets of a condition and all answers. Most conditions are within the answer of one of their valuations, which is tried first.
fn add_meets(
    alloc: Global,
    store: &mut Store,
    made: &mut Vec<Ref>,
    conditions: &[Ref],
    i: usize,
    answers: &[Ref],
) -> Result<(), StoreFault>
    requires conditions { AreRefs store.old.nodes conditions.now }
    requires answers { AreAnswers store.old.nodes answers.now }
    requires i { i < length conditions.now }
    requires made { AreRefs store.old.nodes made.old.items }
    ensures extends { Extends store.old store.new }
    ensures roomy { IsErrOf result StoreFault.Nodes → store.old.limit < 2 ^ (2 ^ store.old.variables) }
    ensures refs { OnOk result (AreRefs store.new.nodes made.new.items) }
    ensures gathers { OnOk result (Gathers store.old.nodes store.new.nodes
        (is_in store.old.nodes conditions.now i) made.old.items made.new.items) }
    ensures met { OnOk result (AreMeets store.old.nodes conditions.now answers.now made.old.items
        → AreMeets store.new.nodes conditions.now answers.now made.new.items) }
{
    let sample = sample_of(alloc, store, conditions[i])?;
    let likely = place_in(store, &sample, answers);
    let within = is_within(store, conditions, i, answers, likely)?;
    if within {
        let _whole = add_meet(store, made, conditions, i, answers, likely)?;
        return Ok(());
    }
    add_each(store, made, conditions, i, answers)?;
    Ok(())
}

/// The conditions, split by the answers to a question: each meet of a condition and an answer that is not empty, in their order. They
/// part what the conditions part. After a fault nodes may be left.
pub fn split(
    alloc: Global,
    store: &mut Store,
    conditions: &[Ref],
    answers: &[Ref],
) -> Result<Vec<Ref>, StoreFault>
    requires conditions { AreRefs store.old.nodes conditions.now }
    requires apart { AreApart store.old.nodes conditions.now }
    requires answers { AreAnswers store.old.nodes answers.now }
    ensures extends { Extends store.old store.new }
    ensures roomy { IsErrOf result StoreFault.Nodes → store.old.limit < 2 ^ (2 ^ store.old.variables) }
    ensures parted { IfOk result (λ r. (p : Valuation → Bool) → IsParted store.old.nodes p conditions.now → IsParted store.new.nodes p r.items) }
    ensures met { IfOk result (λ r. AreMeets store.new.nodes conditions.now answers.now r.items) }
{
    let mut made = Vec::new(alloc);
    for i in 0..conditions.len() {
        add_meets(alloc, store, &mut made, conditions, i, answers)?;
    }
    Ok(made)
}

/// The list with a reference, unless that is false.
fn start(alloc: Global, store: &Store, whole: Ref) -> Result<Vec<Ref>, StoreFault>
    requires { IsRef store.now.nodes whole }
    ensures parted { IfOk result (λ r. IsParted store.now.nodes (value_of store.now.nodes whole) r.items) }
    ensures all { IfOk result (λ r. (j : ℕ) (v : Valuation) → j < length r.items → value_of store.now.nodes whole v ≡ true
        → is_in store.now.nodes r.items j v ≡ true) }
    ensures roomy { IsErrOf result StoreFault.Nodes → ⊥ }
{
    let mut made = Vec::new(alloc);
    let _count = store.mark();
    if store.is_false(whole) {
        return Ok(made);
    }
    made.push(whole)?;
    Ok(made)
}

/// A set of valuations, split by the answers to each question in turn: conditions that part it, throughout each of which each question
/// has one answer, such that valuations with the same answers are in one condition. After a fault nodes may be left.
pub fn split_whole(
    alloc: Global,
    store: &mut Store,
    whole: Ref,
    questions: &[Many<Ref>],
) -> Result<Vec<Ref>, StoreFault>
    requires whole { IsRef store.old.nodes whole }
    requires questions { (q : ℕ) → q < length questions.now → AreAnswers store.old.nodes (list_at questions.now q) }
    ensures extends { Extends store.old store.new }
    ensures roomy { IsErrOf result StoreFault.Nodes → store.old.limit < 2 ^ (2 ^ store.old.variables) }
    ensures parted { IfOk result (λ r. IsParted store.new.nodes (value_of store.old.nodes whole) r.items) }
    ensures answered { IfOk result (λ r. (q : ℕ) → q < length questions.now
        → AreWithin store.old.nodes store.new.nodes (list_at questions.now q) r.items) }
    ensures joined { IfOk result (λ r. AreJoined store.old.nodes store.new.nodes (value_of store.old.nodes whole)
        questions.now (length questions.now) r.items) }
{
    let mut left = start(alloc, store, whole)?;
    for answers in questions {
        left = split(alloc, store, left.as_slice(), answers.as_slice())?;
    }
    Ok(left)
}

/// As many `false` as there are variables.
fn all_false(alloc: Global, variables: u32) -> Result<Many<bool>, Memory>
    ensures { IfOk result (λ values. length values ≡ variables) }
{
    let mut values = Many::new(alloc);
    for _variable in 0..variables {
        values.push(false)?;
    }
    Ok(values)
}

/// A valuation of the condition, the least, or any where the condition has none. The only error is want of memory.
pub fn sample_of(alloc: Global, store: &Store, condition: Ref) -> Result<Many<bool>, Memory>
    requires { IsRef store.now.nodes condition }
    ensures sized { IfOk result (λ values. length values ≡ store.now.variables) }
    ensures sample { IfOk result (IsSampleOf store.now.nodes condition) }
{
    match store.pick(condition)? {
        Some(values) => Ok(values),
        None => {
            let values = all_false(alloc, store.variables())?;
            Ok(values)
        }
    }
}

/// The answer that a valuation has, by its number. Where all valuations of a condition have one answer, it is that of a sample of them.
pub fn place_in(store: &Store, sample: &Many<bool>, answers: &[Ref]) -> usize
    requires sized { length sample.now ≡ store.now.variables }
    requires answers { AreAnswers store.now.nodes answers.now }
    ensures known { result < length answers.now }
    ensures here { is_in store.now.nodes answers.now result (valuation_of sample.now) ≡ true }
    ensures throughout { (condition : ℕ) → HasOneAnswer store.now.nodes condition answers.now → IsSampleOf store.now.nodes condition sample.now
        → (v : Valuation) → value_of store.now.nodes condition v ≡ true → is_in store.now.nodes answers.now result v ≡ true }
{
    for place in 0..answers.len() {
        if store.value_at(answers[place], sample) {
            return place;
        }
    }
    0
}
