//! Valuations of a path's instants, the last one first. Each is picked among those of its case in the control states before it that lead
//! to the valuation after it.

ghost use Rattle.std.specs.Prelude.{◌≡◌, ◌<◌, ◌^◌, All, length, reverse, IfOk, IfSome, IsErrOf};
ghost use Rattle.rv_diagram.specs.Nodes.{IsRef, IsOrderedOver};
ghost use Rattle.rv_diagram.specs.Growing.{Extends};
ghost use Rattle.rv_proofs.specs.Systems.{System};
ghost use Rattle.rv_symbolic.specs.Linked.{AreRefs};
ghost use Rattle.rv_paths.specs.Searching.{IsSetting};

use crate::tree::{Node, Plan, Turn};
use rv_base::Many;
use rv_diagram::{Frozen, Ref, Store, StoreFault};
use rv_symbolic::Relation;
use std::alloc::Global;

/// The valuations of a case in a set of control states, with what was built of it.
fn meet(store: &mut Store, control: &Frozen, condition: &Frozen) -> Result<Ref, StoreFault>
    requires control { IsOrderedOver store.old.variables control.now }
    requires condition { IsOrderedOver store.old.variables condition.now }
    ensures extends { Extends store.old store.new }
    ensures roomy { IsErrOf result StoreFault.Nodes → store.old.limit < 2 ^ (2 ^ store.old.variables) }
    ensures found { IfOk result (IsRef store.new.nodes) }
{
    let one = store.thaw(control)?;
    let other = store.thaw(condition)?;
    store.and(one, other)
}

/// The valuations of a set at which a reference has a value, with what was built of it.
fn with_bit(store: &mut Store, set: Ref, next: Ref, value: bool) -> Result<Ref, StoreFault>
    requires set { IsRef store.old.nodes set }
    requires next { IsRef store.old.nodes next }
    ensures extends { Extends store.old store.new }
    ensures roomy { IsErrOf result StoreFault.Nodes → store.old.limit < 2 ^ (2 ^ store.old.variables) }
    ensures found { IfOk result (IsRef store.new.nodes) }
{
    if value {
        return store.and(set, next);
    }
    let nothing = store.constant(false);
    store.ite(next, nothing, set)
}

/// The truth value that a word gives a state bit.
fn bit_of(word: &[bool], bit: usize) -> bool {
    match word.get(bit.saturating_mul(2)) {
        Some(value) => *value,
        None => false,
    }
}

/// The valuations of a set that lead to the control state of a word, with what was built of it.
fn with_bits(store: &mut Store, set: Ref, next: &[Ref], to: &[bool]) -> Result<Ref, StoreFault>
    requires set { IsRef store.old.nodes set }
    requires next { AreRefs store.old.nodes next.now }
    ensures extends { Extends store.old store.new }
    ensures roomy { IsErrOf result StoreFault.Nodes → store.old.limit < 2 ^ (2 ^ store.old.variables) }
    ensures found { IfOk result (IsRef store.new.nodes) }
{
    let mut rest = set;
    for bit in 0..next.len() {
        rest = with_bit(store, rest, next[bit], bit_of(to, bit))?;
    }
    Ok(rest)
}

/// The least valuation of a case in a set of control states, with what was built of it.
fn some_word_in(
    store: &mut Store,
    control: &Frozen,
    condition: &Frozen,
) -> Result<Option<Many<bool>>, StoreFault>
    requires control { IsOrderedOver store.old.variables control.now }
    requires condition { IsOrderedOver store.old.variables condition.now }
    ensures extends { Extends store.old store.new }
    ensures roomy { IsErrOf result StoreFault.Nodes → store.old.limit < 2 ^ (2 ^ store.old.variables) }
    ensures size { IfOk result (λ o. IfSome o (λ w. length w ≡ store.old.variables)) }
{
    let set = meet(store, control, condition)?;
    Ok(store.pick(set)?)
}

/// The least valuation of a case in a set of control states, with a truth value for each variable. The store is left as it was.
pub fn some_word(
    store: &mut Store,
    control: &Frozen,
    condition: &Frozen,
) -> Result<Option<Many<bool>>, StoreFault>
    requires control { IsOrderedOver store.old.variables control.now }
    requires condition { IsOrderedOver store.old.variables condition.now }
    ensures size { IfOk result (λ o. IfSome o (λ w. length w ≡ store.old.variables)) }
    ensures same { store.new ≡ store.old }
    ensures roomy { IsErrOf result StoreFault.Nodes → store.old.limit < 2 ^ (2 ^ store.old.variables) }
{
    let mark = store.mark();
    let answer = some_word_in(store, control, condition);
    store.release(mark);
    answer
}

/// The least one that leads to the control state of a word, with what was built of it.
fn word_before_in(
    store: &mut Store,
    next: &[Ref],
    control: &Frozen,
    condition: &Frozen,
    to: &[bool],
) -> Result<Option<Many<bool>>, StoreFault>
    requires next { AreRefs store.old.nodes next.now }
    requires control { IsOrderedOver store.old.variables control.now }
    requires condition { IsOrderedOver store.old.variables condition.now }
    ensures extends { Extends store.old store.new }
    ensures roomy { IsErrOf result StoreFault.Nodes → store.old.limit < 2 ^ (2 ^ store.old.variables) }
    ensures size { IfOk result (λ o. IfSome o (λ w. length w ≡ store.old.variables)) }
{
    let set = meet(store, control, condition)?;
    let leading = with_bits(store, set, next, to)?;
    Ok(store.pick(leading)?)
}

/// The least one that leads to the control state of a word. The store is left as it was.
fn word_before(
    store: &mut Store,
    next: &[Ref],
    control: &Frozen,
    condition: &Frozen,
    to: &[bool],
) -> Result<Option<Many<bool>>, StoreFault>
    requires next { AreRefs store.old.nodes next.now }
    requires control { IsOrderedOver store.old.variables control.now }
    requires condition { IsOrderedOver store.old.variables condition.now }
    ensures size { IfOk result (λ o. IfSome o (λ w. length w ≡ store.old.variables)) }
    ensures same { store.new ≡ store.old }
    ensures roomy { IsErrOf result StoreFault.Nodes → store.old.limit < 2 ^ (2 ^ store.old.variables) }
{
    let mark = store.mark();
    let answer = word_before_in(store, next, control, condition, to);
    store.release(mark);
    answer
}

/// A valuation of a step of a path that leads to the control state of a word.
fn word_of_turn(
    store: &mut Store,
    relation: &Relation,
    plan: &Plan,
    nodes: &Many<Node>,
    turn: Turn,
    to: &[bool],
) -> Result<Option<Many<bool>>, StoreFault>
    requires { (s : System) × IsSetting s store.old relation.now plan.now nodes.now }
    ensures size { IfOk result (λ o. IfSome o (λ w. length w ≡ store.old.variables)) }
    ensures same { store.new ≡ store.old }
    ensures roomy { IsErrOf result StoreFault.Nodes → store.old.limit < 2 ^ (2 ^ store.old.variables) }
{
    let Some(node) = nodes.get(turn.node) else {
        return Ok(None);
    };
    let Some(case) = plan.cases_from(turn.node).get(turn.case) else {
        return Ok(None);
    };
    let next = relation.parts().next.as_slice();
    word_before(store, next, &node.control, &case.condition, to)
}

/// A valuation for each step of a path, the last one first, from the last one back.
fn words_back(
    alloc: Global,
    store: &mut Store,
    relation: &Relation,
    plan: &Plan,
    nodes: &Many<Node>,
    turns: &Many<Turn>,
    last: Many<bool>,
) -> Result<Option<Many<Many<bool>>>, StoreFault>
    requires setting { (s : System) × IsSetting s store.old relation.now plan.now nodes.now }
    requires last { length last ≡ store.old.variables }
    requires few { length turns.now < 2 ^ 32 }
    ensures some { IfOk result (λ o. IfSome o (λ words. 0 < length words)) }
    ensures few { IfOk result (λ o. IfSome o (λ words. length words < 2 ^ 32)) }
    ensures sizes { IfOk result (λ o. IfSome o (λ words. All (λ w. length w ≡ store.old.variables) words)) }
    ensures same { store.new ≡ store.old }
    ensures roomy { IsErrOf result StoreFault.Nodes → store.old.limit < 2 ^ (2 ^ store.old.variables) }
{
    let mut words = Many::new(alloc);
    words.push(last)?;
    let earlier = turns.len().saturating_sub(1);
    for back in 0..earlier {
        let turn = *turns.at(earlier - 1 - back);
        let to = words.at(back).as_slice();
        let Some(word) = word_of_turn(store, relation, plan, nodes, turn, to)? else {
            return Ok(None);
        };
        words.push(word)?;
    }
    Ok(Some(words))
}

/// The words in the other order.
fn turned(words: Many<Many<bool>>) -> Many<Many<bool>>
    ensures { result ≡ reverse words }
{
    let mut words = words.into_vec();
    words.reverse();
    Many::from_vec(words)
}

/// A valuation for each step of a path, the first one first. There is none where the path has no step, or one that is not there.
pub fn words_of(
    alloc: Global,
    store: &mut Store,
    relation: &Relation,
    plan: &Plan,
    nodes: &Many<Node>,
    turns: &Many<Turn>,
    last: Many<bool>,
) -> Result<Option<Many<Many<bool>>>, StoreFault>
    requires setting { (s : System) × IsSetting s store.old relation.now plan.now nodes.now }
    requires last { length last ≡ store.old.variables }
    requires few { length turns.now < 2 ^ 32 }
    ensures some { IfOk result (λ o. IfSome o (λ words. 0 < length words)) }
    ensures few { IfOk result (λ o. IfSome o (λ words. length words < 2 ^ 32)) }
    ensures sizes { IfOk result (λ o. IfSome o (λ words. All (λ w. length w ≡ store.old.variables) words)) }
    ensures same { store.new ≡ store.old }
    ensures roomy { IsErrOf result StoreFault.Nodes → store.old.limit < 2 ^ (2 ^ store.old.variables) }
{
    match words_back(alloc, store, relation, plan, nodes, turns, last)? {
        Some(words) => Ok(Some(turned(words))),
        None => Ok(None),
    }
}
