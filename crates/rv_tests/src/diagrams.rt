//! What is answered on decision diagrams over the variables 0 and 1, here x and y.

ghost use Rattle.std.specs.Prelude.{◌≡◌};
ghost use Rattle.rv_diagram.specs.Nodes.{IsRef};

use rv_base::{Many, Memory};
use rv_diagram::{Frozen, Ref, Store, StoreFault, Triple};
use std::alloc::{AllocError, Global};

/// The answer on a row of the kind `diagram`, which names what is made:
/// `x`, `and`, `or`, `not`, `ite`, `exists`, `restrict`, `compose`, `and_exists`, `exists_each`, `thaw`: its nodes when
/// frozen, and the reference;
/// `pick`, `values`, `implies`, `ordered`, `reads`, `release`, `full`, `whole`: what these calls answer.
pub fn diagram(alloc: Global, call: &str) -> Result<Option<String>, Memory> {
    let mut store = Store::new(alloc, 2, 64)?;
    let told = match call {
        "pick" => picked(alloc, &mut store),
        "values" => valued(alloc, &mut store),
        "implies" => implied(alloc, &mut store),
        "ordered" => ordered(alloc, &mut store),
        "reads" => read(alloc, &mut store),
        "release" => released(alloc, &mut store),
        "full" => return Ok(Some(filled(alloc)?)),
        "whole" => frozen_whole(alloc),
        _ => made(alloc, &mut store, call),
    };
    match told {
        Ok(text) => Ok(Some(text)),
        Err(StoreFault::Nodes) => Ok(Some(String::from_str(alloc, "nodes")?)),
        Err(StoreFault::Memory) => Err(Memory::Memory),
    }
}

/// The nodes of a frozen diagram, each as its variable with its children for false and for true, and the root.
fn frozen_text(alloc: Global, frozen: &Frozen) -> Result<String, AllocError> {
    let mut text = String::new(alloc);
    for node in frozen.nodes.as_slice() {
        let (var, lo, hi) = (node.var, node.lo, node.hi);
        text.push_str(format!(in alloc; "{var}({lo}, {hi}) ")?.as_str())?;
    }
    let root = frozen.root;
    text.push_str(format!(in alloc; "root {root}")?.as_str())?;
    Ok(text)
}

/// What a call makes of `x`, `y` and `x and y`, frozen.
fn made(alloc: Global, store: &mut Store, call: &str) -> Result<String, StoreFault>
    requires { store.old.variables ≡ 2 }
{
    let x = store.variable(0)?;
    let y = store.variable(1)?;
    let both = store.and(x, y)?;
    let frozen = match call {
        "x" => store.freeze(x)?,
        "and" => store.freeze(both)?,
        "or" => {
            let either = store.or(x, y)?;
            store.freeze(either)?
        }
        "not" => {
            let not_both = store.not(both)?;
            store.freeze(not_both)?
        }
        "ite" => {
            let same = store.ite(x, both, 0)?;
            store.freeze(same)?
        }
        _ => return Ok(changed(alloc, store, call, x, both)?),
    };
    Ok(frozen_text(alloc, &frozen)?)
}

/// What a call makes of `x and y`, frozen.
fn changed(
    alloc: Global,
    store: &mut Store,
    call: &str,
    x: Ref,
    both: Ref,
) -> Result<String, StoreFault>
    requires variables { store.old.variables ≡ 2 }
    requires x { IsRef store.old.nodes x }
    requires both { IsRef store.old.nodes both }
{
    let reference = match call {
        "exists" => store.exists(both, 0)?,
        "restrict" => store.restrict(both, 0, true)?,
        "compose" => {
            let not_x = store.not(x)?;
            store.compose(both, 1, not_x)?
        }
        "and_exists" => store.and_exists(x, both, &[true])?,
        "exists_each" => store.exists_each(both, &[true, true])?,
        "thaw" => {
            let frozen = store.freeze(both)?;
            store.thaw(&frozen)?
        }
        _ => return Ok(String::from_str(alloc, "no call")?),
    };
    let frozen = store.freeze(reference)?;
    Ok(frozen_text(alloc, &frozen)?)
}

/// The least valuation of `x or y`, and that of false.
fn picked(alloc: Global, store: &mut Store) -> Result<String, StoreFault>
    requires { store.old.variables ≡ 2 }
{
    let x = store.variable(0)?;
    let y = store.variable(1)?;
    let either = store.or(x, y)?;
    let least = picked_text(alloc, store.pick(either)?)?;
    let none = store.constant(false);
    let nothing = picked_text(alloc, store.pick(none)?)?;
    Ok(format!(in alloc; "{least}, {nothing}")?)
}

/// A valuation as its truth values, or `none`.
fn picked_text(alloc: Global, picked: Option<Many<bool>>) -> Result<String, AllocError> {
    let Some(values) = picked else {
        return String::from_str(alloc, "none");
    };
    let mut text = String::new(alloc);
    for value in values.as_slice() {
        text.push(if *value { 't' } else { 'f' })?;
    }
    Ok(text)
}

/// `x or y` and `x` at the valuation false, true, and which of `x or y` and false is false.
fn valued(alloc: Global, store: &mut Store) -> Result<String, StoreFault>
    requires { store.old.variables ≡ 2 }
{
    let x = store.variable(0)?;
    let y = store.variable(1)?;
    let either = store.or(x, y)?;
    let mut values = Many::new(alloc);
    values.push(false)?;
    values.push(true)?;
    let (one, another) = (store.value_at(either, &values), store.value_at(x, &values));
    let (some, none) = (
        store.is_false(either),
        store.is_false(store.constant(false)),
    );
    Ok(format!(in alloc; "{one} {another}, {some} {none}")?)
}

/// Whether `x and y` implies `x or y`, and the other way round.
fn implied(alloc: Global, store: &mut Store) -> Result<String, StoreFault>
    requires { store.old.variables ≡ 2 }
{
    let x = store.variable(0)?;
    let y = store.variable(1)?;
    let both = store.and(x, y)?;
    let either = store.or(x, y)?;
    let one = store.implies(both, either)?;
    let another = store.implies(either, both)?;
    Ok(format!(in alloc; "{one} {another}")?)
}

/// Whether `x and y` is a diagram over two variables, and over one.
fn ordered(alloc: Global, store: &mut Store) -> Result<String, StoreFault>
    requires { store.old.variables ≡ 2 }
{
    let x = store.variable(0)?;
    let y = store.variable(1)?;
    let both = store.and(x, y)?;
    let frozen = store.freeze(both)?;
    let (two, one) = (frozen.ordered(2), frozen.ordered(1));
    Ok(format!(in alloc; "{two} {one}")?)
}

/// Which variables `y` depends on, and whether it uses only these when frozen, and only the other one.
fn read(alloc: Global, store: &mut Store) -> Result<String, StoreFault>
    requires { store.old.variables ≡ 2 }
{
    let y = store.variable(1)?;
    let reads = picked_text(alloc, Some(store.reads(y)?))?;
    let frozen = store.freeze(y)?;
    let (own, other) = (
        frozen.uses_only(&[false, true]),
        frozen.uses_only(&[true, false]),
    );
    Ok(format!(in alloc; "{reads} {own} {other}")?)
}

/// The reference of `x`, how many nodes are left after it is released, and the reference of `y` then.
fn released(alloc: Global, store: &mut Store) -> Result<String, StoreFault>
    requires { store.old.variables ≡ 2 }
{
    let mark = store.mark();
    let x = store.variable(0)?;
    store.release(mark);
    let left = store.mark();
    let y = store.variable(1)?;
    Ok(format!(in alloc; "{x} {left} {y}")?)
}

/// In a store of one node: how many nodes there are after `x`, what `y` is told, how many nodes there are then, and the
/// numbers of the store.
fn filled(alloc: Global) -> Result<String, Memory> {
    let mut store = Store::new(alloc, 2, 1)?;
    let first = store.variable(0).is_ok();
    let one = store.mark();
    let told = match store.variable(1) {
        Ok(_) => "made",
        Err(StoreFault::Nodes) => "nodes",
        Err(StoreFault::Memory) => return Err(Memory::Memory),
    };
    let left = store.mark();
    let (variables, limit) = (store.variables(), store.limit());
    Ok(format!(in alloc; "{first} {one}, {told} {left}, {variables} variables, limit {limit}")?)
}

/// The diagram of `x and y`.
fn both_frozen(alloc: Global) -> Result<Frozen, AllocError> {
    let mut nodes = Many::new(alloc);
    nodes.push(Triple {
        var: 1,
        lo: 0,
        hi: 1,
    })?;
    nodes.push(Triple {
        var: 0,
        lo: 0,
        hi: 2,
    })?;
    Ok(Frozen { nodes, root: 3 })
}

/// In a store of two nodes: `x and y`, which needs both, frozen again, how many nodes there are, and what `x` is told then.
fn frozen_whole(alloc: Global) -> Result<String, StoreFault> {
    let mut store = Store::new(alloc, 2, 2)?;
    let given = both_frozen(alloc)?;
    if !given.ordered(2) {
        return Ok(String::from_str(alloc, "not ordered")?);
    }
    let both = store.thaw(&given)?;
    let again = store.freeze(both)?;
    let text = frozen_text(alloc, &again)?;
    let many = store.mark();
    let told = match store.variable(0) {
        Ok(_) => "made",
        Err(StoreFault::Nodes) => "nodes",
        Err(StoreFault::Memory) => return Err(StoreFault::Memory),
    };
    Ok(format!(in alloc; "{text}, {many}, {told}")?)
}
