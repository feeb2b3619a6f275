//! What is answered on partitions of control states over the variables 0 and 1, here x and y, or over fewer. A row that cannot be read, or that
//! is not such as the calls take, has no answer.

ghost use Rattle.std.specs.Prelude.{◌≡◌, ◌<◌, ◌≤◌, ℕ, List, IfOk, IfSome, length};
ghost use Rattle.rv_diagram.specs.Nodes.{Valuation};
ghost use Rattle.rv_proofs.specs.Scopes.{IsIn};
ghost use Rattle.rv_split.specs.Partitions.{AreBelow, AreRising, IsPartition, IsStateSet};

use crate::polyhedra::three;
use rv_base::{Many, Memory};
use rv_diagram::{Frozen, Store, StoreFault, Triple};
use rv_split::{Partition, SplitFault, by_modes};
use std::alloc::Global;

/// The most variables.
const MOST_BITS: u32 = 2;

/// The most nodes.
const MOST_NODES: u32 = 64;

/// The answer on a row of the kind `partition`: how many variables, how many nodes, the control states that are reached (`all`, or those at
/// which the variable with a number is true), how many tick bits, how many parts there may be, and splits with semicolons between them, each
/// the number of a part and a hint (as the reached ones, or `none`). After the start and after each split are told the parts of the control
/// states at which x and y are false, y alone is true, x alone is true, and both are.
pub fn partitioned(alloc: Global, fields: &str) -> Result<Option<String>, Memory> {
    let Some((bits, nodes, rest)) = three(fields) else {
        return Ok(None);
    };
    let Some((reached, ticks, rest)) = three(rest) else {
        return Ok(None);
    };
    let Some((limit, splits)) = rest.split_once('~') else {
        return Ok(None);
    };
    let (Ok(bits), Ok(nodes)) = (bits.parse::<u32>(), nodes.parse::<u32>()) else {
        return Ok(None);
    };
    let (Ok(ticks), Ok(limit)) = (ticks.parse::<u32>(), limit.parse::<u32>()) else {
        return Ok(None);
    };
    if bits > MOST_BITS || nodes > MOST_NODES || ticks > bits || limit == 0 {
        return Ok(None);
    }
    let sizes = Sizes {
        bits,
        nodes,
        ticks,
        limit,
    };
    started(alloc, sizes, reached, splits)
}

/// The numbers of a row.
#[derive(Clone, Copy, Drop)]
struct Sizes {
    /// How many variables.
    bits: u32,
    /// How many nodes there may be.
    nodes: u32,
    /// How many tick bits.
    ticks: u32,
    /// How many parts there may be.
    limit: u32,
}

fn started(
    alloc: Global,
    sizes: Sizes,
    reached: &str,
    splits: &str,
) -> Result<Option<String>, Memory>
    requires bits { sizes.bits ≤ 2 }
    requires nodes { sizes.nodes ≤ 64 }
    requires ticks { sizes.ticks ≤ sizes.bits }
    requires limit { 0 < sizes.limit }
{
    let state = first_numbers(alloc, sizes.bits)?;
    let Some(reached) = reached_in(alloc, reached, &state)? else {
        return Ok(None);
    };
    let mut store = Store::new(alloc, sizes.bits, sizes.nodes)?;
    let (ticks, limit) = (sizes.ticks, sizes.limit);
    match by_modes(alloc, &mut store, &reached, &state, ticks, limit) {
        Ok(partition) => told_splits(alloc, &mut store, partition, splits),
        Err(StoreFault::Nodes) => Ok(Some(String::from_str(alloc, "nodes")?)),
        Err(StoreFault::Memory) => Err(Memory::Memory),
    }
}

/// The numbers below one that is at most 2, in order.
fn first_numbers(alloc: Global, count: u32) -> Result<Many<u32>, Memory>
    requires { count ≤ 2 }
    ensures size { IfOk result (λ list. length list ≡ count) }
    ensures rising { IfOk result AreRising }
    ensures below { IfOk result (AreBelow count) }
{
    let mut numbers = Many::new(alloc);
    if count == 0 {
        return Ok(numbers);
    }
    numbers.push(0)?;
    if count == 1 {
        return Ok(numbers);
    }
    numbers.push(1)?;
    Ok(numbers)
}

/// All control states.
fn all_states(alloc: Global) -> Frozen
    ensures set { (m : ℕ) (state : List ℕ) → IsStateSet m state result }
    ensures some { (v : Valuation) × IsIn result v }
{
    Frozen {
        nodes: Many::new(alloc),
        root: 1,
    }
}

/// No control state.
fn no_states(alloc: Global) -> Frozen
    ensures { (m : ℕ) (state : List ℕ) → IsStateSet m state result }
{
    Frozen {
        nodes: Many::new(alloc),
        root: 0,
    }
}

/// The control states at which the variable with a number is true.
fn variable_in(alloc: Global, text: &str, state: &Many<u32>) -> Result<Option<Frozen>, Memory>
    ensures set { (m : ℕ) → AreBelow m state.now → IfOk result (λ o. IfSome o (IsStateSet m state.now)) }
    ensures some { IfOk result (λ o. IfSome o (λ set. (v : Valuation) × IsIn set v)) }
{
    let Ok(place) = text.parse::<usize>() else {
        return Ok(None);
    };
    let Some(var) = state.get(place) else {
        return Ok(None);
    };
    let mut nodes = Many::new(alloc);
    nodes.push(Triple {
        var: *var,
        lo: 0,
        hi: 1,
    })?;
    Ok(Some(Frozen { nodes, root: 2 }))
}

/// All control states, or those at which a variable is true.
fn reached_in(alloc: Global, text: &str, state: &Many<u32>) -> Result<Option<Frozen>, Memory>
    ensures set { (m : ℕ) → AreBelow m state.now → IfOk result (λ o. IfSome o (IsStateSet m state.now)) }
    ensures some { IfOk result (λ o. IfSome o (λ set. (v : Valuation) × IsIn set v)) }
{
    if text == "all" {
        return Ok(Some(all_states(alloc)));
    }
    variable_in(alloc, text, state)
}

/// All control states, those at which a variable is true, or none.
fn hint_in(alloc: Global, text: &str, state: &Many<u32>) -> Result<Option<Frozen>, Memory>
    ensures { (m : ℕ) → AreBelow m state.now → IfOk result (λ o. IfSome o (IsStateSet m state.now)) }
{
    if text == "none" {
        return Ok(Some(no_states(alloc)));
    }
    reached_in(alloc, text, state)
}

/// What becomes of the partition by splits in turn.
fn told_splits(
    alloc: Global,
    store: &mut Store,
    partition: Partition,
    splits: &str,
) -> Result<Option<String>, Memory>
    requires { IsPartition store.old.variables partition }
{
    let mut partition = partition;
    let mut text = parts_text(alloc, &partition.parts)?;
    for part in splits.split(';') {
        if part.trim().len() == 0 {
            return Ok(Some(text));
        }
        let Some(told) = told_split(alloc, store, &mut partition, part)? else {
            return Ok(None);
        };
        let parts = parts_text(alloc, &partition.parts)?;
        let more = format!(in alloc; "/ {told} {parts}")?;
        text.push_str(more.as_str())?;
    }
    Ok(Some(text))
}

/// What a split answers.
fn told_split(
    alloc: Global,
    store: &mut Store,
    partition: &mut Partition,
    text: &str,
) -> Result<Option<&'static str>, Memory>
    requires { IsPartition store.old.variables partition.old }
    ensures partition { IsPartition store.new.variables partition.new }
{
    let Some((location, hint)) = text.trim().split_once(' ') else {
        return Ok(None);
    };
    let Ok(location) = location.parse::<u32>() else {
        return Ok(None);
    };
    if location as usize >= partition.parts.len() {
        return Ok(None);
    }
    let Some(hint) = hint_in(alloc, hint, &partition.state)? else {
        return Ok(None);
    };
    match partition.split(store, location, &hint) {
        Ok(()) => Ok(Some("split")),
        Err(SplitFault::AtLimit) => Ok(Some("at limit")),
        Err(SplitFault::Single) => Ok(Some("single")),
        Err(SplitFault::Nodes) => Ok(Some("nodes")),
        Err(SplitFault::Memory) => Err(Memory::Memory),
    }
}

/// For each of four control states the number of its part.
fn parts_text(alloc: Global, parts: &Many<Frozen>) -> Result<String, Memory> {
    let mut text = String::new(alloc);
    for (x, y) in [(false, false), (false, true), (true, false), (true, true)] {
        let part = part_text(alloc, parts.as_slice(), x, y)?;
        text.push_str(part.as_str())?;
    }
    Ok(text)
}

/// The number of the first part that has a control state.
fn part_text(alloc: Global, parts: &[Frozen], x: bool, y: bool) -> Result<String, Memory> {
    for place in 0..parts.len() {
        if is_in(&parts[place], x, y) {
            return Ok(format!(in alloc; "{place} ")?);
        }
    }
    Ok(String::from_str(alloc, "- ")?)
}

/// Whether a set has a control state, down from its root.
fn is_in(set: &Frozen, x: bool, y: bool) -> bool {
    let mut at = set.root;
    for _ in 0..set.nodes.len() {
        if at < 2 {
            return at == 1;
        }
        let Some(node) = set.nodes.get(at as usize - 2) else {
            return false;
        };
        let side = if node.var == 0 { x } else { y };
        at = if side { node.hi } else { node.lo };
    }
    at == 1
}
