//! Partitions of control states.

ghost use Rattle.std.specs.Prelude.{◌≡◌, ◌↔◌, ◌⊎◌, ℕ, ◌<◌, ◌≤◌, ◌^◌, ◌∷◌, ◌++◌, [], length, take, slice_set, slice_index, OnOk, OnErr, IfOk, IsErrOf};
ghost use Rattle.rv_diagram.specs.Nodes.{Valuation, value_of};
ghost use Rattle.rv_diagram.specs.Room.{Lacks};
ghost use Rattle.rv_proofs.specs.Scopes.{IsIn};
ghost use Rattle.rv_split.specs.Partitions.{IsListed, IsStateSet, IsSingle, AreRising, AreBelow, AreParts, IsPartition, IsInSome, part_at};
ghost use Rattle.rv_split.specs.Splits.{IsSplitAt, IsCut};
ghost use Rattle.rv_split.specs.Modes.{OccurAtMost};
ghost use Rattle.rv_split.specs.Steps.{IsStepBy, AreKeptBy, IsRound};

use crate::SplitFault;
use crate::cutting::{Halves, copied, cut_by, divides, halves_by, variable};
use crate::freeing::first_free;
use rv_base::{Many, Memory};
use rv_diagram::{Frozen, Store, StoreFault};
use std::alloc::Global;

/// A partition of control states: pairwise disjoint sets, none of which is empty, and how many there may be. It keeps the allocator that it
/// was made with.
#[derive(Drop)]
pub struct Partition {
    /// The parts, each an ordered diagram over state variables.
    pub parts: Many<Frozen>,
    /// The state variables, in rising order.
    pub state: Many<u32>,
    /// How many parts there may be.
    pub limit: u32,
    alloc: Global,
}

/// The numbers in a list of their own.
fn listed(alloc: Global, numbers: &[u32]) -> Result<Many<u32>, Memory>
    ensures { IfOk result (λ m. m ≡ numbers.now) }
{
    let copy = numbers.iter().copied().collect(alloc)?;
    Ok(Many::from_vec(copy))
}

impl Partition {
    /// The partition with one part.
    fn whole(
        alloc: Global,
        store: &mut Store,
        reached: &Frozen,
        state: &[u32],
        limit: u32,
    ) -> Result<Partition, StoreFault>
        requires reached { IsStateSet store.old.variables state.now reached.now }
        requires some { (v : Valuation) × IsIn reached.now v }
        ensures same { store.new ≡ store.old }
        ensures room { IsErrOf result StoreFault.Nodes → Lacks 4 store.old }
        ensures roomy { IsErrOf result StoreFault.Nodes → store.old.limit < 2 ^ (2 ^ store.old.variables) }
        ensures parts { IfOk result (λ p. AreParts store.old.variables state.now p.parts) }
        ensures one { IfOk result (λ p. length p.parts ≡ 1) }
        ensures union { IfOk result (λ p. (v : Valuation) → IsInSome p.parts v ↔ IsIn reached.now v) }
        ensures state { IfOk result (λ p. p.state ≡ state.now) }
        ensures limit { IfOk result (λ p. p.limit ≡ limit) }
    {
        let part = copied(store, reached)?;
        let mut parts = Many::new(alloc);
        parts.push(part)?;
        let state = listed(alloc, state)?;
        Ok(Partition {
            parts,
            state,
            limit,
            alloc,
        })
    }

    /// Puts two sets in the place of a part, the second at the end.
    fn replace(&mut self, at: usize, halves: Halves) -> Result<(), Memory>
        requires { at < length self.old.parts }
        ensures parts { OnOk result (self.new.parts ≡ slice_set self.old.parts at halves.yes ++ halves.no ∷ []) }
        ensures state { self.new.state ≡ self.old.state }
        ensures limit { self.new.limit ≡ self.old.limit }
        ensures err { OnErr result (self.new ≡ self.old) }
    {
        let Halves { yes, no } = halves;
        self.parts.push(no)?;
        self.parts.set(at, yes);
        Ok(())
    }

    /// Divides a part by a variable of which it has both values, where there may be more parts.
    fn split_by(
        &mut self,
        store: &mut Store,
        at: usize,
        by: &Frozen,
        x: u32,
    ) -> Result<(), StoreFault>
        requires parts { AreParts store.old.variables self.old.state self.old.parts }
        requires few { length self.old.parts ≤ self.old.limit }
        requires at { at < length self.old.parts }
        requires by { IsStateSet store.old.variables self.old.state by.now }
        requires means { (v : Valuation) → value_of by.now.nodes by.now.root v ≡ v x }
        ensures same { store.new ≡ store.old }
        ensures room { IsErrOf result StoreFault.Nodes → Lacks 4 store.old }
        ensures roomy { IsErrOf result StoreFault.Nodes → store.old.limit < 2 ^ (2 ^ store.old.variables) }
        ensures step { OnOk result (IsStepBy self.old.limit self.old.parts self.new.parts at x) }
        ensures parts { OnOk result (AreParts store.old.variables self.old.state self.new.parts) }
        ensures few { OnOk result (length self.new.parts ≤ self.old.limit) }
        ensures state { self.new.state ≡ self.old.state }
        ensures limit { self.new.limit ≡ self.old.limit }
    {
        if self.parts.len() >= self.limit as usize {
            return Ok(());
        }
        let divided = divides(store, self.parts.at(at), by)?;
        if !divided {
            return Ok(());
        }
        let halves = cut_by(store, self.parts.at(at), by, x)?;
        self.replace(at, halves)?;
        Ok(())
    }

    /// Divides each part by a variable of which it has both values, as long as there may be more parts.
    fn split_all(&mut self, store: &mut Store, x: u32) -> Result<(), StoreFault>
        requires parts { AreParts store.old.variables self.old.state self.old.parts }
        requires few { length self.old.parts ≤ self.old.limit }
        requires x { x < store.old.variables }
        requires listed { IsListed self.old.state x }
        ensures same { store.new ≡ store.old }
        ensures room { IsErrOf result StoreFault.Nodes → Lacks 4 store.old }
        ensures roomy { IsErrOf result StoreFault.Nodes → store.old.limit < 2 ^ (2 ^ store.old.variables) }
        ensures kept { OnOk result (AreKeptBy x self.old.parts self.new.parts) }
        ensures round { OnOk result (IsRound self.old.limit self.new.parts x) }
        ensures parts { OnOk result (AreParts store.old.variables self.old.state self.new.parts) }
        ensures few { OnOk result (length self.new.parts ≤ self.old.limit) }
        ensures state { self.new.state ≡ self.old.state }
        ensures limit { self.new.limit ≡ self.old.limit }
    {
        let by = variable(self.alloc, x)?;
        let count = self.parts.len();
        for at in 0..count {
            self.split_by(store, at, &by, x)?;
        }
        Ok(())
    }

    /// Replaces the part with the number `location` by two, the first in its place and the second at the end: by its meet with the hint, a set
    /// of control states, and the rest where neither is empty, and otherwise by the first state variable of which it has both values.
    ///
    /// AtLimit comes exactly where there are as many parts as there may be. Otherwise Single comes exactly where the part has one control
    /// state, for which nothing is built; only want of memory may come in its place. Nodes comes where the store has no room for what is built
    /// on the way, never where it has room for four steps or its limit holds every function of its variables, and Memory where there is none.
    /// After a fault the partition is as before. The store is left as it was.
    pub fn split(
        &mut self,
        store: &mut Store,
        location: u32,
        hint: &Frozen,
    ) -> Result<(), SplitFault>
        requires partition { IsPartition store.old.variables self.old }
        requires location { location < length self.old.parts }
        requires hint { IsStateSet store.old.variables self.old.state hint.now }
        ensures split { OnOk result (IsSplitAt self.old.state hint.now self.old.parts self.new.parts location) }
        ensures partition { IsPartition store.old.variables self.new }
        ensures union { (v : Valuation) → IsInSome self.new.parts v ↔ IsInSome self.old.parts v }
        ensures state { self.new.state ≡ self.old.state }
        ensures limit { self.new.limit ≡ self.old.limit }
        ensures at_limit { IsErrOf result SplitFault.AtLimit ↔ (length self.old.parts ≡ self.old.limit) }
        ensures single { IsErrOf result SplitFault.Single → IsSingle self.old.state (part_at self.old.parts location) }
        ensures only_single { length self.old.parts < self.old.limit → IsSingle self.old.state (part_at self.old.parts location)
            → IsErrOf result SplitFault.Single ⊎ IsErrOf result SplitFault.Memory }
        ensures room { IsErrOf result SplitFault.Nodes → Lacks 4 store.old }
        ensures roomy { IsErrOf result SplitFault.Nodes → store.old.limit < 2 ^ (2 ^ store.old.variables) }
        ensures err { OnErr result (self.new ≡ self.old) }
        ensures same { store.new ≡ store.old }
    {
        let count = self.parts.len();
        let most = self.limit as usize;
        if count >= most {
            return Err(SplitFault::AtLimit);
        }
        let at = location as usize;
        let free = first_free(self.alloc, self.parts.at(at), self.state.as_slice())?;
        let x = match free {
            Some(x) => x,
            None => return Err(SplitFault::Single),
        };
        let halves = halves_by(self.alloc, store, self.parts.at(at), hint, x)?;
        self.replace(at, halves)?;
        Ok(())
    }
}

/// A partition of the control states in `reached`, of at most `limit` parts. `state` lists the state variables in rising order, and the first
/// `ticks` of them are the tick bits. Where at most `limit` different values of the tick bits occur in `reached`, no part holds states with two
/// of them; otherwise parts are divided by one tick bit after the other as long as there may be more.
///
/// Nodes comes where the store has no room for what is built on the way, never where it has room for four steps or its limit holds every
/// function of its variables, and Memory where there is none. The store is left as it was.
pub fn by_modes(
    alloc: Global,
    store: &mut Store,
    reached: &Frozen,
    state: &Many<u32>,
    ticks: u32,
    limit: u32,
) -> Result<Partition, StoreFault>
    requires rising { AreRising state.now }
    requires below { AreBelow store.old.variables state.now }
    requires reached { IsStateSet store.old.variables state.now reached.now }
    requires some { (v : Valuation) × IsIn reached.now v }
    requires ticks { ticks ≤ length state.now }
    requires limit { 0 < limit }
    ensures partition { IfOk result (λ p. IsPartition store.old.variables p) }
    ensures union { IfOk result (λ p. (v : Valuation) → IsInSome p.parts v ↔ IsIn reached.now v) }
    ensures modes { IfOk result (λ p. OccurAtMost (take ticks state.now) reached.now limit → (k : ℕ) → k < length p.parts
        → IsSingle (take ticks state.now) (part_at p.parts k)) }
    ensures state { IfOk result (λ p. p.state ≡ state.now) }
    ensures limit { IfOk result (λ p. p.limit ≡ limit) }
    ensures room { IsErrOf result StoreFault.Nodes → Lacks 4 store.old }
    ensures roomy { IsErrOf result StoreFault.Nodes → store.old.limit < 2 ^ (2 ^ store.old.variables) }
    ensures same { store.new ≡ store.old }
{
    let mut partition = Partition::whole(alloc, store, reached, state.as_slice(), limit)?;
    for i in 0..ticks {
        partition.split_all(store, *state.at(i as usize))?;
    }
    Ok(partition)
}
