//! The relation between the valuations of a system and their next control states, beside the store that holds its references.

ghost use Rattle.std.specs.Prelude.{◌≡◌, ◌<◌, ◌≤◌, ◌^◌, IfOk, IsErrOf, length};
ghost use Rattle.rv_diagram.specs.Nodes.{Diagrams, IsOrderedOver};
ghost use Rattle.rv_diagram.specs.Several.{ArePartRefs, IsSchedule};
ghost use Rattle.rv_diagram.specs.Growing.{Extends};
ghost use Rattle.rv_symbolic.specs.Linked.{quantified};
ghost use Rattle.rv_proofs.specs.Systems.{System, IsSystem};
ghost use Rattle.rv_proofs.specs.Ranges.{IsControlSet};
ghost use Rattle.rv_proofs.specs.Reached.{HasNoIntegers};
ghost use Rattle.rv_proofs.specs.Cases.{IsCase, AreCases, IsImage, IsPreimage, IsInitialSet};
ghost use Rattle.rv_symbolic.specs.Represented.{HaveRefs, AreParts, parts_of, IsRelationOf};
ghost use Rattle.rv_symbolic.specs.Stepped.{IsProjected, IsAStep, IsJudged, AreNextStates};
ghost use Rattle.rv_symbolic.specs.Parted.{HasSides};
ghost use Rattle.rv_symbolic.specs.Words.{IsLeastOf, IsFalseIn, LeadsTo};

use crate::given::all_but;
use crate::schedule::schedule;
use crate::steps::AllowedSet;
use crate::{links, sides, steps, words};
use rv_base::{Many, Memory};
use rv_diagram::{Frozen, Part, Ref, Store, StoreFault};
use rv_proofs::Case;
use std::alloc::Global;

/// References of what a system is at a valuation.
#[derive(Debug, Drop)]
pub struct Parts {
    /// Whether the valuation is allowed.
    pub allowed: Ref,
    /// Whether the observer is true.
    pub observer: Ref,
    /// Whether the control state is initial.
    pub initial: Ref,
    /// What each state bit becomes.
    pub next: Many<Ref>,
}

/// One step from a set of control states.
#[derive(Debug, Drop)]
pub struct NextStates {
    /// The next control states of its allowed valuations.
    pub set: Frozen,
    /// Whether the observer is true at each of these valuations.
    pub good: bool,
}

/// What was found of one step: the next control states at the next copies, and whether all is good.
#[derive(Debug, Drop)]
struct Taken {
    copies: Frozen,
    good: bool,
}

/// A system of valuations as references in a store that is kept beside it: what the system is at a valuation, and the relation between a
/// valuation and its next control state, in parts that an image and a preimage each quantify in their own way. State bit i is
/// variable 2 i, and its next copy is variable 2 i + 1. Each call is given the store, of which the relation speaks as long as its list
/// only grows, and but for `step` leaves it as it was, after a fault too.
#[derive(Debug, Drop)]
pub struct Relation {
    parts: Parts,
    forth: Many<Part>,
    back: Many<Part>,
}

/// The next control states of the allowed valuations of a set, at the next copies.
fn take_step(
    store: &mut Store,
    parts: &Parts,
    links: &[Part],
    from: &Frozen,
) -> Result<Taken, StoreFault>
    requires parts { HaveRefs store.old parts.now }
    requires links { ArePartRefs store.old.nodes links.now }
    requires schedule { IsSchedule store.old.nodes links.now }
    requires from { IsOrderedOver store.old.variables from.now }
    ensures extends { Extends store.old store.new }
    ensures roomy { IsErrOf result StoreFault.Nodes → store.old.limit < 2 ^ (2 ^ store.old.variables) }
    ensures copies { IfOk result (λ t. IsProjected store.old.variables (quantified links.now) (IsAStep store.old parts.now links.now from.now) t.copies) }
    ensures good { IfOk result (λ t. IsJudged store.old parts.now from.now t.good) }
{
    let within = steps::allowed_within(store, parts.allowed, parts.observer, from)?;
    let next = store.image(within.all, links)?;
    let met = sides::is_met(store, within.bad)?;
    let copies = store.freeze(next)?;
    Ok(Taken { copies, good: !met })
}

/// The cases of a set, and what was built of them.
fn take_cases(
    alloc: Global,
    store: &mut Store,
    parts: &Parts,
    from: &Frozen,
) -> Result<Many<Case>, StoreFault>
    requires parts { HaveRefs store.old parts.now }
    requires from { IsOrderedOver store.old.variables from.now }
    ensures extends { Extends store.old store.new }
    ensures roomy { IsErrOf result StoreFault.Nodes → store.old.limit < 2 ^ (2 ^ store.old.variables) }
    ensures parted { IfOk result (HasSides store.old parts.now from.now) }
{
    let within = steps::allowed_within(store, parts.allowed, parts.observer, from)?;
    let good = store.and(within.all, parts.observer)?;
    Ok(sides::both_cases(alloc, store, good, within.bad)?)
}

impl Relation {
    /// The relation of a system whose parts are references in a store, in which what was built of it is left.
    pub fn new(alloc: Global, store: &mut Store, parts: Parts) -> Result<Relation, StoreFault>
        requires { HaveRefs store.old parts }
        ensures means { (s : System) → IsSystem s → AreParts s store.old parts → IfOk result (IsRelationOf s store.new) }
        ensures extends { Extends store.old store.new }
        ensures parts { IfOk result (λ r. parts_of r ≡ parts) }
        ensures roomy { IsErrOf result StoreFault.Nodes → store.old.limit < 2 ^ (2 ^ store.old.variables) }
    {
        let variables = store.variables();
        let bits = parts.next.len() as u32;
        let all_but_copies = all_but(alloc, variables, bits, 1)?;
        let all_but_bits = all_but(alloc, variables, bits, 0)?;
        let relations = links::relations(alloc, store, parts.next.as_slice())?;
        let forth = schedule(alloc, store, relations.as_slice(), all_but_copies)?;
        let back = schedule(alloc, store, relations.as_slice(), all_but_bits)?;
        Ok(Relation { parts, forth, back })
    }

    /// Exactly the next control states of the case's valuations from a set.
    pub fn image(&self, store: &mut Store, from: &Frozen, case: &Case) -> Result<Frozen, StoreFault>
        requires { (s : System) × IsRelationOf s store.old self.now × IsControlSet s from.now × IsCase s case.now }
        ensures exact { (s : System) → IsRelationOf s store.old self.now → IsControlSet s from.now → IsCase s case.now
            → IfOk result (IsImage s from.now case.now) }
        ensures same { store.new ≡ store.old }
        ensures roomy { IsErrOf result StoreFault.Nodes → store.old.limit < 2 ^ (2 ^ store.old.variables) }
    {
        let mark = store.mark();
        let links = self.forth.as_slice();
        let answer = steps::projected(store, from, &case.condition, links);
        store.release(mark);
        let copies = answer?;
        Ok(copies.lowered())
    }

    /// Exactly the control states of the case with a valuation that leads into a set.
    pub fn preimage(
        &self,
        store: &mut Store,
        to: &Frozen,
        case: &Case,
    ) -> Result<Frozen, StoreFault>
        requires { (s : System) × IsRelationOf s store.old self.now × IsControlSet s to.now × IsCase s case.now }
        ensures exact { (s : System) → IsRelationOf s store.old self.now → IsControlSet s to.now → IsCase s case.now
            → IfOk result (IsPreimage s to.now case.now) }
        ensures same { store.new ≡ store.old }
        ensures roomy { IsErrOf result StoreFault.Nodes → store.old.limit < 2 ^ (2 ^ store.old.variables) }
    {
        let bits = steps::copied(store, to)?;
        let copies = bits.raised();
        let mark = store.mark();
        let links = self.back.as_slice();
        let answer = steps::projected(store, &copies, &case.condition, links);
        store.release(mark);
        answer
    }

    /// One step from all allowed valuations of a set, in one image. What was built of it is left in the store, where the next
    /// step finds it again.
    pub fn step(&self, store: &mut Store, from: &Frozen) -> Result<NextStates, StoreFault>
        requires { (s : System) × IsRelationOf s store.old self.now × IsControlSet s from.now }
        ensures exact { (s : System) → IsRelationOf s store.old self.now → IsControlSet s from.now → IfOk result (AreNextStates s from.now) }
        ensures extends { Extends store.old store.new }
        ensures roomy { IsErrOf result StoreFault.Nodes → store.old.limit < 2 ^ (2 ^ store.old.variables) }
    {
        let links = self.forth.as_slice();
        let taken = take_step(store, &self.parts, links, from)?;
        let Taken { copies, good } = taken;
        Ok(NextStates {
            set: copies.lowered(),
            good,
        })
    }

    /// The same step. The store is left as it was.
    pub fn next_states(&self, store: &mut Store, from: &Frozen) -> Result<NextStates, StoreFault>
        requires { (s : System) × IsRelationOf s store.old self.now × IsControlSet s from.now }
        ensures exact { (s : System) → IsRelationOf s store.old self.now → IsControlSet s from.now → IfOk result (AreNextStates s from.now) }
        ensures same { store.new ≡ store.old }
        ensures roomy { IsErrOf result StoreFault.Nodes → store.old.limit < 2 ^ (2 ^ store.old.variables) }
    {
        let mark = store.mark();
        let answer = self.step(store, from);
        store.release(mark);
        answer
    }

    /// Exactly the initial control states.
    pub fn initial(&self, store: &Store) -> Result<Frozen, Memory>
        requires { (s : System) × IsRelationOf s store.now self.now }
        ensures { (s : System) → IsRelationOf s store.now self.now → IfOk result (IsInitialSet s) }
    {
        store.freeze(self.parts.initial)
    }

    /// The cases of a set of control states of a system without integers: the allowed valuations at which the observer is
    /// true, and the others, where there are some.
    pub fn cases(
        &self,
        alloc: Global,
        store: &mut Store,
        from: &Frozen,
    ) -> Result<Many<Case>, StoreFault>
        requires { (s : System) × IsRelationOf s store.old self.now × HasNoIntegers s × IsControlSet s from.now }
        ensures parted { (s : System) → IsRelationOf s store.old self.now → HasNoIntegers s → IsControlSet s from.now
            → IfOk result (AreCases s from.now) }
        ensures few { IfOk result (λ cases. length cases ≤ 2) }
        ensures same { store.new ≡ store.old }
        ensures roomy { IsErrOf result StoreFault.Nodes → store.old.limit < 2 ^ (2 ^ store.old.variables) }
    {
        let mark = store.mark();
        let answer = take_cases(alloc, store, &self.parts, from);
        store.release(mark);
        answer
    }

    /// The least allowed valuation of a set of control states at which the observer is false, with a truth value for each diagram
    /// variable. Next copies do not count, and those of the answer mean nothing.
    pub fn false_observer(
        &self,
        store: &mut Store,
        from: &Frozen,
    ) -> Result<Option<Many<bool>>, StoreFault>
        requires { (s : System) × IsRelationOf s store.old self.now × IsControlSet s from.now }
        ensures exact { (s : System) → IsRelationOf s store.old self.now → IsControlSet s from.now
            → IfOk result (IsLeastOf s (IsFalseIn s from.now)) }
        ensures same { store.new ≡ store.old }
        ensures roomy { IsErrOf result StoreFault.Nodes → store.old.limit < 2 ^ (2 ^ store.old.variables) }
    {
        let mark = store.mark();
        let allowed = self.parts.allowed;
        let observer = self.parts.observer;
        let answer = words::first_false(store, allowed, observer, from);
        store.release(mark);
        answer
    }

    /// The least allowed valuation of a set of control states whose next control state is that of a word, with a truth value for each
    /// diagram variable. Next copies do not count, and those of the answer mean nothing.
    pub fn leading(
        &self,
        store: &mut Store,
        from: &Frozen,
        to: &[bool],
    ) -> Result<Option<Many<bool>>, StoreFault>
        requires { (s : System) × IsRelationOf s store.old self.now × IsControlSet s from.now × (length to.now ≡ s.variables) }
        ensures exact { (s : System) → IsRelationOf s store.old self.now → IsControlSet s from.now
            → IfOk result (IsLeastOf s (LeadsTo s from.now to.now)) }
        ensures same { store.new ≡ store.old }
        ensures roomy { IsErrOf result StoreFault.Nodes → store.old.limit < 2 ^ (2 ^ store.old.variables) }
    {
        let mark = store.mark();
        let allowed = self.parts.allowed;
        let bits = self.parts.next.len() as u32;
        let links = self.forth.as_slice();
        let answer = words::first_leading(store, allowed, links, from, to, bits);
        store.release(mark);
        answer
    }

    /// How many state bits there are.
    pub fn state_bits(&self) -> u32
        requires { (s : System) × (d : Diagrams) × IsRelationOf s d self.now }
        ensures { result ≡ length (parts_of self.now).next }
    {
        self.parts.next.len() as u32
    }

    /// The references that it was made of.
    pub fn parts(&self) -> &Parts
        ensures { result.now ≡ parts_of self.now }
    {
        &self.parts
    }
}
