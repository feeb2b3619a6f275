//! Sets of control states in a store, which is left as it was.

ghost use Rattle.std.specs.Prelude.{◌≡◌, ◌⊎◌, ℕ, ◌<◌, ◌^◌, ◌&&◌, not, List, IfOk, IsErrOf, MatchBool};
ghost use Rattle.rv_diagram.specs.Nodes.{Valuation, value_of, IsRef, IsMeant, IsOrderedOver};
ghost use Rattle.rv_diagram.specs.Growing.{Extends};
ghost use Rattle.rv_diagram.specs.Room.{Lacks};
ghost use Rattle.rv_proofs.specs.Scopes.{IsIn};
ghost use Rattle.rv_split.specs.Partitions.{IsListed, IsStateSet};
ghost use Rattle.rv_split.specs.Splits.{IsDivided, IsEven, IsCut};
ghost use Rattle.rv_split.specs.Steps.{IsMet};

use rv_base::{Many, Memory};
use rv_diagram::{Frozen, Ref, Store, StoreFault, Triple};
use std::alloc::Global;

/// A set by a test: where the test is true, and the rest.
#[derive(Debug, Drop)]
struct Sides {
    yes: Ref,
    no: Ref,
}

/// The two sets that a set becomes.
#[derive(Debug, Drop)]
pub struct Halves {
    /// Where the test is true.
    pub yes: Frozen,
    /// The rest.
    pub no: Frozen,
}

/// Whether some valuation makes it true.
fn is_met(store: &Store, a: Ref) -> Result<bool, Memory>
    requires { IsRef store.now.nodes a }
    ensures { IfOk result (λ met. IsMet store.now.nodes a met) }
{
    match store.pick(a)? {
        Some(_) => Ok(true),
        None => Ok(false),
    }
}

/// Both sides of a set by a test, with what was built of them.
fn cut_sides(store: &mut Store, set: &Frozen, test: &Frozen) -> Result<Sides, StoreFault>
    requires set { IsOrderedOver store.old.variables set.now }
    requires test { IsOrderedOver store.old.variables test.now }
    ensures extends { Extends store.old store.new }
    ensures room { IsErrOf result StoreFault.Nodes → Lacks 4 store.old }
    ensures roomy { IsErrOf result StoreFault.Nodes → store.old.limit < 2 ^ (2 ^ store.old.variables) }
    ensures yes { IfOk result (λ s. IsMeant store.new.nodes
        (λ v. value_of set.now.nodes set.now.root v && value_of test.now.nodes test.now.root v) s.yes) }
    ensures no { IfOk result (λ s. IsMeant store.new.nodes
        (λ v. value_of set.now.nodes set.now.root v && not (value_of test.now.nodes test.now.root v)) s.no) }
{
    let whole = store.thaw(set)?;
    let by = store.thaw(test)?;
    let never = store.constant(false);
    let yes = store.ite(by, whole, never)?;
    let no = store.ite(by, never, whole)?;
    Ok(Sides { yes, no })
}

/// Whether a test divides a set, with what was built of it.
fn divides_in(store: &mut Store, set: &Frozen, test: &Frozen) -> Result<bool, StoreFault>
    requires set { IsOrderedOver store.old.variables set.now }
    requires test { IsOrderedOver store.old.variables test.now }
    ensures extends { Extends store.old store.new }
    ensures room { IsErrOf result StoreFault.Nodes → Lacks 4 store.old }
    ensures roomy { IsErrOf result StoreFault.Nodes → store.old.limit < 2 ^ (2 ^ store.old.variables) }
    ensures exact { IfOk result (λ yes. MatchBool yes (IsDivided set.now (value_of test.now.nodes test.now.root))
        (IsEven set.now (value_of test.now.nodes test.now.root))) }
{
    let both = cut_sides(store, set, test)?;
    let here = is_met(store, both.yes)?;
    let there = is_met(store, both.no)?;
    if here { Ok(there) } else { Ok(false) }
}

/// Whether a test is true at one valuation of a set and false at another. If not, it has one value throughout.
pub fn divides(store: &mut Store, set: &Frozen, test: &Frozen) -> Result<bool, StoreFault>
    requires set { IsOrderedOver store.old.variables set.now }
    requires test { IsOrderedOver store.old.variables test.now }
    ensures same { store.new ≡ store.old }
    ensures room { IsErrOf result StoreFault.Nodes → Lacks 4 store.old }
    ensures roomy { IsErrOf result StoreFault.Nodes → store.old.limit < 2 ^ (2 ^ store.old.variables) }
    ensures exact { IfOk result (λ yes. MatchBool yes (IsDivided set.now (value_of test.now.nodes test.now.root))
        (IsEven set.now (value_of test.now.nodes test.now.root))) }
{
    let mark = store.mark();
    let answer = divides_in(store, set, test);
    store.release(mark);
    answer
}

/// The two sets that a set becomes by a test, with what was built of them.
fn cut_in(store: &mut Store, set: &Frozen, test: &Frozen) -> Result<Halves, StoreFault>
    requires set { IsOrderedOver store.old.variables set.now }
    requires test { IsOrderedOver store.old.variables test.now }
    requires divided { IsDivided set.now (value_of test.now.nodes test.now.root) }
    ensures extends { Extends store.old store.new }
    ensures room { IsErrOf result StoreFault.Nodes → Lacks 4 store.old }
    ensures roomy { IsErrOf result StoreFault.Nodes → store.old.limit < 2 ^ (2 ^ store.old.variables) }
    ensures cut { IfOk result (λ h. IsCut set.now (value_of test.now.nodes test.now.root) h.yes h.no) }
    ensures states { (state : List ℕ) → IsStateSet store.old.variables state set.now → IsStateSet store.old.variables state test.now
        → IfOk result (λ h. IsStateSet store.old.variables state h.yes × IsStateSet store.old.variables state h.no) }
{
    let both = cut_sides(store, set, test)?;
    let yes = store.freeze(both.yes)?;
    let no = store.freeze(both.no)?;
    Ok(Halves { yes, no })
}

/// The two sets that a set becomes by a test that divides it.
pub fn cut(store: &mut Store, set: &Frozen, test: &Frozen) -> Result<Halves, StoreFault>
    requires set { IsOrderedOver store.old.variables set.now }
    requires test { IsOrderedOver store.old.variables test.now }
    requires divided { IsDivided set.now (value_of test.now.nodes test.now.root) }
    ensures same { store.new ≡ store.old }
    ensures room { IsErrOf result StoreFault.Nodes → Lacks 4 store.old }
    ensures roomy { IsErrOf result StoreFault.Nodes → store.old.limit < 2 ^ (2 ^ store.old.variables) }
    ensures cut { IfOk result (λ h. IsCut set.now (value_of test.now.nodes test.now.root) h.yes h.no) }
    ensures states { (state : List ℕ) → IsStateSet store.old.variables state set.now → IsStateSet store.old.variables state test.now
        → IfOk result (λ h. IsStateSet store.old.variables state h.yes × IsStateSet store.old.variables state h.no) }
{
    let mark = store.mark();
    let answer = cut_in(store, set, test);
    store.release(mark);
    answer
}

/// The set of the valuations at which a variable is true.
pub fn variable(alloc: Global, x: u32) -> Result<Frozen, Memory>
    ensures means { IfOk result (λ f. (v : Valuation) → value_of f.nodes f.root v ≡ v x) }
    ensures states { IfOk result (λ f. (m : ℕ) (state : List ℕ) → x < m → IsListed state x → IsStateSet m state f) }
{
    let mut nodes = Many::new(alloc);
    nodes.push(Triple {
        var: x,
        lo: 0,
        hi: 1,
    })?;
    Ok(Frozen { nodes, root: 2 })
}

/// A copy of a set.
fn copied_in(store: &mut Store, set: &Frozen) -> Result<Frozen, StoreFault>
    requires { IsOrderedOver store.old.variables set.now }
    ensures extends { Extends store.old store.new }
    ensures room { IsErrOf result StoreFault.Nodes → Lacks 4 store.old }
    ensures roomy { IsErrOf result StoreFault.Nodes → store.old.limit < 2 ^ (2 ^ store.old.variables) }
    ensures means { IfOk result (λ f. (v : Valuation) → value_of f.nodes f.root v ≡ value_of set.now.nodes set.now.root v) }
    ensures states { (state : List ℕ) → IsStateSet store.old.variables state set.now → IfOk result (λ f. IsStateSet store.old.variables state f) }
{
    let r = store.thaw(set)?;
    Ok(store.freeze(r)?)
}

/// A copy of a set.
pub fn copied(store: &mut Store, set: &Frozen) -> Result<Frozen, StoreFault>
    requires { IsOrderedOver store.old.variables set.now }
    ensures same { store.new ≡ store.old }
    ensures room { IsErrOf result StoreFault.Nodes → Lacks 4 store.old }
    ensures roomy { IsErrOf result StoreFault.Nodes → store.old.limit < 2 ^ (2 ^ store.old.variables) }
    ensures means { IfOk result (λ f. (v : Valuation) → value_of f.nodes f.root v ≡ value_of set.now.nodes set.now.root v) }
    ensures states { (state : List ℕ) → IsStateSet store.old.variables state set.now → IfOk result (λ f. IsStateSet store.old.variables state f) }
{
    let mark = store.mark();
    let answer = copied_in(store, set);
    store.release(mark);
    answer
}

/// The two sets that a set becomes: by the hint where it divides the set, and else by a variable that does.
pub fn halves_by(
    alloc: Global,
    store: &mut Store,
    set: &Frozen,
    hint: &Frozen,
    x: u32,
) -> Result<Halves, StoreFault>
    requires set { IsOrderedOver store.old.variables set.now }
    requires hint { IsOrderedOver store.old.variables hint.now }
    requires x { x < store.old.variables }
    requires divided { IsDivided set.now (λ v. v x) }
    ensures same { store.new ≡ store.old }
    ensures room { IsErrOf result StoreFault.Nodes → Lacks 4 store.old }
    ensures roomy { IsErrOf result StoreFault.Nodes → store.old.limit < 2 ^ (2 ^ store.old.variables) }
    ensures cut { IfOk result (λ h. IsCut set.now (value_of hint.now.nodes hint.now.root) h.yes h.no
        ⊎ (IsEven set.now (value_of hint.now.nodes hint.now.root) × IsCut set.now (λ v. v x) h.yes h.no)) }
    ensures states { (state : List ℕ) → IsStateSet store.old.variables state set.now → IsStateSet store.old.variables state hint.now → IsListed state x
        → IfOk result (λ h. IsStateSet store.old.variables state h.yes × IsStateSet store.old.variables state h.no) }
{
    if divides(store, set, hint)? {
        return cut(store, set, hint);
    }
    let by = variable(alloc, x)?;
    cut_by(store, set, &by, x)
}

/// The two sets that a set becomes by a variable that divides it, of which the set is given.
pub fn cut_by(store: &mut Store, set: &Frozen, by: &Frozen, x: u32) -> Result<Halves, StoreFault>
    requires set { IsOrderedOver store.old.variables set.now }
    requires by { IsOrderedOver store.old.variables by.now }
    requires means { (v : Valuation) → value_of by.now.nodes by.now.root v ≡ v x }
    requires divided { IsDivided set.now (λ v. v x) }
    ensures same { store.new ≡ store.old }
    ensures room { IsErrOf result StoreFault.Nodes → Lacks 4 store.old }
    ensures roomy { IsErrOf result StoreFault.Nodes → store.old.limit < 2 ^ (2 ^ store.old.variables) }
    ensures cut { IfOk result (λ h. IsCut set.now (λ v. v x) h.yes h.no) }
    ensures states { (state : List ℕ) → IsStateSet store.old.variables state set.now → IsStateSet store.old.variables state by.now
        → IfOk result (λ h. IsStateSet store.old.variables state h.yes × IsStateSet store.old.variables state h.no) }
{
    cut(store, set, by)
}
