//! The calls on terms. Each is exact on every valuation, and after a fault the store is as before.

ghost use Rattle.std.specs.Prelude.{◌≡◌, ◌≢◌, ◌⊎◌, ◌∷◌, pos, ℕ, ◌+◌, ◌*◌, ◌<◌, ◌≤◌, ◌^◌, ◌↔◌, ◌&&◌, true, false, List, [], length, if◌then◌else◌};
ghost use Rattle.std.specs.Prelude.{Some, None};
ghost use Rattle.std.specs.Prelude.{IfOk, OnOk, OnErr, IsErrOf, MatchOption, MatchBool};
ghost use Rattle.std.specs.Option.{ForSome};
ghost use Rattle.rv_rows.specs.Forms.{CanAdd, CanScale};
ghost use Rattle.rv_diagram.specs.declared.Triple.{Triple};
ghost use Rattle.rv_diagram.specs.Nodes.{Valuation, value_of, IsRef, Grows, Answers, choice};
ghost use Rattle.rv_diagram.specs.Counting.{count};
ghost use Rattle.rv_diagram.specs.Growing.{Extends};
ghost use Rattle.rv_terms.specs.Growing.{LacksRoom, GrownFor, LacksFor};
ghost use Rattle.rv_rows.specs.Arithmetic.{form_sum, form_times};
ghost use Rattle.rv_terms.specs.Parts.{part_at, form_at, holds, AreRefs, AreDisjoint, Covers, HaveWidth, IsTerm, IsTermOf, HasNoSingle, IsSingle, IsMet};
ghost use Rattle.rv_terms.specs.Parts.{IsAlone, term_width, Adds, HasForm, AreClasses, chosen_form, IsFilledBy, LacksFew};

use crate::parted::{Part, Term, add_part, both, copy_of, place_of};
use rv_base::{Many, Memory};
use rv_diagram::{Ref, Store, StoreFault};
use rv_rows::Form;
use std::alloc::Global;

/// The reference under which a term has a form: that of its part, or false.
fn under_of(parts: &[Part], form: &Form) -> Ref
    ensures found { (nodes : List Triple) → AreRefs nodes parts.now → IsRef nodes result }
    ensures means { (nodes : List Triple) (width : ℕ) (v : Valuation) → IsTerm nodes width parts.now
        → (value_of nodes result v ≡ true) ↔ (form_at nodes parts.now v ≡ form.now) }
{
    match place_of(parts, form) {
        Some(i) => parts[i].under,
        None => 0,
    }
}

/// `yes` where the test is true, else `no`: at most m nodes more for each valuation at which that is true.
fn fewest(store: &mut Store, test: Ref, yes: Ref, no: Ref) -> Result<Ref, StoreFault>
    requires test { IsRef store.old.nodes test }
    requires yes { IsRef store.old.nodes yes }
    requires no { IsRef store.old.nodes no }
    ensures ok { IfOk result (λ r. Answers store.old store.new (choice store.old.nodes test yes no) r) }
    ensures few { OnOk result (length store.new.nodes
        ≤ length store.old.nodes + store.old.variables * count store.old.variables (choice store.old.nodes test yes no)) }
    ensures roomy { IsErrOf result StoreFault.Nodes → store.old.limit < 2 ^ (2 ^ store.old.variables) }
    ensures room { IsErrOf result StoreFault.Nodes
        → store.old.limit < length store.old.nodes + store.old.variables * count store.old.variables (choice store.old.nodes test yes no) }
    ensures err { OnErr result (store.new ≡ store.old) }
{
    let _count = store.mark();
    store.ite(test, yes, no)
}

/// Adds the part of a choice that has a form, unless it is there or holds nowhere. It takes one call of the store, whose
/// answer stays, so that the list holds no more than the parts need.
fn add_form(
    alloc: Global,
    store: &mut Store,
    parts: &mut Many<Part>,
    test: Ref,
    yes: &[Part],
    no: &[Part],
    form: &Form,
) -> Result<(), StoreFault>
    requires test { IsRef store.old.nodes test }
    requires yes { IsTerm store.old.nodes (length form.now.coefficients) yes.now }
    requires no { IsTerm store.old.nodes (length form.now.coefficients) no.now }
    requires parts { AreClasses store.old.nodes (length form.now.coefficients) (chosen_form store.old.nodes test yes.now no.now) parts.old }
    ensures extends { Extends store.old store.new }
    ensures roomy { IsErrOf result StoreFault.Nodes → store.old.limit < 2 ^ (2 ^ store.old.variables) }
    ensures room { IsErrOf result StoreFault.Nodes → LacksFew store.old parts.old }
    ensures parts { OnOk result (AreClasses store.new.nodes (length form.now.coefficients) (chosen_form store.old.nodes test yes.now no.now) parts.new) }
    ensures has { OnOk result ((v : Valuation) → chosen_form store.old.nodes test yes.now no.now v ≡ form.now → HasForm parts.new form.now) }
    ensures stays { OnOk result ((j : ℕ) → j < length parts.old → HasForm parts.new (part_at parts.old j).form) }
    ensures growth { OnOk result (IsFilledBy store.old store.new parts.old parts.new) }
{
    if place_of(parts.as_slice(), form).is_some() {
        return Ok(());
    }
    let there = under_of(yes, form);
    let elsewhere = under_of(no, form);
    let under = match fewest(store, test, there, elsewhere) {
        Ok(under) => under,
        Err(fault) => return Err(fault),
    };
    if store.is_false(under) {
        return Ok(());
    }
    let form = copy_of(alloc, form)?;
    parts.push(Part { under, form })?;
    Ok(())
}

/// Adds the parts of a choice that have the forms of a list.
fn add_forms(
    alloc: Global,
    store: &mut Store,
    parts: &mut Many<Part>,
    test: Ref,
    yes: &[Part],
    no: &[Part],
    from: &[Part],
) -> Result<(), StoreFault>
    requires test { IsRef store.old.nodes test }
    requires yes { IsTerm store.old.nodes (term_width yes.now) yes.now }
    requires no { IsTerm store.old.nodes (term_width yes.now) no.now }
    requires widths { HaveWidth (term_width yes.now) from.now }
    requires parts { AreClasses store.old.nodes (term_width yes.now) (chosen_form store.old.nodes test yes.now no.now) parts.old }
    ensures extends { Extends store.old store.new }
    ensures roomy { IsErrOf result StoreFault.Nodes → store.old.limit < 2 ^ (2 ^ store.old.variables) }
    ensures room { IsErrOf result StoreFault.Nodes → LacksFew store.old parts.old }
    ensures parts { OnOk result (AreClasses store.new.nodes (term_width yes.now) (chosen_form store.old.nodes test yes.now no.now) parts.new) }
    ensures has { OnOk result ((k : ℕ) → k < length from.now → (v : Valuation)
        → chosen_form store.old.nodes test yes.now no.now v ≡ (part_at from.now k).form → HasForm parts.new (part_at from.now k).form) }
    ensures stays { OnOk result ((j : ℕ) → j < length parts.old → HasForm parts.new (part_at parts.old j).form) }
    ensures growth { OnOk result (IsFilledBy store.old store.new parts.old parts.new) }
{
    for part in from {
        match add_form(alloc, store, parts, test, yes, no, &part.form) {
            Ok(()) => {}
            Err(fault) => return Err(fault),
        }
    }
    Ok(())
}

/// Adds the sum of two parts' forms where both hold.
fn add_sum(
    alloc: Global,
    store: &mut Store,
    parts: &mut Many<Part>,
    a: &Part,
    b: &Part,
) -> Result<(), StoreFault>
    requires a { IsRef store.old.nodes a.now.under }
    requires b { IsRef store.old.nodes b.now.under }
    requires widths { length a.now.form.coefficients ≡ length b.now.form.coefficients }
    requires room { (v : Valuation) → value_of store.old.nodes a.now.under v ≡ true → value_of store.old.nodes b.now.under v ≡ true
        → CanAdd a.now.form b.now.form }
    requires parts { AreRefs store.old.nodes parts.old }
    ensures extends { Extends store.old store.new }
    ensures roomy { IsErrOf result StoreFault.Nodes → store.old.limit < 2 ^ (2 ^ store.old.variables) }
    ensures room { IsErrOf result StoreFault.Nodes → LacksFor (λ v. value_of store.old.nodes a.now.under v && value_of store.old.nodes b.now.under v)
        store.old }
    ensures refs { OnOk result (AreRefs store.new.nodes parts.new) }
    ensures growth { OnOk result (GrownFor (λ v. value_of store.old.nodes a.now.under v && value_of store.old.nodes b.now.under v) store.old store.new) }
    ensures added { OnOk result (Adds store.old.nodes store.new.nodes
        (λ v. value_of store.old.nodes a.now.under v && value_of store.old.nodes b.now.under v) (λ v. form_sum a.now.form b.now.form) parts.old parts.new) }
{
    let common = match both(store, a.under, b.under) {
        Ok(common) => common,
        Err(fault) => return Err(fault),
    };
    if store.is_false(common) {
        return Ok(());
    }
    let form = a.form.add(alloc, &b.form)?;
    add_part(store, parts, common, form)
}

/// Adds the sums of a part's form and a term's forms where the part holds.
fn add_sums(
    alloc: Global,
    store: &mut Store,
    parts: &mut Many<Part>,
    a: &Part,
    b: &[Part],
) -> Result<(), StoreFault>
    requires a { IsRef store.old.nodes a.now.under }
    requires b { AreRefs store.old.nodes b.now }
    requires disjoint { AreDisjoint store.old.nodes b.now }
    requires covers { Covers store.old.nodes b.now }
    requires widths { HaveWidth (length a.now.form.coefficients) b.now }
    requires room { (v : Valuation) → value_of store.old.nodes a.now.under v ≡ true → CanAdd a.now.form (form_at store.old.nodes b.now v) }
    requires parts { AreRefs store.old.nodes parts.old }
    ensures extends { Extends store.old store.new }
    ensures roomy { IsErrOf result StoreFault.Nodes → store.old.limit < 2 ^ (2 ^ store.old.variables) }
    ensures room { IsErrOf result StoreFault.Nodes → LacksFor (value_of store.old.nodes a.now.under) store.old }
    ensures refs { OnOk result (AreRefs store.new.nodes parts.new) }
    ensures growth { OnOk result (GrownFor (value_of store.old.nodes a.now.under) store.old store.new) }
    ensures added { OnOk result (Adds store.old.nodes store.new.nodes
        (value_of store.old.nodes a.now.under) (λ v. form_sum a.now.form (form_at store.old.nodes b.now v)) parts.old parts.new) }
{
    for other in b {
        match add_sum(alloc, store, parts, a, other) {
            Ok(()) => {}
            Err(fault) => return Err(fault),
        }
    }
    Ok(())
}

/// Adds the multiple of a part's form where the part holds, if it holds anywhere. No part has that form yet.
fn add_multiple(
    alloc: Global,
    store: &Store,
    parts: &mut Many<Part>,
    by: i128,
    part: &Part,
) -> Result<(), StoreFault>
    requires part { IsRef store.now.nodes part.now.under }
    requires room { (v : Valuation) → value_of store.now.nodes part.now.under v ≡ true → CanScale by part.now.form }
    requires fresh { (j : ℕ) → j < length parts.old → (part_at parts.old j).form ≢ form_times by part.now.form }
    ensures never { IsErrOf result StoreFault.Nodes → ⊥ }
    ensures added { OnOk result (Adds store.now.nodes store.now.nodes
        (value_of store.now.nodes part.now.under) (λ v. form_times by part.now.form) parts.old parts.new) }
    ensures forms { OnOk result ((j : ℕ) → j < length parts.new → ((j < length parts.old) × (part_at parts.new j ≡ part_at parts.old j))
        ⊎ ((part_at parts.new j).form ≡ form_times by part.now.form)) }
{
    if store.is_false(part.under) {
        return Ok(());
    }
    let form = part.form.scale(alloc, by)?;
    let under = part.under;
    parts.push(Part { under, form })?;
    Ok(())
}

/// The parts of a choice.
fn choose_in(
    alloc: Global,
    store: &mut Store,
    test: Ref,
    yes: &[Part],
    no: &[Part],
) -> Result<Many<Part>, StoreFault>
    requires test { IsRef store.old.nodes test }
    requires yes { IsTerm store.old.nodes (term_width yes.now) yes.now }
    requires no { IsTerm store.old.nodes (term_width yes.now) no.now }
    ensures extends { Extends store.old store.new }
    ensures roomy { IsErrOf result StoreFault.Nodes → store.old.limit < 2 ^ (2 ^ store.old.variables) }
    ensures room { IsErrOf result StoreFault.Nodes → store.old.limit < length store.old.nodes + store.old.variables * 2 ^ store.old.variables }
    ensures growth { OnOk result (length store.new.nodes ≤ length store.old.nodes + store.old.variables * 2 ^ store.old.variables) }
    ensures exact { IfOk result (λ parts. IsTermOf store.new.nodes (term_width yes.now) (chosen_form store.old.nodes test yes.now no.now) parts) }
{
    let mut parts = Many::new(alloc);
    match add_forms(alloc, store, &mut parts, test, yes, no, yes) {
        Ok(()) => {}
        Err(fault) => return Err(fault),
    }
    match add_forms(alloc, store, &mut parts, test, yes, no, no) {
        Ok(()) => Ok(parts),
        Err(fault) => Err(fault),
    }
}

/// The parts of a sum.
fn sum_in(
    alloc: Global,
    store: &mut Store,
    a: &[Part],
    b: &[Part],
) -> Result<Many<Part>, StoreFault>
    requires a { IsTerm store.old.nodes (term_width a.now) a.now }
    requires b { IsTerm store.old.nodes (term_width a.now) b.now }
    requires room { (v : Valuation) → CanAdd (form_at store.old.nodes a.now v) (form_at store.old.nodes b.now v) }
    ensures extends { Extends store.old store.new }
    ensures roomy { IsErrOf result StoreFault.Nodes → store.old.limit < 2 ^ (2 ^ store.old.variables) }
    ensures room { IsErrOf result StoreFault.Nodes → store.old.limit < length store.old.nodes + 2 * (store.old.variables * 2 ^ store.old.variables) }
    ensures growth { OnOk result (length store.new.nodes ≤ length store.old.nodes + 2 * (store.old.variables * 2 ^ store.old.variables)) }
    ensures exact { IfOk result (λ parts. IsTermOf store.new.nodes (term_width a.now)
        (λ v. form_sum (form_at store.old.nodes a.now v) (form_at store.old.nodes b.now v)) parts) }
{
    let mut parts = Many::new(alloc);
    for part in a {
        match add_sums(alloc, store, &mut parts, part, b) {
            Ok(()) => {}
            Err(fault) => return Err(fault),
        }
    }
    Ok(parts)
}

/// The parts of a multiple by another number than 0: as many as hold somewhere, since different forms have different
/// multiples.
fn scale_in(alloc: Global, store: &Store, by: i128, a: &[Part]) -> Result<Many<Part>, StoreFault>
    requires a { IsTerm store.now.nodes (term_width a.now) a.now }
    requires room { (v : Valuation) → CanScale by (form_at store.now.nodes a.now v) }
    requires some { by ≢ pos 0 }
    ensures never { IsErrOf result StoreFault.Nodes → ⊥ }
    ensures exact { IfOk result (λ parts. IsTermOf store.now.nodes (term_width a.now)
        (λ v. form_times by (form_at store.now.nodes a.now v)) parts) }
{
    let mut parts = Many::new(alloc);
    for part in a {
        add_multiple(alloc, store, &mut parts, by, part)?;
    }
    Ok(parts)
}

/// The parts of a term times 0: one, which always holds.
fn nothing_of(alloc: Global, a: &[Part]) -> Result<Many<Part>, Memory>
    requires { 0 < length a.now }
    ensures { IfOk result (λ parts. parts ≡ (record { under = 1; form = form_times (pos 0) (part_at a.now 0).form }) ∷ []) }
{
    let mut parts = Many::new(alloc);
    let form = a[0].form.scale(alloc, 0)?;
    parts.push(Part { under: 1, form })?;
    Ok(parts)
}

/// Whether two references are true at a common valuation. The store is as before.
fn meets(store: &mut Store, a: Ref, b: Ref) -> Result<bool, StoreFault>
    requires a { IsRef store.old.nodes a }
    requires b { IsRef store.old.nodes b }
    ensures same { store.new ≡ store.old }
    ensures roomy { IsErrOf result StoreFault.Nodes → store.old.limit < 2 ^ (2 ^ store.old.variables) }
    ensures room { IsErrOf result StoreFault.Nodes → LacksRoom 1 store.old }
    ensures ok { IfOk result (λ answer. MatchBool answer
        ((v : Valuation) × (value_of store.old.nodes a v ≡ true) × (value_of store.old.nodes b v ≡ true))
        ((v : Valuation) → value_of store.old.nodes a v ≡ true → value_of store.old.nodes b v ≡ true → ⊥)) }
{
    let mark = store.mark();
    match both(store, a, b) {
        Ok(found) => {
            let _count = store.mark();
            let empty = store.is_false(found);
            store.release(mark);
            Ok(!empty)
        }
        Err(fault) => Err(fault),
    }
}

/// The form at every valuation, as a term: one part, which always holds. The only error is want of memory.
pub fn leaf(alloc: Global, form: &Form) -> Result<Term, Memory>
    ensures exact { IfOk result (λ t. (nodes : List Triple) → IsTermOf nodes (length form.now.coefficients) (λ v. form.now) t.parts) }
{
    let mut parts = Many::new(alloc);
    let whole = copy_of(alloc, form)?;
    parts.push(Part {
        under: 1,
        form: whole,
    })?;
    Ok(Term { parts })
}

/// The term that has the forms of `yes` where the test is true, and those of `no` elsewhere. Both have one width. The list
/// grows by at most `m * 2^m` nodes, m being the number of variables, and Nodes never comes where there is room for these.
pub fn choose(
    alloc: Global,
    store: &mut Store,
    test: Ref,
    yes: &Term,
    no: &Term,
) -> Result<Term, StoreFault>
    requires test { IsRef store.old.nodes test }
    requires yes { IsTerm store.old.nodes (term_width yes.now.parts) yes.now.parts }
    requires no { IsTerm store.old.nodes (term_width yes.now.parts) no.now.parts }
    ensures exact { IfOk result (λ t. IsTermOf store.new.nodes (term_width yes.now.parts)
        (λ v. if value_of store.old.nodes test v then form_at store.old.nodes yes.now.parts v else form_at store.old.nodes no.now.parts v) t.parts) }
    ensures growth { OnOk result (length store.new.nodes ≤ length store.old.nodes + store.old.variables * 2 ^ store.old.variables) }
    ensures grows { OnOk result (Grows store.old store.new) }
    ensures roomy { IsErrOf result StoreFault.Nodes → store.old.limit < 2 ^ (2 ^ store.old.variables) }
    ensures room { IsErrOf result StoreFault.Nodes → store.old.limit < length store.old.nodes + store.old.variables * 2 ^ store.old.variables }
    ensures err { OnErr result (store.new ≡ store.old) }
{
    let mark = store.mark();
    match choose_in(
        alloc,
        store,
        test,
        yes.parts.as_slice(),
        no.parts.as_slice(),
    ) {
        Ok(parts) => {
            let _count = store.mark();
            Ok(Term { parts })
        }
        Err(fault) => {
            store.release(mark);
            Err(fault)
        }
    }
}

/// The sum of two terms of one width. The list grows by at most `2 m * 2^m` nodes, m being the number of variables, and Nodes
/// never comes where there is room for these: each common part and each part that it is joined to takes at most m nodes for
/// each valuation of the common part.
pub fn sum(alloc: Global, store: &mut Store, a: &Term, b: &Term) -> Result<Term, StoreFault>
    requires a { IsTerm store.old.nodes (term_width a.now.parts) a.now.parts }
    requires b { IsTerm store.old.nodes (term_width a.now.parts) b.now.parts }
    requires room { (v : Valuation) → CanAdd (form_at store.old.nodes a.now.parts v) (form_at store.old.nodes b.now.parts v) }
    ensures exact { IfOk result (λ t. IsTermOf store.new.nodes (term_width a.now.parts)
        (λ v. form_sum (form_at store.old.nodes a.now.parts v) (form_at store.old.nodes b.now.parts v)) t.parts) }
    ensures growth { OnOk result (length store.new.nodes ≤ length store.old.nodes + 2 * (store.old.variables * 2 ^ store.old.variables)) }
    ensures grows { OnOk result (Grows store.old store.new) }
    ensures roomy { IsErrOf result StoreFault.Nodes → store.old.limit < 2 ^ (2 ^ store.old.variables) }
    ensures room { IsErrOf result StoreFault.Nodes → store.old.limit < length store.old.nodes + 2 * (store.old.variables * 2 ^ store.old.variables) }
    ensures err { OnErr result (store.new ≡ store.old) }
{
    let mark = store.mark();
    match sum_in(alloc, store, a.parts.as_slice(), b.parts.as_slice()) {
        Ok(parts) => {
            let _count = store.mark();
            Ok(Term { parts })
        }
        Err(fault) => {
            store.release(mark);
            Err(fault)
        }
    }
}

/// The term times a number. The store is as before, and Nodes never comes.
pub fn scale(alloc: Global, store: &mut Store, by: i128, a: &Term) -> Result<Term, StoreFault>
    requires a { IsTerm store.old.nodes (term_width a.now.parts) a.now.parts }
    requires room { (v : Valuation) → CanScale by (form_at store.old.nodes a.now.parts v) }
    ensures exact { IfOk result (λ t. IsTermOf store.old.nodes (term_width a.now.parts)
        (λ v. form_times by (form_at store.old.nodes a.now.parts v)) t.parts) }
    ensures never { IsErrOf result StoreFault.Nodes → ⊥ }
    ensures same { store.new ≡ store.old }
{
    if by == 0 {
        let parts = nothing_of(alloc, a.parts.as_slice())?;
        return Ok(Term { parts });
    }
    let parts = scale_in(alloc, store, by, a.parts.as_slice())?;
    Ok(Term { parts })
}

/// The number of the one part that holds wherever a reference is true.
fn single_in(store: &mut Store, parts: &[Part], under: Ref) -> Result<Option<usize>, StoreFault>
    requires refs { AreRefs store.old.nodes parts.now }
    requires covers { Covers store.old.nodes parts.now }
    requires under { IsRef store.old.nodes under }
    ensures same { store.new ≡ store.old }
    ensures roomy { IsErrOf result StoreFault.Nodes → store.old.limit < 2 ^ (2 ^ store.old.variables) }
    ensures room { IsErrOf result StoreFault.Nodes → LacksRoom 1 store.old }
    ensures ok { IfOk result (λ found. MatchOption found
        (IsMet store.old.nodes parts.now under)
        (λ i. IsAlone store.old.nodes parts.now under (length parts.now) i)) }
{
    let mut found: Option<usize> = None;
    for (i, part) in parts.iter().enumerate() {
        if meets(store, part.under, under)? {
            if found.is_some() {
                return Ok(None);
            }
            found = Some(i);
        }
    }
    Ok(found)
}

/// The form that the term has wherever a reference is true. There is none exactly where the reference is false, or
/// is true at two valuations with different forms. The store is as before, and Nodes never comes where the list has room for
/// one call of the store, `2^(m + 1)` nodes.
pub fn single(
    alloc: Global,
    store: &mut Store,
    term: &Term,
    under: Ref,
) -> Result<Option<Form>, StoreFault>
    requires term { IsTerm store.old.nodes (term_width term.now.parts) term.now.parts }
    requires under { IsRef store.old.nodes under }
    ensures ok { IfOk result (λ found. MatchOption found
        (HasNoSingle store.old.nodes term.now.parts under)
        (IsSingle store.old.nodes term.now.parts under)) }
    ensures roomy { IsErrOf result StoreFault.Nodes → store.old.limit < 2 ^ (2 ^ store.old.variables) }
    ensures room { IsErrOf result StoreFault.Nodes → LacksRoom 1 store.old }
    ensures same { store.new ≡ store.old }
{
    match single_in(store, term.parts.as_slice(), under) {
        Ok(found) => form_of(alloc, term.parts.as_slice(), found),
        Err(fault) => Err(fault),
    }
}

/// The form of a part, if one was found.
fn form_of(alloc: Global, parts: &[Part], found: Option<usize>) -> Result<Option<Form>, StoreFault>
    requires { ForSome found (λ i. i < length parts.now) }
    ensures is { IfOk result (λ form. MatchOption found (form ≡ None) (λ i. form ≡ Some (part_at parts.now i).form)) }
    ensures roomy { IsErrOf result StoreFault.Nodes → ⊥ }
{
    match found {
        Some(i) => {
            let form = copy_of(alloc, &parts[i].form)?;
            Ok(Some(form))
        }
        None => Ok(None),
    }
}
