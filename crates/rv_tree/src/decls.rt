//! The flows that a section of a node declares, and where each group of them begins.

ghost use Rattle.std.specs.Prelude.{◌≡◌, ◌++◌, ◌∷◌, ◌<◌, ◌≤◌, ◌↔◌, [], ℕ, List, length, take, slice_get, Some, IsTrue, IfOk, OnOk, OnErr};
ghost use Rattle.rv_tree.specs.Groups.{AreAlike, clock_at, flow, flows_of, kind_at};

use crate::tree::{Decl, Name, TypeName};
use rv_base::Many;
use std::alloc::{AllocError, Global};
use std::marker::Model;

/// The declarations of a section in the order of the text. To a contract it is the list of them. It keeps beside each
/// where its group begins, so that what the type of a long group means is looked up once.
#[derive(Debug, Drop)]
pub struct Decls {
    decls: Many<Decl>,
    firsts: Vec<usize>,
}

impl Model for Decls {
    ghost use Rattle.std.specs.Prelude.{List};
    ghost use Rattle.rv_tree.specs.declared.tree.Decl.{Decl};
    ghost use Rattle.rv_tree.specs.Groups.{AreGroups};

    ghost Value = { List Decl };

    ghost view = { λ d. d.decls };

    ghost invariant = { λ d. AreGroups d.firsts.items d.decls };
}

// Reading.
impl Decls {
    /// How many flows there are.
    pub fn len(&self) -> usize
        ensures { result ≡ length self.now }
    {
        self.decls.len()
    }

    /// Whether there is no flow.
    pub fn is_empty(&self) -> bool
        ensures { IsTrue result ↔ (self.now ≡ []) }
    {
        self.decls.is_empty()
    }

    /// All declarations, first to last.
    pub fn as_slice(&self) -> &[Decl]
        ensures { result.now ≡ self.now }
    {
        self.decls.as_slice()
    }

    /// The declaration with this number, counted from 0, which must be there.
    pub fn at(&self, index: usize) -> &Decl
        requires { index < length self.now }
        ensures value { slice_get self.now index ≡ Some result.now }
    {
        self.decls.at(index)
    }

    /// The number of the first flow in the group of the one with this number, which must be there. Both have one type
    /// and one clock.
    pub fn first_of_group(&self, index: usize) -> usize
        requires { index < length self.now }
        ensures within { result ≤ index }
        ensures same_kind { kind_at self.now result ≡ kind_at self.now index }
        ensures same_clock { clock_at self.now result ≡ clock_at self.now index }
    {
        self.firsts[index]
    }
}

// Making one.
impl Decls {
    /// One with no flow. It takes no memory yet.
    pub fn new(alloc: Global) -> Decls
        ensures { result ≡ [] }
    {
        Decls {
            decls: Many::new(alloc),
            firsts: Vec::new(alloc),
        }
    }

    /// Adds a flow, in the group that begins with the flow number `first`.
    fn push(&mut self, first: usize, decl: Decl) -> Result<(), AllocError>
        requires { AreAlike (self.old ++ decl ∷ []) first (length self.old) }
        ensures ok { OnOk result (self.new ≡ self.old ++ decl ∷ []) }
        ensures err { OnErr result (self.new ≡ self.old) }
    {
        self.firsts.push(first)?;
        let pushed = self.decls.push(decl);
        if pushed.is_err() {
            self.firsts.pop();
        }
        pushed
    }

    /// Adds the flows with these names as a group of this type, on this clock where there is one. Where memory runs out
    /// some of them may be there, the first in their order.
    pub fn push_group(
        &mut self,
        names: Many<Name>,
        kind: &TypeName,
        clock: &Option<Name>,
    ) -> Result<(), AllocError>
        ensures ok { OnOk result (self.new ≡ self.old ++ flows_of (names, kind.now) clock.now) }
        ensures err { OnErr result ((k : ℕ) × (self.new ≡ self.old ++ take k (flows_of (names, kind.now) clock.now))) }
    {
        let first = self.len();
        'each: for name in names.into_vec() {
            self.push(first, flow_of(kind, clock, name)?)?;
        }
        Ok(())
    }
}

/// The same name.
fn copied_name(name: &Name) -> Result<Name, AllocError>
    ensures { IfOk result (λ copy. copy ≡ name.now) }
{
    Ok(Name {
        text: name.text.clone()?,
        at: name.at,
    })
}

/// The same type.
fn copied_kind(kind: &TypeName) -> Result<TypeName, AllocError>
    ensures { IfOk result (λ copy. copy ≡ kind.now) }
{
    match kind {
        TypeName::Bool => Ok(TypeName::Bool),
        TypeName::Int => Ok(TypeName::Int),
        TypeName::Named(name) => Ok(TypeName::Named(copied_name(name)?)),
    }
}

/// The same clock, where there is one.
fn copied_clock(clock: &Option<Name>) -> Result<Option<Name>, AllocError>
    ensures { IfOk result (λ copy. copy ≡ clock.now) }
{
    match clock {
        Some(name) => Ok(Some(copied_name(name)?)),
        None => Ok(None),
    }
}

/// The declaration of a flow of this type, on this clock where it has one.
fn flow_of(kind: &TypeName, clock: &Option<Name>, name: Name) -> Result<Decl, AllocError>
    ensures { IfOk result (λ decl. decl ≡ flow kind.now clock.now name) }
{
    Ok(Decl {
        name,
        kind: copied_kind(kind)?,
        clock: copied_clock(clock)?,
    })
}
