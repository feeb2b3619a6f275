//! A space of names, found by their hashes.

ghost use Rattle.std.specs.Prelude.{◌≡◌, ◌<◌, ◌≤◌, [], length, IfOk, IfSome, OnErr, is_some, not};
ghost use Rattle.rv_tree.specs.Places.{index_of};
ghost use Rattle.rv_types.specs.Names.{texts, is_declared, stands_before};
ghost use Rattle.rv_types.specs.Firsts.{with_name};

use indexmap::IndexMap;
use rv_base::{Memory, Text};
use rv_tree::Name;
use std::alloc::Global;
use std::marker::Model;

/// Different names, each with the offset of its first declaration, in the order of these.
#[derive(Drop)]
pub struct Space {
    names: IndexMap<Text, u32>,
}

impl Model for Space {
    ghost use Rattle.std.specs.Prelude.{List, map};
    ghost use Rattle.rv_tree.specs.declared.tree.Name.{Name};
    ghost use Rattle.rv_types.specs.Entries.{named};

    ghost Value = { List Name };

    ghost view = { λ s. map named s.names.entries };
}

impl Space {
    /// No names.
    pub fn new(alloc: Global) -> Space
        ensures { result ≡ [] }
    {
        Space {
            names: IndexMap::new(alloc),
        }
    }

    /// The number of a name, where it is among them.
    pub fn number(&self, name: &Text) -> Option<usize>
        ensures found { is_some result ≡ is_declared self.now name.now }
        ensures number { IfSome result (λ k. k ≡ index_of (texts self.now) name.now) }
        ensures within { IfSome result (λ k. k < length self.now) }
    {
        self.names.get_index_of(name)
    }

    /// The number of a name, or how many names there are where it is not among them.
    pub fn index(&self, name: &Text) -> usize
        ensures number { result ≡ index_of (texts self.now) name.now }
        ensures within { result ≤ length self.now }
    {
        match self.number(name) {
            None => self.names.len(),
            Some(number) => number,
        }
    }

    /// Whether a name is among them.
    pub fn has(&self, name: &Text) -> bool
        ensures { result ≡ is_declared self.now name.now }
    {
        self.number(name).is_some()
    }

    /// Whether a name is among them, its first declaration before an offset.
    pub fn is_before(&self, at: u32, name: &Text) -> bool
        ensures { result ≡ stands_before at self.now name.now }
    {
        match self.names.get(name) {
            None => false,
            Some(first) => *first < at,
        }
    }

    /// Declares a name, and tells whether it is new. A name that is there stays as it is.
    pub fn declare(&mut self, name: &Name) -> Result<bool, Memory>
        ensures new { IfOk result (λ new. new ≡ not (is_declared self.old name.now.text)) }
        ensures names { IfOk result (λ new. self.new ≡ with_name self.old name.now) }
        ensures err { OnErr result (self.new ≡ self.old) }
    {
        match self.names.get(&name.text) {
            Some(_) => Ok(false),
            None => {
                self.names.insert(name.text.clone()?, name.at)?;
                Ok(true)
            }
        }
    }
}
