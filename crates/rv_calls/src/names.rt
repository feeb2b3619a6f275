//! Names and their numbers.

ghost use Rattle.std.specs.Prelude.{◌≡◌, ◌<◌, ◌≤◌, [], length, IfOk, IfSome, OnErr, is_some, not};
ghost use Rattle.rv_tree.specs.Places.{is_among, index_of};
ghost use Rattle.rv_calls.specs.Numbering.{with_name};

use indexmap::IndexSet;
use rv_base::{Memory, Text};
use std::alloc::Global;
use std::marker::Model;

/// Different names, each with its number: how many came before it. A name is found by its hash.
#[derive(Drop)]
pub struct Names {
    names: IndexSet<Text>,
}

impl Model for Names {
    ghost use Rattle.std.specs.Prelude.{List, ℕ};

    ghost Value = { List (List ℕ) };

    ghost view = { λ s. s.names.keys };
}

impl Names {
    /// No names.
    pub fn new(alloc: Global) -> Names
        ensures { result ≡ [] }
    {
        Names {
            names: IndexSet::new(alloc),
        }
    }

    /// The number of a name, where it is among them.
    pub fn number(&self, name: &Text) -> Option<usize>
        ensures found { is_some result ≡ is_among self.now name.now }
        ensures number { IfSome result (λ k. k ≡ index_of self.now name.now) }
        ensures within { IfSome result (λ k. k < length self.now) }
    {
        self.names.get_index_of(name)
    }

    /// The number of a name, or that of all names where it is not among them.
    pub fn place(&self, name: &Text) -> usize
        ensures is { result ≡ index_of self.now name.now }
        ensures within { result ≤ length self.now }
    {
        match self.number(name) {
            Some(number) => number,
            None => self.len(),
        }
    }

    /// How many there are.
    pub fn len(&self) -> usize
        ensures { result ≡ length self.now }
    {
        self.names.len()
    }

    /// Puts a name after the others, and tells whether it is new. A name that is there stays where it is.
    pub fn add(&mut self, name: &Text) -> Result<bool, Memory>
        ensures new { IfOk result (λ new. new ≡ not (is_among self.old name.now)) }
        ensures names { IfOk result (λ new. self.new ≡ with_name self.old name.now) }
        ensures err { OnErr result (self.new ≡ self.old) }
    {
        let (_, new) = self.names.insert_full(name.clone()?)?;
        Ok(new)
    }
}
