//! Which instance a call of an instance gives.

ghost use Rattle.std.specs.Prelude.{◌≡◌, ◌&&◌, ℕ, [], Some, cond, nat_eq, OnOk};
ghost use Rattle.rv_instances.specs.Callees.{callee_in};

use indexmap::IndexMap;
use rv_base::Memory;
use std::alloc::Global;
use std::marker::Model;

/// For calls of instances the numbers of the instances that they give. A call is found by its hash.
#[derive(Drop)]
pub struct Callees {
    numbers: IndexMap<(u32, u32), u32>,
}

impl Model for Callees {
    ghost use Rattle.std.specs.Prelude.{List, ℕ};

    ghost Value = { List ((ℕ × ℕ) × ℕ) };

    ghost view = { λ s. s.numbers.entries };
}

impl Callees {
    /// No calls.
    pub fn new(alloc: Global) -> Callees
        ensures { result ≡ [] }
    {
        Callees {
            numbers: IndexMap::new(alloc),
        }
    }

    /// The number of the instance that the call of an instance with this site gives.
    pub fn callee(&self, instance: u32, site: u32) -> Option<u32>
        ensures { result ≡ callee_in self.now instance site }
    {
        match self.numbers.get(&(instance, site)) {
            None => None,
            Some(number) => Some(*number),
        }
    }

    /// Tells which instance a call of an instance gives.
    pub fn tell(&mut self, instance: u32, site: u32, callee: u32) -> Result<(), Memory>
        ensures { OnOk result ((i s : ℕ) → callee_in self.new i s ≡ cond (nat_eq instance i && nat_eq site s) (Some callee) (callee_in self.old i s)) }
    {
        let _ = self.numbers.insert((instance, site), callee)?;
        Ok(())
    }
}
