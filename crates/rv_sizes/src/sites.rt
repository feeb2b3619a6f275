//! Sets of sites.

ghost use Rattle.std.specs.Prelude.{◌≡◌, [], IfOk, not};
ghost use Rattle.rv_types.specs.Variables.{is_in};
ghost use Rattle.rv_sizes.specs.Memories.{with_site};

use indexmap::IndexSet;
use rv_base::Memory;
use std::alloc::Global;
use std::marker::Model;

/// Different sites, in the order in which they came. A site is found by its hash.
#[derive(Drop)]
pub struct Sites {
    sites: IndexSet<u64>,
}

impl Model for Sites {
    ghost use Rattle.std.specs.Prelude.{List, ℕ};

    ghost Value = { List ℕ };

    ghost view = { λ s. s.sites.keys };
}

impl Sites {
    /// No sites.
    pub fn new(alloc: Global) -> Sites
        ensures { result ≡ [] }
    {
        Sites {
            sites: IndexSet::new(alloc),
        }
    }

    /// Puts a site after the others, and tells whether it is new. A site that is there stays where it is.
    pub fn add(&mut self, site: u64) -> Result<bool, Memory>
        ensures new { IfOk result (λ new. new ≡ not (is_in self.old site)) }
        ensures sites { IfOk result (λ new. self.new ≡ with_site self.old site) }
    {
        let (_, new) = self.sites.insert_full(site)?;
        Ok(new)
    }
}
