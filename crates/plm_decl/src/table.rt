//! Declared names and what they stand for.

ghost use Rattle.std.specs.Prelude.{◌≡◌, [], not, is_some, IfOk, OnOk};
ghost use Rattle.plm_decl.specs.Inner.Scope.{entries_of};
ghost use Rattle.plm_decl.specs.Scope.{found_in, with_entry};

use crate::names::Item;
use indexmap::IndexMap;
use std::alloc::{AllocError, Global};

/// Names in normal form, in order of declaration, and what each stands for.
#[derive(Drop)]
pub struct Table {
    names: IndexMap<Vec<u8>, Item>,
}

impl Table {
    /// A table with no name in it. It takes no memory.
    pub fn new(alloc: Global) -> Table
        ensures { entries_of result ≡ [] }
    {
        Table {
            names: IndexMap::new(alloc),
        }
    }

    /// What the name stands for, if it is there.
    pub fn find(&self, name: &[u8]) -> Option<Item>
        ensures { result ≡ found_in name.now (entries_of self.now) }
    {
        self.names.get(name).copied()
    }

    /// Puts a name after the others. False: it is there, and keeps what it stands for.
    pub fn add(&mut self, name: Vec<u8>, item: Item) -> Result<bool, AllocError>
        ensures fresh { IfOk result (λ fresh. fresh ≡ not (is_some (found_in name.items (entries_of self.old)))) }
        ensures entries { OnOk result (entries_of self.new ≡ with_entry name.items item (entries_of self.old)) }
    {
        if self.names.contains_key(name.as_slice()) {
            return Ok(false);
        }
        self.names.insert(name, item)?;
        Ok(true)
    }
}
