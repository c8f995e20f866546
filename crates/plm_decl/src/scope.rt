//! The names in scope, block by block.

ghost use Rattle.std.specs.Prelude.{◌≡◌, ◌∷◌, [], false, IfOk, OnOk};
ghost use Rattle.plm_decl.specs.Inner.Scope.{frames_of};
ghost use Rattle.plm_decl.specs.Scope.{frame, meant, found_here, path_in, is_external, is_fresh, with_name};

use crate::names::Item;
use crate::table::Table;
use std::alloc::{AllocError, Global};

/// The names of a block, and of the blocks around it.
#[derive(Drop)]
pub struct Scope<'s> {
    names: Table,
    path: Vec<u8>,
    external: bool,
    outer: Option<&'s Scope<'s>>,
}

impl<'s> Scope<'s> {
    /// A module's block, which has this path.
    pub fn outermost(alloc: Global, path: Vec<u8>) -> Scope<'s>
        ensures { frames_of result ≡ frame path.items false ∷ [] }
    {
        Scope {
            names: Table::new(alloc),
            path,
            external: false,
            outer: None,
        }
    }

    /// A block in another; or the block of an EXTERNAL procedure, in which nothing takes room.
    pub fn inside<'r: 's>(
        alloc: Global,
        outer: &'s Scope<'r>,
        path: Vec<u8>,
        external: bool,
    ) -> Scope<'s>
        ensures { frames_of result ≡ frame path.items external ∷ frames_of outer.now }
    {
        Scope {
            names: Table::new(alloc),
            path,
            external,
            outer: Some(outer),
        }
    }

    /// What the name stands for: the innermost declaration counts.
    pub fn item(&self, name: &[u8]) -> Option<Item>
        ensures { result ≡ meant name.now (frames_of self.now) }
    {
        match self.names.find(name) {
            Some(item) => Some(item),
            None => match self.outer {
                Some(outer) => outer.item(name),
                None => None,
            },
        }
    }

    /// What the name stands for in this block.
    pub fn here(&self, name: &[u8]) -> Option<Item>
        ensures { result ≡ found_here name.now (frames_of self.now) }
    {
        self.names.find(name)
    }

    /// The names of the blocks around it and its own, parted by dots.
    pub fn path(&self) -> &[u8]
        ensures { result.now ≡ path_in (frames_of self.now) }
    {
        self.path.as_slice()
    }

    /// Whether it is the block of an EXTERNAL procedure.
    pub fn is_external(&self) -> bool
        ensures { result ≡ is_external (frames_of self.now) }
    {
        self.external
    }

    /// Lets the name stand for an item in this block. False: it stands for one here, and keeps it.
    pub fn declare(&mut self, name: Vec<u8>, item: Item) -> Result<bool, AllocError>
        ensures fresh { IfOk result (λ fresh. fresh ≡ is_fresh name.items (frames_of self.old)) }
        ensures names { OnOk result (frames_of self.new ≡ with_name name.items item (frames_of self.old)) }
    {
        self.names.add(name, item)
    }
}
