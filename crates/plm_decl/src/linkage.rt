//! Names that several modules have: PUBLIC and EXTERNAL.

ghost use Rattle.std.specs.Prelude.{◌≡◌, OnOk};
ghost use Rattle.plm_decl.specs.Inner.Scope.{frames_of};
ghost use Rattle.plm_decl.specs.Scope.{found_in};
ghost use Rattle.plm_decl.specs.Inner.Resolver.{known_of};
ghost use Rattle.plm_decl.specs.Linkage as spec;

use crate::found::Found;
use crate::names::Item;
use crate::resolver::{External, Resolver};
use crate::scope::Scope;
use plm_syntax::{Linkage, Position};
use std::alloc::AllocError;
use word86::Number;

impl Resolver {
    /// The fault of this number at a declaration.
    pub fn found_at(&self, item: Item, number: Number) -> Found
        ensures { result ≡ spec.found_item (known_of self.now) item number }
    {
        let at = match item {
            Item::Variable(variable) => self
                .variables
                .get(variable)
                .map(|variable| (variable.module, variable.place)),
            Item::Procedure(procedure) => self
                .procedures
                .get(procedure)
                .map(|procedure| (procedure.module, procedure.place)),
        };
        let (module, place) = at.unwrap_or((0, Position { token: 0, line: 1 }));
        Found {
            module,
            place,
            number,
        }
    }

    /// Keeps a PUBLIC name, given in normal form; a second one of its name is a fault at the first.
    fn put_public(&mut self, name: &[u8], item: Item) -> Result<(), AllocError>
        ensures { OnOk result (known_of self.new ≡ spec.with_public name.now item (found_in name.now (known_of self.old).publics) (known_of self.old)) }
    {
        if let Some(first) = self.publics.find(name) {
            let found = self.found_at(first, Number::E307);
            return self.note_whole(found);
        }
        let name = Vec::from_slice(self.alloc, name)?;
        self.publics.add(name, item)?;
        Ok(())
    }

    /// Keeps an EXTERNAL name, given in normal form, to be joined with its PUBLIC.
    fn put_external(&mut self, name: &[u8], item: Item) -> Result<(), AllocError>
        ensures { OnOk result (known_of self.new ≡ spec.with_external name.now item (known_of self.old)) }
    {
        let name = Vec::from_slice(self.alloc, name)?;
        self.externals.push(External { name, item })?;
        Ok(())
    }

    /// Joins a name, given in normal form, with those of other modules. What an EXTERNAL procedure declares joins nothing.
    pub fn link(
        &mut self,
        scope: &Scope<'_>,
        linkage: Linkage,
        name: &[u8],
        item: Item,
    ) -> Result<(), AllocError>
        ensures { OnOk result (known_of self.new ≡ spec.linked (frames_of scope.now) linkage name.now item (known_of self.old)) }
    {
        match (linkage, scope.is_external()) {
            (Linkage::Public, false) => self.put_public(name, item),
            (Linkage::External, false) => self.put_external(name, item),
            (Linkage::None, _) | (Linkage::Public | Linkage::External, true) => Ok(()),
        }
    }
}
