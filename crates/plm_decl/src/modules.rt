//! From trees to names.

ghost use Rattle.std.specs.Prelude.{◌≡◌, ◌≢◌, IfOk, IfErr, OnOk, [], map, length, true};
ghost use Rattle.std.specs.List.{list_all};
ghost use Rattle.plm_syntax.specs.View.{module_of};
ghost use Rattle.plm_decl.specs.Inner.Resolver.{known_of};
ghost use Rattle.plm_decl.specs.Resolver.{nothing_known};
ghost use Rattle.plm_decl.specs.Found.{IsRefusal};
ghost use Rattle.plm_decl.specs.ResolvedView as view;
ghost use Rattle.plm_decl.specs.Joins as spec;
ghost use Rattle.plm_decl.specs.Values.{values_fit};
ghost use Rattle.plm_decl.specs.Inner.Ranges.{Within, counts_of};
ghost use Rattle.plm_decl.specs.Modules.{AreNames, AreAnswered, faults_of, whole_faults_of};
ghost use Rattle.plm_decl.specs.Inner.Modules.{AreTables, IsRefused};

use crate::found::{Found, least};
use crate::names::{Main, Names};
use crate::resolved::Statement;
use crate::resolver::Resolver;
use crate::scope::Scope;
use crate::table::Table;
use plm_syntax::Module;
use plm_token::normal;
use std::alloc::{AllocError, Global};
use std::mem::replace;
use word86::Fault;

impl Resolver {
    fn new(alloc: Global) -> Resolver
        ensures { known_of result ≡ nothing_known }
    {
        Resolver {
            alloc,
            module: 0,
            blocks: 0,
            constants: 0,
            variables: Vec::new(alloc),
            structures: Vec::new(alloc),
            objects: Vec::new(alloc),
            screen_names: Vec::new(alloc),
            procedures: Vec::new(alloc),
            locations: Vec::new(alloc),
            publics: Table::new(alloc),
            externals: Vec::new(alloc),
            unplaced: Vec::new(alloc),
            mains: Vec::new(alloc),
            faults: Vec::new(alloc),
            whole: Vec::new(alloc),
        }
    }

    /// Walks the module of this number.
    fn module(tree: &Module<'_>, number: usize, resolver: &mut Resolver) -> Result<(), AllocError>
        ensures { OnOk result (known_of resolver.new ≡ spec.with_module number (module_of tree.now) (known_of resolver.old)) }
    {
        resolver.module = number;
        resolver.blocks = 0;
        resolver.constants = 0;
        let path = normal(resolver.alloc, tree.name.text)?;
        let mut scope = Scope::outermost(resolver.alloc, path);
        let statements = Resolver::block(&tree.block, resolver, &mut scope);
        drop(scope);
        let statements = statements?;
        resolver.put_main(!tree.block.statements.is_empty(), statements)
    }

    /// Keeps the statements of a main module.
    fn put_main(&mut self, is_main: bool, statements: Vec<Statement>) -> Result<(), AllocError>
        ensures { OnOk result (known_of self.new ≡ spec.with_main is_main (view.statements_of statements.items) (known_of self.old)) }
    {
        if is_main {
            self.mains.push(Main {
                module: self.module,
                statements,
            })?;
        }
        Ok(())
    }

    /// The names of joined modules without a fault.
    fn into_names(self) -> Names
        requires within { Within (counts_of (known_of self)) (known_of self) }
        requires one { length (known_of self).mains ≡ 1 }
        requires room { spec.have_room (known_of self).objects ≡ true }
        requires fit { list_all values_fit (known_of self).objects ≡ true }
        ensures { AreTables result (known_of self) }
    {
        let Resolver {
            variables,
            structures,
            objects,
            screen_names,
            procedures,
            locations,
            mut mains,
            ..
        } = self;
        let Some(main) = mains.pop() else {
            unreachable!();
        };
        Names {
            variables,
            structures,
            objects,
            screen_names,
            procedures,
            locations,
            main,
        }
    }

    /// The names of modules without a fault of declarations and names, joined.
    fn joined(mut self) -> Result<Names, Fault>
        requires no_fault { (known_of self).faults ≡ [] }
        requires within { Within (counts_of (known_of self)) (known_of self) }
        requires fit { spec.have_room (known_of self).objects ≡ true → list_all values_fit (known_of self).objects ≡ true }
        ensures names { IfOk result (λ names. AreAnswered names (known_of self)) }
        ensures refused { IfErr result (λ fault. IsRefused fault (known_of self)) }
    {
        self.join_modules()?;
        match least(&self.whole) {
            Some(found) => {
                drop(self);
                Err(found.fault())
            }
            None => Ok(self.into_names()),
        }
    }

    /// The faults of the whole program, once the modules are joined.
    fn whole_faults(mut self) -> Result<Vec<Found>, AllocError>
        ensures { IfOk result (λ found. found.items ≡ (spec.modules_joined (known_of self)).whole) }
    {
        self.join_modules()?;
        let Resolver { whole, .. } = self;
        Ok(whole)
    }

    /// The faults of declarations and names.
    fn into_faults(mut self) -> Vec<Found>
        ensures { result.items ≡ (known_of self).faults }
    {
        let faults = replace(&mut self.faults, Vec::new(self.alloc));
        drop(self);
        faults
    }

    /// The names, where no fault was met.
    fn answer(self) -> Result<Names, Fault>
        requires within { (known_of self).faults ≡ [] → Within (counts_of (known_of self)) (known_of self) }
        requires fit { spec.have_room (known_of self).objects ≡ true → list_all values_fit (known_of self).objects ≡ true }
        ensures names { IfOk result (λ names. AreAnswered names (known_of self)) }
        ensures refused { IfErr result (λ fault. IsRefused fault (known_of self)) }
    {
        match least(&self.faults) {
            Some(found) => {
                drop(self);
                Err(found.fault())
            }
            None => self.joined(),
        }
    }
}

/// What is known of modules that are walked in their order.
fn walked(alloc: Global, modules: &[Module<'_>]) -> Result<Resolver, AllocError>
    ensures { IfOk result (λ r. known_of r ≡ spec.known_from (map module_of modules.now)) }
{
    let mut resolver = Resolver::new(alloc);
    for (number, tree) in modules.iter().enumerate() {
        Resolver::module(tree, number, &mut resolver)?;
    }
    Ok(resolver)
}

/// What the modules declare, in order, with all names resolved; or the least fault by module, token and number, those of
/// the whole program (E306 to E310) after the others.
pub fn resolve(alloc: Global, modules: &[Module<'_>]) -> Result<Names, Fault>
    // The names are those that the modules declare, and the modules have no fault.
    ensures names { IfOk result (λ names. AreNames names (map module_of modules.now)) }
    // The least fault is answered.
    ensures refused { IfErr result (λ fault. IsRefusal fault (faults_of (map module_of modules.now)) (whole_faults_of (map module_of modules.now))) }
{
    let resolver = walked(alloc, modules)?;
    resolver.answer()
}

/// All faults of modules, of which `resolve` answers the least: those of declarations and names as they are met, or those of the whole
/// program (E306 to E310) where there are no others. Want of memory is its one error.
pub fn name_faults(alloc: Global, modules: &[Module<'_>]) -> Result<Vec<Found>, AllocError>
    ensures met { IfOk result (λ found. faults_of (map module_of modules.now) ≢ [] → found.items ≡ faults_of (map module_of modules.now)) }
    ensures whole { IfOk result (λ found. faults_of (map module_of modules.now) ≡ [] → found.items ≡ whole_faults_of (map module_of modules.now)) }
{
    let resolver = walked(alloc, modules)?;
    if resolver.faults.is_empty() {
        return resolver.whole_faults();
    }
    Ok(resolver.into_faults())
}
