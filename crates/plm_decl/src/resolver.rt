//! What is known of a program while its trees are walked.

ghost use Rattle.std.specs.Prelude.{◌≡◌, ◌+◌, IfOk, OnOk};
ghost use Rattle.plm_token.specs.Names.{normal};
ghost use Rattle.plm_syntax.specs.View.{name_of};
ghost use Rattle.plm_decl.specs.Inner.Scope.{frames_of};
ghost use Rattle.plm_decl.specs.Inner.Resolver.{known_of};
ghost use Rattle.plm_decl.specs.Resolver.{note, note_unless, note_whole};
ghost use Rattle.plm_decl.specs.Uses.{item_binding, binding_for, used};
ghost use Rattle.plm_decl.specs.Layout.{counted};

use crate::builtin::Builtin;
use crate::found::Found;
use crate::names::{DeclaredLocation, Item, Main, Object, Procedure, ScreenName, Variable};
use crate::resolved::Binding;
use crate::scope::Scope;
use crate::structure::Structure;
use crate::table::Table;
use plm_syntax::{Name, Position};
use plm_token::{is_normal, normal};
use std::alloc::{AllocError, Global};
use word86::Number;

/// What is known of the modules so far, and all faults that were met.
#[derive(Drop)]
pub struct Resolver {
    pub alloc: Global,
    /// The module that is walked, and its unnamed blocks and lists of constants so far.
    pub module: usize,
    pub blocks: usize,
    pub constants: usize,
    pub variables: Vec<Variable>,
    pub structures: Vec<Structure>,
    pub objects: Vec<Object>,
    pub screen_names: Vec<ScreenName>,
    pub procedures: Vec<Procedure>,
    pub locations: Vec<DeclaredLocation>,
    pub publics: Table,
    pub externals: Vec<External>,
    /// The variables, by number, whose AT names no place.
    pub unplaced: Vec<usize>,
    pub mains: Vec<Main>,
    /// The faults of declarations and names, and those of the whole program.
    pub faults: Vec<Found>,
    pub whole: Vec<Found>,
}

/// A name that is declared EXTERNAL, in normal form.
#[derive(Drop)]
pub struct External {
    pub name: Vec<u8>,
    pub item: Item,
}

/// One more; a count that is full stays.
pub fn next(count: usize) -> usize
    ensures { result ≡ counted (count + 1) }
{
    count.saturating_add(1)
}

impl Item {
    /// What a name that stands for it means.
    pub fn binding(self) -> Binding
        ensures { result ≡ item_binding self }
    {
        match self {
            Item::Variable(variable) => Binding::Variable(variable),
            Item::Procedure(procedure) => Binding::Procedure(procedure),
        }
    }
}

/// What a name means: what it is declared as, else a built-in of that name.
fn binding(item: Option<Item>, builtin: Option<Builtin>) -> Binding
    ensures { result ≡ binding_for item builtin }
{
    match (item, builtin) {
        (Some(item), _) => item.binding(),
        (None, Some(builtin)) => Binding::Builtin(builtin),
        (None, None) => Binding::Nothing,
    }
}

impl Resolver {
    /// Notes a fault.
    pub fn note(&mut self, number: Number, place: Position) -> Result<(), AllocError>
        ensures { OnOk result (known_of self.new ≡ note number place (known_of self.old)) }
    {
        self.faults.push(Found {
            module: self.module,
            place,
            number,
        })?;
        Ok(())
    }

    /// Notes a fault where something does not hold.
    pub fn note_unless(
        &mut self,
        holds: bool,
        number: Number,
        place: Position,
    ) -> Result<(), AllocError>
        ensures { OnOk result (known_of self.new ≡ note_unless holds number place (known_of self.old)) }
    {
        if holds {
            return Ok(());
        }
        self.note(number, place)
    }

    /// Notes a fault of the whole program.
    pub fn note_whole(&mut self, found: Found) -> Result<(), AllocError>
        ensures { OnOk result (known_of self.new ≡ note_whole found (known_of self.old)) }
    {
        self.whole.push(found)?;
        Ok(())
    }

    /// What a name that is used means.
    #[tactic(auto, using(crate::proofs::NormalNames::as_written))]
    pub fn used(&mut self, scope: &Scope<'_>, name: &Name<'_>) -> Result<Binding, AllocError>
        ensures { IfOk result (λ m. (m, known_of self.new) ≡ used (frames_of scope.now) (name_of name.now) (known_of self.old)) }
    {
        // Most names are written so: they need no second text.
        if is_normal(name.text) {
            return self.used_by_key(scope, name, name.text);
        }
        let key = normal(self.alloc, name.text)?;
        self.used_by_key(scope, name, &key)
    }

    /// The same by the name in normal form.
    fn used_by_key(
        &mut self,
        scope: &Scope<'_>,
        name: &Name<'_>,
        key: &[u8],
    ) -> Result<Binding, AllocError>
        requires { key.now ≡ normal (name_of name.now).text }
        ensures { IfOk result (λ m. (m, known_of self.new) ≡ used (frames_of scope.now) (name_of name.now) (known_of self.old)) }
    {
        let binding = binding(scope.item(key), Builtin::named(key));
        self.note_unless(
            !matches!(binding, Binding::Nothing),
            Number::E301,
            name.place,
        )?;
        Ok(binding)
    }
}
