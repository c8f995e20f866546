//! What joins the modules: EXTERNAL names and their PUBLIC ones, and the faults of the whole program.

ghost use Rattle.std.specs.Prelude.{◌≡◌, IfOk, OnOk, map, slice_get};
ghost use Rattle.plm_decl.specs.Layout.{field_of};
ghost use Rattle.plm_decl.specs.Inner.Resolver.{known_of, external_of};
ghost use Rattle.plm_decl.specs.Resolver.{note_whole};
ghost use Rattle.plm_decl.specs.Joins as spec;

use crate::found::Found;
use crate::layout::{Field, Form, Member};
use crate::names::Item;
use crate::resolver::{External, Resolver};
use plm_syntax::Position;
use std::alloc::AllocError;
use std::mem::replace;
use word86::{DATA_ROOM, Number};

/// The token before a program's first.
const START: Position = Position { token: 0, line: 1 };

/// Whether two members have the same type and dimension.
fn same_member(a: Member, b: Member) -> bool
    ensures { result ≡ spec.same_member a b }
{
    a.scalar == b.scalar && a.dimension == b.dimension
}

impl Resolver {
    /// Whether two structures have the same members but for their names.
    fn same_members(&self, a: &[Field], b: &[Field]) -> bool
        ensures { result ≡ spec.same_members (map field_of a.now) (map field_of b.now) }
    {
        let mut others = b;
        for field in a {
            let Some((other, rest)) = others.split_first() else {
                return false;
            };
            if !same_member(field.member, other.member) {
                return false;
            }
            others = rest;
        }
        others.is_empty()
    }

    /// Whether elements of two forms have the same type.
    fn same_form(&self, a: Form, b: Form) -> bool
        ensures { result ≡ spec.same_form (known_of self.now) a b }
    {
        match (a, b) {
            (Form::Scalar(a), Form::Scalar(b)) => a == b,
            (Form::Structure(a), Form::Structure(b)) => match (
                self.structures.get(a),
                self.structures.get(b),
            ) {
                (Some(a), Some(b)) => self.same_members(&a.fields, &b.fields),
                (None, _) | (Some(_), None) => false,
            },
            (Form::Scalar(_), Form::Structure(_)) | (Form::Structure(_), Form::Scalar(_)) => false,
        }
    }

    /// Whether two variables have the same type and length.
    fn same_variable(&self, a: usize, b: usize) -> bool
        ensures { result ≡ spec.same_variable (known_of self.now) a b }
    {
        match (self.variables.get(a), self.variables.get(b)) {
            (Some(a), Some(b)) => a.dimension == b.dimension
                && a.stride == b.stride
                && self.same_form(a.form, b.form),
            (None, _) | (Some(_), None) => false,
        }
    }

    /// Whether two lists of parameters have the same types.
    fn same_parameters(&self, a: &[usize], b: &[usize]) -> bool
        ensures { result ≡ spec.same_parameters (known_of self.now) a.now b.now }
    {
        let mut others = b;
        for parameter in a {
            let Some((other, rest)) = others.split_first() else {
                return false;
            };
            if !self.same_variable(*parameter, *other) {
                return false;
            }
            others = rest;
        }
        others.is_empty()
    }

    /// Whether two procedures have the same types of value and parameters.
    fn same_procedure(&self, a: usize, b: usize) -> bool
        ensures { result ≡ spec.same_procedure (known_of self.now) (slice_get (known_of self.now).procedures a) (slice_get (known_of self.now).procedures b) }
    {
        match (self.procedures.get(a), self.procedures.get(b)) {
            (Some(a), Some(b)) => a.returned == b.returned
                && self.same_parameters(&a.parameters, &b.parameters),
            (None, _) | (Some(_), None) => false,
        }
    }

    /// Whether an EXTERNAL name agrees with its PUBLIC one.
    fn agree(&self, external: Item, public: Item) -> bool
        ensures { result ≡ spec.agree (known_of self.now) external public }
    {
        match (external, public) {
            (Item::Variable(a), Item::Variable(b)) => self.same_variable(a, b),
            (Item::Procedure(a), Item::Procedure(b)) => self.same_procedure(a, b),
            (Item::Variable(_), Item::Procedure(_)) | (Item::Procedure(_), Item::Variable(_)) =>
                false,
        }
    }

    /// Lets an EXTERNAL name stand for its PUBLIC one.
    fn join(&mut self, external: Item, public: Item)
        ensures { known_of self.new ≡ spec.joined external public (known_of self.old) }
    {
        match (external, public) {
            (Item::Variable(a), Item::Variable(b)) => {
                let Some(region) = self.variables.get(b).map(|public| public.region) else {
                    return;
                };
                if let Some(variable) = self.variables.get_mut(a) {
                    variable.region = region;
                }
            }
            (Item::Procedure(a), Item::Procedure(b)) => {
                if let Some(procedure) = self.procedures.get_mut(a) {
                    procedure.entry = b;
                }
            }
            (Item::Variable(_), Item::Procedure(_)) | (Item::Procedure(_), Item::Variable(_)) => {}
        }
    }

    /// The fault of an EXTERNAL name without its PUBLIC, or unlike it: at the earlier of the two.
    fn unjoined(&self, external: Item, public: Option<Item>) -> Found
        ensures { result ≡ spec.unjoined (known_of self.now) external public }
    {
        let here = self.found_at(external, Number::E306);
        match public {
            Some(public) => {
                let there = self.found_at(public, Number::E306);
                if there.precedes(&here) { there } else { here }
            }
            None => here,
        }
    }

    /// Notes the fault of an EXTERNAL name without its PUBLIC, or unlike it.
    fn note_unjoined(&mut self, external: Item, public: Option<Item>) -> Result<(), AllocError>
        ensures { OnOk result (known_of self.new ≡ note_whole (spec.unjoined (known_of self.old) external public) (known_of self.old)) }
    {
        let found = self.unjoined(external, public);
        self.note_whole(found)
    }

    /// Joins one EXTERNAL name.
    fn join_external(&mut self, external: Item, public: Option<Item>) -> Result<(), AllocError>
        ensures { OnOk result (known_of self.new ≡ spec.external_joined external public (known_of self.old)) }
    {
        match public {
            Some(public) => {
                if self.agree(external, public) {
                    self.join(external, public);
                    return Ok(());
                }
                self.note_unjoined(external, Some(public))
            }
            None => self.note_unjoined(external, None),
        }
    }

    /// Joins EXTERNAL names.
    fn join_externals(&mut self, externals: &[External]) -> Result<(), AllocError>
        ensures { OnOk result (known_of self.new ≡ spec.externals_joined (map external_of externals.now) (known_of self.old)) }
    {
        for external in externals {
            let public = self.publics.find(&external.name);
            self.join_external(external.item, public)?;
        }
        Ok(())
    }

    /// Whether the RAM objects have room.
    fn have_room(&self) -> bool
        ensures { result ≡ spec.have_room (known_of self.now).objects }
    {
        let mut size: u64 = 0;
        for object in &self.objects {
            size = size.saturating_add(object.size);
        }
        size <= DATA_ROOM as u64
    }

    /// Joins the modules.
    pub fn join_modules(&mut self) -> Result<(), AllocError>
        ensures { OnOk result (known_of self.new ≡ spec.modules_joined (known_of self.old)) }
    {
        let externals = replace(&mut self.externals, Vec::new(self.alloc));
        self.join_externals(&externals)?;
        if self.mains.len() != 1 {
            self.note_whole(Found {
                module: 0,
                place: START,
                number: Number::E308,
            })?;
        }
        if !self.have_room() {
            self.note_whole(Found {
                module: 0,
                place: START,
                number: Number::E310,
            })?;
        }
        Ok(())
    }
}
