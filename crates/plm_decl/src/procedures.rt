//! Procedures and their parameters.

ghost use Rattle.std.specs.Prelude.{◌≡◌, ◌||◌, [], IfOk, OnOk, map, slice_get, option_map};
ghost use Rattle.plm_token.specs.Names.{normal};
ghost use Rattle.plm_syntax.specs.View.{counted, name_of};
ghost use Rattle.plm_decl.specs.Spelling.{name_after};
ghost use Rattle.plm_decl.specs.Inner.Scope.{frames_of, entries_of};
ghost use Rattle.plm_decl.specs.Scope.{is_external, path_in};
ghost use Rattle.plm_decl.specs.Names.{is_external_linkage};
ghost use Rattle.plm_decl.specs.Elements.{with_variable};
ghost use Rattle.plm_decl.specs.Inner.Resolver.{known_of};
ghost use Rattle.plm_decl.specs.Layout.{scalar_of};
ghost use Rattle.plm_decl.specs.ResolvedView as view;
ghost use Rattle.plm_decl.specs.Procedures as spec;
ghost use Rattle.plm_decl.specs.Inner.Procedures.{procedure_put, procedure_declared, parameter_listed, finished};

use crate::found::Found;
use crate::layout::{Form, ScalarType};
use crate::names::{Item, Procedure, Region, Variable};
use crate::resolved::Statement;
use crate::resolver::Resolver;
use crate::scope::Scope;
use crate::spelling::name_path;
use crate::stray::first_stray;
use crate::table::Table;
use plm_syntax::{Linkage, Name, Numeral, Position, Procedure as SyntaxProcedure, Scalar};
use plm_token::normal;
use std::alloc::AllocError;
use word86::Number;

/// Whether nothing takes room in a procedure of this linkage: it is EXTERNAL, or stands in one that is.
pub fn takes_no_room(linkage: Linkage, scope: &Scope<'_>) -> bool
    ensures { result ≡ (is_external_linkage linkage || is_external (frames_of scope.now)) }
{
    linkage == Linkage::External || scope.is_external()
}

/// The number of INTERRUPT.
fn interrupt_number(number: Option<Numeral>) -> Option<u32>
    ensures { result ≡ option_map (λ m. m.value) (counted number) }
{
    number.map(|number| number.value)
}

/// The type of a procedure's value.
fn returned_type(scalar: Option<Scalar>) -> Option<ScalarType>
    ensures { result ≡ option_map scalar_of scalar }
{
    scalar.map(ScalarType::of)
}

impl Resolver {
    /// Whether a procedure before handles this interrupt.
    fn is_handled(&self, number: u32) -> bool
        ensures { result ≡ spec.is_handled number (known_of self.now) }
    {
        for procedure in &self.procedures {
            if procedure.vector() == Some(number) {
                return true;
            }
        }
        false
    }

    /// Notes that another procedure handles the interrupt of this one.
    fn note_handler(
        &mut self,
        place: Position,
        linkage: Linkage,
        interrupt: Option<u32>,
    ) -> Result<(), AllocError>
        ensures { OnOk result (known_of self.new ≡ spec.note_handler place linkage interrupt (known_of self.old)) }
    {
        let Some(number) = interrupt else {
            return Ok(());
        };
        if linkage == Linkage::External || !self.is_handled(number) {
            return Ok(());
        }
        self.note_whole(Found {
            module: self.module,
            place,
            number: Number::E309,
        })
    }

    /// The path of a name that stands in a block.
    pub fn path_of(&self, scope: &Scope<'_>, name: &Name<'_>) -> Result<Vec<u8>, AllocError>
        ensures { IfOk result (λ p. p.items ≡ name_after (path_in (frames_of scope.now)) (normal (name_of name.now).text)) }
    {
        let key = normal(self.alloc, name.text)?;
        name_path(self.alloc, scope.path(), &key)
    }

    /// Keeps a procedure, whose parameters and body are to come, and answers its number.
    fn put_procedure(
        procedure: &SyntaxProcedure<'_>,
        resolver: &mut Resolver,
        path: Vec<u8>,
    ) -> Result<usize, AllocError>
        ensures { IfOk result (λ n. (n, known_of resolver.new) ≡ procedure_put path.items procedure.now (known_of resolver.old)) }
    {
        let SyntaxProcedure {
            name,
            returned,
            interrupt,
            linkage,
            ..
        } = procedure;
        let number = resolver.procedures.len();
        let interrupt = interrupt_number(*interrupt);
        resolver.note_handler(name.place, *linkage, interrupt)?;
        let stray = first_stray(resolver.alloc, procedure)?;
        resolver.procedures.push(Procedure {
            path,
            module: resolver.module,
            place: name.place,
            parameters: Vec::new(resolver.alloc),
            returned: returned_type(*returned),
            interrupt,
            linkage: *linkage,
            stray,
            entry: number,
            body: Vec::new(resolver.alloc),
        })?;
        Ok(number)
    }

    /// Declares a procedure, whose parameters and body are to come, and answers its number.
    pub fn header(
        &mut self,
        scope: &mut Scope<'_>,
        procedure: &SyntaxProcedure<'_>,
    ) -> Result<usize, AllocError>
        ensures { IfOk result (λ n. (n, frames_of scope.new, known_of self.new) ≡ procedure_declared (frames_of scope.old) procedure.now (known_of self.old)) }
    {
        let SyntaxProcedure { name, linkage, .. } = procedure;
        let path = self.path_of(scope, name)?;
        let number = Resolver::put_procedure(procedure, self, path)?;
        let key = normal(self.alloc, name.text)?;
        self.enter(scope, name.place, key, *linkage, Item::Procedure(number))?;
        Ok(number)
    }

    /// The variables of a procedure's parameters, which its block declares.
    fn parameters(
        &mut self,
        inside: &Scope<'_>,
        names: &[Name<'_>],
    ) -> Result<Vec<usize>, AllocError>
        ensures { IfOk result (λ r. (r.items, known_of self.new) ≡ spec.parameters_from (frames_of inside.now) [] [] (map name_of names.now) (known_of self.old)) }
    {
        let mut listed = Table::new(self.alloc);
        let mut parameters = Vec::new(self.alloc);
        for name in names {
            self.parameter(inside, name, &mut listed, &mut parameters)?;
        }
        Ok(parameters)
    }

    /// One more parameter.
    fn parameter(
        &mut self,
        inside: &Scope<'_>,
        name: &Name<'_>,
        listed: &mut Table,
        parameters: &mut Vec<usize>,
    ) -> Result<(), AllocError>
        ensures { OnOk result ((entries_of listed.new, parameters.new.items, known_of self.new) ≡ parameter_listed (frames_of inside.now) (entries_of listed.old) parameters.old.items (name_of name.now) (known_of self.old)) }
    {
        let key = normal(self.alloc, name.text)?;
        let declared = inside.here(&key);
        let is_fresh = listed.add(key, Item::Variable(0))?;
        self.note_unless(is_fresh, Number::E302, name.place)?;
        match declared {
            Some(Item::Variable(variable)) => {
                parameters.push(variable)?;
                Ok(())
            }
            Some(Item::Procedure(procedure)) => {
                parameters.push(self.variables.len())?;
                self.put_in_place_of(procedure, name.place)
            }
            None => self.note(Number::E301, name.place),
        }
    }

    /// Keeps a variable in place of a parameter that is declared as a procedure: an array, which is a fault of types at the
    /// procedure's name, as a parameter has to be a scalar.
    fn put_in_place_of(&mut self, procedure: usize, place: Position) -> Result<(), AllocError>
        ensures { OnOk result (known_of self.new ≡ with_variable (spec.in_place_of (slice_get (known_of self.old).procedures procedure) place (known_of self.old)) (known_of self.old)) }
    {
        let place = match self.procedures.get(procedure) {
            Some(procedure) => procedure.place,
            None => place,
        };
        self.variables.push(Variable {
            module: self.module,
            place,
            form: Form::Scalar(ScalarType::Byte),
            dimension: Some(1),
            stride: 1,
            region: Region::Nowhere,
            is_data: false,
        })?;
        Ok(())
    }

    /// Gives a procedure its parameters and its body.
    fn complete(&mut self, number: usize, parameters: Vec<usize>, body: Vec<Statement>)
        ensures { known_of self.new ≡ spec.completed number parameters.items (view.statements_of body.items) (known_of self.old) }
    {
        if let Some(procedure) = self.procedures.get_mut(number) {
            procedure.parameters = parameters;
            procedure.body = body;
        }
    }

    /// Gives a procedure its parameters, which its block has declared, and its body.
    pub fn finish(
        &mut self,
        number: usize,
        inside: &Scope<'_>,
        names: &[Name<'_>],
        body: Vec<Statement>,
    ) -> Result<(), AllocError>
        ensures { OnOk result (known_of self.new ≡ finished number (frames_of inside.now) (map name_of names.now) (view.statements_of body.items) (known_of self.old)) }
    {
        let parameters = self.parameters(inside, names)?;
        self.complete(number, parameters, body);
        Ok(())
    }
}
