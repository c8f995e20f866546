//! The types of whole declarations: procedures with their parameters and bodies, main, and the locations in AT, INITIAL and
//! DATA.

ghost use Rattle.std.specs.Prelude.{◌≡◌, ◌++◌, IfOk, OnOk, map, option_map, slice_get};
ghost use Rattle.plm_decl.specs.Names.{is_external_linkage, procedure_of, declared_location_of, main_of};
ghost use Rattle.plm_decl.specs.ResolvedView as resolved;
ghost use Rattle.plm_type.specs.Expressions.{location};
ghost use Rattle.plm_type.specs.Inner.Typer.{variables, procedures, sizes, noted, noted_after};
ghost use Rattle.plm_type.specs.Statements as spec;
ghost use Rattle.plm_type.specs.View as view;

use crate::program::{Procedure, Scalar, Statement};
use crate::statements::{Around, index_for, is_placed_scalar, is_plain_scalar};
use crate::typer::Typer;
use plm_decl::found::Found;
use plm_decl::{DeclaredLocation, Variable};
use plm_syntax::{Linkage, Position};
use std::alloc::AllocError;
use word86::Number;

/// Whether the number of INTERRUPT is 0 to 255.
fn interrupt_fits(interrupt: Option<u32>) -> bool
    ensures { result ≡ spec.interrupt_fits interrupt }
{
    match interrupt {
        Some(number) => number <= 0xFF,
        None => true,
    }
}

/// Whether it is a parameter: a scalar that is not based. One of an EXTERNAL procedure may lie nowhere.
fn is_parameter(external: bool, variable: &Variable) -> bool
    ensures { result ≡ spec.is_parameter external variable.now }
{
    if external {
        is_plain_scalar(variable)
    } else {
        is_placed_scalar(variable)
    }
}

fn is_external(linkage: Linkage) -> bool
    ensures { result ≡ is_external_linkage linkage }
{
    match linkage {
        Linkage::External => true,
        Linkage::None | Linkage::Public => false,
    }
}

/// Whether a procedure is what a call with `count` arguments may run.
fn is_entry(count: usize, procedure: Option<&plm_decl::Procedure>) -> bool
    ensures { result ≡ spec.is_entry count (option_map (λ p. procedure_of p.now) procedure.entry) }
{
    match procedure {
        Some(procedure) => {
            !is_external(procedure.linkage) && procedure.parameters.len() == count
        }
        None => false,
    }
}

impl Typer<'_> {
    /// Notes a parameter that is no scalar, is based or lies nowhere.
    fn note_parameter(
        &self,
        external: bool,
        parameter: usize,
        faults: &mut Vec<Found>,
    ) -> Result<(), AllocError>
        ensures { OnOk result (faults.new.items ≡ faults.old.items ++ spec.of_parameter external self.now.module (slice_get (variables self.now) parameter)) }
    {
        match self.variable(parameter) {
            Some(variable) => self.note_unless(
                is_parameter(external, &variable),
                Number::E401,
                variable.place,
                faults,
            ),
            None => Ok(()),
        }
    }

    fn parameters(
        &self,
        external: bool,
        parameters: &[usize],
        faults: &mut Vec<Found>,
    ) -> Result<Vec<Scalar>, AllocError>
        ensures { IfOk result (λ r. noted (map view.scalar_of r.items) faults.new.items ≡ noted_after faults.old.items (spec.typed_parameters (variables self.now) external self.now.module parameters.now)) }
    {
        let mut scalars = Vec::new(self.alloc);
        for parameter in parameters {
            self.note_parameter(external, *parameter, faults)?;
            scalars.push(index_for(self.variable(*parameter)))?;
        }
        Ok(scalars)
    }

    /// Notes a procedure whose calls run none with as many parameters.
    fn note_entry(
        &self,
        procedure: &plm_decl::Procedure,
        faults: &mut Vec<Found>,
    ) -> Result<(), AllocError>
        requires { procedure.now.module ≡ self.now.module }
        ensures { OnOk result (faults.new.items ≡ faults.old.items ++ spec.of_entry (procedures self.now) (procedure_of procedure.now)) }
    {
        let entry = self.procedure(procedure.entry);
        let fits = is_entry(procedure.parameters.len(), entry);
        self.note_unless(fits, Number::E401, procedure.place, faults)
    }

    /// Notes what stands first in an EXTERNAL procedure besides the declarations of its parameters.
    fn note_stray(&self, stray: Option<Position>, faults: &mut Vec<Found>) -> Result<(), AllocError>
        ensures { OnOk result (faults.new.items ≡ faults.old.items ++ spec.of_stray self.now.module stray) }
    {
        match stray {
            Some(place) => self.note_unless(false, Number::E401, place, faults),
            None => Ok(()),
        }
    }

    /// A procedure's body: an EXTERNAL one has none.
    fn body(
        &self,
        procedure: &plm_decl::Procedure,
        faults: &mut Vec<Found>,
    ) -> Result<Vec<Box<Statement>>, AllocError>
        requires { procedure.now.module ≡ self.now.module }
        ensures { IfOk result (λ r. noted (view.statements_of r.items) faults.new.items ≡ noted_after faults.old.items (spec.typed_body (variables self.now) (procedures self.now) (sizes self.now) (procedure_of procedure.now))) }
    {
        if is_external(procedure.linkage) {
            return Ok(Vec::new(self.alloc));
        }
        self.statements(
            Around::Procedure(procedure.returned),
            &procedure.body,
            faults,
        )
    }

    /// A procedure of its module.
    fn procedure_in(
        &self,
        procedure: &plm_decl::Procedure,
        faults: &mut Vec<Found>,
    ) -> Result<Procedure, AllocError>
        requires { procedure.now.module ≡ self.now.module }
        ensures { IfOk result (λ r. noted (view.procedure_of r) faults.new.items ≡ noted_after faults.old.items (spec.typed_procedure (variables self.now) (procedures self.now) (sizes self.now) (procedure_of procedure.now))) }
    {
        let external = is_external(procedure.linkage);
        let parameters = self.parameters(external, &procedure.parameters, faults)?;
        let fits = interrupt_fits(procedure.interrupt);
        self.note_unless(fits, Number::E401, procedure.place, faults)?;
        self.note_entry(procedure, faults)?;
        self.note_stray(procedure.stray, faults)?;
        let body = self.body(procedure, faults)?;
        Ok(Procedure { parameters, body })
    }

    /// The same names, for statements of another module.
    fn of_module(&self, number: usize) -> Typer<'_>
        ensures names { result.names.now ≡ self.now.names.now }
        ensures index { result.module ≡ number }
    {
        Typer {
            module: number,
            ..*self
        }
    }

    /// All procedures, in order of declaration.
    pub fn procedures(&self, faults: &mut Vec<Found>) -> Result<Vec<Procedure>, AllocError>
        ensures { IfOk result (λ r. noted (view.procedures_of r.items) faults.new.items ≡ noted_after faults.old.items (spec.typed_procedures (variables self.now) (procedures self.now) (sizes self.now) (procedures self.now))) }
    {
        let mut typed = Vec::new(self.alloc);
        for procedure in &self.names.procedures {
            let typer = self.of_module(procedure.module);
            typed.push(typer.procedure_in(procedure, faults)?)?;
        }
        Ok(typed)
    }

    /// Notes the faults of the locations of AT, INITIAL and DATA.
    pub fn locations(&self, faults: &mut Vec<Found>) -> Result<(), AllocError>
        ensures { OnOk result (faults.new.items ≡ faults.old.items ++ spec.of_locations (variables self.now) (procedures self.now) (sizes self.now) (map declared_location_of self.now.names.now.locations.items)) }
    {
        for declared in &self.names.locations {
            self.declared_location(declared, faults)?;
        }
        Ok(())
    }

    fn declared_location(
        &self,
        declared: &DeclaredLocation,
        faults: &mut Vec<Found>,
    ) -> Result<(), AllocError>
        ensures { OnOk result (faults.new.items ≡ faults.old.items ++ (location (variables self.now) (procedures self.now) (sizes self.now) declared.now.module (resolved.location_of declared.now.location)).faults) }
    {
        let typed = self
            .of_module(declared.module)
            .location(&declared.location, faults)?;
        drop(typed);
        Ok(())
    }

    /// Main's statements.
    pub fn main(&self, faults: &mut Vec<Found>) -> Result<Vec<Box<Statement>>, AllocError>
        ensures { IfOk result (λ r. noted (view.statements_of r.items) faults.new.items ≡ noted_after faults.old.items (spec.typed_main (variables self.now) (procedures self.now) (sizes self.now) (main_of self.now.names.now.main))) }
    {
        let main = &self.names.main;
        self.of_module(main.module)
            .statements(Around::Main, &main.statements, faults)
    }
}
