//! Calls of procedures and of built-ins, whose arguments are typed already: their faults, types and trees.

ghost use Rattle.std.specs.Prelude.{◌≡◌, ◌++◌, IfOk, OnOk, option_map, take};
ghost use Rattle.plm_decl.specs.Names.{procedure_of};
ghost use Rattle.plm_decl.specs.ResolvedView as resolved;
ghost use Rattle.plm_type.specs.Inner.Typer.{variables, said, target_said, list_said};
ghost use Rattle.plm_type.specs.Typing as typing;
ghost use Rattle.plm_type.specs.Faults as found;
ghost use Rattle.plm_type.specs.Trees as spec;
ghost use Rattle.plm_type.specs.Expressions as typed;

use crate::builtins::{
    arity, builtin_fits, builtin_type, builtin_value, first_width, is_plain, is_target,
    may_be_arguments, port_type, to_port,
};
use crate::numbers::Numbers;
use crate::program::Expression;
use crate::references::TypedTarget;
use crate::shapes::form_type;
use crate::typer::{Typed, TypedList, Typer, paired};
use crate::types::{are_known, takes};
use plm_decl::found::Found;
use plm_decl::{Builtin, Procedure, Reference, ScalarType, Selector, Variable};
use plm_syntax::Position;
use std::alloc::AllocError;
use word86::Number;

/// The type of a variable that is no structure.
pub fn variable_type(variable: Option<Variable>) -> Option<ScalarType>
    ensures { result ≡ typing.variable_type variable }
{
    match variable {
        Some(variable) => form_type(variable.form),
        None => None,
    }
}

fn returned_type(procedure: Option<&Procedure>) -> Option<ScalarType>
    ensures { result ≡ typing.returned_type (option_map (λ p. procedure_of p.now) procedure.entry) }
{
    match procedure {
        Some(procedure) => procedure.returned,
        None => None,
    }
}

pub fn entry_of(procedure: Option<&Procedure>) -> usize
    ensures { result ≡ spec.entry_of (option_map (λ p. procedure_of p.now) procedure.entry) }
{
    match procedure {
        Some(procedure) => procedure.entry,
        None => 0,
    }
}

/// The type of a built-in's value: none where its arguments do not fit.
fn value_type(
    builtin: Builtin,
    selector: &Selector,
    types: &[Option<ScalarType>],
) -> Option<ScalarType>
    ensures { result ≡ typing.given_if (typing.builtin_fits builtin (resolved.selector_of selector.now) types.now) (typing.builtin_type builtin types.now) }
{
    if builtin_fits(builtin, selector, types) {
        builtin_type(builtin, types)
    } else {
        None
    }
}

/// The type of a port as a target: none where its arguments do not fit.
fn target_type(
    builtin: Builtin,
    selector: &Selector,
    types: &[Option<ScalarType>],
) -> Option<ScalarType>
    ensures { result ≡ typing.given_if (typing.builtin_fits builtin (resolved.selector_of selector.now) types.now) (typing.port_type builtin) }
{
    if builtin_fits(builtin, selector, types) {
        port_type(builtin)
    } else {
        None
    }
}

/// As many as `count`, or all where there are fewer.
fn first<T>(items: &[T], count: usize) -> &[T]
    ensures { result.now ≡ take count items.now }
{
    if count <= items.len() {
        items.split_at(count).0
    } else {
        items
    }
}

impl Typer<'_> {
    /// What the first arguments of a procedure are wanted as, for as many of them.
    pub fn parameters_wanted(
        &self,
        procedure: Option<&Procedure>,
        count: usize,
    ) -> Result<Vec<Option<ScalarType>>, AllocError>
        ensures { IfOk result (λ r. r.items ≡ take count (typing.parameters_wanted (variables self.now) (option_map (λ p. procedure_of p.now) procedure.entry))) }
    {
        match procedure {
            Some(procedure) => self.parameter_types(first(&procedure.parameters, count)),
            None => Ok(Vec::new(self.alloc)),
        }
    }

    /// The types of parameters.
    fn parameter_types(&self, parameters: &[usize]) -> Result<Vec<Option<ScalarType>>, AllocError>
        ensures { IfOk result (λ r. r.items ≡ typing.parameter_types (variables self.now) parameters.now) }
    {
        let mut types = Vec::new(self.alloc);
        for parameter in parameters {
            types.push(variable_type(self.variable(*parameter)))?;
        }
        Ok(types)
    }

    /// Whether each argument that has a parameter is taken by it.
    fn take_all(&self, parameters: &[usize], types: &[Option<ScalarType>]) -> bool
        ensures { result ≡ typing.take_all (typing.parameter_types (variables self.now) parameters.now) types.now }
    {
        let mut others = types;
        for parameter in parameters {
            let Some((scalar, rest)) = others.split_first() else {
                return true;
            };
            if !takes(variable_type(self.variable(*parameter)), *scalar) {
                return false;
            }
            others = rest;
        }
        true
    }

    fn called_type(
        &self,
        procedure: Option<&Procedure>,
        selector: &Selector,
        types: &[Option<ScalarType>],
    ) -> Option<ScalarType>
        ensures { result ≡ typing.called_type (variables self.now) (option_map (λ p. procedure_of p.now) procedure.entry) (resolved.selector_of selector.now) types.now }
    {
        let called = procedure?;
        let fits = called.parameters.len() == types.len()
            && self.take_all(&called.parameters, types);
        if is_plain(selector) && fits && are_known(types) {
            called.returned
        } else {
            None
        }
    }

    /// Notes the faults of a call: the number and the types of its arguments.
    pub fn note_call(
        &self,
        place: Position,
        procedure: Option<&Procedure>,
        selector: &Selector,
        types: &[Option<ScalarType>],
        faults: &mut Vec<Found>,
    ) -> Result<(), AllocError>
        ensures { OnOk result (faults.new.items ≡ faults.old.items ++ found.call_faults (variables self.now) self.now.module place (option_map (λ p. procedure_of p.now) procedure.entry) (resolved.selector_of selector.now) types.now) }
    {
        let Some(procedure) = procedure else {
            return self.note_unless(false, Number::E401, place, faults);
        };
        self.note_unless(is_plain(selector), Number::E401, place, faults)?;
        let has_all = procedure.parameters.len() == types.len();
        self.note_unless(has_all, Number::E402, place, faults)?;
        let are_taken = self.take_all(&procedure.parameters, types);
        self.note_unless(are_taken, Number::E401, place, faults)
    }

    /// Notes the faults of a call as a value, for which the procedure has to be typed.
    fn note_called(
        &self,
        place: Position,
        procedure: Option<&Procedure>,
        selector: &Selector,
        types: &[Option<ScalarType>],
        faults: &mut Vec<Found>,
    ) -> Result<(), AllocError>
        ensures { OnOk result (faults.new.items ≡ faults.old.items ++ found.called_faults (variables self.now) self.now.module place (option_map (λ p. procedure_of p.now) procedure.entry) (resolved.selector_of selector.now) types.now) }
    {
        self.note_call(place, procedure, selector, types, faults)?;
        let is_typed = returned_type(procedure).is_some();
        self.note_unless(is_typed, Number::E401, place, faults)
    }

    /// A typed procedure as a value.
    pub fn called(
        &self,
        reference: &Reference,
        procedure: Option<&Procedure>,
        arguments: TypedList,
        faults: &mut Vec<Found>,
    ) -> Result<Typed, AllocError>
        ensures { IfOk result (λ r. said r faults.new.items ≡ typed.called (variables self.now) self.now.module reference.now.place (option_map (λ p. procedure_of p.now) procedure.entry) (resolved.selector_of reference.now.selector) (list_said arguments faults.old.items)) }
    {
        let selector = &reference.selector;
        let types = &arguments.types;
        let noted = self.note_called(reference.place, procedure, selector, types, faults);
        let scalar = self.called_type(procedure, selector, &arguments.types);
        let (trees, ()) = paired(arguments.into_trees(), noted)?;
        Ok(Typed {
            scalar,
            tree: Expression::Call(entry_of(procedure), trees),
            numbers: Numbers::Other,
        })
    }

    /// Notes the faults of a built-in: the number and the types of its arguments.
    fn note_builtin(
        &self,
        place: Position,
        builtin: Builtin,
        selector: &Selector,
        types: &[Option<ScalarType>],
        faults: &mut Vec<Found>,
    ) -> Result<(), AllocError>
        ensures { OnOk result (faults.new.items ≡ faults.old.items ++ found.builtin_faults self.now.module place builtin (resolved.selector_of selector.now) types.now) }
    {
        self.note_unless(is_plain(selector), Number::E401, place, faults)?;
        let has_all = types.len() == arity(builtin);
        self.note_unless(has_all, Number::E402, place, faults)?;
        let are_taken = may_be_arguments(builtin, first(types, arity(builtin)));
        self.note_unless(are_taken, Number::E401, place, faults)
    }

    /// A built-in as a value, but LENGTH, LAST and SIZE.
    pub fn operated(
        &self,
        reference: &Reference,
        builtin: Builtin,
        arguments: TypedList,
        faults: &mut Vec<Found>,
    ) -> Result<Typed, AllocError>
        ensures { IfOk result (λ r. said r faults.new.items ≡ typed.operated self.now.module reference.now.place builtin (resolved.selector_of reference.now.selector) (list_said arguments faults.old.items)) }
    {
        let selector = &reference.selector;
        let types = &arguments.types;
        let noted = self.note_builtin(reference.place, builtin, selector, types, faults);
        let scalar = value_type(builtin, selector, &arguments.types);
        let width = first_width(&arguments.types);
        let line = self.line(reference.place);
        let (trees, ()) = paired(arguments.into_trees(), noted)?;
        let tree = builtin_value(self.alloc, line, builtin, width, trees)?;
        Ok(Typed {
            tree,
            scalar,
            numbers: Numbers::Other,
        })
    }

    /// Notes the faults of a built-in as a target.
    fn note_port(
        &self,
        place: Position,
        builtin: Builtin,
        selector: &Selector,
        types: &[Option<ScalarType>],
        faults: &mut Vec<Found>,
    ) -> Result<(), AllocError>
        ensures { OnOk result (faults.new.items ≡ faults.old.items ++ found.port_faults self.now.module place builtin (resolved.selector_of selector.now) types.now) }
    {
        self.note_unless(is_target(builtin), Number::E401, place, faults)?;
        self.note_builtin(place, builtin, selector, types, faults)
    }

    /// OUTPUT or OUTWORD as a target; another built-in is none.
    pub fn port(
        &self,
        reference: &Reference,
        builtin: Builtin,
        arguments: TypedList,
        faults: &mut Vec<Found>,
    ) -> Result<TypedTarget, AllocError>
        ensures { IfOk result (λ r. target_said r faults.new.items ≡ typed.port self.now.module reference.now.place builtin (resolved.selector_of reference.now.selector) (list_said arguments faults.old.items)) }
    {
        let selector = &reference.selector;
        let types = &arguments.types;
        let noted = self.note_port(reference.place, builtin, selector, types, faults);
        let scalar = target_type(builtin, selector, &arguments.types);
        let (trees, ()) = paired(arguments.into_trees(), noted)?;
        Ok(TypedTarget {
            tree: to_port(builtin, trees),
            scalar,
        })
    }
}
