//! References to variables, whose subscripts are typed already: as values, as targets, as locations, and what LENGTH, LAST and
//! SIZE say of them.

ghost use Rattle.std.specs.Prelude.{◌≡◌, ◌++◌, IfOk, OnOk, IfSome, List, map, option_map};
ghost use Rattle.plm_decl.specs.declared.found.Found.{Found as FoundR};
ghost use Rattle.plm_decl.specs.Datum.{location_type};
ghost use Rattle.plm_decl.specs.ResolvedView as resolved;
ghost use Rattle.plm_type.specs.Rest as rest;
ghost use Rattle.plm_type.specs.Shapes.{anchor_for};
ghost use Rattle.plm_type.specs.Inner.Plain.{alone_type, stored_type};
ghost use Rattle.plm_type.specs.Inner.Typer.{variables, with_stride, said, target_said, parts_said, after, target_after, parts_by};
ghost use Rattle.plm_type.specs.Types as scalars;
ghost use Rattle.plm_type.specs.Typing as typing;
ghost use Rattle.plm_type.specs.Faults as found;
ghost use Rattle.plm_type.specs.Trees as spec;
ghost use Rattle.plm_type.specs.Expressions as typed;
ghost use Rattle.plm_type.specs.View as view;

use crate::builtins::{constant, is_plain, measured};
use crate::numbers::Numbers;
use crate::program::{Anchor, Expression, Reference, Subscript, Target};
use crate::shapes::{
    anchor, designated, element_count, element_size, form_type, is_on_screen, member_offset,
    member_stride, read_of, shape_fits, store_to,
};
use crate::typer::{Typed, TypedList, Typer};
use crate::types::{are_known_counts, may_all_count, number_type};
use plm_decl::found::Found;
use plm_decl::{Builtin, ScalarType, Selector, Variable};
use plm_syntax::{LocationForm, Position};
use std::alloc::AllocError;
use word86::Number;

/// A reference's subscripts, and that of its member.
#[derive(Drop)]
pub struct Parts {
    pub subscripts: TypedList,
    pub member: TypedList,
}

/// A target's tree, and its type: none where it has a fault, that of DATA aside.
#[derive(Drop)]
pub struct TypedTarget {
    pub tree: Target,
    pub scalar: Option<ScalarType>,
}

impl Parts {
    /// Whether no subscript is a POINTER.
    #[tactic(auto, using(crate::proofs::Lists::may_all_count_both))]
    fn may_all_count(&self) -> bool
        ensures { result ≡ scalars.may_all_count (self.now.subscripts.types.items ++ self.now.member.types.items) }
    {
        may_all_count(&self.subscripts.types) && may_all_count(&self.member.types)
    }

    /// Whether each subscript is known to be no POINTER.
    #[tactic(auto, using(crate::proofs::Lists::known_counts_both))]
    fn are_known_counts(&self) -> bool
        ensures { result ≡ scalars.are_known_counts (self.now.subscripts.types.items ++ self.now.member.types.items) }
    {
        are_known_counts(&self.subscripts.types) && are_known_counts(&self.member.types)
    }
}

/// Adds a subscript for each of these trees, over elements of `stride` bytes.
fn strided(
    stride: u64,
    trees: Vec<Expression>,
    subscripts: &mut Vec<Subscript>,
) -> Result<(), AllocError>
    ensures { OnOk result (subscripts.new.items ≡ subscripts.old.items ++ map (with_stride stride) trees.items) }
{
    // Most names have none.
    if trees.is_empty() {
        return Ok(());
    }
    for index in trees {
        subscripts.push(Subscript { stride, index })?;
    }
    Ok(())
}

/// Whether a reference to a variable may have its shape, and subscripts that are no POINTER.
fn may_be_used(part: bool, variable: Option<Variable>, selector: &Selector, parts: &Parts) -> bool
    ensures { result ≡ found.may_be_used part variable (resolved.selector_of selector.now) parts.now.subscripts.types.items parts.now.member.types.items }
{
    match variable {
        Some(variable) => {
            shape_fits(part, &variable, parts.subscripts.types.len(), selector)
                && parts.may_all_count()
        }
        None => false,
    }
}

/// Whether a reference to a variable has its shape, and subscripts that are no POINTERs.
fn use_fits(part: bool, variable: Option<Variable>, selector: &Selector, parts: &Parts) -> bool
    ensures { result ≡ typing.use_fits part variable (resolved.selector_of selector.now) parts.now.subscripts.types.items parts.now.member.types.items }
{
    match variable {
        Some(variable) => {
            shape_fits(part, &variable, parts.subscripts.types.len(), selector)
                && parts.are_known_counts()
        }
        None => false,
    }
}

fn designated_in(variable: Option<Variable>, selector: &Selector) -> Option<ScalarType>
    ensures { result ≡ typing.designated_in variable (resolved.selector_of selector.now) }
{
    match variable {
        Some(variable) => designated(&variable, selector),
        None => None,
    }
}

/// The type of a variable's scalar as a value.
pub fn use_type(
    variable: Option<Variable>,
    selector: &Selector,
    parts: &Parts,
) -> Option<ScalarType>
    ensures { result ≡ typing.use_type variable (resolved.selector_of selector.now) parts.now.subscripts.types.items parts.now.member.types.items }
{
    if use_fits(false, variable, selector, parts) {
        designated_in(variable, selector)
    } else {
        None
    }
}

/// Whether the variable may be assigned: what DATA declares may not.
pub fn may_be_assigned(variable: Option<Variable>) -> bool
    ensures { result ≡ typing.may_be_assigned variable }
{
    match variable {
        Some(variable) => !variable.is_data,
        None => true,
    }
}

fn may_be_located(variable: Option<Variable>) -> bool
    ensures { result ≡ typing.may_be_located variable }
{
    match variable {
        Some(variable) => !is_on_screen(variable.region),
        None => true,
    }
}

/// The type of a location.
pub fn location_type(form: LocationForm) -> ScalarType
    ensures { result ≡ location_type form }
{
    match form {
        LocationForm::Pointer => ScalarType::Pointer,
        LocationForm::Offset => ScalarType::Word,
    }
}

fn located_type(
    form: LocationForm,
    variable: Option<Variable>,
    selector: &Selector,
    parts: &Parts,
) -> Option<ScalarType>
    ensures { result ≡ typing.located_type form variable (resolved.selector_of selector.now) parts.now.subscripts.types.items parts.now.member.types.items }
{
    if may_be_located(variable) && use_fits(true, variable, selector, parts) {
        Some(location_type(form))
    } else {
        None
    }
}

/// What LENGTH, LAST or SIZE answers of a reference to a variable, with so many subscripts.
pub fn measure(
    builtin: Builtin,
    variable: Option<Variable>,
    count: usize,
    selector: &Selector,
) -> u64
    ensures { result ≡ typing.measure builtin variable count (resolved.selector_of selector.now) }
{
    match variable {
        Some(variable) => measured(
            builtin,
            element_count(&variable, count, selector),
            element_size(&variable, selector),
        ),
        None => 0,
    }
}

/// Whether what is measured is not above 65,535, where it has its shape.
fn measure_fits(
    builtin: Builtin,
    variable: Option<Variable>,
    count: usize,
    selector: &Selector,
) -> bool
    ensures { result ≡ found.measure_fits builtin variable count (resolved.selector_of selector.now) }
{
    match variable {
        Some(shaped) => {
            !shape_fits(true, &shaped, count, selector)
                || measure(builtin, variable, count, selector) <= 0xFFFF
        }
        None => true,
    }
}

/// A read of what a reference designates.
fn use_read(variable: Option<Variable>, selector: &Selector, reference: Reference) -> Expression
    ensures { view.expression_of result ≡ spec.use_read variable (resolved.selector_of selector.now) (view.reference_of reference) }
{
    match designated_in(variable, selector) {
        Some(scalar) => read_of(scalar, reference),
        None => Expression::Constant(0),
    }
}

/// A store to what a reference designates.
fn use_stored(variable: Option<Variable>, selector: &Selector, reference: Reference) -> Target
    ensures { view.target_of result ≡ spec.use_stored variable (resolved.selector_of selector.now) (view.reference_of reference) }
{
    match designated_in(variable, selector) {
        Some(scalar) => store_to(scalar, reference),
        None => store_to(ScalarType::Word, reference),
    }
}

/// The type of a scalar without a dimension, where neither a subscript nor a member follows its name. Most names are used so.
fn alone_type(variable: &Variable, reference: &plm_decl::Reference) -> Option<ScalarType>
    ensures { result ≡ alone_type variable.now reference.now }
{
    let is_alone = variable.dimension.is_none()
        && reference.subscripts.is_empty()
        && is_plain(&reference.selector);
    if is_alone {
        form_type(variable.form)
    } else {
        None
    }
}

/// The same where the variable may be assigned.
fn stored_type(variable: &Variable, reference: &plm_decl::Reference) -> Option<ScalarType>
    ensures { result ≡ stored_type variable.now reference.now }
{
    if variable.is_data {
        None
    } else {
        alone_type(variable, reference)
    }
}

impl Typer<'_> {
    /// A reference to a whole variable, without subscripts.
    #[inline(always)]
    fn refer_alone(&self, place: Position, variable: &Variable) -> Reference
        ensures { view.reference_of result ≡ rest.Refer self.now.module place.line (anchor_for (variables self.now) variable.now) 0 rest.NoSubscripts }
    {
        Reference {
            line: self.line(place),
            anchor: anchor(&self.names.variables, variable),
            offset: 0,
            subscripts: Vec::new(self.alloc),
        }
    }

    /// A scalar that is named alone, as a value. It has no fault.
    #[inline]
    pub fn read_alone(
        &self,
        reference: &plm_decl::Reference,
        variable: Option<Variable>,
    ) -> Option<Typed>
        ensures { IfSome result (λ r. (noted : List FoundR) → said r noted ≡ after noted (typed.read (variables self.now) self.now.module reference.now.place variable (resolved.selector_of reference.now.selector) (parts_by self.now (resolved.reference_of reference.now)))) }
    {
        match variable {
            None => None,
            Some(variable) => match alone_type(&variable, reference) {
                None => None,
                Some(scalar) => {
                    let place = self.refer_alone(reference.place, &variable);
                    Some(Typed {
                        tree: read_of(scalar, place),
                        scalar: Some(scalar),
                        numbers: Numbers::Other,
                    })
                }
            },
        }
    }

    /// The same as a target, where it may be assigned.
    #[inline]
    pub fn store_alone(
        &self,
        reference: &plm_decl::Reference,
        variable: Option<Variable>,
    ) -> Option<TypedTarget>
        ensures { IfSome result (λ r. (noted : List FoundR) → target_said r noted ≡ target_after noted (typed.stored (variables self.now) self.now.module reference.now.place variable (resolved.selector_of reference.now.selector) (parts_by self.now (resolved.reference_of reference.now)))) }
    {
        match variable {
            None => None,
            Some(variable) => match stored_type(&variable, reference) {
                None => None,
                Some(scalar) => {
                    let place = self.refer_alone(reference.place, &variable);
                    Some(TypedTarget {
                        tree: store_to(scalar, place),
                        scalar: Some(scalar),
                    })
                }
            },
        }
    }

    /// A reference, with its subscripts.
    fn refer(
        &self,
        place: Position,
        variable: Option<Variable>,
        selector: &Selector,
        parts: Parts,
    ) -> Result<Reference, AllocError>
        ensures { IfOk result (λ r. view.reference_of r ≡ spec.refer (variables self.now) self.now.module place.line variable (resolved.selector_of selector.now) (view.expressions_of parts.subscripts.trees.items) (view.expressions_of parts.member.trees.items)) }
    {
        let count = parts
            .subscripts
            .trees
            .len()
            .saturating_add(parts.member.trees.len());
        let outer = parts.subscripts.into_trees();
        let inner = parts.member.into_trees();
        let mut subscripts = Vec::with_capacity(self.alloc, count)?;
        let line = self.line(place);
        let Some(variable) = variable else {
            return Ok(Reference {
                line,
                anchor: Anchor::InObject(0, 0, 0),
                offset: 0,
                subscripts,
            });
        };
        strided(variable.stride, outer, &mut subscripts)?;
        strided(member_stride(selector), inner, &mut subscripts)?;
        Ok(Reference {
            line,
            anchor: anchor(&self.names.variables, &variable),
            offset: member_offset(selector),
            subscripts,
        })
    }

    /// A variable as a value.
    pub fn read(
        &self,
        reference: &plm_decl::Reference,
        variable: Option<Variable>,
        parts: Parts,
        faults: &mut Vec<Found>,
    ) -> Result<Typed, AllocError>
        ensures { IfOk result (λ r. said r faults.new.items ≡ typed.read (variables self.now) self.now.module reference.now.place variable (resolved.selector_of reference.now.selector) (parts_said parts faults.old.items)) }
    {
        let selector = &reference.selector;
        let fits = may_be_used(false, variable, selector, &parts);
        let parts = self.judged(parts, fits, Number::E401, reference.place, faults)?;
        let scalar = use_type(variable, selector, &parts);
        let place = self.refer(reference.place, variable, selector, parts)?;
        Ok(Typed {
            tree: use_read(variable, selector, place),
            scalar,
            numbers: Numbers::Other,
        })
    }

    /// A variable as a target. One of DATA is a fault of its own, and keeps its type.
    pub fn stored(
        &self,
        reference: &plm_decl::Reference,
        variable: Option<Variable>,
        parts: Parts,
        faults: &mut Vec<Found>,
    ) -> Result<TypedTarget, AllocError>
        ensures { IfOk result (λ r. target_said r faults.new.items ≡ typed.stored (variables self.now) self.now.module reference.now.place variable (resolved.selector_of reference.now.selector) (parts_said parts faults.old.items)) }
    {
        let selector = &reference.selector;
        let fits = may_be_used(false, variable, selector, &parts);
        let parts = self.judged(parts, fits, Number::E401, reference.place, faults)?;
        let assignable = may_be_assigned(variable);
        let parts = self.judged(parts, assignable, Number::E403, reference.place, faults)?;
        let kept = use_type(variable, selector, &parts);
        let place = self.refer(reference.place, variable, selector, parts)?;
        Ok(TypedTarget {
            tree: use_stored(variable, selector, place),
            scalar: kept,
        })
    }

    /// The location of a variable.
    pub fn located(
        &self,
        place: Position,
        form: LocationForm,
        reference: &plm_decl::Reference,
        variable: Option<Variable>,
        parts: Parts,
        faults: &mut Vec<Found>,
    ) -> Result<Typed, AllocError>
        ensures { IfOk result (λ r. said r faults.new.items ≡ typed.located (variables self.now) self.now.module place form reference.now.place variable (resolved.selector_of reference.now.selector) (parts_said parts faults.old.items)) }
    {
        let selector = &reference.selector;
        let locatable = may_be_located(variable);
        let parts = self.judged(parts, locatable, Number::E401, place, faults)?;
        let fits = may_be_used(true, variable, selector, &parts);
        let parts = self.judged(parts, fits, Number::E401, reference.place, faults)?;
        let scalar = located_type(form, variable, selector, &parts);
        let reference = self.refer(reference.place, variable, selector, parts)?;
        Ok(Typed {
            tree: Expression::Location(reference),
            scalar,
            numbers: Numbers::Other,
        })
    }

    /// LENGTH, LAST or SIZE of a variable.
    pub fn measured(
        &self,
        place: Position,
        builtin: Builtin,
        reference: &plm_decl::Reference,
        variable: Option<Variable>,
        parts: &Parts,
        faults: &mut Vec<Found>,
    ) -> Result<Typed, AllocError>
        ensures { IfOk result (λ r. said r faults.new.items ≡ typed.measured self.now.module place builtin reference.now.place variable (resolved.selector_of reference.now.selector) (parts_said parts.now faults.old.items)) }
    {
        let selector = &reference.selector;
        let count = parts.subscripts.types.len();
        self.note_unless(
            may_be_used(true, variable, selector, parts),
            Number::E401,
            reference.place,
            faults,
        )?;
        self.note_unless(
            measure_fits(builtin, variable, count, selector),
            Number::E401,
            place,
            faults,
        )?;
        let value = measure(builtin, variable, count, selector);
        let scalar = if use_fits(true, variable, selector, parts) {
            number_type(value)
        } else {
            None
        };
        Ok(Typed {
            tree: constant(value),
            scalar,
            numbers: Numbers::Other,
        })
    }
}
