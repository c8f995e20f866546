//! Expressions: their types, their faults, and their trees with names as places.

ghost use Rattle.std.specs.Prelude.{◌≡◌, [], slice_get, option_map, IfOk, None};
ghost use Rattle.word86.specs.declared.number.Number.TheVariants.{E401, E402};
ghost use Rattle.plm_decl.specs.Names.{procedure_of};
ghost use Rattle.plm_decl.specs.ResolvedView as resolved;
ghost use Rattle.plm_type.specs.Rest.{Constant, Embedded};
ghost use Rattle.plm_type.specs.Typing.{parameters_wanted};
ghost use Rattle.plm_type.specs.Faults as found;
ghost use Rattle.plm_type.specs.Trees as trees;
ghost use Rattle.plm_type.specs.declared.numbers.Numbers.TheVariants.{Other};
ghost use Rattle.plm_type.specs.Expressions as spec;
ghost use Rattle.plm_type.specs.Inner.Typer.{variables, procedures, sizes, said, target_said, list_said, parts_said, after, target_after, list_after, parts_after, typed_by, list_by, given_by, selector_by, parts_by, value_by, arguments_by, argument_by, location_by, target_by};
ghost use Rattle.plm_type.specs.Inner.Chains.{chain};
ghost use Rattle.plm_type.specs.View as view;

use crate::builtins::{
    applied, constant, first_type, is_measure, is_plain, is_target, operation, other_types,
    text_value, wanted_arguments,
};
use crate::numbers::Numbers;
use crate::program::{Anchor, Expression, Operation, Reference, Target};
use crate::references::{Parts, TypedTarget, location_type};
use crate::typer::{Typed, TypedList, Typer, paired};
use crate::types::{
    binary_type, is_bitwise, number_type, operands_fit, operation_on, takes, text_type, unary_fits,
    unary_operation, unary_type, width_of,
};
use plm_decl::found::Found;
use plm_decl::{
    Binding, Builtin, Location, Procedure, ScalarType, Selector, Variable,
    resolved_trees_have_their_lists,
};
use plm_syntax::{BinaryOperator, LocationForm, Position, UnaryOperator};
use std::alloc::{AllocError, Global};
use word86::{Number, Width};

/// Where an expression begins.
#[cycle(first_place)]
pub fn first_place(e: &plm_decl::Expression) -> Position
    ensures { result ≡ found.first_place (resolved.expression_of e.now) }
{
    resolved_trees_have_their_lists();
    match e {
        plm_decl::Expression::Number(number) => number.place,
        plm_decl::Expression::Reference(reference) => reference.place,
        plm_decl::Expression::Location(location) => match location {
            Location::Reference(place, _, _) | Location::Constants(place, _, _) => *place,
        },
        plm_decl::Expression::Text(place, _)
        | plm_decl::Expression::Parenthesised(place, _)
        | plm_decl::Expression::Embedded(place, _, _)
        | plm_decl::Expression::Unary(place, _, _) => *place,
        plm_decl::Expression::Chain { first, .. } => first_place(first),
    }
}

/// What has no value.
fn nothing() -> Typed
    ensures tree { view.expression_of result.tree ≡ Constant 0 }
    ensures scalar { result.scalar ≡ None }
    ensures numbers { result.numbers ≡ Other }
{
    Typed {
        tree: Expression::Constant(0),
        scalar: None,
        numbers: Numbers::Other,
    }
}

/// A value that a target takes on the way.
fn assigned(alloc: Global, target: Target, value: Expression) -> Result<Expression, AllocError>
    ensures { IfOk result (λ r. view.expression_of r ≡ Embedded (view.target_of target) (view.expression_of value)) }
{
    let (value, target) = paired(value, Box::new(alloc, target))?;
    let boxed = Box::new(alloc, value)?;
    Ok(Expression::Embedded(target, boxed))
}

impl Typer<'_> {
    #[inline(never)]
    fn number(
        &self,
        number: plm_syntax::Numeral,
        faults: &mut Vec<Found>,
    ) -> Result<Typed, AllocError>
        ensures { IfOk result (λ r. said r faults.new.items ≡ after faults.old.items (spec.number self.now.module number.value number.place)) }
    {
        self.note_unless(number.value <= 0xFFFF, Number::E401, number.place, faults)?;
        let value = u64::from(number.value);
        Ok(Typed {
            tree: constant(value),
            scalar: number_type(value),
            numbers: Numbers::of(value, number.place),
        })
    }

    #[inline(never)]
    fn text(
        &self,
        place: Position,
        characters: &[u8],
        faults: &mut Vec<Found>,
    ) -> Result<Typed, AllocError>
        ensures { IfOk result (λ r. said r faults.new.items ≡ after faults.old.items (spec.text self.now.module place characters.now)) }
    {
        let scalar = text_type(characters);
        self.note_unless(scalar.is_some(), Number::E401, place, faults)?;
        Ok(Typed {
            tree: constant(text_value(characters)),
            scalar,
            numbers: Numbers::Other,
        })
    }

    #[inline(never)]
    fn embedded(
        &self,
        place: Position,
        target: TypedTarget,
        value: Typed,
        faults: &mut Vec<Found>,
    ) -> Result<Typed, AllocError>
        ensures { IfOk result (λ r. said r faults.new.items ≡ spec.embedded self.now.module place (target_said target faults.old.items) (said value [])) }
    {
        let scalar = target.scalar;
        let (target, value) = paired(target, self.wanted(scalar, value, faults))?;
        self.assigned(place, target, value, faults)
    }

    /// A value as it is, which a target takes on the way.
    fn assigned(
        &self,
        place: Position,
        target: TypedTarget,
        value: Typed,
        faults: &mut Vec<Found>,
    ) -> Result<Typed, AllocError>
        ensures { IfOk result (λ r. said r faults.new.items ≡ spec.assigned self.now.module place (target_said target faults.old.items) (said value [])) }
    {
        let is_taken = takes(target.scalar, value.scalar);
        let trees = (target.tree, value.tree);
        let (into, of) = self.judged(trees, is_taken, Number::E401, place, faults)?;
        let has_value = target.scalar.is_some() && is_taken;
        let tree = assigned(self.alloc, into, of)?;
        let typed = Typed {
            tree,
            scalar: value.scalar,
            numbers: Numbers::Other,
        };
        Ok(typed.given_if(has_value))
    }

    #[inline(never)]
    fn unary(
        &self,
        place: Position,
        operator: UnaryOperator,
        operand: Typed,
        faults: &mut Vec<Found>,
    ) -> Result<Typed, AllocError>
        ensures { IfOk result (λ r. said r faults.new.items ≡ spec.unary self.now.module place operator (said operand faults.old.items)) }
    {
        let is_taken = unary_fits(operator, operand.scalar);
        let tree = self.judged(operand.tree, is_taken, Number::E401, place, faults)?;
        let operation = unary_operation(operator);
        let width = width_of(operand.scalar);
        Ok(Typed {
            tree: applied(self.alloc, operation, width, tree)?,
            scalar: unary_type(operator, operand.scalar),
            numbers: operand.numbers.signed_by(operator),
        })
    }

    /// An operand beside one of this type. AND, OR and XOR turn none INTEGER.
    fn beside(
        &self,
        operator: BinaryOperator,
        other: Option<ScalarType>,
        e: Typed,
        faults: &mut Vec<Found>,
    ) -> Result<Typed, AllocError>
        ensures { IfOk result (λ r. said r faults.new.items ≡ spec.wanted self.now.module (spec.wanted_beside operator other) (said e faults.old.items)) }
    {
        self.wanted(if is_bitwise(operator) { None } else { other }, e, faults)
    }

    /// An operator between two operands as they are, of which the first begins at the second place.
    fn operated_on(
        &self,
        place: Position,
        operator: BinaryOperator,
        first: Position,
        numbers: Numbers,
        left: Typed,
        right: Typed,
        faults: &mut Vec<Found>,
    ) -> Result<Typed, AllocError>
        ensures { IfOk result (λ r. said r faults.new.items ≡ spec.operated_on self.now.module place operator first numbers (said left faults.old.items) (said right [])) }
    {
        let fit = operands_fit(operator, left.scalar, right.scalar);
        let trees = (left.tree, right.tree);
        let (before, operand) = self.judged(trees, fit, Number::E401, first, faults)?;
        let scalar = binary_type(operator, left.scalar, right.scalar);
        let tree = operation(
            self.alloc,
            before,
            Operation {
                line: self.line(place),
                operation: operation_on(left.scalar, operator),
                width: width_of(scalar),
                operand,
            },
        )?;
        Ok(Typed {
            tree,
            scalar,
            numbers,
        })
    }

    /// An operator between two operands, of which the first begins at the second place.
    #[inline(never)]
    fn binary(
        &self,
        place: Position,
        operator: BinaryOperator,
        first: Position,
        left: Typed,
        right: Typed,
        faults: &mut Vec<Found>,
    ) -> Result<Typed, AllocError>
        ensures { IfOk result (λ r. said r faults.new.items ≡ spec.binary self.now.module place operator first (said left faults.old.items) (said right [])) }
    {
        let numbers = left.numbers.with_operator(operator, right.numbers);
        let left_type = left.scalar;
        let right_type = right.scalar;
        let (right, x) = paired(right, self.beside(operator, right_type, left, faults))?;
        let (x, y) = paired(x, self.beside(operator, left_type, right, faults))?;
        self.operated_on(place, operator, first, numbers, x, y, faults)
    }

    /// What is faulty, and has no value.
    fn refused(&self, place: Position, faults: &mut Vec<Found>) -> Result<Typed, AllocError>
        ensures { IfOk result (λ r. said r faults.new.items ≡ after faults.old.items (spec.refused self.now.module E401 place)) }
    {
        self.note_unless(false, Number::E401, place, faults)?;
        Ok(nothing())
    }

    /// A call with the wrong number of arguments, which has no value.
    fn miscounted(&self, place: Position, faults: &mut Vec<Found>) -> Result<Typed, AllocError>
        ensures { IfOk result (λ r. said r faults.new.items ≡ after faults.old.items (spec.refused self.now.module E402 place)) }
    {
        self.note_unless(false, Number::E402, place, faults)?;
        Ok(nothing())
    }

    /// How many bytes an object has.
    fn object_size(&self, object: usize) -> u64
        ensures { result ≡ trees.object_size (slice_get (sizes self.now) object) }
    {
        match self.names.objects.get(object) {
            Some(object) => object.size,
            None => 0,
        }
    }

    /// The location of constant bytes.
    fn constants(&self, place: Position, form: LocationForm, object: usize) -> Typed
        ensures { said result [] ≡ spec.constants self.now.module place form object (sizes self.now) }
    {
        let size = self.object_size(object);
        Typed {
            tree: Expression::Location(Reference {
                line: self.line(place),
                anchor: Anchor::InObject(object, 0, size),
                offset: 0,
                subscripts: Vec::new(self.alloc),
            }),
            scalar: Some(location_type(form)),
            numbers: Numbers::Other,
        }
    }

    #[cycle(expression)]
    pub fn expression(
        &self,
        e: &plm_decl::Expression,
        faults: &mut Vec<Found>,
    ) -> Result<Typed, AllocError>
        ensures { IfOk result (λ r. said r faults.new.items ≡ after faults.old.items (typed_by self.now (resolved.expression_of e.now))) }
    {
        resolved_trees_have_their_lists();
        match e {
            plm_decl::Expression::Number(number) => self.number(*number, faults),
            plm_decl::Expression::Text(place, text) => self.text(*place, text, faults),
            plm_decl::Expression::Reference(reference) => self.value(reference, faults),
            plm_decl::Expression::Location(location) => self.location(location, faults),
            plm_decl::Expression::Parenthesised(_, inner) => {
                let typed = self.expression(inner, faults)?;
                Ok(typed.parenthesised())
            }
            plm_decl::Expression::Embedded(place, target, value) => {
                let stored = self.target(target, faults)?;
                let (target, value) = paired(stored, self.expression(value, faults))?;
                self.embedded(*place, target, value, faults)
            }
            plm_decl::Expression::Unary(place, operator, operand) => {
                let operand = self.expression(operand, faults)?;
                self.unary(*place, *operator, operand, faults)
            }
            plm_decl::Expression::Chain { first, others } => {
                let left = self.expression(first, faults)?;
                self.operations(others, first_place(first), left, faults)
            }
        }
    }

    /// Operators of one precedence with their right operands, after a left operand that begins at the place `first`.
    #[cycle(expression)]
    fn operations(
        &self,
        operations: &[plm_decl::Operation],
        first: Position,
        left: Typed,
        faults: &mut Vec<Found>,
    ) -> Result<Typed, AllocError>
        ensures { IfOk result (λ r. said r faults.new.items ≡ chain (variables self.now) (procedures self.now) (sizes self.now) self.now.module first (said left faults.old.items) operations.now) }
    {
        let mut typed = left;
        for operation in operations {
            let (so_far, right) = paired(typed, self.expression(&operation.operand, faults))?;
            typed = self.binary(
                operation.place,
                operation.operator,
                first,
                so_far,
                right,
                faults,
            )?;
        }
        Ok(typed)
    }

    #[cycle(expression)]
    pub fn list(
        &self,
        es: &[plm_decl::Expression],
        faults: &mut Vec<Found>,
    ) -> Result<TypedList, AllocError>
        ensures { IfOk result (λ r. list_said r faults.new.items ≡ list_after faults.old.items (list_by self.now (resolved.expressions_of es.now))) }
    {
        let mut all = TypedList::with_capacity(self.alloc, es.len())?;
        for e in es {
            let typed = self.expression(e, faults)?;
            all.push(typed)?;
        }
        Ok(all)
    }

    /// Arguments, where values of these types are wanted.
    #[cycle(expression)]
    pub fn given(
        &self,
        es: &[plm_decl::Expression],
        types: &[Option<ScalarType>],
        faults: &mut Vec<Found>,
    ) -> Result<TypedList, AllocError>
        ensures { IfOk result (λ r. list_said r faults.new.items ≡ list_after faults.old.items (given_by self.now types.now (resolved.expressions_of es.now))) }
    {
        let mut all = TypedList::new(self.alloc);
        let mut others = types;
        for e in es {
            let typed = self.expression(e, faults)?;
            let value = self.wanted(first_type(others), typed, faults)?;
            all.push(value)?;
            others = other_types(others);
        }
        Ok(all)
    }

    /// A procedure's arguments, where values of its parameters' types are wanted.
    #[cycle(expression)]
    pub fn passed(
        &self,
        es: &[plm_decl::Expression],
        procedure: Option<&Procedure>,
        faults: &mut Vec<Found>,
    ) -> Result<TypedList, AllocError>
        ensures { IfOk result (λ r. list_said r faults.new.items ≡ list_after faults.old.items (given_by self.now (parameters_wanted (variables self.now) (option_map (λ p. procedure_of p.now) procedure.entry)) (resolved.expressions_of es.now))) }
    {
        let types = self.parameters_wanted(procedure, es.len())?;
        self.given(es, &types, faults)
    }

    /// A member's subscript.
    #[cycle(expression)]
    fn selector(
        &self,
        selector: &Selector,
        faults: &mut Vec<Found>,
    ) -> Result<TypedList, AllocError>
        ensures { IfOk result (λ r. list_said r faults.new.items ≡ list_after faults.old.items (selector_by self.now (resolved.selector_of selector.now))) }
    {
        let mut all = TypedList::new(self.alloc);
        match selector {
            Selector::None | Selector::Member(_, _) => Ok(all),
            Selector::Element(_, _, subscript) => {
                let typed = self.expression(subscript, faults)?;
                all.push(typed)?;
                Ok(all)
            }
        }
    }

    /// The subscripts of a reference to a variable.
    #[cycle(expression)]
    fn parts(
        &self,
        reference: &plm_decl::Reference,
        faults: &mut Vec<Found>,
    ) -> Result<Parts, AllocError>
        ensures { IfOk result (λ r. parts_said r faults.new.items ≡ parts_after faults.old.items (parts_by self.now (resolved.reference_of reference.now))) }
    {
        let subscripts = self.list(&reference.subscripts, faults)?;
        let member = self.selector(&reference.selector, faults)?;
        Ok(Parts { subscripts, member })
    }

    /// A variable as a value, whose subscripts are typed first. It stands apart, as most are named alone.
    #[cycle(expression)]
    #[inline(never)]
    fn read_by_parts(
        &self,
        reference: &plm_decl::Reference,
        variable: Option<Variable>,
        faults: &mut Vec<Found>,
    ) -> Result<Typed, AllocError>
        ensures { IfOk result (λ r. said r faults.new.items ≡ after faults.old.items (spec.read (variables self.now) self.now.module reference.now.place variable (resolved.selector_of reference.now.selector) (parts_by self.now (resolved.reference_of reference.now)))) }
    {
        let parts = self.parts(reference, faults)?;
        self.read(reference, variable, parts, faults)
    }

    /// The same as a target.
    #[cycle(expression)]
    #[inline(never)]
    fn store_by_parts(
        &self,
        reference: &plm_decl::Reference,
        variable: Option<Variable>,
        faults: &mut Vec<Found>,
    ) -> Result<TypedTarget, AllocError>
        ensures { IfOk result (λ r. target_said r faults.new.items ≡ target_after faults.old.items (spec.stored (variables self.now) self.now.module reference.now.place variable (resolved.selector_of reference.now.selector) (parts_by self.now (resolved.reference_of reference.now)))) }
    {
        let parts = self.parts(reference, faults)?;
        self.stored(reference, variable, parts, faults)
    }

    // (put into `expression`, it would take half a kilobyte of stack at each level)
    #[inline(never)]
    #[cycle(expression)]
    pub fn value(
        &self,
        reference: &plm_decl::Reference,
        faults: &mut Vec<Found>,
    ) -> Result<Typed, AllocError>
        ensures { IfOk result (λ r. said r faults.new.items ≡ after faults.old.items (value_by self.now (resolved.reference_of reference.now))) }
    {
        match reference.binding {
            Binding::Variable(variable) => {
                let variable = self.variable(variable);
                match self.read_alone(reference, variable) {
                    Some(typed) => Ok(typed),
                    None => self.read_by_parts(reference, variable, faults),
                }
            }
            Binding::Procedure(procedure) => {
                let procedure = self.procedure(procedure);
                let arguments = self.passed(&reference.subscripts, procedure, faults)?;
                self.called(reference, procedure, arguments, faults)
            }
            Binding::Builtin(builtin) => {
                self.note_unless(!is_target(builtin), Number::E401, reference.place, faults)?;
                if is_measure(builtin) {
                    return self.measure_call(reference, builtin, faults);
                }
                let types = wanted_arguments(builtin);
                let arguments = self.given(&reference.subscripts, types, faults)?;
                self.operated(reference, builtin, arguments, faults)
            }
            Binding::Nothing => self.refused(reference.place, faults),
        }
    }

    /// LENGTH, LAST or SIZE.
    #[cycle(expression)]
    fn measure_call(
        &self,
        reference: &plm_decl::Reference,
        builtin: Builtin,
        faults: &mut Vec<Found>,
    ) -> Result<Typed, AllocError>
        ensures { IfOk result (λ r. said r faults.new.items ≡ after faults.old.items (spec.plainly self.now.module reference.now.place (resolved.selector_of reference.now.selector) (arguments_by self.now reference.now.place builtin (resolved.expressions_of reference.now.subscripts.items)))) }
    {
        let plain = is_plain(&reference.selector);
        self.note_unless(plain, Number::E401, reference.place, faults)?;
        let typed = self.arguments(reference.place, builtin, &reference.subscripts, faults)?;
        Ok(typed.given_if(plain))
    }

    /// LENGTH, LAST or SIZE of one argument; the first of several is judged all the same.
    #[cycle(expression)]
    fn arguments(
        &self,
        place: Position,
        builtin: Builtin,
        es: &[plm_decl::Expression],
        faults: &mut Vec<Found>,
    ) -> Result<Typed, AllocError>
        ensures { IfOk result (λ r. said r faults.new.items ≡ after faults.old.items (arguments_by self.now place builtin (resolved.expressions_of es.now))) }
    {
        match es {
            [] => self.miscounted(place, faults),
            [argument] => self.argument(place, builtin, argument, faults),
            [first, _, ..] => {
                let judged = self.argument(place, builtin, first, faults)?;
                drop(judged);
                self.miscounted(place, faults)
            }
        }
    }

    /// What LENGTH, LAST or SIZE is of: a plain reference to a variable.
    #[cycle(expression)]
    fn argument(
        &self,
        place: Position,
        builtin: Builtin,
        argument: &plm_decl::Expression,
        faults: &mut Vec<Found>,
    ) -> Result<Typed, AllocError>
        ensures { IfOk result (λ r. said r faults.new.items ≡ after faults.old.items (argument_by self.now place builtin (resolved.expression_of argument.now))) }
    {
        resolved_trees_have_their_lists();
        match argument {
            plm_decl::Expression::Reference(reference) => {
                match reference.binding {
                    Binding::Variable(variable) => {
                        let parts = self.parts(reference, faults)?;
                        let variable = self.variable(variable);
                        self.measured(place, builtin, reference, variable, &parts, faults)
                    }
                    Binding::Procedure(_) | Binding::Builtin(_) | Binding::Nothing => {
                        self.refused(place, faults)
                    }
                }
            }
            // Without operators it is its first operand.
            plm_decl::Expression::Chain { first, others } => {
                if others.is_empty() {
                    return self.argument(place, builtin, first, faults);
                }
                self.refused(place, faults)
            }
            plm_decl::Expression::Number(_)
            | plm_decl::Expression::Text(_, _)
            | plm_decl::Expression::Location(_)
            | plm_decl::Expression::Parenthesised(_, _)
            | plm_decl::Expression::Embedded(_, _, _)
            | plm_decl::Expression::Unary(_, _, _) => self.refused(place, faults),
        }
    }

    #[cycle(expression)]
    pub fn location(
        &self,
        location: &Location,
        faults: &mut Vec<Found>,
    ) -> Result<Typed, AllocError>
        ensures { IfOk result (λ r. said r faults.new.items ≡ after faults.old.items (location_by self.now (resolved.location_of location.now))) }
    {
        resolved_trees_have_their_lists();
        match location {
            Location::Reference(place, form, reference) => {
                match reference.binding {
                    Binding::Variable(variable) => {
                        let parts = self.parts(reference, faults)?;
                        let variable = self.variable(variable);
                        self.located(*place, *form, reference, variable, parts, faults)
                    }
                    Binding::Procedure(_) | Binding::Builtin(_) | Binding::Nothing => {
                        self.refused(*place, faults)
                    }
                }
            }
            Location::Constants(place, form, object) => {
                Ok(self.constants(*place, *form, *object))
            }
        }
    }

    #[cycle(expression)]
    pub fn target(
        &self,
        reference: &plm_decl::Reference,
        faults: &mut Vec<Found>,
    ) -> Result<TypedTarget, AllocError>
        ensures { IfOk result (λ r. target_said r faults.new.items ≡ target_after faults.old.items (target_by self.now (resolved.reference_of reference.now))) }
    {
        match reference.binding {
            Binding::Variable(variable) => {
                let variable = self.variable(variable);
                match self.store_alone(reference, variable) {
                    Some(typed) => Ok(typed),
                    None => self.store_by_parts(reference, variable, faults),
                }
            }
            Binding::Builtin(builtin) => {
                let arguments = self.list(&reference.subscripts, faults)?;
                self.port(reference, builtin, arguments, faults)
            }
            Binding::Procedure(_) | Binding::Nothing => {
                self.note_unless(false, Number::E401, reference.place, faults)?;
                Ok(TypedTarget {
                    tree: Target::Port(Width::Word, Expression::Constant(0)),
                    scalar: None,
                })
            }
        }
    }
}
