//! Statements: the faults of their types, and what they do with names as places.

ghost use Rattle.std.specs.Prelude.{◌≡◌, ◌∷◌, [], ◌++◌, IfOk, OnOk, map};
ghost use Rattle.plm_decl.specs.Resolved.{references, no_references};
ghost use Rattle.plm_decl.specs.ResolvedView as resolved;
ghost use Rattle.plm_type.specs.Inner.Typer.{one, variables, noted, noted_after, said, after, typed_by, targets_said, targets_after, step_said, number_by, count_by, bound_by, targets_by, call_by, index_by, assignment_by, return_by, range_of, range_by, condition_of, condition_by, statement_by, statements_by};
ghost use Rattle.plm_type.specs.Expressions.{wanted};
ghost use Rattle.plm_type.specs.Rest as rest;
ghost use Rattle.plm_type.specs.Statements as spec;
ghost use Rattle.plm_type.specs.View as view;

use crate::applications::{entry_of, variable_type};
use crate::expressions::first_place;
use crate::program::{Expression, Loop, Scalar, Statement, Target};
use crate::references::{TypedTarget, may_be_assigned};
use crate::shapes::{form_type, has_room, is_based, scalar, scalar_size};
use crate::steps::Step;
use crate::typer::{Typed, Typer, alone, paired};
use crate::types::{
    has_integer, is_integer, may_be_integer, may_be_integers, may_be_number, may_be_numbers,
    may_be_pointer, may_be_pointers, may_count, takes, width_of,
};
use plm_decl::found::Found;
use plm_decl::{
    Binding, Bounds, ScalarType, Statement as Resolved, Variable, resolved_trees_have_their_lists,
};
use plm_syntax::Position;
use std::alloc::AllocError;
use word86::{Number, Place, Width};

/// What a statement stands in: main, or a procedure with the type of its value.
#[derive(Clone, Copy)]
pub enum Around {
    Main,
    Procedure(Option<ScalarType>),
}

impl Around {
    /// Whether RETURN without a value may stand there.
    fn may_return(self) -> bool
        ensures { result ≡ spec.may_return self }
    {
        match self {
            Around::Main => false,
            Around::Procedure(returned) => returned.is_none(),
        }
    }

    /// Whether RETURN with a value of this type may stand there.
    fn may_return_value(self, value: Option<ScalarType>) -> bool
        ensures { result ≡ spec.may_return_value self value }
    {
        match self {
            Around::Main | Around::Procedure(None) => false,
            Around::Procedure(Some(returned)) => takes(Some(returned), value),
        }
    }

    /// The type that is wanted where a value is returned.
    fn wanted(self) -> Option<ScalarType>
        ensures { result ≡ spec.wanted_of_return self }
    {
        match self {
            Around::Main => None,
            Around::Procedure(returned) => returned,
        }
    }

    /// The width of what is returned.
    fn returned_width(self) -> Width
        ensures { result ≡ spec.returned_width self }
    {
        match self {
            Around::Main => Width::Word,
            Around::Procedure(returned) => width_of(returned),
        }
    }
}

/// The targets of an assignment: their trees and their types.
#[derive(Drop)]
struct TypedTargets {
    trees: Vec<Target>,
    types: Vec<Option<ScalarType>>,
}

/// IF with its condition and its first arm.
#[derive(Drop)]
struct Condition {
    test: Expression,
    then: Vec<Box<Statement>>,
}

impl Condition {
    /// With the statements of the other arm.
    fn with_else(self, other: Vec<Box<Statement>>) -> Statement
        ensures { view.statement_of result ≡ rest.If (view.expression_of self.test) (view.statements_of self.then.items) (view.statements_of other.items) }
    {
        Statement::If(self.test, self.then, other)
    }
}

/// The index of a DO and its values: the first, the bound and the step.
#[derive(Drop)]
struct Range {
    index: Scalar,
    from: Expression,
    bound: Expression,
    step: Step,
}

impl TypedTargets {
    /// Adds one at the end.
    fn push(&mut self, target: TypedTarget) -> Result<(), AllocError>
        ensures trees { OnOk result (self.new.trees.items ≡ self.old.trees.items ++ target.tree ∷ []) }
        ensures types { OnOk result (self.new.types.items ≡ self.old.types.items ++ target.scalar ∷ []) }
    {
        self.trees.push(target.tree)?;
        self.types.push(target.scalar)?;
        Ok(())
    }
}

/// Whether it is a scalar that is not based.
pub fn is_plain_scalar(variable: &Variable) -> bool
    ensures { result ≡ spec.is_plain_scalar variable.now }
{
    form_type(variable.form).is_some() && variable.dimension.is_none() && !is_based(variable.region)
}

/// Whether it is a scalar with room for its bytes where it lies.
pub fn is_placed_scalar(variable: &Variable) -> bool
    ensures { result ≡ spec.is_placed_scalar variable.now }
{
    is_plain_scalar(variable) && has_room(scalar_size(form_type(variable.form)), variable)
}

/// Whether it is a BYTE, WORD or INTEGER scalar that lies somewhere.
fn is_index(variable: Option<Variable>) -> bool
    ensures { result ≡ spec.is_index variable }
{
    match variable {
        Some(variable) => is_placed_scalar(&variable) && may_count(form_type(variable.form)),
        None => false,
    }
}

/// Whether a start or a bound may have the second type where the index has the first.
fn may_bound(index: Option<ScalarType>, value: Option<ScalarType>) -> bool
    ensures { result ≡ spec.may_bound index value }
{
    if is_integer(index) {
        may_be_integer(value)
    } else {
        may_be_number(value)
    }
}

/// A parameter or an index, where it lies.
pub fn index_for(variable: Option<Variable>) -> Scalar
    ensures { view.scalar_of result ≡ spec.index_for variable }
{
    match variable {
        Some(variable) => scalar(&variable),
        None => Scalar {
            width: Width::Word,
            place: Place::Ram(0, 0),
        },
    }
}

/// Whether targets and value, as far as their types are known, are all numbers, all INTEGERs, or all POINTERs.
fn all_take(targets: &[Option<ScalarType>], value: Option<ScalarType>) -> bool
    ensures { result ≡ spec.all_take targets.now value }
{
    (may_be_number(value) && may_be_numbers(targets))
        || (may_be_integer(value) && may_be_integers(targets))
        || (may_be_pointer(value) && may_be_pointers(targets))
}

/// What is wanted for targets of these types: an INTEGER where one of them is.
fn wanted_among(targets: &[Option<ScalarType>]) -> Option<ScalarType>
    ensures { result ≡ spec.wanted_among targets.now }
{
    if has_integer(targets) {
        Some(ScalarType::Integer)
    } else {
        None
    }
}

/// Where an assignment begins.
fn first_target(targets: &[plm_decl::Reference], value: &plm_decl::Expression) -> Position
    ensures { result ≡ spec.first_target (resolved.references_of targets.now) (resolved.expression_of value.now) }
{
    match targets.first() {
        Some(target) => target.place,
        None => first_place(value),
    }
}

/// The value goes to the targets.
fn assignment(mut targets: Vec<Target>, value: Expression) -> Statement
    ensures { view.statement_of result ≡ spec.assignment (map view.target_of targets.items) (view.expression_of value) }
{
    if targets.is_empty() {
        return Statement::Evaluate(value);
    }
    let first = targets.remove(0);
    Statement::Assign(first, targets, value)
}

impl Typer<'_> {
    /// The variable that a name stands for.
    fn variable_meant(&self, binding: Binding) -> Option<Variable>
        ensures { result ≡ spec.variable_meant (variables self.now) binding }
    {
        match binding {
            Binding::Variable(variable) => self.variable(variable),
            Binding::Procedure(_) | Binding::Builtin(_) | Binding::Nothing => None,
        }
    }

    /// A condition, or the step of a DO with a BYTE or WORD index.
    pub fn number_in(
        &self,
        place: Position,
        e: &plm_decl::Expression,
        faults: &mut Vec<Found>,
    ) -> Result<Expression, AllocError>
        ensures { IfOk result (λ r. noted (view.expression_of r) faults.new.items ≡ noted_after faults.old.items (number_by self.now place (resolved.expression_of e.now))) }
    {
        let typed = self.expression(e, faults)?;
        let is_number = may_be_number(typed.scalar);
        let tree = self.judged(typed.tree, is_number, Number::E401, place, faults)?;
        Ok(tree)
    }

    /// The value of DO CASE.
    fn count_in(
        &self,
        place: Position,
        e: &plm_decl::Expression,
        faults: &mut Vec<Found>,
    ) -> Result<Expression, AllocError>
        ensures { IfOk result (λ r. noted (view.expression_of r) faults.new.items ≡ noted_after faults.old.items (count_by self.now place (resolved.expression_of e.now))) }
    {
        let typed = self.expression(e, faults)?;
        let counts = may_count(typed.scalar);
        let tree = self.judged(typed.tree, counts, Number::E401, place, faults)?;
        Ok(tree)
    }

    /// An expression where a value of this type is wanted.
    fn value_for(
        &self,
        scalar: Option<ScalarType>,
        e: &plm_decl::Expression,
        faults: &mut Vec<Found>,
    ) -> Result<Typed, AllocError>
        ensures { IfOk result (λ r. said r faults.new.items ≡ after faults.old.items (wanted self.now.module scalar (typed_by self.now (resolved.expression_of e.now)))) }
    {
        let typed = self.expression(e, faults)?;
        self.wanted(scalar, typed, faults)
    }

    /// The start or the bound of a DO whose index has this type.
    fn bound_in(
        &self,
        scalar: Option<ScalarType>,
        place: Position,
        e: &plm_decl::Expression,
        faults: &mut Vec<Found>,
    ) -> Result<Expression, AllocError>
        ensures { IfOk result (λ r. noted (view.expression_of r) faults.new.items ≡ noted_after faults.old.items (bound_by self.now scalar place (resolved.expression_of e.now))) }
    {
        let value = self.value_for(scalar, e, faults)?;
        let is_taken = may_bound(scalar, value.scalar);
        let tree = self.judged(value.tree, is_taken, Number::E401, place, faults)?;
        Ok(tree)
    }

    fn targets(
        &self,
        references: &[plm_decl::Reference],
        faults: &mut Vec<Found>,
    ) -> Result<TypedTargets, AllocError>
        ensures { IfOk result (λ r. targets_said r faults.new.items ≡ targets_after faults.old.items (targets_by self.now (resolved.references_of references.now))) }
    {
        let mut all = TypedTargets {
            trees: Vec::new(self.alloc),
            types: Vec::new(self.alloc),
        };
        for reference in references {
            let typed = self.target(reference, faults)?;
            all.push(typed)?;
        }
        Ok(all)
    }

    /// An assignment to one target, as most are.
    #[inline(never)]
    fn assign_one(
        &self,
        reference: &plm_decl::Reference,
        e: &plm_decl::Expression,
        faults: &mut Vec<Found>,
    ) -> Result<Statement, AllocError>
        ensures { IfOk result (λ r. noted (view.statement_of r) faults.new.items ≡ noted_after faults.old.items (assignment_by self.now (references (resolved.reference_of reference.now) no_references) (resolved.expression_of e.now))) }
    {
        let stored = self.target(reference, faults)?;
        let scalar = stored.scalar;
        let (target, value) = paired(stored, self.value_for(scalar, e, faults))?;
        let is_taken = all_take(&[scalar], value.scalar);
        let statement = Statement::Assign(target.tree, Vec::new(self.alloc), value.tree);
        let assigned = self.judged(statement, is_taken, Number::E401, reference.place, faults)?;
        Ok(assigned)
    }

    #[inline(never)]
    fn assign(
        &self,
        references: &[plm_decl::Reference],
        e: &plm_decl::Expression,
        faults: &mut Vec<Found>,
    ) -> Result<Statement, AllocError>
        ensures { IfOk result (λ r. noted (view.statement_of r) faults.new.items ≡ noted_after faults.old.items (assignment_by self.now (resolved.references_of references.now) (resolved.expression_of e.now))) }
    {
        match references {
            [reference] => self.assign_one(reference, e, faults),
            [] | [_, _, ..] => self.assign_all(references, e, faults),
        }
    }

    /// An assignment to any number of targets.
    #[inline(never)]
    fn assign_all(
        &self,
        references: &[plm_decl::Reference],
        e: &plm_decl::Expression,
        faults: &mut Vec<Found>,
    ) -> Result<Statement, AllocError>
        ensures { IfOk result (λ r. noted (view.statement_of r) faults.new.items ≡ noted_after faults.old.items (assignment_by self.now (resolved.references_of references.now) (resolved.expression_of e.now))) }
    {
        let targets = self.targets(references, faults)?;
        let value = self.value_for(wanted_among(&targets.types), e, faults)?;
        let are_taken = all_take(&targets.types, value.scalar);
        let place = first_target(references, e);
        let statement = assignment(targets.trees, value.tree);
        let assigned = self.judged(statement, are_taken, Number::E401, place, faults)?;
        Ok(assigned)
    }

    /// CALL of a procedure.
    fn call(
        &self,
        place: Position,
        reference: &plm_decl::Reference,
        faults: &mut Vec<Found>,
    ) -> Result<Expression, AllocError>
        ensures { IfOk result (λ r. noted (view.expression_of r) faults.new.items ≡ noted_after faults.old.items (call_by self.now place (resolved.reference_of reference.now))) }
    {
        match reference.binding {
            Binding::Procedure(number) => {
                let procedure = self.procedure(number);
                let arguments = self.passed(&reference.subscripts, procedure, faults)?;
                let selector = &reference.selector;
                let types = &arguments.types;
                let noted = self.note_call(reference.place, procedure, selector, types, faults);
                let (trees, ()) = paired(arguments.into_trees(), noted)?;
                Ok(Expression::Call(entry_of(procedure), trees))
            }
            Binding::Variable(_) | Binding::Builtin(_) | Binding::Nothing => {
                self.note_unless(false, Number::E401, place, faults)?;
                Ok(Expression::Constant(0))
            }
        }
    }

    fn returned(
        &self,
        around: Around,
        place: Position,
        e: &plm_decl::Expression,
        faults: &mut Vec<Found>,
    ) -> Result<Expression, AllocError>
        ensures { IfOk result (λ r. noted (view.expression_of r) faults.new.items ≡ noted_after faults.old.items (return_by self.now around place (resolved.expression_of e.now))) }
    {
        let value = self.value_for(around.wanted(), e, faults)?;
        let is_taken = around.may_return_value(value.scalar);
        let tree = self.judged(value.tree, is_taken, Number::E401, place, faults)?;
        Ok(tree)
    }

    /// The index of a DO.
    fn index(
        &self,
        place: Position,
        name: Position,
        binding: Binding,
        faults: &mut Vec<Found>,
    ) -> Result<Scalar, AllocError>
        ensures { IfOk result (λ r. noted (view.scalar_of r) faults.new.items ≡ noted_after faults.old.items (index_by self.now place name binding)) }
    {
        let variable = self.variable_meant(binding);
        self.note_unless(is_index(variable), Number::E401, place, faults)?;
        self.note_unless(may_be_assigned(variable), Number::E403, name, faults)?;
        Ok(index_for(variable))
    }

    /// A DO with an index up to its statements, with the place of its index.
    #[inline(never)]
    fn range(
        &self,
        place: Position,
        name: Position,
        bounds: &Bounds,
        faults: &mut Vec<Found>,
    ) -> Result<Range, AllocError>
        ensures { IfOk result (λ r. noted (range_of r) faults.new.items ≡ noted_after faults.old.items (range_by self.now place name bounds.now)) }
    {
        let scalar = variable_type(self.variable_meant(bounds.binding));
        let index = self.index(place, name, bounds.binding, faults)?;
        let first = self.bound_in(scalar, place, &bounds.from, faults)?;
        let ends = paired(first, self.bound_in(scalar, place, &bounds.to, faults))?;
        let ((from, bound), step) = paired(ends, self.step(scalar, place, &bounds.step, faults))?;
        Ok(Range {
            index,
            from,
            bound,
            step,
        })
    }

    /// CALL as a statement: a value is dropped.
    #[inline(never)]
    fn call_statement(
        &self,
        place: Position,
        reference: &plm_decl::Reference,
        faults: &mut Vec<Found>,
    ) -> Result<Statement, AllocError>
        ensures { IfOk result (λ r. noted (view.statement_of r) faults.new.items ≡ noted_after faults.old.items (spec.evaluated (call_by self.now place (resolved.reference_of reference.now)))) }
    {
        let value = self.call(place, reference, faults)?;
        Ok(Statement::Evaluate(value))
    }

    /// RETURN without a value.
    fn return_alone(
        &self,
        around: Around,
        place: Position,
        faults: &mut Vec<Found>,
    ) -> Result<Statement, AllocError>
        ensures { IfOk result (λ r. noted (view.statement_of r) faults.new.items ≡ noted_after faults.old.items (spec.return_alone self.now.module around place)) }
    {
        self.note_unless(around.may_return(), Number::E401, place, faults)?;
        Ok(Statement::Return)
    }

    /// RETURN with a value.
    #[inline(never)]
    fn return_value(
        &self,
        around: Around,
        place: Position,
        value: &plm_decl::Expression,
        faults: &mut Vec<Found>,
    ) -> Result<Statement, AllocError>
        ensures { IfOk result (λ r. noted (view.statement_of r) faults.new.items ≡ noted_after faults.old.items (spec.with_value around (return_by self.now around place (resolved.expression_of value.now)))) }
    {
        let value = self.returned(around, place, value, faults)?;
        Ok(Statement::ReturnValue(around.returned_width(), value))
    }

    #[cycle(statement)]
    pub fn statement(
        &self,
        around: Around,
        statement: &Resolved,
        faults: &mut Vec<Found>,
    ) -> Result<Statement, AllocError>
        ensures { IfOk result (λ r. noted (view.statement_of r) faults.new.items ≡ noted_after faults.old.items (statement_by self.now around (resolved.statement_of statement.now))) }
    {
        resolved_trees_have_their_lists();
        match statement {
            Resolved::Empty(_) => Ok(Statement::Empty),
            Resolved::Assign(targets, value) => self.assign(targets, value, faults),
            Resolved::Call(place, reference) => self.call_statement(*place, reference, faults),
            Resolved::Return(place) => self.return_alone(around, *place, faults),
            Resolved::ReturnValue(place, value) => self.return_value(around, *place, value, faults),
            Resolved::Enable(_) => Ok(Statement::Enable),
            Resolved::Disable(_) => Ok(Statement::Disable),
            Resolved::Halt(_) => Ok(Statement::Halt),
            Resolved::If(place, test, then) => {
                let condition = self.condition(around, then, *place, test, faults)?;
                Ok(condition.with_else(Vec::new(self.alloc)))
            }
            Resolved::IfElse(place, test, then, other) => {
                let condition = self.condition(around, then, *place, test, faults)?;
                self.choice(around, other, condition, faults)
            }
            Resolved::Do(_, body) => self.block(around, body, faults),
            Resolved::While(place, test, body) => {
                self.while_loop(around, body, *place, test, faults)
            }
            Resolved::Case(place, value, cases) => {
                self.case(around, cases, *place, value, faults)
            }
            Resolved::Iterate(place, name, bounds, body) => {
                let range = self.range(*place, *name, bounds, faults)?;
                self.iterate(around, range, body, faults)
            }
        }
    }

    /// IF with its first arm.
    #[cycle(statement)]
    fn condition(
        &self,
        around: Around,
        then: &Resolved,
        place: Position,
        test: &plm_decl::Expression,
        faults: &mut Vec<Found>,
    ) -> Result<Condition, AllocError>
        ensures { IfOk result (λ r. noted (condition_of r) faults.new.items ≡ noted_after faults.old.items (condition_by self.now around place (resolved.expression_of test.now) (resolved.statement_of then.now))) }
    {
        let asked = self.number_in(place, test, faults)?;
        let (test, then) = paired(asked, self.arm(around, then, faults))?;
        Ok(Condition { test, then })
    }

    /// IF with ELSE.
    #[cycle(statement)]
    #[inline(never)]
    fn choice(
        &self,
        around: Around,
        other: &Resolved,
        condition: Condition,
        faults: &mut Vec<Found>,
    ) -> Result<Statement, AllocError>
        ensures { IfOk result (λ r. noted (view.statement_of r) faults.new.items ≡ noted_after faults.old.items (noted (rest.If (view.expression_of condition.test) (view.statements_of condition.then.items) (one (statement_by self.now around (resolved.statement_of other.now))).tree) (statement_by self.now around (resolved.statement_of other.now)).faults)) }
    {
        let (condition, other) = paired(condition, self.arm(around, other, faults))?;
        Ok(condition.with_else(other))
    }

    #[cycle(statement)]
    #[inline(never)]
    fn block(
        &self,
        around: Around,
        body: &[Resolved],
        faults: &mut Vec<Found>,
    ) -> Result<Statement, AllocError>
        ensures { IfOk result (λ r. noted (view.statement_of r) faults.new.items ≡ noted_after faults.old.items (spec.block (statements_by self.now around (resolved.statements_of body.now)))) }
    {
        let body = self.statements(around, body, faults)?;
        Ok(Statement::Block(body))
    }

    /// DO WHILE.
    #[cycle(statement)]
    #[inline(never)]
    fn while_loop(
        &self,
        around: Around,
        body: &[Resolved],
        place: Position,
        test: &plm_decl::Expression,
        faults: &mut Vec<Found>,
    ) -> Result<Statement, AllocError>
        ensures { IfOk result (λ r. noted (view.statement_of r) faults.new.items ≡ noted_after faults.old.items (spec.while_loop (number_by self.now place (resolved.expression_of test.now)) (statements_by self.now around (resolved.statements_of body.now)))) }
    {
        let asked = self.number_in(place, test, faults)?;
        let (test, body) = paired(asked, self.statements(around, body, faults))?;
        Ok(Statement::While(test, body))
    }

    /// DO CASE.
    #[cycle(statement)]
    #[inline(never)]
    fn case(
        &self,
        around: Around,
        cases: &[Resolved],
        place: Position,
        value: &plm_decl::Expression,
        faults: &mut Vec<Found>,
    ) -> Result<Statement, AllocError>
        ensures { IfOk result (λ r. noted (view.statement_of r) faults.new.items ≡ noted_after faults.old.items (spec.cases (count_by self.now place (resolved.expression_of value.now)) (statements_by self.now around (resolved.statements_of cases.now)))) }
    {
        let counted = self.count_in(place, value, faults)?;
        let (value, cases) = paired(counted, self.statements(around, cases, faults))?;
        Ok(Statement::Case(value, cases))
    }

    /// A DO with its index and values, and its statements.
    #[cycle(statement)]
    #[inline(never)]
    fn iterate(
        &self,
        around: Around,
        range: Range,
        body: &[Resolved],
        faults: &mut Vec<Found>,
    ) -> Result<Statement, AllocError>
        ensures { IfOk result (λ r. noted (view.statement_of r) faults.new.items ≡ noted_after faults.old.items (spec.iterate (noted (view.scalar_of range.index) []) (noted (view.expression_of range.from) []) (noted (view.expression_of range.bound) []) (step_said range.step []) (statements_by self.now around (resolved.statements_of body.now)))) }
    {
        let (range, body) = paired(range, self.statements(around, body, faults))?;
        let rounds = Loop {
            counting: range.step.counting,
            index: range.index,
            bound: range.bound,
            step: range.step.tree,
            body,
        };
        let (from, rounds) = paired(range.from, Box::new(self.alloc, rounds))?;
        Ok(Statement::Iterate(from, rounds))
    }

    /// An arm of IF: a list of one statement.
    #[cycle(statement)]
    fn arm(
        &self,
        around: Around,
        statement: &Resolved,
        faults: &mut Vec<Found>,
    ) -> Result<Vec<Box<Statement>>, AllocError>
        ensures { IfOk result (λ r. noted (view.statements_of r.items) faults.new.items ≡ noted_after faults.old.items (one (statement_by self.now around (resolved.statement_of statement.now)))) }
    {
        let statement = self.statement(around, statement, faults)?;
        Ok(alone(self.alloc, Box::new(self.alloc, statement)?)?)
    }

    #[cycle(statement)]
    pub fn statements(
        &self,
        around: Around,
        statements: &[Resolved],
        faults: &mut Vec<Found>,
    ) -> Result<Vec<Box<Statement>>, AllocError>
        ensures { IfOk result (λ r. noted (view.statements_of r.items) faults.new.items ≡ noted_after faults.old.items (statements_by self.now around (resolved.statements_of statements.now))) }
    {
        let mut typed = Vec::with_capacity(self.alloc, statements.len())?;
        for statement in statements {
            let tree = self.statement(around, statement, faults)?;
            typed.push(Box::new(self.alloc, tree)?)?;
        }
        Ok(typed)
    }
}
