//! Why there are faults of types among statements and declarations, and where.

use crate::explaining::looking::{Looking, first_place, target_of};
use crate::explaining::reason::{Reason, Reasoned, Rule, Target, Type, first};
use crate::explaining::references::variable_of;
use crate::explaining::studied::number_at;
use crate::explaining::value_types::Types;
use crate::noted::Noted;
use plm_decl::{Binding, Bounds, Expression, Names, Procedure, Reference, Region, Statement};
use plm_syntax::{Linkage, Numeral, Position, UnaryOperator};
use plm_type::{is_integer, may_be_number, may_count, takes};
use std::alloc::{AllocError, Global};

/// What a statement stands in: main, or a procedure with the type of its value.
#[derive(Clone, Copy)]
enum Around {
    Main,
    Procedure(Type),
}

/// A number, and the greatest one that may stand in its place.
#[derive(Clone, Copy)]
struct Step {
    number: Numeral,
    greatest: u32,
}

/// A number that stands alone.
#[cycle(number_alone)]
fn number_alone(e: &Expression) -> Option<Numeral> {
    match e {
        Expression::Number(number) => Some(*number),
        // Without operators it is its first operand.
        Expression::Chain { first, others } => {
            if others.is_empty() {
                return number_alone(first);
            }
            None
        }
        Expression::Text(_, _)
        | Expression::Reference(_)
        | Expression::Location(_)
        | Expression::Parenthesised(_, _)
        | Expression::Embedded(_, _, _)
        | Expression::Unary(_, _, _) => None,
    }
}

/// A number alone, behind a sign.
fn signed_number(operator: UnaryOperator, operand: &Expression) -> Option<Step> {
    let number = number_alone(operand)?;
    match operator {
        UnaryOperator::Plus => Some(Step {
            number,
            greatest: 32_767,
        }),
        UnaryOperator::Minus => Some(Step {
            number,
            greatest: 32_768,
        }),
        UnaryOperator::Not => None,
    }
}

/// The step of a DO with an INTEGER index: a number, perhaps behind one sign.
#[cycle(signed_step)]
fn signed_step(e: &Expression) -> Option<Step> {
    match e {
        Expression::Number(number) => Some(Step {
            number: *number,
            greatest: 32_767,
        }),
        Expression::Unary(_, operator, operand) => signed_number(*operator, operand),
        // Without operators it is its first operand.
        Expression::Chain { first, others } => {
            if others.is_empty() {
                return signed_step(first);
            }
            None
        }
        Expression::Text(_, _)
        | Expression::Reference(_)
        | Expression::Location(_)
        | Expression::Embedded(_, _, _)
        | Expression::Parenthesised(_, _) => None,
    }
}

impl Looking<'_> {
    /// A condition.
    fn condition(&self, place: Position, e: &Expression, found: &mut Noted<Reasoned>) {
        self.expression(e, found);
        let scalar = self.types.expression(e);
        self.types_if(
            place,
            !may_be_number(scalar),
            Reason::Condition(scalar),
            found,
        )
    }

    /// The value of DO CASE.
    fn case_value(&self, place: Position, e: &Expression, found: &mut Noted<Reasoned>) {
        self.expression(e, found);
        let holds = !may_count(self.types.expression(e));
        self.types_if(place, holds, Reason::Broken(Rule::CaseValue), found)
    }

    /// The type that is wanted for these targets: INTEGER where one of them is.
    fn wanted_among(&self, targets: &[Reference]) -> Type {
        for target in targets {
            let scalar = self.types.value(target);
            if is_integer(scalar) {
                return scalar;
            }
        }
        None
    }

    /// The first of these targets whose type does not go with this one, of another target.
    fn unlike(&self, targets: &[Reference], one: Target, scalar: Type) -> Option<Reason> {
        for target in targets {
            let other = self.types.value(target);
            if !takes(scalar, other) {
                return Some(Reason::Targets(one, scalar, target_of(target), other));
            }
        }
        None
    }

    /// Two targets of different kinds.
    fn mixed(&self, targets: &[Reference]) -> Option<Reason> {
        for target in targets {
            let scalar = self.types.value(target);
            if scalar.is_some() {
                return self.unlike(targets, target_of(target), scalar);
            }
        }
        None
    }

    /// The first target that does not take a value of this type.
    fn untaken(&self, targets: &[Reference], kept: Type) -> Option<Reason> {
        for target in targets {
            let into = self.types.value(target);
            if !takes(into, kept) {
                return Some(Reason::Store(target_of(target), into, kept));
            }
        }
        None
    }

    /// Why the targets do not take the value: at the statement, or at a number of the value.
    fn store(
        &self,
        place: Position,
        targets: &[Reference],
        value: &Expression,
        found: &mut Noted<Reasoned>,
    ) {
        let into = self.wanted_among(targets);
        let value = self.types.typed(value);
        let kept = value.wanted(into).scalar;
        self.range(into, value, found);
        let reason = first(self.mixed(targets), self.untaken(targets, kept));
        self.types_for(place, reason, found)
    }

    /// Looks in targets, one after another.
    fn targets(&self, targets: &[Reference], found: &mut Noted<Reasoned>) {
        for target in targets {
            self.target(target, found);
        }
    }

    fn assignment(&self, targets: &[Reference], value: &Expression, found: &mut Noted<Reasoned>) {
        let place = match targets.first() {
            Some(target) => target.place,
            None => first_place(value),
        };
        self.targets(targets, found);
        self.expression(value, found);
        self.store(place, targets, value, found)
    }

    fn call_statement(&self, place: Position, reference: &Reference, found: &mut Noted<Reasoned>) {
        match reference.binding {
            Binding::Procedure(number) => {
                self.list(&reference.subscripts, found);
                self.call(number, reference, found)
            }
            Binding::Variable(_) | Binding::Builtin(_) | Binding::Nothing => {
                self.types_if(place, true, Reason::Broken(Rule::NoProcedure), found)
            }
        }
    }

    /// RETURN without a value.
    fn bare_return(&self, around: Around, place: Position, found: &mut Noted<Reasoned>) {
        match around {
            Around::Main => {
                self.types_if(place, true, Reason::Broken(Rule::ReturnInMain), found)
            }
            Around::Procedure(returned) => {
                let reason = Reason::ReturnWithoutValue(returned);
                self.types_if(place, returned.is_some(), reason, found)
            }
        }
    }

    /// A value that a procedure does not return.
    fn returned(
        &self,
        returned: Type,
        place: Position,
        e: &Expression,
        found: &mut Noted<Reasoned>,
    ) {
        if returned.is_none() {
            return self.types_if(place, true, Reason::Broken(Rule::ReturnWithValue), found);
        }
        let value = self.types.typed(e);
        let kept = value.wanted(returned).scalar;
        self.range(returned, value, found);
        let reason = Reason::ReturnType(returned, kept);
        self.types_if(place, !takes(returned, kept), reason, found)
    }

    /// RETURN with a value.
    fn returning(
        &self,
        around: Around,
        place: Position,
        e: &Expression,
        found: &mut Noted<Reasoned>,
    ) {
        self.expression(e, found);
        match around {
            Around::Main => {
                self.types_if(place, true, Reason::Broken(Rule::ReturnInMain), found)
            }
            Around::Procedure(returned) => self.returned(returned, place, e, found),
        }
    }

    /// The index of a DO.
    fn index(
        &self,
        place: Position,
        name: Position,
        binding: Binding,
        found: &mut Noted<Reasoned>,
    ) {
        let Some(number) = variable_of(binding) else {
            return self.types_if(place, true, Reason::Broken(Rule::Index), found);
        };
        let is_plain = match self.types.names.variables.get(number) {
            Some(variable) => variable.dimension.is_none() && !is_based(variable.region),
            None => false,
        };
        let scalar = self.types.variable_type(number);
        let holds = !is_plain || scalar.is_none() || !may_count(scalar);
        self.types_if(place, holds, Reason::Broken(Rule::Index), found);
        self.data_if(name, number, found)
    }

    /// The type of the variable that a name stands for.
    fn type_of(&self, binding: Binding) -> Type {
        self.types.variable_type(variable_of(binding)?)
    }

    /// The start or the bound of a DO whose index, at a token, has this type.
    fn bound(
        &self,
        place: Position,
        index: (Type, u32),
        e: &Expression,
        found: &mut Noted<Reasoned>,
    ) {
        let (into, name) = index;
        let value = self.types.typed(e);
        let kept = value.wanted(into).scalar;
        let is_taken = if is_integer(into) {
            takes(into, kept)
        } else {
            may_be_number(kept)
        };
        self.expression(e, found);
        self.range(into, value, found);
        self.types_if(place, !is_taken, Reason::Bound(name, into, kept), found)
    }

    /// The step of a DO with an INTEGER index.
    fn integer_step(&self, place: Position, e: &Expression, found: &mut Noted<Reasoned>) {
        match signed_step(e) {
            Some(step) => {
                let holds = step.number.value > step.greatest;
                let reason = Reason::Broken(Rule::LargeStep);
                self.types_if(step.number.place, holds, reason, found)
            }
            None => self.types_if(place, true, Reason::Broken(Rule::IntegerStep), found),
        }
    }

    /// The step of a DO with a BYTE or WORD index.
    fn plain_step(&self, place: Position, e: &Expression, found: &mut Noted<Reasoned>) {
        self.expression(e, found);
        let scalar = self.types.expression(e);
        self.types_if(place, !may_be_number(scalar), Reason::Step(scalar), found)
    }

    /// The step of a DO whose index has this type.
    fn step(
        &self,
        place: Position,
        index: Type,
        step: &Option<Expression>,
        found: &mut Noted<Reasoned>,
    ) {
        match step {
            Some(step) => {
                if is_integer(index) {
                    return self.integer_step(place, step, found);
                }
                self.plain_step(place, step, found)
            }
            None => {}
        }
    }

    /// What stands before the statements of a DO with an index.
    fn bounds(
        &self,
        place: Position,
        name: Position,
        bounds: &Bounds,
        found: &mut Noted<Reasoned>,
    ) {
        let into = self.type_of(bounds.binding);
        let number = number_at(name);
        self.index(place, name, bounds.binding, found);
        self.bound(place, (into, number), &bounds.from, found);
        self.bound(place, (into, number), &bounds.to, found);
        self.step(place, into, &bounds.step, found)
    }

    #[cycle(looking_statement)]
    fn statement(&self, statement: &Statement, around: Around, found: &mut Noted<Reasoned>) {
        match statement {
            Statement::Empty(_)
            | Statement::Enable(_)
            | Statement::Disable(_)
            | Statement::Halt(_) => {}
            Statement::Assign(targets, value) => self.assignment(targets, value, found),
            Statement::Call(place, reference) => self.call_statement(*place, reference, found),
            Statement::Return(place) => self.bare_return(around, *place, found),
            Statement::ReturnValue(place, value) => { self.returning(around, *place, value, found) }
            Statement::If(place, test, then) => {
                self.condition(*place, test, found);
                self.statement(then, around, found)
            }
            Statement::IfElse(place, test, then, other) => {
                self.condition(*place, test, found);
                self.statement(then, around, found);
                self.statement(other, around, found)
            }
            Statement::Do(_, body) => self.statements(body, around, found),
            Statement::While(place, test, body) => {
                self.condition(*place, test, found);
                self.statements(body, around, found)
            }
            Statement::Case(place, value, body) => {
                self.case_value(*place, value, found);
                self.statements(body, around, found)
            }
            Statement::Iterate(place, name, bounds, body) => {
                self.bounds(*place, *name, bounds, found);
                self.statements(body, around, found)
            }
        }
    }

    #[cycle(looking_statement)]
    fn statements(&self, statements: &[Statement], around: Around, found: &mut Noted<Reasoned>) {
        for statement in statements {
            self.statement(statement, around, found);
        }
    }

    /// The parameters of a procedure, where one of them is faulty.
    fn parameters(&self, parameters: &[usize], found: &mut Noted<Reasoned>) {
        for parameter in parameters {
            if let Some(variable) = self.types.names.variables.get(*parameter) {
                let reason = Reason::Broken(Rule::Parameter);
                self.types_if(variable.place, true, reason, found);
            }
        }
    }

    fn procedure(&self, procedure: &Procedure, found: &mut Noted<Reasoned>) {
        let number = procedure.interrupt.unwrap_or(0);
        self.parameters(&procedure.parameters, found);
        let reason = Reason::InterruptNumber(number);
        self.types_if(procedure.place, number > 0xFF, reason, found);
        if let Some(place) = procedure.stray {
            self.types_if(place, true, Reason::Broken(Rule::Stray), found);
        }
        match procedure.linkage {
            Linkage::External => {}
            Linkage::None | Linkage::Public => {
                let around = Around::Procedure(procedure.returned);
                self.statements(&procedure.body, around, found)
            }
        }
    }
}

/// Adds the reasons of the locations that are declared.
fn add_locations(types: Types<'_>, found: &mut Noted<Reasoned>) {
    for declared in &types.names.locations {
        let module = declared.module;
        let looking = Looking { types, module };
        looking.location(&declared.location, found);
    }
}

/// Adds the reasons of the procedures.
fn add_procedures(types: Types<'_>, found: &mut Noted<Reasoned>) {
    for procedure in &types.names.procedures {
        let module = procedure.module;
        let looking = Looking { types, module };
        looking.procedure(procedure, found);
    }
}

/// Why names have each of their faults of types, in the order of their tokens; at one token in the order in which types are checked.
pub(crate) fn all_reasons(alloc: Global, names: &Names) -> Result<Vec<Reasoned>, AllocError> {
    let types = Types { names };
    let mut noted: Noted<Reasoned> = Noted::new(alloc);
    add_locations(types, &mut noted);
    add_procedures(types, &mut noted);
    let module = names.main.module;
    let main = Looking { types, module };
    main.statements(&names.main.statements, Around::Main, &mut noted);
    let mut found = noted.whole()?;
    found.sort_by_key(|it: &Reasoned| (it.module, it.place))?;
    Ok(found)
}

/// Whether a base says where it lies.
fn is_based(region: Region) -> bool {
    match region {
        Region::Based(_) => true,
        Region::Ram(_, _) | Region::Screen(_, _) | Region::Nowhere => false,
    }
}
