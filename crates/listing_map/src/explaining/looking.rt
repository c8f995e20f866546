//! Why there are faults of types, and where: the statements and expressions are gone through once, in the order in which types are checked.

use crate::explaining::reason::{Reason, Reasoned, Rule, Target, Type, TypeFault, first};
use crate::explaining::references::{reference_of, variable_of};
use crate::explaining::studied::number_at;
use crate::explaining::value_types::{Typed, Types, beside, paired};
use crate::noted::Noted;
use plm_decl::{
    Binding, Builtin, Expression, Form, Location, Operation, Reference, Region, Selector, Variable,
};
use plm_syntax::Position;
use plm_type::{
    arity, is_measure, is_target, may_be_arguments, may_count, number_type, operands_fit, takes,
    text_type, unary_fits, wanted_arguments,
};

/// What faults of types are looked for in: a module, with the names by which its expressions are typed.
#[derive(Clone, Copy)]
pub(crate) struct Looking<'n> {
    pub types: Types<'n>,
    pub module: usize,
}

/// What a built-in takes first: UNSIGN an INTEGER; nothing where that is a BYTE or a WORD.
fn taken_by(builtin: Builtin) -> Type {
    match wanted_arguments(builtin) {
        [first, ..] => *first,
        [] => None,
    }
}

/// Whether LENGTH, LAST or SIZE is of a variable.
fn measures_variable(arguments: &[Expression]) -> bool {
    let [argument] = arguments else {
        return false;
    };
    match reference_of(argument) {
        Some(reference) => variable_of(reference.binding).is_some(),
        None => false,
    }
}

/// Where an expression begins.
#[cycle(beginning)]
pub(crate) fn first_place(e: &Expression) -> Position {
    match e {
        Expression::Number(number) => number.place,
        Expression::Reference(reference) => reference.place,
        Expression::Location(location) => match location {
            Location::Reference(place, _, _) | Location::Constants(place, _, _) => *place,
        },
        Expression::Text(place, _)
        | Expression::Parenthesised(place, _)
        | Expression::Embedded(place, _, _)
        | Expression::Unary(place, _, _) => *place,
        Expression::Chain { first, .. } => first_place(first),
    }
}

/// The member that a selector names, by the number of its token.
fn member_of(selector: &Selector) -> Option<u32> {
    match selector {
        Selector::None => None,
        Selector::Member(place, _) | Selector::Element(place, _, _) => Some(number_at(*place)),
    }
}

/// What a sentence names of a target.
pub(crate) fn target_of(target: &Reference) -> Target {
    Target {
        name: number_at(target.place),
        member: member_of(&target.selector),
    }
}

/// Whether what is named may be a part of a variable, as in a location, or has to be a whole scalar.
#[derive(Clone, Copy)]
enum Extent {
    Whole,
    Part,
}

/// Why `count` subscripts do not fit a dimension.
fn subscripts(extent: Extent, dimension: Option<u32>, count: usize) -> Option<Reason> {
    match (dimension, count) {
        (None, 0) | (Some(_), 1) => None,
        (None, _) => Some(Reason::Broken(Rule::SurplusSubscript)),
        (Some(_), 0) => (extent == Extent::Whole).then_some(Reason::Broken(Rule::MissingSubscript)),
        (Some(_), _) => Some(Reason::SeveralSubscripts(count)),
    }
}

/// Why a selector does not fit a form.
fn selected(extent: Extent, form: Form, selector: &Selector) -> Option<Reason> {
    match (form, selector) {
        (Form::Scalar(_), Selector::None) => None,
        (Form::Scalar(_), Selector::Member(_, _) | Selector::Element(_, _, _)) => {
            Some(Reason::Broken(Rule::SurplusMember))
        }
        (Form::Structure(_), Selector::None) => {
            (extent == Extent::Whole).then_some(Reason::Broken(Rule::MissingMember))
        }
        (Form::Structure(_), Selector::Member(_, Some(member))) => {
            let is_missing = extent == Extent::Whole && member.dimension.is_some();
            is_missing.then_some(Reason::Broken(Rule::MissingMemberSubscript))
        }
        (Form::Structure(_), Selector::Element(_, Some(member), _)) => member
            .dimension
            .is_none()
            .then_some(Reason::Broken(Rule::SurplusMemberSubscript)),
        (Form::Structure(_), Selector::Member(_, None) | Selector::Element(_, None, _)) => None,
    }
}

/// Whether it is on a page of the screen.
fn is_on_screen(variable: &Variable) -> bool {
    match variable.region {
        Region::Screen(_, _) => true,
        Region::Ram(_, _) | Region::Based(_) | Region::Nowhere => false,
    }
}

impl Looking<'_> {
    /// Notes why there is a fault at a token.
    fn note(&self, place: Position, fault: TypeFault, reason: Reason, found: &mut Noted<Reasoned>) {
        found.add(Reasoned {
            module: self.module,
            place: place.token as usize,
            fault,
            reason,
        });
    }

    /// Notes a reason for a fault of types at a token, where something holds.
    pub fn types_if(
        &self,
        place: Position,
        holds: bool,
        reason: Reason,
        found: &mut Noted<Reasoned>,
    ) {
        if !holds {
            return;
        }
        self.note(place, TypeFault::Types, reason, found)
    }

    /// Notes the reason for a fault of types at a token, if there is one.
    pub fn types_for(&self, place: Position, reason: Option<Reason>, found: &mut Noted<Reasoned>) {
        match reason {
            Some(reason) => self.note(place, TypeFault::Types, reason, found),
            None => {}
        }
    }

    /// A number that no INTEGER can have, where a value of this type is wanted.
    pub fn range(&self, into: Type, value: Typed, found: &mut Noted<Reasoned>) {
        match value.misfit(into) {
            Some(place) => self.types_if(place, true, Reason::LargeInteger, found),
            None => {}
        }
    }

    fn variable(&self, number: usize) -> Option<Variable> {
        self.types.names.variables.get(number).copied()
    }

    /// Why a reference does not have its variable's shape.
    fn misshape(&self, extent: Extent, number: usize, reference: &Reference) -> Option<Reason> {
        let variable = self.variable(number)?;
        let count = reference.subscripts.len();
        let shape = first(
            subscripts(extent, variable.dimension, count),
            selected(extent, variable.form, &reference.selector),
        );
        let has_pointer = self.has_pointer(reference);
        let pointer = has_pointer.then_some(Reason::Broken(Rule::PointerSubscript));
        first(shape, pointer)
    }

    /// Notes that a reference does not have its variable's shape.
    fn shape(
        &self,
        extent: Extent,
        number: usize,
        reference: &Reference,
        found: &mut Noted<Reasoned>,
    ) {
        let reason = self.misshape(extent, number, reference);
        self.types_for(reference.place, reason, found)
    }

    /// Whether a subscript is a POINTER.
    fn has_pointer(&self, reference: &Reference) -> bool {
        for e in &reference.subscripts {
            if !may_count(self.types.expression(e)) {
                return true;
            }
        }
        match &reference.selector {
            Selector::None | Selector::Member(_, _) => false,
            Selector::Element(_, _, subscript) => !may_count(self.types.expression(subscript)),
        }
    }

    /// A store to a name of DATA.
    pub fn data_if(&self, place: Position, number: usize, found: &mut Noted<Reasoned>) {
        match self.variable(number) {
            Some(variable) if variable.is_data => {
                self.note(place, TypeFault::Data, Reason::Broken(Rule::Data), found)
            }
            Some(_) | None => {}
        }
    }

    /// The wrong number of arguments.
    fn count_unless(
        &self,
        place: Position,
        wanted: usize,
        given: usize,
        found: &mut Noted<Reasoned>,
    ) {
        if wanted == given {
            return;
        }
        let reason = Reason::Count(wanted, given);
        self.note(place, TypeFault::Arguments, reason, found)
    }

    /// The first argument that its parameter does not take.
    fn argument(&self, parameters: &[usize], arguments: &[Expression]) -> Option<Reason> {
        for (parameter, argument) in parameters.iter().zip(arguments) {
            let into = self.types.variable_type(*parameter);
            let value = self.types.typed(argument).wanted(into).scalar;
            if !takes(into, value) {
                return Some(Reason::Argument(*parameter, into, value));
            }
        }
        None
    }

    /// The numbers among the arguments that no INTEGER can have, where their parameters are ones.
    fn large_arguments(
        &self,
        parameters: &[usize],
        arguments: &[Expression],
        found: &mut Noted<Reasoned>,
    ) {
        for (parameter, argument) in parameters.iter().zip(arguments) {
            let into = self.types.variable_type(*parameter);
            self.range(into, self.types.typed(argument), found);
        }
    }

    /// The first argument that a built-in does not take.
    fn builtin_argument(&self, builtin: Builtin, arguments: &[Expression]) -> Option<Reason> {
        let taken = taken_by(builtin);
        for argument in arguments {
            let value = self.types.typed(argument).wanted(taken).scalar;
            if !may_be_arguments(builtin, &[value]) {
                return Some(Reason::BuiltinArgument(taken, value));
            }
        }
        None
    }

    /// A number among the arguments that no INTEGER can have, where the built-in takes one.
    fn large_operand(&self, taken: Type, arguments: &[Expression], found: &mut Noted<Reasoned>) {
        match arguments {
            [argument, ..] => self.range(taken, self.types.typed(argument), found),
            [] => {}
        }
    }

    /// Why a call of a procedure is faulty, by itself.
    pub fn call(&self, number: usize, reference: &Reference, found: &mut Noted<Reasoned>) {
        let Some(procedure) = self.types.names.procedures.get(number) else {
            return;
        };
        let parameters = procedure.parameters.as_slice();
        let arguments = reference.subscripts.as_slice();
        let place = reference.place;
        self.large_arguments(parameters, arguments, found);
        self.count_unless(place, parameters.len(), arguments.len(), found);
        self.types_for(place, self.argument(parameters, arguments), found)
    }

    /// Why a procedure is no value.
    fn called_value(&self, number: usize, reference: &Reference, found: &mut Noted<Reasoned>) {
        let has_value = match self.types.names.procedures.get(number) {
            Some(procedure) => procedure.returned.is_some(),
            None => true,
        };
        self.call(number, reference, found);
        let reason = Reason::Broken(Rule::NoValue);
        self.types_if(reference.place, !has_value, reason, found)
    }

    /// Why a call of a built-in is faulty, by itself.
    fn builtin_call(&self, builtin: Builtin, reference: &Reference, found: &mut Noted<Reasoned>) {
        let place = reference.place;
        let arguments = reference.subscripts.as_slice();
        self.large_operand(taken_by(builtin), arguments, found);
        self.count_unless(place, arity(builtin), arguments.len(), found);
        let counted = &arguments[..arity(builtin).min(arguments.len())];
        self.types_for(place, self.builtin_argument(builtin, counted), found)
    }

    /// Looks in an expression.
    #[cycle(looking)]
    pub fn expression(&self, e: &Expression, found: &mut Noted<Reasoned>) {
        match e {
            Expression::Number(number) => {
                let holds = number_type(u64::from(number.value)).is_none();
                let reason = Reason::Broken(Rule::LargeNumber);
                self.types_if(number.place, holds, reason, found)
            }
            Expression::Text(place, text) => {
                let holds = text_type(text).is_none();
                self.types_if(*place, holds, Reason::LongText(text.len()), found)
            }
            Expression::Reference(reference) => self.value(reference, found),
            Expression::Location(location) => self.location(location, found),
            Expression::Parenthesised(_, inner) => self.expression(inner, found),
            Expression::Embedded(place, target, value) => {
                self.target(target, found);
                self.expression(value, found);
                self.embedded(*place, target, value, found)
            }
            Expression::Unary(place, operator, operand) => {
                self.expression(operand, found);
                let scalar = self.types.expression(operand);
                let holds = !unary_fits(*operator, scalar);
                self.types_if(*place, holds, Reason::Operand(*operator, scalar), found)
            }
            Expression::Chain {
                first: left,
                others,
            } => {
                self.expression(left, found);
                self.operations(others, first_place(left), self.types.typed(left), found)
            }
        }
    }

    /// `( t := e )`, by itself.
    fn embedded(
        &self,
        place: Position,
        target: &Reference,
        value: &Expression,
        found: &mut Noted<Reasoned>,
    ) {
        let into = self.types.value(target);
        let value = self.types.typed(value);
        let kept = value.wanted(into).scalar;
        self.range(into, value, found);
        let reason = Reason::Store(target_of(target), into, kept);
        self.types_if(place, !takes(into, kept), reason, found)
    }

    /// Why an operator does not take its operands, by itself, of which the left one begins at a place.
    fn operator(
        &self,
        operation: &Operation,
        begin: Position,
        left: Typed,
        found: &mut Noted<Reasoned>,
    ) {
        let operator = operation.operator;
        let right = self.types.typed(&operation.operand);
        self.range(beside(operator, right.scalar), left, found);
        self.range(beside(operator, left.scalar), right, found);
        let (one, other) = paired(operator, left, right);
        let holds = !operands_fit(operator, one.scalar, other.scalar);
        let reason = Reason::Operands(operator, one.scalar, other.scalar);
        self.types_if(begin, holds, reason, found)
    }

    /// Looks in operators with their right operands, after such a left one that begins at a place.
    #[cycle(looking)]
    fn operations(
        &self,
        operations: &[Operation],
        begin: Position,
        left: Typed,
        found: &mut Noted<Reasoned>,
    ) {
        let mut value = left;
        for operation in operations {
            self.expression(&operation.operand, found);
            self.operator(operation, begin, value, found);
            value = self.types.operation(operation, value);
        }
    }

    /// Looks in expressions, one after another.
    #[cycle(looking)]
    pub fn list(&self, es: &[Expression], found: &mut Noted<Reasoned>) {
        for e in es {
            self.expression(e, found);
        }
    }

    /// Looks in subscripts or arguments, and in a member's subscript.
    #[cycle(looking)]
    fn parts(&self, reference: &Reference, found: &mut Noted<Reasoned>) {
        self.list(&reference.subscripts, found);
        match &reference.selector {
            Selector::None | Selector::Member(_, _) => {}
            Selector::Element(_, _, subscript) => self.expression(subscript, found),
        }
    }

    /// Looks in a reference as a value.
    #[cycle(looking)]
    fn value(&self, reference: &Reference, found: &mut Noted<Reasoned>) {
        match reference.binding {
            Binding::Variable(number) => {
                self.parts(reference, found);
                self.shape(Extent::Whole, number, reference, found)
            }
            Binding::Procedure(number) => {
                self.parts(reference, found);
                self.called_value(number, reference, found)
            }
            Binding::Builtin(builtin) => {
                let reason = Reason::Broken(Rule::TargetAsValue);
                self.types_if(reference.place, is_target(builtin), reason, found);
                self.applied(builtin, reference, found)
            }
            Binding::Nothing => {}
        }
    }

    /// Looks in a call of a built-in.
    #[cycle(looking)]
    fn applied(&self, builtin: Builtin, reference: &Reference, found: &mut Noted<Reasoned>) {
        if is_measure(builtin) {
            let place = reference.place;
            self.count_unless(place, 1, reference.subscripts.len(), found);
            self.measured(&reference.subscripts, found);
            let holds = !measures_variable(&reference.subscripts);
            return self.types_if(place, holds, Reason::Broken(Rule::Measured), found);
        }
        self.list(&reference.subscripts, found);
        self.builtin_call(builtin, reference, found)
    }

    /// Looks in the argument of LENGTH, LAST or SIZE.
    #[cycle(looking)]
    fn measured(&self, arguments: &[Expression], found: &mut Noted<Reasoned>) {
        let [argument] = arguments else {
            return;
        };
        match argument {
            Expression::Reference(reference) => match variable_of(reference.binding) {
                Some(number) => {
                    self.parts(reference, found);
                    self.shape(Extent::Part, number, reference, found)
                }
                None => {}
            },
            Expression::Number(_)
            | Expression::Text(_, _)
            | Expression::Location(_)
            | Expression::Parenthesised(_, _)
            | Expression::Embedded(_, _, _)
            | Expression::Unary(_, _, _)
            | Expression::Chain { .. } => {}
        }
    }

    /// Looks in a location.
    #[cycle(looking)]
    pub fn location(&self, location: &Location, found: &mut Noted<Reasoned>) {
        match location {
            Location::Reference(place, _, reference) => self.located(*place, reference, found),
            Location::Constants(_, _, _) => {}
        }
    }

    /// Looks in the location of what a reference names.
    #[cycle(looking)]
    fn located(&self, place: Position, reference: &Reference, found: &mut Noted<Reasoned>) {
        let Some(number) = variable_of(reference.binding) else {
            return self.types_if(place, true, Reason::Broken(Rule::NoLocation), found);
        };
        let is_shown = match self.variable(number) {
            Some(variable) => is_on_screen(&variable),
            None => false,
        };
        self.parts(reference, found);
        let reason = Reason::Broken(Rule::ScreenLocation);
        self.types_if(place, is_shown, reason, found);
        self.shape(Extent::Part, number, reference, found)
    }

    /// Looks in a target.
    #[cycle(looking)]
    pub fn target(&self, reference: &Reference, found: &mut Noted<Reasoned>) {
        let place = reference.place;
        match reference.binding {
            Binding::Variable(number) => {
                self.parts(reference, found);
                self.data_if(place, number, found);
                self.shape(Extent::Whole, number, reference, found)
            }
            Binding::Builtin(builtin) => {
                self.list(&reference.subscripts, found);
                let reason = Reason::Broken(Rule::NoTarget);
                self.types_if(place, !is_target(builtin), reason, found);
                self.builtin_call(builtin, reference, found)
            }
            Binding::Procedure(_) => {
                let reason = Reason::Broken(Rule::ProcedureAsTarget);
                self.types_if(place, true, reason, found)
            }
            Binding::Nothing => {}
        }
    }
}
