//! What is told of the faults of types: E401 to E403.

use crate::explaining::phases::TypedSources;
use crate::explaining::reason::{
    Reason, Target, Type, TypeFault, one_of, operator_name, reason_at, rule_words, sign_name,
};
use crate::explaining::sentence::Part;
use crate::explaining::studied::{Studied, number_at};
use crate::explaining::told::{Told, tell};
use crate::phase_faults::TokenAt;
use plm_decl::{Names, ScalarType};
use plm_syntax::{BinaryOperator, UnaryOperator};
use plm_type::{is_bitwise, is_equality, is_integer};
use std::alloc::Global;

const ADDRESSES: &str = ": @X is a POINTER, .X a WORD";

const TO_INTEGER: &str = ": SIGNED makes a BYTE or a WORD an INTEGER";

const FROM_INTEGER: &str = ": UNSIGN makes an INTEGER a WORD";

const TO_AND_FROM_INTEGER: &str =
    ": SIGNED makes a BYTE or a WORD an INTEGER, UNSIGN an INTEGER a WORD";

fn is_pointer(scalar: Type) -> bool {
    scalar == Some(ScalarType::Pointer)
}

/// What would do where a value of the second type is to go where the first is.
fn way_into(into: Type, value: Type) -> &'static str {
    if is_pointer(into) || is_pointer(value) {
        ADDRESSES
    } else if is_integer(into) {
        TO_INTEGER
    } else {
        FROM_INTEGER
    }
}

/// What operands an operator takes that does not take some of these types.
fn operands_rule(operator: BinaryOperator, left: Type, right: Type) -> &'static str {
    if is_bitwise(operator) {
        " takes BYTEs and WORDs, and here are "
    } else if is_equality(operator) && (is_pointer(left) || is_pointer(right)) {
        " compares a POINTER with a POINTER alone, and here are "
    } else {
        " takes BYTEs and WORDs, or INTEGERs, and here are "
    }
}

/// What would do for operands of these types.
fn operands_way(operator: BinaryOperator, left: Type, right: Type) -> &'static str {
    if is_pointer(left) || is_pointer(right) {
        ADDRESSES
    } else if is_bitwise(operator) {
        FROM_INTEGER
    } else {
        TO_AND_FROM_INTEGER
    }
}

/// What an operator before its operand takes.
fn operand_rule(operator: UnaryOperator) -> &'static str {
    match operator {
        UnaryOperator::Not => " takes a BYTE or a WORD, and its operand is ",
        UnaryOperator::Plus | UnaryOperator::Minus => {
            " takes a BYTE, a WORD or an INTEGER, and its operand is "
        }
    }
}

/// What would do for a condition of this type.
fn condition_way(scalar: Type) -> &'static str {
    if is_integer(scalar) {
        ": I <> 0 is a BYTE"
    } else {
        ""
    }
}

/// What arguments a built-in takes that takes this.
fn argument_rule(taken: Type) -> &'static str {
    if is_integer(taken) {
        " takes an INTEGER, and its argument is "
    } else {
        " takes BYTEs and WORDs, and an argument is "
    }
}

/// What would do for an argument of this type that a built-in does not take.
fn argument_way(value: Type) -> &'static str {
    if is_pointer(value) {
        ": .X is a WORD"
    } else if is_integer(value) {
        FROM_INTEGER
    } else {
        ", which has no sign"
    }
}

/// What stands between a target's name and its member.
fn period(target: Target) -> Part<'static> {
    Part::Words(if target.member.is_some() { "." } else { "" })
}

/// The token of a module at which a fault of types stands.
#[derive(Clone, Copy)]
struct Faulty<'s, 'a> {
    alloc: Global,
    sources: &'s [Studied<'a>],
    names: &'s Names,
    module: usize,
    number: u32,
}

impl<'s, 'a> Faulty<'s, 'a> {
    fn source(&self) -> Option<&'s Studied<'a>> {
        self.sources.get(self.module)
    }

    /// How a token of the module is spelled.
    fn spelled(&self, number: u32) -> &'a [u8] {
        match self.source() {
            Some(source) => source.spelled(number),
            None => b"",
        }
    }

    /// The token itself.
    fn name(&self) -> &'a [u8] {
        self.spelled(self.number)
    }

    fn told(&self, parts: &[Part<'_>]) -> Told {
        let spot = match self.source() {
            Some(source) => source.spot(self.number),
            None => None,
        };
        tell(self.alloc, spot, parts)
    }

    /// The name, and words after it.
    fn named(&self, words: &'static str) -> Told {
        self.told(&[Part::Spelled(self.name()), Part::Words(words)])
    }

    /// The name of a variable.
    fn variable(&self, number: usize) -> &'a [u8] {
        let Some(variable) = self.names.variables.get(number) else {
            return b"";
        };
        match self.sources.get(variable.module) {
            Some(source) => source.spelled(number_at(variable.place)),
            None => b"",
        }
    }

    fn operands(&self, operator: BinaryOperator, left: Type, right: Type) -> Told {
        self.told(&[
            Part::Words(operator_name(operator)),
            Part::Words(operands_rule(operator, left, right)),
            Part::Words(one_of(left)),
            Part::Words(" and "),
            Part::Words(one_of(right)),
            Part::Words(operands_way(operator, left, right)),
        ])
    }

    fn operand(&self, operator: UnaryOperator, scalar: Type) -> Told {
        let way = if is_integer(scalar) { FROM_INTEGER } else { "" };
        self.told(&[
            Part::Words(sign_name(operator)),
            Part::Words(operand_rule(operator)),
            Part::Words(one_of(scalar)),
            Part::Words(way),
        ])
    }

    fn condition(&self, scalar: Type) -> Told {
        self.told(&[
            Part::Spelled(self.name()),
            Part::Words(" tests or counts with a BYTE or a WORD, and here is "),
            Part::Words(one_of(scalar)),
            Part::Words(condition_way(scalar)),
        ])
    }

    fn step(&self, scalar: Type) -> Told {
        self.told(&[
            Part::Spelled(self.name()),
            Part::Words(" counts by a BYTE or a WORD, and its step is "),
            Part::Words(one_of(scalar)),
            Part::Words(way_into(Some(ScalarType::Word), scalar)),
        ])
    }

    fn bound(&self, index: u32, into: Type, value: Type) -> Told {
        self.told(&[
            Part::Words("the index "),
            Part::Spelled(self.spelled(index)),
            Part::Words(" is "),
            Part::Words(one_of(into)),
            Part::Words(", and its start or its bound is "),
            Part::Words(one_of(value)),
            Part::Words(way_into(into, value)),
        ])
    }

    /// A number that no INTEGER can have.
    fn large_integer(&self) -> Told {
        self.told(&[
            Part::Spelled(self.name()),
            Part::Words(" is above 32767, the greatest INTEGER: SIGNED("),
            Part::Spelled(self.name()),
            Part::Words(") has the same bits"),
        ])
    }

    /// The member of a target; nothing where it has none.
    fn member(&self, target: Target) -> Part<'a> {
        match target.member {
            Some(number) => Part::Spelled(self.spelled(number)),
            None => Part::Words(""),
        }
    }

    fn targets(&self, one: (Target, Type), other: (Target, Type)) -> Told {
        self.told(&[
            Part::Words("the target "),
            Part::Spelled(self.spelled(one.0.name)),
            period(one.0),
            self.member(one.0),
            Part::Words(" is "),
            Part::Words(one_of(one.1)),
            Part::Words(", the target "),
            Part::Spelled(self.spelled(other.0.name)),
            period(other.0),
            self.member(other.0),
            Part::Words(" "),
            Part::Words(one_of(other.1)),
            Part::Words(": the two want an assignment each"),
        ])
    }

    fn store(&self, target: Target, into: Type, value: Type) -> Told {
        self.told(&[
            Part::Words("the value is "),
            Part::Words(one_of(value)),
            Part::Words(", the target "),
            Part::Spelled(self.spelled(target.name)),
            period(target),
            self.member(target),
            Part::Words(" "),
            Part::Words(one_of(into)),
            Part::Words(way_into(into, value)),
        ])
    }

    fn argument(&self, parameter: usize, into: Type, value: Type) -> Told {
        self.told(&[
            Part::Words("the parameter "),
            Part::Spelled(self.variable(parameter)),
            Part::Words(" of "),
            Part::Spelled(self.name()),
            Part::Words(" is "),
            Part::Words(one_of(into)),
            Part::Words(", its argument "),
            Part::Words(one_of(value)),
            Part::Words(way_into(into, value)),
        ])
    }

    fn builtin_argument(&self, taken: Type, value: Type) -> Told {
        self.told(&[
            Part::Spelled(self.name()),
            Part::Words(argument_rule(taken)),
            Part::Words(one_of(value)),
            Part::Words(argument_way(value)),
        ])
    }

    fn count(&self, wanted: usize, given: usize) -> Told {
        self.told(&[
            Part::Spelled(self.name()),
            Part::Words(" takes "),
            Part::Number(wanted as u64),
            Part::Words(if wanted == 1 {
                " argument, and "
            } else {
                " arguments, and "
            }),
            Part::Number(given as u64),
            Part::Words(if given == 1 {
                " is given"
            } else {
                " are given"
            }),
        ])
    }

    fn long_text(&self, length: usize) -> Told {
        self.told(&[
            Part::Words("this string has "),
            Part::Number(length as u64),
            Part::Words(
                " characters, and in an expression one or two may stand: DECLARE TEXT (*) BYTE DATA ('..') holds longer ones",
            ),
        ])
    }

    fn returned(&self, wanted: Type, given: Option<Type>) -> Told {
        let parts = match given {
            Some(value) => [
                Part::Words("the procedure returns "),
                Part::Words(one_of(wanted)),
                Part::Words(", and this value is "),
                Part::Words(one_of(value)),
                Part::Words(way_into(wanted, value)),
            ],
            None => [
                Part::Words("the procedure returns "),
                Part::Words(one_of(wanted)),
                Part::Words(": RETURN with a value"),
                Part::Words(""),
                Part::Words(""),
            ],
        };
        self.told(&parts)
    }

    fn reason(&self, reason: Reason) -> Told {
        match reason {
            Reason::Broken(rule) => self.named(rule_words(rule)),
            Reason::LongText(length) => self.long_text(length),
            Reason::Operands(operator, left, right) => self.operands(operator, left, right),
            Reason::Operand(operator, scalar) => self.operand(operator, scalar),
            Reason::LargeInteger => self.large_integer(),
            Reason::Condition(scalar) => self.condition(scalar),
            Reason::Step(scalar) => self.step(scalar),
            Reason::Bound(index, into, value) => self.bound(index, into, value),
            Reason::Targets(one, scalar, other, kind) => {
                self.targets((one, scalar), (other, kind))
            }
            Reason::BuiltinArgument(taken, value) => self.builtin_argument(taken, value),
            Reason::Store(target, into, value) => self.store(target, into, value),
            Reason::Argument(parameter, into, value) => self.argument(parameter, into, value),
            Reason::Count(wanted, given) => self.count(wanted, given),
            Reason::ReturnWithoutValue(wanted) => self.returned(wanted, None),
            Reason::ReturnType(wanted, value) => self.returned(wanted, Some(value)),
            Reason::SeveralSubscripts(count) => self.told(&[
                Part::Spelled(self.name()),
                Part::Words(" takes one subscript, and "),
                Part::Number(count as u64),
                Part::Words(" are given: A(ROW * COLUMNS + COLUMN)"),
            ]),
            Reason::InterruptNumber(number) => self.told(&[
                Part::Words("INTERRUPT "),
                Part::Number(u64::from(number)),
                Part::Words(": interrupts have the numbers 0 to 255"),
            ]),
        }
    }
}

/// What is told of a fault of types at a token of a module.
pub(crate) fn type_fault(
    alloc: Global,
    typed: &TypedSources<'_>,
    module: usize,
    token: TokenAt,
    fault: TypeFault,
) -> Told {
    let faulty = Faulty {
        alloc,
        sources: &typed.sources,
        names: &typed.names,
        module,
        number: token.number,
    };
    match reason_at(&typed.reasons, module, token.place, fault) {
        Some(reason) => faulty.reason(reason),
        None => faulty.named(": types or forms do not fit here"),
    }
}
