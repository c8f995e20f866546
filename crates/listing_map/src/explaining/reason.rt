//! Why a statement, an expression or a declaration has a fault of types.

use plm_decl::ScalarType;
use plm_syntax::{BinaryOperator, UnaryOperator};

/// The type of a value; none where it has a fault of its own, or is a structure.
pub(crate) type Type = Option<ScalarType>;

/// Which fault is looked for.
#[derive(Clone, Copy)]
pub(crate) enum TypeFault {
    /// E401
    Types,
    /// E402
    Arguments,
    /// E403
    Data,
}

/// Why there is one, where the token and a rule tell all.
#[derive(Clone, Copy)]
pub(crate) enum Rule {
    LargeNumber,
    MissingSubscript,
    SurplusSubscript,
    PointerSubscript,
    MissingMember,
    SurplusMember,
    MissingMemberSubscript,
    SurplusMemberSubscript,
    TargetAsValue,
    NoTarget,
    ProcedureAsTarget,
    NoValue,
    Measured,
    NoLocation,
    ScreenLocation,
    /// The value of a DO CASE that is a POINTER.
    CaseValue,
    NoProcedure,
    ReturnInMain,
    ReturnWithValue,
    Index,
    /// The step of an INTEGER that is no number.
    IntegerStep,
    /// The step of an INTEGER that no INTEGER can have.
    LargeStep,
    Parameter,
    Stray,
    Data,
}

/// A target, by the numbers of its name's token and of its member's, if it has one.
#[derive(Clone, Copy)]
pub(crate) struct Target {
    pub name: u32,
    pub member: Option<u32>,
}

/// Why there is one. Names are given by the numbers of their tokens.
#[derive(Clone, Copy)]
pub(crate) enum Reason {
    Broken(Rule),
    /// How many characters it has.
    LongText(usize),
    /// A number that no INTEGER can have, where one is wanted.
    LargeInteger,
    Operands(BinaryOperator, Type, Type),
    Operand(UnaryOperator, Type),
    /// What is no condition.
    Condition(Type),
    /// The step of a BYTE or a WORD that is neither.
    Step(Type),
    /// The index's token and type, and the type of its start or bound.
    Bound(u32, Type, Type),
    /// Two targets of different kinds, with the type of each.
    Targets(Target, Type, Target, Type),
    /// The target and its type, and the value's type.
    Store(Target, Type, Type),
    SeveralSubscripts(usize),
    /// The parameter, by its number among all variables, and the types of it and of the argument.
    Argument(usize, Type, Type),
    /// What a built-in takes, none where that is a BYTE or a WORD, and what it is given.
    BuiltinArgument(Type, Type),
    ReturnWithoutValue(Type),
    /// What is to be returned, and what is.
    ReturnType(Type, Type),
    InterruptNumber(u32),
    /// How many arguments are wanted, and how many are given.
    Count(usize, usize),
}

/// A reason, and the token at which there is a fault for it: its module, and its place there once literals are replaced.
#[derive(Clone, Copy)]
pub(crate) struct Reasoned {
    pub module: usize,
    pub place: usize,
    pub fault: TypeFault,
    pub reason: Reason,
}

impl Reasoned {
    /// Whether its token stands before another one.
    fn precedes(&self, module: usize, place: usize) -> bool {
        self.module < module || self.module == module && self.place < place
    }

    /// Whether it stands at a token.
    fn is_at(&self, module: usize, place: usize) -> bool {
        self.module == module && self.place == place
    }
}

/// The first of these reasons, which are in the order of their tokens, for a fault at a token.
pub(crate) fn reason_at(
    reasons: &[Reasoned],
    module: usize,
    place: usize,
    fault: TypeFault,
) -> Option<Reason> {
    let before = reasons.partition_point(|it| it.precedes(module, place));
    let (_, rest) = reasons.split_at(before);
    for it in rest {
        if !it.is_at(module, place) {
            return None;
        }
        if it.fault == fault {
            return Some(it.reason);
        }
    }
    None
}

/// The first reason of two.
pub(crate) fn first(one: Option<Reason>, other: Option<Reason>) -> Option<Reason> {
    match one {
        Some(reason) => Some(reason),
        None => other,
    }
}

/// What a value of a type is called. What has none has a fault of its own, a structure too.
pub(crate) fn one_of(scalar: Type) -> &'static str {
    match scalar {
        Some(ScalarType::Byte) => "a BYTE",
        Some(ScalarType::Word) => "a WORD",
        Some(ScalarType::Pointer) => "a POINTER",
        Some(ScalarType::Integer) => "an INTEGER",
        None => "what has a fault of its own",
    }
}

/// How an operator is written.
pub(crate) fn operator_name(operator: BinaryOperator) -> &'static str {
    match operator {
        BinaryOperator::Multiply => "*",
        BinaryOperator::Divide => "/",
        BinaryOperator::Modulo => "MOD",
        BinaryOperator::Add => "+",
        BinaryOperator::Subtract => "-",
        BinaryOperator::Equal => "=",
        BinaryOperator::NotEqual => "<>",
        BinaryOperator::Less => "<",
        BinaryOperator::LessEqual => "<=",
        BinaryOperator::Greater => ">",
        BinaryOperator::GreaterEqual => ">=",
        BinaryOperator::And => "AND",
        BinaryOperator::Or => "OR",
        BinaryOperator::ExclusiveOr => "XOR",
    }
}

/// How an operator before its operand is written.
pub(crate) fn sign_name(operator: UnaryOperator) -> &'static str {
    match operator {
        UnaryOperator::Plus => "+",
        UnaryOperator::Minus => "-",
        UnaryOperator::Not => "NOT",
    }
}

/// What is said of the token where it breaks a rule.
pub(crate) fn rule_words(rule: Rule) -> &'static str {
    match rule {
        Rule::MissingSubscript => " is an array: a subscript says which element, from 0 on",
        Rule::SurplusSubscript => " is no array, and takes no subscript",
        Rule::PointerSubscript => " has a POINTER for a subscript: that is a BYTE, WORD or INTEGER",
        Rule::MissingMember => " is a structure: name a member after a period",
        Rule::SurplusMember => " is no structure, and has no members",
        Rule::MissingMemberSubscript =>
            " has a member that is an array: a subscript says which element",
        Rule::SurplusMemberSubscript => " has a member that is no array, and takes no subscript",
        Rule::TargetAsValue => " is no value but a target: INPUT and INWORD read a port",
        Rule::NoTarget =>
            " is no target: OUTPUT and OUTWORD write a port, and a name takes a value",
        Rule::ProcedureAsTarget => " is a procedure, and takes no value",
        Rule::NoValue =>
            " is a procedure without a value: its first line names no type; CALL runs it",
        Rule::Measured => " is of a variable, and its argument is none",
        Rule::NoLocation =>
            " is the location of a variable or of constants, and what stands behind it is neither",
        Rule::ScreenLocation =>
            " names something on the screen, which has no location in the data segment",
        Rule::CaseValue => " counts with a BYTE, a WORD or an INTEGER, and here is a POINTER",
        Rule::NoProcedure => " runs a procedure, and what stands behind it is none",
        Rule::ReturnInMain =>
            " stands in main, which returns to nothing: HALT, or IF around the rest",
        Rule::ReturnWithValue =>
            " has a value, and the procedure's first line names no type for it",
        Rule::Index =>
            " counts with a plain BYTE, WORD or INTEGER, no array, member, based name or POINTER",
        Rule::IntegerStep =>
            " with an INTEGER index counts by a number, behind one sign at most: BY 2, or BY -1",
        Rule::LargeStep => " is no step of an INTEGER, which is -32768 to 32767",
        Rule::Parameter =>
            " is a parameter: it is a plain BYTE, WORD, INTEGER or POINTER, no array, structure, procedure or based name",
        Rule::Stray =>
            " stands in an EXTERNAL procedure, which holds the declarations of its parameters alone",
        Rule::Data => " is DATA, and is not assigned: INITIAL gives values that may change",
        Rule::LargeNumber => " is above 65535, the greatest WORD: larger numbers stand in AT alone",
    }
}
