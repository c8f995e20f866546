//! Which types operators, stores and arguments take, and which types values have.

ghost use Rattle.std.specs.Prelude.{◌≡◌};
ghost use Rattle.plm_type.specs.Types as spec;

use plm_decl::ScalarType;
use plm_syntax::{BinaryOperator, UnaryOperator};
use word86::{BinaryOperation, UnaryOperation, Width};

/// The width of a value.
pub fn width_of(scalar: Option<ScalarType>) -> Width
    ensures { result ≡ spec.width_of scalar }
{
    match scalar {
        Some(ScalarType::Byte) => Width::Byte,
        Some(ScalarType::Word | ScalarType::Pointer | ScalarType::Integer) | None => Width::Word,
    }
}

/// Whether it is BYTE or WORD, or not known.
pub fn may_be_number(scalar: Option<ScalarType>) -> bool
    ensures { result ≡ spec.may_be_number scalar }
{
    match scalar {
        Some(ScalarType::Pointer | ScalarType::Integer) => false,
        Some(ScalarType::Byte | ScalarType::Word) | None => true,
    }
}

/// Whether it is INTEGER, or not known.
pub fn may_be_integer(scalar: Option<ScalarType>) -> bool
    ensures { result ≡ spec.may_be_integer scalar }
{
    match scalar {
        Some(ScalarType::Integer) | None => true,
        Some(ScalarType::Byte | ScalarType::Word | ScalarType::Pointer) => false,
    }
}

/// Whether it is INTEGER.
pub fn is_integer(scalar: Option<ScalarType>) -> bool
    ensures { result ≡ spec.is_integer scalar }
{
    match scalar {
        Some(ScalarType::Integer) => true,
        Some(ScalarType::Byte | ScalarType::Word | ScalarType::Pointer) | None => false,
    }
}

/// Whether it may be a subscript, or the value of DO CASE.
pub fn may_count(scalar: Option<ScalarType>) -> bool
    ensures { result ≡ spec.may_count scalar }
{
    may_be_number(scalar) || may_be_integer(scalar)
}

/// Whether it is POINTER, or not known.
pub fn may_be_pointer(scalar: Option<ScalarType>) -> bool
    ensures { result ≡ spec.may_be_pointer scalar }
{
    match scalar {
        Some(ScalarType::Pointer) | None => true,
        Some(ScalarType::Byte | ScalarType::Word | ScalarType::Integer) => false,
    }
}

/// Whether a value of the second type may go into the first.
pub fn takes(into: Option<ScalarType>, value: Option<ScalarType>) -> bool
    ensures { result ≡ spec.takes into value }
{
    (may_be_number(into) && may_be_number(value))
        || (may_be_integer(into) && may_be_integer(value))
        || (may_be_pointer(into) && may_be_pointer(value))
}

/// Whether it is AND, OR or XOR.
pub fn is_bitwise(operator: BinaryOperator) -> bool
    ensures { result ≡ spec.is_bitwise operator }
{
    match operator {
        BinaryOperator::And | BinaryOperator::Or | BinaryOperator::ExclusiveOr => true,
        BinaryOperator::Multiply
        | BinaryOperator::Divide
        | BinaryOperator::Modulo
        | BinaryOperator::Add
        | BinaryOperator::Subtract
        | BinaryOperator::Equal
        | BinaryOperator::NotEqual
        | BinaryOperator::Less
        | BinaryOperator::LessEqual
        | BinaryOperator::Greater
        | BinaryOperator::GreaterEqual => false,
    }
}

/// Whether it is = or <>, which take any kind, POINTERs too, the same on both sides.
pub fn is_equality(operator: BinaryOperator) -> bool
    ensures { result ≡ spec.is_equality operator }
{
    match operator {
        BinaryOperator::Equal | BinaryOperator::NotEqual => true,
        BinaryOperator::Multiply
        | BinaryOperator::Divide
        | BinaryOperator::Modulo
        | BinaryOperator::Add
        | BinaryOperator::Subtract
        | BinaryOperator::Less
        | BinaryOperator::LessEqual
        | BinaryOperator::Greater
        | BinaryOperator::GreaterEqual
        | BinaryOperator::And
        | BinaryOperator::Or
        | BinaryOperator::ExclusiveOr => false,
    }
}

/// Whether it compares its operands.
pub fn is_relation(operator: BinaryOperator) -> bool
    ensures { result ≡ spec.is_relation operator }
{
    match operator {
        BinaryOperator::Equal
        | BinaryOperator::NotEqual
        | BinaryOperator::Less
        | BinaryOperator::LessEqual
        | BinaryOperator::Greater
        | BinaryOperator::GreaterEqual => true,
        BinaryOperator::Multiply
        | BinaryOperator::Divide
        | BinaryOperator::Modulo
        | BinaryOperator::Add
        | BinaryOperator::Subtract
        | BinaryOperator::And
        | BinaryOperator::Or
        | BinaryOperator::ExclusiveOr => false,
    }
}

/// Whether both may be numbers, or both INTEGER.
fn are_alike(left: Option<ScalarType>, right: Option<ScalarType>) -> bool
    ensures { result ≡ spec.are_alike left right }
{
    (may_be_number(left) && may_be_number(right)) || (may_be_integer(left) && may_be_integer(right))
}

/// Whether an operator may take operands of these types, where one that is not known may be any: AND, OR and XOR take numbers, = and
/// <> any kind, and the others numbers or INTEGERs.
pub fn operands_fit(
    operator: BinaryOperator,
    left: Option<ScalarType>,
    right: Option<ScalarType>,
) -> bool
    ensures { result ≡ spec.operands_fit operator left right }
{
    if is_bitwise(operator) {
        may_be_number(left) && may_be_number(right)
    } else if is_equality(operator) {
        takes(left, right)
    } else {
        are_alike(left, right)
    }
}

/// Whether a unary operator may take an operand of this type: NOT a number, a sign an INTEGER too.
pub fn unary_fits(operator: UnaryOperator, operand: Option<ScalarType>) -> bool
    ensures { result ≡ spec.unary_fits operator operand }
{
    match operator {
        UnaryOperator::Not => may_be_number(operand),
        UnaryOperator::Plus | UnaryOperator::Minus => may_count(operand),
    }
}

/// The type of a number: a BYTE up to 255, a WORD up to 65,535, and none above.
pub fn number_type(value: u64) -> Option<ScalarType>
    ensures { result ≡ spec.number_type value }
{
    if value <= 0xFF {
        Some(ScalarType::Byte)
    } else if value <= 0xFFFF {
        Some(ScalarType::Word)
    } else {
        None
    }
}

/// The type of a string as a value: a BYTE of one character, a WORD of two, and none of another length.
pub fn text_type(characters: &[u8]) -> Option<ScalarType>
    ensures { result ≡ spec.text_type characters.now }
{
    match characters {
        [_] => Some(ScalarType::Byte),
        [_, _] => Some(ScalarType::Word),
        [] | [_, _, _, ..] => None,
    }
}

fn wider(left: ScalarType, right: ScalarType) -> ScalarType
    ensures { result ≡ spec.wider left right }
{
    match (left, right) {
        (ScalarType::Byte, ScalarType::Byte) => ScalarType::Byte,
        (ScalarType::Byte, ScalarType::Word)
        | (ScalarType::Byte, ScalarType::Pointer)
        | (ScalarType::Byte, ScalarType::Integer)
        | (ScalarType::Word, ScalarType::Byte)
        | (ScalarType::Word, ScalarType::Word)
        | (ScalarType::Word, ScalarType::Pointer)
        | (ScalarType::Word, ScalarType::Integer)
        | (ScalarType::Pointer, ScalarType::Byte)
        | (ScalarType::Pointer, ScalarType::Word)
        | (ScalarType::Pointer, ScalarType::Pointer)
        | (ScalarType::Pointer, ScalarType::Integer)
        | (ScalarType::Integer, ScalarType::Byte)
        | (ScalarType::Integer, ScalarType::Word)
        | (ScalarType::Integer, ScalarType::Pointer)
        | (ScalarType::Integer, ScalarType::Integer) => ScalarType::Word,
    }
}

/// The type of what is worked out of two numbers. A relation is not asked.
fn number_result(operator: BinaryOperator, left: ScalarType, right: ScalarType) -> ScalarType
    ensures { result ≡ spec.number_result operator left right }
{
    match operator {
        BinaryOperator::Multiply => ScalarType::Word,
        BinaryOperator::Divide
        | BinaryOperator::Modulo
        | BinaryOperator::Add
        | BinaryOperator::Subtract
        | BinaryOperator::Equal
        | BinaryOperator::NotEqual
        | BinaryOperator::Less
        | BinaryOperator::LessEqual
        | BinaryOperator::Greater
        | BinaryOperator::GreaterEqual
        | BinaryOperator::And
        | BinaryOperator::Or
        | BinaryOperator::ExclusiveOr => wider(left, right),
    }
}

/// The type of an operator's value, of operands that it takes: a relation answers a BYTE, INTEGERs give an INTEGER, a product of numbers
/// is a WORD, and else two BYTEs give a BYTE.
pub fn result_type(operator: BinaryOperator, left: ScalarType, right: ScalarType) -> ScalarType
    ensures { result ≡ spec.result_type operator left right }
{
    if is_relation(operator) {
        ScalarType::Byte
    } else if is_integer(Some(left)) {
        ScalarType::Integer
    } else {
        number_result(operator, left, right)
    }
}

/// The type of an operator's value; none where it does not take its operands.
pub fn binary_type(
    operator: BinaryOperator,
    left: Option<ScalarType>,
    right: Option<ScalarType>,
) -> Option<ScalarType>
    ensures { result ≡ spec.binary_type operator left right }
{
    if !operands_fit(operator, left, right) {
        return None;
    }
    match (left, right) {
        (Some(left), Some(right)) => Some(result_type(operator, left, right)),
        (Some(_), None) | (None, Some(_)) | (None, None) => None,
    }
}

/// The type of a unary operator's value.
pub fn unary_type(operator: UnaryOperator, operand: Option<ScalarType>) -> Option<ScalarType>
    ensures { result ≡ spec.unary_type operator operand }
{
    if unary_fits(operator, operand) {
        operand
    } else {
        None
    }
}

/// What a unary operator does.
pub fn unary_operation(operator: UnaryOperator) -> UnaryOperation
    ensures { result ≡ spec.unary_operation operator }
{
    match operator {
        UnaryOperator::Plus => UnaryOperation::Plus,
        UnaryOperator::Minus => UnaryOperation::Minus,
        UnaryOperator::Not => UnaryOperation::Not,
    }
}

/// What an operator between operands does.
pub fn binary_operation(operator: BinaryOperator) -> BinaryOperation
    ensures { result ≡ spec.binary_operation operator }
{
    match operator {
        BinaryOperator::Multiply => BinaryOperation::Multiply,
        BinaryOperator::Divide => BinaryOperation::Divide,
        BinaryOperator::Modulo => BinaryOperation::Modulo,
        BinaryOperator::Add => BinaryOperation::Add,
        BinaryOperator::Subtract => BinaryOperation::Subtract,
        BinaryOperator::Equal => BinaryOperation::Equal,
        BinaryOperator::NotEqual => BinaryOperation::NotEqual,
        BinaryOperator::Less => BinaryOperation::Less,
        BinaryOperator::LessEqual => BinaryOperation::LessEqual,
        BinaryOperator::Greater => BinaryOperation::Greater,
        BinaryOperator::GreaterEqual => BinaryOperation::GreaterEqual,
        BinaryOperator::And => BinaryOperation::And,
        BinaryOperator::Or => BinaryOperation::Or,
        BinaryOperator::ExclusiveOr => BinaryOperation::ExclusiveOr,
    }
}

/// The operation on INTEGERs.
pub fn with_sign(operation: BinaryOperation) -> BinaryOperation
    ensures { result ≡ spec.with_sign operation }
{
    match operation {
        BinaryOperation::Divide => BinaryOperation::DivideSigned,
        BinaryOperation::Modulo => BinaryOperation::ModuloSigned,
        BinaryOperation::Less => BinaryOperation::LessSigned,
        BinaryOperation::LessEqual => BinaryOperation::LessEqualSigned,
        BinaryOperation::Greater => BinaryOperation::GreaterSigned,
        BinaryOperation::GreaterEqual => BinaryOperation::GreaterEqualSigned,
        BinaryOperation::Multiply
        | BinaryOperation::Add
        | BinaryOperation::Subtract
        | BinaryOperation::Equal
        | BinaryOperation::NotEqual
        | BinaryOperation::And
        | BinaryOperation::Or
        | BinaryOperation::ExclusiveOr
        | BinaryOperation::ShiftLeft
        | BinaryOperation::ShiftRight
        | BinaryOperation::RotateLeft
        | BinaryOperation::RotateRight
        | BinaryOperation::DivideSigned
        | BinaryOperation::ModuloSigned
        | BinaryOperation::LessSigned
        | BinaryOperation::LessEqualSigned
        | BinaryOperation::GreaterSigned
        | BinaryOperation::GreaterEqualSigned => operation,
    }
}

/// What an operator on operands of this type does.
pub fn operation_on(scalar: Option<ScalarType>, operator: BinaryOperator) -> BinaryOperation
    ensures { result ≡ spec.operation_on scalar operator }
{
    let operation = binary_operation(operator);
    if is_integer(scalar) {
        with_sign(operation)
    } else {
        operation
    }
}

/// Whether each of the types is BYTE or WORD, or not known.
pub fn may_be_numbers(types: &[Option<ScalarType>]) -> bool
    ensures { result ≡ spec.may_be_numbers types.now }
{
    for scalar in types {
        if !may_be_number(*scalar) {
            return false;
        }
    }
    true
}

/// Whether each of the types is INTEGER, or not known.
pub fn may_be_integers(types: &[Option<ScalarType>]) -> bool
    ensures { result ≡ spec.may_be_integers types.now }
{
    for scalar in types {
        if !may_be_integer(*scalar) {
            return false;
        }
    }
    true
}

/// Whether none of the types is POINTER.
pub fn may_all_count(types: &[Option<ScalarType>]) -> bool
    ensures { result ≡ spec.may_all_count types.now }
{
    for scalar in types {
        if !may_count(*scalar) {
            return false;
        }
    }
    true
}

/// Whether each of the types is known, and none of them POINTER.
pub fn are_known_counts(types: &[Option<ScalarType>]) -> bool
    ensures { result ≡ spec.are_known_counts types.now }
{
    for scalar in types {
        if scalar.is_none() || !may_count(*scalar) {
            return false;
        }
    }
    true
}

/// Whether some of the types is INTEGER.
pub fn has_integer(types: &[Option<ScalarType>]) -> bool
    ensures { result ≡ spec.has_integer types.now }
{
    for scalar in types {
        if is_integer(*scalar) {
            return true;
        }
    }
    false
}

/// Whether each of the types is POINTER, or not known.
pub fn may_be_pointers(types: &[Option<ScalarType>]) -> bool
    ensures { result ≡ spec.may_be_pointers types.now }
{
    for scalar in types {
        if !may_be_pointer(*scalar) {
            return false;
        }
    }
    true
}

/// Whether each of the types is known.
pub fn are_known(types: &[Option<ScalarType>]) -> bool
    ensures { result ≡ spec.are_known types.now }
{
    for scalar in types {
        if scalar.is_none() {
            return false;
        }
    }
    true
}
