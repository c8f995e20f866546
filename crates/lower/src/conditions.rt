//! What a jump asks.

ghost use Rattle.std.specs.Prelude.{◌≡◌, ◌&&◌, ◌++◌, List, length, OnOk, IfOk, IsOkUnless};
ghost use Rattle.plm_type.specs.View.{chained, expression_of, procedures_of};
ghost use Rattle.icode.specs.declared.instruction.Instruction.{Instruction};
ghost use Rattle.lower.specs.Expressions.{Name, folded, operand_of, relation_of, stands_to, expression_code, beside};
ghost use Rattle.lower.specs.Conditions.{low_stands_to, related, named, or_test, unless_named, compared_by, are_bytes, always, compared, test_of, comparison_code, condition_code};
ghost use Rattle.lower.specs.LowBytes.{low_code, is_byte};
ghost use Rattle.lower.specs.Inner.Put.{operand_shown, name_of};
ghost use Rattle.lower.specs.Inner.Expressions.{given, chain_value, unknown_code, chain_code};
ghost use Rattle.lower.specs.Inner.LowBytes.{low_given, low_unknown_code};

use crate::callees::Callees;
use crate::expressions::{chain, give, known, right_of};
use crate::low_bytes::{chain_is_byte, is_byte, low, low_chain, low_give, low_right_of};
use crate::put::{Operand, as_name};
use icode::{Instruction, Relation, Right, Test};
use plm_type::{Expression, Operation, Place, trees_have_their_lists};
use word86::{BinaryOperation, Fault, Width};

/// The relation that an operator asks for.
pub fn relation(operation: BinaryOperation) -> Option<Relation>
    ensures { result ≡ relation_of operation }
{
    match operation {
        BinaryOperation::Equal => Some(Relation::Equal),
        BinaryOperation::NotEqual => Some(Relation::NotEqual),
        BinaryOperation::Less => Some(Relation::Less),
        BinaryOperation::LessEqual => Some(Relation::LessEqual),
        BinaryOperation::Greater => Some(Relation::Greater),
        BinaryOperation::GreaterEqual => Some(Relation::GreaterEqual),
        BinaryOperation::LessSigned => Some(Relation::LessSigned),
        BinaryOperation::LessEqualSigned => Some(Relation::LessEqualSigned),
        BinaryOperation::GreaterSigned => Some(Relation::GreaterSigned),
        BinaryOperation::GreaterEqualSigned => Some(Relation::GreaterEqualSigned),
        BinaryOperation::Multiply
        | BinaryOperation::Divide
        | BinaryOperation::Modulo
        | BinaryOperation::Add
        | BinaryOperation::Subtract
        | BinaryOperation::And
        | BinaryOperation::Or
        | BinaryOperation::ExclusiveOr
        | BinaryOperation::ShiftLeft
        | BinaryOperation::ShiftRight
        | BinaryOperation::RotateLeft
        | BinaryOperation::RotateRight
        | BinaryOperation::DivideSigned
        | BinaryOperation::ModuloSigned => None,
    }
}

/// Whether a condition is a constant that holds.
pub fn always(tree: &Expression) -> bool
    ensures { result ≡ always (expression_of tree.now) }
{
    trees_have_their_lists();
    match tree {
        Expression::Constant(value) => value % 2 == 1,
        Expression::Chain(first, others) => match others.as_slice() {
            [] => always(first),
            [_, ..] => false,
        },
        Expression::Plain(_, _)
        | Expression::Variable(_, _)
        | Expression::Location(_)
        | Expression::Unary(_, _, _)
        | Expression::Embedded(_, _)
        | Expression::Input(_, _)
        | Expression::Call(_, _) => false,
    }
}

/// Whether the left operand stands in a relation to the right one.
pub fn stands_to(relation: Relation, right: Operand) -> Test
    ensures { result ≡ stands_to relation (operand_shown right) }
{
    match right {
        Operand::Number(value) => Test::Constant(relation, value),
        Operand::Name(read, at) => Test::Plain(relation, read, at),
        Operand::Computed => Test::Top(relation),
    }
}

// Whether the low byte of the left operand stands in a relation to that of the right one.
fn low_stands_to(relation: Relation, right: Operand) -> Test
    ensures { result ≡ low_stands_to relation (operand_shown right) }
{
    match right {
        Operand::Number(value) => Test::Low(relation, Right::Constant(value)),
        Operand::Name(_, at) => Test::Low(relation, Right::Plain(at)),
        Operand::Computed => Test::Low(relation, Right::Top),
    }
}

/// A relation's own test.
pub fn related(bytes: bool, relation: Relation, right: Operand) -> Test
    ensures { result ≡ related bytes relation (operand_shown right) }
{
    if bytes {
        low_stands_to(relation, right)
    } else {
        stands_to(relation, right)
    }
}

/// The test that reads a plain scalar itself, where it is compared with a constant: a byte with a byte alone.
pub fn named(
    bytes: bool,
    relation: Relation,
    width: Width,
    at: Place,
    right: Operand,
) -> Option<Test>
    ensures { result ≡ named bytes relation (Name width at) (operand_shown right) }
{
    match right {
        Operand::Number(value) => match width {
            Width::Word => Some(Test::Named(relation, width, at, value)),
            Width::Byte => bytes.then_some(Test::Named(relation, width, at, value)),
        },
        Operand::Name(_, _) | Operand::Computed => None,
    }
}

/// The test of a comparison. Before one that reads its left operand itself, what was put for the other is taken back.
pub fn settle(code: &mut Vec<Instruction>, before: usize, named: Option<Test>, other: Test) -> Test
    ensures code { (old more : List Instruction) → code.old.items ≡ old ++ more → before ≡ length old → code.new.items ≡ old ++ unless_named named more }
    ensures test { result ≡ or_test named other }
{
    match named {
        Some(test) => {
            code.truncate(before);
            test
        }
        None => other,
    }
}

// The plain variable that a chain is.
fn chain_name(first: &Expression, others: &[Operation]) -> Option<(Width, Place)>
    ensures { result ≡ name_of (operand_of (chained (expression_of first.now) others.now)) }
{
    match others {
        [] => as_name(first),
        [_, ..] => None,
    }
}

// The test of a relation that reads its left operand itself.
fn named_left(
    bytes: bool,
    relation: Relation,
    first: &Expression,
    others: &[Operation],
    right: Operand,
) -> Option<Test>
    ensures { result ≡ named bytes relation (operand_of (chained (expression_of first.now) others.now)) (operand_shown right) }
{
    match chain_name(first, others) {
        Some((width, at)) => named(bytes, relation, width, at, right),
        None => None,
    }
}

// Whether both operands of a relation are bytes.
fn compares_bytes(first: &Expression, others: &[Operation], last: &Expression) -> bool
    ensures { result ≡ (is_byte (chained (expression_of first.now) others.now) && is_byte (expression_of last.now)) }
{
    chain_is_byte(first, others) && is_byte(last)
}

// The left operand of a relation, and what its right one is, and what of that is computed.
fn whole_operands(
    code: &mut Vec<Instruction>,
    callees: Callees<'_>,
    first: &Expression,
    others: &[Operation],
    last: &Expression,
) -> Result<Operand, Fault>
    ensures code { OnOk result (code.new.items ≡ code.old.items ++ (((unknown_code (procedures_of callees.entry.procedures.now) (expression_of first.now) ++ chain_code (procedures_of callees.entry.procedures.now) (folded (expression_of first.now)) others.now) ++ given (chain_value (folded (expression_of first.now)) others.now)) ++ beside (operand_of (expression_of last.now)) (expression_code (procedures_of callees.entry.procedures.now) (expression_of last.now)))) }
    ensures operand { IfOk result (λ o. operand_shown o ≡ operand_of (expression_of last.now)) }
    ensures memory { IsOkUnless result Fault.Memory }
{
    let value = known(code, callees, first)?;
    let left = chain(code, callees, value, others)?;
    give(code, left)?;
    right_of(code, callees, last)
}

// The same of low bytes.
fn low_operands(
    code: &mut Vec<Instruction>,
    callees: Callees<'_>,
    first: &Expression,
    others: &[Operation],
    last: &Expression,
) -> Result<Operand, Fault>
    ensures code { OnOk result (code.new.items ≡ code.old.items ++ ((low_unknown_code (procedures_of callees.entry.procedures.now) (chained (expression_of first.now) others.now) ++ low_given (folded (chained (expression_of first.now) others.now))) ++ beside (operand_of (expression_of last.now)) (low_code (procedures_of callees.entry.procedures.now) (expression_of last.now)))) }
    ensures operand { IfOk result (λ o. operand_shown o ≡ operand_of (expression_of last.now)) }
    ensures memory { IsOkUnless result Fault.Memory }
{
    let left = low_chain(code, callees, first, others)?;
    low_give(code, left)?;
    low_right_of(code, callees, last)
}

// The operands of a relation, and what the right one is.
fn compare(
    code: &mut Vec<Instruction>,
    callees: Callees<'_>,
    bytes: bool,
    first: &Expression,
    others: &[Operation],
    last: &Expression,
) -> Result<Operand, Fault>
    ensures code { OnOk result (code.new.items ≡ code.old.items ++ compared bytes (low_code (procedures_of callees.entry.procedures.now) (chained (expression_of first.now) others.now) ++ beside (operand_of (expression_of last.now)) (low_code (procedures_of callees.entry.procedures.now) (expression_of last.now))) (expression_code (procedures_of callees.entry.procedures.now) (chained (expression_of first.now) others.now) ++ beside (operand_of (expression_of last.now)) (expression_code (procedures_of callees.entry.procedures.now) (expression_of last.now)))) }
    ensures operand { IfOk result (λ o. operand_shown o ≡ operand_of (expression_of last.now)) }
    ensures memory { IsOkUnless result Fault.Memory }
{
    if bytes {
        low_operands(code, callees, first, others, last)
    } else {
        whole_operands(code, callees, first, others, last)
    }
}

// What is computed before the test of a relation, and the test.
fn comparison(
    code: &mut Vec<Instruction>,
    callees: Callees<'_>,
    relation: Relation,
    first: &Expression,
    others: &[Operation],
    last: &Expression,
) -> Result<Test, Fault>
    ensures code { OnOk result (code.new.items ≡ code.old.items ++ unless_named (named (are_bytes (chained (expression_of first.now) others.now) (expression_of last.now)) relation (operand_of (chained (expression_of first.now) others.now)) (operand_of (expression_of last.now))) (comparison_code (procedures_of callees.entry.procedures.now) (chained (expression_of first.now) others.now) (expression_of last.now))) }
    ensures test { IfOk result (λ t. t ≡ compared_by (are_bytes (chained (expression_of first.now) others.now) (expression_of last.now)) relation (operand_of (chained (expression_of first.now) others.now)) (operand_of (expression_of last.now))) }
    ensures memory { IsOkUnless result Fault.Memory }
{
    let before = code.len();
    let bytes = compares_bytes(first, others, last);
    let right = compare(code, callees, bytes, first, others, last)?;
    let named = named_left(bytes, relation, first, others, right);
    Ok(settle(code, before, named, related(bytes, relation, right)))
}

/// What is computed before the test of a condition, and the test. A relation is the jump's own test: the last operator of a chain
/// decides, and its left operand is what the others give. Of a plain BYTE the lowest bit is asked where it lies.
#[tactic(auto, using(crate::proofs::Trees::same_place))]
pub fn condition(
    code: &mut Vec<Instruction>,
    callees: Callees<'_>,
    tree: &Expression,
) -> Result<Test, Fault>
    ensures code { OnOk result (code.new.items ≡ code.old.items ++ condition_code (procedures_of callees.entry.procedures.now) (expression_of tree.now)) }
    ensures memory { IsOkUnless result Fault.Memory }
    ensures test { IfOk result (λ t. t ≡ test_of (expression_of tree.now)) }
{
    trees_have_their_lists();
    match tree {
        Expression::Chain(first, operations) => match operations.as_slice() {
            [] => condition(code, callees, first),
            [others @ .., last] => match relation(last.operation) {
                Some(relation) => comparison(code, callees, relation, first, others, &last.operand),
                None => {
                    low(code, callees, tree)?;
                    Ok(Test::Odd)
                }
            },
        },
        Expression::Plain(Width::Byte, at) => Ok(Test::OddNamed(*at)),
        Expression::Plain(Width::Word, _)
        | Expression::Constant(_)
        | Expression::Variable(_, _)
        | Expression::Location(_)
        | Expression::Unary(_, _, _)
        | Expression::Embedded(_, _)
        | Expression::Input(_, _)
        | Expression::Call(_, _) => {
            low(code, callees, tree)?;
            Ok(Test::Odd)
        }
    }
}
