//! The code of values of which the low byte alone is wanted: the high byte is then anything.

ghost use Rattle.std.specs.Prelude.{◌≡◌, ◌<◌, ◌≤◌, ◌+◌, ◌^◌, ◌++◌, ◌∷◌, [], length, None, IfOk, OnOk, IsOkUnless};
ghost use Rattle.plm_type.specs.View.{anchor_of, expression_of, procedures_of, reference_of, subscripts_of, target_of, targets_of, chained};
ghost use Rattle.plm_type.specs.Rest.{Embedded, Input, Variable};
ghost use Rattle.word86.specs.declared.width.Width.TheVariants as widths;
ghost use Rattle.lower.specs.Expressions.{unary_folded, folded, Number, operand_of, beside};
ghost use Rattle.lower.specs.LowBytes.{operand_code, low_changing, low_top, direct_of, is_one_step, low_constant, low_operation, low_load, low_reading, low_code, is_narrow, takes_byte, take_bytes, returned_code, direct_gives, gives_by, is_byte};
ghost use Rattle.lower.specs.Inner.Expressions.{binary_value_of, operation_value, chain_value, unknown_code};
ghost use Rattle.lower.specs.Inner.LowBytes.{bytes_from, low_unary_code, low_given, low_beside, low_code_of, low_received, low_unknown_code, low_operation_code, low_chain_code, counted_one, whole_count, left_code};
ghost use Rattle.lower.specs.Inner.Put.{operand_shown, name_of};

use crate::callees::Callees;
use crate::expressions::{
    anchor_place, chain, expression, follow, known, leads_to, operate, subscripts, target,
    value_with,
};
use crate::put::{Operand, as_name, put};
use icode::{Direct, High, Instruction, LowByte, Right};
use plm_type::{
    Anchor, Expression, Operation, Place, Reference, Subscript, Target, trees_have_their_lists,
};
use word86::{BinaryOperation, Fault, UnaryOperation, Width};

type Instructions = Vec<Instruction>;

// The operator on low bytes, where the value's low byte is that of its operands' low bytes.
fn direct_of(operation: BinaryOperation) -> Option<Direct>
    ensures { result ≡ direct_of operation }
{
    match operation {
        BinaryOperation::Add => Some(Direct::Add),
        BinaryOperation::Subtract => Some(Direct::Subtract),
        BinaryOperation::And => Some(Direct::And),
        BinaryOperation::Or => Some(Direct::Or),
        BinaryOperation::ExclusiveOr => Some(Direct::ExclusiveOr),
        BinaryOperation::Multiply
        | BinaryOperation::Divide
        | BinaryOperation::Modulo
        | BinaryOperation::Equal
        | BinaryOperation::NotEqual
        | BinaryOperation::Less
        | BinaryOperation::LessEqual
        | BinaryOperation::Greater
        | BinaryOperation::GreaterEqual
        | BinaryOperation::ShiftLeft
        | BinaryOperation::ShiftRight
        | BinaryOperation::RotateLeft
        | BinaryOperation::RotateRight
        | BinaryOperation::DivideSigned
        | BinaryOperation::ModuloSigned
        | BinaryOperation::LessSigned
        | BinaryOperation::LessEqualSigned
        | BinaryOperation::GreaterSigned
        | BinaryOperation::GreaterEqualSigned => None,
    }
}

// Whether INC or DEC does it.
fn is_one_step(direct: Direct, number: u16) -> bool
    ensures { result ≡ is_one_step direct number }
{
    match direct {
        Direct::Add | Direct::Subtract => number == 1,
        Direct::And | Direct::Or | Direct::ExclusiveOr => false,
    }
}

// An operator on low bytes and a number.
fn low_constant(direct: Direct, operation: BinaryOperation, number: u16) -> Instruction
    ensures { result ≡ low_constant direct operation number }
{
    if is_one_step(direct, number) {
        Instruction::BinaryConstant(operation, Width::Word, number)
    } else {
        Instruction::Low(
            LowByte::Operate(direct, Right::Constant(number)),
            High::Kept,
        )
    }
}

// An operator on low bytes whose left operand is pushed: words have shorter code where the order of the operands does not count.
fn low_top(direct: Direct, operation: BinaryOperation) -> Instruction
    ensures { result ≡ low_top direct operation }
{
    match direct {
        Direct::Subtract => Instruction::Low(LowByte::Operate(direct, Right::Top), High::Kept),
        Direct::Add | Direct::And | Direct::Or | Direct::ExclusiveOr => {
            Instruction::Binary(operation, Width::Word)
        }
    }
}

// An operator on low bytes.
fn low_operation(direct: Direct, operation: BinaryOperation, right: Operand) -> Instruction
    ensures { result ≡ low_operation direct operation (operand_shown right) }
{
    match right {
        Operand::Number(number) => low_constant(direct, operation, number),
        Operand::Name(Width::Byte, at) => {
            Instruction::Low(LowByte::Operate(direct, Right::Plain(at)), High::Kept)
        }
        Operand::Name(Width::Word, at) => {
            Instruction::BinaryPlain(operation, Width::Word, Width::Word, at)
        }
        Operand::Computed => low_top(direct, operation),
    }
}

/// The low byte of a plain variable.
pub fn low_load(width: Width, at: Place) -> Instruction
    ensures { result ≡ low_load width at }
{
    match width {
        Width::Byte => Instruction::Low(LowByte::Load(at), High::Kept),
        Width::Word => Instruction::Load(Width::Word, at),
    }
}

// The byte of a variable, once the subscripts are added.
fn low_read(
    code: &mut Instructions,
    anchor: Anchor,
    offset: u64,
    subscripts: &[Subscript],
) -> Result<(), Fault>
    ensures code { OnOk result (code.new.items ≡ code.old.items ++ low_reading (anchor_of anchor) offset (subscripts_of subscripts.now)) }
    ensures memory { IsOkUnless result Fault.Memory }
{
    let at = anchor_place(anchor, offset);
    match anchor {
        Anchor::Behind(base) => {
            follow(code, base, offset, subscripts)?;
            put(code, Instruction::Low(LowByte::LoadThere, High::Kept))
        }
        Anchor::InObject(_, _, _) | Anchor::OnScreen(_, _, _) => match subscripts {
            [] => put(code, Instruction::Low(LowByte::Load(at), High::Kept)),
            [_, ..] => put(code, Instruction::Low(LowByte::LoadAt(at), High::Kept)),
        },
    }
}

// The byte of a variable.
fn low_variable(
    code: &mut Instructions,
    callees: Callees<'_>,
    reference: &Reference,
) -> Result<Option<u16>, Fault>
    ensures code { OnOk result (code.new.items ≡ code.old.items ++ low_code (procedures_of callees.entry.procedures.now) (Variable widths.Byte (reference_of reference.now))) }
    ensures value { IfOk result (λ v. v ≡ None) }
    ensures memory { IsOkUnless result Fault.Memory }
{
    trees_have_their_lists();
    let Reference { anchor, offset, .. } = reference;
    match leads_to(*offset, &reference.subscripts) {
        Some(to) => {
            low_read(code, *anchor, to, &[])?;
            Ok(None)
        }
        None => {
            subscripts(code, callees, &reference.subscripts)?;
            low_read(code, *anchor, *offset, &reference.subscripts)?;
            Ok(None)
        }
    }
}

// What receives a byte from a port, whose number is in the accumulator or known.
fn low_received(port: Option<u16>) -> Instruction
    ensures { result ≡ low_received port }
{
    match port {
        Some(number) => Instruction::Low(LowByte::ReceiveFrom(number), High::Kept),
        None => Instruction::Low(LowByte::Receive, High::Kept),
    }
}

// A byte from a port.
fn low_receive(
    code: &mut Instructions,
    callees: Callees<'_>,
    port: &Expression,
) -> Result<Option<u16>, Fault>
    ensures code { OnOk result (code.new.items ≡ code.old.items ++ low_code (procedures_of callees.entry.procedures.now) (Input widths.Byte (expression_of port.now))) }
    ensures value { IfOk result (λ v. v ≡ None) }
    ensures memory { IsOkUnless result Fault.Memory }
{
    let number = known(code, callees, port)?;
    put(code, low_received(number))?;
    Ok(None)
}

// Whether a value is a byte where both operands of an operator are, or one of them.
fn direct_gives(direct: Direct, width: Width, left: bool, right: bool) -> bool
    ensures { result ≡ direct_gives direct width left right }
{
    match direct {
        Direct::Add | Direct::Subtract => is_narrow(width),
        Direct::And => left || right,
        Direct::Or | Direct::ExclusiveOr => left && right,
    }
}

/// Whether a value of this width is a byte.
pub fn is_narrow(width: Width) -> bool
    ensures { result ≡ is_narrow width }
{
    match width {
        Width::Byte => true,
        Width::Word => false,
    }
}

// Whether an operator's value is a byte, by whether its operands are.
fn gives(operation: BinaryOperation, width: Width, left: bool, right: bool) -> bool
    ensures { result ≡ gives_by (direct_of operation) width left right }
{
    match direct_of(operation) {
        None => false,
        Some(direct) => direct_gives(direct, width, left, right),
    }
}

/// Whether a value is below 256, as far as the tree tells at once.
#[cycle(bytes)]
pub fn is_byte(tree: &Expression) -> bool
    ensures { result ≡ is_byte (expression_of tree.now) }
{
    trees_have_their_lists();
    match tree {
        Expression::Constant(value) => *value < 256,
        Expression::Plain(width, _) => is_narrow(*width),
        Expression::Chain(first, operations) => operators_give(is_byte(first), operations),
        Expression::Variable(_, _)
        | Expression::Location(_)
        | Expression::Unary(_, _, _)
        | Expression::Embedded(_, _)
        | Expression::Input(_, _)
        | Expression::Call(_, _) => false,
    }
}

// Whether operators of one precedence give a byte, by whether their first left operand is one.
#[cycle(bytes)]
fn operators_give(left: bool, operations: &[Operation]) -> bool
    ensures { result ≡ bytes_from left operations.now }
{
    let mut byte = left;
    for operation in operations {
        let right = is_byte(&operation.operand);
        byte = gives(operation.operation, operation.width, byte, right);
    }
    byte
}

/// Whether a left operand and operators of one precedence give a byte.
#[tactic(auto, using(crate::proofs::LowTrees::chain_bytes))]
pub fn chain_is_byte(first: &Expression, operations: &[Operation]) -> bool
    ensures { result ≡ is_byte (chained (expression_of first.now) operations.now) }
{
    operators_give(is_byte(first), operations)
}

// How many operators there are up to the last one that works on whole values, with one more, of this index.
fn counted_one(index: usize, so_far: usize, operation: BinaryOperation) -> usize
    requires { index + 1 < 2 ^ 64 }
    ensures { result ≡ counted_one index so_far (direct_of operation) }
{
    match direct_of(operation) {
        Some(_) => so_far,
        None => index + 1,
    }
}

// How many operators there are up to the last one that works on whole values.
#[tactic(auto, using(crate::proofs::LowTrees::counted_first, crate::proofs::LowTrees::counted_step, crate::proofs::LowTrees::whole_within))]
fn whole_count(operations: &[Operation]) -> usize
    ensures value { result ≡ whole_count operations.now }
    ensures within { result ≤ length operations.now }
{
    let mut count = 0;
    for (k, operation) in operations.iter().enumerate() {
        count = counted_one(k, count, operation.operation);
    }
    count
}

/// The low byte of a known value comes into the accumulator.
pub fn low_give(code: &mut Instructions, value: Option<u16>) -> Result<(), Fault>
    ensures code { OnOk result (code.new.items ≡ code.old.items ++ low_given value) }
    ensures memory { IsOkUnless result Fault.Memory }
{
    match value {
        Some(value) => put(code, Instruction::Low(LowByte::Constant(value), High::Kept)),
        None => Ok(()),
    }
}

// An operator on low bytes with a right operand that is known. It answers the value that is known.
fn low_with_number(
    code: &mut Instructions,
    left: Option<u16>,
    direct: Direct,
    operation: BinaryOperation,
    width: Width,
    right: u16,
) -> Result<Option<u16>, Fault>
    ensures code { OnOk result (code.new.items ≡ code.old.items ++ low_code_of left direct operation width (Number right) []) }
    ensures value { IfOk result (λ v. v ≡ binary_value_of left operation width (Number right)) }
    ensures memory { IsOkUnless result Fault.Memory }
{
    match value_with(left, operation, width, right) {
        Some(value) => Ok(Some(value)),
        None => {
            low_give(code, left)?;
            put(code, low_constant(direct, operation, right))?;
            Ok(None)
        }
    }
}

// What a right operand is, and what of it is computed, while the left one is pushed: nothing of a constant and of a plain variable.
#[cycle(low)]
fn low_right(
    code: &mut Instructions,
    callees: Callees<'_>,
    left: Option<u16>,
    tree: &Expression,
) -> Result<Operand, Fault>
    ensures code { OnOk result (code.new.items ≡ code.old.items ++ low_beside left (operand_of (expression_of tree.now)) (low_code (procedures_of callees.entry.procedures.now) (expression_of tree.now))) }
    ensures operand { IfOk result (λ o. operand_shown o ≡ operand_of (expression_of tree.now)) }
    ensures memory { IsOkUnless result Fault.Memory }
{
    match as_name(tree) {
        Some((width, at)) => Ok(Operand::Name(width, at)),
        None => low_beside(code, callees, left, tree),
    }
}

// The same of what is no plain variable: what was put is taken back where the operand is known.
#[cycle(low)]
fn low_beside(
    code: &mut Instructions,
    callees: Callees<'_>,
    left: Option<u16>,
    tree: &Expression,
) -> Result<Operand, Fault>
    requires { name_of (operand_of (expression_of tree.now)) ≡ None }
    ensures code { OnOk result (code.new.items ≡ code.old.items ++ low_beside left (operand_of (expression_of tree.now)) (low_code (procedures_of callees.entry.procedures.now) (expression_of tree.now))) }
    ensures operand { IfOk result (λ o. operand_shown o ≡ operand_of (expression_of tree.now)) }
    ensures memory { IsOkUnless result Fault.Memory }
{
    let before = code.len();
    low_give(code, left)?;
    put(code, Instruction::Push)?;
    let value = low_known(code, callees, tree)?;
    match value {
        Some(number) => {
            code.truncate(before);
            Ok(Operand::Number(number))
        }
        None => Ok(Operand::Computed),
    }
}

// An operator on low bytes with its right operand.
#[cycle(low)]
fn low_direct(
    code: &mut Instructions,
    callees: Callees<'_>,
    left: Option<u16>,
    direct: Direct,
    operation: &Operation,
) -> Result<Option<u16>, Fault>
    ensures code { OnOk result (code.new.items ≡ code.old.items ++ low_code_of left direct operation.now.operation operation.now.width (operand_of (expression_of operation.now.operand)) (low_code (procedures_of callees.entry.procedures.now) (expression_of operation.now.operand))) }
    ensures value { IfOk result (λ v. v ≡ operation_value left operation.now) }
    ensures memory { IsOkUnless result Fault.Memory }
{
    let Operation {
        operation: operator,
        width,
        ..
    } = operation;
    let operand = low_right(code, callees, left, &operation.operand)?;
    match operand {
        Operand::Number(value) => low_with_number(code, left, direct, *operator, *width, value),
        Operand::Name(_, _) => {
            low_give(code, left)?;
            put(code, low_operation(direct, *operator, operand))?;
            Ok(None)
        }
        Operand::Computed => {
            put(code, low_operation(direct, *operator, operand))?;
            Ok(None)
        }
    }
}

// An operator with its right operand.
#[cycle(low)]
#[tactic(auto, using(crate::proofs::LowTrees::operated_low, crate::proofs::LowTrees::operated_whole))]
fn low_operate(
    code: &mut Instructions,
    callees: Callees<'_>,
    left: Option<u16>,
    operation: &Operation,
) -> Result<Option<u16>, Fault>
    ensures code { OnOk result (code.new.items ≡ code.old.items ++ low_operation_code (procedures_of callees.entry.procedures.now) left operation.now) }
    ensures value { IfOk result (λ v. v ≡ operation_value left operation.now) }
    ensures memory { IsOkUnless result Fault.Memory }
{
    match direct_of(operation.operation) {
        None => operate(code, callees, left, operation),
        Some(direct) => low_direct(code, callees, left, direct, operation),
    }
}

// Operators with their right operands, where the left one is in the accumulator or known. It answers the value that is known.
#[cycle(low)]
fn low_operations(
    code: &mut Instructions,
    callees: Callees<'_>,
    left: Option<u16>,
    operations: &[Operation],
) -> Result<Option<u16>, Fault>
    ensures code { OnOk result (code.new.items ≡ code.old.items ++ low_chain_code (procedures_of callees.entry.procedures.now) left operations.now) }
    ensures value { IfOk result (λ v. v ≡ chain_value left operations.now) }
    ensures memory { IsOkUnless result Fault.Memory }
{
    let mut value = left;
    for operation in operations {
        value = low_operate(code, callees, value, operation)?;
    }
    Ok(value)
}

// The left operand, and operators of whole values with their right operands: without these its low byte is enough.
#[cycle(low)]
fn low_first(
    code: &mut Instructions,
    callees: Callees<'_>,
    first: &Expression,
    whole: &[Operation],
) -> Result<Option<u16>, Fault>
    ensures code { OnOk result (code.new.items ≡ code.old.items ++ left_code (procedures_of callees.entry.procedures.now) (expression_of first.now) whole.now) }
    ensures value { IfOk result (λ v. v ≡ chain_value (folded (expression_of first.now)) whole.now) }
    ensures memory { IsOkUnless result Fault.Memory }
{
    match whole {
        [] => low_known(code, callees, first),
        [_, ..] => {
            let left = known(code, callees, first)?;
            chain(code, callees, left, whole)
        }
    }
}

/// The left operand, and operators with their right operands.
pub fn low_chain(
    code: &mut Instructions,
    callees: Callees<'_>,
    first: &Expression,
    operations: &[Operation],
) -> Result<Option<u16>, Fault>
    ensures code { OnOk result (code.new.items ≡ code.old.items ++ low_unknown_code (procedures_of callees.entry.procedures.now) (chained (expression_of first.now) operations.now)) }
    ensures value { IfOk result (λ v. v ≡ folded (chained (expression_of first.now) operations.now)) }
    ensures memory { IsOkUnless result Fault.Memory }
{
    let (whole, direct) = operations.split_at(whole_count(operations));
    let left = low_first(code, callees, first, whole)?;
    low_operations(code, callees, left, direct)
}

// A plain variable.
fn low_plain(code: &mut Instructions, width: Width, at: Place) -> Result<Option<u16>, Fault>
    ensures code { OnOk result (code.new.items ≡ code.old.items ++ low_load width at ∷ []) }
    ensures value { IfOk result (λ v. v ≡ None) }
    ensures memory { IsOkUnless result Fault.Memory }
{
    put(code, low_load(width, at))?;
    Ok(None)
}

// The operand of an operator alone: its low byte, or its whole value for a difference and where the high byte is wanted.
#[cycle(low)]
fn low_operand(
    code: &mut Instructions,
    callees: Callees<'_>,
    operation: UnaryOperation,
    tree: &Expression,
) -> Result<Option<u16>, Fault>
    ensures code { OnOk result (code.new.items ≡ code.old.items ++ operand_code operation (low_unknown_code (procedures_of callees.entry.procedures.now) (expression_of tree.now)) (unknown_code (procedures_of callees.entry.procedures.now) (expression_of tree.now))) }
    ensures value { IfOk result (λ v. v ≡ folded (expression_of tree.now)) }
    ensures memory { IsOkUnless result Fault.Memory }
{
    match operation {
        UnaryOperation::High => known(code, callees, tree),
        UnaryOperation::Minus => known(code, callees, tree),
        UnaryOperation::Plus => low_known(code, callees, tree),
        UnaryOperation::Not => low_known(code, callees, tree),
        UnaryOperation::Low => low_known(code, callees, tree),
        UnaryOperation::Double => low_known(code, callees, tree),
    }
}

// An operator of one operand, which is in the accumulator or known. It answers the value that is known.
fn low_unary(
    code: &mut Instructions,
    operation: UnaryOperation,
    width: Width,
    operand: Option<u16>,
) -> Result<Option<u16>, Fault>
    ensures code { OnOk result (code.new.items ≡ code.old.items ++ low_unary_code operation width operand) }
    ensures value { IfOk result (λ v. v ≡ unary_folded operation width operand) }
    ensures memory { IsOkUnless result Fault.Memory }
{
    match operand {
        Some(value) => Ok(Some(operation.value(width, value))),
        None => {
            put(code, low_changing(operation))?;
            Ok(None)
        }
    }
}

// What is done to an operand that is in the accumulator.
fn low_changing(operation: UnaryOperation) -> Instruction
    ensures { result ≡ low_changing operation }
{
    match operation {
        UnaryOperation::High => Instruction::Low(LowByte::High, High::Kept),
        UnaryOperation::Minus => Instruction::Unary(UnaryOperation::Minus, Width::Word),
        UnaryOperation::Not => Instruction::Low(
            LowByte::Operate(Direct::ExclusiveOr, Right::Constant(255)),
            High::Kept,
        ),
        UnaryOperation::Plus => Instruction::Unary(UnaryOperation::Plus, Width::Word),
        UnaryOperation::Low => Instruction::Unary(UnaryOperation::Plus, Width::Word),
        UnaryOperation::Double => Instruction::Unary(UnaryOperation::Plus, Width::Word),
    }
}

// A value that a target gets too: of a byte target the low byte is wanted, else the whole value is.
#[cycle(low)]
fn low_embedded(
    code: &mut Instructions,
    callees: Callees<'_>,
    value: &Expression,
    to: &Target,
) -> Result<Option<u16>, Fault>
    ensures code { OnOk result (code.new.items ≡ code.old.items ++ low_code (procedures_of callees.entry.procedures.now) (Embedded (target_of to.now) (expression_of value.now))) }
    ensures value { IfOk result (λ v. v ≡ None) }
    ensures memory { IsOkUnless result Fault.Memory }
{
    if takes_byte(to) {
        low(code, callees, value)?;
        target(code, callees, to)?;
        return Ok(None);
    }
    expression(code, callees, value)?;
    target(code, callees, to)?;
    Ok(None)
}

/// The code of an expression of which the low byte is wanted, whose value is not known before any run. The value of every other is
/// answered.
#[cycle(low)]
#[tactic(auto, using(crate::proofs::Trees::same_place))]
pub fn low_known(
    code: &mut Instructions,
    callees: Callees<'_>,
    tree: &Expression,
) -> Result<Option<u16>, Fault>
    ensures code { OnOk result (code.new.items ≡ code.old.items ++ low_unknown_code (procedures_of callees.entry.procedures.now) (expression_of tree.now)) }
    ensures value { IfOk result (λ v. v ≡ folded (expression_of tree.now)) }
    ensures memory { IsOkUnless result Fault.Memory }
{
    trees_have_their_lists();
    match tree {
        Expression::Constant(value) => Ok(Some(*value)),
        Expression::Plain(width, at) => low_plain(code, *width, *at),
        Expression::Chain(first, operations) => {
            let (whole, direct) = operations.split_at(whole_count(operations));
            let left = low_first(code, callees, first, whole)?;
            low_operations(code, callees, left, direct)
        }
        Expression::Unary(operation, width, operand) => {
            let value = low_operand(code, callees, *operation, operand)?;
            low_unary(code, *operation, *width, value)
        }
        Expression::Variable(Width::Byte, reference) => low_variable(code, callees, reference),
        Expression::Embedded(to, value) => low_embedded(code, callees, value, to),
        Expression::Input(Width::Byte, port) => low_receive(code, callees, port),
        Expression::Variable(Width::Word, _)
        | Expression::Location(_)
        | Expression::Input(Width::Word, _)
        | Expression::Call(_, _) => known(code, callees, tree),
    }
}

/// The code of an expression of which the low byte is wanted.
#[cycle(low)]
pub fn low(code: &mut Instructions, callees: Callees<'_>, tree: &Expression) -> Result<(), Fault>
    ensures code { OnOk result (code.new.items ≡ code.old.items ++ low_code (procedures_of callees.entry.procedures.now) (expression_of tree.now)) }
    ensures memory { IsOkUnless result Fault.Memory }
{
    let value = low_known(code, callees, tree)?;
    low_give(code, value)
}

/// What a right operand is, and what of it is computed, where the left one is in the accumulator.
pub fn low_right_of(
    code: &mut Instructions,
    callees: Callees<'_>,
    tree: &Expression,
) -> Result<Operand, Fault>
    ensures code { OnOk result (code.new.items ≡ code.old.items ++ beside (operand_of (expression_of tree.now)) (low_code (procedures_of callees.entry.procedures.now) (expression_of tree.now))) }
    ensures operand { IfOk result (λ o. operand_shown o ≡ operand_of (expression_of tree.now)) }
    ensures memory { IsOkUnless result Fault.Memory }
{
    low_right(code, callees, None, tree)
}

// Whether the low byte is all that a target gets.
fn takes_byte(to: &Target) -> bool
    ensures { result ≡ takes_byte (target_of to.now) }
{
    match to {
        Target::Plain(Width::Byte, _)
        | Target::Variable(Width::Byte, _)
        | Target::Port(Width::Byte, _) => true,
        Target::Plain(Width::Word, _)
        | Target::Variable(Width::Word, _)
        | Target::Port(Width::Word, _) => false,
    }
}

/// Whether the low byte is all that each target gets.
#[tactic(auto, using(crate::proofs::LowTrees::targets_take))]
pub fn take_bytes(first: &Target, others: &[Target]) -> bool
    ensures { result ≡ take_bytes (targets_of (target_of first.now) others.now) }
{
    let mut all = takes_byte(first);
    for other in others {
        let takes = takes_byte(other);
        all = all && takes;
    }
    all
}

/// The code of the value of a RETURN.
pub fn returned(
    code: &mut Instructions,
    callees: Callees<'_>,
    width: Width,
    value: &Expression,
) -> Result<(), Fault>
    ensures code { OnOk result (code.new.items ≡ code.old.items ++ returned_code (procedures_of callees.entry.procedures.now) width (expression_of value.now)) }
    ensures memory { IsOkUnless result Fault.Memory }
{
    match width {
        Width::Byte => low(code, callees, value),
        Width::Word => expression(code, callees, value),
    }
}
