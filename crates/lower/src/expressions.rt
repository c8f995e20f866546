//! The code of expressions: the value is left in the accumulator, and the stack as it was.

ghost use Rattle.std.specs.Prelude.{◌≡◌, ◌++◌, ◌∷◌, ◌%◌, [], map, slice_get, None, Some, IfOk, OnOk, IsOkUnless};
ghost use Rattle.plm_type.specs.View.{scalar_of, anchor_of, expression_of, expressions_of, reference_of, subscripts_of, target_of, targets_of, procedures_of};
ghost use Rattle.word86.specs.Place.{where_of};
ghost use Rattle.icode.specs.declared.instruction.Instruction.TheVariants as op;
ghost use Rattle.plm_type.specs.Rest.{Variable, Location, Call};
ghost use Rattle.plm_type.specs.Next.{parameters_of};
ghost use Rattle.lower.specs.Expressions.{constant_of, further_on, leads_to, anchor_place, scaled, moved, based, reading, locating, writing, passing, place_of, expression_code, subscripts_code, pushed_code, target_code, targets_code, unary_folded, folded, Name, Number, operand_of, stored_in, argument_code, alone, second_passed, beside, calling, dropped_code};
ghost use Rattle.lower.specs.Inner.Expressions.{given, unary_code, computed_beside, first_passed, other_passed, binary_value_of, binary_code_of, received, sent, operation_value, chain_value, unknown_code, operation_code, chain_code};
ghost use Rattle.lower.specs.Inner.Put.{operand_shown, name_of};

use crate::callees::Callees;
use crate::put::{Operand, add, as_name, put};
use icode::{High, Instruction, LowByte};
use plm_type::{
    Anchor, Expression, Operation, Place, Procedure, Reference, Scalar, Subscript, Target,
    trees_have_their_lists,
};
use word86::{BinaryOperation, Fault, UnaryOperation, Width};

type Instructions = Vec<Instruction>;

// The low 16 bits of a number of bytes.
fn low(bytes: u128) -> u16
    ensures { result ≡ bytes % 65536 }
{
    (bytes % 0x1_0000) as u16
}

/// The place at this offset from an anchor that lies at a fixed place, else its base.
#[tactic(auto, using(crate::proofs::Trees::same_place))]
pub fn anchor_place(anchor: Anchor, offset: u64) -> Place
    ensures { result ≡ anchor_place (anchor_of anchor) offset }
{
    match anchor {
        Anchor::InObject(object, start, _) => {
            Place::Ram(object, low(u128::from(start) + u128::from(offset)))
        }
        Anchor::OnScreen(page, start, _) => {
            Place::Screen(page, low(u128::from(start) + u128::from(offset)))
        }
        Anchor::Behind(base) => base,
    }
}

// The constant that an expression is.
fn constant_of(tree: &Expression) -> Option<u16>
    ensures { result ≡ constant_of (expression_of tree.now) }
{
    trees_have_their_lists();
    match tree {
        Expression::Constant(value) => Some(*value),
        Expression::Chain(first, others) => match others.as_slice() {
            [] => constant_of(first),
            [_, ..] => None,
        },
        Expression::Plain(_, _)
        | Expression::Variable(_, _)
        | Expression::Location(_)
        | Expression::Unary(_, _, _)
        | Expression::Embedded(_, _)
        | Expression::Input(_, _)
        | Expression::Call(_, _) => None,
    }
}

// Where a constant subscript leads.
fn further_on(offset: u64, stride: u64, number: u16) -> u64
    ensures { Some result ≡ further_on offset stride (Some number) }
{
    u64::from(low(u128::from(offset) + u128::from(stride) * u128::from(number)))
}

/// Where constant subscripts lead.
pub fn leads_to(offset: u64, subscripts: &[Subscript]) -> Option<u64>
    ensures { result ≡ leads_to (Some offset) (subscripts_of subscripts.now) }
{
    let mut to = offset;
    for subscript in subscripts {
        let number = constant_of(&subscript.index)?;
        to = further_on(to, subscript.stride, number);
    }
    Some(to)
}

// The accumulator counts elements of `stride` bytes.
fn scale(code: &mut Instructions, stride: u64) -> Result<(), Fault>
    ensures code { OnOk result (code.new.items ≡ code.old.items ++ scaled stride) }
    ensures memory { IsOkUnless result Fault.Memory }
{
    if stride == 1 {
        return Ok(());
    }
    let factor = low(u128::from(stride));
    put(
        code,
        Instruction::BinaryConstant(BinaryOperation::Multiply, Width::Word, factor),
    )
}

// The accumulator holds an address, to which the offset is added.
fn step(code: &mut Instructions, offset: u64) -> Result<(), Fault>
    ensures code { OnOk result (code.new.items ≡ code.old.items ++ moved offset) }
    ensures memory { IsOkUnless result Fault.Memory }
{
    if offset == 0 {
        return Ok(());
    }
    let bytes = low(u128::from(offset));
    put(
        code,
        Instruction::BinaryConstant(BinaryOperation::Add, Width::Word, bytes),
    )
}

/// The address of a based name with its subscripts.
#[tactic(auto, using(crate::proofs::Trees::same_place))]
pub fn follow(
    code: &mut Instructions,
    base: Place,
    offset: u64,
    subscripts: &[Subscript],
) -> Result<(), Fault>
    ensures code { OnOk result (code.new.items ≡ code.old.items ++ based (where_of base) offset (subscripts_of subscripts.now)) }
    ensures memory { IsOkUnless result Fault.Memory }
{
    match subscripts {
        [] => {
            put(code, Instruction::Load(Width::Word, base))?;
            step(code, offset)
        }
        [_, ..] => {
            put(
                code,
                Instruction::BinaryPlain(BinaryOperation::Add, Width::Word, Width::Word, base),
            )?;
            step(code, offset)
        }
    }
}

// The parameters of a procedure: none where there is no such procedure.
fn parameters_of(procedures: &[Procedure], number: usize) -> &[Scalar]
    ensures { map scalar_of result.now ≡ parameters_of (slice_get (procedures_of procedures.now) number) }
{
    match procedures.get(number) {
        None => &[],
        Some(procedure) => &procedure.parameters,
    }
}

// The stores of a call's values, which are pushed.
#[tactic(auto, using(crate::proofs::Trees::same_place))]
fn pass(code: &mut Instructions, parameters: &[Scalar]) -> Result<(), Fault>
    ensures code { OnOk result (code.new.items ≡ code.old.items ++ passing (map scalar_of parameters.now)) }
    ensures memory { IsOkUnless result Fault.Memory }
{
    for (k, parameter) in parameters.iter().enumerate() {
        put(code, Instruction::Pick(parameters.len() - 1 - k))?;
        put(code, Instruction::Store(parameter.width, parameter.place))?;
    }
    Ok(())
}

/// A known value comes into the accumulator.
pub fn give(code: &mut Instructions, value: Option<u16>) -> Result<(), Fault>
    ensures code { OnOk result (code.new.items ≡ code.old.items ++ given value) }
    ensures memory { IsOkUnless result Fault.Memory }
{
    match value {
        Some(value) => put(code, Instruction::Constant(value)),
        None => Ok(()),
    }
}

// An operator of one operand, which is in the accumulator or known. It answers the value that is known.
fn unary(
    code: &mut Instructions,
    operation: UnaryOperation,
    width: Width,
    operand: Option<u16>,
) -> Result<Option<u16>, Fault>
    ensures code { OnOk result (code.new.items ≡ code.old.items ++ unary_code operation width operand) }
    ensures value { IfOk result (λ v. v ≡ unary_folded operation width operand) }
    ensures memory { IsOkUnless result Fault.Memory }
{
    match operand {
        Some(value) => Ok(Some(operation.value(width, value))),
        None => {
            put(code, Instruction::Unary(operation, width))?;
            Ok(None)
        }
    }
}

/// The value of an operator whose right operand is known, if the left one is known too.
pub fn value_with(
    left: Option<u16>,
    operation: BinaryOperation,
    width: Width,
    right: u16,
) -> Option<u16>
    ensures { result ≡ binary_value_of left operation width (Number right) }
{
    match left {
        Some(left) => operation.value(width, left, right),
        None => None,
    }
}

// An operator with a right operand that is known. It answers the value that is known.
fn with_number(
    code: &mut Instructions,
    left: Option<u16>,
    operation: BinaryOperation,
    width: Width,
    right: u16,
) -> Result<Option<u16>, Fault>
    ensures code { OnOk result (code.new.items ≡ code.old.items ++ binary_code_of left operation width (Number right) []) }
    ensures value { IfOk result (λ v. v ≡ binary_value_of left operation width (Number right)) }
    ensures memory { IsOkUnless result Fault.Memory }
{
    match value_with(left, operation, width, right) {
        Some(value) => Ok(Some(value)),
        None => {
            give(code, left)?;
            put(code, Instruction::BinaryConstant(operation, width, right))?;
            Ok(None)
        }
    }
}

// A plain variable.
fn load(code: &mut Instructions, width: Width, at: Place) -> Result<Option<u16>, Fault>
    ensures code { OnOk result (code.new.items ≡ code.old.items ++ op.Load width at ∷ []) }
    ensures value { IfOk result (λ v. v ≡ None) }
    ensures memory { IsOkUnless result Fault.Memory }
{
    put(code, Instruction::Load(width, at))?;
    Ok(None)
}

/// The code of an expression.
#[cycle(expressions)]
pub fn expression(
    code: &mut Instructions,
    callees: Callees<'_>,
    tree: &Expression,
) -> Result<(), Fault>
    ensures code { OnOk result (code.new.items ≡ code.old.items ++ expression_code (procedures_of callees.entry.procedures.now) (expression_of tree.now)) }
    ensures memory { IsOkUnless result Fault.Memory }
{
    let value = known(code, callees, tree)?;
    give(code, value)
}

/// The code of an expression whose value is not known before any run. The value of every other is answered: so each node is looked at once.
#[cycle(expressions)]
#[tactic(auto, using(crate::proofs::Trees::same_place))]
pub fn known(
    code: &mut Instructions,
    callees: Callees<'_>,
    tree: &Expression,
) -> Result<Option<u16>, Fault>
    ensures code { OnOk result (code.new.items ≡ code.old.items ++ unknown_code (procedures_of callees.entry.procedures.now) (expression_of tree.now)) }
    ensures value { IfOk result (λ v. v ≡ folded (expression_of tree.now)) }
    ensures memory { IsOkUnless result Fault.Memory }
{
    trees_have_their_lists();
    match tree {
        Expression::Constant(value) => Ok(Some(*value)),
        Expression::Unary(operation, width, operand) => {
            let value = known(code, callees, operand)?;
            unary(code, *operation, *width, value)
        }
        Expression::Chain(first, operations) => {
            let left = known(code, callees, first)?;
            chain(code, callees, left, operations)
        }
        Expression::Plain(width, at) => load(code, *width, *at),
        Expression::Variable(width, reference) => variable(code, callees, *width, reference),
        Expression::Location(reference) => location(code, callees, reference),
        Expression::Embedded(to, value) => {
            expression(code, callees, value)?;
            target(code, callees, to)?;
            Ok(None)
        }
        Expression::Input(width, port) => receive(code, callees, *width, port),
        Expression::Call(number, arguments) => value_of_call(code, callees, *number, arguments),
    }
}

// A variable whose place is computed.
#[cycle(expressions)]
fn variable(
    code: &mut Instructions,
    callees: Callees<'_>,
    width: Width,
    reference: &Reference,
) -> Result<Option<u16>, Fault>
    ensures code { OnOk result (code.new.items ≡ code.old.items ++ expression_code (procedures_of callees.entry.procedures.now) (Variable width (reference_of reference.now))) }
    ensures value { IfOk result (λ v. v ≡ None) }
    ensures memory { IsOkUnless result Fault.Memory }
{
    trees_have_their_lists();
    let Reference { anchor, offset, .. } = reference;
    match leads_to(*offset, &reference.subscripts) {
        Some(to) => {
            read(code, width, *anchor, to, &[])?;
            Ok(None)
        }
        None => {
            subscripts(code, callees, &reference.subscripts)?;
            read(code, width, *anchor, *offset, &reference.subscripts)?;
            Ok(None)
        }
    }
}

// The address of a variable, or of constant bytes.
#[cycle(expressions)]
fn location(
    code: &mut Instructions,
    callees: Callees<'_>,
    reference: &Reference,
) -> Result<Option<u16>, Fault>
    ensures code { OnOk result (code.new.items ≡ code.old.items ++ expression_code (procedures_of callees.entry.procedures.now) (Location (reference_of reference.now))) }
    ensures value { IfOk result (λ v. v ≡ None) }
    ensures memory { IsOkUnless result Fault.Memory }
{
    trees_have_their_lists();
    let Reference { anchor, offset, .. } = reference;
    match leads_to(*offset, &reference.subscripts) {
        Some(to) => {
            locate(code, *anchor, to, &[])?;
            Ok(None)
        }
        None => {
            subscripts(code, callees, &reference.subscripts)?;
            locate(code, *anchor, *offset, &reference.subscripts)?;
            Ok(None)
        }
    }
}

// What is read once the subscripts are added.
fn read(
    code: &mut Instructions,
    width: Width,
    anchor: Anchor,
    offset: u64,
    subscripts: &[Subscript],
) -> Result<(), Fault>
    ensures code { OnOk result (code.new.items ≡ code.old.items ++ reading width (anchor_of anchor) offset (subscripts_of subscripts.now)) }
    ensures memory { IsOkUnless result Fault.Memory }
{
    let at = anchor_place(anchor, offset);
    match anchor {
        Anchor::Behind(base) => {
            follow(code, base, offset, subscripts)?;
            put(code, Instruction::LoadThere(width))
        }
        Anchor::InObject(_, _, _) | Anchor::OnScreen(_, _, _) => match subscripts {
            [] => put(code, Instruction::Load(width, at)),
            [_, ..] => put(code, Instruction::LoadAt(width, at)),
        },
    }
}

// The address once the subscripts are added.
fn locate(
    code: &mut Instructions,
    anchor: Anchor,
    offset: u64,
    subscripts: &[Subscript],
) -> Result<(), Fault>
    ensures code { OnOk result (code.new.items ≡ code.old.items ++ locating (anchor_of anchor) offset (subscripts_of subscripts.now)) }
    ensures memory { IsOkUnless result Fault.Memory }
{
    let at = anchor_place(anchor, offset);
    match anchor {
        Anchor::Behind(base) => follow(code, base, offset, subscripts),
        Anchor::InObject(_, _, _) | Anchor::OnScreen(_, _, _) => match subscripts {
            [] => put(code, Instruction::Locate(at)),
            [_, ..] => put(code, Instruction::LocateAt(at)),
        },
    }
}

/// Operators with their right operands, where the left one is in the accumulator or known. It answers the value that is known.
#[cycle(expressions)]
pub fn chain(
    code: &mut Instructions,
    callees: Callees<'_>,
    left: Option<u16>,
    operations: &[Operation],
) -> Result<Option<u16>, Fault>
    ensures code { OnOk result (code.new.items ≡ code.old.items ++ chain_code (procedures_of callees.entry.procedures.now) left operations.now) }
    ensures value { IfOk result (λ v. v ≡ chain_value left operations.now) }
    ensures memory { IsOkUnless result Fault.Memory }
{
    let mut value = left;
    for operation in operations {
        value = operate(code, callees, value, operation)?;
    }
    Ok(value)
}

/// An operator with its right operand.
#[cycle(expressions)]
pub fn operate(
    code: &mut Instructions,
    callees: Callees<'_>,
    left: Option<u16>,
    operation: &Operation,
) -> Result<Option<u16>, Fault>
    ensures code { OnOk result (code.new.items ≡ code.old.items ++ operation_code (procedures_of callees.entry.procedures.now) left operation.now) }
    ensures value { IfOk result (λ v. v ≡ operation_value left operation.now) }
    ensures memory { IsOkUnless result Fault.Memory }
{
    let Operation {
        operation: operator,
        width,
        ..
    } = operation;
    let operand = right(code, callees, left, &operation.operand)?;
    match operand {
        Operand::Number(value) => with_number(code, left, *operator, *width, value),
        Operand::Name(read, at) => {
            give(code, left)?;
            put(code, Instruction::BinaryPlain(*operator, *width, read, at))?;
            Ok(None)
        }
        Operand::Computed => {
            put(code, Instruction::Binary(*operator, *width))?;
            Ok(None)
        }
    }
}

// What a right operand is, and what of it is computed, while the left one is pushed: nothing of a constant and of a plain variable.
#[cycle(expressions)]
fn right(
    code: &mut Instructions,
    callees: Callees<'_>,
    left: Option<u16>,
    tree: &Expression,
) -> Result<Operand, Fault>
    ensures code { OnOk result (code.new.items ≡ code.old.items ++ computed_beside left (operand_of (expression_of tree.now)) (expression_code (procedures_of callees.entry.procedures.now) (expression_of tree.now))) }
    ensures operand { IfOk result (λ o. operand_shown o ≡ operand_of (expression_of tree.now)) }
    ensures memory { IsOkUnless result Fault.Memory }
{
    match as_name(tree) {
        Some((width, at)) => Ok(Operand::Name(width, at)),
        None => beside(code, callees, left, tree),
    }
}

// The same of what is no plain variable: what was put is taken back where the operand is known.
#[cycle(expressions)]
fn beside(
    code: &mut Instructions,
    callees: Callees<'_>,
    left: Option<u16>,
    tree: &Expression,
) -> Result<Operand, Fault>
    requires { name_of (operand_of (expression_of tree.now)) ≡ None }
    ensures code { OnOk result (code.new.items ≡ code.old.items ++ computed_beside left (operand_of (expression_of tree.now)) (expression_code (procedures_of callees.entry.procedures.now) (expression_of tree.now))) }
    ensures operand { IfOk result (λ o. operand_shown o ≡ operand_of (expression_of tree.now)) }
    ensures memory { IsOkUnless result Fault.Memory }
{
    let before = code.len();
    give(code, left)?;
    put(code, Instruction::Push)?;
    let value = known(code, callees, tree)?;
    match value {
        Some(number) => {
            code.truncate(before);
            Ok(Operand::Number(number))
        }
        None => Ok(Operand::Computed),
    }
}

/// The same where the left operand is in the accumulator.
pub fn right_of(
    code: &mut Instructions,
    callees: Callees<'_>,
    tree: &Expression,
) -> Result<Operand, Fault>
    ensures code { OnOk result (code.new.items ≡ code.old.items ++ beside (operand_of (expression_of tree.now)) (expression_code (procedures_of callees.entry.procedures.now) (expression_of tree.now))) }
    ensures operand { IfOk result (λ o. operand_shown o ≡ operand_of (expression_of tree.now)) }
    ensures memory { IsOkUnless result Fault.Memory }
{
    right(code, callees, None, tree)
}

// What receives the value of a port, whose number is in the accumulator or known.
fn received(width: Width, port: Option<u16>) -> Instruction
    ensures { result ≡ received width port }
{
    match port {
        Some(number) => Instruction::ReceiveFrom(width, number),
        None => Instruction::Receive(width),
    }
}

// The value of a port.
#[cycle(expressions)]
fn receive(
    code: &mut Instructions,
    callees: Callees<'_>,
    width: Width,
    port: &Expression,
) -> Result<Option<u16>, Fault>
    ensures code { OnOk result (code.new.items ≡ code.old.items ++ (unknown_code (procedures_of callees.entry.procedures.now) (expression_of port.now) ++ received width (folded (expression_of port.now)) ∷ [])) }
    ensures value { IfOk result (λ v. v ≡ None) }
    ensures memory { IsOkUnless result Fault.Memory }
{
    let number = known(code, callees, port)?;
    put(code, received(width, number))?;
    Ok(None)
}

// A call whose value is used.
#[cycle(expressions)]
fn value_of_call(
    code: &mut Instructions,
    callees: Callees<'_>,
    number: usize,
    arguments: &[Expression],
) -> Result<Option<u16>, Fault>
    ensures code { OnOk result (code.new.items ≡ code.old.items ++ expression_code (procedures_of callees.entry.procedures.now) (Call number (expressions_of arguments.now))) }
    ensures value { IfOk result (λ v. v ≡ None) }
    ensures memory { IsOkUnless result Fault.Memory }
{
    call(code, callees, number, arguments)?;
    if callees.gives(number) {
        return Ok(None);
    }
    put(code, Instruction::Constant(0))?;
    Ok(None)
}

// A call: one argument alone is not pushed, and of two at most the first one.
#[cycle(expressions)]
fn call(
    code: &mut Instructions,
    callees: Callees<'_>,
    number: usize,
    arguments: &[Expression],
) -> Result<(), Fault>
    ensures code { OnOk result (code.new.items ≡ code.old.items ++ calling (procedures_of callees.entry.procedures.now) number (expressions_of arguments.now)) }
    ensures memory { IsOkUnless result Fault.Memory }
{
    let parameters = parameters_of(callees.procedures, number);
    match arguments {
        [] => put(code, Instruction::Invoke(number)),
        [argument] => {
            pass_alone(code, callees, parameters, argument)?;
            put(code, Instruction::Invoke(number))
        }
        [first, second] => {
            pass_first(code, callees, parameters, first)?;
            pass_other(code, callees, parameters, second)?;
            put(code, Instruction::Invoke(number))
        }
        [_, _, _, ..] => {
            push_all(code, callees, arguments)?;
            pass(code, parameters)?;
            let drop = Instruction::Drop(arguments.len());
            add(code, &[drop, Instruction::Invoke(number)])
        }
    }
}

// The values of several arguments are pushed.
#[cycle(expressions)]
fn push_all(
    code: &mut Instructions,
    callees: Callees<'_>,
    arguments: &[Expression],
) -> Result<(), Fault>
    ensures code { OnOk result (code.new.items ≡ code.old.items ++ pushed_code (procedures_of callees.entry.procedures.now) (expressions_of arguments.now)) }
    ensures memory { IsOkUnless result Fault.Memory }
{
    for argument in arguments {
        expression(code, callees, argument)?;
        put(code, Instruction::Push)?;
    }
    Ok(())
}

// A parameter gets the accumulator.
#[tactic(auto, using(crate::proofs::Trees::same_place))]
fn store(code: &mut Instructions, parameter: Scalar) -> Result<(), Fault>
    ensures code { OnOk result (code.new.items ≡ code.old.items ++ stored_in (scalar_of parameter) ∷ []) }
    ensures memory { IsOkUnless result Fault.Memory }
{
    put(code, Instruction::Store(parameter.width, parameter.place))
}

// The parameters get the value on top and the accumulator.
#[tactic(auto, using(crate::proofs::Trees::same_place))]
fn store_both(code: &mut Instructions, one: Scalar, other: Scalar) -> Result<(), Fault>
    ensures code { OnOk result (code.new.items ≡ code.old.items ++ (op.StoreTop (scalar_of one).width (place_of (scalar_of one).place) ∷ stored_in (scalar_of other) ∷ [])) }
    ensures memory { IsOkUnless result Fault.Memory }
{
    put(code, Instruction::StoreTop(one.width, one.place))?;
    store(code, other)
}

// A constant for a parameter of a width.
fn give_argument(code: &mut Instructions, width: Width, number: u16) -> Result<(), Fault>
    ensures code { OnOk result (code.new.items ≡ code.old.items ++ argument_code width (Number number) (op.Constant number ∷ [])) }
    ensures memory { IsOkUnless result Fault.Memory }
{
    match width {
        Width::Byte => put(
            code,
            Instruction::Low(LowByte::Constant(number), High::Kept),
        ),
        Width::Word => put(code, Instruction::Constant(number)),
    }
}

// A plain variable for a parameter of a width.
fn load_argument(code: &mut Instructions, width: Width, read: Width, at: Place) -> Result<(), Fault>
    ensures code { OnOk result (code.new.items ≡ code.old.items ++ argument_code width (Name read at) (op.Load read at ∷ [])) }
    ensures memory { IsOkUnless result Fault.Memory }
{
    match (width, read) {
        (Width::Byte, Width::Byte) => put(code, Instruction::Low(LowByte::Load(at), High::Kept)),
        (Width::Byte, Width::Word) => put(code, Instruction::Load(read, at)),
        (Width::Word, Width::Byte) => put(code, Instruction::Load(read, at)),
        (Width::Word, Width::Word) => put(code, Instruction::Load(read, at)),
    }
}

// The parameters get the accumulator and a constant.
fn store_known(
    code: &mut Instructions,
    one: Scalar,
    other: Scalar,
    number: u16,
) -> Result<(), Fault>
    ensures code { OnOk result (code.new.items ≡ code.old.items ++ second_passed (scalar_of one) (scalar_of other) (Number number) (op.Constant number ∷ [])) }
    ensures memory { IsOkUnless result Fault.Memory }
{
    store(code, one)?;
    give_argument(code, other.width, number)?;
    store(code, other)
}

// An argument for a parameter of a width.
#[cycle(expressions)]
fn argument(
    code: &mut Instructions,
    callees: Callees<'_>,
    width: Width,
    tree: &Expression,
) -> Result<(), Fault>
    ensures code { OnOk result (code.new.items ≡ code.old.items ++ argument_code width (operand_of (expression_of tree.now)) (expression_code (procedures_of callees.entry.procedures.now) (expression_of tree.now))) }
    ensures memory { IsOkUnless result Fault.Memory }
{
    match as_name(tree) {
        Some((read, at)) => load_argument(code, width, read, at),
        None => computed_argument(code, callees, width, tree),
    }
}

// The same of what is no plain variable.
#[cycle(expressions)]
fn computed_argument(
    code: &mut Instructions,
    callees: Callees<'_>,
    width: Width,
    tree: &Expression,
) -> Result<(), Fault>
    requires { name_of (operand_of (expression_of tree.now)) ≡ None }
    ensures code { OnOk result (code.new.items ≡ code.old.items ++ argument_code width (operand_of (expression_of tree.now)) (expression_code (procedures_of callees.entry.procedures.now) (expression_of tree.now))) }
    ensures memory { IsOkUnless result Fault.Memory }
{
    let value = known(code, callees, tree)?;
    match value {
        Some(number) => give_argument(code, width, number),
        None => Ok(()),
    }
}

// An argument alone, which the first parameter gets.
#[cycle(expressions)]
fn pass_alone(
    code: &mut Instructions,
    callees: Callees<'_>,
    parameters: &[Scalar],
    tree: &Expression,
) -> Result<(), Fault>
    ensures code { OnOk result (code.new.items ≡ code.old.items ++ alone (map scalar_of parameters.now) (operand_of (expression_of tree.now)) (expression_code (procedures_of callees.entry.procedures.now) (expression_of tree.now))) }
    ensures memory { IsOkUnless result Fault.Memory }
{
    match parameters {
        [] => expression(code, callees, tree),
        [first, ..] => {
            argument(code, callees, first.width, tree)?;
            store(code, *first)
        }
    }
}

// The second of two arguments, and the parameters get both.
#[cycle(expressions)]
fn pass_second(
    code: &mut Instructions,
    callees: Callees<'_>,
    one: Scalar,
    other: Scalar,
    tree: &Expression,
) -> Result<(), Fault>
    ensures code { OnOk result (code.new.items ≡ code.old.items ++ second_passed (scalar_of one) (scalar_of other) (operand_of (expression_of tree.now)) (expression_code (procedures_of callees.entry.procedures.now) (expression_of tree.now))) }
    ensures memory { IsOkUnless result Fault.Memory }
{
    match as_name(tree) {
        Some((read, at)) => {
            put(code, Instruction::Push)?;
            load_argument(code, other.width, read, at)?;
            store_both(code, one, other)
        }
        None => pass_computed(code, callees, one, other, tree),
    }
}

// The same of what is no plain variable: what was put is taken back where the value is known.
#[cycle(expressions)]
fn pass_computed(
    code: &mut Instructions,
    callees: Callees<'_>,
    one: Scalar,
    other: Scalar,
    tree: &Expression,
) -> Result<(), Fault>
    requires { name_of (operand_of (expression_of tree.now)) ≡ None }
    ensures code { OnOk result (code.new.items ≡ code.old.items ++ second_passed (scalar_of one) (scalar_of other) (operand_of (expression_of tree.now)) (expression_code (procedures_of callees.entry.procedures.now) (expression_of tree.now))) }
    ensures memory { IsOkUnless result Fault.Memory }
{
    let before = code.len();
    put(code, Instruction::Push)?;
    let value = known(code, callees, tree)?;
    match value {
        Some(number) => {
            code.truncate(before);
            store_known(code, one, other, number)
        }
        None => store_both(code, one, other),
    }
}

// The first of two arguments.
#[cycle(expressions)]
fn pass_first(
    code: &mut Instructions,
    callees: Callees<'_>,
    parameters: &[Scalar],
    tree: &Expression,
) -> Result<(), Fault>
    ensures code { OnOk result (code.new.items ≡ code.old.items ++ first_passed (map scalar_of parameters.now) (operand_of (expression_of tree.now)) (expression_code (procedures_of callees.entry.procedures.now) (expression_of tree.now))) }
    ensures memory { IsOkUnless result Fault.Memory }
{
    match parameters {
        [] | [_] => Ok(()),
        [one, _, ..] => argument(code, callees, one.width, tree),
    }
}

// The other one.
#[cycle(expressions)]
fn pass_other(
    code: &mut Instructions,
    callees: Callees<'_>,
    parameters: &[Scalar],
    tree: &Expression,
) -> Result<(), Fault>
    ensures code { OnOk result (code.new.items ≡ code.old.items ++ other_passed (map scalar_of parameters.now) (operand_of (expression_of tree.now)) (expression_code (procedures_of callees.entry.procedures.now) (expression_of tree.now))) }
    ensures memory { IsOkUnless result Fault.Memory }
{
    match parameters {
        [] | [_] => Ok(()),
        [one, other, ..] => pass_second(code, callees, *one, *other, tree),
    }
}

/// How many bytes subscripts lead on.
#[cycle(expressions)]
pub fn subscripts(
    code: &mut Instructions,
    callees: Callees<'_>,
    subscripts: &[Subscript],
) -> Result<(), Fault>
    ensures code { OnOk result (code.new.items ≡ code.old.items ++ subscripts_code (procedures_of callees.entry.procedures.now) (subscripts_of subscripts.now)) }
    ensures memory { IsOkUnless result Fault.Memory }
{
    match subscripts {
        [] => Ok(()),
        [first, more @ ..] => {
            expression(code, callees, &first.index)?;
            scale(code, first.stride)?;
            for subscript in more {
                put(code, Instruction::Push)?;
                expression(code, callees, &subscript.index)?;
                scale(code, subscript.stride)?;
                put(code, Instruction::Binary(BinaryOperation::Add, Width::Word))?;
            }
            Ok(())
        }
    }
}

/// A target gets the value in the accumulator, which is there afterwards.
#[cycle(expressions)]
#[tactic(auto, using(crate::proofs::Trees::same_place))]
pub fn target(code: &mut Instructions, callees: Callees<'_>, to: &Target) -> Result<(), Fault>
    ensures code { OnOk result (code.new.items ≡ code.old.items ++ target_code (procedures_of callees.entry.procedures.now) (target_of to.now)) }
    ensures memory { IsOkUnless result Fault.Memory }
{
    trees_have_their_lists();
    match to {
        Target::Plain(width, at) => put(code, Instruction::Store(*width, *at)),
        Target::Variable(width, reference) => {
            let Reference { anchor, offset, .. } = reference;
            match leads_to(*offset, &reference.subscripts) {
                Some(to) => write(code, callees, *width, *anchor, to, &[]),
                None => write(
                    code,
                    callees,
                    *width,
                    *anchor,
                    *offset,
                    &reference.subscripts,
                ),
            }
        }
        Target::Port(width, port) => send(code, callees, *width, port),
    }
}

// A variable whose place is computed gets the value.
#[cycle(expressions)]
fn write(
    code: &mut Instructions,
    callees: Callees<'_>,
    width: Width,
    anchor: Anchor,
    offset: u64,
    list: &[Subscript],
) -> Result<(), Fault>
    ensures code { OnOk result (code.new.items ≡ code.old.items ++ writing width (anchor_of anchor) offset (subscripts_of list.now) (subscripts_code (procedures_of callees.entry.procedures.now) (subscripts_of list.now))) }
    ensures memory { IsOkUnless result Fault.Memory }
{
    let at = anchor_place(anchor, offset);
    match anchor {
        Anchor::Behind(base) => {
            put(code, Instruction::Push)?;
            subscripts(code, callees, list)?;
            follow(code, base, offset, list)?;
            put(code, Instruction::StoreThere(width))
        }
        Anchor::InObject(_, _, _) | Anchor::OnScreen(_, _, _) => match list {
            [] => put(code, Instruction::Store(width, at)),
            [_, ..] => {
                put(code, Instruction::Push)?;
                subscripts(code, callees, list)?;
                put(code, Instruction::StoreAt(width, at))
            }
        },
    }
}

// A port gets the value.
#[cycle(expressions)]
fn send(
    code: &mut Instructions,
    callees: Callees<'_>,
    width: Width,
    port: &Expression,
) -> Result<(), Fault>
    ensures code { OnOk result (code.new.items ≡ code.old.items ++ sent width (folded (expression_of port.now)) (expression_code (procedures_of callees.entry.procedures.now) (expression_of port.now))) }
    ensures memory { IsOkUnless result Fault.Memory }
{
    let before = code.len();
    put(code, Instruction::Push)?;
    let value = known(code, callees, port)?;
    match value {
        Some(number) => {
            code.truncate(before);
            put(code, Instruction::SendTo(width, number))
        }
        None => put(code, Instruction::Send(width)),
    }
}

/// The code of an expression whose value is dropped.
pub fn dropped(
    code: &mut Instructions,
    callees: Callees<'_>,
    tree: &Expression,
) -> Result<(), Fault>
    ensures code { OnOk result (code.new.items ≡ code.old.items ++ dropped_code (procedures_of callees.entry.procedures.now) (expression_of tree.now)) }
    ensures memory { IsOkUnless result Fault.Memory }
{
    trees_have_their_lists();
    match tree {
        Expression::Call(number, arguments) => call(code, callees, *number, arguments),
        Expression::Chain(first, operations) => match operations.as_slice() {
            [] => dropped(code, callees, first),
            [_, ..] => expression(code, callees, tree),
        },
        Expression::Constant(_)
        | Expression::Plain(_, _)
        | Expression::Variable(_, _)
        | Expression::Location(_)
        | Expression::Unary(_, _, _)
        | Expression::Embedded(_, _)
        | Expression::Input(_, _) => expression(code, callees, tree),
    }
}
