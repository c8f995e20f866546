//! Loops, by the code of their bodies.

ghost use Rattle.std.specs.Prelude.{◌≡◌, ◌++◌, ◌∷◌, [], ◌+◌, false, length, IfOk, OnOk, IsOkUnless};
ghost use Rattle.plm_type.specs.View.{expression_of, procedures_of, scalar_of};
ghost use Rattle.plm_type.specs.declared.program.Counting.TheVariants.{Up};
ghost use Rattle.lower.specs.Expressions.{Name, operand_of, place_of, beside, expression_code};
ghost use Rattle.lower.specs.Statements.{while_loop, counts_bytes, index_read, within, next_with_sign, next_by_number, add_pushed, next_round};
ghost use Rattle.lower.specs.Conditions.{always, compared, named, unless_named, compared_by, condition_code, test_of};
ghost use Rattle.lower.specs.LowBytes.{low_code};
ghost use Rattle.lower.specs.Inner.Put.{operand_shown};
ghost use Rattle.icode.specs.declared.instruction.Instruction.TheVariants.{Back};
ghost use Rattle.lower.specs.Inner.Loops.{counting, iterating};

use crate::callees::Callees;
use crate::conditions::{always, condition, named, related, settle};
use crate::expressions::{known, right_of};
use crate::low_bytes::{is_byte, is_narrow, low_load, low_right_of};
use crate::put::{Operand, ROOM, add, distance, put};
use icode::{High, Instruction, LowByte, Relation, Test};
use plm_type::{Counting, Expression, Loop, Scalar};
use std::alloc::Global;
use word86::{BinaryOperation, Fault, add16};

type Instructions = Vec<Instruction>;

// Rounds without a test.
fn endless_loop(alloc: Global, body: &[Instruction]) -> Result<Instructions, Fault>
    ensures code { IfOk result (λ r. r.items ≡ body.now ++ Back (length body.now + 1) ∷ []) }
    ensures memory { IsOkUnless result Fault.Memory }
{
    let back = distance(body.len(), 1)?;
    let mut code = Vec::with_capacity(alloc, back)?;
    add(&mut code, body)?;
    put(&mut code, Instruction::Back(back))?;
    Ok(code)
}

/// DO WHILE.
pub fn while_loop(
    alloc: Global,
    callees: Callees<'_>,
    tree: &Expression,
    body: &[Instruction],
    exit: usize,
) -> Result<Instructions, Fault>
    ensures code { IfOk result (λ r. r.items ≡ while_loop (always (expression_of tree.now)) (condition_code (procedures_of callees.entry.procedures.now) (expression_of tree.now)) (test_of (expression_of tree.now)) body.now exit) }
    ensures memory { IsOkUnless result Fault.Memory }
{
    if always(tree) {
        endless_loop(alloc, body)
    } else {
        tested_loop(alloc, callees, tree, body, exit)
    }
}

// Rounds with a test.
fn tested_loop(
    alloc: Global,
    callees: Callees<'_>,
    tree: &Expression,
    body: &[Instruction],
    exit: usize,
) -> Result<Instructions, Fault>
    ensures code { IfOk result (λ r. r.items ≡ while_loop false (condition_code (procedures_of callees.entry.procedures.now) (expression_of tree.now)) (test_of (expression_of tree.now)) body.now exit) }
    ensures memory { IsOkUnless result Fault.Memory }
{
    let mut code = Vec::with_capacity(alloc, body.len().saturating_add(ROOM))?;
    let test = condition(&mut code, callees, tree)?;
    let over = distance(distance(body.len(), 1)?, exit)?;
    let back = distance(distance(code.len(), body.len())?, 2)?;
    put(&mut code, Instruction::AheadUnless(test, over))?;
    add(&mut code, body)?;
    put(&mut code, Instruction::Back(back))?;
    Ok(code)
}

// A round, if its test holds, and the end of it.
fn count(
    code: &mut Instructions,
    asked: &[Instruction],
    test: Test,
    body: &[Instruction],
    again: &[Instruction],
    exit: usize,
) -> Result<(), Fault>
    ensures code { OnOk result (code.new.items ≡ code.old.items ++ counting asked.now test body.now again.now exit) }
    ensures memory { IsOkUnless result Fault.Memory }
{
    let over = distance(distance(body.len(), again.len())?, exit)?;
    add(code, asked)?;
    put(code, Instruction::AheadUnless(test, over))?;
    add(code, body)?;
    add(code, again)
}

// A round begins where the index stands in this relation to the bound.
fn within(counting: Counting) -> Relation
    ensures { result ≡ within counting }
{
    match counting {
        Counting::Up => Relation::LessEqual,
        Counting::SignedUp => Relation::LessEqualSigned,
        Counting::SignedDown => Relation::GreaterEqualSigned,
    }
}

// Whether a BYTE index is compared with a byte.
fn counts_bytes(index: Scalar, bound: &Expression) -> bool
    ensures { result ≡ counts_bytes (scalar_of index) (expression_of bound.now) }
{
    is_narrow(index.width) && is_byte(bound)
}

// The index, before it is compared.
#[tactic(auto, using(crate::proofs::Trees::same_place))]
fn index_read(bytes: bool, index: Scalar) -> Instruction
    ensures { result ≡ index_read bytes (scalar_of index) }
{
    if bytes {
        Instruction::Low(LowByte::Load(index.place), High::Kept)
    } else {
        Instruction::Load(index.width, index.place)
    }
}

// What the bound is, and what of it is computed.
fn right_operand(
    code: &mut Instructions,
    callees: Callees<'_>,
    bytes: bool,
    bound: &Expression,
) -> Result<Operand, Fault>
    ensures code { OnOk result (code.new.items ≡ code.old.items ++ compared bytes (beside (operand_of (expression_of bound.now)) (low_code (procedures_of callees.entry.procedures.now) (expression_of bound.now))) (beside (operand_of (expression_of bound.now)) (expression_code (procedures_of callees.entry.procedures.now) (expression_of bound.now)))) }
    ensures operand { IfOk result (λ o. operand_shown o ≡ operand_of (expression_of bound.now)) }
    ensures memory { IsOkUnless result Fault.Memory }
{
    if bytes {
        low_right_of(code, callees, bound)
    } else {
        right_of(code, callees, bound)
    }
}

// What is computed before the test of a bound, and the test.
fn bound_test(
    code: &mut Instructions,
    callees: Callees<'_>,
    bytes: bool,
    relation: Relation,
    index: Scalar,
    bound: &Expression,
) -> Result<Test, Fault>
    ensures code { OnOk result (code.new.items ≡ code.old.items ++ unless_named (named bytes relation (Name (scalar_of index).width (place_of (scalar_of index).place)) (operand_of (expression_of bound.now))) (index_read bytes (scalar_of index) ∷ compared bytes (beside (operand_of (expression_of bound.now)) (low_code (procedures_of callees.entry.procedures.now) (expression_of bound.now))) (beside (operand_of (expression_of bound.now)) (expression_code (procedures_of callees.entry.procedures.now) (expression_of bound.now))))) }
    ensures test { IfOk result (λ t. t ≡ compared_by bytes relation (Name (scalar_of index).width (place_of (scalar_of index).place)) (operand_of (expression_of bound.now))) }
    ensures memory { IsOkUnless result Fault.Memory }
{
    let Scalar { width, place } = index;
    let before = code.len();
    put(code, index_read(bytes, index))?;
    let right = right_operand(code, callees, bytes, bound)?;
    let named = named(bytes, relation, width, place, right);
    Ok(settle(code, before, named, related(bytes, relation, right)))
}

/// DO with an index, whose first value is in the accumulator.
pub fn iterate(
    code: &mut Instructions,
    alloc: Global,
    callees: Callees<'_>,
    rounds: &Loop,
    body: &[Instruction],
    exit: usize,
) -> Result<(), Fault>
    ensures code { OnOk result (code.new.items ≡ code.old.items ++ iterating (counts_bytes (scalar_of rounds.now.index) (expression_of rounds.now.bound)) rounds.now.counting (scalar_of rounds.now.index) (operand_of (expression_of rounds.now.bound)) (compared (counts_bytes (scalar_of rounds.now.index) (expression_of rounds.now.bound)) (beside (operand_of (expression_of rounds.now.bound)) (low_code (procedures_of callees.entry.procedures.now) (expression_of rounds.now.bound))) (beside (operand_of (expression_of rounds.now.bound)) (expression_code (procedures_of callees.entry.procedures.now) (expression_of rounds.now.bound)))) (operand_of (expression_of rounds.now.step)) (expression_code (procedures_of callees.entry.procedures.now) (expression_of rounds.now.step)) body.now exit) }
    ensures memory { IsOkUnless result Fault.Memory }
{
    let Scalar { width, place } = rounds.index;
    let bytes = counts_bytes(rounds.index, &rounds.bound);
    let relation = within(rounds.counting);
    let mut asked = Vec::new(alloc);
    let test = bound_test(
        &mut asked,
        callees,
        bytes,
        relation,
        rounds.index,
        &rounds.bound,
    )?;
    let before = distance(distance(asked.len(), body.len())?, 1)?;
    let again = next_round(
        alloc,
        callees,
        rounds.counting,
        rounds.index,
        &rounds.step,
        before,
    )?;
    put(code, Instruction::Store(width, place))?;
    count(code, &asked, test, body, &again, exit)
}

// The end of a round: the step is added, and a next round begins `before` instructions back, unless the sum left the range of the index.
fn next_round(
    alloc: Global,
    callees: Callees<'_>,
    counting: Counting,
    index: Scalar,
    step: &Expression,
    before: usize,
) -> Result<Instructions, Fault>
    ensures code { IfOk result (λ r. r.items ≡ next_round counting (scalar_of index) (operand_of (expression_of step.now)) (expression_code (procedures_of callees.entry.procedures.now) (expression_of step.now)) before) }
    ensures memory { IsOkUnless result Fault.Memory }
{
    let mut code = Vec::new(alloc);
    let value = known(&mut code, callees, step)?;
    match value {
        Some(number) => next_by_number(alloc, counting, index, number, before),
        None => next_by_stack(code, index, before),
    }
}

// The same where the step is a constant. An INTEGER's sum left its range below the least INTEGER and the step, or above the greatest
// and the step.
fn next_by_number(
    alloc: Global,
    counting: Counting,
    index: Scalar,
    step: u16,
    before: usize,
) -> Result<Instructions, Fault>
    ensures code { IfOk result (λ r. r.items ≡ next_by_number counting (scalar_of index) step before) }
    ensures memory { IsOkUnless result Fault.Memory }
{
    match counting {
        Counting::Up => next_without_sign(alloc, index, step, before),
        Counting::SignedUp => {
            let from = add16(step, 0x8000);
            next_with_sign(alloc, Relation::LessSigned, from, index, step, before)
        }
        Counting::SignedDown => {
            let from = add16(step, 0x7FFF);
            next_with_sign(alloc, Relation::GreaterSigned, from, index, step, before)
        }
    }
}

// Of a BYTE or WORD.
#[tactic(auto, using(crate::proofs::Trees::same_place))]
fn next_without_sign(
    alloc: Global,
    index: Scalar,
    step: u16,
    before: usize,
) -> Result<Instructions, Fault>
    ensures code { IfOk result (λ r. r.items ≡ next_by_number Up (scalar_of index) step before) }
    ensures memory { IsOkUnless result Fault.Memory }
{
    let Scalar { width, place } = index;
    let back = distance(before, 2)?;
    let sum = [
        low_load(width, place),
        Instruction::Next(width, place, step, back),
    ];
    let mut code = Vec::new(alloc);
    add(&mut code, &sum)?;
    Ok(code)
}

// Of an INTEGER, whose sum left its range where it stands in this relation to this number.
#[tactic(auto, using(crate::proofs::Trees::same_place))]
fn next_with_sign(
    alloc: Global,
    left: Relation,
    from: u16,
    index: Scalar,
    step: u16,
    before: usize,
) -> Result<Instructions, Fault>
    ensures code { IfOk result (λ r. r.items ≡ next_with_sign left from (scalar_of index) step before) }
    ensures memory { IsOkUnless result Fault.Memory }
{
    let Scalar { width, place } = index;
    let back = distance(before, 4)?;
    let sum = [
        Instruction::Load(width, place),
        Instruction::BinaryConstant(BinaryOperation::Add, width, step),
        Instruction::Store(width, place),
        Instruction::BackUnless(Test::Constant(left, from), back),
    ];
    let mut code = Vec::new(alloc);
    add(&mut code, &sum)?;
    Ok(code)
}

// The same by way of the stack, where the step has this code.
fn next_by_stack(code: Instructions, index: Scalar, before: usize) -> Result<Instructions, Fault>
    ensures code { IfOk result (λ r. r.items ≡ code.items ++ add_pushed (scalar_of index) (before + length code.items)) }
    ensures memory { IsOkUnless result Fault.Memory }
{
    let mut code = code;
    let before = distance(before, code.len())?;
    add_pushed(&mut code, index, before)?;
    Ok(code)
}

// The step, which is in the accumulator, is added.
#[tactic(auto, using(crate::proofs::Trees::same_place))]
fn add_pushed(code: &mut Instructions, index: Scalar, before: usize) -> Result<(), Fault>
    ensures code { OnOk result (code.new.items ≡ code.old.items ++ add_pushed (scalar_of index) before) }
    ensures memory { IsOkUnless result Fault.Memory }
{
    let Scalar { width, place } = index;
    let back = distance(before, 6)?;
    let sum = [
        Instruction::Push,
        Instruction::Push,
        Instruction::Load(width, place),
        Instruction::Binary(BinaryOperation::Add, width),
        Instruction::Store(width, place),
        Instruction::BackUnless(Test::Top(Relation::Greater), back),
    ];
    add(code, &sum)
}
