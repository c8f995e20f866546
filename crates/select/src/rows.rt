//! The steps of each instruction of the intermediate code.

ghost use Rattle.std.specs.Prelude.{◌≡◌, ◌+◌, ◌++◌, ◌∷◌, [], IsOkUnless, OnOk, slice_index};
ghost use Rattle.word86.specs.declared.width.Width.TheVariants.{Byte};
ghost use Rattle.i86_table.specs.declared.registers.Register16.TheVariants.{Ax, Cx};
ghost use Rattle.i86_table.specs.declared.registers.Register8.TheVariants.{Ch};
ghost use Rattle.i86_table.specs.declared.instruction.AluOperation.TheVariants.{Cmp};
ghost use Rattle.icode.specs.Registers.{none};
ghost use Rattle.icode.specs.declared.instruction.Instruction.TheVariants.{StoreConstantAt, Switch};
ghost use Rattle.icode.specs.declared.instruction.Test.TheVariants.{Named};
ghost use Rattle.select.specs.declared.part.Step.TheVariants.{Plain, Goto};
ghost use Rattle.select.specs.Inner.Numbering.{step_at};
ghost use Rattle.select.specs.Rows.{stores_right, plain, finished, clear_byte, alu, narrow, operates, row, picked, dropped, sent, received, by_read, fails, unless, step_added, stays_in_range, again, with_register, given_back, registers_of, on_place, loads, loads_right, stores, without_sign};

use crate::low_bytes::{low_compared, low_row};
use crate::named::{compare_byte, compare_word, test_byte};
use crate::operators::{
    binary, by_constant, changed, core, direct, narrow, narrow_right, narrow_sum, step_added,
    then_narrow,
};
use crate::part::{Kind, Step};
use crate::put::{
    access, accumulator_gets, add, all, alu, alu_number, clear_byte, compares, copy, exchange,
    load, load_number, own_word, placed, pop, push, put, spot, twice,
};
use i86_table::{
    AluOperation, Base, Condition, Count, Instr, Open, Operands, Port, Register8, Register16,
    RmOperand, Segment, ShiftOperation, TestMask, Use,
};
use icode::{Instruction, Registers, Relation, Test, is_direct};
use word86::{BinaryOperation, Fault, Place, Width};

const AX: Register16 = Register16::Ax;

const BX: Register16 = Register16::Bx;

const CX: Register16 = Register16::Cx;

const DX: Register16 = Register16::Dx;

const BP: Register16 = Register16::Bp;

const SP: Register16 = Register16::Sp;

/// CL or CX gets what lies at a place.
fn load_right(width: Width, place: &Place) -> Step
    ensures { result ≡ on_place (loads_right width) place.now }
{
    let ram = access(Use::Load, Register8::Cl, CX, width, spot(None, Segment::Ds));
    let screen = access(Use::Load, Register8::Cl, CX, width, spot(None, Segment::Es));
    placed(place, ram, screen)
}

/// CL or CX is written at a place.
fn store_right(width: Width, place: &Place) -> Step
    ensures { result ≡ on_place (stores_right width) place.now }
{
    let ram = access(
        Use::Store,
        Register8::Cl,
        CX,
        width,
        spot(None, Segment::Ds),
    );
    let screen = access(
        Use::Store,
        Register8::Cl,
        CX,
        width,
        spot(None, Segment::Es),
    );
    placed(place, ram, screen)
}

/// AL or AX is written at a place, or as far after it as the base says.
fn store(width: Width, base: Option<Base>, place: &Place) -> Step
    ensures { result ≡ on_place (stores width base) place.now }
{
    let ram = access(
        Use::Store,
        Register8::Al,
        AX,
        width,
        spot(base, Segment::Ds),
    );
    let screen = access(
        Use::Store,
        Register8::Al,
        AX,
        width,
        spot(base, Segment::Es),
    );
    placed(place, ram, screen)
}

/// The operation on AX and the word at a place.
fn operate(operation: AluOperation, place: &Place) -> Step
    ensures { result ≡ on_place (operates operation) place.now }
{
    let ram = Open::Word(Use::Operate(operation), AX, spot(None, Segment::Ds));
    let screen = Open::Word(Use::Operate(operation), AX, spot(None, Segment::Es));
    placed(place, ram, screen)
}

/// AX gets the word that `above` others lie on; the one on top is popped and pushed again.
fn picked(steps: &mut Vec<Step>, above: usize) -> Result<(), Fault>
    ensures steps { OnOk result (steps.new.items ≡ steps.old.items ++ plain (picked above)) }
    ensures memory { IsOkUnless result Fault.Memory }
{
    if above == 0 {
        return all(steps, &[pop(AX), push(AX)]);
    }
    let fetch = Instr::MoveWord(Operands::FromMemory(AX, own_word(above)));
    all(steps, &[copy(BP, SP), fetch])
}

fn dropped(count: usize) -> Instr
    ensures { result ≡ dropped count }
{
    match count {
        0 => Instr::Nop,
        1 => pop(CX),
        _ => alu_number(AluOperation::Add, SP, twice(count)),
    }
}

fn sent(steps: &mut Vec<Step>, width: Width, port: u16) -> Result<(), Fault>
    ensures steps { OnOk result (steps.new.items ≡ steps.old.items ++ plain (sent width port)) }
    ensures memory { IsOkUnless result Fault.Memory }
{
    if port >= 256 {
        return all(steps, &[load_number(DX, port), Instr::Out(width, Port::Dx)]);
    }
    all(steps, &[Instr::Out(width, Port::Fixed(port as u8))])
}

fn received(steps: &mut Vec<Step>, width: Width, port: u16) -> Result<(), Fault>
    ensures steps { OnOk result (steps.new.items ≡ steps.old.items ++ plain (received width port)) }
    ensures memory { IsOkUnless result Fault.Memory }
{
    if port >= 256 {
        add(steps, load_number(DX, port))?;
        return then_narrow(steps, width, Instr::In(width, Port::Dx));
    }
    then_narrow(steps, width, Instr::In(width, Port::Fixed(port as u8)))
}

/// An operator on AX and what is read at a place.
fn by_read(
    steps: &mut Vec<Step>,
    operation: BinaryOperation,
    width: Width,
    read: Width,
    place: &Place,
) -> Result<(), Fault>
    ensures steps { OnOk result (steps.new.items ≡ steps.old.items ++ by_read operation width read place.now) }
    ensures memory { IsOkUnless result Fault.Memory }
{
    let takes_it_there = match read {
        Width::Byte => false,
        Width::Word => is_direct(operation),
    };
    if takes_it_there {
        put(steps, operate(direct(operation), place))?;
        return narrow_sum(steps, operation, width);
    }
    put(steps, load_right(read, place))?;
    narrow_right(steps, read)?;
    core(steps, operation, width)
}

/// The condition after a comparison where the relation does not hold.
fn fails(relation: Relation) -> Condition
    ensures { result ≡ fails relation }
{
    match relation {
        Relation::Equal => Condition::NotEqual,
        Relation::NotEqual => Condition::Equal,
        Relation::Less => Condition::NotBelow,
        Relation::LessEqual => Condition::Above,
        Relation::Greater => Condition::BelowOrEqual,
        Relation::GreaterEqual => Condition::Below,
        Relation::LessSigned => Condition::NotLess,
        Relation::LessEqualSigned => Condition::Greater,
        Relation::GreaterSigned => Condition::LessOrEqual,
        Relation::GreaterEqualSigned => Condition::Less,
    }
}

/// The relation that bytes, which have no sign, stand in.
fn without_sign(relation: Relation) -> Relation
    ensures { result ≡ without_sign relation }
{
    match relation {
        Relation::Equal => Relation::Equal,
        Relation::NotEqual => Relation::NotEqual,
        Relation::Less | Relation::LessSigned => Relation::Less,
        Relation::LessEqual | Relation::LessEqualSigned => Relation::LessEqual,
        Relation::Greater | Relation::GreaterSigned => Relation::Greater,
        Relation::GreaterEqual | Relation::GreaterEqualSigned => Relation::GreaterEqual,
    }
}

/// AX is compared with the byte at a place, which fills CX.
fn compare_with_byte(steps: &mut Vec<Step>, place: &Place) -> Result<(), Fault>
    ensures steps { OnOk result (steps.new.items ≡ steps.old.items ++ on_place (loads_right Byte) place.now ∷ Plain (clear_byte Ch) ∷ Plain (alu Cmp Ax Cx) ∷ []) }
    ensures memory { IsOkUnless result Fault.Memory }
{
    put(steps, load_right(Width::Byte, place))?;
    all(
        steps,
        &[clear_byte(Register8::Ch), alu(AluOperation::Cmp, AX, CX)],
    )
}

/// A jump to a step unless what lies at a place stands in a relation to a constant.
fn unless_named(
    steps: &mut Vec<Step>,
    relation: Relation,
    width: Width,
    place: &Place,
    number: u16,
    target: usize,
) -> Result<(), Fault>
    ensures steps { OnOk result (steps.new.items ≡ steps.old.items ++ unless (Named relation width place.now number) target) }
    ensures memory { IsOkUnless result Fault.Memory }
{
    let condition = match width {
        Width::Byte => {
            put(steps, compare_byte(place, number))?;
            fails(without_sign(relation))
        }
        Width::Word => {
            put(steps, compare_word(place, number))?;
            fails(relation)
        }
    };
    put(steps, Step::GotoIf { condition, target })
}

/// A jump to a step unless a test holds.
fn unless(steps: &mut Vec<Step>, test: &Test, target: usize) -> Result<(), Fault>
    ensures steps { OnOk result (steps.new.items ≡ steps.old.items ++ unless test.now target) }
    ensures memory { IsOkUnless result Fault.Memory }
{
    let condition = match test {
        Test::Odd => {
            let al = RmOperand::Register(Register8::Al);
            add(steps, Instr::TestByte(al, TestMask::Immediate(1)))?;
            Condition::Equal
        }
        Test::Constant(relation, number) => {
            add(steps, compares(*number))?;
            fails(*relation)
        }
        Test::Plain(relation, Width::Byte, place) => {
            compare_with_byte(steps, place)?;
            fails(*relation)
        }
        Test::Plain(relation, Width::Word, place) => {
            put(steps, operate(AluOperation::Cmp, place))?;
            fails(*relation)
        }
        Test::Top(relation) => {
            all(steps, &[pop(CX), alu(AluOperation::Cmp, CX, AX)])?;
            fails(*relation)
        }
        Test::Low(relation, right) => {
            let condition = fails(without_sign(*relation));
            return low_compared(steps, right, Step::GotoIf { condition, target });
        }
        Test::Named(relation, width, place, number) => {
            return unless_named(steps, *relation, *width, place, *number, target);
        }
        Test::OddNamed(place) => {
            put(steps, test_byte(1, place))?;
            Condition::Equal
        }
    };
    put(steps, Step::GotoIf { condition, target })
}

/// The condition after a step was added where the sum stays in the range of its width: INC leaves the carry.
fn stays_in_range(number: u16) -> Condition
    ensures { result ≡ stays_in_range number }
{
    if number == 1 {
        Condition::NotEqual
    } else {
        Condition::NotBelow
    }
}

/// A jump to a step if it does; a byte does not by a step above 255.
fn again(steps: &mut Vec<Step>, width: Width, number: u16, target: usize) -> Result<(), Fault>
    ensures steps { OnOk result (steps.new.items ≡ steps.old.items ++ again width number target) }
    ensures memory { IsOkUnless result Fault.Memory }
{
    let condition = stays_in_range(number);
    match width {
        Width::Byte => {
            if number >= 256 {
                Ok(())
            } else {
                put(steps, Step::GotoIf { condition, target })
            }
        }
        Width::Word => put(steps, Step::GotoIf { condition, target }),
    }
}

/// The end of a round: a step is added, the sum is stored, and a next round begins at the target.
fn round_end(
    steps: &mut Vec<Step>,
    width: Width,
    place: &Place,
    number: u16,
    target: usize,
) -> Result<(), Fault>
    ensures steps { OnOk result (steps.new.items ≡ steps.old.items ++ Plain (step_added width number) ∷ on_place (stores width None) place.now ∷ again width number target) }
    ensures memory { IsOkUnless result Fault.Memory }
{
    add(steps, step_added(width, number))?;
    put(steps, store(width, None, place))?;
    again(steps, width, number, target)
}

/// The number of the step at which the row of an index begins.
fn step_at(firsts: &[usize], index: usize) -> usize
    ensures { result ≡ step_at firsts.now index }
{
    let last = firsts.len().saturating_sub(1);
    match firsts.get(index.min(last)) {
        None => 0,
        Some(first) => *first,
    }
}

/// The step at which the row `count` after the next begins.
fn ahead(firsts: &[usize], next: usize, count: usize) -> usize
    ensures { result ≡ step_at firsts.now (next + count) }
{
    step_at(firsts, next.saturating_add(count))
}

/// The number of a part, 0 where there is none.
fn part_of(parts: &[usize], procedure: usize) -> usize
    ensures { result ≡ slice_index parts.now procedure }
{
    match parts.get(procedure) {
        None => 0,
        Some(part) => *part,
    }
}

/// A register comes back from the stack, if it was saved.
fn pop_if(steps: &mut Vec<Step>, saved: bool, register: Register16) -> Result<(), Fault>
    ensures steps { OnOk result (steps.new.items ≡ steps.old.items ++ plain (given_back (with_register saved register []))) }
    ensures memory { IsOkUnless result Fault.Memory }
{
    if saved {
        add(steps, pop(register))
    } else {
        Ok(())
    }
}

/// All registers come back, the last one first, and the interrupt procedure ends.
#[tactic(auto, using(crate::proofs::Backs::all_back))]
fn finish(steps: &mut Vec<Step>, saves: Registers) -> Result<(), Fault>
    ensures steps { OnOk result (steps.new.items ≡ steps.old.items ++ finished saves) }
    ensures memory { IsOkUnless result Fault.Memory }
{
    pop_if(steps, saves.frame, BP)?;
    pop_if(steps, saves.address, BX)?;
    pop_if(steps, saves.high, DX)?;
    pop_if(steps, saves.right, CX)?;
    pop_if(steps, saves.accumulator, AX)?;
    add(steps, Instr::InterruptReturn)
}

/// A jump through a table whose words follow, one for each of `count` cases, or past them.
fn switch(steps: &mut Vec<Step>, firsts: &[usize], next: usize, count: usize) -> Result<(), Fault>
    ensures steps { OnOk result (steps.new.items ≡ steps.old.items ++ row (step_at firsts.now) (λ q. 0) none next (Switch count)) }
    ensures memory { IsOkUnless result Fault.Memory }
{
    add(
        steps,
        alu_number(AluOperation::Cmp, AX, (count % 0x1_0000) as u16),
    )?;
    put(
        steps,
        Step::GotoIf {
            condition: Condition::NotBelow,
            target: ahead(firsts, next, count),
        },
    )?;
    let twice = Instr::ShiftWord(ShiftOperation::Shl, RmOperand::Register(BX), Count::One);
    all(steps, &[copy(BX, AX), twice])?;
    put(
        steps,
        Step::AtStep {
            instruction: Open::JumpTo(spot(Some(Base::Bx), Segment::Cs)),
            target: step_at(firsts, next),
        },
    )
}

/// What stands at a place goes to AL or AX, after what comes first; a byte fills its word.
fn loaded(
    steps: &mut Vec<Step>,
    width: Width,
    base: Option<Base>,
    place: &Place,
) -> Result<(), Fault>
    ensures steps { OnOk result (steps.new.items ≡ steps.old.items ++ on_place (loads width base) place.now ∷ plain (narrow width)) }
    ensures memory { IsOkUnless result Fault.Memory }
{
    put(steps, load(width, base, place))?;
    narrow(steps, width)
}

/// A constant is written as far after a place as AX says, which gets the constant.
fn store_constant(
    steps: &mut Vec<Step>,
    width: Width,
    place: &Place,
    number: u16,
) -> Result<(), Fault>
    ensures steps { OnOk result (steps.new.items ≡ steps.old.items ++ row (λ k. 0) (λ q. 0) none 0 (StoreConstantAt width place.now number)) }
    ensures memory { IsOkUnless result Fault.Memory }
{
    all(steps, &[exchange(BX), accumulator_gets(number)])?;
    put(steps, store(width, Some(Base::Bx), place))
}

/// A jump to the step that a row begins with.
fn jump(steps: &mut Vec<Step>, target: usize) -> Result<(), Fault>
    ensures steps { OnOk result (steps.new.items ≡ steps.old.items ++ Goto target ∷ []) }
    ensures memory { IsOkUnless result Fault.Memory }
{
    put(steps, Step::Goto { target })
}

/// The steps of an instruction of a routine that saves these registers, where the index after it is `next`, the rows begin at
/// `firsts`, the last of which is the end of the routine, and the procedures' parts have the numbers `parts`. The one refusal is want of memory.
pub(crate) fn row(
    steps: &mut Vec<Step>,
    firsts: &[usize],
    parts: &[usize],
    saves: Registers,
    next: usize,
    instruction: &Instruction,
) -> Result<(), Fault>
    ensures steps { OnOk result (steps.new.items ≡ steps.old.items ++ row (step_at firsts.now) (slice_index parts.now) saves next instruction.now) }
    ensures memory { IsOkUnless result Fault.Memory }
{
    match instruction {
        Instruction::Constant(number) => add(steps, accumulator_gets(*number)),
        Instruction::Locate(place) => {
            put(steps, placed(place, Open::Number(AX), Open::Number(AX)))
        }
        Instruction::LocateAt(place) => {
            let sum = Open::OperateAx(AluOperation::Add);
            put(steps, placed(place, sum, sum))
        }
        Instruction::Load(width, place) => loaded(steps, *width, None, place),
        Instruction::LoadAt(width, place) => {
            add(steps, exchange(BX))?;
            loaded(steps, *width, Some(Base::Bx), place)
        }
        Instruction::LoadThere(width) => {
            let there = spot(Some(Base::Bx), Segment::Ds);
            let load = access(Use::Load, Register8::Al, AX, *width, there);
            all(steps, &[exchange(BX), load.closed(0)])?;
            narrow(steps, *width)
        }
        Instruction::Low(low, high) => low_row(steps, low, *high),
        Instruction::Push => add(steps, push(AX)),
        Instruction::Pick(above) => picked(steps, *above),
        Instruction::Drop(count) => add(steps, dropped(*count)),
        Instruction::Unary(operation, width) => changed(steps, *operation, *width),
        Instruction::Binary(operation, width) => binary(steps, *operation, *width),
        Instruction::BinaryConstant(operation, width, number) => {
            by_constant(steps, *operation, *width, *number)
        }
        Instruction::BinaryPlain(operation, width, read, place) => {
            by_read(steps, *operation, *width, *read, place)
        }
        Instruction::Store(width, place) => put(steps, store(*width, None, place)),
        Instruction::StoreAt(width, place) => {
            all(steps, &[exchange(BX), pop(AX)])?;
            put(steps, store(*width, Some(Base::Bx), place))
        }
        Instruction::StoreThere(width) => {
            let there = spot(Some(Base::Bx), Segment::Ds);
            let store = access(Use::Store, Register8::Al, AX, *width, there);
            all(steps, &[exchange(BX), pop(AX), store.closed(0)])
        }
        Instruction::StoreTop(width, place) => {
            add(steps, pop(CX))?;
            put(steps, store_right(*width, place))
        }
        Instruction::StoreConstantAt(width, place, number) => {
            store_constant(steps, *width, place, *number)
        }
        Instruction::Send(width) => {
            all(
                steps,
                &[exchange(DX), pop(AX), Instr::Out(*width, Port::Dx)],
            )
        }
        Instruction::SendTo(width, port) => sent(steps, *width, *port),
        Instruction::Receive(width) => {
            add(steps, exchange(DX))?;
            then_narrow(steps, *width, Instr::In(*width, Port::Dx))
        }
        Instruction::ReceiveFrom(width, port) => received(steps, *width, *port),
        Instruction::Ahead(count) => jump(steps, ahead(firsts, next, *count)),
        Instruction::AheadUnless(test, count) => unless(steps, test, ahead(firsts, next, *count)),
        Instruction::Back(count) => jump(steps, step_at(firsts, next.saturating_sub(*count))),
        Instruction::BackUnless(test, count) => {
            unless(steps, test, step_at(firsts, next.saturating_sub(*count)))
        }
        Instruction::Next(width, place, number, count) => {
            let target = step_at(firsts, next.saturating_sub(*count));
            round_end(steps, *width, place, *number, target)
        }
        Instruction::Switch(count) => switch(steps, firsts, next, *count),
        Instruction::Case(count) => {
            let target = ahead(firsts, next, *count);
            put(steps, Step::Word { target })
        }
        Instruction::Invoke(procedure) => put(
            steps,
            Step::Refer {
                instruction: Open::Call,
                number: 0,
                kind: Kind::Near,
                name: part_of(parts, *procedure),
            },
        ),
        Instruction::Leave => add(steps, Instr::Return),
        Instruction::Enable => all(steps, &[Instr::EnableInterrupts, Instr::Nop]),
        Instruction::Disable => add(steps, Instr::DisableInterrupts),
        Instruction::Halt => all(steps, &[Instr::EnableInterrupts, Instr::Halt]),
        Instruction::Finish => finish(steps, saves),
    }
}
