//! Instructions and steps one after the other.

ghost use Rattle.std.specs.Prelude.{◌≡◌, ◌*◌, ◌%◌, ◌++◌, ◌∷◌, [], IsOkUnless, OnOk};
ghost use Rattle.select.specs.declared.part.Step.TheVariants.{Plain};
ghost use Rattle.select.specs.Rows.{plain, load_number, copy, exchange, clear_byte, alu, alu_number, accumulator_gets, compares, push, pop, spot, access, placed, on_place, loads, own_word};

use crate::part::{Kind, Step};
use i86_table::{
    Address, AluOperation, Base, Instr, Memory, Open, Operands, Register8, Register16, RmOperand,
    Segment, Spot, TestMask, Use, WordPair,
};
use word86::{Fault, Place, Width};

/// One more step.
pub(crate) fn put(steps: &mut Vec<Step>, step: Step) -> Result<(), Fault>
    ensures steps { OnOk result (steps.new.items ≡ steps.old.items ++ step ∷ []) }
    ensures memory { IsOkUnless result Fault.Memory }
{
    steps.push(step)?;
    Ok(())
}

/// One more instruction.
pub(crate) fn add(steps: &mut Vec<Step>, instruction: Instr) -> Result<(), Fault>
    ensures steps { OnOk result (steps.new.items ≡ steps.old.items ++ Plain instruction ∷ []) }
    ensures memory { IsOkUnless result Fault.Memory }
{
    put(steps, Step::Plain(instruction))
}

/// These instructions.
pub(crate) fn all(steps: &mut Vec<Step>, instructions: &[Instr]) -> Result<(), Fault>
    ensures steps { OnOk result (steps.new.items ≡ steps.old.items ++ plain instructions.now) }
    ensures memory { IsOkUnless result Fault.Memory }
{
    for instruction in instructions {
        add(steps, *instruction)?;
    }
    Ok(())
}

/// A word register gets a number.
pub(crate) fn load_number(register: Register16, number: u16) -> Instr
    ensures { result ≡ load_number register number }
{
    Instr::MoveWord(Operands::Immediate(RmOperand::Register(register), number))
}

/// A word register gets another's value.
pub(crate) fn copy(to: Register16, from: Register16) -> Instr
    ensures { result ≡ copy to from }
{
    Instr::MoveWord(Operands::FromRegister(RmOperand::Register(to), from))
}

/// AX and another word register change places: a byte shorter than a copy, where the old value is wanted no more.
pub(crate) fn exchange(register: Register16) -> Instr
    ensures { result ≡ exchange register }
{
    Instr::ExchangeWords(WordPair::of(Register16::Ax, register))
}

/// A byte register gets 0.
pub(crate) fn clear_byte(register: Register8) -> Instr
    ensures { result ≡ clear_byte register }
{
    Instr::MoveByte(Operands::Immediate(RmOperand::Register(register), 0))
}

/// An operation on two word registers.
pub(crate) fn alu(operation: AluOperation, to: Register16, from: Register16) -> Instr
    ensures { result ≡ alu operation to from }
{
    Instr::AluWord(
        operation,
        Operands::FromRegister(RmOperand::Register(to), from),
    )
}

/// An operation on a word register and a number.
pub(crate) fn alu_number(operation: AluOperation, to: Register16, number: u16) -> Instr
    ensures { result ≡ alu_number operation to number }
{
    Instr::AluWord(
        operation,
        Operands::Immediate(RmOperand::Register(to), number),
    )
}

/// AX gets a number; SUB AX,AX is shorter than a move of 0.
pub(crate) fn accumulator_gets(number: u16) -> Instr
    ensures { result ≡ accumulator_gets number }
{
    if number == 0 {
        alu(AluOperation::Sub, Register16::Ax, Register16::Ax)
    } else {
        load_number(Register16::Ax, number)
    }
}

/// AX is compared with a number; TEST AX,AX is shorter than a comparison with 0.
pub(crate) fn compares(number: u16) -> Instr
    ensures { result ≡ compares number }
{
    if number == 0 {
        Instr::TestWord(
            RmOperand::Register(Register16::Ax),
            TestMask::Register(Register16::Ax),
        )
    } else {
        alu_number(AluOperation::Cmp, Register16::Ax, number)
    }
}

/// PUSH of a word register.
pub(crate) fn push(register: Register16) -> Instr
    ensures { result ≡ push register }
{
    Instr::Push(RmOperand::Register(register))
}

/// POP of a word register.
pub(crate) fn pop(register: Register16) -> Instr
    ensures { result ≡ pop register }
{
    Instr::Pop(RmOperand::Register(register))
}

/// A place in a segment but for its number.
pub(crate) fn spot(base: Option<Base>, segment: Segment) -> Spot
    ensures { result ≡ spot base segment }
{
    Spot { segment, base }
}

/// What a register of this width does with a place.
pub(crate) fn access(
    usage: Use,
    half: Register8,
    whole: Register16,
    width: Width,
    spot: Spot,
) -> Open
    ensures { result ≡ access usage half whole width spot.base spot.segment }
{
    match width {
        Width::Byte => Open::Byte(usage, half, spot),
        Width::Word => Open::Word(usage, whole, spot),
    }
}

/// An instruction on a place: the first one in the data's segment, or the second one in the screen's.
pub(crate) fn placed(place: &Place, ram: Open, screen: Open) -> Step
    ensures { result ≡ placed place.now ram screen }
{
    match place {
        Place::Ram(object, index) => Step::Refer {
            instruction: ram,
            number: *index,
            kind: Kind::Offset,
            name: *object,
        },
        Place::Screen(page, index) => {
            Step::Plain(screen.closed(page.begins().wrapping_add(*index)))
        }
    }
}

/// AL or AX gets what lies at a place, or as far after it as the base says.
pub(crate) fn load(width: Width, base: Option<Base>, place: &Place) -> Step
    ensures { result ≡ on_place (loads width base) place.now }
{
    let (al, ax) = (Register8::Al, Register16::Ax);
    let ram = access(Use::Load, al, ax, width, spot(base, Segment::Ds));
    let screen = access(Use::Load, al, ax, width, spot(base, Segment::Es));
    placed(place, ram, screen)
}

/// The context's own word that `above` others lie on, where BP is the stack pointer.
pub(crate) fn own_word(above: usize) -> Memory
    ensures { result ≡ own_word above }
{
    Memory {
        segment: Segment::Ss,
        address: Address::Based {
            base: Base::Bp,
            displacement: twice(above),
        },
    }
}

/// The bytes of this number of words, modulo 65,536.
pub(crate) fn twice(words: usize) -> u16
    ensures { result ≡ 2 * words % 65536 }
{
    (2 * (words % 0x8000)) as u16
}
