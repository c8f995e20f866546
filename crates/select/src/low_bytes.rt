//! The steps of what is done with low bytes: AL gets something, and AH stays or becomes 0.

ghost use Rattle.std.specs.Prelude.{◌≡◌, ◌++◌, ◌∷◌, [], IsOkUnless, OnOk};
ghost use Rattle.i86_table.specs.declared.open.Use.TheVariants.{Operate};
ghost use Rattle.select.specs.Rows.{on_place, plain, arithmetic, low_number, byte_alu, low_gets, low_on, by_right, low_row, low_received, low_compared, cleared};

use crate::part::Step;
use crate::put::{
    access, add, all, clear_byte, copy, exchange, load, load_number, placed, pop, put, spot,
};
use i86_table::{
    AluOperation, Base, Instr, Open, Operands, Port, Register8, Register16, RmOperand, Segment, Use,
};
use icode::{Direct, High, LowByte, Right};
use word86::{Fault, Place, Width};

const AX: Register16 = Register16::Ax;

const BX: Register16 = Register16::Bx;

const CX: Register16 = Register16::Cx;

const DX: Register16 = Register16::Dx;

/// An operation on AL and the low byte of a number.
fn low_number(operation: AluOperation, number: u16) -> Instr
    ensures { result ≡ low_number operation number }
{
    Instr::AluByte(
        operation,
        Operands::Immediate(RmOperand::Register(Register8::Al), (number % 256) as u8),
    )
}

/// An operation on two byte registers.
fn byte_alu(operation: AluOperation, to: Register8, from: Register8) -> Instr
    ensures { result ≡ byte_alu operation to from }
{
    Instr::AluByte(
        operation,
        Operands::FromRegister(RmOperand::Register(to), from),
    )
}

/// AL gets the low byte of a number.
fn low_gets(number: u16) -> Instr
    ensures { result ≡ low_gets number }
{
    Instr::MoveByte(Operands::Immediate(RmOperand::Register(Register8::Al), (number % 256) as u8))
}

/// An operation on AL and the byte at a place.
fn operate_low(operation: AluOperation, place: &Place) -> Step
    ensures { result ≡ on_place (low_on (Operate operation)) place.now }
{
    let ram = Open::Byte(
        Use::Operate(operation),
        Register8::Al,
        spot(None, Segment::Ds),
    );
    let screen = Open::Byte(
        Use::Operate(operation),
        Register8::Al,
        spot(None, Segment::Es),
    );
    placed(place, ram, screen)
}

/// The arithmetic of an operator.
fn arithmetic(operation: Direct) -> AluOperation
    ensures { result ≡ arithmetic operation }
{
    match operation {
        Direct::Add => AluOperation::Add,
        Direct::Subtract => AluOperation::Sub,
        Direct::And => AluOperation::And,
        Direct::Or => AluOperation::Or,
        Direct::ExclusiveOr => AluOperation::Xor,
    }
}

/// An operation on AL and the right operand.
fn by_right(steps: &mut Vec<Step>, operation: AluOperation, right: &Right) -> Result<(), Fault>
    ensures steps { OnOk result (steps.new.items ≡ steps.old.items ++ by_right operation right.now []) }
    ensures memory { IsOkUnless result Fault.Memory }
{
    match right {
        Right::Constant(number) => add(steps, low_number(operation, *number)),
        Right::Plain(place) => put(steps, operate_low(operation, place)),
        Right::Top => {
            let operate = byte_alu(operation, Register8::Al, Register8::Cl);
            all(steps, &[exchange(CX), pop(AX), operate])
        }
    }
}

/// A comparison of low bytes, and what comes then.
pub(crate) fn low_compared(steps: &mut Vec<Step>, right: &Right, after: Step) -> Result<(), Fault>
    ensures steps { OnOk result (steps.new.items ≡ steps.old.items ++ low_compared right.now after) }
    ensures memory { IsOkUnless result Fault.Memory }
{
    match right {
        Right::Constant(number) => add(steps, low_number(AluOperation::Cmp, *number))?,
        Right::Plain(place) => put(steps, operate_low(AluOperation::Cmp, place))?,
        Right::Top => {
            let compare = byte_alu(AluOperation::Cmp, Register8::Cl, Register8::Al);
            all(steps, &[pop(CX), compare])?;
        }
    }
    put(steps, after)
}

/// AL gets what is read from a port.
fn low_received(steps: &mut Vec<Step>, port: u16) -> Result<(), Fault>
    ensures steps { OnOk result (steps.new.items ≡ steps.old.items ++ plain (low_received port [])) }
    ensures memory { IsOkUnless result Fault.Memory }
{
    if port >= 256 {
        return all(
            steps,
            &[load_number(DX, port), Instr::In(Width::Byte, Port::Dx)],
        );
    }
    all(steps, &[Instr::In(Width::Byte, Port::Fixed(port as u8))])
}

/// What AL gets.
fn gets(steps: &mut Vec<Step>, low: &LowByte) -> Result<(), Fault>
    ensures steps { OnOk result (steps.new.items ≡ steps.old.items ++ low_row low.now []) }
    ensures memory { IsOkUnless result Fault.Memory }
{
    match low {
        LowByte::Constant(number) => add(steps, low_gets(*number)),
        LowByte::Load(place) => put(steps, load(Width::Byte, None, place)),
        LowByte::LoadAt(place) => {
            add(steps, copy(BX, AX))?;
            put(steps, load(Width::Byte, Some(Base::Bx), place))
        }
        LowByte::LoadThere => {
            let there = spot(Some(Base::Bx), Segment::Ds);
            let load = access(Use::Load, Register8::Al, AX, Width::Byte, there);
            all(steps, &[copy(BX, AX), load.closed(0)])
        }
        LowByte::Receive => all(steps, &[copy(DX, AX), Instr::In(Width::Byte, Port::Dx)]),
        LowByte::ReceiveFrom(port) => low_received(steps, *port),
        LowByte::High => {
            let al = RmOperand::Register(Register8::Al);
            let high = Instr::MoveByte(Operands::FromRegister(al, Register8::Ah));
            add(steps, high)
        }
        LowByte::Operate(operation, right) => by_right(steps, arithmetic(*operation), right),
    }
}

/// What becomes of AH.
fn clear(steps: &mut Vec<Step>, high: High) -> Result<(), Fault>
    ensures steps { OnOk result (steps.new.items ≡ steps.old.items ++ plain (cleared high)) }
    ensures memory { IsOkUnless result Fault.Memory }
{
    match high {
        High::Kept => Ok(()),
        High::Cleared => add(steps, clear_byte(Register8::Ah)),
    }
}

/// The steps of what AL gets, and of what becomes of AH.
#[tactic(auto, using(crate::proofs::LowRows::row_then))]
pub(crate) fn low_row(steps: &mut Vec<Step>, low: &LowByte, high: High) -> Result<(), Fault>
    ensures steps { OnOk result (steps.new.items ≡ steps.old.items ++ low_row low.now (cleared high)) }
    ensures memory { IsOkUnless result Fault.Memory }
{
    gets(steps, low)?;
    clear(steps, high)
}
