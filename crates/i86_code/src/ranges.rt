//! That the numbers of an instruction fit their types.

ghost use Rattle.i86_code.specs.Ranges.{AddressFits, RmOperandFits, OperandsFit, MaskFits, InstrFits, PortFits};

use i86_table::{Address, Instr, Operands, Port, Register8, Register16, RmOperand, TestMask};

/// The law that the numbers of an address fit their types.
fn address_fits(address: Address)
    ensures { AddressFits address }
{
    match address {
        Address::Direct(_offset) => {}
        Address::Based {
            base: _base,
            displacement: _displacement,
        } => {}
    }
}

/// The law that the numbers of an r/m operand fit their types.
fn place_fits<R: Copy>(place: RmOperand<R>)
    ensures { RmOperandFits place }
{
    if let RmOperand::Memory(memory) = place {
        address_fits(memory.address);
    }
}

/// The law that the numbers of byte operands fit their types.
fn byte_operands_fit(operands: Operands<Register8, u8>)
    ensures { OperandsFit 256 operands }
{
    match operands {
        Operands::FromRegister(place, _) => place_fits(place),
        Operands::FromMemory(_, memory) => address_fits(memory.address),
        Operands::Immediate(place, _number) => place_fits(place),
    }
}

/// The law that the numbers of word operands fit their types.
fn word_operands_fit(operands: Operands<Register16, u16>)
    ensures { OperandsFit 65536 operands }
{
    match operands {
        Operands::FromRegister(place, _) => place_fits(place),
        Operands::FromMemory(_, memory) => address_fits(memory.address),
        Operands::Immediate(place, _number) => place_fits(place),
    }
}

/// The law that the number of a byte TEST fits its type.
fn byte_mask_fits(mask: TestMask<Register8, u8>)
    ensures { MaskFits 256 mask }
{
    match mask {
        TestMask::Register(_) => {}
        TestMask::Immediate(_number) => {}
    }
}

/// The law that the number of a word TEST fits its type.
fn word_mask_fits(mask: TestMask<Register16, u16>)
    ensures { MaskFits 65536 mask }
{
    match mask {
        TestMask::Register(_) => {}
        TestMask::Immediate(_number) => {}
    }
}

/// The law that a port's number fits its type.
fn port_fits(port: Port)
    ensures { PortFits port }
{
    match port {
        Port::Fixed(_number) => {}
        Port::Dx => {}
    }
}

/// The numbers of an instruction fit their types.
pub fn instruction_fits(instruction: Instr)
    ensures { InstrFits instruction }
{
    match instruction {
        Instr::AluByte(_, operands) | Instr::MoveByte(operands) => byte_operands_fit(operands),
        Instr::AluWord(_, operands) | Instr::MoveWord(operands) => word_operands_fit(operands),
        Instr::TestByte(place, mask) => {
            place_fits(place);
            byte_mask_fits(mask);
        }
        Instr::TestWord(place, mask) => {
            place_fits(place);
            word_mask_fits(mask);
        }
        Instr::UnaryByte(_, place)
        | Instr::ShiftByte(_, place, _)
        | Instr::MultiplyByte(_, place)
        | Instr::DivideByte(_, place) => place_fits(place),
        Instr::UnaryWord(_, place)
        | Instr::ShiftWord(_, place, _)
        | Instr::MultiplyWord(_, place)
        | Instr::DivideWord(_, place)
        | Instr::MoveFromSegment(place, _)
        | Instr::MoveToSegment(_, place)
        | Instr::Push(place)
        | Instr::Pop(place)
        | Instr::JumpTo(place)
        | Instr::CallTo(place) => place_fits(place),
        Instr::LoadAddress(_, address) => address_fits(address),
        Instr::ExchangeMemoryByte(_, memory) => address_fits(memory.address),
        Instr::ExchangeMemoryWord(_, memory) => address_fits(memory.address),
        Instr::In(_, port) | Instr::Out(_, port) => port_fits(port),
        Instr::JumpIf(_, _distance) => {}
        Instr::Loop(_distance) | Instr::JumpIfCxZero(_distance) | Instr::JumpShort(_distance) => {}
        Instr::Jump(_distance) | Instr::Call(_distance) | Instr::ReturnDropping(_distance) => {}
        Instr::JumpFar {
            offset: _offset,
            segment: _segment,
        } => {}
        Instr::Nop
        | Instr::ConvertByte
        | Instr::ConvertWord
        | Instr::ExchangeBytes(_)
        | Instr::ExchangeWords(_)
        | Instr::PushSegment(_)
        | Instr::PopSegment(_)
        | Instr::PushFlags
        | Instr::PopFlags
        | Instr::MoveString { .. }
        | Instr::StoreString { .. }
        | Instr::Return
        | Instr::InterruptReturn
        | Instr::ComplementCarry
        | Instr::ClearCarry
        | Instr::SetCarry
        | Instr::DisableInterrupts
        | Instr::EnableInterrupts
        | Instr::ClearDirection
        | Instr::SetDirection
        | Instr::Halt => {}
    }
}
