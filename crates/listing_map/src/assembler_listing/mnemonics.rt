//! Instructions as they are written: Intel's names, the target first, an operand in memory in brackets, its segment where it is not the one
//! that its address goes with, numbers in hexadecimal with an H behind them.

use crate::noted::Noted;
use crate::numerals::{hex_byte, hex_word};
use i86_table::{
    Address, AluOperation, Base, Condition, Count, Instr, Memory, Operands, Port, Register8,
    Register16, Repeat, RmOperand, Segment, ShiftOperation, Signedness, TestMask, UnaryOperation,
};
use word86::Width;

/// An operand.
#[derive(Clone, Copy)]
enum Operand {
    Register(&'static str),
    Memory(Memory),
    /// An offset that LEA takes, without a segment.
    Offset(Address),
    Byte(u8),
    Word(u16),
    /// A place in another segment.
    Far(u16, u16),
}

/// An instruction: what stands before it, its name, the width of what it does, whether that is a shift, and its operands.
#[derive(Clone, Copy)]
struct Spelled {
    before: &'static str,
    name: &'static str,
    width: Width,
    is_shift: bool,
    first: Option<Operand>,
    second: Option<Operand>,
}

fn bare(name: &'static str) -> Spelled {
    Spelled {
        before: "",
        name,
        width: Width::Word,
        is_shift: false,
        first: None,
        second: None,
    }
}

fn one(name: &'static str, width: Width, first: Operand) -> Spelled {
    Spelled {
        before: "",
        name,
        width,
        is_shift: false,
        first: Some(first),
        second: None,
    }
}

fn two(name: &'static str, width: Width, first: Operand, second: Operand) -> Spelled {
    Spelled {
        before: "",
        name,
        width,
        is_shift: false,
        first: Some(first),
        second: Some(second),
    }
}

fn alu_name(operation: AluOperation) -> &'static str {
    match operation {
        AluOperation::Add => "ADD",
        AluOperation::Or => "OR",
        AluOperation::Adc => "ADC",
        AluOperation::Sbb => "SBB",
        AluOperation::And => "AND",
        AluOperation::Sub => "SUB",
        AluOperation::Xor => "XOR",
        AluOperation::Cmp => "CMP",
    }
}

fn unary_name(operation: UnaryOperation) -> &'static str {
    match operation {
        UnaryOperation::Not => "NOT",
        UnaryOperation::Neg => "NEG",
        UnaryOperation::Inc => "INC",
        UnaryOperation::Dec => "DEC",
    }
}

/// A shift: what lies in memory is as wide as it says, and not as the register of its count.
fn shift(operation: ShiftOperation, width: Width, place: Operand, count: Count) -> Spelled {
    Spelled {
        is_shift: true,
        ..two(shift_name(operation), width, place, count_operand(count))
    }
}

fn shift_name(operation: ShiftOperation) -> &'static str {
    match operation {
        ShiftOperation::Rol => "ROL",
        ShiftOperation::Ror => "ROR",
        ShiftOperation::Shl => "SHL",
        ShiftOperation::Shr => "SHR",
        ShiftOperation::Sar => "SAR",
    }
}

fn jump_name(condition: Condition) -> &'static str {
    match condition {
        Condition::Overflow => "JO",
        Condition::NotOverflow => "JNO",
        Condition::Below => "JB",
        Condition::NotBelow => "JNB",
        Condition::Equal => "JE",
        Condition::NotEqual => "JNE",
        Condition::BelowOrEqual => "JBE",
        Condition::Above => "JA",
        Condition::Sign => "JS",
        Condition::NotSign => "JNS",
        Condition::ParityEven => "JP",
        Condition::ParityOdd => "JNP",
        Condition::Less => "JL",
        Condition::NotLess => "JGE",
        Condition::LessOrEqual => "JLE",
        Condition::Greater => "JG",
    }
}

fn byte_register(register: Register8) -> Operand {
    Operand::Register(match register {
        Register8::Al => "AL",
        Register8::Cl => "CL",
        Register8::Dl => "DL",
        Register8::Bl => "BL",
        Register8::Ah => "AH",
        Register8::Ch => "CH",
        Register8::Dh => "DH",
        Register8::Bh => "BH",
    })
}

fn word_register(register: Register16) -> Operand {
    Operand::Register(match register {
        Register16::Ax => "AX",
        Register16::Cx => "CX",
        Register16::Dx => "DX",
        Register16::Bx => "BX",
        Register16::Sp => "SP",
        Register16::Bp => "BP",
        Register16::Si => "SI",
        Register16::Di => "DI",
    })
}

fn segment_name(segment: Segment) -> &'static str {
    match segment {
        Segment::Es => "ES",
        Segment::Cs => "CS",
        Segment::Ss => "SS",
        Segment::Ds => "DS",
    }
}

fn segment_register(segment: Segment) -> Operand {
    Operand::Register(segment_name(segment))
}

fn byte_place(place: RmOperand<Register8>) -> Operand {
    match place {
        RmOperand::Register(register) => byte_register(register),
        RmOperand::Memory(memory) => Operand::Memory(memory),
    }
}

fn word_place(place: RmOperand<Register16>) -> Operand {
    match place {
        RmOperand::Register(register) => word_register(register),
        RmOperand::Memory(memory) => Operand::Memory(memory),
    }
}

fn of_bytes(name: &'static str, operands: Operands<Register8, u8>) -> Spelled {
    let (first, second) = match operands {
        Operands::FromRegister(place, register) => (byte_place(place), byte_register(register)),
        Operands::FromMemory(register, memory) => {
            (byte_register(register), Operand::Memory(memory))
        }
        Operands::Immediate(place, number) => (byte_place(place), Operand::Byte(number)),
    };
    two(name, Width::Byte, first, second)
}

fn of_words(name: &'static str, operands: Operands<Register16, u16>) -> Spelled {
    let (first, second) = match operands {
        Operands::FromRegister(place, register) => (word_place(place), word_register(register)),
        Operands::FromMemory(register, memory) => {
            (word_register(register), Operand::Memory(memory))
        }
        Operands::Immediate(place, number) => (word_place(place), Operand::Word(number)),
    };
    two(name, Width::Word, first, second)
}

fn test_of_bytes(place: RmOperand<Register8>, mask: TestMask<Register8, u8>) -> Spelled {
    let second = match mask {
        TestMask::Register(register) => byte_register(register),
        TestMask::Immediate(number) => Operand::Byte(number),
    };
    two("TEST", Width::Byte, byte_place(place), second)
}

fn test_of_words(place: RmOperand<Register16>, mask: TestMask<Register16, u16>) -> Spelled {
    let second = match mask {
        TestMask::Register(register) => word_register(register),
        TestMask::Immediate(number) => Operand::Word(number),
    };
    two("TEST", Width::Word, word_place(place), second)
}

fn count_operand(count: Count) -> Operand {
    match count {
        Count::One => Operand::Register("1"),
        Count::Cl => byte_register(Register8::Cl),
    }
}

fn product_name(signedness: Signedness) -> &'static str {
    match signedness {
        Signedness::Unsigned => "MUL",
        Signedness::Signed => "IMUL",
    }
}

fn quotient_name(signedness: Signedness) -> &'static str {
    match signedness {
        Signedness::Unsigned => "DIV",
        Signedness::Signed => "IDIV",
    }
}

fn accumulator(width: Width) -> Operand {
    match width {
        Width::Byte => byte_register(Register8::Al),
        Width::Word => word_register(Register16::Ax),
    }
}

fn port_operand(port: Port) -> Operand {
    match port {
        Port::Fixed(number) => Operand::Byte(number),
        Port::Dx => word_register(Register16::Dx),
    }
}

fn move_string(width: Width, source: Segment, repeat: Repeat) -> Spelled {
    let name = match width {
        Width::Byte => "MOVSB",
        Width::Word => "MOVSW",
    };
    let before = match (repeat, source) {
        (Repeat::Once, Segment::Es) => "ES ",
        (Repeat::Once, Segment::Cs) => "CS ",
        (Repeat::Once, Segment::Ss) => "SS ",
        (Repeat::Once, Segment::Ds) => "",
        (Repeat::WhileCx, Segment::Es) => "ES REP ",
        (Repeat::WhileCx, Segment::Cs) => "CS REP ",
        (Repeat::WhileCx, Segment::Ss) => "SS REP ",
        (Repeat::WhileCx, Segment::Ds) => "REP ",
    };
    Spelled {
        before,
        ..bare(name)
    }
}

fn store_string(width: Width, repeat: Repeat) -> Spelled {
    let name = match width {
        Width::Byte => "STOSB",
        Width::Word => "STOSW",
    };
    let before = match repeat {
        Repeat::Once => "",
        Repeat::WhileCx => "REP ",
    };
    Spelled {
        before,
        ..bare(name)
    }
}

/// Where a jump by a distance of one byte leads, from what comes next.
fn near(next: u16, distance: u8) -> Operand {
    let there = next.wrapping_add(u16::from(distance));
    Operand::Word(if distance >= 128 {
        there.wrapping_sub(256)
    } else {
        there
    })
}

fn far(next: u16, distance: u16) -> Operand {
    Operand::Word(next.wrapping_add(distance))
}

fn words(name: &'static str, first: Operand, second: Operand) -> Spelled {
    two(name, Width::Word, first, second)
}

fn exchange_byte(register: Register8, other: Operand) -> Spelled {
    two("XCHG", Width::Byte, byte_register(register), other)
}

fn exchange_word(register: Register16, other: Operand) -> Spelled {
    words("XCHG", word_register(register), other)
}

fn going(name: &'static str, place: Operand) -> Spelled {
    one(name, Width::Word, place)
}

fn of_byte(name: &'static str, place: RmOperand<Register8>) -> Spelled {
    one(name, Width::Byte, byte_place(place))
}

fn of_word(name: &'static str, place: RmOperand<Register16>) -> Spelled {
    one(name, Width::Word, word_place(place))
}

fn shift_of_byte(operation: ShiftOperation, place: RmOperand<Register8>, count: Count) -> Spelled {
    shift(operation, Width::Byte, byte_place(place), count)
}

fn shift_of_word(operation: ShiftOperation, place: RmOperand<Register16>, count: Count) -> Spelled {
    shift(operation, Width::Word, word_place(place), count)
}

/// Those that work something out.
fn working(instruction: Instr) -> Option<Spelled> {
    let spelled = match instruction {
        Instr::AluByte(operation, operands) => of_bytes(alu_name(operation), operands),
        Instr::AluWord(operation, operands) => of_words(alu_name(operation), operands),
        Instr::UnaryByte(operation, place) => of_byte(unary_name(operation), place),
        Instr::UnaryWord(operation, place) => of_word(unary_name(operation), place),
        Instr::TestByte(place, mask) => test_of_bytes(place, mask),
        Instr::TestWord(place, mask) => test_of_words(place, mask),
        Instr::ShiftByte(operation, place, count) => shift_of_byte(operation, place, count),
        Instr::ShiftWord(operation, place, count) => shift_of_word(operation, place, count),
        Instr::MultiplyByte(signedness, place) => of_byte(product_name(signedness), place),
        Instr::MultiplyWord(signedness, place) => of_word(product_name(signedness), place),
        Instr::DivideByte(signedness, place) => of_byte(quotient_name(signedness), place),
        Instr::DivideWord(signedness, place) => of_word(quotient_name(signedness), place),
        Instr::MoveByte(_) | Instr::MoveWord(_) | Instr::MoveFromSegment(_, _) => return None,
        Instr::MoveToSegment(_, _) | Instr::LoadAddress(_, _) => return None,
        Instr::ExchangeBytes(_) | Instr::ExchangeWords(_) => return None,
        Instr::ExchangeMemoryByte(_, _) | Instr::ExchangeMemoryWord(_, _) => return None,
        Instr::Push(_) | Instr::Pop(_) | Instr::PushSegment(_) => return None,
        Instr::PopSegment(_) | Instr::MoveString { .. } | Instr::StoreString { .. } => return None,
        Instr::In(_, _) | Instr::Out(_, _) | Instr::JumpIf(_, _) | Instr::Loop(_) => return None,
        Instr::JumpIfCxZero(_) | Instr::JumpShort(_) | Instr::Jump(_) => return None,
        Instr::JumpTo(_) | Instr::JumpFar { .. } | Instr::Call(_) | Instr::CallTo(_) => return None,
        Instr::ReturnDropping(_) | Instr::Nop | Instr::ConvertByte => return None,
        Instr::ConvertWord | Instr::PushFlags | Instr::PopFlags | Instr::Return => return None,
        Instr::InterruptReturn | Instr::ComplementCarry | Instr::ClearCarry => return None,
        Instr::SetCarry | Instr::DisableInterrupts | Instr::EnableInterrupts => return None,
        Instr::ClearDirection | Instr::SetDirection | Instr::Halt => return None,
    };
    Some(spelled)
}

/// Those that move something between registers and memory.
fn moving(instruction: Instr) -> Option<Spelled> {
    let spelled = match instruction {
        Instr::MoveByte(operands) => of_bytes("MOV", operands),
        Instr::MoveWord(operands) => of_words("MOV", operands),
        Instr::MoveFromSegment(place, segment) => {
            words("MOV", word_place(place), segment_register(segment))
        }
        Instr::MoveToSegment(segment, place) => {
            words(
                "MOV",
                segment_register(segment.segment()),
                word_place(place),
            )
        }
        Instr::LoadAddress(register, address) => {
            words("LEA", word_register(register), Operand::Offset(address))
        }
        Instr::ExchangeBytes(_) | Instr::ExchangeWords(_) => return None,
        Instr::ExchangeMemoryByte(_, _) | Instr::ExchangeMemoryWord(_, _) => return None,
        Instr::AluByte(_, _) | Instr::AluWord(_, _) | Instr::UnaryByte(_, _) => return None,
        Instr::UnaryWord(_, _) | Instr::TestByte(_, _) | Instr::TestWord(_, _) => return None,
        Instr::ShiftByte(_, _, _) | Instr::ShiftWord(_, _, _) => return None,
        Instr::MultiplyByte(_, _) | Instr::MultiplyWord(_, _) => return None,
        Instr::DivideByte(_, _) | Instr::DivideWord(_, _) | Instr::Push(_) => return None,
        Instr::Pop(_) | Instr::PushSegment(_) | Instr::PopSegment(_) => return None,
        Instr::MoveString { .. } | Instr::StoreString { .. } | Instr::In(_, _) => return None,
        Instr::Out(_, _) | Instr::JumpIf(_, _) | Instr::Loop(_) => return None,
        Instr::JumpIfCxZero(_) | Instr::JumpShort(_) | Instr::Jump(_) => return None,
        Instr::JumpTo(_) | Instr::JumpFar { .. } | Instr::Call(_) | Instr::CallTo(_) => return None,
        Instr::ReturnDropping(_) | Instr::Nop | Instr::ConvertByte => return None,
        Instr::ConvertWord | Instr::PushFlags | Instr::PopFlags | Instr::Return => return None,
        Instr::InterruptReturn | Instr::ComplementCarry | Instr::ClearCarry => return None,
        Instr::SetCarry | Instr::DisableInterrupts | Instr::EnableInterrupts => return None,
        Instr::ClearDirection | Instr::SetDirection | Instr::Halt => return None,
    };
    Some(spelled)
}

/// Those that exchange two registers, or a register and memory.
fn exchanging(instruction: Instr) -> Option<Spelled> {
    let spelled = match instruction {
        Instr::ExchangeBytes(pair) => exchange_byte(pair.first, byte_register(pair.second)),
        Instr::ExchangeWords(pair) => exchange_word(pair.first, word_register(pair.second)),
        Instr::ExchangeMemoryByte(register, memory) => {
            exchange_byte(register, Operand::Memory(memory))
        }
        Instr::ExchangeMemoryWord(register, memory) => {
            exchange_word(register, Operand::Memory(memory))
        }
        Instr::MoveByte(_) | Instr::MoveWord(_) | Instr::LoadAddress(_, _) => return None,
        Instr::MoveFromSegment(_, _) | Instr::MoveToSegment(_, _) => return None,
        Instr::AluByte(_, _) | Instr::AluWord(_, _) | Instr::UnaryByte(_, _) => return None,
        Instr::UnaryWord(_, _) | Instr::TestByte(_, _) | Instr::TestWord(_, _) => return None,
        Instr::ShiftByte(_, _, _) | Instr::ShiftWord(_, _, _) => return None,
        Instr::MultiplyByte(_, _) | Instr::MultiplyWord(_, _) => return None,
        Instr::DivideByte(_, _) | Instr::DivideWord(_, _) | Instr::Push(_) => return None,
        Instr::Pop(_) | Instr::PushSegment(_) | Instr::PopSegment(_) => return None,
        Instr::MoveString { .. } | Instr::StoreString { .. } | Instr::In(_, _) => return None,
        Instr::Out(_, _) | Instr::JumpIf(_, _) | Instr::Loop(_) => return None,
        Instr::JumpIfCxZero(_) | Instr::JumpShort(_) | Instr::Jump(_) => return None,
        Instr::JumpTo(_) | Instr::JumpFar { .. } | Instr::Call(_) | Instr::CallTo(_) => return None,
        Instr::ReturnDropping(_) | Instr::Nop | Instr::ConvertByte => return None,
        Instr::ConvertWord | Instr::PushFlags | Instr::PopFlags | Instr::Return => return None,
        Instr::InterruptReturn | Instr::ComplementCarry | Instr::ClearCarry => return None,
        Instr::SetCarry | Instr::DisableInterrupts | Instr::EnableInterrupts => return None,
        Instr::ClearDirection | Instr::SetDirection | Instr::Halt => return None,
    };
    Some(spelled)
}

/// Those of the stack, of strings and of ports.
fn carrying(instruction: Instr) -> Option<Spelled> {
    let spelled = match instruction {
        Instr::Push(place) => of_word("PUSH", place),
        Instr::Pop(place) => of_word("POP", place),
        Instr::PushSegment(segment) => one("PUSH", Width::Word, segment_register(segment)),
        Instr::PopSegment(segment) => one("POP", Width::Word, segment_register(segment.segment())),
        Instr::MoveString {
            width,
            source,
            repeat,
        } => move_string(width, source, repeat),
        Instr::StoreString { width, repeat } => store_string(width, repeat),
        Instr::In(width, port) => two("IN", width, accumulator(width), port_operand(port)),
        Instr::Out(width, port) => two("OUT", width, port_operand(port), accumulator(width)),
        Instr::AluByte(_, _) | Instr::AluWord(_, _) | Instr::UnaryByte(_, _) => return None,
        Instr::UnaryWord(_, _) | Instr::TestByte(_, _) | Instr::TestWord(_, _) => return None,
        Instr::ShiftByte(_, _, _) | Instr::ShiftWord(_, _, _) => return None,
        Instr::MultiplyByte(_, _) | Instr::MultiplyWord(_, _) => return None,
        Instr::DivideByte(_, _) | Instr::DivideWord(_, _) | Instr::MoveByte(_) => return None,
        Instr::MoveWord(_) | Instr::MoveFromSegment(_, _) => return None,
        Instr::MoveToSegment(_, _) | Instr::LoadAddress(_, _) => return None,
        Instr::ExchangeBytes(_) | Instr::ExchangeWords(_) => return None,
        Instr::ExchangeMemoryByte(_, _) | Instr::ExchangeMemoryWord(_, _) => return None,
        Instr::JumpIf(_, _) | Instr::Loop(_) | Instr::JumpIfCxZero(_) => return None,
        Instr::JumpShort(_) | Instr::Jump(_) | Instr::JumpTo(_) => return None,
        Instr::JumpFar { .. } | Instr::Call(_) | Instr::CallTo(_) => return None,
        Instr::ReturnDropping(_) | Instr::Nop | Instr::ConvertByte => return None,
        Instr::ConvertWord | Instr::PushFlags | Instr::PopFlags | Instr::Return => return None,
        Instr::InterruptReturn | Instr::ComplementCarry | Instr::ClearCarry => return None,
        Instr::SetCarry | Instr::DisableInterrupts | Instr::EnableInterrupts => return None,
        Instr::ClearDirection | Instr::SetDirection | Instr::Halt => return None,
    };
    Some(spelled)
}

/// Those that go elsewhere, behind which the next one has this offset.
fn leading(instruction: Instr, next: u16) -> Option<Spelled> {
    let spelled = match instruction {
        Instr::JumpIf(condition, distance) => going(jump_name(condition), near(next, distance)),
        Instr::Loop(distance) => going("LOOP", near(next, distance)),
        Instr::JumpIfCxZero(distance) => going("JCXZ", near(next, distance)),
        Instr::JumpShort(distance) => going("JMP SHORT", near(next, distance)),
        Instr::Jump(distance) => going("JMP", far(next, distance)),
        Instr::JumpTo(place) => of_word("JMP", place),
        Instr::JumpFar { offset, segment } => going("JMP", Operand::Far(segment, offset)),
        Instr::Call(distance) => going("CALL", far(next, distance)),
        Instr::CallTo(place) => of_word("CALL", place),
        Instr::ReturnDropping(count) => going("RET", Operand::Word(count)),
        Instr::AluByte(_, _) | Instr::AluWord(_, _) | Instr::UnaryByte(_, _) => return None,
        Instr::UnaryWord(_, _) | Instr::TestByte(_, _) | Instr::TestWord(_, _) => return None,
        Instr::ShiftByte(_, _, _) | Instr::ShiftWord(_, _, _) => return None,
        Instr::MultiplyByte(_, _) | Instr::MultiplyWord(_, _) => return None,
        Instr::DivideByte(_, _) | Instr::DivideWord(_, _) | Instr::MoveByte(_) => return None,
        Instr::MoveWord(_) | Instr::MoveFromSegment(_, _) => return None,
        Instr::MoveToSegment(_, _) | Instr::LoadAddress(_, _) => return None,
        Instr::ExchangeBytes(_) | Instr::ExchangeWords(_) => return None,
        Instr::ExchangeMemoryByte(_, _) | Instr::ExchangeMemoryWord(_, _) => return None,
        Instr::Push(_) | Instr::Pop(_) | Instr::PushSegment(_) => return None,
        Instr::PopSegment(_) | Instr::MoveString { .. } | Instr::StoreString { .. } => return None,
        Instr::In(_, _) | Instr::Out(_, _) | Instr::Nop | Instr::ConvertByte => return None,
        Instr::ConvertWord | Instr::PushFlags | Instr::PopFlags | Instr::Return => return None,
        Instr::InterruptReturn | Instr::ComplementCarry | Instr::ClearCarry => return None,
        Instr::SetCarry | Instr::DisableInterrupts | Instr::EnableInterrupts => return None,
        Instr::ClearDirection | Instr::SetDirection | Instr::Halt => return None,
    };
    Some(spelled)
}

/// Those without operands.
fn alone(instruction: Instr) -> Option<Spelled> {
    let name = match instruction {
        Instr::Nop => "NOP",
        Instr::ConvertByte => "CBW",
        Instr::ConvertWord => "CWD",
        Instr::PushFlags => "PUSHF",
        Instr::PopFlags => "POPF",
        Instr::Return => "RET",
        Instr::InterruptReturn => "IRET",
        Instr::ComplementCarry => "CMC",
        Instr::ClearCarry => "CLC",
        Instr::SetCarry => "STC",
        Instr::DisableInterrupts => "CLI",
        Instr::EnableInterrupts => "STI",
        Instr::ClearDirection => "CLD",
        Instr::SetDirection => "STD",
        Instr::Halt => "HLT",
        Instr::AluByte(_, _) | Instr::AluWord(_, _) | Instr::UnaryByte(_, _) => return None,
        Instr::UnaryWord(_, _) | Instr::TestByte(_, _) | Instr::TestWord(_, _) => return None,
        Instr::ShiftByte(_, _, _) | Instr::ShiftWord(_, _, _) => return None,
        Instr::MultiplyByte(_, _) | Instr::MultiplyWord(_, _) => return None,
        Instr::DivideByte(_, _) | Instr::DivideWord(_, _) | Instr::MoveByte(_) => return None,
        Instr::MoveWord(_) | Instr::MoveFromSegment(_, _) => return None,
        Instr::MoveToSegment(_, _) | Instr::LoadAddress(_, _) => return None,
        Instr::ExchangeBytes(_) | Instr::ExchangeWords(_) => return None,
        Instr::ExchangeMemoryByte(_, _) | Instr::ExchangeMemoryWord(_, _) => return None,
        Instr::Push(_) | Instr::Pop(_) | Instr::PushSegment(_) => return None,
        Instr::PopSegment(_) | Instr::MoveString { .. } | Instr::StoreString { .. } => return None,
        Instr::In(_, _) | Instr::Out(_, _) | Instr::JumpIf(_, _) | Instr::Loop(_) => return None,
        Instr::JumpIfCxZero(_) | Instr::JumpShort(_) | Instr::Jump(_) => return None,
        Instr::JumpTo(_) | Instr::JumpFar { .. } | Instr::Call(_) | Instr::CallTo(_) => return None,
        Instr::ReturnDropping(_) => return None,
    };
    Some(bare(name))
}

/// How an instruction is written, behind which the next one has this offset.
fn spelling_of(instruction: Instr, next: u16) -> Spelled {
    if let Some(spelled) = working(instruction) {
        return spelled;
    }
    if let Some(spelled) = moving(instruction) {
        return spelled;
    }
    if let Some(spelled) = exchanging(instruction) {
        return spelled;
    }
    if let Some(spelled) = carrying(instruction) {
        return spelled;
    }
    if let Some(spelled) = leading(instruction, next) {
        return spelled;
    }
    // Each stands in one of these.
    alone(instruction).unwrap_or(bare(""))
}

/// Adds a number of so many digits.
pub(crate) fn put_number(text: &mut Noted<u8>, number: u16, width: Width) {
    match width {
        Width::Byte => put_digits(text, &hex_byte((number % 0x100) as u8)),
        Width::Word => put_digits(text, &hex_word(number)),
    }
}

/// Adds digits, with a zero before a letter, and an H.
fn put_digits(text: &mut Noted<u8>, digits: &[u8]) {
    if let [b'A'..=b'F', ..] = digits {
        text.add(b'0');
    }
    text.put(digits);
    text.add(b'H');
}

fn base_name(base: Base) -> &'static str {
    match base {
        Base::BxSi => "BX+SI",
        Base::BxDi => "BX+DI",
        Base::BpSi => "BP+SI",
        Base::BpDi => "BP+DI",
        Base::Si => "SI",
        Base::Di => "DI",
        Base::Bp => "BP",
        Base::Bx => "BX",
    }
}

/// The segment that an address goes with where no other is named.
fn own_segment(address: Address) -> Segment {
    match address {
        Address::Direct(_) => Segment::Ds,
        Address::Based { base, .. } => match base {
            Base::BpSi | Base::BpDi | Base::Bp => Segment::Ss,
            Base::BxSi | Base::BxDi | Base::Si | Base::Di | Base::Bx => Segment::Ds,
        },
    }
}

fn put_address(text: &mut Noted<u8>, address: Address) {
    match address {
        Address::Direct(offset) => put_number(text, offset, Width::Word),
        Address::Based { base, displacement } => {
            text.put(base_name(base).as_bytes());
            if displacement == 0 {
                return;
            }
            let is_back = displacement >= 0xFF80;
            text.add(if is_back { b'-' } else { b'+' });
            let distance = if is_back {
                displacement.wrapping_neg()
            } else {
                displacement
            };
            put_number(text, distance, Width::Word)
        }
    }
}

fn put_memory(text: &mut Noted<u8>, memory: Memory) {
    text.add(b'[');
    if memory.segment != own_segment(memory.address) {
        text.put(segment_name(memory.segment).as_bytes());
        text.add(b':');
    }
    put_address(text, memory.address);
    text.add(b']');
}

fn put_operand(text: &mut Noted<u8>, operand: Operand) {
    match operand {
        Operand::Register(name) => text.put(name.as_bytes()),
        Operand::Memory(memory) => put_memory(text, memory),
        Operand::Offset(address) => {
            text.add(b'[');
            put_address(text, address);
            text.add(b']');
        }
        Operand::Byte(number) => put_number(text, u16::from(number), Width::Byte),
        Operand::Word(number) => put_number(text, number, Width::Word),
        Operand::Far(segment, offset) => {
            put_number(text, segment, Width::Word);
            text.add(b':');
            put_number(text, offset, Width::Word)
        }
    }
}

fn is_memory(operand: Option<Operand>) -> bool {
    match operand {
        Some(Operand::Memory(_)) => true,
        Some(
            Operand::Register(_)
            | Operand::Offset(_)
            | Operand::Byte(_)
            | Operand::Word(_)
            | Operand::Far(_, _),
        )
        | None => false,
    }
}

fn is_register(operand: Option<Operand>) -> bool {
    match operand {
        Some(Operand::Register(_)) => true,
        Some(
            Operand::Memory(_)
            | Operand::Offset(_)
            | Operand::Byte(_)
            | Operand::Word(_)
            | Operand::Far(_, _),
        )
        | None => false,
    }
}

/// Whether nothing but a word before it tells how wide what lies in memory is.
fn wants_width(spelled: Spelled) -> bool {
    is_memory(spelled.first) && (spelled.is_shift || !is_register(spelled.second))
}

/// Adds an instruction, behind which the next one has this offset.
pub(crate) fn put_instruction(text: &mut Noted<u8>, instruction: Instr, next: u16) {
    let spelled = spelling_of(instruction, next);
    text.put(spelled.before.as_bytes());
    text.put(spelled.name.as_bytes());
    if let Some(first) = spelled.first {
        text.add(b' ');
        if wants_width(spelled) {
            text.put(match spelled.width {
                Width::Byte => b"BYTE ".as_slice(),
                Width::Word => b"WORD ".as_slice(),
            });
        }
        put_operand(text, first);
    }
    if let Some(second) = spelled.second {
        text.add(b',');
        put_operand(text, second);
    }
}
