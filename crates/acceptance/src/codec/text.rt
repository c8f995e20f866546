//! Texts of instructions as NASM writes them, read beside the instruction that they are to be of.

use crate::codec::digit;
use i86_table::{
    Address, AluOperation, Base, Condition, Count, Instr, LoadableSegment, Memory, Operands, Port,
    Register8, Register16, Repeat, RmOperand, Segment, ShiftOperation, Signedness, TestMask,
    UnaryOperation, sign_extended,
};
use word86::Width;

/// A text as far as it is not read yet, and whether all that was wanted so far stood there.
#[derive(Drop)]
pub(crate) struct Reading<'t> {
    left: &'t [u8],
    holds: bool,
}

impl Reading<'_> {
    fn word(&mut self, word: &str) {
        match self.left.strip_prefix(word.as_bytes()) {
            Some(left) => self.left = left,
            None => self.holds = false,
        }
    }

    /// A number, as hexadecimal digits behind 0x.
    fn number(&mut self, number: u32) {
        self.word("0x");
        let (mut value, mut count): (u32, usize) = (0, 0);
        for byte in self.left {
            let Some(digit) = digit(*byte) else {
                break;
            };
            value = value.wrapping_mul(16).wrapping_add(u32::from(digit));
            count = count.wrapping_add(1);
        }
        self.left = self.left.get(count..).unwrap_or(b"");
        self.holds = self.holds && count > 0 && value == number;
    }
}

/// A register with a name of its own, and the size of what it holds.
trait Named: Copy {
    const SIZE: &'static str;

    fn name(self) -> &'static str;
}

impl Named for Register8 {
    const SIZE: &'static str = "byte";

    fn name(self) -> &'static str {
        match self {
            Register8::Al => "al",
            Register8::Cl => "cl",
            Register8::Dl => "dl",
            Register8::Bl => "bl",
            Register8::Ah => "ah",
            Register8::Ch => "ch",
            Register8::Dh => "dh",
            Register8::Bh => "bh",
        }
    }
}

impl Named for Register16 {
    const SIZE: &'static str = "word";

    fn name(self) -> &'static str {
        match self {
            Register16::Ax => "ax",
            Register16::Cx => "cx",
            Register16::Dx => "dx",
            Register16::Bx => "bx",
            Register16::Sp => "sp",
            Register16::Bp => "bp",
            Register16::Si => "si",
            Register16::Di => "di",
        }
    }
}

fn segment_name(segment: Segment) -> &'static str {
    match segment {
        Segment::Es => "es",
        Segment::Cs => "cs",
        Segment::Ss => "ss",
        Segment::Ds => "ds",
    }
}

fn alu_name(operation: AluOperation) -> &'static str {
    match operation {
        AluOperation::Add => "add",
        AluOperation::Or => "or",
        AluOperation::Adc => "adc",
        AluOperation::Sbb => "sbb",
        AluOperation::And => "and",
        AluOperation::Sub => "sub",
        AluOperation::Xor => "xor",
        AluOperation::Cmp => "cmp",
    }
}

fn unary_name(operation: UnaryOperation) -> &'static str {
    match operation {
        UnaryOperation::Not => "not",
        UnaryOperation::Neg => "neg",
        UnaryOperation::Inc => "inc",
        UnaryOperation::Dec => "dec",
    }
}

fn shift_name(operation: ShiftOperation) -> &'static str {
    match operation {
        ShiftOperation::Rol => "rol",
        ShiftOperation::Ror => "ror",
        ShiftOperation::Shl => "shl",
        ShiftOperation::Shr => "shr",
        ShiftOperation::Sar => "sar",
    }
}

fn condition_name(condition: Condition) -> &'static str {
    match condition {
        Condition::Overflow => "jo",
        Condition::NotOverflow => "jno",
        Condition::Below => "jb",
        Condition::NotBelow => "jnb",
        Condition::Equal => "je",
        Condition::NotEqual => "jne",
        Condition::BelowOrEqual => "jbe",
        Condition::Above => "ja",
        Condition::Sign => "js",
        Condition::NotSign => "jns",
        Condition::ParityEven => "jp",
        Condition::ParityOdd => "jnp",
        Condition::Less => "jl",
        Condition::NotLess => "jnl",
        Condition::LessOrEqual => "jle",
        Condition::Greater => "jg",
    }
}

/// The name of a base, and the segment that it means without an override.
fn base_name(base: Base) -> (&'static str, Segment) {
    match base {
        Base::BxSi => ("bx+si", Segment::Ds),
        Base::BxDi => ("bx+di", Segment::Ds),
        Base::BpSi => ("bp+si", Segment::Ss),
        Base::BpDi => ("bp+di", Segment::Ss),
        Base::Si => ("si", Segment::Ds),
        Base::Di => ("di", Segment::Ds),
        Base::Bp => ("bp", Segment::Ss),
        Base::Bx => ("bx", Segment::Ds),
    }
}

fn signed_or<'a>(signedness: Signedness, unsigned: &'a str, signed: &'a str) -> &'a str {
    match signedness {
        Signedness::Unsigned => unsigned,
        Signedness::Signed => signed,
    }
}

fn letter(width: Width) -> &'static str {
    match width {
        Width::Byte => "b",
        Width::Word => "w",
    }
}

fn accumulator(width: Width) -> &'static str {
    match width {
        Width::Byte => "al",
        Width::Word => "ax",
    }
}

fn read_address(address: Address, text: &mut Reading<'_>) {
    match address {
        Address::Direct(offset) => text.number(u32::from(offset)),
        Address::Based { base, displacement } => {
            text.word(base_name(base).0);
            if displacement >= 0x8000 {
                text.word("-");
                text.number(0x10000 - u32::from(displacement));
            } else if displacement > 0 || matches!(base, Base::Bp) {
                text.word("+");
                text.number(u32::from(displacement));
            }
        }
    }
}

fn read_memory(memory: Memory, text: &mut Reading<'_>) {
    let usual = match memory.address {
        Address::Direct(_) => Segment::Ds,
        Address::Based { base, .. } => base_name(base).1,
    };
    text.word("[");
    if memory.segment != usual {
        text.word(segment_name(memory.segment));
        text.word(":");
    }
    read_address(memory.address, text);
    text.word("]");
}

fn read_place<R: Named>(place: RmOperand<R>, text: &mut Reading<'_>) {
    match place {
        RmOperand::Register(register) => text.word(register.name()),
        RmOperand::Memory(memory) => read_memory(memory, text),
    }
}

/// With the size of an operand in memory, which no register tells.
fn read_sized<R: Named>(place: RmOperand<R>, text: &mut Reading<'_>) {
    if let RmOperand::Memory(_) = place {
        text.word(R::SIZE);
        text.word(" ");
    }
    read_place(place, text);
}

fn read_operands<R: Named>(name: &str, operands: Operands<R, u16>, text: &mut Reading<'_>) {
    text.word(name);
    text.word(" ");
    match operands {
        Operands::FromRegister(place, register) => {
            read_place(place, text);
            text.word(",");
            text.word(register.name());
        }
        Operands::FromMemory(register, memory) => {
            text.word(register.name());
            text.word(",");
            read_memory(memory, text);
        }
        Operands::Immediate(place, number) => {
            read_sized(place, text);
            text.word(",");
            text.number(u32::from(number));
        }
    }
}

fn widened<R>(operands: Operands<R, u8>) -> Operands<R, u16> {
    match operands {
        Operands::FromRegister(place, register) => Operands::FromRegister(place, register),
        Operands::FromMemory(register, memory) => Operands::FromMemory(register, memory),
        Operands::Immediate(place, number) => Operands::Immediate(place, u16::from(number)),
    }
}

/// An operation on one operand.
fn read_one<R: Named>(name: &str, place: RmOperand<R>, text: &mut Reading<'_>) {
    text.word(name);
    text.word(" ");
    read_sized(place, text);
}

/// A shift of an operand.
fn read_shift<R: Named>(
    operation: ShiftOperation,
    place: RmOperand<R>,
    count: Count,
    text: &mut Reading<'_>,
) {
    read_one(shift_name(operation), place, text);
    text.word(match count {
        Count::One => ",1",
        Count::Cl => ",cl",
    });
}

fn read_port(port: Port, text: &mut Reading<'_>) {
    match port {
        Port::Fixed(number) => text.number(u32::from(number)),
        Port::Dx => text.word("dx"),
    }
}

/// A jump by a distance from its end, which is `length` bytes after its begin.
fn read_jump(name: &str, distance: u16, length: u16, text: &mut Reading<'_>) {
    let from_begin = distance.wrapping_add(length);
    text.word(name);
    if from_begin < 0x8000 {
        text.word(" $+");
        text.number(u32::from(from_begin));
    } else {
        text.word(" $-");
        text.number(0x10000 - u32::from(from_begin));
    }
}

fn read_string(name: &str, width: Width, source: Segment, repeat: Repeat, text: &mut Reading<'_>) {
    if source != Segment::Ds {
        text.word(segment_name(source));
        text.word(" ");
    }
    if repeat == Repeat::WhileCx {
        text.word("rep ");
    }
    text.word(name);
    text.word(letter(width));
}

fn read_test<R: Named>(place: RmOperand<R>, mask: TestMask<R, u16>, text: &mut Reading<'_>) {
    match mask {
        TestMask::Register(register) => {
            text.word("test ");
            read_place(place, text);
            text.word(",");
            text.word(register.name());
        }
        TestMask::Immediate(number) => {
            read_one("test", place, text);
            text.word(",");
            text.number(u32::from(number));
        }
    }
}

fn widened_mask<R>(mask: TestMask<R, u8>) -> TestMask<R, u16> {
    match mask {
        TestMask::Register(register) => TestMask::Register(register),
        TestMask::Immediate(number) => TestMask::Immediate(u16::from(number)),
    }
}

/// An exchange, whose first operand is a register.
fn read_exchange(register: &str, text: &mut Reading<'_>) {
    text.word("xchg ");
    text.word(register);
    text.word(",");
}

/// The instructions that are one word.
fn word_of(instruction: Instr) -> &'static str {
    match instruction {
        Instr::Nop => "nop",
        Instr::ConvertByte => "cbw",
        Instr::ConvertWord => "cwd",
        Instr::PushFlags => "pushf",
        Instr::PopFlags => "popf",
        Instr::Return => "ret",
        Instr::InterruptReturn => "iret",
        Instr::ComplementCarry => "cmc",
        Instr::ClearCarry => "clc",
        Instr::SetCarry => "stc",
        Instr::DisableInterrupts => "cli",
        Instr::EnableInterrupts => "sti",
        Instr::ClearDirection => "cld",
        Instr::SetDirection => "std",
        _ => "hlt",
    }
}

/// Jumps, calls and returns, and what is one word.
fn read_control(instruction: Instr, text: &mut Reading<'_>) {
    match instruction {
        Instr::JumpIf(condition, distance) => {
            text.word(condition_name(condition));
            read_jump(" short", sign_extended(distance), 2, text);
        }
        Instr::Loop(distance) => read_jump("loop", sign_extended(distance), 2, text),
        Instr::JumpIfCxZero(distance) => read_jump("jcxz", sign_extended(distance), 2, text),
        Instr::JumpShort(distance) => read_jump("jmp short", sign_extended(distance), 2, text),
        Instr::Jump(distance) => read_jump("jmp near", distance, 3, text),
        Instr::Call(distance) => read_jump("call", distance, 3, text),
        Instr::JumpTo(place) => read_one("jmp", place, text),
        Instr::CallTo(place) => read_one("call", place, text),
        Instr::JumpFar { offset, segment } => {
            text.word("jmp ");
            text.number(u32::from(segment));
            text.word(":");
            text.number(u32::from(offset));
        }
        Instr::ReturnDropping(bytes) => {
            text.word("ret ");
            text.number(u32::from(bytes));
        }
        _ => text.word(word_of(instruction)),
    }
}

/// The stack, strings and ports.
fn read_stack(instruction: Instr, text: &mut Reading<'_>) {
    match instruction {
        Instr::Push(place) => read_one("push", place, text),
        Instr::Pop(place) => read_one("pop", place, text),
        Instr::PushSegment(segment) => {
            text.word("push ");
            text.word(segment_name(segment));
        }
        Instr::PopSegment(segment) => {
            text.word("pop ");
            text.word(segment_name(segment.segment()));
        }
        Instr::MoveString {
            width,
            source,
            repeat,
        } => read_string("movs", width, source, repeat, text),
        Instr::StoreString { width, repeat } => {
            read_string("stos", width, Segment::Ds, repeat, text);
        }
        Instr::In(width, port) => {
            text.word("in ");
            text.word(accumulator(width));
            text.word(",");
            read_port(port, text);
        }
        Instr::Out(width, port) => {
            text.word("out ");
            read_port(port, text);
            text.word(",");
            text.word(accumulator(width));
        }
        other => read_control(other, text),
    }
}

/// What stands between segments, registers and memory.
fn read_move(instruction: Instr, text: &mut Reading<'_>) {
    match instruction {
        Instr::MoveFromSegment(place, segment) => {
            text.word("mov ");
            read_place(place, text);
            text.word(",");
            text.word(segment_name(segment));
        }
        Instr::MoveToSegment(segment, place) => {
            text.word("mov ");
            text.word(segment_name(segment.segment()));
            text.word(",");
            read_place(place, text);
        }
        Instr::LoadAddress(register, address) => {
            text.word("lea ");
            text.word(register.name());
            text.word(",[");
            read_address(address, text);
            text.word("]");
        }
        Instr::ExchangeBytes(pair) => {
            read_exchange(pair.first.name(), text);
            text.word(pair.second.name());
        }
        Instr::ExchangeWords(pair) => {
            read_exchange(pair.first.name(), text);
            text.word(pair.second.name());
        }
        Instr::ExchangeMemoryByte(register, memory) => {
            read_exchange(register.name(), text);
            read_memory(memory, text);
        }
        Instr::ExchangeMemoryWord(register, memory) => {
            read_exchange(register.name(), text);
            read_memory(memory, text);
        }
        other => read_stack(other, text),
    }
}

/// Shifts, products and quotients.
fn read_product(instruction: Instr, text: &mut Reading<'_>) {
    match instruction {
        Instr::ShiftByte(operation, place, count) => read_shift(operation, place, count, text),
        Instr::ShiftWord(operation, place, count) => read_shift(operation, place, count, text),
        Instr::MultiplyByte(sign, place) => read_one(signed_or(sign, "mul", "imul"), place, text),
        Instr::MultiplyWord(sign, place) => read_one(signed_or(sign, "mul", "imul"), place, text),
        Instr::DivideByte(sign, place) => read_one(signed_or(sign, "div", "idiv"), place, text),
        Instr::DivideWord(sign, place) => read_one(signed_or(sign, "div", "idiv"), place, text),
        other => read_move(other, text),
    }
}

fn read(instruction: Instr, text: &mut Reading<'_>) {
    match instruction {
        Instr::AluByte(operation, operands) => {
            read_operands(alu_name(operation), widened(operands), text);
        }
        Instr::AluWord(operation, operands) => read_operands(alu_name(operation), operands, text),
        Instr::MoveByte(operands) => read_operands("mov", widened(operands), text),
        Instr::MoveWord(operands) => read_operands("mov", operands, text),
        Instr::UnaryByte(operation, place) => read_one(unary_name(operation), place, text),
        Instr::UnaryWord(operation, place) => read_one(unary_name(operation), place, text),
        Instr::TestByte(place, mask) => read_test(place, widened_mask(mask), text),
        Instr::TestWord(place, mask) => read_test(place, mask, text),
        other => read_product(other, text),
    }
}

/// Whether this is an instruction's text.
pub(crate) fn has_text(instruction: Instr, text: &str) -> bool {
    let mut reading = Reading {
        left: text.as_bytes(),
        holds: true,
    };
    read(instruction, &mut reading);
    reading.holds && reading.left.is_empty()
}
