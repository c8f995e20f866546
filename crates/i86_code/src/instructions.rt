//! The instruction that a form spells, if it is one of the table (8086 Family User's Manual, tables 4-12 and 4-13).

ghost use Rattle.std.specs.Prelude.{◌≡◌};
ghost use Rattle.i86_code.specs.Instructions.{segment_under, repeat_of, repeats, usual_segment, based, direct, operand, byte_operand, word_operand, to_register, exchanged_byte, exchanged_word, load_address, move_to_segment, shift_at, byte_step, word_step, addressed_instruction, byte_unary, word_unary, is_short, addressed_byte_instruction, addressed_word_instruction, exchanged_accumulator, plain_instruction, byte_instruction, word_instruction, two_words_instruction, unary_instruction, test_byte_instruction, test_word_instruction, instruction_from, is_string, instruction_of};

use crate::form::{Fields, Form, Opcode, Prefixes, RegisterOrMemory};
use crate::numbers::{Numbered, loadable, operation, segment};
use i86_table::{
    Address, Base, BytePair, Instr, LoadableSegment, Memory, Operands, Port, Register8, Register16,
    Repeat, RmOperand, Segment, ShiftOperation, Signedness, TestMask, UnaryOperation, WordPair,
    sign_extended,
};
use word86::Width;

/// The segment of an address without a prefix: SS with BP, else DS (8086 Family User's Manual, table 2-2).
pub(crate) fn usual_segment(base: Base) -> Segment
    ensures { result ≡ usual_segment base }
{
    match base {
        Base::BpSi | Base::BpDi | Base::Bp => Segment::Ss,
        _ => Segment::Ds,
    }
}

impl Prefixes {
    /// The segment that the prefixes name, else the usual one.
    fn segment_under(self, usual: Segment) -> Segment
        ensures { result ≡ segment_under self usual }
    {
        match self {
            Prefixes::Nothing | Prefixes::Repeat => usual,
            Prefixes::Override(segment)
            | Prefixes::OverrideRepeat(segment)
            | Prefixes::RepeatOverride(segment) => segment,
        }
    }

    /// Whether F3H is among the prefixes.
    fn repeats(self) -> bool
        ensures { result ≡ repeats self }
    {
        matches!(
            self,
            Prefixes::Repeat | Prefixes::OverrideRepeat(_) | Prefixes::RepeatOverride(_)
        )
    }

    /// Once, or as often as CX says where F3H is among the prefixes.
    fn repeat(self) -> Repeat
        ensures { result ≡ repeat_of self }
    {
        match self {
            Prefixes::Nothing | Prefixes::Override(_) => Repeat::Once,
            Prefixes::Repeat | Prefixes::OverrideRepeat(_) | Prefixes::RepeatOverride(_) => {
                Repeat::WhileCx
            }
        }
    }
}

/// A place by base registers and a displacement.
fn based(prefixes: Prefixes, base: Base, displacement: u16) -> Memory
    ensures { result ≡ based prefixes base displacement }
{
    Memory {
        segment: prefixes.segment_under(usual_segment(base)),
        address: Address::Based { base, displacement },
    }
}

/// A place at a fixed offset.
fn direct(prefixes: Prefixes, offset: u16) -> Memory
    ensures { result ≡ direct prefixes offset }
{
    Memory {
        segment: prefixes.segment_under(Segment::Ds),
        address: Address::Direct(offset),
    }
}

/// The r/m operand that an address byte spells, for registers of either width.
fn operand<R: Numbered>(prefixes: Prefixes, place: RegisterOrMemory) -> RmOperand<R>
    ensures { result ≡ operand R.at prefixes place }
{
    match place {
        RegisterOrMemory::Register(number) => RmOperand::Register(R::from_number(number)),
        RegisterOrMemory::Indirect(base) => RmOperand::Memory(based(prefixes, base, 0)),
        RegisterOrMemory::Direct(offset) => RmOperand::Memory(direct(prefixes, offset)),
        RegisterOrMemory::Near(base, byte) => {
            RmOperand::Memory(based(prefixes, base, sign_extended(byte)))
        }
        RegisterOrMemory::Far(base, word) => RmOperand::Memory(based(prefixes, base, word)),
    }
}

/// The r/m operand of an instruction on bytes.
fn byte_operand(prefixes: Prefixes, place: RegisterOrMemory) -> RmOperand<Register8>
    ensures { result ≡ byte_operand prefixes place }
{
    operand(prefixes, place)
}

/// The r/m operand of an instruction on words.
fn word_operand(prefixes: Prefixes, place: RegisterOrMemory) -> RmOperand<Register16>
    ensures { result ≡ word_operand prefixes place }
{
    operand(prefixes, place)
}

/// The operands of an instruction whose target is a register.
fn to_register<R, I>(register: R, place: RmOperand<R>) -> Operands<R, I>
    ensures { result ≡ to_register register place }
{
    match place {
        RmOperand::Register(source) => Operands::FromRegister(
            RmOperand::Register(register),
            source,
        ),
        RmOperand::Memory(memory) => Operands::FromMemory(register, memory),
    }
}

/// XCHG of a byte register with a register or memory.
fn exchanged_byte(register: Register8, place: RmOperand<Register8>) -> Instr
    ensures { result ≡ exchanged_byte register place }
{
    match place {
        RmOperand::Register(other) => Instr::ExchangeBytes(BytePair::of(register, other)),
        RmOperand::Memory(memory) => Instr::ExchangeMemoryByte(register, memory),
    }
}

/// XCHG of a word register with a register or memory.
fn exchanged_word(register: Register16, place: RmOperand<Register16>) -> Instr
    ensures { result ≡ exchanged_word register place }
{
    match place {
        RmOperand::Register(other) => Instr::ExchangeWords(WordPair::of(register, other)),
        RmOperand::Memory(memory) => Instr::ExchangeMemoryWord(register, memory),
    }
}

/// LEA has no register for its operand.
fn load_address(register: Register16, place: RmOperand<Register16>) -> Option<Instr>
    ensures { result ≡ load_address register place }
{
    match place {
        RmOperand::Register(_) => None,
        RmOperand::Memory(memory) => Some(Instr::LoadAddress(register, memory.address)),
    }
}

/// MOV to a segment register; to CS there is none.
fn move_to_segment(segment: Option<LoadableSegment>, place: RmOperand<Register16>) -> Option<Instr>
    ensures { result ≡ move_to_segment segment place }
{
    match segment {
        None => None,
        Some(segment) => Some(Instr::MoveToSegment(segment, place)),
    }
}

/// The shift or rotation of a register field: 0 ROL, 1 ROR, 4 SHL, 5 SHR, 7 SAR.
fn shift(number: u8) -> Option<ShiftOperation>
    ensures { result ≡ shift_at number }
{
    match number {
        0 => Some(ShiftOperation::Rol),
        1 => Some(ShiftOperation::Ror),
        4 => Some(ShiftOperation::Shl),
        5 => Some(ShiftOperation::Shr),
        7 => Some(ShiftOperation::Sar),
        _ => None,
    }
}

/// The group FEH by its register field: INC, DEC.
fn byte_step(number: u8, place: RmOperand<Register8>) -> Option<Instr>
    ensures { result ≡ byte_step number place }
{
    match number {
        0 => Some(Instr::UnaryByte(UnaryOperation::Inc, place)),
        1 => Some(Instr::UnaryByte(UnaryOperation::Dec, place)),
        _ => None,
    }
}

/// The group FFH by its register field: INC, DEC, CALL, JMP, PUSH.
fn word_step(number: u8, place: RmOperand<Register16>) -> Option<Instr>
    ensures { result ≡ word_step number place }
{
    match number {
        0 => Some(Instr::UnaryWord(UnaryOperation::Inc, place)),
        1 => Some(Instr::UnaryWord(UnaryOperation::Dec, place)),
        2 => Some(Instr::CallTo(place)),
        4 => Some(Instr::JumpTo(place)),
        6 => Some(Instr::Push(place)),
        _ => None,
    }
}

/// The group F6H by its register field, which is not 0.
fn byte_unary(number: u8, place: RmOperand<Register8>) -> Option<Instr>
    ensures { result ≡ byte_unary number place }
{
    match number {
        2 => Some(Instr::UnaryByte(UnaryOperation::Not, place)),
        3 => Some(Instr::UnaryByte(UnaryOperation::Neg, place)),
        4 => Some(Instr::MultiplyByte(Signedness::Unsigned, place)),
        5 => Some(Instr::MultiplyByte(Signedness::Signed, place)),
        6 => Some(Instr::DivideByte(Signedness::Unsigned, place)),
        7 => Some(Instr::DivideByte(Signedness::Signed, place)),
        _ => None,
    }
}

/// The group F7H by its register field, which is not 0.
fn word_unary(number: u8, place: RmOperand<Register16>) -> Option<Instr>
    ensures { result ≡ word_unary number place }
{
    match number {
        2 => Some(Instr::UnaryWord(UnaryOperation::Not, place)),
        3 => Some(Instr::UnaryWord(UnaryOperation::Neg, place)),
        4 => Some(Instr::MultiplyWord(Signedness::Unsigned, place)),
        5 => Some(Instr::MultiplyWord(Signedness::Signed, place)),
        6 => Some(Instr::DivideWord(Signedness::Unsigned, place)),
        7 => Some(Instr::DivideWord(Signedness::Signed, place)),
        _ => None,
    }
}

/// What an opcode with an address byte says.
#[tactic(auto, unfolding(crate::specs::Instructions::addressed_instruction))]
fn addressed(
    prefixes: Prefixes,
    opcode: Opcode,
    number: u8,
    place: RegisterOrMemory,
) -> Option<Instr>
    ensures { result ≡ addressed_instruction prefixes opcode number place }
{
    match opcode {
        Opcode::AluToPlace(operation, Width::Byte) => Some(Instr::AluByte(
            operation,
            Operands::FromRegister(
                byte_operand(prefixes, place),
                Register8::from_number(number),
            ),
        )),
        Opcode::AluToPlace(operation, Width::Word) => Some(Instr::AluWord(
            operation,
            Operands::FromRegister(
                word_operand(prefixes, place),
                Register16::from_number(number),
            ),
        )),
        Opcode::AluToRegister(operation, Width::Byte) => Some(Instr::AluByte(
            operation,
            to_register(
                Register8::from_number(number),
                byte_operand(prefixes, place),
            ),
        )),
        Opcode::AluToRegister(operation, Width::Word) => Some(Instr::AluWord(
            operation,
            to_register(
                Register16::from_number(number),
                word_operand(prefixes, place),
            ),
        )),
        Opcode::Test(Width::Byte) => Some(Instr::TestByte(
            byte_operand(prefixes, place),
            TestMask::Register(Register8::from_number(number)),
        )),
        Opcode::Test(Width::Word) => Some(Instr::TestWord(
            word_operand(prefixes, place),
            TestMask::Register(Register16::from_number(number)),
        )),
        Opcode::Exchange(Width::Byte) => Some(exchanged_byte(
            Register8::from_number(number),
            byte_operand(prefixes, place),
        )),
        Opcode::Exchange(Width::Word) => Some(exchanged_word(
            Register16::from_number(number),
            word_operand(prefixes, place),
        )),
        Opcode::MoveToPlace(Width::Byte) => Some(Instr::MoveByte(Operands::FromRegister(
            byte_operand(prefixes, place),
            Register8::from_number(number),
        ))),
        Opcode::MoveToPlace(Width::Word) => Some(Instr::MoveWord(Operands::FromRegister(
            word_operand(prefixes, place),
            Register16::from_number(number),
        ))),
        Opcode::MoveToRegister(Width::Byte) => Some(Instr::MoveByte(to_register(
            Register8::from_number(number),
            byte_operand(prefixes, place),
        ))),
        Opcode::MoveToRegister(Width::Word) => Some(Instr::MoveWord(to_register(
            Register16::from_number(number),
            word_operand(prefixes, place),
        ))),
        Opcode::MoveFromSegment => {
            if number < 4 {
                Some(Instr::MoveFromSegment(word_operand(prefixes, place), segment(number)))
            } else {
                None
            }
        }
        Opcode::LoadAddress => load_address(
            Register16::from_number(number),
            word_operand(prefixes, place),
        ),
        Opcode::MoveToSegment => {
            move_to_segment(loadable(number), word_operand(prefixes, place))
        }
        Opcode::PopPlace => {
            if number == 0 {
                Some(Instr::Pop(word_operand(prefixes, place)))
            } else {
                None
            }
        }
        Opcode::Shift(Width::Byte, count) => {
            let operation = shift(number)?;
            Some(Instr::ShiftByte(operation, byte_operand(prefixes, place), count))
        }
        Opcode::Shift(Width::Word, count) => {
            let operation = shift(number)?;
            Some(Instr::ShiftWord(operation, word_operand(prefixes, place), count))
        }
        Opcode::StepGroup(Width::Byte) => byte_step(number, byte_operand(prefixes, place)),
        Opcode::StepGroup(Width::Word) => word_step(number, word_operand(prefixes, place)),
        _ => None,
    }
}

/// The operations that a sign-extended byte may follow: not OR, AND, XOR.
pub(crate) fn is_short(number: u8) -> bool
    ensures { result ≡ is_short number }
{
    matches!(number, 0 | 2 | 3 | 5 | 7)
}

/// The instruction of an opcode with an address byte and an immediate byte.
#[tactic(auto, unfolding(crate::specs::Instructions::addressed_byte_instruction))]
fn addressed_byte(
    prefixes: Prefixes,
    opcode: Opcode,
    number: u8,
    place: RegisterOrMemory,
    immediate: u8,
) -> Option<Instr>
    ensures { result ≡ addressed_byte_instruction prefixes opcode number place immediate }
{
    match opcode {
        Opcode::AluImmediate(Width::Byte) => Some(Instr::AluByte(
            operation(number),
            Operands::Immediate(byte_operand(prefixes, place), immediate),
        )),
        Opcode::AluShort if is_short(number) => Some(Instr::AluWord(
            operation(number),
            Operands::Immediate(word_operand(prefixes, place), sign_extended(immediate)),
        )),
        Opcode::MoveImmediate(Width::Byte) if number == 0 => Some(Instr::MoveByte(
            Operands::Immediate(byte_operand(prefixes, place), immediate),
        )),
        _ => None,
    }
}

/// The instruction of an opcode with an address byte and an immediate word.
#[tactic(auto, unfolding(crate::specs::Instructions::addressed_word_instruction))]
fn addressed_word(
    prefixes: Prefixes,
    opcode: Opcode,
    number: u8,
    place: RegisterOrMemory,
    immediate: u16,
) -> Option<Instr>
    ensures { result ≡ addressed_word_instruction prefixes opcode number place immediate }
{
    match opcode {
        Opcode::AluImmediate(Width::Word) => Some(Instr::AluWord(
            operation(number),
            Operands::Immediate(word_operand(prefixes, place), immediate),
        )),
        Opcode::MoveImmediate(Width::Word) if number == 0 => Some(Instr::MoveWord(
            Operands::Immediate(word_operand(prefixes, place), immediate),
        )),
        _ => None,
    }
}

/// XCHG of AX with itself is NOP.
fn exchanged_accumulator(register: Register16) -> Instr
    ensures { result ≡ exchanged_accumulator register }
{
    match register {
        Register16::Ax => Instr::Nop,
        _ => Instr::ExchangeWords(WordPair::of(Register16::Ax, register)),
    }
}

/// What an opcode says that nothing follows.
#[tactic(auto, unfolding(crate::specs::Instructions::plain_instruction))]
fn plain(prefixes: Prefixes, opcode: Opcode) -> Option<Instr>
    ensures { result ≡ plain_instruction prefixes opcode }
{
    let instruction = match opcode {
        Opcode::PushSegment(segment) => Instr::PushSegment(segment),
        Opcode::PopSegment(segment) => Instr::PopSegment(segment),
        Opcode::Increment(register) => {
            Instr::UnaryWord(UnaryOperation::Inc, RmOperand::Register(register))
        }
        Opcode::Decrement(register) => {
            Instr::UnaryWord(UnaryOperation::Dec, RmOperand::Register(register))
        }
        Opcode::Push(register) => Instr::Push(RmOperand::Register(register)),
        Opcode::Pop(register) => Instr::Pop(RmOperand::Register(register)),
        Opcode::ExchangeAccumulator(register) => exchanged_accumulator(register),
        Opcode::ConvertByte => Instr::ConvertByte,
        Opcode::ConvertWord => Instr::ConvertWord,
        Opcode::PushFlags => Instr::PushFlags,
        Opcode::PopFlags => Instr::PopFlags,
        Opcode::MoveString(width) => Instr::MoveString {
            width,
            source: prefixes.segment_under(Segment::Ds),
            repeat: prefixes.repeat(),
        },
        Opcode::StoreString(width) => Instr::StoreString {
            width,
            repeat: prefixes.repeat(),
        },
        Opcode::Return => Instr::Return,
        Opcode::InterruptReturn => Instr::InterruptReturn,
        Opcode::InDx(width) => Instr::In(width, Port::Dx),
        Opcode::OutDx(width) => Instr::Out(width, Port::Dx),
        Opcode::Halt => Instr::Halt,
        Opcode::ComplementCarry => Instr::ComplementCarry,
        Opcode::ClearCarry => Instr::ClearCarry,
        Opcode::SetCarry => Instr::SetCarry,
        Opcode::DisableInterrupts => Instr::DisableInterrupts,
        Opcode::EnableInterrupts => Instr::EnableInterrupts,
        Opcode::ClearDirection => Instr::ClearDirection,
        Opcode::SetDirection => Instr::SetDirection,
        _ => return None,
    };
    Some(instruction)
}

/// What an opcode says that a byte follows.
#[tactic(auto, unfolding(crate::specs::Instructions::byte_instruction))]
fn with_byte(opcode: Opcode, number: u8) -> Option<Instr>
    ensures { result ≡ byte_instruction opcode number }
{
    match opcode {
        Opcode::AluAccumulator(operation, Width::Byte) => Some(Instr::AluByte(
            operation,
            Operands::Immediate(RmOperand::Register(Register8::Al), number),
        )),
        Opcode::TestAccumulator(Width::Byte) => Some(Instr::TestByte(
            RmOperand::Register(Register8::Al),
            TestMask::Immediate(number),
        )),
        Opcode::MoveRegisterByte(register) => Some(Instr::MoveByte(Operands::Immediate(
            RmOperand::Register(register),
            number,
        ))),
        Opcode::JumpIf(condition) => Some(Instr::JumpIf(condition, number)),
        Opcode::Loop => Some(Instr::Loop(number)),
        Opcode::JumpIfCxZero => Some(Instr::JumpIfCxZero(number)),
        Opcode::JumpShort => Some(Instr::JumpShort(number)),
        Opcode::InFixed(width) => Some(Instr::In(width, Port::Fixed(number))),
        Opcode::OutFixed(width) => Some(Instr::Out(width, Port::Fixed(number))),
        _ => None,
    }
}

/// What an opcode says that a word follows.
#[tactic(auto, unfolding(crate::specs::Instructions::word_instruction))]
fn with_word(prefixes: Prefixes, opcode: Opcode, number: u16) -> Option<Instr>
    ensures { result ≡ word_instruction prefixes opcode number }
{
    match opcode {
        Opcode::AluAccumulator(operation, Width::Word) => Some(Instr::AluWord(
            operation,
            Operands::Immediate(RmOperand::Register(Register16::Ax), number),
        )),
        Opcode::TestAccumulator(Width::Word) => Some(Instr::TestWord(
            RmOperand::Register(Register16::Ax),
            TestMask::Immediate(number),
        )),
        Opcode::MoveRegisterWord(register) => Some(Instr::MoveWord(Operands::Immediate(
            RmOperand::Register(register),
            number,
        ))),
        Opcode::MoveFromDirect(Width::Byte) => Some(Instr::MoveByte(Operands::FromMemory(
            Register8::Al,
            direct(prefixes, number),
        ))),
        Opcode::MoveFromDirect(Width::Word) => Some(Instr::MoveWord(Operands::FromMemory(
            Register16::Ax,
            direct(prefixes, number),
        ))),
        Opcode::MoveToDirect(Width::Byte) => Some(Instr::MoveByte(Operands::FromRegister(
            RmOperand::Memory(direct(prefixes, number)),
            Register8::Al,
        ))),
        Opcode::MoveToDirect(Width::Word) => Some(Instr::MoveWord(Operands::FromRegister(
            RmOperand::Memory(direct(prefixes, number)),
            Register16::Ax,
        ))),
        Opcode::ReturnDropping => Some(Instr::ReturnDropping(number)),
        Opcode::Call => Some(Instr::Call(number)),
        Opcode::Jump => Some(Instr::Jump(number)),
        _ => None,
    }
}

/// The instruction of an opcode with two words: the far JMP, offset first.
fn with_two_words(opcode: Opcode, first: u16, second: u16) -> Option<Instr>
    ensures { result ≡ two_words_instruction opcode first second }
{
    match opcode {
        Opcode::JumpFar => Some(Instr::JumpFar {
            offset: first,
            segment: second,
        }),
        _ => None,
    }
}

/// The instruction of the groups F6H and F7H where the register field is not 0.
fn unary(
    prefixes: Prefixes,
    opcode: Opcode,
    width: Width,
    number: u8,
    place: RegisterOrMemory,
) -> Option<Instr>
    ensures { result ≡ unary_instruction prefixes opcode width number place }
{
    match (opcode, width) {
        (Opcode::UnaryGroup(Width::Byte), Width::Byte) => {
            byte_unary(number, byte_operand(prefixes, place))
        }
        (Opcode::UnaryGroup(Width::Word), Width::Word) => {
            word_unary(number, word_operand(prefixes, place))
        }
        _ => None,
    }
}

/// TEST of a byte with an immediate byte.
fn test_byte(prefixes: Prefixes, opcode: Opcode, place: RegisterOrMemory, mask: u8) -> Option<Instr>
    ensures { result ≡ test_byte_instruction prefixes opcode place mask }
{
    match opcode {
        Opcode::UnaryGroup(Width::Byte) => Some(Instr::TestByte(
            byte_operand(prefixes, place),
            TestMask::Immediate(mask),
        )),
        _ => None,
    }
}

/// TEST of a word with an immediate word.
fn test_word(
    prefixes: Prefixes,
    opcode: Opcode,
    place: RegisterOrMemory,
    mask: u16,
) -> Option<Instr>
    ensures { result ≡ test_word_instruction prefixes opcode place mask }
{
    match opcode {
        Opcode::UnaryGroup(Width::Word) => Some(Instr::TestWord(
            word_operand(prefixes, place),
            TestMask::Immediate(mask),
        )),
        _ => None,
    }
}

/// The instruction of an opcode and its fields, whatever the rule on F3H says.
#[tactic(auto, unfolding(crate::specs::Instructions::instruction_from))]
fn instruction_from(prefixes: Prefixes, opcode: Opcode, fields: Fields) -> Option<Instr>
    ensures { result ≡ instruction_from prefixes opcode fields }
{
    match fields {
        Fields::Nothing => plain(prefixes, opcode),
        Fields::Byte(number) => with_byte(opcode, number),
        Fields::Word(number) => with_word(prefixes, opcode, number),
        Fields::TwoWords(first, second) => with_two_words(opcode, first, second),
        Fields::Address(number, place) => addressed(prefixes, opcode, number, place),
        Fields::AddressByte(number, place, immediate) => {
            addressed_byte(prefixes, opcode, number, place, immediate)
        }
        Fields::AddressWord(number, place, immediate) => {
            addressed_word(prefixes, opcode, number, place, immediate)
        }
        Fields::Unary(width, number, place) => unary(prefixes, opcode, width, number, place),
        Fields::TestByte(place, mask) => test_byte(prefixes, opcode, place, mask),
        Fields::TestWord(place, mask) => test_word(prefixes, opcode, place, mask),
    }
}

impl Opcode {
    /// Whether F3H may stand before the opcode: MOVS and STOS.
    fn is_string(self) -> bool
        ensures { result ≡ is_string self }
    {
        matches!(self, Opcode::MoveString(_) | Opcode::StoreString(_))
    }
}

impl Form {
    /// The instruction that a form is, where it is one.
    #[tactic(auto, unfolding(crate::specs::Instructions::instruction_of))]
    pub fn instruction(&self) -> Option<Instr>
        ensures { result ≡ instruction_of self.now }
    {
        if self.prefixes.repeats() && !self.opcode.is_string() {
            return None;
        }
        instruction_from(self.prefixes, self.opcode, self.fields)
    }
}
