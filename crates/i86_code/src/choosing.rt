//! The form that is written for an instruction.

ghost use Rattle.std.specs.Prelude.{◌≡◌};
ghost use Rattle.i86_table.specs.Numbers.{byte_register_code, word_register_code};
ghost use Rattle.i86_code.specs.declared.form.Fields.TheVariants as fields;
ghost use Rattle.i86_code.specs.Writing.{prefix_for, prefix_at, prefix_of, is_near, based_form, address_form, place_form, plain, addressed, with_memory, with_byte, with_word, in_group, from_register, is_al, is_ax, accumulator_form, alu_immediate_of, alu_byte_of, alu_word_of, move_byte_of, move_word_of, test_byte_of, test_word_of, unary_byte_of, unary_word_of, push_of, pop_of, multiply_code, divide_code, shift_code, exchange_words_of, string_prefixes, in_of, out_of, form_of};

use crate::form::{Fields, Form, Opcode, Prefixes, RegisterOrMemory};
use crate::instructions::{is_short, usual_segment};
use crate::numbers::{Numbered, operation_number, segment_number};
use i86_table::{
    Address, AluOperation, Base, Instr, Memory, Operands, Port, Register8, Register16, Repeat,
    RmOperand, Segment, ShiftOperation, Signedness, TestMask, UnaryOperation,
};
use word86::Width;

/// No prefix for the usual segment.
fn prefix_for(usual: Segment, segment: Segment) -> Prefixes
    ensures { result ≡ prefix_for usual segment }
{
    match (usual, segment) {
        (Segment::Ds, Segment::Ds) | (Segment::Ss, Segment::Ss) => Prefixes::Nothing,
        _ => Prefixes::Override(segment),
    }
}

/// The prefix that an address in this segment needs: none for its usual segment.
pub(crate) fn prefix_at(segment: Segment, address: Address) -> Prefixes
    ensures { result ≡ prefix_at segment address }
{
    match address {
        Address::Direct(_) => prefix_for(Segment::Ds, segment),
        Address::Based { base, .. } => prefix_for(usual_segment(base), segment),
    }
}

/// The prefix that an r/m operand needs.
fn prefix_of<R: Copy>(place: &RmOperand<R>) -> Prefixes
    ensures { result ≡ prefix_of place.now }
{
    match place {
        RmOperand::Register(_) => Prefixes::Nothing,
        RmOperand::Memory(memory) => prefix_at(memory.segment, memory.address),
    }
}

/// Whether a displacement or a constant is a byte that is extended with its sign.
pub(crate) fn is_near(displacement: u16) -> bool
    ensures { result ≡ is_near displacement }
{
    displacement < 128 || displacement >= 65408
}

/// The shortest displacement that holds it; BP alone has none of no length.
#[tactic(auto, unfolding(crate::specs::Writing::based_form))]
fn based_form(base: Base, displacement: u16) -> RegisterOrMemory
    ensures { result ≡ based_form base displacement }
{
    if displacement == 0 && !matches!(base, Base::Bp) {
        RegisterOrMemory::Indirect(base)
    } else if is_near(displacement) {
        RegisterOrMemory::Near(base, (displacement % 256) as u8)
    } else {
        RegisterOrMemory::Far(base, displacement)
    }
}

/// The shortest spelling of an address.
fn address_form(address: Address) -> RegisterOrMemory
    ensures { result ≡ address_form address }
{
    match address {
        Address::Direct(offset) => RegisterOrMemory::Direct(offset),
        Address::Based { base, displacement } => based_form(base, displacement),
    }
}

/// The shortest spelling of an r/m operand.
fn place_form<R: Numbered>(place: &RmOperand<R>) -> RegisterOrMemory
    ensures { result ≡ place_form R.code place.now }
{
    match place {
        RmOperand::Register(register) => RegisterOrMemory::Register(register.number()),
        RmOperand::Memory(memory) => address_form(memory.address),
    }
}

/// A form with no prefix.
pub(crate) fn plain(opcode: Opcode, fields: Fields) -> Form
    ensures { result ≡ plain opcode fields }
{
    Form {
        prefixes: Prefixes::Nothing,
        opcode,
        fields,
    }
}

/// A form with an address byte: its register field, and its r/m operand.
fn addressed<R: Numbered>(opcode: Opcode, number: u8, place: &RmOperand<R>) -> Form
    ensures { result ≡ addressed R.code opcode number place.now }
{
    Form {
        prefixes: prefix_of(place),
        opcode,
        fields: Fields::Address(number, place_form(place)),
    }
}

/// A form with an address byte whose operand is in memory.
fn with_memory(opcode: Opcode, number: u8, memory: &Memory) -> Form
    ensures { result ≡ with_memory opcode number memory.now }
{
    Form {
        prefixes: prefix_at(memory.segment, memory.address),
        opcode,
        fields: Fields::Address(number, address_form(memory.address)),
    }
}

/// A form with an address byte and an immediate byte.
fn with_byte<R: Numbered>(opcode: Opcode, number: u8, place: &RmOperand<R>, immediate: u8) -> Form
    ensures { result ≡ with_byte R.code opcode number place.now immediate }
{
    Form {
        prefixes: prefix_of(place),
        opcode,
        fields: Fields::AddressByte(number, place_form(place), immediate),
    }
}

/// A form with an address byte and an immediate word.
fn with_word(opcode: Opcode, number: u8, place: &RmOperand<Register16>, immediate: u16) -> Form
    ensures { result ≡ with_word opcode number place.now immediate }
{
    Form {
        prefixes: prefix_of(place),
        opcode,
        fields: Fields::AddressWord(number, place_form(place), immediate),
    }
}

/// A form of the group F6H, F7H whose operation is its register field, which is not 0.
fn in_group<R: Numbered>(width: Width, number: u8, place: &RmOperand<R>) -> Form
    ensures { result ≡ in_group R.code width number place.now }
{
    Form {
        prefixes: prefix_of(place),
        opcode: Opcode::UnaryGroup(width),
        fields: Fields::Unary(width, number, place_form(place)),
    }
}

/// Between two registers the target is in the register field.
fn from_register<R: Numbered>(
    to_place: Opcode,
    to_register: Opcode,
    target: &RmOperand<R>,
    source: R,
) -> Form
    ensures { result ≡ from_register R.code to_place to_register target.now source }
{
    match target {
        RmOperand::Register(register) => plain(
            to_register,
            Fields::Address(
                register.number(),
                RegisterOrMemory::Register(source.number()),
            ),
        ),
        RmOperand::Memory(memory) => with_memory(to_place, source.number(), memory),
    }
}

/// Whether a register is AL, which has forms of its own.
pub(crate) fn is_al(register: Register8) -> bool
    ensures { result ≡ is_al register }
{
    matches!(register, Register8::Al)
}

/// Whether a register is AX, which has forms of its own.
pub(crate) fn is_ax(register: Register16) -> bool
    ensures { result ≡ is_ax register }
{
    matches!(register, Register16::Ax)
}

/// The accumulator has a form of its own for a direct address.
pub(crate) fn accumulator_form(
    is_accumulator: bool,
    opcode: Opcode,
    other: Form,
    memory: &Memory,
) -> Form
    ensures { result ≡ accumulator_form is_accumulator opcode other memory.now.segment memory.now.address }
{
    match memory.address {
        Address::Direct(offset) if is_accumulator => Form {
            prefixes: prefix_for(Segment::Ds, memory.segment),
            opcode,
            fields: Fields::Word(offset),
        },
        _ => other,
    }
}

/// Arithmetic with an immediate word where no accumulator form serves: 83H where a byte says it, else 81H.
fn alu_immediate(operation: AluOperation, place: &RmOperand<Register16>, number: u16) -> Form
    ensures { result ≡ alu_immediate_of operation place.now number }
{
    let code = operation_number(operation);
    if is_short(code) && is_near(number) {
        with_byte(Opcode::AluShort, code, place, (number % 256) as u8)
    } else {
        with_word(Opcode::AluImmediate(Width::Word), code, place, number)
    }
}

/// The best form of byte arithmetic.
#[tactic(auto, unfolding(crate::specs::Writing::alu_byte_of))]
fn alu_byte(operation: AluOperation, operands: &Operands<Register8, u8>) -> Form
    ensures { result ≡ alu_byte_of operation operands.now }
{
    let to_register = Opcode::AluToRegister(operation, Width::Byte);
    match operands {
        Operands::FromRegister(target, source) => {
            let to_place = Opcode::AluToPlace(operation, Width::Byte);
            from_register(to_place, to_register, target, *source)
        }
        Operands::FromMemory(register, memory) => {
            with_memory(to_register, register.number(), memory)
        }
        Operands::Immediate(RmOperand::Register(Register8::Al), number) => plain(
            Opcode::AluAccumulator(operation, Width::Byte),
            Fields::Byte(*number),
        ),
        Operands::Immediate(place, number) => with_byte(
            Opcode::AluImmediate(Width::Byte),
            operation_number(operation),
            place,
            *number,
        ),
    }
}

/// The best form of word arithmetic.
#[tactic(auto, unfolding(crate::specs::Writing::alu_word_of))]
fn alu_word(operation: AluOperation, operands: &Operands<Register16, u16>) -> Form
    ensures { result ≡ alu_word_of operation operands.now }
{
    let to_register = Opcode::AluToRegister(operation, Width::Word);
    match operands {
        Operands::FromRegister(target, source) => {
            let to_place = Opcode::AluToPlace(operation, Width::Word);
            from_register(to_place, to_register, target, *source)
        }
        Operands::FromMemory(register, memory) => {
            with_memory(to_register, register.number(), memory)
        }
        Operands::Immediate(RmOperand::Register(Register16::Ax), number) => plain(
            Opcode::AluAccumulator(operation, Width::Word),
            Fields::Word(*number),
        ),
        Operands::Immediate(place, number) => alu_immediate(operation, place, *number),
    }
}

/// The best form of a byte MOV.
#[tactic(auto, unfolding(crate::specs::Writing::move_byte_of))]
fn move_byte(operands: &Operands<Register8, u8>) -> Form
    ensures { result ≡ move_byte_of operands.now }
{
    let to_register = Opcode::MoveToRegister(Width::Byte);
    match operands {
        Operands::FromRegister(RmOperand::Register(target), source) => plain(
            to_register,
            Fields::Address(target.number(), RegisterOrMemory::Register(source.number())),
        ),
        Operands::FromRegister(RmOperand::Memory(memory), register) => {
            let other = with_memory(Opcode::MoveToPlace(Width::Byte), register.number(), memory);
            let short = Opcode::MoveToDirect(Width::Byte);
            accumulator_form(is_al(*register), short, other, memory)
        }
        Operands::FromMemory(register, memory) => {
            let other = with_memory(to_register, register.number(), memory);
            let short = Opcode::MoveFromDirect(Width::Byte);
            accumulator_form(is_al(*register), short, other, memory)
        }
        Operands::Immediate(RmOperand::Register(register), number) => {
            plain(Opcode::MoveRegisterByte(*register), Fields::Byte(*number))
        }
        Operands::Immediate(place, number) => {
            with_byte(Opcode::MoveImmediate(Width::Byte), 0, place, *number)
        }
    }
}

/// The best form of a word MOV.
#[tactic(auto, unfolding(crate::specs::Writing::move_word_of))]
fn move_word(operands: &Operands<Register16, u16>) -> Form
    ensures { result ≡ move_word_of operands.now }
{
    let to_register = Opcode::MoveToRegister(Width::Word);
    match operands {
        Operands::FromRegister(RmOperand::Register(target), source) => plain(
            to_register,
            Fields::Address(target.number(), RegisterOrMemory::Register(source.number())),
        ),
        Operands::FromRegister(RmOperand::Memory(memory), register) => {
            let other = with_memory(Opcode::MoveToPlace(Width::Word), register.number(), memory);
            let short = Opcode::MoveToDirect(Width::Word);
            accumulator_form(is_ax(*register), short, other, memory)
        }
        Operands::FromMemory(register, memory) => {
            let other = with_memory(to_register, register.number(), memory);
            let short = Opcode::MoveFromDirect(Width::Word);
            accumulator_form(is_ax(*register), short, other, memory)
        }
        Operands::Immediate(RmOperand::Register(register), number) => {
            plain(Opcode::MoveRegisterWord(*register), Fields::Word(*number))
        }
        Operands::Immediate(place, number) => {
            with_word(Opcode::MoveImmediate(Width::Word), 0, place, *number)
        }
    }
}

/// The best form of a byte TEST.
fn test_byte(place: &RmOperand<Register8>, mask: &TestMask<Register8, u8>) -> Form
    ensures { result ≡ test_byte_of place.now mask.now }
{
    match (place, mask) {
        (_, TestMask::Register(register)) => {
            addressed(Opcode::Test(Width::Byte), register.number(), place)
        }
        (RmOperand::Register(Register8::Al), TestMask::Immediate(number)) => {
            plain(Opcode::TestAccumulator(Width::Byte), Fields::Byte(*number))
        }
        (_, TestMask::Immediate(number)) => Form {
            prefixes: prefix_of(place),
            opcode: Opcode::UnaryGroup(Width::Byte),
            fields: Fields::TestByte(place_form(place), *number),
        },
    }
}

/// The best form of a word TEST.
fn test_word(place: &RmOperand<Register16>, mask: &TestMask<Register16, u16>) -> Form
    ensures { result ≡ test_word_of place.now mask.now }
{
    match (place, mask) {
        (_, TestMask::Register(register)) => {
            addressed(Opcode::Test(Width::Word), register.number(), place)
        }
        (RmOperand::Register(Register16::Ax), TestMask::Immediate(number)) => {
            plain(Opcode::TestAccumulator(Width::Word), Fields::Word(*number))
        }
        (_, TestMask::Immediate(number)) => Form {
            prefixes: prefix_of(place),
            opcode: Opcode::UnaryGroup(Width::Word),
            fields: Fields::TestWord(place_form(place), *number),
        },
    }
}

/// The best form of NOT, NEG, INC and DEC of a byte.
fn unary_byte(operation: UnaryOperation, place: &RmOperand<Register8>) -> Form
    ensures { result ≡ unary_byte_of operation place.now }
{
    match operation {
        UnaryOperation::Not => in_group(Width::Byte, 2, place),
        UnaryOperation::Neg => in_group(Width::Byte, 3, place),
        UnaryOperation::Inc => addressed(Opcode::StepGroup(Width::Byte), 0, place),
        UnaryOperation::Dec => addressed(Opcode::StepGroup(Width::Byte), 1, place),
    }
}

/// The best form of NOT, NEG, INC and DEC of a word: INC and DEC of a register have one byte.
fn unary_word(operation: UnaryOperation, place: &RmOperand<Register16>) -> Form
    ensures { result ≡ unary_word_of operation place.now }
{
    let group = Opcode::StepGroup(Width::Word);
    match (operation, place) {
        (UnaryOperation::Not, _) => in_group(Width::Word, 2, place),
        (UnaryOperation::Neg, _) => in_group(Width::Word, 3, place),
        (UnaryOperation::Inc, RmOperand::Register(register)) => {
            plain(Opcode::Increment(*register), Fields::Nothing)
        }
        (UnaryOperation::Inc, RmOperand::Memory(memory)) => with_memory(group, 0, memory),
        (UnaryOperation::Dec, RmOperand::Register(register)) => {
            plain(Opcode::Decrement(*register), Fields::Nothing)
        }
        (UnaryOperation::Dec, RmOperand::Memory(memory)) => with_memory(group, 1, memory),
    }
}

/// The best form of PUSH: a register has one byte.
fn push(place: &RmOperand<Register16>) -> Form
    ensures { result ≡ push_of place.now }
{
    match place {
        RmOperand::Register(register) => plain(Opcode::Push(*register), Fields::Nothing),
        RmOperand::Memory(memory) => with_memory(Opcode::StepGroup(Width::Word), 6, memory),
    }
}

/// The best form of POP: a register has one byte.
fn pop(place: &RmOperand<Register16>) -> Form
    ensures { result ≡ pop_of place.now }
{
    match place {
        RmOperand::Register(register) => plain(Opcode::Pop(*register), Fields::Nothing),
        RmOperand::Memory(memory) => with_memory(Opcode::PopPlace, 0, memory),
    }
}

/// The register field of MUL and IMUL.
fn multiply_number(signedness: Signedness) -> u8
    ensures { result ≡ multiply_code signedness }
{
    match signedness {
        Signedness::Unsigned => 4,
        Signedness::Signed => 5,
    }
}

/// The register field of DIV and IDIV.
fn divide_number(signedness: Signedness) -> u8
    ensures { result ≡ divide_code signedness }
{
    match signedness {
        Signedness::Unsigned => 6,
        Signedness::Signed => 7,
    }
}

/// The register field of a shift or rotation.
fn shift_number(operation: ShiftOperation) -> u8
    ensures { result ≡ shift_code operation }
{
    match operation {
        ShiftOperation::Rol => 0,
        ShiftOperation::Ror => 1,
        ShiftOperation::Shl => 4,
        ShiftOperation::Shr => 5,
        ShiftOperation::Sar => 7,
    }
}

/// The best form of XCHG of two word registers: with AX it has one byte.
fn exchange_words(a: Register16, b: Register16) -> Form
    ensures { result ≡ exchange_words_of a b }
{
    if is_ax(a) && !is_ax(b) {
        plain(Opcode::ExchangeAccumulator(b), Fields::Nothing)
    } else {
        plain(
            Opcode::Exchange(Width::Word),
            Fields::Address(a.number(), RegisterOrMemory::Register(b.number())),
        )
    }
}

/// The segment prefix first.
fn string_prefixes(source: Segment, repeat: Repeat) -> Prefixes
    ensures { result ≡ string_prefixes source repeat }
{
    match (source, repeat) {
        (Segment::Ds, Repeat::Once) => Prefixes::Nothing,
        (Segment::Ds, Repeat::WhileCx) => Prefixes::Repeat,
        (_, Repeat::Once) => Prefixes::Override(source),
        (_, Repeat::WhileCx) => Prefixes::OverrideRepeat(source),
    }
}

/// The form of IN.
fn input(width: Width, port: Port) -> Form
    ensures { result ≡ in_of width port }
{
    match port {
        Port::Fixed(number) => plain(Opcode::InFixed(width), Fields::Byte(number)),
        Port::Dx => plain(Opcode::InDx(width), Fields::Nothing),
    }
}

/// The form of OUT.
fn output(width: Width, port: Port) -> Form
    ensures { result ≡ out_of width port }
{
    match port {
        Port::Fixed(number) => plain(Opcode::OutFixed(width), Fields::Byte(number)),
        Port::Dx => plain(Opcode::OutDx(width), Fields::Nothing),
    }
}

/// An opcode alone.
fn alone(opcode: Opcode) -> Form
    ensures { result ≡ plain opcode fields.Nothing }
{
    plain(opcode, Fields::Nothing)
}

/// A form that has one byte after its opcode.
fn byte_after(opcode: Opcode, number: u8) -> Form
    ensures { result ≡ plain opcode (fields.Byte number) }
{
    plain(opcode, Fields::Byte(number))
}

/// A form that has one word after its opcode.
fn word_after(opcode: Opcode, number: u16) -> Form
    ensures { result ≡ plain opcode (fields.Word number) }
{
    plain(opcode, Fields::Word(number))
}

impl Form {
    /// The form that is written for an instruction.
    pub fn of(instruction: Instr) -> Form
        ensures { result ≡ form_of instruction }
    {
        Form::written(&instruction)
    }

    // The same. Operands stay where they are: to be handed on by value, those of each arm would be zeroed and copied, whichever arm it is.
    #[tactic(auto, unfolding(crate::specs::Writing::form_of))]
    fn written(instruction: &Instr) -> Form
        ensures { result ≡ form_of instruction.now }
    {
        match instruction {
            Instr::Nop => alone(Opcode::ExchangeAccumulator(Register16::Ax)),
            Instr::AluByte(operation, operands) => alu_byte(*operation, operands),
            Instr::AluWord(operation, operands) => alu_word(*operation, operands),
            Instr::UnaryByte(operation, place) => unary_byte(*operation, place),
            Instr::UnaryWord(operation, place) => unary_word(*operation, place),
            Instr::TestByte(place, mask) => test_byte(place, mask),
            Instr::TestWord(place, mask) => test_word(place, mask),
            Instr::ShiftByte(operation, place, count) => addressed(
                Opcode::Shift(Width::Byte, *count),
                shift_number(*operation),
                place,
            ),
            Instr::ShiftWord(operation, place, count) => addressed(
                Opcode::Shift(Width::Word, *count),
                shift_number(*operation),
                place,
            ),
            Instr::MultiplyByte(signedness, place) => {
                in_group(Width::Byte, multiply_number(*signedness), place)
            }
            Instr::MultiplyWord(signedness, place) => {
                in_group(Width::Word, multiply_number(*signedness), place)
            }
            Instr::DivideByte(signedness, place) => {
                in_group(Width::Byte, divide_number(*signedness), place)
            }
            Instr::DivideWord(signedness, place) => {
                in_group(Width::Word, divide_number(*signedness), place)
            }
            Instr::ConvertByte => alone(Opcode::ConvertByte),
            Instr::ConvertWord => alone(Opcode::ConvertWord),
            Instr::MoveByte(operands) => move_byte(operands),
            Instr::MoveWord(operands) => move_word(operands),
            Instr::MoveFromSegment(place, segment) => {
                addressed(Opcode::MoveFromSegment, segment_number(*segment), place)
            }
            Instr::MoveToSegment(segment, place) => {
                let number = segment_number(segment.segment());
                addressed(Opcode::MoveToSegment, number, place)
            }
            Instr::LoadAddress(register, address) => {
                let fields = Fields::Address(register.number(), address_form(*address));
                plain(Opcode::LoadAddress, fields)
            }
            Instr::ExchangeBytes(pair) => plain(
                Opcode::Exchange(Width::Byte),
                Fields::Address(
                    pair.first.number(),
                    RegisterOrMemory::Register(pair.second.number()),
                ),
            ),
            Instr::ExchangeWords(pair) => exchange_words(pair.first, pair.second),
            Instr::ExchangeMemoryByte(register, memory) => {
                with_memory(Opcode::Exchange(Width::Byte), register.number(), memory)
            }
            Instr::ExchangeMemoryWord(register, memory) => {
                with_memory(Opcode::Exchange(Width::Word), register.number(), memory)
            }
            Instr::Push(place) => push(place),
            Instr::Pop(place) => pop(place),
            Instr::PushSegment(segment) => alone(Opcode::PushSegment(*segment)),
            Instr::PopSegment(segment) => alone(Opcode::PopSegment(*segment)),
            Instr::PushFlags => alone(Opcode::PushFlags),
            Instr::PopFlags => alone(Opcode::PopFlags),
            Instr::MoveString {
                width,
                source,
                repeat,
            } => Form {
                prefixes: string_prefixes(*source, *repeat),
                opcode: Opcode::MoveString(*width),
                fields: Fields::Nothing,
            },
            Instr::StoreString { width, repeat } => Form {
                prefixes: string_prefixes(Segment::Ds, *repeat),
                opcode: Opcode::StoreString(*width),
                fields: Fields::Nothing,
            },
            Instr::In(width, port) => input(*width, *port),
            Instr::Out(width, port) => output(*width, *port),
            Instr::JumpIf(condition, distance) => byte_after(Opcode::JumpIf(*condition), *distance),
            Instr::Loop(distance) => byte_after(Opcode::Loop, *distance),
            Instr::JumpIfCxZero(distance) => byte_after(Opcode::JumpIfCxZero, *distance),
            Instr::JumpShort(distance) => byte_after(Opcode::JumpShort, *distance),
            Instr::Jump(distance) => word_after(Opcode::Jump, *distance),
            Instr::JumpTo(place) => addressed(Opcode::StepGroup(Width::Word), 4, place),
            Instr::JumpFar { offset, segment } => {
                plain(Opcode::JumpFar, Fields::TwoWords(*offset, *segment))
            }
            Instr::Call(distance) => word_after(Opcode::Call, *distance),
            Instr::CallTo(place) => addressed(Opcode::StepGroup(Width::Word), 2, place),
            Instr::Return => alone(Opcode::Return),
            Instr::ReturnDropping(bytes) => word_after(Opcode::ReturnDropping, *bytes),
            Instr::InterruptReturn => alone(Opcode::InterruptReturn),
            Instr::ComplementCarry => alone(Opcode::ComplementCarry),
            Instr::ClearCarry => alone(Opcode::ClearCarry),
            Instr::SetCarry => alone(Opcode::SetCarry),
            Instr::DisableInterrupts => alone(Opcode::DisableInterrupts),
            Instr::EnableInterrupts => alone(Opcode::EnableInterrupts),
            Instr::ClearDirection => alone(Opcode::ClearDirection),
            Instr::SetDirection => alone(Opcode::SetDirection),
            Instr::Halt => alone(Opcode::Halt),
        }
    }
}
