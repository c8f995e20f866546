//! Instructions that compute.

ghost use Rattle.std.specs.Prelude.{◌≡◌, not, ◌+◌, ◌*◌, ◌<◌, ◌≤◌};
ghost use Rattle.word86.specs.Access.{values};
ghost use Rattle.i86_table.specs.Arithmetic.{is_comparison};
ghost use Rattle.arrayvec.specs.ArrayVec.{array_vec_len};
ghost use Rattle.cpu8086.specs.Machine.{machine};
ghost use Rattle.cpu8086.specs.Operand.{bytes, located, in_memory, held};
ghost use Rattle.cpu8086.specs.Inner.Arithmetic.{register_computed, register_changed, computed_at};
ghost use Rattle.cpu8086.specs.Arithmetic.{computed, changed_in_place, tested_place, shift_count, shifted_place, multiplied_byte, multiplied_word, divided_byte, divided_word};

use crate::bus::Bus;
use crate::control::interrupt;
use crate::memory::Labels;
use crate::operand::{Operand, locate, locate_memory, read_mask, read_memory};
use i86_table::{
    AluOperation, Count, Memory, Operands, Register8, Register16, Regs, RmOperand, ShiftOperation,
    Signedness, TestMask, UnaryOperation, divide,
};
use word86::Width;

/// Whether an operation stores its result: CMP does not.
#[inline(always)]
pub(crate) fn is_stored(operation: AluOperation) -> bool
    ensures { result ≡ not (is_comparison operation) }
{
    !matches!(operation, AluOperation::Cmp)
}

/// ADD, OR, ADC, SBB, AND, SUB, XOR; CMP stores nothing.
#[tactic(auto, using(crate::proofs::Computing::computed_register), unfolding(crate::specs::Arithmetic::computed, crate::specs::Inner::Arithmetic::computed_at))]
#[inline(always)]
pub(crate) fn compute<R: Operand, B: Bus>(
    registers: &mut Regs,
    bus: &mut B,
    labels: &mut Labels,
    operation: AluOperation,
    operands: &Operands<R, R::Immediate>,
)
    requires { array_vec_len labels.old < 4 }
    ensures { machine registers.new (B.world bus.new) labels.new.items
        ≡ computed B.model R.bank operation operands.now (machine registers.old (B.world bus.old) labels.old.items) }
{
    match operands {
        Operands::FromRegister(place, source) => {
            let second = source.value(registers);
            compute_place(registers, bus, labels, operation, place, second);
        }
        Operands::Immediate(place, immediate) => {
            let second = R::number(*immediate);
            compute_place(registers, bus, labels, operation, place, second);
        }
        Operands::FromMemory(register, memory) => {
            compute_from_memory(registers, bus, operation, *register, memory);
        }
    }
}

/// The same for bytes, apart: the loop of a run has the code for words alone.
#[inline(never)]
pub(crate) fn compute_byte<B: Bus>(
    registers: &mut Regs,
    bus: &mut B,
    labels: &mut Labels,
    operation: AluOperation,
    operands: &Operands<Register8, u8>,
)
    requires { array_vec_len labels.old < 4 }
    ensures { machine registers.new (B.world bus.new) labels.new.items
        ≡ computed B.model bytes operation operands.now (machine registers.old (B.world bus.old) labels.old.items) }
{
    compute(registers, bus, labels, operation, operands);
}

#[inline(never)]
pub(crate) fn compute_from_memory<R: Operand, B: Bus>(
    registers: &mut Regs,
    bus: &B,
    operation: AluOperation,
    register: R,
    memory: &Memory,
)
    ensures { registers.new ≡ register_computed R.bank operation register (held B.model R.bank registers.old (B.world bus.now) (in_memory registers.old memory.now)) registers.old }
{
    let second = read_memory::<R, B>(registers, bus, memory);
    compute_register(registers, operation, register, second);
}

#[tactic(auto, using(crate::proofs::Computing::computed_register))]
#[inline(always)]
fn compute_place<R: Operand, B: Bus>(
    registers: &mut Regs,
    bus: &mut B,
    labels: &mut Labels,
    operation: AluOperation,
    place: &RmOperand<R>,
    second: u16,
)
    requires fits { second < values R.bank.width }
    requires room { array_vec_len labels.old < 4 }
    ensures { machine registers.new (B.world bus.new) labels.new.items
        ≡ computed_at B.model R.bank operation (located registers.old place.now) second (machine registers.old (B.world bus.old) labels.old.items) }
{
    match place {
        RmOperand::Register(register) => compute_register(registers, operation, *register, second),
        RmOperand::Memory(memory) => {
            compute_memory::<R, B>(registers, bus, labels, operation, memory, second);
        }
    }
}

#[tactic(auto, unfolding(crate::specs::Inner::Arithmetic::register_computed))]
#[inline(always)]
pub(crate) fn compute_register<R: Operand>(
    registers: &mut Regs,
    operation: AluOperation,
    register: R,
    second: u16,
)
    requires { second < values R.bank.width }
    ensures { registers.new ≡ register_computed R.bank operation register second registers.old }
{
    let first = register.value(registers);
    let result = registers.operate(operation, R::width(), first, second);
    if is_stored(operation) {
        register.set(registers, result);
    }
}

#[tactic(auto, unfolding(crate::specs::Inner::Arithmetic::computed_at))]
#[inline(never)]
fn compute_memory<R: Operand, B: Bus>(
    registers: &mut Regs,
    bus: &mut B,
    labels: &mut Labels,
    operation: AluOperation,
    memory: &Memory,
    second: u16,
)
    requires fits { second < values R.bank.width }
    requires room { array_vec_len labels.old < 4 }
    ensures { machine registers.new (B.world bus.new) labels.new.items
        ≡ computed_at B.model R.bank operation (in_memory registers.old memory.now) second (machine registers.old (B.world bus.old) labels.old.items) }
{
    let target = locate_memory::<R>(registers, memory);
    let first = target.read(registers, bus);
    let result = registers.operate(operation, R::width(), first, second);
    if is_stored(operation) {
        target.write(registers, bus, labels, result);
    }
}

/// NOT, NEG, INC, DEC.
#[tactic(auto, unfolding(crate::specs::Arithmetic::changed_in_place))]
#[inline(always)]
pub(crate) fn change_in_place<R: Operand, B: Bus>(
    registers: &mut Regs,
    bus: &mut B,
    labels: &mut Labels,
    operation: UnaryOperation,
    place: &RmOperand<R>,
)
    requires { array_vec_len labels.old < 4 }
    ensures { machine registers.new (B.world bus.new) labels.new.items
        ≡ changed_in_place B.model R.bank operation place.now (machine registers.old (B.world bus.old) labels.old.items) }
{
    match place {
        RmOperand::Register(register) => change_register(registers, operation, *register),
        RmOperand::Memory(_) => change_located(registers, bus, labels, operation, place),
    }
}

/// The same for a byte, apart.
#[inline(never)]
pub(crate) fn change_byte<B: Bus>(
    registers: &mut Regs,
    bus: &mut B,
    labels: &mut Labels,
    operation: UnaryOperation,
    place: &RmOperand<Register8>,
)
    requires { array_vec_len labels.old < 4 }
    ensures { machine registers.new (B.world bus.new) labels.new.items
        ≡ changed_in_place B.model bytes operation place.now (machine registers.old (B.world bus.old) labels.old.items) }
{
    change_in_place(registers, bus, labels, operation, place);
}

#[inline(always)]
pub(crate) fn change_register<R: Operand>(
    registers: &mut Regs,
    operation: UnaryOperation,
    register: R,
)
    ensures { registers.new ≡ register_changed R.bank operation register registers.old }
{
    let value = register.value(registers);
    let result = registers.change(operation, R::width(), value);
    register.set(registers, result);
}

#[tactic(auto, unfolding(crate::specs::Arithmetic::changed_in_place))]
#[inline(never)]
fn change_located<R: Operand, B: Bus>(
    registers: &mut Regs,
    bus: &mut B,
    labels: &mut Labels,
    operation: UnaryOperation,
    place: &RmOperand<R>,
)
    requires { array_vec_len labels.old < 4 }
    ensures { machine registers.new (B.world bus.new) labels.new.items
        ≡ changed_in_place B.model R.bank operation place.now (machine registers.old (B.world bus.old) labels.old.items) }
{
    let target = locate(registers, place);
    let value = target.read(registers, bus);
    let result = registers.change(operation, R::width(), value);
    target.write(registers, bus, labels, result);
}

/// TEST: the flags alone.
#[tactic(auto, unfolding(crate::specs::Arithmetic::tested_place))]
#[inline(never)]
pub(crate) fn test_place<R: Operand, B: Bus>(
    registers: &mut Regs,
    bus: &B,
    place: &RmOperand<R>,
    mask: &TestMask<R, R::Immediate>,
)
    ensures { registers.new ≡ tested_place B.model R.bank place.now mask.now (B.world bus.now) registers.old }
{
    let first = locate(registers, place).read(registers, bus);
    let second = read_mask(registers, mask);
    registers.test(R::width(), first, second);
}

#[inline(always)]
fn shift_count(registers: &Regs, count: Count) -> u8
    ensures { result ≡ shift_count registers.now count }
{
    match count {
        Count::One => 1,
        Count::Cl => registers.byte(Register8::Cl),
    }
}

/// ROL, ROR, SHL, SHR, SAR.
#[tactic(auto, unfolding(crate::specs::Arithmetic::shifted_place))]
#[inline(never)]
pub(crate) fn shift_place<R: Operand, B: Bus>(
    registers: &mut Regs,
    bus: &mut B,
    labels: &mut Labels,
    operation: ShiftOperation,
    place: &RmOperand<R>,
    count: Count,
)
    requires { array_vec_len labels.old < 4 }
    ensures { machine registers.new (B.world bus.new) labels.new.items
        ≡ shifted_place B.model R.bank operation place.now count (machine registers.old (B.world bus.old) labels.old.items) }
{
    let target = locate(registers, place);
    let value = target.read(registers, bus);
    let count = shift_count(registers, count);
    let result = registers.shift(operation, R::width(), value, count);
    target.write(registers, bus, labels, result);
}

/// MUL, IMUL of bytes.
#[tactic(auto, unfolding(crate::specs::Arithmetic::multiplied_byte))]
#[inline(never)]
pub(crate) fn multiply_byte<B: Bus>(
    registers: &mut Regs,
    bus: &B,
    signedness: Signedness,
    place: &RmOperand<Register8>,
)
    ensures { registers.new ≡ multiplied_byte B.model signedness place.now (B.world bus.now) registers.old }
{
    let factor = locate(registers, place).read(registers, bus);
    let accumulator = u16::from(registers.byte(Register8::Al));
    let product = registers.multiply(signedness, Width::Byte, accumulator, factor);
    registers.set_word(Register16::Ax, product as u16);
}

/// MUL, IMUL of words.
#[tactic(auto, unfolding(crate::specs::Arithmetic::multiplied_word))]
#[inline(never)]
pub(crate) fn multiply_word<B: Bus>(
    registers: &mut Regs,
    bus: &B,
    signedness: Signedness,
    place: &RmOperand<Register16>,
)
    ensures { registers.new ≡ multiplied_word B.model signedness place.now (B.world bus.now) registers.old }
{
    let factor = locate(registers, place).read(registers, bus);
    let accumulator = registers.word(Register16::Ax);
    let product = registers.multiply(signedness, Width::Word, accumulator, factor);
    registers.set_word(Register16::Ax, (product % 65536) as u16);
    registers.set_word(Register16::Dx, (product / 65536) as u16);
}

/// DIV, IDIV of bytes: the fault enters vector 0.
#[tactic(auto, unfolding(crate::specs::Arithmetic::divided_byte))]
#[inline(never)]
pub(crate) fn divide_byte<B: Bus>(
    registers: &mut Regs,
    bus: &mut B,
    labels: &mut Labels,
    signedness: Signedness,
    place: &RmOperand<Register8>,
)
    requires { array_vec_len labels.old ≤ 1 }
    ensures { machine registers.new (B.world bus.new) labels.new.items
        ≡ divided_byte B.model signedness place.now (machine registers.old (B.world bus.old) labels.old.items) }
{
    let divisor = locate(registers, place).read(registers, bus);
    let dividend = u32::from(registers.word(Register16::Ax));
    match divide(signedness, Width::Byte, dividend, divisor) {
        None => interrupt(registers, bus, labels, 0),
        Some(division) => {
            registers.set_word(Register16::Ax, division.remainder * 256 + division.quotient);
        }
    }
}

#[inline(always)]
fn two_words(high: u16, low: u16) -> u32
    ensures { result ≡ high * 65536 + low }
{
    u32::from(high) * 65536 + u32::from(low)
}

/// DIV, IDIV of words: the fault enters vector 0.
#[tactic(auto, unfolding(crate::specs::Arithmetic::divided_word))]
#[inline(never)]
pub(crate) fn divide_word<B: Bus>(
    registers: &mut Regs,
    bus: &mut B,
    labels: &mut Labels,
    signedness: Signedness,
    place: &RmOperand<Register16>,
)
    requires { array_vec_len labels.old ≤ 1 }
    ensures { machine registers.new (B.world bus.new) labels.new.items
        ≡ divided_word B.model signedness place.now (machine registers.old (B.world bus.old) labels.old.items) }
{
    let divisor = locate(registers, place).read(registers, bus);
    let dividend = two_words(
        registers.word(Register16::Dx),
        registers.word(Register16::Ax),
    );
    match divide(signedness, Width::Word, dividend, divisor) {
        None => interrupt(registers, bus, labels, 0),
        Some(division) => {
            registers.set_word(Register16::Ax, division.quotient);
            registers.set_word(Register16::Dx, division.remainder);
        }
    }
}
