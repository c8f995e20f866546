//! The instructions, as the 8086 Family User's Manual names them: one value for each thing that a row of the table says.

ghost use Rattle.std.specs.Prelude.{⊤, ◌≡◌};

use crate::pairs::{BytePair, WordPair};
use crate::registers::{LoadableSegment, Register8, Register16, Segment};
use std::alloc::AllocError;
use word86::Width;

/// An operation on two operands, in the order of its number in an encoding.
#[derive(Clone, Copy)]
pub enum AluOperation {
    Add,
    Or,
    Adc,
    Sbb,
    And,
    Sub,
    Xor,
    Cmp,
}

/// An operation that changes its one operand in place.
#[derive(Clone, Copy, PartialEq, Eq)]
pub enum UnaryOperation {
    Not,
    Neg,
    Inc,
    Dec,
}

/// A shift or a rotation.
#[derive(Clone, Copy)]
pub enum ShiftOperation {
    Rol,
    Ror,
    Shl,
    Shr,
    Sar,
}

/// How often a shift goes by one place: once, or as often as CL says.
#[derive(Clone, Copy)]
pub enum Count {
    One,
    Cl,
}

/// Whether a multiplication or division reads its operands as two's complement.
#[derive(Clone, Copy)]
pub enum Signedness {
    Unsigned,
    Signed,
}

/// When a conditional jump is taken, in the order of its number in an encoding.
#[derive(Clone, Copy)]
pub enum Condition {
    Overflow,
    NotOverflow,
    Below,
    NotBelow,
    Equal,
    NotEqual,
    BelowOrEqual,
    Above,
    Sign,
    NotSign,
    ParityEven,
    ParityOdd,
    Less,
    NotLess,
    LessOrEqual,
    Greater,
}

/// The registers whose sum an effective address begins with.
#[derive(Clone, Copy)]
pub enum Base {
    BxSi,
    BxDi,
    BpSi,
    BpDi,
    Si,
    Di,
    Bp,
    Bx,
}

/// Where an operand in memory lies in its segment.
#[derive(Clone, Copy)]
pub enum Address {
    /// A fixed offset.
    Direct(u16),
    /// Base registers and a displacement, added modulo 65,536.
    Based { base: Base, displacement: u16 },
}

/// An operand in memory: its segment, an override counted in, and its place there.
#[derive(Clone, Copy)]
pub struct Memory {
    pub segment: Segment,
    pub address: Address,
}

/// The r/m operand of an instruction: a register, or a place in memory (8086 Family User's Manual, "Machine Instruction
/// Encoding and Decoding").
#[derive(Copy)]
pub enum RmOperand<R> {
    Register(R),
    Memory(Memory),
}

impl<R: Copy> Clone for RmOperand<R> {
    ghost is_clone = { λ of copy. copy ≡ of };

    ghost is_infallible = { λ _. ⊤ };

    fn clone(&self) -> Result<RmOperand<R>, AllocError> {
        Ok(*self)
    }
}

/// A target and a source, not both in memory.
#[derive(Copy)]
pub enum Operands<R, I> {
    FromRegister(RmOperand<R>, R),
    FromMemory(R, Memory),
    Immediate(RmOperand<R>, I),
}

impl<R: Copy, I: Copy> Clone for Operands<R, I> {
    ghost is_clone = { λ of copy. copy ≡ of };

    ghost is_infallible = { λ _. ⊤ };

    fn clone(&self) -> Result<Operands<R, I>, AllocError> {
        Ok(*self)
    }
}

/// What TEST compares its r/m operand with.
#[derive(Copy)]
pub enum TestMask<R, I> {
    Register(R),
    Immediate(I),
}

impl<R: Copy, I: Copy> Clone for TestMask<R, I> {
    ghost is_clone = { λ of copy. copy ≡ of };

    ghost is_infallible = { λ _. ⊤ };

    fn clone(&self) -> Result<TestMask<R, I>, AllocError> {
        Ok(*self)
    }
}

/// A port named by the instruction or by DX.
#[derive(Clone, Copy)]
pub enum Port {
    Fixed(u8),
    Dx,
}

/// Whether a string instruction stands alone or is repeated as often as CX says.
#[derive(Clone, Copy)]
pub enum Repeat {
    Once,
    WhileCx,
}

/// An instruction. Distances and displacements are numbers modulo 256 or 65,536, counted from the next instruction.
#[derive(Clone, Copy)]
pub enum Instr {
    /// NOP.
    Nop,
    /// ADD, OR, ADC, SBB, AND, SUB, XOR, CMP of bytes.
    AluByte(AluOperation, Operands<Register8, u8>),
    /// ADD, OR, ADC, SBB, AND, SUB, XOR, CMP of words.
    AluWord(AluOperation, Operands<Register16, u16>),
    /// NOT, NEG, INC, DEC of a byte.
    UnaryByte(UnaryOperation, RmOperand<Register8>),
    /// NOT, NEG, INC, DEC of a word.
    UnaryWord(UnaryOperation, RmOperand<Register16>),
    /// TEST of bytes.
    TestByte(RmOperand<Register8>, TestMask<Register8, u8>),
    /// TEST of words.
    TestWord(RmOperand<Register16>, TestMask<Register16, u16>),
    /// ROL, ROR, SHL, SHR, SAR of a byte. A count of 0 in CL changes neither value nor flags, and stores the value all the same.
    ShiftByte(ShiftOperation, RmOperand<Register8>, Count),
    /// ROL, ROR, SHL, SHR, SAR of a word. A count of 0 in CL changes neither value nor flags, and stores the value all the same.
    ShiftWord(ShiftOperation, RmOperand<Register16>, Count),
    /// MUL, IMUL: AX is AL times the operand.
    MultiplyByte(Signedness, RmOperand<Register8>),
    /// MUL, IMUL: DX and AX are AX times the operand.
    MultiplyWord(Signedness, RmOperand<Register16>),
    /// DIV, IDIV: AL and AH are quotient and remainder of AX and the operand.
    DivideByte(Signedness, RmOperand<Register8>),
    /// DIV, IDIV: AX and DX are quotient and remainder of DX, AX and the operand.
    DivideWord(Signedness, RmOperand<Register16>),
    /// CBW: AX is AL with its sign.
    ConvertByte,
    /// CWD: DX and AX are AX with its sign.
    ConvertWord,
    /// MOV of a byte.
    MoveByte(Operands<Register8, u8>),
    /// MOV of a word.
    MoveWord(Operands<Register16, u16>),
    /// MOV from a segment register.
    MoveFromSegment(RmOperand<Register16>, Segment),
    /// MOV to a segment register.
    MoveToSegment(LoadableSegment, RmOperand<Register16>),
    /// LEA: the offset, not what lies there.
    LoadAddress(Register16, Address),
    /// XCHG of two byte registers: in which order they are named says nothing.
    ExchangeBytes(BytePair),
    /// XCHG of two word registers: in which order they are named says nothing.
    ExchangeWords(WordPair),
    /// XCHG of a byte register with memory.
    ExchangeMemoryByte(Register8, Memory),
    /// XCHG of a word register with memory.
    ExchangeMemoryWord(Register16, Memory),
    /// PUSH of a word.
    Push(RmOperand<Register16>),
    /// POP of a word.
    Pop(RmOperand<Register16>),
    /// PUSH of a segment register.
    PushSegment(Segment),
    /// POP of a segment register.
    PopSegment(LoadableSegment),
    /// PUSHF.
    PushFlags,
    /// POPF.
    PopFlags,
    /// MOVS, from SI in the named segment to DI in ES.
    MoveString {
        width: Width,
        source: Segment,
        repeat: Repeat,
    },
    /// STOS, from AL or AX to DI in ES.
    StoreString {
        width: Width,
        repeat: Repeat,
    },
    /// IN to AL or AX.
    In(Width, Port),
    /// OUT of AL or AX.
    Out(Width, Port),
    /// A conditional jump by a distance of one byte.
    JumpIf(Condition, u8),
    /// LOOP: CX is counted down, and the jump is taken unless it is 0.
    Loop(u8),
    /// JCXZ.
    JumpIfCxZero(u8),
    /// JMP by a distance of one byte.
    JumpShort(u8),
    /// JMP by a distance of one word.
    Jump(u16),
    /// JMP to the offset in a register or in memory.
    JumpTo(RmOperand<Register16>),
    /// JMP to another segment.
    JumpFar {
        offset: u16,
        segment: u16,
    },
    /// CALL by a distance of one word.
    Call(u16),
    /// CALL of the offset in a register or in memory.
    CallTo(RmOperand<Register16>),
    /// RET.
    Return,
    /// RET that drops this number of bytes more.
    ReturnDropping(u16),
    /// IRET.
    InterruptReturn,
    /// CMC.
    ComplementCarry,
    /// CLC.
    ClearCarry,
    /// STC.
    SetCarry,
    /// CLI.
    DisableInterrupts,
    /// STI.
    EnableInterrupts,
    /// CLD.
    ClearDirection,
    /// STD.
    SetDirection,
    /// HLT.
    Halt,
}
