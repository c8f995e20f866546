//! The forms in which an instruction stands in memory: prefixes, an opcode byte and its fields (8086 Family User's Manual,
//! figure 4-20).

use i86_table::{
    AluOperation, Base, Condition, Count, LoadableSegment, Register8, Register16, Segment,
};
use word86::Width;

/// The opcode byte, by what it says.
#[derive(Clone, Copy)]
pub enum Opcode {
    AluToPlace(AluOperation, Width),
    AluToRegister(AluOperation, Width),
    AluAccumulator(AluOperation, Width),
    PushSegment(Segment),
    PopSegment(LoadableSegment),
    Increment(Register16),
    Decrement(Register16),
    Push(Register16),
    Pop(Register16),
    JumpIf(Condition),
    AluImmediate(Width),
    AluShort,
    Test(Width),
    Exchange(Width),
    MoveToPlace(Width),
    MoveToRegister(Width),
    MoveFromSegment,
    LoadAddress,
    MoveToSegment,
    PopPlace,
    /// XCHG of AX with a register; with AX itself it is NOP.
    ExchangeAccumulator(Register16),
    ConvertByte,
    ConvertWord,
    PushFlags,
    PopFlags,
    MoveFromDirect(Width),
    MoveToDirect(Width),
    MoveString(Width),
    TestAccumulator(Width),
    StoreString(Width),
    MoveRegisterByte(Register8),
    MoveRegisterWord(Register16),
    ReturnDropping,
    Return,
    MoveImmediate(Width),
    InterruptReturn,
    Shift(Width, Count),
    Loop,
    JumpIfCxZero,
    InFixed(Width),
    OutFixed(Width),
    Call,
    Jump,
    JumpFar,
    JumpShort,
    InDx(Width),
    OutDx(Width),
    Halt,
    ComplementCarry,
    /// TEST, NOT, NEG, MUL, IMUL, DIV, IDIV by the register field.
    UnaryGroup(Width),
    ClearCarry,
    SetCarry,
    DisableInterrupts,
    EnableInterrupts,
    ClearDirection,
    SetDirection,
    /// INC, DEC, and for words CALL, JMP, PUSH by the register field.
    StepGroup(Width),
}

/// A register or a place in memory, as the address byte and its displacement spell it.
#[derive(Clone, Copy)]
pub enum RegisterOrMemory {
    Register(u8),
    Indirect(Base),
    Direct(u16),
    Near(Base, u8),
    Far(Base, u16),
}

/// The kind of the fields that follow an opcode.
#[derive(Clone, Copy)]
pub enum FieldKind {
    Nothing,
    Byte,
    Word,
    TwoWords,
    Address,
    AddressByte,
    AddressWord,
    /// An address byte, and a number where its register field is 0.
    Group(Width),
}

/// The fields that follow an opcode: numbers, and an address byte's register field and place.
#[derive(Clone, Copy)]
pub enum Fields {
    Nothing,
    Byte(u8),
    Word(u16),
    TwoWords(u16, u16),
    Address(u8, RegisterOrMemory),
    AddressByte(u8, RegisterOrMemory, u8),
    AddressWord(u8, RegisterOrMemory, u16),
    /// The register field is not 0.
    Unary(Width, u8, RegisterOrMemory),
    /// The register field is 0.
    TestByte(RegisterOrMemory, u8),
    TestWord(RegisterOrMemory, u16),
}

/// The prefixes before an opcode, in their order.
#[derive(Clone, Copy)]
pub enum Prefixes {
    Nothing,
    Override(Segment),
    Repeat,
    OverrideRepeat(Segment),
    RepeatOverride(Segment),
}

/// An instruction as it stands in memory.
#[derive(Clone, Copy)]
pub struct Form {
    pub prefixes: Prefixes,
    pub opcode: Opcode,
    pub fields: Fields,
}
