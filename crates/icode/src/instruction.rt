//! The instructions.

use word86::{BinaryOperation, Place, UnaryOperation, Width};

/// A relation between two whole numbers.
#[derive(Clone, Copy, PartialEq, Eq)]
pub enum Relation {
    Equal,
    NotEqual,
    Less,
    LessEqual,
    Greater,
    GreaterEqual,
    /// Of words with sign.
    LessSigned,
    LessEqualSigned,
    GreaterSigned,
    GreaterEqualSigned,
}

/// An operator that takes its right operand where it lies.
#[derive(Clone, Copy, PartialEq, Eq)]
pub enum Direct {
    Add,
    Subtract,
    And,
    Or,
    ExclusiveOr,
}

/// The right operand of what is done with low bytes.
#[derive(Clone, Copy, PartialEq, Eq)]
pub enum Right {
    /// The low byte of a number.
    Constant(u16),
    /// The byte at a place.
    Plain(Place),
    /// The low byte of the accumulator; the left operand is that of the value on top, which goes.
    Top,
}

/// What the low byte of the accumulator gets.
#[derive(Clone, Copy, PartialEq, Eq)]
pub enum LowByte {
    /// That of a number.
    Constant(u16),
    /// What is read at a place; as many bytes after a place as the accumulator says; at the address in it.
    Load(Place),
    LoadAt(Place),
    LoadThere,
    /// What is read from the port in the accumulator; from a port.
    Receive,
    ReceiveFrom(u16),
    /// The accumulator's high byte.
    High,
    /// The value of an operator on low bytes.
    Operate(Direct, Right),
}

/// What becomes of the high byte.
#[derive(Clone, Copy, PartialEq, Eq)]
pub enum High {
    /// It stays: that of the accumulator, or of the value that was on top.
    Kept,
    /// It becomes 0.
    Cleared,
}

/// What a conditional jump asks.
#[derive(Clone, Copy, PartialEq, Eq)]
pub enum Test {
    /// Whether the accumulator is odd.
    Odd,
    /// Whether the accumulator stands in a relation to a constant.
    Constant(Relation, u16),
    /// Whether it stands in a relation to what is read with this width at a place.
    Plain(Relation, Width, Place),
    /// Whether the value on top, which goes, stands in a relation to the accumulator.
    Top(Relation),
    /// Whether low bytes stand in a relation.
    Low(Relation, Right),
    /// Whether what is read with this width at a place stands in a relation to a constant's low bits of that width.
    Named(Relation, Width, Place, u16),
    /// Whether the byte at a place is odd.
    OddNamed(Place),
}

/// An instruction. A value of 8 bits stands in the accumulator and on the stack with a high byte of 0, unless a `Low` has kept the
/// one that was there. An address is an offset in the segment of the RAM objects or, for a `Place` on the screen, in the screen's.
#[derive(Clone, Copy, PartialEq, Eq)]
pub enum Instruction {
    /// The accumulator gets a value.
    Constant(u16),
    /// It gets the address of a place.
    Locate(Place),
    /// It gets the address that lies as many bytes after a place as it says.
    LocateAt(Place),
    /// It gets what is read at a place; as many bytes after a place as it says; at the address in it.
    Load(Width, Place),
    LoadAt(Width, Place),
    LoadThere(Width),
    /// The low byte of the accumulator gets something, and the high byte stays or becomes 0.
    Low(LowByte, High),
    /// The accumulator is pushed.
    Push,
    /// The accumulator gets the value that this number of words lie on, which stays.
    Pick(usize),
    /// This number of words go from the top.
    Drop(usize),
    /// An operator on the accumulator.
    Unary(UnaryOperation, Width),
    /// An operator on the value on top, which goes, and the accumulator; on the accumulator and a constant; on it and what is
    /// read with the second width at a place.
    Binary(BinaryOperation, Width),
    BinaryConstant(BinaryOperation, Width, u16),
    BinaryPlain(BinaryOperation, Width, Width, Place),
    /// The accumulator is written at a place, and stays as it is.
    Store(Width, Place),
    /// The value on top, which goes, is written, as many bytes after a place as the accumulator says, or at the address in it;
    /// the accumulator gets the value.
    StoreAt(Width, Place),
    StoreThere(Width),
    /// A constant is written as many bytes after a place as the accumulator says; the accumulator gets the constant.
    StoreConstantAt(Width, Place, u16),
    /// The value on top, which goes, is written at a place; the accumulator stays as it is.
    StoreTop(Width, Place),
    /// The value on top, which goes, is written to the port in the accumulator, which gets the value; the accumulator, which stays
    /// as it is, to a port.
    Send(Width),
    SendTo(Width, u16),
    /// The accumulator gets what is read from the port in it; from a port.
    Receive(Width),
    ReceiveFrom(Width, u16),
    /// On over this number of instructions of the same routine; there unless a test holds.
    Ahead(usize),
    AheadUnless(Test, usize),
    /// Back over this number of them, this one among them; there unless a test holds.
    Back(usize),
    BackUnless(Test, usize),
    /// The end of a round: a step is added to the accumulator, and the low bits of the sum are written at a place and take the place of
    /// the accumulator's. Back as above unless they are below the step: the sum then left the range of this width.
    Next(Width, Place, u16, usize),
    /// On by one of the cases that follow, of this number, which the accumulator counts from 0, or past them all.
    Switch(usize),
    /// A case of a `Switch`: on from it over this number of instructions. It is no instruction of its own.
    Case(usize),
    /// A procedure is called, by its number; it leaves for where it was called.
    Invoke(usize),
    Leave,
    Enable,
    Disable,
    Halt,
    /// An interrupt procedure is used up.
    Finish,
}
