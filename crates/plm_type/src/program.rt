//! Statements and expressions whose types are known and whose names stand for places: what the meaning runs, and what is
//! lowered to code.

use word86::{BinaryOperation, Page, Place, UnaryOperation, Width};

/// A module, from 0, and a line of its text, from 1.
#[derive(Debug, Clone, Copy, PartialEq, Eq)]
pub struct Line {
    pub module: usize,
    pub line: u32,
}

/// A scalar that lies at a fixed place: a parameter, or an index.
#[derive(Clone, Copy)]
pub struct Scalar {
    pub width: Width,
    pub place: Place,
}

/// Where a variable's bytes begin, and how many its declaration takes.
#[derive(Clone, Copy, PartialEq, Eq)]
pub enum Anchor {
    /// In a RAM object: its number, the index of the first byte in it, and the size in bytes.
    InObject(usize, u64, u64),
    /// On this page of the screen: how many bytes after the page's first they begin, and the size in bytes.
    OnScreen(Page, u64, u64),
    /// At the address that the base holds.
    Behind(Place),
}

/// An expression. Operands of one precedence are a list, however many they are.
#[derive(Drop)]
#[cycle(program)]
pub enum Expression {
    Constant(u16),
    /// A scalar that lies at a fixed place.
    Plain(Width, Place),
    Variable(Width, Reference),
    /// The address of a variable, or of constant bytes.
    Location(Reference),
    /// With the width of the operand.
    Unary(UnaryOperation, Width, Box<Expression>),
    /// An operand, and operators with their right operands, from left to right.
    Chain(Box<Expression>, Vec<Operation>),
    /// `( t := e )`
    Embedded(Box<Target>, Box<Expression>),
    /// INPUT and INWORD of a port.
    Input(Width, Box<Expression>),
    /// A call of a procedure, by its number, with its arguments.
    Call(usize, Vec<Expression>),
}

/// An operator with its line, the width of its value, and its right operand.
#[derive(Drop)]
#[cycle(program)]
pub struct Operation {
    pub line: Line,
    pub operation: BinaryOperation,
    pub width: Width,
    pub operand: Expression,
}

/// A variable whose place is computed, with the line of its name. Its bytes begin `offset` bytes after its anchor, and after the
/// elements that its subscripts pass over.
#[derive(Drop)]
#[cycle(program)]
pub struct Reference {
    pub line: Line,
    pub anchor: Anchor,
    pub offset: u64,
    pub subscripts: Vec<Subscript>,
}

/// A subscript, and how many bytes an element has.
#[derive(Drop)]
#[cycle(program)]
pub struct Subscript {
    pub stride: u64,
    pub index: Expression,
}

/// What a value is stored to.
#[derive(Drop)]
#[cycle(program)]
pub enum Target {
    Plain(Width, Place),
    Variable(Width, Reference),
    /// OUTPUT and OUTWORD of a port.
    Port(Width, Expression),
}

/// A statement.
#[derive(Drop)]
#[cycle(program_statement)]
pub enum Statement {
    Empty,
    /// The first target, the others, and the value.
    Assign(Target, Vec<Target>, Expression),
    /// CALL: a value is dropped.
    Evaluate(Expression),
    Return,
    ReturnValue(Width, Expression),
    Enable,
    Disable,
    Halt,
    /// The statements of THEN, and those of ELSE.
    If(Expression, Vec<Box<Statement>>, Vec<Box<Statement>>),
    Block(Vec<Box<Statement>>),
    While(Expression, Vec<Box<Statement>>),
    Case(Expression, Vec<Box<Statement>>),
    /// The first value, and the loop. It is in a box: in it each statement would be as large.
    Iterate(Expression, Box<Loop>),
}

/// How the index of a DO counts.
#[derive(Debug, Clone, Copy, PartialEq, Eq)]
pub enum Counting {
    /// A BYTE or WORD, which counts up.
    Up,
    /// An INTEGER, by a step that is not negative.
    SignedUp,
    /// An INTEGER, by a negative step.
    SignedDown,
}

/// A DO with an index: how it counts, the index, the bound, the step, and the body.
#[derive(Drop)]
#[cycle(program_statement)]
pub struct Loop {
    pub counting: Counting,
    pub index: Scalar,
    pub bound: Expression,
    pub step: Expression,
    pub body: Vec<Box<Statement>>,
}

/// A procedure: its parameters in order, and its body.
#[derive(Drop)]
pub struct Procedure {
    pub parameters: Vec<Scalar>,
    pub body: Vec<Box<Statement>>,
}
