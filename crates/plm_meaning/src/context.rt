//! What a context (main, or an interrupt procedure) has still to do: a focus, and the frames around it.

use crate::access::Origin;
use plm_type::{Expression, Line, Loop, Operation, Place, Scalar, Statement, Subscript, Target};
use word86::{BinaryOperation, UnaryOperation, Width};

/// What a value is stored for: the rest of an assignment, or an embedded one.
#[derive(Clone, Copy)]
pub enum Destination<'a> {
    /// The value, and the targets that come next.
    Assigned(u16, &'a [Target]),
    Embedded(u16),
}

/// What a reference is evaluated for.
#[derive(Clone, Copy)]
pub enum Purpose<'a> {
    Read(Width),
    Locate,
    Store(Width, Destination<'a>),
}

/// What comes after the statements of a block or a round.
#[derive(Clone, Copy)]
pub enum Later<'a> {
    /// The end of a block.
    Leaving,
    /// A DO WHILE begins its test again.
    While(&'a Expression, &'a [Box<Statement>]),
    /// A DO with an index goes on to its step.
    Next(&'a Loop),
}

/// Where an expression stands that is evaluated first: what stands around it.
#[derive(Clone, Copy)]
pub enum Hole<'a> {
    Unary(UnaryOperation, Width),
    /// The left operand of an operation, before others of its level.
    Left(&'a Operation, &'a [Operation]),
    /// The right operand, with the value of the left one.
    Right(u16, &'a Operation, &'a [Operation]),
    Embedded(&'a Target),
    Input(Width),
    /// A subscript of a reference: its element's size, and the subscripts after it.
    Subscript(Purpose<'a>, Line, plm_type::Anchor, u64, u64, &'a [Subscript]),
    Port(Width, Destination<'a>),
    Assign(&'a Target, &'a [Target]),
    ReturnValue(Width),
    If(&'a [Box<Statement>], &'a [Box<Statement>]),
    While(&'a Expression, &'a [Box<Statement>]),
    Case(&'a [Box<Statement>]),
    Iterate(&'a Loop),
    Comparing(u16, &'a Loop),
    Stepping(&'a Loop),
}

/// What stands around a part that is evaluated first.
#[derive(Drop)]
pub enum Frame<'a> {
    Hole(Hole<'a>),
    /// A CALL: a value is dropped.
    Evaluate,
    /// An argument, with the values of those before it.
    Argument(usize, Vec<u16>, &'a [Expression]),
    /// The body of a call.
    Running,
    /// Statements come after.
    Behind(&'a [Box<Statement>]),
    Later(Later<'a>),
}

/// Where a DO with an index stands.
#[derive(Clone, Copy)]
pub enum Phase {
    /// The index gets its first value.
    Begin(u16),
    /// A round begins: the index is read.
    Round,
    /// The index is compared with the bound.
    Comparing(u16, u16),
    /// After the body, with the step: the index is read.
    Stepping(u16),
    /// The step is added to the index.
    Adding(u16, u16),
    /// The index gets the sum, which leaves its range or not.
    Storing(u32, bool),
    /// The loop ends where the sum left the range of the index.
    Ending(bool),
}

/// The part that is rewritten next: all that it needs has its value.
#[derive(Clone, Copy)]
pub enum Redex<'a> {
    Constant(u16),
    Plain(Width, Place),
    /// A based reference whose base has not been read.
    Base(Purpose<'a>, Line, Place, u64),
    Refer(Purpose<'a>, Line, Origin, u64),
    Unary(UnaryOperation, Width, u16),
    Binary(Line, BinaryOperation, Width, u16, u16),
    Store(Width, Place, Destination<'a>),
    Input(Width, u16),
    Output(Width, u16, Destination<'a>),
    /// A call whose body is at its end, or has returned a value.
    Ended,
    Given(u16),
    Empty,
    Return,
    ReturnValue(Width, u16),
    Enable,
    Disable,
    Halt,
    If(u16, &'a [Box<Statement>], &'a [Box<Statement>]),
    Block(&'a [Box<Statement>]),
    Leaving,
    While(u16, &'a Expression, &'a [Box<Statement>]),
    Case(u16, &'a [Box<Statement>]),
    Loop(Phase, &'a Loop),
}

/// The innermost part.
#[derive(Drop)]
pub enum Focus<'a> {
    Expression(&'a Expression),
    Value(u16),
    Statements(&'a [Box<Statement>]),
    Statement(&'a Statement),
    /// What a RETURN leaves.
    Returned(u16),
    /// Statements, and what comes after them.
    Within(Later<'a>, &'a [Box<Statement>]),
    /// The body of a call begins.
    Entering(&'a [Box<Statement>]),
    /// An index that is compared with a bound.
    Bound(u16, &'a Loop),
    /// A target of a value.
    Aim(&'a Target, Destination<'a>),
    /// A call whose arguments have their values.
    Call(usize, Vec<u16>),
    /// The parameters that are left, the values, and how many of them are stored.
    Passing(usize, &'a [Scalar], Vec<u16>, usize),
    Ready(Redex<'a>),
}

/// What a context has still to do.
#[derive(Drop)]
pub struct Context<'a> {
    pub focus: Focus<'a>,
    pub frames: Vec<Frame<'a>>,
}
