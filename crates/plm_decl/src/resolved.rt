//! Statements and expressions whose names are resolved.
//!
//! Each node keeps the places at which a fault of its types or a bad step may stand. The module is that of the procedure,
//! or of main, that the statement belongs to.

use crate::builtin::Builtin;
use crate::layout::Member;
use plm_syntax::{BinaryOperator, LocationForm, Numeral, Position, UnaryOperator};

/// What a name stands for where it is used.
#[derive(Clone, Copy)]
pub enum Binding {
    /// A variable, by its number.
    Variable(usize),
    /// A procedure, by its number.
    Procedure(usize),
    Builtin(Builtin),
    /// Nothing: the name is not declared. Names that are answered hold none of these.
    Nothing,
}

/// An expression.
#[derive(Drop)]
#[cycle(resolved)]
pub enum Expression {
    Number(Numeral),
    /// A string's characters.
    Text(Position, Vec<u8>),
    Reference(Reference),
    Location(Location),
    /// `( e )`, with the place of the parenthesis.
    Parenthesised(Position, Box<Expression>),
    /// `( x := e )`, with the place of the parenthesis.
    Embedded(Position, Reference, Box<Expression>),
    Unary(Position, UnaryOperator, Box<Expression>),
    /// `a + b - c`: operators of one precedence from left to right. They lean left, as `(a + b) - c` does.
    Chain {
        first: Box<Expression>,
        others: Vec<Operation>,
    },
}

/// An operator between operands, where it stands, and its right operand.
#[derive(Drop)]
#[cycle(resolved)]
pub struct Operation {
    pub place: Position,
    pub operator: BinaryOperator,
    pub operand: Expression,
}

/// A name that is used, with its subscripts or arguments, none where it has no parentheses, and its member.
#[derive(Drop)]
#[cycle(resolved)]
pub struct Reference {
    pub place: Position,
    pub binding: Binding,
    pub subscripts: Vec<Expression>,
    pub selector: Selector,
}

/// The member after a reference's period, and its place: none where the name stands for no structure.
#[derive(Drop)]
#[cycle(resolved)]
pub enum Selector {
    None,
    Member(Position, Option<Member>),
    Element(Position, Option<Member>, Box<Expression>),
}

/// A location, with the place of its `@` or `.`: of a reference, or of constant bytes, by the number of their object.
#[derive(Drop)]
#[cycle(resolved)]
pub enum Location {
    Reference(Position, LocationForm, Reference),
    Constants(Position, LocationForm, usize),
}

/// A statement, with the place of its first token after its labels (an assignment's is that of its first target).
#[derive(Drop)]
#[cycle(resolved_statement)]
pub enum Statement {
    Empty(Position),
    Assign(Vec<Reference>, Expression),
    Call(Position, Reference),
    Return(Position),
    ReturnValue(Position, Expression),
    Enable(Position),
    Disable(Position),
    Halt(Position),
    If(Position, Expression, Box<Statement>),
    IfElse(Position, Expression, Box<Statement>, Box<Statement>),
    Do(Position, Vec<Statement>),
    While(Position, Expression, Vec<Statement>),
    Case(Position, Expression, Vec<Statement>),
    /// `DO i = a TO b [BY s]`, with the place of the index. What stands before the statements is in a box: three expressions in it
    /// would make each statement as large.
    Iterate(Position, Position, Box<Bounds>, Vec<Statement>),
}

/// What stands before the statements of a DO with an index: what its index means, its first and last value, and the step.
#[derive(Drop)]
pub struct Bounds {
    pub binding: Binding,
    pub from: Expression,
    pub to: Expression,
    pub step: Option<Expression>,
}
