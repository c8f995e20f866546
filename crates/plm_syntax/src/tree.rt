//! The syntax tree of a module.

/// Where a token stands: its number among the module's tokens once literals are replaced, from 0, and its line, from 1.
#[derive(Clone, Copy)]
pub struct Position {
    pub token: u32,
    pub line: u32,
}

/// What a scalar's bytes are.
#[derive(Clone, Copy)]
pub enum Scalar {
    Byte,
    Word,
    /// Another word for `Word`.
    Address,
    Pointer,
    Integer,
}

/// An operator before its operand.
#[derive(Clone, Copy)]
pub enum UnaryOperator {
    Plus,
    Minus,
    Not,
}

/// An operator between its operands.
#[derive(Clone, Copy)]
pub enum BinaryOperator {
    Multiply,
    Divide,
    Modulo,
    Add,
    Subtract,
    Equal,
    NotEqual,
    Less,
    LessEqual,
    Greater,
    GreaterEqual,
    And,
    Or,
    ExclusiveOr,
}

/// `@X`, the location of X, or `.X`, its offset.
#[derive(Clone, Copy)]
pub enum LocationForm {
    Pointer,
    Offset,
}

/// A name where it stands, as the text spells it: in any case, with dollar signs.
#[derive(Clone, Copy)]
pub struct Name<'a> {
    pub text: &'a [u8],
    pub place: Position,
}

/// A number, 0 to 0FFFFFH, where it stands.
#[derive(Clone, Copy)]
pub struct Numeral {
    pub value: u32,
    pub place: Position,
}

/// A string where it stands, with its apostrophes; a doubled one is still two bytes.
#[derive(Clone, Copy)]
pub struct Text<'a> {
    pub text: &'a [u8],
    pub place: Position,
}

/// An expression: operators stand by precedence, those of one precedence in a chain, parentheses are nodes.
#[derive(Drop)]
#[cycle(expression)]
pub enum Expression<'a> {
    Numeral(Numeral),
    Text(Text<'a>),
    Reference(Reference<'a>),
    Location(Location<'a>),
    /// `( e )`, with the place of the parenthesis.
    Parenthesised(Position, Box<Expression<'a>>),
    /// `( x := e )`, with the place of the parenthesis.
    Embedded(Position, Reference<'a>, Box<Expression<'a>>),
    Unary(Position, UnaryOperator, Box<Expression<'a>>),
    /// `a + b - c`: operators of one precedence from left to right, one at least. They lean left, as `(a + b) - c` does.
    Chain {
        first: Box<Expression<'a>>,
        others: Vec<Operation<'a>>,
    },
}

/// An operator between operands, where it stands, and its right operand.
#[derive(Drop)]
#[cycle(expression)]
pub struct Operation<'a> {
    pub place: Position,
    pub operator: BinaryOperator,
    pub operand: Expression<'a>,
}

/// A name with its subscripts or arguments, none where it has no parentheses, and its member.
#[derive(Drop)]
#[cycle(expression)]
pub struct Reference<'a> {
    pub name: Name<'a>,
    pub subscripts: Vec<Expression<'a>>,
    pub selector: Selector<'a>,
}

/// What stands after a reference's period.
#[derive(Drop)]
#[cycle(expression)]
pub enum Selector<'a> {
    None,
    Member(Name<'a>),
    Element(Name<'a>, Box<Expression<'a>>),
}

/// A location, with the place of its `@` or `.`: of a reference, or of constant bytes.
#[derive(Drop)]
#[cycle(expression)]
pub enum Location<'a> {
    Reference(Position, LocationForm, Reference<'a>),
    Constants(Position, LocationForm, Vec<Value<'a>>),
}

/// A value of INITIAL, DATA or a list of constants.
#[derive(Drop)]
#[cycle(expression)]
pub enum Value<'a> {
    Numeral(Numeral),
    Negative(Numeral),
    Text(Text<'a>),
    Location(Location<'a>),
}

/// A declared variable, and its base.
#[derive(Clone, Copy)]
pub struct Variable<'a> {
    pub name: Name<'a>,
    pub base: Option<Name<'a>>,
}

/// The names of an element: one, or a list in parentheses.
#[derive(Drop)]
pub enum Declared<'a> {
    One(Variable<'a>),
    List(Vec<Variable<'a>>),
}

/// How many elements a variable has.
#[derive(Clone, Copy)]
pub enum Dimension {
    None,
    Numeral(Numeral),
    /// `(*)`: as many as there are values.
    Implicit,
}

/// The names of a member: one, or a list in parentheses.
#[derive(Drop)]
pub enum MemberNames<'a> {
    One(Name<'a>),
    List(Vec<Name<'a>>),
}

/// A member of a structure, or some of one type.
#[derive(Drop)]
pub struct Member<'a> {
    pub names: MemberNames<'a>,
    pub count: Option<Numeral>,
    pub scalar: Scalar,
}

/// What an element's names are.
#[derive(Drop)]
pub enum VariableType<'a> {
    Scalar(Scalar),
    Structure(Vec<Member<'a>>),
}

/// Where an element is placed.
#[derive(Drop)]
pub enum At<'a> {
    None,
    Numeral(Numeral),
    Location(Location<'a>),
}

/// What fills an element.
#[derive(Drop)]
pub enum Initial<'a> {
    None,
    Initial(Vec<Value<'a>>),
    Data(Vec<Value<'a>>),
}

/// An element's attributes.
#[derive(Drop)]
pub enum Attributes<'a> {
    External,
    Own {
        public: bool,
        at: At<'a>,
        initial: Initial<'a>,
    },
}

/// An element of a declaration.
#[derive(Drop)]
pub enum Element<'a> {
    Literal(Name<'a>, Text<'a>),
    Variable {
        declared: Declared<'a>,
        dimension: Dimension,
        form: VariableType<'a>,
        attributes: Attributes<'a>,
    },
}

/// How a procedure is joined with those of other modules.
#[derive(Clone, Copy)]
pub enum Linkage {
    None,
    Public,
    External,
}

/// A statement after its labels.
#[derive(Drop)]
#[cycle(statement)]
pub struct Statement<'a> {
    pub labels: Vec<Name<'a>>,
    pub basic: Basic<'a>,
}

/// A statement without its labels, with the place of its first token; a group's last part is the name after its END.
#[derive(Drop)]
#[cycle(statement)]
pub enum Basic<'a> {
    Empty(Position),
    Assign(Vec<Reference<'a>>, Expression<'a>),
    Call(Position, Reference<'a>),
    Return(Position),
    ReturnValue(Position, Expression<'a>),
    Enable(Position),
    Disable(Position),
    Halt(Position),
    If(Position, Expression<'a>, Box<Statement<'a>>),
    IfElse(Position, Expression<'a>, Box<Statement<'a>>, Box<Statement<'a>>),
    Do(Position, Block<'a>, Option<Name<'a>>),
    While(Position, Expression<'a>, Vec<Statement<'a>>, Option<Name<'a>>),
    Case(Position, Expression<'a>, Vec<Statement<'a>>, Option<Name<'a>>),
    /// `DO i = a TO b [BY s]`. The values are in a box: three expressions in it would make each statement as large.
    Iterate(Position, Name<'a>, Box<Bounds<'a>>, Vec<Statement<'a>>, Option<Name<'a>>),
}

/// The first and the last value of the index of a DO with an index, and the step.
#[derive(Drop)]
pub struct Bounds<'a> {
    pub first: Expression<'a>,
    pub last: Expression<'a>,
    pub step: Option<Expression<'a>>,
}

/// Declarations and procedures, then statements.
#[derive(Drop)]
#[cycle(statement)]
pub struct Block<'a> {
    pub items: Vec<Item<'a>>,
    pub statements: Vec<Statement<'a>>,
}

/// A declaration, with the place of its DECLARE, or a procedure.
#[derive(Drop)]
#[cycle(statement)]
pub enum Item<'a> {
    Declare(Position, Vec<Element<'a>>),
    Procedure(Procedure<'a>),
}

/// A procedure; its last part is the name after its END.
#[derive(Drop)]
#[cycle(statement)]
pub struct Procedure<'a> {
    pub name: Name<'a>,
    pub parameters: Vec<Name<'a>>,
    pub returned: Option<Scalar>,
    pub interrupt: Option<Numeral>,
    pub linkage: Linkage,
    pub block: Block<'a>,
    pub end: Option<Name<'a>>,
}

/// A module.
#[derive(Drop)]
pub struct Module<'a> {
    pub name: Name<'a>,
    pub block: Block<'a>,
    pub end: Option<Name<'a>>,
}
