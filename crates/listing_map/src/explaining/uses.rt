//! What tokens are for.

use plm_token::{Keyword, Kind, Mark};

/// What a token is for.
#[derive(Clone, Copy)]
pub(crate) enum Use {
    /// It begins an operand.
    Operand,
    /// It begins an operand, or a statement.
    Name,
    /// It stands between operands, or before one.
    Sign,
    /// It stands between operands.
    Operator,
    /// It compares.
    Relation,
    /// It begins a statement.
    Statement,
    /// It names a type.
    Type,
    /// It says more of what is declared.
    Attribute,
    /// It stands behind DO, where a name or a number might be meant.
    Head,
    /// The profile leaves it out.
    LeftOut,
    Other,
}

fn use_of_word(word: Keyword) -> Use {
    match word {
        Keyword::Not => Use::Operand,
        Keyword::And | Keyword::Or | Keyword::Xor | Keyword::Mod => Use::Operator,
        Keyword::Call | Keyword::Return | Keyword::If | Keyword::Do => Use::Statement,
        Keyword::Enable | Keyword::Disable | Keyword::Halt => Use::Statement,
        Keyword::Byte | Keyword::Word | Keyword::Address | Keyword::Integer => Use::Type,
        Keyword::Pointer | Keyword::Structure => Use::Type,
        Keyword::At | Keyword::Based | Keyword::Data | Keyword::Initial => Use::Attribute,
        Keyword::External | Keyword::Public | Keyword::Interrupt => Use::Attribute,
        Keyword::By | Keyword::Case | Keyword::To => Use::Head,
        Keyword::Dword | Keyword::Real | Keyword::Selector | Keyword::Label => Use::LeftOut,
        Keyword::Go | Keyword::Goto | Keyword::Reentrant => Use::LeftOut,
        Keyword::Minus | Keyword::Plus => Use::LeftOut,
        Keyword::Declare | Keyword::Literally | Keyword::Procedure => Use::Other,
        Keyword::Else | Keyword::End | Keyword::Then | Keyword::While => Use::Other,
    }
}

fn use_of_mark(mark: Mark) -> Use {
    match mark {
        Mark::LeftParenthesis | Mark::Period | Mark::AtSign => Use::Operand,
        Mark::Plus | Mark::Minus => Use::Sign,
        Mark::Star | Mark::Slash => Use::Operator,
        Mark::Equal
        | Mark::NotEqual
        | Mark::Less
        | Mark::LessEqual
        | Mark::Greater
        | Mark::GreaterEqual => Use::Relation,
        Mark::Semicolon => Use::Statement,
        Mark::Assign | Mark::RightParenthesis | Mark::Comma | Mark::Colon => Use::Other,
    }
}

/// What a token of this kind is for.
pub(crate) fn use_of(kind: Kind) -> Use {
    match kind {
        Kind::Identifier => Use::Name,
        Kind::Numeral(_) | Kind::String => Use::Operand,
        Kind::Reserved(word) => use_of_word(word),
        Kind::Special(mark) => use_of_mark(mark),
    }
}

impl Use {
    /// Whether it begins an operand.
    pub fn begins_operand(self) -> bool {
        match self {
            Use::Operand | Use::Name | Use::Sign => true,
            Use::Operator
            | Use::Relation
            | Use::Statement
            | Use::Type
            | Use::Attribute
            | Use::Head
            | Use::LeftOut
            | Use::Other => false,
        }
    }

    /// Whether it is for an operator that does not compare.
    pub fn is_other_operator(self) -> bool {
        match self {
            Use::Sign | Use::Operator => true,
            Use::Operand
            | Use::Name
            | Use::Relation
            | Use::Statement
            | Use::Type
            | Use::Attribute
            | Use::Head
            | Use::LeftOut
            | Use::Other => false,
        }
    }

    /// Whether it begins a statement.
    pub fn begins_statement(self) -> bool {
        match self {
            Use::Name | Use::Statement => true,
            Use::Operand
            | Use::Sign
            | Use::Operator
            | Use::Relation
            | Use::Type
            | Use::Attribute
            | Use::Head
            | Use::LeftOut
            | Use::Other => false,
        }
    }

    /// Whether beginners take such a word for a name.
    pub fn is_like_a_name(self) -> bool {
        match self {
            Use::Type | Use::Attribute | Use::Head => true,
            Use::Operand
            | Use::Name
            | Use::Sign
            | Use::Operator
            | Use::Relation
            | Use::Statement
            | Use::LeftOut
            | Use::Other => false,
        }
    }
}
