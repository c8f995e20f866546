//! Tokens: the pieces of a text that the grammar sees.

/// A word that the language reserves. It is no identifier, also where the grammar has no use for it.
#[derive(Clone, Copy, PartialEq, Eq)]
pub enum Keyword {
    Address,
    And,
    At,
    Based,
    By,
    Byte,
    Call,
    Case,
    Data,
    Declare,
    Disable,
    Do,
    Dword,
    Else,
    Enable,
    End,
    External,
    Go,
    Goto,
    Halt,
    If,
    Initial,
    Integer,
    Interrupt,
    Label,
    Literally,
    Minus,
    Mod,
    Not,
    Or,
    Plus,
    Pointer,
    Procedure,
    Public,
    Real,
    Reentrant,
    Return,
    Selector,
    Structure,
    Then,
    To,
    While,
    Word,
    Xor,
}

/// A special token of one or two characters.
#[derive(Clone, Copy, PartialEq, Eq)]
pub enum Mark {
    /// `=`
    Equal,
    /// `.`
    Period,
    /// `/`
    Slash,
    /// `(`
    LeftParenthesis,
    /// `)`
    RightParenthesis,
    /// `+`
    Plus,
    /// `-`
    Minus,
    /// `*`
    Star,
    /// `,`
    Comma,
    /// `<`
    Less,
    /// `>`
    Greater,
    /// `:`
    Colon,
    /// `;`
    Semicolon,
    /// `@`
    AtSign,
    /// `<>`
    NotEqual,
    /// `<=`
    LessEqual,
    /// `>=`
    GreaterEqual,
    /// `:=`
    Assign,
}

/// What a token is.
#[derive(Clone, Copy, PartialEq, Eq)]
pub enum Kind {
    /// A reserved word.
    Reserved(Keyword),
    /// Any other name.
    Identifier,
    /// A number, with its value: 0 to 0FFFFFH.
    Numeral(u32),
    /// A string between apostrophes.
    String,
    /// A special token.
    Special(Mark),
}

/// A token: what it is, the slice of the source that spells it, and the line on which it begins, counted from 1.
///
/// A string's slice has its apostrophes, and a doubled one is still two bytes: `string_value` gives what it stands
/// for. A name is written in any case and with dollar signs: `same_name` compares two as the language does.
#[derive(Clone, Copy)]
pub struct Token<'a> {
    pub kind: Kind,
    pub text: &'a [u8],
    pub line: u32,
}
