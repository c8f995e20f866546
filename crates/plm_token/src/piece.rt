//! What stands at the front of a text.

use crate::token::Kind;
use word86::Number;

/// What the text before tells of the piece that follows.
#[derive(Clone, Copy)]
pub enum ScanState {
    /// It stands in the first column of a line, where a dollar sign begins a control line.
    FirstColumn,
    /// It stands after another piece of its line.
    Within,
    /// It stands in the text of a literal, which has no control lines and no strings.
    Literal,
}

impl ScanState {
    ghost use Rattle.std.specs.Prelude.{◌≡◌};
    ghost use Rattle.plm_token.specs.Forms.{is_literal};

    /// Whether it is that of a literal's text.
    pub fn is_literal(self) -> bool
        ensures { result ≡ is_literal self }
    {
        matches!(self, ScanState::Literal)
    }
}

/// What the characters at the front of a text are.
#[derive(Clone, Copy)]
pub enum Piece {
    /// A blank, a comment or a control line.
    Skipped,
    /// A token.
    Token(Kind),
    /// No piece of the language.
    Fault(Number),
}

/// A piece, and how many bytes it has.
#[derive(Clone, Copy)]
pub struct Front {
    pub piece: Piece,
    pub length: usize,
}
