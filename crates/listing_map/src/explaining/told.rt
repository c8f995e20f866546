//! What is told of a fault: where the mark stands, and the sentence.

ghost use Rattle.std.specs.Prelude.{◌≡◌, None};

use crate::explaining::pieces::Piece;
use crate::explaining::sentence::{Part, sentence};
use crate::noted::Noted;
use std::alloc::Global;

/// How many bytes of the faulty line stand before what is marked, and how many are marked.
#[derive(Clone, Copy, PartialEq, Eq)]
pub(crate) struct Mark {
    pub column: usize,
    pub width: usize,
}

/// A mark, if one token or word is meant, and the sentence.
#[derive(Drop)]
pub(crate) struct Told {
    pub mark: Option<Mark>,
    pub help: Noted<u8>,
}

impl Mark {
    /// Under a piece.
    pub fn under(piece: &Piece<'_>) -> Mark {
        Mark {
            column: piece.column,
            width: piece.text.len(),
        }
    }
}

/// A sentence, at a piece if there is one.
pub(crate) fn tell_so(piece: Option<Piece<'_>>, help: Noted<u8>) -> Told
    ensures { piece.entry ≡ None → result.mark ≡ None }
{
    Told {
        mark: match piece {
            Some(piece) => Some(Mark::under(&piece)),
            None => None,
        },
        help,
    }
}

/// These parts, at a piece if there is one.
pub(crate) fn tell(alloc: Global, piece: Option<Piece<'_>>, parts: &[Part<'_>]) -> Told
    ensures { piece.entry ≡ None → result.mark ≡ None }
{
    tell_so(piece, sentence(alloc, parts))
}
