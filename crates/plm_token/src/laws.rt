//! Laws of the pieces of a text, for those above: each is a call that does nothing, and its contract is the law.

ghost use Rattle.std.specs.Prelude.{◌≡◌, ℕ};
ghost use Rattle.plm_token.specs.declared.piece.ScanState.{ScanState};
ghost use Rattle.plm_token.specs.Pieces.{front_of, pieces};
ghost use Rattle.plm_token.specs.Laws.{IsLongest, InOrder, characters_of};

/// The piece at the front of a text is the longest that stands there.
pub fn front_is_longest(text: &[u8])
    ensures { (state : ScanState) → IsLongest state text.now (front_of state text.now) }
{}

/// The pieces of a text follow one another: the one at its front, then those of what is left.
pub fn pieces_in_order(text: &[u8])
    ensures { (state : ScanState) (line : ℕ) → InOrder state line text.now }
{}

/// The pieces of a text have all its characters, in order.
pub fn pieces_cover(text: &[u8])
    ensures { (state : ScanState) (line : ℕ) → characters_of (pieces state line text.now) ≡ text.now }
{}
