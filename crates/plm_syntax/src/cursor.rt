//! Where the parser stands.

ghost use Rattle.std.specs.Prelude.{◌+◌, ◌<◌, ◌^◌, length};

use plm_token::Token;

/// The tokens that are left, and the number of the first of them.
#[derive(Clone, Copy)]
pub(crate) struct Cursor<'t, 'a> {
    pub tokens: &'t [Token<'a>],
    pub number: u32,
    ghost numbered: { number + length tokens.now < 2 ^ 32 },
}
