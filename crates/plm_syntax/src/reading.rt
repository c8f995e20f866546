//! The tokens that come next.

ghost use Rattle.std.specs.Prelude.{◌≡◌, length, Ok};
ghost use Rattle.plm_syntax.specs.declared.failure.Failure.TheVariants.{Refused};
ghost use Rattle.plm_syntax.specs.Terminal.{key_number};
ghost use Rattle.plm_syntax.specs.Inner.Parsed.{has_mark, has_keyword, IsNext, IsMark, IsKeyword, IsName, IsNumber, IsText, PassesMark, PassesKeyword, PassesName, PassesNumber, Closes, ClosesWord, Finishes, IsDown};

use crate::cursor::Cursor;
use crate::failure::Failure;
use crate::tree::{Name, Numeral, Position, Text};
use plm_token::{Keyword, Kind, Mark, Token};

fn has_mark(kind: Kind, mark: Mark) -> bool
    ensures { result ≡ has_mark mark kind }
{
    kind == Kind::Special(mark)
}

/// A reserved word's number in the order of the alphabet.
fn number_of(keyword: Keyword) -> u8
    ensures { result ≡ key_number keyword }
{
    keyword as u8
}

fn has_keyword(kind: Kind, keyword: Keyword) -> bool
    ensures { result ≡ has_keyword keyword kind }
{
    match kind {
        Kind::Reserved(found) => number_of(keyword) == number_of(found),
        Kind::Identifier | Kind::Numeral(_) | Kind::String | Kind::Special(_) => false,
    }
}

impl<'t, 'a> Cursor<'t, 'a> {
    /// The next token, its place, and what is left after it.
    pub fn next(self) -> Option<(Token<'a>, Position, Cursor<'t, 'a>)>
        ensures { IsNext self.entry result }
    {
        match self.tokens {
            [first, rest @ ..] => {
                let place = Position {
                    token: self.number,
                    line: first.line,
                };
                Some((
                    *first,
                    place,
                    Cursor {
                        tokens: rest,
                        number: self.number + 1,
                    },
                ))
            }
            [] => None,
        }
    }

    /// A special token where it comes next, and what is left after it.
    pub fn mark(self, mark: Mark) -> Option<(Position, Cursor<'t, 'a>)>
        ensures { IsMark mark self.entry result }
    {
        let (token, place, rest) = self.next()?;
        if has_mark(token.kind, mark) {
            Some((place, rest))
        } else {
            None
        }
    }

    /// The same of a reserved word.
    pub fn keyword(self, keyword: Keyword) -> Option<(Position, Cursor<'t, 'a>)>
        ensures { IsKeyword keyword self.entry result }
    {
        let (token, place, rest) = self.next()?;
        if has_keyword(token.kind, keyword) {
            Some((place, rest))
        } else {
            None
        }
    }

    /// The same of a name.
    pub fn name(self) -> Option<(Name<'a>, Cursor<'t, 'a>)>
        ensures { IsName self.entry result }
    {
        let (token, place, rest) = self.next()?;
        match token.kind {
            Kind::Identifier => Some((
                Name {
                    text: token.text,
                    place,
                },
                rest,
            )),
            Kind::Reserved(_) | Kind::Numeral(_) | Kind::String | Kind::Special(_) => None,
        }
    }

    /// The same of a number.
    pub fn numeral(self) -> Option<(Numeral, Cursor<'t, 'a>)>
        ensures { IsNumber self.entry result }
    {
        let (token, place, rest) = self.next()?;
        match token.kind {
            Kind::Numeral(value) => Some((Numeral { value, place }, rest)),
            Kind::Reserved(_) | Kind::Identifier | Kind::String | Kind::Special(_) => None,
        }
    }

    /// The same of a string.
    pub fn text(self) -> Option<(Text<'a>, Cursor<'t, 'a>)>
        ensures { IsText self.entry result }
    {
        let (token, place, rest) = self.next()?;
        match token.kind {
            Kind::String => Some((
                Text {
                    text: token.text,
                    place,
                },
                rest,
            )),
            Kind::Reserved(_) | Kind::Identifier | Kind::Numeral(_) | Kind::Special(_) => None,
        }
    }

    /// The refusal of the next token.
    pub fn refuse(self) -> Failure
        ensures { result ≡ Refused (length self.entry.tokens.now) }
    {
        Failure::Refused(self.tokens.len())
    }

    /// What is left after a special token that has to come next.
    pub fn expect_mark(self, mark: Mark) -> Result<Cursor<'t, 'a>, Failure>
        ensures { PassesMark mark self.entry result }
    {
        match self.mark(mark) {
            Some((_, rest)) => Ok(rest),
            None => Err(self.refuse()),
        }
    }

    /// The same of a reserved word.
    pub fn expect_keyword(self, keyword: Keyword) -> Result<Cursor<'t, 'a>, Failure>
        ensures { PassesKeyword keyword self.entry result }
    {
        match self.keyword(keyword) {
            Some((_, rest)) => Ok(rest),
            None => Err(self.refuse()),
        }
    }

    /// A value, and what is left after the special token that has to come next.
    pub fn close<T: Drop>(self, value: T, mark: Mark) -> Result<(T, Cursor<'t, 'a>), Failure>
        ensures { Closes mark (Ok (value, self.entry)) result }
    {
        let rest = self.expect_mark(mark)?;
        Ok((value, rest))
    }

    /// A value, and what is left after the reserved word that has to come next.
    pub fn close_word<T: Drop>(
        self,
        value: T,
        keyword: Keyword,
    ) -> Result<(T, Cursor<'t, 'a>), Failure>
        ensures { ClosesWord keyword value self.entry result }
    {
        let rest = self.expect_keyword(keyword)?;
        Ok((value, rest))
    }

    /// A name that has to come next, and what is left after it.
    pub fn expect_name(self) -> Result<(Name<'a>, Cursor<'t, 'a>), Failure>
        ensures { PassesName self.entry result }
    {
        match self.name() {
            Some(found) => Ok(found),
            None => Err(self.refuse()),
        }
    }

    /// A number that has to come next, and what is left after it.
    pub fn expect_number(self) -> Result<(Numeral, Cursor<'t, 'a>), Failure>
        ensures { PassesNumber self.entry result }
    {
        match self.numeral() {
            Some(found) => Ok(found),
            None => Err(self.refuse()),
        }
    }

    /// A value, where no token is left.
    pub fn finish<T: Drop>(self, value: T) -> Result<T, Failure>
        ensures { Finishes value self.entry result }
    {
        match self.next() {
            None => Ok(value),
            Some(_) => Err(self.refuse()),
        }
    }

    /// How many levels may be opened inside one more, which the token before this place opens.
    pub fn level_down(self, room: u8) -> Result<u8, Failure>
        ensures { IsDown room self.entry result }
    {
        if room == 0 {
            Err(Failure::Deep(self.tokens.len() + 1))
        } else {
            Ok(room - 1)
        }
    }
}
