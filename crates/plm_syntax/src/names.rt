//! Numbers for names, by which they are compared without their letters.

ghost use Rattle.std.specs.Prelude.{◌≡◌, true, length, take, IfOk, IfErr, IfSome};
ghost use Rattle.word86.specs.declared.fault.Fault.TheVariants.{Memory};
ghost use Rattle.plm_syntax.specs.Literals.{is_identifier};
ghost use Rattle.plm_syntax.specs.Inner.NamedToken.{named_symbol, IsSameName};
ghost use Rattle.plm_syntax.specs.Inner.Names.{names_in, is_number, has_number};

use crate::named_token::NamedToken;
use plm_token::Kind;
use std::alloc::Global;
use std::collections::HashMap;
use word86::Fault;

/// A token that had a name first.
#[derive(Clone, Copy)]
pub struct FirstToken<'t, 'a> {
    pub token: &'t NamedToken<'a>,
}

/// Names by their numbers, each as the first token that had it, and what number each had last.
///
/// `numbers` is a guess that the token confirms: so it may say anything.
#[derive(Drop)]
pub struct Names<'t, 'a> {
    pub tokens: Vec<FirstToken<'t, 'a>>,
    pub numbers: HashMap<&'t [u8], usize>,
}

pub(crate) fn is_identifier(kind: Kind) -> bool
    ensures { result ≡ is_identifier kind }
{
    matches!(kind, Kind::Identifier)
}

/// Whether two tokens are identifiers of one name.
fn has_same_name(a: &NamedToken<'_>, b: &NamedToken<'_>) -> bool
    ensures { result ≡ true → IsSameName (named_symbol a.now) (named_symbol b.now) }
{
    is_identifier(a.token.kind)
        && is_identifier(b.token.kind)
        && a.name.letters() == b.name.letters()
}

impl<'t, 'a> Names<'t, 'a> {
    /// No names.
    pub(crate) fn new(alloc: Global) -> Self {
        Names {
            tokens: Vec::new(alloc),
            numbers: HashMap::new(alloc),
        }
    }

    /// The number of a token's name, if it has one.
    fn find(&self, token: &NamedToken<'_>) -> Option<usize>
        ensures { IfSome result (λ n. is_number (names_in self.now) n (named_symbol token.now) ≡ true) }
    {
        let number = *self.numbers.get(token.name.letters())?;
        let first = self.tokens.get(number)?.token;
        if has_same_name(first, token) {
            Some(number)
        } else {
            None
        }
    }

    /// The number of a token's name, if it is an identifier; a new name has the next number.
    pub(crate) fn number(&mut self, token: &'t NamedToken<'a>) -> Result<Option<usize>, Fault>
        ensures number { IfOk result (λ r. has_number (names_in self.new) (named_symbol token.now) r ≡ true) }
        ensures kept { take (length (names_in self.old)) (names_in self.new) ≡ names_in self.old }
        ensures err { IfErr result (λ f. f ≡ Memory) }
    {
        if !is_identifier(token.token.kind) {
            return Ok(None);
        }
        if let Some(number) = self.find(token) {
            return Ok(Some(number));
        }
        let number = self.tokens.len();
        self.tokens.push(FirstToken { token })?;
        self.numbers.insert(token.name.letters(), number)?;
        Ok(Some(number))
    }
}
