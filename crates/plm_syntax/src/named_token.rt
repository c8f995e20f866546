//! Tokens with their names in normal form, which is made once for each.

ghost use Rattle.std.specs.Prelude.{◌≡◌, map, IfOk, IfErr};
ghost use Rattle.word86.specs.declared.fault.Fault.TheVariants.{Memory};
ghost use Rattle.plm_token.specs.Names.{normal};
ghost use Rattle.plm_token.specs.Scanner.{lexeme};
ghost use Rattle.plm_syntax.specs.Inner.Name.{letters_of};

use crate::name::Name;
use plm_token::Token;
use std::alloc::Global;
use word86::Fault;

/// A token, and its text in normal form.
#[derive(Drop)]
pub struct NamedToken<'a> {
    pub token: Token<'a>,
    pub name: Name<'a>,
    ghost in_normal_form: { letters_of name ≡ normal token.text.now },
}

/// The tokens of a literal's text.
#[derive(Drop)]
pub struct LiteralTokens<'a> {
    pub tokens: Vec<NamedToken<'a>>,
}

impl<'a> NamedToken<'a> {
    /// A token with its name.
    pub fn new(alloc: Global, token: Token<'a>) -> Result<Self, Fault>
        ensures ok { IfOk result (λ t. lexeme t.token ≡ lexeme token.entry) }
        ensures err { IfErr result (λ f. f ≡ Memory) }
    {
        let name = Name::of(alloc, token.text)?;
        Ok(NamedToken { token, name })
    }
}

impl<'a> LiteralTokens<'a> {
    ghost use Rattle.plm_syntax.specs.Inner.NamedToken.{symbol, named_symbol};

    /// The tokens of a literal's text with their names.
    pub fn new(alloc: Global, text: &[Token<'a>]) -> Result<Self, Fault>
        ensures ok { IfOk result (λ t. map named_symbol t.tokens.items ≡ map symbol text.now) }
        ensures err { IfErr result (λ f. f ≡ Memory) }
    {
        let mut tokens = Vec::with_capacity(alloc, text.len())?;
        for token in text {
            let token = NamedToken::new(alloc, *token)?;
            tokens.push(token)?;
        }
        Ok(LiteralTokens { tokens })
    }
}
