//! The open blocks, with their literals and what is known of these.

ghost use Rattle.std.specs.Prelude.{◌≡◌, ◌<◌, ◌≤◌, true, length, map, OnOk, IfErr, IfSome};
ghost use Rattle.word86.specs.declared.fault.Fault.TheVariants.{Memory};
ghost use Rattle.plm_syntax.specs.Literals.{opens, is_keyword, is_semicolon};
ghost use Rattle.plm_syntax.specs.Inner.NamedToken.{named_symbol};
ghost use Rattle.plm_syntax.specs.Inner.Known.{AreKnown, is_quiet_range};

use crate::known::Known;
use crate::named_token::{LiteralTokens, NamedToken};
use crate::scope::Scope;
use plm_token::{Keyword, Kind, Mark};
use std::alloc::Global;
use word86::Fault;

/// The open blocks: their literals, and what is known of the literals' texts.
#[derive(Drop)]
pub struct OpenBlocks<'t, 'a> {
    pub scope: Scope<'t, 'a>,
    pub known: Known,
    ghost known_so: { AreKnown scope known },
}

fn opens_block(kind: Kind) -> bool
    ensures { result ≡ is_keyword opens kind }
{
    matches!(kind, Kind::Reserved(Keyword::Do | Keyword::Procedure))
}

fn is_semicolon(kind: Kind) -> bool
    ensures { result ≡ is_semicolon kind }
{
    matches!(kind, Kind::Special(Mark::Semicolon))
}

impl<'t, 'a> OpenBlocks<'t, 'a> {
    ghost use Rattle.plm_syntax.specs.Literals.{no_blocks, closed, blocks_behind, with_literal, literal_for};
    ghost use Rattle.plm_syntax.specs.Inner.Scope.{literal_at};
    ghost use Rattle.plm_syntax.specs.Inner.Literals.{blocks_of};

    /// No block, and no literal.
    pub(crate) fn new(alloc: Global) -> Self
        ensures { blocks_of result ≡ no_blocks }
    {
        OpenBlocks {
            scope: Scope::new(alloc),
            known: Known::new(alloc),
        }
    }

    /// The place of the literal that a token names, if it names one.
    pub(crate) fn literal(&self, token: &NamedToken<'_>) -> Option<usize>
        ensures named { literal_at (blocks_of self.now).literals result ≡ literal_for (blocks_of self.now).literals token.now.token.kind token.now.token.text.now }
        ensures inside { IfSome result (λ i. i < length self.now.scope.literals.items) }
    {
        self.scope.literal(token)
    }

    /// Declares a literal in the innermost block.
    pub(crate) fn declare(
        &mut self,
        name: &'t NamedToken<'a>,
        text: &'t LiteralTokens<'a>,
    ) -> Result<(), Fault>
        ensures ok { OnOk result (blocks_of self.new ≡ with_literal (record { name = name.now.token.text.now; text = map named_symbol text.now.tokens.items }) (blocks_of self.old)) }
        ensures err { IfErr result (λ f. f ≡ Memory) }
    {
        let literal = self.scope.literals.len();
        self.scope.declare(name, text)?;
        self.known.make_room(self.scope.places())?;
        self.scope.assume(literal)
    }

    /// Up to where a literal's tokens from one on put nothing out, where so many replacements may be made.
    pub(crate) fn quiet_to(&mut self, literal: usize, from: usize, depth: u8) -> usize
        ensures quiet { is_quiet_range depth (blocks_of self.old).literals literal from result ≡ true }
        ensures there { from < result → literal < length self.old.scope.literals.items }
        ensures same { blocks_of self.new ≡ blocks_of self.old }
    {
        match self
            .known
            .quiet_from(&self.scope, literal, from, usize::from(depth))
        {
            None => from,
            Some(run) => run.to,
        }
    }

    /// Closes the innermost block, and forgets what no longer holds if literals go with it.
    fn close(&mut self) -> Result<(), Fault>
        ensures ok { OnOk result (blocks_of self.new ≡ closed (blocks_of self.old).literals (blocks_of self.old).starts) }
        ensures err { IfErr result (λ f. f ≡ Memory) }
    {
        if !self.scope.ends_literals() {
            self.scope.close();
            return Ok(());
        }
        if self.scope.keeps_base() {
            self.known.end_block();
            self.scope.close();
            return Ok(());
        }
        self.known.forget();
        self.scope.close();
        self.scope.rebase()
    }

    /// Opens or closes a block after a token; ending says that a semicolon ends one here.
    pub(crate) fn step(&mut self, kind: Kind, ending: bool) -> Result<(), Fault>
        ensures ok { OnOk result (blocks_of self.new ≡ blocks_behind kind ending (blocks_of self.old)) }
        ensures err { IfErr result (λ f. f ≡ Memory) }
    {
        if opens_block(kind) {
            self.scope.open()?;
        } else if is_semicolon(kind) && ending {
            self.close()?;
        }
        Ok(())
    }
}
