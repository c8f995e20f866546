//! Names that LITERALLY declares are replaced by their texts' tokens.

ghost use Rattle.std.specs.Prelude.{◌≡◌, ◌<◌, true, Some, length, map, fold, OnOk, IfOk, IfErr, option_map};
ghost use Rattle.std.specs.List.{slice_get, slice_range};
ghost use Rattle.word86.specs.declared.fault.Fault.TheVariants.{Memory};
ghost use Rattle.plm_token.specs.Scanner.{lexeme, lexemes};
ghost use Rattle.plm_token.specs.Literals.{on_line};
ghost use Rattle.plm_syntax.specs.Literals.{LiteralText, ends, declares, is_keyword, is_string, over_limit, ends_block, declared_name, between, put, symbol_out, text_out, nothing_out, expanded};
ghost use Rattle.plm_syntax.specs.Inner.Scope.{named_symbol, text_at};
ghost use Rattle.plm_syntax.specs.Inner.Literals.{ArePlain, placed, out_of, text_view, text_for, with_text, source_view, put_with_text, out_with_text};
ghost use Rattle.plm_syntax.specs.Literals.{expansion_view, expansion_of};

use crate::named_token::{LiteralTokens, NamedToken};
use crate::names::is_identifier;
use crate::open_blocks::OpenBlocks;
use plm_token::{Keyword, Kind, Token, scan_literal};
use std::alloc::Global;
use word86::{Fault, Number};

/// How many replacements may stand one inside the other.
const DEPTH: u8 = 8;

/// The most tokens that a module may have once its literals are replaced.
const TOKEN_LIMIT: usize = 65_535;

/// A token that came out, and its line.
#[derive(Clone, Copy)]
pub struct Placed<'t, 'a> {
    pub token: &'t NamedToken<'a>,
    pub line: u32,
}

/// What came out so far: the tokens, the last two of them, and the fault and line where it stopped.
#[derive(Drop)]
pub struct Expander<'t, 'a> {
    pub tokens: Vec<Token<'a>>,
    pub blocks: OpenBlocks<'t, 'a>,
    pub last: Option<Placed<'t, 'a>>,
    pub before: Option<Placed<'t, 'a>>,
    pub stop: Option<(Number, u32)>,
}

/// The tokens that came out, and the fault and its line where it stopped.
#[derive(Drop)]
pub struct Expansion<'a> {
    pub tokens: Vec<Token<'a>>,
    pub stop: Option<(Number, u32)>,
}

fn is_end(kind: Kind) -> bool
    ensures { result ≡ is_keyword ends kind }
{
    matches!(kind, Kind::Reserved(Keyword::End))
}

fn is_literally(kind: Kind) -> bool
    ensures { result ≡ is_keyword declares kind }
{
    matches!(kind, Kind::Reserved(Keyword::Literally))
}

fn is_string(kind: Kind) -> bool
    ensures { result ≡ is_string kind }
{
    matches!(kind, Kind::String)
}

fn over_limit(count: usize, line: u32) -> Option<(Number, u32)>
    ensures { result ≡ over_limit count line }
{
    if count > TOKEN_LIMIT {
        Some((Number::E205, line))
    } else {
        None
    }
}

impl<'t, 'a> Expander<'t, 'a> {
    /// Whether a semicolon ends a block here: after END, or END and a name.
    fn ends_block(&self) -> bool
        ensures { result ≡ ends_block (option_map placed self.now.last) (option_map placed self.now.before) }
    {
        match (self.last, self.before) {
            (None, _) => false,
            (Some(last), None) => is_end(last.token.token.kind),
            (Some(last), Some(before)) => {
                let (last, before) = (last.token.token.kind, before.token.token.kind);
                is_end(last) || (is_identifier(last) && is_end(before))
            }
        }
    }

    /// The name that a string declares here: after an identifier and LITERALLY.
    fn declared_name(&self, kind: Kind) -> Option<&'t NamedToken<'a>>
        ensures { option_map (λ n. n.now.token.text.now) result ≡ declared_name kind (option_map placed self.now.last) (option_map placed self.now.before) }
    {
        match (self.last, self.before) {
            (Some(last), Some(before)) => {
                let (word, name) = (last.token.token.kind, before.token.token.kind);
                if is_string(kind) && is_literally(word) && is_identifier(name) {
                    Some(before.token)
                } else {
                    None
                }
            }
            _ => None,
        }
    }

    /// Puts one token out at a line.
    fn put(&mut self, token: &'t NamedToken<'a>, line: u32) -> Result<(), Fault>
        ensures ok { OnOk result (out_of self.new ≡ put (on_line line (named_symbol token.now)) (out_of self.old)) }
        ensures err { IfErr result (λ f. f ≡ Memory) }
    {
        let ending = self.ends_block();
        let Token { kind, text, .. } = token.token;
        self.blocks.step(kind, ending)?;
        self.tokens.push(Token { kind, text, line })?;
        self.before = self.last;
        self.last = Some(Placed { token, line });
        self.stop = over_limit(self.tokens.len(), line);
        Ok(())
    }

    /// Puts a token of a literal's text out, with the line of the name that the text replaces, or replaces it in turn.
    #[cycle(replace)]
    #[tactic(auto, using(crate::proofs::Replaced::symbol_stopped, crate::proofs::Replaced::symbol_plain, crate::proofs::Replaced::symbol_deep, crate::proofs::Replaced::symbol_text))]
    fn put_symbol(&mut self, token: &'t NamedToken<'a>, line: u32, depth: u8) -> Result<(), Fault>
        ensures ok { OnOk result (out_of self.new ≡ symbol_out depth line (named_symbol token.now) (out_of self.old)) }
        ensures err { IfErr result (λ f. f ≡ Memory) }
    {
        if self.stop.is_some() {
            return Ok(());
        }
        match self.blocks.literal(token) {
            None => self.put(token, line),
            Some(index) => {
                if depth == 0 {
                    self.stop = Some((Number::E202, line));
                    return Ok(());
                }
                self.put_literal(index, line, depth - 1)
            }
        }
    }

    /// Puts a literal's text out, its tokens with the line of the name that it replaces.
    #[cycle(replace)]
    fn put_literal(&mut self, index: usize, line: u32, depth: u8) -> Result<(), Fault>
        requires { index < length self.old.blocks.scope.literals.items }
        ensures ok { OnOk result (out_of self.new ≡ text_out depth line (text_at (out_of self.old).blocks.literals index) (out_of self.old)) }
        ensures err { IfErr result (λ f. f ≡ Memory) }
    {
        let text = self.blocks.scope.literals[index].text.tokens.as_slice();
        let mut at = 0;
        while at < text.len() {
            at = self.put_next(index, text, at, line, depth)?;
        }
        Ok(())
    }

    /// Puts the next tokens of a literal's text out: those that are known to put nothing out, which are passed over, or else one.
    /// The answer is up to where.
    #[cycle(replace)]
    fn put_next(
        &mut self,
        index: usize,
        text: &'t [NamedToken<'a>],
        at: usize,
        line: u32,
        depth: u8,
    ) -> Result<usize, Fault>
        requires inside { at < length text.now }
        requires same { (l : LiteralText) → slice_get (out_of self.old).blocks.literals index ≡ Some l → l.text ≡ map named_symbol text.now }
        ensures later { IfOk result (λ r. at < r) }
        ensures ok { IfOk result (λ r. out_of self.new ≡ text_out depth line (slice_range (map named_symbol text.now) at r) (out_of self.old)) }
        ensures err { IfErr result (λ f. f ≡ Memory) }
    {
        let to = self.blocks.quiet_to(index, at, depth);
        if at < to {
            return Ok(to);
        }
        self.put_symbol(&text[at], line, depth)?;
        Ok(at + 1)
    }

    /// Puts a token of the source out; a string may declare a literal, whose faults stand at it.
    fn put_source(&mut self, token: &'t NamedToken<'a>, text: &'t Text<'a>) -> Result<(), Fault>
        ensures ok { OnOk result (out_of self.new ≡ put_with_text (lexeme token.now.token) (text_view text.now) (out_of self.old)) }
        ensures err { IfErr result (λ f. f ≡ Memory) }
    {
        let line = token.token.line;
        let name = self.declared_name(token.token.kind);
        self.put(token, line)?;
        match name {
            None => Ok(()),
            Some(name) => match text {
                Text::Absent => Ok(()),
                Text::Tokens(tokens) => self.blocks.declare(name, tokens),
                Text::Faulty(number) => {
                    self.stop = Some((*number, line));
                    Ok(())
                }
            },
        }
    }

    /// Puts a token of the source out, or replaces it.
    fn take(&mut self, source: &'t Source<'a>) -> Result<(), Fault>
        ensures ok { OnOk result (out_of self.new ≡ out_with_text (source_view source.now) (out_of self.old)) }
        ensures err { IfErr result (λ f. f ≡ Memory) }
    {
        if self.stop.is_some() {
            return Ok(());
        }
        let token = &source.token;
        match self.blocks.literal(token) {
            None => self.put_source(token, &source.text),
            Some(index) => self.put_literal(index, token.token.line, DEPTH - 1),
        }
    }
}

/// The text of a source's string, as a literal would have it.
#[derive(Drop)]
pub enum Text<'a> {
    /// No string.
    Absent,
    /// Its tokens.
    Tokens(LiteralTokens<'a>),
    /// The least of its faults.
    Faulty(Number),
}

/// A token of the source, with the text that it is if it declares a literal.
#[derive(Drop)]
pub struct Source<'a> {
    pub token: NamedToken<'a>,
    pub text: Text<'a>,
}

fn between<'a>(text: &'a [u8]) -> &'a [u8]
    ensures { result.now ≡ between text.now }
{
    match text {
        [_, inside @ .., _] => inside,
        _ => &[],
    }
}

/// What a string's token would declare.
fn text_of<'a>(alloc: Global, token: Token<'a>) -> Result<Text<'a>, Fault>
    ensures ok { IfOk result (λ t. text_view t ≡ text_for token.entry.kind token.entry.text.now) }
    ensures err { IfErr result (λ f. f ≡ Memory) }
{
    if is_string(token.kind) {
        match scan_literal(alloc, between(token.text), 0) {
            Ok(tokens) => {
                let tokens = LiteralTokens::new(alloc, tokens.as_slice())?;
                Ok(Text::Tokens(tokens))
            }
            Err(Fault::Memory) => Err(Fault::Memory),
            Err(Fault::At(_, _, number)) => Ok(Text::Faulty(number)),
        }
    } else {
        Ok(Text::Absent)
    }
}

fn prepare<'a>(alloc: Global, tokens: &[Token<'a>]) -> Result<Vec<Source<'a>>, Fault>
    ensures ok { IfOk result (λ v. map source_view v.items ≡ map with_text (lexemes tokens.now)) }
    ensures err { IfErr result (λ f. f ≡ Memory) }
{
    let mut sources = Vec::new(alloc);
    for token in tokens {
        let text = text_of(alloc, *token)?;
        let token = NamedToken::new(alloc, *token)?;
        sources.push(Source { token, text })?;
    }
    Ok(sources)
}

fn replaced<'t, 'a>(alloc: Global, sources: &'t [Source<'a>]) -> Result<Expansion<'a>, Fault>
    ensures ok { IfOk result (λ e. expansion_view e ≡ expansion_of (fold (λ o p. out_with_text p o) nothing_out (map source_view sources.now))) }
    ensures err { IfErr result (λ f. f ≡ Memory) }
{
    let mut expander = Expander {
        tokens: Vec::new(alloc),
        blocks: OpenBlocks::new(alloc),
        last: None,
        before: None,
        stop: None,
    };
    for source in sources {
        expander.take(source)?;
    }
    let Expander {
        tokens,
        blocks: _,
        last: _,
        before: _,
        stop,
    } = expander;
    Ok(Expansion { tokens, stop })
}

/// Whether these tokens declare no literal, and are not too many.
fn are_plain(tokens: &[Token<'_>]) -> bool
    ensures { result ≡ true → ArePlain (lexemes tokens.now) }
{
    if tokens.len() > TOKEN_LIMIT {
        return false;
    }
    for token in tokens {
        if is_literally(token.kind) {
            return false;
        }
    }
    true
}

/// The tokens of a source with its literals replaced, up to the first fault. Memory is its only error.
#[tactic(auto, using(crate::proofs::Replaced::expanded_same, crate::proofs::Undeclared::expanded_plain))]
pub fn expand<'a>(alloc: Global, tokens: Vec<Token<'a>>) -> Result<Expansion<'a>, Fault>
    ensures ok { IfOk result (λ e. expansion_view e ≡ expansion_of (expanded (lexemes tokens.entry.items))) }
    ensures err { IfErr result (λ f. f ≡ Memory) }
{
    // Most modules stand as they are.
    if are_plain(tokens.as_slice()) {
        return Ok(Expansion { tokens, stop: None });
    }
    let sources = prepare(alloc, tokens.as_slice())?;
    let expansion = replaced(alloc, sources.as_slice())?;
    Ok(expansion)
}
