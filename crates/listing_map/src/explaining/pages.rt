//! The texts of sources by their lines, and with their tokens.

ghost use Rattle.std.specs.Prelude.{◌≡◌, IfOk, map};
ghost use Rattle.plm_token.specs.Scanner.{scan_of};
ghost use Rattle.listing_map.specs.SourceListing.{lines_of};
ghost use Rattle.listing_map.specs.Explaining.{text_of, quoted_line};
ghost use Rattle.listing_map.specs.Inner.Pages.{scan_found};

use crate::source_listing::first_line;
use crate::texts::NamedText;
use plm_token::{Token, scan};
use std::alloc::{AllocError, Global};
use word86::Fault;

/// A source's text, its lines without their ends, and its tokens or the fault that it has.
#[derive(Drop)]
pub(crate) struct Page<'a> {
    pub text: &'a [u8],
    pub lines: Vec<&'a [u8]>,
    pub tokens: Result<Vec<Token<'a>>, Fault>,
    ghost has_lines: { map (λ line. line.now) lines.items ≡ lines_of text.now },
    ghost has_tokens: { scan_of text.now ≡ scan_found tokens },
}

/// The lines of a text, each without its end.
fn lines_in<'a>(alloc: Global, text: &'a [u8]) -> Result<Vec<&'a [u8]>, AllocError>
    ensures { IfOk result (λ lines. map (λ line. line.now) lines.items ≡ lines_of text.entry.now) }
{
    let mut lines: Vec<&'a [u8]> = Vec::new(alloc);
    let mut rest = text;
    while !rest.is_empty() {
        let (line, after) = first_line(rest);
        lines.push(line)?;
        rest = after;
    }
    Ok(lines)
}

/// The tokens of a text, or its fault.
fn tokens_in<'a>(alloc: Global, text: &'a [u8]) -> Result<Result<Vec<Token<'a>>, Fault>, AllocError>
    ensures { IfOk result (λ tokens. scan_of text.entry.now ≡ scan_found tokens) }
{
    match scan(alloc, text) {
        Ok(tokens) => Ok(Ok(tokens)),
        Err(Fault::At(module, line, number)) => Ok(Err(Fault::At(module, line, number))),
        Err(Fault::Memory) => Err(AllocError),
    }
}

/// The page of a text.
fn page_of<'a>(alloc: Global, text: &'a [u8]) -> Result<Page<'a>, AllocError>
    ensures { IfOk result (λ page. page.text.now ≡ text.entry.now) }
{
    let lines = lines_in(alloc, text)?;
    let tokens = tokens_in(alloc, text)?;
    Ok(Page {
        text,
        lines,
        tokens,
    })
}

/// The pages of sources, in order.
pub(crate) fn pages_of<'a>(
    alloc: Global,
    sources: &[NamedText<'a>],
) -> Result<Vec<Page<'a>>, AllocError>
    ensures { IfOk result (λ pages. map (λ page. page.text.now) pages.items ≡ map text_of sources.now) }
{
    let mut pages: Vec<Page<'a>> = Vec::new(alloc);
    for source in sources {
        pages.push(page_of(alloc, source.text)?)?;
    }
    Ok(pages)
}

impl<'a> Page<'a> {
    /// The line of this number, from 1 on, without its end; nothing where the text has no such line.
    pub fn line(&self, line: u32) -> &'a [u8]
        ensures { result.now ≡ quoted_line self.now.text.now line }
    {
        match self.lines.get((line as usize).saturating_sub(1)) {
            Some(found) => found,
            None => b"",
        }
    }
}
