//! The sources that a command names.

use crate::build::{Source, build_program};
use crate::built::Built;
use crate::files::read_file;
use crate::stop::Stop;
use crate::telling::Teller;
use layout_link::RomSize;
use plm_token::SOURCE_LIMIT;
use std::alloc::Global;
use std::rt::Files;

/// The texts of the sources.
pub(crate) fn read_texts<R: Files>(
    rt: &R,
    alloc: Global,
    names: &[&str],
) -> Result<Vec<Vec<u8>>, Stop> {
    let mut texts: Vec<Vec<u8>> = Vec::new(alloc);
    for name in names {
        // One byte more than a source may have tells that it is longer.
        let text = read_file(rt, alloc, name, Some(SOURCE_LIMIT + 1))?;
        if texts.push(text).is_err() {
            return Err(Stop::Memory);
        }
    }
    Ok(texts)
}

/// The sources of these names and texts.
pub(crate) fn sources_of<'n: 's, 's>(
    alloc: Global,
    names: &[&'n str],
    texts: &'s [Vec<u8>],
) -> Result<Vec<Source<'s>>, Stop> {
    let mut sources = Vec::new(alloc);
    for (name, text) in names.iter().zip(texts) {
        if sources.push(Source { name, text }).is_err() {
            return Err(Stop::Memory);
        }
    }
    Ok(sources)
}

/// What the sources are built to, for a ROM of this size.
pub(crate) fn build_sources(teller: &Teller<'_, '_>, size: RomSize) -> Result<Built, Stop> {
    teller.or_refusal(build_program(teller.alloc, teller.sources, size))
}
