//! The command `build`.
//!
//! The image has the contract of `build_program`; the rest has none. That outputs are compared before a source is read, that all sources are
//! read before one is refused, that warnings come before the files, and the ROM's file before the listing's and this before the map's, is
//! shown by `tests/run`, that the ROM's other forms are of its bytes, by `tests/forms`, and that the code is the ROM's, by `tests/code`.

use crate::build::Source;
use crate::built::Built;
use crate::explained::named_texts;
use crate::order::{RomForms, Telling};
use crate::outputs::{Outputs, refuse_losses};
use crate::padded::{pad_given, written_rom};
use crate::sources::{build_sources, read_texts, sources_of};
use crate::stop::Stop;
use crate::telling::{ReadFor, Teller};
use crate::writing::Output;
use icode::Code;
use layout_link::RomSize;
use listing_map::{RomHalves, code_listing, listing, map, rom_halves, rom_hex};
use lower::lower;
use plm_type::{Warning, warnings};
use std::alloc::{AllocError, Global};
use std::mem::forget;
use std::rt::Files;
use word86::{Sink, WriterSink};

/// A file that is wanted, and its bytes.
#[derive(Drop)]
struct Prepared<'a> {
    file: Output<'a>,
    bytes: Vec<u8>,
}

/// `build -r KIB -o ROM [-l LISTING] [-m MAP] [--hex HEX] [--even EVEN] [--odd ODD] [--code CODE] [--pad BYTE] SOURCE...`: no output may be a source or
/// another output. All sources are read first. Warnings and notes are shown once nothing more can be refused, and then the files are written.
pub(crate) fn build_rom<R: Files, S: Sink>(
    rt: &R,
    alloc: Global,
    size: RomSize,
    outputs: Outputs<'_>,
    telling: Telling,
    names: &[&str],
    errors: &mut S,
) -> Result<u8, Stop> {
    let pad = pad_given(alloc, outputs.forms.pad)?;
    refuse_losses(rt, alloc, outputs, names)?;
    let texts = read_texts(rt, alloc, names)?;
    let sources = sources_of(alloc, names, &texts)?;
    let teller = Teller {
        alloc,
        telling,
        sources: &sources,
        read_for: ReadFor::Build(size),
    };
    build_and_write(rt, &teller, size, outputs, pad, errors)
}

// Builds the sources, and writes what they are built to.
fn build_and_write<R: Files, S: Sink>(
    rt: &R,
    teller: &Teller<'_, '_>,
    size: RomSize,
    outputs: Outputs<'_>,
    pad: Option<u8>,
    errors: &mut S,
) -> Result<u8, Stop> {
    let built = build_sources(teller, size)?;
    let written = write_built(rt, teller, outputs, &built, pad, errors);
    // The process ends next, which gives this memory back faster than it can be taken apart.
    forget(built);
    written
}

// What the files are made of: what was built, the ROM as it is written, and the warnings.
#[derive(Clone, Copy)]
struct Made<'m> {
    built: &'m Built,
    rom: &'m [u8],
    given: &'m [Warning],
}

// Shows the warnings and notes, and writes the files. Where they cannot be shown, the outputs still tell. All memory is taken before, so
// that want of it leaves no file.
fn write_built<R: Files, S: Sink>(
    rt: &R,
    teller: &Teller<'_, '_>,
    outputs: Outputs<'_>,
    built: &Built,
    pad: Option<u8>,
    errors: &mut S,
) -> Result<u8, Stop> {
    let rom = written_rom(teller, built, pad)?;
    let given = teller.or_refusal(warnings(teller.alloc, &built.program))?;
    let made = Made {
        built,
        rom: &rom,
        given: &given,
    };
    write_made(rt, teller, outputs, made, errors)
}

// The same, once nothing more can be refused.
fn write_made<R: Files, S: Sink>(
    rt: &R,
    teller: &Teller<'_, '_>,
    outputs: Outputs<'_>,
    made: Made<'_>,
    errors: &mut S,
) -> Result<u8, Stop> {
    let mut rom_file = Output::new(rt, teller.alloc, outputs.rom)?;
    let others = other_files(rt, teller, outputs, made)?;
    teller.show_remarks(made.given, made.built.program.names(), errors)?;
    rom_file.write(rt, teller.alloc, made.rom)?;
    write_all(rt, teller.alloc, others)
}

// Writes the files, one after another.
fn write_all<R: Files>(rt: &R, alloc: Global, files: Vec<Prepared<'_>>) -> Result<u8, Stop> {
    for prepared in files {
        let Prepared { mut file, bytes } = prepared;
        file.write(rt, alloc, &bytes)?;
    }
    Ok(0)
}

// The files that are wanted beside the ROM's, in the order in which they are written.
fn other_files<'a, R: Files>(
    rt: &R,
    teller: &Teller<'_, '_>,
    outputs: Outputs<'a>,
    made: Made<'_>,
) -> Result<Vec<Prepared<'a>>, Stop> {
    let alloc = teller.alloc;
    let mut others = Vec::new(alloc);
    if let Some(name) = outputs.listing {
        let text = text_of_listing(alloc, teller.sources, made.given)?;
        prepare(rt, alloc, name, text, &mut others)?;
    }
    if let Some(name) = outputs.map {
        prepare(
            rt,
            alloc,
            name,
            text_of_map(alloc, made.built)?,
            &mut others,
        )?;
    }
    prepare_forms(rt, alloc, outputs.forms, made.rom, &mut others)?;
    if let Some(name) = outputs.forms.code {
        prepare(
            rt,
            alloc,
            name,
            text_of_code(teller, made.built)?,
            &mut others,
        )?;
    }
    Ok(others)
}

// Puts a file behind the others.
fn prepare<'a, R: Files>(
    rt: &R,
    alloc: Global,
    name: &'a str,
    bytes: Vec<u8>,
    others: &mut Vec<Prepared<'a>>,
) -> Result<(), Stop> {
    let file = Output::new(rt, alloc, name)?;
    others.push(Prepared { file, bytes })?;
    Ok(())
}

// Puts the ROM's other forms behind the others, those that are wanted.
fn prepare_forms<'a, R: Files>(
    rt: &R,
    alloc: Global,
    forms: RomForms<'a>,
    rom: &[u8],
    others: &mut Vec<Prepared<'a>>,
) -> Result<(), Stop> {
    if let Some(name) = forms.hex {
        prepare(rt, alloc, name, text_of_hex(alloc, rom)?, others)?;
    }
    if forms.even.is_none() && forms.odd.is_none() {
        return Ok(());
    }
    let RomHalves { even, odd } = rom_halves(alloc, rom)?;
    prepare_half(rt, alloc, forms.even, even, others)?;
    prepare_half(rt, alloc, forms.odd, odd, others)
}

// Puts half of the ROM's bytes behind the others, where it is wanted.
fn prepare_half<'a, R: Files>(
    rt: &R,
    alloc: Global,
    name: Option<&'a str>,
    bytes: Vec<u8>,
    others: &mut Vec<Prepared<'a>>,
) -> Result<(), Stop> {
    match name {
        Some(name) => prepare(rt, alloc, name, bytes, others),
        None => Ok(()),
    }
}

// The code as a listing. Since the program was built, nothing but memory can be wanting; another fault would be told as what it is.
fn text_of_code(teller: &Teller<'_, '_>, built: &Built) -> Result<Vec<u8>, Stop> {
    let code = teller.or_refusal(lower(teller.alloc, &built.program))?;
    let listed = listed_code(teller, built, &code);
    drop(code);
    listed
}

// The code of a program as a listing.
fn listed_code(teller: &Teller<'_, '_>, built: &Built, code: &Code) -> Result<Vec<u8>, Stop> {
    let texts = named_texts(teller.alloc, teller.sources)?;
    let listed = code_listing(teller.alloc, &texts, &built.program, code, &built.image);
    teller.or_refusal(listed)
}

// The ROM as Intel HEX.
fn text_of_hex(alloc: Global, rom: &[u8]) -> Result<Vec<u8>, Stop> {
    let mut text = Vec::new(alloc);
    match rom_hex(rom, &mut WriterSink::new(&mut text)) {
        Ok(()) => Ok(text),
        Err(_) => Err(Stop::Memory),
    }
}

// The listing of each source, one after the other.
fn text_of_listing(
    alloc: Global,
    sources: &[Source<'_>],
    given: &[Warning],
) -> Result<Vec<u8>, Stop> {
    let mut text = Vec::new(alloc);
    for (ordinal, source) in sources.iter().enumerate() {
        put_listing(alloc, source.text, ordinal, given, &mut text)?;
    }
    Ok(text)
}

// Puts the listing of the source of this number behind a text.
fn put_listing(
    alloc: Global,
    source: &[u8],
    ordinal: usize,
    given: &[Warning],
    text: &mut Vec<u8>,
) -> Result<(), Stop> {
    let own = warnings_of(alloc, ordinal, given)?;
    match listing(source, &own, &mut WriterSink::new(text)) {
        Ok(()) => Ok(()),
        Err(_) => Err(Stop::Memory),
    }
}

// The warnings of the module of this number.
fn warnings_of(
    alloc: Global,
    ordinal: usize,
    given: &[Warning],
) -> Result<Vec<Warning>, AllocError> {
    let mut own = Vec::new(alloc);
    for warning in given {
        if warning.module == ordinal {
            own.push(*warning)?;
        }
    }
    Ok(own)
}

// The map.
fn text_of_map(alloc: Global, built: &Built) -> Result<Vec<u8>, Stop> {
    let mut text = Vec::new(alloc);
    let sink = &mut WriterSink::new(&mut text);
    match map(&built.image, &built.program, sink) {
        Ok(()) => Ok(text),
        Err(_) => Err(Stop::Memory),
    }
}
