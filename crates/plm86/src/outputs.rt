//! The files that a build or a run writes, and that by none of them a source, another output or what goes to a standard stream is lost.

ghost use Rattle.std.specs.Prelude.{◌≡◌, ◌+◌, ◌<◌, IfOk, length, vec_len};

use crate::destination::{Destination, first_clash};
use crate::order::RomForms;
use crate::paths::{destination_of, path_of, stream_of};
use crate::stop::Stop;
use std::alloc::{AllocError, Global};
use std::path::PathBuf;
use std::rt::Files;

/// The files that a build writes, in this order: the ROM's, and those of the listing, the map, the ROM's other forms and its code where they
/// are wanted.
#[derive(Clone, Copy)]
pub(crate) struct Outputs<'a> {
    pub rom: &'a str,
    pub listing: Option<&'a str>,
    pub map: Option<&'a str>,
    pub forms: RomForms<'a>,
}

/// What a build or a run wants of a file.
#[derive(Clone, Copy)]
pub(crate) enum Purpose {
    Rom,
    Listing,
    Map,
    Hex,
    Even,
    Odd,
    Code,
    Waveform,
    Picture,
    Source,
    /// A file that a run reads: a ROM, a schedule or a map.
    Input,
    /// The file of standard output, or that of standard error.
    StandardOutput,
    StandardError,
}

/// The paths of the standard streams' files, and what they are.
const STREAMS: [Named<'static>; 2] = [
    Named {
        purpose: Purpose::StandardOutput,
        name: "/proc/self/fd/1",
    },
    Named {
        purpose: Purpose::StandardError,
        name: "/proc/self/fd/2",
    },
];

impl Purpose {
    /// Its word in a message.
    pub fn word(self) -> &'static str {
        match self {
            Purpose::Rom => "ROM",
            Purpose::Listing => "listing",
            Purpose::Map => "map",
            Purpose::Hex => "HEX",
            Purpose::Even => "even half",
            Purpose::Odd => "odd half",
            Purpose::Code => "code",
            Purpose::Waveform => "waveform",
            Purpose::Picture => "picture",
            Purpose::Source => "source",
            Purpose::Input => "input",
            Purpose::StandardOutput => "file of standard output",
            Purpose::StandardError => "file of standard error",
        }
    }
}

impl Purpose {
    /// The article of its word.
    pub fn article(self) -> &'static str {
        match self {
            Purpose::Even | Purpose::Odd | Purpose::Input => "an",
            Purpose::Rom
            | Purpose::Listing
            | Purpose::Map
            | Purpose::Hex
            | Purpose::Code
            | Purpose::Waveform
            | Purpose::Picture
            | Purpose::Source => "a",
            Purpose::StandardOutput | Purpose::StandardError => "the",
        }
    }

    /// What an output of the same file does to it.
    pub fn loss(self) -> Loss {
        match self {
            Purpose::Source | Purpose::Input => Loss::Read,
            Purpose::StandardOutput | Purpose::StandardError => Loss::Stream,
            Purpose::Rom
            | Purpose::Listing
            | Purpose::Map
            | Purpose::Hex
            | Purpose::Even
            | Purpose::Odd
            | Purpose::Code
            | Purpose::Waveform
            | Purpose::Picture => Loss::Written,
        }
    }
}

/// How a file is lost by an output: it is read, is that of a standard stream, or is an output itself.
#[derive(Clone, Copy)]
pub(crate) enum Loss {
    Read,
    Stream,
    Written,
}

/// A file of a build or a run, by the name that it was given.
#[derive(Clone, Copy)]
pub(crate) struct Named<'a> {
    pub purpose: Purpose,
    pub name: &'a str,
}

impl<'a> Outputs<'a> {
    // The files that are written.
    fn files(self, alloc: Global) -> Result<Vec<Named<'a>>, AllocError> {
        let mut files = Vec::new(alloc);
        let named = [
            (Purpose::Rom, Some(self.rom)),
            (Purpose::Listing, self.listing),
            (Purpose::Map, self.map),
            (Purpose::Hex, self.forms.hex),
            (Purpose::Even, self.forms.even),
            (Purpose::Odd, self.forms.odd),
            (Purpose::Code, self.forms.code),
        ];
        push_wanted(&mut files, &named)?;
        Ok(files)
    }
}

// Puts the sources behind the files that are written.
fn push_sources<'a>(files: &mut Vec<Named<'a>>, sources: &[&'a str]) -> Result<(), AllocError> {
    for name in sources {
        files.push(Named {
            purpose: Purpose::Source,
            name,
        })?;
    }
    Ok(())
}

// The path that each file's name leads to.
fn paths_of<R: Files>(rt: &R, alloc: Global, files: &[Named<'_>]) -> Result<Vec<PathBuf>, Stop>
    ensures { IfOk result (λ paths. vec_len paths ≡ length files.now) }
{
    let mut paths: Vec<PathBuf> = Vec::new(alloc);
    for file in files {
        paths.push(path_of(rt, alloc, file.name)?)?;
    }
    Ok(paths)
}

// What each path leads to.
fn destinations_of<'a, R: Files>(
    rt: &R,
    alloc: Global,
    paths: &'a [PathBuf],
) -> Result<Vec<Destination<'a>>, Stop>
    ensures { IfOk result (λ destinations. vec_len destinations ≡ length paths.now) }
{
    let mut destinations: Vec<Destination<'_>> = Vec::new(alloc);
    for path in paths {
        destinations.push(destination_of(rt, path.as_path()))?;
    }
    Ok(destinations)
}

/// Refuses a build one of whose files would be lost by an output: a source, another output, or that of standard output or standard error. It opens none
/// of them.
pub(crate) fn refuse_losses<R: Files>(
    rt: &R,
    alloc: Global,
    outputs: Outputs<'_>,
    sources: &[&str],
) -> Result<(), Stop> {
    let mut files = outputs.files(alloc)?;
    let written = files.len();
    push_sources(&mut files, sources)?;
    refuse_clash(rt, alloc, &files, written)
}

// The file at this place, where the standard streams' stand behind the others.
fn named_at<'n>(files: &[Named<'n>], place: usize) -> Named<'n>
    requires { place < length files.now + 2 }
{
    match files.get(place) {
        Some(named) => *named,
        None => STREAMS[place - files.len()],
    }
}

// What the files lead to, and behind them what the standard streams go to.
fn all_destinations<'a, R: Files>(
    rt: &R,
    alloc: Global,
    paths: &'a [PathBuf],
) -> Result<Vec<Destination<'a>>, Stop>
    ensures { IfOk result (λ destinations. vec_len destinations ≡ length paths.now + 2) }
{
    let mut destinations = destinations_of(rt, alloc, paths)?;
    destinations.push(stream_of(rt, STREAMS[0].name))?;
    destinations.push(stream_of(rt, STREAMS[1].name))?;
    Ok(destinations)
}

// Refuses files one of which would be lost by one of the first `written` of them, and those that would take the place of a standard stream's.
fn refuse_clash<R: Files>(
    rt: &R,
    alloc: Global,
    files: &[Named<'_>],
    written: usize,
) -> Result<(), Stop> {
    let paths = paths_of(rt, alloc, files)?;
    let destinations = all_destinations(rt, alloc, &paths)?;
    match first_clash(&destinations, written) {
        Some((k, m)) => Err(Stop::one_file(alloc, named_at(files, k), named_at(files, m))?),
        None => Ok(()),
    }
}

// Puts those files behind the others that are wanted.
fn push_wanted<'a>(
    files: &mut Vec<Named<'a>>,
    wanted: &[(Purpose, Option<&'a str>)],
) -> Result<(), AllocError> {
    for (purpose, name) in wanted {
        if let Some(name) = *name {
            files.push(Named {
                purpose: *purpose,
                name,
            })?;
        }
    }
    Ok(())
}

/// Refuses a run one of whose files would be lost by one that it writes: one that it reads, another that it writes, or that of standard output or standard
/// error. It opens none of them.
pub(crate) fn refuse_run_losses<'a, R: Files>(
    rt: &R,
    alloc: Global,
    outputs: &[(Purpose, Option<&'a str>)],
    inputs: &[(Purpose, Option<&'a str>)],
) -> Result<(), Stop> {
    let mut files: Vec<Named<'a>> = Vec::new(alloc);
    push_wanted(&mut files, outputs)?;
    let written = files.len();
    push_wanted(&mut files, inputs)?;
    refuse_clash(rt, alloc, &files, written)
}
