//! The command `mean`.
//!
//! The run has the contract of `mean_run` where nothing is watched, and its status that of `mean_status`; the rest has none. That the schedule
//! is read before the sources and all before a fault is answered, the schedule's first, that warnings come before the trace, and where a Bad
//! step has its line, is shown by `tests/run`.

use crate::built::Built;
use crate::files::{cut_short, read_file};
use crate::mean::{CANNOT_WRITE, MeanEnd, mean_run, mean_status};
use crate::mean_watched::{Meant, Watching, mean_watched, object_meant};
use crate::order::{Following, Telling};
use crate::running::schedule_of;
use crate::sources::{build_sources, read_texts, sources_of};
use crate::stop::Stop;
use crate::telling::{ReadFor, Teller};
use board::Schedule;
use buffered_sink::BufferedSink;
use layout_link::RomSize;
use listing_map::put_bad_line;
use plm_decl::Names;
use plm_type::warnings;
use std::alloc::{AllocError, Global};
use std::mem::forget;
use word86::{Fault, PowerOn, Sink};

/// `mean [--turns] [--watch NAME] SCHEDULE SOURCE...`: all files are read first, and the schedule's faults come before others. The sources are built for the
/// largest ROM, so that the objects lie where its image has them; then the warnings and notes are shown, and the meaning is run.
pub(crate) fn run_meaning<S: Sink>(
    rt: &HostRuntime,
    alloc: Global,
    schedule_name: &str,
    following: Following<'_>,
    telling: Telling,
    names: &[&str],
    errors: &mut S,
) -> Result<u8, Stop> {
    let text = read_file(rt, alloc, schedule_name, None)?;
    let texts = read_texts(rt, alloc, names)?;
    let schedule = schedule_of(alloc, telling, schedule_name, &text)?;
    let sources = sources_of(alloc, names, &texts)?;
    let teller = Teller {
        alloc,
        telling,
        sources: &sources,
        read_for: ReadFor::Build(RomSize::Kib64),
    };
    build_and_mean(rt, &teller, &schedule, following, errors)
}

// Builds the sources, and runs what they mean.
fn build_and_mean<S: Sink>(
    rt: &HostRuntime,
    teller: &Teller<'_, '_>,
    schedule: &Schedule,
    following: Following<'_>,
    errors: &mut S,
) -> Result<u8, Stop> {
    let built = build_sources(teller, RomSize::Kib64)?;
    let status = mean_built(rt, teller, &built, schedule, following, errors);
    // The process ends next, which gives this memory back faster than it can be taken apart.
    forget(built);
    status
}

// Shows the warnings and notes, and runs the meaning.
fn mean_built<S: Sink>(
    rt: &HostRuntime,
    teller: &Teller<'_, '_>,
    built: &Built,
    schedule: &Schedule,
    following: Following<'_>,
    errors: &mut S,
) -> Result<u8, Stop> {
    let watching = watching_of(teller.alloc, following, built.program.names())?;
    show_warnings(teller, built, errors)?;
    let end = trace(rt, teller, built, schedule, watching);
    match end {
        Err(fault) => Err(cut_short(fault)),
        Ok(_) => Ok(mean_status(&end)),
    }
}

// Shows the warnings and notes of a program.
fn show_warnings<S: Sink>(
    teller: &Teller<'_, '_>,
    built: &Built,
    errors: &mut S,
) -> Result<(), Stop> {
    let given = teller.or_refusal(warnings(teller.alloc, &built.program))?;
    Ok(teller.show_remarks(&given, built.program.names(), errors)?)
}

// What is watched, where the program has it.
fn watching_of<'n>(
    alloc: Global,
    following: Following<'_>,
    names: &'n Names,
) -> Result<Watching<'n>, Stop> {
    let turns = following.turns;
    let Some(name) = following.watched else {
        return Ok(Watching {
            turns,
            object: None,
        });
    };
    match object_meant(names, name.as_bytes()) {
        Meant::Object(number, path) => Ok(Watching {
            turns,
            object: Some((number, path)),
        }),
        Meant::Several(one, other) => Err(Stop::Words(several_words(alloc, name, one, other)?)),
        Meant::Nothing => {
            let words = format!(in alloc;
                "error: NAME is a variable in RAM, as the map has it, and not '{name}'\n"
            )?;
            Err(Stop::Words(words))
        }
    }
}

// What is said of a name that several variables have.
fn several_words(
    alloc: Global,
    name: &str,
    one: &[u8],
    other: &[u8],
) -> Result<String, AllocError> {
    let one = String::from_utf8_lossy(alloc, one)?;
    let other = String::from_utf8_lossy(alloc, other)?;
    let (one, other) = (one.as_str(), other.as_str());
    format!(in alloc;
        "error: '{name}' may be {one} or {other}: NAME is one of them as the map has it\n"
    )
}

// Runs the meaning turn by turn where something is watched that `mean_run` does not write.
fn run_as_wanted<S: Sink>(
    alloc: Global,
    built: &Built,
    schedule: &Schedule,
    watching: Watching<'_>,
    sink: &mut S,
) -> Result<MeanEnd, Fault> {
    let program = &built.program;
    let placement = &built.image.placement;
    let power_on = PowerOn::filled(alloc, schedule.fill())?;
    if watching.turns || watching.object.is_some() {
        return mean_watched(
            alloc, program, placement, power_on, schedule, watching, sink,
        );
    }
    mean_run(alloc, program, placement, power_on, schedule, sink)
}

// Runs the meaning and writes the trace to standard output.
fn trace(
    rt: &HostRuntime,
    teller: &Teller<'_, '_>,
    built: &Built,
    schedule: &Schedule,
    watching: Watching<'_>,
) -> Result<MeanEnd, Fault> {
    let alloc = teller.alloc;
    let mut sink = BufferedSink::new(alloc, rt.stdout())?;
    let end = run_as_wanted(alloc, built, schedule, watching, &mut sink)?;
    put_bad(teller, end, &mut sink)?;
    match sink.flush() {
        Ok(()) => Ok(end),
        Err(_) => Err(CANNOT_WRITE),
    }
}

// Where the run came to a Bad step, its line.
fn put_bad<S: Sink>(teller: &Teller<'_, '_>, end: MeanEnd, sink: &mut S) -> Result<(), Fault> {
    let MeanEnd::Bad(module, line) = end else {
        return Ok(());
    };
    match put_bad_line(teller.name(module), line, sink) {
        Ok(()) => Ok(()),
        Err(_) => Err(CANNOT_WRITE),
    }
}
