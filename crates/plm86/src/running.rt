//! The command `run`, and what `mean` shares with it.
//!
//! The run has the contract of `Board::run`, `Board::run_numbered` or `Board::run_watched`, and its status that of `status`; the rest has none. That
//! the ROM is read before the schedule and both before a fault is answered, the schedule's before the ROM's, is shown by `tests/run`, and what
//! is watched by `tests/watched`.

ghost use Rattle.std.specs.Prelude.{◌≡◌, IfErr, MatchResult};
ghost use Rattle.word86.specs.declared.fault.Fault.TheVariants.{At};
ghost use Rattle.word86.specs.declared.number.Number.TheVariants.{E704};
ghost use Rattle.ppi_kbd.specs.Chips.{ChipState};
ghost use Rattle.board.specs.World.{World};
ghost use Rattle.board.specs.Machine.{Board as State};
ghost use Rattle.board.specs.Board.{Shows};
ghost use Rattle.board.specs.Run.{Ran, Broke, due_of};

use crate::build::Source;
use crate::files::{cut_short, read_file};
use crate::mean::CANNOT_WRITE;
use crate::order::{MessageFormat, Showing, Telling};
use crate::outputs::{Purpose, refuse_run_losses};
use crate::progress::{Progress, run_in_parts};
use crate::status::status;
use crate::stop::Stop;
use crate::telling::{ReadFor, Teller};
use crate::waveform::WaveBody;
use crate::writing::Output;
use board::{
    Addresses, Board, End, PlaceName, Schedule, SignalChanges, Watch, WatchedEnd, address_of,
    addresses_of, picture_of, put_coloured_screen, put_dump, put_registers, put_screen, read_names,
    read_schedule,
};
use buffered_sink::BufferedSink;
use listing_map::{NOWHERE, object_line};
use std::alloc::{AllocError, Global};
use std::rt::Files;
use word86::{Fault, PowerOn, Sink, put_all};

/// A ROM's bytes, and one more, which tells that a file is longer than any ROM.
const ROM_LIMIT: usize = 65_537;

/// What is wanted of a run.
#[derive(Clone, Copy)]
struct Wanted<'s, 'w> {
    showing: Showing<'s>,
    dump: Option<Addresses>,
    watch: Watch<'w>,
}

/// Runs the board under the schedule, and tells on the way how far it has come, where that is shown.
fn run_plainly<S: Sink>(
    rt: &HostRuntime,
    alloc: Global,
    board: &mut Board,
    schedule: &Schedule,
    sink: &mut S,
) -> Result<End, Fault>
    ensures run { (b : State (World ChipState)) → Shows board.old b → MatchResult result
        (Ran (due_of schedule.now) schedule.now.stop b board.new (S.taken sink.old) (S.taken sink.new) (S.failures sink.old) (S.failures sink.new))
        (λ e. Broke (due_of schedule.now) schedule.now.stop b board.new (S.taken sink.old) (S.taken sink.new) (S.failures sink.old) (S.failures sink.new)) }
    ensures fault { IfErr result (λ e. e ≡ At 0 1 E704) }
{
    match Progress::new(rt) {
        Some(progress) => run_in_parts(rt, alloc, board, schedule, progress, sink),
        None => board.run(schedule, sink),
    }
}

/// Runs the board, and where something is watched that `run` does not write, watches it. What changes on lines and ports goes to the waveform's body,
/// where one is wanted.
fn run_as_wanted<S: Sink>(
    rt: &HostRuntime,
    alloc: Global,
    board: &mut Board,
    schedule: &Schedule,
    wanted: Wanted<'_, '_>,
    shown: &mut Shown,
    sink: &mut S,
) -> Result<WatchedEnd, Fault> {
    let watch = wanted.watch;
    if watch.stop_at.is_some() || watch.names.is_some() || wanted.showing.waveform.is_some() {
        return run_watched(alloc, board, schedule, watch, shown, sink);
    }
    let end = if watch.turns {
        board.run_numbered(schedule, sink)?
    } else {
        run_plainly(rt, alloc, board, schedule, sink)?
    };
    let turns = schedule.stop();
    Ok(WatchedEnd { end, turns })
}

/// What changes on lines and ports in a run, and the waveform's body.
#[derive(Drop)]
struct Shown {
    changes: SignalChanges,
    body: WaveBody,
}

/// Runs the board and watches it.
fn run_watched<S: Sink>(
    alloc: Global,
    board: &mut Board,
    schedule: &Schedule,
    watch: Watch<'_>,
    shown: &mut Shown,
    sink: &mut S,
) -> Result<WatchedEnd, Fault> {
    let Shown { changes, body } = shown;
    let ended = board.run_watched(alloc, schedule, watch, changes, body, sink)?;
    changes.put_end(ended.turns, body)?;
    Ok(ended)
}

/// Runs the board and writes the trace to standard output, each line as it is wanted, and then what else is shown.
fn trace(
    rt: &HostRuntime,
    alloc: Global,
    board: &mut Board,
    schedule: &Schedule,
    wanted: Wanted<'_, '_>,
    shown: &mut Shown,
) -> Result<WatchedEnd, Fault> {
    let mut sink = BufferedSink::new(alloc, rt.stdout())?;
    let ended = run_as_wanted(rt, alloc, board, schedule, wanted, shown, &mut sink)?;
    let text = shown_at_end(alloc, board, wanted)?;
    if put_all(&mut sink, &text).is_err() {
        return Err(CANNOT_WRITE);
    }
    match sink.flush() {
        Ok(()) => Ok(ended),
        Err(_) => Err(CANNOT_WRITE),
    }
}

/// What is shown of the board behind the trace.
fn shown_at_end(
    alloc: Global,
    board: &Board,
    wanted: Wanted<'_, '_>,
) -> Result<Vec<u8>, AllocError> {
    let Wanted {
        showing,
        dump,
        watch: _,
    } = wanted;
    let mut text = Vec::new(alloc);
    if showing.screen {
        put_screen(alloc, &mut text, board)?;
    }
    if showing.ansi {
        put_coloured_screen(alloc, &mut text, board)?;
    }
    if showing.registers {
        put_registers(alloc, &mut text, board)?;
    }
    if let Some(addresses) = dump {
        put_dump(alloc, &mut text, board, addresses)?;
    }
    Ok(text)
}

/// The addresses between which memory is shown, where that is wanted.
fn addresses_given(alloc: Global, text: Option<&str>) -> Result<Option<Addresses>, Stop> {
    let Some(text) = text else {
        return Ok(None);
    };
    match addresses_of(text.as_bytes()) {
        Some(addresses) => Ok(Some(addresses)),
        None => {
            let words = format!(in alloc;
                "error: FROM,TO is two addresses up to FFFFF in hexadecimal, the lower one first, and not '{text}'\n"
            )?;
            Err(Stop::Words(words))
        }
    }
}

/// The address at which a run stops, where that is wanted.
fn address_given(alloc: Global, text: Option<&str>) -> Result<Option<u32>, Stop> {
    let Some(text) = text else {
        return Ok(None);
    };
    match address_of(text.as_bytes()) {
        Some(address) => Ok(Some(address)),
        None => {
            let words = format!(in alloc;
                "error: ADDRESS is up to FFFFF in hexadecimal, and not '{text}'\n"
            )?;
            Err(Stop::Words(words))
        }
    }
}

/// The text of the map whose names are shown, where they are wanted.
fn read_map<R: Files>(rt: &R, alloc: Global, name: Option<&str>) -> Result<Vec<u8>, Stop> {
    match name {
        Some(name) => read_file(rt, alloc, name, None),
        None => Ok(Vec::new(alloc)),
    }
}

/// The schedule that a file's text spells.
pub(crate) fn schedule_of(
    alloc: Global,
    telling: Telling,
    name: &str,
    text: &[u8],
) -> Result<Schedule, Stop> {
    match read_schedule(alloc, text) {
        Ok(schedule) => Ok(schedule),
        Err(fault) => Err(refusal_in(alloc, telling, name, text, fault)?),
    }
}

/// The stop for a fault in a file that is no source.
fn refusal_in(
    alloc: Global,
    telling: Telling,
    name: &str,
    text: &[u8],
    fault: Fault,
) -> Result<Stop, Stop> {
    let teller = Teller {
        alloc,
        telling,
        sources: &[Source { name, text }],
        read_for: ReadFor::Run,
    };
    teller.refusal(fault)
}

/// The memory that a schedule fills when the power comes on.
fn power_on_of(alloc: Global, schedule: &Schedule) -> Result<PowerOn, Stop> {
    match PowerOn::filled(alloc, schedule.fill()) {
        Ok(power_on) => Ok(power_on),
        Err(_) => Err(Stop::Memory),
    }
}

/// Says on standard error at which of so many turns the processor halted with interrupts off, where it did and faults are explained.
fn say_dead<S: Sink>(
    alloc: Global,
    run: Run<'_>,
    board: &Board,
    turns: u32,
    errors: &mut S,
) -> Result<(), Stop> {
    if !run.telling.explains {
        return Ok(());
    }
    let Some(turn) = board.turn_of_death(turns) else {
        return Ok(());
    };
    let words = format!(in alloc;
        "note: the processor halts with interrupts off from turn {turn} on, and nothing wakes it"
    )?;
    let line = note_line(alloc, run, words.as_str())?;
    // Where it cannot be shown, the trace still tells.
    let _ = put_all(errors, &line);
    Ok(())
}

/// A ROM that is run, by its file's name, and how faults are told.
#[derive(Clone, Copy)]
struct Run<'r> {
    name: &'r str,
    rom: &'r [u8],
    telling: Telling,
}

/// The line of a note on a ROM.
fn note_line(alloc: Global, run: Run<'_>, words: &str) -> Result<Vec<u8>, AllocError> {
    match run.telling.format {
        MessageFormat::Json => object_line(alloc, run.name, NOWHERE, None, words, None),
        MessageFormat::Text => {
            let name = run.name;
            let line = format!(in alloc; "{name}: {words}\n")?;
            Vec::from_slice(alloc, line.as_str().as_bytes())
        }
    }
}

/// A file that is wanted.
fn wanted_file<'a, R: Files>(
    rt: &R,
    alloc: Global,
    name: Option<&'a str>,
) -> Result<Option<Output<'a>>, Stop> {
    match name {
        Some(name) => Ok(Some(Output::new(rt, alloc, name)?)),
        None => Ok(None),
    }
}

/// The board with this ROM.
fn board_of(alloc: Global, run: Run<'_>, schedule: &Schedule) -> Result<Board, Stop> {
    match Board::new(alloc, run.rom, power_on_of(alloc, schedule)?) {
        Ok(board) => Ok(board),
        Err(fault) => Err(refusal_in(alloc, run.telling, run.name, run.rom, fault)?),
    }
}

/// Writes a file that is wanted.
fn write_wanted<R: Files>(
    rt: &R,
    alloc: Global,
    file: &mut Option<Output<'_>>,
    bytes: &[u8],
) -> Result<(), Stop> {
    match file {
        Some(file) => file.write(rt, alloc, bytes),
        None => Ok(()),
    }
}

/// What stands in front of the waveform's body, where its file is wanted.
fn wanted_head(
    alloc: Global,
    showing: Showing<'_>,
    changes: &SignalChanges,
) -> Result<Vec<u8>, AllocError> {
    if showing.waveform.is_some() {
        changes.head()
    } else {
        Ok(Vec::new(alloc))
    }
}

/// The picture of both pages, where its file is wanted.
fn wanted_picture(
    alloc: Global,
    showing: Showing<'_>,
    board: &Board,
) -> Result<Vec<u8>, AllocError> {
    if showing.picture.is_some() {
        picture_of(alloc, board)
    } else {
        Ok(Vec::new(alloc))
    }
}

/// The files that are wanted beside the trace.
#[derive(Drop)]
struct WantedFiles<'a> {
    waveform: Option<Output<'a>>,
    picture: Option<Output<'a>>,
}

/// The files that are wanted beside the trace, which nothing is written to yet.
fn wanted_files<'a>(
    rt: &HostRuntime,
    alloc: Global,
    showing: Showing<'a>,
) -> Result<WantedFiles<'a>, Stop> {
    let waveform = wanted_file(rt, alloc, showing.waveform)?;
    let picture = wanted_file(rt, alloc, showing.picture)?;
    Ok(WantedFiles { waveform, picture })
}

/// Refuses a file that is wanted and cannot be written.
fn refuse_unwritable(
    rt: &HostRuntime,
    alloc: Global,
    file: &mut Option<Output<'_>>,
) -> Result<(), Stop> {
    match file {
        Some(file) => file.refuse_unwritable(rt, alloc),
        None => Ok(()),
    }
}

/// Writes the waveform and the picture, where they are wanted, once both are made.
fn write_shown(
    rt: &HostRuntime,
    alloc: Global,
    files: &mut WantedFiles<'_>,
    showing: Showing<'_>,
    shown: Shown,
    board: &Board,
) -> Result<(), Stop> {
    let Shown { changes, body } = shown;
    let head = wanted_head(alloc, showing, &changes)?;
    drop(changes);
    let picture = wanted_picture(alloc, showing, board)?;
    write_waveform(rt, alloc, &mut files.waveform, &head, body)?;
    write_wanted(rt, alloc, &mut files.picture, &picture)
}

/// Writes the waveform, where it is wanted: what stands in front of its body, and the body.
fn write_waveform(
    rt: &HostRuntime,
    alloc: Global,
    file: &mut Option<Output<'_>>,
    head: &[u8],
    body: WaveBody,
) -> Result<(), Stop> {
    match file {
        Some(file) => body.write(rt, alloc, file, head),
        None => Ok(()),
    }
}

/// The stop for a run that was cut short: by want of memory, or since standard output or the waveform's body cannot be written.
fn cut_short_by(
    alloc: Global,
    fault: Fault,
    files: &WantedFiles<'_>,
    shown: &Shown,
) -> Result<Stop, Stop> {
    match shown.body.stop(alloc, &files.waveform)? {
        Some(stop) => Ok(stop),
        None => Ok(cut_short(fault)),
    }
}

/// Runs a board, and writes what is shown beside the trace. A file that cannot be written is told before the run.
fn run_board<S: Sink>(
    rt: &HostRuntime,
    run: Run<'_>,
    board: &mut Board,
    schedule: &Schedule,
    wanted: Wanted<'_, '_>,
    files: &mut WantedFiles<'_>,
    errors: &mut S,
) -> Result<u8, Stop> {
    let alloc = rt.alloc();
    refuse_unwritable(rt, alloc, &mut files.waveform)?;
    refuse_unwritable(rt, alloc, &mut files.picture)?;
    let mut shown = Shown {
        body: WaveBody::new(rt, alloc, &mut files.waveform)?,
        changes: SignalChanges::new(alloc, wanted.showing.waveform.is_some()),
    };
    match trace(rt, alloc, board, schedule, wanted, &mut shown) {
        Err(fault) => Err(cut_short_by(alloc, fault, files, &shown)?),
        Ok(WatchedEnd { end, turns }) => {
            write_shown(rt, alloc, files, wanted.showing, shown, board)?;
            // The run is made: where memory is wanting for the note, nothing else is lost.
            let _ = say_dead(alloc, run, board, turns, errors);
            Ok(status(&Ok(end)))
        }
    }
}

/// Runs a ROM.
fn run_schedule<S: Sink>(
    rt: &HostRuntime,
    alloc: Global,
    run: Run<'_>,
    schedule: &Schedule,
    wanted: Wanted<'_, '_>,
    errors: &mut S,
) -> Result<u8, Stop> {
    let mut files = wanted_files(rt, alloc, wanted.showing)?;
    let ran = run_anew(rt, run, schedule, wanted, &mut files, errors);
    drop(files);
    ran
}

/// Runs a board with the ROM, and writes what is shown beside the trace.
fn run_anew<S: Sink>(
    rt: &HostRuntime,
    run: Run<'_>,
    schedule: &Schedule,
    wanted: Wanted<'_, '_>,
    files: &mut WantedFiles<'_>,
    errors: &mut S,
) -> Result<u8, Stop> {
    let mut board = board_of(rt.alloc(), run, schedule)?;
    let ran = run_board(rt, run, &mut board, schedule, wanted, files, errors);
    drop(board);
    ran
}

/// Refuses a run by which a file would be lost.
fn refuse_losses<R: Files>(
    rt: &R,
    alloc: Global,
    rom_name: &str,
    schedule_name: &str,
    showing: Showing<'_>,
) -> Result<(), Stop> {
    let outputs = [
        (Purpose::Waveform, showing.waveform),
        (Purpose::Picture, showing.picture),
    ];
    let inputs = [
        (Purpose::Input, Some(rom_name)),
        (Purpose::Input, Some(schedule_name)),
        (Purpose::Input, showing.names),
    ];
    refuse_run_losses(rt, alloc, &outputs, &inputs)
}

// What is shown beside the trace. (The names live longer than the slice of them. A call shortens their lifetime to the slice's; a struct that
// is written out would not.)
fn watch_of<'w>(
    turns: bool,
    stop_at: Option<u32>,
    names: Option<&'w [PlaceName<'w>]>,
) -> Watch<'w> {
    Watch {
        turns,
        stop_at,
        names,
    }
}

/// `run [--turns] [--screen] [--ansi] [--registers] [--dump FROM,TO] [--stop-at ADDRESS] [--names MAP] [--vcd VCD] [--picture PICTURE] ROM
/// SCHEDULE`: all files are read before anything is run.
pub(crate) fn run_rom<S: Sink>(
    rt: &HostRuntime,
    alloc: Global,
    rom_name: &str,
    schedule_name: &str,
    showing: Showing<'_>,
    telling: Telling,
    errors: &mut S,
) -> Result<u8, Stop> {
    let dump = addresses_given(alloc, showing.dump)?;
    let stop_at = address_given(alloc, showing.stop_at)?;
    refuse_losses(rt, alloc, rom_name, schedule_name, showing)?;
    let rom = read_file(rt, alloc, rom_name, Some(ROM_LIMIT))?;
    let run = Run {
        name: rom_name,
        rom: &rom,
        telling,
    };
    let asked = Asked {
        showing,
        dump,
        stop_at,
    };
    run_under(rt, alloc, run, schedule_name, asked, errors)
}

/// What the command line asks for.
#[derive(Clone, Copy)]
struct Asked<'s> {
    showing: Showing<'s>,
    dump: Option<Addresses>,
    stop_at: Option<u32>,
}

/// Runs a ROM under the schedule of a file.
fn run_under<S: Sink>(
    rt: &HostRuntime,
    alloc: Global,
    run: Run<'_>,
    schedule_name: &str,
    asked: Asked<'_>,
    errors: &mut S,
) -> Result<u8, Stop> {
    let text = read_file(rt, alloc, schedule_name, None)?;
    let map = read_map(rt, alloc, asked.showing.names)?;
    let schedule = schedule_of(alloc, run.telling, schedule_name, &text)?;
    run_with_names(rt, alloc, run, &schedule, &map, asked, errors)
}

/// The same, with the names of a map's text.
fn run_with_names<S: Sink>(
    rt: &HostRuntime,
    alloc: Global,
    run: Run<'_>,
    schedule: &Schedule,
    map: &[u8],
    asked: Asked<'_>,
    errors: &mut S,
) -> Result<u8, Stop> {
    let showing = asked.showing;
    let names = read_names(alloc, map)?;
    let named = showing.names.is_some().then_some(names.as_slice());
    let wanted = Wanted {
        showing,
        dump: asked.dump,
        watch: watch_of(showing.turns, asked.stop_at, named),
    };
    run_schedule(rt, alloc, run, schedule, wanted, errors)
}
