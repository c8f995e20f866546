//! The command line.

ghost use Rattle.std.specs.Prelude.{◌≡◌, IfOk, IfErr, Some, false, codes, map, option_map};
ghost use Rattle.clap.specs.Words.{app_of, rule_of, found_of, first_of, kind_of, rows_of};
ghost use Rattle.clap.specs.declared.builder.command.Command.TheViews.{out-Command};
ghost use Rattle.plm86.specs.Order.{FollowingOf, FormsOf, IsFaultOf, OrderOf, ShowingOf, Spells, TellingOf, format_named, is_set, size_named, value_of, values_of};
ghost use Rattle.plm86.specs.CommandLine.{plm86_app, build_app, run_app, mean_app, needed, several};
ghost use Rattle.plm86.specs.Inner.Orders.{IsFaultFor, IsFormatFault, IsValueFault};

use crate::options::{BUILD_OPTIONS, MEAN_OPTIONS, RUN_OPTIONS, TELLING_OPTIONS, with_options};
use crate::order::{Following, MessageFormat, Order, OrderFault, RomForms, Showing, Telling};
use clap::error::ErrorKind;
use clap::{Arg, ArgAction, ArgMatches, Command, Error};
use layout_link::RomSize;
use std::alloc::{AllocError, Global};

/// The version that `--version` shows.
const VERSION: &str = "0.2.0";

fn positional<'a>(alloc: Global, id: &'a str, name: &'a str, help: &'a str) -> Arg<'a>
    ensures rule { rule_of result ≡ needed id.entry.now }
    ensures local { result.global ≡ false }
{
    Arg::new(alloc, id)
        .help(help)
        .value_name(name)
        .required(true)
}

fn sources<'a>(alloc: Global) -> Arg<'a>
    ensures rule { rule_of result ≡ several (codes "source") }
    ensures local { result.global ≡ false }
{
    let help = "The sources, one module each; one of them is the main module";
    positional(alloc, "source", "SOURCE", help).action(ArgAction::Append)
}

fn schedule_argument<'a>(alloc: Global) -> Arg<'a>
    ensures rule { rule_of result ≡ needed (codes "schedule") }
    ensures local { result.global ≡ false }
{
    let help = "The file that says what comes from outside, and when the run stops";
    positional(alloc, "schedule", "SCHEDULE", help)
}

fn build_command<'a>(alloc: Global) -> Result<Command<'a>, AllocError>
    ensures { IfOk result (λ c. (app_of c ≡ build_app) × ((out-Command c).has_globals ≡ false)) }
{
    let command = Command::new(alloc, "build").about("Compiles PL/M-86 modules to an 8086 ROM");
    let own = with_options(alloc, command, BUILD_OPTIONS)?;
    let told = with_options(alloc, own, TELLING_OPTIONS)?;
    let source = sources(alloc);
    told.arg(source)
}

fn run_command<'a>(alloc: Global) -> Result<Command<'a>, AllocError>
    ensures { IfOk result (λ c. (app_of c ≡ run_app) × ((out-Command c).has_globals ≡ false)) }
{
    let rom_help = "The file of the ROM: 8, 16, 32 or 64 KiB that end at address 0FFFFFH";
    let rom = positional(alloc, "rom", "ROM", rom_help);
    let schedule = schedule_argument(alloc);
    let command = Command::new(alloc, "run").about(
        "Runs a ROM on the board and writes its trace to standard output",
    );
    let own = with_options(alloc, command, RUN_OPTIONS)?;
    let told = with_options(alloc, own, TELLING_OPTIONS)?;
    told.arg(rom)?.arg(schedule)
}

fn mean_command<'a>(alloc: Global) -> Result<Command<'a>, AllocError>
    ensures { IfOk result (λ c. (app_of c ≡ mean_app) × ((out-Command c).has_globals ≡ false)) }
{
    let schedule = schedule_argument(alloc);
    let source = sources(alloc);
    let command = Command::new(alloc, "mean").about(
        "Runs what PL/M-86 modules mean and writes the trace to standard output",
    );
    let own = with_options(alloc, command, MEAN_OPTIONS)?;
    let told = with_options(alloc, own, TELLING_OPTIONS)?;
    told.arg(schedule)?.arg(source)
}

fn whole_command<'a>(alloc: Global) -> Result<Command<'a>, AllocError>
    ensures { IfOk result (λ c. app_of c ≡ plm86_app) }
{
    Command::new(alloc, "plm86")
        .about("A proved PL/M-86 compiler for 8086 firmware, and a proved board that runs ROMs")
        .version(VERSION)
        .bin_name("plm86")?
        .no_binary_name(true)
        .disable_help_subcommand(true)
        .subcommand_required(true)
        .subcommand(build_command(alloc)?)?
        .subcommand(run_command(alloc)?)?
        .subcommand(mean_command(alloc)?)
}

// The size that a text names.
fn size_of_text(text: &str) -> Option<RomSize>
    ensures { result ≡ size_named text.now }
{
    match text {
        "8" => Some(RomSize::Kib8),
        "16" => Some(RomSize::Kib16),
        "32" => Some(RomSize::Kib32),
        "64" => Some(RomSize::Kib64),
        _ => None,
    }
}

fn option_given<'a>(matches: &ArgMatches<'a>, id: &str) -> Option<&'a str>
    ensures { option_map (λ s. s.now) result ≡ first_of id.now (rows_of (found_of matches.now)) }
{
    matches.get_str(id)
}

fn text_given<'a>(matches: &ArgMatches<'a>, id: &str) -> &'a str
    ensures { result.now ≡ value_of id.now (rows_of (found_of matches.now)) }
{
    match option_given(matches, id) {
        Some(text) => text,
        None => "",
    }
}

fn texts_given<'a>(
    alloc: Global,
    matches: &ArgMatches<'a>,
    id: &str,
) -> Result<Vec<&'a str>, AllocError>
    ensures { IfOk result (λ v. map (λ s. s.now) v.items ≡ values_of id.now (rows_of (found_of matches.now))) }
{
    match matches.get_strs(id) {
        Some(texts) => Vec::from_slice(alloc, texts),
        None => Ok(Vec::new(alloc)),
    }
}

fn flag_given(matches: &ArgMatches<'_>, id: &str) -> bool
    ensures { result ≡ is_set id.now (rows_of (found_of matches.now)) }
{
    text_given(matches, id) == "true"
}

// The format that a text names.
fn format_of_text(text: Option<&str>) -> Option<MessageFormat>
    ensures { result ≡ format_named (option_map (λ s. s.now) text.entry) }
{
    match text {
        None => Some(MessageFormat::Text),
        Some("text") => Some(MessageFormat::Text),
        Some("json") => Some(MessageFormat::Json),
        Some(_) => None,
    }
}

// How faults are told.
fn telling_given(alloc: Global, matches: &ArgMatches<'_>) -> Result<Telling, OrderFault>
    ensures ok { IfOk result (TellingOf (rows_of (found_of matches.now))) }
    ensures err { IfErr result (IsFormatFault (rows_of (found_of matches.now))) }
{
    let name = option_given(matches, "message-format");
    match format_of_text(name) {
        Some(format) => Ok(Telling {
            explains: flag_given(matches, "explain"),
            lints: flag_given(matches, "lint"),
            tells_all: flag_given(matches, "all"),
            format,
        }),
        None => {
            let name = name.unwrap_or("");
            let words = format!(in alloc; "error: FORMAT is text or json, and not '{name}'\n")?;
            Err(OrderFault::Words(words))
        }
    }
}

// The files of the ROM's other forms.
fn forms_given<'a>(matches: &ArgMatches<'a>) -> RomForms<'a>
    ensures { FormsOf (rows_of (found_of matches.now)) result }
{
    RomForms {
        hex: option_given(matches, "hex"),
        even: option_given(matches, "even"),
        odd: option_given(matches, "odd"),
        code: option_given(matches, "code"),
        pad: option_given(matches, "pad"),
    }
}

// The order of `build`, for a ROM of this size.
fn sized_order<'a>(
    alloc: Global,
    size: RomSize,
    matches: &ArgMatches<'a>,
) -> Result<Order<'a>, OrderFault>
    requires { size_named (value_of (codes "kib") (rows_of (found_of matches.now))) ≡ Some size }
    ensures ok { IfOk result (OrderOf (codes "build") (rows_of (found_of matches.now))) }
    ensures err { IfErr result (IsValueFault (codes "build") (rows_of (found_of matches.now))) }
{
    let telling = telling_given(alloc, matches)?;
    let sources = texts_given(alloc, matches, "source")?;
    Ok(Order::Build {
        size,
        rom: text_given(matches, "rom"),
        listing: option_given(matches, "listing"),
        map: option_given(matches, "map"),
        forms: forms_given(matches),
        telling,
        sources,
    })
}

fn build_order<'a>(alloc: Global, matches: &ArgMatches<'a>) -> Result<Order<'a>, OrderFault>
    ensures ok { IfOk result (OrderOf (codes "build") (rows_of (found_of matches.now))) }
    ensures err { IfErr result (IsValueFault (codes "build") (rows_of (found_of matches.now))) }
{
    let kib = text_given(matches, "kib");
    match size_of_text(kib) {
        Some(size) => sized_order(alloc, size, matches),
        None => {
            let text = format!(in alloc; "error: KIB is 8, 16, 32 or 64, and not '{kib}'\n")?;
            Err(OrderFault::Words(text))
        }
    }
}

// What a run shows beside its trace.
fn showing_given<'a>(matches: &ArgMatches<'a>) -> Showing<'a>
    ensures { ShowingOf (rows_of (found_of matches.now)) result }
{
    Showing {
        turns: flag_given(matches, "turns"),
        screen: flag_given(matches, "screen"),
        ansi: flag_given(matches, "ansi"),
        registers: flag_given(matches, "registers"),
        dump: option_given(matches, "dump"),
        stop_at: option_given(matches, "stop-at"),
        names: option_given(matches, "names"),
        waveform: option_given(matches, "vcd"),
        picture: option_given(matches, "picture"),
    }
}

fn run_order<'a>(alloc: Global, matches: &ArgMatches<'a>) -> Result<Order<'a>, OrderFault>
    ensures ok { IfOk result (OrderOf (codes "run") (rows_of (found_of matches.now))) }
    ensures err { IfErr result (IsValueFault (codes "run") (rows_of (found_of matches.now))) }
{
    let telling = telling_given(alloc, matches)?;
    Ok(Order::Run {
        rom: text_given(matches, "rom"),
        schedule: text_given(matches, "schedule"),
        showing: showing_given(matches),
        telling,
    })
}

// What a run of the meaning shows beside its trace.
fn following_given<'a>(matches: &ArgMatches<'a>) -> Following<'a>
    ensures { FollowingOf (rows_of (found_of matches.now)) result }
{
    let turns = flag_given(matches, "turns");
    Following {
        turns,
        watched: option_given(matches, "watch"),
    }
}

fn mean_order<'a>(alloc: Global, matches: &ArgMatches<'a>) -> Result<Order<'a>, OrderFault>
    ensures ok { IfOk result (OrderOf (codes "mean") (rows_of (found_of matches.now))) }
    ensures err { IfErr result (IsValueFault (codes "mean") (rows_of (found_of matches.now))) }
{
    let schedule = text_given(matches, "schedule");
    let telling = telling_given(alloc, matches)?;
    let sources = texts_given(alloc, matches, "source")?;
    Ok(Order::Mean {
        schedule,
        following: following_given(matches),
        telling,
        sources,
    })
}

// The fault for an error of `clap`.
fn refusal(alloc: Global, error: &Error) -> OrderFault
    ensures { IsFaultFor (kind_of error.now) result }
{
    if matches!(error.kind(), ErrorKind::OutOfMemory) {
        return OrderFault::Memory;
    }
    let Ok(text) = format!(in alloc; "{error}") else {
        return OrderFault::Memory;
    };
    if matches!(
        error.kind(),
        ErrorKind::DisplayHelp | ErrorKind::DisplayVersion
    ) {
        OrderFault::Help(text)
    } else {
        OrderFault::Words(text)
    }
}

/// The order that the words after the program's name give.
///
/// # Errors
///
/// `Words` where `clap` finds a mistake in the line, KIB is none of 8, 16, 32 and 64, or FORMAT is neither text nor json; `Help` where `clap` finds that help or the
/// version is asked for; `Memory` for want of memory.
pub fn order<'a>(alloc: Global, words: &'a [&str]) -> Result<Order<'a>, OrderFault>
    ensures ok { IfOk result (Spells (map (λ w. w.now) words.entry.now)) }
    ensures refused { IfErr result (IsFaultOf (map (λ w. w.now) words.entry.now)) }
{
    let command = whole_command(alloc)?;
    let matches = match command.try_get_matches_from(words) {
        Ok(matches) => matches,
        Err(error) => return Err(refusal(alloc, &error)),
    };
    let Some((name, inner)) = matches.subcommand() else {
        unreachable!();
    };
    if name == "build" {
        build_order(alloc, inner)
    } else if name == "run" {
        run_order(alloc, inner)
    } else {
        mean_order(alloc, inner)
    }
}
