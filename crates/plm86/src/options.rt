//! The options of the commands: each has one row here, one line in `specs/CommandLine.antt`, and one in the order that it gives.

ghost use Rattle.std.specs.Prelude.{◌≡◌, ◌++◌, IfOk, false, map, fold};
ghost use Rattle.clap.specs.Words.{app_of, rule_of, with_rule};
ghost use Rattle.clap.specs.declared.builder.command.Command.TheViews.{out-Command};
ghost use Rattle.plm86.specs.CommandLine.{lettered, worded, flagged};
ghost use Rattle.plm86.specs.Inner.Options.{rule_for};

use clap::{Arg, ArgAction, Command};
use std::alloc::{AllocError, Global};

/// How an option is given.
#[derive(Clone, Copy)]
pub(crate) enum Form {
    /// By a letter, with a value of this name.
    Letter {
        letter: char,
        value: &'static str,
        is_required: bool,
    },
    /// By its name, with a value of this name.
    Word(&'static str),
    /// By its name alone.
    Flag,
}

/// An option: its name, how it is given, and what it does.
#[derive(Clone, Copy)]
pub(crate) struct CommandOption {
    pub name: &'static str,
    pub form: Form,
    pub help: &'static str,
}

/// Of the commands that read sources.
const LINT: CommandOption = CommandOption {
    name: "lint",
    form: Form::Flag,
    help: "Notes what compiles and is mostly a mistake",
};

/// Of the same.
const ALL: CommandOption = CommandOption {
    name: "all",
    form: Form::Flag,
    help: "Tells all faults of names or types, and not the first one alone",
};

/// Of the commands that run something.
const TURNS: CommandOption = CommandOption {
    name: "turns",
    form: Form::Flag,
    help: "Writes each line after its turn and a blank",
};

/// Those of `build`.
pub(crate) const BUILD_OPTIONS: &[CommandOption] = &[
    CommandOption {
        name: "kib",
        form: Form::Letter {
            letter: 'r',
            value: "KIB",
            is_required: true,
        },
        help: "The size of the ROM in KiB: 8, 16, 32 or 64",
    },
    CommandOption {
        name: "rom",
        form: Form::Letter {
            letter: 'o',
            value: "ROM",
            is_required: true,
        },
        help: "The file that the ROM is written to, once nothing is refused",
    },
    CommandOption {
        name: "listing",
        form: Form::Letter {
            letter: 'l',
            value: "LISTING",
            is_required: false,
        },
        help: "The file that the listing is written to: the sources with their warnings",
    },
    CommandOption {
        name: "map",
        form: Form::Letter {
            letter: 'm',
            value: "MAP",
            is_required: false,
        },
        help: "The file that the map is written to: where names, handlers and stack lie",
    },
    CommandOption {
        name: "hex",
        form: Form::Word("HEX"),
        help: "The file that the ROM is written to as Intel HEX, at its physical addresses",
    },
    CommandOption {
        name: "even",
        form: Form::Word("EVEN"),
        help: "The file that the ROM's bytes at even addresses are written to",
    },
    CommandOption {
        name: "odd",
        form: Form::Word("ODD"),
        help: "The file that the ROM's bytes at odd addresses are written to",
    },
    CommandOption {
        name: "code",
        form: Form::Word("CODE"),
        help: "The file that the code is written to, its instructions under each statement",
    },
    CommandOption {
        name: "pad",
        form: Form::Word("BYTE"),
        help: "What the ROM's free bytes hold, two hexadecimal digits: 00 where it is not given",
    },
    LINT,
    ALL,
];

/// Those of `run`.
pub(crate) const RUN_OPTIONS: &[CommandOption] = &[
    TURNS,
    CommandOption {
        name: "screen",
        form: Form::Flag,
        help: "Writes at the end the text on both pages of the screen",
    },
    CommandOption {
        name: "ansi",
        form: Form::Flag,
        help: "Writes at the end the same with its colours, for a terminal",
    },
    CommandOption {
        name: "registers",
        form: Form::Flag,
        help: "Writes at the end the registers",
    },
    CommandOption {
        name: "dump",
        form: Form::Word("FROM,TO"),
        help: "Writes at the end the bytes from one physical address through another, both in hexadecimal",
    },
    CommandOption {
        name: "stop-at",
        form: Form::Word("ADDRESS"),
        help: "Stops before the instruction at this physical address, in hexadecimal",
    },
    CommandOption {
        name: "names",
        form: Form::Word("MAP"),
        help: "Writes behind each line the name of what it is of, from the map in this file",
    },
    CommandOption {
        name: "vcd",
        form: Form::Word("VCD"),
        help: "The file that ports, acknowledgements, INT and the timer's output are written to for a viewer of waveforms",
    },
    CommandOption {
        name: "picture",
        form: Form::Word("PICTURE"),
        help: "The file that a picture of both pages of the screen at the end is written to, as PPM",
    },
];

/// Those of `mean`.
pub(crate) const MEAN_OPTIONS: &[CommandOption] = &[
    LINT,
    ALL,
    TURNS,
    CommandOption {
        name: "watch",
        form: Form::Word("NAME"),
        help: "Writes a line at each step that changes this variable, as M.COUNT",
    },
];

/// Those of every command, which say how faults are told.
pub(crate) const TELLING_OPTIONS: &[CommandOption] = &[
    CommandOption {
        name: "explain",
        form: Form::Flag,
        help: "Says under each fault what was found and what would do, as on a terminal",
    },
    CommandOption {
        name: "message-format",
        form: Form::Word("FORMAT"),
        help: "How faults, warnings and notes are written on standard error: text, or json with an object a line",
    },
];

fn letter_option<'a>(
    alloc: Global,
    name: &'a str,
    letter: char,
    value: &'a str,
    is_required: bool,
    help: &'a str,
) -> Arg<'a>
    ensures rule { rule_of result ≡ lettered name.entry.now letter is_required }
    ensures local { result.global ≡ false }
{
    Arg::new(alloc, name)
        .help(help)
        .value_name(value)
        .short(letter)
        .required(is_required)
}

fn word_option<'a>(alloc: Global, name: &'a str, value: &'a str, help: &'a str) -> Arg<'a>
    ensures rule { rule_of result ≡ worded name.entry.now }
    ensures local { result.global ≡ false }
{
    Arg::new(alloc, name)
        .help(help)
        .value_name(value)
        .long(name)
}

fn flag_option<'a>(alloc: Global, name: &'a str, help: &'a str) -> Arg<'a>
    ensures rule { rule_of result ≡ flagged name.entry.now }
    ensures local { result.global ≡ false }
{
    Arg::new(alloc, name)
        .help(help)
        .long(name)
        .action(ArgAction::SetTrue)
}

/// The option as `clap` knows it.
fn option(alloc: Global, given: CommandOption) -> Arg<'static>
    ensures rule { rule_of result ≡ rule_for given }
    ensures local { result.global ≡ false }
{
    match given.form {
        Form::Letter {
            letter,
            value,
            is_required,
        } => letter_option(alloc, given.name, letter, value, is_required, given.help),
        Form::Word(value) => word_option(alloc, given.name, value, given.help),
        Form::Flag => flag_option(alloc, given.name, given.help),
    }
}

/// The command with these options behind its others.
pub(crate) fn with_options<'a>(
    alloc: Global,
    command: Command<'a>,
    options: &[CommandOption],
) -> Result<Command<'a>, AllocError>
    requires { (out-Command command).has_globals ≡ false }
    ensures { IfOk result (λ c. (app_of c ≡ fold with_rule (app_of command.entry) (map rule_for options.now)) × ((out-Command c).has_globals ≡ false)) }
{
    let mut with = command;
    for given in options {
        with = with.arg(option(alloc, *given))?;
    }
    Ok(with)
}
