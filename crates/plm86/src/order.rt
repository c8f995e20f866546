//! What a command line comes to.

ghost use Rattle.std.specs.Prelude.{◌≡◌};
ghost use Rattle.plm86.specs.declared.order.OrderFault.TheVariants.{Memory};

use layout_link::RomSize;
use std::alloc::{AllocError, AllocFailed};

/// How messages are written on standard error.
#[derive(Clone, Copy)]
pub enum MessageFormat {
    /// Lines for people.
    Text,
    /// An object in JSON for each message, one a line.
    Json,
}

/// What a command tells of faults on standard error.
#[derive(Clone, Copy)]
pub struct Telling {
    /// Whether each fault is explained.
    pub explains: bool,
    /// Whether what compiles and is mostly a mistake is noted.
    pub lints: bool,
    /// Whether all faults of names or types are told, and not the first one alone.
    pub tells_all: bool,
    pub format: MessageFormat,
}

/// How faults are told before an order is known: a line each.
pub const PLAIN: Telling = Telling {
    explains: false,
    lints: false,
    tells_all: false,
    format: MessageFormat::Text,
};

/// The files of a ROM's other forms, and of its code as a listing, each where it is wanted, and what the ROM's free bytes hold.
#[derive(Clone, Copy)]
pub struct RomForms<'a> {
    /// Intel HEX.
    pub hex: Option<&'a str>,
    /// The bytes at even addresses.
    pub even: Option<&'a str>,
    /// The bytes at odd addresses.
    pub odd: Option<&'a str>,
    /// An assembler's listing.
    pub code: Option<&'a str>,
    /// The byte that free bytes hold, as it is written; 0 where none is given.
    pub pad: Option<&'a str>,
}

/// What a run shows beside its trace.
#[derive(Clone, Copy)]
pub struct Showing<'a> {
    /// In front of each line its turn.
    pub turns: bool,
    /// At the end the text on both pages of the screen.
    pub screen: bool,
    /// At the end the same with its colours.
    pub ansi: bool,
    /// At the end the registers.
    pub registers: bool,
    /// At the end the bytes from one physical address through another, as they are written.
    pub dump: Option<&'a str>,
    /// The physical address before whose instruction the run stops, as it is written.
    pub stop_at: Option<&'a str>,
    /// The file of the map whose names stand behind the lines.
    pub names: Option<&'a str>,
    /// The file that the waveform is written to.
    pub waveform: Option<&'a str>,
    /// The file that a picture of both pages at the end is written to.
    pub picture: Option<&'a str>,
}

/// What a run of the meaning shows beside its trace.
#[derive(Clone, Copy)]
pub struct Following<'a> {
    /// In front of each line its turn.
    pub turns: bool,
    /// A variable, each change of which has a line.
    pub watched: Option<&'a str>,
}

/// What the command line asks for.
#[derive(Drop)]
pub enum Order<'a> {
    /// `build -r KIB -o ROM [-l LISTING] [-m MAP] [--hex HEX] [--even EVEN] [--odd ODD] [--code CODE] [--pad BYTE] SOURCE...`: the ROM's
    /// size, its file's name, those of the listing, the map and the ROM's other forms where they are wanted, and those of the sources.
    Build {
        size: RomSize,
        rom: &'a str,
        listing: Option<&'a str>,
        map: Option<&'a str>,
        forms: RomForms<'a>,
        telling: Telling,
        sources: Vec<&'a str>,
    },
    /// `run [--turns] [--screen] [--ansi] [--registers] [--dump FROM,TO] [--stop-at ADDRESS] [--names MAP] [--vcd VCD] [--picture PICTURE] ROM
    /// SCHEDULE`, with the files' names, and what is shown beside the trace.
    Run {
        rom: &'a str,
        schedule: &'a str,
        showing: Showing<'a>,
        telling: Telling,
    },
    /// `mean [--turns] [--watch NAME] SCHEDULE SOURCE...`, with the files' names, and what is shown beside the trace.
    Mean {
        schedule: &'a str,
        following: Following<'a>,
        telling: Telling,
        sources: Vec<&'a str>,
    },
}

/// Why there is no order.
#[derive(Drop)]
pub enum OrderFault {
    /// The words are refused: the text that says why.
    Words(String),
    /// The words ask for help or the version, which is no refusal: the text of it.
    Help(String),
    /// A growth of memory was refused.
    Memory,
}

impl From<AllocError> for OrderFault {
    ghost from_gives = { λ _ e. e ≡ Memory };

    fn from(_refused: AllocError) -> OrderFault {
        OrderFault::Memory
    }
}

impl<T: Drop> From<AllocFailed<T>> for OrderFault {
    ghost from_gives = { λ _ e. e ≡ Memory };

    fn from(_refused: AllocFailed<T>) -> OrderFault {
        OrderFault::Memory
    }
}
