//! What is told of the faults of schedules and ROMs: E701 to E703, and E705.

ghost use Rattle.std.specs.Prelude.{◌≡◌, None};
ghost use Rattle.listing_map.specs.Explaining.{is_binary, is_text};

use crate::explaining::pieces::END_MARK;
use crate::explaining::sentence::{Part, put_all_parts};
use crate::explaining::told::{Mark, Told, tell, tell_so};
use crate::noted::Noted;
use std::alloc::Global;

const FILL: &[u8] = b"FILL";

const AT: &[u8] = b"AT";

const STOP: &[u8] = b"STOP";

const TICK: &[u8] = b"TICK";

const KEY: &[u8] = b"KEY";

/// The last turn that a schedule can name.
const LAST_TURN: u64 = 0xFFFF_FFFF;

/// A word of a line, and how many bytes stand before it.
#[derive(Clone, Copy)]
struct Word<'a> {
    text: &'a [u8],
    column: usize,
}

/// What a word of a line may be.
#[derive(Clone, Copy, PartialEq, Eq)]
enum Place {
    /// FILL, AT or STOP.
    Item,
    Turn,
    /// TICK or KEY.
    Event,
    Pulses,
    Byte,
    /// Nothing may follow.
    End,
}

fn is_decimal(text: &[u8]) -> bool {
    for digit in text {
        if !digit.is_ascii_digit() {
            return false;
        }
    }
    !text.is_empty()
}

/// The value of decimal digits, as far as it matters.
fn value(text: &[u8]) -> u64 {
    let mut value: u64 = 0;
    for digit in text {
        let next = value.saturating_mul(10);
        value = next.saturating_add(u64::from(digit.saturating_sub(b'0')));
    }
    value
}

fn is_hexadecimal(text: &[u8]) -> bool {
    for digit in text {
        if !digit.is_ascii_hexdigit() {
            return false;
        }
    }
    text.len() == 2
}

impl Place {
    fn takes(self, text: &[u8]) -> bool {
        match self {
            Place::Item => text == FILL || text == AT || text == STOP,
            Place::Turn => is_decimal(text) && value(text) <= LAST_TURN,
            Place::Event => text == TICK || text == KEY,
            Place::Pulses => is_decimal(text) && 1 <= value(text) && value(text) <= 0xFFFF,
            Place::Byte => is_hexadecimal(text),
            Place::End => false,
        }
    }

    /// What may stand after a word here.
    fn after(self, item: &[u8], text: &[u8]) -> Place {
        match self {
            Place::Item if text == FILL => Place::Byte,
            Place::Item => Place::Turn,
            Place::Turn if item == AT => Place::Event,
            Place::Event if text == TICK => Place::Pulses,
            Place::Event => Place::Byte,
            Place::Turn | Place::Pulses | Place::Byte | Place::End => Place::End,
        }
    }

    /// What can stand here, and a line that has it.
    fn wanted(self) -> (&'static str, &'static str) {
        match self {
            Place::Item => (
                "FILL, AT or STOP",
                "in capitals and first in its line, as in AT 100 KEY 1E",
            ),
            Place::Turn => ("a turn", "in decimal, as in AT 100 KEY 1E or STOP 20000"),
            Place::Event => ("TICK or KEY", "in capitals, as in AT 100 TICK 5"),
            Place::Pulses => (
                "the number of pulses",
                "in decimal, 1 to 65535, as in AT 100 TICK 5",
            ),
            Place::Byte => ("two hexadecimal digits", "as in AT 100 KEY 1E"),
            Place::End => (
                "nothing",
                "as a line has one item, and a comment stands in one of its own that begins with \";\"",
            ),
        }
    }
}

/// Where a line leaves its form.
#[derive(Clone, Copy)]
struct Misfit<'a> {
    /// The word that does not fit; the last one where the line is too short.
    word: Word<'a>,
    is_short: bool,
    /// What is expected there, or behind it.
    place: Place,
}

/// Where a line leaves its form: at the first word that does not fit, so that the words behind it are not looked at.
fn first_misfit(line: &[u8]) -> Misfit<'_> {
    let mut place = Place::Item;
    let mut item: &[u8] = b"";
    let mut last = Word {
        text: line,
        column: 0,
    };
    let mut column: usize = 0;
    for text in line.split(|byte| *byte == b' ') {
        last = Word { text, column };
        if !place.takes(text) {
            return Misfit {
                word: last,
                is_short: false,
                place,
            };
        }
        if place == Place::Item {
            item = text;
        }
        place = place.after(item, text);
        column = column.saturating_add(text.len()).saturating_add(1);
    }
    Misfit {
        word: last,
        is_short: true,
        place,
    }
}

/// How the word is called at which a line leaves its form.
fn found_there<'a>(misfit: &Misfit<'a>) -> Part<'a> {
    if misfit.is_short {
        return Part::Words("the end of the line");
    }
    match misfit.word.text {
        [] => Part::Words("a space"),
        text => Part::Spelled(text),
    }
}

/// What is told of E701, of which this is the line.
pub(crate) fn schedule_line(alloc: Global, line: &[u8]) -> Told {
    let misfit = first_misfit(line);
    let (wanted, form) = misfit.place.wanted();
    let parts = [
        Part::Words("found "),
        found_there(&misfit),
        Part::Words(", where "),
        Part::Words(wanted),
        Part::Words(" can stand, "),
        Part::Words(limit(&misfit)),
        Part::Words(form),
    ];
    let mut answer = tell(alloc, None, &parts);
    answer.mark = Some(mark_of(&misfit.word, line));
    answer
}

/// What is said of a turn that is a number, but one above the last turn.
fn limit(misfit: &Misfit<'_>) -> &'static str {
    if misfit.place == Place::Turn && !misfit.is_short && is_decimal(misfit.word.text) {
        "at most 4294967295, "
    } else {
        ""
    }
}

/// Whether a byte is one that no text has: a control character except those that part lines and words or end a text, or 0FFH.
fn is_binary(byte: u8) -> bool
    ensures { result ≡ is_binary byte }
{
    match byte {
        b'\t' | b'\n' | 12 | b'\r' | END_MARK => false,
        0..=31 | 127 | 255 => true,
        _ => false,
    }
}

/// Whether a file is a text, as far as its bytes tell.
pub(crate) fn is_text(file: &[u8]) -> bool
    ensures { result ≡ is_text file.now }
{
    for byte in file {
        if is_binary(*byte) {
            return false;
        }
    }
    true
}

/// What is told of a schedule that is not a text: nothing of it is quoted.
pub(crate) fn no_text(alloc: Global) -> Told
    ensures { result.mark ≡ None }
{
    let words = "this file is no text: the ROM is named first";
    tell(alloc, None, &[Part::Words(words)])
}

/// A mark under a word of a line; under the last space where the word behind it is empty.
fn mark_of(word: &Word<'_>, line: &[u8]) -> Mark {
    Mark {
        column: word.column.min(line.len().saturating_sub(1)),
        width: word.text.len().max(1),
    }
}

/// The first word of a line, and what stands behind the space after it; nothing where there is no space.
fn first_word(line: &[u8]) -> Option<(&[u8], &[u8])> {
    for (at, byte) in line.iter().enumerate() {
        if *byte == b' ' {
            return Some((&line[..at], &line[at + 1..]));
        }
    }
    None
}

/// The turn that a line names, if it names one.
fn turn_of(line: &[u8]) -> Option<u64> {
    let (item, rest) = first_word(line)?;
    if item != AT && item != STOP {
        return None;
    }
    match first_word(rest) {
        Some((turn, _)) => Some(value(turn)),
        None => Some(value(rest)),
    }
}

/// What the lines before the faulty one come to: the last turn, and whether STOP is among them.
#[derive(Clone, Copy)]
struct Before {
    turn: Option<u64>,
    has_stop: bool,
}

fn lines_before(text: &[u8], line: u32) -> Before {
    let mut found = Before {
        turn: None,
        has_stop: false,
    };
    let mut number: u32 = 0;
    for other in text.split(|byte| *byte == b'\n') {
        number = number.saturating_add(1);
        if number >= line {
            return found;
        }
        if let Some(turn) = turn_of(other) {
            found.turn = Some(turn);
        }
        found.has_stop = found.has_stop || other.starts_with(b"STOP ");
    }
    found
}

/// The rule that a line breaks which is out of order behind these.
fn put_order(text: &mut Noted<u8>, before: Before, quoted: &[u8]) {
    if before.has_stop {
        let rule = Part::Words("STOP is the last line that is no comment");
        put_all_parts(text, &[rule]);
        return;
    }
    match before.turn {
        Some(turn) if !quoted.starts_with(b"FILL ") => {
            let parts = [
                Part::Words("the event before has turn "),
                Part::Number(turn),
                Part::Words(if quoted.starts_with(b"STOP ") {
                    ", and STOP's is above it"
                } else {
                    ", and turns do not fall: sort the lines"
                }),
            ];
            put_all_parts(text, &parts);
        }
        Some(_) | None => {
            let rule = Part::Words("FILL is the first line that is no comment, and stands once");
            put_all_parts(text, &[rule]);
        }
    }
}

/// What is told of E702.
pub(crate) fn schedule_order(alloc: Global, text: &[u8], quoted: &[u8], line: u32) -> Told {
    let before = lines_before(text, line);
    let mut help = Noted::new(alloc);
    put_order(&mut help, before, quoted);
    let mut answer = tell_so(None, help);
    answer.mark = Some(Mark {
        column: 0,
        width: quoted.len(),
    });
    answer
}

/// What is told of E703.
pub(crate) fn no_stop(alloc: Global) -> Told {
    let words = "the schedule ends with a line that says when the run ends, as STOP 20000";
    tell(alloc, None, &[Part::Words(words)])
}

/// What is told of E705, of a ROM of so many bytes.
pub(crate) fn rom_length(alloc: Global, length: usize) -> Told
    ensures { result.mark ≡ None }
{
    tell(
        alloc,
        None,
        &[
            Part::Words("the file has "),
            Part::Words(if length > 65_536 {
                "more than 65536"
            } else {
                ""
            }),
            if length > 65_536 {
                Part::Words("")
            } else {
                Part::Number(length as u64)
            },
            Part::Words(
                " bytes, and a ROM has 8192, 16384, 32768 or 65536: bytes 0FFH in front make a shorter one longer; the ROM is named before the schedule",
            ),
        ],
    )
}
