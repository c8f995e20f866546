//! The lines of a trace, and of a fault or a warning.

ghost use Rattle.std.specs.Prelude.{◌≡◌, ◌∷◌, ◌++◌, [], IfErr, MatchOption, codes, decimal};
ghost use Rattle.word86.specs.Sink.{Writes};
ghost use Rattle.word86.specs.declared.fault.Fault.TheVariants.{At};
ghost use Rattle.word86.specs.declared.number.Number.TheVariants.{E704};
ghost use Rattle.listing_map.specs.Lines.{byte_line, word_line, short_line, decimal_line, label_line, turn_number, end_line, opcode_line, bad_line, located_line};

use crate::numerals::{hex_address, hex_byte, hex_word};
use crate::pieces::{put_at_once, put_five, put_six, put_three, put_two};
use itoa::Buffer;
use word86::{Fault, Label, Number, Sink, SinkFault, put_all};

pub(crate) const CANNOT_WRITE: Fault = Fault::At(0, 1, Number::E704);

/// Writes the line of a label, as `OUT 0300 FF`, with its line feed. The one refusal is E704, where the sink failed; what it
/// took is then a beginning of the line. It takes no memory.
pub fn trace_line<S: Sink>(label: &Label, sink: &mut S) -> Result<(), Fault>
    ensures text { Writes (S.taken sink.old) (S.taken sink.new) (S.failures sink.old) (S.failures sink.new) (label_line label.now) result }
    ensures fault { IfErr result (λ e. e ≡ At 0 1 E704) }
{
    match put_label(label, sink) {
        Ok(()) => Ok(()),
        Err(_) => Err(CANNOT_WRITE),
    }
}

/// Writes the line of a fault or of the warning, as `m.plm(1): E201 syntax`, with its line feed. The one refusal is E704,
/// where the sink failed; what it took is then a beginning of the line.
pub fn fault_line<S: Sink>(name: &str, line: u32, number: Number, sink: &mut S) -> Result<(), Fault>
    ensures text { Writes (S.taken sink.old) (S.taken sink.new) (S.failures sink.old) (S.failures sink.new) (located_line name.now line number) result }
    ensures fault { IfErr result (λ e. e ≡ At 0 1 E704) }
{
    match put_located_line(sink, name, line, number) {
        Ok(()) => Ok(()),
        Err(_) => Err(CANNOT_WRITE),
    }
}

/// Writes the line of a label as `trace_line` does. The one refusal is that the sink failed, in the sink's own words.
#[inline(always)]
pub fn put_label<S: Sink>(label: &Label, sink: &mut S) -> Result<(), SinkFault>
    ensures { Writes (S.taken sink.old) (S.taken sink.new) (S.failures sink.old) (S.failures sink.new) (label_line label.now) result }
{
    match *label {
        Label::In(port, v) => put_byte_line(sink, b"IN ", port, v),
        Label::InW(port, v) => put_word_line(sink, b"INW ", port, v),
        Label::Out(port, v) => put_whole_line(sink, b'O', b'U', b'T', port, v),
        Label::OutW(port, v) => put_whole_word_line(sink, b'O', b'U', b'T', b'W', port, v),
        Label::Scr(place, v) => put_whole_line(sink, b'S', b'C', b'R', place, v),
        Label::ScrW(place, v) => put_whole_word_line(sink, b'S', b'C', b'R', b'W', place, v),
        Label::Mono(place, v) => put_byte_line(sink, b"MONO ", place, v),
        Label::MonoW(place, v) => put_word_line(sink, b"MONOW ", place, v),
        Label::Ack(n) => put_short_line(sink, b"ACK ", n),
        Label::Tick(k) => put_decimal_line(sink, b"TICK ", u32::from(k)),
        Label::Key(h) => put_short_line(sink, b"KEY ", h),
    }
}

/// Writes the turn that stands in front of a line, as `100 `. The one refusal is that the sink failed, in the sink's own words.
pub fn put_turn_number<S: Sink>(turn: u32, sink: &mut S) -> Result<(), SinkFault>
    ensures { Writes (S.taken sink.old) (S.taken sink.new) (S.failures sink.old) (S.failures sink.new) (turn_number turn) result }
{
    let mut buffer = Buffer::new();
    put_two(sink, buffer.format(turn).as_bytes(), b" ")
}

/// Writes bytes behind their turn, where one is given, as `100 OUT 0300 FF`. The one refusal is that the sink failed, in the sink's own words.
pub fn put_behind_turn<S: Sink>(
    turn: Option<u32>,
    bytes: &[u8],
    sink: &mut S,
) -> Result<(), SinkFault>
    ensures { MatchOption turn
        (Writes (S.taken sink.old) (S.taken sink.new) (S.failures sink.old) (S.failures sink.new) bytes.now result)
        (λ n. Writes (S.taken sink.old) (S.taken sink.new) (S.failures sink.old) (S.failures sink.new) (decimal n ++ codes " " ++ bytes.now) result) }
{
    match turn {
        Some(turn) => {
            let mut buffer = Buffer::new();
            put_three(sink, buffer.format(turn).as_bytes(), b" ", bytes)
        }
        None => put_all(sink, bytes),
    }
}

/// Writes the last line of a run that came to its stop, as `END 100`: how many turns it ran, in decimal. The one refusal is
/// that the sink failed, in the sink's own words.
pub fn put_end_line<S: Sink>(turns: u32, sink: &mut S) -> Result<(), SinkFault>
    ensures { Writes (S.taken sink.old) (S.taken sink.new) (S.failures sink.old) (S.failures sink.new) (end_line turns) result }
{
    put_decimal_line(sink, b"END ", turns)
}

/// Writes the last line of a run that met bytes that are no instruction, as `OPCODE F1234`: their physical address, of which
/// the low 20 bits count. The one refusal is that the sink failed, in the sink's own words.
pub fn put_opcode_line<S: Sink>(address: u32, sink: &mut S) -> Result<(), SinkFault>
    ensures { Writes (S.taken sink.old) (S.taken sink.new) (S.failures sink.old) (S.failures sink.new) (opcode_line address) result }
{
    let [a, b, c, d, e] = hex_address(address);
    put_two(sink, b"OPCODE ", &[a, b, c, d, e, b'\n'])
}

/// Writes the last line of a run of the meaning that came to a Bad step, as `BAD m.plm(3)`: the step's source, and its line there
/// in decimal. The one refusal is that the sink failed, in the sink's own words.
pub fn put_bad_line<S: Sink>(name: &str, line: u32, sink: &mut S) -> Result<(), SinkFault>
    ensures { Writes (S.taken sink.old) (S.taken sink.new) (S.failures sink.old) (S.failures sink.new) (bad_line name.now line) result }
{
    let mut buffer = Buffer::new();
    let digits = buffer.format(line).as_bytes();
    put_five(sink, b"BAD ", name.as_bytes(), b"(", digits, b")\n")
}

fn put_located_line<S: Sink>(
    sink: &mut S,
    name: &str,
    line: u32,
    number: Number,
) -> Result<(), SinkFault>
    ensures { Writes (S.taken sink.old) (S.taken sink.new) (S.failures sink.old) (S.failures sink.new) (located_line name.now line number) result }
{
    let mut buffer = Buffer::new();
    let digits = buffer.format(line).as_bytes();
    put_six(
        sink,
        name.as_bytes(),
        b"(",
        digits,
        b"): ",
        number.text().as_bytes(),
        b"\n",
    )
}

/// A line of a word of three letters, a place and a byte, as one piece: the most frequent ones.
#[inline(always)]
fn put_whole_line<S: Sink>(
    sink: &mut S,
    first: u8,
    second: u8,
    third: u8,
    place: u16,
    v: u8,
) -> Result<(), SinkFault>
    ensures { Writes (S.taken sink.old) (S.taken sink.new) (S.failures sink.old) (S.failures sink.new) (byte_line (first ∷ second ∷ third ∷ 32 ∷ []) place v) result }
{
    let [a, b, c, d] = hex_word(place);
    let [e, f] = hex_byte(v);
    let line = [first, second, third, b' ', a, b, c, d, b' ', e, f, b'\n'];
    put_at_once(sink, &line)
}

/// The same of a word of four letters and a value of a word.
#[inline(always)]
fn put_whole_word_line<S: Sink>(
    sink: &mut S,
    first: u8,
    second: u8,
    third: u8,
    fourth: u8,
    place: u16,
    v: u16,
) -> Result<(), SinkFault>
    ensures { Writes (S.taken sink.old) (S.taken sink.new) (S.failures sink.old) (S.failures sink.new) (word_line (first ∷ second ∷ third ∷ fourth ∷ 32 ∷ []) place v) result }
{
    let [a, b, c, d] = hex_word(place);
    let [e, f, g, h] = hex_word(v);
    let line = [
        first, second, third, fourth, b' ', a, b, c, d, b' ', e, f, g, h, b'\n',
    ];
    put_at_once(sink, &line)
}

#[inline(never)]
fn put_byte_line<S: Sink>(sink: &mut S, word: &[u8], place: u16, v: u8) -> Result<(), SinkFault>
    ensures { Writes (S.taken sink.old) (S.taken sink.new) (S.failures sink.old) (S.failures sink.new) (byte_line word.now place v) result }
{
    let [a, b, c, d] = hex_word(place);
    let [e, f] = hex_byte(v);
    put_two(sink, word, &[a, b, c, d, b' ', e, f, b'\n'])
}

#[inline(never)]
fn put_word_line<S: Sink>(sink: &mut S, word: &[u8], place: u16, v: u16) -> Result<(), SinkFault>
    ensures { Writes (S.taken sink.old) (S.taken sink.new) (S.failures sink.old) (S.failures sink.new) (word_line word.now place v) result }
{
    let [a, b, c, d] = hex_word(place);
    let [e, f, g, h] = hex_word(v);
    put_two(sink, word, &[a, b, c, d, b' ', e, f, g, h, b'\n'])
}

#[inline(never)]
fn put_short_line<S: Sink>(sink: &mut S, word: &[u8], v: u8) -> Result<(), SinkFault>
    ensures { Writes (S.taken sink.old) (S.taken sink.new) (S.failures sink.old) (S.failures sink.new) (short_line word.now v) result }
{
    let [e, f] = hex_byte(v);
    put_two(sink, word, &[e, f, b'\n'])
}

#[inline(never)]
fn put_decimal_line<S: Sink>(sink: &mut S, word: &[u8], n: u32) -> Result<(), SinkFault>
    ensures { Writes (S.taken sink.old) (S.taken sink.new) (S.failures sink.old) (S.failures sink.new) (decimal_line word.now n) result }
{
    let mut buffer = Buffer::new();
    put_three(sink, word, buffer.format(n).as_bytes(), b"\n")
}
