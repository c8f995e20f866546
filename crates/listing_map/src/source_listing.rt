//! The listing of a source: each line with its number, and after it the warnings at it.

ghost use Rattle.std.specs.Prelude.{◌≡◌, ◌+◌, ◌<◌, ◌≤◌, false, ℕ, List, [], ◌∷◌, ◌++◌, length, if◌then◌else◌, ◌==◌, IfOk, IfErr};
ghost use Rattle.std.specs.List.{All};
ghost use Rattle.word86.specs.Sink.{Writes};
ghost use Rattle.word86.specs.declared.fault.Fault.TheVariants.{At};
ghost use Rattle.word86.specs.declared.number.Number.TheVariants.{E704};
ghost use Rattle.listing_map.specs.SourceListing.{lines_of, numbered_line, warning_line, warning_lines, listing_text};

use crate::lines::CANNOT_WRITE;
use crate::pieces::{put_five, put_three};
use itoa::Buffer;
use plm_type::Warning;
use word86::{Fault, Number, Sink, SinkFault};

/// Writes the listing of a source with its warnings, which may stand in any order: each line with its number from 1 on, right
/// in five places, and after it a line for each warning at it. The one refusal is E704, where the sink failed; what it took
/// is then a beginning of the text. It takes no memory.
pub fn listing<S: Sink>(source: &[u8], warnings: &[Warning], sink: &mut S) -> Result<(), Fault>
    ensures text { Writes (S.taken sink.old) (S.taken sink.new) (S.failures sink.old) (S.failures sink.new) (listing_text source.now warnings.now) result }
    ensures fault { IfErr result (λ e. e ≡ At 0 1 E704) }
{
    match put_lines(sink, source, warnings) {
        Ok(()) => Ok(()),
        Err(_) => Err(CANNOT_WRITE),
    }
}

fn put_lines<S: Sink>(sink: &mut S, source: &[u8], warnings: &[Warning]) -> Result<(), SinkFault>
    ensures { Writes (S.taken sink.old) (S.taken sink.new) (S.failures sink.old) (S.failures sink.new) (listing_text source.now warnings.now) result }
{
    let mut rest = source;
    let mut number = 1;
    let mut warned = first_warned(warnings, 1);
    while !rest.is_empty() {
        let (line, after) = first_line(rest);
        match put_with_warnings(sink, number, line, warned, warnings) {
            Ok(next) => warned = next,
            Err(fault) => return Err(fault),
        }
        rest = after;
        number += 1;
    }
    Ok(())
}

/// The first line of a text, without its end, and what follows.
pub(crate) fn first_line(text: &[u8]) -> (&[u8], &[u8])
    requires { 0 < length text.now }
    ensures lines { lines_of text.now ≡ result.0.now ∷ lines_of result.1.now }
    ensures less { length result.1.now < length text.now }
{
    for (index, byte) in text.iter().enumerate() {
        if *byte == b'\n' {
            return (without_return(&text[..index]), &text[index + 1..]);
        }
    }
    (text, &[])
}

/// A line without the carriage return that ends it.
fn without_return(line: &[u8]) -> &[u8]
    requires { All (λ b. (b == 10) ≡ false) line.now }
    ensures { (rest : List ℕ) → lines_of (line.now ++ 10 ∷ rest) ≡ result.now ∷ lines_of rest }
{
    let Some((last, start)) = line.split_last() else {
        return line;
    };
    if *last == b'\r' { start } else { line }
}

/// Writes a line and its warnings. No warning is at a line from this number on and before `warned`; the answer is the same for
/// the next number.
fn put_with_warnings<S: Sink>(
    sink: &mut S,
    number: u64,
    line: &[u8],
    warned: u64,
    warnings: &[Warning],
) -> Result<u64, SinkFault>
    requires room { number < 18446744073709551615 }
    requires none { All (λ w. number ≤ w.line → warned ≤ w.line) warnings.now }
    ensures text { Writes (S.taken sink.old) (S.taken sink.new) (S.failures sink.old) (S.failures sink.new) (numbered_line number line.now ++ warning_lines number warnings.now) result }
    ensures next { IfOk result (λ next. All (λ w. number + 1 ≤ w.line → next ≤ w.line) warnings.now) }
{
    match put_numbered(sink, number, line) {
        Ok(()) => (),
        Err(fault) => return Err(fault),
    }
    if number < warned {
        return Ok(warned);
    }
    match put_warnings(sink, number, warnings) {
        Ok(()) => Ok(first_warned(warnings, number + 1)),
        Err(fault) => Err(fault),
    }
}

fn put_numbered<S: Sink>(sink: &mut S, number: u64, line: &[u8]) -> Result<(), SinkFault>
    ensures { Writes (S.taken sink.old) (S.taken sink.new) (S.failures sink.old) (S.failures sink.new) (numbered_line number line.now) result }
{
    let mut buffer = Buffer::new();
    let digits = buffer.format(number).as_bytes();
    let spaces = &b"     "[..5usize.saturating_sub(digits.len())];
    put_five(sink, spaces, digits, b"  ", line, b"\n")
}

fn put_warnings<S: Sink>(sink: &mut S, number: u64, warnings: &[Warning]) -> Result<(), SinkFault>
    ensures { Writes (S.taken sink.old) (S.taken sink.new) (S.failures sink.old) (S.failures sink.new) (warning_lines number warnings.now) result }
{
    for warning in warnings {
        if let Err(fault) = put_warning(sink, number, warning.line) {
            return Err(fault);
        }
    }
    Ok(())
}

/// Writes the warning if it is at the line of this number.
fn put_warning<S: Sink>(sink: &mut S, number: u64, line: u32) -> Result<(), SinkFault>
    ensures { Writes (S.taken sink.old) (S.taken sink.new) (S.failures sink.old) (S.failures sink.new) (if line == number then warning_line else []) result }
{
    if u64::from(line) == number {
        put_three(sink, b"***** ", Number::W1.text().as_bytes(), b"\n")
    } else {
        Ok(())
    }
}

/// The least line from this number on that has a warning, or a greater number than any line's.
fn first_warned(warnings: &[Warning], number: u64) -> u64
    ensures { All (λ w. number ≤ w.line → result ≤ w.line) warnings.now }
{
    let mut first = u64::MAX;
    for warning in warnings {
        first = nearer(first, u64::from(warning.line), number);
    }
    first
}

/// The first of two lines of which the second counts from this number on.
fn nearer(first: u64, line: u64, number: u64) -> u64
    ensures first { result ≤ first }
    ensures line { number ≤ line → result ≤ line }
{
    if number <= line {
        first.min(line)
    } else {
        first
    }
}
