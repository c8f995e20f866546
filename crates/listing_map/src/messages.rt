//! How faults, warnings and notes are written on standard error: as lines for people, or as objects in JSON.
//!
//! That the quoted line and what is marked are of the source is the contract of `explain`, and that they are shown with the sentence that of
//! `explained_lines`, which counts columns where a line is ASCII; other texts have none: `tests/mistakes` and `tests/pages` show them.
//! The objects hold the texts as they are: JSON writes what a terminal could obey as a number.

ghost use Rattle.std.specs.Prelude.{◌≡◌, ◌++◌, IfOk, replicate};
ghost use Rattle.listing_map.specs.Messages.{IsMarkLine, IsQuoted, IsQuotedPart, IsTold, margin, note_line, shown_line, shown_text};
ghost use Rattle.listing_map.specs.Lines.{line_end};

use crate::explaining::Explanation;
use crate::shown::{blanks, columns, shown_text};
use crate::window::{Window, is_whole, window_of};
use itoa::Buffer;
use serde_json::{Map, Value, put};
use std::alloc::{AllocError, Global};
use word86::Number;

/// Where in its file a message stands: the line, and the column in bytes, both from 1 on.
#[derive(Clone, Copy)]
pub struct Place {
    pub line: Option<u32>,
    pub column: Option<usize>,
}

/// The whole file.
pub const NOWHERE: Place = Place {
    line: None,
    column: None,
};

/// The number of a fault, and its words.
pub fn number_and_words(number: Number) -> (&'static str, &'static str) {
    let text = number.text();
    match text.split_once(' ') {
        Some(parts) => parts,
        None => (text, ""),
    }
}

fn text_value(alloc: Global, text: &[u8]) -> Result<Value, AllocError> {
    let text = String::from_utf8_lossy(alloc, text)?;
    Ok(Value::from(text))
}

fn text_or_null(alloc: Global, text: Option<&[u8]>) -> Result<Value, AllocError> {
    match text {
        Some(text) => text_value(alloc, text),
        None => Ok(Value::Null),
    }
}

fn line_value(line: Option<u32>) -> Value {
    match line {
        Some(line) => Value::from(line),
        None => Value::Null,
    }
}

fn column_value(column: Option<usize>) -> Value {
    match column {
        Some(column) => Value::from(column),
        None => Value::Null,
    }
}

/// Puts a text into an object, or null where there is none.
fn put_text(
    alloc: Global,
    object: &mut Map<String, Value>,
    key: &str,
    text: Option<&[u8]>,
) -> Result<(), AllocError> {
    let value = text_or_null(alloc, text)?;
    put(object, alloc, key, value)
}

/// An object as a line.
fn line_of(alloc: Global, object: Map<String, Value>) -> Result<Vec<u8>, AllocError> {
    let text = Value::Object(object).to_string(alloc)?;
    let mut bytes = Vec::from_slice(alloc, text.as_str().as_bytes())?;
    bytes.push(b'\n')?;
    Ok(bytes)
}

/// A message as an object in JSON, with a line feed: the file that it is of and where, its number and what would do where it has them, and
/// its words. Want of memory is its one error.
pub fn object_line(
    alloc: Global,
    file: &str,
    place: Place,
    number: Option<&[u8]>,
    words: &str,
    help: Option<&[u8]>,
) -> Result<Vec<u8>, AllocError> {
    let mut object = Map::new(alloc);
    put_text(alloc, &mut object, "file", Some(file.as_bytes()))?;
    put(&mut object, alloc, "line", line_value(place.line))?;
    put(&mut object, alloc, "column", column_value(place.column))?;
    put_text(alloc, &mut object, "number", number)?;
    put_text(alloc, &mut object, "words", Some(words.as_bytes()))?;
    put_text(alloc, &mut object, "help", help)?;
    line_of(alloc, object)
}

/// So many of one byte.
fn times(alloc: Global, byte: u8, count: usize) -> Result<Vec<u8>, AllocError>
    ensures { IfOk result (λ v. v.items ≡ replicate count byte) }
{
    Ok(vec![in alloc; byte; count]?)
}

/// A line as it is shown, with its line feed.
fn shown_line(alloc: Global, line: &[u8]) -> Result<Vec<u8>, AllocError>
    ensures { IfOk result (λ v. v.items ≡ shown_line line.now) }
{
    let mut text = shown_text(alloc, line)?;
    text.push(b'\n')?;
    Ok(text)
}

/// What stands in front of a quoted line: its number, right in five places.
fn margin(alloc: Global, line: u32) -> Result<Vec<u8>, AllocError>
    ensures { IfOk result (λ v. v.items ≡ margin line) }
{
    let mut buffer = Buffer::new();
    let digits = buffer.format(line).as_bytes();
    let spaces = &b"     "[..5usize.saturating_sub(digits.len())];
    let mut text = Vec::from_slice(alloc, spaces)?;
    text.extend_from_slice(digits)?;
    text.extend_from_slice(b" | ")?;
    Ok(text)
}

/// The line of the mark, behind a margin of so many columns, under what is shown before the mark and what is shown of it.
fn mark_line(
    alloc: Global,
    margin: usize,
    before: &[u8],
    marked: &[u8],
) -> Result<Vec<u8>, AllocError>
    ensures { IfOk result (λ v. IsMarkLine margin before.now marked.now v.items) }
{
    let blanks = blanks(alloc, before)?;
    let marks = times(alloc, b'^', columns(marked))?;
    let mut text = times(alloc, b' ', margin.saturating_sub(2))?;
    text.extend_from_slice(b"| ")?;
    text.extend_from_slice(&blanks)?;
    text.extend_from_slice(&marks)?;
    text.push(b'\n')?;
    Ok(text)
}

/// What is shown before the mark: what stands for the line's beginning where that is cut off, and the part up to the mark.
fn shown_before(alloc: Global, window: &Window<'_>) -> Result<Vec<u8>, AllocError>
    ensures { IfOk result (λ v. v.items ≡ window.now.front.now ++ shown_text window.now.before.now) }
{
    let mut text = Vec::from_slice(alloc, window.front)?;
    let before = shown_text(alloc, window.before)?;
    text.extend_from_slice(&before)?;
    Ok(text)
}

/// A quoted line with its number, of four parts.
fn numbered_line(
    alloc: Global,
    line: u32,
    before: &[u8],
    marked: &[u8],
    behind: &[u8],
    back: &[u8],
) -> Result<Vec<u8>, AllocError>
    ensures { IfOk result (λ v. v.items ≡ margin line ++ before.now ++ marked.now ++ behind.now ++ back.now ++ line_end) }
{
    let mut text = margin(alloc, line)?;
    text.extend_from_slice(before)?;
    text.extend_from_slice(marked)?;
    text.extend_from_slice(behind)?;
    text.extend_from_slice(back)?;
    text.push(b'\n')?;
    Ok(text)
}

/// A part of a line with the line's number, and the mark under it.
fn quoted_part(alloc: Global, line: u32, window: &Window<'_>) -> Result<Vec<u8>, AllocError>
    ensures { IfOk result (λ v. IsQuotedPart line window.now.front.now window.now.before.now window.now.marked.now window.now.behind.now window.now.back.now v.items) }
{
    let before = shown_before(alloc, window)?;
    let marked = shown_text(alloc, window.marked)?;
    let behind = shown_text(alloc, window.behind)?;
    let mut text = numbered_line(alloc, line, &before, &marked, &behind, window.back)?;
    let margin = margin(alloc, line)?;
    let mark = mark_line(alloc, margin.len(), &before, &marked)?;
    text.extend_from_slice(&mark)?;
    Ok(text)
}

/// The quoted line, or what is quoted of a long one, with its number, and the mark under it; nothing where nothing is marked.
fn quoted_lines(
    alloc: Global,
    line: u32,
    explanation: &Explanation<'_>,
) -> Result<Vec<u8>, AllocError>
    ensures { IfOk result (λ v. IsQuoted line explanation.now.quoted.now explanation.now.column explanation.now.width v.items) }
{
    let quoted = explanation.quoted;
    let (column, width) = (explanation.column, explanation.width);
    if width == 0 {
        return Ok(Vec::new(alloc));
    }
    let whole = is_whole(alloc, quoted)?;
    quoted_part(alloc, line, &window_of(quoted, whole, column, width))
}

/// What is written under the line of a fault: the source line with a mark, where one word is meant, and the sentence. Want of memory is its
/// one error.
pub fn explained_lines(
    alloc: Global,
    line: u32,
    explanation: &Explanation<'_>,
) -> Result<Vec<u8>, AllocError>
    ensures { IfOk result (λ v. IsTold line explanation.now.quoted.now explanation.now.column explanation.now.width explanation.now.help.items v.items) }
{
    let mut text = quoted_lines(alloc, line, explanation)?;
    let help = shown_line(alloc, &explanation.help)?;
    text.extend_from_slice(b"      = ")?;
    text.extend_from_slice(&help)?;
    Ok(text)
}

/// The line of a note: its file, its line there, and its words, without what a terminal could obey. Want of memory is its one error.
pub fn note_line(alloc: Global, file: &str, line: u32, words: &[u8]) -> Result<Vec<u8>, AllocError>
    ensures { IfOk result (λ v. v.items ≡ note_line file.now line words.now) }
{
    let mut buffer = Buffer::new();
    let digits = buffer.format(line).as_bytes();
    let mut text = shown_text(alloc, file.as_bytes())?;
    text.extend_from_slice(b"(")?;
    text.extend_from_slice(digits)?;
    text.extend_from_slice(b"): note: ")?;
    let words = shown_line(alloc, words)?;
    text.extend_from_slice(&words)?;
    Ok(text)
}
