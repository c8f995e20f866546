//! Which part of a long line is quoted.

ghost use Rattle.std.specs.Prelude.{◌≡◌, ◌+◌, ◌≤◌, true, IfOk, length};
ghost use Rattle.listing_map.specs.Window.{HasBeginning, HasEnds, IsWindow, cut, window_begin, window_end};

use crate::shown::{columns, shown_text};
use std::alloc::{AllocError, Global};

/// A line of at most so many columns is quoted whole.
const COLUMNS: usize = 160;

/// Of a longer one so many bytes are, between two periods at each end that is cut off.
const BYTES: usize = COLUMNS - 4;

/// At most so many of these stand before the mark, except near the line's end.
const BEFORE: usize = 60;

/// A part of a line: what stands before its mark, what is marked there, and what stands behind it; and what stands for the ends that are cut off.
#[derive(Clone, Copy)]
pub(crate) struct Window<'a> {
    pub front: &'static [u8],
    pub before: &'a [u8],
    pub marked: &'a [u8],
    pub behind: &'a [u8],
    pub back: &'static [u8],
}

/// Whether a line is quoted whole. No character takes more than four bytes.
pub(crate) fn is_whole(alloc: Global, line: &[u8]) -> Result<bool, AllocError>
    ensures short { IfOk result (λ whole. length line.now ≤ 160 → whole ≡ true) }
    ensures long { IfOk result (λ whole. whole ≡ true → length line.now ≤ 640) }
{
    if line.len() <= COLUMNS {
        return Ok(true);
    }
    if line.len() > 4 * COLUMNS {
        return Ok(false);
    }
    let shown = shown_text(alloc, line)?;
    Ok(columns(&shown) <= COLUMNS)
}

/// Where the part begins that is quoted of a line of so many bytes, which is marked behind this column.
fn begin_of(is_whole: bool, length: usize, column: usize) -> usize
    ensures value { result ≡ window_begin is_whole length column }
    ensures before { result ≤ column }
{
    if is_whole {
        return 0;
    }
    column
        .saturating_sub(BEFORE)
        .min(length.saturating_sub(BYTES))
}

/// Where it ends.
fn end_of(is_whole: bool, length: usize, column: usize) -> usize
    requires { column ≤ length }
    ensures value { result ≡ window_end is_whole length column }
    ensures inside { result ≤ length }
    ensures behind { column ≤ result }
{
    if is_whole {
        return length;
    }
    begin_of(is_whole, length, column)
        .saturating_add(BYTES)
        .min(length)
}

/// What stands for an end of a line.
fn cut(is_cut: bool) -> &'static [u8]
    ensures { result.now ≡ cut is_cut }
{
    if is_cut { b".." } else { b"" }
}

/// What is quoted of a line, of which so many bytes are marked behind a column: the line, or at most 156 bytes of it, with the mark's
/// beginning among them.
pub(crate) fn window_of(line: &[u8], is_whole: bool, column: usize, width: usize) -> Window<'_>
    requires { column + width ≤ length line.now }
    ensures parts { IsWindow line.now is_whole column width result.before.now result.marked.now result.behind.now }
    ensures ends { HasEnds line.now is_whole column result.front.now result.back.now }
{
    let begin = begin_of(is_whole, line.len(), column);
    let end = end_of(is_whole, line.len(), column);
    let marked = (column + width).min(end);
    Window {
        front: cut(begin > 0),
        before: &line[begin..column],
        marked: &line[column..marked],
        behind: &line[marked..end],
        back: cut(end < line.len()),
    }
}

/// The beginning of a name or a token that is spelled in a sentence, at most 160 bytes with what stands for the rest of a longer one.
pub(crate) fn beginning(text: &[u8]) -> (&[u8], &'static [u8])
    ensures { HasBeginning text.now result.0.now result.1.now }
{
    if text.len() <= COLUMNS {
        return (text, b"");
    }
    let (front, _rest) = text.split_at(COLUMNS - 2);
    (front, b"..")
}
