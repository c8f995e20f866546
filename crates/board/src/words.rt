//! The words of a schedule's line, from the first one to its end: numbers, bytes, events and items.

ghost use Rattle.std.specs.Prelude.{◌≡◌, ◌≤◌, option_map, length};
ghost use Rattle.board.specs.Schedule.{after_word, number_of, with_digit, hex_value, hex_of, word_len, tick_of, event_of, item_of, is_blank, is_blank_line, is_skipped};

use crate::reading::Item;
use bstr::ByteSlice;
use word86::Event;

/// What follows a word that begins a line.
fn after_word<'a>(line: &'a [u8], word: &[u8]) -> Option<&'a [u8]>
    ensures { option_map (λ s. s.now) result ≡ after_word word.now line.now }
{
    line.strip_prefix(word)
}

fn with_digit(so_far: Option<u32>, d: u8) -> Option<u32>
    ensures { result ≡ with_digit so_far d }
{
    let n = so_far?;
    if d < b'0' || d > b'9' {
        return None;
    }
    let next = u64::from(n) * 10 + u64::from(d - b'0');
    if next < 4_294_967_296 {
        Some(next as u32)
    } else {
        None
    }
}

fn number(digits: &[u8]) -> Option<u32>
    ensures { result ≡ number_of digits.now }
{
    if digits.is_empty() {
        return None;
    }
    let mut so_far = Some(0u32);
    for &d in digits {
        so_far = with_digit(so_far, d);
    }
    so_far
}

pub(crate) fn hex_value(d: u8) -> Option<u8>
    ensures { result ≡ hex_value d }
{
    if b'0' <= d && d <= b'9' {
        Some(d - b'0')
    } else if b'A' <= d && d <= b'F' {
        Some(d - b'A' + 10)
    } else if b'a' <= d && d <= b'f' {
        Some(d - b'a' + 10)
    } else {
        None
    }
}

fn hex_byte(text: &[u8]) -> Option<u8>
    ensures { result ≡ hex_of text.now }
{
    if text.len() != 2 {
        return None;
    }
    let high = hex_value(text[0])?;
    let low = hex_value(text[1])?;
    Some(high * 16 + low)
}

fn word_len(text: &[u8]) -> usize
    ensures len { result ≡ word_len text.now }
    ensures short { result ≤ length text.now }
{
    let mut n = 0usize;
    for &b in text {
        if b == b' ' {
            return n;
        }
        n += 1;
    }
    n
}

fn tick(k: Option<u32>) -> Option<Event>
    ensures { result ≡ tick_of k }
{
    let k = k?;
    if 1 <= k && k <= 65_535 {
        Some(Event::Tick(k as u16))
    } else {
        None
    }
}

fn event_given(text: &[u8]) -> Option<Event>
    ensures { result ≡ event_of text.now }
{
    if let Some(k) = after_word(text, b" TICK ") {
        tick(number(k))
    } else if let Some(h) = after_word(text, b" KEY ") {
        Some(Event::Key(hex_byte(h)?))
    } else {
        None
    }
}

pub(crate) fn item_given(line: &[u8]) -> Option<Item>
    ensures { result ≡ item_of line.now }
{
    if let Some(h) = after_word(line, b"FILL ") {
        Some(Item::Fill(hex_byte(h)?))
    } else if let Some(n) = after_word(line, b"STOP ") {
        Some(Item::Stop(number(n)?))
    } else if let Some(rest) = after_word(line, b"AT ") {
        let (turn, what) = rest.split_at(word_len(rest));
        Some(Item::At(number(turn)?, event_given(what)?))
    } else {
        None
    }
}

pub(crate) fn is_skipped(line: &[u8]) -> bool
    ensures { result ≡ is_skipped line.now }
{
    is_blank_line(line) || line.first() == Some(&b';')
}

fn is_blank_line(line: &[u8]) -> bool
    ensures { result ≡ is_blank_line line.now }
{
    for &b in line {
        if !(b == b' ' || b == b'\t') {
            return false;
        }
    }
    true
}
