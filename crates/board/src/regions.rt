//! Regions of memory: bytes from an address on.

ghost use Rattle.std.specs.Prelude.{◌≡◌, ◌+◌, ◌*◌, ◌-◌, ◌%◌, ◌/◌, ◌<◌, ◌≤◌, ◌^◌, Some, None, IfSome, if◌then◌else◌, slice_index, slice_set, length};
ghost use Rattle.word86.specs.MemoryMap.{ram_size};
ghost use Rattle.word86.specs.declared.page.Page.TheVariants.{Colour};
ghost use Rattle.word86.specs.Page.{page_at, page_size};
ghost use Rattle.board.specs.World.{lies_in, put, is_on, spot, byte_label, word_label, shown_store};

use cpu8086::Store;
use word86::{Label, PAGE_SIZE, Page, RAM_SIZE};

/// The address of the word at an offset in a segment, if it lies in RAM and does not wrap.
#[inline(always)]
pub(crate) fn word_in_ram(segment: u16, offset: u16) -> Option<u32>
    ensures place { IfSome result (λ a. a ≡ segment * 16 + offset) }
    ensures within { IfSome result (λ a. a + 1 < ram_size) }
    ensures inside { IfSome result (λ a. offset < 65535) }
{
    let address = u32::from(segment) * 16 + u32::from(offset);
    if offset < 65535 && (address as usize) < RAM_SIZE - 1 {
        Some(address)
    } else {
        None
    }
}

/// The offset in the colour page of the word at an offset in a segment, if both bytes lie there side by side.
#[inline(always)]
pub(crate) fn word_on_colour(segment: u16, offset: u16) -> Option<u16>
    ensures place { IfSome result (λ i. segment * 16 + offset ≡ page_at Colour + i) }
    ensures within { IfSome result (λ i. i + 1 < page_size) }
    ensures inside { IfSome result (λ i. offset < 65535) }
{
    let address = u32::from(segment) * 16 + u32::from(offset);
    let start = Page::Colour.address();
    if offset < 65535 && start <= address && ((address - start) as usize) < PAGE_SIZE - 1 {
        Some((address - start) as u16)
    } else {
        None
    }
}

/// The byte of a region that holds the address, if it does.
#[inline(always)]
pub(crate) fn byte_in(bytes: &[u8], start: u32, address: u32) -> Option<u8>
    ensures { result ≡ (if lies_in start bytes.now address then Some (slice_index bytes.now (address - start)) else None) }
{
    if start <= address && ((address - start) as usize) < bytes.len() {
        Some(bytes[(address - start) as usize])
    } else {
        None
    }
}

/// Stores a byte where the region holds the address.
pub(crate) fn put(bytes: &mut [u8], start: u32, address: u32, value: u8)
    ensures { bytes.new ≡ put start bytes.old address value }
{
    if start <= address && ((address - start) as usize) < bytes.len() {
        bytes[(address - start) as usize] = value;
    }
}

/// Stores a word, its bytes side by side.
#[inline(always)]
pub(crate) fn put_word(bytes: &mut [u8], at: usize, value: u16)
    requires { at + 1 < length bytes.old }
    ensures { bytes.new ≡ slice_set (slice_set bytes.old at (value % 256)) (at + 1) (value / 256) }
{
    bytes[at] = (value % 256) as u8;
    bytes[at + 1] = (value / 256) as u8;
}

/// The offset in this page, if the address is there.
fn offset_on(page: Page, address: u32) -> Option<u16>
    ensures { result ≡ (if is_on page address then Some (address - page_at page) else None) }
{
    let start = page.address();
    if start <= address && ((address - start) as usize) < PAGE_SIZE {
        Some((address - start) as u16)
    } else {
        None
    }
}

/// The page that holds the address, and the offset in it, if one does.
fn spot(address: u32) -> Option<(Page, u16)>
    ensures { result ≡ spot address }
{
    if let Some(offset) = offset_on(Page::Monochrome, address) {
        return Some((Page::Monochrome, offset));
    }
    let offset = offset_on(Page::Colour, address)?;
    Some((Page::Colour, offset))
}

/// The label of a byte that was stored at this offset of the page.
fn byte_label(page: Page, offset: u16, value: u8) -> Label
    ensures { result ≡ byte_label page offset value }
{
    match page {
        Page::Monochrome => Label::Mono(offset, value),
        Page::Colour => Label::Scr(offset, value),
    }
}

/// The label of a word that was stored with its low byte at this offset of the page.
fn word_label(page: Page, offset: u16, value: u16) -> Label
    ensures { result ≡ word_label page offset value }
{
    match page {
        Page::Monochrome => Label::MonoW(offset, value),
        Page::Colour => Label::ScrW(offset, value),
    }
}

/// What a store shows: a word with one byte on a page shows that byte.
pub(crate) fn shown_store(store: Store) -> Option<Label>
    ensures { result ≡ shown_store store }
{
    match store {
        Store::Byte { address, value } => {
            let (page, offset) = spot(address)?;
            Some(byte_label(page, offset, value))
        }
        Store::Word { low, high, value } => match (spot(low), spot(high)) {
            (Some((page, offset)), Some(_)) => Some(word_label(page, offset, value)),
            (Some((page, offset)), None) => Some(byte_label(page, offset, (value % 256) as u8)),
            (None, Some((page, offset))) => Some(byte_label(page, offset, (value / 256) as u8)),
            (None, None) => None,
        },
    }
}
