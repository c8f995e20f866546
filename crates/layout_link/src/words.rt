//! The words of a part that are known when all parts are placed.

ghost use Rattle.std.specs.Prelude.{◌≡◌, slice_index};
ghost use Rattle.layout_link.specs.Inner.Words.{value_of, filled_one, filled};

use select::{Fixup, Kind};

/// The number at an index of a list, or 0 past its end.
pub(crate) fn number_at(numbers: &[u16], index: usize) -> u16
    ensures { result ≡ slice_index numbers.now index }
{
    match numbers.get(index) {
        Some(number) => *number,
        None => 0,
    }
}

/// What is added to a word of the part that begins at this place.
fn value_of(offsets: &[u16], places: &[u16], base: u16, fixup: Fixup) -> u16
    ensures { result ≡ value_of offsets.now places.now base fixup }
{
    match fixup.kind {
        Kind::Offset => number_at(offsets, fixup.name),
        Kind::Near => {
            let behind = base
                .wrapping_add((fixup.place % 65536) as u16)
                .wrapping_add(2);
            number_at(places, fixup.name).wrapping_sub(behind)
        }
        Kind::Case => number_at(places, fixup.name),
    }
}

/// Adds to one word what it lacks.
fn fill_one(bytes: &mut [u8], offsets: &[u16], places: &[u16], base: u16, fixup: Fixup)
    ensures { bytes.new ≡ filled_one offsets.now places.now base bytes.old fixup }
{
    let place = fixup.place;
    if bytes.len() >= 2 && place <= bytes.len() - 2 {
        let word = u16::from(bytes[place]) + 256 * u16::from(bytes[place + 1]);
        let sum = word.wrapping_add(value_of(offsets, places, base, fixup));
        bytes[place] = (sum % 256) as u8;
        bytes[place + 1] = (sum / 256) as u8;
    }
}

/// Adds to each word of a part what it lacks, once: the part begins at this place, the objects of the data lie at these offsets,
/// and the parts begin at these places.
pub(crate) fn fill(bytes: &mut [u8], fixups: &[Fixup], offsets: &[u16], places: &[u16], base: u16)
    ensures { bytes.new ≡ filled offsets.now places.now base bytes.old fixups.now }
{
    for fixup in fixups {
        fill_one(bytes, offsets, places, base, *fixup);
    }
}
