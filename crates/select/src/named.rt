//! Comparisons and tests of what lies at a place.

ghost use Rattle.std.specs.Prelude.{◌≡◌};
ghost use Rattle.select.specs.Rows.{on_place, compares_byte, compares_word, tests_byte};

use crate::part::Step;
use crate::put::{placed, spot};
use i86_table::{Open, Segment};
use word86::Place;

/// The comparison of the byte at a place with the low byte of a number.
pub(crate) fn compare_byte(place: &Place, number: u16) -> Step
    ensures { result ≡ on_place (compares_byte number) place.now }
{
    let low = (number % 256) as u8;
    let ram = Open::CompareByte(spot(None, Segment::Ds), low);
    let screen = Open::CompareByte(spot(None, Segment::Es), low);
    placed(place, ram, screen)
}

/// The comparison of the word at a place with a number.
pub(crate) fn compare_word(place: &Place, number: u16) -> Step
    ensures { result ≡ on_place (compares_word number) place.now }
{
    let ram = Open::CompareWord(spot(None, Segment::Ds), number);
    let screen = Open::CompareWord(spot(None, Segment::Es), number);
    placed(place, ram, screen)
}

/// The test whether the byte at a place has a bit of a mask.
pub(crate) fn test_byte(mask: u8, place: &Place) -> Step
    ensures { result ≡ on_place (tests_byte mask) place.now }
{
    let ram = Open::TestByte(spot(None, Segment::Ds), mask);
    let screen = Open::TestByte(spot(None, Segment::Es), mask);
    placed(place, ram, screen)
}
