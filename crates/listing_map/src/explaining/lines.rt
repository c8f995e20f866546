//! The line of a text.

ghost use Rattle.std.specs.Prelude.{◌≡◌};
ghost use Rattle.listing_map.specs.Explaining.{quoted_line};

use crate::source_listing::first_line;

/// The line of this number, from 1 on, without its end; nothing where the text has no such line.
pub(crate) fn line_at(text: &[u8], line: u32) -> &[u8]
    ensures { result.now ≡ quoted_line text.now line }
{
    let mut rest = text;
    for _before in 0..line.saturating_sub(1) {
        if rest.is_empty() {
            return b"";
        }
        rest = first_line(rest).1;
    }
    if rest.is_empty() {
        return b"";
    }
    first_line(rest).0
}
