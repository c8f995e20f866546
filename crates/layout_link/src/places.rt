//! Where the parts begin.

ghost use Rattle.std.specs.Prelude.{◌≡◌, ◌+◌, ◌<◌, ◌≤◌, ◌↔◌, IfOk, IsOkUnless, IsTrue};
ghost use Rattle.layout_link.specs.Places.{total_of, places_from};

use select::Part;
use std::alloc::Global;
use word86::Fault;

/// Whether the parts have together at most `room` bytes.
pub(crate) fn are_within(parts: &[Part], room: usize) -> bool
    ensures { IsTrue result ↔ (total_of parts.now ≤ room) }
{
    let mut left = room;
    for part in parts {
        if part.bytes.len() > left {
            return false;
        }
        left -= part.bytes.len();
    }
    true
}

/// Where each part begins, if they lie one after another from this place on.
pub(crate) fn places_of(alloc: Global, parts: &[Part], from: u16) -> Result<Vec<u16>, Fault>
    requires { from + total_of parts.now < 65536 }
    ensures places { IfOk result (λ p. p.items ≡ places_from from parts.now) }
    ensures memory { IsOkUnless result Fault.Memory }
{
    let mut places = Vec::with_capacity(alloc, parts.len())?;
    let mut place = from;
    for part in parts {
        places.push(place)?;
        place += part.bytes.len() as u16;
    }
    Ok(places)
}

/// Where the last part ends.
pub(crate) fn end_of(parts: &[Part], from: u16) -> u16
    requires { from + total_of parts.now < 65536 }
    ensures { result ≡ from + total_of parts.now }
{
    let mut end = from;
    for part in parts {
        end += part.bytes.len() as u16;
    }
    end
}
