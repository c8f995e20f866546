//! The sizes of a part's steps.

ghost use Rattle.std.specs.Prelude.{◌≡◌, ◌↔◌, ◌<◌, ◌≤◌, ◌+◌, IsTrue, IfOk, IsOkUnless, length, map, sum};
ghost use Rattle.select.specs.Sizes.{IsInReach, AreSettled, AreLeast};
ghost use Rattle.select.specs.Inner.Settling.{shortest, longest, AreExtents, IsSettling, Advances};

use std::alloc::Global;
use word86::Fault;

/// How many bytes a step of a part has.
#[derive(Clone, Copy)]
pub(crate) enum Extent {
    /// This number.
    Fixed(u8),
    /// A jump to a step of the part has two bytes where it is short, and `long` where it is long.
    Jump { target: usize, long: u8 },
}

/// The bytes of a short jump.
const SHORT: u8 = 2;

/// A jump that spans more steps than this is not short.
const SPAN: usize = 128;

// Whether the sum of these sizes is at most `room`. It looks at no more than `room + 1` of them.
fn is_within(sizes: &[u8], room: usize) -> bool
    ensures { IsTrue result ↔ (sum sizes.now ≤ room) }
{
    let mut left = room;
    for size in sizes {
        let size = usize::from(*size);
        if size > left {
            return false;
        }
        left -= size;
    }
    true
}

// Whether the jump from this step to that one is in reach, if it alone is written short.
fn is_in_reach(sizes: &[u8], from: usize, target: usize) -> bool
    requires from { from < length sizes.now }
    requires target { target < length sizes.now }
    ensures { IsTrue result ↔ IsInReach sizes.now from target }
{
    if from < target {
        is_within(&sizes[from + 1..target], 127)
    } else {
        is_within(&sizes[target..from], 126)
    }
}

// Looks at one step: a short jump that is out of reach becomes long, and the steps before it that can span it are looked at again.
// The answer is the step to look at next.
fn look(extents: &[Extent], sizes: &mut [u8], at: usize) -> usize
    requires extents { AreExtents extents.now }
    requires at { at < length extents.now }
    requires settling { IsSettling extents.now sizes.old at }
    ensures settling { IsSettling extents.now sizes.new result }
    ensures advances { Advances sizes.old at sizes.new result }
{
    match extents[at] {
        Extent::Fixed(_) => {}
        Extent::Jump { target, long } => {
            if sizes[at] == SHORT && !is_in_reach(sizes, at, target) {
                sizes[at] = long;
                return at.saturating_sub(SPAN);
            }
        }
    }
    at + 1
}

// Begins with all jumps short, and makes long what is out of reach, until nothing changes.
fn settle(extents: &[Extent], sizes: &mut [u8])
    requires extents { AreExtents extents.now }
    requires short { sizes.old ≡ map shortest extents.now }
    ensures settled { AreSettled extents.now sizes.new }
    ensures least { AreLeast extents.now sizes.new }
{
    let mut at = 0;
    while at < extents.len() {
        at = look(extents, sizes, at);
    }
}

fn shortest_of(extent: Extent) -> u8
    ensures { result ≡ shortest extent }
{
    match extent {
        Extent::Fixed(size) => size,
        Extent::Jump { .. } => SHORT,
    }
}

/// The sizes of these steps: a jump is short exactly where its target would be within -128 to 127 if that jump alone were short.
pub(crate) fn settled(alloc: Global, extents: &[Extent]) -> Result<Vec<u8>, Fault>
    requires { AreExtents extents.now }
    ensures settled { IfOk result (λ sizes. AreSettled extents.now sizes.items) }
    ensures least { IfOk result (λ sizes. AreLeast extents.now sizes.items) }
    ensures memory { IsOkUnless result Fault.Memory }
{
    let mut sizes: Vec<u8> = extents
        .iter()
        .map(|extent| shortest_of(*extent))
        .collect(alloc)?;
    settle(extents, &mut sizes);
    Ok(sizes)
}
