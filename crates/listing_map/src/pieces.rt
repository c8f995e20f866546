//! One piece of a text after another. A text that could not be written whole was taken as far as a beginning of it.

ghost use Rattle.std.specs.Prelude.{◌≡◌, ◌++◌};
ghost use Rattle.word86.specs.Sink.{Writes};

use word86::{Sink, SinkFault, put_all};

/// One piece, which most sinks take at once: its length is known where this is put into its caller, so that no loop is left and
/// the bytes are copied in place.
#[inline(always)]
pub(crate) fn put_at_once<S: Sink>(sink: &mut S, piece: &[u8]) -> Result<(), SinkFault>
    ensures { Writes (S.taken sink.old) (S.taken sink.new) (S.failures sink.old) (S.failures sink.new) piece.now result }
{
    let taken = sink.put(piece)?;
    if taken == piece.len() {
        return Ok(());
    }
    if taken == 0 {
        return Err(SinkFault);
    }
    put_rest(sink, piece.split_at(taken).1)
}

/// What is left of a piece, of which a sink took a part.
#[cold]
#[inline(never)]
fn put_rest<S: Sink>(sink: &mut S, rest: &[u8]) -> Result<(), SinkFault>
    ensures { Writes (S.taken sink.old) (S.taken sink.new) (S.failures sink.old) (S.failures sink.new) rest.now result }
{
    put_all(sink, rest)
}

pub(crate) fn put_two<S: Sink>(sink: &mut S, first: &[u8], second: &[u8]) -> Result<(), SinkFault>
    ensures { Writes (S.taken sink.old) (S.taken sink.new) (S.failures sink.old) (S.failures sink.new) (first.now ++ second.now) result }
{
    put_all(sink, first)?;
    put_all(sink, second)
}

pub(crate) fn put_three<S: Sink>(
    sink: &mut S,
    first: &[u8],
    second: &[u8],
    third: &[u8],
) -> Result<(), SinkFault>
    ensures { Writes (S.taken sink.old) (S.taken sink.new) (S.failures sink.old) (S.failures sink.new) (first.now ++ second.now ++ third.now) result }
{
    match put_two(sink, first, second) {
        Ok(()) => put_all(sink, third),
        Err(fault) => Err(fault),
    }
}

pub(crate) fn put_four<S: Sink>(
    sink: &mut S,
    first: &[u8],
    second: &[u8],
    third: &[u8],
    fourth: &[u8],
) -> Result<(), SinkFault>
    ensures { Writes (S.taken sink.old) (S.taken sink.new) (S.failures sink.old) (S.failures sink.new) (first.now ++ second.now ++ third.now ++ fourth.now) result }
{
    match put_three(sink, first, second, third) {
        Ok(()) => put_all(sink, fourth),
        Err(fault) => Err(fault),
    }
}

pub(crate) fn put_five<S: Sink>(
    sink: &mut S,
    first: &[u8],
    second: &[u8],
    third: &[u8],
    fourth: &[u8],
    fifth: &[u8],
) -> Result<(), SinkFault>
    ensures { Writes (S.taken sink.old) (S.taken sink.new) (S.failures sink.old) (S.failures sink.new) (first.now ++ second.now ++ third.now ++ fourth.now ++ fifth.now) result }
{
    match put_four(sink, first, second, third, fourth) {
        Ok(()) => put_all(sink, fifth),
        Err(fault) => Err(fault),
    }
}

pub(crate) fn put_six<S: Sink>(
    sink: &mut S,
    first: &[u8],
    second: &[u8],
    third: &[u8],
    fourth: &[u8],
    fifth: &[u8],
    sixth: &[u8],
) -> Result<(), SinkFault>
    ensures { Writes (S.taken sink.old) (S.taken sink.new) (S.failures sink.old) (S.failures sink.new) (first.now ++ second.now ++ third.now ++ fourth.now ++ fifth.now ++ sixth.now) result }
{
    match put_five(sink, first, second, third, fourth, fifth) {
        Ok(()) => put_all(sink, sixth),
        Err(fault) => Err(fault),
    }
}
