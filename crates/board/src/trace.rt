//! The lines that a turn of a run writes: those of its events, those of its labels, and what ends the text.

ghost use Rattle.std.specs.Prelude.{◌≡◌, ◌++◌, map};
ghost use Rattle.std.specs.List.{flat_map};
ghost use Rattle.word86.specs.Sink.{Writes};
ghost use Rattle.word86.specs.Event.{event_label};
ghost use Rattle.board.specs.Trace.{lines, closing};

use cpu8086::Kind;
use listing_map::{put_label, put_opcode_line};
use word86::{Event, Label, Sink, SinkFault};

fn put_events<S: Sink>(events: &[Event], sink: &mut S) -> Result<(), SinkFault>
    ensures { Writes (S.taken sink.old) (S.taken sink.new) (S.failures sink.old) (S.failures sink.new) (lines (map event_label events.now)) result }
{
    for event in events {
        if let Err(fault) = put_label(&event.label(), sink) {
            return Err(fault);
        }
    }
    Ok(())
}

fn put_labels<S: Sink>(labels: &[Label], sink: &mut S) -> Result<(), SinkFault>
    ensures { Writes (S.taken sink.old) (S.taken sink.new) (S.failures sink.old) (S.failures sink.new) (lines labels.now) result }
{
    for label in labels {
        if let Err(fault) = put_label(label, sink) {
            return Err(fault);
        }
    }
    Ok(())
}

fn put_both<S: Sink>(events: &[Event], labels: &[Label], sink: &mut S) -> Result<(), SinkFault>
    ensures { Writes (S.taken sink.old) (S.taken sink.new) (S.failures sink.old) (S.failures sink.new) (lines (map event_label events.now) ++ lines labels.now) result }
{
    match put_events(events, sink) {
        Ok(()) => put_labels(labels, sink),
        Err(fault) => Err(fault),
    }
}

/// What ends the text where the turn met bytes that are no instruction.
fn put_closing<S: Sink>(kind: Kind, sink: &mut S) -> Result<(), SinkFault>
    ensures { Writes (S.taken sink.old) (S.taken sink.new) (S.failures sink.old) (S.failures sink.new) (closing kind) result }
{
    match kind {
        Kind::Opcode(address) => put_opcode_line(address, sink),
        Kind::Ack | Kind::Instr | Kind::Wait => Ok(()),
    }
}

/// Writes the lines of a turn: those of the events that came, and then its own.
pub(crate) fn put_turn<S: Sink>(
    events: &[Event],
    labels: &[Label],
    kind: Kind,
    sink: &mut S,
) -> Result<(), SinkFault>
    ensures { Writes (S.taken sink.old) (S.taken sink.new) (S.failures sink.old) (S.failures sink.new) (lines (map event_label events.now) ++ lines labels.now ++ closing kind) result }
{
    match put_both(events, labels, sink) {
        Ok(()) => put_closing(kind, sink),
        Err(fault) => Err(fault),
    }
}
