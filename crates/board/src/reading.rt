//! The lines of a schedule one after another, up to the first fault.

ghost use Rattle.std.specs.Prelude.{◌≡◌, OnOk, IfOk};
ghost use Rattle.board.specs.Inner.Reading.{seen};
ghost use Rattle.board.specs.Schedule.{with_item, with_line, failed, read_lines};

use crate::timetable::Timetable;
use crate::words::{is_skipped, item_given};
use bstr::ByteSlice;
use std::alloc::Global;
use word86::{Event, Fault, Number};

/// What a line of a schedule says, unless it is blank or a comment.
#[derive(Clone, Copy)]
pub(crate) enum Item {
    Fill(u8),
    At(u32, Event),
    Stop(u32),
}

/// What the lines so far came to.
#[derive(Drop)]
pub(crate) struct Reading {
    pub(crate) fill: Option<u8>,
    pub(crate) timetable: Timetable,
    pub(crate) stop: Option<u32>,
    pub(crate) line: u32,
    pub(crate) fault: Option<(u32, Number)>,
}

impl Reading {
    fn fail(&mut self, number: Number)
        ensures { seen self.new ≡ failed number (seen self.old) }
    {
        self.fault = Some((self.line, number));
    }

    fn take_item(&mut self, item: Option<Item>) -> Result<(), Fault>
        ensures { OnOk result (seen self.new ≡ with_item item (seen self.old)) }
    {
        match item {
            None => self.fail(Number::E701),
            Some(Item::Fill(b)) => {
                if self.fill.is_some() || self.stop.is_some() || !self.timetable.is_empty() {
                    self.fail(Number::E702);
                } else {
                    self.fill = Some(b);
                }
            }
            Some(Item::At(n, event)) => {
                if self.stop.is_some()
                    || (!self.timetable.is_empty() && n < self.timetable.last_turn())
                {
                    self.fail(Number::E702);
                } else {
                    self.timetable.push(n, event)?;
                }
            }
            Some(Item::Stop(n)) => {
                if self.stop.is_some()
                    || (!self.timetable.is_empty() && n <= self.timetable.last_turn())
                {
                    self.fail(Number::E702);
                } else {
                    self.stop = Some(n);
                }
            }
        }
        Ok(())
    }

    pub(crate) fn take_line(&mut self, line: &[u8]) -> Result<(), Fault>
        ensures { OnOk result (seen self.new ≡ with_line (seen self.old) line.now) }
    {
        if self.fault.is_some() {
            return Ok(());
        }
        self.line = self.line.saturating_add(1);
        if is_skipped(line) {
            return Ok(());
        }
        self.take_item(item_given(line))
    }
}

/// What the lines of a text come to.
pub(crate) fn read_lines(alloc: Global, text: &[u8]) -> Result<Reading, Fault>
    ensures { IfOk result (λ r. seen r ≡ read_lines text.now) }
{
    let mut reading = Reading {
        fill: None,
        timetable: Timetable::new(alloc),
        stop: None,
        line: 0,
        fault: None,
    };
    for line in text.lines() {
        reading.take_line(line)?;
    }
    Ok(reading)
}
