//! What changes on the board's lines and ports, turn by turn, as a file that viewers of waveforms read (IEEE 1364, "Value change dump").
//!
//! A turn is shown as a microsecond. The timer's output is that of a timer which is told what the ports' timer is told.
//! A viewer shows the same value twice as one: so each acknowledgement, and each byte or word at a port, is an event beside its value.

ghost use Rattle.std.specs.Prelude.{◌≡◌, ◌++◌, [], IfErr, OnOk};
ghost use Rattle.listing_map.specs.Lines.{line_end};
ghost use Rattle.word86.specs.Sink.{Writes};
ghost use Rattle.word86.specs.declared.fault.Fault.TheVariants.{At};
ghost use Rattle.word86.specs.declared.number.Number.TheVariants.{E704};
ghost use Rattle.board.specs.Watched.{IsRunFault, time_line};

use crate::run::CANNOT_WRITE;
use itoa::Buffer;
use pit8253::Pit;
use std::alloc::{AllocError, Global};
use word86::{Event, Fault, Label, Sink, SinkFault, Width, put_all};

/// What is shown: a line of one bit, the vector of acknowledgements, or a port by its number among those that were met; and that an
/// interrupt was acknowledged, or something passed at a port.
#[derive(Clone, Copy)]
enum Signal {
    Interrupt,
    Timer,
    Vector,
    Port(usize),
    Acknowledged,
    Passed(usize),
}

/// A port that was met: whether it was read or written, and how wide.
#[derive(Clone, Copy, PartialEq, Eq)]
struct PortSignal {
    port: u16,
    is_read: bool,
    width: Width,
}

/// How many ports of each width there may be, read or written.
const PORT_SIGNALS: usize = 262_144;

/// What changes in a run: the text of a turn is written as soon as the turn is made, so that nothing here grows with the run, except that
/// each port is kept which was met.
#[derive(Drop)]
pub struct SignalChanges {
    alloc: Global,
    is_wanted: bool,
    /// The ports that were met, in that order.
    ports: Vec<PortSignal>,
    /// For each port its number among those that were met, and one; 0 where it was not met. There is no such table before the first one.
    numbers: Vec<u32>,
    /// The text of the turn that is noted.
    text: Vec<u8>,
    /// The turn whose changes were written last.
    now: u32,
    timer: Pit,
    timer_output: bool,
    interrupt: bool,
}

/// The port of a label, and what passed there.
fn passed(label: &Label) -> Option<(PortSignal, u16)> {
    let (port, is_read, width, value) = match label {
        Label::In(port, value) => (*port, true, Width::Byte, u16::from(*value)),
        Label::InW(port, value) => (*port, true, Width::Word, *value),
        Label::Out(port, value) => (*port, false, Width::Byte, u16::from(*value)),
        Label::OutW(port, value) => (*port, false, Width::Word, *value),
        Label::Scr(_, _)
        | Label::ScrW(_, _)
        | Label::Mono(_, _)
        | Label::MonoW(_, _)
        | Label::Ack(_)
        | Label::Tick(_)
        | Label::Key(_) => return None,
    };
    let signal = PortSignal {
        port,
        is_read,
        width,
    };
    Some((signal, value))
}

/// Whether a label is of a port or an acknowledgement.
fn is_signal(label: &Label) -> bool {
    match label {
        Label::In(_, _) | Label::InW(_, _) | Label::Out(_, _) | Label::OutW(_, _) | Label::Ack(_) =>
            true,
        Label::Scr(_, _)
        | Label::ScrW(_, _)
        | Label::Mono(_, _)
        | Label::MonoW(_, _)
        | Label::Tick(_)
        | Label::Key(_) => false,
    }
}

/// Where a port stands in the table of all.
fn place_of(port: PortSignal) -> usize {
    let side = match (port.is_read, port.width) {
        (true, Width::Byte) => 0,
        (true, Width::Word) => 1,
        (false, Width::Byte) => 2,
        (false, Width::Word) => 3,
    };
    usize::from(port.port) * 4 + side
}

impl SignalChanges {
    /// Before the first turn: no interrupt is asked for, and the timer's output is high. Of a run whose changes are not wanted nothing
    /// is kept.
    pub fn new(alloc: Global, is_wanted: bool) -> SignalChanges
        ensures nothing { result.ports.items ≡ [] }
        ensures wanted { result.is_wanted ≡ is_wanted }
    {
        SignalChanges {
            alloc,
            is_wanted,
            ports: Vec::new(alloc),
            numbers: Vec::new(alloc),
            text: Vec::new(alloc),
            now: 0,
            timer: Pit::reset(),
            timer_output: true,
            interrupt: false,
        }
    }

    /// Adds a change to the text of its turn.
    fn note(&mut self, turn: u32, signal: Signal, value: u16) -> Result<(), AllocError> {
        if turn != self.now {
            put_time(&mut self.text, turn)?;
            self.now = turn;
        }
        put_change(&mut self.text, signal, value)
    }

    /// The number of a port among those that were met, which it is now.
    fn number_of(&mut self, port: PortSignal) -> Result<usize, AllocError> {
        if self.numbers.is_empty() {
            self.numbers = vec![in self.alloc; 0; PORT_SIGNALS]?;
        }
        let Some(number) = self.numbers.get_mut(place_of(port)) else {
            return Ok(0);
        };
        if *number == 0 {
            self.ports.push(port)?;
            *number = self.ports.len().min(PORT_SIGNALS) as u32;
        }
        Ok((*number - 1) as usize)
    }

    /// Notes what passed at a port.
    fn note_port(&mut self, turn: u32, port: PortSignal, value: u16) -> Result<(), AllocError> {
        let number = self.number_of(port)?;
        self.note(turn, Signal::Port(number), value)
    }

    /// The timer takes a byte that is written to its ports.
    fn write_timer(&mut self, port: u16, value: u8) {
        if let 0x40..=0x43 = port {
            self.timer.write((port % 4) as u8, value);
        }
    }

    /// The timer takes what a label says of its ports.
    fn tell_timer(&mut self, label: &Label) {
        match label {
            Label::Out(port, value) => self.write_timer(*port, *value),
            Label::OutW(port, value) => {
                self.write_timer(*port, (*value % 256) as u8);
                self.write_timer(port.wrapping_add(1), (*value / 256) as u8);
            }
            Label::In(_, _)
            | Label::InW(_, _)
            | Label::Scr(_, _)
            | Label::ScrW(_, _)
            | Label::Mono(_, _)
            | Label::MonoW(_, _)
            | Label::Ack(_)
            | Label::Tick(_)
            | Label::Key(_) => {}
        }
    }

    fn note_label(&mut self, turn: u32, label: &Label) -> Result<(), AllocError> {
        self.tell_timer(label);
        if let Label::Ack(vector) = label {
            return self.note(turn, Signal::Vector, u16::from(*vector));
        }
        match passed(label) {
            Some((port, value)) => self.note_port(turn, port, value),
            None => Ok(()),
        }
    }

    fn note_labels(&mut self, turn: u32, labels: &[Label]) -> Result<(), AllocError> {
        for label in labels {
            self.note_label(turn, label)?;
        }
        Ok(())
    }

    /// The timer counts the pulses that came.
    fn count(&mut self, events: &[Event]) {
        for event in events {
            match event {
                Event::Tick(pulses) => {
                    let _rose = self.timer.pulse(*pulses);
                }
                Event::Key(_) => {}
            }
        }
    }

    /// Notes a line of one bit where it is another than before.
    fn note_line(
        &mut self,
        turn: u32,
        signal: Signal,
        before: bool,
        now: bool,
    ) -> Result<(), AllocError> {
        if before == now {
            return Ok(());
        }
        self.note(turn, signal, u16::from(now))
    }

    /// Notes a turn: the events that came, what the processor showed, and whether the chips ask for an interrupt at its end.
    fn note_all(
        &mut self,
        turn: u32,
        events: &[Event],
        labels: &[Label],
        interrupt: bool,
    ) -> Result<(), AllocError> {
        self.text.clear();
        self.count(events);
        self.note_labels(turn, labels)?;
        let output = self.timer.out(0);
        self.note_line(turn, Signal::Timer, self.timer_output, output)?;
        self.timer_output = output;
        self.note_line(turn, Signal::Interrupt, self.interrupt, interrupt)?;
        self.interrupt = interrupt;
        Ok(())
    }

    /// Whether a turn may change something that is wanted: one without events changes nothing where it shows no port and no acknowledgement.
    pub(crate) fn may_change(&self, events: &[Event], labels: &[Label]) -> bool {
        self.is_wanted && (!events.is_empty() || labels.iter().any(is_signal))
    }

    /// Notes a turn, where that is wanted, and writes what changed in it.
    pub(crate) fn note_turn<W: Sink>(
        &mut self,
        turn: u32,
        events: &[Event],
        labels: &[Label],
        interrupt: bool,
        waves: &mut W,
    ) -> Result<(), Fault>
        ensures { IfErr result IsRunFault }
    {
        if !self.is_wanted {
            return Ok(());
        }
        self.note_all(turn, events, labels, interrupt)?;
        match put_all(waves, self.text.as_slice()) {
            Ok(()) => Ok(()),
            Err(_) => Err(CANNOT_WRITE),
        }
    }
}

/// The number that a signal has in the file.
fn code_of(signal: Signal) -> usize {
    match signal {
        Signal::Interrupt => 0,
        Signal::Timer => 1,
        Signal::Vector => 2,
        Signal::Acknowledged => 3,
        Signal::Port(number) => number.saturating_mul(2).saturating_add(4),
        Signal::Passed(number) => number.saturating_mul(2).saturating_add(5),
    }
}

fn character(number: usize) -> u8 {
    (number % 94) as u8 + b'!'
}

/// The three characters that stand for a signal.
fn code_characters(signal: Signal) -> [u8; 3] {
    let code = code_of(signal);
    [
        character(code / 8836),
        character(code / 94),
        character(code),
    ]
}

fn is_line(signal: Signal) -> bool {
    match signal {
        Signal::Interrupt | Signal::Timer | Signal::Acknowledged | Signal::Passed(_) => true,
        Signal::Vector | Signal::Port(_) => false,
    }
}

/// The event beside a value.
fn event_of(signal: Signal) -> Option<Signal> {
    match signal {
        Signal::Vector => Some(Signal::Acknowledged),
        Signal::Port(number) => Some(Signal::Passed(number)),
        Signal::Interrupt | Signal::Timer | Signal::Acknowledged | Signal::Passed(_) => None,
    }
}

/// Adds the value of a line of one bit.
fn put_line_value(text: &mut Vec<u8>, signal: Signal, value: u16) -> Result<(), AllocError> {
    let [a, b, c] = code_characters(signal);
    let bit = if value == 0 { b'0' } else { b'1' };
    text.extend_from_slice(&[bit, a, b, c, b'\n'])
}

/// A bit of a value, as a digit.
fn digit(value: u16, bit: u16) -> u8 {
    if value & bit == 0 { b'0' } else { b'1' }
}

/// Eight bits of a value as digits, the highest first.
fn eight_digits(value: u16) -> [u8; 8] {
    [
        digit(value, 0x80),
        digit(value, 0x40),
        digit(value, 0x20),
        digit(value, 0x10),
        digit(value, 8),
        digit(value, 4),
        digit(value, 2),
        digit(value, 1),
    ]
}

/// Adds the value of a word.
fn put_word_value(text: &mut Vec<u8>, signal: Signal, value: u16) -> Result<(), AllocError> {
    let [a, b, c] = code_characters(signal);
    let [h7, h6, h5, h4, h3, h2, h1, h0] = eight_digits(value / 256);
    let [l7, l6, l5, l4, l3, l2, l1, l0] = eight_digits(value);
    text.extend_from_slice(&[
        b'b', h7, h6, h5, h4, h3, h2, h1, h0, l7, l6, l5, l4, l3, l2, l1, l0, b' ', a, b, c, b'\n',
    ])
}

fn put_value(text: &mut Vec<u8>, signal: Signal, value: u16) -> Result<(), AllocError> {
    if is_line(signal) {
        put_line_value(text, signal, value)
    } else {
        put_word_value(text, signal, value)
    }
}

/// Adds a change, and the event that it is.
fn put_change(text: &mut Vec<u8>, signal: Signal, value: u16) -> Result<(), AllocError> {
    put_value(text, signal, value)?;
    match event_of(signal) {
        Some(event) => put_value(text, event, 1),
        None => Ok(()),
    }
}

/// Adds the line from which on changes are those of a turn.
fn put_time(text: &mut Vec<u8>, turn: u32) -> Result<(), AllocError>
    ensures { OnOk result (text.new.items ≡ text.old.items ++ time_line turn) }
{
    let mut buffer = Buffer::new();
    text.extend_from_slice(b"#")?;
    text.extend_from_slice(buffer.format(turn).as_bytes())?;
    text.extend_from_slice(b"\n")
}

/// Writes the rest of a line.
fn put_rest<W: Sink>(rest: &[u8], waves: &mut W) -> Result<(), SinkFault>
    ensures { Writes (W.taken waves.old) (W.taken waves.new) (W.failures waves.old) (W.failures waves.new) (rest.now ++ line_end) result }
{
    match put_all(waves, rest) {
        Ok(()) => put_all(waves, b"\n"),
        Err(fault) => Err(fault),
    }
}

/// Writes the line that says at which turn the run ended.
fn put_last_time<W: Sink>(turn: u32, waves: &mut W) -> Result<(), SinkFault>
    ensures { Writes (W.taken waves.old) (W.taken waves.new) (W.failures waves.old) (W.failures waves.new) (time_line turn) result }
{
    let mut buffer = Buffer::new();
    let digits = buffer.format(turn).as_bytes();
    match put_all(waves, b"#") {
        Ok(()) => put_rest(digits, waves),
        Err(fault) => Err(fault),
    }
}

fn put_variable(
    text: &mut Vec<u8>,
    front: &[u8],
    signal: Signal,
    name: &[u8],
) -> Result<(), AllocError> {
    text.extend_from_slice(b"$var ")?;
    text.extend_from_slice(front)?;
    text.extend_from_slice(&code_characters(signal))?;
    text.extend_from_slice(b" ")?;
    text.extend_from_slice(name)?;
    text.extend_from_slice(b" $end\n")
}

impl SignalChanges {
    fn put_port(
        &self,
        text: &mut Vec<u8>,
        number: usize,
        signal: PortSignal,
    ) -> Result<(), AllocError> {
        let port = signal.port;
        let word = match (signal.is_read, signal.width) {
            (true, Width::Byte) => "IN",
            (true, Width::Word) => "INW",
            (false, Width::Byte) => "OUT",
            (false, Width::Word) => "OUTW",
        };
        let name = format!(in self.alloc; "{word}_{port:04X}")?;
        let event = format!(in self.alloc; "{word}_{port:04X}_AT")?;
        let (name, event) = (name.as_str().as_bytes(), event.as_str().as_bytes());
        put_variable(text, b"reg 16 ", Signal::Port(number), name)?;
        put_variable(text, b"event 1 ", Signal::Passed(number), event)
    }

    fn put_ports(&self, text: &mut Vec<u8>) -> Result<(), AllocError> {
        for (number, signal) in self.ports.iter().enumerate() {
            self.put_port(text, number, *signal)?;
        }
        Ok(())
    }

    fn put_head(&self, text: &mut Vec<u8>) -> Result<(), AllocError> {
        text.extend_from_slice(b"$timescale 1us $end\n$scope module board $end\n")?;
        put_variable(text, b"wire 1 ", Signal::Interrupt, b"INT")?;
        put_variable(text, b"wire 1 ", Signal::Timer, b"TIMER_OUT_0")?;
        put_variable(text, b"reg 16 ", Signal::Vector, b"ACK")?;
        put_variable(text, b"event 1 ", Signal::Acknowledged, b"ACK_AT")?;
        self.put_ports(text)?;
        text.extend_from_slice(b"$upscope $end\n$enddefinitions $end\n#0\n")?;
        put_value(text, Signal::Interrupt, 0)?;
        put_value(text, Signal::Timer, 1)
    }

    /// The text that stands in front of all changes in the file: what is shown, the ports among it that were met so far, and how all is
    /// before the first turn. Want of memory is its one error.
    pub fn head(&self) -> Result<Vec<u8>, AllocError> {
        let mut text = Vec::new(self.alloc);
        self.put_head(&mut text)?;
        Ok(text)
    }

    /// Writes the last line of the file, the turn at which the run ended. The one refusal is E704, where the sink failed.
    pub fn put_end<W: Sink>(&self, turns: u32, waves: &mut W) -> Result<(), Fault>
        ensures text { Writes (W.taken waves.old) (W.taken waves.new) (W.failures waves.old) (W.failures waves.new) (time_line turns) result }
        ensures fault { IfErr result (λ e. e ≡ At 0 1 E704) }
    {
        match put_last_time(turns, waves) {
            Ok(()) => Ok(()),
            Err(_) => Err(CANNOT_WRITE),
        }
    }
}
