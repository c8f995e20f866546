//! The laws: over every list of calls, and the bounds of what is answered.

ghost use Rattle.std.specs.Prelude.{◌≡◌, ℕ, ◌<◌, length};
ghost use Rattle.word86.specs.declared.width.Width.{Width};
ghost use Rattle.word86.specs.Access.{values};
ghost use Rattle.ppi_kbd.specs.Chips.{ChipState, reset};
ghost use Rattle.ppi_kbd.specs.BoardChips.{board_chips};
ghost use Rattle.ppi_kbd.specs.Ports.{Shows};
ghost use Rattle.ppi_kbd.specs.Calls.{after, after_one, reply_of, replies_of};

use crate::ports::Ports;
use word86::Event;

/// A call of the port map.
#[derive(Clone, Copy)]
pub enum Call {
    /// A byte is read from this port.
    Read(u16),
    /// A word is read from this port and the next one.
    ReadWord(u16),
    /// A byte is written to this port.
    Write(u16, u8),
    /// A word is written to this port and the next one.
    WriteWord(u16, u16),
    /// An event comes from outside.
    Comes(Event),
    /// Whether INT is up.
    Line,
    /// An acknowledgement; it does nothing while INT is down.
    Acknowledge,
}

/// What a call answers.
#[derive(Clone, Copy, PartialEq, Eq)]
pub enum Reply {
    Nothing,
    /// The byte that was read, or the vector.
    Byte(u8),
    /// The word that was read.
    Word(u16),
    /// Whether INT is up.
    Signal(bool),
}

fn make(ports: &mut Ports, call: Call) -> Reply
    ensures state { (c : ChipState) → Shows ports.old c → Shows ports.new (after_one call c) }
    ensures reply { (c : ChipState) → Shows ports.old c → result ≡ reply_of call c }
{
    match call {
        Call::Read(port) => Reply::Byte(ports.read(port)),
        Call::ReadWord(port) => Reply::Word(ports.read_word(port)),
        Call::Write(port, value) => {
            ports.write(port, value);
            Reply::Nothing
        }
        Call::WriteWord(port, value) => {
            ports.write_word(port, value);
            Reply::Nothing
        }
        Call::Comes(event) => {
            ports.event(event);
            Reply::Nothing
        }
        Call::Line => Reply::Signal(ports.int_line()),
        Call::Acknowledge => {
            if ports.int_line() {
                Reply::Byte(ports.acknowledge())
            } else {
                Reply::Nothing
            }
        }
    }
}

/// Makes any list of calls on chips at reset and writes each one's answer into `replies`: they are the definition's, and the
/// chips show the state to which the definition leads.
pub fn replay(calls: &[Call], replies: &mut [Reply]) -> Ports
    requires { length calls.now ≡ length replies.old }
    ensures answers { replies.new ≡ replies_of calls.now reset }
    ensures state { Shows result (after calls.now reset) }
{
    let mut ports = Ports::reset();
    for (i, call) in calls.iter().enumerate() {
        replies[i] = make(&mut ports, *call);
    }
    ports
}

/// The law of bounds: a value that is read fits its width, and a vector fits a byte, in every state of the definition.
pub fn bounds_law()
    ensures value { (c : ChipState) (width : Width) (port : ℕ) → board_chips.value c width port < values width }
    ensures vector { (c : ChipState) → board_chips.vector c < 256 }
{}
