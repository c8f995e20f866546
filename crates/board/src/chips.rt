//! The chips' calls, by the settled states that they stand for.

ghost use Rattle.std.specs.Prelude.{◌≡◌};
ghost use Rattle.word86.specs.declared.width.Width.TheVariants.{Byte};
ghost use Rattle.ppi_kbd.specs.Chips.{writing};
ghost use Rattle.board.specs.Inner.Settled.{chips_of, settled, settled_chips};

use ppi_kbd::Ports;
use word86::{Event, Width};

/// Reads a port; a word comes from it and the next one.
pub(crate) fn read_port(ports: &mut Ports, width: Width, port: u16) -> u16
    ensures value { result ≡ settled_chips.value (chips_of ports.old) width port }
    ensures after { chips_of ports.new ≡ settled_chips.reading (chips_of ports.old) width port }
{
    match width {
        Width::Byte => u16::from(ports.read(port)),
        Width::Word => ports.read_word(port),
    }
}

/// The last port that a chip has.
const LAST_PORT: u16 = 0x63;

/// Writes a byte to a port. What goes to a port of no chip is for the trace alone, and is not brought to the chips.
#[tactic(auto, using(crate::proofs::Unmapped::unmapped_stays))]
#[inline(always)]
fn write_byte(ports: &mut Ports, port: u16, value: u8)
    ensures { chips_of ports.new ≡ settled (writing (chips_of ports.old) Byte port value) }
{
    if port > LAST_PORT {
        return;
    }
    ports.write(port, value);
}

/// Writes a port; a word goes to it and the next one. Of a value for a byte the low half is taken.
pub(crate) fn write_port(ports: &mut Ports, width: Width, port: u16, value: u16)
    ensures { chips_of ports.new ≡ settled_chips.writing (chips_of ports.old) width port value }
{
    match width {
        Width::Byte => write_byte(ports, port, (value % 256) as u8),
        Width::Word => ports.write_word(port, value),
    }
}

/// Whether INT is up.
pub(crate) fn int_line(ports: &Ports) -> bool
    ensures { result ≡ settled_chips.int_line (chips_of ports.now) }
{
    ports.int_line()
}

/// Acknowledges the interrupt that is requested, if one is, and answers its vector.
pub(crate) fn acknowledge(ports: &mut Ports) -> u8
    ensures vector { result ≡ settled_chips.vector (chips_of ports.old) }
    ensures after { chips_of ports.new ≡ settled_chips.acknowledge (chips_of ports.old) }
{
    if ports.int_line() {
        ports.acknowledge()
    } else {
        0
    }
}

/// An event comes from outside.
pub(crate) fn occurs(ports: &mut Ports, event: Event)
    ensures { chips_of ports.new ≡ settled_chips.occurs event (chips_of ports.old) }
{
    ports.event(event);
}
