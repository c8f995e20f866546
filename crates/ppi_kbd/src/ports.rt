//! The port map over the chips.

ghost use Rattle.std.specs.Prelude.{◌≡◌, Bool, true};
ghost use Rattle.word86.specs.declared.width.Width.TheVariants.{Byte, Word};
ghost use Rattle.ppi_kbd.specs.Chips.{ChipState, reset, value, reading, writing, occurs, int_line, vector, acknowledged};

use crate::device::{Device, device_at};
use crate::keyboard::Keyboard;
use crate::ppi::Ppi;
use pic8259::Pic;
use pit8253::Pit;
use word86::{Event, is_set};

/// The request line of the timer's channel 0.
const TIMER_LEVEL: u8 = 0;
/// The request line of the keyboard.
const KEYBOARD_LEVEL: u8 = 1;

/// The chips on the ports of an IBM PC board: 8259A, 8253, 8255A and keyboard (IBM PC Technical Reference, "I/O Address Map").
///
/// Each call is stated for every state of the definition that the chips show: they show the definition's next state
/// afterwards, and the answer is the definition's.
#[derive(Drop)]
pub struct Ports {
    pit: Pit,
    pic: Pic,
    ppi: Ppi,
    keyboard: Keyboard,
}

impl Ports {
    ghost use Rattle.ppi_kbd.specs.Ports.{Shows, is_up};
    ghost use Rattle.ppi_kbd.specs.Chips.{typed, driven, device_written, clear_line};
    ghost use Rattle.ppi_kbd.specs.Ports.{keyboard_of, interface_of};

    /// The chips at reset.
    pub fn reset() -> Self
        ensures { Shows result reset }
    {
        Ports {
            pit: Pit::reset(),
            pic: Pic::reset(),
            ppi: Ppi::reset(),
            keyboard: Keyboard::reset(),
        }
    }

    /// Reads a byte from a port. An unmapped one reads 0FFH.
    pub fn read(&mut self, port: u16) -> u8
        ensures state { (c : ChipState) → Shows self.old c → Shows self.new (reading c Byte port) }
        ensures value { (c : ChipState) → Shows self.old c → result ≡ value c Byte port }
    {
        match device_at(port) {
            Device::Interrupts(n) => self.pic.read(n),
            Device::Timer(n) => self.pit.read(n),
            Device::Interface(n) => self.ppi.read(n, self.keyboard.register(), self.pit.out(2)),
            Device::Unmapped => 255,
        }
    }

    /// Reads a word: the low byte, then the high byte from the next port, modulo 65,536.
    pub fn read_word(&mut self, port: u16) -> u16
        ensures state { (c : ChipState) → Shows self.old c → Shows self.new (reading c Word port) }
        ensures value { (c : ChipState) → Shows self.old c → result ≡ value c Word port }
    {
        let low = self.read(port);
        let high = self.read(port.wrapping_add(1));
        u16::from(high) * 256 + u16::from(low)
    }

    /// Writes a byte to a port. An unmapped one takes nothing.
    pub fn write(&mut self, port: u16, value: u8)
        ensures { (c : ChipState) → Shows self.old c → Shows self.new (writing c Byte port value) }
    {
        match device_at(port) {
            Device::Interrupts(n) => self.pic.write(n, value),
            Device::Timer(n) => self.write_timer(n, value),
            Device::Interface(n) => self.write_interface(n, value),
            Device::Unmapped => {}
        }
    }

    /// Writes a word: the low byte, then the high byte to the next port, modulo 65,536.
    pub fn write_word(&mut self, port: u16, value: u16)
        ensures { (c : ChipState) → Shows self.old c → Shows self.new (writing c Word port value) }
    {
        self.write(port, (value % 256) as u8);
        self.write(port.wrapping_add(1), (value / 256) as u8);
    }

    /// A write to the timer, which may raise channel 0's OUT by itself.
    fn write_timer(&mut self, n: u8, value: u8)
        ensures { (c : ChipState) → Shows self.old c → Shows self.new (device_written (Device.Timer n) value c) }
    {
        let was_high = self.pit.out(0);
        self.pit.write(n, value);
        if !was_high && self.pit.out(0) {
            self.pic.pulse(TIMER_LEVEL);
        }
    }

    /// A write to the peripheral interface, whose port B drives a gate and the keyboard.
    fn write_interface(&mut self, n: u8, value: u8)
        ensures { (c : ChipState) → Shows self.old c → Shows self.new (device_written (Device.Interface n) value c) }
    {
        self.ppi.write(n, value);
        self.pit.gate(is_set(self.ppi.b_lines(), 0));
        self.serve_keyboard();
    }

    /// Lets the keyboard move on.
    fn serve_keyboard(&mut self)
        ensures { (c : ChipState) → Shows self.old c → Shows self.new (typed (clear_line c) c.keyboard c) }
    {
        if self.keyboard.serve(is_set(self.ppi.b_lines(), 7)) {
            self.pic.pulse(KEYBOARD_LEVEL);
        }
    }

    /// An event from outside: pulses on every channel of the timer, or a code of the keyboard.
    pub fn event(&mut self, event: Event)
        ensures { (c : ChipState) → Shows self.old c → Shows self.new (occurs event c) }
    {
        match event {
            Event::Tick(k) => {
                if self.pit.pulse(k) {
                    self.pic.pulse(TIMER_LEVEL);
                }
            }
            Event::Key(code) => {
                self.keyboard.press(code);
                self.serve_keyboard();
            }
        }
    }

    /// Whether INT is up.
    pub fn int_line(&self) -> bool
        ensures up { result ≡ is_up self.now }
        ensures int_line { (c : ChipState) → Shows self.now c → result ≡ int_line c }
    {
        self.pic.int_line()
    }

    /// Acknowledges the interrupt that INT asks for and answers its vector. It may be called while INT is up alone.
    pub fn acknowledge(&mut self) -> u8
        requires { is_up self.old ≡ true }
        ensures state { (c : ChipState) → Shows self.old c → Shows self.new (acknowledged c) }
        ensures vector { (c : ChipState) → Shows self.old c → result ≡ vector c }
    {
        self.pic.acknowledge()
    }
}
