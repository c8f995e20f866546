//! The 8255A in mode 0 (8255A data sheet, "Mode Definition Format" and "Bit Set/Reset Format").

ghost use Rattle.std.specs.Prelude.{◌≡◌, ◌<◌, if◌then◌else◌};
ghost use Rattle.ppi_kbd.specs.Interface.{with_bit, without_bit};

use word86::is_set;

/// The byte with this bit changed.
fn with_bit(byte: u8, bit: u8, set: bool) -> u8
    requires { bit < 8 }
    ensures { result ≡ (if set then with_bit bit byte else without_bit bit byte) }
{
    if set {
        byte | (1 << bit)
    } else {
        byte & !(1 << bit)
    }
}

/// Three ports, each an input or an output, C by halves.
#[derive(Clone, Copy)]
pub struct Ppi {
    a_in: bool,
    b_in: bool,
    upper_in: bool,
    lower_in: bool,
    a: u8,
    b: u8,
    c: u8,
}

impl Ppi {
    ghost use Rattle.ppi_kbd.specs.Interface.{reset, configured, bit_changed, written, b_lines, answer};
    ghost use Rattle.ppi_kbd.specs.Ports.{interface_of};

    /// Every port is an input.
    pub fn reset() -> Self
        ensures { interface_of result ≡ reset }
    {
        Ppi {
            a_in: true,
            b_in: true,
            upper_in: true,
            lower_in: true,
            a: 0,
            b: 0,
            c: 0,
        }
    }

    /// The lines that port B drives.
    pub fn b_lines(&self) -> u8
        ensures { result ≡ b_lines (interface_of self.now) }
    {
        if self.b_in { 0 } else { self.b }
    }

    /// Reads port 0 to 2, or the control register.
    pub fn read(&self, n: u8, register: u8, out: bool) -> u8
        ensures { result ≡ answer n register out (interface_of self.now) }
    {
        match n {
            0 => { if self.a_in { register } else { self.a } }
            1 => { if self.b_in { 255 } else { self.b } }
            2 => self.read_c(out),
            _ => 255,
        }
    }

    fn read_c(&self, out: bool) -> u8
        ensures { result ≡ answer 2 0 out (interface_of self.now) }
    {
        let upper = if !self.upper_in {
            16 * (self.c / 16)
        } else if out {
            32
        } else {
            0
        };
        let lower = if self.lower_in { 0 } else { self.c % 16 };
        upper + lower
    }

    /// Writes the latch of port 0 to 2, or a control word.
    pub fn write(&mut self, n: u8, v: u8)
        ensures { interface_of self.new ≡ written n v (interface_of self.old) }
    {
        match n {
            0 => self.a = v,
            1 => self.b = v,
            2 => self.c = v,
            _ => {
                if is_set(v, 7) {
                    self.configure(v);
                } else {
                    self.c = with_bit(self.c, v / 2 % 8, is_set(v, 0));
                }
            }
        }
    }

    /// A mode word (8255A data sheet, "Mode Definition Format"). It clears the latches; one with another mode than 0 is ignored.
    fn configure(&mut self, v: u8)
        ensures { interface_of self.new ≡ configured v (interface_of self.old) }
    {
        if v / 32 % 4 == 0 && !is_set(v, 2) {
            *self = Ppi {
                a_in: is_set(v, 4),
                b_in: is_set(v, 1),
                upper_in: is_set(v, 3),
                lower_in: is_set(v, 0),
                a: 0,
                b: 0,
                c: 0,
            };
        }
    }
}
