//! The keyboard: the register that the processor reads, and the codes that wait for it.

ghost use Rattle.std.specs.Prelude.{◌≡◌, ◌<◌, ◌≤◌};

/// A register that the processor reads, and a ring of at most 16 codes that wait for it.
#[derive(Clone, Copy)]
pub struct Keyboard {
    register: Option<u8>,
    codes: [u8; 16],
    /// The place of the queue's front.
    first: u8,
    count: u8,
    ghost first_fits: { first < 16 },
    ghost count_fits: { count ≤ 16 },
}

impl Keyboard {
    ghost use Rattle.ppi_kbd.specs.Keyboard.{reset, pressed, served, is_served, register_byte};
    ghost use Rattle.ppi_kbd.specs.Ports.{keyboard_of};

    /// Nothing in the register, nothing queued.
    pub fn reset() -> Self
        ensures { keyboard_of result ≡ reset }
    {
        Keyboard {
            register: None,
            codes: [0; 16],
            first: 0,
            count: 0,
        }
    }

    /// The register, 0 while it is empty.
    pub fn register(&self) -> u8
        ensures { result ≡ register_byte (keyboard_of self.now) }
    {
        self.register.unwrap_or(0)
    }

    /// A code joins the queue, or is lost where 16 wait.
    pub fn press(&mut self, code: u8)
        ensures { keyboard_of self.new ≡ pressed code (keyboard_of self.old) }
    {
        if self.count < 16 {
            let place = (self.first + self.count) % 16;
            self.codes[usize::from(place)] = code;
            self.count += 1;
        }
    }

    /// Moves on, with the clear line up or down: up it empties the register, down an empty register takes the queue's front.
    /// Tells whether a code moved into the register.
    pub fn serve(&mut self, clear: bool) -> bool
        ensures moved { keyboard_of self.new ≡ served clear (keyboard_of self.old) }
        ensures rose { result ≡ is_served clear (keyboard_of self.old) }
    {
        if clear {
            self.register = None;
            return false;
        }
        if self.register.is_some() || self.count == 0 {
            return false;
        }
        self.register = Some(self.codes[usize::from(self.first)]);
        self.first = (self.first + 1) % 16;
        self.count -= 1;
        true
    }
}
