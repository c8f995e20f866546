//! What reaches the board from outside.

ghost use Rattle.std.specs.Prelude.{◌≡◌};
ghost use Rattle.word86.specs.Event.{event_label};

use crate::label::Label;

/// A train of clock pulses, or a key code from the keyboard.
#[derive(Debug, Clone, Copy, PartialEq, Eq)]
pub enum Event {
    /// This number of pulses, 1 to 65,535, on every channel of the timer.
    Tick(u16),
    /// A code of the keyboard.
    Key(u8),
}

impl Event {
    /// What a run shows of the event.
    pub fn label(self) -> Label
        ensures { result ≡ event_label self }
    {
        match self {
            Event::Tick(pulses) => Label::Tick(pulses),
            Event::Key(code) => Label::Key(code),
        }
    }
}
