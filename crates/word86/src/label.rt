//! What a run shows.

/// A port access, a screen store, an acknowledgement of an interrupt, or an event from outside.
#[derive(Debug, Clone, Copy, PartialEq, Eq)]
pub enum Label {
    /// A byte read from a port.
    In(u16, u8),
    /// A word read from a port and the one above it.
    InW(u16, u16),
    /// A byte written to a port.
    Out(u16, u8),
    /// A word written to a port and the one above it.
    OutW(u16, u16),
    /// A byte stored in the colour page, at its offset from 0B8000H.
    Scr(u16, u8),
    /// A word stored in the colour page, at the offset of its low byte from 0B8000H.
    ScrW(u16, u16),
    /// A byte stored in the monochrome page, at its offset from 0B0000H.
    Mono(u16, u8),
    /// A word stored in the monochrome page, at the offset of its low byte from 0B0000H.
    MonoW(u16, u16),
    /// An interrupt acknowledged, with its vector.
    Ack(u8),
    /// Clock pulses that came.
    Tick(u16),
    /// A key code that came.
    Key(u8),
}

impl Default for Label {
    /// No clock pulses: what an empty place of a list of labels holds.
    fn default() -> Label {
        Label::Tick(0)
    }
}
