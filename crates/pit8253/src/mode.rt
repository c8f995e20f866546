//! What a control word chooses (8253 data sheet, "Control Word Format").

/// The waveform of a count that is counted again and again.
#[derive(Clone, Copy)]
pub enum Waveform {
    /// Mode 2, the rate generator: low for the last pulse of each period.
    Rate,
    /// Mode 3, the square wave: low for the second half of each period.
    Square,
}

/// The mode of a channel.
#[derive(Clone, Copy)]
pub enum Mode {
    /// No control word has come yet.
    Unset,
    /// Mode 0, interrupt on terminal count: OUT rises once.
    TerminalCount,
    /// Modes 2 and 3.
    Periodic(Waveform),
}

/// Which bytes of a count are written and read.
#[derive(Clone, Copy)]
pub enum Access {
    Low,
    High,
    /// The low byte, then the high one.
    Both,
}
