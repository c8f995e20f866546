//! The widths of an access.

/// How many bytes an access or an operand has.
#[derive(Debug, Clone, Copy, PartialEq, Eq)]
pub enum Width {
    /// 8 bits.
    Byte,
    /// 16 bits, low byte first.
    Word,
}
