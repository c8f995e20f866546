//! The accesses of a program's steps.

use crate::place::Place;
use crate::width::Width;

/// One access: of a variable, of the screen, or of a port; a write has its value.
#[derive(Debug, Clone, Copy, PartialEq, Eq)]
pub enum Access {
    Read(Width, Place),
    Write(Width, Place, u16),
    Input(Width, u16),
    Output(Width, u16, u16),
}
