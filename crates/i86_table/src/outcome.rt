//! What arithmetic answers.

use crate::flags::Flags;

/// A value and the flags that computing it leaves.
#[derive(Clone, Copy)]
pub struct Outcome {
    pub value: u16,
    pub flags: Flags,
}

/// A product of twice its operands' width, and the flags that computing it leaves.
#[derive(Clone, Copy)]
pub struct Product {
    pub value: u32,
    pub flags: Flags,
}

/// What a division leaves.
#[derive(Clone, Copy)]
pub struct Division {
    pub quotient: u16,
    pub remainder: u16,
}
