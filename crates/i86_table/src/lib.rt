//! The instructions of the 8086, its registers, its flags and its arithmetic.
#![tactic(auto)]

mod alu;
mod arithmetic_law;
mod computing;
mod condition;
mod context_law;
mod flags;
mod instruction;
mod late_flags;
mod multiplication;
mod open;
mod operands;
mod outcome;
mod pair_law;
mod pairs;
mod registers;
mod shifts;
mod signed_law;
mod width;
mod words;

pub use arithmetic_law::{
    control_flags_law, overflow_laws, product_laws, quotient_laws, rotation_laws, shift_laws,
};
pub use condition::inverse_law;
pub use context_law::context_laws;
pub use flags::{Flags, flag_laws};
pub use instruction::{
    Address, AluOperation, Base, Condition, Count, Instr, Memory, Operands, Port, Repeat,
    RmOperand, ShiftOperation, Signedness, TestMask, UnaryOperation,
};
pub use multiplication::{divide, sign_extended, sign_word};
pub use open::{Open, Spot, Use};
pub use outcome::{Division, Outcome, Product};
pub use pair_law::pair_laws;
pub use pairs::{BytePair, WordPair};
pub use registers::{LoadableSegment, Register8, Register16, Regs, Segment};
pub use signed_law::signed_laws;
pub use words::instructions_keep_words;
