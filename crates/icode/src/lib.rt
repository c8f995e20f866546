//! The intermediate code: instructions of a machine with an accumulator and a stack of words, each with at most one access.
#![tactic(auto)]

mod code;
mod instruction;
mod low_bytes;
mod machine;
mod ram_objects;
mod registers;

pub use code::{Code, Position, Procedure, Routine, Word};
pub use instruction::{Direct, High, Instruction, LowByte, Relation, Right, Test};
pub use machine::{Machine, Step, Stop};
pub use ram_objects::RamObjects;
pub use registers::{Registers, is_direct};
