//! The counted stack: how much of it main and an interrupt need at most.
#![tactic(auto)]

mod counting;
mod laws;
mod need;

pub use counting::{Stack, count, saved};
pub use laws::{small_programs_fit, stack_is_bounded};
pub use need::height_after;
