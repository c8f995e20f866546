//! The 8253 interval timer: three channels that count clock pulses, in modes 0, 2 and 3.
//!
//! OUT and the count of a channel are defined as closed forms in the count N and the number p of pulses since it was loaded.
//! A train of k pulses is counted by arithmetic over at most three segments a channel, whatever k. No call takes memory or
//! refuses.
#![tactic(auto)]

mod calls;
mod channel;
mod cycle;
mod element;
mod mode;
mod once;
mod pit;

pub use calls::{Call, Reply, alike_law, pulse_agrees, replay};
pub use channel::{Channel, Segments};
pub use pit::Pit;
