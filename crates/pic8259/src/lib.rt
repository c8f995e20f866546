//! The 8259A interrupt controller: one chip, edge triggered, in fully nested mode.
//!
//! Its state is three sets of levels: requested, in service and masked. INT is up while a requested, unmasked level stands
//! above every level in service. The order of priority is told by the level that is lowest: IR7 at first, and what a rotating
//! command says after it. No call takes memory or refuses.
#![tactic(auto)]

mod calls;
mod levels;
mod pic;
mod registers;

pub use calls::{Call, Reply, highest_law, line_law, next_law, replay, rotation_law, sets_law};
pub use pic::Pic;
